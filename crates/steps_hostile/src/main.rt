// The program `steps` over hostile input: lines that are almost commands, the ends of the number range, every refusal that a line
// can meet, a line that is longer than any buffer, and a last line without a newline.
#![tactic(auto)]

fn main(rt: HostRuntime) {
    steps_io::run(&rt);
}
