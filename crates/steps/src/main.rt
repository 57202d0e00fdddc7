// The program `steps`, over the session of docs/session.txt.
#![tactic(auto)]

fn main(rt: HostRuntime) {
    steps_io::run(&rt);
}
