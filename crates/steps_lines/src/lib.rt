// Lines cut out of bytes and answered in turn: the work of the program `steps`, without its reads and writes. All here are
// leaves for our other crates.
#![tactic(auto)]

ghost use Rattle.std.specs.Prelude.{◌≡◌, List, [], ℕ, ◌+◌, ◌≤◌, ◌<◌, ℤ, length, take};
ghost use Rattle.steps_replies.specs.Written.{longest_line};
ghost use Rattle.steps_lines.specs.LineSessions.{LineSession, fresh_session, ended, finished, after_byte, after_bytes};
ghost use Rattle.steps_lines.specs.Standing.{StandsFor};

mod line;

pub use line::Line;
use reader::VersionRecord;

// A byte more than the longest command: of a longer line these show that it is bad.
pub const LINE_BYTES: usize = steps_commands::LONGEST_COMMAND + 1;

// What stands between two bytes: the record, the line as far as it is kept, and how many bytes of the buffer are replies. The table
// and the buffer are lent for each call.
#[derive(Clone, Copy)]
pub struct Progress {
    pub versions: VersionRecord,
    pub line: Line,
    pub place: usize,
}

impl Progress {
    // Before the first byte.
    pub fn fresh() -> Self
        ensures fresh { (result.line.items ≡ []) × (result.place ≡ 0) }
        ensures stands_for { (t : List ℤ) (b : List ℕ) → StandsFor (fresh_session t) t b result }
    {
        Progress {
            versions: VersionRecord::fresh(),
            line: Line::new(),
            place: 0,
        }
    }

    // The line is answered, and the next begins.
    fn end_line(&mut self, table: &mut [i64], buffer: &mut [u8])
        requires room_for_a_line { self.old.place + longest_line ≤ length buffer.old }
        ensures sound_after { self.new.place ≤ length buffer.new }
        ensures stands_for { (s : LineSession) → StandsFor s table.old buffer.old self.old → StandsFor (ended s) table.new buffer.new self.new }
    {
        self.place = steps_answers::answer(
            table,
            &mut self.versions,
            self.line.as_slice(),
            buffer,
            self.place,
        );
        self.line.clear();
    }

    // The last line needs no newline.
    pub fn end_last(&mut self, table: &mut [i64], buffer: &mut [u8])
        requires room_for_a_line { self.old.place + longest_line ≤ length buffer.old }
        ensures sound_after { self.new.place ≤ length buffer.new }
        ensures stands_for { (s : LineSession) → StandsFor s table.old buffer.old self.old → StandsFor (finished s) table.new buffer.new self.new }
    {
        if !self.line.is_empty() {
            self.end_line(table, buffer);
        }
    }

    // A newline ends the line, and any other byte belongs to it, which is kept where there is room for it.
    fn take_byte(&mut self, table: &mut [i64], buffer: &mut [u8], byte: u8)
        requires room_for_a_line { self.old.place + longest_line ≤ length buffer.old }
        ensures sound_after { self.new.place ≤ length buffer.new }
        ensures stands_for { (s : LineSession) → StandsFor s table.old buffer.old self.old → StandsFor (after_byte s byte) table.new buffer.new self.new }
    {
        if byte == steps_replies::NEWLINE {
            self.end_line(table, buffer);
        } else if !self.line.is_full() {
            self.line.push(byte);
        }
    }

    // Bytes in turn, as long as the buffer has room for the longest line; how many were taken.
    #[tactic(auto, using(std::proofs::lemmas::Grind::common_steps, crate::specs::LineSessionLaws::no_bytes, crate::specs::LineSessionLaws::and_last))]
    pub fn take_bytes(&mut self, table: &mut [i64], buffer: &mut [u8], input: &[u8]) -> usize
        requires room_for_a_line { self.old.place + longest_line ≤ length buffer.old }
        ensures sound_after { self.new.place ≤ length buffer.new }
        ensures within_input { result ≤ length input.now }
        ensures some_taken { 0 < length input.now → 0 < result }
        ensures stands_for { (s : LineSession) → StandsFor s table.old buffer.old self.old → StandsFor (after_bytes s (take result input.now)) table.new buffer.new self.new }
    {
        for (taken, byte) in input.iter().enumerate() {
            if !steps_replies::has_room(buffer.len(), self.place) {
                return taken;
            }
            self.take_byte(table, buffer, *byte);
        }
        input.len()
    }
}
