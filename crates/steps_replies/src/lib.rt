// What the program `steps` answers to a line: each answer of the library as a line, written into a lent buffer from a place on, or
// behind the lines of a text (`texts`). All here but `texts` are leaves for our other crates.
#![tactic(auto)]

ghost use Rattle.std.specs.Prelude.{◌≡◌, ℕ, ◌+◌, ◌*◌, ◌≤◌, List, leb, length};
ghost use Rattle.steps_replies.specs.Replies.{line_by, version_line, slot_line, row_line, answer_line, bad_line};
ghost use Rattle.steps_replies.specs.Written.{longest_line, Written};
ghost use Rattle.steps_replies.specs.Puts.{Put};

#[cfg(test)]
mod tests;
mod texts;

use itoa::{Buffer, Integer};
use reads::Row;
use refusals::Refusal;
pub use texts::{Reply, write_line};

// The longest line that is answered: row, and two numbers of 20 bytes, a space before each, and a newline.
pub const LONGEST_LINE: usize = 46;

// How many bytes of lines wait at most in the program; a buffer of any other length is written into as well.
pub const REPLY_BYTES: usize = 65536;

// What ends a line.
pub const NEWLINE: u8 = b'\n';

// An answer that is a line, which is put into a lent buffer.
pub trait ReplyAt: Copy {
    ghost line: { Self → List ℕ };

    // The line, from a place on; there is room for the longest. Answers the place after it.
    fn put_to(self, buffer: &mut [u8], place: usize) -> usize
        requires { place + longest_line ≤ length buffer.old }
        ensures put { Put buffer.old place (line self) result buffer.new }
        ensures within { result ≤ length buffer.new };
}

// The number of a version, as begin and commit answer it.
impl ReplyAt for i64 {
    ghost line = { version_line };

    fn put_to(self, buffer: &mut [u8], place: usize) -> usize {
        put_line(buffer, place, "version", &[self])
    }
}

// The number of a slot, as a change answers it.
impl ReplyAt for usize {
    ghost line = { slot_line };

    fn put_to(self, buffer: &mut [u8], place: usize) -> usize {
        put_line(buffer, place, "slot", &[self])
    }
}

// A row or none, as a read answers it.
impl ReplyAt for Option<Row> {
    ghost line = { row_line };

    fn put_to(self, buffer: &mut [u8], place: usize) -> usize {
        match self {
            Some(row) => put_line(buffer, place, "row", &[row.total1, row.total2]),
            None => put_line::<i64>(buffer, place, "none", &[]),
        }
    }
}

// What the library answers, or its refusal.
impl<A: ReplyAt> ReplyAt for Result<A, Refusal> {
    ghost line = { answer_line A.line };

    fn put_to(self, buffer: &mut [u8], place: usize) -> usize {
        match self {
            Ok(answer) => answer.put_to(buffer, place),
            Err(refusal) => put_line(buffer, place, "refused", &[refusal.number()]),
        }
    }
}

// What is answered to a line that asks nothing.
#[derive(Clone, Copy)]
pub struct BadLine;

impl ReplyAt for BadLine {
    ghost line = { λ _. bad_line };

    fn put_to(self, buffer: &mut [u8], place: usize) -> usize {
        put_line::<i64>(buffer, place, "bad line", &[])
    }
}

// A text, from a place on.
fn put_text(buffer: &mut [u8], place: usize, text: &str) -> usize
    requires { place + length text.now ≤ length buffer.old }
    ensures { Put buffer.old place text.now result buffer.new }
{
    let next = place + text.len();
    buffer[place..next].copy_from_slice(text.as_bytes());
    next
}

// A word and numbers, a space before each, and a newline.
fn put_line<I: Integer>(buffer: &mut [u8], place: usize, word: &str, numbers: &[I]) -> usize
    requires { place + length word.now + length numbers.now * (I.MAX_STR_LEN + 1) + 1 ≤ length buffer.old }
    ensures put { Put buffer.old place (line_by I.text word.now numbers.now) result buffer.new }
    ensures within { result ≤ length buffer.new }
{
    let mut digits = Buffer::new();
    let mut next = put_text(buffer, place, word);
    for number in numbers {
        next = put_text(buffer, next, " ");
        next = put_text(buffer, next, digits.format(*number));
    }
    put_text(buffer, next, "\n")
}

// Whether the longest line fits between a place and the end.
pub fn has_room(length: usize, place: usize) -> bool
    ensures { result ≡ leb (place + longest_line) length }
{
    length.saturating_sub(place) >= LONGEST_LINE
}

// The line of an answer, from a place on, or nothing where the longest has no room. Answers the place after it, or the place itself.
#[tactic(auto, unfolding(crate::specs::Written::buffer_after, crate::specs::Written::place_after))]
pub fn write_line_at<A: ReplyAt>(buffer: &mut [u8], place: usize, answer: A) -> usize
    ensures { Written buffer.old place (A.line answer) result buffer.new }
{
    if has_room(buffer.len(), place) {
        return answer.put_to(buffer, place);
    }
    place
}
