// The same answers as lines of a text of any size, which is UTF-8 by its type: each behind those that wait. A line of ours is made by
// `put_to`, in a buffer of its own, and is then pushed. For callers that keep replies in a text; the program does not.
ghost use Rattle.std.specs.Prelude.{◌≡◌, ℕ, ◌+◌, ◌≤◌, List, ◌++◌, IsUtf8};
ghost use Rattle.arrayvec.specs.ArrayString.{array_string_len};
ghost use Rattle.steps_replies.specs.Replies.{version_line, slot_line, row_line, answer_line, bad_line};
ghost use Rattle.steps_replies.specs.Written.{longest_line};
ghost use Rattle.steps_replies.specs.Texts.{written};

use crate::{BadLine, LONGEST_LINE, ReplyAt, has_room};
use arrayvec::ArrayString;
use reads::Row;
use refusals::Refusal;
use std::str;

// An answer that is a line of a text.
pub trait Reply<const BYTES: usize>: Copy {
    ghost line: { Self → List ℕ };

    // The line, behind those that wait; there is room for the longest.
    fn push_to(self, replies: &mut ArrayString<BYTES>)
        requires { array_string_len replies.old + longest_line ≤ BYTES }
        ensures { replies.new.bytes ≡ replies.old.bytes ++ line self };
}

// The number of a version, as begin and commit answer it.
impl<const BYTES: usize> Reply<BYTES> for i64 {
    ghost line = { version_line };

    #[tactic(auto, using(crate::specs::TextLaws::lines_are_text))]
    fn push_to(self, replies: &mut ArrayString<BYTES>) {
        push_reply::<i64, BYTES>(replies, self);
    }
}

// The number of a slot, as a change answers it.
impl<const BYTES: usize> Reply<BYTES> for usize {
    ghost line = { slot_line };

    #[tactic(auto, using(crate::specs::TextLaws::lines_are_text))]
    fn push_to(self, replies: &mut ArrayString<BYTES>) {
        push_reply::<usize, BYTES>(replies, self);
    }
}

// A row or none, as a read answers it.
impl<const BYTES: usize> Reply<BYTES> for Option<Row> {
    ghost line = { row_line };

    #[tactic(auto, using(crate::specs::TextLaws::lines_are_text))]
    fn push_to(self, replies: &mut ArrayString<BYTES>) {
        push_reply::<Option<Row>, BYTES>(replies, self);
    }
}

// What the library answers, or its refusal.
impl<A: Reply<BYTES>, const BYTES: usize> Reply<BYTES> for Result<A, Refusal> {
    ghost line = { answer_line A.line };

    #[tactic(auto, using(crate::specs::TextLaws::lines_are_text))]
    fn push_to(self, replies: &mut ArrayString<BYTES>) {
        match self {
            Ok(answer) => answer.push_to(replies),
            Err(refusal) => push_reply::<Result<i64, Refusal>, BYTES>(replies, Err(refusal)),
        }
    }
}

impl<const BYTES: usize> Reply<BYTES> for BadLine {
    ghost line = { λ _. bad_line };

    #[tactic(auto, using(crate::specs::TextLaws::lines_are_text))]
    fn push_to(self, replies: &mut ArrayString<BYTES>) {
        push_reply::<BadLine, BYTES>(replies, self);
    }
}

// The line of an answer, which is text.
fn push_reply<A: ReplyAt, const BYTES: usize>(replies: &mut ArrayString<BYTES>, answer: A)
    requires room { array_string_len replies.old + longest_line ≤ BYTES }
    requires text { IsUtf8 (A.line answer) }
    ensures { replies.new.bytes ≡ replies.old.bytes ++ A.line answer }
{
    let mut line = [0; LONGEST_LINE];
    let end = answer.put_to(&mut line, 0);
    if let Ok(text) = str::from_utf8(&line[..end]) {
        replies.push_str(text);
    }
}

// The line of an answer behind those that wait, or nothing where the longest has no room.
#[tactic(auto, unfolding(crate::specs::Texts::written))]
pub fn write_line<A: Reply<BYTES>, const BYTES: usize>(replies: &mut ArrayString<BYTES>, answer: A)
    ensures { replies.new.bytes ≡ written BYTES replies.old.bytes (A.line answer) }
{
    if has_room(BYTES, replies.len()) {
        answer.push_to(replies);
    }
}
