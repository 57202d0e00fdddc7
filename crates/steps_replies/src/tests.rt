// Answers as lines of a text, and an answer of a crate's own among them.
ghost use Rattle.std.specs.Prelude.{codes};

use super::*;
use arrayvec::ArrayString;

#[derive(Clone, Copy)]
struct Greeting;

impl<const BYTES: usize> Reply<BYTES> for Greeting {
    ghost line = { λ _. codes "hello\n" };

    fn push_to(self, replies: &mut ArrayString<BYTES>) {
        replies.push_str("hello\n");
    }
}

#[test]
fn answers_stand_behind_those_that_wait(rt: HostRuntime) {
    let mut replies = ArrayString::<256>::new();
    let row = Row {
        key1: 7,
        key2: 2,
        total1: 400,
        total2: -9,
    };
    Ok::<i64, Refusal>(2).push_to(&mut replies);
    write_line(&mut replies, 7usize);
    write_line(&mut replies, Some(row));
    write_line(&mut replies, None::<Row>);
    write_line(&mut replies, Err::<i64, Refusal>(Refusal::Expired));
    write_line(&mut replies, BadLine);
    write_line(&mut replies, Greeting);
    assert_eq!(rt;
        replies.as_str(),
        "version 2\nslot 7\nrow 400 -9\nnone\nrefused 4\nbad line\nhello\n"
    );
}

#[test]
fn nothing_is_written_without_room(rt: HostRuntime) {
    let mut replies = ArrayString::<50>::new();
    write_line(&mut replies, BadLine);
    write_line(&mut replies, BadLine);
    assert_eq!(rt; replies.as_str(), "bad line\n");
}
