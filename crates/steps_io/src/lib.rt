// The work of the program `steps`: a table of 8 slots and a record, both fresh; standard input is read, its lines are answered by
// `steps_lines`, and the replies are written when there is no room for more, and before the next read, so that whoever waits for a
// reply has it. From one write to the next a session is carried: the table, the record and the kept bytes of the line are those to
// which the bytes handed on have led it, and its replies are written out. Where it is known what a source has left and what a sink
// holds, and no write fails, what is written is what is answered to what was read. What no contract says is what std's two calls do at
// the standard streams: which bytes `read` gives, and that `write_all` writes what it is handed.
#![tactic(auto)]

ghost use Rattle.std.specs.Prelude.{◌≡◌, List, [], ◌≤◌, ℤ, length, take, is_ok, IsOk, IfOk, OnOk, OnErr};
ghost use Rattle.std.specs.Io.KnownBytes.{Appends, Consumes};
ghost use Rattle.steps_replies.specs.Written.{longest_line};
ghost use Rattle.steps_io.specs.Carried.{Carried, CarriedFront, CarriedSome, CarriedLast, CarriedAll};
ghost use Rattle.steps_io.specs.Streams.{Written, WrittenLast, ReadFront, Streamed, AnsweredAll};

use std::io;
use std::io::{Read, Write};
use steps_lines::Progress;
use steps_replies::REPLY_BYTES;

// 8 slots of 8 words.
const TABLE_WORDS: usize = 64;

// How many bytes a read takes at most.
const INPUT_BYTES: usize = 65536;

// The replies in the buffer are written, and none waits.
#[tactic(auto, using(crate::specs::CarriedLaws::replies_written))]
fn write_replies<W: Write>(progress: &mut Progress, buffer: &[u8], sink: &mut W) -> io::Result<()>
    requires { progress.old.place ≤ length buffer.now }
    ensures ready { progress.new.place ≡ 0 }
    ensures carried { (t : List ℤ) → Carried t buffer.now progress.old [] t buffer.now progress.new }
    ensures written { OnOk result (Appends (W.contents sink.old) (W.contents sink.new) (take progress.old.place buffer.now)) }
{
    let written = sink.write_all(&buffer[..progress.place]);
    progress.place = 0;
    written
}

// The bytes of one read are answered, as many at a time as their replies have room for, which are then written.
fn take_input<W: Write>(
    progress: &mut Progress,
    table: &mut [i64],
    buffer: &mut [u8],
    sink: &mut W,
    input: &[u8],
) -> io::Result<()>
    requires room { longest_line ≤ length buffer.old }
    requires ready { progress.old.place ≡ 0 }
    ensures ready { progress.new.place ≡ 0 }
    ensures all { OnOk result (Carried table.old buffer.old progress.old input.now table.new buffer.new progress.new) }
    ensures front { OnErr result (CarriedFront table.old buffer.old progress.old input.now table.new buffer.new progress.new) }
    ensures written { OnOk result (Written table.old buffer.old progress.old (W.contents sink.old) input.now (W.contents sink.new)) }
{
    let mut rest = input;
    while !rest.is_empty() {
        let count = progress.take_bytes(table, buffer, rest);
        write_replies(progress, buffer, sink)?;
        rest = &rest[count..];
    }
    Ok(())
}

// One read, into the lent input: what it gave is answered, or a front of it where a write fails. A failed read gives nothing, as one
// at the end.
fn take_some<R: Read, W: Write>(
    progress: &mut Progress,
    table: &mut [i64],
    buffer: &mut [u8],
    source: &mut R,
    sink: &mut W,
    input: &mut [u8],
) -> io::Result<usize>
    requires room { longest_line ≤ length buffer.old }
    requires ready { progress.old.place ≡ 0 }
    ensures ready { progress.new.place ≡ 0 }
    ensures all { IfOk result (λ got. Carried table.old buffer.old progress.old (take got input.new) table.new buffer.new progress.new) }
    ensures front { OnErr result (ReadFront table.old buffer.old progress.old (R.remaining source.old) input.new table.new buffer.new progress.new (R.remaining source.new)) }
    ensures written { IfOk result (λ got. Written table.old buffer.old progress.old (W.contents sink.old) (take got input.new) (W.contents sink.new)) }
    ensures read { IfOk result (λ got. Consumes (R.remaining source.old) (R.remaining source.new) (take got input.new)) }
{
    let got = source.read(input).unwrap_or(0);
    take_input(progress, table, buffer, sink, &input[..got])?;
    Ok(got)
}

// Reads until one gives nothing. A proved loop has to end, and nothing says that the input does: no input has so many bytes.
#[tactic(auto, using(crate::specs::StreamLaws::read_by_read))]
fn take_all<R: Read, W: Write>(
    progress: &mut Progress,
    table: &mut [i64],
    buffer: &mut [u8],
    source: &mut R,
    sink: &mut W,
    input: &mut [u8],
) -> io::Result<()>
    requires room { longest_line ≤ length buffer.old }
    requires ready { progress.old.place ≡ 0 }
    ensures ready { progress.new.place ≡ 0 }
    ensures carried { CarriedSome table.old buffer.old progress.old table.new buffer.new progress.new }
    ensures streamed { OnOk result (Streamed table.old buffer.old progress.old (R.remaining source.old) (W.contents sink.old)
        table.new buffer.new progress.new (R.remaining source.new) (W.contents sink.new)) }
{
    for _ in 0..u64::MAX {
        if take_some(progress, table, buffer, source, sink, input)? == 0 {
            return Ok(());
        }
    }
    Ok(())
}

// The last line, where all replies before it were written; where a write failed, the table stays as it is.
#[tactic(auto, using(crate::specs::StreamLaws::over_last))]
fn take_last<W: Write>(
    progress: &mut Progress,
    table: &mut [i64],
    buffer: &mut [u8],
    sink: &mut W,
    all: io::Result<()>,
) -> io::Result<()>
    requires room { longest_line ≤ length buffer.old }
    requires ready { progress.old.place ≡ 0 }
    ensures carried { CarriedLast table.old buffer.old progress.old (is_ok all) table.new }
    ensures all_taken { OnOk result (IsOk all) }
    ensures written { OnOk result (WrittenLast table.old buffer.old progress.old (W.contents sink.old) (W.contents sink.new)) }
{
    all?;
    progress.end_last(table, buffer);
    write_replies(progress, buffer, sink)
}

// From a fresh start, all lines, over what is lent; the last one where all replies before it were written.
fn answer_all<R: Read, W: Write>(
    source: &mut R,
    sink: &mut W,
    table: &mut [i64],
    input: &mut [u8],
) -> io::Result<()>
    ensures carried { CarriedAll table.old table.new }
    ensures answered { OnOk result (AnsweredAll table.old (R.remaining source.old) (W.contents sink.old)
        table.new (R.remaining source.new) (W.contents sink.new)) }
{
    let mut progress = Progress::fresh();
    let mut buffer = [0; REPLY_BYTES];
    let all = take_all(&mut progress, table, &mut buffer, source, sink, input);
    take_last(&mut progress, table, &mut buffer, sink, all)
}

// The whole of standard input. A write that fails ends it.
pub fn run(rt: &(impl Input + Print)) {
    let mut table = [0; TABLE_WORDS];
    let mut input = [0; INPUT_BYTES];
    let _ = answer_all(
        &mut rt.reader(),
        &mut io::writer(rt),
        &mut table,
        &mut input,
    );
}
