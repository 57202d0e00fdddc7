// One line of the program `steps` answered: what it asks is asked of the library, and the reply is written into a lent buffer.
// `answer` is a leaf for our other crates.
#![tactic(auto)]

ghost use Rattle.steps_answers.specs.Answers.{Answered};

use reader::VersionRecord;
use steps_commands::Command;
use steps_replies::{BadLine, write_line_at};

// A line answered; answers the place after the reply.
pub fn answer(
    table: &mut [i64],
    versions: &mut VersionRecord,
    line: &[u8],
    buffer: &mut [u8],
    place: usize,
) -> usize
    ensures { Answered table.old versions.old line.now buffer.old place result table.new versions.new buffer.new }
{
    match steps_commands::read_command(line) {
        Some(Command::Begin) => write_line_at(buffer, place, reader::begin(versions)),
        Some(Command::Commit) => write_line_at(buffer, place, reader::commit(versions)),
        Some(
            Command::Put {
                key1,
                key2,
                total1,
                total2,
            },
        ) => {
            let placed = reader::put(table, *versions, key1, key2, total1, total2);
            write_line_at(buffer, place, placed)
        }
        Some(Command::Delete { key1, key2 }) => {
            let placed = reader::delete(table, *versions, key1, key2);
            write_line_at(buffer, place, placed)
        }
        Some(
            Command::Read {
                session,
                key1,
                key2,
            },
        ) => {
            let seen = reader::read_key(table, *versions, session, key1, key2);
            write_line_at(buffer, place, seen)
        }
        None => write_line_at(buffer, place, BadLine),
    }
}
