// A day on which a bad feed is rolled back, told by a host. Region 7 has three stores. Run 3 takes in a feed that is then known wrong:
// it corrects store 2, deletes store 3 and starts a store 9 that nobody has. The host rolls it back; a session at version 2 reads what
// it read before, one at version 1 stays expired, and the next run has the number 3 again. Says each answer, a line each.
#![tactic(auto)]

use reader::{Refusal, VersionRecord};
use std::io;

const REGION: i64 = 7;

// The table's words: 8 slots.
const TABLE_WORDS: usize = 8 * reader::SLOT_WORDS;

// A refused call would be a fault of this program, and ends it as a write that fails does.
fn refused(_: Refusal) -> io::Error {
    io::Error::other("a call was refused")
}

// The number of a version, after what was done.
fn say_version(rt: &impl Print, done: &str, version: i64) -> io::Result<()> {
    println!(rt; "{done}: version {version}")
}

// What a session reads of a store: its first total, no row, or a refusal.
fn say_store(
    rt: &impl Print,
    table: &[i64],
    versions: VersionRecord,
    session: i64,
    store: i64,
) -> io::Result<()> {
    print!(rt; "session {session}, store {store}: ")?;
    match reader::read_key(table, versions, session, REGION, store) {
        Ok(Some(row)) => {
            let total = row.total1;
            println!(rt; "{total}")
        }
        Ok(None) => println!(rt; "no row"),
        Err(refusal) => println!(rt; "{refusal}"),
    }
}

// Version 2: three stores.
fn open_stores(rt: &impl Print, table: &mut [i64], versions: &mut VersionRecord) -> io::Result<()> {
    reader::begin(versions).map_err(refused)?;
    reader::put(table, *versions, REGION, 1, 400, 0).map_err(refused)?;
    reader::put(table, *versions, REGION, 2, 250, 0).map_err(refused)?;
    reader::put(table, *versions, REGION, 3, 350, 0).map_err(refused)?;
    let committed = reader::commit(versions).map_err(refused)?;
    say_version(rt, "three stores are put in and committed", committed)
}

// Run 3 on the bad feed, rolled back.
fn give_up(rt: &impl Print, table: &mut [i64], versions: &mut VersionRecord) -> io::Result<()> {
    let begun = reader::begin(versions).map_err(refused)?;
    say_version(rt, "a run begins on a bad feed", begun)?;
    reader::put(table, *versions, REGION, 2, 5200, 0).map_err(refused)?;
    reader::delete(table, *versions, REGION, 3).map_err(refused)?;
    reader::put(table, *versions, REGION, 9, 100, 0).map_err(refused)?;
    let back = reader::roll_back(table, versions).map_err(refused)?;
    say_version(rt, "it is rolled back", back)
}

// Run 3 again, on the right feed.
fn go_on(rt: &impl Print, table: &mut [i64], versions: &mut VersionRecord) -> io::Result<()> {
    let begun = reader::begin(versions).map_err(refused)?;
    say_version(rt, "a run begins on the right feed", begun)?;
    reader::put(table, *versions, REGION, 2, 205, 0).map_err(refused)?;
    let committed = reader::commit(versions).map_err(refused)?;
    say_version(rt, "it is committed", committed)
}

fn main(rt: HostRuntime) -> io::Result<()> {
    let mut table = [0i64; TABLE_WORDS];
    let mut versions = VersionRecord::fresh();
    open_stores(&rt, &mut table, &mut versions)?;
    give_up(&rt, &mut table, &mut versions)?;
    say_store(&rt, &table, versions, 2, 2)?;
    say_store(&rt, &table, versions, 2, 3)?;
    say_store(&rt, &table, versions, 2, 9)?;
    say_store(&rt, &table, versions, 1, 2)?;
    go_on(&rt, &mut table, &mut versions)?;
    say_store(&rt, &table, versions, 2, 2)?;
    say_store(&rt, &table, versions, 3, 2)
}
