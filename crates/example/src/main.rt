// How a host calls the library: a run puts in two rows, of which one reports total one and neither total two; a session reads a row
// and the mean of each total; and a session that has expired is told to open again. Says what each session read.
#![tactic(auto)]

use reader::{Refusal, Row, Sums, VersionRecord};
use std::io;

// A refused call would be a fault of this program, and ends it as a write that fails does.
fn refused(_: Refusal) -> io::Error {
    io::Error::other("a call was refused")
}

// What a read answers: a row, of which the first total is told; no row; or a refusal. A session that has expired opens again, and any
// other refusal here would be a fault.
fn print_seen(rt: &impl Print, seen: Result<Option<Row>, Refusal>) -> io::Result<()> {
    match seen {
        Ok(Some(row)) => {
            let total = row.total1;
            println!(rt; "reads {total}")
        }
        Ok(None) => println!(rt; "reads no row"),
        Err(Refusal::Expired) => println!(rt; "has expired: open again"),
        Err(_) => println!(rt; "is refused"),
    }
}

// The mean of a total over the rows that reported it, whole and toward 0, made of the sum and how many reported it.
fn print_mean(rt: &impl Print, reported: u32, sum: i64) -> io::Result<()> {
    if reported == 0 {
        return println!(rt; "none reported");
    }
    let mean = sum / i64::from(reported);
    println!(rt; "{mean}")
}

// The means of both totals of a roll-up.
fn print_means(rt: &impl Print, sums: Sums) -> io::Result<()> {
    print!(rt; "mean of total one: ")?;
    print_mean(rt, sums.reported1, sums.sum1)?;
    print!(rt; "mean of total two: ")?;
    print_mean(rt, sums.reported2, sums.sum2)
}

fn main(rt: HostRuntime) -> io::Result<()> {
    let mut table = [0i64; 64];
    let mut versions = VersionRecord::fresh();
    reader::begin(&mut versions).map_err(refused)?;
    reader::put(
        &mut table,
        versions,
        1,
        19961014,
        10000,
        reader::NOT_REPORTED,
    )
    .map_err(refused)?;
    reader::put(
        &mut table,
        versions,
        1,
        19961015,
        reader::NOT_REPORTED,
        reader::NOT_REPORTED,
    )
    .map_err(refused)?;
    reader::commit(&mut versions).map_err(refused)?;
    print!(rt; "session 2 ")?;
    print_seen(&rt, reader::read_key(&table, versions, 2, 1, 19961014))?;
    let sums = reader::roll_up(&table, versions, 2, 1).map_err(refused)?;
    print_means(&rt, sums)?;
    reader::begin(&mut versions).map_err(refused)?;
    print!(rt; "session 1 ")?;
    print_seen(&rt, reader::read_key(&table, versions, 1, 1, 19961014))
}
