// The figures of RULES.md on blocks: each save's refusal and the check of its block, a line each.
#![tactic(auto)]

use blocks::{BLOCK_BYTES, Saved};
use std::io;
use versions::VersionRecord;

// The check of a block, its last word.
fn check_of(block: &[u8; BLOCK_BYTES]) -> u32 {
    u32::from_le_bytes([block[508], block[509], block[510], block[511]])
}

// A line: the refusal's number or 0, and the check.
fn print(rt: &impl Print, saved: Saved) -> io::Result<()> {
    let check = check_of(&saved.block);
    let refusal = saved.answer.err().map_or(0, |refusal| refusal.number());
    println!(rt; "{refusal} {check}")
}

fn main(rt: HostRuntime) -> io::Result<()> {
    let mut table = [0i64; 64];
    let fresh = VersionRecord::fresh();
    print(&rt, blocks::save_header(&table, fresh))?;
    print(&rt, blocks::save_block(&table, fresh, 1))?;
    let running = VersionRecord {
        current: 1,
        active: true,
        oldest: 1,
    };
    print(&rt, blocks::save_header(&table, running))?;
    print(&rt, blocks::save_block(&table, running, 1))?;
    table[0] = 2;
    table[1] = 1;
    table[2] = 1;
    table[3] = 19961014;
    table[4] = 10000;
    let second = VersionRecord {
        current: 2,
        active: false,
        oldest: 1,
    };
    print(&rt, blocks::save_block(&table, second, 1))?;
    table[5] = -1;
    print(&rt, blocks::save_block(&table, second, 1))
}
