// Blocks of 512 bytes: the four calls, and what each answers. A save makes its block in one pass over the slots; a load tests
// everything before it writes.
#![tactic(auto)]

ghost use Rattle.std.specs.Prelude.{◌≡◌, None, Some, MatchResult};
ghost use Rattle.laws.specs.First.{first, unless};
ghost use Rattle.blocks.specs.BlockTests.{idle_tests, block_tests, byte_tests};
ghost use Rattle.blocks.specs.SaveHeader.{save_header_refusal, saved_header, SaveHeaderContract};
ghost use Rattle.blocks.specs.SaveBlock.{save_block_refusal, saved_block, SaveBlockContract};
ghost use Rattle.blocks.specs.LoadHeader.{LoadHeaderContract};
ghost use Rattle.blocks.specs.LoadBlock.{LoadBlockContract};

use blocks_headers::{CURRENT_PLACE, OLDEST_PLACE, SLOTS_PLACE};
pub use blocks_words::BLOCK_BYTES;
use blocks_words::word_at;
use refusals::Refusal;
use versions::VersionRecord;

mod saved;

pub use saved::Saved;

// What load header answers: slots, current and the oldest open version.
#[derive(Clone, Copy, Debug, PartialEq, Eq)]
pub struct Header {
    pub slots: u32,
    pub current: i64,
    pub oldest: i64,
}

// The tests that the list of each save begins with: 1, 2, 7.
fn test_idle(table: &[i64], versions: VersionRecord) -> Result<(), Refusal>
    ensures { result ≡ unless (first (idle_tests table.now versions)) tt }
{
    if table::bad_table(table) {
        return Err(Refusal::BadTable);
    }
    if versions::bad_record(versions) {
        return Err(Refusal::BadRecord);
    }
    if versions.active {
        return Err(Refusal::RunActive);
    }
    Ok(())
}

// Those that the lists of save block and load block begin with: 1, 2, 7, 5.
fn test_block(table: &[i64], versions: VersionRecord, number: usize) -> Result<(), Refusal>
    ensures { result ≡ unless (first (block_tests table.now versions number)) tt }
{
    test_idle(table, versions)?;
    if blocks_saves::no_such_block(table, number) {
        return Err(Refusal::NoSuchPlace);
    }
    Ok(())
}

// The bytes of a block, past the tests that the lists of both loads make of them: 14, 15.
fn test_bytes(bytes: &[u8]) -> Result<&[u8; BLOCK_BYTES], Refusal>
    ensures { MatchResult result (λ block. (block.now ≡ bytes.now) × (first (byte_tests bytes.now) ≡ None)) (λ e. first (byte_tests bytes.now) ≡ Some e) }
{
    let Some(block) = bytes.as_array() else {
        return Err(Refusal::NotBlock);
    };
    if blocks_words::check_wrong(block) {
        return Err(Refusal::WrongCheck);
    }
    Ok(block)
}

// The header's block: 1, 2, 7.
fn made_header(table: &[i64], versions: VersionRecord) -> Result<[u8; BLOCK_BYTES], Refusal>
    ensures { result ≡ unless (save_header_refusal table.now versions) (saved_header table.now versions) }
{
    test_idle(table, versions)?;
    let slots = table::slots_of(table) as u32;
    let current = versions.current as u32;
    let oldest = versions.oldest as u32;
    Ok(blocks_headers::header_block(slots, current, oldest))
}

// A block of slots: 1, 2, 7, 5, 6 (its slots).
fn made_block(
    table: &[i64],
    versions: VersionRecord,
    number: usize,
) -> Result<[u8; BLOCK_BYTES], Refusal>
    ensures { result ≡ unless (save_block_refusal table.now versions number) (saved_block table.now number) }
{
    test_block(table, versions, number)?;
    blocks_saves::save_slots(table, versions, number)
}

// Save header.
pub fn save_header(table: &[i64], versions: VersionRecord) -> Saved
    ensures { SaveHeaderContract table.now versions result }
{
    Saved::from(made_header(table, versions))
}

// Save block.
pub fn save_block(table: &[i64], versions: VersionRecord, number: usize) -> Saved
    ensures { SaveBlockContract table.now versions number result }
{
    Saved::from(made_block(table, versions, number))
}

// Load header: 14, 15, 16. It answers slots, current and the oldest open version.
pub fn load_header(block: &[u8]) -> Result<Header, Refusal>
    ensures { LoadHeaderContract block.now result }
{
    let block = test_bytes(block)?;
    if blocks_headers::header_wrong(block) {
        return Err(Refusal::BadField);
    }
    let slots = word_at(block, SLOTS_PLACE);
    let current = word_at(block, CURRENT_PLACE);
    let oldest = word_at(block, OLDEST_PLACE);
    Ok(Header {
        slots,
        current: i64::from(current),
        oldest: blocks_headers::oldest_of(current, oldest),
    })
}

// Load block: 1, 2, 7, 5, 14, 15, 16. It writes its slots only, and nothing where it is refused.
pub fn load_block(
    table: &mut [i64],
    versions: VersionRecord,
    number: usize,
    block: &[u8],
) -> Result<(), Refusal>
    ensures { LoadBlockContract table.old versions number block.now result table.new }
{
    test_block(table, versions, number)?;
    let block = test_bytes(block)?;
    if blocks_loads::slot_block_wrong(table, versions, number, block) {
        return Err(Refusal::BadField);
    }
    blocks_loads::load_slots(table, number, block);
    Ok(())
}
