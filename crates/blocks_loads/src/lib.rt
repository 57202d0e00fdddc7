// Block k from 1: what a load tests of its words (refusal 16), and its slots written to a table. All here are leaves for our other
// crates, below the tests before 16: they require a table and a record that pass them.
#![tactic(auto)]

ghost use Rattle.std.specs.Prelude.{◌≡◌, false, ◌<◌};
ghost use Rattle.versions.specs.Record.{bad_record};
ghost use Rattle.blocks_words.specs.Longs.{block_slots};
ghost use Rattle.blocks_loads.specs.LoadedSlots.{Within, slot_wrong, slot_block_wrong, loaded_to, slot_loaded};

use blocks_words::longs::BLOCK_SLOTS;
use blocks_words::{BLOCK_BYTES, longs};
use versions::VersionRecord;

// The 14 words from 113 on are zero.
const FILLER_PLACE: usize = 113;

const FILLER_WORDS: usize = 14;

// Whether a slot of a block is not well formed or, where it is beyond the table, not zero.
fn slot_wrong(
    table: &[i64],
    versions: VersionRecord,
    number: usize,
    block: &[u8; BLOCK_BYTES],
    j: usize,
) -> bool
    requires within { Within table.now number }
    requires lawful_record { bad_record versions ≡ false }
    requires within_block { j < block_slots }
    ensures { result ≡ slot_wrong table.now versions number block.now j }
{
    let x = longs::slot_of(block, j);
    if BLOCK_SLOTS * (number - 1) + j < table::slots_of(table) {
        table_forms::is_broken(x, versions)
    } else {
        !table_forms::all_zeros(x)
    }
}

// Refusal 16 of a block of slots.
pub fn slot_block_wrong(
    table: &[i64],
    versions: VersionRecord,
    number: usize,
    block: &[u8; BLOCK_BYTES],
) -> bool
    requires within { Within table.now number }
    requires lawful_record { bad_record versions ≡ false }
    ensures { result ≡ slot_block_wrong table.now versions number block.now }
{
    let stored = blocks_words::word_at(block, blocks_words::NUMBER_PLACE) as usize;
    (stored != number)
        | blocks_words::is_nonzero(block, FILLER_PLACE, FILLER_WORDS)
        | (0..BLOCK_SLOTS).any(|j| slot_wrong(table, versions, number, block, j))
}

// A slot of a block written to the table, if it is not beyond it.
fn load_slot(table: &mut [i64], number: usize, block: &[u8; BLOCK_BYTES], j: usize)
    requires within { Within table.old number }
    requires within_block { j < block_slots }
    ensures { table.new ≡ slot_loaded table.old number block.now j }
{
    let place = BLOCK_SLOTS * (number - 1) + j;
    if place < table::slots_of(table) {
        table::put_slot(table, place, longs::slot_of(block, j));
    }
}

// The slots of a block written to the table.
#[tactic(auto, unfolding(crate::specs::LoadedSlots::loaded_to))]
pub fn load_slots(table: &mut [i64], number: usize, block: &[u8; BLOCK_BYTES])
    requires { Within table.old number }
    ensures { table.new ≡ loaded_to table.old number block.now block_slots }
{
    for j in 0..BLOCK_SLOTS {
        load_slot(table, number, block, j);
    }
}
