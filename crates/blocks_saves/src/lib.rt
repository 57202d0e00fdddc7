// Block k from 1, made of a table's slots in one pass, each word stored and added to the check; and which blocks a table has. All here
// are leaves for our other crates.
#![tactic(auto)]

ghost use Rattle.std.specs.Prelude.{◌≡◌, false};
ghost use Rattle.laws.specs.First.{first, unless};
ghost use Rattle.blocks_words.specs.Words.{block_of};
ghost use Rattle.versions.specs.Record.{bad_record};
ghost use Rattle.blocks_loads.specs.LoadedSlots.{Within};
ghost use Rattle.blocks_saves.specs.SlotBlocks.{no_such_block, slot_block_words, slot_tests};

use blocks_words::BLOCK_BYTES;
use blocks_words::drafts::Draft;
use blocks_words::longs::BLOCK_SLOTS;
use refusals::Refusal;
use versions::VersionRecord;

// Refusal 5: block number not in 1 to slots / 7 rounded up.
pub fn no_such_block(table: &[i64], number: usize) -> bool
    ensures { result ≡ no_such_block table.now number }
{
    let blocks = table::slots_of(table).div_ceil(BLOCK_SLOTS);
    !(1..=blocks).contains(&number)
}

// A block of slots, each read, tested (refusal 6) and written in turn.
pub fn save_slots(
    table: &[i64],
    versions: VersionRecord,
    number: usize,
) -> Result<[u8; BLOCK_BYTES], Refusal>
    requires within { Within table.now number }
    requires lawful_record { bad_record versions ≡ false }
    ensures { result ≡ unless (first (slot_tests table.now versions number)) (block_of (slot_block_words table.now number)) }
{
    let from = BLOCK_SLOTS * (number - 1);
    let mut draft = Draft::new();
    draft.write_word(blocks_words::NUMBER_PLACE, number as u32);
    for j in 0..BLOCK_SLOTS {
        let x = table::slot_at(table, from + j);
        let broken = table_forms::is_broken(x, versions);
        if broken {
            return Err(Refusal::BrokenSlot);
        }
        draft.write_slot(j, x);
    }
    Ok(draft.finish())
}
