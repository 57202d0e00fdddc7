// What a change does to its key's row, past the tests that it begins with: one search for its key (a put of an absent key one more,
// for a free slot) and one write of one slot, which goes by the cell of that slot in a decision table and by nothing else.
#![tactic(auto)]

ghost use Rattle.std.specs.Prelude.{◌≡◌, false, ◌<◌, None, ℤ};
ghost use Rattle.versions.specs.Record.{bad_record, run_number};
ghost use Rattle.table.specs.Slots.{bad_table, slots, slot_at, empty};
ghost use Rattle.table_free.specs.Free.{free_slot};
ghost use Rattle.changes_cells.specs.Tables.{put_over, deleted};
ghost use Rattle.changes_rows.specs.ChangeLeaves.{Leaves};
ghost use Rattle.changes_rows.specs.PutRow.{RowPut};
ghost use Rattle.changes_rows.specs.PutParts.{found_tests, new_tests, PutAt};
ghost use Rattle.changes_rows.specs.DeleteRow.{RowDeleted};

use changes_cells::{Cell, Given};
use refusals::Refusal;
use table::Slot;
use table_forms::{Columns, DecisionTable};
use versions::VersionRecord;

// Table 2, a put of a key that is not live. The test of Tables 2 to 4 is that the slot is of an older run.
const TABLE_2: DecisionTable<Cell> = DecisionTable {
    holds: Columns {
        empty: Cell::New,
        insert: Cell::Never,
        update: Cell::Never,
        delete: Cell::New,
    },
    fails: Columns {
        empty: Cell::Never,
        insert: Cell::Never,
        update: Cell::Never,
        delete: Cell::Restore,
    },
};

// Table 3, a put of a live key.
const TABLE_3: DecisionTable<Cell> = DecisionTable {
    holds: Columns {
        empty: Cell::Never,
        insert: Cell::Save,
        update: Cell::Save,
        delete: Cell::Never,
    },
    fails: Columns {
        empty: Cell::Never,
        insert: Cell::Correct,
        update: Cell::Correct,
        delete: Cell::Never,
    },
};

// Table 4, a delete.
const TABLE_4: DecisionTable<Cell> = DecisionTable {
    holds: Columns {
        empty: Cell::Never,
        insert: Cell::Remove,
        update: Cell::Remove,
        delete: Cell::Never,
    },
    fails: Columns {
        empty: Cell::Never,
        insert: Cell::Erase,
        update: Cell::Mark,
        delete: Cell::Never,
    },
};

// A slot is written at a place, which is the answer.
fn place(table: &mut [i64], k: usize, x: Slot) -> Result<usize, Refusal>
    requires lawful_table { bad_table table.old ≡ false }
    requires in_table { k < slots table.old }
    ensures { Leaves None table.old k x result table.new }
{
    table::put_slot(table, k, x);
    Ok(k)
}

// What a put by a run leaves of a slot: by Table 3 where it is live, and by Table 2 where it is not.
fn put_over(run: i64, x: Slot, given: Given) -> Slot
    ensures { result ≡ put_over run x given.key1 given.key2 given.total1 given.total2 }
{
    if table_forms::is_live(x) {
        return changes_cells::change(TABLE_3, run, x, given);
    }
    changes_cells::change(TABLE_2, run, x, given)
}

// What a delete by a run leaves of a slot: by Table 4. It gives no totals.
#[tactic(auto, using(laws::specs::Bits::plain))]
fn deleted(run: i64, x: Slot, key1: i64, key2: i64) -> Slot
    ensures { result ≡ deleted run x key1 key2 }
{
    let given = Given {
        key1,
        key2,
        total1: 0,
        total2: 0,
    };
    changes_cells::change(TABLE_4, run, x, given)
}

// A put of a key that has a slot: 6, and the write there.
#[tactic(auto, using(laws::specs::Bits::plain), unfolding(laws::specs::First::first))]
fn put_found(
    table: &mut [i64],
    versions: VersionRecord,
    k: usize,
    given: Given,
) -> Result<usize, Refusal>
    requires lawful_table { bad_table table.old ≡ false }
    requires lawful_record { bad_record versions ≡ false }
    requires in_table { k < slots table.old }
    ensures { PutAt table.old versions (found_tests table.old versions k) k (slot_at table.old k) given result table.new }
{
    let x = table::slot_at(table, k);
    if table_forms::is_broken(x, versions) {
        return Err(Refusal::BrokenSlot);
    }
    place(table, k, put_over(versions::run_number(versions), x, given))
}

// A put of an absent key: 12, and the write in a free slot.
#[tactic(auto, using(laws::specs::Bits::plain), unfolding(laws::specs::First::first))]
fn put_new(table: &mut [i64], versions: VersionRecord, given: Given) -> Result<usize, Refusal>
    requires lawful_table { bad_table table.old ≡ false }
    requires lawful_record { bad_record versions ≡ false }
    ensures { PutAt table.old versions (new_tests table.old versions) (free_slot table.old versions) empty given result table.new }
{
    let k = table_free::free_slot(table, versions).ok_or(Refusal::TableFull)?;
    place(
        table,
        k,
        put_over(versions::run_number(versions), table::empty_slot(), given),
    )
}

// A put past 13: 6, 12, and the write by Table 3 or 2.
pub fn put_row(table: &mut [i64], versions: VersionRecord, given: Given) -> Result<usize, Refusal>
    requires lawful_table { bad_table table.old ≡ false }
    requires lawful_record { bad_record versions ≡ false }
    ensures { RowPut table.old versions given.key1 given.key2 given.total1 given.total2 result table.new }
{
    match table_keys::key_slot(table, given.key1, given.key2) {
        Some(k) => put_found(table, versions, k, given),
        None => put_new(table, versions, given),
    }
}

// A delete past 8: 6, 11, and the write by Table 4.
pub fn delete_row(
    table: &mut [i64],
    versions: VersionRecord,
    key1: i64,
    key2: i64,
) -> Result<usize, Refusal>
    requires lawful_table { bad_table table.old ≡ false }
    requires lawful_record { bad_record versions ≡ false }
    ensures { RowDeleted table.old versions key1 key2 result table.new }
{
    let k = table_keys::key_slot(table, key1, key2).ok_or(Refusal::KeyNotLive)?;
    let x = table::slot_at(table, k);
    if table_forms::is_broken(x, versions) {
        return Err(Refusal::BrokenSlot);
    }
    if !table_forms::is_live(x) {
        return Err(Refusal::KeyNotLive);
    }
    let run = versions::run_number(versions);
    place(table, k, deleted(run, x, key1, key2))
}
