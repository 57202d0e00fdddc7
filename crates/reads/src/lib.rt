// What a session reads: Table 1, and the reads of a slot and of a key. Each read begins with the tests of its session, and walks
// the table at most once. `show` and `test_session` are leaves for our other crates.
#![tactic(auto)]

ghost use Rattle.std.specs.Prelude.{◌≡◌, false, [], ◌∷◌};
ghost use Rattle.refusals.specs.declared.Refusal.TheVariants.{BrokenSlot};
ghost use Rattle.laws.specs.First.{first, unless};
ghost use Rattle.versions.specs.Record.{bad_record};
ghost use Rattle.table_forms.specs.Formed.{broken};
ghost use Rattle.reads.specs.Table1.{read_cell, shown};
ghost use Rattle.reads.specs.SessionTests.{session_refusal};
ghost use Rattle.reads.specs.ReadSlot.{ReadSlotContract};
ghost use Rattle.reads.specs.ReadKey.{ReadKeyContract};

use refusals::Refusal;
use table::Slot;
use table_forms::{Columns, DecisionTable};
use versions::VersionRecord;

// A row: its two key words and its two totals.
#[derive(Clone, Copy, Debug, PartialEq, Eq)]
pub struct Row {
    pub key1: i64,
    pub key2: i64,
    pub total1: i64,
    pub total2: i64,
}

// A cell of Table 1: what a session reads of a slot.
#[derive(Clone, Copy, Debug, PartialEq, Eq)]
pub enum Cell {
    IgnoreTuple,
    ReadCurrent,
    ReadOld,
}

// Table 1: the sessions from the slot's run number on, and those before it.
const TABLE_1: DecisionTable<Cell> = DecisionTable {
    holds: Columns {
        empty: Cell::IgnoreTuple,
        insert: Cell::ReadCurrent,
        update: Cell::ReadCurrent,
        delete: Cell::IgnoreTuple,
    },
    fails: Columns {
        empty: Cell::IgnoreTuple,
        insert: Cell::IgnoreTuple,
        update: Cell::ReadOld,
        delete: Cell::ReadOld,
    },
};

// What a cell says to read of a slot: a row, or none.
#[tactic(auto, using(laws::specs::Bits::plain))]
fn read_cell(cell: Cell, x: Slot) -> Option<Row>
    ensures { result ≡ read_cell cell x }
{
    let (total1, total2) = match cell {
        Cell::IgnoreTuple => return None,
        Cell::ReadCurrent => (x.current1, x.current2),
        Cell::ReadOld => (x.old1, x.old2),
    };
    Some(Row {
        key1: x.key1,
        key2: x.key2,
        total1,
        total2,
    })
}

// What a session sees of a slot.
#[tactic(auto, using(laws::specs::Bits::plain), unfolding(crate::specs::Table1::shown))]
pub fn show(x: Slot, session: i64) -> Option<Row>
    ensures { result ≡ shown session x }
{
    let cell = TABLE_1.cell(x.run <= session, table_forms::column_of(x));
    read_cell(cell, x)
}

// The tests that begin every read's list, asked one by one.
#[tactic(auto, using(laws::specs::Bits::plain), unfolding(crate::specs::SessionTests::session_refusal, laws::specs::First::first))]
fn asked_one_by_one(table: &[i64], versions: VersionRecord, session: i64) -> Result<(), Refusal>
    ensures { result ≡ unless (session_refusal table.now versions session) tt }
{
    if table::bad_table(table) {
        return Err(Refusal::BadTable);
    }
    if versions::bad_record(versions) {
        return Err(Refusal::BadRecord);
    }
    // Both are asked before either is answered, so that their order is one place, where must-fail/refusal_4_before_3.edit changes it.
    let unborn = versions::is_unborn(versions, session);
    let expired = versions::is_expired(versions, session);
    if unborn {
        return Err(Refusal::NoSuchVersion);
    }
    if expired {
        return Err(Refusal::Expired);
    }
    Ok(())
}

// The same. A session that is plainly open, of a table of a lawful shape, is let through by one expression, so that a read that
// nothing refuses has few branches.
#[tactic(auto, using(laws::specs::Bits::plain, crate::specs::OpenLaws::open_passes))]
pub fn test_session(table: &[i64], versions: VersionRecord, session: i64) -> Result<(), Refusal>
    ensures { result ≡ unless (session_refusal table.now versions session) tt }
{
    if !table::bad_table(table) & versions::is_plainly_open(versions, session) {
        return Ok(());
    }
    asked_one_by_one(table, versions, session)
}

// What a session is answered of a slot: refusal 6, or what it sees.
#[tactic(auto, using(laws::specs::Bits::plain), unfolding(laws::specs::First::first))]
fn show_formed(x: Slot, versions: VersionRecord, session: i64) -> Result<Option<Row>, Refusal>
    requires { bad_record versions ≡ false }
    ensures { result ≡ unless (first ((broken x versions, BrokenSlot) ∷ [])) (shown session x) }
{
    if table_forms::is_broken(x, versions) {
        return Err(Refusal::BrokenSlot);
    }
    Ok(show(x, session))
}

// Read a slot.
#[tactic(auto, using(laws::specs::Bits::plain, crate::specs::OpenLaws::opened), unfolding(crate::specs::ReadSlot::read_slot_refusal, crate::specs::ReadSlot::read_slot_answer, laws::specs::First::first))]
pub fn read_slot(
    table: &[i64],
    versions: VersionRecord,
    session: i64,
    slot: usize,
) -> Result<Option<Row>, Refusal>
    ensures { ReadSlotContract table.now versions session slot result }
{
    test_session(table, versions, session)?;
    if slot >= table::slots_of(table) {
        return Err(Refusal::NoSuchPlace);
    }
    show_formed(table::slot_at(table, slot), versions, session)
}

// Read a key.
#[tactic(auto, using(laws::specs::Bits::plain, crate::specs::OpenLaws::opened))]
pub fn read_key(
    table: &[i64],
    versions: VersionRecord,
    session: i64,
    key1: i64,
    key2: i64,
) -> Result<Option<Row>, Refusal>
    ensures { ReadKeyContract table.now versions session key1 key2 result }
{
    test_session(table, versions, session)?;
    match table_keys::key_slot(table, key1, key2) {
        Some(k) => show_formed(table::slot_at(table, k), versions, session),
        None => Ok(None),
    }
}
