// Roll back: a run that was made on a bad feed is given up. Every slot is tested before the first is written; then the rows of this
// run are put back, and the run ends.
#![tactic(auto)]

ghost use Rattle.std.specs.Prelude.{◌≡◌, false, ◌<◌};
ghost use Rattle.laws.specs.First.{unless};
ghost use Rattle.versions.specs.Record.{bad_record};
ghost use Rattle.table.specs.Slots.{bad_table, slots, slot_at, put_slot};
ghost use Rattle.changes_roll_back.specs.Turns.{TurnsBeside};
ghost use Rattle.changes_roll_back.specs.RollBack.{as_before, rolled_back, slots_back, roll_back_refusal, RollBackContract};

use refusals::Refusal;
use table::{RUN, SLOT_WORDS, Slot};
use table_forms::Operation;
use versions::VersionRecord;
use versions_runs::Turned;

// A row that the run updated or deleted, as it was before it.
fn as_before(x: Slot, versions: VersionRecord) -> Slot
    ensures { result ≡ as_before versions x }
{
    let current = versions.current;
    Slot {
        run: current,
        operation: Operation::Insert as i64,
        key1: x.key1,
        key2: x.key2,
        current1: x.old1,
        current2: x.old2,
        old1: 0,
        old2: 0,
    }
}

// What is left of a slot.
#[tactic(auto, using(laws::specs::Bits::plain, laws::specs::Bits::is, laws::specs::Bits::isnt), unfolding(crate::specs::RollBack::rolled_back))]
fn rolled_back(x: Slot, versions: VersionRecord) -> Slot
    requires { bad_record versions ≡ false }
    ensures { result ≡ rolled_back versions x }
{
    if x.run != versions::run_number(versions) {
        return x;
    }
    if x.operation == Operation::Insert as i64 {
        return table::empty_slot();
    }
    as_before(x, versions)
}

// The slot at a place put back. One of another run is not written.
#[tactic(auto, using(laws::specs::Bits::isnt, crate::specs::RollBackLaws::back_other, table::specs::SlotLaws::put_standing, table::specs::SlotLaws::slot_from_lem))]
fn put_slot_back(table: &mut [i64], k: usize, versions: VersionRecord)
    requires lawful_table { bad_table table.old ≡ false }
    requires in_table { k < slots table.old }
    requires lawful_record { bad_record versions ≡ false }
    ensures { table.new ≡ put_slot table.old k (rolled_back versions (slot_at table.old k)) }
{
    let run = table[k * SLOT_WORDS + RUN];
    if run != versions::run_number(versions) {
        return;
    }
    let x = rolled_back(table::slot_at(table, k), versions);
    table::put_slot(table, k, x);
}

// Every slot put back.
fn put_back(table: &mut [i64], versions: VersionRecord)
    requires lawful_table { bad_table table.old ≡ false }
    requires lawful_record { bad_record versions ≡ false }
    ensures { table.new ≡ slots_back table.old versions (slots table.old) }
{
    for k in 0..table::slots_of(table) {
        put_slot_back(table, k, versions);
    }
}

// The tests: 1, 2, 8, and 6 of any slot.
#[tactic(auto, using(changes::specs::RunningLaws::running, changes::specs::RunningLaws::running_passes, laws::specs::FirstLaws::skip, laws::specs::FirstLaws::hit, laws::specs::FirstLaws::done), unfolding(crate::specs::RollBack::roll_back_refusal))]
fn test_all(table: &[i64], versions: VersionRecord) -> Result<(), Refusal>
    ensures { result ≡ unless (roll_back_refusal table.now versions) tt }
{
    changes::test_running(table, versions)?;
    if table_walks::any_broken(table, versions) {
        return Err(Refusal::BrokenSlot);
    }
    Ok(())
}

// Roll back, by value: the rows of this run are put back, the run ends, and current stays, which is the answer.
#[tactic(auto, using(laws::specs::Bits::plain, crate::specs::RollBackLaws::can_roll_back), unfolding(crate::specs::RollBack::roll_back_answer, crate::specs::RollBack::roll_back_words, crate::specs::RollBack::roll_back_record))]
pub fn roll_back_by_value(table: &mut [i64], versions: VersionRecord) -> Turned
    ensures { RollBackContract table.old versions result.answer table.new result.versions }
{
    if let Err(refusal) = test_all(table, versions) {
        return Turned {
            answer: Err(refusal),
            versions,
        };
    }
    put_back(table, versions);
    Turned {
        answer: Ok(versions.current),
        versions: VersionRecord {
            active: false,
            ..versions
        },
    }
}

// A turn of a lent record beside a lent table, thin over one by value: the answer and the table are its own, and the record that it
// leaves is stored where it stood.
fn turn_beside<F: FnOnce(&mut [i64], VersionRecord) -> Turned>(
    by_value: F,
    table: &mut [i64],
    versions: &mut VersionRecord,
) -> Result<i64, Refusal>
    requires { F.IsAlwaysCallable by_value }
    ensures { TurnsBeside F.FnOnce by_value table.old versions.old result table.new versions.new }
{
    let turned = by_value(table, *versions);
    *versions = turned.versions;
    turned.answer
}

// Roll back, on a lent record.
pub fn roll_back(table: &mut [i64], versions: &mut VersionRecord) -> Result<i64, Refusal>
    ensures { RollBackContract table.old versions.old result table.new versions.new }
{
    turn_beside(roll_back_by_value, table, versions)
}
