// What a pass over the table asks of a slot where it stands, word by word: whether it is broken; and the pass that asks no more than
// that. All here are leaves for our other crates: they require a table that passes test 1 and a record that passes test 2.
#![tactic(auto)]

ghost use Rattle.std.specs.Prelude.{◌≡◌, true, false, ◌<◌};
ghost use Rattle.laws.specs.Order.{from_to};
ghost use Rattle.versions.specs.Record.{bad_record};
ghost use Rattle.table.specs.Slots.{bad_table, slots, slot_at};
ghost use Rattle.table_forms.specs.Operations.{insert_operation, delete_operation};
ghost use Rattle.table_forms.specs.Formed.{used_well, broken, any_broken};

use table::{CURRENT1, CURRENT2, OLD1, OLD2, OPERATION, RUN, SLOT_WORDS};
use table_forms::Operation;
use versions::VersionRecord;

// Used well, of the slot at a place whose operation is 1 to 3. Words are read where they are asked for, and the totals are asked of in
// one expression, so that the compiler keeps few words at once and makes fused branches.
fn used_well_at(table: &[i64], k: usize, versions: VersionRecord) -> bool
    requires lawful_table { bad_table table.now ≡ false }
    requires in_table { k < slots table.now }
    requires lawful_record { bad_record versions ≡ false }
    requires used { from_to insert_operation delete_operation (slot_at table.now k).operation ≡ true }
    ensures { result ≡ used_well (slot_at table.now k) versions }
{
    let at = k * SLOT_WORDS;
    let run = table[at + RUN];
    let last = versions::last_run(versions);
    if !((1 <= run) & (run <= last)) {
        return false;
    }
    let operation = table[at + OPERATION];
    let old1 = table[at + OLD1];
    let old2 = table[at + OLD2];
    if !((operation != Operation::Insert as i64) | ((old1 == 0) & (old2 == 0))) {
        return false;
    }
    table_forms::are_lawful(table[at + CURRENT1], table[at + CURRENT2], old1, old2)
}

// Refusal 6, of the slot at a place.
pub fn is_broken_at(table: &[i64], k: usize, versions: VersionRecord) -> bool
    requires lawful_table { bad_table table.now ≡ false }
    requires in_table { k < slots table.now }
    requires lawful_record { bad_record versions ≡ false }
    ensures { result ≡ broken (slot_at table.now k) versions }
{
    let operation = table[k * SLOT_WORDS + OPERATION];
    if (Operation::Insert as i64 <= operation) & (operation <= Operation::Delete as i64) {
        return !used_well_at(table, k, versions);
    }
    !table_forms::all_zeros(table::slot_within(table, k))
}

// Refusal 6, where the call rests on any slot: the pass stops at the first that is broken.
pub fn any_broken(table: &[i64], versions: VersionRecord) -> bool
    requires lawful_table { bad_table table.now ≡ false }
    requires lawful_record { bad_record versions ≡ false }
    ensures { result ≡ any_broken table.now versions }
{
    (0..table::slots_of(table)).any(|k| is_broken_at(table, k, versions))
}
