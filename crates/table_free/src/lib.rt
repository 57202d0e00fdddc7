// The search for a free slot. It reads the operation word alone, and passes four slots at a time where all four are live; where one
// is not, the four are looked at one by one, and so are the last, fewer than four. All here are leaves for our other crates: below
// tests 1 and 2 they require a table and a record that pass them.
#![tactic(auto)]

ghost use Rattle.std.specs.Prelude.{◌≡◌, true, false, ◌+◌, ◌≤◌, ◌<◌};
ghost use Rattle.laws.specs.Lowest.{lowest, below, EachOfFour};
ghost use Rattle.versions.specs.Record.{bad_record};
ghost use Rattle.table.specs.Slots.{bad_table, slots, slot_at};
ghost use Rattle.table_free.specs.Free.{long_deleted, free, free_slot};
ghost use Rattle.table_free.specs.FreeSearch.{Taken, Alive};

use table::{OPERATION, SLOT_WORDS, Slot};
use table_forms::Operation;
use versions::VersionRecord;

// The search passes so many slots at a time.
const GROUP: usize = 4;

fn long_deleted(x: Slot, versions: VersionRecord) -> bool
    requires { bad_record versions ≡ false }
    ensures { result ≡ long_deleted x versions }
{
    let running = versions::run_number(versions);
    (x.operation == Operation::Delete as i64)
        & (x.run < running)
        & table_forms::well_formed(x, versions)
}

#[tactic(auto, unfolding(crate::specs::Free::free))]
fn is_free(x: Slot, versions: VersionRecord) -> bool
    requires { bad_record versions ≡ false }
    ensures { result ≡ free x versions }
{
    table_forms::all_zeros(x) | long_deleted(x, versions)
}

// Whether the slot at a place is free. A live one is told by its operation word alone.
#[tactic(auto, using(crate::specs::FreeLaws::lives, crate::specs::FreeLaws::live_kept))]
fn free_at(table: &[i64], k: usize, versions: VersionRecord) -> bool
    requires lawful_table { bad_table table.now ≡ false }
    requires in_table { k < slots table.now }
    requires lawful_record { bad_record versions ≡ false }
    ensures { result ≡ free (slot_at table.now k) versions }
{
    if table_forms::lives(table[k * SLOT_WORDS + OPERATION]) {
        return false;
    }
    is_free(table::slot_within(table, k), versions)
}

// Whether all of the four slots from a place on are live.
#[tactic(auto, using(crate::specs::FreeLaws::lives, table::specs::SlotLaws::word_on), unfolding(laws::specs::Tests::all))]
fn four_live(table: &[i64], k: usize) -> bool
    requires lawful_table { bad_table table.now ≡ false }
    requires in_table { k + 4 ≤ slots table.now }
    ensures { result ≡ true → EachOfFour (Alive table.now) k }
{
    let at = k * SLOT_WORDS;
    table_forms::lives(table[at + OPERATION])
        & table_forms::lives(table[at + SLOT_WORDS + OPERATION])
        & table_forms::lives(table[at + 2 * SLOT_WORDS + OPERATION])
        & table_forms::lives(table[at + 3 * SLOT_WORDS + OPERATION])
}

// The lowest free slot below an end, looked for from a place on below which none is free.
fn free_from(table: &[i64], from: usize, to: usize, versions: VersionRecord) -> Option<usize>
    requires lawful_table { bad_table table.now ≡ false }
    requires in_table { to ≤ slots table.now }
    requires lawful_record { bad_record versions ≡ false }
    requires taken { Taken table.now versions from }
    ensures { result ≡ below to (lowest (λ k. free (slot_at table.now k) versions) to) }
{
    (from..to).find(|&k| free_at(table, k, versions))
}

// The lowest free slot, where one is free.
#[tactic(auto, unfolding(crate::specs::Free::free_slot))]
pub fn free_slot(table: &[i64], versions: VersionRecord) -> Option<usize>
    requires lawful_table { bad_table table.now ≡ false }
    requires lawful_record { bad_record versions ≡ false }
    ensures { result ≡ below (slots table.now) (free_slot table.now versions) }
{
    let slots = table::slots_of(table);
    let groups = slots / GROUP;
    for group in 0..groups {
        let place = GROUP * group;
        if !four_live(table, place) {
            let found = free_from(table, place, place + GROUP, versions);
            if let Some(slot) = found {
                return Some(slot);
            }
        }
    }
    free_from(table, GROUP * groups, slots, versions)
}
