// Roll-up: the rows that a session sees of one first key word, counted and summed in one walk of the table. A total that is not
// reported is left out of its sum; the row counts all the same.
#![tactic(auto)]

ghost use Rattle.std.specs.Prelude.{◌≡◌, true, false, ◌-◌, ◌<◌};
ghost use Rattle.table.specs.Slots.{most_slots, bad_table, slots, slot_at};
ghost use Rattle.table_forms.specs.Totals.{lawful, Given};
ghost use Rattle.reads.specs.Table1.{shown};
ghost use Rattle.reads_roll_up.specs.RollUpBounds.{LawfulRow, Within, Bounded};
ghost use Rattle.reads_roll_up.specs.RollUp.{with_total, counted, tallied, RollUpContract};

use refusals::Refusal;
use table::{KEY1, SLOT_WORDS};
use versions::VersionRecord;

// What a roll-up answers: the count of rows, how many of them reported each total, and the sums of what they reported.
#[derive(Clone, Copy, Debug, PartialEq, Eq)]
pub struct Sums {
    pub rows: u32,
    pub reported1: u32,
    pub reported2: u32,
    pub sum1: i64,
    pub sum2: i64,
}

// Of a total: how many rows reported it so far, and the sum of what they reported.
#[derive(Clone, Copy)]
pub struct Reported {
    pub rows: u32,
    pub sum: i64,
}

// The count of rows so far, and what they reported of each total.
#[derive(Clone, Copy)]
pub struct Tally {
    pub rows: u32,
    pub total1: Reported,
    pub total2: Reported,
}

// What was reported of a total, with a total more.
#[tactic(auto, using(laws::specs::Bits::plain, crate::specs::RollUpLaws::sum_so_far, crate::specs::RollUpLaws::sum_with))]
fn with_total(earlier: Reported, total: i64) -> Reported
    requires lawful_total { lawful total ≡ true }
    requires within { Within (most_slots - 1) earlier }
    ensures { result ≡ with_total total earlier }
{
    if !table_forms::is_reported(total) {
        return earlier;
    }
    Reported {
        rows: earlier.rows + 1,
        sum: earlier.sum + total,
    }
}

// The tally with a row more.
fn count_row(tally: Tally, total1: i64, total2: i64) -> Tally
    requires given { Given total1 total2 }
    requires bounded { Bounded (most_slots - 1) tally }
    ensures { result ≡ counted total1 total2 tally }
{
    let first = with_total(tally.total1, total1);
    let second = with_total(tally.total2, total2);
    Tally {
        rows: tally.rows + 1,
        total1: first,
        total2: second,
    }
}

// The tally with what a session sees of the slot at a place: a row with that first key word counts. The word is asked of the slot where
// it stands, and first: most slots have another.
#[tactic(auto, using(laws::specs::Bits::plain, laws::specs::Bits::is, laws::specs::Bits::isnt, table::specs::SlotLaws::key1_at, crate::specs::RollUpLaws::tallied_other, crate::specs::RollUpLaws::tallied_own))]
fn tally_slot(tally: Tally, table: &[i64], k: usize, session: i64, key1: i64) -> Tally
    requires lawful_table { bad_table table.now ≡ false }
    requires in_table { k < slots table.now }
    requires lawful_row { LawfulRow (shown session (slot_at table.now k)) }
    requires bounded { Bounded (most_slots - 1) tally }
    ensures { result ≡ tallied key1 (shown session (slot_at table.now k)) tally }
{
    if table[k * SLOT_WORDS + KEY1] != key1 {
        return tally;
    }
    match reads::show(table::slot_at(table, k), session) {
        Some(row) => count_row(tally, row.total1, row.total2),
        None => tally,
    }
}

// Roll-up, in one pass: each slot is tested, and then counted.
#[tactic(auto, using(laws::specs::Bits::plain, reads::specs::OpenLaws::opened))]
pub fn roll_up(
    table: &[i64],
    versions: VersionRecord,
    session: i64,
    key1: i64,
) -> Result<Sums, Refusal>
    ensures { RollUpContract table.now versions session key1 result }
{
    reads::test_session(table, versions, session)?;
    let mut tally = Tally {
        rows: 0,
        total1: Reported { rows: 0, sum: 0 },
        total2: Reported { rows: 0, sum: 0 },
    };
    for k in 0..table::slots_of(table) {
        if table_walks::is_broken_at(table, k, versions) {
            return Err(Refusal::BrokenSlot);
        }
        tally = tally_slot(tally, table, k, session, key1);
    }
    Ok(Sums {
        rows: tally.rows,
        reported1: tally.total1.rows,
        reported2: tally.total2.rows,
        sum1: tally.total1.sum,
        sum2: tally.total2.sum,
    })
}
