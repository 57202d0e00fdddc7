// What a slot says: its operation, its column in the decision tables and the cell found there; which totals are lawful and which
// are reported; and which slots are well formed. All here are leaves for our other crates: what asks for the record requires one that
// passes test 2.
#![tactic(auto)]

ghost use Rattle.std.specs.Prelude.{◌≡◌, false, not, ◌||◌, ◌&&◌, [], ◌∷◌, pos};
ghost use Rattle.laws.specs.Order.{eq_z, from_to};
ghost use Rattle.laws.specs.Tests.{all};
ghost use Rattle.versions.specs.Record.{bad_record, last_run};
ghost use Rattle.table_forms.specs.DecisionTables.{in_row, cell_at};
ghost use Rattle.table_forms.specs.Operations.{insert_operation, delete_operation, column, live, live_word};
ghost use Rattle.table_forms.specs.Totals.{lawful, reported, unlawful};
ghost use Rattle.table_forms.specs.Formed.{all_zeros, used_well, well_formed, broken};

use table::Slot;
use versions::VersionRecord;

// What a run did to a slot, by the word that says so in the slot.
#[derive(Clone, Copy, Debug, PartialEq, Eq)]
pub enum Operation {
    Empty = 0,
    Insert = 1,
    Update = 2,
    Delete = 3,
}

// A row of a decision table: a cell for each operation.
#[derive(Clone, Copy)]
pub struct Columns<C> {
    pub empty: C,
    pub insert: C,
    pub update: C,
    pub delete: C,
}

impl<C: Copy> Columns<C> {
    fn at(self, operation: Operation) -> C
        ensures { result ≡ in_row self operation }
    {
        match operation {
            Operation::Empty => self.empty,
            Operation::Insert => self.insert,
            Operation::Update => self.update,
            Operation::Delete => self.delete,
        }
    }
}

// A decision table: the row where its test holds, and the row where it fails.
#[derive(Clone, Copy)]
pub struct DecisionTable<C> {
    pub holds: Columns<C>,
    pub fails: Columns<C>,
}

impl<C: Copy> DecisionTable<C> {
    // The cell by the result of the test and an operation. Each branch asks its own row: of a constant table the compiler makes that
    // a choice between two numbers.
    pub fn cell(self, holds: bool, operation: Operation) -> C
        ensures { result ≡ cell_at self holds operation }
    {
        if holds {
            self.holds.at(operation)
        } else {
            self.fails.at(operation)
        }
    }
}

// The range of a total that is reported.
pub const LOWEST_TOTAL: i64 = -1_000_000_000_000_000;

pub const HIGHEST_TOTAL: i64 = 1_000_000_000_000_000;

// The number below the range says that a total is not reported, so that all lawful totals are one range.
pub const NOT_REPORTED: i64 = LOWEST_TOTAL - 1;

// A total that may be given and stored.
#[tactic(auto, using(laws::specs::Bits::plain, crate::specs::TotalLaws::lawful_range))]
pub fn is_lawful(total: i64) -> bool
    ensures { result ≡ lawful total }
{
    (NOT_REPORTED <= total) & (total <= HIGHEST_TOTAL)
}

#[tactic(auto, using(laws::specs::Bits::eq_bits), unfolding(crate::specs::Totals::reported))]
pub fn is_reported(total: i64) -> bool
    ensures { result ≡ reported total }
{
    total != NOT_REPORTED
}

// Refusal 13.
#[tactic(auto, using(laws::specs::Bits::plain), unfolding(crate::specs::Totals::unlawful))]
pub fn is_unlawful(total1: i64, total2: i64) -> bool
    ensures { result ≡ unlawful total1 total2 }
{
    !(is_lawful(total1) & is_lawful(total2))
}

// A slot's operation, which is its column in the decision tables. A word that stands for none counts as empty.
#[tactic(auto, using(laws::specs::Bits::is, laws::specs::Bits::isnt), unfolding(crate::specs::Operations::column))]
pub fn column_of(x: Slot) -> Operation
    ensures { result ≡ column x }
{
    match x.operation {
        1 => Operation::Insert,
        2 => Operation::Update,
        3 => Operation::Delete,
        _ => Operation::Empty,
    }
}

// Whether an operation word is that of a live slot.
#[tactic(auto, using(laws::specs::Bits::eq_bits))]
pub fn lives(operation: i64) -> bool
    ensures { result ≡ live_word operation }
{
    (operation == Operation::Insert as i64) | (operation == Operation::Update as i64)
}

#[tactic(auto, using(laws::specs::Bits::plain), unfolding(crate::specs::Operations::live))]
pub fn is_live(x: Slot) -> bool
    ensures { result ≡ live x }
{
    lives(x.operation)
}

// Whether a slot holds nothing. Its last word is asked beside the comparison, which has it last: so the compiler has all eight words
// at once and asks them in one test, where it would leave the last to a branch of its own.
#[tactic(auto, using(laws::specs::Bits::eq_bits), unfolding(crate::specs::Formed::all_zeros, laws::specs::Tests::all))]
pub fn all_zeros(x: Slot) -> bool
    ensures { result ≡ all_zeros x }
{
    (x.old2 == 0) & (x == table::empty_slot())
}

// The four totals of a slot.
#[tactic(auto, using(laws::specs::Bits::plain), unfolding(laws::specs::Tests::all))]
pub fn are_lawful(current1: i64, current2: i64, old1: i64, old2: i64) -> bool
    ensures { result ≡ all (lawful current1 ∷ lawful current2 ∷ lawful old1 ∷ lawful old2 ∷ []) }
{
    is_lawful(current1) & is_lawful(current2) & is_lawful(old1) & is_lawful(old2)
}

// Whether an operation word is that of a used slot.
#[tactic(auto, using(laws::specs::Bits::plain))]
fn is_used(operation: i64) -> bool
    ensures { result ≡ from_to insert_operation delete_operation operation }
{
    (Operation::Insert as i64 <= operation) & (operation <= Operation::Delete as i64)
}

// Whether a run number is that of a run that has begun.
#[tactic(auto, using(laws::specs::Bits::plain))]
fn has_begun(run: i64, versions: VersionRecord) -> bool
    requires { bad_record versions ≡ false }
    ensures { result ≡ from_to (pos 1) (last_run versions) run }
{
    (1 <= run) & (run <= versions::last_run(versions))
}

// Whether an operation's old totals are lawful beside it: those of an insert are 0.
#[tactic(auto, using(laws::specs::Bits::eq_bits))]
fn may_have_old(operation: i64, old1: i64, old2: i64) -> bool
    ensures { result ≡ (not (eq_z operation insert_operation) || (eq_z old1 (pos 0) && eq_z old2 (pos 0))) }
{
    (operation != Operation::Insert as i64) | ((old1 == 0) & (old2 == 0))
}

#[tactic(auto, using(laws::specs::Bits::plain), unfolding(laws::specs::Tests::all, crate::specs::Formed::used_well, crate::specs::Formed::totals_lawful))]
fn used_well(x: Slot, versions: VersionRecord) -> bool
    requires { bad_record versions ≡ false }
    ensures { result ≡ used_well x versions }
{
    is_used(x.operation)
        & has_begun(x.run, versions)
        & are_lawful(x.current1, x.current2, x.old1, x.old2)
        & may_have_old(x.operation, x.old1, x.old2)
}

#[tactic(auto, using(laws::specs::Bits::plain, crate::specs::FormedLaws::formed_used, crate::specs::FormedLaws::formed_unused))]
pub fn well_formed(x: Slot, versions: VersionRecord) -> bool
    requires { bad_record versions ≡ false }
    ensures { result ≡ well_formed x versions }
{
    if is_used(x.operation) {
        return used_well(x, versions);
    }
    all_zeros(x)
}

// Refusal 6.
pub fn is_broken(x: Slot, versions: VersionRecord) -> bool
    requires { bad_record versions ≡ false }
    ensures { result ≡ broken x versions }
{
    !well_formed(x, versions)
}
