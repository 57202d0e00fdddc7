// The cells of Tables 2 to 4 of RULES.md: what each leaves of a slot, and the cell that a slot's run and operation choose. All
// here are leaves for our other crates.
#![tactic(auto)]

ghost use Rattle.std.specs.Prelude.{◌≡◌};
ghost use Rattle.changes_cells.specs.Tables.{corrected, written, changed};

use table::Slot;
use table_forms::{DecisionTable, Operation};

// A cell of Tables 2 to 4: what a change leaves of its slot. The refusals keep a call from one that says never.
#[derive(Clone, Copy, Debug, PartialEq, Eq)]
pub enum Cell {
    Never,
    New,
    Restore,
    Save,
    Correct,
    Remove,
    Erase,
    Mark,
}

// What a change is given: its key, and the totals of a put.
#[derive(Clone, Copy)]
pub struct Given {
    pub key1: i64,
    pub key2: i64,
    pub total1: i64,
    pub total2: i64,
}

// A slot with the totals that are given as its current ones.
fn with_totals(x: Slot, given: Given) -> Slot
    ensures { result ≡ corrected x given.total1 given.total2 }
{
    Slot {
        current1: given.total1,
        current2: given.total2,
        ..x
    }
}

// What a cell leaves of a slot.
fn write_cell(cell: Cell, run: i64, x: Slot, given: Given) -> Slot
    ensures { result ≡ written cell run x given.key1 given.key2 given.total1 given.total2 }
{
    match cell {
        Cell::Never => x,
        Cell::New => Slot {
            run,
            operation: Operation::Insert as i64,
            key1: given.key1,
            key2: given.key2,
            ..with_totals(table::empty_slot(), given)
        },
        Cell::Restore => Slot {
            operation: Operation::Update as i64,
            ..with_totals(x, given)
        },
        Cell::Save => Slot {
            run,
            operation: Operation::Update as i64,
            old1: x.current1,
            old2: x.current2,
            ..with_totals(x, given)
        },
        Cell::Correct => with_totals(x, given),
        Cell::Remove => Slot {
            run,
            operation: Operation::Delete as i64,
            old1: x.current1,
            old2: x.current2,
            ..x
        },
        Cell::Erase => table::empty_slot(),
        Cell::Mark => Slot {
            operation: Operation::Delete as i64,
            ..x
        },
    }
}

// What a run leaves of a slot by a decision table, whose test is that the slot is of an older run.
pub fn change(cells: DecisionTable<Cell>, run: i64, x: Slot, given: Given) -> Slot
    ensures { result ≡ changed cells run x given.key1 given.key2 given.total1 given.total2 }
{
    let cell = cells.cell(x.run < run, table_forms::column_of(x));
    write_cell(cell, run, x, given)
}
