// The changes, put and delete. Each begins with the tests that look at no slot, and past them does to its key's row what
// `changes_rows` says. `test_running`, those tests, is a leaf for our other crates.
#![tactic(auto)]

ghost use Rattle.std.specs.Prelude.{◌≡◌};
ghost use Rattle.laws.specs.First.{unless};
ghost use Rattle.changes.specs.ChangeTests.{running_refusal};
ghost use Rattle.changes.specs.Put.{PutContract};
ghost use Rattle.changes.specs.Delete.{DeleteContract};

use changes_cells::Given;
use refusals::Refusal;
use versions::VersionRecord;

// The tests that begin every change's list, asked one by one: 1, 2, 8.
#[tactic(auto, unfolding(crate::specs::ChangeTests::running_refusal, laws::specs::First::first))]
fn asked_one_by_one(table: &[i64], versions: VersionRecord) -> Result<(), Refusal>
    ensures { result ≡ unless (running_refusal table.now versions) tt }
{
    if table::bad_table(table) {
        return Err(Refusal::BadTable);
    }
    if versions::bad_record(versions) {
        return Err(Refusal::BadRecord);
    }
    if !versions.active {
        return Err(Refusal::NoRun);
    }
    Ok(())
}

// The same. In a run that is plainly active, of a table of a lawful shape, one expression tells that there is none.
#[tactic(auto, using(crate::specs::RunningLaws::run_passes))]
pub fn test_running(table: &[i64], versions: VersionRecord) -> Result<(), Refusal>
    ensures { result ≡ unless (running_refusal table.now versions) tt }
{
    if !table::bad_table(table) & versions::is_plainly_running(versions) {
        return Ok(());
    }
    asked_one_by_one(table, versions)
}

// Put: 1, 2, 8, 13, 6, 12.
#[tactic(auto, using(laws::specs::Bits::plain, crate::specs::RunningLaws::running, crate::specs::RunningLaws::running_passes, laws::specs::FirstLaws::skip, laws::specs::FirstLaws::hit), unfolding(crate::specs::Put::put_refusal, crate::specs::Put::put_answer, crate::specs::Put::put_words))]
pub fn put(
    table: &mut [i64],
    versions: VersionRecord,
    key1: i64,
    key2: i64,
    total1: i64,
    total2: i64,
) -> Result<usize, Refusal>
    ensures { PutContract table.old versions key1 key2 total1 total2 result table.new }
{
    test_running(table, versions)?;
    if table_forms::is_unlawful(total1, total2) {
        return Err(Refusal::BadTotal);
    }
    let given = Given {
        key1,
        key2,
        total1,
        total2,
    };
    changes_rows::put_row(table, versions, given)
}

// Delete: 1, 2, 8, 6, 11.
#[tactic(auto, using(laws::specs::Bits::plain, crate::specs::RunningLaws::running, crate::specs::RunningLaws::running_passes), unfolding(crate::specs::Delete::delete_refusal, crate::specs::Delete::delete_answer, crate::specs::Delete::delete_words))]
pub fn delete(
    table: &mut [i64],
    versions: VersionRecord,
    key1: i64,
    key2: i64,
) -> Result<usize, Refusal>
    ensures { DeleteContract table.old versions key1 key2 result table.new }
{
    test_running(table, versions)?;
    changes_rows::delete_row(table, versions, key1, key2)
}
