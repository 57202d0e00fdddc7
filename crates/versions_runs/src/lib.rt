// Open, begin and commit. Begin and commit are handed the record and hand it back by value; on a record that is lent each is thin
// over that. A refusal leaves the record as it was.
#![tactic(auto)]

ghost use Rattle.std.specs.Prelude.{◌≡◌};
ghost use Rattle.versions_runs.specs.Runs.{OpenContract, kept_as, turned_to, BeginContract, CommitContract};

use refusals::Refusal;
use versions::VersionRecord;

// What a turn by value leaves: its answer, and the record.
#[derive(Clone, Copy, Debug, PartialEq, Eq)]
pub struct Turned {
    pub answer: Result<i64, Refusal>,
    pub versions: VersionRecord,
}

// Open: current, run or no run.
pub fn open(versions: VersionRecord) -> Result<i64, Refusal>
    ensures { OpenContract versions result }
{
    if versions::bad_record(versions) {
        return Err(Refusal::BadRecord);
    }
    let current = versions.current;
    Ok(current)
}

// A refusal, with the record as it was.
fn kept(versions: VersionRecord, refusal: Refusal) -> Turned
    ensures { result ≡ kept_as versions refusal }
{
    Turned {
        answer: Err(refusal),
        versions,
    }
}

// Begin, by value: the run's number. The last test and the oldest open version stand in locals so that
// must-fail/begin_past_the_largest.edit can test another number, and must-fail/begin_keeps_the_oldest.edit read the record's oldest, at
// the same places of the proof.
pub fn begin_by_value(versions: VersionRecord) -> Turned
    ensures { BeginContract versions result.answer result.versions }
{
    if versions::bad_record(versions) {
        return kept(versions, Refusal::BadRecord);
    }
    if versions.active {
        return kept(versions, Refusal::RunActive);
    }
    let current = versions.current;
    let last = current == VersionRecord::LARGEST;
    if last {
        return kept(versions, Refusal::NoVersionLeft);
    }
    let oldest_open = versions.current;
    Turned {
        answer: Ok(versions::run_number(versions)),
        versions: VersionRecord {
            current: current,
            active: true,
            oldest: oldest_open,
        },
    }
}

// Commit, by value: the new current. Its two tests stand in locals so that must-fail/commit_without_a_run.edit can ask the first again
// in place of the second, at the same places of the proof.
pub fn commit_by_value(versions: VersionRecord) -> Turned
    ensures { CommitContract versions result.answer result.versions }
{
    let bad = versions::bad_record(versions);
    if bad {
        return kept(versions, Refusal::BadRecord);
    }
    let idle = !versions.active;
    if idle {
        return kept(versions, Refusal::NoRun);
    }
    let next = versions::run_number(versions);
    let oldest = versions.oldest;
    Turned {
        answer: Ok(next),
        versions: VersionRecord {
            current: next,
            active: false,
            oldest: oldest,
        },
    }
}

// A turn of a lent record, thin over a turn by value: the answer is its answer, and the record that it leaves is stored where it stood.
pub fn turn<F: FnOnce(VersionRecord) -> Turned>(
    by_value: F,
    versions: &mut VersionRecord,
) -> Result<i64, Refusal>
    requires { F.pre by_value versions.old }
    ensures { F.post by_value versions.old (turned_to result versions.new) }
{
    let turned = by_value(*versions);
    let left = turned.versions;
    *versions = left;
    turned.answer
}

// Begin, on a lent record.
pub fn begin(versions: &mut VersionRecord) -> Result<i64, Refusal>
    ensures { BeginContract versions.old result versions.new }
{
    turn(begin_by_value, versions)
}

// Commit, on a lent record.
pub fn commit(versions: &mut VersionRecord) -> Result<i64, Refusal>
    ensures { CommitContract versions.old result versions.new }
{
    turn(commit_by_value, versions)
}
