// A turn of a record that one keeps: it stands in a local, and is lent to the turn. What a host does that keeps its record in one
// place.
ghost use Rattle.std.specs.Fn.{FnOnceReturnsAtMut};
ghost use Rattle.versions_runs.specs.Runs.{BeginContract, CommitContract};

use reader::{Refusal, Turned, VersionRecord};

fn lending<F: FnOnce(&mut VersionRecord) -> Result<i64, Refusal>>(
    turn: F,
    was: VersionRecord,
) -> Turned
    requires { F.IsAlwaysCallable turn }
    ensures { FnOnceReturnsAtMut F.FnOnce turn was result.answer result.versions }
{
    let mut lent = was;
    let answer = turn(&mut lent);
    Turned {
        answer,
        versions: lent,
    }
}

pub fn begun(was: VersionRecord) -> Turned
    ensures { BeginContract was result.answer result.versions }
{
    lending(reader::begin, was)
}

pub fn committed(was: VersionRecord) -> Turned
    ensures { CommitContract was result.answer result.versions }
{
    lending(reader::commit, was)
}
