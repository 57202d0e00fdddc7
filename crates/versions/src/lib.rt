// The version record: the current version, whether a run is active, and the oldest open version. Its tests (refusals 2, 3 and 4) and
// its numbers are leaves for our other crates. Each test is one expression of & and |; where a number is taken off current, a branch
// before it keeps current from 1 up.
#![tactic(auto)]

ghost use Rattle.std.specs.Prelude.{◌≡◌, true, false};
ghost use Rattle.versions.specs.Record.{fresh_record, bad_record, run_number, last_run, ActiveRun};
ghost use Rattle.versions.specs.Sessions.{unborn, expired, OpenSession};

#[derive(Clone, Copy, Debug, PartialEq, Eq)]
pub struct VersionRecord {
    pub current: i64,
    pub active: bool,
    pub oldest: i64,
}

impl VersionRecord {
    // The largest version.
    pub const LARGEST: i64 = 1_000_000_000;

    // The fresh record.
    pub fn fresh() -> Self
        ensures { result ≡ fresh_record }
    {
        VersionRecord {
            current: 1,
            active: false,
            oldest: 1,
        }
    }
}

// Refusal 2.
pub fn bad_record(versions: VersionRecord) -> bool
    ensures { result ≡ bad_record versions }
{
    let current = versions.current;
    if !((1 <= current) & (current <= VersionRecord::LARGEST)) {
        return true;
    }
    let oldest = versions.oldest;
    (versions.active & (current == VersionRecord::LARGEST))
        | (oldest < 1)
        | !((oldest == current) | (oldest == current - 1))
        | (versions.active & (oldest != current))
}

// Whether a session is plainly open: current is below the largest version, and the session is from the oldest open version to current.
// To be asked in front of the tests of refusals 2, 3 and 4, none of which applies where it holds; a session may be open although it
// does not.
pub fn is_plainly_open(versions: VersionRecord, session: i64) -> bool
    ensures { result ≡ true → OpenSession versions session }
{
    let current = versions.current;
    if !((1 <= current) & (current < VersionRecord::LARGEST)) {
        return false;
    }
    let oldest = versions.oldest;
    ((oldest == current) | (!versions.active & (oldest == current - 1)))
        & (1 <= oldest)
        & (oldest <= session)
        & (session <= current)
}

// Whether a run is plainly active, one expression in front of the tests of refusals 2 and 8, neither of which applies where it holds.
pub fn is_plainly_running(versions: VersionRecord) -> bool
    ensures { result ≡ true → ActiveRun versions }
{
    let current = versions.current;
    (1 <= current)
        & (current < VersionRecord::LARGEST)
        & versions.active
        & (versions.oldest == current)
}

// Refusal 3.
pub fn is_unborn(versions: VersionRecord, session: i64) -> bool
    ensures { result ≡ unborn versions session }
{
    let current = versions.current;
    (session < 1) | (session > current)
}

// Refusal 4.
pub fn is_expired(versions: VersionRecord, session: i64) -> bool
    requires { bad_record versions ≡ false }
    ensures { result ≡ expired versions session }
{
    let oldest = versions.oldest;
    session < oldest
}

// The number of the run that is active, or of the next.
pub fn run_number(versions: VersionRecord) -> i64
    requires { bad_record versions ≡ false }
    ensures { result ≡ run_number versions }
{
    let current = versions.current;
    current + 1
}

// The largest run number that a well formed slot may have.
pub fn last_run(versions: VersionRecord) -> i64
    requires { bad_record versions ≡ false }
    ensures { result ≡ last_run versions }
{
    if versions.active {
        return run_number(versions);
    }
    versions.current
}
