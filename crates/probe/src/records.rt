// The record as four words: current, the run mark, the oldest open version, and one that stays as it is.
ghost use Rattle.std.specs.Prelude.{◌≡◌};
ghost use Rattle.probe.specs.Probed.{marked, version_of, record_with};

use reader::VersionRecord;

const CURRENT_PLACE: usize = 0;

const MARK_PLACE: usize = 1;

const OLDEST_PLACE: usize = 2;

// The run marks.
const IDLE: i64 = 0;

const ACTIVE: i64 = 1;

// A record with another mark stands for one whose current is out of range.
const OUT_OF_RANGE: i64 = 0;

fn is_marked(record_words: &[i64; 4]) -> bool
    ensures { result ≡ marked record_words.now }
{
    let mark = record_words[MARK_PLACE];
    (mark == IDLE) | (mark == ACTIVE)
}

pub fn version_of(record_words: &[i64; 4]) -> VersionRecord
    ensures { result ≡ version_of record_words.now }
{
    if is_marked(record_words) {
        return VersionRecord {
            current: record_words[CURRENT_PLACE],
            active: record_words[MARK_PLACE] == ACTIVE,
            oldest: record_words[OLDEST_PLACE],
        };
    }
    VersionRecord {
        current: OUT_OF_RANGE,
        active: false,
        oldest: OUT_OF_RANGE,
    }
}

// The version that a call left, put into the record's words; one with another mark stays as it is.
pub fn keep_record(record_words: &mut [i64; 4], versions: VersionRecord)
    ensures { record_words.new ≡ record_with record_words.old versions }
{
    let current = versions.current;
    let oldest = versions.oldest;
    let mark = i64::from(versions.active);
    if is_marked(record_words) {
        record_words[CURRENT_PLACE] = current;
        record_words[MARK_PLACE] = mark;
        record_words[OLDEST_PLACE] = oldest;
    }
}
