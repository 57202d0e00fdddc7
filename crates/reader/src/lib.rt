// The face of the library: its calls, its types and its constants, and nothing else. A host names this crate and
// no other of ours; what the other crates have beside these are leaves for our own use.
#![tactic(auto)]

// The version record, with its largest version `VersionRecord::LARGEST` and the fresh record `VersionRecord::fresh`.
pub use versions::VersionRecord;
// Why a call is refused, by name. Each call answers a Result whose error it is.
pub use refusals::Refusal;
// A row, as a read of a slot or of a key shows it: two key words and two totals.
pub use reads::Row;
// What a roll-up comes to: how many rows, how many of them reported each total, and both sums.
pub use reads_roll_up::Sums;
// What a save hands out: its answer, and the block beside it, zeros where it is refused.
pub use blocks::Saved;
// What a header holds: slots, current and the oldest open version.
pub use blocks::Header;

// Open: the current version.
pub use versions_runs::open;
// Begin a run, on a lent record: the run's number.
pub use versions_runs::begin;
// Commit it, on a lent record: the new current version.
pub use versions_runs::commit;
// Roll it back, on a lent record: every open session reads what it read before the run, and current is answered.
pub use changes_roll_back::roll_back;
// Begin, commit and roll back with the record handed over and back by value, and what they leave: the answer and the record.
pub use changes_roll_back::roll_back_by_value;
pub use versions_runs::{Turned, begin_by_value, commit_by_value};
// Read a slot, at a session's version: a row, or none.
pub use reads::read_slot;
// Read a key, at a session's version: its row, or none.
pub use reads::read_key;
// Roll up the rows with a first key word, at a session's version.
pub use reads_roll_up::roll_up;
// Give a key its totals, in a run, whether it has a row or not: the number of its slot.
pub use changes::put;
// Delete a row, in a run: the number of its slot.
pub use changes::delete;
// Save block 0: slots, current and the oldest open version.
pub use blocks::save_header;
// Save block k from 1: seven slots.
pub use blocks::save_block;
// Load block 0.
pub use blocks::load_header;
// Load block k from 1, into a lent table.
pub use blocks::load_block;

// The words of a slot, and the most words of a table.
pub use table::{MOST_WORDS, SLOT_WORDS};
// The range of a total that is reported, and what stands for one that is not.
pub use table_forms::{HIGHEST_TOTAL, LOWEST_TOTAL, NOT_REPORTED};
// The bytes of a block.
pub use blocks::BLOCK_BYTES;
