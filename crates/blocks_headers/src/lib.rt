// Block 0, the header: the places of its words, which words a load does not allow (refusal 16), what its word 3 is read as, and the
// block that a save makes. All here are leaves for our other crates.
#![tactic(auto)]

ghost use Rattle.std.specs.Prelude.{◌≡◌, ◌≤◌, pos};
ghost use Rattle.blocks_words.specs.Words.{block_of};
ghost use Rattle.blocks_headers.specs.HeaderFields.{header_words, header_wrong, oldest_of};

use blocks_words::BLOCK_BYTES;
use blocks_words::drafts::Draft;
use versions::VersionRecord;

// Block 0: word 1 is the slots, word 2 the current version, word 3 the oldest open version; the 123 words from 4 on are zero.
pub const SLOTS_PLACE: usize = 1;

pub const CURRENT_PLACE: usize = 2;

pub const OLDEST_PLACE: usize = 3;

const FILLER_PLACE: usize = 4;

const FILLER_WORDS: usize = 123;

// Refusal 16 of a header. Current was a word of 32 bits, so that 1 taken off it cannot overflow.
pub fn header_wrong(block: &[u8; BLOCK_BYTES]) -> bool
    ensures { result ≡ header_wrong block.now }
{
    let number = blocks_words::word_at(block, blocks_words::NUMBER_PLACE);
    let slots = blocks_words::word_at(block, SLOTS_PLACE) as usize;
    let current = i64::from(blocks_words::word_at(block, CURRENT_PLACE));
    let oldest = i64::from(blocks_words::word_at(block, OLDEST_PLACE));
    (number != 0)
        | !(1..=table::MOST_SLOTS).contains(&slots)
        | !(1..=VersionRecord::LARGEST).contains(&current)
        | ![0, current - 1, current].contains(&oldest)
        | blocks_words::is_nonzero(block, FILLER_PLACE, FILLER_WORDS)
}

// What word 3 of a header that is not refused is read as: a 0 there is current - 1, or 1 if current is 1.
#[tactic(auto, unfolding(crate::specs::HeaderFields::oldest_of))]
pub fn oldest_of(current: u32, word: u32) -> i64
    requires { 1 ≤ current }
    ensures { result ≡ oldest_of (pos current) (pos word) }
{
    match (word, current) {
        (0, 1) => 1,
        (0, _) => i64::from(current - 1),
        _ => i64::from(word),
    }
}

// The block of a header. Its number and its filler are zero, and stand already.
#[tactic(auto, using(crate::specs::HeaderFieldLaws::header_written))]
pub fn header_block(slots: u32, current: u32, oldest: u32) -> [u8; BLOCK_BYTES]
    ensures { result ≡ block_of (header_words slots current oldest) }
{
    let mut draft = Draft::new();
    draft.write_word(SLOTS_PLACE, slots);
    draft.write_word(CURRENT_PLACE, current);
    draft.write_word(OLDEST_PLACE, oldest);
    draft.finish()
}
