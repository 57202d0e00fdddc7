// A block as 128 words of four bytes, low byte first, the last of them the check: a word read, and the tests that go by words alone.
// `drafts` has a block while it is written, and `longs` what takes two words. All are leaves for our other crates.
#![tactic(auto)]

ghost use Rattle.std.specs.Prelude.{◌≡◌, ◌+◌, ◌%◌, ◌≤◌};
ghost use Rattle.blocks_words.specs.Words.{check_place, word_base, word_at, total_to, check_wrong, nonzero};

pub mod drafts;
pub mod longs;

pub use drafts::put_word;

// The bytes of a block.
pub const BLOCK_BYTES: usize = 512;

const WORD_BYTES: usize = 4;

// Word 0 is the number of the block; word 127 is the check.
pub const NUMBER_PLACE: usize = 0;

pub const CHECK_PLACE: usize = 127;

// The word at a place.
#[tactic(auto, unfolding(crate::specs::Words::word_at))]
pub fn word_at(block: &[u8; BLOCK_BYTES], i: usize) -> u32
    requires { i ≤ check_place }
    ensures { result ≡ word_at block.now i }
{
    let at = i * WORD_BYTES;
    u32::from_le_bytes([block[at], block[at + 1], block[at + 2], block[at + 3]])
}

// The total of the words before the check, wrapping.
fn total_words(block: &[u8; BLOCK_BYTES]) -> u32
    ensures { result ≡ total_to block.now check_place % word_base }
{
    (0..CHECK_PLACE).fold(0, |sum: u32, i| sum.wrapping_add(word_at(block, i)))
}

// Refusal 15.
#[tactic(auto, unfolding(crate::specs::Words::check_wrong))]
pub fn check_wrong(block: &[u8; BLOCK_BYTES]) -> bool
    ensures { result ≡ check_wrong block.now }
{
    word_at(block, CHECK_PLACE) != total_words(block)
}

// Whether some word of so many from a place is not zero.
pub fn is_nonzero(block: &[u8; BLOCK_BYTES], from: usize, count: usize) -> bool
    requires { from + count ≤ check_place }
    ensures { result ≡ nonzero block.now from count }
{
    (0..count).any(|i| word_at(block, from + i) != 0)
}
