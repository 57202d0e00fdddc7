// Signed 64-bit words in a block, each as two's complement in two words, low half first; and the sixteen halves of a slot.
ghost use Rattle.std.specs.Prelude.{◌≡◌, ◌+◌, ◌*◌, ◌%◌, ◌<◌, ◌≤◌, length};
ghost use Rattle.table.specs.Slots.{words_of};
ghost use Rattle.blocks_words.specs.Words.{check_place, word_base};
ghost use Rattle.blocks_words.specs.Follows.{Follow};
ghost use Rattle.blocks_words.specs.Longs.{block_slots, slot_halves, first_slot_place, halves, halves_of, long_at, block_slot};

use crate::BLOCK_BYTES;
use crate::drafts::Draft;
use table::Slot;

// A signed word is two halves, each a digit of a number in base 2^32.
const HALVES: usize = 2;

const WORD_BASE: u64 = 4_294_967_296;

// A slot is sixteen halves, and a block holds seven slots.
const SLOT_HALVES: usize = 16;

pub const BLOCK_SLOTS: usize = 7;

// The places of a slot's words in a block, each that of its low half: those of slot 0, which begins at word 1.
const RUN: usize = 1;

const OPERATION: usize = 3;

const KEY1: usize = 5;

const KEY2: usize = 7;

const CURRENT1: usize = 9;

const CURRENT2: usize = 11;

const OLD1: usize = 13;

const OLD2: usize = 15;

// The signed word of the halves at a place.
fn long_at(block: &[u8; BLOCK_BYTES], i: usize) -> i64
    requires { i < check_place }
    ensures { result ≡ long_at block.now i }
{
    let first = u64::from(crate::word_at(block, i));
    let second = u64::from(crate::word_at(block, i + 1));
    (first + second * WORD_BASE).cast_signed()
}

// The slot at a place of a block.
#[tactic(auto, unfolding(crate::specs::Longs::block_slot))]
pub fn slot_of(block: &[u8; BLOCK_BYTES], j: usize) -> Slot
    requires { j < block_slots }
    ensures { result ≡ block_slot block.now j }
{
    let at = j * SLOT_HALVES;
    Slot {
        run: long_at(block, at + RUN),
        operation: long_at(block, at + OPERATION),
        key1: long_at(block, at + KEY1),
        key2: long_at(block, at + KEY2),
        current1: long_at(block, at + CURRENT1),
        current2: long_at(block, at + CURRENT2),
        old1: long_at(block, at + OLD1),
        old2: long_at(block, at + OLD2),
    }
}

// The words of a slot in their order.
fn words_of(x: Slot) -> [i64; 8]
    ensures { result ≡ words_of x }
{
    [
        x.run,
        x.operation,
        x.key1,
        x.key2,
        x.current1,
        x.current2,
        x.old1,
        x.old2,
    ]
}

impl Draft {
    // A signed word's halves written at the places after the words before them.
    fn write_long(&mut self, place: usize, long: i64)
        requires { place < check_place }
        ensures { Follow place self.old (halves long) self.new }
    {
        let bits = long.cast_unsigned();
        self.write_word(place, (bits % WORD_BASE) as u32);
        self.write_word(place + 1, (bits / WORD_BASE) as u32);
    }

    // A slot's halves written so.
    pub fn write_slot(&mut self, j: usize, x: Slot)
        requires { j < block_slots }
        ensures { Follow (j * slot_halves + first_slot_place) self.old (halves_of (words_of x)) self.new }
    {
        let at = j * SLOT_HALVES + RUN;
        let words = words_of(x);
        for (n, word) in words.iter().enumerate() {
            self.write_long(at + n * HALVES, *word);
        }
    }
}
