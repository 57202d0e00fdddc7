// The table's words as slots. `slot_within` and `put_slot` are the two functions that read and write a slot. All here are leaves for our
// other crates: below test 1 they require a table that passes it.
#![tactic(auto)]

ghost use Rattle.std.specs.Prelude.{◌≡◌, false, ◌<◌};
ghost use Rattle.table.specs.Slots.{bad_table, slots, empty, slot_at, put_slot};

// Eight words to a slot, and at most 1,024 slots.
pub const SLOT_WORDS: usize = 8;

pub const MOST_SLOTS: usize = 1024;

pub const MOST_WORDS: usize = MOST_SLOTS * SLOT_WORDS;

// The places of a slot's words.
pub const RUN: usize = 0;

pub const OPERATION: usize = 1;

pub const KEY1: usize = 2;

pub const KEY2: usize = 3;

pub const CURRENT1: usize = 4;

pub const CURRENT2: usize = 5;

pub const OLD1: usize = 6;

pub const OLD2: usize = 7;

#[derive(Clone, Copy, Debug, PartialEq, Eq)]
pub struct Slot {
    pub run: i64,
    pub operation: i64,
    pub key1: i64,
    pub key2: i64,
    pub current1: i64,
    pub current2: i64,
    pub old1: i64,
    pub old2: i64,
}

// Refusal 1.
#[tactic(auto, unfolding(crate::specs::Slots::bad_table, laws::specs::Tests::any))]
pub fn bad_table(table: &[i64]) -> bool
    ensures { result ≡ bad_table table.now }
{
    let words = table.len();
    (words == 0) | (words % SLOT_WORDS != 0) | (words > MOST_WORDS)
}

// The number of slots.
pub fn slots_of(table: &[i64]) -> usize
    ensures { result ≡ slots table.now }
{
    table.len() / SLOT_WORDS
}

// A slot that holds nothing is all zeros.
pub fn empty_slot() -> Slot
    ensures { result ≡ empty }
{
    Slot {
        run: 0,
        operation: 0,
        key1: 0,
        key2: 0,
        current1: 0,
        current2: 0,
        old1: 0,
        old2: 0,
    }
}

// The slot at a place of the table.
#[tactic(auto, using(laws::specs::Bits::plain), unfolding(crate::specs::Slots::slot_at))]
pub fn slot_within(table: &[i64], k: usize) -> Slot
    requires lawful_table { bad_table table.now ≡ false }
    requires in_table { k < slots table.now }
    ensures { result ≡ slot_at table.now k }
{
    let at = k * SLOT_WORDS;
    Slot {
        run: table[at + RUN],
        operation: table[at + OPERATION],
        key1: table[at + KEY1],
        key2: table[at + KEY2],
        current1: table[at + CURRENT1],
        current2: table[at + CURRENT2],
        old1: table[at + OLD1],
        old2: table[at + OLD2],
    }
}

// The slot at a place, empty past the end.
pub fn slot_at(table: &[i64], k: usize) -> Slot
    requires { bad_table table.now ≡ false }
    ensures { result ≡ slot_at table.now k }
{
    if k < slots_of(table) {
        slot_within(table, k)
    } else {
        empty_slot()
    }
}

// The slot written at a place.
#[tactic(auto, using(laws::specs::Bits::plain), unfolding(crate::specs::Slots::put_slot))]
pub fn put_slot(table: &mut [i64], k: usize, x: Slot)
    requires lawful_table { bad_table table.old ≡ false }
    requires in_table { k < slots table.old }
    ensures { table.new ≡ put_slot table.old k x }
{
    let at = k * SLOT_WORDS;
    table[at + RUN] = x.run;
    table[at + OPERATION] = x.operation;
    table[at + KEY1] = x.key1;
    table[at + KEY2] = x.key2;
    table[at + CURRENT1] = x.current1;
    table[at + CURRENT2] = x.current2;
    table[at + OLD1] = x.old1;
    table[at + OLD2] = x.old2;
}
