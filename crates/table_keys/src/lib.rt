// The search for the key's slot. The first slot is looked at where the call stands, and so are the others of a small table, one by
// one. In a larger table one key word is compared of each of four slots at a time, which are passed where none of the four has it;
// where one has it the four are looked at one by one, and if none of them has the key the other key word is compared from then on,
// since the one stands in slots that have not the key. All here are leaves for our other crates: below test 1 they require a table
// that passes it.
#![tactic(auto)]

ghost use Rattle.std.specs.Prelude.{◌≡◌, true, false, ◌+◌, ◌≤◌, ◌<◌};
ghost use Rattle.laws.specs.Lowest.{lowest, below, EachOfFour};
ghost use Rattle.table.specs.Slots.{slot_words, key1_place, key2_place, bad_table, slots, slot_at};
ghost use Rattle.table_keys.specs.Keys.{has_key, key_slot};
ghost use Rattle.table_keys.specs.KeySearch.{Keyless, comparing, IsKeyWord, Apart};

use table::{KEY1, KEY2, OPERATION, SLOT_WORDS};
use table_forms::Operation;

// A table of at most so many slots is looked at one by one.
const NEAR_SLOTS: usize = 16;

// The search passes so many slots at a time.
const GROUP: usize = 4;

// A word of a slot that is compared: its place in the slot, and the number that is looked for.
#[derive(Clone, Copy)]
struct KeyWord {
    place: usize,
    number: i64,
}

impl KeyWord {
    // The first key word, and the second.
    fn first(key1: i64) -> KeyWord
        ensures { result ≡ comparing key1_place key1 }
    {
        KeyWord {
            place: KEY1,
            number: key1,
        }
    }

    fn second(key2: i64) -> KeyWord
        ensures { result ≡ comparing key2_place key2 }
    {
        KeyWord {
            place: KEY2,
            number: key2,
        }
    }

    // The other key word than the one that was compared.
    fn other(self, key1: i64, key2: i64) -> KeyWord
        ensures { IsKeyWord result key1 key2 }
    {
        if self.place == KEY2 {
            return KeyWord::first(key1);
        }
        KeyWord::second(key2)
    }
}

// Whether the slot at a place is used and has the key. The second key word is asked first: it tells most slots apart.
#[tactic(auto, using(laws::specs::Bits::eq_bits, crate::specs::KeyLaws::has_key_words), unfolding(laws::specs::Tests::all))]
fn has_key(table: &[i64], k: usize, key1: i64, key2: i64) -> bool
    requires lawful_table { bad_table table.now ≡ false }
    requires in_table { k < slots table.now }
    ensures { result ≡ has_key (slot_at table.now k) key1 key2 }
{
    let at = k * SLOT_WORDS;
    table[at + KEY2] == key2
        && table[at + KEY1] == key1
        && table[at + OPERATION] != Operation::Empty as i64
}

// Whether none of the four slots from a place on has the key word that is compared.
fn four_apart(table: &[i64], k: usize, compared: KeyWord) -> bool
    requires lawful_table { bad_table table.now ≡ false }
    requires in_table { k + 4 ≤ slots table.now }
    requires within_slot { compared.place < slot_words }
    ensures { result ≡ true → EachOfFour (λ j. Apart table.now j compared) k }
{
    let at = k * SLOT_WORDS + compared.place;
    let number = compared.number;
    (table[at] != number)
        & (table[at + SLOT_WORDS] != number)
        & (table[at + 2 * SLOT_WORDS] != number)
        & (table[at + 3 * SLOT_WORDS] != number)
}

// The lowest slot below an end that has the key, looked for from a place on below which none has it.
fn key_from(table: &[i64], from: usize, to: usize, key1: i64, key2: i64) -> Option<usize>
    requires lawful_table { bad_table table.now ≡ false }
    requires in_table { to ≤ slots table.now }
    requires keyless { Keyless table.now key1 key2 from }
    ensures { result ≡ below to (lowest (λ k. has_key (slot_at table.now k) key1 key2) to) }
{
    (from..to).find(|&k| has_key(table, k, key1, key2))
}

// The key's slot where the first slot has not the key: four slots at a time, beginning with the key word given.
#[tactic(auto, using(laws::specs::Bits::plain, table::specs::SlotLaws::lengths), unfolding(crate::specs::Keys::key_slot))]
fn key_far(table: &[i64], word: KeyWord, key1: i64, key2: i64) -> Option<usize>
    requires lawful_table { bad_table table.now ≡ false }
    requires key_word { IsKeyWord word key1 key2 }
    requires keyless { Keyless table.now key1 key2 1 }
    ensures { result ≡ below (slots table.now) (key_slot table.now key1 key2) }
{
    let slots = table::slots_of(table);
    let groups = (slots - 1) / GROUP;
    let mut compared = word;
    for group in 0..groups {
        let k = 1 + GROUP * group;
        if !four_apart(table, k, compared) {
            let found = key_from(table, k, k + GROUP, key1, key2);
            if let Some(slot) = found {
                return Some(slot);
            }
            compared = compared.other(key1, key2);
        }
    }
    key_from(table, 1 + GROUP * groups, slots, key1, key2)
}

// The key's slot, where the key has one.
#[tactic(auto, using(laws::specs::Bits::plain, table::specs::SlotLaws::lengths, laws::specs::LowestLaws::answer_first), unfolding(crate::specs::Keys::key_slot))]
pub fn key_slot(table: &[i64], key1: i64, key2: i64) -> Option<usize>
    requires { bad_table table.now ≡ false }
    ensures { result ≡ below (slots table.now) (key_slot table.now key1 key2) }
{
    if has_key(table, 0, key1, key2) {
        return Some(0);
    }
    let slots = table::slots_of(table);
    if slots <= NEAR_SLOTS {
        return key_from(table, 1, slots, key1, key2);
    }
    // Where the first slot has the date and not the key, the date tells less, and key one is compared first. Two calls also keep the
    // compiler from copying the far search in here, which would keep it from copying this function into its callers.
    if table[KEY2] == key2 {
        return key_far(table, KeyWord::first(key1), key1, key2);
    }
    key_far(table, KeyWord::second(key2), key1, key2)
}
