// A block while its words are written one after another, and the check of those so far.
ghost use Rattle.std.specs.Prelude.{◌≡◌, ◌*◌, ◌≤◌, [], ◌∷◌};
ghost use Rattle.std.proofs.lemmas.List.Edits.{sets};
ghost use Rattle.laws.specs.Digits.{digits};
ghost use Rattle.blocks_words.specs.Words.{check_place, byte_base, word_bytes};
ghost use Rattle.blocks_words.specs.Follows.{FollowedBy, Follow, Finished};

use crate::{BLOCK_BYTES, CHECK_PLACE, WORD_BYTES};

#[derive(Drop)]
pub struct Draft {
    pub block: [u8; BLOCK_BYTES],
    pub check: u32,
}

// A word stored at a place.
#[tactic(auto, using(crate::specs::FollowLaws::word_over))]
pub fn put_word(block: &mut [u8; BLOCK_BYTES], place: usize, word: u32)
    requires { place ≤ check_place }
    ensures { block.new ≡ sets block.old (place * word_bytes) (digits byte_base word_bytes word) }
{
    let at = place * WORD_BYTES;
    block[at..at + WORD_BYTES].copy_from_slice(&word.to_le_bytes());
}

impl Draft {
    // A draft in which nothing is written: zeros.
    #[tactic(auto, unfolding(crate::specs::Words::bytes_of))]
    pub fn new() -> Draft
        ensures { FollowedBy [] result }
    {
        Draft {
            block: [0; BLOCK_BYTES],
            check: 0,
        }
    }

    // A word written at the place after those before it, and added to the check.
    #[tactic(auto, using(crate::specs::FollowLaws::word_follows))]
    pub fn write_word(&mut self, place: usize, word: u32)
        requires { place ≤ check_place }
        ensures { Follow place self.old (word ∷ []) self.new }
    {
        put_word(&mut self.block, place, word);
        self.check = self.check.wrapping_add(word);
    }

    // The block, with the check in its last word.
    #[tactic(auto, using(crate::specs::FollowLaws::finished))]
    pub fn finish(self) -> [u8; BLOCK_BYTES]
        ensures { Finished self result }
    {
        let Draft { mut block, check } = self;
        put_word(&mut block, CHECK_PLACE, check);
        block
    }
}
