// What a save hands out: its answer, and the block beside it, made whole, zeros where it is refused.
ghost use Rattle.std.specs.Prelude.{◌≡◌};
ghost use Rattle.blocks.specs.SavedParts.{answered, handed_out};

use blocks_words::BLOCK_BYTES;
use refusals::Refusal;

#[derive(Drop)]
pub struct Saved {
    pub answer: Result<(), Refusal>,
    pub block: [u8; BLOCK_BYTES],
}

impl From<Result<[u8; BLOCK_BYTES], Refusal>> for Saved {
    ghost from_gives = { λ made saved. (saved.answer ≡ answered made) × (saved.block ≡ handed_out made) };

    fn from(made: Result<[u8; BLOCK_BYTES], Refusal>) -> Saved {
        match made {
            Ok(block) => Saved {
                answer: Ok(()),
                block,
            },
            Err(refusal) => Saved {
                answer: Err(refusal),
                block: [0; BLOCK_BYTES],
            },
        }
    }
}
