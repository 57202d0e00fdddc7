// The refusals. A call that is refused answers one of these, and nothing else of it is changed; the number of each is what hosts in
// C see of it, where 0 stands for no refusal.
#![tactic(auto)]

ghost use Rattle.std.specs.Prelude.{◌≡◌};
ghost use Rattle.refusals.specs.Refusals.{number};

use std::error::Error;
use std::fmt;

#[derive(Clone, Copy, Debug, PartialEq, Eq, Hash)]
pub enum Refusal {
    // The table's length is 0, not a multiple of 8, or above 8,192 words.
    BadTable = 1,
    // The record's current version is not in 1 to 1,000,000,000, or is 1,000,000,000 with a run active; or its oldest open version is
    // below 1, is neither current nor current − 1, or is not current during a run.
    BadRecord = 2,
    // The session is below 1 or above current.
    NoSuchVersion = 3,
    // The session is below the oldest open version.
    Expired = 4,
    // The slot number is not below the slots, or the block number is not one of the blocks.
    NoSuchPlace = 5,
    // A slot that the call rests on is not well formed.
    BrokenSlot = 6,
    // A run is active.
    RunActive = 7,
    // No run is active.
    NoRun = 8,
    // Current is the largest version.
    NoVersionLeft = 9,
    // The key is not live, deleted or absent.
    KeyNotLive = 11,
    // There is no slot to take.
    TableFull = 12,
    // A given total is not lawful.
    BadTotal = 13,
    // The block is not 512 bytes.
    NotBlock = 14,
    // The block's check is wrong.
    WrongCheck = 15,
    // The check is right, and some field of the block is not allowed.
    BadField = 16,
}

impl Refusal {
    pub fn number(self) -> u32
        ensures { result ≡ number self }
    {
        self as u32
    }
}

impl fmt::Display for Refusal {
    fn fmt<W: fmt::Write>(&self, f: &mut fmt::Formatter<W>) -> fmt::Result {
        write!(f, "refused {}", self.number())
    }
}

impl Error for Refusal {}
