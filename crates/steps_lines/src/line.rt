// The bytes of a line that are kept.
ghost use Rattle.std.specs.Prelude.{◌≡◌, ◌==◌, ◌≤◌, ◌<◌, [], ◌∷◌, ◌++◌, length};
ghost use Rattle.steps_lines.specs.Standing.{line_bytes};

use crate::LINE_BYTES;
use std::marker::Model;

// At most as many bytes as tell what a line asks, which lie in the value itself, and are copied with it.
#[derive(Clone, Copy)]
pub struct Line {
    bytes: [u8; LINE_BYTES],
    kept: usize,
}

impl Model for Line {
    ghost use Rattle.std.specs.Prelude.{◌≡◌, ◌≤◌, ◌++◌, length, take, drop};
    ghost use Rattle.std.proofs.Common.{take-append-drop, length-take-le};
    ghost use Rattle.steps_lines.specs.Kept.{Kept};

    ghost Value = { Kept };

    ghost view = { λ l. record { items = take l.kept l.bytes; spare = drop l.kept l.bytes } };

    ghost invariant = { λ l. l.kept ≤ length l.bytes };

    ghost inverse = { λ k. record { bytes = k.items ++ k.spare; kept = length k.items } };

    ghost inverse_ok = { λ l h i. record {
      bytes = take-append-drop l.kept l.bytes i;
      kept = length-take-le l.kept l.bytes h i;
    } };
}

impl Line {
    // Nothing is kept.
    pub fn new() -> Self
        ensures { result.items ≡ [] }
    {
        Line {
            bytes: [0; LINE_BYTES],
            kept: 0,
        }
    }

    // Whether nothing is kept.
    pub fn is_empty(&self) -> bool
        ensures { result ≡ (length self.now.items == 0) }
    {
        self.kept == 0
    }

    // Whether no more is kept.
    pub fn is_full(&self) -> bool
        ensures value { result ≡ (length self.now.items == line_bytes) }
        ensures fits { length self.now.items ≤ line_bytes }
    {
        self.kept == LINE_BYTES
    }

    // The next byte is kept, behind those that are. There must be room.
    pub fn push(&mut self, byte: u8)
        requires { length self.old.items < line_bytes }
        ensures { self.new.items ≡ self.old.items ++ byte ∷ [] }
    {
        self.bytes[self.kept] = byte;
        self.kept += 1;
    }

    // Nothing is kept any more.
    pub fn clear(&mut self)
        ensures { self.new.items ≡ [] }
    {
        self.kept = 0;
    }

    // What is kept, in order.
    pub fn as_slice(&self) -> &[u8]
        ensures { result.now ≡ self.now.items }
    {
        &self.bytes[..self.kept]
    }
}
