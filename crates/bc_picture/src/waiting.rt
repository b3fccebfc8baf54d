//! Bytes that wait for a sink.

ghost use Rattle.std.specs.Prelude.{◌≡◌, ℕ, ◌+◌, ◌≤◌, ◌<◌, true, false, [], ◌++◌, length, take};
ghost use Rattle.bc_picture.specs.SpaceListing.{item_bytes};

use std::marker::Model;

/// How many bytes wait at most.
const LONGEST: usize = 4096;

/// Bytes that wait until they are many.
#[derive(Drop)]
pub(crate) struct Waiting {
    bytes: [u8; 4096],
    filled: usize,
}

impl Model for Waiting {
    ghost use Rattle.std.specs.Prelude.{◌≡◌, ◌≤◌, ℕ, List, length, take};

    ghost Value = { List ℕ };

    ghost view = { λ w. take w.filled w.bytes };

    ghost invariant = { λ w. (w.filled ≤ 4096) × (length w.bytes ≡ 4096) };
}

impl Waiting {
    ghost use Rattle.std.specs.Int.{bytes_high_first};

    /// Nothing waits.
    pub fn new() -> Self
        ensures { result ≡ [] }
    {
        Waiting {
            bytes: [0; 4096],
            filled: 0,
        }
    }

    /// Is there no room for another item?
    pub fn is_full(&self) -> bool
        ensures { result ≡ false → length self.now + 8 ≤ 4096 }
    {
        LONGEST - self.filled < 8
    }

    /// The bytes that wait.
    pub fn bytes(&self) -> &[u8]
        ensures { result.now ≡ self.now }
    {
        &self.bytes[..self.filled]
    }

    /// Puts an item after them.
    pub fn push(&mut self, item: u64)
        requires { length self.old + 8 ≤ 4096 }
        ensures { self.new ≡ self.old ++ bytes_high_first 8 item }
    {
        let at = self.filled;
        self.bytes[at..at + 8].copy_from_slice(&item.to_be_bytes());
        self.filled = at + 8;
    }

    /// Nothing waits any more.
    pub fn clear(&mut self)
        ensures { self.new ≡ [] }
    {
        self.filled = 0;
    }
}
