//! A source in memory that never fails.

ghost use Rattle.std.specs.Prelude.{◌≡◌, ℕ, ◌<◌, ◌≤◌, min, length, take, drop, IfOk, OnErr, Ok, Some, vec_len};
ghost use Rattle.std.specs.Io.KnownBytes.{IsAtEnd};
ghost use Rattle.bc_io.specs.Faults.{Rose};
ghost use Rattle.bc_io.specs.Told.{LeftFalls};

use crate::faults::Failed;
use crate::sources::Source;
use std::marker::Model;

/// Gives the bytes that it was made with, as many in a call as there is room for. Contracts see the
/// bytes that are left.
#[derive(Drop)]
pub struct FirmSource {
    bytes: Vec<u8>,
    given: usize,
}

impl Model for FirmSource {
    ghost use Rattle.std.specs.Prelude.{List, ℕ, ◌≤◌, drop, vec_len};

    ghost Value = { List ℕ };

    ghost view = { λ source. drop source.given source.bytes.items };

    ghost invariant = { λ source. source.given ≤ vec_len source.bytes };
}

impl FirmSource {
    /// A source of these bytes.
    pub fn new(bytes: Vec<u8>) -> FirmSource
        ensures { result ≡ bytes.items }
    {
        FirmSource { bytes, given: 0 }
    }

    /// Gives the next bytes, at most `most` and as many as fit into `buf`, and says how many.
    pub(crate) fn give(&mut self, most: usize, buf: &mut [u8]) -> usize
        ensures count { result ≡ min most (min (length buf.new) (length self.old)) }
        ensures given { take result buf.new ≡ take result self.old }
        ensures left { self.new ≡ drop result self.old }
    {
        let count = copy_front(&self.bytes[self.given..], most, buf);
        self.given += count;
        count
    }
}

/// Copies bytes to the start of `to`, at most `most` and as many as both have, and says how many.
fn copy_front(from: &[u8], most: usize, to: &mut [u8]) -> usize
    ensures count { result ≡ min most (min (length to.new) (length from.now)) }
    ensures copied { take result to.new ≡ take result from.now }
{
    let count = most.min(to.len().min(from.len()));
    to[..count].copy_from_slice(&from[..count]);
    count
}

impl Source for FirmSource {
    ghost left = { λ source. Some source };

    ghost faults = { λ _. 0 };

    fn read(&mut self, buf: &mut [u8]) -> Result<usize, Failed>
        ensures within { IfOk result (λ count. count ≤ length buf.new) }
        ensures given { IfOk result (λ count.
            LeftFalls (Some self.old) (Some self.new) (take count buf.new)) }
        ensures at_end { result ≡ Ok 0 → 0 < length buf.new → IsAtEnd (Some self.new) }
        ensures kept { OnErr result (self.new ≡ self.old) }
        ensures cause { OnErr result (Rose 0 0) }

        // It gives as many as are left and fit, and never fails.
        ensures count { result ≡ Ok (min (length buf.new) (length self.old)) }
    {
        let most = buf.len();
        Ok(self.give(most, buf))
    }
}
