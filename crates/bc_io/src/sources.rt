//! A device that bytes are read from.

ghost use Rattle.std.specs.Prelude.{◌≡◌, ℕ, ◌<◌, ◌≤◌, List, Option, length, take, IfOk, OnOk, OnErr, Ok};
ghost use Rattle.std.specs.Io.KnownBytes.{IsAtEnd};
ghost use Rattle.bc_io.specs.Faults.{Rose};
ghost use Rattle.bc_io.specs.Told.{LeftFalls};

use crate::faults::Failed;

/// Bytes are read from it, from the first to the last.
pub trait Source {
    // The bytes that it has yet to give, where they are known.
    ghost left: { Self → Option (List ℕ) };

    // How often it has failed. It starts at 0.
    ghost faults: { Self → ℕ };

    /// Gives the next bytes, at the start of `buf`, and says how many: at most the length of `buf`,
    /// and none into a nonempty `buf` only at the end. What follows them in `buf` is left
    /// open. After `Failed` as much is left as before, and the call may be made again.
    fn read(&mut self, buf: &mut [u8]) -> Result<usize, Failed>
        ensures within { IfOk result (λ count. count ≤ length buf.new) }
        ensures given { IfOk result (λ count.
            LeftFalls (left self.old) (left self.new) (take count buf.new)) }
        ensures at_end { result ≡ Ok 0 → 0 < length buf.new → IsAtEnd (left self.new) }

        // A failed read gives nothing, and the device has counted it. No other call counts a fault.
        ensures kept { OnErr result (left self.new ≡ left self.old) }
        ensures cause { OnErr result (Rose (faults self.old) (faults self.new)) }
        ensures firm { OnOk result (faults self.new ≡ faults self.old) }
        ensures later { faults self.old ≤ faults self.new };
}
