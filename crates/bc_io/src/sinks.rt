//! A device that bytes are written to.

ghost use Rattle.std.specs.Prelude.{◌≡◌, ℕ, ◌<◌, ◌≤◌, List, Option, length, take, IfOk, OnOk, OnErr};
ghost use Rattle.bc_io.specs.Faults.{Rose};
ghost use Rattle.bc_io.specs.Told.{HasRoom, HeldGrows};
ghost use Rattle.bc_io.specs.Pieces.{RoomFalls};

use crate::faults::Failed;

/// Bytes are written to it, each after those before.
pub trait Sink {
    // The bytes that it holds, where they are known.
    ghost held: { Self → Option (List ℕ) };

    // How often it has failed. It starts at 0.
    ghost faults: { Self → ℕ };

    // For how many more bytes it has room, where that is known.
    ghost room: { Self → Option ℕ };

    /// Takes the first of these bytes and says how many: at least one where there is one, and at
    /// most all. After `Failed` it holds what it held and has the room that it had, and the call
    /// may be made again.
    fn write(&mut self, bytes: &[u8]) -> Result<usize, Failed>
        requires { HasRoom (room self.old) (length bytes.now) }
        ensures within { IfOk result (λ count. count ≤ length bytes.now) }
        ensures some { 0 < length bytes.now → IfOk result (λ count. 0 < count) }
        ensures taken { IfOk result (λ count.
            HeldGrows (held self.old) (held self.new) (take count bytes.now)) }
        ensures filled { IfOk result (λ count. RoomFalls (room self.old) (room self.new) count) }

        // A failed write takes nothing, and the device has counted it. No other call counts a fault.
        ensures kept { OnErr result (held self.new ≡ held self.old) }
        ensures unfilled { OnErr result (room self.new ≡ room self.old) }
        ensures cause { OnErr result (Rose (faults self.old) (faults self.new)) }
        ensures firm { OnOk result (faults self.new ≡ faults self.old) }
        ensures later { faults self.old ≤ faults self.new };
}
