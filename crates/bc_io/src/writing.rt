//! Writing all of some bytes to a sink.

ghost use Rattle.std.specs.Prelude.{◌≡◌, ◌≤◌, [], length, OnOk, OnErr};
ghost use Rattle.bc_io.specs.Faults.{Rose};
ghost use Rattle.bc_io.specs.Told.{HasRoom, HeldGrows};
ghost use Rattle.bc_io.specs.Pieces.{RoomFalls, TakesFront};

use crate::faults::Failed;
use crate::sinks::Sink;
use std::error::Error;
use std::fmt;

/// A write failed before all bytes were taken, and the sink has counted it.
#[derive(Clone, Copy, Debug, PartialEq, Eq)]
pub struct WriteFault;

impl fmt::Display for WriteFault {
    ghost use Rattle.std.specs.Prelude.{Some, codes};

    ghost output = { λ _. Some (codes "writing failed") };

    fn fmt<W: fmt::Write>(&self, f: &mut fmt::Formatter<W>) -> fmt::Result {
        write!(f, "writing failed")
    }
}

impl Error for WriteFault {}

/// Writes all of these bytes, or a prefix of them and then meets a fault. Each write takes at least
/// one byte. It takes no memory, and an empty slice is written with no call of the sink at all.
///
/// After a fault the sink holds a prefix of the bytes, so a second try with all of them would write
/// that prefix twice.
pub fn write_all<K: Sink>(sink: &mut K, bytes: &[u8]) -> Result<(), WriteFault>
    requires { HasRoom (K.room sink.old) (length bytes.now) }
    ensures all { OnOk result (HeldGrows (K.held sink.old) (K.held sink.new) bytes.now) }
    ensures filled { OnOk result
        (RoomFalls (K.room sink.old) (K.room sink.new) (length bytes.now)) }

    // At a fault a prefix was taken, and not all.
    ensures front { OnErr result (TakesFront (K.held sink.old) (K.held sink.new)
        (K.room sink.old) (K.room sink.new) bytes.now) }
    ensures cause { OnErr result (Rose (K.faults sink.old) (K.faults sink.new)) }
    ensures firm { OnOk result (K.faults sink.new ≡ K.faults sink.old) }
    ensures later { K.faults sink.old ≤ K.faults sink.new }

    // Of no bytes, no write is made.
    ensures none { bytes.now ≡ [] → sink.new ≡ sink.old }
{
    let mut done = 0;
    while done < bytes.len() {
        match sink.write(&bytes[done..]) {
            Ok(count) => done += count,
            Err(Failed) => return Err(WriteFault),
        }
    }
    Ok(())
}
