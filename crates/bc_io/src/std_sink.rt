//! The edge over std's writers.

ghost use Rattle.std.specs.Prelude.{◌≡◌, ◌<◌, ◌≤◌, ◌⊎◌, length, IfOk, OnOk, OnErr, Ok, None, IsErr, IsTrue, IsFalse, is_ok, if◌then◌else◌};
ghost use Rattle.std.specs.Io.KnownBytes.{WriteAppends};
ghost use Rattle.bc_io.specs.Faults.{Rose};
ghost use Rattle.bc_io.specs.FaultCounts.{counted};

use crate::faults::Failed;
use crate::sinks::Sink;
use std::io::{self, Write};

/// Hands bytes to a writer, and counts each of its errors. A writer that takes none of some bytes
/// has failed too. Neither its bytes nor its room are known, and it flushes nothing: the writer is one that
/// keeps nothing back.
#[derive(Drop)]
pub struct StdSink<W> {
    writer: W,
    pub(crate) faults: u64,
}

impl<W: Write> StdSink<W> {
    ghost use Rattle.bc_io.specs.Edges.{write_faults_of, writer_of};

    /// A sink over this writer, which has not failed yet.
    pub fn new(writer: W) -> StdSink<W>
        ensures writer { writer_of result ≡ writer }
        ensures faults { write_faults_of result ≡ 0 }
    {
        StdSink { writer, faults: 0 }
    }
}

impl<W: Write> Sink for StdSink<W> {
    ghost use Rattle.bc_io.specs.Edges.{write_faults_of, writer_of};

    ghost held = { λ _. None };

    ghost faults = { write_faults_of };

    ghost room = { λ _. None };

    fn write(&mut self, bytes: &[u8]) -> Result<usize, Failed>
        ensures within { IfOk result (λ count. count ≤ length bytes.now) }
        ensures some { 0 < length bytes.now → IfOk result (λ count. 0 < count) }
        ensures cause { OnErr result (Rose (write_faults_of self.old) (write_faults_of self.new)) }
        ensures firm { OnOk result (write_faults_of self.new ≡ write_faults_of self.old) }
        ensures later { write_faults_of self.old ≤ write_faults_of self.new }

        // The writer took what was taken, and its count rises by one at each error.
        ensures writer { WriteAppends (W.contents (writer_of self.old))
            (W.contents (writer_of self.new)) result bytes.now }
        ensures count { write_faults_of self.new
            ≡ (if is_ok result then write_faults_of self.old
            else counted (write_faults_of self.old)) }
    {
        pass_on(self.writer.write(bytes), bytes.is_empty(), &mut self.faults)
    }
}

/// The answer to what a writer took, of no bytes where `empty`. Each of its errors is counted once,
/// and so is a write that took none of some bytes. Nothing else is.
fn pass_on(taken: io::Result<usize>, empty: bool, faults: &mut u64) -> Result<usize, Failed>
    ensures ok { IfOk taken (λ count. 0 < count ⊎ IsTrue empty → result ≡ Ok count) }
    ensures none { taken ≡ Ok 0 → IsFalse empty → IsErr result }
    ensures err { OnErr taken (IsErr result) }
    ensures count { faults.new ≡ (if is_ok result then faults.old else counted faults.old) }
    ensures later { faults.old ≤ faults.new }
{
    match taken {
        Ok(count) if count > 0 || empty => Ok(count),
        _ => {
            *faults = faults.saturating_add(1);
            Err(Failed)
        }
    }
}
