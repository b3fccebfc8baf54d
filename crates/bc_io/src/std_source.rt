//! The edge over std's readers.

ghost use Rattle.std.specs.Prelude.{◌≡◌, ◌<◌, ◌≤◌, length, take, IfOk, OnOk, OnErr, Ok, None, IsErr, is_ok, if◌then◌else◌};
ghost use Rattle.std.specs.Io.KnownBytes.{ReadConsumes};
ghost use Rattle.bc_io.specs.Faults.{Rose};
ghost use Rattle.bc_io.specs.FaultCounts.{counted};
ghost use Rattle.bc_io.specs.Told.{LeftFalls};

use crate::faults::Failed;
use crate::sources::Source;
use std::io::{self, Read};

/// Gives what a reader gives, and counts each of its errors. Its bytes aren't known.
#[derive(Drop)]
pub struct StdSource<R> {
    reader: R,
    pub(crate) faults: u64,
}

impl<R: Read> StdSource<R> {
    ghost use Rattle.bc_io.specs.Edges.{read_faults_of, reader_of};

    /// A source over this reader, which has not failed yet.
    pub fn new(reader: R) -> StdSource<R>
        ensures reader { reader_of result ≡ reader }
        ensures faults { read_faults_of result ≡ 0 }
    {
        StdSource { reader, faults: 0 }
    }
}

impl<R: Read> Source for StdSource<R> {
    ghost use Rattle.bc_io.specs.Edges.{read_faults_of, reader_of};

    ghost left = { λ _. None };

    ghost faults = { read_faults_of };

    fn read(&mut self, buf: &mut [u8]) -> Result<usize, Failed>
        ensures within { IfOk result (λ count. count ≤ length buf.new) }
        ensures given { IfOk result (λ count. LeftFalls None None (take count buf.new)) }
        ensures cause { OnErr result (Rose (read_faults_of self.old) (read_faults_of self.new)) }
        ensures firm { OnOk result (read_faults_of self.new ≡ read_faults_of self.old) }
        ensures later { read_faults_of self.old ≤ read_faults_of self.new }

        // It passes on what the reader gave, and its count rises by one at each error.
        ensures reader { ReadConsumes (R.remaining (reader_of self.old))
            (R.remaining (reader_of self.new)) result buf.new }
        ensures count { read_faults_of self.new
            ≡ (if is_ok result then read_faults_of self.old
            else counted (read_faults_of self.old)) }
    {
        pass_on(self.reader.read(buf), &mut self.faults)
    }
}

/// The answer to what a reader gave. Each of its errors is counted once, and nothing else is.
fn pass_on(given: io::Result<usize>, faults: &mut u64) -> Result<usize, Failed>
    ensures ok { IfOk given (λ count. result ≡ Ok count) }
    ensures err { OnErr given (IsErr result) }
    ensures count { faults.new ≡ (if is_ok given then faults.old else counted faults.old) }
    ensures later { faults.old ≤ faults.new }
{
    match given {
        Ok(count) => Ok(count),
        Err(_) => {
            *faults = faults.saturating_add(1);
            Err(Failed)
        }
    }
}
