//! A sink in memory that never fails.

ghost use Rattle.std.specs.Prelude.{◌≡◌, ◌<◌, ◌≤◌, [], max, length, take, IfOk, IsOk, OnOk, OnErr, Ok, Some};
ghost use Rattle.bc_io.specs.Faults.{Rose};
ghost use Rattle.bc_io.specs.Told.{HasRoom, HeldGrows};
ghost use Rattle.bc_io.specs.Pieces.{RoomFalls};
ghost use Rattle.bc_io.specs.Scripts.{filled_with};

use crate::faults::{Failed, NoMemory};
use crate::sinks::Sink;
use std::alloc::Global;
use std::marker::Model;

/// Takes all bytes that it has room for. The room is taken beforehand, by `reserve`. Contracts see
/// the bytes that it holds and the room that is to spare.
#[derive(Drop)]
pub struct FirmSink {
    bytes: Vec<u8>,
    spare: usize,
}

impl Model for FirmSink {
    ghost use Rattle.std.specs.Prelude.{◌+◌, ◌≤◌, vec_len, vec_capacity};
    ghost use Rattle.bc_io.specs.Scripts.{Reserved};

    ghost Value = { Reserved };

    ghost view = { λ sink. record { held = sink.bytes.items; spare = sink.spare } };

    ghost invariant = { λ sink. vec_len sink.bytes + sink.spare ≤ vec_capacity sink.bytes };
}

impl FirmSink {
    /// A sink that holds nothing and has no room yet. It takes no memory.
    pub fn new(alloc: Global) -> FirmSink
        ensures { result ≡ record { held = []; spare = 0 } }
    {
        FirmSink {
            bytes: Vec::new(alloc),
            spare: 0,
        }
    }

    /// Sees to it that there is room for `n` more bytes. It takes no memory where that room is
    /// there already.
    pub fn reserve(&mut self, n: usize) -> Result<(), NoMemory>
        ensures ok { OnOk result (self.new ≡ record self.old { spare = max self.old.spare n }) }
        ensures err { OnErr result (self.new ≡ self.old) }
        ensures ready { n ≤ self.old.spare → IsOk result }
    {
        if self.spare < n {
            self.bytes.reserve(n)?;
            self.spare = n;
        }
        Ok(())
    }

    /// The bytes that were written, from the first.
    pub fn held(&self) -> &[u8]
        ensures { result.now ≡ self.now.held }
    {
        self.bytes.as_slice()
    }

    /// Takes all of these bytes.
    pub(crate) fn append(&mut self, bytes: &[u8])
        requires { length bytes.now ≤ self.old.spare }
        ensures { self.new ≡ filled_with self.old bytes.now }
    {
        let Ok(()) = self.bytes.extend_from_slice(bytes) else {
            unreachable!()
        };
        self.spare -= bytes.len();
    }
}

impl Sink for FirmSink {
    ghost held = { λ sink. Some sink.held };

    ghost faults = { λ _. 0 };

    ghost room = { λ sink. Some sink.spare };

    fn write(&mut self, bytes: &[u8]) -> Result<usize, Failed>
        requires { HasRoom (Some self.old.spare) (length bytes.now) }
        ensures within { IfOk result (λ count. count ≤ length bytes.now) }
        ensures some { 0 < length bytes.now → IfOk result (λ count. 0 < count) }
        ensures taken { IfOk result (λ count.
            HeldGrows (Some self.old.held) (Some self.new.held) (take count bytes.now)) }
        ensures filled { IfOk result (λ count.
            RoomFalls (Some self.old.spare) (Some self.new.spare) count) }
        ensures kept { OnErr result (Some self.new.held ≡ Some self.old.held) }
        ensures unfilled { OnErr result (Some self.new.spare ≡ Some self.old.spare) }
        ensures cause { OnErr result (Rose 0 0) }

        // It takes them all, and never fails.
        ensures count { result ≡ Ok (length bytes.now) }
        ensures all { self.new ≡ filled_with self.old bytes.now }
    {
        self.append(bytes);
        Ok(bytes.len())
    }
}
