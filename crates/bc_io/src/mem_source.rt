//! A source in memory that gives pieces and fails at chosen calls.

ghost use Rattle.std.specs.Prelude.{◌≡◌, ◌<◌, ◌≤◌, ◌↔◌, min, length, take, IfOk, IsErr, OnOk, OnErr, Ok, Some};
ghost use Rattle.std.specs.Io.KnownBytes.{IsAtEnd};
ghost use Rattle.bc_io.specs.Faults.{Rose};
ghost use Rattle.bc_io.specs.Told.{LeftFalls};
ghost use Rattle.bc_io.specs.Scripts.{FailsNext, after_read};

use crate::faults::Failed;
use crate::firm_source::FirmSource;
use crate::schedule::Schedule;
use crate::sources::Source;
use std::marker::Model;

/// Gives the bytes that it was made with, at most `piece` in a call. The calls whose numbers, from
/// 1, are among `failing` fail, and no others do. Contracts see the bytes that are left, the piece,
/// and which calls fail.
#[derive(Drop)]
pub struct MemSource {
    source: FirmSource,
    piece: usize,
    schedule: Schedule,
}

impl Model for MemSource {
    ghost use Rattle.std.specs.Prelude.{◌<◌};
    ghost use Rattle.bc_io.specs.Scripts.{SourceScript};

    ghost Value = { SourceScript };

    ghost view = { λ source. record {
      left = source.source;
      piece = source.piece;
      failing = source.schedule.failing.items;
      calls = source.schedule.calls;
      faults = source.schedule.faults;
    } };

    ghost invariant = { λ source. 0 < source.piece };
}

impl MemSource {
    /// A source of these bytes, of which it gives at most `piece` in a call.
    pub fn new(bytes: Vec<u8>, piece: usize, failing: Vec<u64>) -> MemSource
        requires { 0 < piece }
        ensures { result ≡ record {
          left = bytes.items;
          piece = piece;
          failing = failing.items;
          calls = 0;
          faults = 0;
        } }
    {
        MemSource {
            source: FirmSource::new(bytes),
            piece,
            schedule: Schedule::new(failing),
        }
    }
}

impl Source for MemSource {
    ghost left = { λ source. Some source.left };

    ghost faults = { λ source. source.faults };

    fn read(&mut self, buf: &mut [u8]) -> Result<usize, Failed>
        ensures within { IfOk result (λ count. count ≤ length buf.new) }
        ensures given { IfOk result (λ count.
            LeftFalls (Some self.old.left) (Some self.new.left) (take count buf.new)) }
        ensures at_end { result ≡ Ok 0 → 0 < length buf.new → IsAtEnd (Some self.new.left) }
        ensures kept { OnErr result (Some self.new.left ≡ Some self.old.left) }
        ensures cause { OnErr result (Rose self.old.faults self.new.faults) }
        ensures firm { OnOk result (self.new.faults ≡ self.old.faults) }
        ensures later { self.old.faults ≤ self.new.faults }

        // It fails exactly at the calls that it was made with, and else gives a piece.
        ensures fails { IsErr result ↔ FailsNext self.old.failing self.old.calls }
        ensures piece { IfOk result (λ count.
            count ≡ min self.old.piece (min (length buf.new) (length self.old.left))) }
        ensures after { self.new ≡ after_read self.old result }
    {
        if self.schedule.next_fails() {
            return Err(Failed);
        }
        Ok(self.source.give(self.piece, buf))
    }
}
