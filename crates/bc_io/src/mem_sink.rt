//! A sink in memory that takes pieces and fails at chosen calls.

ghost use Rattle.std.specs.Prelude.{◌≡◌, ◌<◌, ◌≤◌, ◌↔◌, [], min, length, take, IfOk, IsErr, OnOk, OnErr, Some};
ghost use Rattle.bc_io.specs.Faults.{Rose};
ghost use Rattle.bc_io.specs.Told.{HasRoom, HeldGrows};
ghost use Rattle.bc_io.specs.Pieces.{RoomFalls};
ghost use Rattle.bc_io.specs.Scripts.{FailsNext, after_write};

use crate::faults::{Failed, NoMemory};
use crate::firm_sink::FirmSink;
use crate::schedule::Schedule;
use crate::sinks::Sink;
use std::alloc::Global;
use std::marker::Model;

/// Takes at most `piece` bytes in a call, within the room that it was made with. The calls whose
/// numbers, from 1, are among `failing` fail, and no others do. Contracts see the bytes that it
/// holds, the room, the piece, and which calls fail.
#[derive(Drop)]
pub struct MemSink {
    sink: FirmSink,
    piece: usize,
    schedule: Schedule,
}

impl Model for MemSink {
    ghost use Rattle.std.specs.Prelude.{◌<◌};
    ghost use Rattle.bc_io.specs.Scripts.{SinkScript};

    ghost Value = { SinkScript };

    ghost view = { λ sink. record {
      held = sink.sink.held;
      room = sink.sink.spare;
      piece = sink.piece;
      failing = sink.schedule.failing.items;
      calls = sink.schedule.calls;
      faults = sink.schedule.faults;
    } };

    ghost invariant = { λ sink. 0 < sink.piece };
}

impl MemSink {
    /// A sink with room for `room` bytes, of which it takes at most `piece` in a call. All its
    /// memory is taken here.
    pub fn new(
        alloc: Global,
        room: usize,
        piece: usize,
        failing: Vec<u64>,
    ) -> Result<MemSink, NoMemory>
        requires { 0 < piece }
        ensures { IfOk result (λ sink. sink ≡ record {
          held = [];
          room = room;
          piece = piece;
          failing = failing.items;
          calls = 0;
          faults = 0;
        }) }
    {
        let mut sink = FirmSink::new(alloc);
        sink.reserve(room)?;
        Ok(MemSink {
            sink,
            piece,
            schedule: Schedule::new(failing),
        })
    }

    /// The bytes that were written, from the first.
    pub fn held(&self) -> &[u8]
        ensures { result.now ≡ self.now.held }
    {
        self.sink.held()
    }
}

impl Sink for MemSink {
    ghost held = { λ sink. Some sink.held };

    ghost faults = { λ sink. sink.faults };

    ghost room = { λ sink. Some sink.room };

    fn write(&mut self, bytes: &[u8]) -> Result<usize, Failed>
        requires { HasRoom (Some self.old.room) (length bytes.now) }
        ensures within { IfOk result (λ count. count ≤ length bytes.now) }
        ensures some { 0 < length bytes.now → IfOk result (λ count. 0 < count) }
        ensures taken { IfOk result (λ count.
            HeldGrows (Some self.old.held) (Some self.new.held) (take count bytes.now)) }
        ensures filled { IfOk result (λ count.
            RoomFalls (Some self.old.room) (Some self.new.room) count) }
        ensures kept { OnErr result (Some self.new.held ≡ Some self.old.held) }
        ensures unfilled { OnErr result (Some self.new.room ≡ Some self.old.room) }
        ensures cause { OnErr result (Rose self.old.faults self.new.faults) }
        ensures firm { OnOk result (self.new.faults ≡ self.old.faults) }
        ensures later { self.old.faults ≤ self.new.faults }

        // It fails exactly at the calls that it was made with, and else takes a piece.
        ensures fails { IsErr result ↔ FailsNext self.old.failing self.old.calls }
        ensures piece { IfOk result (λ count. count ≡ min self.old.piece (length bytes.now)) }
        ensures after { self.new ≡ after_write self.old bytes.now result }
    {
        if self.schedule.next_fails() {
            return Err(Failed);
        }
        let count = self.piece.min(bytes.len());
        self.sink.append(&bytes[..count]);
        Ok(count)
    }
}
