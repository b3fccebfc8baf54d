//! An operation of a lane on a heap that lanes run on, lent by its parts.

ghost use Rattle.std.specs.Prelude.{◌≡◌, ◌↔◌, ◌+◌, ◌^◌, ◌<◌, [], length, slice_index, IfOk, OnErr, IsErrOf};
ghost use Rattle.bc_bookmarks.specs.Moves.{CanMakeRoom, MovesPages, NoPageGoes};
ghost use Rattle.bc_cycle.specs.Emptying.{heap_view, HasRoomToList};
ghost use Rattle.bc_model.specs.State.{State};
ghost use Rattle.bc_model.specs.Step.{step};
ghost use Rattle.bc_mutator.specs.Effects.{IsChangedBy};
ghost use Rattle.bc_mutator.specs.Operations.{IsOpOf, NeedsEntry, WantsMore};
ghost use Rattle.bc_nursery.specs.Objects.{left_of};
ghost use Rattle.bc_whole_heap.specs.Closed.{buffer_of};
ghost use Rattle.bc_whole_heap.specs.LaneChunks.{chunk_of};
ghost use Rattle.bc_whole_heap.specs.Heaps.{heap_memory};
ghost use Rattle.bc_whole_heap.specs.LaneStates.{StandsAs};
ghost use Rattle.bc_running.specs.RunningFacts.{IsSound, StaysBut, running_of};
ghost use Rattle.bc_running.specs.Touching.{BringsHome, LooksAtGone, RecordsAfter, SameRemembered};

use crate::touching::reload_touched;
use crate::whole::operate_here;
use bc_cycle::Heap;
use bc_model::{Holder, Op, Reply};
use bc_mutator::Stop;
use bc_whole_heap::heap_facts;

/// The lane does an operation that fits, once the page that it touches is in memory, or stops. Then at most pages have moved.
pub(crate) fn attempt(
    heap: &mut Heap,
    holders: &[Holder],
    serials: &mut [u32],
    lane: u32,
    op: &Op,
) -> Result<Reply, Stop>
    requires sound { IsSound (running_of (heap_view heap.old) holders.now serials.old) }
    requires lane { lane < length serials.old }
    requires op { IsOpOf heap.old.roots op.now }
    requires serial { slice_index serials.old lane + 1 < 2 ^ 32 }
    ensures sound { IsSound (running_of (heap_view heap.new) holders.now serials.new) }
    ensures step { IfOk result (λ reply. (state : State) → StandsAs (heap_view heap.old) holders.now serials.old state
        → ((step state lane op.now).1 ≡ reply) × StandsAs (heap_view heap.new) holders.now serials.new (step state lane op.now).0) }
    ensures stopped { OnErr result (MovesPages heap.old.space heap.new.space × (heap.new ≡ record heap.old { space = heap.new.space }) × (serials.new ≡ serials.old)) }
    ensures nursery { IsErrOf result Stop.NurseryFull ↔ WantsMore holders.now lane (left_of (chunk_of heap.old.chunks.items lane)) op.now }
    ensures buffer { IsErrOf result Stop.BufferFull → NeedsEntry holders.now lane heap.old.space heap.old.roots (chunk_of heap.old.chunks.items lane) (buffer_of heap.old.buffers.items lane) op.now }
    ensures full { IsErrOf result Stop.NurseryFull → heap.new ≡ heap.old }
    ensures brings { IsErrOf result Stop.BufferFull → BringsHome holders.now lane heap.old.space heap.old.roots op.now heap.new.space }
    ensures frame { IsErrOf result Stop.NoFrame ↔ (LooksAtGone holders.now lane heap.old.space heap.old.roots op.now × NoPageGoes heap.old.space) }
    ensures kept { IsErrOf result Stop.NoFrame → heap.new ≡ heap.old }
    ensures finds { IsErrOf result Stop.NoFrame → CanMakeRoom heap.old.space → ⊥ }
    ensures stays { StaysBut lane (running_of (heap_view heap.old) holders.now serials.old) (running_of (heap_view heap.new) holders.now serials.new) }
    ensures recorded { IfOk result (λ reply. RecordsAfter holders.now lane heap.old.space heap.old.roots (chunk_of heap.old.chunks.items lane) op.now
        reply (buffer_of heap.old.buffers.items lane) (buffer_of heap.new.buffers.items lane) heap.new.space) }
    ensures memory { IfOk result (λ reply. IsChangedBy holders.now lane (slice_index serials.old lane) (heap_memory heap.old.space heap.old.chunks.items)
        (heap_memory heap.new.space heap.new.chunks.items) heap.old.roots op.now reply) }
    ensures room { HasRoomToList heap.old → HasRoomToList heap.new }
    ensures unrecorded { (chunk_of heap.old.chunks.items lane).objects ≡ []
        → (heap.new.buffers.items ≡ heap.old.buffers.items) × SameRemembered heap.old.space heap.new.space }
{
    heap_facts(&heap.space, &heap.roots, &heap.chunks);
    match reload_touched(&mut heap.space, &heap.roots, holders, lane, op) {
        Ok(()) => operate_here(heap, holders, &mut serials[lane as usize], lane, op),
        Err(stop) => Err(stop),
    }
}
