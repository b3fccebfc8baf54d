//! Handles for root slots: which slot, and the lane that works with it.

ghost use Rattle.std.specs.Prelude.{◌≡◌, ℕ, ◌+◌, ◌*◌, ◌<◌, ◌≤◌, true, false, length, slice_index_or, IfErr, IfNone, IfOk, IfSome, OnErr, OnOk};
ghost use Rattle.bc_model.specs.State.{place_of};
ghost use Rattle.bc_model.specs.declared.operations.Op.TheVariants as op;
ghost use Rattle.bc_model.specs.declared.operations.Reply.TheVariants as reply;
ghost use Rattle.sorvekla.specs.Heaps.{OpenHeap};
ghost use Rattle.sorvekla.specs.Roots.{HandsOut, IsRootFault, with_taken};
ghost use Rattle.sorvekla.specs.Steps.{DidStep, IsCauseOf};

use crate::errors::HeapError;
use crate::heaps::Heap;
use bc_model::{Op, Slot};
use std::thread::Threads;

/// A handle: a root slot, and the lane that works with it. It may be made by hand too, for slots that the runtime numbers itself.
#[derive(Clone, Copy, PartialEq, Eq, Debug)]
pub struct Root {
    pub lane: u32,
    pub slot: Slot,
}

impl Root {
    /// The same slot, for another lane.
    pub fn of_lane(self, lane: u32) -> Root
        ensures { result ≡ record self { lane = lane } }
    {
        Root {
            lane,
            slot: self.slot,
        }
    }
}

impl Heap {
    /// Hands out a root slot of a domain, to a lane: the first of those that aren't handed out. It holds nil, unless it was written without
    /// a handle, though no contract says so. The search looks at up to 256 slots.
    pub fn root(&mut self, lane: u32, domain: u32) -> Result<Root, HeapError>
        ensures handed { IfOk result (λ root. HandsOut self.old lane domain root self.new) }
        ensures refused { IfErr result (IsRootFault self.old lane domain) }
        ensures same { OnErr result (self.new ≡ self.old) }
    {
        if lane >= self.setup.lanes {
            return Err(HeapError::NoLane);
        }
        if domain >= self.setup.domains {
            return Err(HeapError::NoDomain);
        }
        let slots = self.setup.slots;
        let Some(slot) = free_slot(&self.taken, slots, domain) else {
            return Err(HeapError::NoRootLeft);
        };
        let slot = Slot { domain, slot };
        self.taken[place_in(slots, slot)] = true;
        Ok(Root { lane, slot })
    }

    /// Clears the root slot of a handle, and takes the handle back: it may be handed out again.
    pub fn release<R>(&mut self, rt: &R, root: Root) -> Result<(), HeapError>
    where
        R: Threads + Sync,
        ensures cleared { OnOk result ((k : OpenHeap) × DidStep self.old root.lane (op.Clear root.slot) reply.Done k × (self.new ≡ with_taken k root.slot false)) }
        ensures refused { IfErr result (λ error. IsCauseOf self.old root.lane (op.Clear root.slot) error self.new) }
    {
        self.clear(rt, root)?;
        let place = place_in(self.setup.slots, root.slot);
        if place < self.taken.len() {
            self.taken[place] = false;
        }
        Ok(())
    }
}

/// Where the mark of a slot stands.
fn place_in(slots: u32, slot: Slot) -> usize
    ensures place { result ≡ place_of slots slot }
{
    slots as usize * slot.domain as usize + slot.slot as usize
}

/// The first slot of a domain that isn't marked.
fn free_slot(taken: &[bool], slots: u32, domain: u32) -> Option<u32>
    requires long { slots * domain + slots ≤ length taken.now }
    ensures within { IfSome result (λ slot. slot < slots) }
    ensures free { IfSome result (λ slot. slice_index_or taken.now (place_of slots (record { domain = domain; slot = slot })) false ≡ false) }
    ensures first { IfSome result (λ slot. (earlier : ℕ) → earlier < slot → slice_index_or taken.now (place_of slots (record { domain = domain; slot = earlier })) false ≡ true) }
    ensures none { IfNone result ((slot : ℕ) → slot < slots → slice_index_or taken.now (place_of slots (record { domain = domain; slot = slot })) false ≡ true) }
{
    for slot in 0..slots {
        if !taken[place_in(slots, Slot { domain, slot })] {
            return Some(slot);
        }
    }
    None
}
