//! A heap that a runtime has open.

ghost use Rattle.std.specs.Prelude.{◌≡◌, IfErr, IfOk};
ghost use Rattle.bc_model.specs.Run.{opening};
ghost use Rattle.bc_model.specs.State.{State};
ghost use Rattle.bc_model.specs.WellFormed.{IsSetup, IsWithin};
ghost use Rattle.sorvekla.specs.Heaps.{IsOpen, HeapStands, no_calls, none_taken};
ghost use Rattle.sorvekla.specs.Limits.{IsOpenFault, setup_of};

use crate::emptying::Upkeep;
use crate::errors::OpenError;
use crate::limits::{Limits, limit_fault, setup_in_range};
use bc_model::Setup;
use bc_pager::Answer;
use bc_running::Running;
use std::alloc::{AllocError, Global};
use std::marker::Model;

/// A heap that a runtime has open.
#[derive(Drop)]
pub struct Heap {
    pub(crate) running: Running,
    pub(crate) setup: Setup,
    /// Which root slots are handed out, domain after domain.
    pub(crate) taken: Vec<bool>,
    /// Room for the answer to a hint. It is empty between calls.
    pub(crate) answers: Vec<Answer>,
    pub(crate) upkeep: Upkeep,
}

impl Model for Heap {
    ghost use Rattle.std.specs.Prelude.{[], ◌≡◌, ◌≤◌, vec_capacity};
    ghost use Rattle.sorvekla.specs.Heaps.{IsOpen, OpenHeap};
    ghost use Rattle.sorvekla.specs.Inside.{heap_of};

    ghost Value = { OpenHeap };

    ghost view = { heap_of };

    ghost invariant = { λ h. IsOpen (heap_of h) × (h.answers.items ≡ []) × (1 ≤ vec_capacity h.answers) };
}

impl Heap {
    /// A heap without objects, all of whose root slots hold nil and none of which is handed out. Memory for it is taken here. Other calls ask
    /// for some only where there are several workers, and aren't refused where there is none.
    pub fn open(alloc: Global, limits: &Limits) -> Result<Self, OpenError>
        ensures range { IfOk result (λ heap. IsSetup (setup_of limits.now)) }
        ensures workers { IfOk result (λ heap. IsWithin 1 16 limits.now.workers) }
        ensures opening { IfOk result (λ heap. HeapStands heap (opening (setup_of limits.now))) }
        ensures size { IfOk result (λ heap. (heap.setup ≡ setup_of limits.now) × (heap.taken ≡ none_taken (setup_of limits.now)) × (heap.counts ≡ no_calls)) }
        ensures refused { IfErr result (IsOpenFault limits.now) }
    {
        if let Some(error) = limit_fault(limits) {
            return Err(error);
        }
        let heap = open_in_range(alloc, &setup_in_range(limits), limits.workers)?;
        Ok(heap)
    }

    /// What holds of every heap between calls, stated for a proof: there is a state of the plain heap that it stands for. It does nothing.
    pub fn facts(&self)
        ensures stands { (state : State) × HeapStands self.now state }
        ensures range { IsSetup self.now.setup }
        ensures kept { IsOpen self.now }
    {
        let _running = &self.running;
    }
}

/// The same of a setup whose numbers are in their ranges. It takes the memory.
fn open_in_range(alloc: Global, setup: &Setup, workers: u32) -> Result<Heap, AllocError>
    requires range { IsSetup setup.now }
    ensures opening { IfOk result (λ heap. HeapStands heap (opening setup.now)) }
    ensures size { IfOk result (λ heap. (heap.setup ≡ setup.now) × (heap.taken ≡ none_taken setup.now) × (heap.counts ≡ no_calls)) }
{
    Ok(Heap {
        running: Running::open(alloc, setup)?,
        setup: *setup,
        taken: vec![in alloc; false; setup.domains as usize * setup.slots as usize]?,
        answers: Vec::with_capacity(alloc, 1)?,
        upkeep: Upkeep::new(alloc, workers),
    })
}
