//! What a run ends with: its status, and the heap as it stands at the end.

ghost use Rattle.std.specs.Prelude.{◌≡◌, ◌≢◌, Some, None, IfSome};
ghost use Rattle.bc_engine.specs.declared.engines.Ended.{Ended};
ghost use Rattle.bc_replay.specs.Accounts.{KeepsAccount};

use crate::status::Status;
use bc_engine::Engine;

/// What a run ends with.
#[derive(Drop)]
pub struct Outcome {
    pub status: Status,
    /// The heap as it stands at the end, where a trace was read or drawn and memory didn't run out. `save` hands it back only where it was
    /// too small: else it became the image.
    pub heap: Option<Engine>,
}

impl Outcome {
    /// Of a heap that hasn't run out of memory, and so keeps its account.
    pub fn with_heap(status: Status, heap: Engine) -> Self
        requires alive { heap.ended ≢ Some Ended.NoMemory }
        ensures status { result.status ≡ status }
        ensures heap { result.heap ≡ Some heap }
        ensures account { IfSome result.heap KeepsAccount }
    {
        heap.facts();
        Outcome {
            status,
            heap: Some(heap),
        }
    }

    /// The outcome of a run that hands no heap back: it ended before there was one, memory ran out in it, or it became an image.
    pub fn without_heap(status: Status) -> Self
        ensures status { result.status ≡ status }
        ensures heap { result.heap ≡ None }
    {
        Outcome { status, heap: None }
    }
}
