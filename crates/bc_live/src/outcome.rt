//! What a run that is fed ends with.

ghost use Rattle.std.specs.Prelude.{◌≡◌, None, []};

use crate::status::LiveStatus;
use bc_engine::Engine;
use bc_pager::Answer;
use std::alloc::Global;

/// What a run that is fed ends with.
#[derive(Drop)]
pub struct LiveOutcome {
    pub status: LiveStatus,
    /// The heap as it stands at the end, where a trace was read and memory didn't run out.
    pub heap: Option<Engine>,
    /// The hints that the feed gave, in order.
    pub handed: Vec<u32>,
    /// Those of them that the live pagers took, in order.
    pub taken: Vec<u32>,
    /// What they answered, in the same order.
    pub answers: Vec<Answer>,
    /// The hints that were handed in and not taken, in order.
    pub left: Vec<u32>,
}

impl LiveOutcome {
    /// Of a call that asked the feed for nothing. It takes no memory.
    pub fn unfed(alloc: Global, status: LiveStatus) -> LiveOutcome
        ensures status { result.status ≡ status }
        ensures heap { result.heap ≡ None }
        ensures none { (result.handed.items ≡ []) × (result.taken.items ≡ []) × (result.answers.items ≡ []) × (result.left.items ≡ []) }
    {
        LiveOutcome {
            status,
            heap: None,
            handed: Vec::new(alloc),
            taken: Vec::new(alloc),
            answers: Vec::new(alloc),
            left: Vec::new(alloc),
        }
    }
}
