//! Which turns a phase had, in the list that it keeps of them beside the answers to their notices.

ghost use Rattle.std.specs.Prelude.{◌≡◌, ◌+◌, ◌-◌, ◌≤◌, ◌^◌, [], length, min, sum_by, vec_capacity, IfOk};
ghost use Rattle.bc_model.specs.Rows.{lists_of};

use bc_model::Op;
use bc_pager::Answer;
use std::alloc::{AllocError, Global};

/// A turn of the lanes, and the mark turns after it.
#[derive(Clone, Copy, PartialEq, Eq, Debug)]
pub struct Opened {
    /// How many frames were withheld in the turn of the lanes, and in the mark turns after it.
    pub withheld: u32,
    /// How many mark turns came after it, before the next turn of the lanes; 2^64 - 1 where there were more.
    pub marks: u64,
}

/// What a phase keeps of its turns.
#[derive(Drop)]
pub(crate) struct TurnLog {
    /// What became of the notices, in their order.
    pub(crate) answers: Vec<Answer>,
    /// The turns of the lanes, each with the mark turns after it.
    pub(crate) opened: Vec<Opened>,
    /// What became of the notices that live pagers took, in their order.
    pub(crate) live: Vec<Answer>,
}

/// An empty list with room for the turns of the lanes in a phase of these operations. Each of these turns but the last one is followed by an
/// operation at least that is done alone.
pub(crate) fn room_for_turns(alloc: Global, lanes: &[Vec<Op>]) -> Result<Vec<Opened>, AllocError>
    ensures none { IfOk result (λ opened. opened.items ≡ []) }
    ensures room { IfOk result (λ opened. sum_by length (lists_of lanes.now) + 1 ≤ vec_capacity opened) }
{
    let operations = operations_of(lanes);
    let opened = Vec::with_capacity(alloc, operations.saturating_add(1))?;
    Ok(opened)
}

/// How many operations the lanes have.
fn operations_of(lanes: &[Vec<Op>]) -> usize
    ensures { result ≡ min (sum_by length (lists_of lanes.now)) (2 ^ 64 - 1) }
{
    let mut all = 0usize;
    for ops in lanes {
        all = all.saturating_add(ops.len());
    }
    all
}
