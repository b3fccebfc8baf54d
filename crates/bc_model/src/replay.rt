//! Phases of a trace on the plain heap.

ghost use Rattle.std.specs.Prelude.{◌≡◌, ℕ, ◌+◌, ◌^◌, ◌<◌, ◌≤◌, IfOk, OnOk, length, sum_by};
ghost use Rattle.std.specs.List.{AllByRecursion};
ghost use Rattle.bc_model.specs.StateSizes.{HasSerials, HasSizes, sizes_of};
ghost use Rattle.bc_model.specs.Rows.{lists_of};
ghost use Rattle.bc_model.specs.Run.{after_changes, after_lanes, after_ops, after_phase, replies_to, replies_to_lanes};
ghost use Rattle.bc_model.specs.RunLengths.{ops_of};
ghost use Rattle.bc_model.specs.State.{changed, made_by};
ghost use Rattle.bc_model.specs.WellFormed.{FitsChange, IsOp, IsPhase};
ghost use Rattle.bc_model.specs.declared.traces.Setup.{Setup};

use crate::operations::{Op, Reply};
use crate::plain_heap::Flat;
use crate::traces::{Change, Phase, Replies};
use std::alloc::{AllocError, Global};

impl Flat {
    /// Does the operations of lane 0, then those of lane 1, and so on, and then the gives and freezes in their order. Takes the
    /// memory of the new objects and of the replies. Where there is none it stops at that operation,
    /// and of the heap nothing is promised then but that it can be dropped.
    pub fn phase(&mut self, alloc: Global, phase: &Phase) -> Result<Replies, AllocError>
        requires phase { IsPhase (sizes_of self.old) phase.now }
        requires serials { HasSerials (ops_of phase.now) self.old }
        ensures replies { IfOk result (λ r. r ≡ replies_to_lanes self.old 0 phase.now.lanes) }
        ensures state { OnOk result (self.new ≡ after_phase self.old phase.now) }

        // What the next phase asks: the sizes stay, and no more objects are made than there are operations.
        ensures sizes { OnOk result ((setup : Setup) → HasSizes setup self.old → HasSizes setup self.new) }
        ensures more { OnOk result ((n : ℕ) → HasSerials (n + ops_of phase.now) self.old → HasSerials n self.new) }
    {
        let lanes = self.replay_lanes(alloc, &phase.lanes)?;
        self.change_all(&phase.gives);
        Ok(Replies { lanes })
    }

    /// Does the operations of each lane, in the order of the lanes.
    fn replay_lanes(
        &mut self,
        alloc: Global,
        lanes: &[Vec<Op>],
    ) -> Result<Vec<Vec<Reply>>, AllocError>
        requires lanes { length lanes.now ≡ length self.old.made }
        requires ops { AllByRecursion (AllByRecursion (IsOp (sizes_of self.old))) (lists_of lanes.now) }
        requires serials { HasSerials (sum_by length (lists_of lanes.now)) self.old }
        ensures replies { IfOk result (λ r. lists_of r.items ≡ replies_to_lanes self.old 0 (lists_of lanes.now)) }
        ensures state { OnOk result (self.new ≡ after_lanes self.old 0 (lists_of lanes.now)) }
        ensures sizes { OnOk result (sizes_of self.new ≡ sizes_of self.old) }
        ensures more { OnOk result ((j : ℕ) → length (made_by self.new.made j) ≤ length (made_by self.old.made j) + sum_by length (lists_of lanes.now)) }
    {
        let mut replies = Vec::with_capacity(alloc, lanes.len())?;
        for lane in 0..self.lanes() {
            let of_lane = self.replay(alloc, lane, &lanes[lane as usize])?;
            replies.push(of_lane)?;
        }
        Ok(replies)
    }

    /// Does a lane's operations.
    fn replay(&mut self, alloc: Global, lane: u32, ops: &[Op]) -> Result<Vec<Reply>, AllocError>
        requires lane { lane < length self.old.made }
        requires ops { AllByRecursion (IsOp (sizes_of self.old)) ops.now }
        requires serials { length (made_by self.old.made lane) + length ops.now < 2 ^ 32 }
        ensures replies { IfOk result (λ r. r.items ≡ replies_to self.old lane ops.now) }
        ensures state { OnOk result (self.new ≡ after_ops self.old lane ops.now) }
        ensures sizes { sizes_of self.new ≡ sizes_of self.old }
        ensures more { (j : ℕ) → length (made_by self.new.made j) ≤ length (made_by self.old.made j) + length ops.now }
    {
        let mut replies = Vec::with_capacity(alloc, ops.len())?;
        for op in ops {
            let reply = self.step(alloc, lane, op)?;
            replies.push(reply)?;
        }
        Ok(replies)
    }

    /// Does the gives and freezes, one after another.
    fn change_all(&mut self, changes: &[Change])
        requires { AllByRecursion (FitsChange (sizes_of self.old)) changes.now }
        ensures state { self.new ≡ after_changes self.old changes.now }
        ensures sizes { sizes_of self.new ≡ sizes_of self.old }
        ensures same { self.new.made ≡ self.old.made }
    {
        for change in changes {
            self.change(change);
        }
    }

    /// Does a give or a freeze. Takes no memory.
    fn change(&mut self, change: &Change)
        requires { FitsChange (sizes_of self.old) change.now }
        ensures changed { self.new ≡ changed self.old change.now }
        ensures sizes { sizes_of self.new ≡ sizes_of self.old }
    {
        match *change {
            Change::Give(give) => self.give(give.domain, give.lane),
            Change::Freeze(domain) => self.freeze(domain),
        }
    }
}
