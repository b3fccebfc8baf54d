//! The turn of a lane.

ghost use Rattle.std.specs.Prelude.{◌≡◌, ◌+◌, ◌<◌, [], ◌∷◌, ◌++◌, None, length, vec_capacity, IfErr, OnOk, OnErr};
ghost use Rattle.std.specs.List.{AllByRecursion};
ghost use Rattle.bc_lane.specs.declared.stops.Stop.TheVariants as stop;
ghost use Rattle.bc_lane.specs.Doing.{tried_from};
ghost use Rattle.bc_lane.specs.Turns.{IsGoing, IsNextOp, IsSameLane, IsWhole, LaneRan, ReloadsUpTo, WhyStopped};
ghost use Rattle.bc_mutator.specs.Operations.{IsOpOf, WantsMore};
ghost use Rattle.bc_nursery.specs.Objects.{left_of};
ghost use Rattle.bc_pins.specs.Calls.{IsFree, view_of};
ghost use Rattle.bc_whole_heap.specs.Heaps.{HeapView, end_of};

use crate::attempting::operate_or_stop;
use crate::hands::put_hand_back;
use crate::stops::Stop;
use crate::turns::LaneTurn;
use bc_gates::Gate;
use bc_model::{Op, Reply};
use bc_pins::{Held, Pins, Seat};
use bc_superpages::Roots;

impl LaneTurn {
    /// Does the lane's operations, from the first that isn't done, until all are done or one can't be yet. `ops` are those that
    /// `prepare` was given, and `shared` the root slots: of those it reads the ones of frozen domains. It takes no memory and doesn't wait,
    /// but for a page of a frozen domain that another lane reads, which it tries to take a bounded number of times; and it has no page in
    /// hand afterwards.
    pub fn run<G: Gate>(
        &mut self,
        pins: &Pins,
        seat: &mut Seat,
        ops: &[Op],
        shared: &Roots,
        gate: &G,
    ) -> Stop
        requires shared { self.old.part.shared.value ≡ shared.now }
        requires going { IsGoing pins.now ops.now self.old seat.old None }
        requires whole { (h : HeapView) × IsWhole self.old.part (view_of seat.old) None (end_of h.space) h × AllByRecursion (IsOpOf h.roots) ops.now }
        ensures ran { (h : HeapView) → IsWhole self.old.part (view_of seat.old) None (end_of h.space) h
            → LaneRan ops.now (end_of h.space) self.old (view_of seat.old) None self.new (view_of seat.new) None }
        ensures why { (h : HeapView) → IsWhole self.old.part (view_of seat.old) None (end_of h.space) h
            → WhyStopped (view_of seat.old) ops.now (end_of h.space) self.new (view_of seat.new) None result }
        ensures nursery { IsNextOp ops.now self.new.next (λ op. WantsMore self.new.part.holders.items self.new.part.lane (left_of self.new.part.chunk) op)
            → result ≡ stop.NurseryFull }
        ensures seat { IsSameLane seat.old seat.new }
        ensures once { ReloadsUpTo (tried_from (length ops.now) self.old.next self.new.next) (view_of seat.old) (view_of seat.new) }
        ensures free { IsFree seat.new }
    {
        let end = pins.end();
        let mut hand = None;
        let why = run_to_stop(self, pins, seat, &mut hand, end, ops, shared, gate);
        put_hand_back(pins, seat, &mut hand);
        why
    }
}

/// Does operations until all are done or one can't be.
fn run_to_stop<G: Gate>(
    turn: &mut LaneTurn,
    pins: &Pins,
    seat: &mut Seat,
    hand: &mut Option<Held>,
    end: u32,
    ops: &[Op],
    shared: &Roots,
    gate: &G,
) -> Stop
    requires shared { turn.old.part.shared.value ≡ shared.now }
    requires going { IsGoing pins.now ops.now turn.old seat.old hand.old }
    requires whole { (h : HeapView) × IsWhole turn.old.part (view_of seat.old) hand.old end h × AllByRecursion (IsOpOf h.roots) ops.now }
    ensures ran { LaneRan ops.now end turn.old (view_of seat.old) hand.old turn.new (view_of seat.new) hand.new }
    ensures going { IsGoing pins.now ops.now turn.new seat.new hand.new }
    ensures why { WhyStopped (view_of seat.old) ops.now end turn.new (view_of seat.new) hand.new result }
    ensures nursery { IsNextOp ops.now turn.new.next (λ op. WantsMore turn.new.part.holders.items turn.new.part.lane (left_of turn.new.part.chunk) op)
        → result ≡ stop.NurseryFull }
    ensures seat { IsSameLane seat.old seat.new }
    ensures once { ReloadsUpTo (tried_from (length ops.now) turn.old.next turn.new.next) (view_of seat.old) (view_of seat.new) }
{
    'operations: while turn.next < ops.len() {
        if let Err(why) = operate_next(turn, pins, seat, hand, end, ops, shared, gate) {
            return why;
        }
    }
    Stop::End
}

/// Does the next operation and keeps its reply, or returns why it isn't done.
fn operate_next<G: Gate>(
    turn: &mut LaneTurn,
    pins: &Pins,
    seat: &mut Seat,
    hand: &mut Option<Held>,
    end: u32,
    ops: &[Op],
    shared: &Roots,
    gate: &G,
) -> Result<(), Stop>
    requires shared { turn.old.part.shared.value ≡ shared.now }
    requires going { IsGoing pins.now ops.now turn.old seat.old hand.old }
    requires whole { (h : HeapView) × IsWhole turn.old.part (view_of seat.old) hand.old end h × AllByRecursion (IsOpOf h.roots) ops.now }
    requires more { turn.old.next < length ops.now }
    ensures ran { LaneRan ops.now end turn.old (view_of seat.old) hand.old turn.new (view_of seat.new) hand.new }
    ensures going { IsGoing pins.now ops.now turn.new seat.new hand.new }
    ensures further { OnOk result (turn.new.next ≡ turn.old.next + 1) }
    ensures stays { OnErr result (turn.new.next ≡ turn.old.next) }
    ensures why { IfErr result (λ why. WhyStopped (view_of seat.old) ops.now end turn.new (view_of seat.new) hand.new why) }
    ensures nursery { OnErr result (IsNextOp ops.now turn.new.next (λ op. WantsMore turn.new.part.holders.items turn.new.part.lane (left_of turn.new.part.chunk) op))
        → IfErr result (λ why. why ≡ stop.NurseryFull) }
    ensures seat { IsSameLane seat.old seat.new }
    ensures once { ReloadsUpTo 1 (view_of seat.old) (view_of seat.new) }
{
    gate.at(turn.part.lane, 1);
    let op = &ops[turn.next];
    let reply = operate_or_stop(&mut turn.part, pins, seat, hand, end, op, shared, gate)?;
    keep(turn, reply);
    gate.at(turn.part.lane, 2);
    Ok(())
}

/// Keeps the reply to the next operation.
fn keep(turn: &mut LaneTurn, reply: Reply)
    requires { turn.old.next < turn.old.count }
    ensures part { turn.new.part ≡ turn.old.part }
    ensures next { turn.new.next ≡ turn.old.next + 1 }
    ensures count { turn.new.count ≡ turn.old.count }
    ensures kept { turn.new.replies.items ≡ turn.old.replies.items ++ reply ∷ [] }
    ensures room { vec_capacity turn.new.replies ≡ vec_capacity turn.old.replies }
{
    turn.replies.push_reserved(reply);
    turn.next += 1;
}
