//! One operation of a lane in a turn.

ghost use Rattle.std.specs.Prelude.{◌≡◌, ◌↔◌, ◌⊎◌, ℕ, ◌+◌, ◌^◌, ◌<◌, map, Err, IfOk, IfErr, OnErr, IsErrOf};
ghost use Rattle.bc_lane.specs.declared.stops.Stop.TheVariants.{BufferFull, NurseryFull};
ghost use Rattle.bc_lane.specs.Shown.{HasPage, ShowsPages};
ghost use Rattle.bc_lane.specs.Turns.{DoesOne, IsWhole, LaneMayName, SamePart, SlotsOf, StopsOp};
ghost use Rattle.bc_mutator.specs.declared.operations.Stop.TheVariants as refusal;
ghost use Rattle.bc_mutator.specs.Effects.{DidOperation};
ghost use Rattle.bc_mutator.specs.Operations.{IsOpOf, NeedsEntry, WantsMore};
ghost use Rattle.bc_mutator.specs.Parts.{TouchesHand, touched_slot};
ghost use Rattle.bc_nursery.specs.Objects.{left_of};
ghost use Rattle.bc_pins.specs.Calls.{view_of};
ghost use Rattle.bc_pins.specs.Key.{owner_role};
ghost use Rattle.bc_whole_heap.specs.Heaps.{HeapView};

use crate::cells::PinnedCells;
use crate::parts::LanePart;
use crate::slots::LaneSlots;
use crate::stations::Station;
use crate::stops::Stop;
use bc_model::{Op, Reply};
use bc_mutator::operate_parts;
use bc_pins::{Held, Seat};
use bc_superpages::Roots;
use std::marker::{Brand, PhantomData};
use std::mem;

/// Does an operation over what the lane has, with the page in hand on which the operation looks at a cell, if it does. The
/// station says to the proofs what stays meanwhile.
fn operate_at<S: Station>(
    part: &mut LanePart,
    _seat: &Seat,
    end: u32,
    hand: &mut Option<Held>,
    op: &Op,
    shared: &Roots,
) -> Result<Reply, bc_mutator::Stop>
    requires view { S.view ≡ view_of _seat.now }
    requires holders { (S.holders ≡ part.old.holders.items) × (S.lane ≡ part.old.lane) }
    requires starts { (S.starts ≡ part.old.starts.items) × (S.slots ≡ part.old.slots) }
    requires shared { (S.shared ≡ part.old.shared.value) × (part.old.shared.value ≡ shared.now) }
    requires owners { (view_of _seat.now).about.owners ≡ map owner_role part.old.holders.items }
    requires whole { (h : HeapView) × IsWhole part.old (view_of _seat.now) hand.old end h × IsOpOf h.roots op.now }
    requires few { part.old.lane < 16 }
    requires serial { part.old.serial + 1 < 2 ^ 32 }
    requires hand { LaneMayName part.old op.now
        → TouchesHand (ShowsPages (view_of _seat.now) hand.old end) (SlotsOf part.old) (HasPage hand.old) (touched_slot op.now) }
    ensures same { SamePart part.old part.new }
    ensures done { IfOk result (λ reply. (h : HeapView) → IsWhole part.old (view_of _seat.now) hand.old end h → IsOpOf h.roots op.now
        → (k : HeapView) × IsWhole part.new (view_of _seat.now) hand.new end k
        × DidOperation h k part.old.holders.items part.old.lane part.old.serial part.new.serial op.now reply) }
    ensures page { (page : ℕ) → HasPage hand.old page → HasPage hand.new page }
    ensures still { OnErr result ((part.new ≡ part.old) × (hand.new ≡ hand.old)) }
    ensures nursery { IsErrOf result refusal.NurseryFull ↔ WantsMore part.old.holders.items part.old.lane (left_of part.old.chunk) op.now }
    ensures buffer { IsErrOf result refusal.BufferFull → (h : HeapView) → IsWhole part.old (view_of _seat.now) hand.old end h → IsOpOf h.roots op.now
        → NeedsEntry part.old.holders.items part.old.lane h.space h.roots part.old.chunk part.old.buffer op.now }
    ensures frame { IsErrOf result refusal.NoFrame → ⊥ }
{
    let alloc = *part.words.allocator();
    let mut cells: PinnedCells<S> = PinnedCells {
        hand: hand.take(),
        end,
        of: PhantomData,
    };
    let mut roots: LaneSlots<S> = LaneSlots {
        holders: &part.holders,
        starts: &part.starts,
        words: mem::replace(&mut part.words, Vec::new(alloc)),
        shared,
        of: PhantomData,
    };
    let operate_or_stop = operate_parts(
        &mut cells,
        &mut roots,
        &mut part.chunk,
        &mut part.buffer,
        &part.holders,
        &mut part.serial,
        part.lane,
        op,
    );
    let PinnedCells {
        hand: after,
        end: _,
        of: _,
    } = cells;
    let LaneSlots {
        holders: _,
        starts: _,
        words,
        shared: _,
        of: _,
    } = roots;
    *hand = after;
    part.words = words;
    operate_or_stop
}

/// Does an operation over what the lane has, or returns that there is no room in the chunk or the write buffer. What it looks at is
/// in hand.
pub(crate) fn operate(
    part: &mut LanePart,
    seat: &Seat,
    end: u32,
    hand: &mut Option<Held>,
    op: &Op,
    shared: &Roots,
) -> Result<Reply, Stop>
    requires shared { part.old.shared.value ≡ shared.now }
    requires owners { (view_of seat.now).about.owners ≡ map owner_role part.old.holders.items }
    requires whole { (h : HeapView) × IsWhole part.old (view_of seat.now) hand.old end h × IsOpOf h.roots op.now }
    requires few { part.old.lane < 16 }
    requires serial { part.old.serial + 1 < 2 ^ 32 }
    requires hand { LaneMayName part.old op.now
        → TouchesHand (ShowsPages (view_of seat.now) hand.old end) (SlotsOf part.old) (HasPage hand.old) (touched_slot op.now) }
    ensures part { SamePart part.old part.new }
    ensures page { (page : ℕ) → HasPage hand.old page → HasPage hand.new page }
    ensures done { IfOk result (λ reply. DoesOne part.old (view_of seat.now) hand.old part.new (view_of seat.now) hand.new end op.now reply) }
    ensures still { OnErr result ((part.new ≡ part.old) × (hand.new ≡ hand.old)) }
    ensures why { IfErr result (λ why. StopsOp (view_of seat.now) part.old (view_of seat.now) hand.old end op.now why) }
    ensures room { IfErr result (λ why. (why ≡ NurseryFull) ⊎ (why ≡ BufferFull)) }
    ensures nursery { WantsMore part.old.holders.items part.old.lane (left_of part.old.chunk) op.now → result ≡ Err NurseryFull }
{
    match operate_at::<Brand>(part, seat, end, hand, op, shared) {
        Ok(reply) => Ok(reply),
        Err(bc_mutator::Stop::NurseryFull) => Err(Stop::NurseryFull),
        Err(bc_mutator::Stop::BufferFull) => Err(Stop::BufferFull),
        Err(bc_mutator::Stop::NoFrame) => unreachable!(),
    }
}
