//! An operation of a lane, once its page is in hand, or why it isn't done.

ghost use Rattle.std.specs.Prelude.{◌≡◌, ◌⊎◌, ℕ, ◌+◌, ◌^◌, ◌<◌, true, None, Err, IfOk, IfErr, OnErr};
ghost use Rattle.bc_lane.specs.declared.stops.Stop.TheVariants.{NurseryFull};
ghost use Rattle.bc_lane.specs.Shown.{HasPage};
ghost use Rattle.bc_lane.specs.Turns.{DoesOne, IsLaneSeat, IsLaneTable, IsSameLane, IsWhole, LooksOnIn, LooksReadable, PassesBy, PutsBack, ReadsOn, ReloadsUpTo, SamePart, StaysWhole, StopsOp, holder_if};
ghost use Rattle.bc_mutator.specs.Operations.{IsOpOf, WantsMore};
ghost use Rattle.bc_nursery.specs.Objects.{left_of};
ghost use Rattle.bc_pins.specs.Calls.{key_of, view_of};
ghost use Rattle.bc_pins.specs.Key.{pages_of};
ghost use Rattle.bc_whole_heap.specs.Heaps.{HeapView};

use crate::hands::{put_hand_back, take_page};
use crate::looking::{Looking, looks};
use crate::operating::operate;
use crate::parts::LanePart;
use crate::stops::Stop;
use bc_gates::Gate;
use bc_model::{Op, Reply};
use bc_pins::{Held, Pins, Seat};
use bc_superpages::Roots;

/// Does an operation of the lane, or returns why it isn't done. The page of the lane's cell that it looks at is in hand then. A page of
/// a frozen domain is put back at once, for other lanes to read it; and a cell of another lane's is only asked for its domain, as one
/// of a frozen domain is that would be written.
pub(crate) fn operate_or_stop<G: Gate>(
    part: &mut LanePart,
    pins: &Pins,
    seat: &mut Seat,
    hand: &mut Option<Held>,
    end: u32,
    op: &Op,
    shared: &Roots,
    gate: &G,
) -> Result<Reply, Stop>
    requires shared { part.old.shared.value ≡ shared.now }
    requires table { IsLaneTable (key_of pins.now) part.old.holders.items }
    requires seated { IsLaneSeat pins.now part.old.lane seat.old hand.old }
    requires whole { (h : HeapView) × IsWhole part.old (view_of seat.old) hand.old end h × IsOpOf h.roots op.now }
    requires few { part.old.lane < 16 }
    requires serial { part.old.serial + 1 < 2 ^ 32 }
    ensures part { SamePart part.old part.new }
    ensures seated { IsLaneSeat pins.now part.old.lane seat.new hand.new }
    ensures seat { IsSameLane seat.old seat.new }
    ensures reads { ReadsOn (view_of seat.old) (view_of seat.new) }
    ensures looked { (q : ℕ) → q < pages_of (view_of seat.old).about → PassesBy (view_of seat.old) (view_of seat.new) q ⊎ LooksOnIn part.old (view_of seat.old) hand.old end op.now q }
    ensures puts { PutsBack (view_of seat.old) hand.old (view_of seat.new) }
    ensures once { ReloadsUpTo 1 (view_of seat.old) (view_of seat.new) }
    ensures done { IfOk result (λ reply. DoesOne part.old (view_of seat.old) hand.old part.new (view_of seat.new) hand.new end op.now reply) }
    ensures still { OnErr result (StaysWhole part.old (view_of seat.old) hand.old part.new (view_of seat.new) hand.new end) }
    ensures why { IfErr result (λ why. StopsOp (view_of seat.old) part.new (view_of seat.new) hand.new end op.now why) }
    ensures nursery { WantsMore part.old.holders.items part.old.lane (left_of part.old.chunk) op.now → result ≡ Err NurseryFull }
{
    match looks(part, pins, end, op, shared) {
        Looking::Nowhere => operate(part, seat, end, hand, op, shared),
        Looking::Own(page) => {
            operate_in_hand(part, pins, seat, hand, end, page, false, op, shared, gate)
        }
        Looking::Frozen(page) => {
            operate_frozen(part, pins, seat, hand, end, page, op, shared, gate)
        }
        Looking::Foreign => Ok(Reply::Foreign),
        Looking::Sealed => Ok(Reply::Frozen),
    }
}

/// Does an operation of the lane that reads a cell of a frozen domain on this page, or returns why it isn't done. Nothing is in hand
/// afterwards.
fn operate_frozen<G: Gate>(
    part: &mut LanePart,
    pins: &Pins,
    seat: &mut Seat,
    hand: &mut Option<Held>,
    end: u32,
    page: u32,
    op: &Op,
    shared: &Roots,
    gate: &G,
) -> Result<Reply, Stop>
    requires shared { part.old.shared.value ≡ shared.now }
    requires looks { LooksReadable part.old (key_of pins.now) end op.now (holder_if true part.old.lane) page }
    requires table { IsLaneTable (key_of pins.now) part.old.holders.items }
    requires seated { IsLaneSeat pins.now part.old.lane seat.old hand.old }
    requires whole { (h : HeapView) × IsWhole part.old (view_of seat.old) hand.old end h × IsOpOf h.roots op.now }
    requires few { part.old.lane < 16 }
    requires serial { part.old.serial + 1 < 2 ^ 32 }
    ensures none { hand.new ≡ None }
    ensures part { SamePart part.old part.new }
    ensures seated { IsLaneSeat pins.now part.old.lane seat.new hand.new }
    ensures seat { IsSameLane seat.old seat.new }
    ensures reads { ReadsOn (view_of seat.old) (view_of seat.new) }
    ensures looked { (q : ℕ) → q < pages_of (view_of seat.old).about → PassesBy (view_of seat.old) (view_of seat.new) q ⊎ LooksOnIn part.old (view_of seat.old) hand.old end op.now q }
    ensures puts { PutsBack (view_of seat.old) hand.old (view_of seat.new) }
    ensures once { ReloadsUpTo 1 (view_of seat.old) (view_of seat.new) }
    ensures done { IfOk result (λ reply. DoesOne part.old (view_of seat.old) hand.old part.new (view_of seat.new) hand.new end op.now reply) }
    ensures still { OnErr result (StaysWhole part.old (view_of seat.old) hand.old part.new (view_of seat.new) hand.new end) }
    ensures why { IfErr result (λ why. StopsOp (view_of seat.old) part.new (view_of seat.new) hand.new end op.now why) }
    ensures nursery { WantsMore part.old.holders.items part.old.lane (left_of part.old.chunk) op.now → result ≡ Err NurseryFull }
{
    let answer = operate_in_hand(part, pins, seat, hand, end, page, true, op, shared, gate);
    put_hand_back(pins, seat, hand);
    answer
}

/// Does an operation of the lane that looks at a cell on this page, of its own or of a frozen domain, or returns why it isn't done.
/// Where the page was in hand before, nothing is read at the table.
fn operate_in_hand<G: Gate>(
    part: &mut LanePart,
    pins: &Pins,
    seat: &mut Seat,
    hand: &mut Option<Held>,
    end: u32,
    page: u32,
    frozen: bool,
    op: &Op,
    shared: &Roots,
    gate: &G,
) -> Result<Reply, Stop>
    requires shared { part.old.shared.value ≡ shared.now }
    requires looks { LooksReadable part.old (key_of pins.now) end op.now (holder_if frozen part.old.lane) page }
    requires table { IsLaneTable (key_of pins.now) part.old.holders.items }
    requires seated { IsLaneSeat pins.now part.old.lane seat.old hand.old }
    requires whole { (h : HeapView) × IsWhole part.old (view_of seat.old) hand.old end h × IsOpOf h.roots op.now }
    requires few { part.old.lane < 16 }
    requires serial { part.old.serial + 1 < 2 ^ 32 }
    ensures part { SamePart part.old part.new }
    ensures seated { IsLaneSeat pins.now part.old.lane seat.new hand.new }
    ensures seat { IsSameLane seat.old seat.new }
    ensures kept { HasPage hand.old page → seat.new ≡ seat.old }
    ensures only { (q : ℕ) → HasPage hand.new q → q ≡ page }
    ensures reads { ReadsOn (view_of seat.old) (view_of seat.new) }
    ensures looked { (q : ℕ) → q < pages_of (view_of seat.old).about → PassesBy (view_of seat.old) (view_of seat.new) q ⊎ LooksOnIn part.old (view_of seat.old) hand.old end op.now q }
    ensures puts { PutsBack (view_of seat.old) hand.old (view_of seat.new) }
    ensures once { ReloadsUpTo 1 (view_of seat.old) (view_of seat.new) }
    ensures done { IfOk result (λ reply. DoesOne part.old (view_of seat.old) hand.old part.new (view_of seat.new) hand.new end op.now reply) }
    ensures still { OnErr result (StaysWhole part.old (view_of seat.old) hand.old part.new (view_of seat.new) hand.new end) }
    ensures why { IfErr result (λ why. StopsOp (view_of seat.old) part.new (view_of seat.new) hand.new end op.now why) }
    ensures nursery { WantsMore part.old.holders.items part.old.lane (left_of part.old.chunk) op.now → result ≡ Err NurseryFull }
{
    match take_page(pins, seat, hand, page, frozen, part.lane, gate) {
        Ok(()) => operate(part, seat, end, hand, op, shared),
        Err(why) => Err(why),
    }
}
