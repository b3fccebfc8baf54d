//! The page that a lane has in hand. It is taken when an operation looks at a cell on it, and put back when another page is
//! wanted or the turn ends, and one of a frozen domain right after the operation. Where it is gone it comes back for the lane.

ghost use Rattle.std.specs.Prelude.{◌≡◌, ◌≢◌, ◌⊎◌, ℕ, ◌<◌, true, [], Some, None, IfOk, IfErr, IfSome, IfNone, OnOk, OnErr};
ghost use Rattle.bc_evict.specs.declared.reloading.ReloadError.TheVariants as refused;
ghost use Rattle.bc_lane.specs.declared.stops.Stop.TheVariants as stop;
ghost use Rattle.bc_lane.specs.Shown.{HasPage, IsOwnPage, ShowsPages};
ghost use Rattle.bc_lane.specs.Turns.{FindsNoFrameAtAll, HasFrame, HasInHand, HasNoWayBack, IsLaidDown, IsNobodysPage, IsFrozenOrOwn, IsRefusedFrozen, IsRefusedOwn, IsRefusedPage, IsSameLane, PassesBy, PutsBack, ReadsHome, ReadsOn, ReloadsUpTo};
ghost use Rattle.bc_pins.specs.Calls.{HoldsPage, IsAt, IsFree, IsSameSeat, key_of, view_of};
ghost use Rattle.bc_pins.specs.Contents.{IsBarePage};
ghost use Rattle.bc_pins.specs.Key.{owner, pages_of};
ghost use Rattle.bc_pins.specs.Totals.{times};
ghost use Rattle.bc_pins.specs.Views.{has_role};
ghost use Rattle.bc_superpages.specs.Layout.{Layout};

use crate::stops::Stop;
use bc_evict::{FrameRight, ReloadError, claim_frame, free_frame, give_frame, reload};
use bc_gates::Gate;
use bc_pins::{Held, Pins, Seat, TakeError, Want};
use std::hint;

/// How often a lane tries a page of a frozen domain again that another lane has in hand, before it stops.
const TRIES: u32 = 64;

/// Puts back the page in hand, if there is one.
pub(crate) fn put_hand_back(pins: &Pins, seat: &mut Seat, hand: &mut Option<Held>)
    requires at { IsAt pins.now seat.old }
    requires hands { HasInHand seat.old hand.old }
    requires shown { (end : ℕ) × (s : Layout) × ShowsPages (view_of seat.old) hand.old end s }
    ensures same { IsSameLane seat.old seat.new }
    ensures free { IsFree seat.new }
    ensures none { hand.new ≡ None }
    ensures shows { (end : ℕ) → (s : Layout) → ShowsPages (view_of seat.old) hand.old end s → ShowsPages (view_of seat.new) None end s }
    ensures back { (end : ℕ) → (s : Layout) → ShowsPages (view_of seat.new) None end s → ShowsPages (view_of seat.old) hand.old end s }
    ensures laid { IsLaidDown (view_of seat.old) (view_of seat.new) }
    ensures idle { (view_of seat.old).hand ≡ None → seat.new ≡ seat.old }
    ensures reads { ReadsOn (view_of seat.old) (view_of seat.new) }
    ensures passes { (q : ℕ) → PassesBy (view_of seat.old) (view_of seat.new) q }
    ensures puts { PutsBack (view_of seat.old) hand.old (view_of seat.new) }
    ensures foreign { (held : Held) → hand.old ≡ Some held → has_role (view_of seat.old) (owner (view_of seat.old).about held.page) ≡ 0
        → (view_of seat.new).changed ≡ (view_of seat.old).changed }
{
    match hand.take() {
        Some(held) => pins.put(seat, held),
        None => {}
    }
}

/// Takes a page on which an allocated cell lies, of a frozen domain or the lane's own. Where it is gone it comes back.
fn take_or_reload(pins: &Pins, seat: &mut Seat, page: u32, frozen: bool) -> Result<Held, Stop>
    requires at { IsAt pins.now seat.old }
    requires free { IsFree seat.old }
    requires rights { (view_of seat.old).rights ≡ [] }
    requires page { page < pages_of (key_of pins.now) }
    requires lanes { (view_of seat.old).about.lanes ≡ true }
    requires kind { IsFrozenOrOwn (view_of seat.old) page frozen }
    requires cell { IsBarePage (view_of seat.old).about.opening page → ⊥ }
    ensures same { IsSameLane seat.old seat.new }
    ensures ok { IfOk result (λ held. HoldsPage seat.new held × (held.page ≡ page)) }
    ensures shows { IfOk result (λ held. (end : ℕ) → (s : Layout) → ShowsPages (view_of seat.old) None end s
        → ShowsPages (view_of seat.new) (Some held) end s) }
    ensures err { IfErr result (λ why. IsFree seat.new × IsRefusedPage (view_of seat.old) (view_of seat.new) page why) }
    ensures still { OnErr result ((end : ℕ) → (s : Layout) → ShowsPages (view_of seat.old) None end s → ShowsPages (view_of seat.new) None end s) }
    ensures reads { ReadsOn (view_of seat.old) (view_of seat.new) }
    ensures passes { (q : ℕ) → q < pages_of (view_of seat.old).about → q ≢ page → PassesBy (view_of seat.old) (view_of seat.new) q }
    ensures changed { (view_of seat.new).changed ≡ (view_of seat.old).changed }
    ensures once { ReloadsUpTo 1 (view_of seat.old) (view_of seat.new) }
    ensures refused { OnErr result ((view_of seat.new).fetched ≡ (view_of seat.old).fetched) }
{
    if frozen {
        take_frozen(pins, seat, page)
    } else {
        take_own(pins, seat, page)
    }
}

/// Takes an own page on which an allocated cell lies. Where it is gone it comes back, into a frame that is free, or for which another page
/// leaves.
fn take_own(pins: &Pins, seat: &mut Seat, page: u32) -> Result<Held, Stop>
    requires at { IsAt pins.now seat.old }
    requires free { IsFree seat.old }
    requires rights { (view_of seat.old).rights ≡ [] }
    requires page { page < pages_of (key_of pins.now) }
    requires lanes { (view_of seat.old).about.lanes ≡ true }
    requires own { IsOwnPage (view_of seat.old) page }
    requires cell { IsBarePage (view_of seat.old).about.opening page → ⊥ }
    ensures same { IsSameLane seat.old seat.new }
    ensures ok { IfOk result (λ held. HoldsPage seat.new held × (held.page ≡ page)) }
    ensures shows { IfOk result (λ held. (end : ℕ) → (s : Layout) → ShowsPages (view_of seat.old) None end s
        → ShowsPages (view_of seat.new) (Some held) end s) }
    ensures err { IfErr result (λ why. IsFree seat.new × IsRefusedOwn (view_of seat.old) (view_of seat.new) page why) }
    ensures still { OnErr result ((end : ℕ) → (s : Layout) → ShowsPages (view_of seat.old) None end s → ShowsPages (view_of seat.new) None end s) }
    ensures reads { ReadsOn (view_of seat.old) (view_of seat.new) }
    ensures passes { (q : ℕ) → q < pages_of (view_of seat.old).about → q ≢ page → PassesBy (view_of seat.old) (view_of seat.new) q }
    ensures changed { (view_of seat.new).changed ≡ (view_of seat.old).changed }
    ensures once { ReloadsUpTo 1 (view_of seat.old) (view_of seat.new) }
    ensures refused { OnErr result ((view_of seat.new).fetched ≡ (view_of seat.old).fetched) }
{
    match pins.take(seat, page, Want::Work) {
        Ok(held) => Ok(held),
        Err(TakeError::Busy) => Err(Stop::Busy(page)),
        Err(TakeError::Gone) => reload_page(pins, seat, page),
        Err(TakeError::Remembered) => unreachable!(),
        Err(TakeError::Absent) => unreachable!(),
    }
}

/// Brings an own page back that was read as Gone, if there is a frame for it.
fn reload_page(pins: &Pins, seat: &mut Seat, page: u32) -> Result<Held, Stop>
    requires at { IsAt pins.now seat.old }
    requires free { IsFree seat.old }
    requires rights { (view_of seat.old).rights ≡ [] }
    requires page { page < pages_of (key_of pins.now) }
    requires lanes { (view_of seat.old).about.lanes ≡ true }
    requires own { IsOwnPage (view_of seat.old) page }
    requires gone { 0 < times page (view_of seat.old).gone }
    ensures same { IsSameLane seat.old seat.new }
    ensures ok { IfOk result (λ held. HoldsPage seat.new held × (held.page ≡ page)) }
    ensures shows { IfOk result (λ held. (end : ℕ) → (s : Layout) → ShowsPages (view_of seat.old) None end s
        → ShowsPages (view_of seat.new) (Some held) end s) }
    ensures err { IfErr result (λ why. IsFree seat.new × (why ≡ stop.NoFrame) × FindsNoFrameAtAll (view_of seat.old) (view_of seat.new)) }
    ensures still { OnErr result ((end : ℕ) → (s : Layout) → ShowsPages (view_of seat.old) None end s → ShowsPages (view_of seat.new) None end s) }
    ensures reads { ReadsOn (view_of seat.old) (view_of seat.new) }
    ensures passes { (q : ℕ) → q < pages_of (view_of seat.old).about → q ≢ page → PassesBy (view_of seat.old) (view_of seat.new) q }
    ensures changed { (view_of seat.new).changed ≡ (view_of seat.old).changed }
    ensures once { ReloadsUpTo 1 (view_of seat.old) (view_of seat.new) }
    ensures refused { OnErr result ((view_of seat.new).fetched ≡ (view_of seat.old).fetched) }
{
    match find_frame(pins, seat, page.saturating_add(1)) {
        Some(right) => match reload(pins, seat, page, right) {
            Ok(fetched) => Ok(fetched),
            Err(_) => unreachable!(),
        },
        None => Err(Stop::NoFrame),
    }
}

/// Takes a page of a frozen domain on which an allocated cell lies. Where another lane has it in hand, it is tried again a bounded number
/// of times: who reads such a page puts it back soon.
fn take_frozen(pins: &Pins, seat: &mut Seat, page: u32) -> Result<Held, Stop>
    requires at { IsAt pins.now seat.old }
    requires free { IsFree seat.old }
    requires rights { (view_of seat.old).rights ≡ [] }
    requires page { page < pages_of (key_of pins.now) }
    requires lanes { (view_of seat.old).about.lanes ≡ true }
    requires frozen { IsNobodysPage (view_of seat.old) page }
    requires cell { IsBarePage (view_of seat.old).about.opening page → ⊥ }
    ensures same { IsSameLane seat.old seat.new }
    ensures ok { IfOk result (λ held. HoldsPage seat.new held × (held.page ≡ page)) }
    ensures shows { IfOk result (λ held. (end : ℕ) → (s : Layout) → ShowsPages (view_of seat.old) None end s
        → ShowsPages (view_of seat.new) (Some held) end s) }
    ensures err { IfErr result (λ why. IsFree seat.new × IsRefusedFrozen (view_of seat.old) (view_of seat.new) page why) }
    ensures still { OnErr result ((end : ℕ) → (s : Layout) → ShowsPages (view_of seat.old) None end s → ShowsPages (view_of seat.new) None end s) }
    ensures reads { ReadsOn (view_of seat.old) (view_of seat.new) }
    ensures passes { (q : ℕ) → q < pages_of (view_of seat.old).about → q ≢ page → PassesBy (view_of seat.old) (view_of seat.new) q }
    ensures changed { (view_of seat.new).changed ≡ (view_of seat.old).changed }
    ensures once { ReloadsUpTo 1 (view_of seat.old) (view_of seat.new) }
    ensures refused { OnErr result ((view_of seat.new).fetched ≡ (view_of seat.old).fetched) }
{
    for _ in 0..TRIES {
        let answer = try_frozen(pins, seat, page);
        if !is_busy(&answer) {
            return answer;
        }
        hint::spin_loop();
    }
    try_frozen(pins, seat, page)
}

/// Is the answer that somebody else has the page in hand?
fn is_busy(answer: &Result<Held, Stop>) -> bool
    ensures busy { result ≡ true → IfOk answer.now (λ _. ⊥) }
{
    match answer {
        Err(Stop::Busy(_)) => true,
        _ => false,
    }
}

/// Tries once to take a page of a frozen domain on which an allocated cell lies.
fn try_frozen(pins: &Pins, seat: &mut Seat, page: u32) -> Result<Held, Stop>
    requires at { IsAt pins.now seat.old }
    requires free { IsFree seat.old }
    requires rights { (view_of seat.old).rights ≡ [] }
    requires page { page < pages_of (key_of pins.now) }
    requires lanes { (view_of seat.old).about.lanes ≡ true }
    requires frozen { IsNobodysPage (view_of seat.old) page }
    requires cell { IsBarePage (view_of seat.old).about.opening page → ⊥ }
    ensures same { IsSameLane seat.old seat.new }
    ensures ok { IfOk result (λ held. HoldsPage seat.new held × (held.page ≡ page)) }
    ensures shows { IfOk result (λ held. (end : ℕ) → (s : Layout) → ShowsPages (view_of seat.old) None end s
        → ShowsPages (view_of seat.new) (Some held) end s) }
    ensures err { IfErr result (λ why. IsFree seat.new × IsRefusedFrozen (view_of seat.old) (view_of seat.new) page why) }
    ensures still { OnErr result ((end : ℕ) → (s : Layout) → ShowsPages (view_of seat.old) None end s → ShowsPages (view_of seat.new) None end s) }
    ensures reads { ReadsOn (view_of seat.old) (view_of seat.new) }
    ensures passes { (q : ℕ) → q < pages_of (view_of seat.old).about → q ≢ page → PassesBy (view_of seat.old) (view_of seat.new) q }
    ensures changed { (view_of seat.new).changed ≡ (view_of seat.old).changed }
    ensures once { ReloadsUpTo 1 (view_of seat.old) (view_of seat.new) }
    ensures refused { OnErr result ((view_of seat.new).fetched ≡ (view_of seat.old).fetched) }
{
    match pins.take(seat, page, Want::Work) {
        Ok(taken) => Ok(taken),
        Err(TakeError::Busy) => Err(Stop::Busy(page)),
        Err(TakeError::Gone) => reload_frozen(pins, seat, page),
        Err(TakeError::Remembered) => unreachable!(),
        Err(TakeError::Absent) => unreachable!(),
    }
}

/// Brings a page of a frozen domain back that was read as Gone, if a frame is free for it and no other lane brings it back first.
fn reload_frozen(pins: &Pins, seat: &mut Seat, page: u32) -> Result<Held, Stop>
    requires at { IsAt pins.now seat.old }
    requires free { IsFree seat.old }
    requires rights { (view_of seat.old).rights ≡ [] }
    requires page { page < pages_of (key_of pins.now) }
    requires lanes { (view_of seat.old).about.lanes ≡ true }
    requires frozen { IsNobodysPage (view_of seat.old) page }
    ensures same { IsSameLane seat.old seat.new }
    ensures ok { IfOk result (λ held. HoldsPage seat.new held × (held.page ≡ page)) }
    ensures shows { IfOk result (λ held. (end : ℕ) → (s : Layout) → ShowsPages (view_of seat.old) None end s
        → ShowsPages (view_of seat.new) (Some held) end s) }
    ensures err { IfErr result (λ why. IsFree seat.new × (((why ≡ stop.Gone page) × HasNoWayBack (view_of seat.old) (view_of seat.new) page)
        ⊎ ((why ≡ stop.Moved page) × ReadsHome (view_of seat.old) (view_of seat.new) page))) }
    ensures still { OnErr result ((end : ℕ) → (s : Layout) → ShowsPages (view_of seat.old) None end s → ShowsPages (view_of seat.new) None end s) }
    ensures reads { ReadsOn (view_of seat.old) (view_of seat.new) }
    ensures passes { (q : ℕ) → q < pages_of (view_of seat.old).about → q ≢ page → PassesBy (view_of seat.old) (view_of seat.new) q }
    ensures changed { (view_of seat.new).changed ≡ (view_of seat.old).changed }
    ensures once { ReloadsUpTo 1 (view_of seat.old) (view_of seat.new) }
    ensures refused { OnErr result ((view_of seat.new).fetched ≡ (view_of seat.old).fetched) }
{
    match claim_frame(pins, seat) {
        Some(right) => match reload(pins, seat, page, right) {
            Ok(fetched) => Ok(fetched),
            Err((unused, refusal)) => {
                give_frame(pins, seat, unused);
                Err(moved_or_gone(page, refusal))
            }
        },
        None => Err(Stop::Gone(page)),
    }
}

/// Why a lane stops that couldn't bring a page back: another lane did so, or it is in that lane's hands.
fn moved_or_gone(page: u32, refusal: ReloadError) -> Stop
    ensures stop { ((refusal ≡ refused.Home) × (result ≡ stop.Moved page)) ⊎ ((refusal ≢ refused.Home) × (result ≡ stop.Gone page)) }
{
    match refusal {
        ReloadError::Home => Stop::Moved(page),
        ReloadError::Busy | ReloadError::Remembered | ReloadError::Absent => Stop::Gone(page),
    }
}

/// Gets the right to a frame: to a free one, or else to that of a page that leaves for it, the first that can, going round from a hint. It
/// gets none only where no frame is free, and no page can leave.
fn find_frame(pins: &Pins, seat: &mut Seat, hint: u32) -> Option<FrameRight>
    requires at { IsAt pins.now seat.old }
    requires free { IsFree seat.old }
    requires rights { (view_of seat.old).rights ≡ [] }
    requires lanes { (view_of seat.old).about.lanes ≡ true }
    ensures same { IsSameSeat seat.old seat.new }
    ensures free { IsFree seat.new }
    ensures some { IfSome result (λ right. HasFrame (view_of seat.old) right.frame (view_of seat.new)) }
    ensures none { IfNone result (FindsNoFrameAtAll (view_of seat.old) (view_of seat.new)) }
{
    if let Some(right) = claim_frame(pins, seat) {
        return Some(right);
    }
    free_frame(pins, seat, hint)
}

/// Sees to it that a page on which an allocated cell lies is in hand, of a frozen domain or the lane's own. Where it is, nothing is done; any other page in hand
/// is put back, and one that is gone comes back. Where it can't be taken none is in hand.
pub(crate) fn take_page<G: Gate>(
    pins: &Pins,
    seat: &mut Seat,
    hand: &mut Option<Held>,
    page: u32,
    frozen: bool,
    lane: u32,
    gate: &G,
) -> Result<(), Stop>
    requires at { IsAt pins.now seat.old }
    requires hands { HasInHand seat.old hand.old }
    requires rights { (view_of seat.old).rights ≡ [] }
    requires page { page < pages_of (key_of pins.now) }
    requires lanes { (view_of seat.old).about.lanes ≡ true }
    requires kind { IsFrozenOrOwn (view_of seat.old) page frozen }
    requires cell { IsBarePage (view_of seat.old).about.opening page → ⊥ }
    requires shown { (end : ℕ) × (s : Layout) × ShowsPages (view_of seat.old) hand.old end s }
    ensures same { IsSameLane seat.old seat.new }
    ensures kept { HasPage hand.old page → (hand.new ≡ hand.old) × (seat.new ≡ seat.old) }
    ensures hands { HasInHand seat.new hand.new }
    ensures shows { (end : ℕ) → (s : Layout) → ShowsPages (view_of seat.old) hand.old end s → ShowsPages (view_of seat.new) hand.new end s }
    ensures there { OnOk result (HasPage hand.new page) }
    ensures stop { IfErr result (λ why. IsRefusedPage (view_of seat.old) (view_of seat.new) page why) }
    ensures none { OnErr result (hand.new ≡ None) }
    ensures reads { ReadsOn (view_of seat.old) (view_of seat.new) }
    ensures passes { (q : ℕ) → q < pages_of (view_of seat.old).about → q ≢ page → PassesBy (view_of seat.old) (view_of seat.new) q }
    ensures puts { PutsBack (view_of seat.old) hand.old (view_of seat.new) }
    ensures once { ReloadsUpTo 1 (view_of seat.old) (view_of seat.new) }
    ensures refused { OnErr result ((view_of seat.new).fetched ≡ (view_of seat.old).fetched) }
{
    if has_page(hand, page) {
        return Ok(());
    }
    put_hand_back(pins, seat, hand);
    match take_or_reload(pins, seat, page, frozen) {
        Ok(mut held) => {
            held.note_use();
            *hand = Some(held);
            gate.at(lane, 7);
            Ok(())
        }
        Err(why) => Err(why),
    }
}

/// Is this the page in hand?
fn has_page(hand: &Option<Held>, page: u32) -> bool
    ensures there { result ≡ true → HasPage hand.now page }
    ensures all { HasPage hand.now page → result ≡ true }
{
    match hand {
        Some(held) => held.page() == page,
        None => false,
    }
}
