//! Going round the pages, and taking the first of a kind that can be taken.

ghost use Rattle.std.specs.Prelude.{◌≡◌, ℕ, ◌+◌, ◌*◌, ◌^◌, ◌<◌, ◌≤◌, true, false, IfSome, IfNone};
ghost use Rattle.bc_bookmarks.specs.Targets.{HasCell};
ghost use Rattle.bc_pins.specs.Key.{pages_of};
ghost use Rattle.bc_pins.specs.Calls.{key_of, view_of, IsAt, IsSameSeat, IsFree};
ghost use Rattle.bc_evict.specs.Looking.{steps_behind};
ghost use Rattle.bc_evict.specs.Taking.{IsOfKind, first_page, HasTried, HasTriedAll, IsTakenFor, HasTakenFirst};
ghost use Rattle.bc_evict.specs.Victims.{FindsNoVictim, HasTakenAny};

use bc_classes::{PAGE_WORDS, SUPERPAGE_PAGES};
use bc_pins::{Held, Pins, Seat, Want};

/// What lies on a page.
#[derive(Clone, Copy, PartialEq, Eq, Debug)]
pub enum Kind {
    /// No allocated cell.
    Bare,
    /// An allocated cell.
    Filled,
}

/// Takes the first page of a kind that can be taken, going round from a hint on.
pub fn take_first(pins: &Pins, seat: &mut Seat, hint: u32, kind: Kind) -> Option<Held>
    requires seat { IsAt pins.now seat.old }
    requires free { IsFree seat.old }
    ensures same { IsSameSeat seat.old seat.new }
    ensures some { IfSome result (λ held. HasTakenFirst (key_of pins.now) kind hint (view_of seat.old) seat.new held) }
    ensures none { IfNone result (IsFree seat.new × HasTriedAll (key_of pins.now) kind (view_of seat.old) (view_of seat.new)) }
{
    pins.facts();
    let pages = pins.pages();
    let start = start_at(pins, hint);
    for steps in 0..pages {
        let page = place_behind(start, steps, pages);
        if let Some(held) = take_page(pins, seat, page, kind) {
            return Some(held);
        }
    }
    None
}

/// Takes a page that can be taken, whatever lies on it. It is looked for from the hint on, though no clause says which of those it is.
pub(crate) fn take_any(pins: &Pins, seat: &mut Seat, hint: u32) -> Option<Held>
    requires seat { IsAt pins.now seat.old }
    requires free { IsFree seat.old }
    ensures same { IsSameSeat seat.old seat.new }
    ensures some { IfSome result (λ held. HasTakenAny (key_of pins.now) (view_of seat.old) seat.new held) }
    ensures none { IfNone result (IsFree seat.new × FindsNoVictim (view_of seat.old) (view_of seat.new)) }
{
    pins.facts();
    let count = pins.pages();
    let start = start_at(pins, hint);
    for steps in 0..count {
        let page = place_behind(start, steps, count);
        match pins.take(seat, page, Want::Victim) {
            Ok(held) => return Some(held),
            Err(_why) => {}
        }
    }
    None
}

/// The page of the table where going round begins.
fn start_at(pins: &Pins, hint: u32) -> u32
    ensures start { result ≡ first_page (key_of pins.now) hint }
    ensures within { 0 < pages_of (key_of pins.now) → result < pages_of (key_of pins.now) }
{
    pins.facts();
    let all = pins.end() / PAGE_WORDS;
    if all == 0 {
        return 0;
    }
    let page = hint % all;
    if page < pins.pages() { page } else { 0 }
}

/// The number so many steps after a start, going round among the numbers below a count.
pub(crate) fn place_behind(start: u32, steps: u32, count: u32) -> u32
    requires start { start < count }
    requires steps { steps < count }
    ensures within { result < count }
    ensures steps { steps_behind count start result ≡ steps }
{
    let rest = count - start;
    if steps < rest {
        start + steps
    } else {
        steps - rest
    }
}

/// Takes a page if it is of the kind and can be taken.
fn take_page(pins: &Pins, seat: &mut Seat, page: u32, kind: Kind) -> Option<Held>
    requires seat { IsAt pins.now seat.old }
    requires free { IsFree seat.old }
    requires page { page < pages_of (key_of pins.now) }
    ensures same { IsSameSeat seat.old seat.new }
    ensures some { IfSome result (λ held. (held.page ≡ page) × IsTakenFor (key_of pins.now) kind (view_of seat.old) seat.new held) }
    ensures none { IfNone result (IsFree seat.new × HasTried (key_of pins.now) kind page (view_of seat.old) (view_of seat.new)) }
{
    if kind_of(pins, page) != kind {
        return None;
    }
    match pins.take(seat, page, Want::Victim) {
        Ok(held) => Some(held),
        Err(_why) => None,
    }
}

/// What lies on a page of the table, by header bits alone.
pub(crate) fn kind_of(pins: &Pins, page: u32) -> Kind
    requires page { page < pages_of (key_of pins.now) }
    ensures kind { IsOfKind (key_of pins.now) result page }
{
    pins.facts();
    let header = pins.header(page / SUPERPAGE_PAGES);
    if header.holds_cell(page % SUPERPAGE_PAGES) {
        Kind::Filled
    } else {
        Kind::Bare
    }
}
