//! Giving up a page in hand, with its frame.

ghost use Rattle.std.specs.Prelude.{◌≡◌, []};
ghost use Rattle.bc_evict.specs.Evicting.{MayBookmark, MayDiscard};
ghost use Rattle.bc_pins.specs.Calls.{key_of, view_of, IsAt, IsSameSeat, IsFree, HoldsPage};
ghost use Rattle.bc_evict.specs.Taking.{HasVacated, HasEvacuated};

use bc_evict::{bookmark, discard, evict, give_frame};
use bc_pins::{Held, Pins, Seat};

/// Makes the page in hand Absent, on which no allocated cell lies. Its frame is free.
pub(crate) fn discard_held(pins: &Pins, seat: &mut Seat, held: Held)
    requires seat { IsAt pins.now seat.old }
    requires held { HoldsPage seat.old held }
    requires may { MayDiscard seat.old held }
    requires none { (view_of seat.old).rights ≡ [] }
    ensures same { IsSameSeat seat.old seat.new }
    ensures free { IsFree seat.new }
    ensures vacated { HasVacated (key_of pins.now) (view_of seat.old) held.entry.page (view_of seat.new) }
{
    let right = discard(pins, seat, held);
    give_frame(pins, seat, right);
}

/// Bookmarks the page in hand and makes it Gone. Its frame is free.
pub(crate) fn evict_held(pins: &Pins, seat: &mut Seat, held: Held)
    requires seat { IsAt pins.now seat.old }
    requires held { HoldsPage seat.old held }
    requires may { MayBookmark seat.old held }
    requires none { (view_of seat.old).rights ≡ [] }
    ensures same { IsSameSeat seat.old seat.new }
    ensures free { IsFree seat.new }
    ensures evacuated { HasEvacuated (key_of pins.now) (view_of seat.old) held.entry.page (view_of seat.new) }
{
    bookmark(pins, seat, &held);
    let right = evict(pins, seat, held);
    give_frame(pins, seat, right);
}
