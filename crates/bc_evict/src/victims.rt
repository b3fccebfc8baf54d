//! A page that is given up for its frame.

ghost use Rattle.std.specs.Prelude.{◌≡◌, [], IfSome, IfNone};
ghost use Rattle.bc_pins.specs.Calls.{view_of, IsAt, IsFree, IsSameSeat};
ghost use Rattle.bc_evict.specs.Victims.{FindsNoVictim, HasFreed};

use crate::bookmarking::bookmark;
use crate::leaving::{discard, evict};
use crate::rights::FrameRight;
use crate::walking::{Kind, kind_of, take_any};
use bc_pins::{Pins, Seat};

/// Gives up a page that can be taken, and keeps the right to its frame: without an allocated cell it becomes Absent, and else it is
/// bookmarked and becomes Gone. It is looked for from the hint on, though no clause says which of those it is. Where none can be taken the
/// word of each page was read, and nothing was taken.
pub fn free_frame(pins: &Pins, seat: &mut Seat, hint: u32) -> Option<FrameRight>
    requires seat { IsAt pins.now seat.old }
    requires free { IsFree seat.old }
    requires none { (view_of seat.old).rights ≡ [] }
    ensures same { IsSameSeat seat.old seat.new }
    ensures free { IsFree seat.new }
    ensures some { IfSome result (λ right. HasFreed (view_of seat.old) right.frame (view_of seat.new)) }
    ensures none { IfNone result (FindsNoVictim (view_of seat.old) (view_of seat.new)) }
{
    let held = take_any(pins, seat, hint)?;
    match kind_of(pins, held.page()) {
        Kind::Bare => Some(discard(pins, seat, held)),
        Kind::Filled => {
            bookmark(pins, seat, &held);
            Some(evict(pins, seat, held))
        }
    }
}
