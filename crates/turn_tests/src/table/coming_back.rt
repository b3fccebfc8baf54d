//! A lane that gives a page up for a frame, and reloads it in the same turn.

ghost use Rattle.std.specs.Prelude.{◌≡◌, ◌<◌, []};
ghost use Rattle.bc_pins.specs.Key.{pages_of};
ghost use Rattle.bc_pins.specs.Calls.{key_of, view_of, IsAt, IsFree, IsSameWorker, CountsFetches, MayFetch};

use crate::table::{Table, may_fetch};
use bc_evict::{claim_frame, free_frame, give_frame, reload};
use bc_pins::{Pins, Seat};

/// Gives a page up for its frame, gives the frame back and claims one, and brings the page into that. Did it come back?
fn comes_back(pins: &Pins, lane: &mut Seat, page: u32) -> bool
    requires at { IsAt pins.now lane.old }
    requires free { IsFree lane.old }
    requires none { (view_of lane.old).rights ≡ [] }
    requires page { page < pages_of (key_of pins.now) }
    requires may { MayFetch (view_of lane.old) page }
    requires counts { CountsFetches lane.old }
    ensures same { IsSameWorker lane.old lane.new }
    ensures free { IsFree lane.new }
    ensures none { (view_of lane.new).rights ≡ [] }
    ensures counts { CountsFetches lane.new }
{
    let Some(right) = free_frame(pins, lane, page) else {
        return false;
    };
    give_frame(pins, lane, right);
    let Some(right) = claim_frame(pins, lane) else {
        return false;
    };
    match reload(pins, lane, page, right) {
        Ok(held) => {
            pins.put(lane, held);
            true
        }
        Err((right, _no)) => {
            give_frame(pins, lane, right);
            false
        }
    }
}

impl Table {
    /// Does a page of the first seat's lane, or one of a frozen domain, leave and come back?
    pub(super) fn comes_back(&mut self, page: u32) -> bool {
        if !may_fetch(&self.pins, &self.first, page) {
            return false;
        }
        comes_back(&self.pins, &mut self.first, page)
    }
}
