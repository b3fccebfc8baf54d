//! A lane writes an object while a pager gives up the page of another one, on threads of their own.

ghost use Rattle.std.specs.Prelude.{◌≡◌, ◌<◌, true, []};
ghost use Rattle.bc_word.specs.Addresses.{page_of};
ghost use Rattle.bc_superpages.specs.LayoutAt.{IsAllocated};
ghost use Rattle.bc_pins.specs.Key.{owner};
ghost use Rattle.bc_pins.specs.Views.{has_role};
ghost use Rattle.bc_pins.specs.Calls.{key_of, view_of, IsAt, IsSameSeat, IsFree, HoldsPage};
ghost use Rattle.bc_evict.specs.Evicting.{MayBookmark};

use crate::table::writing::is_written;
use crate::table::{Table, holds, is_object};
use bc_evict::{bookmark, evict, give_frame};
use bc_pins::{Held, Pins, Seat, Want};
use bc_word::Address;
use std::thread;
use std::thread::Threads;

/// Takes a page as a victim and gives it up, if it isn't remembered: its word says Gone then, and its frame is given back.
fn is_evicted(pins: &Pins, seat: &mut Seat, cell: Address) -> bool
    requires at { IsAt pins.now seat.old }
    requires free { IsFree seat.old }
    requires cell { IsAllocated (key_of pins.now).opening cell.0 }
    requires none { (view_of seat.old).rights ≡ [] }
    ensures same { IsSameSeat seat.old seat.new }
    ensures free { IsFree seat.new }
    ensures rights { (view_of seat.new).rights ≡ [] }
{
    pins.facts();
    match pins.take(seat, cell.page(), Want::Victim) {
        Ok(held) => {
            if held.remembered() {
                pins.put(seat, held);
                return false;
            }
            give_up(pins, seat, held);
            true
        }
        Err(_) => false,
    }
}

/// Gives up a page in hand.
fn give_up(pins: &Pins, seat: &mut Seat, held: Held)
    requires at { IsAt pins.now seat.old }
    requires held { HoldsPage seat.old held }
    requires may { MayBookmark seat.old held }
    requires none { (view_of seat.old).rights ≡ [] }
    ensures same { IsSameSeat seat.old seat.new }
    ensures free { IsFree seat.new }
    ensures rights { (view_of seat.new).rights ≡ [] }
{
    bookmark(pins, seat, &held);
    let right = evict(pins, seat, held);
    give_frame(pins, seat, right);
}

/// The lane writes an object and the pager evicts the page of another, on threads of their own. Were both done?
fn are_done(
    rt: &impl Threads,
    pins: &Pins,
    lane: &mut Seat,
    pager: &mut Seat,
    cells: (u32, u32),
) -> bool
    requires lane { IsAt pins.now lane.old × IsFree lane.old }
    requires pager { IsAt pins.now pager.old × IsFree pager.old }
    requires none { (view_of pager.old).rights ≡ [] }
    requires first { IsAllocated (key_of pins.now).opening cells.0 }
    requires second { IsAllocated (key_of pins.now).opening cells.1 }
    requires lanes { (key_of pins.now).lanes ≡ true }
    requires owner { 0 < has_role (view_of lane.old) (owner (key_of pins.now) (page_of cells.0)) }
    ensures lane_same { IsSameSeat lane.old lane.new }
    ensures lane_free { IsFree lane.new }
    ensures lane_rights { (view_of lane.new).rights ≡ (view_of lane.old).rights }
    ensures pager_same { IsSameSeat pager.old pager.new }
    ensures pager_free { IsFree pager.new }
    ensures pager_rights { (view_of pager.new).rights ≡ [] }
{
    let (one, other) = thread::join_mut(
        rt,
        &mut || is_written(pins, lane, Address(cells.0), 7),
        &mut || is_evicted(pins, pager, Address(cells.1)),
    );
    one && other
}

impl Table {
    /// The first seat's lane writes 7 into the first field of an object while a pager evicts the page of another object. Were both done?
    pub(super) fn are_done<R: Threads>(&mut self, rt: &R, cells: (Address, Address)) -> bool {
        let (written, evicted) = cells;
        if !is_object(&self.pins, written) || !is_object(&self.pins, evicted) {
            return false;
        }
        if !holds(&self.pins, &self.first, written.page()) {
            return false;
        }
        are_done(
            rt,
            &self.pins,
            &mut self.first,
            &mut self.second,
            (written.0, evicted.0),
        )
    }
}
