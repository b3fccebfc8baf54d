//! Objects that lanes write, on pages of their own.

ghost use Rattle.std.specs.Prelude.{◌≡◌, ◌^◌, ◌<◌, true};
ghost use Rattle.bc_word.specs.Addresses.{page_of};
ghost use Rattle.bc_superpages.specs.Layout.{Layout};
ghost use Rattle.bc_superpages.specs.LayoutAt.{IsAllocated};
ghost use Rattle.bc_pins.specs.Key.{owner};
ghost use Rattle.bc_pins.specs.Views.{has_role};
ghost use Rattle.bc_pins.specs.Contents.{RefersYoung};
ghost use Rattle.bc_pins.specs.Calls.{key_of, view_of, IsAt, IsSameSeat, IsFree};
ghost use Rattle.bc_evict.specs.Objects.{HeldHasObject};

use crate::table::{Table, holds, is_object};
use bc_pins::{Held, Pins, Seat, Want};
use bc_word::{Address, Word, pack, unpack_head};
use std::thread;
use std::thread::Threads;

/// Takes a page of the lane's, writes a number into the first field of an object on it and puts it back. Was it done?
pub(super) fn is_written(pins: &Pins, seat: &mut Seat, cell: Address, number: u64) -> bool
    requires at { IsAt pins.now seat.old }
    requires free { IsFree seat.old }
    requires cell { IsAllocated (key_of pins.now).opening cell.0 }
    requires number { number < 2 ^ 63 }
    requires lanes { (key_of pins.now).lanes ≡ true }
    requires lane { 0 < has_role (view_of seat.old) (owner (key_of pins.now) (page_of cell.0)) }
    ensures same { IsSameSeat seat.old seat.new }
    ensures free { IsFree seat.new }
    ensures rights { (view_of seat.new).rights ≡ (view_of seat.old).rights }
{
    pins.facts();
    match pins.take(seat, cell.page(), Want::Work) {
        Ok(mut held) => {
            let written = write_first(&mut held, cell, number);
            pins.put(seat, held);
            written
        }
        Err(_) => false,
    }
}

/// Writes a number into the first field of an object on a page in hand, if it has a field.
fn write_first(held: &mut Held, cell: Address, number: u64) -> bool
    requires number { number < 2 ^ 63 }
    requires fixed { (s : Layout) × HeldHasObject s held.old cell.0 }
    ensures same { held.new ≡ record held.old { homed = record held.old.homed { page = held.new.homed.page } } }
    ensures fixed { (s : Layout) → HeldHasObject s held.old cell.0 → HeldHasObject s held.new cell.0 }
    ensures young { (s : Layout) → HeldHasObject s held.old cell.0 → RefersYoung s held.old.page held.new.homed.page
        → RefersYoung s held.old.page held.old.homed.page }
{
    let offset = cell.offset();
    let head = unpack_head(held.word(offset));
    if head.fields == 0 {
        return false;
    }
    held.set(offset + 1, pack(Word::Num(number)));
    true
}

/// Two lanes write the numbers 3 and 4 into an object each, on threads of their own. Were both done?
fn are_written(
    rt: &impl Threads,
    pins: &Pins,
    first: &mut Seat,
    second: &mut Seat,
    cells: (u32, u32),
) -> bool
    requires first { IsAt pins.now first.old × IsFree first.old }
    requires second { IsAt pins.now second.old × IsFree second.old }
    requires first_cell { IsAllocated (key_of pins.now).opening cells.0 }
    requires second_cell { IsAllocated (key_of pins.now).opening cells.1 }
    requires lanes { (key_of pins.now).lanes ≡ true }
    requires first_lane { 0 < has_role (view_of first.old) (owner (key_of pins.now) (page_of cells.0)) }
    requires second_lane { 0 < has_role (view_of second.old) (owner (key_of pins.now) (page_of cells.1)) }
    ensures first_same { IsSameSeat first.old first.new }
    ensures first_free { IsFree first.new }
    ensures first_rights { (view_of first.new).rights ≡ (view_of first.old).rights }
    ensures second_same { IsSameSeat second.old second.new }
    ensures second_free { IsFree second.new }
    ensures second_rights { (view_of second.new).rights ≡ (view_of second.old).rights }
{
    let (one, other) = thread::join_mut(
        rt,
        &mut || is_written(pins, first, Address(cells.0), 3),
        &mut || is_written(pins, second, Address(cells.1), 4),
    );
    one && other
}

impl Table {
    /// Two lanes write the numbers 3 and 4 into the first field of an object each, on threads of their own. Are both objects of domains that they hold,
    /// and were both written?
    pub(super) fn are_written<R: Threads>(&mut self, rt: &R, cells: (Address, Address)) -> bool {
        let (one, other) = cells;
        if !is_object(&self.pins, one) || !is_object(&self.pins, other) {
            return false;
        }
        if !holds(&self.pins, &self.first, one.page())
            || !holds(&self.pins, &self.second, other.page())
        {
            return false;
        }
        are_written(
            rt,
            &self.pins,
            &mut self.first,
            &mut self.second,
            (one.0, other.0),
        )
    }
}
