//! A table with two seats, on which the conditions of all calls hold.

ghost use Rattle.std.specs.Prelude.{◌≡◌, ◌≢◌, ◌<◌, true};
ghost use Rattle.bc_word.specs.Addresses.{superpage_of, page_of};
ghost use Rattle.bc_superpages.specs.Layout.{superpages};
ghost use Rattle.bc_superpages.specs.LayoutAt.{IsAllocated};
ghost use Rattle.bc_pins.specs.Key.{pages_of, owner, role_number, IsFrozenIn};
ghost use Rattle.bc_pins.specs.Views.{has_role};
ghost use Rattle.bc_pins.specs.Opening.{IsOpenable, IsMarkable};
ghost use Rattle.bc_pins.specs.Calls.{key_of, view_of, IsAt, MayFetch};
ghost use Rattle.turn_tests.specs.Seating.{HasOneRole, LanesHold, holders_in};

mod coming_back;
mod evicting;
mod looking;
mod meeting;
mod serving;
pub(crate) mod steps;
mod taking;
mod telling;
mod writing;

use bc_bits::contains;
use bc_model::Holder;
use bc_pins::{Pins, Role, Seat, Turn};
use bc_superpages::Space;
use bc_word::Address;
use std::alloc::{AllocError, Global};
use std::marker::Model;

/// Who sits at a table.
#[derive(Clone, Copy)]
pub(crate) enum Seating {
    /// Lane 0, and a pager beside it.
    LaneAndPager,
    /// The lanes 0 and 1.
    TwoLanes,
    /// A marker, and a pager beside it, in a mark turn.
    MarkerAndPager,
}

/// A table with two seats that have nothing in hand. In a turn of lanes lane 0 holds domain 0 and lane 1 domain 1, and domain 2 is frozen.
pub(crate) struct Table {
    pins: Pins,
    first: Seat,
    second: Seat,
    /// Room for the seats when the table is closed.
    spare: Vec<Seat>,
}

impl Model for Table {
    ghost use Rattle.std.specs.Prelude.{◌≡◌, ◌≤◌, [], vec_capacity};
    ghost use Rattle.bc_pins.specs.Key.{Key};
    ghost use Rattle.bc_pins.specs.Calls.{key_of};
    ghost use Rattle.turn_tests.specs.Seating.{AreSeated};

    ghost Value = { Key };

    ghost view = { λ t. key_of t.pins };

    ghost invariant = { λ t. AreSeated t.pins t.first t.second × (t.spare.items ≡ []) × (2 ≤ vec_capacity t.spare) };
}

/// Who holds the domains in a turn.
fn holders_in(turn: Turn) -> &'static [Holder]
    ensures { result.now ≡ holders_in turn }
{
    match turn {
        Turn::Lanes => &[Holder::Lane(0), Holder::Lane(1), Holder::Frozen],
        Turn::Mark => &[],
    }
}

impl Table {
    /// Opens a table over a space.
    pub(crate) fn open(alloc: Global, space: Space, seating: Seating) -> Result<Table, AllocError>
        requires openable { IsOpenable space }
        requires markable { IsMarkable space }
    {
        match seating {
            Seating::LaneAndPager => {
                Table::seat(alloc, space, Turn::Lanes, Role::Lane(0), Role::Pager(0))
            }
            Seating::TwoLanes => {
                Table::seat(alloc, space, Turn::Lanes, Role::Lane(0), Role::Lane(1))
            }
            Seating::MarkerAndPager => {
                Table::seat(alloc, space, Turn::Mark, Role::Marker(0), Role::Pager(0))
            }
        }
    }

    /// Opens a table with a seat for each of two roles.
    fn seat(
        alloc: Global,
        space: Space,
        turn: Turn,
        one: Role,
        other: Role,
    ) -> Result<Table, AllocError>
        requires openable { IsOpenable space }
        requires markable { IsMarkable space }
        requires apart { role_number one ≢ role_number other }
    {
        let roles = [one, other];
        match Pins::open(alloc, space, turn, holders_in(turn), roles.as_slice()) {
            Err((_space, failed)) => Err(failed),
            Ok((pins, mut seats)) => {
                let Some(second) = seats.pop() else {
                    unreachable!()
                };
                let Some(first) = seats.pop() else {
                    unreachable!()
                };
                Ok(Table {
                    pins,
                    first,
                    second,
                    spare: seats,
                })
            }
        }
    }

    /// Closes the table.
    pub(crate) fn close(self) -> Space {
        let Table {
            pins,
            first,
            second,
            mut spare,
        } = self;
        spare.push_reserved(first);
        spare.push_reserved(second);
        pins.close(spare)
    }

    /// The domain of a page, if the table has the page.
    fn domain(&self, page: u32) -> Option<u32> {
        if page < self.pins.pages() {
            Some(self.pins.header(page / 4).domain)
        } else {
            None
        }
    }
}

/// Is the table's a turn of lanes, and does this seat's lane hold the domain of a page of the table?
fn holds(pins: &Pins, seat: &Seat, page: u32) -> bool
    requires lanes { LanesHold (key_of pins.now) }
    requires roles { HasOneRole seat.now }
    ensures page { result ≡ true → page < pages_of (key_of pins.now) }
    ensures lanes { result ≡ true → (key_of pins.now).lanes ≡ true }
    ensures owner { result ≡ true → 0 < has_role (view_of seat.now) (owner (key_of pins.now) page) }
{
    if pins.turn() != Turn::Lanes || page >= pins.pages() {
        return false;
    }
    let Role::Lane(lane) = seat.role() else {
        return false;
    };
    if lane >= 2 {
        return false;
    }
    pins.header(page / 4).domain == lane
}

/// Is the table's a turn of lanes, and the domain of a page of the table frozen?
fn is_frozen(pins: &Pins, page: u32) -> bool
    requires lanes { LanesHold (key_of pins.now) }
    ensures page { result ≡ true → page < pages_of (key_of pins.now) }
    ensures frozen { result ≡ true → IsFrozenIn (key_of pins.now) page }
{
    if pins.turn() != Turn::Lanes || page >= pins.pages() {
        return false;
    }
    pins.header(page / 4).domain == 2
}

/// May the seat's lane bring a page of the table back: does it hold the page's domain, or is that frozen?
fn may_fetch(pins: &Pins, seat: &Seat, page: u32) -> bool
    requires at { IsAt pins.now seat.now }
    requires lanes { LanesHold (key_of pins.now) }
    requires roles { HasOneRole seat.now }
    ensures page { result ≡ true → page < pages_of (key_of pins.now) }
    ensures may { result ≡ true → MayFetch (view_of seat.now) page }
{
    holds(pins, seat, page) || is_frozen(pins, page)
}

/// Does an allocated cell begin at the address?
fn is_object(pins: &Pins, cell: Address) -> bool
    ensures allocated { result ≡ true → IsAllocated (key_of pins.now).opening cell.0 }
    ensures inside { result ≡ true → superpage_of cell.0 < superpages (key_of pins.now).opening }
{
    pins.facts();
    if cell.0 >= pins.end() {
        return false;
    }
    let header = pins.header(cell.superpage());
    contains(&header.cells, cell.cell(header.class)) && cell.0 % header.class == 0
}
