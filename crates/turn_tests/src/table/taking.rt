//! A page that a seat takes, and what another seat is answered meanwhile.

ghost use Rattle.std.specs.Prelude.{◌≡◌, ◌<◌};
ghost use Rattle.bc_pins.specs.Key.{pages_of, IsFrozenIn};
ghost use Rattle.bc_pins.specs.Calls.{key_of, view_of, IsAt, IsSameSeat, IsFree, MayWork};

use crate::table::{Table, is_frozen};
use bc_pins::{Held, Pins, Seat, TakeError, Want};
use std::marker::{Send, Sync};

/// Takes what may go to another thread.
fn sent<T: Send>(_value: &T) {}

/// Takes what threads may share.
fn shared<T: Sync>(_value: &T) {}

/// A seat and a page in hand may go to another thread.
fn may_cross(seat: &Seat, held: &Held) {
    sent(seat);
    sent(held);
}

/// Threads may share a table.
fn may_be_shared(pins: &Pins) {
    shared(pins);
}

/// Takes the page and puts it back. Where it was refused, it returns why.
fn refusal(pins: &Pins, seat: &mut Seat, page: u32, want: Want) -> Option<TakeError>
    requires at { IsAt pins.now seat.old }
    requires free { IsFree seat.old }
    requires page { page < pages_of (key_of pins.now) }
    requires work { MayWork seat.old page want }
    ensures same { IsSameSeat seat.old seat.new }
    ensures free { IsFree seat.new }
    ensures rights { (view_of seat.new).rights ≡ (view_of seat.old).rights }
{
    match pins.take(seat, page, want) {
        Err(no) => Some(no),
        Ok(held) => {
            pins.put(seat, held);
            None
        }
    }
}

/// The second lane takes a page of a frozen domain and puts it back. Is it busy for the first one meanwhile, which gets it after that?
fn is_read(pins: &Pins, first: &mut Seat, second: &mut Seat, page: u32) -> bool
    requires first { IsAt pins.now first.old × IsFree first.old }
    requires second { IsAt pins.now second.old × IsFree second.old }
    requires page { page < pages_of (key_of pins.now) }
    requires frozen { IsFrozenIn (key_of pins.now) page }
    ensures first_same { IsSameSeat first.old first.new }
    ensures first_free { IsFree first.new }
    ensures first_rights { (view_of first.new).rights ≡ (view_of first.old).rights }
    ensures second_same { IsSameSeat second.old second.new }
    ensures second_free { IsFree second.new }
    ensures second_rights { (view_of second.new).rights ≡ (view_of second.old).rights }
{
    match pins.take(second, page, Want::Work) {
        Err(_) => false,
        Ok(held) => {
            let meanwhile = refusal(pins, first, page, Want::Work);
            pins.put(second, held);
            let after = refusal(pins, first, page, Want::Work);
            meanwhile == Some(TakeError::Busy) && after.is_none()
        }
    }
}

impl Table {
    /// Is the first seat refused a page for this reason, or does it get it? A page that it gets is put back.
    pub(super) fn is_refused(&mut self, page: u32, refused: Option<TakeError>) -> bool {
        if page >= self.pins.pages() {
            return false;
        }
        refusal(&self.pins, &mut self.first, page, Want::Victim) == refused
    }

    /// The same while the second seat has the page in hand.
    pub(super) fn is_refused_meanwhile(&mut self, page: u32, refused: Option<TakeError>) -> bool {
        if page >= self.pins.pages() {
            return false;
        }
        match self.pins.take(&mut self.second, page, Want::Victim) {
            Err(_) => false,
            Ok(held) => {
                let answer = refusal(&self.pins, &mut self.first, page, Want::Victim);
                self.pins.put(&mut self.second, held);
                answer == refused
            }
        }
    }

    /// Do both seats' lanes get a page of a frozen domain to work on it, the first one after the second, for which it is busy until then?
    pub(super) fn is_read(&mut self, page: u32) -> bool {
        if !is_frozen(&self.pins, page) {
            return false;
        }
        is_read(&self.pins, &mut self.first, &mut self.second, page)
    }
}
