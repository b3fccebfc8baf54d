//! Notices that frames are wanted, and where they come from.

ghost use Rattle.std.specs.Prelude.{◌≡◌, ℕ, ◌≤◌, Bool, true, false, List, [], ◌∷◌, ◌++◌, ◌↔◌, length, nat_lt, Option, Some, IfOk, IfSome, IfNone, IsNone, take};
ghost use Rattle.bc_frames.specs.Places.{one_more};
ghost use Rattle.bc_pins.specs.declared.views.View.{View};
ghost use Rattle.bc_pins.specs.Calls.{slots_of, view_of, IsSameSeat};
ghost use Rattle.bc_pager.specs.Claiming.{ClaimsNotice, IsSeatOf, Sharing, shared_by, unshared};
ghost use Rattle.bc_pager.specs.Serving.{HintList, given_of, told_with, unlisted, untold};

use crate::answers::MOST_NOTICES;
use bc_pins::{Pins, Seat};
use std::alloc::{AllocError, Global};
use std::marker::Model;

/// A notice: a frame is wanted, and this page is where to begin.
#[derive(Clone, Copy, PartialEq, Eq, Debug)]
pub struct Notice {
    /// A page's number; one past the heap's last page is taken modulo their number.
    pub hint: u32,
    /// The notice's own number, counted from 0 in its list.
    pub number: u32,
}

/// Where notices come from.
pub trait Notices {
    ghost use Rattle.bc_pager.specs.declared.notices.Notice.{Notice};

    // The notices that were given, in order, where they are known.
    ghost taken: { Self → Option (List Notice) };

    // How many calls answered that there is none. The count stays at the last value of 64 bits.
    ghost ends: { Self → ℕ };

    // The hints of all its notices, those that were given among them, where they are known. They never change.
    ghost told: { Self → Option (List ℕ) };

    // The views that the seat had when the notices were given, in order, where they are known.
    ghost since: { Self → Option (List View) };

    // The table at which notices are claimed, and the hints out of which they are, where several pagers share them. They never change.
    ghost shared: { Self → Option Sharing };

    // Whether one more may come.
    ghost coming: { Self → Bool };

    // How many are given at most. It never changes.
    ghost most: { Self → ℕ };

    /// The next notice, or none. It makes no step with the seat but the claim of a notice, where notices are shared.
    fn next(&mut self, seat: &mut Seat) -> Option<Notice>
        requires seat { IsSeatOf (shared self.old) seat.old }
        ensures some { IfSome result (λ notice. (taken self.new ≡ told_with (taken self.old) (notice ∷ [])) × (ends self.new ≡ ends self.old) × (since self.new ≡ told_with (since self.old) (view_of seat.new ∷ []))) }
        ensures none { IfNone result ((taken self.new ≡ taken self.old) × (ends self.new ≡ one_more (ends self.old)) × (since self.new ≡ since self.old)) }
        ensures claim { ClaimsNotice (shared self.old) result (view_of seat.old) (view_of seat.new) }
        ensures told { told self.new ≡ told self.old }
        ensures shared { shared self.new ≡ shared self.old }
        ensures last { coming self.old ≡ false → IsNone result }
        ensures most { most self.new ≡ most self.old }
        ensures same { IsSameSeat seat.old seat.new }
        ensures slots { slots_of seat.new ≡ slots_of seat.old };

    /// Whether one more may come. Where it says no, none comes.
    fn may_come(&self) -> bool
        ensures coming { result ≡ coming self.now }
        ensures few { IfSome (taken self.now) (λ notices. length notices ≤ most self.now) };
}

/// Notices of a list of hints, each once and in order.
#[derive(Drop)]
pub struct ListNotices {
    hints: Vec<u32>,
    given: usize,
    ends: u64,
}

impl Model for ListNotices {
    ghost use Rattle.std.specs.Prelude.{◌≡◌, ◌^◌, ◌<◌, ◌≤◌, length};
    ghost use Rattle.bc_pager.specs.Serving.{HintList};

    ghost Value = { HintList };

    ghost view = { λ n. record { hints = n.hints.items; given = n.given; ends = n.ends } };

    ghost invariant = { λ n. (length n.hints.items ≤ 2 ^ 32) × (n.given ≤ length n.hints.items) × (0 < n.ends → n.given ≡ length n.hints.items) };
}

impl ListNotices {
    ghost use Rattle.std.specs.Prelude.{◌≡◌, ◌^◌, ◌<◌, ◌≤◌, [], length, IfOk};

    /// Notices of these hints, of which none was given. More than 2^32 hints are refused as if there were no memory for them.
    pub fn new(alloc: Global, hints: &[u32]) -> Result<ListNotices, AllocError>
        ensures new { IfOk result (λ notices. notices ≡ record { hints = hints.now; given = 0; ends = 0 }) }
        ensures few { IfOk result (λ notices. length hints.now ≤ 2 ^ 32) }
    {
        if hints.len() > MOST_NOTICES {
            return Err(AllocError);
        }
        Ok(ListNotices {
            hints: Vec::from_slice(alloc, hints)?,
            given: 0,
            ends: 0,
        })
    }

    /// No notices. It takes no memory.
    pub fn none(alloc: Global) -> ListNotices
        ensures none { result ≡ record { hints = []; given = 0; ends = 0 } }
    {
        ListNotices {
            hints: Vec::new(alloc),
            given: 0,
            ends: 0,
        }
    }

    /// How many notices were given: all, where it answered that there is no more.
    pub fn given(&self) -> usize
        ensures given { result ≡ self.now.given }
        ensures within { self.now.given ≤ length self.now.hints }
        ensures all { 0 < self.now.ends → self.now.given ≡ length self.now.hints }
    {
        self.given
    }
}

impl Notices for ListNotices {
    ghost taken = { λ n. Some (given_of n) };

    ghost ends = { λ n. n.ends };

    ghost told = { λ n. Some n.hints };

    ghost since = { λ n. untold };

    ghost shared = { λ n. unshared };

    ghost coming = { λ n. nat_lt n.given (length n.hints) };

    ghost most = { λ n. length n.hints };

    fn next(&mut self, _seat: &mut Seat) -> Option<Notice>
        ensures some { IfSome result (λ notice. (Some (given_of self.new) ≡ told_with (Some (given_of self.old)) (notice ∷ [])) × (self.new.ends ≡ self.old.ends) × (untold ≡ told_with untold (view_of _seat.new ∷ []))) }
        ensures none { IfNone result ((Some (given_of self.new) ≡ Some (given_of self.old)) × (self.new.ends ≡ one_more self.old.ends) × (untold ≡ untold)) }
        ensures claim { ClaimsNotice unshared result (view_of _seat.old) (view_of _seat.new) }
        ensures told { Some self.new.hints ≡ Some self.old.hints }
        ensures shared { unshared ≡ unshared }
        ensures last { nat_lt self.old.given (length self.old.hints) ≡ false → IsNone result }
        ensures most { length self.new.hints ≡ length self.old.hints }
        ensures same { IsSameSeat _seat.old _seat.new }
        ensures slots { slots_of _seat.new ≡ slots_of _seat.old }

        // The seat is as it was, and there is none exactly where all were given.
        ensures seat { _seat.new ≡ _seat.old }
        ensures used_up { IsNone result ↔ (self.old.given ≡ length self.old.hints) }
    {
        if self.given == self.hints.len() {
            self.ends = self.ends.saturating_add(1);
            return None;
        }
        let hint = self.hints[self.given];
        let number = self.given as u32;
        self.given += 1;
        Some(Notice { hint, number })
    }

    fn may_come(&self) -> bool {
        self.given < self.hints.len()
    }
}

/// Notices of a list of hints that several pagers share: each claims the next number at the table, and has the notice of that number.
#[derive(Drop)]
pub struct SharedNotices<'a> {
    pins: &'a Pins,
    hints: &'a [u32],
    ends: u64,
}

impl<'a> Model for SharedNotices<'a> {
    ghost use Rattle.std.specs.Prelude.{◌^◌, ◌≤◌, length};
    ghost use Rattle.bc_pager.specs.Claiming.{SharedHints, sharing_of};

    ghost Value = { SharedHints };

    ghost view = { λ n. record { sharing = sharing_of n.pins.now n.hints.now; ends = n.ends } };

    ghost invariant = { λ n. length n.hints.now ≤ 2 ^ 32 };
}

impl<'a> SharedNotices<'a> {
    ghost use Rattle.std.specs.Prelude.{◌≡◌, ◌^◌, ◌≤◌, length};
    ghost use Rattle.bc_pager.specs.Claiming.{sharing_of};

    /// Notices of these hints, which pagers share at this table. It takes no memory. Who has room for the answers to so many notices knows
    /// that they are few enough (`Answers`).
    pub fn new(pins: &'a Pins, hints: &'a [u32]) -> SharedNotices<'a>
        requires few { length hints.now ≤ 2 ^ 32 }
        ensures new { result ≡ record { sharing = sharing_of pins.now hints.now; ends = 0 } }
    {
        SharedNotices {
            pins,
            hints,
            ends: 0,
        }
    }
}

impl<'a> Notices for SharedNotices<'a> {
    // What pagers took is told by their claims: a list of it would take memory.
    ghost taken = { λ n. unlisted };

    ghost ends = { λ n. n.ends };

    ghost told = { λ n. Some n.sharing.hints };

    ghost since = { λ n. untold };

    ghost shared = { λ n. shared_by n.sharing };

    // The others' claims decide it.
    ghost coming = { λ n. true };

    ghost most = { λ n. length n.sharing.hints };

    fn next(&mut self, seat: &mut Seat) -> Option<Notice> {
        let number = self.pins.claim_notice(seat);
        if number >= self.hints.len() as u64 {
            self.ends = self.ends.saturating_add(1);
            return None;
        }
        let hint = self.hints[number as usize];
        let number = number as u32;
        Some(Notice { hint, number })
    }

    fn may_come(&self) -> bool {
        true
    }
}
