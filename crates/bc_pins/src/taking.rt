//! Taking a page and putting it back.

ghost use Rattle.std.specs.Prelude.{◌≡◌, ◌≢◌, ◌<◌, ◌≤◌, ◌==◌, true, IfOk, IfErr};
ghost use Rattle.bc_pins.specs.Key.{pages_of};
ghost use Rattle.bc_pins.specs.Views.{state_word};
ghost use Rattle.bc_pins.specs.Steps.{having_read, ReadsWord, Takes};
ghost use Rattle.bc_pins.specs.declared.taking.TakeError.TheVariants.{Busy};
ghost use Rattle.bc_pins.specs.Calls.{key_of, view_of, IsAt, IsSameSeat, IsFree, HoldsPage, Grasps, MayWork, MayPut, tried, IsPlainVictim, IsTakeRefused, WasSeen, put_back};

use crate::holding::Held;
use crate::key::{home_entry, page_entry};
use crate::pins::{Pins, Seat};
use crate::rule::{Look, Release, Take};
use crate::views::Lodged;
use crate::words::{ABSENT, HELD, HOME, REMEMBERED, state_of, word_at_home};
use bc_superpages::PageState;

/// What a page is taken for.
#[derive(Clone, Copy, PartialEq, Eq, Debug)]
pub enum Want {
    /// To work on it, also where it is remembered.
    Work,
    /// To give it up.
    Victim,
}

/// Why a page can't be taken.
#[derive(Clone, Copy, PartialEq, Eq, Debug)]
pub enum TakeError {
    /// Another worker has it in hand.
    Busy,
    /// Its content lies in the store.
    Gone,
    /// It is named by a write buffer, and was wanted as a victim.
    Remembered,
    /// It has no content.
    Absent,
}

impl Pins {
    /// Takes a page into the seat's hands; for a victim only one that isn't remembered. Each refusal returns what the last step on
    /// the page's word read.
    pub fn take(&self, seat: &mut Seat, page: u32, want: Want) -> Result<Held, TakeError>
        requires seat { IsAt self.now seat.old }
        requires free { IsFree seat.old }
        requires page { page < pages_of (key_of self.now) }
        requires work { MayWork seat.old page want }
        ensures same { IsSameSeat seat.old seat.new }
        ensures ok { IfOk result (λ held. Grasps (tried (view_of seat.old) page want held.remembered) seat.new page held) }
        ensures taken { IfOk result (λ held. Takes (view_of seat.old) page held.remembered held.homed) }
        ensures victim { IfOk result (λ held. IsPlainVictim want held) }
        ensures err { IfErr result (λ no. IsFree seat.new × IsTakeRefused (view_of seat.old) page want no (view_of seat.new)) }
    {
        match self.grip(seat, page, HOME) {
            Ok(held) => Ok(held),
            Err(REMEMBERED) => match want {
                Want::Work => self.grip_remembered(seat, page),
                Want::Victim => Err(TakeError::Remembered),
            },
            Err(HELD) => Err(TakeError::Busy),
            Err(ABSENT) => Err(TakeError::Absent),
            Err(_) => Err(TakeError::Gone),
        }
    }

    /// The second try: the page was read as remembered.
    fn grip_remembered(&self, seat: &mut Seat, page: u32) -> Result<Held, TakeError>
        requires seat { IsAt self.now seat.old }
        requires free { IsFree seat.old }
        requires page { page < pages_of (key_of self.now) }
        requires seen { WasSeen (view_of seat.old) page }
        ensures same { IsSameSeat seat.old seat.new }
        ensures ok { IfOk result (λ held. (held.remembered ≡ true) × Grasps (view_of seat.old) seat.new page held
            × Takes (view_of seat.old) page true held.homed) }
        ensures err { IfErr result (λ no. (no ≡ Busy) × IsFree seat.new × (view_of seat.new ≡ having_read (view_of seat.old) page 3)
            × ReadsWord (view_of seat.old) page 3) }
    {
        match self.grip(seat, page, REMEMBERED) {
            Ok(held) => Ok(held),
            Err(_) => Err(TakeError::Busy),
        }
    }

    /// One try: the page's word is made Held where it is `old`, which is Home or Remembered.
    fn grip(&self, seat: &mut Seat, page: u32, old: u64) -> Result<Held, u64>
        requires seat { IsAt self.now seat.old }
        requires free { IsFree seat.old }
        requires page { page < pages_of (key_of self.now) }
        requires old { (1 ≤ old) × (old ≤ 2) }
        ensures same { IsSameSeat seat.old seat.new }
        ensures ok { IfOk result (λ held. (held.remembered ≡ (old == 2)) × Grasps (view_of seat.old) seat.new page held
            × Takes (view_of seat.old) page (old == 2) held.homed) }
        ensures err { IfErr result (λ found. (found ≢ old) × IsFree seat.new × (view_of seat.new ≡ having_read (view_of seat.old) page found)
            × ReadsWord (view_of seat.old) page found) }
    {
        let words = &self.table.shared;
        let slot = home_entry(page as usize);
        let found = words.compare_exchange::<Take>(
            &mut seat.inner,
            page_entry(page as usize),
            old,
            HELD,
        );
        if found != old {
            return Err(found);
        }
        match words.exchange(&mut seat.inner, slot, Lodged::Nothing) {
            Lodged::Home(homed) => Ok(Held {
                page,
                remembered: old == REMEMBERED,
                homed,
            }),
            _ => unreachable!(),
        }
    }

    /// Puts back the page that the seat has in hand.
    pub fn put(&self, seat: &mut Seat, held: Held)
        requires seat { IsAt self.now seat.old }
        requires held { HoldsPage seat.old held }
        requires may { MayPut seat.old held }
        ensures same { IsSameSeat seat.old seat.new }
        ensures free { IsFree seat.new }
        ensures view { view_of seat.new ≡ put_back (view_of seat.old) held.entry }
    {
        let Held {
            page,
            remembered,
            homed,
        } = held;
        let words = &self.table.shared;
        let slot = home_entry(page as usize);
        words.exchange(&mut seat.inner, slot, Lodged::Home(homed));
        words.store::<Release>(
            &mut seat.inner,
            page_entry(page as usize),
            word_at_home(remembered),
        );
    }

    /// Reads where a page is.
    pub fn look(&self, seat: &mut Seat, page: u32) -> PageState
        requires seat { IsAt self.now seat.old }
        requires page { page < pages_of (key_of self.now) }
        ensures same { IsSameSeat seat.old seat.new }
        ensures hands { seat.new.inner.me.1 ≡ seat.old.inner.me.1 }
        ensures read { view_of seat.new ≡ having_read (view_of seat.old) page (state_word result) }
        ensures told { ReadsWord (view_of seat.old) page (state_word result) }
    {
        let found = self
            .table
            .shared
            .load::<Look>(&mut seat.inner, page_entry(page as usize));
        state_of(found)
    }
}
