//! Single steps by which a page comes back from the store, and by which a frame is claimed for it.

ghost use Rattle.std.specs.Prelude.{◌≡◌, ◌≢◌, ℕ, ◌+◌, ◌*◌, ◌<◌, List, [], ◌∷◌, Some, None};
ghost use Rattle.std.specs.Int.{bit_at};
ghost use Rattle.bc_frames.specs.Places.{one_more};
ghost use Rattle.bc_pins.specs.declared.views.Hand.{Hand};
ghost use Rattle.bc_pins.specs.declared.views.Lodged.TheVariants.{Nothing, Away};
ghost use Rattle.bc_pins.specs.Key.{pages_of, frame_words};
ghost use Rattle.bc_pins.specs.Totals.{times};
ghost use Rattle.bc_pins.specs.Steps.{both_slots, fetching, having_read, Fetches, ReadsWord, discounting, claiming};
ghost use Rattle.bc_pins.specs.Calls.{key_of, view_of, slots_of, IsAt, IsFree, IsSameSeat, IsSameWorker, MayFetch};

use crate::key::{counter_entry, frame_entry, page_entry, store_entry};
use crate::pins::{Pins, Seat};
use crate::rule::{CounterSub, FrameClaim, TakeGone};
use crate::views::Lodged;
use crate::words::{GONE, HELD};
use bc_frames::{Page, Shut};

impl Pins {
    /// Tries to take an own page from Gone, or one of a frozen domain, for which the seat has the right to a frame, and to no other: the frame is the page's
    /// then. It answers the word that it found, and the page is in hand where that is Gone.
    pub fn take_gone(&self, seat: &mut Seat, page: u32, frame: u32) -> u64
        requires seat { IsAt self.now seat.old }
        requires free { IsFree seat.old }
        requires page { page < pages_of (key_of self.now) }
        requires may { MayFetch (view_of seat.old) page }
        requires right { (view_of seat.old).rights ≡ frame ∷ [] }
        ensures same { IsSameWorker seat.old seat.new }
        ensures opens { seat.new.opens ≡ seat.old.opens }
        ensures taken { result ≡ 4 → (content : List ℕ) × (view_of seat.new ≡ fetching (view_of seat.old) page content frame)
            × (slots_of seat.new ≡ both_slots (key_of self.now) page Nothing (Away content)) × Fetches (view_of seat.old) page content }
        ensures refused { result ≢ 4 → (view_of seat.new ≡ having_read (view_of seat.old) page result) × IsFree seat.new × ReadsWord (view_of seat.old) page result }
    {
        let _ = frame;
        let found = self
            .table
            .shared
            .compare_exchange::<TakeGone>(&mut seat.inner, page_entry(page as usize), GONE, HELD);
        found
    }

    /// Takes the box of the page in hand out of its store slot and opens it, which the seat counts.
    pub fn store_out(&self, seat: &mut Seat, page: u32, put: Option<Shut>) -> Option<Page>
        requires seat { IsAt self.now seat.old }
        requires page { page < pages_of (key_of self.now) }
        requires slots { (c : List ℕ) × (slots_of seat.old ≡ both_slots (key_of self.now) page Nothing (Away c)) }
        requires none { put ≡ None }
        ensures same { IsSameWorker seat.old seat.new }
        ensures opens { seat.new.opens ≡ one_more seat.old.opens }
        ensures view { view_of seat.new ≡ view_of seat.old }
        ensures slots { slots_of seat.new ≡ both_slots (key_of self.now) page Nothing Nothing }
        ensures content { (c : List ℕ) → slots_of seat.old ≡ both_slots (key_of self.now) page Nothing (Away c) → result ≡ Some c }
    {
        let _ = put;
        let slot = store_entry(page as usize);
        seat.inner.turn();
        let found = self
            .table
            .shared
            .exchange(&mut seat.inner, slot, Lodged::Nothing);
        seat.inner.turn();
        match found {
            Lodged::Away(shut) => Some(shut.open(&mut seat.opens)),
            _ => unreachable!(),
        }
    }

    /// Claims all free frames of a frame word: sets all of its bits. It answers the word that it found.
    pub fn frame_claim(&self, seat: &mut Seat, word: u32) -> u64
        requires seat { IsAt self.now seat.old }
        requires word { word < frame_words (key_of self.now) }
        ensures same { IsSameSeat seat.old seat.new }
        ensures slots { slots_of seat.new ≡ slots_of seat.old }
        ensures view { view_of seat.new ≡ claiming (view_of seat.old) word result }
        ensures frames { (b : ℕ) → b < 64 → bit_at result b ≡ 0 → 64 * word + b < (key_of self.now).frames }
    {
        let at = frame_entry(word as usize, self.superpages);
        self.table
            .shared
            .fetch_or::<FrameClaim>(&mut seat.inner, at, u64::MAX)
    }

    /// Counts a superpage no more for the page in hand, for which it is counted. It answers the counter that it found.
    pub fn counter_sub(&self, seat: &mut Seat, superpage: u32) -> u64
        requires seat { IsAt self.now seat.old }
        requires superpage { superpage < (key_of self.now).supers }
        requires counted { (h : Hand) × ((view_of seat.old).hand ≡ Some h) × (0 < times superpage h.counted) }
        ensures same { IsSameSeat seat.old seat.new }
        ensures slots { slots_of seat.new ≡ slots_of seat.old }
        ensures view { (h : Hand) → (view_of seat.old).hand ≡ Some h → view_of seat.new ≡ discounting (view_of seat.old) h superpage result }
    {
        let at = counter_entry(superpage as usize, self.superpages);
        self.table
            .shared
            .fetch_sub::<CounterSub>(&mut seat.inner, at, 1)
    }
}
