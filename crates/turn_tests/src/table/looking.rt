//! What a marker reads of marks, finished cells and queue bits.

ghost use Rattle.std.specs.Prelude.{◌≡◌, ◌*◌, ◌<◌, false};
ghost use Rattle.bc_pins.specs.Key.{pages_of};
ghost use Rattle.bc_pins.specs.Calls.{key_of, view_of, IsAt, IsSameSeat, IsFree};

use crate::table::Table;
use bc_pins::{Pins, Seat, Turn};

/// The mark word and the finished word of this number, read by a marker that sets no bit of them.
fn looked(pins: &Pins, marker: &mut Seat, word: u32) -> (u64, u64)
    requires at { IsAt pins.now marker.old }
    requires free { IsFree marker.old }
    requires turn { (key_of pins.now).lanes ≡ false }
    requires word { word < 16 * (key_of pins.now).supers }
    ensures same { IsSameSeat marker.old marker.new }
    ensures free { IsFree marker.new }
    ensures rights { (view_of marker.new).rights ≡ (view_of marker.old).rights }
{
    pins.shade(marker, word, 0);
    pins.done_bit(marker, word, 0);
    let marks = pins.look_marks(marker, word);
    let finished = pins.look_finished(marker, word);
    (marks, finished)
}

/// The queue bits of a page's superpage, as a marker finds them that clears the page's bit. It sets the bit again, twice: was it clear?
fn queued(pins: &Pins, marker: &mut Seat, page: u32) -> (u64, bool, bool)
    requires at { IsAt pins.now marker.old }
    requires free { IsFree marker.old }
    requires turn { (key_of pins.now).lanes ≡ false }
    requires page { page < pages_of (key_of pins.now) }
    ensures same { IsSameSeat marker.old marker.new }
    ensures free { IsFree marker.new }
    ensures rights { (view_of marker.new).rights ≡ (view_of marker.old).rights }
{
    let found = pins.dequeue_bit(marker, page);
    let first = pins.queue_page(marker, page);
    let again = pins.queue_page(marker, page);
    (found, first, again)
}

impl Table {
    /// The mark word and the finished word of this number, read by the first seat's marker. Nothing where it is no mark turn.
    pub(super) fn looks(&mut self, word: u32) -> Option<(u64, u64)> {
        if self.pins.turn() != Turn::Mark || word / 4 >= self.pins.pages() {
            return None;
        }
        Some(looked(&self.pins, &mut self.first, word))
    }
    /// The queue bits of a page's superpage, found by the first seat's marker, which leaves the page's bit set. Nothing where it is no mark
    /// turn.
    pub(super) fn queues(&mut self, page: u32) -> Option<u64> {
        if self.pins.turn() != Turn::Mark || page >= self.pins.pages() {
            return None;
        }
        match queued(&self.pins, &mut self.first, page) {
            (found, true, false) => Some(found),
            _ => None,
        }
    }
}
