//! Closing a table.

ghost use Rattle.bc_pins.specs.Calls.{key_of};
ghost use Rattle.std.specs.Prelude.{◌≡◌, true, false};
ghost use Rattle.bc_pins.specs.Closing.{AreBack, Closed, ClosedMarks, HaveClaimed};

use crate::gathering::{put_frames, set_headers, unite_all};
use crate::key::{frame_entry, mark_entry};
use crate::pins::{Pins, Seat};
use crate::rest::{Rest, put_boxes_back};
use bc_superpages::Space;

impl Pins {
    /// Closes the table, to which all its seats came back with nothing in hand, and gives back the space.
    pub fn close(self, seats: Vec<Seat>) -> Space
        requires back { AreBack self.table.shared.table_id (key_of self) seats.items }
        ensures closed { (key_of self).lanes ≡ true → Closed (key_of self) seats.items result }
        ensures marked { (key_of self).lanes ≡ false → ClosedMarks (key_of self) seats.items result }
        ensures claims { HaveClaimed seats.items }
    {
        let Pins {
            table,
            rest,
            superpages,
            turn,
            frame_words,
        } = self;
        let Rest {
            mut parts,
            whole: _,
            pages,
        } = rest;
        let root = unite_all(&table.shared, seats, &mut parts.store);
        let mut closed = table.close_with(root);
        let start = mark_entry(0, superpages, frame_words as usize);
        set_headers(&mut parts.headers, &closed, superpages, start, turn);
        put_frames(&mut parts.pool, &closed, frame_entry(0, superpages));
        put_boxes_back(&mut parts, pages, &mut closed);
        closed.free();
        Space::close_up(parts)
    }
}
