//! Seats that are joined into one while the table goes on.

ghost use Rattle.std.specs.Prelude.{◌≡◌, ℕ, ◌+◌, ◌-◌, ◌^◌, ◌<◌, ◌≤◌, [], ◌∷◌, ◌++◌, length, min, vec_capacity};
ghost use Rattle.bc_pins.specs.Steps.{united};
ghost use Rattle.bc_pins.specs.Calls.{key_of, view_of, slots_of, IsAt, IsFree};
ghost use Rattle.bc_pins.specs.Closing.{AreBack, Gathered, IsBack};

use crate::pins::{Pins, Seat};
use crate::rule::Unite;

impl Pins {
    /// Joins another seat into a seat, which has then what both did and read, and the roles of both. Neither has a page in hand, and
    /// the other has no right to a frame.
    pub fn join(&self, seat: &mut Seat, other: Seat)
        requires seat { IsAt self.now seat.old }
        requires free { IsFree seat.old }
        requires other { IsBack self.now.table.shared.table_id (key_of self.now) other }
        ensures view { view_of seat.new ≡ united (view_of seat.old) (view_of other) }
        ensures slots { slots_of seat.new ≡ slots_of seat.old }
        ensures opens { seat.new.opens ≡ min (seat.old.opens + other.opens) (2 ^ 64 - 1) }
        ensures role { seat.new.role ≡ seat.old.role }
        ensures table { seat.new.inner.table_id ≡ seat.old.inner.table_id }
    {
        let Seat {
            inner,
            role: _,
            opens,
        } = other;
        self.table.shared.join_seat::<Unite>(&mut seat.inner, inner);
        seat.opens.add(opens);
    }

    /// Joins all other seats of the table into a seat. It has all roles then, and what all did and read, so it works alone.
    pub fn join_all(&self, seat: &mut Seat, others: &mut Vec<Seat>)
        requires seat { IsAt self.now seat.old }
        requires back { AreBack self.now.table.shared.table_id (key_of self.now) (others.old.items ++ seat.old ∷ []) }
        ensures gathered { Gathered self.now.table.shared.table_id (key_of self.now) (others.old.items ++ seat.old ∷ []) [] seat.new.inner }
        ensures back { AreBack self.now.table.shared.table_id (key_of self.now) (seat.new ∷ []) }
        ensures seat { IsAt self.now seat.new }
        ensures role { seat.new.role ≡ seat.old.role }
        ensures others { others.new.items ≡ [] }
        ensures room { vec_capacity others.new ≡ vec_capacity others.old }
    {
        while let Some(other) = others.pop() {
            self.join(seat, other);
        }
    }
}
