//! The claim of a notice.

ghost use Rattle.std.specs.Prelude.{◌≡◌};
ghost use Rattle.bc_pins.specs.Steps.{taking_notice};
ghost use Rattle.bc_pins.specs.Calls.{view_of, slots_of, IsAt, IsSameSeat};

use crate::key::notice_entry;
use crate::pins::{Pins, Seat};
use crate::rule::ClaimNotice;

impl Pins {
    /// Claims the next notice: it answers the notice's number, which no other claim of the turn answers. They are claimed in their
    /// order, from 0 on. A table doesn't know how many notices there are, so a number may be past the last.
    pub fn claim_notice(&self, seat: &mut Seat) -> u64
        requires seat { IsAt self.now seat.old }
        ensures same { IsSameSeat seat.old seat.new }
        ensures slots { slots_of seat.new ≡ slots_of seat.old }
        ensures view { view_of seat.new ≡ taking_notice (view_of seat.old) result }
    {
        let at = notice_entry(self.superpages, self.frame_words as usize);
        self.table
            .shared
            .fetch_add::<ClaimNotice>(&mut seat.inner, at, 1)
    }
}
