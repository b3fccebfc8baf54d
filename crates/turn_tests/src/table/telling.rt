//! A source that knows the view that the seat had when its notice was given.

use bc_pager::{Notice, Notices};
use bc_pins::Seat;
use std::snapshot::Snapshot;

/// One notice, and the seat as it was when that was given.
#[derive(Drop)]
pub(super) struct OneNotice {
    hint: u32,
    given: Option<Snapshot<Seat>>,
    ends: u64,
}

impl OneNotice {
    pub(super) fn new(hint: u32) -> OneNotice {
        OneNotice {
            hint,
            given: None,
            ends: 0,
        }
    }
}

impl Notices for OneNotice {
    ghost use Rattle.std.specs.Prelude.{[], ◌∷◌, Some, is_none, map, option_to_list};
    ghost use Rattle.bc_pager.specs.Claiming.{unshared};
    ghost use Rattle.bc_pins.specs.Calls.{view_of};
    ghost use Rattle.turn_tests.specs.Telling.{the_notice};

    ghost taken = { λ n. Some (map (λ s. the_notice n.hint) (option_to_list n.given)) };

    ghost ends = { λ n. n.ends };

    ghost told = { λ n. Some (n.hint ∷ []) };

    ghost since = { λ n. Some (map (λ s. view_of s.value) (option_to_list n.given)) };

    ghost shared = { λ n. unshared };

    ghost coming = { λ n. is_none n.given };

    ghost most = { λ n. 1 };

    fn next(&mut self, seat: &mut Seat) -> Option<Notice> {
        if self.given.is_some() {
            self.ends = self.ends.saturating_add(1);
            return None;
        }
        self.given = Some(Snapshot::of(seat));
        Some(Notice {
            hint: self.hint,
            number: 0,
        })
    }

    fn may_come(&self) -> bool {
        self.given.is_none()
    }
}
