//! The table of a turn, and a seat at it.

ghost use Rattle.std.specs.Prelude.{◌≡◌, ℕ, ◌+◌, ◌^◌, ◌<◌, ◌≤◌, false, length};
ghost use Rattle.bc_superpages.specs.Layout.{superpages as superpages_of};
ghost use Rattle.bc_superpages.specs.Parts.{parts_layout};
ghost use Rattle.bc_pins.specs.Facts.{IsUnheld};
ghost use Rattle.bc_pins.specs.Opening.{IsMarkable};
ghost use Rattle.bc_pins.specs.Totals.{times};
ghost use Rattle.bc_pins.specs.Tidy.{IsTidy};
ghost use Rattle.bc_pins.specs.Key.{all_words, frame_words as frame_words_of, is_lanes, pages_of};

use crate::key::{About, Role, Turn};
use crate::rest::Rest;
use crate::rule::TurnRule;
use crate::views::{Lodged, View};
use atomic_table::Table;
use bc_frames::Opens;
use std::alloc::Global;

/// The pages of a heap during a turn: each in its place or in one worker's hands.
pub struct Pins {
    pub(crate) table: Table<Lodged, View, About, TurnRule, Global>,
    /// The space's parts without the boxes that are in the table.
    pub(crate) rest: Rest,
    /// How many superpages the table has.
    pub(crate) superpages: usize,
    pub(crate) turn: Turn,
    pub(crate) frame_words: u32,
    ghost words: { table.shared.table_id.words ≡ all_words table.shared.key },
    ghost slots: { table.shared.table_id.slots ≡ pages_of table.shared.key + pages_of table.shared.key },
    ghost few: { pages_of table.shared.key < 2 ^ 32 },
    ghost counted: { superpages ≡ table.shared.key.supers },
    ghost inside: { table.shared.key.supers ≤ superpages_of table.shared.key.opening },
    ghost turned: { is_lanes turn ≡ table.shared.key.lanes },
    ghost framed: { frame_words ≡ frame_words_of table.shared.key },
    ghost frames: { table.shared.key.frames ≡ length table.shared.key.pool },
    ghost unheld: { IsUnheld table.shared.key },
    ghost markable: { table.shared.key.lanes ≡ false → IsMarkable table.shared.key.opening },
    ghost apart: { (r : ℕ) → times r table.shared.key.roles ≤ 1 },
    ghost paged: { rest.pages ≡ pages_of table.shared.key },
    ghost opened: { parts_layout rest.whole ≡ table.shared.key.opening },
    ghost pooled: { rest.whole.pool ≡ table.shared.key.pool },
    ghost young: { rest.whole.nursery.items ≡ table.shared.key.nursery },
}

/// A worker's place at the table, with its role. It can't be dropped: the table takes it back when it is closed.
pub struct Seat {
    pub(crate) inner: atomic_table::Seat<Lodged, View>,
    pub(crate) role: Role,
    /// How many boxes it has taken out of the store.
    pub(crate) opens: Opens,
    ghost tidy: { IsTidy inner.me.0 },
}

impl Seat {
    ghost use Rattle.std.specs.Prelude.{◌≡◌};

    /// What its holder may do.
    pub fn role(&self) -> Role
        ensures role { result ≡ self.now.role }
    {
        self.role
    }
}
