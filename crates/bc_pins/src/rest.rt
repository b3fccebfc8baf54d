//! What is left of a space's parts while its pages are in a table.

ghost use Rattle.std.specs.Prelude.{◌≡◌, ℕ, ◌+◌, ◌*◌, ◌%◌, ◌^◌, ◌<◌, ◌≤◌, [], None, false, length, slice_index_or, vec_capacity};
ghost use Rattle.core.specs.Mem.Slots.{slots_items, slots_filled, slots_len, IsFull};
ghost use Rattle.bc_superpages.specs.Parts.{AreParts};
ghost use Rattle.bc_frames.specs.Places.{place_at};
ghost use Rattle.bc_pins.specs.declared.views.Lodged.TheVariants.{Nothing};
ghost use Rattle.bc_pins.specs.Key.{home_slot};
ghost use Rattle.bc_pins.specs.Lodging.{Replaced, box_of, place_of};
ghost use Rattle.bc_pins.specs.Opening.{Emptied, AreLodged, SameParts};

use crate::lodging::{lodge_pages, put_all_back, take_all_back};
use crate::views::Lodged;
use atomic_table::Closed;
use bc_superpages::SpaceParts;
use std::alloc::Global;
use std::marker::Model;
use std::snapshot::Snapshot;

/// A space's parts without the boxes of so many pages, and what the parts were. Contracts see all three.
#[derive(Drop)]
pub struct Rest {
    pub(crate) parts: SpaceParts,
    pub(crate) whole: Snapshot<SpaceParts>,
    pub(crate) pages: usize,
}

impl Model for Rest {
    ghost use Rattle.bc_pins.specs.Resting.{RestView};
    ghost use Rattle.bc_pins.specs.Opening.{IsRest};

    ghost Value = { RestView };

    ghost view = { λ r. record { parts = r.parts; whole = r.whole.value; pages = r.pages } };

    ghost invariant = { λ r. IsRest r.whole.value r.parts r.pages };
}

impl Rest {
    ghost use Rattle.bc_pins.specs.Opening.{IsRest};

    /// What holds of it.
    pub(crate) fn facts(&self)
        ensures kept { IsRest self.now.whole self.now.parts self.now.pages }
    {
        let _parts = &self.parts;
    }
}

/// Moves the boxes of so many pages into slots.
pub(crate) fn lodge_all(parts: &mut SpaceParts, pages: usize, slots: &mut Vec<Lodged>)
    requires kept { AreParts parts.old }
    requires pages { (pages ≤ 4 * length parts.old.headers.items) × (pages % 4 ≡ 0) }
    requires none { slots.old.items ≡ [] }
    requires room { pages + pages ≤ vec_capacity slots.old }
    ensures emptied { Emptied parts.old parts.new pages }
    ensures slots { AreLodged parts.old pages slots.new.items }
{
    lodge_pages(&mut parts.boxes, &mut parts.store, pages, slots);
}

/// Moves them back, where no table could be made.
pub(crate) fn restore(
    parts: &mut SpaceParts,
    whole: &Snapshot<SpaceParts>,
    pages: usize,
    slots: Vec<Lodged>,
)
    requires kept { AreParts whole.now.value }
    requires pages { (pages ≤ 4 * length whole.now.value.headers.items) × (pages % 4 ≡ 0) }
    requires emptied { Emptied whole.now.value parts.old pages }
    requires slots { AreLodged whole.now.value pages slots.items }
    ensures same { SameParts whole.now.value parts.new }
{
    let _ = whole;
    put_all_back(&mut parts.boxes, &mut parts.store, pages, slots);
}

/// Puts the boxes of so many pages back into their lists, out of the slots of the table that is closed.
pub(crate) fn put_boxes_back(
    parts: &mut SpaceParts,
    pages: usize,
    closed: &mut Closed<Lodged, Global>,
)
    requires pages { (pages ≤ length parts.old.boxes.items) × (pages ≤ length parts.old.store.places) × (pages < 2 ^ 32) × (pages % 4 ≡ 0) }
    requires slots { IsFull closed.old.slots × (slots_len closed.old.slots ≡ pages + pages) }
    requires empty { (p : ℕ) → p < pages → place_at parts.old.store p ≡ None }
    ensures boxes { Replaced None parts.old.boxes.items parts.new.boxes.items pages (λ p. box_of (slice_index_or (slots_items closed.old.slots) (home_slot p) Nothing)) }
    ensures places { Replaced None parts.old.store.places parts.new.store.places pages (λ p. place_of (slice_index_or (slots_items closed.old.slots) (home_slot p + 4) Nothing)) }
    ensures same { parts.new ≡ record parts.old { boxes = parts.new.boxes; store = record parts.old.store { places = parts.new.store.places } } }
    ensures words { closed.new.words ≡ closed.old.words }
    ensures emptied { (k : ℕ) → k < slots_len closed.new.slots → slice_index_or (slots_filled closed.new.slots) k false ≡ false }
{
    take_all_back(&mut parts.boxes, &mut parts.store, pages, closed);
}
