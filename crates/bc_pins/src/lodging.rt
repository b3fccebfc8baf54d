//! Boxes that move from a space's lists into the slots of a table, and back.

ghost use Rattle.std.specs.Prelude.{◌≡◌, ℕ, ◌+◌, ◌*◌, ◌%◌, ◌^◌, ◌<◌, ◌≤◌, [], Option, Some, None, false, length, slice_index_or, slice_set, vec_capacity};
ghost use Rattle.core.specs.Mem.Slots.{slots_items, slots_filled, slots_len, IsFull};
ghost use Rattle.bc_frames.specs.Places.{place_at};
ghost use Rattle.bc_pins.specs.declared.views.Lodged.TheVariants.{Nothing};
ghost use Rattle.bc_pins.specs.Key.{home_slot};
ghost use Rattle.bc_pins.specs.Lodging.{Replaced, AreOut, LiesOnce, home_of, away_of, box_of, place_of};

use crate::key::{PAGE_SLOTS, PAGES, home_entry, store_entry};
use crate::views::Lodged;
use atomic_table::Closed;
use bc_frames::Store;
use bc_superpages::Homed;
use std::alloc::Global;
use std::mem;

/// What a box becomes in a frame slot.
fn lodge(home: Option<Homed>) -> Lodged
    ensures lodged { result ≡ home_of home.entry }
{
    match home {
        Some(homed) => Lodged::Home(homed),
        None => Lodged::Nothing,
    }
}

/// The box that lies in a frame slot.
fn unlodge(slot: Lodged) -> Option<Homed>
    ensures home { result ≡ box_of slot.entry }
{
    match slot {
        Lodged::Home(homed) => Some(homed),
        _ => None,
    }
}

/// What lies in the store slot of a page whose frame slot is this: the box, lifted out of the store, where it isn't home.
fn lift(store: &mut Store, page: usize, frame: &Lodged) -> Lodged
    requires page { page < length store.old.places }
    requires few { page < 2 ^ 32 }
    requires once { LiesOnce frame.now (place_at store.old page) }
    ensures away { result ≡ away_of (place_at store.old page) }
    ensures store { store.new ≡ record store.old { places = slice_set store.old.places page None } }
{
    match frame {
        Lodged::Home(_) => Lodged::Nothing,
        _ => Lodged::Away(store.lift(page as u32)),
    }
}

/// Moves the boxes of so many pages into slots: of each superpage first the four for frames, then the four for the store.
pub(crate) fn lodge_pages(
    boxes: &mut Vec<Option<Homed>>,
    store: &mut Store,
    pages: usize,
    slots: &mut Vec<Lodged>,
)
    requires pages { (pages ≤ length boxes.old.items) × (pages ≤ length store.old.places) × (pages < 2 ^ 32) × (pages % 4 ≡ 0) }
    requires room { pages + pages ≤ vec_capacity slots.old }
    requires none { slots.old.items ≡ [] }
    requires once { (p : ℕ) → p < pages → LiesOnce (home_of (slice_index_or boxes.old.items p None)) (slice_index_or store.old.places p None) }
    ensures lodged { AreOut boxes.old.items store.old.places boxes.new.items store.new.places slots.new.items (2 * pages) }
    ensures store { store.new ≡ record store.old { places = store.new.places } }
{
    for entry in 0..2 * pages {
        let page = PAGES * (entry / PAGE_SLOTS) + entry % PAGES;
        if entry % PAGE_SLOTS < PAGES {
            slots.push_reserved(lodge(boxes[page].take()));
        } else {
            let away = lift(store, page, &slots[entry - PAGES]);
            slots.push_reserved(away);
        }
    }
}

/// Puts the box of a page back, out of its two slots.
pub(crate) fn put_back(
    boxes: &mut Vec<Option<Homed>>,
    store: &mut Store,
    page: usize,
    frame: Lodged,
    away: Lodged,
)
    requires page { (page < length boxes.old.items) × (page < length store.old.places) × (page < 2 ^ 32) }
    requires empty { place_at store.old page ≡ None }
    ensures boxes { boxes.new.items ≡ slice_set boxes.old.items page (box_of frame.entry) }
    ensures store { store.new ≡ record store.old { places = slice_set store.old.places page (place_of away.entry) } }
{
    boxes[page] = unlodge(frame);
    match away {
        Lodged::Away(shut) => store.lower(page as u32, shut),
        _ => {}
    }
}

/// Puts all boxes back, where no table could be made.
pub(crate) fn put_all_back(
    boxes: &mut Vec<Option<Homed>>,
    store: &mut Store,
    pages: usize,
    mut slots: Vec<Lodged>,
)
    requires pages { (pages ≤ length boxes.old.items) × (pages ≤ length store.old.places) × (pages < 2 ^ 32) × (pages % 4 ≡ 0) }
    requires slots { length slots.items ≡ pages + pages }
    requires empty { (p : ℕ) → p < pages → place_at store.old p ≡ None }
    ensures boxes { Replaced None boxes.old.items boxes.new.items pages (λ p. box_of (slice_index_or slots.entry.items (home_slot p) Nothing)) }
    ensures store { store.new ≡ record store.old { places = store.new.places } }
    ensures places { Replaced None store.old.places store.new.places pages (λ p. place_of (slice_index_or slots.entry.items (home_slot p + 4) Nothing)) }
{
    for page in 0..pages {
        let slot = home_entry(page);
        let frame = mem::replace(&mut slots[slot], Lodged::Nothing);
        let away = mem::replace(&mut slots[store_entry(page)], Lodged::Nothing);
        put_back(boxes, store, page, frame, away);
    }
}

/// Puts all boxes back, out of the slots of a table that is closed.
pub(crate) fn take_all_back(
    boxes: &mut Vec<Option<Homed>>,
    store: &mut Store,
    pages: usize,
    closed: &mut Closed<Lodged, Global>,
)
    requires pages { (pages ≤ length boxes.old.items) × (pages ≤ length store.old.places) × (pages < 2 ^ 32) × (pages % 4 ≡ 0) }
    requires slots { IsFull closed.old.slots × (slots_len closed.old.slots ≡ pages + pages) }
    requires empty { (p : ℕ) → p < pages → place_at store.old p ≡ None }
    ensures boxes { Replaced None boxes.old.items boxes.new.items pages (λ p. box_of (slice_index_or (slots_items closed.old.slots) (home_slot p) Nothing)) }
    ensures store { store.new ≡ record store.old { places = store.new.places } }
    ensures places { Replaced None store.old.places store.new.places pages (λ p. place_of (slice_index_or (slots_items closed.old.slots) (home_slot p + 4) Nothing)) }
    ensures words { closed.new.words ≡ closed.old.words }
    ensures emptied { (k : ℕ) → k < slots_len closed.new.slots → slice_index_or (slots_filled closed.new.slots) k false ≡ false }
{
    for page in 0..pages {
        let frame = closed.take(home_entry(page));
        let away = closed.take(store_entry(page));
        put_back(boxes, store, page, frame, away);
    }
}
