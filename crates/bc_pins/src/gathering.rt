//! All seats joined into one, and what the words of a table that is closed say of headers and frames.

ghost use Rattle.std.specs.Prelude.{◌≡◌, ℕ, ◌+◌, ◌-◌, ◌*◌, ◌/◌, ◌%◌, ◌^◌, ◌<◌, ◌≤◌, ◌≢◌, ◌==◌, false, [], length, min, slice_index, slice_index_or};
ghost use Rattle.std.specs.Int.{bit_at};
ghost use Rattle.bc_frames.specs.Pool.{is_free};
ghost use Rattle.core.specs.Mem.Slots.{slots_items, slots_len, IsFull};
ghost use Rattle.bc_superpages.specs.Headers.{unused_header};
ghost use Rattle.bc_superpages.specs.Kept.{IsCellSet};
ghost use Rattle.bc_pins.specs.Key.{page_at, is_lanes};
ghost use Rattle.bc_pins.specs.Totals.{times};
ghost use Rattle.bc_pins.specs.Closing.{AreBack, Gathered, PagesSet, SummarySet, MarksSet, HeaderSet, HeadersBelow, IsWritable, PoolSet, fetches_of};

use crate::key::{
    About, PAGES, SET_WORDS, Turn, bit_words, bookmark_entry, counter_entry, page_entry,
};
use crate::pins::Seat;
use crate::rule::{TurnRule, Unite};
use crate::views::{Lodged, View};
use crate::words::state_of;
use atomic_table::{Closed, Shared};
use bc_frames::{FramePool, Store};
use bc_superpages::Header;
use std::alloc::Global;

type Board = Shared<Lodged, View, About, TurnRule>;

type Worker = atomic_table::Seat<Lodged, View>;

/// Joins all seats into the last one, and counts the pages that they took from Gone as reads of the store.
pub(crate) fn unite_all(board: &Board, mut seats: Vec<Seat>, store: &mut Store) -> Worker
    requires words { 0 < board.now.table_id.words }
    requires apart { (r : ℕ) → times r board.now.key.roles ≤ 1 }
    requires back { AreBack board.now.table_id board.now.key seats.items }
    ensures gathered { Gathered board.now.table_id board.now.key seats.items [] result }
    ensures store { store.new ≡ record store.old { reads = min (store.old.reads + fetches_of seats.items) (2 ^ 64 - 1) } }
{
    let mut root = match seats.pop() {
        Some(seat) => let_go(seat, store),
        None => unreachable!(),
    };
    while let Some(seat) = seats.pop() {
        let other = let_go(seat, store);
        board.join_seat::<Unite>(&mut root, other);
    }
    seats.destroy_empty();
    root
}

/// The seat at the table, once the boxes that it opened are counted.
fn let_go(seat: Seat, store: &mut Store) -> Worker
    ensures worker { result ≡ seat.inner }
    ensures store { store.new ≡ record store.old { reads = min (store.old.reads + seat.opens) (2 ^ 64 - 1) } }
{
    let Seat {
        inner,
        role: _,
        opens,
    } = seat;
    store.count(opens);
    inner
}

/// Writes into a header what the words say of its superpage's pages.
fn set_states(header: &mut Header, closed: &Closed<Lodged, Global>, superpage: usize)
    requires superpage { superpage < 4096 }
    requires words { IsFull closed.now.words × (16 * superpage + 16 ≤ slots_len closed.now.words) }
    requires four { length header.old.pages ≡ 4 }
    requires few { (i : ℕ) → i < 4 → slice_index (slots_items closed.now.words) (16 * superpage + i) ≤ 4 }
    ensures set { PagesSet header.old header.new superpage (slots_items closed.now.words) 4 }
{
    let first = PAGES * superpage;
    for place in 0..PAGES {
        header.pages[place] = state_of(closed.word(page_entry(first + place)));
    }
}

/// Writes into a header what the words say of its superpage's bookmarks and counter.
fn set_summary(
    header: &mut Header,
    closed: &Closed<Lodged, Global>,
    superpage: usize,
    superpages: usize,
)
    requires superpage { (superpage < superpages) × (superpages ≤ 4096) }
    requires words { IsFull closed.now.words × (33 * superpages ≤ slots_len closed.now.words) }
    requires sixteen { IsCellSet header.old.bookmarks }
    ensures set { SummarySet header.old header.new superpage superpages (slots_items closed.now.words) 16 }
{
    header.incoming = closed.word(counter_entry(superpage, superpages));
    let first = SET_WORDS * superpage;
    for word in 0..SET_WORDS {
        header.bookmarks[word] = closed.word(bookmark_entry(first + word, superpages));
    }
}

/// Writes into a header the marks and finished cells that the words hold of its superpage from a place on.
fn set_header_marks(
    header: &mut Header,
    closed: &Closed<Lodged, Global>,
    superpage: usize,
    superpages: usize,
    start: usize,
)
    requires superpage { (superpage < superpages) × (superpages ≤ 4096) × (start < 2 ^ 33) }
    requires words { IsFull closed.now.words × (start + 32 * superpages ≤ slots_len closed.now.words) }
    requires sixteen { IsCellSet header.old.marks × IsCellSet header.old.finished }
    ensures set { MarksSet header.old header.new superpage superpages start (slots_items closed.now.words) 16 }
{
    let first = SET_WORDS * superpage;
    for word in 0..SET_WORDS {
        header.marks[word] = closed.word(start + (first + word));
        header.finished[word] = closed.word(start + (SET_WORDS * superpages + (first + word)));
    }
}

/// Writes into a header what the words say of its superpage: of its pages, its counter and bookmarks, and in a mark turn of the marks and
/// finished cells, which the words hold from a place on.
fn set_header(
    header: &mut Header,
    closed: &Closed<Lodged, Global>,
    superpage: usize,
    superpages: usize,
    start: usize,
    turn: Turn,
)
    requires superpage { (superpage < superpages) × (superpages ≤ 4096) × (start < 2 ^ 33) }
    requires words { IsFull closed.now.words × (33 * superpages ≤ slots_len closed.now.words) × (is_lanes turn ≡ false → start + 32 * superpages ≤ slots_len closed.now.words) }
    requires few { (i : ℕ) → i < 4 → slice_index (slots_items closed.now.words) (16 * superpage + i) ≤ 4 }
    requires writable { IsWritable header.old }
    ensures set { HeaderSet header.old header.new superpage superpages start (is_lanes turn) (slots_items closed.now.words) }
{
    set_states(header, closed, superpage);
    set_summary(header, closed, superpage, superpages);
    match turn {
        Turn::Lanes => {}
        Turn::Mark => set_header_marks(header, closed, superpage, superpages, start),
    }
}

/// Writes into the headers of so many superpages what the words say of them.
pub(crate) fn set_headers(
    headers: &mut Vec<Header>,
    closed: &Closed<Lodged, Global>,
    superpages: usize,
    start: usize,
    turn: Turn,
)
    requires superpages { (superpages ≤ length headers.old.items) × (superpages ≤ 4096) × (start < 2 ^ 33) }
    requires words { IsFull closed.now.words × (33 * superpages ≤ slots_len closed.now.words) × (is_lanes turn ≡ false → start + 32 * superpages ≤ slots_len closed.now.words) }
    requires few { (p : ℕ) → p < 4 * superpages → slice_index (slots_items closed.now.words) (page_at p) ≤ 4 }
    requires writable { (q : ℕ) → q < superpages → IsWritable (slice_index_or headers.old.items q unused_header) }
    ensures set { HeadersBelow headers.old.items headers.new.items superpages superpages start (is_lanes turn) (slots_items closed.now.words) }
{
    for superpage in 0..superpages {
        set_header(
            &mut headers[superpage],
            closed,
            superpage,
            superpages,
            start,
            turn,
        );
    }
}

/// Sets in the pool which of 64 frames are free: those whose bits are clear. A word that the pool has so already is left alone.
fn put_frame_word(pool: &mut FramePool, word: u32, bits: u64)
    ensures long { length pool.new ≡ length pool.old }
    ensures here { (f : ℕ) → f / 64 ≡ word → f < length pool.old → is_free pool.new f ≡ (bit_at bits (f % 64) == 0) }
    ensures others { (f : ℕ) → f / 64 ≢ word → is_free pool.new f ≡ is_free pool.old f }
{
    if pool.word(word) != bits {
        pool.put_word(word, bits);
    }
}

/// Sets in the pool which frames are free: those whose bits are clear in the words from a place on.
pub(crate) fn put_frames(pool: &mut FramePool, closed: &Closed<Lodged, Global>, start: usize)
    requires start { start < 2 ^ 32 }
    requires words { IsFull closed.now.words × (start + (length pool.old + 63) / 64 ≤ slots_len closed.now.words) }
    ensures set { PoolSet pool.old pool.new (length pool.old) start (slots_items closed.now.words) }
{
    let count = bit_words(pool.frames() as usize);
    for word in 0..count {
        put_frame_word(pool, word as u32, closed.word(start + word));
    }
}
