//! The words of a table at its opening.

ghost use Rattle.std.specs.Prelude.{◌≡◌, ℕ, ◌+◌, ◌*◌, ◌/◌, ◌%◌, ◌^◌, ◌<◌, ◌≤◌, ◌++◌, [], length, slice_index, slice_index_or, vec_capacity};
ghost use Rattle.bc_superpages.specs.Headers.{unused_header};
ghost use Rattle.bc_superpages.specs.declared.headers.PageState.TheVariants.{Absent};
ghost use Rattle.bc_pins.specs.Views.{state_word};
ghost use Rattle.bc_pins.specs.Key.{Key, table_words};
ghost use Rattle.bc_pins.specs.Filling.{Extends, AddsFrames, AddsStates, AddsQueues, QueuesGray, IsSized, IsFilled, HasMarkWords, set_in};

use crate::key::{PAGE_ENTRIES, PAGES, SET_WORDS, Turn, bit_words, frame_entry};
use crate::words::word_of;
use bc_frames::FramePool;
use bc_superpages::Header;

/// A queue word with the bits of all four pages.
const ALL_QUEUED: u64 = (1 << PAGES) - 1;

/// Sets of cells that a table has words for.
#[derive(Clone, Copy, PartialEq, Eq, Debug)]
pub(crate) enum CellSet {
    Bookmarks,
    Marks,
    Finished,
}

/// The words of a set of the header.
fn set_words(header: &Header, set: CellSet) -> &[u64; 16]
    ensures words { result.now ≡ set_in set header.now }
{
    match set {
        CellSet::Bookmarks => &header.bookmarks,
        CellSet::Marks => &header.marks,
        CellSet::Finished => &header.finished,
    }
}

/// The words of a superpage's pages, and after them words that nobody uses.
fn page_words(header: &Header) -> [u64; 16]
    ensures pages { (i : ℕ) → i < 4 → slice_index result i ≡ state_word (slice_index_or header.now.pages i Absent) }
{
    let mut words = [0; PAGE_ENTRIES];
    for place in 0..PAGES {
        words[place] = word_of(header.pages[place]);
    }
    words
}

/// Adds sixteen words, for which there is room.
fn push_block(words: &mut Vec<u64>, block: &[u64; 16])
    requires room { length words.old.items + 16 ≤ vec_capacity words.old }
    ensures items { words.new.items ≡ words.old.items ++ block.now }
    ensures long { length words.new.items ≡ length words.old.items + 16 }
    ensures room { vec_capacity words.old ≤ vec_capacity words.new }
{
    let Ok(()) = words.extend_from_slice(block) else {
        unreachable!()
    };
}

/// Adds the words of the pages of so many superpages.
pub(crate) fn push_states(words: &mut Vec<u64>, headers: &[Header], superpages: usize)
    requires superpages { superpages ≤ length headers.now }
    requires few { superpages ≤ 4096 }
    requires room { length words.old.items + 16 * superpages ≤ vec_capacity words.old }
    ensures added { AddsStates headers.now words.old.items words.new.items superpages }
    ensures room { vec_capacity words.old ≤ vec_capacity words.new }
{
    for superpage in 0..superpages {
        push_block(words, &page_words(&headers[superpage]));
    }
}

/// Adds the counters of so many superpages.
pub(crate) fn push_counters(words: &mut Vec<u64>, headers: &[Header], superpages: usize)
    requires superpages { superpages ≤ length headers.now }
    requires room { length words.old.items + superpages ≤ vec_capacity words.old }
    ensures added { Extends words.old.items words.new.items superpages (λ q. (slice_index_or headers.now q unused_header).incoming) }
    ensures room { vec_capacity words.new ≡ vec_capacity words.old }
{
    for superpage in 0..superpages {
        words.push_reserved(headers[superpage].incoming);
    }
}

/// Adds the sixteen words of a set of so many superpages.
pub(crate) fn push_sets(words: &mut Vec<u64>, headers: &[Header], superpages: usize, set: CellSet)
    requires superpages { superpages ≤ length headers.now }
    requires few { superpages ≤ 4096 }
    requires room { length words.old.items + 16 * superpages ≤ vec_capacity words.old }
    ensures added { Extends words.old.items words.new.items (16 * superpages) (λ w. slice_index (set_in set (slice_index_or headers.now (w / 16) unused_header)) (w % 16)) }
    ensures room { vec_capacity words.old ≤ vec_capacity words.new }
{
    for superpage in 0..superpages {
        push_block(words, set_words(&headers[superpage], set));
    }
}

/// The queue word of a superpage: the bits of all its pages where it has a gray cell, and else 0. A gray cell is allocated, marked and
/// not finished.
fn queue_word(header: &Header) -> u64
    ensures gray { QueuesGray header.now result }
{
    for word in 0..SET_WORDS {
        let marked = header.marks[word] & header.cells[word];
        let finished = marked & header.finished[word];
        if finished != marked {
            return ALL_QUEUED;
        }
    }
    0
}

/// Adds the queue words of so many superpages.
fn push_queues(words: &mut Vec<u64>, headers: &[Header], superpages: usize)
    requires superpages { superpages ≤ length headers.now }
    requires room { length words.old.items + superpages ≤ vec_capacity words.old }
    ensures added { AddsQueues headers.now words.old.items words.new.items superpages }
    ensures room { vec_capacity words.new ≡ vec_capacity words.old }
{
    for superpage in 0..superpages {
        words.push_reserved(queue_word(&headers[superpage]));
    }
}

/// Adds so many words that are 0.
pub(crate) fn push_zeros(words: &mut Vec<u64>, count: usize)
    requires room { length words.old.items + count ≤ vec_capacity words.old }
    ensures added { Extends words.old.items words.new.items count (λ w. 0) }
    ensures room { vec_capacity words.new ≡ vec_capacity words.old }
{
    for _word in 0..count {
        words.push_reserved(0);
    }
}

/// Adds so many words of frames.
pub(crate) fn push_frames(words: &mut Vec<u64>, pool: &FramePool, count: usize)
    requires few { count < 2 ^ 32 }
    requires room { length words.old.items + count ≤ vec_capacity words.old }
    ensures added { AddsFrames pool.now words.old.items words.new.items count }
    ensures room { vec_capacity words.new ≡ vec_capacity words.old }
{
    for word in 0..count {
        words.push_reserved(pool.word(word as u32));
    }
}

/// How many words a table has.
pub(crate) fn word_count(superpages: usize, frames: usize, turn: Turn) -> usize
    requires { (superpages ≤ 4096) × (frames < 2 ^ 32) }
    ensures { result ≡ table_words superpages frames turn }
{
    let lanes = frame_entry(bit_words(frames), superpages) + 1;
    match turn {
        Turn::Lanes => lanes,
        Turn::Mark => lanes + (2 * SET_WORDS + 1) * superpages,
    }
}

/// Adds all words of a table of so many superpages.
pub(crate) fn fill_words(
    words: &mut Vec<u64>,
    headers: &[Header],
    superpages: usize,
    pool: &FramePool,
    turn: Turn,
)
    requires size { (superpages ≤ 4096) × (superpages ≤ length headers.now) × (length pool.now < 2 ^ 32) }
    requires none { words.old.items ≡ [] }
    requires room { table_words superpages (length pool.now) turn ≤ vec_capacity words.old }
    ensures filled { (k : Key) → IsSized k superpages pool.now turn → IsFilled k headers.now words.new.items }
{
    let frames = pool.frames() as usize;
    push_states(words, headers, superpages);
    push_counters(words, headers, superpages);
    push_sets(words, headers, superpages, CellSet::Bookmarks);
    push_frames(words, pool, bit_words(frames));
    push_zeros(words, 1);
    match turn {
        Turn::Lanes => {}
        Turn::Mark => fill_marks(words, headers, superpages),
    }
}

/// Adds the words that a mark turn has besides.
fn fill_marks(words: &mut Vec<u64>, headers: &[Header], superpages: usize)
    requires size { (superpages ≤ 4096) × (superpages ≤ length headers.now) }
    requires room { length words.old.items + 33 * superpages ≤ vec_capacity words.old }
    ensures filled { HasMarkWords headers.now superpages words.old.items words.new.items }
{
    push_sets(words, headers, superpages, CellSet::Marks);
    push_sets(words, headers, superpages, CellSet::Finished);
    push_queues(words, headers, superpages);
}
