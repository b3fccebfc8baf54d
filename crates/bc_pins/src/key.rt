//! What a table is made from, once, and where its words and slots lie.

ghost use Rattle.std.specs.Prelude.{◌≡◌, ◌+◌, ◌*◌, ◌/◌, ◌<◌, ◌^◌};
ghost use Rattle.bc_pins.specs.Key.{page_at, home_slot};

use bc_classes::SUPERPAGE_PAGES;
use bc_frames::{Frame, FramePool};
use bc_model::Holder;
use bc_superpages::Space;
use std::marker::Model;
use std::snapshot::Snapshot;

/// Who works in a turn.
#[derive(Clone, Copy, PartialEq, Eq, Debug)]
pub enum Turn {
    /// Lanes, which change their own pages.
    Lanes,
    /// Markers, which change no page.
    Mark,
}

/// What the holder of a seat may do.
#[derive(Clone, Copy, PartialEq, Eq, Debug)]
pub enum Role {
    /// This lane: it changes pages of the domains that it holds.
    Lane(u32),
    /// A marker of a mark turn.
    Marker(u32),
    /// A pager: it takes pages to give them up.
    Pager(u32),
}

/// What a table is made from: its size, the turn, the space at the opening, who holds what. Contracts see it as a key.
#[derive(Drop)]
pub struct About {
    /// How many superpages the table has: those up to the last that has a page which isn't Absent.
    pub superpages: usize,
    /// All frames of the heap.
    pub frames: usize,
    pub pool: Snapshot<FramePool>,
    pub turn: Turn,
    pub opening: Snapshot<Space>,
    /// By domain, who holds it.
    pub holders: Snapshot<Vec<Holder>>,
    pub roles: Snapshot<Vec<Role>>,
    pub nursery: Snapshot<Vec<Frame>>,
}

/// The pages of a superpage.
pub(crate) const PAGES: usize = SUPERPAGE_PAGES as usize;

/// The words that a superpage's pages have in a table: one for each page, then twelve that nobody uses.
pub(crate) const PAGE_ENTRIES: usize = 16;

/// The words of a set of a superpage's cells: those bookmarked, marked, or finished.
pub(crate) const SET_WORDS: usize = 16;

/// The slots that a superpage's pages have in a table: two for each page.
pub(crate) const PAGE_SLOTS: usize = 2 * PAGES;

/// How many words a table has before the counters, for each superpage.
const COUNTERS: usize = PAGE_ENTRIES;

/// How many it has before the bookmark words: each superpage has one counter.
const BOOKMARKS: usize = COUNTERS + 1;

/// How many it has before the frame words.
const FRAMES: usize = BOOKMARKS + SET_WORDS;

/// Where a page's word lies among the words of a table.
pub(crate) fn page_entry(page: usize) -> usize
    requires { page < 2 ^ 32 }
    ensures { result ≡ page_at page }
{
    PAGE_ENTRIES * (page / PAGES) + page % PAGES
}

/// Where a superpage's counter lies among the words of a table of so many superpages.
pub(crate) fn counter_entry(superpage: usize, superpages: usize) -> usize
    requires { (superpage < 2 ^ 32) × (superpages < 2 ^ 32) }
    ensures { result ≡ 16 * superpages + superpage }
{
    COUNTERS * superpages + superpage
}

/// Where a bookmark word lies among the words of a table of so many superpages, each of which has sixteen.
pub(crate) fn bookmark_entry(word: usize, superpages: usize) -> usize
    requires { (word < 2 ^ 32) × (superpages < 2 ^ 32) }
    ensures { result ≡ 17 * superpages + word }
{
    BOOKMARKS * superpages + word
}

/// Where a word of frames lies among the words of a table of so many superpages.
pub(crate) fn frame_entry(word: usize, superpages: usize) -> usize
    requires { (word < 2 ^ 32) × (superpages < 2 ^ 32) }
    ensures { result ≡ 33 * superpages + word }
{
    FRAMES * superpages + word
}

/// Where the word of the next notice lies among them: behind the frame words.
pub(crate) fn notice_entry(superpages: usize, frame_words: usize) -> usize
    requires { (superpages < 2 ^ 32) × (frame_words < 2 ^ 32) }
    ensures { result ≡ 33 * superpages + frame_words }
{
    frame_entry(frame_words, superpages)
}

/// Where a mark word lies among the words of a table of so many superpages and frame words, in a mark turn.
pub(crate) fn mark_entry(word: usize, superpages: usize, frame_words: usize) -> usize
    requires { (word < 2 ^ 32) × (superpages < 2 ^ 32) × (frame_words < 2 ^ 32) }
    ensures { result ≡ 33 * superpages + frame_words + 1 + word }
{
    FRAMES * superpages + frame_words + 1 + word
}

/// Where a finished word lies among them.
pub(crate) fn finished_entry(word: usize, superpages: usize, frame_words: usize) -> usize
    requires { (word < 2 ^ 32) × (superpages < 2 ^ 32) × (frame_words < 2 ^ 32) }
    ensures { result ≡ 49 * superpages + frame_words + 1 + word }
{
    (FRAMES + SET_WORDS) * superpages + frame_words + 1 + word
}

/// Where the queue word of a superpage lies among them.
pub(crate) fn queue_entry(superpage: usize, superpages: usize, frame_words: usize) -> usize
    requires { (superpage < 2 ^ 32) × (superpages < 2 ^ 32) × (frame_words < 2 ^ 32) }
    ensures { result ≡ 65 * superpages + frame_words + 1 + superpage }
{
    (FRAMES + 2 * SET_WORDS) * superpages + frame_words + 1 + superpage
}

/// How many words so many bits take.
pub(crate) fn bit_words(bits: usize) -> usize
    ensures { result ≡ (bits + 63) / 64 }
{
    bits.div_ceil(u64::BITS as usize)
}

/// Where the slot for a page's frame lies among the slots of a table.
pub(crate) fn home_entry(page: usize) -> usize
    requires { page < 2 ^ 32 }
    ensures { result ≡ home_slot page }
{
    PAGE_SLOTS * (page / PAGES) + page % PAGES
}

/// Where the slot for a page's place in the store lies among the slots of a table.
pub(crate) fn store_entry(page: usize) -> usize
    requires { page < 2 ^ 32 }
    ensures { result ≡ home_slot page + 4 }
{
    home_entry(page) + PAGES
}

impl Model for About {
    ghost use Rattle.std.specs.Prelude.{map};
    ghost use Rattle.bc_pins.specs.Key.{Key, is_lanes, owner_role, role_number};

    ghost Value = { Key };

    ghost view = { λ a. record {
      supers = a.superpages;
      frames = a.frames;
      pool = a.pool.value;
      lanes = is_lanes a.turn;
      opening = a.opening.value;
      owners = map owner_role a.holders.value.items;
      roles = map role_number a.roles.value.items;
      nursery = a.nursery.value.items;
    } };
}
