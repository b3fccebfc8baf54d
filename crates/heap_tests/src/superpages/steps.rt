//! Steps of a space.

use crate::steps::{Trial, passes_on};
use crate::superpages::calls;
use bc_superpages::{PageState, Space};
use bc_sweep::drop_empty;
use bc_word::{Address, Head, Word};
use std::alloc::Global;
use std::test::Fail;

/// A call with what it is to return, or what is to be found in the space.
#[derive(Clone, Copy)]
pub(crate) enum Step {
    /// A cell of a domain and a class is promised here, or none.
    Promise(u32, u32, Option<Address>),
    /// So many cells of a domain and a class are promised one behind the other from here on.
    Promises(u32, u32, u32, Address),
    /// As `Promise`, also on Gone pages.
    PromiseAnywhere(u32, u32, Option<Address>),
    /// As `Promises`, also on Gone pages.
    PromisesAnywhere(u32, u32, u32, Address),
    /// An Absent page is brought home.
    Open(u32),
    /// A resident page is Gone from now on.
    Leave(u32),
    /// A Gone page is Home from now on, if this is true; else there is no frame for it.
    Return(u32, bool),
    /// The first page is Gone from now on, and the second Home.
    Exchange(u32, u32),
    /// A Home page of a superpage without cells is Absent from now on.
    Discard(u32),
    /// A Gone page of a superpage without cells is Absent from now on.
    DiscardGone(u32),
    /// A Home page is Remembered from now on.
    Remember(u32),
    /// Every Remembered page is Home from now on.
    Unremember,
    /// A cell is bookmarked.
    Bookmark(Address),
    /// No cell of a superpage is bookmarked from now on.
    ClearBookmarks(u32),
    /// One more Gone page refers to a superpage.
    Raise(u32),
    /// One Gone page less refers to a superpage.
    Lower(u32),
    /// Bookmarks of superpages to which no Gone page refers are cleared.
    Settle,
    /// An object whose fields hold 7, nil and 9 is placed in a promised cell.
    PlaceOne(Address),
    /// An object whose fields hold 7, a reference to itself and nil is placed in a promised cell.
    PlaceSelf(Address),
    /// An object without fields is placed in a promised cell.
    PlaceBare(Address),
    /// An object moves to a cell of an empty superpage.
    Move(Address, Address),
    /// A cell is freed.
    FreeCell(Address),
    /// An object is marked.
    Mark(Address),
    /// An object is finished.
    Finish(Address),
    /// No object is marked or finished from now on.
    ClearMarks,
    /// All promises are taken back.
    Withdraw,
    /// All is looked up anew.
    Survey,
    /// The use of empty superpages ends.
    DropEmpty,
    /// A page was used.
    NoteUse(u32),
    /// Which page was used least.
    LeastUsed(u32),
    /// Which page the clock comes to, also while frames are free.
    IdlePage(u32),
    /// So many frames are withheld from now on, if this is true; else there are too few.
    SetWithheld(u32, bool),
    /// The space is taken apart and put together. From this page on all are Absent.
    Reassemble(u32),
    /// How many pages there are.
    Pages(u32),
    /// How many frames are free.
    FreeFrames(u32),
    /// How many frames are withheld.
    Withheld(u32),
    /// How many superpages are empty.
    EmptySuperpages(u32),
    /// How many pages were read.
    Reads(u64),
    /// How many pages left.
    Departures(u64),
    /// Where a page is.
    State(u32, PageState),
    /// Is a page in memory?
    Resident(u32, bool),
    /// Is a superpage of a pair?
    Used(u32, bool),
    /// Has a superpage a bookmark?
    HasBookmarks(u32, bool),
    /// How many Gone pages refer to a superpage.
    Incoming(u32, u64),
    /// What the first word of an object says.
    HeadIs(Address, Head),
    /// What a field holds.
    FieldIs(Address, u32, Word),
    /// The bits of a word.
    WordIs(Address, u64),
    /// Where what lay in a cell was moved to, if it was.
    MovedTo(Address, Option<Address>),
    /// Is an object marked, and is it finished?
    MarkedAndFinished(Address, bool, bool),
}

impl Trial for Space {
    type Step = Step;

    fn goes(&mut self, step: &Step) -> bool {
        match *step {
            Step::Promise(domain, class, cell) => calls::promise(self, domain, class) == cell,
            Step::Promises(count, domain, class, from) => promises(
                self, count, domain, class, from,
            ),
            Step::PromiseAnywhere(domain, class, cell) => {
                calls::promise_anywhere(self, domain, class) == cell
            }
            Step::PromisesAnywhere(count, domain, class, from) => {
                promises_anywhere(self, count, domain, class, from)
            }
            Step::PlaceOne(cell) => calls::place_one(self, cell),
            Step::PlaceSelf(cell) => calls::place_self(self, cell),
            Step::PlaceBare(cell) => calls::place_bare(self, cell),
            Step::Move(from, to) => calls::move_cell(self, from, to),
            Step::FreeCell(cell) => calls::free_cell(self, cell),
            Step::Mark(cell) => calls::mark(self, cell),
            Step::Finish(cell) => calls::finish(self, cell),
            Step::Withdraw => calls::withdraw(self),
            _ => goes_on_pages(self, step),
        }
    }
}

/// The same of calls on pages.
fn goes_on_pages(space: &mut Space, step: &Step) -> bool {
    match *step {
        Step::Open(page) => calls::open_page(space, page),
        Step::Leave(page) => calls::evict_raw(space, page),
        Step::Return(page, answer) => calls::reload_raw(space, page) == Some(answer),
        Step::Exchange(out, back) => calls::exchange(space, out, back),
        Step::Discard(page) => calls::discard_raw(space, page),
        Step::DiscardGone(page) => calls::discard_gone(space, page),
        Step::Remember(page) => calls::remember(space, page),
        Step::Bookmark(cell) => calls::bookmark(space, cell),
        Step::ClearBookmarks(superpage) => calls::clear_bookmarks(space, superpage),
        Step::Raise(superpage) => calls::raise(space, superpage),
        Step::Lower(superpage) => calls::lower(space, superpage),
        Step::LeastUsed(page) => space.least_used() == page,
        Step::IdlePage(page) => space.idle_page() == page,
        Step::SetWithheld(frames, answer) => calls::set_withheld(space, frames) == answer,
        Step::Reassemble(end) => calls::reassemble(space) == end,
        _ => is_done(space, step) || shows(space, step) || shows_objects(space, step),
    }
}

/// Does a call that can't be refused and returns nothing, if the step is one.
fn is_done(space: &mut Space, step: &Step) -> bool {
    match *step {
        Step::Unremember => space.unremember(),
        Step::Settle => space.settle(),
        Step::ClearMarks => space.clear_marks(),
        Step::Survey => space.survey(),
        Step::DropEmpty => drop_empty(space),
        Step::NoteUse(page) => space.note_use(page),
        _ => return false,
    }
    true
}

/// Is what a step says of pages and superpages found in the space?
fn shows(space: &Space, step: &Step) -> bool {
    match *step {
        Step::Pages(answer) => space.pages() == answer,
        Step::FreeFrames(answer) => space.free_frames() == answer,
        Step::Withheld(answer) => space.withheld(0) == answer,
        Step::EmptySuperpages(answer) => space.empty_superpages() == answer,
        Step::Reads(answer) => space.reads() == answer,
        Step::Departures(answer) => space.departures() == answer,
        Step::State(page, answer) => {
            calls::state(space, page) == Some(answer)
                && calls::header_state(space, page) == Some(answer)
        }
        Step::Resident(page, answer) => calls::resident(space, page) == Some(answer),
        Step::Used(superpage, answer) => calls::used(space, superpage) == Some(answer),
        Step::HasBookmarks(superpage, answer) => {
            calls::has_bookmarks(space, superpage) == Some(answer)
        }
        Step::Incoming(superpage, answer) => calls::incoming(space, superpage) == Some(answer),
        _ => false,
    }
}

/// Is what a step says of objects found in the space?
fn shows_objects(space: &Space, step: &Step) -> bool {
    match *step {
        Step::HeadIs(cell, answer) => calls::head(space, cell) == Some(answer),
        Step::FieldIs(cell, index, answer) => calls::field(space, cell, index) == Some(answer),
        Step::WordIs(at, answer) => calls::word(space, at) == Some(answer),
        Step::MovedTo(cell, answer) => calls::moved_to(space, cell) == Some(answer),
        Step::MarkedAndFinished(cell, marked, finished) => {
            calls::marked(space, cell) == Some(marked)
                && calls::finished(space, cell) == Some(finished)
        }
        _ => false,
    }
}

/// Are so many cells promised one behind the other from here on?
fn promises(space: &mut Space, count: u32, domain: u32, class: u32, from: Address) -> bool {
    let mut next = from.0;
    for _cell in 0..count {
        if calls::promise(space, domain, class) != Some(Address(next)) {
            return false;
        }
        next = next.saturating_add(class);
    }
    true
}

/// The same, also on Gone pages.
fn promises_anywhere(
    space: &mut Space,
    count: u32,
    domain: u32,
    class: u32,
    from: Address,
) -> bool {
    let mut next = from.0;
    for _cell in 0..count {
        if calls::promise_anywhere(space, domain, class) != Some(Address(next)) {
            return false;
        }
        next = next.saturating_add(class);
    }
    true
}

/// Does the steps one after another on a new space of so many superpages and frames.
pub(crate) fn passes(
    alloc: Global,
    superpages: u8,
    frames: u32,
    steps: &[Step],
) -> Result<(), Fail> {
    let mut space = Space::new(alloc, u32::from(superpages), frames, 0)?;
    passes_on(&mut space, steps)
}
