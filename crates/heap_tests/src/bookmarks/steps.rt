//! Steps of a sound space.

use crate::bookmarks::sound::Sound;
use crate::steps::{Trial, passes_on};
use bc_bookmarks::Ineligible;
use bc_superpages::PageState;
use bc_word::Address;
use std::alloc::Global;
use std::test::Fail;

/// A call with what it is to return, or what is to be found in the space.
#[derive(Clone, Copy)]
pub(crate) enum Step {
    /// A new object of a domain lies here, and its page is brought home.
    Make(u32, Address),
    /// A cell of a domain is promised here.
    Promise(u32, Address),
    /// An Absent page is brought home.
    Open(u32),
    /// An object is placed in a promised cell.
    Place(Address),
    /// This field of an object refers to another object from now on.
    Link(Address, u32, Address),
    /// A Home page is Remembered from now on.
    Remember(u32),
    /// A page is evicted, or why it can't be.
    Evict(u32, Result<(), Ineligible>),
    /// A Gone page is reloaded, if this is true; else there is no frame for it.
    Reload(u32, bool),
    /// With this hint there is a free frame, if this is true.
    Room(u32, bool),
    /// With this hint a page is given up: which one.
    GiveUp(u32, Option<u32>),
    /// So many frames are withheld from now on, if this is true; else a page can't leave, or there are too few frames.
    Withhold(u32, bool),
    /// Bookmarks to which no Gone page leads are cleared.
    Settle,
    /// Whether a page may be evicted.
    Eligible(u32, Result<(), Ineligible>),
    /// Where a page is.
    State(u32, PageState),
    /// How many frames are free.
    Free(u32),
    /// How many pages were read.
    Reads(u64),
    /// How many Gone pages have a target in a superpage.
    Incoming(u32, u64),
    /// Is an object bookmarked?
    Bookmarked(Address, bool),
}

impl Trial for Sound {
    type Step = Step;

    fn goes(&mut self, step: &Step) -> bool {
        match *step {
            Step::Make(domain, cell) => self.make(domain) == Some(cell),
            Step::Promise(domain, cell) => self.promise(domain) == Some(cell),
            Step::Open(page) => self.open_page(page),
            Step::Place(cell) => self.place(cell),
            Step::Link(from, index, to) => self.link(from, index, to),
            Step::Remember(page) => self.remember(page),
            Step::Evict(page, answer) => self.evict(page) == answer,
            Step::Reload(page, answer) => self.reload(page) == answer,
            Step::Room(hint, answer) => self.room(hint) == answer,
            Step::GiveUp(hint, answer) => self.give_up(hint) == answer,
            Step::Withhold(frames, answer) => self.withhold(frames) == answer,
            Step::Settle => {
                self.settle();
                true
            }
            _ => self.shows(step),
        }
    }
}

impl Sound {
    /// Is what a step says found in the space?
    fn shows(&self, step: &Step) -> bool {
        match *step {
            Step::Eligible(page, answer) => self.eligible(page) == Some(answer),
            Step::State(page, answer) => self.state(page) == Some(answer),
            Step::Free(answer) => self.free() == answer,
            Step::Reads(answer) => self.reads() == answer,
            Step::Incoming(superpage, answer) => self.incoming(superpage) == Some(answer),
            Step::Bookmarked(cell, answer) => self.bookmarked(cell) == answer,
            _ => false,
        }
    }
}

/// Does the steps one after another on a new space of so many superpages and frames.
pub(crate) fn passes(
    alloc: Global,
    superpages: u8,
    frames: u32,
    steps: &[Step],
) -> Result<(), Fail> {
    let mut sound = Sound::new(alloc, u32::from(superpages), frames)?;
    passes_on(&mut sound, steps)
}
