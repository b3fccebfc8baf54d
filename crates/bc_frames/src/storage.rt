//! The store, where the boxes of pages lie that aren't resident.

ghost use Rattle.std.specs.Prelude.{◌≡◌, ◌+◌, ◌-◌, ◌^◌, ◌<◌, Some, None, [], length, min, slice_set, replicate, IfOk, IsSome};
ghost use Rattle.bc_frames.specs.Places.{StoreView, place_at, one_more};

use crate::pages::Page;
use crate::rows::Rows;
use crate::shutting::{Opens, Shut};
use std::alloc::{AllocError, Global};
use std::marker::Model;
use std::mem;

/// What lies in a page's place.
#[derive(Drop)]
pub(crate) enum Place {
    /// Nothing.
    Empty,
    /// Zeros: the page was never used, so it has no box yet.
    Unused,
    /// The page's box.
    Full(Page),
}

/// A place for the box of each page that isn't resident, by the page's number.
#[derive(Drop)]
pub struct Store {
    places: Vec<Place>,
    reads: u64,
    /// The boxes of pages that were never used.
    rows: Rows,
}

impl Model for Store {
    ghost use Rattle.std.specs.Prelude.{map};
    ghost use Rattle.bc_frames.specs.Places.{StoreView};

    ghost Value = { StoreView };

    ghost use Rattle.bc_frames.specs.Lying.{lying_in, HasPages};

    ghost view = { λ s. record { places = map lying_in s.places.items; reads = s.reads } };

    ghost invariant = { λ s. HasPages s.places.items s.rows };
}

impl Store {
    /// A store with a box of zeros in the place of each page.
    pub fn new(alloc: Global, pages: u32) -> Result<Self, AllocError>
        ensures zeros { IfOk result (λ store. store ≡ record { places = replicate pages (Some (replicate 512 0)); reads = 0 }) }
    {
        let mut places = Vec::with_capacity(alloc, pages as usize)?;
        for _page in 0..pages {
            places.push_reserved(Place::Unused);
        }
        let rows = Rows::new(alloc, pages)?;
        Ok(Store {
            places,
            reads: 0,
            rows,
        })
    }

    /// A store of no pages. It takes no memory.
    pub fn empty(alloc: Global) -> Self
        ensures none { result ≡ record { places = []; reads = 0 } }
    {
        Store {
            places: Vec::new(alloc),
            reads: 0,
            rows: Rows::empty(alloc),
        }
    }

    /// Puts the box of a page into its place, which is empty.
    #[tactic(auto, using(crate::proofs::LyingLemmas::lying_set, crate::proofs::LyingLemmas::lying_at))]
    pub fn put(&mut self, page: u32, content: Page)
        requires page { page < length self.old.places }
        requires empty { place_at self.old page ≡ None }
        ensures put { self.new ≡ record self.old { places = slice_set self.old.places page (Some content.entry) } }
    {
        self.places[page as usize] = Place::Full(content);
    }

    /// Takes the box of a page out of its place, which is full, and counts a read.
    pub fn take_back(&mut self, page: u32) -> Page
        requires page { page < length self.old.places }
        requires full { IsSome (place_at self.old page) }
        ensures content { place_at self.old page ≡ Some result }
        ensures taken { self.new
            ≡ record self.old {
              places = slice_set self.old.places page None;
              reads = one_more self.old.reads;
            } }
    {
        self.reads = self.reads.saturating_add(1);
        self.remove(page)
    }

    /// Takes the box of a page out of its place, which is full, and fills it with zeros. That is no read.
    #[tactic(auto, using(crate::proofs::LyingLemmas::lying_set, crate::proofs::LyingLemmas::lying_at))]
    pub fn take_blank(&mut self, page: u32) -> Page
        requires page { page < length self.old.places }
        requires full { IsSome (place_at self.old page) }
        ensures zeros { result ≡ replicate 512 0 }
        ensures taken { self.new ≡ record self.old { places = slice_set self.old.places page None } }
    {
        match mem::replace(&mut self.places[page as usize], Place::Empty) {
            Place::Full(mut content) => {
                content.clear();
                content
            }
            Place::Unused => self.rows.take(),
            Place::Empty => unreachable!(),
        }
    }

    /// Takes the box of a page out of its place, which is full, and leaves it shut. That is no read.
    pub fn lift(&mut self, page: u32) -> Shut
        requires page { page < length self.old.places }
        requires full { IsSome (place_at self.old page) }
        ensures content { place_at self.old page ≡ Some result }
        ensures lifted { self.new ≡ record self.old { places = slice_set self.old.places page None } }
    {
        self.remove(page).shut()
    }

    /// Puts the shut box of a page into its place, which is empty.
    #[tactic(auto, using(crate::proofs::LyingLemmas::lying_set, crate::proofs::LyingLemmas::lying_at))]
    pub fn lower(&mut self, page: u32, shut: Shut)
        requires page { page < length self.old.places }
        requires empty { place_at self.old page ≡ None }
        ensures lowered { self.new ≡ record self.old { places = slice_set self.old.places page (Some shut.entry) } }
    {
        self.places[page as usize] = Place::Full(shut.into_page());
    }

    /// Counts as reads the boxes that were opened.
    pub fn count(&mut self, opens: Opens)
        ensures counted { self.new ≡ record self.old { reads = min (self.old.reads + opens) (2 ^ 64 - 1) } }
    {
        self.reads = self.reads.saturating_add(opens.spend());
    }

    /// How many pages were read back. The count stays at the last value of 64 bits.
    pub fn reads(&self) -> u64
        ensures reads { result ≡ self.now.reads }
    {
        self.reads
    }

    /// Takes the box of a page out of its place, which is full.
    #[tactic(auto, using(crate::proofs::LyingLemmas::lying_set, crate::proofs::LyingLemmas::lying_at))]
    fn remove(&mut self, page: u32) -> Page
        requires page { page < length self.old.places }
        requires full { IsSome (place_at self.old page) }
        ensures content { place_at self.old page ≡ Some result }
        ensures removed { self.new ≡ record self.old { places = slice_set self.old.places page None } }
    {
        match mem::replace(&mut self.places[page as usize], Place::Empty) {
            Place::Full(content) => content,
            Place::Unused => self.rows.take(),
            Place::Empty => unreachable!(),
        }
    }
}
