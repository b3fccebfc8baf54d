//! Steps of packing.

use crate::compact::bench::Bench;
use crate::steps::{Trial, passes_on};
use bc_word::Address;
use std::alloc::Global;
use std::test::Fail;

/// A call that is to go well, or what is to be found in the space.
#[derive(Clone, Copy)]
pub(crate) enum Step {
    /// Objects lie in all cells of so many superpages, the first ones.
    Fill(u32),
    /// The cells of a superpage are freed from a number on and below another.
    Free(u32, u32, u32),
    /// An object is bookmarked.
    Bookmark(Address),
    /// A Home page is Remembered from now on.
    Remember(u32),
    /// A resident page is Gone from now on.
    Leave(u32),
    /// The objects are packed.
    Pack,
    /// The allocated cells of a superpage, as sixteen bits.
    Cells(u32, u64),
}

impl Trial for Bench {
    type Step = Step;

    fn goes(&mut self, step: &Step) -> bool {
        match *step {
            Step::Fill(superpages) => self.fill(superpages),
            Step::Free(superpage, from, below) => self.free(superpage, from, below),
            Step::Bookmark(cell) => self.bookmark(cell),
            Step::Remember(page) => self.remember(page),
            Step::Leave(page) => self.leave(page),
            Step::Pack => {
                self.pack();
                true
            }
            Step::Cells(superpage, answer) => self.cells(superpage) == Some(answer),
        }
    }
}

/// Does the steps one after another on a new space of so many superpages.
pub(crate) fn passes(alloc: Global, superpages: u8, steps: &[Step]) -> Result<(), Fail> {
    let mut bench = Bench::new(alloc, u32::from(superpages))?;
    passes_on(&mut bench, steps)
}
