//! The mature cells that a lane has in hand in a turn: those of the page that it took.

ghost use Rattle.bc_lane.specs.Shown.{HasPage, IsOwnPage, ShowsPages};

use crate::stations::Station;
use bc_mutator::Cells;
use bc_pins::Held;
use bc_word::{Address, Head, Word, pack, unpack, unpack_head};
use std::marker::PhantomData;

/// The cells of the page in hand, if there is one. They may belong to each space that has of every page that the lane may read what is
/// at the table or in hand.
pub(crate) struct PinnedCells<S> {
    pub(crate) hand: Option<Held>,
    /// Where the superpages end, as an address in words.
    pub(crate) end: u32,
    pub(crate) of: PhantomData<S>,
}

impl<S: Station> Cells for PinnedCells<S> {
    ghost shows = { λ cells s. ShowsPages S.view cells.hand cells.end s };

    ghost at_hand = { λ cells page. HasPage cells.hand page };

    // A page of a frozen domain is read alone.
    ghost is_own = { λ cells page. HasPage cells.hand page × IsOwnPage S.view page };

    ghost knows = { λ cells page. HasPage cells.hand page };

    fn end(&self) -> u32 {
        self.end
    }

    fn domain(&self, cell: Address) -> u32 {
        self.head(cell).domain
    }

    fn head(&self, cell: Address) -> Head {
        match &self.hand {
            Some(held) => unpack_head(held.word(cell.offset())),
            None => unreachable!(),
        }
    }

    fn field(&self, cell: Address, index: u32) -> Word {
        match &self.hand {
            Some(held) => unpack(held.word(cell.offset() + 1 + index)),
            None => unreachable!(),
        }
    }

    fn set_field(&mut self, cell: Address, index: u32, word: Word) {
        match &mut self.hand {
            Some(held) => held.set(cell.offset() + 1 + index, pack(word)),
            None => unreachable!(),
        }
    }

    fn remember(&mut self, _page: u32) {
        match &mut self.hand {
            Some(held) => held.remember(),
            None => unreachable!(),
        }
    }
}
