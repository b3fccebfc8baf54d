//! What is found in a space.

use crate::steps::Trial;
use bc_superpages::{PageState, Space};
use bc_word::Address;

/// What is to be found in a space.
#[derive(Clone, Copy)]
pub(crate) enum Found {
    /// How many pages there are.
    Pages(u32),
    /// Where a page is.
    State(u32, PageState),
    /// Is a page in memory?
    Resident(u32, bool),
    /// How many frames are free.
    FreeFrames(u32),
    /// How many pages were read.
    Reads(u64),
    /// How many Gone pages refer to a superpage.
    Incoming(u32, u64),
    /// Of the sixteen words of a superpage's bookmarks one's bits.
    Bookmarks(u32, u8, u64),
    /// The same of a superpage's marks.
    Marks(u32, u8, u64),
    /// The bits of a word of a resident page.
    WordIs(Address, u64),
}

impl Trial for Space {
    type Step = Found;

    fn goes(&mut self, found: &Found) -> bool {
        match *found {
            Found::Pages(answer) => self.pages() == answer,
            Found::FreeFrames(answer) => self.free_frames() == answer,
            Found::Reads(answer) => self.reads() == answer,
            Found::State(page, answer) => state(self, page) == Some(answer),
            Found::Resident(page, answer) => resident(self, page) == Some(answer),
            Found::Incoming(superpage, answer) => incoming(self, superpage) == Some(answer),
            Found::Bookmarks(superpage, word, answer) => {
                bookmarks(self, superpage, word) == Some(answer)
            }
            Found::Marks(superpage, word, answer) => marks(self, superpage, word) == Some(answer),
            Found::WordIs(at, answer) => word_at(self, at) == Some(answer),
        }
    }
}

// Each of these is nothing where the space hasn't got the page or the superpage.

fn state(space: &Space, page: u32) -> Option<PageState> {
    if page < space.pages() {
        Some(space.state(page))
    } else {
        None
    }
}

fn resident(space: &Space, page: u32) -> Option<bool> {
    if page < space.pages() {
        Some(space.resident(page))
    } else {
        None
    }
}

fn incoming(space: &Space, superpage: u32) -> Option<u64> {
    if superpage < space.superpages() {
        Some(space.header(superpage).incoming)
    } else {
        None
    }
}

fn bookmarks(space: &Space, superpage: u32, word: u8) -> Option<u64> {
    if superpage < space.superpages() && word < 16 {
        Some(space.header(superpage).bookmarks[word as usize])
    } else {
        None
    }
}

fn marks(space: &Space, superpage: u32, word: u8) -> Option<u64> {
    if superpage < space.superpages() && word < 16 {
        Some(space.header(superpage).marks[word as usize])
    } else {
        None
    }
}

/// A word of a page that is resident.
fn word_at(space: &Space, at: Address) -> Option<u64> {
    if at.page() < space.pages() && space.resident(at.page()) {
        Some(space.word(at))
    } else {
        None
    }
}
