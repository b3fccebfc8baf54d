//! A page in a worker's hands.

use bc_superpages::Homed;

/// A page in a worker's hands: its number, its box and frame, and whether it is remembered.
#[derive(Drop)]
pub struct Held {
    pub(crate) page: u32,
    pub(crate) remembered: bool,
    pub(crate) homed: Homed,
}

impl Held {
    ghost use Rattle.std.specs.Prelude.{◌≡◌, ℕ, ◌+◌, ◌<◌, true, length, slice_index, slice_set};
    ghost use Rattle.bc_word.specs.Words.{word_of_bits};
    ghost use Rattle.bc_word.specs.WordBits.{IsPacked};
    ghost use Rattle.bc_word.specs.Addresses.{offset_of};
    ghost use Rattle.bc_superpages.specs.Layout.{Layout};
    ghost use Rattle.bc_superpages.specs.Kept.{IsLayout};
    ghost use Rattle.bc_pins.specs.Contents.{IsFieldOn, NamesFixed, IsContent};

    /// The page's number.
    pub fn page(&self) -> u32
        ensures page { result ≡ self.now.page }
    {
        self.page
    }

    /// Is the page named by a write buffer?
    pub fn remembered(&self) -> bool
        ensures remembered { result ≡ self.now.remembered }
    {
        self.remembered
    }

    /// The page's number, with its box and frame. This is no step: the page's word still says Held.
    pub fn apart(self) -> (u32, Homed)
        ensures page { result.0 ≡ self.entry.page }
        ensures homed { result.1 ≡ self.entry.homed }
    {
        let Held {
            page,
            remembered: _,
            homed,
        } = self;
        (page, homed)
    }

    /// A page in hand, of its number, its box and frame. This is no step either.
    pub fn of(page: u32, homed: Homed, remembered: bool) -> Held
        ensures page { result.page ≡ page }
        ensures homed { result.homed ≡ homed.entry }
        ensures remembered { result.remembered ≡ remembered }
    {
        Held {
            page,
            remembered,
            homed,
        }
    }

    /// Notes that the page was used, for the choice of the page that makes room. No contract sees it.
    pub fn note_use(&mut self)
        ensures same { self.new ≡ self.old }
    {
        self.homed.frame.note_use();
    }

    /// A word of the page, by its place there.
    pub fn word(&self, offset: u32) -> u64
        requires { offset < 512 }
        ensures word { result ≡ slice_index self.now.homed.page offset }
        ensures long { length self.now.homed.page ≡ 512 }
    {
        self.homed.page.get(offset)
    }

    /// Writes a word of the page. Where it is a field of an allocated cell, and the new word is packed and names an
    /// allocated cell or a nursery address, the page's content keeps what is fixed in a turn.
    pub fn set(&mut self, offset: u32, bits: u64)
        requires { offset < 512 }
        ensures written { self.new
            ≡ record self.old {
              homed = record self.old.homed { page = slice_set self.old.homed.page offset bits };
            } }
        ensures fixed { (s : Layout) → (cell index : ℕ) → IsLayout s → IsContent s self.old.page self.old.homed.page
            → IsFieldOn s self.old.page cell index → offset ≡ offset_of cell + 1 + index
            → IsPacked bits → NamesFixed s (word_of_bits bits)
            → IsContent s self.old.page self.new.homed.page }
    {
        self.homed.page.set(offset, bits);
    }

    /// Makes the page one that a write buffer names.
    pub fn remember(&mut self)
        ensures remembered { self.new ≡ record self.old { remembered = true } }
    {
        self.remembered = true;
    }
}
