//! What everybody may read of a table.

ghost use Rattle.std.specs.Prelude.{◌≡◌, ℕ, ◌*◌, ◌<◌, ◌≤◌, slice_index};
ghost use Rattle.bc_word.specs.Addresses.{page_of};
ghost use Rattle.bc_superpages.specs.declared.headers.PageState.TheVariants.{Absent};
ghost use Rattle.bc_superpages.specs.Layout.{superpages, set_of};
ghost use Rattle.bc_superpages.specs.LayoutAt.{IsAllocated};
ghost use Rattle.bc_superpages.specs.Kept.{IsLayout};
ghost use Rattle.bc_pins.specs.Key.{pages_of, frame_words, is_lanes};
ghost use Rattle.bc_pins.specs.Views.{opened_state};
ghost use Rattle.bc_pins.specs.Facts.{IsUnheld};
ghost use Rattle.bc_pins.specs.Calls.{key_of};

use crate::key::Turn;
use crate::pins::Pins;
use bc_classes::{SUPERPAGE_PAGES, SUPERPAGE_WORDS};
use bc_superpages::Header;

impl Pins {
    /// What holds of the space at the opening: its layout, that each allocated cell lies on a page of the table, and that each page
    /// after the table's is Absent. In a mark turn nobody holds a domain.
    pub fn facts(&self)
        ensures layout { IsLayout (key_of self.now).opening }
        ensures inside { (a : ℕ) → IsAllocated (key_of self.now).opening a → page_of a < pages_of (key_of self.now) }
        ensures behind { (p : ℕ) → pages_of (key_of self.now) ≤ p → opened_state (key_of self.now) p ≡ Absent }
        ensures within { (key_of self.now).supers ≤ superpages (key_of self.now).opening }
        ensures unheld { IsUnheld (key_of self.now) }
    {
        self.rest.facts();
    }

    /// The header of a superpage as it was at the opening. Its domain, class and cells don't change in a turn.
    pub fn header(&self, superpage: u32) -> &Header
        requires { superpage < superpages (key_of self.now).opening }
        ensures domain { result.now.domain ≡ slice_index (key_of self.now).opening.domains superpage }
        ensures class { result.now.class ≡ slice_index (key_of self.now).opening.classes superpage }
        ensures cells { result.now.cells ≡ set_of (key_of self.now).opening.cells superpage }
    {
        &self.rest.parts.headers[superpage as usize]
    }

    /// Where the superpages end, as an address in words.
    pub fn end(&self) -> u32
        ensures end { result ≡ 2048 * superpages (key_of self.now).opening }
    {
        SUPERPAGE_WORDS * self.rest.parts.headers.len() as u32
    }

    /// How many pages the table has: four for each superpage up to the last that had a page which wasn't Absent.
    pub fn pages(&self) -> u32
        ensures pages { result ≡ pages_of (key_of self.now) }
    {
        SUPERPAGE_PAGES * self.superpages as u32
    }

    /// How many frames the heap has.
    pub fn frames(&self) -> u32
        ensures frames { result ≡ (key_of self.now).frames }
    {
        self.rest.parts.pool.frames()
    }

    /// How many words the frames have.
    pub fn frame_words(&self) -> u32
        ensures words { result ≡ frame_words (key_of self.now) }
    {
        self.frame_words
    }

    /// The turn for which the table was opened.
    pub fn turn(&self) -> Turn
        ensures turn { is_lanes result ≡ (key_of self.now).lanes }
    {
        self.turn
    }
}
