//! Boxes that are shut: one gives no word until it is opened, and each opening is counted.

ghost use Rattle.std.specs.Prelude.{◌≡◌, ℕ, ◌+◌, ◌-◌, ◌^◌, List, min};
ghost use Rattle.bc_frames.specs.Places.{one_more};

use crate::pages::Page;
use std::marker::Model;

/// A page's box that gives no word to a running program. Contracts see its content.
#[derive(Drop)]
pub struct Shut {
    page: Page,
}

impl Model for Shut {
    ghost Value = { List ℕ };

    ghost view = { λ s. s.page };
}

impl Shut {
    /// The shut box of a page.
    pub(crate) fn of(page: Page) -> Self
        ensures content { result ≡ page.entry }
    {
        Shut { page }
    }

    /// The box that is shut, where that is no read.
    pub(crate) fn into_page(self) -> Page
        ensures content { result ≡ self.entry }
    {
        let Shut { page } = self;
        page
    }

    /// Opens the box, and counts that.
    pub fn open(self, opens: &mut Opens) -> Page
        ensures content { result ≡ self.entry }
        ensures counted { opens.new ≡ one_more opens.old }
    {
        opens.count = opens.count.saturating_add(1);
        self.into_page()
    }
}

/// How many boxes were opened, up to the last value of 64 bits. It can't be dropped: `Store::count` spends it.
pub struct Opens {
    count: u64,
}

impl Model for Opens {
    ghost Value = { ℕ };

    ghost view = { λ o. o.count };
}

impl Opens {
    /// No box was opened.
    pub fn new() -> Self
        ensures none { result ≡ 0 }
    {
        Opens { count: 0 }
    }

    /// Counts those that another counted besides. The count stays at the last value of 64 bits.
    pub fn add(&mut self, other: Opens)
        ensures sum { self.new ≡ min (self.old + other) (2 ^ 64 - 1) }
    {
        self.count = self.count.saturating_add(other.spend());
    }

    /// How many boxes were opened. That ends the count.
    pub(crate) fn spend(self) -> u64
        ensures count { result ≡ self }
    {
        let Opens { count } = self;
        count
    }
}
