//! What lies in a heap.

ghost use Rattle.std.specs.Prelude.{◌≡◌, ◌≤◌};
ghost use Rattle.bc_cycle.specs.Openings.{CanOpen};

use bc_model::{Setup, Slot};

/// How many fields each object has, and how many words its cell.
pub(crate) const FIELDS: u32 = 7;

const CELL_WORDS: u32 = 8;

/// The words of a superpage.
const SUPERPAGE_WORDS: u32 = 2048;

/// How many objects fill a superpage.
pub(crate) const SUPERPAGE_OBJECTS: u32 = SUPERPAGE_WORDS / CELL_WORDS;

/// The pages of the nursery.
const NURSERY: u32 = 16;

/// The slots from this one on hold the heads of lists, or the first one the root of a tree.
pub(crate) const HEADS: u32 = 4;

/// How many lists there are at most.
pub(crate) const LISTS: u32 = 64;

#[derive(Clone, Copy, PartialEq, Eq)]
pub(crate) enum Shape {
    /// A tree of which each object has seven others.
    Wide,
    /// A tree of five, and two references from each object to others drawn at random.
    Random,
    /// 64 lists, whose objects lie mixed.
    Lists,
    /// One list.
    List,
    /// A tree of which each object has seven others, on every fourth superpage. What lies on the others is dropped before the first collection.
    Skewed,
}

impl Shape {
    /// The word by which it is known.
    pub(crate) fn word(self) -> &'static str {
        match self {
            Shape::Wide => "wide",
            Shape::Random => "random",
            Shape::Lists => "lists",
            Shape::List => "list",
            Shape::Skewed => "skewed",
        }
    }
}

/// The shape of a heap, how many superpages its objects fill, and whether every second page is evicted.
#[derive(Clone, Copy)]
pub(crate) struct Plan {
    pub(crate) shape: Shape,
    pub(crate) superpages: u32,
    pub(crate) gone: bool,
}

impl Plan {
    /// How many objects it has.
    pub(crate) fn objects(&self) -> u32 {
        self.superpages.saturating_mul(SUPERPAGE_OBJECTS)
    }
}

/// The setup of such a heap: with a frame for every page, and some superpages more than its objects fill.
pub(crate) fn setup_for(plan: &Plan) -> Setup
    requires { (1 ≤ plan.now.superpages) × (plan.now.superpages ≤ 2048) }
    ensures setup { CanOpen result }
    ensures lanes { result.lanes ≡ 1 }
{
    let superpages = plan.superpages + 64;
    Setup {
        lanes: 1,
        domains: 1,
        slots: HEADS + LISTS,
        superpages,
        nursery: NURSERY,
        buffer: 4096,
        frames: NURSERY + 4 * superpages,
    }
}

pub(crate) fn slot(number: u32) -> Slot {
    Slot {
        domain: 0,
        slot: number,
    }
}
