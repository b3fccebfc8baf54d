//! What an image says, as plain lists.

use bc_model::{Holder, Setup};
use bc_word::{Address, Head};
use std::marker::Model;

/// An object, where it lies, with the bits of its words.
#[derive(Debug, Drop)]
pub struct Cell {
    pub address: Address,
    pub head: Head,
    pub fields: Vec<u64>,
}

impl Model for Cell {
    ghost use Rattle.bc_image.specs.Cells.{CellList};

    ghost Value = { CellList };

    ghost view = { λ c. record { address = c.address.0; head = c.head; fields = c.fields.items } };
}

/// What an image says.
#[derive(Debug, Drop)]
pub struct Listing {
    pub version: u32,
    pub setup: Setup,
    pub phases: u32,
    /// Who holds each domain.
    pub holders: Vec<Holder>,
    /// How many objects each lane has made.
    pub births: Vec<u32>,
    /// The bits of the root slots, domain after domain.
    pub roots: Vec<u64>,
    /// The objects, by ascending addresses.
    pub cells: Vec<Cell>,
}

impl Model for Listing {
    ghost use Rattle.bc_image.specs.Listings.{ListingLists};

    ghost Value = { ListingLists };

    ghost view = { λ l. record { version = l.version; setup = l.setup; phases = l.phases; holders = l.holders.items; births = l.births.items; roots = l.roots.items; cells = l.cells.items } };
}
