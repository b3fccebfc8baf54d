//! The least way to an object.

ghost use Rattle.std.specs.Prelude.{◌≡◌, ℕ, ◌+◌, ◌*◌, ◌^◌, ◌<◌, ◌≤◌, List, length, slice_index, IfOk, MatchOption};
ghost use Rattle.bc_image.specs.Cells.{CellList};
ghost use Rattle.bc_image.specs.Pictures.{PicturesObjects};
ghost use Rattle.bc_model.specs.State.{State};
ghost use Rattle.bc_image.specs.Images.{IsImageListing};
ghost use Rattle.bc_heapview.specs.Answers.{NoWay, IsPathTo, IsViewable};
ghost use Rattle.bc_heapview.specs.Texts.{steps_in};
ghost use Rattle.bc_heapview.specs.Searches.{find_at, IsSearched};
ghost use Rattle.bc_heapview.specs.Backs.{IsWayBack, HasNoFind, IsFoundAt};

use crate::indexes::index_of;
use crate::search::{Found, Origin, search};
use crate::steps::{Path, Step};
use bc_image::{Cell, Listing};
use bc_model::{Birth, Slot};
use std::alloc::{AllocError, Global};

/// The number of the find of the object of this birth.
fn find_of(found: &[Found], cells: &[Cell], birth: Birth) -> Option<usize>
    requires { (k : ℕ) → k < length found.now → (find_at found.now k).node < length cells.now }
    ensures found { MatchOption result (HasNoFind found.now cells.now birth) (λ entry. IsFoundAt found.now cells.now birth entry) }
{
    for (entry, find) in found.iter().enumerate() {
        let cell = &cells[find.node as usize];
        let head = cell.head;
        if head.lane == birth.lane && head.serial == birth.serial {
            return Some(entry);
        }
    }
    None
}

/// The way of a find: the number of its root slot, the object there, and the steps.
fn way_back(
    alloc: Global,
    found: &[Found],
    cells: &[Cell],
    entry: usize,
) -> Result<(u32, Birth, Vec<Step>), AllocError>
    requires entry { entry < length found.now }
    requires nodes { (k : ℕ) → k < length found.now → (find_at found.now k).node < length cells.now }
    requires searched { (roots : List ℕ) × IsSearched roots cells.now found.now }
    ensures way { (roots : List ℕ) → (s : IsSearched roots cells.now found.now)
        → IfOk result (λ r. IsWayBack roots cells.now s.ways entry r.0 r.1 r.2.items) }
    ensures few { IfOk result (λ r. length r.2.items ≤ entry) }
{
    let mut steps: Vec<Step> = Vec::new(alloc);
    let mut at = entry;
    loop {
        let find = found[at];
        let cell = &cells[find.node as usize];
        let head = cell.head;
        let birth = Birth {
            lane: head.lane,
            serial: head.serial,
        };
        match find.origin {
            Origin::Slot(place) => {
                steps.reverse();
                return Ok((place, birth, steps));
            }
            Origin::Field(before, field) => {
                steps.push(Step { field, birth })?;
                at = before as usize;
            }
        }
    }
}

/// The least way to the object of this birth, or nothing where no root slot leads to it: no way is shorter, and none of its length
/// comes before it, by domain, slot, and then the fields from the first on. It takes a few words of memory for each object and
/// superpage, and time linear in the objects and their words.
pub fn path(alloc: Global, listing: &Listing, birth: Birth) -> Result<Option<Path>, AllocError>
    requires listing { IsImageListing listing.now }
    ensures least { (s : State) → PicturesObjects listing.now s
        → IfOk result (λ found. MatchOption found (NoWay s birth) (λ p. IsPathTo s birth p)) }
    ensures few { IfOk result (λ found. steps_in found ≤ length listing.now.cells) }
{
    least_path(alloc, listing, birth)
}

/// The least way through a listing that may be viewed.
fn least_path(alloc: Global, listing: &Listing, birth: Birth) -> Result<Option<Path>, AllocError>
    requires { IsViewable listing.now }
    ensures least { (s : State) → PicturesObjects listing.now s
        → IfOk result (λ found. MatchOption found (NoWay s birth) (λ p. IsPathTo s birth p)) }
    ensures few { IfOk result (λ found. steps_in found ≤ length listing.now.cells) }
{
    let index = index_of(alloc, &listing.cells, listing.setup.superpages)?;
    let found = search(alloc, &index, &listing.roots, &listing.cells)?;
    let entry = match find_of(&found, &listing.cells, birth) {
        Some(entry) => entry,
        None => return Ok(None),
    };
    let (place, first, steps) = way_back(alloc, &found, &listing.cells, entry)?;
    let slots = listing.setup.slots;
    let root = Slot {
        domain: place / slots,
        slot: place % slots,
    };
    Ok(Some(Path { root, first, steps }))
}
