//! A heap that is built of what an image lists.

ghost use Rattle.std.specs.Prelude.{◌≡◌, ◌↔◌, ◌+◌, ◌*◌, ◌^◌, ◌<◌, ℕ, true, false, [], IfOk, length, slice_index, slice_index_or};
ghost use Rattle.bc_bookmarks.specs.Summarised.{IsSummarised};
ghost use Rattle.bc_bookmarks.specs.Targets.{NamesCells};
ghost use Rattle.bc_image.specs.Images.{IsImageListing};
ghost use Rattle.bc_image.specs.Memories.{memory_of};
ghost use Rattle.bc_image.specs.Pictures.{Pictures};
ghost use Rattle.bc_model.specs.State.{State};
ghost use Rattle.bc_picture.specs.Building.{IsBuiltIn};
ghost use Rattle.bc_picture.specs.PicturedHeaps.{StandsWith};
ghost use Rattle.bc_picture.specs.Readable.{IsCalm};
ghost use Rattle.bc_picture.specs.SpaceListing.{heap_listing};
ghost use Rattle.bc_superpages.specs.Calls.{new_space, resident_count, IsClosed};
ghost use Rattle.bc_superpages.specs.Kept.{IsLayout};
ghost use Rattle.bc_superpages.specs.Layout.{superpages};
ghost use Rattle.bc_superpages.specs.Memory.{memory};
ghost use Rattle.bc_word.specs.WordBits.{IsPacked};

use crate::placing::place_cells;
use crate::promising::promise_cells;
use bc_image::Listing;
use bc_superpages::{Roots, Space};
use std::alloc::{AllocError, Global};

/// The heap that an image pictures, without what its engine knows.
#[derive(Drop)]
pub struct Picture {
    pub roots: Roots,
    pub space: Space,
}

/// Builds the heap of a listing: its root slots, and a space with each object at its address. Pages come home one after another, so two
/// frames beside the nurseries' are enough: where none is free another page leaves, and none comes back. Memory alone may be
/// wanting, and is taken before anything is built.
pub fn build(alloc: Global, listing: &Listing) -> Result<Picture, AllocError>
    requires image { IsImageListing listing.now }
    ensures listing { IfOk result (λ p. heap_listing listing.now.version listing.now.setup listing.now.phases listing.now.holders listing.now.births p.roots p.space ≡ listing.now) }
    ensures memory { IfOk result (λ p. memory p.space ≡ memory_of listing.now.cells) }
    ensures stands { (s : State) → IfOk result (λ p. Pictures listing.now s ↔ StandsWith listing.now.setup listing.now.holders listing.now.births p.roots p.space s) }
    ensures roots { IfOk result (λ p. p.roots
        ≡ record { domains = listing.now.setup.domains; slots = listing.now.setup.slots; words = listing.now.roots; noted = [] }) }
    ensures superpages { IfOk result (λ p. superpages p.space ≡ listing.now.setup.superpages) }
    ensures frames { IfOk result (λ p. p.space.frames ≡ listing.now.setup.frames) }
    ensures nursery { IfOk result (λ p. p.space.nursery ≡ listing.now.setup.lanes * listing.now.setup.nursery) }
    ensures account { IfOk result (λ p. p.space.free + (p.space.nursery + resident_count p.space) ≡ p.space.frames) }
    ensures summarised { IfOk result (λ p. IsSummarised p.space) }
    ensures closed { IfOk result (λ p. IsClosed p.space) }
    ensures names { IfOk result (λ p. (page : ℕ) → NamesCells p.space page) }
    ensures calm { IfOk result (λ p. IsCalm p.space) }
    ensures domains { IfOk result (λ p. (q : ℕ) → slice_index_or p.space.used q false ≡ true → slice_index p.space.domains q < listing.now.setup.domains) }
    ensures unread { IfOk result (λ p. p.space.reads ≡ 0) }
{
    let setup = listing.setup;
    let roots = Roots::new(alloc, setup.domains, setup.slots)?;
    let space = Space::new(
        alloc,
        setup.superpages,
        setup.frames,
        setup.lanes * setup.nursery,
    )?;
    Ok(fill(listing, roots, space))
}

/// Fills root slots that are all nil and a new space with what a listing has. It takes no memory.
fn fill(listing: &Listing, mut roots: Roots, mut space: Space) -> Picture
    requires image { IsImageListing listing.now }
    requires nil { (roots.domains ≡ listing.now.setup.domains) × (roots.slots ≡ listing.now.setup.slots) × (length roots.words ≡ listing.now.setup.domains * listing.now.setup.slots) × (roots.noted ≡ []) }
    requires new { space ≡ new_space listing.now.setup.superpages listing.now.setup.frames (listing.now.setup.lanes * listing.now.setup.nursery) }
    ensures roots { result.roots ≡ record { domains = listing.now.setup.domains; slots = listing.now.setup.slots; words = listing.now.roots; noted = [] } }
    ensures space { IsBuiltIn listing.now result.space }
    ensures kept { IsLayout result.space }
    ensures account { result.space.free + (result.space.nursery + resident_count result.space) ≡ result.space.frames }
{
    put_roots(&mut roots, &listing.roots);
    promise_cells(&mut space, &listing.cells);
    place_cells(&mut space, &listing.cells);
    space.facts();
    Picture { roots, space }
}

/// Writes the bits of all root slots.
fn put_roots(roots: &mut Roots, words: &[u64])
    requires long { length words.now ≡ length roots.old.words }
    requires few { length words.now < 2 ^ 32 }
    requires packed { (k : ℕ) → k < length words.now → IsPacked (slice_index words.now k) }
    ensures written { roots.new ≡ record roots.old { words = words.now } }
{
    for place in 0..words.len() {
        roots.replace(place as u32, words[place]);
    }
}
