//! An engine that goes on with what an image lists.

ghost use Rattle.std.specs.Prelude.{◌≡◌, ◌≤◌, None, IfOk};
ghost use Rattle.bc_engine.specs.Engines.{EngineStands, HasEmptyChunks};
ghost use Rattle.bc_engine.specs.Parts.{CanAdopt, PartsStand};
ghost use Rattle.bc_image.specs.Images.{IsImageListing};
ghost use Rattle.bc_image.specs.Listings.{ListingLists};
ghost use Rattle.bc_image.specs.Pictures.{Pictures};
ghost use Rattle.bc_model.specs.Consistent.{IsState};
ghost use Rattle.bc_model.specs.State.{State};
ghost use Rattle.bc_saving.specs.Built.{IsBuiltOf};
ghost use Rattle.bc_superpages.specs.Layout.{Layout};
ghost use Rattle.bc_superpages.specs.RootWords.{RootWords};

use bc_engine::Engine;
use bc_image::Listing;
use bc_picture::build;
use std::alloc::{AllocError, Global};

/// The engine of a listing: its heap is built, and the engine goes on with it. It stands for every state that the listing pictures and that a run
/// may come to. `workers` is how many threads may mark, from 1 to 16. The error is out of memory.
pub fn adopt_listing(alloc: Global, listing: &Listing, workers: u32) -> Result<Engine, AllocError>
    requires image { IsImageListing listing.now }
    requires workers { (1 ≤ workers) × (workers ≤ 16) }
    ensures stands { IfOk result (λ engine. (state : State) → IsState state → Pictures listing.now state → EngineStands engine state) }
    ensures setup { IfOk result (λ engine. (engine.setup ≡ listing.now.setup) × (engine.ended ≡ None) × HasEmptyChunks engine.running.heap × (engine.workers ≡ workers)) }
    ensures births { IfOk result (λ engine. engine.running.serials ≡ listing.now.births) }
    ensures unread { IfOk result (λ engine. engine.running.heap.space.reads ≡ 0) }
{
    let holders = listing.holders.to_vec(alloc)?;
    let births = listing.births.to_vec(alloc)?;
    let picture = build(alloc, listing)?;
    Engine::adopt(
        alloc,
        &listing.setup,
        holders,
        births,
        picture.roots,
        picture.space,
        workers,
    )
}

/// Law: what is built of a listing is what an engine can go on with, and it stands for every state that the listing pictures and that a run may
/// come to. It does nothing.
pub fn law_built()
    ensures adopt { (l : ListingLists) → (r : RootWords) → (s : Layout) → IsImageListing l → IsBuiltOf l r s → CanAdopt l.setup l.holders l.births r s }
    ensures stands { (l : ListingLists) → (r : RootWords) → (s : Layout) → IsImageListing l → IsBuiltOf l r s
        → (state : State) → IsState state → Pictures l state → PartsStand l.setup l.holders l.births r s state }
{}
