//! Parts of an engine that can be written as an image.

ghost use Rattle.std.specs.Prelude.{◌≡◌, ◌⊎◌, ℕ, ◌*◌, ◌≤◌};
ghost use Rattle.std.specs.List.{AllByRecursion};
ghost use Rattle.bc_bookmarks.specs.Summarised.{IsSummarised};
ghost use Rattle.bc_engine.specs.Parts.{CanAdopt, PartsStand};
ghost use Rattle.bc_image.specs.Images.{IsImageListing};
ghost use Rattle.bc_image.specs.Pictures.{Pictures};
ghost use Rattle.bc_model.specs.State.{NoneFrozen, State};
ghost use Rattle.bc_picture.specs.Readable.{IsCalm};
ghost use Rattle.bc_picture.specs.SpaceListing.{heap_listing};
ghost use Rattle.bc_superpages.specs.Layout.{superpages};

use bc_engine::Parts;
use bc_model::Setup;

/// Law: what an engine can go on with can be written as an image, by `write` of bc_picture; where a domain is frozen, as one of version 2 or 3.
/// These are its conditions, but for the room of the sink. The image pictures every state that the parts stand for. It does nothing.
pub fn law_writable(version: u32, setup: &Setup, phases: u32, parts: &Parts)
    requires version { (1 ≤ version) × (version ≤ 3) }
    requires parts { CanAdopt setup.now parts.now.holders.items parts.now.births.items parts.now.roots parts.now.space }
    requires holders { NoneFrozen parts.now.holders.items ⊎ (2 ≤ version) }
    requires births { AllByRecursion (λ n. n ≤ 4000000000) parts.now.births.items }
    ensures image { IsImageListing (heap_listing version setup.now phases parts.now.holders.items parts.now.births.items parts.now.roots parts.now.space) }
    ensures superpages { superpages parts.now.space ≡ setup.now.superpages }
    ensures frames { parts.now.space.frames ≡ setup.now.frames }
    ensures nursery { parts.now.space.nursery ≡ setup.now.lanes * setup.now.nursery }
    ensures calm { IsCalm parts.now.space }
    ensures summarised { IsSummarised parts.now.space }
    ensures pictures { (state : State) → PartsStand setup.now parts.now.holders.items parts.now.births.items parts.now.roots parts.now.space state
        → Pictures (heap_listing version setup.now phases parts.now.holders.items parts.now.births.items parts.now.roots parts.now.space) state }
{
    parts.space.facts();
    parts.roots.facts();
    let _words = parts.roots.words();
}
