//! Laws of pictures. Each is the contract of a function that does nothing.

ghost use Rattle.std.specs.Prelude.{◌≡◌, ◌↔◌, ℕ, List};
ghost use Rattle.bc_image.specs.Memories.{memory_of};
ghost use Rattle.bc_image.specs.Pictures.{Pictures};
ghost use Rattle.bc_model.specs.State.{State};
ghost use Rattle.bc_model.specs.declared.traces.Setup.{Setup};
ghost use Rattle.bc_model.specs.declared.values.Holder.{Holder};
ghost use Rattle.bc_picture.specs.PicturedHeaps.{StandsWith};
ghost use Rattle.bc_picture.specs.SpaceListing.{heap_listing, listed_cells};
ghost use Rattle.bc_superpages.specs.Kept.{IsLayout};
ghost use Rattle.bc_superpages.specs.Layout.{Layout};
ghost use Rattle.bc_superpages.specs.Memory.{memory};
ghost use Rattle.bc_superpages.specs.RootWords.{RootWords};

/// Law: what a heap lists has the heap's memory, and pictures the states that the heap stands for. Two heaps that list the same have
/// one memory and the same root words, and so stand for the same states. `write` puts the image of what a heap lists, `scan` answers
/// that listing (`law_read_back` of bc_image), and what `build` makes of it lists the same (`build`, clause `listing`): so a heap that
/// is built of the image of a heap stands for whatever the one that was saved did.
pub fn law_saved()
    ensures memory { (s : Layout) → IsLayout s → memory_of (listed_cells s) ≡ memory s }
    ensures pictures { (version phases : ℕ) → (setup : Setup) → (holders : List Holder) → (births : List ℕ) → (r : RootWords) → (s : Layout) → IsLayout s
        → (state : State) → Pictures (heap_listing version setup phases holders births r s) state ↔ StandsWith setup holders births r s state }
    ensures built { (version phases : ℕ) → (setup : Setup) → (holders : List Holder) → (births : List ℕ) → (r q : RootWords) → (s t : Layout) → IsLayout s → IsLayout t
        → heap_listing version setup phases holders births q t ≡ heap_listing version setup phases holders births r s
        → (memory t ≡ memory s) × (q.words ≡ r.words) }
    ensures same { (version phases : ℕ) → (setup : Setup) → (holders : List Holder) → (births : List ℕ) → (r q : RootWords) → (s t : Layout) → IsLayout s → IsLayout t
        → heap_listing version setup phases holders births q t ≡ heap_listing version setup phases holders births r s
        → (state : State) → StandsWith setup holders births r s state ↔ StandsWith setup holders births q t state }
{}
