//! The root slots that a lane has in hand, wherever they lie.

ghost use Rattle.std.specs.Prelude.{◌≡◌, ℕ};
ghost use Rattle.bc_model.specs.WellFormed.{IsSlot};
ghost use Rattle.bc_superpages.specs.RootWords.{RootWords};
ghost use Rattle.bc_word.specs.WordBits.{FitsWord};
ghost use Rattle.bc_mutator.specs.Effects.{with_root};
ghost use Rattle.bc_mutator.specs.Objects.{slot_word};
ghost use Rattle.bc_mutator.specs.Operations.{setup_of};

use bc_model::Slot;
use bc_superpages::Roots;
use bc_word::{Word, pack, unpack};

/// Root slots that a lane may look at, some of which it may write. What a call answers and does is said of all root words that the slots
/// may belong to, so an operation is the same over those of a heap and over those of a lane.
pub trait RootSlots {
    // The slots may belong to these root words.
    ghost shows: { Self → RootWords → Type 0 };

    // The slots of this domain are in hand.
    ghost at_hand: { Self → ℕ → Type 0 };

    // The slots of this domain may be written: the lane holds it.
    ghost is_own: { Self → ℕ → Type 0 };

    /// The word in a slot.
    fn word(&self, slot: Slot) -> Word
        requires slot { (r : RootWords) × shows self.now r × IsSlot (setup_of r) slot }
        requires hand { at_hand self.now slot.domain }
        ensures word { (r : RootWords) → shows self.now r → IsSlot (setup_of r) slot → result ≡ slot_word r slot }
        ensures fits { FitsWord result };

    /// A slot of a domain that the lane holds becomes the word.
    fn set_word(&mut self, slot: Slot, word: Word)
        requires slot { (r : RootWords) × shows self.old r × IsSlot (setup_of r) slot }
        requires own { is_own self.old slot.domain }
        requires fits { FitsWord word }
        ensures written { (r : RootWords) → shows self.old r → IsSlot (setup_of r) slot → shows self.new (with_root r slot word) }
        ensures hand { (domain : ℕ) → at_hand self.old domain → at_hand self.new domain }
        ensures own { (domain : ℕ) → is_own self.old domain → is_own self.new domain };
}

impl RootSlots for Roots {
    ghost shows = { λ roots r. r ≡ roots };

    ghost at_hand = { λ _ _. Unit {0} };

    ghost is_own = { λ _ _. Unit {0} };

    fn word(&self, slot: Slot) -> Word {
        unpack(self.get(slot.domain, slot.slot))
    }

    fn set_word(&mut self, slot: Slot, word: Word) {
        self.set(slot.domain, slot.slot, pack(word));
    }
}
