//! The root slots that a lane has in hand in a turn: a word for each slot of its domains, and those of frozen domains.

ghost use Rattle.std.specs.Prelude.{◌≡◌, ℕ, ◌+◌, ◌<◌, true, length, slice_index};
ghost use Rattle.bc_lane.specs.Shown.{ShowsSlots, slot_bits};
ghost use Rattle.bc_model.specs.State.{holder_of, lets_read};
ghost use Rattle.bc_model.specs.declared.values.Holder.TheVariants as holder;
ghost use Rattle.bc_word.specs.WordBits.{FitsWord, IsPacked};
ghost use Rattle.bc_word.specs.Words.{word_of_bits};

use crate::stations::Station;
use bc_model::{Holder, Slot};
use bc_mutator::RootSlots;
use bc_superpages::Roots;
use bc_word::{Word, pack, unpack};
use std::marker::PhantomData;

/// The words of the slots of the lane's domains, and those of frozen domains, which all lanes share.
pub(crate) struct LaneSlots<'a, S> {
    /// By domain, who holds it.
    pub(crate) holders: &'a [Holder],
    /// By domain, where the words of its slots begin, if it is the lane's.
    pub(crate) starts: &'a [u32],
    pub(crate) words: Vec<u64>,
    /// The root slots of the heap, of which those of frozen domains are read.
    pub(crate) shared: &'a Roots,
    pub(crate) of: PhantomData<S>,
}

impl<'a, S: Station> RootSlots for LaneSlots<'a, S> {
    ghost shows = { λ slots r. (slots.holders.now ≡ S.holders) × (slots.starts.now ≡ S.starts) × (slots.shared.now ≡ S.shared)
        × ShowsSlots S.holders S.lane S.slots S.shared S.starts slots.words.items r };

    ghost at_hand = { λ _ domain. lets_read (holder_of S.holders domain) S.lane ≡ true };

    ghost is_own = { λ _ domain. holder_of S.holders domain ≡ holder.Lane S.lane };

    fn word(&self, slot: Slot) -> Word {
        word_in(self.holders, self.starts, &self.words, self.shared, slot)
    }

    fn set_word(&mut self, slot: Slot, word: Word) {
        let place = self.starts[slot.domain as usize] as usize + slot.slot as usize;
        self.words[place] = pack(word);
    }
}

/// The word in a slot that the lane may read.
pub(crate) fn word_in(
    holders: &[Holder],
    starts: &[u32],
    words: &[u64],
    shared: &Roots,
    slot: Slot,
) -> Word
    requires domain { slot.domain < length holders.now }
    requires own { (lane : ℕ) → holder_of holders.now slot.domain ≡ holder.Lane lane
        → (slot.domain < length starts.now) × (slice_index starts.now slot.domain + slot.slot < length words.now) }
    requires frozen { holder_of holders.now slot.domain ≡ holder.Frozen → (slot.domain < shared.now.domains) × (slot.slot < shared.now.slots) }
    requires packed { (k : ℕ) → IsPacked (slice_index words.now k) }
    ensures word { result ≡ word_of_bits (slot_bits (holder_of holders.now slot.domain) starts.now words.now shared.now slot) }
    ensures fits { FitsWord result }
{
    match holders[slot.domain as usize] {
        Holder::Lane(_) => {
            unpack(words[starts[slot.domain as usize] as usize + slot.slot as usize])
        }
        Holder::Frozen => unpack(shared.get(slot.domain, slot.slot)),
    }
}
