//! A root slot becomes another word.

ghost use Rattle.std.specs.Prelude.{◌≡◌, ℕ, true};
ghost use Rattle.bc_model.specs.State.{holder_of, lets_read, lets_write};
ghost use Rattle.bc_model.specs.WellFormed.{IsSlot};
ghost use Rattle.bc_model.specs.declared.operations.Op.TheVariants.{Load};
ghost use Rattle.bc_superpages.specs.RootWords.{RootWords};
ghost use Rattle.bc_whole_heap.specs.Heaps.{HeapView};
ghost use Rattle.bc_word.specs.WordBits.{FitsWord};
ghost use Rattle.bc_word.specs.declared.words.Word.TheVariants.{Nil};
ghost use Rattle.bc_mutator.specs.Effects.{DidAct, with_root};
ghost use Rattle.bc_mutator.specs.Objects.{loaded_as, slot_word};
ghost use Rattle.bc_mutator.specs.Operations.{setup_of};
ghost use Rattle.bc_mutator.specs.Parts.{Sees, SlotLeadsToHand, SlotLeadsToHandIn};

use crate::cells::Cells;
use crate::objects::object_with_field;
use crate::reading::field_at;
use crate::root_slots::RootSlots;
use bc_model::{Holder, Reply, Slot};
use bc_nursery::Chunk;
use bc_word::Word;

/// The second slot becomes what the first one holds.
pub(crate) fn copy<R: RootSlots>(roots: &mut R, from: Slot, to: Slot) -> Reply
    requires slots { (r : RootWords) × R.shows roots.old r × IsSlot (setup_of r) from × IsSlot (setup_of r) to }
    requires hand { R.at_hand roots.old from.domain }
    requires own { R.is_own roots.old to.domain }
    ensures written { (r : RootWords) → R.shows roots.old r → IsSlot (setup_of r) from → IsSlot (setup_of r) to
        → R.shows roots.new (with_root r to (slot_word r from)) }
    ensures fits { (r : RootWords) → R.shows roots.old r → IsSlot (setup_of r) from → FitsWord (slot_word r from) }
    ensures done { result ≡ Reply.Done }
    ensures hand { (domain : ℕ) → R.at_hand roots.old domain → R.at_hand roots.new domain }
    ensures own { (domain : ℕ) → R.is_own roots.old domain → R.is_own roots.new domain }
{
    let word = roots.word(from);
    roots.set_word(to, word);
    Reply::Done
}

/// The slot becomes nil.
pub(crate) fn clear<R: RootSlots>(roots: &mut R, slot: Slot) -> Reply
    requires slot { (r : RootWords) × R.shows roots.old r × IsSlot (setup_of r) slot }
    requires own { R.is_own roots.old slot.domain }
    ensures written { (r : RootWords) → R.shows roots.old r → IsSlot (setup_of r) slot → R.shows roots.new (with_root r slot Nil) }
    ensures done { result ≡ Reply.Done }
    ensures hand { (domain : ℕ) → R.at_hand roots.old domain → R.at_hand roots.new domain }
    ensures own { (domain : ℕ) → R.is_own roots.old domain → R.is_own roots.new domain }
{
    roots.set_word(slot, Word::Nil);
    Reply::Done
}

/// The second slot becomes what a field of the first slot's object holds.
pub(crate) fn load<C: Cells, R: RootSlots>(
    cells: &C,
    roots: &mut R,
    chunk: &Chunk,
    holders: &[Holder],
    lane: u32,
    slot: Slot,
    index: u32,
    to: Slot,
) -> Reply
    requires sees { (h : HeapView) × Sees (C.shows cells.now) (R.shows roots.old) chunk.now holders.now lane (Load slot index to) h }
    requires held { lets_read (holder_of holders.now slot.domain) lane ≡ true }
    requires mine { lets_write (holder_of holders.now to.domain) lane ≡ true }
    requires slots { R.at_hand roots.old slot.domain × R.is_own roots.old to.domain }
    requires known { SlotLeadsToHand (C.shows cells.now) (R.shows roots.old) (C.knows cells.now) slot }
    requires hand { SlotLeadsToHandIn (C.shows cells.now) (R.shows roots.old) (C.at_hand cells.now) (λ d. lets_read (holder_of holders.now d) lane) slot }
    ensures done { (h : HeapView) → Sees (C.shows cells.now) (R.shows roots.old) chunk.now holders.now lane (Load slot index to) h
        → (r : RootWords) × R.shows roots.new r
        × ((serial : ℕ) → DidAct h (record h { roots = r }) holders.now lane serial serial (Load slot index to) result) }
    ensures hand { (domain : ℕ) → R.at_hand roots.old domain → R.at_hand roots.new domain }
    ensures own { (domain : ℕ) → R.is_own roots.old domain → R.is_own roots.new domain }
{
    let word = roots.word(slot);
    match object_with_field(cells, chunk, holders, lane, word, index) {
        Ok(at) => {
            let held = field_at(cells, chunk, at, index);
            roots.set_word(to, held);
            loaded(held)
        }
        Err(reply) => reply,
    }
}

/// What a lane is answered that loaded the word: of an object only that it is one.
fn loaded(word: Word) -> Reply
    ensures { result ≡ loaded_as word }
{
    match word {
        Word::Nil => Reply::Nil,
        Word::Num(number) => Reply::Num(number),
        Word::Ref(_) => Reply::Ref,
    }
}
