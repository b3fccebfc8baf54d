//! The answers to a lane that asks about its slots.

ghost use Rattle.std.specs.Prelude.{◌≡◌, ◌≢◌, ◌⊎◌, true};
ghost use Rattle.bc_model.specs.State.{holder_of, lets_read};
ghost use Rattle.bc_model.specs.declared.operations.Op.TheVariants.{Who, Len, Same};
ghost use Rattle.bc_superpages.specs.RootWords.{RootWords};
ghost use Rattle.bc_whole_heap.specs.Heaps.{HeapView};
ghost use Rattle.bc_mutator.specs.Effects.{Answers};
ghost use Rattle.bc_mutator.specs.Objects.{slot_word};
ghost use Rattle.bc_mutator.specs.Operations.{IsOpOf};
ghost use Rattle.bc_mutator.specs.Parts.{Sees, SlotLeadsToHand, SlotLeadsToHandIn};

use crate::cells::Cells;
use crate::objects::object;
use crate::reading::head_at;
use crate::root_slots::RootSlots;
use bc_model::{Birth, Holder, Reply, Slot};
use bc_nursery::Chunk;
use bc_word::Word;

/// What the slot holds, an object by its birth, if the lane may read the object's domain.
pub(crate) fn who<C: Cells, R: RootSlots>(
    cells: &C,
    roots: &R,
    chunk: &Chunk,
    holders: &[Holder],
    lane: u32,
    slot: Slot,
) -> Reply
    requires sees { (h : HeapView) × Sees (C.shows cells.now) (R.shows roots.now) chunk.now holders.now lane (Who slot) h }
    requires held { lets_read (holder_of holders.now slot.domain) lane ≡ true }
    requires slots { R.at_hand roots.now slot.domain }
    requires known { SlotLeadsToHand (C.shows cells.now) (R.shows roots.now) (C.knows cells.now) slot }
    requires hand { SlotLeadsToHandIn (C.shows cells.now) (R.shows roots.now) (C.at_hand cells.now) (λ d. lets_read (holder_of holders.now d) lane) slot }
    ensures { (h : HeapView) → Sees (C.shows cells.now) (R.shows roots.now) chunk.now holders.now lane (Who slot) h
        → Answers h holders.now lane (Who slot) result }
{
    let word = roots.word(slot);
    match word {
        Word::Nil => Reply::Nil,
        Word::Num(number) => Reply::Num(number),
        Word::Ref(_) => match object(cells, chunk, holders, lane, word) {
            Ok(at) => {
                let head = head_at(cells, chunk, at);
                Reply::Obj(Birth {
                    lane: head.lane,
                    serial: head.serial,
                })
            }
            Err(reply) => reply,
        },
    }
}

/// How many fields the slot's object has.
pub(crate) fn length_of<C: Cells, R: RootSlots>(
    cells: &C,
    roots: &R,
    chunk: &Chunk,
    holders: &[Holder],
    lane: u32,
    slot: Slot,
) -> Reply
    requires sees { (h : HeapView) × Sees (C.shows cells.now) (R.shows roots.now) chunk.now holders.now lane (Len slot) h }
    requires held { lets_read (holder_of holders.now slot.domain) lane ≡ true }
    requires slots { R.at_hand roots.now slot.domain }
    requires known { SlotLeadsToHand (C.shows cells.now) (R.shows roots.now) (C.knows cells.now) slot }
    requires hand { SlotLeadsToHandIn (C.shows cells.now) (R.shows roots.now) (C.at_hand cells.now) (λ d. lets_read (holder_of holders.now d) lane) slot }
    ensures { (h : HeapView) → Sees (C.shows cells.now) (R.shows roots.now) chunk.now holders.now lane (Len slot) h
        → Answers h holders.now lane (Len slot) result }
{
    match object(cells, chunk, holders, lane, roots.word(slot)) {
        Ok(at) => Reply::Len(head_at(cells, chunk, at).fields),
        Err(reply) => reply,
    }
}

/// Whether two slots hold the same value: their words are the same.
pub(crate) fn same<R: RootSlots>(roots: &R, first: Slot, second: Slot) -> Reply
    requires slots { (r : RootWords) × R.shows roots.now r × IsOpOf r (Same first second) }
    requires hand { R.at_hand roots.now first.domain × R.at_hand roots.now second.domain }
    ensures told { ((result ≡ Reply.Yes) × ((r : RootWords) → R.shows roots.now r → IsOpOf r (Same first second) → slot_word r first ≡ slot_word r second))
        ⊎ ((result ≡ Reply.No) × ((r : RootWords) → R.shows roots.now r → IsOpOf r (Same first second) → slot_word r first ≢ slot_word r second)) }
{
    if roots.word(first) == roots.word(second) {
        Reply::Yes
    } else {
        Reply::No
    }
}
