//! The object that a word of the lane's refers to, or the reply that says what is wrong.

ghost use Rattle.std.specs.Prelude.{ℕ, ◌<◌, IfOk, IfErr, OnErr};
ghost use Rattle.bc_model.specs.Refusals.{IsRefusal};
ghost use Rattle.bc_model.specs.State.{holder_of, lets_read, lets_write};
ghost use Rattle.bc_whole_heap.specs.Heaps.{HeapView};
ghost use Rattle.bc_mutator.specs.Objects.{IsOfLane, IsOwnOfLane, ActsOn, Refuses, ActsOnField, ActsOnOwnField, RefusesField, RefusesOwnField, cell_of};
ghost use Rattle.bc_mutator.specs.Parts.{HasWord, IsInHand, LeadsToHand, LeadsToHandIn};

use crate::cells::Cells;
use crate::reading::{domain_at, head_at};
use bc_model::{Holder, Reply};
use bc_nursery::Chunk;
use bc_word::{Address, Word};

/// Where the object lies that a word of the lane's refers to, if the lane may read its domain, or the reply that says what
/// is wrong. The object's page isn't looked at.
pub(crate) fn object<C: Cells>(
    cells: &C,
    chunk: &Chunk,
    holders: &[Holder],
    lane: u32,
    word: Word,
) -> Result<Address, Reply>
    requires own { (h : HeapView) × HasWord (C.shows cells.now) chunk.now holders.now lane word h }
    requires known { LeadsToHand (C.shows cells.now) (C.knows cells.now) word }
    requires hand { LeadsToHandIn (C.shows cells.now) (C.at_hand cells.now) (λ d. lets_read (holder_of holders.now d) lane) word }
    ensures found { IfOk result (λ at. (h : HeapView) → HasWord (C.shows cells.now) chunk.now holders.now lane word h
        → IsOfLane h holders.now lane word at) }
    ensures acts { IfOk result (λ at. (h : HeapView) → HasWord (C.shows cells.now) chunk.now holders.now lane word h
        → ActsOn h holders.now lane word at) }
    ensures refuses { IfErr result (λ reply. (h : HeapView) → HasWord (C.shows cells.now) chunk.now holders.now lane word h
        → Refuses h holders.now lane word reply) }
    ensures hand { IfOk result (IsInHand (C.shows cells.now) (C.at_hand cells.now)) }
    ensures refusal { IfErr result IsRefusal }
    ensures none { OnErr result ((h : HeapView) → HasWord (C.shows cells.now) chunk.now holders.now lane word h
        → (a : Address) → IsOfLane h holders.now lane word a → ⊥) }
{
    let Word::Ref(at) = word else {
        return Err(Reply::NotObj);
    };
    let holder = holders[domain_at(cells, chunk, at) as usize];
    if holder.lets_read(lane) {
        Ok(at)
    } else {
        Err(Reply::Foreign)
    }
}

/// Where the object lies that a word of the lane's refers to, if the lane may read it and it has the field.
pub(crate) fn object_with_field<C: Cells>(
    cells: &C,
    chunk: &Chunk,
    holders: &[Holder],
    lane: u32,
    word: Word,
    index: u32,
) -> Result<Address, Reply>
    requires own { (h : HeapView) × HasWord (C.shows cells.now) chunk.now holders.now lane word h }
    requires known { LeadsToHand (C.shows cells.now) (C.knows cells.now) word }
    requires hand { LeadsToHandIn (C.shows cells.now) (C.at_hand cells.now) (λ d. lets_read (holder_of holders.now d) lane) word }
    ensures found { IfOk result (λ at. (h : HeapView) → HasWord (C.shows cells.now) chunk.now holders.now lane word h
        → IsOfLane h holders.now lane word at) }
    ensures index { IfOk result (λ at. (h : HeapView) → HasWord (C.shows cells.now) chunk.now holders.now lane word h
        → index < (cell_of h.space chunk.now at.0).head.fields) }
    ensures acts { IfOk result (λ at. (h : HeapView) → HasWord (C.shows cells.now) chunk.now holders.now lane word h
        → ActsOnField h holders.now lane word index at) }
    ensures refuses { IfErr result (λ reply. (h : HeapView) → HasWord (C.shows cells.now) chunk.now holders.now lane word h
        → RefusesField h holders.now lane word index reply) }
    ensures hand { IfOk result (IsInHand (C.shows cells.now) (C.at_hand cells.now)) }
    ensures refusal { IfErr result IsRefusal }
    ensures none { OnErr result ((h : HeapView) → HasWord (C.shows cells.now) chunk.now holders.now lane word h
        → (a : Address) → IsOfLane h holders.now lane word a → index < (cell_of h.space chunk.now a.0).head.fields → ⊥) }
{
    let at = object(cells, chunk, holders, lane, word)?;
    if index < head_at(cells, chunk, at).fields {
        Ok(at)
    } else {
        Err(Reply::Range)
    }
}

/// Where the object lies that a word of the lane's refers to, if the lane may write its domain, or the reply that says what
/// is wrong. The object's page isn't looked at.
fn own_object<C: Cells>(
    cells: &C,
    chunk: &Chunk,
    holders: &[Holder],
    lane: u32,
    word: Word,
) -> Result<Address, Reply>
    requires own { (h : HeapView) × HasWord (C.shows cells.now) chunk.now holders.now lane word h }
    requires known { LeadsToHand (C.shows cells.now) (C.knows cells.now) word }
    requires hand { LeadsToHandIn (C.shows cells.now) (C.at_hand cells.now) (λ d. lets_write (holder_of holders.now d) lane) word }
    ensures found { IfOk result (λ at. (h : HeapView) → HasWord (C.shows cells.now) chunk.now holders.now lane word h
        → IsOwnOfLane h holders.now lane word at) }
    ensures acts { IfOk result (λ at. (h : HeapView) → HasWord (C.shows cells.now) chunk.now holders.now lane word h
        → ActsOn h holders.now lane word at) }
    ensures refuses { IfErr result (λ reply. (h : HeapView) → HasWord (C.shows cells.now) chunk.now holders.now lane word h
        → (index : ℕ) → RefusesOwnField h holders.now lane word index reply) }
    ensures hand { IfOk result (IsInHand (C.shows cells.now) (C.at_hand cells.now)) }
    ensures refusal { IfErr result IsRefusal }
    ensures none { OnErr result ((h : HeapView) → HasWord (C.shows cells.now) chunk.now holders.now lane word h
        → (a : Address) → IsOwnOfLane h holders.now lane word a → ⊥) }
{
    let Word::Ref(at) = word else {
        return Err(Reply::NotObj);
    };
    let holder = holders[domain_at(cells, chunk, at) as usize];
    if holder.lets_write(lane) {
        Ok(at)
    } else if holder.lets_read(lane) {
        Err(Reply::Frozen)
    } else {
        Err(Reply::Foreign)
    }
}

/// Where the object lies that a word of the lane's refers to, if the lane may write it and it has the field.
pub(crate) fn own_object_with_field<C: Cells>(
    cells: &C,
    chunk: &Chunk,
    holders: &[Holder],
    lane: u32,
    word: Word,
    index: u32,
) -> Result<Address, Reply>
    requires own { (h : HeapView) × HasWord (C.shows cells.now) chunk.now holders.now lane word h }
    requires known { LeadsToHand (C.shows cells.now) (C.knows cells.now) word }
    requires hand { LeadsToHandIn (C.shows cells.now) (C.at_hand cells.now) (λ d. lets_write (holder_of holders.now d) lane) word }
    ensures found { IfOk result (λ at. (h : HeapView) → HasWord (C.shows cells.now) chunk.now holders.now lane word h
        → IsOwnOfLane h holders.now lane word at) }
    ensures index { IfOk result (λ at. (h : HeapView) → HasWord (C.shows cells.now) chunk.now holders.now lane word h
        → index < (cell_of h.space chunk.now at.0).head.fields) }
    ensures acts { IfOk result (λ at. (h : HeapView) → HasWord (C.shows cells.now) chunk.now holders.now lane word h
        → ActsOnOwnField h holders.now lane word index at) }
    ensures refuses { IfErr result (λ reply. (h : HeapView) → HasWord (C.shows cells.now) chunk.now holders.now lane word h
        → RefusesOwnField h holders.now lane word index reply) }
    ensures hand { IfOk result (IsInHand (C.shows cells.now) (C.at_hand cells.now)) }
    ensures refusal { IfErr result IsRefusal }
    ensures none { OnErr result ((h : HeapView) → HasWord (C.shows cells.now) chunk.now holders.now lane word h
        → (a : Address) → IsOwnOfLane h holders.now lane word a → index < (cell_of h.space chunk.now a.0).head.fields → ⊥) }
{
    let at = own_object(cells, chunk, holders, lane, word)?;
    let head = head_at(cells, chunk, at);
    if index < head.fields {
        Ok(at)
    } else {
        Err(Reply::Range)
    }
}
