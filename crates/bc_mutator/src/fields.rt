//! A field of a slot's object becomes another word.

ghost use Rattle.std.specs.Prelude.{◌≡◌, ℕ, true, IfOk, IfErr, OnErr};
ghost use Rattle.bc_model.specs.State.{holder_of, lets_read, lets_write};
ghost use Rattle.bc_model.specs.declared.operations.Op.{Op};
ghost use Rattle.bc_model.specs.declared.operations.Op.TheVariants.{Set, Cut, Link};
ghost use Rattle.bc_whole_heap.specs.Heaps.{HeapView};
ghost use Rattle.bc_word.specs.WordBits.{FitsWord};
ghost use Rattle.bc_mutator.specs.Effects.{DidAct, IsWrite, StopsAt};
ghost use Rattle.bc_mutator.specs.Operations.{NeedsEntry};
ghost use Rattle.bc_mutator.specs.Parts.{IsPartOf, OwnsPages, Serves, ServesField, SlotLeadsToHand, SlotLeadsToHandIn};

use crate::cells::Cells;
use crate::objects::own_object_with_field;
use crate::operations::Stop;
use crate::root_slots::RootSlots;
use crate::writing::write_field;
use bc_model::{Holder, Reply, Slot};
use bc_nursery::{Chunk, WriteBuffer};
use bc_word::Word;

/// The field of the slot's object becomes the number.
pub(crate) fn set<C: Cells, R: RootSlots>(
    cells: &mut C,
    roots: &R,
    chunk: &mut Chunk,
    buffer: &mut WriteBuffer,
    holders: &[Holder],
    lane: u32,
    slot: Slot,
    index: u32,
    number: u64,
) -> Result<Reply, Stop>
    requires serves { (h : HeapView) × Serves (C.shows cells.old) (R.shows roots.now) chunk.old buffer.old holders.now lane (Set slot index number) h }
    requires held { lets_read (holder_of holders.now slot.domain) lane ≡ true }
    requires slots { R.at_hand roots.now slot.domain }
    requires pages { OwnsPages (C.shows cells.old) holders.now lane (C.at_hand cells.old) (C.is_own cells.old) }
    requires known { SlotLeadsToHand (C.shows cells.old) (R.shows roots.now) (C.knows cells.old) slot }
    requires hand { SlotLeadsToHandIn (C.shows cells.old) (R.shows roots.now) (C.at_hand cells.old) (λ d. lets_write (holder_of holders.now d) lane) slot }
    ensures done { IfOk result (λ reply. (h : HeapView)
        → Serves (C.shows cells.old) (R.shows roots.now) chunk.old buffer.old holders.now lane (Set slot index number) h
        → (k : HeapView) × IsPartOf (C.shows cells.new) (R.shows roots.now) chunk.new buffer.new lane k
        × ((serial : ℕ) → DidAct h k holders.now lane serial serial (Set slot index number) reply)) }
    ensures never { OnErr result ⊥ }
    ensures hand { (page : ℕ) → C.at_hand cells.old page → C.at_hand cells.new page }
    ensures own { (page : ℕ) → C.is_own cells.old page → C.is_own cells.new page }
{
    write(
        cells,
        roots,
        chunk,
        buffer,
        holders,
        lane,
        slot,
        index,
        Word::Num(number),
    )
}

/// The field of the slot's object becomes nil.
pub(crate) fn cut<C: Cells, R: RootSlots>(
    cells: &mut C,
    roots: &R,
    chunk: &mut Chunk,
    buffer: &mut WriteBuffer,
    holders: &[Holder],
    lane: u32,
    slot: Slot,
    index: u32,
) -> Result<Reply, Stop>
    requires serves { (h : HeapView) × Serves (C.shows cells.old) (R.shows roots.now) chunk.old buffer.old holders.now lane (Cut slot index) h }
    requires held { lets_read (holder_of holders.now slot.domain) lane ≡ true }
    requires slots { R.at_hand roots.now slot.domain }
    requires pages { OwnsPages (C.shows cells.old) holders.now lane (C.at_hand cells.old) (C.is_own cells.old) }
    requires known { SlotLeadsToHand (C.shows cells.old) (R.shows roots.now) (C.knows cells.old) slot }
    requires hand { SlotLeadsToHandIn (C.shows cells.old) (R.shows roots.now) (C.at_hand cells.old) (λ d. lets_write (holder_of holders.now d) lane) slot }
    ensures done { IfOk result (λ reply. (h : HeapView)
        → Serves (C.shows cells.old) (R.shows roots.now) chunk.old buffer.old holders.now lane (Cut slot index) h
        → (k : HeapView) × IsPartOf (C.shows cells.new) (R.shows roots.now) chunk.new buffer.new lane k
        × ((serial : ℕ) → DidAct h k holders.now lane serial serial (Cut slot index) reply)) }
    ensures never { OnErr result ⊥ }
    ensures hand { (page : ℕ) → C.at_hand cells.old page → C.at_hand cells.new page }
    ensures own { (page : ℕ) → C.is_own cells.old page → C.is_own cells.new page }
{
    write(
        cells,
        roots,
        chunk,
        buffer,
        holders,
        lane,
        slot,
        index,
        Word::Nil,
    )
}

/// The field of the first slot's object becomes what the second slot holds.
pub(crate) fn link<C: Cells, R: RootSlots>(
    cells: &mut C,
    roots: &R,
    chunk: &mut Chunk,
    buffer: &mut WriteBuffer,
    holders: &[Holder],
    lane: u32,
    slot: Slot,
    index: u32,
    from: Slot,
) -> Result<Reply, Stop>
    requires serves { (h : HeapView) × Serves (C.shows cells.old) (R.shows roots.now) chunk.old buffer.old holders.now lane (Link slot index from) h }
    requires held { (lets_read (holder_of holders.now slot.domain) lane ≡ true) × (lets_read (holder_of holders.now from.domain) lane ≡ true) }
    requires slots { R.at_hand roots.now slot.domain × R.at_hand roots.now from.domain }
    requires pages { OwnsPages (C.shows cells.old) holders.now lane (C.at_hand cells.old) (C.is_own cells.old) }
    requires known { SlotLeadsToHand (C.shows cells.old) (R.shows roots.now) (C.knows cells.old) slot }
    requires hand { SlotLeadsToHandIn (C.shows cells.old) (R.shows roots.now) (C.at_hand cells.old) (λ d. lets_write (holder_of holders.now d) lane) slot }
    ensures done { IfOk result (λ reply. (h : HeapView)
        → Serves (C.shows cells.old) (R.shows roots.now) chunk.old buffer.old holders.now lane (Link slot index from) h
        → (k : HeapView) × IsPartOf (C.shows cells.new) (R.shows roots.now) chunk.new buffer.new lane k
        × ((serial : ℕ) → DidAct h k holders.now lane serial serial (Link slot index from) reply)) }
    ensures same { OnErr result ((cells.new ≡ cells.old) × (chunk.new ≡ chunk.old) × (buffer.new ≡ buffer.old)) }
    ensures full { OnErr result ((h : HeapView)
        → Serves (C.shows cells.old) (R.shows roots.now) chunk.old buffer.old holders.now lane (Link slot index from) h
        → NeedsEntry holders.now lane h.space h.roots chunk.old buffer.old (Link slot index from)) }
    ensures stop { IfErr result (λ stop. stop ≡ Stop.BufferFull) }
    ensures hand { (page : ℕ) → C.at_hand cells.old page → C.at_hand cells.new page }
    ensures own { (page : ℕ) → C.is_own cells.old page → C.is_own cells.new page }
{
    let word = roots.word(from);
    write(
        cells, roots, chunk, buffer, holders, lane, slot, index, word,
    )
}

/// The field of the slot's object becomes what the word is read as. It stops, and changes nothing, only where the object
/// has the field and lies in a cell, the word refers to the lane's chunk and the lane's write buffer is at capacity.
fn write<C: Cells, R: RootSlots>(
    cells: &mut C,
    roots: &R,
    chunk: &mut Chunk,
    buffer: &mut WriteBuffer,
    holders: &[Holder],
    lane: u32,
    slot: Slot,
    index: u32,
    word: Word,
) -> Result<Reply, Stop>
    requires serves { (h : HeapView) × ServesField (C.shows cells.old) (R.shows roots.now) chunk.old buffer.old holders.now lane slot word h }
    requires held { lets_read (holder_of holders.now slot.domain) lane ≡ true }
    requires slots { R.at_hand roots.now slot.domain }
    requires pages { OwnsPages (C.shows cells.old) holders.now lane (C.at_hand cells.old) (C.is_own cells.old) }
    requires known { SlotLeadsToHand (C.shows cells.old) (R.shows roots.now) (C.knows cells.old) slot }
    requires hand { SlotLeadsToHandIn (C.shows cells.old) (R.shows roots.now) (C.at_hand cells.old) (λ d. lets_write (holder_of holders.now d) lane) slot }
    requires fits { FitsWord word }
    ensures done { IfOk result (λ reply. (h : HeapView)
        → ServesField (C.shows cells.old) (R.shows roots.now) chunk.old buffer.old holders.now lane slot word h
        → (k : HeapView) × IsPartOf (C.shows cells.new) (R.shows roots.now) chunk.new buffer.new lane k
        × ((serial : ℕ) → (op : Op) → IsWrite h k holders.now lane serial slot index word op reply → DidAct h k holders.now lane serial serial op reply)) }
    ensures same { OnErr result ((cells.new ≡ cells.old) × (chunk.new ≡ chunk.old) × (buffer.new ≡ buffer.old)) }
    ensures full { OnErr result ((h : HeapView)
        → ServesField (C.shows cells.old) (R.shows roots.now) chunk.old buffer.old holders.now lane slot word h
        → StopsAt h holders.now lane slot index word) }
    ensures stop { IfErr result (λ stop. stop ≡ Stop.BufferFull) }
    ensures hand { (page : ℕ) → C.at_hand cells.old page → C.at_hand cells.new page }
    ensures own { (page : ℕ) → C.is_own cells.old page → C.is_own cells.new page }
{
    let target = roots.word(slot);
    match own_object_with_field(cells, chunk, holders, lane, target, index) {
        Ok(at) => {
            write_field(cells, chunk, buffer, at, index, word)?;
            Ok(Reply::Done)
        }
        Err(reply) => Ok(reply),
    }
}
