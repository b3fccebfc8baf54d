//! Reading an object that lies in a cell or in the lane's chunk.

ghost use Rattle.std.specs.Prelude.{◌≡◌, ◌⊎◌, ◌<◌, ◌≤◌, slice_index_or};
ghost use Rattle.bc_superpages.specs.Layout.{Layout};
ghost use Rattle.bc_whole_heap.specs.Closed.{IsCellOrYoung};
ghost use Rattle.bc_whole_heap.specs.Heaps.{end_of};
ghost use Rattle.bc_word.specs.WordBits.{FitsWord};
ghost use Rattle.bc_word.specs.declared.words.Word.TheVariants.{Nil};
ghost use Rattle.bc_mutator.specs.Objects.{cell_of};
ghost use Rattle.bc_mutator.specs.Parts.{IsInHand, IsSpaceOf};

use crate::cells::Cells;
use bc_nursery::Chunk;
use bc_word::{Address, Head, Word};

/// Where an object that a lane looks at lies.
#[derive(Clone, Copy, PartialEq, Eq, Debug)]
pub(crate) enum ObjectPlace {
    /// In a cell of a superpage.
    Cell,
    /// In the lane's chunk, past the superpages.
    Chunk,
}

/// Where the object at an address lies: whatever is below the end of the superpages is a cell.
pub(crate) fn place_of_object<C: Cells>(cells: &C, at: Address) -> ObjectPlace
    ensures cell { result ≡ ObjectPlace.Cell → (s : Layout) → C.shows cells.now s → at.0 < end_of s }
    ensures chunk { result ≡ ObjectPlace.Chunk → (s : Layout) → C.shows cells.now s → end_of s ≤ at.0 }
{
    if at.0 < cells.end() {
        ObjectPlace::Cell
    } else {
        ObjectPlace::Chunk
    }
}

/// The domain of an object. Where it lies in a cell, the cell's page isn't looked at.
pub(crate) fn domain_at<C: Cells>(cells: &C, chunk: &Chunk, at: Address) -> u32
    requires there { (s : Layout) × IsSpaceOf (C.shows cells.now) chunk.now s × IsCellOrYoung s chunk.now at.0 }
    requires known { IsInHand (C.shows cells.now) (C.knows cells.now) at }
    ensures domain { (s : Layout) → IsSpaceOf (C.shows cells.now) chunk.now s → IsCellOrYoung s chunk.now at.0
        → result ≡ (cell_of s chunk.now at.0).head.domain }
    ensures side { ((s : Layout) → C.shows cells.now s → at.0 < end_of s) ⊎ ((s : Layout) → C.shows cells.now s → end_of s ≤ at.0) }
{
    match place_of_object(cells, at) {
        ObjectPlace::Cell => cells.domain(at),
        ObjectPlace::Chunk => chunk.head(at).domain,
    }
}

/// The head of an object.
pub(crate) fn head_at<C: Cells>(cells: &C, chunk: &Chunk, at: Address) -> Head
    requires there { (s : Layout) × IsSpaceOf (C.shows cells.now) chunk.now s × IsCellOrYoung s chunk.now at.0 }
    requires hand { IsInHand (C.shows cells.now) (C.at_hand cells.now) at }
    ensures head { (s : Layout) → IsSpaceOf (C.shows cells.now) chunk.now s → IsCellOrYoung s chunk.now at.0
        → result ≡ (cell_of s chunk.now at.0).head }
{
    match place_of_object(cells, at) {
        ObjectPlace::Cell => cells.head(at),
        ObjectPlace::Chunk => chunk.head(at),
    }
}

/// A field of an object. The index counts from 0.
pub(crate) fn field_at<C: Cells>(cells: &C, chunk: &Chunk, at: Address, index: u32) -> Word
    requires there { (s : Layout) × IsSpaceOf (C.shows cells.now) chunk.now s × IsCellOrYoung s chunk.now at.0
        × (index < (cell_of s chunk.now at.0).head.fields) }
    requires hand { IsInHand (C.shows cells.now) (C.at_hand cells.now) at }
    ensures field { (s : Layout) → IsSpaceOf (C.shows cells.now) chunk.now s → IsCellOrYoung s chunk.now at.0
        → index < (cell_of s chunk.now at.0).head.fields
        → result ≡ slice_index_or (cell_of s chunk.now at.0).fields index Nil }
    ensures fits { FitsWord result }
{
    match place_of_object(cells, at) {
        ObjectPlace::Cell => cells.field(at, index),
        ObjectPlace::Chunk => chunk.field(at, index),
    }
}
