//! The items of superpages: what their objects are, how many, and each of them.

ghost use Rattle.std.specs.Prelude.{◌≡◌, ℕ, ◌+◌, ◌*◌, ◌/◌, ◌%◌, ◌<◌, ◌≤◌, true, [], ◌∷◌, List, length, map, Some, drop, OnOk, OnErr, slice_index};
ghost use Rattle.std.specs.List.{flat_map};
ghost use Rattle.bc_bits.specs.Bits.{has};
ghost use Rattle.bc_bookmarks.specs.Moves.{MovesPages};
ghost use Rattle.bc_image.specs.Images.{cell_items, group_items};
ghost use Rattle.bc_memory.specs.Memory.{Cell};
ghost use Rattle.bc_picture.specs.Readable.{CanBeRead};
ghost use Rattle.bc_picture.specs.SpaceListing.{item_bytes, listed_cell, listed_from};
ghost use Rattle.bc_picture.specs.Streams.{stream_of, HasStreamRoom, Puts, Breaks};
ghost use Rattle.bc_superpages.specs.Calls.{IsAtHand};
ghost use Rattle.bc_superpages.specs.Layout.{superpages};
ghost use Rattle.bc_superpages.specs.LayoutAt.{IsAllocated};
ghost use Rattle.bc_superpages.specs.Memory.{memory};
ghost use Rattle.bc_word.specs.WordBits.{word_bits};

use crate::putting::{put, put_all};
use crate::reading::{count_cells, open};
use crate::waiting::Waiting;
use bc_bits::contains;
use bc_classes::cap;
use bc_io::{Sink, WriteFault};
use bc_superpages::Space;
use bc_word::{Address, pack, pack_head};

/// Puts the items of a superpage: 0 where no cell is allocated.
pub(crate) fn put_superpage<K: Sink>(
    sink: &mut K,
    waiting: &mut Waiting,
    space: &mut Space,
    superpage: u32,
) -> Result<(), WriteFault>
    requires readable { CanBeRead space.old }
    requires superpage { superpage < superpages space.old }
    requires room { HasStreamRoom (stream_of (K.held sink.old) (K.room sink.old) (K.faults sink.old) waiting.old) (item_bytes (group_items (listed_from (memory space.old) (2048 * superpage) 2048))) }
    ensures puts { OnOk result (Puts (stream_of (K.held sink.old) (K.room sink.old) (K.faults sink.old) waiting.old)
        (stream_of (K.held sink.new) (K.room sink.new) (K.faults sink.new) waiting.new) (item_bytes (group_items (listed_from (memory space.old) (2048 * superpage) 2048)))) }
    ensures breaks { OnErr result (Breaks (stream_of (K.held sink.old) (K.room sink.old) (K.faults sink.old) waiting.old)
        (stream_of (K.held sink.new) (K.room sink.new) (K.faults sink.new) waiting.new) (item_bytes (group_items (listed_from (memory space.old) (2048 * superpage) 2048)))) }
    ensures moves { MovesPages space.old space.new }
{
    space.facts();
    let header = space.header(superpage);
    let class = header.class;
    let domain = header.domain;
    let count = count_cells(header);
    if count == 0 {
        return put(sink, waiting, 0);
    }
    put_all(
        sink,
        waiting,
        &[u64::from(class) + 256 * u64::from(domain), u64::from(count)],
    )?;
    put_cells(sink, waiting, space, superpage, class)
}

/// Puts the objects of a superpage of this class.
fn put_cells<K: Sink>(
    sink: &mut K,
    waiting: &mut Waiting,
    space: &mut Space,
    superpage: u32,
    class: u32,
) -> Result<(), WriteFault>
    requires readable { CanBeRead space.old }
    requires superpage { superpage < superpages space.old }
    requires class { class ≡ slice_index space.old.classes superpage }
    requires room { HasStreamRoom (stream_of (K.held sink.old) (K.room sink.old) (K.faults sink.old) waiting.old) (item_bytes (flat_map cell_items (listed_from (memory space.old) (2048 * superpage) 2048))) }
    ensures puts { OnOk result (Puts (stream_of (K.held sink.old) (K.room sink.old) (K.faults sink.old) waiting.old)
        (stream_of (K.held sink.new) (K.room sink.new) (K.faults sink.new) waiting.new) (item_bytes (flat_map cell_items (listed_from (memory space.old) (2048 * superpage) 2048)))) }
    ensures breaks { OnErr result (Breaks (stream_of (K.held sink.old) (K.room sink.old) (K.faults sink.old) waiting.old)
        (stream_of (K.held sink.new) (K.room sink.new) (K.faults sink.new) waiting.new) (item_bytes (flat_map cell_items (listed_from (memory space.old) (2048 * superpage) 2048)))) }
    ensures moves { MovesPages space.old space.new }
{
    space.facts();
    for number in 0..cap(class) {
        put_at(
            sink,
            waiting,
            space,
            Address::of_cell(superpage, class, number),
        )?;
    }
    Ok(())
}

/// Puts the object of a cell, if the cell is allocated.
fn put_at<K: Sink>(
    sink: &mut K,
    waiting: &mut Waiting,
    space: &mut Space,
    cell: Address,
) -> Result<(), WriteFault>
    requires readable { CanBeRead space.old }
    requires superpage { cell.0 / 2048 < superpages space.old }
    requires start { cell.0 % slice_index space.old.classes (cell.0 / 2048) ≡ 0 }
    requires room { HasStreamRoom (stream_of (K.held sink.old) (K.room sink.old) (K.faults sink.old) waiting.old) (item_bytes (flat_map cell_items (listed_cell cell.0 (memory space.old cell.0)))) }
    ensures puts { OnOk result (Puts (stream_of (K.held sink.old) (K.room sink.old) (K.faults sink.old) waiting.old)
        (stream_of (K.held sink.new) (K.room sink.new) (K.faults sink.new) waiting.new) (item_bytes (flat_map cell_items (listed_cell cell.0 (memory space.old cell.0))))) }
    ensures breaks { OnErr result (Breaks (stream_of (K.held sink.old) (K.room sink.old) (K.faults sink.old) waiting.old)
        (stream_of (K.held sink.new) (K.room sink.new) (K.faults sink.new) waiting.new) (item_bytes (flat_map cell_items (listed_cell cell.0 (memory space.old cell.0))))) }
    ensures moves { MovesPages space.old space.new }
{
    space.facts();
    let header = space.header(cell.superpage());
    if !contains(&header.cells, cell.cell(header.class)) {
        return Ok(());
    }
    open(space, cell.page());
    put_object(sink, waiting, space, cell)
}

/// Puts the object of an allocated cell on a resident page.
fn put_object<K: Sink>(
    sink: &mut K,
    waiting: &mut Waiting,
    space: &Space,
    cell: Address,
) -> Result<(), WriteFault>
    requires cell { IsAtHand space.now cell.0 }
    requires room { HasStreamRoom (stream_of (K.held sink.old) (K.room sink.old) (K.faults sink.old) waiting.old) (item_bytes (flat_map cell_items (listed_cell cell.0 (memory space.now cell.0)))) }
    ensures puts { OnOk result (Puts (stream_of (K.held sink.old) (K.room sink.old) (K.faults sink.old) waiting.old)
        (stream_of (K.held sink.new) (K.room sink.new) (K.faults sink.new) waiting.new) (item_bytes (flat_map cell_items (listed_cell cell.0 (memory space.now cell.0))))) }
    ensures breaks { OnErr result (Breaks (stream_of (K.held sink.old) (K.room sink.old) (K.faults sink.old) waiting.old)
        (stream_of (K.held sink.new) (K.room sink.new) (K.faults sink.new) waiting.new) (item_bytes (flat_map cell_items (listed_cell cell.0 (memory space.now cell.0))))) }
{
    space.facts();
    let head = space.head(cell);
    put_all(sink, waiting, &[u64::from(cell.0), pack_head(head)])?;
    for index in 0..head.fields {
        let word = space.field(cell, index);
        put(sink, waiting, pack(word))?;
    }
    Ok(())
}
