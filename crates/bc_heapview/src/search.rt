//! The search from the root slots on, in breadth, which finds each object by its least way.

ghost use Rattle.std.specs.Prelude.{◌≡◌, ℕ, ◌+◌, ◌*◌, ◌^◌, ◌<◌, ◌≤◌, List, length, slice_index, IfOk, OnOk, vec_len};
ghost use Rattle.bc_image.specs.Cells.{CellList};
ghost use Rattle.bc_word.specs.WordBits.{IsPacked};
ghost use Rattle.bc_image.specs.Memories.{cell_at};
ghost use Rattle.bc_heapview.specs.Targets.{IsIndex, AllPacked};
ghost use Rattle.bc_heapview.specs.Searches.{found_after, seen_after, find_at, IsSearched, SlotsNoted, FieldsNoted};

use crate::indexes::{Index, target};
use bc_image::Cell;
use std::alloc::{AllocError, Global};

/// How an object was found: a root slot refers to it, or a field of an object that was found before.
#[derive(Clone, Copy)]
pub(crate) enum Origin {
    Slot(u32),
    /// The number of that find, and of the field.
    Field(u32, u32),
}

/// An object that was found: its number, and how.
#[derive(Clone, Copy)]
pub(crate) struct Found {
    pub node: u32,
    pub origin: Origin,
}

/// Takes an object up, unless it was found before.
fn note(
    found: &mut Vec<Found>,
    seen: &mut Vec<bool>,
    node: u32,
    origin: Origin,
) -> Result<(), AllocError>
    requires { node < length seen.old.items }
    ensures found { OnOk result (found.new.items ≡ found_after found.old.items seen.old.items node origin) }
    ensures seen { OnOk result (seen.new.items ≡ seen_after seen.old.items node) }
{
    if !seen[node as usize] {
        seen[node as usize] = true;
        found.push(Found { node, origin })?;
    }
    Ok(())
}

/// Takes up what the root slots refer to, in their order.
fn note_slots(
    index: &Index,
    roots: &[u64],
    cells: &[Cell],
    found: &mut Vec<Found>,
    seen: &mut Vec<bool>,
) -> Result<(), AllocError>
    requires slots { length roots.now < 2 ^ 32 }
    requires index { IsIndex cells.now index.now }
    requires packed { AllPacked roots.now cells.now }
    requires begun { SlotsNoted roots.now cells.now found.old.items seen.old.items 0 }
    ensures { OnOk result (FieldsNoted roots.now cells.now found.new.items seen.new.items 0 0) }
{
    for (place, bits) in roots.iter().enumerate() {
        if let Some(node) = target(index, cells, *bits) {
            note(found, seen, node, Origin::Slot(place as u32))?;
        }
    }
    Ok(())
}

/// Takes up what the fields of a find refer to, in their order.
fn note_fields(
    index: &Index,
    fields: &[u64],
    entry: u32,
    cells: &[Cell],
    found: &mut Vec<Found>,
    seen: &mut Vec<bool>,
) -> Result<(), AllocError>
    requires fields { (i : ℕ) → i < length fields.now → IsPacked (slice_index fields.now i) }
    requires few { length fields.now < 2 ^ 32 }
    requires index { IsIndex cells.now index.now }
    requires entry { entry < length found.old.items }
    requires sized { length seen.old.items ≡ length cells.now }
    requires node { fields.now ≡ (cell_at cells.now (find_at found.old.items entry).node).fields }
    ensures { (roots : List ℕ) → FieldsNoted roots cells.now found.old.items seen.old.items entry 0
        → OnOk result (FieldsNoted roots cells.now found.new.items seen.new.items (entry + 1) 0) }
{
    for (i, bits) in fields.iter().enumerate() {
        if let Some(node) = target(index, cells, *bits) {
            note(found, seen, node, Origin::Field(entry, i as u32))?;
        }
    }
    Ok(())
}

/// All objects that the root slots lead to, in the order of their least ways.
pub(crate) fn search(
    alloc: Global,
    index: &Index,
    roots: &[u64],
    cells: &[Cell],
) -> Result<Vec<Found>, AllocError>
    requires few { length cells.now + 1 < 2 ^ 32 }
    requires slots { length roots.now < 2 ^ 32 }
    requires index { IsIndex cells.now index.now }
    requires packed { AllPacked roots.now cells.now }
    ensures searched { IfOk result (λ found. IsSearched roots.now cells.now found.items) }
    ensures few { IfOk result (λ found. length found.items ≤ length cells.now) }
{
    let mut found: Vec<Found> = Vec::new(alloc);
    let mut seen = vec![in alloc; false; cells.len()]?;
    note_slots(index, roots, cells, &mut found, &mut seen)?;
    let mut entry = 0;
    while entry < found.len() {
        let node = found[entry].node as usize;
        let cell = &cells[node];
        note_fields(
            index,
            &cell.fields,
            entry as u32,
            cells,
            &mut found,
            &mut seen,
        )?;
        entry += 1;
    }
    Ok(found)
}
