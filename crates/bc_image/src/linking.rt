//! References to nowhere: looked for once all items stand, among the words of what was read.

ghost use Rattle.std.specs.Prelude.{◌≡◌, ℕ, ◌+◌, ◌^◌, ◌<◌, ◌≤◌, ◌++◌, List, length, IfOk};
ghost use Rattle.bc_image.specs.Cells.{CellList};
ghost use Rattle.bc_image.specs.Faults.{leads_nowhere};
ghost use Rattle.bc_image.specs.Homes.{HasHomes, LieBelow};
ghost use Rattle.bc_image.specs.Numbered.{numbered, words_below, first_lost};
ghost use Rattle.bc_word.specs.Words.{word_of_bits};

use crate::addresses::{homes, is_there};
use crate::draft::Draft;
use crate::listing::Cell;
use std::alloc::{AllocError, Global};

/// An address above all objects.
fn end_of(cells: &[Cell]) -> usize
    ensures { LieBelow cells.now result }
{
    let mut end = 0;
    for cell in cells {
        let behind = cell.address.0 as usize + 1;
        if end < behind {
            end = behind;
        }
    }
    end
}

/// Whether a word leads nowhere.
#[tactic(auto, unfolding(bc_word::specs::Words::word_of_bits))]
fn is_lost(there: &[u64], bits: u64) -> bool
    ensures { (cells : List CellList) → HasHomes cells there.now → result ≡ leads_nowhere cells (word_of_bits bits) }
{
    if bits == 0 || bits % 2 == 1 {
        return false;
    }
    !is_there(there, bits / 2 - 1)
}

/// The number of the first of these words that leads nowhere. The first word is the item of this number.
fn lost_word(there: &[u64], words: &[u64], number: usize) -> Option<usize>
    requires { number ≤ 2 ^ 32 }
    ensures { (cells : List CellList) → HasHomes cells there.now → result ≡ first_lost cells (numbered number words.now) }
{
    for (place, bits) in words.iter().enumerate() {
        if is_lost(there, *bits) {
            return Some(number + place);
        }
    }
    None
}

/// The number of the first field that leads nowhere. The heads of the objects are the items of these numbers.
fn lost_field(there: &[u64], cells: &[Cell], heads: &[u32]) -> Option<usize>
    requires { length cells.now ≤ length heads.now }
    ensures { (all : List CellList) → HasHomes all there.now → result ≡ first_lost all (words_below heads.now cells.now (length cells.now)) }
{
    for index in 0..cells.len() {
        let cell = &cells[index];
        let first = heads[index] as usize + 1;
        if let Some(number) = lost_word(there, &cell.fields, first) {
            return Some(number);
        }
    }
    None
}

/// The number of the first word that refers to no object.
pub(crate) fn first_link(alloc: Global, draft: &Draft) -> Result<Option<usize>, AllocError>
    requires few { 10 + length draft.now.holders.items + length draft.now.births.items ≤ 2 ^ 32 }
    requires heads { length draft.now.cells.items ≤ length draft.now.heads.items }
    ensures { IfOk result (λ found. found ≡ first_lost draft.now.cells.items (numbered (10 + length draft.now.holders.items + length draft.now.births.items) draft.now.roots.items
        ++ words_below draft.now.heads.items draft.now.cells.items (length draft.now.cells.items))) }
{
    let words = end_of(&draft.cells) / 64 + 1;
    let there = homes(alloc, &draft.cells, words)?;
    let first = 10 + draft.holders.len() + draft.births.len();
    if let Some(number) = lost_word(&there, &draft.roots, first) {
        return Ok(Some(number));
    }
    Ok(lost_field(&there, &draft.cells, &draft.heads))
}
