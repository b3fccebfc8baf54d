//! Which object of a listing lies at an address.

ghost use Rattle.std.specs.Prelude.{◌≡◌, ℕ, ◌+◌, ◌*◌, ◌^◌, ◌<◌, ◌≤◌, ◌==◌, List, length, slice_index, IfOk};
ghost use Rattle.std.specs.Int.{bit_at};
ghost use Rattle.bc_bits.specs.Counting.{count_below};
ghost use Rattle.bc_image.specs.Cells.{CellList};
ghost use Rattle.bc_image.specs.Homes.{LieBelow};
ghost use Rattle.bc_image.specs.Memories.{number_at};
ghost use Rattle.bc_heapview.specs.Targets.{target_of, IsIndex, ArePacked, AreRanks, Rise};

use bc_image::{Cell, homes, is_there};
use bc_word::{Word, unpack};
use std::alloc::{AllocError, Global};

/// Where objects lie. Objects are listed by ascending addresses, so the number of an object is how many lie below it.
#[derive(Drop)]
pub(crate) struct Index {
    /// A bit for each address, set where an object lies.
    pub there: Vec<u64>,
    /// For each word of these how many bits are set in the words before it.
    pub before: Vec<u32>,
}

/// For each word how many bits are set in the words before it.
fn ranks(alloc: Global, there: &[u64]) -> Result<Vec<u32>, AllocError>
    requires { length there.now ≤ 2 ^ 17 }
    ensures { IfOk result (λ before. AreRanks there.now before.items) }
{
    let mut before = Vec::new(alloc);
    let mut total = 0;
    for word in 0..there.len() {
        before.push(total)?;
        total += there[word].count_ones();
    }
    Ok(before)
}

/// The index of objects that lie in so many superpages, by ascending addresses.
pub(crate) fn index_of(alloc: Global, cells: &[Cell], superpages: u32) -> Result<Index, AllocError>
    requires few { superpages ≤ 4096 }
    requires below { LieBelow cells.now (2048 * superpages) }
    requires rising { Rise cells.now }
    ensures { IfOk result (λ index. IsIndex cells.now index) }
{
    let there = homes(alloc, cells, 32 * superpages as usize)?;
    let before = ranks(alloc, &there)?;
    Ok(Index { there, before })
}

/// How many bits of a word are set below one of them.
fn set_below(word: u64, bit: u32) -> u32
    requires { bit < 64 }
    ensures { result ≡ count_below (λ j. bit_at word j == 1) bit }
{
    let one = 1u64 << bit;
    (word & (one - 1)).count_ones()
}

impl Index {
    /// The number of the object that lies at the address.
    fn number(&self, at: u32) -> Option<u32>
        requires { (cells : List CellList) × IsIndex cells self.now }
        ensures { (cells : List CellList) → IsIndex cells self.now → result ≡ number_at cells at }
    {
        if !is_there(&self.there, u64::from(at)) {
            return None;
        }
        let word = (at / 64) as usize;
        let before = self.before[word];
        let below = set_below(self.there[word], at % 64);
        Some(before + below)
    }
}

/// The number of the object that a word refers to.
pub(crate) fn target(index: &Index, cells: &[Cell], bits: u64) -> Option<u32>
    requires index { IsIndex cells.now index.now }
    requires packed { ArePacked bits }
    ensures { result ≡ target_of cells.now bits }
{
    match unpack(bits) {
        Word::Ref(address) => index.number(address.0),
        _ => None,
    }
}
