//! Where objects lie: a bit for each address.

ghost use Rattle.std.specs.Prelude.{◌≡◌, ◌*◌, ◌<◌, ◌/◌, ◌%◌, length, IfOk};
ghost use Rattle.bc_bits.specs.Bits.{has};
ghost use Rattle.bc_bits.specs.BitChanges.{with_bit};
ghost use Rattle.bc_image.specs.Homes.{HasHomes, LieBelow};

use crate::listing::Cell;
use std::alloc::{AllocError, Global};

/// Notes that an object lies at the address.
#[tactic(auto, unfolding(bc_bits::specs::BitChanges::with_bit))]
fn note_home(there: &mut Vec<u64>, at: u32)
    requires { at < 64 * length there.old.items }
    ensures { there.new.items ≡ with_bit there.old.items at }
{
    let word = (at / 64) as usize;
    there[word] = there[word] | (1 << (at % 64));
}

/// For each address the bit that tells whether an object lies there, in so many words.
pub fn homes(alloc: Global, cells: &[Cell], words: usize) -> Result<Vec<u64>, AllocError>
    requires { LieBelow cells.now (64 * words) }
    ensures homes { IfOk result (λ there. HasHomes cells.now there.items) }
    ensures sized { IfOk result (λ there. length there.items ≡ words) }
{
    let mut there = vec![in alloc; 0u64; words]?;
    for cell in cells {
        note_home(&mut there, cell.address.0);
    }
    Ok(there)
}

/// Whether the bit of the address is set.
pub fn is_there(there: &[u64], at: u64) -> bool
    ensures { result ≡ has there.now at }
{
    let word = at / 64;
    if word >= there.len() as u64 {
        return false;
    }
    there[word as usize] & (1 << (at % 64) as u32) != 0
}
