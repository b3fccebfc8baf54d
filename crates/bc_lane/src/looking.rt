//! Where an operation looks: at a cell of the lane's own, at one of a frozen domain, at one of another lane's, or at none.

ghost use Rattle.std.specs.Prelude.{◌≡◌, ◌<◌, Option, IfNone, IfSome, OnSome};
ghost use Rattle.bc_lane.specs.Turns.{IsLaneTable, IsWhole, LaneMayName, LeadsToPageWhere, LooksAtObject, LooksTold};
ghost use Rattle.bc_mutator.specs.Operations.{IsOpOf};
ghost use Rattle.bc_mutator.specs.Parts.{touched_slot};
ghost use Rattle.bc_pins.specs.declared.holding.Held.{Held};
ghost use Rattle.bc_pins.specs.declared.views.View.{View};
ghost use Rattle.bc_pins.specs.Calls.{key_of};
ghost use Rattle.bc_whole_heap.specs.Heaps.{HeapView};
ghost use Rattle.bc_word.specs.Addresses.{page_of};
ghost use Rattle.bc_word.specs.declared.words.Word.TheVariants.{Ref};

use crate::parts::LanePart;
use crate::slots::word_in;
use bc_model::{Holder, Op};
use bc_mutator::{has_right, reads_all, touched, writes_target};
use bc_pins::Pins;
use bc_superpages::Roots;
use bc_word::{Address, Word};

/// Where an operation of a lane looks.
pub(crate) enum Looking {
    /// At no cell.
    Nowhere,
    /// At a cell of a domain that the lane holds, on this page.
    Own(u32),
    /// At a cell of a frozen domain, on this page, which it reads.
    Frozen(u32),
    /// At a cell of a domain that another lane holds.
    Foreign,
    /// At a cell of a frozen domain, which it would write.
    Sealed,
}

/// Returns where an operation of the lane looks.
pub(crate) fn looks(part: &LanePart, pins: &Pins, end: u32, op: &Op, shared: &Roots) -> Looking
    requires shared { part.now.shared.value ≡ shared.now }
    requires whole { (v : View) × (hand : Option Held) × (h : HeapView) × (v.about ≡ key_of pins.now) × IsWhole part.now v hand end h × IsOpOf h.roots op.now }
    requires table { IsLaneTable (key_of pins.now) part.now.holders.items }
    ensures told { LooksTold part.now (key_of pins.now) end op.now result }
{
    match cell_looked_at(part, end, op, shared) {
        Some(at) => {
            let domain = pins.header(at.superpage()).domain;
            match part.holders[domain as usize] {
                Holder::Lane(lane) => {
                    if lane == part.lane {
                        Looking::Own(at.page())
                    } else {
                        Looking::Foreign
                    }
                }
                Holder::Frozen => {
                    if has_right(&part.holders, part.lane, op, domain) {
                        Looking::Frozen(at.page())
                    } else {
                        Looking::Sealed
                    }
                }
            }
        }
        None => Looking::Nowhere,
    }
}

/// The address of the cell that an operation of the lane looks at, if it looks at one.
fn cell_looked_at(part: &LanePart, end: u32, op: &Op, shared: &Roots) -> Option<Address>
    requires shared { part.now.shared.value ≡ shared.now }
    requires whole { (v : View) × (hand : Option Held) × (h : HeapView) × IsWhole part.now v hand end h × IsOpOf h.roots op.now }
    ensures none { IfNone result (LaneMayName part.now op.now → LeadsToPageWhere part.now end op.now (λ _. ⊥)) }
    ensures named { OnSome result (LaneMayName part.now op.now) }
    ensures below { IfSome result (λ at. at.0 < end) }
    ensures leads { IfSome result (λ at. LeadsToPageWhere part.now end op.now (λ q. q ≡ page_of at.0)) }
    ensures looks { IfSome result (λ at. (v : View) → (hand : Option Held) → (h : HeapView) → IsWhole part.now v hand end h → IsOpOf h.roots op.now
        → LooksAtObject h.roots (touched_slot op.now) at) }
{
    if !reads_all(&part.holders, part.lane, op) || !writes_target(&part.holders, part.lane, op) {
        return None;
    }
    cell_in_slot(part, end, op, shared)
}

/// The address of the cell that an operation of the lane looks at, if it looks at one: where the lane may read all slots that the operation
/// names, and write the one that it writes.
fn cell_in_slot(part: &LanePart, end: u32, op: &Op, shared: &Roots) -> Option<Address>
    requires shared { part.now.shared.value ≡ shared.now }
    requires whole { (v : View) × (hand : Option Held) × (h : HeapView) × IsWhole part.now v hand end h × IsOpOf h.roots op.now }
    requires named { LaneMayName part.now op.now }
    ensures none { IfNone result (LaneMayName part.now op.now → LeadsToPageWhere part.now end op.now (λ _. ⊥)) }
    ensures below { IfSome result (λ at. at.0 < end) }
    ensures leads { IfSome result (λ at. LeadsToPageWhere part.now end op.now (λ q. q ≡ page_of at.0)) }
    ensures looks { IfSome result (λ at. (v : View) → (hand : Option Held) → (h : HeapView) → IsWhole part.now v hand end h → IsOpOf h.roots op.now
        → LooksAtObject h.roots (touched_slot op.now) at) }
{
    match touched(op) {
        Some(slot) => referred_below(
            word_in(&part.holders, &part.starts, &part.words, shared, slot),
            end,
        ),
        None => None,
    }
}

/// What the word refers to, if that lies below the end.
fn referred_below(word: Word, end: u32) -> Option<Address>
    ensures none { IfNone result ((at : Address) → word ≡ Ref at → at.0 < end → ⊥) }
    ensures some { IfSome result (λ at. (word ≡ Ref at) × (at.0 < end)) }
{
    match word {
        Word::Ref(at) => { if at.0 < end { Some(at) } else { None } }
        Word::Nil | Word::Num(_) => None,
    }
}
