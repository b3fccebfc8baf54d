//! An operation of a lane, with every reason why it may not be done.

ghost use Rattle.std.specs.Prelude.{◌≡◌, ◌↔◌, ◌<◌, IsTrue};
ghost use Rattle.bc_mutator.specs.Operations.{IsOpOf};

use bc_model::{Op, Slot};
use bc_mutator::Stop;
use bc_superpages::Roots;

/// Why an operation wasn't done.
#[derive(Clone, Copy, PartialEq, Eq, Debug)]
pub enum Halt {
    /// The lane has to wait for a collection.
    Stopped(Stop),
    /// There is no such lane, or it names a slot, a field or a number that no heap of these root slots has.
    OutOfRange,
    /// The lane has no birth left.
    NoBirthLeft,
}

impl From<Stop> for Halt {
    ghost use Rattle.heap_workshop.specs.declared.operations.Halt.TheVariants.{Stopped};

    ghost from_gives = { λ stop halt. halt ≡ Stopped stop };

    fn from(stop: Stop) -> Halt {
        Halt::Stopped(stop)
    }
}

/// Are the operation's slots, fields and numbers in range?
pub(crate) fn fits(roots: &Roots, op: &Op) -> bool
    ensures { IsTrue result ↔ IsOpOf roots.now op.now }
{
    match *op {
        Op::New(slot, fields) => has_slot(roots, slot) && fields <= 127,
        Op::Who(slot) | Op::Len(slot) | Op::Clear(slot) => has_slot(roots, slot),
        Op::Set(slot, index, number) => has_slot(roots, slot) && index < 127 && number < 1 << 63,
        Op::Cut(slot, index) => has_slot(roots, slot) && index < 127,
        Op::Link(first, index, second) | Op::Load(first, index, second) => {
            has_slot(roots, first) && index < 127 && has_slot(roots, second)
        }
        Op::Copy(first, second) | Op::Same(first, second) => {
            has_slot(roots, first) && has_slot(roots, second)
        }
    }
}

/// Is there such a slot?
fn has_slot(roots: &Roots, slot: Slot) -> bool
    ensures { IsTrue result ↔ ((slot.domain < roots.now.domains) × (slot.slot < roots.now.slots)) }
{
    slot.domain < roots.domains() && slot.slot < roots.slots()
}
