//! The operations of a lane, the slots that they name, and the replies to them.

ghost use Rattle.std.specs.Prelude.{◌≡◌};
ghost use Rattle.bc_model.specs.Slots.{slots_of, domains_in, AreSlots, IsTarget};
ghost use Rattle.bc_model.specs.Step.{domains_of, target_of};
ghost use Rattle.bc_model.specs.WellFormed.{IsOp};
ghost use Rattle.bc_model.specs.declared.traces.Setup.{Setup};

use crate::values::{Birth, Slot};

/// What a lane does in one step. Fields count from 0.
#[derive(Clone, Copy, Debug, PartialEq, Eq)]
pub enum Op {
    /// A new object of so many nil fields in the slot's domain; the slot refers to it.
    New(Slot, u32),
    /// What the slot holds, an object by its birth.
    Who(Slot),
    /// The number of fields of the slot's object.
    Len(Slot),
    /// The field of the slot's object becomes the number.
    Set(Slot, u32, u64),
    /// The field of the slot's object becomes nil.
    Cut(Slot, u32),
    /// The field of the first slot's object becomes what the second slot holds.
    Link(Slot, u32, Slot),
    /// The second slot becomes what the field of the first slot's object holds.
    Load(Slot, u32, Slot),
    /// The second slot becomes what the first one holds.
    Copy(Slot, Slot),
    /// The slot becomes nil.
    Clear(Slot),
    /// Whether two slots hold the same value.
    Same(Slot, Slot),
}

impl Op {
    /// The root slot that the operation writes, if it writes one.
    pub fn target(&self) -> Option<Slot>
        ensures target { result ≡ target_of self.now }
        ensures within { (s : Setup) → IsOp s self.now → IsTarget s result }
    {
        match *self {
            Op::New(slot, _) | Op::Clear(slot) => Some(slot),
            Op::Load(_, _, slot) | Op::Copy(_, slot) => Some(slot),
            _ => None,
        }
    }

    /// The root slots that the operation names: the first, and the second where it names two.
    pub fn slots(&self) -> (Slot, Option<Slot>)
        ensures slots { result ≡ slots_of self.now }
        ensures domains { domains_of self.now ≡ domains_in result.0 result.1 }
        ensures within { (s : Setup) → IsOp s self.now → AreSlots s result.0 result.1 }
    {
        match *self {
            Op::New(slot, _)
            | Op::Who(slot)
            | Op::Len(slot)
            | Op::Set(slot, _, _)
            | Op::Cut(slot, _)
            | Op::Clear(slot) => (slot, None),
            Op::Link(first, _, second)
            | Op::Load(first, _, second)
            | Op::Copy(first, second)
            | Op::Same(first, second) => (first, Some(second)),
        }
    }
}

/// What a lane is answered.
#[derive(Clone, Copy, Debug, PartialEq, Eq)]
pub enum Reply {
    Obj(Birth),
    Done,
    Nil,
    Num(u64),
    /// A reference. Its birth isn't part of the reply.
    Ref,
    Len(u32),
    Yes,
    No,
    /// The slot holds no object.
    NotObj,
    /// The object has no such field.
    Range,
    /// A domain that the lane may not read: it is another lane's.
    Foreign,
    /// A domain that nobody may write: it is frozen.
    Frozen,
}
