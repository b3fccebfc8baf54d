//! Births of objects, what fields and root slots hold, the slots themselves, and who holds domains.

ghost use Rattle.std.specs.Prelude.{◌≡◌};
ghost use Rattle.bc_model.specs.State.{lets_read, lets_write};

/// The name of an object for its whole life: the lane that made it, and how many objects that
/// lane had made by then, itself counted (so the first serial is 1).
#[derive(Clone, Copy, Debug, PartialEq, Eq)]
pub struct Birth {
    pub lane: u32,
    pub serial: u32,
}

/// What a field or a root slot holds.
#[derive(Clone, Copy, Debug, PartialEq, Eq)]
pub enum Value {
    Nil,
    /// A number below 2^63.
    Num(u64),
    /// A reference to the object of that birth.
    Obj(Birth),
}

/// A root slot: slot `slot` of domain `domain`, both counted from 0.
#[derive(Clone, Copy, Debug, PartialEq, Eq)]
pub struct Slot {
    pub domain: u32,
    pub slot: u32,
}

/// Who holds a domain: a lane, which alone reads and writes it, or nobody, where it is frozen: then every lane may read it, and
/// none may write it.
#[derive(Clone, Copy, Debug, PartialEq, Eq)]
pub enum Holder {
    Lane(u32),
    Frozen,
}

impl Holder {
    /// Whether the lane may read what is in a domain of this holder.
    pub fn lets_read(self, lane: u32) -> bool
        ensures { result ≡ lets_read self lane }
    {
        match self {
            Holder::Lane(holder) => holder == lane,
            Holder::Frozen => true,
        }
    }

    /// Whether the lane may write what is in a domain of this holder.
    pub fn lets_write(self, lane: u32) -> bool
        ensures { result ≡ lets_write self lane }
    {
        match self {
            Holder::Lane(holder) => holder == lane,
            Holder::Frozen => false,
        }
    }
}
