//! Why a heap isn't opened, and why something isn't done on it.

ghost use Rattle.std.specs.Prelude.{◌≡◌};

use std::alloc::AllocError;
use thiserror::Error;

/// Why a heap isn't opened: the first limit that is out of its range, or memory.
#[derive(Clone, Copy, PartialEq, Eq, Debug, Error)]
pub enum OpenError {
    #[error("a heap has from 1 to 16 lanes")]
    Lanes,
    #[error("a heap has from 1 to 64 domains")]
    Domains,
    #[error("a domain has from 1 to 256 root slots")]
    Slots,
    #[error("a heap has from 1 to 4096 superpages")]
    Superpages,
    #[error("a lane has from 1 to 16 nursery pages")]
    Nursery,
    #[error("a lane has from 1 to 4096 write-buffer entries")]
    Buffer,
    #[error("a heap has at least two frames more than the nursery pages of all lanes")]
    Frames,
    #[error("a collection has from 1 to 16 workers")]
    Workers,
    #[error("out of memory")]
    NoMemory,
}

impl From<AllocError> for OpenError {
    ghost use Rattle.sorvekla.specs.declared.errors.OpenError.TheVariants.{NoMemory};

    ghost from_gives = { λ _ error. error ≡ NoMemory };

    fn from(_error: AllocError) -> OpenError {
        OpenError::NoMemory
    }
}

/// Why something isn't done. The heap goes on after each of these.
#[derive(Clone, Copy, PartialEq, Eq, Debug, Error)]
pub enum HeapError {
    /// What is reached from the root slots needs so many superpages, and there are only so many. The heap stands for what it stood for.
    #[error("out of heap: {need} superpages needed of {superpages}")]
    OutOfHeap { need: u64, superpages: u32 },
    /// There is no such lane.
    #[error("no such lane")]
    NoLane,
    /// There is no such domain.
    #[error("no such domain")]
    NoDomain,
    /// There is no such root slot.
    #[error("no such root slot")]
    NoSlot,
    /// A number of fields above 127, the number of a field above 126, or a number of 2^63 or more.
    #[error("an object has up to 127 fields, and a number is below 2^63")]
    OutOfRange,
    /// The lane has made 4,294,967,295 objects, and can do no more operations.
    #[error("the lane has made 4294967295 objects")]
    NoBirthLeft,
    /// All root slots of the domain are handed out.
    #[error("no root slot of the domain is left")]
    NoRootLeft,
    /// The root slot holds no object.
    #[error("the root slot holds no object")]
    NotObject,
    /// The object has no such field.
    #[error("the object has no such field")]
    NoField,
    /// Another lane holds the domain of a slot or of an object.
    #[error("the lane doesn't hold the domain")]
    Foreign,
    /// The domain of the slot or of the object that would be written is frozen: all lanes may read it, and none may write it.
    #[error("the domain is frozen")]
    Frozen,
}
