//! What a device answers when it fails, and the name of the error when memory runs out.

use std::alloc::AllocError;
use std::error::Error;
use std::fmt;

/// Memory ran out. Every call that takes memory may return it.
pub type NoMemory = AllocError;

/// A read or a write failed, and the device has counted it.
#[derive(Clone, Copy, Debug, PartialEq, Eq)]
pub struct Failed;

impl fmt::Display for Failed {
    ghost use Rattle.std.specs.Prelude.{Some, codes};

    ghost output = { λ _. Some (codes "the device failed") };

    fn fmt<W: fmt::Write>(&self, f: &mut fmt::Formatter<W>) -> fmt::Result {
        write!(f, "the device failed")
    }
}

impl Error for Failed {}
