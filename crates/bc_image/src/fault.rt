//! What may be wrong with an image.

ghost use Rattle.std.specs.Prelude.{◌≡◌};
ghost use Rattle.bc_image.specs.declared.fault.ReadImage.TheVariants.{NoMemory};

use std::alloc::{AllocError, AllocFailed};

/// The first test that an item fails.
#[derive(Clone, Copy, Debug, PartialEq, Eq)]
pub enum ImageCause {
    /// Fewer than 8 bytes are there.
    Short,
    /// The first item isn't an image's.
    Magic,
    /// A number is out of its range.
    Range,
    /// An address or a head is wrong.
    Cell,
    /// An earlier object has the birth.
    Twice,
    /// A reference names no object of the image.
    Link,
    /// Bytes follow the image.
    Rest,
}

/// Where the first item begins that fails a test, and which. `at` is how many bytes stand before that item: 8 for each item before it.
#[derive(Clone, Copy, Debug, PartialEq, Eq)]
pub struct ImageFault {
    pub at: u64,
    pub cause: ImageCause,
}

/// Why there is no listing.
#[derive(Clone, Copy, Debug, PartialEq, Eq)]
pub enum ReadImage {
    Fault(ImageFault),
    NoMemory,
}

impl From<AllocError> for ReadImage {
    ghost from_gives = { λ _ e. e ≡ NoMemory };

    fn from(_error: AllocError) -> ReadImage {
        ReadImage::NoMemory
    }
}

impl<T: Drop> From<AllocFailed<T>> for ReadImage {
    ghost from_gives = { λ _ e. e ≡ NoMemory };

    fn from(_error: AllocFailed<T>) -> ReadImage {
        ReadImage::NoMemory
    }
}
