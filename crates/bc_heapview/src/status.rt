//! How a view ends: its status, and the exit status and the line on standard error that say so.

ghost use Rattle.std.specs.Prelude.{◌≡◌};
ghost use Rattle.bc_heapview.specs.ViewStatuses.{view_exit_code, view_fault_of};

use bc_image::{ImageCause, ReadImage};
use bc_io::ReadAll;
use std::fmt;
use thiserror::Error;

/// How a view ended.
#[derive(Clone, Copy, Debug, PartialEq, Eq)]
pub enum ViewStatus {
    /// The answer is written.
    Done,
    /// The words are no question. Nothing was read or written.
    BadWords,
    /// The input is no image, or bytes follow it: the first fault. Nothing was written.
    BadImage { at: u64, cause: ImageCause },
    /// The input is longer than 134,217,728 bytes. Nothing was written.
    TooLong,
    /// The source failed. Nothing was written.
    ReadFault,
    /// The sink failed. A prefix of the answer is written.
    WriteFault,
    /// Memory ran out. Nothing was written.
    NoMemory,
}

impl From<ReadAll> for ViewStatus {
    ghost use Rattle.bc_heapview.specs.ViewStatuses.{unread_view};

    ghost from_gives = { λ error status. status ≡ unread_view error };

    /// The status of a view whose input was not read to its end.
    fn from(error: ReadAll) -> ViewStatus {
        match error {
            ReadAll::TooLong => ViewStatus::TooLong,
            ReadAll::ReadFault => ViewStatus::ReadFault,
            ReadAll::NoMemory => ViewStatus::NoMemory,
        }
    }
}

impl From<ReadImage> for ViewStatus {
    ghost use Rattle.bc_heapview.specs.ViewStatuses.{image_refusal};

    ghost from_gives = { λ error status. status ≡ image_refusal error };

    /// The status of a view whose input is no image.
    fn from(error: ReadImage) -> ViewStatus {
        match error {
            ReadImage::Fault(fault) => ViewStatus::BadImage {
                at: fault.at,
                cause: fault.cause,
            },
            ReadImage::NoMemory => ViewStatus::NoMemory,
        }
    }
}

/// What is wrong with a view, as the line on standard error says it.
#[derive(Clone, Copy, Debug, Error)]
pub enum ViewFault {
    BadWords,
    BadImage { at: u64 },
    TooLong,
    ReadFault,
    WriteFault,
    NoMemory,
}

impl fmt::Display for ViewFault {
    ghost use Rattle.std.specs.Prelude.{Some};
    ghost use Rattle.bc_heapview.specs.ViewStatuses.{view_fault_text};

    ghost output = { λ fault. Some (view_fault_text fault) };

    fn fmt<W: fmt::Write>(&self, f: &mut fmt::Formatter<W>) -> fmt::Result {
        match *self {
            ViewFault::BadWords => write!(f, "bc_heapview: bad command line"),
            ViewFault::BadImage { at } => write!(f, "bc_heapview: bad image at {at}"),
            ViewFault::TooLong => write!(f, "bc_heapview: input longer than 134217728 bytes"),
            ViewFault::ReadFault => write!(f, "bc_heapview: read failed"),
            ViewFault::WriteFault => write!(f, "bc_heapview: write failed"),
            ViewFault::NoMemory => write!(f, "bc_heapview: out of memory"),
        }
    }
}

impl ViewStatus {
    /// What is wrong with the view, if it wasn't done.
    pub fn fault(self) -> Option<ViewFault>
        ensures { result ≡ view_fault_of self }
    {
        match self {
            ViewStatus::Done => None,
            ViewStatus::BadWords => Some(ViewFault::BadWords),
            ViewStatus::BadImage { at, .. } => Some(ViewFault::BadImage { at }),
            ViewStatus::TooLong => Some(ViewFault::TooLong),
            ViewStatus::ReadFault => Some(ViewFault::ReadFault),
            ViewStatus::WriteFault => Some(ViewFault::WriteFault),
            ViewStatus::NoMemory => Some(ViewFault::NoMemory),
        }
    }

    /// The exit status of the program.
    pub fn exit_code(self) -> u8
        ensures { result ≡ view_exit_code self }
    {
        match self {
            ViewStatus::Done => 0,
            ViewStatus::BadWords => 2,
            ViewStatus::BadImage { .. } => 8,
            ViewStatus::TooLong => 3,
            ViewStatus::ReadFault => 4,
            ViewStatus::WriteFault => 5,
            ViewStatus::NoMemory => 7,
        }
    }
}
