//! How a run ends: its status, and the exit status and the line on standard error that say so.

ghost use Rattle.std.specs.Prelude.{◌≡◌};
ghost use Rattle.bc_replay.specs.Statuses.{exit_code_of, fault_of};

use bc_image::{ImageCause, ReadImage};
use bc_io::{ReadAll, WriteFault};
use bc_trace::{Cause, ReadTrace};
use std::alloc::AllocError;
use std::fmt;
use thiserror::Error;

/// How a run ended.
#[derive(Clone, Copy, Debug, PartialEq, Eq)]
pub enum Status {
    /// All replies and the last line are written, by `save` the image.
    Done,
    /// The words are no command. Nothing was read or written.
    BadWords,
    /// The input is no trace: its first fault. Nothing was written.
    BadTrace { line: u32, cause: Cause },
    /// The input is longer than the command allows. Nothing was written.
    TooLong,
    /// The source failed. Nothing was written.
    ReadFault,
    /// The sink failed. A prefix of what the run writes is written.
    WriteFault,
    /// The heap is too small: what is reached needs so many superpages. The replies before that are written, and the line of
    /// the need; by `save` nothing.
    OutOfHeap { need: u64 },
    /// Memory ran out. The whole texts of the phases before some phase are written, or nothing; by `churn` and `save` nothing.
    NoMemory,
    /// The input begins with no image: where its first item begins that fails a test, and which. Nothing was written.
    BadImage { at: u64, cause: ImageCause },
    /// Image and trace don't go together, or the trace has fewer phases than are to be saved. Nothing was written.
    Mismatch,
}

impl From<ReadAll> for Status {
    ghost use Rattle.bc_replay.specs.Statuses.{unread};

    ghost from_gives = { λ error status. status ≡ unread error };

    /// The status of a run whose input was not read to its end.
    fn from(error: ReadAll) -> Status {
        match error {
            ReadAll::TooLong => Status::TooLong,
            ReadAll::ReadFault => Status::ReadFault,
            ReadAll::NoMemory => Status::NoMemory,
        }
    }
}

impl From<ReadTrace> for Status {
    ghost use Rattle.bc_replay.specs.Statuses.{refusal_of};

    ghost from_gives = { λ error status. status ≡ refusal_of error };

    /// The status of a run whose input is no trace.
    fn from(error: ReadTrace) -> Status {
        match error {
            ReadTrace::Fault(fault) => Status::BadTrace {
                line: fault.line,
                cause: fault.cause,
            },
            ReadTrace::NoMemory => Status::NoMemory,
        }
    }
}

impl From<ReadImage> for Status {
    ghost use Rattle.bc_replay.specs.Statuses.{unscanned};

    ghost from_gives = { λ error status. status ≡ unscanned error };

    /// The status of a run whose input begins with no image.
    fn from(error: ReadImage) -> Status {
        match error {
            ReadImage::Fault(fault) => Status::BadImage {
                at: fault.at,
                cause: fault.cause,
            },
            ReadImage::NoMemory => Status::NoMemory,
        }
    }
}

/// How a replay ends before its last line.
#[derive(Clone, Copy, Debug, PartialEq, Eq)]
pub(crate) enum Ending {
    WriteFault,
    OutOfHeap { need: u64 },
    NoMemory,
}

impl From<AllocError> for Ending {
    ghost use Rattle.bc_replay.specs.declared.status.Ending.TheVariants.{NoMemory};

    ghost from_gives = { λ _ ending. ending ≡ NoMemory };

    fn from(_error: AllocError) -> Ending {
        Ending::NoMemory
    }
}

impl From<WriteFault> for Ending {
    ghost use Rattle.bc_replay.specs.declared.status.Ending.TheVariants.{WriteFault};

    ghost from_gives = { λ _ ending. ending ≡ WriteFault };

    fn from(_error: WriteFault) -> Ending {
        Ending::WriteFault
    }
}

/// What is wrong with a run, as the line on standard error says it.
#[derive(Clone, Copy, Debug, Error)]
pub enum Fault {
    BadWords,
    BadTrace { line: u32, cause: Cause },
    /// The most bytes that the input may have.
    TooLong { most: u64 },
    ReadFault,
    WriteFault,
    OutOfHeap { need: u64 },
    NoMemory,
    BadImage { at: u64 },
    Mismatch,
}

impl fmt::Display for Fault {
    ghost use Rattle.std.specs.Prelude.{Some};
    ghost use Rattle.bc_replay.specs.Statuses.{fault_text};

    ghost output = { λ fault. Some (fault_text fault) };

    fn fmt<W: fmt::Write>(&self, f: &mut fmt::Formatter<W>) -> fmt::Result {
        let named = NamedFault {
            program: "bc",
            fault: *self,
        };
        write!(f, "{named}")
    }
}

/// The line on standard error of a program of this name.
#[derive(Clone, Copy, Debug)]
pub struct NamedFault<'a> {
    pub program: &'a str,
    pub fault: Fault,
}

impl<'a> fmt::Display for NamedFault<'a> {
    ghost use Rattle.std.specs.Prelude.{Some, ◌++◌};
    ghost use Rattle.bc_replay.specs.Statuses.{message_text};

    ghost output = { λ named. Some (named.program.now ++ message_text named.fault) };

    fn fmt<W: fmt::Write>(&self, f: &mut fmt::Formatter<W>) -> fmt::Result {
        let program = self.program;
        match self.fault {
            Fault::BadWords => write!(f, "{program}: bad command line"),
            Fault::BadTrace { line, cause } => write!(f, "{program}: line {line}: {cause}"),
            Fault::TooLong { most } => write!(f, "{program}: input longer than {most} bytes"),
            Fault::ReadFault => write!(f, "{program}: read failed"),
            Fault::WriteFault => write!(f, "{program}: write failed"),
            Fault::OutOfHeap { need } => {
                write!(f, "{program}: out of heap, {need} superpages needed")
            }
            Fault::NoMemory => write!(f, "{program}: out of memory"),
            Fault::BadImage { at } => write!(f, "{program}: bad image at {at}"),
            Fault::Mismatch => write!(f, "{program}: image and trace differ"),
        }
    }
}

impl Status {
    /// What is wrong with the run, if it wasn't done. Its input may have had so many bytes at most.
    pub fn fault(self, most: u64) -> Option<Fault>
        ensures { result ≡ fault_of most self }
    {
        match self {
            Status::Done => None,
            Status::BadWords => Some(Fault::BadWords),
            Status::BadTrace { line, cause } => Some(Fault::BadTrace { line, cause }),
            Status::TooLong => Some(Fault::TooLong { most }),
            Status::ReadFault => Some(Fault::ReadFault),
            Status::WriteFault => Some(Fault::WriteFault),
            Status::OutOfHeap { need } => Some(Fault::OutOfHeap { need }),
            Status::NoMemory => Some(Fault::NoMemory),
            Status::BadImage { at, .. } => Some(Fault::BadImage { at }),
            Status::Mismatch => Some(Fault::Mismatch),
        }
    }

    /// The exit status of the program.
    pub fn exit_code(self) -> u8
        ensures { result ≡ exit_code_of self }
    {
        match self {
            Status::Done => 0,
            Status::BadWords => 2,
            Status::BadTrace { .. } | Status::TooLong => 3,
            Status::ReadFault => 4,
            Status::WriteFault => 5,
            Status::OutOfHeap { .. } => 6,
            Status::NoMemory => 7,
            Status::BadImage { .. } => 8,
            Status::Mismatch => 9,
        }
    }
}
