//! How a run that is fed ends: its status, and the exit status and the line on standard error that say so.

ghost use Rattle.std.specs.Prelude.{◌≡◌, ◌⊎◌, option_map};
ghost use Rattle.bc_replay.specs.Outcomes.{longest_trace};
ghost use Rattle.bc_replay.specs.PartEndings.{IsEnding, IsRefusedStatus};
ghost use Rattle.bc_replay.specs.Statuses.{exit_code_of, fault_of};
ghost use Rattle.bc_live.specs.Statuses.{as_status};

use bc_replay::{Fault, LONGEST_TRACE, NamedFault, Status};
use bc_trace::Cause;
use std::fmt;
use thiserror::Error;

/// How a run that is fed ended.
#[derive(Clone, Copy, Debug, PartialEq, Eq)]
pub enum LiveStatus {
    /// All replies and the last line are written.
    Done,
    /// The words aren't two or three numbers in their ranges. Nothing was read or written, and the feed is untouched.
    BadWords,
    /// The input is no trace: its first fault. Nothing was written, and the feed is untouched.
    BadTrace { line: u32, cause: Cause },
    /// The input is longer than 16,777,216 bytes. Nothing was written, and the feed is untouched.
    TooLong,
    /// The source failed. Nothing was written, and the feed is untouched.
    ReadFault,
    /// The sink failed. A prefix of what the run writes is written.
    WriteFault,
    /// The heap is too small: what is reached needs so many superpages. The replies before that are written, and the line of the need.
    OutOfHeap { need: u64 },
    /// Memory ran out. The whole texts of the phases before some phase are written, or nothing.
    NoMemory,
}

/// What is wrong with a run that is fed, as the line on standard error says it.
#[derive(Clone, Copy, Debug, Error)]
pub struct LiveFault {
    pub fault: Fault,
}

impl fmt::Display for LiveFault {
    ghost use Rattle.std.specs.Prelude.{Some, ◌++◌, codes};
    ghost use Rattle.bc_replay.specs.Statuses.{message_text};

    ghost output = { λ f. Some (codes "bc_live" ++ message_text f.fault) };

    fn fmt<W: fmt::Write>(&self, f: &mut fmt::Formatter<W>) -> fmt::Result {
        let named = NamedFault {
            program: "bc_live",
            fault: self.fault,
        };
        write!(f, "{named}")
    }
}

impl LiveStatus {
    /// The status of a run that ended so, or that was refused so.
    pub fn from_status(status: Status) -> LiveStatus
        requires { IsEnding status ⊎ IsRefusedStatus status }
        ensures { as_status result ≡ status }
    {
        match status {
            Status::Done => LiveStatus::Done,
            Status::BadTrace { line, cause } => LiveStatus::BadTrace { line, cause },
            Status::TooLong => LiveStatus::TooLong,
            Status::ReadFault => LiveStatus::ReadFault,
            Status::WriteFault => LiveStatus::WriteFault,
            Status::OutOfHeap { need } => LiveStatus::OutOfHeap { need },
            Status::NoMemory => LiveStatus::NoMemory,
            Status::BadWords | Status::BadImage { .. } | Status::Mismatch => unreachable!(),
        }
    }

    /// The same as the status of a run.
    fn status(self) -> Status
        ensures { result ≡ as_status self }
    {
        match self {
            LiveStatus::Done => Status::Done,
            LiveStatus::BadWords => Status::BadWords,
            LiveStatus::BadTrace { line, cause } => Status::BadTrace { line, cause },
            LiveStatus::TooLong => Status::TooLong,
            LiveStatus::ReadFault => Status::ReadFault,
            LiveStatus::WriteFault => Status::WriteFault,
            LiveStatus::OutOfHeap { need } => Status::OutOfHeap { need },
            LiveStatus::NoMemory => Status::NoMemory,
        }
    }

    /// What is wrong with the run, if it wasn't done.
    pub fn fault(self) -> Option<LiveFault>
        ensures { option_map (λ f. f.fault) result ≡ fault_of longest_trace (as_status self) }
    {
        match self.status().fault(LONGEST_TRACE as u64) {
            Some(fault) => Some(LiveFault { fault }),
            None => None,
        }
    }

    /// The exit status of the program.
    pub fn exit_code(self) -> u8
        ensures { result ≡ exit_code_of (as_status self) }
    {
        self.status().exit_code()
    }
}
