//! What is wrong with a text that is no trace, and how the causes are written.
ghost use Rattle.std.specs.Prelude.{◌≡◌};
ghost use Rattle.bc_trace.specs.declared.fault.ReadTrace.TheVariants.{NoMemory};

use std::alloc::{AllocError, AllocFailed};
use std::fmt::{self, Display, Formatter, Write};

/// Why a text is no trace: which test of its first bad line fails, or how it ends.
#[derive(Clone, Copy, Debug, PartialEq, Eq)]
pub enum Cause {
    /// The line isn't words with single spaces between them, or has too few or too many operands.
    Form,
    /// The line begins with no word of the language, in the version that the first line says.
    Word,
    /// The word may not stand here, or something follows `done`.
    Order,
    /// An operand, or what follows its sign, is no number below 2^63, or isn't written as the language writes numbers.
    Number,
    /// An operand is out of its range.
    Range,
    /// The number of frames is out of its range, which other lines of the header give, or so many can't be withheld or returned.
    Frames,
    /// The text ends before `done`.
    End,
}

/// The one fault of a text that is no trace.
#[derive(Clone, Copy, Debug, PartialEq, Eq)]
pub struct TraceFault {
    /// The line, counted from 1; at the end of the text the last line that was begun, and 0 in an
    /// empty text.
    pub line: u32,
    pub cause: Cause,
}

/// Why no trace was read.
#[derive(Clone, Copy, Debug, PartialEq, Eq)]
pub enum ReadTrace {
    Fault(TraceFault),
    NoMemory,
}

impl Display for Cause {
    ghost use Rattle.bc_trace.specs.Causes.{cause_text};
    ghost use Rattle.std.specs.Prelude.{Some};

    ghost output = { λ c. Some (cause_text c) };

    fn fmt<W: Write>(&self, f: &mut Formatter<W>) -> fmt::Result {
        f.write_str(match self {
            Cause::Form => "form",
            Cause::Word => "word",
            Cause::Order => "order",
            Cause::Number => "number",
            Cause::Range => "range",
            Cause::Frames => "frames",
            Cause::End => "end",
        })
    }
}

impl From<AllocError> for ReadTrace {
    ghost from_gives = { λ _ e. e ≡ NoMemory };

    fn from(_error: AllocError) -> ReadTrace {
        ReadTrace::NoMemory
    }
}

impl<T: Drop> From<AllocFailed<T>> for ReadTrace {
    ghost from_gives = { λ _ e. e ≡ NoMemory };

    fn from(_error: AllocFailed<T>) -> ReadTrace {
        ReadTrace::NoMemory
    }
}
