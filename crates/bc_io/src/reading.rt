//! Reading a source to its end.

ghost use Rattle.std.specs.Prelude.{◌≡◌, ◌≢◌, ℕ, ◌+◌, ◌<◌, ◌≤◌, List, ◌++◌, Ok, Err, Some, length, take, drop, IfOk, OnOk, OnErr, IfSome, vec_len};
ghost use Rattle.std.specs.Io.KnownBytes.{IsAtEnd};
ghost use Rattle.bc_io.specs.Faults.{Rose};
ghost use Rattle.bc_io.specs.Told.{LeftFalls, GivesAtMost, GivesExactly};

use crate::faults::Failed;
use crate::sources::Source;
use std::alloc::{AllocError, Global};
use std::error::Error;
use std::fmt;

/// `read_all` asks for at least this many bytes in a call, or for as many as the limit leaves and
/// one more.
const LEAST_ASKED: usize = 4096;

/// Why a source was not read to its end.
#[derive(Clone, Copy, Debug, PartialEq, Eq)]
pub enum ReadAll {
    /// It gave more bytes than the limit.
    TooLong,
    /// A read failed, and the source has counted it.
    ReadFault,
    /// Memory ran out.
    NoMemory,
}

impl fmt::Display for ReadAll {
    ghost use Rattle.std.specs.Prelude.{Some};
    ghost use Rattle.bc_io.specs.Texts.{text_of};

    ghost output = { λ fault. Some (text_of fault) };

    fn fmt<W: fmt::Write>(&self, f: &mut fmt::Formatter<W>) -> fmt::Result {
        match self {
            ReadAll::TooLong => write!(f, "the input is too long"),
            ReadAll::ReadFault => write!(f, "reading failed"),
            ReadAll::NoMemory => write!(f, "out of memory"),
        }
    }
}

impl Error for ReadAll {}

impl From<AllocError> for ReadAll {
    ghost use Rattle.std.specs.Prelude.{◌≡◌};
    ghost use Rattle.bc_io.specs.declared.reading.ReadAll.TheVariants.{NoMemory};

    ghost from_gives = { λ _ error. error ≡ NoMemory };

    fn from(_error: AllocError) -> ReadAll {
        ReadAll::NoMemory
    }
}

impl From<Failed> for ReadAll {
    ghost use Rattle.std.specs.Prelude.{◌≡◌};
    ghost use Rattle.bc_io.specs.declared.reading.ReadAll.TheVariants.{ReadFault};

    ghost from_gives = { λ _ error. error ≡ ReadFault };

    fn from(_error: Failed) -> ReadAll {
        ReadAll::ReadFault
    }
}

/// All bytes of a source up to its end, of which there may be at most `limit`. Each read but the
/// last gives at least one byte, so it ends after at most `limit + 1` of them.
///
/// After a `ReadFault` or `NoMemory` some bytes of the source may be lost: those that were read
/// until then.
pub fn read_all<S: Source>(alloc: Global, source: &mut S, limit: usize) -> Result<Vec<u8>, ReadAll>
    // All bytes up to the end.
    ensures all { IfOk result (λ bytes. IfSome (S.left source.old) (λ left. bytes.items ≡ left)) }
    ensures given { IfOk result (λ bytes.
        LeftFalls (S.left source.old) (S.left source.new) bytes.items) }
    ensures at_end { OnOk result (IsAtEnd (S.left source.new)) }
    ensures short { IfOk result (λ bytes. vec_len bytes ≤ limit) }

    // It is too long exactly where reads without a fault have given one byte more than the limit.
    ensures too_long_given { result ≡ Err ReadAll.TooLong
        → GivesExactly (S.left source.old) (S.left source.new) (limit + 1) }
    ensures fewer { result ≢ Err ReadAll.TooLong
        → GivesAtMost (S.left source.old) (S.left source.new) limit }
    ensures too_long { result ≡ Err ReadAll.TooLong
        → IfSome (S.left source.old) (λ left. limit < length left) }
    ensures one_more { result ≡ Err ReadAll.TooLong
        → IfSome (S.left source.old) (λ left. S.left source.new ≡ Some (drop (limit + 1) left)) }

    ensures read_fault { result ≡ Err ReadAll.ReadFault
        → Rose (S.faults source.old) (S.faults source.new) }
    ensures firm { result ≢ Err ReadAll.ReadFault → S.faults source.new ≡ S.faults source.old }
    ensures later { S.faults source.old ≤ S.faults source.new }

    // Whatever comes of it, what was read is a prefix of what was left.
    ensures front { GivesAtMost (S.left source.old) (S.left source.new) (limit + 1) }
{
    let mut bytes = Vec::new(alloc);
    let mut filled = 0;
    loop {
        let asked = (limit - filled).min(LEAST_ASKED - 1) + 1;
        let count = read_behind(source, &mut bytes, filled, asked)?;
        if count == 0 {
            bytes.truncate(filled);
            return Ok(bytes);
        }
        if count > limit - filled {
            return Err(ReadAll::TooLong);
        }
        filled += count;
    }
}

/// Reads at most `asked` bytes to after the first `filled` of `bytes`, and says how many.
fn read_behind<S: Source>(
    source: &mut S,
    bytes: &mut Vec<u8>,
    filled: usize,
    asked: usize,
) -> Result<usize, ReadAll>
    requires filled { filled ≤ vec_len bytes.old }
    requires asked { 0 < asked }
    requires few { asked ≤ 4096 }
    ensures within { IfOk result (λ count. count ≤ asked) }
    ensures room { IfOk result (λ count. filled + count ≤ vec_len bytes.new) }
    ensures given { IfOk result (λ count. (given : List ℕ) × (length given ≡ count)
        × (take (filled + count) bytes.new.items ≡ take filled bytes.old.items ++ given)
        × LeftFalls (S.left source.old) (S.left source.new) given) }
    ensures at_end { result ≡ Ok 0 → IsAtEnd (S.left source.new) }
    ensures not_too_long { result ≢ Err ReadAll.TooLong }
    ensures kept { OnErr result (S.left source.new ≡ S.left source.old) }
    ensures read_fault { result ≡ Err ReadAll.ReadFault
        → Rose (S.faults source.old) (S.faults source.new) }
    ensures firm { result ≢ Err ReadAll.ReadFault → S.faults source.new ≡ S.faults source.old }
    ensures later { S.faults source.old ≤ S.faults source.new }
{
    let end = filled + asked;
    make_room(bytes, filled, end)?;
    let count = source.read(&mut bytes[filled..end])?;
    Ok(count)
}

/// Sees to it that `bytes` has `end` bytes at least. Of those that it had the first `filled` stay.
fn make_room(bytes: &mut Vec<u8>, filled: usize, end: usize) -> Result<(), AllocError>
    requires { filled ≤ vec_len bytes.old }
    ensures front { take filled bytes.new.items ≡ take filled bytes.old.items }
    ensures room { OnOk result (end ≤ vec_len bytes.new) }
    ensures err { OnErr result (vec_len bytes.old ≤ vec_len bytes.new) }
{
    if bytes.len() < end {
        bytes.resize(end, 0)?;
    }
    Ok(())
}
