//! The fast way over a line: each function takes off what good text begins with, in one look at each byte.
//!
//! Where it answers None nothing is said: such text is left to the exact way, which finds the fault.
ghost use Rattle.std.specs.Prelude.{◌≡◌, ◌<◌, ◌≤◌, ◌^◌, ◌∷◌, ◌++◌, take, IfSome};
ghost use Rattle.std.specs.List.{AllByRecursion};
ghost use Rattle.std.specs.Fmt.{decimal};
ghost use Rattle.bc_model.specs.WellFormed.{IsNumber, IsSlot};
ghost use Rattle.bc_trace.specs.Words.{verb_name, name};
ghost use Rattle.bc_trace.specs.Said.{operands_text};

use crate::numbers::MOST_OPERANDS;
use crate::words::{Keyword, Verb};
use bc_model::{Setup, Slot};

/// The least number that a line can't say.
const LIMIT: u64 = 1 << 63;

/// So many digits say a number that a `u64` can hold.
const SAFE_DIGITS: usize = 19;

/// What follows the byte, where the text begins with it.
#[inline(always)]
pub fn byte_ahead(text: &[u8], byte: u8) -> Option<&[u8]>
    ensures { IfSome result (λ rest. text.now ≡ byte ∷ rest.now) }
{
    match text {
        [first, rest @ ..] if *first == byte => Some(rest),
        _ => None,
    }
}

/// The number that the text begins with, and what follows it.
#[inline(always)]
fn number_ahead(text: &[u8]) -> Option<(u64, &[u8])>
    ensures number { IfSome result (λ r. IsNumber r.0) }
    ensures text { IfSome result (λ r. text.now ≡ decimal r.0 ++ r.1.now) }
{
    let first = match text {
        [first, ..] => *first,
        [] => return None,
    };
    if first == b'0' {
        return Some((0, &text[1..]));
    }
    if !first.is_ascii_digit() {
        return None;
    }
    // A digit more than these follows none of a line's numbers.
    let most = if text.len() < SAFE_DIGITS {
        text.len()
    } else {
        SAFE_DIGITS
    };
    let mut value = (first - b'0') as u64;
    let mut count = 1;
    while count < most && text[count].is_ascii_digit() {
        value = value * 10 + (text[count] - b'0') as u64;
        count += 1;
    }
    if value < LIMIT {
        Some((value, &text[count..]))
    } else {
        None
    }
}

/// The number below the limit that follows a space, and what follows it.
#[inline(always)]
pub fn operand_ahead(text: &[u8], limit: u64) -> Option<(u64, &[u8])>
    ensures below { IfSome result (λ r. r.0 < limit) }
    ensures number { IfSome result (λ r. IsNumber r.0) }
    ensures text { IfSome result (λ r. text.now ≡ 32 ∷ (decimal r.0 ++ r.1.now)) }
{
    let (number, rest) = number_ahead(byte_ahead(text, b' ')?)?;
    if number < limit {
        Some((number, rest))
    } else {
        None
    }
}

/// Takes a number below a limit that is small off the text.
#[inline(always)]
pub fn small_ahead(text: &[u8], limit: u32) -> Option<(u32, &[u8])>
    ensures below { IfSome result (λ r. r.0 < limit) }
    ensures number { IfSome result (λ r. IsNumber r.0) }
    ensures text { IfSome result (λ r. text.now ≡ 32 ∷ (decimal r.0 ++ r.1.now)) }
{
    let (number, rest) = operand_ahead(text, limit as u64)?;
    Some((number as u32, rest))
}

/// The slot whose domain and number are the next operands, and what follows them.
#[inline(always)]
pub fn slot_ahead<'a>(setup: &Setup, text: &'a [u8]) -> Option<(Slot, &'a [u8])>
    ensures slot { IfSome result (λ r. IsSlot setup.now r.0) }
    ensures numbers { IfSome result (λ r. IsNumber r.0.domain × IsNumber r.0.slot) }
    ensures text { IfSome result (λ r. text.now ≡ 32 ∷ (decimal r.0.domain ++ 32 ∷ (decimal r.0.slot ++ r.1.now))) }
{
    let (domain, rest) = small_ahead(text, setup.domains)?;
    let (slot, rest) = small_ahead(rest, setup.slots)?;
    Some((Slot { domain, slot }, rest))
}

/// The word of an operation that the text begins with, and what follows it.
#[inline(always)]
#[tactic(auto, unfolding(crate::specs::Words::verb_name))]
pub fn verb_ahead(text: &[u8]) -> Option<(Verb, &[u8])>
    ensures { IfSome result (λ r. text.now ≡ verb_name r.0 ++ r.1.now) }
{
    match text {
        [b'n', b'e', b'w', rest @ ..] => Some((Verb::New, rest)),
        [b'w', b'h', b'o', rest @ ..] => Some((Verb::Who, rest)),
        [b'l', b'e', b'n', rest @ ..] => Some((Verb::Len, rest)),
        [b's', b'e', b't', rest @ ..] => Some((Verb::Set, rest)),
        [b'c', b'u', b't', rest @ ..] => Some((Verb::Cut, rest)),
        [b'l', b'i', b'n', b'k', rest @ ..] => Some((Verb::Link, rest)),
        [b'l', b'o', b'a', b'd', rest @ ..] => Some((Verb::Load, rest)),
        [b'c', b'o', b'p', b'y', rest @ ..] => Some((Verb::Copy, rest)),
        [b'c', b'l', b'e', b'a', b'r', rest @ ..] => Some((Verb::Clear, rest)),
        [b's', b'a', b'm', b'e', rest @ ..] => Some((Verb::Same, rest)),
        _ => None,
    }
}

/// What follows the word `turn`.
#[inline(always)]
#[tactic(auto, unfolding(crate::specs::Words::name))]
pub fn turn_word_ahead(text: &[u8]) -> Option<&[u8]>
    ensures { IfSome result (λ rest. text.now ≡ name Keyword.Turn ++ rest.now) }
{
    match text {
        [b't', b'u', b'r', b'n', rest @ ..] => Some(rest),
        _ => None,
    }
}

/// The word of a phase's other lines that the text begins with, `freeze` aside, and what follows it.
#[inline(always)]
#[tactic(auto, unfolding(crate::specs::Words::name))]
pub fn word_ahead(text: &[u8]) -> Option<(Keyword, &[u8])>
    ensures { IfSome result (λ r. text.now ≡ name r.0 ++ r.1.now) }
{
    match text {
        [b'l', b'a', b'n', b'e', rest @ ..] => Some((Keyword::Lane, rest)),
        [b'p', b'h', b'a', b's', b'e', rest @ ..] => Some((Keyword::Phase, rest)),
        [b'e', b'n', b'd', rest @ ..] => Some((Keyword::End, rest)),
        [b'g', b'i', b'v', b'e', rest @ ..] => Some((Keyword::Give, rest)),
        _ => None,
    }
}

/// Puts the hints that follow into the buffer, up to the end of the line. Answers how many they are, and what
/// follows the line.
pub fn hints_ahead<'a>(text: &'a [u8], hints: &mut [u32; 64]) -> Option<(usize, &'a [u8])>
    ensures few { IfSome result (λ r. r.0 ≤ 64) }
    ensures hints { IfSome result (λ r. AllByRecursion (λ h. h < 2 ^ 32) (take r.0 hints.new)) }
    ensures text { IfSome result (λ r. text.now ≡ operands_text (take r.0 hints.new) ++ 10 ∷ r.1.now) }
{
    let mut rest = text;
    let mut count = 0;
    while let Some((hint, after)) = operand_ahead(rest, 1 << 32) {
        if count == MOST_OPERANDS {
            return None;
        }
        hints[count] = hint as u32;
        count += 1;
        rest = after;
    }
    let after = byte_ahead(rest, b'\n')?;
    Some((count, after))
}
