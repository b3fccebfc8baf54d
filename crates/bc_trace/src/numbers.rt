//! Numbers and operands, as the language writes them.
ghost use Rattle.std.specs.Prelude.{◌≡◌, ◌<◌, ◌≤◌, if◌then◌else◌, length, take, Some, None, IfSome, IfNone};
ghost use Rattle.bc_trace.specs.Faults.{counted};
ghost use Rattle.bc_trace.specs.Reading.{digits_of, number_of, read_numbers, read_shift, words_after};

use crate::cutting::first_word;
use crate::line::Shift;
use crate::words::Keyword;

/// The least number that a line can't say.
const LIMIT: u64 = 1 << 63;

/// The most operands that a line may have.
pub const MOST_OPERANDS: usize = 64;

/// The value of a word of digits, if it is below 2^63.
fn digits(word: &[u8]) -> Option<u64>
    ensures { result ≡ digits_of word.now }
{
    let mut value = 0;
    for byte in word {
        if !byte.is_ascii_digit() {
            return None;
        }
        let digit = (*byte - b'0') as u64;
        if value > (LIMIT - 1 - digit) / 10 {
            return None;
        }
        value = value * 10 + digit;
    }
    Some(value)
}

/// The number that the word is: `0`, or digits without a leading zero, below 2^63.
#[tactic(auto, unfolding(crate::specs::Reading::number_of))]
pub fn number(word: &[u8]) -> Option<u64>
    ensures { result ≡ number_of word.now }
{
    match word {
        [] => None,
        [b'0', _, ..] => None,
        _ => digits(word),
    }
}

/// Takes the operand with a sign off the operands that follow a word: what it does to the withheld frames, or None where no
/// number follows the sign, and the other operands. Only a turn has such an operand, and only from version 3 on.
#[tactic(auto, unfolding(crate::specs::Faults::sign_of, crate::specs::Reading::read_shift))]
pub fn shift_of(version: u32, word: Keyword, operands: &[u8]) -> (Option<Shift>, &[u8])
    ensures shift { result.0 ≡ read_shift version word (words_after operands.now) }
    ensures rest { words_after result.1.now ≡ counted version word (words_after operands.now) }
{
    if version < 3 || !matches!(word, Keyword::Turn) || operands.is_empty() {
        return (Some(Shift::Stays), operands);
    }
    let (first, rest) = first_word(&operands[1..]);
    match first {
        [b'-', digits @ ..] => (number(digits).map(Shift::Withhold), rest),
        [b'+', digits @ ..] => (number(digits).map(Shift::Return), rest),
        _ => (Some(Shift::Stays), operands),
    }
}

/// Puts the operands that follow a word into the buffer. Answers how many there are, and whether
/// all of them are numbers; None where there are too many.
pub fn operands_of(words: &[u8], operands: &mut [u64; 64]) -> Option<(usize, bool)>
    ensures none { IfNone result (64 < length (words_after words.now)) }
    ensures count { IfSome result (λ r. r.0 ≡ length (words_after words.now)) }
    ensures few { IfSome result (λ r. r.0 ≤ 64) }
    ensures numbers { IfSome result (λ r. read_numbers (words_after words.now) ≡ (if r.1 then Some (take r.0 operands.new) else None)) }
{
    let mut rest = words;
    let mut count = 0;
    let mut all_numbers = true;
    while !rest.is_empty() {
        if count == MOST_OPERANDS {
            return None;
        }
        let (word, after) = first_word(&rest[1..]);
        match number(word) {
            Some(value) => operands[count] = value,
            None => all_numbers = false,
        }
        count += 1;
        rest = after;
    }
    Some((count, all_numbers))
}
