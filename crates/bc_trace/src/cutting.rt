//! Lines cut off a text, words cut off a line, and whether a line is formed.
ghost use Rattle.std.specs.Prelude.{◌≡◌, ◌<◌, ◌≤◌, ◌+◌, [], ◌∷◌, length, true, IfSome, MatchOption};
ghost use Rattle.bc_trace.specs.Faults.{line_words};
ghost use Rattle.bc_trace.specs.Reading.{next_fresh, formed_from, lines_of, words_after};

use memchr::memchr;

/// The bytes before the first line feed, and those after it.
pub fn cut_line(bytes: &[u8]) -> Option<(&[u8], &[u8])>
    ensures parts { MatchOption result (lines_of bytes.now ≡ bytes.now ∷ []) (λ p. lines_of bytes.now ≡ p.0.now ∷ lines_of p.1.now) }
    ensures shorter { IfSome result (λ p. length p.1.now < length bytes.now) }
{
    match memchr(b'\n', bytes) {
        Some(at) => Some((&bytes[..at], &bytes[at + 1..])),
        None => None,
    }
}

/// The bytes before the first space, and the rest from that space on.
pub fn first_word(line: &[u8]) -> (&[u8], &[u8])
    ensures parts { line_words line.now ≡ result.0.now ∷ words_after result.1.now }
    ensures shorter { length result.1.now ≤ length line.now }
{
    for (i, byte) in line.iter().enumerate() {
        if *byte == b' ' {
            return (&line[..i], &line[i..]);
        }
    }
    (line, &[])
}

/// Whether a word must begin after this byte; None where the byte may not stand. `fresh` says
/// whether a word must begin at it.
#[tactic(auto, unfolding(crate::specs::Reading::next_fresh))]
fn next_fresh(fresh: bool, byte: u8) -> Option<bool>
    ensures { result ≡ next_fresh fresh byte }
{
    match byte {
        b' ' => { if fresh { None } else { Some(true) } }
        0x21..=0x7e => Some(false),
        _ => None,
    }
}

/// Whether the line is words of visible bytes, with single spaces between them.
pub fn is_formed(line: &[u8]) -> bool
    ensures { result ≡ formed_from true line.now }
{
    let mut fresh = true;
    for byte in line {
        match next_fresh(fresh, *byte) {
            Some(next) => fresh = next,
            None => return false,
        }
    }
    !fresh
}
