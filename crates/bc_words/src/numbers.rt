//! Numbers, as the words spell them.

ghost use Rattle.std.specs.Prelude.{◌≡◌, ◌≢◌, ◌⊎◌, ℕ, ◌<◌, ◌≤◌, true, false, Some, IfSome, length, slice_index};
ghost use Rattle.std.specs.Fmt.{decimal};

/// The number that the word is, without sign and leading zeros, if it lies between these two.
pub fn number(word: &str, least: u64, most: u64) -> Option<u64>
    ensures number { IfSome result (λ n. (word.now ≡ decimal n) × (least ≤ n) × (n ≤ most)) }
    ensures the_one { (n : ℕ) → word.now ≡ decimal n → least ≤ n → n ≤ most → result ≡ Some n }
{
    if !begins_plainly(word.as_bytes()) {
        return None;
    }
    match word.parse::<u64>() {
        Ok(value) if least <= value && value <= most => Some(value),
        _ => None,
    }
}

/// Whether the text begins with no `+`, and with a `0` only if that is all of it.
fn begins_plainly(text: &[u8]) -> bool
    ensures plain { result ≡ true →
        (slice_index text.now 0 ≢ 43) × (slice_index text.now 0 ≡ 48 → length text.now ≤ 1) }
    ensures signed { result ≡ false →
        (slice_index text.now 0 ≡ 43) ⊎ ((slice_index text.now 0 ≡ 48) × (1 < length text.now)) }
{
    !matches!(text, [b'+', ..] | [b'0', _, ..])
}
