// Sets of small numbers as bits in words of 64 bits, and how many numbers pass a test.
//
// A superpage has up to 1,024 cells, and its header has a bit for each of them that says whether it is allocated,
// promised, marked, finished and bookmarked: sixteen words a set. This crate has the three steps on such
// a set (test, set, clear), the search for the first bit that one set has and another hasn't, and the
// lemmas that the crates above reason with: a bit that was set is set, one that was cleared is clear, and
// every other bit is as it was, with no premise on its place.
//
// Contracts speak of a set by the test `has` alone, which stays shut above this crate: `with_bit` and
// `without_bit` are sets, and the words in them are nobody's business. The library's laws are the
// contracts of the `law_` functions. `count_below` counts what passes a test below a bound, and is
// the measure of loops that set bits until none is left; `any_below` says whether anything passes.
#![tactic(auto)]

ghost use Rattle.std.specs.Prelude.{◌≡◌, ◌≢◌, ℕ, ◌+◌, ◌*◌, ◌<◌, ◌≤◌, Bool, true, false, IfSome, IfNone, List, length};
ghost use Rattle.bc_bits.specs.Bits.{has};
ghost use Rattle.bc_bits.specs.BitChanges.{with_bit, without_bit, AreWords, none_set};
ghost use Rattle.bc_bits.specs.Counting.{any_below, count_below};

/// Is this bit of the set set? A bit is below 64 times the number of words.
pub fn contains<const N: usize>(set: &[u64; N], bit: u32) -> bool
    requires { bit < 64 * N }
    ensures test { result ≡ has set.now bit }
{
    let word = set[(bit / 64) as usize];
    word & (1 << (bit % 64)) != 0
}

/// Sets this bit, which is below 64 times the number of words, and leaves the others.
#[tactic(auto, unfolding(crate::specs::BitChanges::with_bit))]
pub fn insert<const N: usize>(set: &mut [u64; N], bit: u32)
    requires { bit < 64 * N }
    ensures change { set.new ≡ with_bit set.old bit }
{
    let word = (bit / 64) as usize;
    set[word] = set[word] | (1 << (bit % 64));
}

/// Clears this bit, which is below 64 times the number of words, and leaves the others.
#[tactic(auto, unfolding(crate::specs::BitChanges::without_bit))]
pub fn remove<const N: usize>(set: &mut [u64; N], bit: u32)
    requires { bit < 64 * N }
    ensures change { set.new ≡ without_bit set.old bit }
{
    let word = (bit / 64) as usize;
    set[word] = set[word] & !(1 << (bit % 64));
}

/// Is no bit set?
pub fn is_empty(set: &[u64; 16]) -> bool
    ensures zeros { result ≡ none_set set.now }
{
    set.iter().all(|word| *word == 0)
}

/// Law: a set whose words are all 0 has no bit, and one with another word has one.
pub fn law_none_set()
    ensures none { (ws : List ℕ) → none_set ws ≡ true → (b : ℕ) → has ws b ≡ false }
    ensures some { (ws : List ℕ) → AreWords ws → none_set ws ≡ false
        → (b : ℕ) × (has ws b ≡ true) }
{}

/// How many bits below a bound, which is at most 1,024, are set.
#[tactic(auto, unfolding(crate::specs::Counting::count_below))]
pub fn count(set: &[u64; 16], below: u32) -> u32
    requires { below ≤ 1024 }
    ensures count { result ≡ count_below (has set.now) below }
{
    let mut total = 0;
    for bit in 0..below {
        if contains(set, bit) {
            total += 1;
        }
    }
    total
}

/// The first bit from one number on, and below another, which is at most 1,024, that a set has and the other set
/// hasn't. A word that has none is skipped at one look.
pub fn first_outside(set: &[u64; 16], other: &[u64; 16], from: u32, below: u32) -> Option<u32>
    requires { below ≤ 1024 }
    ensures some { IfSome result (λ b.
        (from ≤ b) × (b < below) × (has set.now b ≡ true) × (has other.now b ≡ false)) }
    ensures first { IfSome result (λ b. (i : ℕ) → from ≤ i → i < b → has set.now i ≡ true → has other.now i ≡ true) }
    ensures none { IfNone result ((i : ℕ) → from ≤ i → i < below → has set.now i ≡ true → has other.now i ≡ true) }
{
    let mut bit = from;
    while bit < below {
        let word = (bit / 64) as usize;
        let rest = (set[word] & !other[word]) >> (bit % 64);
        if rest != 0 {
            let found = bit + rest.trailing_zeros();
            if found < below {
                return Some(found);
            }
            return None;
        }
        bit = 64 * (bit / 64 + 1);
    }
    None
}

/// Law: a bit that is set into a list of words is then set, and no other bit changes.
pub fn law_with_bit()
    ensures same { (ws : List ℕ) → (b : ℕ) → b < 64 * length ws → has (with_bit ws b) b ≡ true }
    ensures others { (ws : List ℕ) → (b i : ℕ) → i ≢ b → has (with_bit ws b) i ≡ has ws i }
{}

/// Law: a bit that is cleared in a list of words is then clear, and no other bit changes.
pub fn law_without_bit()
    ensures same { (ws : List ℕ) → (b : ℕ) → has (without_bit ws b) b ≡ false }
    ensures others { (ws : List ℕ) → (b i : ℕ) → i ≢ b → has (without_bit ws b) i ≡ has ws i }
{}

/// Law: where one more number passes a test the count is one more, and it is 0 where none passes.
pub fn law_count()
    ensures none { (f : ℕ → Bool) → (n : ℕ) → ((i : ℕ) → i < n → f i ≡ false) → count_below f n ≡ 0 }
    ensures all { (f : ℕ → Bool) → (n : ℕ) → ((i : ℕ) → i < n → f i ≡ true) → count_below f n ≡ n }
    ensures more { (f g : ℕ → Bool) → (n b : ℕ) → b < n → f b ≡ false → g b ≡ true
        → ((i : ℕ) → i ≢ b → g i ≡ f i) → count_below g n ≡ count_below f n + 1 }
{}

/// Law: the test for some number is true exactly where a number below the bound passes.
pub fn law_any()
    ensures some { (f : ℕ → Bool) → (n : ℕ) → any_below f n ≡ true → (i : ℕ) × (i < n) × (f i ≡ true) }
    ensures here { (f : ℕ → Bool) → (n i : ℕ) → i < n → f i ≡ true → any_below f n ≡ true }
{}
