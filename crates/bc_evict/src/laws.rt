//! What is known of a page whose word says Gone, and of what is bookmarked and counted.

ghost use Rattle.std.specs.Prelude.{◌≡◌, ℕ, ◌<◌};
ghost use Rattle.bc_pins.specs.Key.{Key, pages_of};
ghost use Rattle.bc_pins.specs.Facts.{Table, page_word, Counters, HasBookmarkBit};
ghost use Rattle.bc_pins.specs.Rule.{Rule};
ghost use Rattle.bc_evict.specs.GonePages.{stored_content, HasReason, IsGoneSummarised};

/// Law: a page's word says Gone only where the page is summarised: each of its targets has its bookmark bit, and each superpage that has
/// one counts the page. A bookmark was there at the opening, or a seat set it for a page that had the cell as a target. That seat has the
/// page in hand, or evicted it. A superpage's counter is the number of Gone pages that have a target there, by what lies in the store, and
/// of pages in hand that were counted there. This holds of every table that keeps its rule, and each does between any two steps, whoever
/// makes them.
pub fn law_gone_pages()
    ensures gone { (k : Key) → (s : Table) → (page : ℕ) → Rule k s → page < pages_of k → page_word s page ≡ 4 → IsGoneSummarised k s page }
    ensures reason { (k : Key) → (s : Table) → (a : ℕ) → Rule k s → HasBookmarkBit k s.words a → HasReason k s a }
    ensures counters { (k : Key) → (s : Table) → (q : ℕ) → Rule k s → q < k.supers → Counters k s (stored_content k s) q }
{}
