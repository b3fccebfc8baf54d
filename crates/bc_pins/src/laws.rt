//! What holds at every moment of a turn: how many frames are in use, who has a page in hand, and where the pages are known that have
//! gray cells.

ghost use Rattle.std.specs.Prelude.{◌≡◌, ℕ, ◌+◌, ◌<◌, false};
ghost use Rattle.bc_word.specs.Addresses.{page_of};
ghost use Rattle.bc_pins.specs.declared.views.View.{View};
ghost use Rattle.bc_pins.specs.Key.{Key, pages_of};
ghost use Rattle.bc_pins.specs.Totals.{total, times};
ghost use Rattle.bc_pins.specs.Facts.{Table};
ghost use Rattle.bc_pins.specs.InHand.{IsHeldByOne};
ghost use Rattle.bc_pins.specs.InUse.{HasFewFramesInUse};
ghost use Rattle.bc_pins.specs.Owing.{queued_bit, IsGrayCell, IsResident};
ghost use Rattle.bc_pins.specs.Rule.{Rule, Ruled};

/// Law: at every moment of a turn at most as many frames are in use, by pages in memory or in a seat's hands and by frame rights in
/// hand, as the heap has less the nurseries' and those withheld. Each of the heap's frames is in one of these places at most. This
/// holds of every table that keeps its rule, and each does between any two steps, whoever makes them.
pub fn law_frames_in_use()
    ensures in_use { (k : Key) → (s : Table) → Rule k s → HasFewFramesInUse k s }
{}

/// Law: at every moment of a turn a page's word says Held exactly where a seat has the page in hand, and no two seats have the same page
/// in hand. This holds of every table that keeps its rule, and each does between any two steps, whoever makes them.
pub fn law_held_pages()
    ensures held { (k : Key) → (s : Table) → Rule k s → (page : ℕ) → page < pages_of k → IsHeldByOne s page }
{}

/// Law: at every moment of a mark turn a page in memory or in a seat's hands that has a gray cell, which is marked and not finished, has
/// its queue bit set, or a seat owes it. By the steps that a seat may make (`specs/Steps.antt`) it owes a page once it cleared the bit or won
/// a mark there, until it sets the bit, reads it as set, or settles, which takes that it saw nothing gray left there or the page Gone. This
/// holds of every table that keeps its rule, and each does between any two steps, whoever makes them.
pub fn law_gray_pages()
    ensures owed { (k : Key) → (s : Table) → Ruled k s → k.lanes ≡ false → (a : ℕ) → IsGrayCell k s a → IsResident s (page_of a) → 0 < queued_bit k s (page_of a) + total (λ (v : View). times (page_of a) v.owed) s.views }
{}
