// Evictions inside a turn: a page in a worker's hands is given up, so that its frame can be another page's.
//
// A page that leaves isn't read any more until it comes back, so what it refers to has to stand outside it (`bc_bookmarks` says
// why). Between turns an eviction is one call on a space. In a turn lanes and pagers work beside each other, each with atomic
// steps on the words of a table (`bc_pins`), and nobody may ever find a page's word saying Gone whose targets aren't bookmarked
// yet. So the order is what counts here:
//
//     take          the page's word says Held: nobody else touches it
//     bookmark      a bit for each of its targets, in a mark turn a mark too, and the queue bit of the page of each that it marked first;
//                   then one count in each superpage that has one
//     evict         the box goes into the store, and last of all the word says Gone
//     give_frame    the bit of the frame is cleared
//
// A page without an allocated cell has no targets, and nobody will ask for its words: `discard` makes it Absent, with no bookmark
// before. A bookmark bit is never cleared in a turn, since another page that left may need it; what was bookmarked for a page
// that then stays in memory is harmless, but its counts aren't, so a page that was bookmarked is not put back.
//
// Who made a page Gone or Absent has the right to its frame (`FrameRight`), and each right is one: it can't be copied, only the
// calls here make one, and giving it up is handing it over. A table is closed with no right in anybody's hands.
//
// A lane brings a page that is Gone back in the turn, an own one or one of a frozen domain, into a frame of its own:
//
//     claim_frame   a frame that is free, word by word; where each frame word was full, none
//     free_frame    or else a page that can be taken is given up, and the right to its frame kept
//     reload        the page is in hand, its box was opened, and it is counted nowhere any more
//
// The theorems are the contracts. `bookmark` is exact (`HasBookmarked`): the bits are those of the page's targets, and a superpage
// is counted exactly where one lies in it, once however many they are. `reload` takes just these counts off again (`HasReloaded`),
// and each refusal of `claim_frame`, `free_frame` and `reload` says what was read. `evict` may be called only where all of
// this was done (`MayRelinquish`), and `law_gone_pages` says what that is for: whatever steps were made, and whoever makes one
// next, a page whose word says Gone is summarised. No bookmark comes but for a page that was evicted or is in hand, and counters count no
// page but Gone ones and those in hand.
//
// What a call costs: `bookmark` looks at each word of the page once, steps once for each reference on it, in a mark turn up to four times,
// and goes once through a bit for each superpage of the table, 4,096 at most, on the stack. `reload` does so too, and steps for
// superpages alone. `claim_frame` steps once on each frame word at most and once more, `free_frame` once on each page's word at
// most before it bookmarks. The others are a few steps each. Nothing takes memory, and nothing waits.
#![tactic(auto)]

mod bookmarking;
mod laws;
mod leaving;
mod reloading;
mod rights;
mod victims;
mod walking;

pub use bookmarking::bookmark;
pub use laws::law_gone_pages;
pub use leaving::{discard, evict};
pub use reloading::{ReloadError, reload};
pub use rights::{FrameRight, claim_frame, give_frame};
pub use victims::free_frame;
pub use walking::{Kind, take_first};
