// The table of a turn: the pages of a heap while workers run beside each other.
//
// In a turn a space is taken apart. Each page has a word, which changes in single atomic steps and says where the page is, and
// two slots: one for its frame, where the box lies while the page is Home, and one for its place in the store, where it lies
// shut while the page is Gone or Absent. Whoever makes the word Held has the page: both slots are out with that seat, and the box
// is in its hands (`Held`). `take` does this and `put` undoes it; `look` reads a word. Nobody waits, and only `open` takes memory.
//
// A worker steps with a seat, which has a role: a lane, a marker or a pager. A lane may change pages of the domains that it
// holds; everybody else puts back what it took. What a seat has done and read is its view, which exists in proofs alone. The
// record of a page is the content that its lane put back last, or else the opening's; its lane alone records whether it is remembered.
// A page of a frozen domain has no lane, so its record is the opening's for the whole turn.
//
// The rule (`specs/Rule.antt`, made of the turn facts of `specs/Facts.antt`) holds between any two steps, whatever order the threads' steps
// take:
//
// - A page's box lies where its word says, with the record as its content.
// - A page is in one view's hands where its word says Held, and in none else (`law_held_pages`).
// - A page whose record refers to a nursery is remembered.
// - What was read as Remembered stays so. An own page that was read as Gone is Gone until it is taken. What was read as Absent, Remembered
//   or Gone isn't Home, unless it was taken from Gone since.
// - A page that was read as Held was taken by somebody. An own page so read is in another's hands, or that one put it back, or made it Gone
//   or Absent.
// - A Gone page is summarised by the table's bookmark bits. Counters count Gone pages, and what is counted for those in hand.
// - Each role is in one view.
// - Each frame is in one place. So at most as many are in use as there are, less those that no page may use (`law_frames_in_use`).
// - Each number of a notice below the notice word was claimed by one view, once (`specs/Claims.antt`).
//
// `proofs/PageSteps.antt` has the one lemma by which every step on a page's word keeps it, and `proofs/SideSteps.antt` the one for a step
// on another word.
//
// A page in hand is given up in single steps: `bookmark_bit` for its targets, `counter_add` for each superpage that has one,
// `store_in`, and `evict_word`, after which its word says Gone; or `store_in` and `discard_word` where no cell lies on it. The
// word is the last of them. The right to the page's frame is then in the seat's view, and `frame_give` gives it back.
//
// `join` makes two seats one while the table goes on, and `join_all` all of them. That seat has all roles then and works alone: no page
// is in another's hands, so `take` isn't refused as Busy, and what is marked and finished is what was so at the opening and what this seat
// won and finished (`proofs/AloneLemmas.antt`).
//
// `open` makes words and slots out of a space's headers and lists, and deals a seat for each role. `close` joins all seats into
// one, puts the boxes back and makes states, counters and bookmarks of the words: the space is as it was opened, but that each
// page has its record, Gone pages are summarised, and frames that were given back are free. The frame words are the pool's own: a
// bit for each frame, set where it is in use. In a mark turn each superpage has a queue word besides (`specs/Key.antt`) with a bit for each
// of its pages. They are set where a cell of the superpage is marked and not finished.
//
// Pagers share the notices of a turn: they are numbered from 0 on, and the notice word has the number of the next. `claim_notice`
// claims it in one step, so no two seats have one number and none is passed over. The table doesn't know how many notices there are:
// a seat that claims a number past the last has come to their end. `close` says of all seats together that each number below as many
// as they claimed was claimed by one of them, once (`HaveClaimed`).
//
// In a turn of lanes a page comes back from Gone by the lane that holds its domain, or by any where that is frozen, which has the right to one frame: `take_gone`,
// after which the frame is the page's and the page is counted in each superpage that has a target of it; `store_out`, which opens
// its box and is its read; and `counter_sub` for each of these superpages. A right is taken by `frame_claim`, which sets all bits of
// a frame word, so that all frames are the seat's that were free there, or by giving a page up. So `close` sets the pool's words
// exactly, and raises the reads by as many pages as the seats took from Gone.
//
// In a mark turn there are marks besides (`specs/Tracing.antt`), which a turn of lanes doesn't see. Marks are those of the opening
// and those that the views won, each once; each marked cell is reached from the opening's marks and what is bookmarked now, through
// pages that aren't Gone now; and what a finished cell refers to, or a cell on a page that went Gone in this turn, is marked.
// `shade` sets mark bits, of cells to which a marked cell of the page in hand refers or which the seat bookmarked; `look_marks`
// reads them; `done_bit` finishes cells whose targets the seat knows to be marked, and `look_finished` reads which are. What a look reads
// has what was so at the opening, and what the seat itself won or finished. Finished
// cells have words of their own, so a page is put back by `put` alone. A page may leave only where the seat knows its targets to be
// marked. No content changes in a mark turn, so what refers to what is the opening's.
//
// A page with a queue bit is to be scanned. `queue_bit` sets it, `dequeue_bit` clears it and `look_queue` reads it; `queue_page` sets it
// unless it is set. Whoever cleared a bit that was set owes the page, and so does whoever won a mark there, until it sets the bit, reads it
// as set, or asks with `settle` to be let off: it knows then that each cell is finished which it won or didn't see unmarked since, or that
// the page is Gone. So a page in memory or in hand that has a cell which is marked and not finished has its bit set, or a seat owes it
// (`law_gray_pages`).
//
// Where things are: `pins` the table and a seat, `key` what a table is made from and where its words and slots lie, `words` which word
// each state of a page has, `views` slots and views, `rule` the rule and what steps say, `taking` the calls on pages, `giving` the
// steps by which one is given up, `reloading` those by which one comes back, `noticing` the claim of a notice, `marking` the steps of
// a mark turn on marks, `queueing` those on queue bits, `joining` seats that become one, `holding` a page in hand, `reading` what
// everybody may read; `opening` with `room`, `filling`, `lodging` and `rest`; `closing` with `gathering`. Gates, where a test may look
// on, are passed on from `bc_gates`.
#![tactic(auto)]

mod closing;
mod filling;
mod gathering;
mod giving;
mod holding;
mod joining;
mod key;
mod laws;
mod lodging;
mod marking;
mod noticing;
mod opening;
mod pins;
mod queueing;
mod reading;
mod reloading;
mod rest;
mod room;
mod rule;
mod taking;
mod views;
mod words;

pub use bc_gates::{Gate, OpenGate};
pub use holding::Held;
pub use key::{About, Role, Turn};
pub use laws::{law_frames_in_use, law_gray_pages, law_held_pages};
pub use pins::{Pins, Seat};
pub use queueing::queue_mask;
pub use rest::Rest;
pub use taking::{TakeError, Want};
pub use views::{Hand, Lodged, View};
pub use words::{ABSENT, GONE, HELD, HOME, REMEMBERED};
