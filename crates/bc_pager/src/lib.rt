// The pagers of a turn: they answer notices that frames are wanted, while lanes or markers work.
//
// A notice names a page, its hint, and has a number, counted from 0 in its list. A pager answers each notice that it takes with a page
// that it gave up, or declines it:
//
//     Discarded(p)   p had no allocated cell, and is Absent
//     Evicted(p)     p had an allocated cell, was bookmarked, and is Gone: the first that could be taken, going round from the hint,
//                    where no page without cells could be
//     Declined       no page could be taken
//
// It works at the table of a turn (`bc_pins`) with a seat of its own, beside the others, and waits for nobody. A page can be taken if
// its word says Home when the pager tries to take it: a Remembered page is named by a write buffer, a Held one is in another's hands,
// and the others have no frame. So an answer can't say that no page was at home at some moment; it says what was read of each
// page's word since the notice was given, with nothing in the pager's own hands.
//
// That is the definition (`specs/Answering.antt`), and the theorem is the contract of `serve`: each notice that it took has one answer,
// in order, that the definition allows (`HasServed`), and no page is made Gone or Absent but those that the answers name. In a mark turn
// the targets of an evicted page are marked, and the pages of those that the pager marked first are queued: at the end it owes no page that
// it didn't owe before. An answer begins where its notice was given: a source of notices may know the views that the seat had then
// (`Notices`), and each answer begins at its own (`AreAnsweredSince`). `serve` ends where no notice is left or no room for an answer is
// (`ended`).
//
// A turn has as many pagers as notices, at most four (`pagers_for`), and they share its list. A pager that wants a notice claims the next
// number by one step at the table (`Pins::claim_notice`), and has the notice of that number (`SharedNotices`); where the number is past
// the list there is none. The claims stand in the seat's view (`specs/Claiming.antt`), and each answer begins at the view that claimed its
// number, so nothing that was read before counts for it (`AreAnsweredAsClaimed`). While the pagers work none can know what the others
// claimed. When the table is closed, each number below their count was claimed once; so each notice was answered by one pager, and none
// twice, and each answer stands in the turn's list at the number of its notice (`AnsweredByPagers`). That is `law_answered_by_pagers`.
//
// Notices may also come from outside while a turn is under way, out of a source that may have more at any time. Such a turn has one pager
// more, the live one (`serve_live`). It answers at most 64 of them (`LIVE_ROOM`), each from where it was given, and claims none at the
// table (`HasServedLive`). A source says whether one more may come, and how many it gives at most (`may_come`). The live pager ends where
// its source has none or its room is used up (`ServedOut`), and its answers stand in a list of their own, in the order in which it took
// the notices.
//
// How the pieces work together: `serving` takes notices and keeps answers; `bc_evict::take_first` goes round the pages and takes the
// first of a kind that can be taken; `leaving` gives it up, with its frame. `notices` has the trait by which notices come, a list of
// them for one pager, and a list that pagers share; `answers` what is kept, each answer with its notice's number. `paging` has the pagers
// of a turn: their roles, seats and rooms for answers, and how they run, on one thread or on threads of their own. `placing` ends them:
// their seats go back to the others, and their answers are laid by number. `feeding` has the live pager: its room, how it runs and how it
// ends. Pages after the table are Absent for the whole turn, and none of them is tried.
//
// Where nobody works beside, notices are answered on the space itself (`answer_all`): each by the first page that can be discarded,
// going round from the hint, else by the first that can be evicted, else it is declined, and nothing changes (`AnsweredAlone`).
//
// A notice costs two looks at each page's header at most, and a try at each page of the kind; one page is given up for it. Each pager that
// shares notices has room for answers to all of them, since it may come to claim them all. Nothing but `ListNotices::new`, `Answers::new`,
// `pager_rooms` and `turn_rooms` takes memory.
#![tactic(auto)]

mod alone;
mod answers;
mod feeding;
mod leaving;
mod notices;
mod paging;
mod placing;
mod serving;

pub use alone::{answer_all, answer_one};
pub use answers::{Answer, Answers, keep_answers};
pub use feeding::{LIVE_ROOM, end_live, serve_live, turn_rooms};
pub use notices::{ListNotices, Notice, Notices, SharedNotices};
pub use paging::{
    Paging, pager_rooms, pagers_for, push_pagers, seat_pagers, serve_each, serve_shared,
};
pub use placing::{end_pagers, law_answered_by_pagers};
pub use serving::serve;
