// A heap that lanes run on, as one value: the engine replays phases on one, and tests and benches work on one by hand.
//
// A `Running` is a heap with what the lanes need beside it: who holds each domain, which is a lane, or nobody where it is frozen, and how
// many objects each lane has made, by which it numbers the next one. A lane does an operation on it (`operate`), a domain changes hands
// (`give`) or is frozen (`freeze`), so that all lanes read it and none writes it, the nurseries are emptied (`empty_nursery`), the whole
// heap is collected by the fail-safe (`failsafe`), and the cells are collected by bookmarks (`collect`). Where notices may come while cells
// are marked it is `empty_nursery_beside` and `collect_beside`, which hand on the answers.
//
// What is true of it between calls is `IsSound`: the heap is running (`IsRunning` in `bc_whole_heap`), no object in it has a later
// birth of a lane than the lane's count, and two frames aren't those of nursery pages. Each call asks for it and leaves it,
// also an emptying of the nurseries that finds the heap too small.
//
// Pages may be gone. An operation looks at one object at most (`touching`): its page is brought home first, for which one other may have
// to leave. Where none can it stops, and is done after the nurseries were emptied: then no page is Remembered, and each can leave. What is
// answered `frozen` or `foreign` looks at no page: the holders of the slots and of the object's superpage tell it.
// Which pages move is stated exactly (`BringsHome`), and so is when it stops (`LooksAtGone`).
// In a turn (`take_turn`) the lanes run side by side, also in frozen domains, and pagers answer notices beside them (`bc_turn`), those that
// come meanwhile too. Where
// there is no table, notices are answered on the heap itself (`answer`), and after a turn the space is settled (`settle`).
// Between turns frames can be withheld from pages, and returned (`withhold`): pages are given up for those that are wanting.
//
// The theorem is that of the crates below, said of the value as a whole. An operation is the step of every state that the heap
// stands for (`RunningStands`), a collection keeps what it stands for, and what isn't the lane's stays (`StaysBut`).
#![tactic(auto)]

mod collecting;
mod operating;
mod pressure;
mod running;
mod serving;
mod touching;
mod whole;

pub use pressure::Pressure;
pub use running::{Parts, Running};
