// A garbage-collected heap for a runtime of one's own: a heap that moves, frees and pages, behind calls that have no conditions.
//
// A `Heap` is opened with its `Limits` and belongs to some lanes, each of which may be a thread of the runtime's own program, though all
// calls are made one after another. Objects have up to 127 fields; a field holds nil, a number of 63 bits or a reference. They are reached
// from root slots, of which each domain of the heap has some. A `Root` is a handle for one: the slot, and the lane that works with it.
// A domain is held by one lane, which alone reads and writes what is in it, until it changes hands (`give`); or it is frozen (`freeze`), and
// all lanes read it and none writes it, until it is given to a lane again.
//
//     let mut heap = Heap::open(rt.alloc(), &Limits { superpages: 64, frames: 40, ..Limits::default() })?;
//     let list = heap.root(0, 0)?;
//     heap.new(&rt, list, 2)?;
//     heap.set(&rt, list, 0, 42)?;
//
// Operations are methods of the heap (`operations`): `new`, `who`, `len`, `set`, `cut`, `link`, `load`, `copy`, `clear`, `same`; `operate`
// does one that is given as data, as a trace has it. New objects lie in a chunk of the lane. Where it is full, or where a lane can't go on
// for another cause, the nurseries are emptied and the operation is done then, so a caller never sees that. Frames are limited: pages
// leave for one another, and come back where an operation looks at them. Nothing else has to be done. By hand a caller may have a page
// leave (`evict`), empty the nurseries (`collect_nurseries`), collect the cells without a page read (`collect`), or pack the whole heap
// (`failsafe`). `counters` and `objects_in_cells` say how it stands.
//
// The calls, `rt` left out. All but the last four return a `Result`, with a `HeapError`:
//
//     root(lane, domain) -> Root     release(root)          new(into, fields) -> Birth   len(root) -> u32
//     set(root, field, number)       cut(root, field)       link(root, field, to)        load(root, field, into) -> Loaded
//     copy(from, into)               clear(root)            who(root) -> Value           same(root, other) -> bool
//     operate(lane, op) -> Reply     give(domain, lane)     freeze(domain)               collect_nurseries()
//     failsafe()                     collect()              evict(hint) -> Answer        counters() -> Counters
//     objects_in_cells(domain, class) -> u32
//
// `Limits::default()` has one lane, one domain of 64 root slots, 256 superpages, 4 nursery pages, a write buffer of 1,024 entries, a frame
// for each page, and one worker.
//
// What is refused is a `HeapError` that says why, and none of them ends the heap. `OutOfHeap` comes only where what the root slots lead to
// needs more superpages than there are. Nothing is lost then: slots can be cleared, and the heap goes on.
//
// The theorem is that no caller can tell this heap from one that never frees, moves or pages (`bc_model`). A heap stands for a state of that
// one (`HeapStands`), which has all objects that were ever made. Each operation's answer, and the state that the heap stands for then, are the
// step of that state (`DidStep`). Collections, pages that leave and everything that is refused keep the state (`StaysSame`). It holds of every
// call with no premise, and each cause of a refusal is true where it is returned (`IsCauseOf`). What a collection that a call asks for makes of
// the heap beneath is said too: `HasEmptied`, `IsCollectedHeap` and `Packed`. So is whether a call is counted (`CallCounts`).
//
// Beneath is `bc_running`: this crate adds what its calls ask for. What is true of a heap between calls is `IsOpen`, by `CanRunLanes` of
// `bc_engine`, whose lemmas the proofs cite; of the engine's code its counters alone run.
#![tactic(auto)]

mod collections;
mod counters;
mod emptying;
mod errors;
mod heaps;
mod limits;
mod operations;
mod replies;
mod roots;

pub use bc_engine::{Counters as StepCounts, PageCounts};
pub use bc_model::{Birth, Op, Reply, Slot, Value};
pub use bc_pager::Answer;
pub use counters::Counters;
pub use errors::{HeapError, OpenError};
pub use heaps::Heap;
pub use limits::Limits;
pub use replies::Loaded;
pub use roots::Root;
