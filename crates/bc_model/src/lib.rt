// The meaning that every heap of this repository is held to, and the plain heap that meets it.
//
// A trace is a program of several lanes: each phase gives each lane its operations, and at its end domains
// change hands or are frozen. A domain that a lane holds is read and written by this lane alone; a frozen one is read by
// every lane and written by none, until it is given to a lane. `specs/` says what it means: the state of a run (all objects that were ever made, the root
// slots, the holders), the step of an operation with its reply, the run over phases, what a state reaches,
// and how many superpages it needs. It speaks of lanes, births and paths, and of nothing that a heap is made of.
//
// `Flat` is the heap that never frees, moves or pages. It keeps a list for each lane of what it made, the
// slots of one domain after another, and the holders; each step costs no more than the object that it touches.
// Its invariant, `IsState`, says that every reference is to an object that was born, every number and
// number of fields is in range, and every domain is a lane's or frozen.
//
// The theorem stands on `Flat::step`, `Flat::give`, `Flat::freeze` and `Flat::phase`: they do exactly what the definitions say.
// Where memory runs out `step` does nothing. A phase stops at that operation, and of the heap nothing is promised then.
//
// The laws in `laws` say what the definitions mean: lanes commute in any order, objects stay, a lane changes its own domains
// alone, and each operation is refused for just the reasons that `specs/Refused.antt` names and has its answer everywhere
// else. They also say what an operation that is done leaves in the slot or the field that it writes (`specs/Changes.antt`),
// and that all else stays as it was.
#![tactic(auto)]

mod item;
pub mod laws;
mod made;
mod opening;
mod operations;
mod plain_heap;
mod replay;
mod traces;
mod values;

pub use opening::first_holders;
pub use operations::{Op, Reply};
pub use plain_heap::Flat;
pub use traces::{Change, Give, Phase, Replies, Setup, Trace, TurnLine};
pub use values::{Birth, Holder, Slot, Value};
