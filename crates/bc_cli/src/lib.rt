// bc_cli: replays an allocation trace on the collector's heap, and prints each lane's replies.
//
// `top` does all that the program does: it reads the words, reads a trace from a source or draws one, replays it,
// and writes the replies, or how many there were of each kind, or an image of the heap, to a sink. Its contract is the theorem of this
// repository: whatever the heap below does, the replies printed for each lane are those of a heap that never frees, moves or
// pages, all of them where the run is done, and else a prefix of them, with the exact cause of the
// refusal. The definitions that the contract cites are in `specs/`: `Churns` has what `churn` prints and how the replay of a trace ends that
// was drawn, `Saves` and `Resumes` what is said of an image that is written or read, `Limits` what the words settle. Those of the run of a
// trace are in the `specs/` of bc_replay. Which words are a command is said by `bc_words`.
//
//     words -> command_of -> read_trace -> run_trace                                                      (bc_replay)
//                         -> read_resumable (scan, read) -> adopt_listing -> replay_on, from the first phase that isn't done
//                         -> read_trace -> save: for each of the first phases, run_phase; then split -> write
//                         -> churn: draw -> for each phase, run_phase -> counts; then put_churn -> write_all
//
// The commands share what bc_replay does: a trace is read, and its phases are run on an engine. Beside it they differ: what is written
// after a phase, and where the engine comes from or goes. An image may picture several states, which give the same replies, so what
// `resume` says is said of each.
//
// `churn` adds each phase's replies to eleven numbers and drops them. Room for its text is taken before the first phase, and the text
// is made after the last one and written as a whole. No state of its run needs more than 27 of its 32 superpages. `save` drops the
// replies too. Its image has the trace's version, and so no frozen domain in version 1. To write one takes no memory, so memory runs out
// before the first phase or in the engine alone.
//
// What runs and takes memory is apart from what writes: `run_saved` and then `put_saved`, `counted` and then `put_summary`. The second of each takes
// no allocator, and ends with all written or with a failed write, so it can't skip the writing as out of memory.
#![tactic(auto)]

mod churn;
mod laws;
mod limits;
mod resume;
mod save;
pub mod top;

pub use bc_gates::{Gate, Host, OpenGate};
pub use bc_replay::{Fault, Outcome, Status, read_trace, run_trace};
pub use laws::{law_output, law_resumed, law_whole_course};
pub use limits::longest_input;
