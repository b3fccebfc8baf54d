// bc_replay: the run of a trace: the trace is read, its phases are replayed, and each phase's replies are written.
//
// It is what the programs share that run traces: one set of functions with one proof. `read_trace` reads a source as a trace. `run_trace`
// replays one on a new heap, and `replay_on` goes on with one on a heap that has run its first phases. `run_phase` runs a phase and writes
// nothing, for commands that count its replies or drop them. `Status` is how a run ends, with its exit status and its line on standard
// error, and `Outcome` a status with the heap as it stands then.
//
//     read_trace -> run_trace_with -> replay_with:  for each phase, texts_room -> run_phase_with -> put_texts -> write_texts
//
// Notices may come from outside while a trace is run (`Notices` of bc_pager): `run_trace_with`, `replay_with` and `run_phase_with` take such a
// source, and a list to which the answers are added phase by phase. `run_trace`, `replay_on` and `run_phase` are these with no notices.
//
// A course is phases that are run from a state, and how many stand before them: a whole run is the course of all phases from the opening
// state, and a run that goes on with an image is one from a state that the image pictures. `run_phase` says what one phase does to a course,
// for all commands.
//
// The replay keeps `HasRun`: after k phases the engine stands for the state that the plain heap has then, and the texts of
// k phases are written. Each is written as soon as the phase has run, so memory for texts is that of the largest phase so far and not of
// the run. Room for a phase's texts is taken before it runs, or was kept of a phase before, so that memory runs out before the phase, or is the
// engine's own, and never in place of a need or of replies. A phase whose heap is too small gives its replies up to a cut of its lanes, and the
// need of what is reached there. They are written, and the run ends. The heap goes back to the caller, who may look at what it stands
// for.
//
// The theorem of a replay is the contract of `run_trace_with`, and of `replay_with` for every state that the heap may stand for: what is written
// is exactly the text of the plain heap's replies, all of it or a prefix with its cause. `top` of bc_cli rests on it, and `live` of bc_live. What the
// phases took of a source, and that each notice has one answer, in order, is its clause `fed`. The definitions are in `specs/`: `Courses` has what
// a replay runs, `Output` the texts, `Endings` how a replay ends and what its heap stands for then, `Outcomes` what each status says, `Feeding`
// what was taken of a source.
#![tactic(auto)]

mod input;
mod outcome;
mod phases;
mod run;
mod status;
mod texts;

pub use input::{LONGEST_TRACE, read_trace};
pub use outcome::Outcome;
pub use phases::{PhaseEnd, run_phase, run_phase_with};
pub use run::{replay_on, replay_with, run_trace, run_trace_with};
pub use status::{Fault, NamedFault, Status};
