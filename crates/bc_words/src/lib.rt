//! The words of the command line, read as a command.
//!
//! `bc run` replays a trace that comes in, and `bc churn N OPS` one that it makes itself. `bc save K` replays the
//! first K phases of a trace and writes an image; `bc resume` reads an image and replays the phases after it. Each
//! takes `--workers`.
//! Five rules say which words are a command. `specs/Commands` has them: `Parts` says what the words after the
//! first are, `AsksFor` what command they and the first word make. The theorem of this crate is the contract of
//! `command_of`: for every list of words it finds the command that the words are, and none where they are none,
//! unless memory runs out.
//!
//! The first word is compared by hand. What follows is read by `clap`, as one simple command without flags of
//! its own, which has the option `--workers` and takes any plain values; `clap` says which words are values and
//! refuses the others. How many plain values there may be, and which texts are numbers, is tested by hand: `clap`
//! reads numbers with signs and leading zeros, which are none here.
//!
//! `clap`'s contract gives the matches and the fault of a simple command as functions of its words. The lemmas in
//! `proofs/` lead from these functions to the rules, by one step for each word.

#![tactic(auto)]

mod command;
mod laws;
mod numbers;

pub use command::{Command, command_of};
pub use laws::law_workers_anywhere;
pub use numbers::number;
