// Runs of the program on devices in memory, for the tests above: it is no part of the collector.
//
// A test makes the text of a trace (`traces`, `chains`, `frozen`) or the bytes of an image (`images`). It runs them by the words of the
// program (`runs`), or past a gate with turns that run as it says (`passes`), and looks at the status, at the bytes that a sink in memory
// took (`sink`), and at what the engine counted.
//
// What `top` and `run_trace` promise of a run is left out here: no call below has an `ensures`, so no test carries a theorem along that it
// doesn't use. A call that may end a test early can't stand in a library. So each crate of tests compares by itself (`equal`).
#![tactic(auto)]

mod chains;
mod frozen;
mod images;
mod passes;
mod runs;
mod sink;
mod traces;

pub use chains::{
    FOUR_FRAMES, TWO_FRAMES, chain, chain_printed, followed_to_the_end, linked, links,
    withheld_chain,
};
pub use frozen::{FROZEN, READ};
pub use images::bytes_of;
pub use passes::{Passed, run_marked, run_paced, run_past};
pub use runs::{Ran, run_between, run_on, run_over};
pub use sink::Paper;
pub use traces::{
    CUT_PRINTED, CUT_SHORT, FIRST_PHASE, FIRST_PRINTED, FOUR_DOMAINS, GIVEN, ONE_SLOT_EACH, SMALL,
    TWO_LANES, followed, repeated, trace, trace_in,
};
