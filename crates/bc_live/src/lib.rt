// bc_live: the run of a trace, with a feeder beside it that hands in hints.
//
// `live` does all that the program does: it reads the words, reads a trace from a source, replays it, and writes each lane's replies to a
// sink, as `run` of bc_cli does. Beside the run a feeder on another thread gets hints from a feed and hands them in, and the turns of lanes
// take them as notices. Its contract is the theorem: what is written is what `run` writes, whatever the feed gives and whenever. And no hint
// is lost or taken twice: those that were handed in are the feed's next ones, in order, and are those that were taken and then those that are
// left; each that was taken has one answer, in the same order.
//
//     words -> live_words_of -> read_trace -> run_fed: open, fill -> run_beside_feeder -> close
//                                                                     feeder: hand_in                                    (bc_feed)
//                                                                     run: run_as -> run_trace_with, over QueueNotices   (bc_replay)
//
// - The words are two numbers or three. The first is where the program draws hints from: `live` takes whatever feed it is given.
// - Nothing is handed in before the trace is read and the memory for the hints and answers is taken. Then the first hints are handed in, as
//   many as the queue has places for, so that the first turn finds them.
// - `QueueNotices` gives notices out of the queue: it numbers the hints in the order in which they are taken. It never waits for a hint. All
//   turns of the run take from one such value, which the engine passes down, so what one turn leaves goes to the next.
// - `run_as` stands between this crate and `run_trace_with` since the outcome holds a heap: a function that hands that out can't be called
//   with notices that borrow the queue, but for one whose result is of a type of the caller's.
// - That the notices come through one channel is kept by a type parameter (`ChannelName`), which is for the proofs alone.
//
// `specs/Feeds` says what is known of the hints and the answers, `specs/Runs` how a run ends, `specs/Queues` what notices out of a queue keep,
// `specs/Words` which words there are, `specs/Statuses` what the statuses are as those of `run`. How `run` ends is said by definitions of
// bc_replay (`specs/Endings`, `specs/Outcomes`).
//
// Not claimed: that hints come beside the run, which tests show, and that the call returns. It waits only where `QueueNotices` meets a push
// that is under way, and in the feeder.
#![tactic(auto)]

pub mod live;
mod notices;
mod outcome;
mod running;
mod status;
mod words;

pub use notices::{ChannelName, QueueNotices};
pub use outcome::LiveOutcome;
pub use status::{LiveFault, LiveStatus};
pub use words::{LiveWords, live_words_of};
