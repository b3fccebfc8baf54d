// Hints that a feeder hands in while a heap is run.
//
// A trace has hints of its own in its `turn` lines. Here they come from outside as well: a feeder, on a thread of its own, gets hints from
// a feed (`Feed`) and hands them in, and the run takes them. Between the two is a channel (`Channel`): a queue of 64 places that both
// borrow. A hint is a number: this crate knows nothing of heaps, pages and turns.
//
// - `open` makes a channel for a number of hints at most, and takes all memory: the queue, and a list each for the hints that are handed in,
//   taken and left. No later call takes any.
// - `BothEnds::fill` hands in the first hints, until the queue is full, and then parts the ends. So the run finds these from the first.
// - `feed_beside` calls the run on the caller's thread, and beside it the feeder goes on. A hint for which the queue has no place yet waits
//   with the feeder, which tries again: it spins and yields at first, then sleeps for half a millisecond at a time, and is woken when the
//   run ends. The feeder stops when the run has ended, when as many were handed in as the channel is for, or when the feed is empty.
// - The run takes hints by `Taker::take`, which doesn't wait for one.
// - `Channel::close` takes both ends back once both have ended, takes what the queue still holds, and gives the three lists.
//
// The rule of the queue, between any two steps of both threads, is `PassesInOrder`: what was pushed is what was popped and then what the queue
// holds, in order, and no more was pushed than the channel is for. Each end has a pass, which exists in proofs alone (`Account`). One pass
// pushes, and knows all that was pushed; one pops, and knows all that was popped and what was pushed before the ends were parted. The types
// keep that a feeder's list is what was pushed and then the hint that waits, and that a taker's list is what was popped.
//
// What is proved is that no hint is lost, given twice or out of order. The hints that were handed in are the next ones of the feed, which
// has those after them (clause `fed` of `fill` and `feed_beside`). They are those that were taken and then those that are left (clause
// `split` of `Channel::close`). Where `take` finds none, all that `fill` handed in is taken (clause `none`). Nothing says that the feeder
// hands in more beside the run, nor that a call which may wait returns: tests look at both.
#![tactic(auto)]

mod beside;
mod closing;
mod drawn;
mod ends;
mod feed;
mod feeding;
mod opening;
mod rule;
mod taking;
#[cfg(test)]
mod tests;

pub use beside::feed_beside;
pub use drawn::DrawFeed;
pub use ends::{BothEnds, Channel, Feeder, Passed, Taker};
pub use feed::Feed;
pub use opening::open;
