//! The lists of a channel whose ends have both ended.

ghost use Rattle.std.specs.Prelude.{◌≡◌, ◌≤◌, true, [], ◌++◌, length, vec_capacity};
ghost use Rattle.crossbeam_queue.specs.Passes.{view, IsPassOf};
ghost use Rattle.bc_feed.specs.Ends.{channel_id, feeder_channel, feeder_most, handed_of, taken_of, taker_channel};

use crate::ends::{Channel, Feeder, Passed, Taker};
use crate::rule::{Account, Gets, HintQueue, Parts};
use crossbeam_queue::Pass;
use std::sync::Wait;

/// Takes all that the queue still holds, in order. Nobody else uses it.
fn drain<W: Wait>(wait: &W, queue: &HintQueue, pass: Pass<u32, Account>, left: &mut Vec<u32>)
    requires of { IsPassOf queue.now pass }
    requires whole { ((view pass).pushes ≡ true) × ((view pass).pops ≡ true) }
    requires none { left.old.items ≡ [] }
    requires room { (view pass).most ≤ vec_capacity left.old }
    ensures left { (view pass).sent ≡ (view pass).got ++ left.new.items }
    ensures room { vec_capacity left.new ≡ vec_capacity left.old }
{
    let mut pass = pass;
    while let Some(hint) = queue.pop_as::<Gets, W>(wait, &mut pass) {
        left.push_reserved(hint);
    }
}

impl Channel {
    /// The hints that were handed in, taken and left, each in order, once both ends have ended. What was handed in is what was taken, and
    /// then what is left: the queue's last hints, and then the one that waited for a place.
    ///
    /// It takes no memory and doesn't wait for anyone: nobody else has an end.
    pub fn close<W: Wait>(&self, wait: &W, feeder: Feeder, taker: Taker) -> Passed
        requires of { (feeder_channel feeder ≡ channel_id self.now) × (taker_channel taker ≡ channel_id self.now) }
        ensures handed { result.handed.items ≡ handed_of feeder }
        ensures few { length result.handed.items ≤ feeder_most feeder }
        ensures taken { result.taken.items ≡ taken_of taker }
        ensures split { result.handed.items ≡ result.taken.items ++ result.left.items }
    {
        let Feeder {
            mut pass,
            most: _,
            handed,
            waiting,
            mut left,
        } = feeder;
        let Taker {
            pass: taker_pass,
            taken,
        } = taker;
        self.queue.absorb::<Parts>(&mut pass, taker_pass);
        drain(wait, &self.queue, pass, &mut left);
        if let Some(hint) = waiting {
            left.push_reserved(hint);
        }
        Passed {
            handed,
            taken,
            left,
        }
    }
}
