//! A new channel, which is filled before its ends are parted.

ghost use Rattle.std.specs.Prelude.{◌≡◌, ◌≤◌, [], ◌++◌, length, min, vec_capacity, IfOk};
ghost use Rattle.crossbeam_queue.specs.Passes.{view, IsPassOf, IsSamePass};
ghost use Rattle.bc_feed.specs.Accounts.{untold_account, whole_account};
ghost use Rattle.bc_feed.specs.Ends.{channel_id, both_channel, both_most, feeder_channel, feeder_most, handed_of, known_of, taken_of, taker_channel, taker_most};

use crate::ends::{BothEnds, Channel, Feeder, Taker};
use crate::feed::Feed;
use crate::rule::{Account, HintCount, HintQueue, Parts, Sends, Tells};
use crossbeam_queue::Pass;
use std::alloc::{AllocError, Global};
use std::marker::Brand;
use std::sync::Wait;
use std::sync::atomic::AtomicBool;
use std::thread::Parker;

/// How many hints the queue has places for.
const PLACES: usize = 64;

/// Tells a new queue how many hints there are at most.
fn tell<N: HintCount>(queue: &HintQueue, pass: &mut Pass<u32, Account>, most: usize)
    requires of { IsPassOf queue.now pass.old }
    requires most { most ≡ N.hints }
    requires new { view pass.old ≡ untold_account }
    ensures same { IsSamePass pass.old pass.new }
    ensures told { view pass.new ≡ whole_account most [] [] }
{
    drop(queue.another::<Tells<N>>(pass));
}

/// Pushes the next `count` hints of the feed, or all that it has, on a queue that holds none and that nobody else uses.
fn push_first<W: Wait, F: Feed>(
    wait: &W,
    channel: &Channel,
    pass: &mut Pass<u32, Account>,
    feed: &mut F,
    count: usize,
    handed: &mut Vec<u32>,
)
    requires of { IsPassOf channel.now.queue pass.old }
    requires new { view pass.old ≡ whole_account (view pass.old).most [] [] }
    requires none { handed.old.items ≡ [] }
    requires count { (count ≤ 64) × (count ≤ (view pass.old).most) × (count ≤ vec_capacity handed.old) }
    ensures same { IsSamePass pass.old pass.new }
    ensures pushed { view pass.new ≡ whole_account (view pass.old).most handed.new.items [] }
    ensures fed { handed.new.items ++ F.coming feed.new ≡ F.coming feed.old }
    ensures many { length handed.new.items ≡ min count (length (F.coming feed.old)) }
    ensures room { vec_capacity handed.new ≡ vec_capacity handed.old }
{
    while handed.len() < count {
        let Some(hint) = feed.next() else {
            return;
        };
        match channel.queue.push_as::<Sends, W>(wait, pass, hint) {
            Ok(()) => handed.push_reserved(hint),
            Err(_) => unreachable!(),
        }
    }
}

/// A channel for `most` hints at most, which were not handed in yet, with its queue of 64 places and room for `most` hints in each list. All
/// memory is taken here.
pub fn open(alloc: Global, most: usize) -> Result<(Channel, BothEnds), AllocError>
    ensures of { IfOk result (λ made. both_channel made.1 ≡ channel_id made.0) }
    ensures most { IfOk result (λ made. both_most made.1 ≡ most) }
{
    let handed = Vec::with_capacity(alloc, most)?;
    let taken = Vec::with_capacity(alloc, most)?;
    let left = Vec::with_capacity(alloc, most)?;
    let (queue, mut pass) = HintQueue::ruled(alloc, PLACES)?;
    tell::<Brand>(&queue, &mut pass, most);
    let channel = Channel {
        queue,
        ended: AtomicBool::new(false),
        parker: Parker::new(),
    };
    Ok((
        channel,
        BothEnds {
            pass,
            most,
            handed,
            taken,
            left,
        },
    ))
}

impl BothEnds {
    /// Hands in hints until `most` were handed in, the queue is full or the feed is empty, and then parts the ends. The taker knows
    /// of all of them.
    ///
    /// It doesn't wait for anyone: nobody else has an end.
    pub fn fill<W: Wait, F: Feed>(
        self,
        wait: &W,
        channel: &Channel,
        feed: &mut F,
    ) -> (Feeder, Taker)
        requires of { both_channel self ≡ channel_id channel.now }
        ensures of { (feeder_channel result.0 ≡ channel_id channel.now) × (taker_channel result.1 ≡ channel_id channel.now) }
        ensures most { (feeder_most result.0 ≡ both_most self) × (taker_most result.1 ≡ both_most self) }
        ensures fed { handed_of result.0 ++ F.coming feed.new ≡ F.coming feed.old }
        ensures many { length (handed_of result.0) ≡ min (min (both_most self) 64) (length (F.coming feed.old)) }
        ensures known { known_of result.1 ≡ handed_of result.0 }
        ensures taken { taken_of result.1 ≡ [] }
    {
        let BothEnds {
            mut pass,
            most,
            mut handed,
            taken,
            left,
        } = self;
        push_first(
            wait,
            channel,
            &mut pass,
            feed,
            most.min(PLACES),
            &mut handed,
        );
        let taker_pass = channel.queue.another::<Parts>(&mut pass);
        let feeder = Feeder {
            pass,
            most,
            handed,
            waiting: None,
            left,
        };
        let taker = Taker {
            pass: taker_pass,
            taken,
        };
        (feeder, taker)
    }
}
