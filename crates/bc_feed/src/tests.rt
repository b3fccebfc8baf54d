//! Tests of a channel: each call, and a feeder on a thread beside a run.

ghost use Rattle.std.specs.Prelude.{◌≡◌, ◌≤◌, ◌++◌, length, min, IfErr, IfOk};
ghost use Rattle.bc_feed.specs.Ends.{channel_id, taker_channel};

use crate::{Channel, DrawFeed, Feed, Passed, Taker, feed_beside, open};
use std::alloc::{AllocError, Global};
use std::sync::Wait;
use std::test::*;
use std::thread;
use std::thread::Threads;

/// A channel for `most` hints, and a run that first idles, and then takes hints until it has `enough` or has asked `tries` times.
struct Plan {
    most: usize,
    idle: u32,
    enough: usize,
    tries: u32,
}

/// The run: it takes what the plan says.
fn take_some<W: Wait>(wait: &W, channel: &Channel, taker: &mut Taker, plan: &Plan)
    requires of { taker_channel taker.old ≡ channel_id channel.now }
    ensures of { taker_channel taker.new ≡ taker_channel taker.old }
{
    for _ in 0..plan.idle {
        thread::yield_now();
    }
    for _ in 0..plan.tries {
        if taker.taken().len() >= plan.enough {
            return;
        }
        if taker.take(wait, channel).is_none() {
            thread::yield_now();
        }
    }
}

/// What comes of a feeder beside a run.
#[tactic(auto, using(crate::proofs::HandLemmas::handed_whole, crate::proofs::HandLemmas::handed_longer))]
fn pass_on<R: Threads, W: Wait + Sync, F: Feed + Send>(
    threads: &R,
    wait: &W,
    alloc: Global,
    feed: &mut F,
    plan: &Plan,
) -> Result<Passed, AllocError>
    ensures fed { IfOk result (λ p. p.handed.items ++ F.coming feed.new ≡ F.coming feed.old) }
    ensures split { IfOk result (λ p. p.handed.items ≡ p.taken.items ++ p.left.items) }
    ensures enough { IfOk result (λ p. min (min plan.now.most 64) (length (F.coming feed.old)) ≤ length p.handed.items) }
    ensures refused { IfErr result (λ _. feed.new ≡ feed.old) }
{
    let (opened, ends) = open(alloc, plan.most)?;
    let channel = &opened;
    let (mut feeder, mut taker) = ends.fill(wait, channel, feed);
    feed_beside(
        threads,
        wait,
        channel,
        &mut feeder,
        feed,
        &mut ||
            requires { taker_channel taker ≡ channel_id channel.now }
            ensures { taker_channel taker.exit ≡ taker_channel taker.entry }
        { take_some(wait, channel, &mut taker, plan) },
    );
    Ok(channel.close(wait, feeder, taker))
}

#[test]
fn what_is_taken_beside_a_feeder_comes_in_order(rt: HostRuntime) -> Result<(), Fail> {
    let mut feed = DrawFeed::new(7, 1000);
    let passed = pass_on(
        &rt,
        &rt,
        rt.alloc(),
        &mut feed,
        &Plan {
            most: 700,
            idle: 20_000,
            enough: 700,
            tries: 100_000_000,
        },
    )?;
    assert_eq!(rt; (passed.handed.len(), passed.left.len()), (700, 0));
    assert!(rt; passed.taken == passed.handed);
    let mut again = DrawFeed::new(7, 1000);
    for hint in passed.handed.iter() {
        assert_eq!(rt; again.next(), Some(*hint));
    }
    assert_eq!(rt; feed.next(), again.next());
    Ok(())
}

#[test]
fn what_a_run_leaves_is_left_in_order(rt: HostRuntime) -> Result<(), Fail> {
    let mut feed = DrawFeed::new(5, 1000);
    let passed = pass_on(
        &rt,
        &rt,
        rt.alloc(),
        &mut feed,
        &Plan {
            most: 1000,
            idle: 20_000,
            enough: 10,
            tries: 10,
        },
    )?;
    assert_eq!(rt; passed.taken.len(), 10);
    assert!(rt; passed.left.len() >= 54);
    let mut again = DrawFeed::new(5, 1000);
    for hint in passed.taken.iter().chain(passed.left.iter()) {
        assert_eq!(rt; again.next(), Some(*hint));
    }
    assert_eq!(rt; feed.next(), again.next());
    Ok(())
}

#[test]
fn an_empty_feed_hands_in_nothing(rt: HostRuntime) -> Result<(), Fail> {
    let mut feed = DrawFeed::new(5, 0);
    let passed = pass_on(
        &rt,
        &rt,
        rt.alloc(),
        &mut feed,
        &Plan {
            most: 1000,
            idle: 0,
            enough: 1,
            tries: 10,
        },
    )?;
    assert_eq!(rt;
        (passed.handed.len(), passed.taken.len(), passed.left.len()),
        (0, 0, 0)
    );
    Ok(())
}

#[test]
fn a_line_for_no_hints_leaves_the_feed_as_it_is(rt: HostRuntime) -> Result<(), Fail> {
    let mut feed = DrawFeed::new(5, 1);
    let passed = pass_on(
        &rt,
        &rt,
        rt.alloc(),
        &mut feed,
        &Plan {
            most: 0,
            idle: 0,
            enough: 1,
            tries: 10,
        },
    )?;
    assert_eq!(rt; (passed.handed.len(), passed.left.len()), (0, 0));
    assert!(rt; feed.next().is_some());
    Ok(())
}

#[test]
fn hints_are_handed_in_before_the_run_until_the_queue_is_full(rt: HostRuntime) -> Result<(), Fail> {
    let mut feed = DrawFeed::new(1, 100);
    let (channel, ends) = open(rt.alloc(), 100)?;
    let (feeder, mut taker) = ends.fill(&rt, &channel, &mut feed);
    let first = taker.take(&rt, &channel);
    assert_eq!(rt; taker.taken().first().copied(), first);
    let passed = channel.close(&rt, feeder, taker);
    assert_eq!(rt; (passed.handed.len(), passed.left.len()), (64, 63));
    Ok(())
}

#[test]
fn drawn_hints_are_those_of_the_generator(rt: HostRuntime) -> Result<(), Fail> {
    let mut feed = DrawFeed::new(1, 3);
    let hints = [feed.next(), feed.next(), feed.next(), feed.next()];
    assert_eq!(rt; hints, [Some(14_294), Some(857), Some(12_492), None]);
    Ok(())
}
