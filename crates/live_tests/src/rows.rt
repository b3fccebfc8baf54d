//! Runs of `live` over devices in memory, with their lists.

use crate::equal::same;
use crate::sink::Paper;
use bc_feed::{DrawFeed, Feed};
use bc_gates::{Gate, OpenGate};
use bc_io::{MemSource, Source};
use bc_live::live::live;
use bc_live::{LiveOutcome, LiveStatus};
use bc_trace::Cause;
use std::alloc::{AllocError, Global};
use std::process::Abort;
use std::sync::Wait;
use std::test::Fail;
use std::thread::Threads;

/// The trace of examples/first-path.
pub const FIRST_PATH: &str =
    "bc-trace 1\nlanes 1\ndomains 1\nslots 2\nsuperpages 1\nnursery 1\nbuffer 4\nframes 3\n\
    phase\nlane 0\nnew 0 0 2\nset 0 0 1 7\nload 0 0 1 0 1\nend\ndone\n";

/// What is printed for it.
pub const FIRST_PATH_PRINTED: &str = "phase 1\nlane 0\nobj 0.1\nok\nnum 7\ndone\n";

/// What the words do over these devices, past a gate, without what `live` promises of it: so no test carries that along.
fn run_between<R: Threads + Wait + Sync, S: Source, F: Feed + Send, G: Gate + Sync>(
    rt: &R,
    alloc: Global,
    words: &[&str],
    source: &mut S,
    sink: &mut Paper,
    feed: &mut F,
    gate: &G,
) -> LiveOutcome {
    live(rt, alloc, rt, words, source, sink, feed, gate)
}

/// What a run ended with, and what it wrote.
#[derive(Drop)]
pub struct Ran {
    pub outcome: LiveOutcome,
    pub written: Vec<u8>,
}

/// Runs the words over the trace with this text, past a gate, on a sink that takes all or fails.
pub fn run_over<R: Threads + Wait + Sync, F: Feed + Send, G: Gate + Sync>(
    rt: &R,
    alloc: Global,
    words: &[&str],
    text: &str,
    fails: bool,
    feed: &mut F,
    gate: &G,
) -> Result<Ran, AllocError> {
    let mut source = MemSource::new(text.as_bytes().to_vec(alloc)?, 4096, Vec::new(alloc));
    let mut sink = Paper::new(alloc, fails);
    let outcome = run_between(rt, alloc, words, &mut source, &mut sink, feed, gate);
    Ok(Ran {
        outcome,
        written: sink.into_bytes(),
    })
}

/// Shows how long the lists are: of the hints that were handed in, taken and left, and of the answers.
pub fn shows_lists<R: Abort>(
    rt: &R,
    outcome: &LiveOutcome,
    (handed, taken, left): (usize, usize, usize),
) {
    same(
        rt,
        (outcome.handed.len(), outcome.taken.len()),
        (handed, taken),
    );
    same(
        rt,
        (outcome.left.len(), outcome.answers.len()),
        (left, taken),
    );
}

#[test]
fn a_run_with_no_hint_is_that_of_run(rt: HostRuntime) -> Result<(), Fail> {
    let alloc = rt.alloc();
    let mut feed = DrawFeed::new(1, 0);
    let words = ["1", "0"];
    let ran = run_over(&rt, alloc, &words, FIRST_PATH, false, &mut feed, &OpenGate)?;
    same(&rt, ran.outcome.status, LiveStatus::Done);
    shows_lists(&rt, &ran.outcome, (0, 0, 0));
    assert!(rt; ran.written.as_slice() == FIRST_PATH_PRINTED.as_bytes());
    Ok(())
}

#[test]
fn an_empty_input_is_refused_and_the_feed_keeps_its_hint(rt: HostRuntime) -> Result<(), Fail> {
    let mut feed = DrawFeed::new(5, 1);
    let ran = run_over(
        &rt,
        rt.alloc(),
        &["5", "1"],
        "",
        false,
        &mut feed,
        &OpenGate,
    )?;
    let status = LiveStatus::BadTrace {
        line: 0,
        cause: Cause::End,
    };
    same(&rt, ran.outcome.status, status);
    shows_lists(&rt, &ran.outcome, (0, 0, 0));
    assert!(rt; feed.next().is_some());
    Ok(())
}

#[test]
fn words_that_are_no_numbers_leave_the_feed_its_hint(rt: HostRuntime) -> Result<(), Fail> {
    let mut feed = DrawFeed::new(5, 1);
    let words = ["01", "1"];
    let ran = run_over(
        &rt,
        rt.alloc(),
        &words,
        FIRST_PATH,
        false,
        &mut feed,
        &OpenGate,
    )?;
    same(&rt, ran.outcome.status, LiveStatus::BadWords);
    shows_lists(&rt, &ran.outcome, (0, 0, 0));
    assert!(rt; feed.next().is_some());
    Ok(())
}

#[test]
fn a_feed_that_ends_early_hands_in_what_it_has(rt: HostRuntime) -> Result<(), Fail> {
    let mut feed = DrawFeed::new(5, 3);
    let words = ["5", "10", "2"];
    let ran = run_over(
        &rt,
        rt.alloc(),
        &words,
        FIRST_PATH,
        false,
        &mut feed,
        &OpenGate,
    )?;
    same(&rt, ran.outcome.status, LiveStatus::Done);
    same(&rt, ran.outcome.handed.len(), 3);
    let mut again = DrawFeed::new(5, 3);
    for hint in ran.outcome.taken.iter().chain(ran.outcome.left.iter()) {
        assert_eq!(rt; again.next(), Some(*hint));
    }
    same(&rt, again.next(), None);
    same(&rt, feed.next(), None);
    Ok(())
}

#[test]
fn a_failing_sink_leaves_the_lists_as_they_are(rt: HostRuntime) -> Result<(), Fail> {
    let mut feed = DrawFeed::new(5, 3);
    let ran = run_over(
        &rt,
        rt.alloc(),
        &["5", "3"],
        FIRST_PATH,
        true,
        &mut feed,
        &OpenGate,
    )?;
    same(&rt, ran.outcome.status, LiveStatus::WriteFault);
    same(&rt, ran.outcome.handed.len(), 3);
    same(&rt, ran.outcome.answers.len(), ran.outcome.taken.len());
    assert!(rt; ran.written.is_empty());
    Ok(())
}
