// How long notices wait for their answers while a trace is run: a program for `bench/live`, and no part of the collector.
//
// It reads a trace from standard input and replays it as `bc_live` does, with a feeder beside the run that hands in drawn hints. What that
// writes goes to standard output. To standard error go times, in nanoseconds from when the words were read, in lines of words `key=value`:
//
//     taken=2 begun=210455 ended=815023
//     handed=23100 answered=401277
//     handed=23180 answered=402519
//
// (a line for each hint that was taken, in order). `taken` is how many these are. `begun` is when the replies of the first phase were
// written, so that a trace can build its heap in that phase, and `ended` when the run had ended. A hint was `handed` in when the feed gave it,
// and is `answered` when a gate is passed by a pager whose answer is kept. The pagers of a run answer the hints of the feed one after another,
// in order, so pass n is of hint n. They have no notices but these: a trace whose `turn` lines have some is refused.
//
// Its words are a pause in microseconds, and then those of `bc_live`. The feed sleeps for the pause before it gives a hint; where that is 0 the
// feeder hands in hints as fast as the queue takes them. The program promises nothing: what is proved is that every condition of the calls
// is met.
#![tactic(auto)]

ghost use Rattle.bc_replay.specs.Outcomes.{HasRoomFor};

mod timed;
mod times;

use crate::timed::{TimedFeed, TimedGate, TimedSink};
use crate::times::Notes;
use anyhow::{Context, Result, bail, ensure};
use bc_feed::{DrawFeed, Feed};
use bc_gates::Gate;
use bc_io::{Sink, Source, StdSink, StdSource};
use bc_live::live::live;
use bc_live::{LiveStatus, LiveWords, live_words_of};
use std::env;
use std::io::{Read, Write};
use std::rt::Clock;
use std::sync::Wait;
use std::thread::Threads;
use std::time::Duration;

/// Replays a trace. It returns how that ended, and how many hints were taken.
fn run<R, S, K, F, G>(
    rt: &R,
    words: &[&str],
    source: &mut S,
    sink: &mut K,
    feed: &mut F,
    gate: &G,
) -> (LiveStatus, usize)
where
    R: AllocGlobal + Threads + Wait + Sync,
    S: Source,
    K: Sink,
    F: Feed + Send,
    G: Gate + Sync,
    requires room { HasRoomFor (S.left source.old) (K.room sink.old) }
{
    let outcome = live(rt, rt.alloc(), rt, words, source, sink, feed, gate);
    (outcome.status, outcome.taken.len())
}

/// Replays the trace of a stream with these hints, and notes its times.
fn run_timed<R, I, O>(
    rt: &R,
    notes: &Notes,
    words: &[&str],
    asked: LiveWords,
    pause: Duration,
    input: I,
    output: O,
) -> (LiveStatus, usize)
where
    R: AllocGlobal + Clock + Threads + Wait + Sync,
    I: Read + Drop,
    O: Write + Drop,
{
    let mut source = StdSource::new(input);
    let mut sink = TimedSink {
        sink: StdSink::new(output),
        clock: rt,
        times: &notes.written,
    };
    let mut feed = TimedFeed {
        drawn: DrawFeed::new(asked.start, asked.count),
        pause,
        clock: rt,
        times: &notes.handed,
    };
    let gate = TimedGate {
        clock: rt,
        times: &notes.answered,
    };
    run(rt, words, &mut source, &mut sink, &mut feed, &gate)
}

/// Prints the times of a run that is done, in which so many hints were taken.
fn print_times<R: Clock + Eprint>(rt: &R, notes: &Notes, taken: usize) -> Result<()> {
    let ended = notes.since_start(rt).context(UNREAD)?;
    ensure!(
        notes.answered.count() == taken as u64,
        "a turn line of the trace has notices"
    );
    let begun = notes.written.time(0).context(UNREAD)?;
    eprintln!(rt; "taken={taken} begun={begun} ended={ended}")?;
    for number in 0..taken {
        let handed = notes.handed.time(number).context(UNREAD)?;
        let answered = notes.answered.time(number).context(UNREAD)?;
        eprintln!(rt; "handed={handed} answered={answered}")?;
    }
    Ok(())
}

/// What is said where a time is wanting.
const UNREAD: &str = "the clock can't be read";

fn main(rt: HostRuntime) -> Result<()> {
    let mut words = Vec::new(rt.alloc());
    for word in env::args(&rt)?.skip(1) {
        words.push(word)?;
    }
    let (pause, given) = words.split_first().context("no words")?;
    let pause = pause.parse::<u64>().context("the pause is no number")?;
    let mut texts = Vec::new(rt.alloc());
    for word in given {
        texts.push(word.as_str())?;
    }
    let asked = live_words_of(rt.alloc(), &texts)?.context("these are no words of bc_live")?;
    let notes = Notes::new(&rt, rt.alloc(), asked.count)?;
    let (status, taken) = run_timed(
        &rt,
        &notes,
        &texts,
        asked,
        Duration::from_micros(pause),
        rt.stdin(),
        rt.stdout(),
    );
    if let Some(fault) = status.fault() {
        bail!("{fault}");
    }
    print_times(&rt, &notes, taken)
}
