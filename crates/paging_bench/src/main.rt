// How a trace pages: a program for `bench/paging` and other benches, and no part of the collector.
//
// It reads a trace from standard input, has the engine of `bc run` replay it, and prints a line for each phase, of words `key=value`, so that
// any tool can take what it wants by the key:
//
//     phase=2 operations=8 turns=3 early=0 promotions=2 collections=0 failsafes=1 reads=6 turn_reads=3 alone_reads=1 collection_reads=2
//     left=5 turn_left=1 alone_left=1 collection_left=3 notice_left=0 frames=3 superpages=3 gone=1 replies=1723
//
// (in one line). `phase` is the phase's number, counted from 1, and `operations` how many it has. All further words up to `notice_left` are the
// engine's counters (`Engine::counters`), as much as they went on by in the phase. It had so many `turns` of the lanes, and so many bookmark
// collections came before a minor one since frames were short (`early`). The survivors of minor collections found cells at once in `promotions`,
// after a bookmark collection in `collections`, and in `failsafes` the fail-safe collected the whole heap. `reads` is how many pages were read back
// from the store, and `left` how many pages with objects left memory for it: by lanes in turns (`turn_`); by operations of one lane alone, of which
// each lane does one after a minor collection (`alone_`); in minor collections (`collection_`); and for notices (`notice_`). The next ones
// say how things stand after the phase: frames that aren't free, those of nursery pages among them, superpages in use, and pages
// that are gone. `replies` is a number made of all replies, which is the same however the heap pages. A phase that ends for
// want of heap is the last, and its line has `need=N` at its end.
//
// Words after the program's name change what it does:
//
//     plain        in each turn lanes run one after another on the heap itself, and then notices are answered. So each count is the same at
//                  each run. Without it turns have a table and threads where these are likely to pay, as in `bc run`
//     beside       each turn has a table, with a thread for each lane that has operations left and for each pager
//     one-thread   each turn has a table, on one thread
//     steps        a line of the engine's log for each step comes before the phase's: `step` says what it was, `operations`, `reads` and `left`
//                  what was done in it, and the others how it left the heap: pages with a frame (`home`), those of nurseries not among them,
//                  pages that are gone, cells that are allocated, and superpages in use. A step is a turn of the lanes (`turn`), a bookmark
//                  collection since frames were short (`early`), a minor collection whose survivors found cells at once (`promotion`), after a
//                  bookmark collection (`collection`), after the fail-safe (`failsafe`) or not at all (`too-small`), or an operation of each
//                  lane that wasn't at its end (`alone`)
//     clock        a phase's line has how many `nanoseconds` it took: neither reading nor printing is in it
//
// It promises nothing: what is proved is that every condition of the calls is met.
#![tactic(auto)]

mod counts;
mod phases;

use crate::phases::replay;
use anyhow::{Result, bail};
use bc_engine::Pacing;
use bc_io::{StdSource, read_all};
use bc_trace::read;
use std::env;

/// The most bytes that a trace may have.
const LONGEST_TRACE: usize = 16_777_216;

/// What the words after the program's name ask for.
#[derive(Clone, Copy)]
pub(crate) struct Asked {
    /// How turns run.
    pacing: Pacing,
    /// Whether the steps of a phase are printed.
    steps: bool,
    /// Whether the time of a phase is printed.
    clock: bool,
}

/// What the words ask for.
fn words_of(rt: &HostRuntime) -> Result<Asked> {
    let mut asked = Asked {
        pacing: Pacing::Learned,
        steps: false,
        clock: false,
    };
    for word in env::args(rt)?.skip(1) {
        match word.as_str() {
            "plain" => asked.pacing = Pacing::Plain,
            "beside" => asked.pacing = Pacing::SideBySide,
            "one-thread" => asked.pacing = Pacing::OneThread,
            "steps" => asked.steps = true,
            "clock" => asked.clock = true,
            _ => bail!("the words are plain, beside, one-thread, steps and clock"),
        }
    }
    Ok(asked)
}

fn main(rt: HostRuntime) -> Result<()> {
    let asked = words_of(&rt)?;
    let mut source = StdSource::new(rt.stdin());
    let Ok(bytes) = read_all(rt.alloc(), &mut source, LONGEST_TRACE) else {
        bail!("the input can't be read, or is too long");
    };
    let Ok(trace) = read(rt.alloc(), &bytes) else {
        bail!("the input is no trace");
    };
    replay(&rt, &trace, asked)
}
