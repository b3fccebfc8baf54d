//! Runs of `top` over devices in memory.

use crate::sink::Paper;
use bc_cli::top::top;
use bc_cli::{Gate, OpenGate, Outcome, Status};
use bc_io::{MemSource, Source};
use std::alloc::Global;
use std::thread::Threads;

/// What the words do over these devices, past a gate, without what `top` promises of it: so no test carries that along.
pub fn run_between<R: Threads + Sync, S: Source, G: Gate + Sync>(
    rt: &R,
    alloc: Global,
    words: &[&str],
    source: &mut S,
    sink: &mut Paper,
    gate: &G,
) -> Outcome {
    top(rt, alloc, words, source, sink, gate)
}

/// What a run ended with, whether it handed back a heap, and what it wrote.
#[derive(Drop)]
pub struct Ran {
    pub status: Status,
    pub has_heap: bool,
    pub written: Vec<u8>,
}

/// Runs the words over this source and this sink.
pub fn run_on<R: Threads + Sync, S: Source>(
    rt: &R,
    alloc: Global,
    words: &[&str],
    source: &mut S,
    mut sink: Paper,
) -> Ran {
    let outcome = run_between(rt, alloc, words, source, &mut sink, &OpenGate);
    Ran {
        status: outcome.status,
        has_heap: outcome.heap.is_some(),
        written: sink.into_bytes(),
    }
}

/// Runs the words over these bytes.
pub fn run_over<R: Threads + Sync>(rt: &R, alloc: Global, words: &[&str], input: Vec<u8>) -> Ran {
    let mut source = MemSource::new(input, 4096, Vec::new(alloc));
    run_on(rt, alloc, words, &mut source, Paper::new(alloc))
}
