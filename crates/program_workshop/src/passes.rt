//! Runs of a trace past a gate, with turns that run as a test says.

ghost use Rattle.std.specs.Prelude.{◌≤◌};

use crate::sink::Paper;
use bc_cli::{Gate, Host, Outcome, Status, read_trace, run_trace};
use bc_engine::{Answer, Counters, Pacing};
use bc_io::MemSource;
use std::alloc::{AllocError, Global};
use std::thread::Threads;

/// What a run past a gate ended with, what it wrote, the answers to the notices of its last phase, and what its engine counted.
#[derive(Drop)]
pub struct Passed {
    pub status: Status,
    pub written: Vec<u8>,
    pub answers: Vec<Answer>,
    pub counters: Option<Counters>,
}

/// Runs the trace with this text, past a gate: each turn at a table, its lanes and its pagers on threads of their own.
pub fn run_past<R: Threads + Sync, G: Gate + Sync>(
    rt: &R,
    alloc: Global,
    text: &str,
    gate: &G,
) -> Result<Passed, AllocError> {
    run_paced(rt, alloc, text, Pacing::SideBySide, gate)
}

/// Runs the trace with this text, past a gate, with turns that run so, and one marker. Where no heap is handed back there are no answers and
/// no counters.
pub fn run_paced<R: Threads + Sync, G: Gate + Sync>(
    rt: &R,
    alloc: Global,
    text: &str,
    pacing: Pacing,
    gate: &G,
) -> Result<Passed, AllocError> {
    run_marked(rt, alloc, text, 1, pacing, gate)
}

/// The same with as many markers, 1 to 16.
pub fn run_marked<R: Threads + Sync, G: Gate + Sync>(
    rt: &R,
    alloc: Global,
    text: &str,
    workers: u32,
    pacing: Pacing,
    gate: &G,
) -> Result<Passed, AllocError>
    requires workers { (1 ≤ workers) × (workers ≤ 16) }
{
    let mut source = MemSource::new(text.as_bytes().to_vec(alloc)?, 4096, Vec::new(alloc));
    let mut sink = Paper::new(alloc);
    let outcome = run_read(rt, alloc, gate, &mut source, &mut sink, workers, pacing);
    passed_by(alloc, &outcome, sink.into_bytes())
}

/// What a run ended with, of which this was written.
fn passed_by(alloc: Global, outcome: &Outcome, written: Vec<u8>) -> Result<Passed, AllocError> {
    let (answers, counters) = match &outcome.heap {
        Some(engine) => (engine.answers().to_vec(alloc)?, Some(engine.counters())),
        None => (Vec::new(alloc), None),
    };
    Ok(Passed {
        status: outcome.status,
        written,
        answers,
        counters,
    })
}

/// Reads a trace and runs it, without what `run_trace` promises of that: so no test carries it along.
fn run_read<R: Threads + Sync, G: Gate + Sync>(
    rt: &R,
    alloc: Global,
    gate: &G,
    source: &mut MemSource,
    sink: &mut Paper,
    workers: u32,
    pacing: Pacing,
) -> Outcome
    requires workers { (1 ≤ workers) × (workers ≤ 16) }
{
    let host = Host {
        threads: rt,
        alloc,
        gate,
    };
    match read_trace(alloc, source) {
        Ok(trace) => run_trace(&host, &trace, workers, pacing, sink),
        Err(status) => Outcome::without_heap(status),
    }
}
