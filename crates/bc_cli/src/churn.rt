//! The replay of a workload that is drawn: its replies are counted, and the counts are written at the end.

ghost use Rattle.std.specs.Prelude.{◌≡◌, ◌≢◌, ◌⊎◌, ◌+◌, ◌^◌, ◌<◌, ◌≤◌, [], None, Some, IfOk, IfSome, IsErr, OnOk, length, vec_capacity};
ghost use Rattle.bc_engine.specs.declared.engines.Ended.{Ended};
ghost use Rattle.bc_io.specs.Faults.{Rose};
ghost use Rattle.bc_io.specs.Told.{HasRoom, HeldGrows};
ghost use Rattle.bc_model.specs.Run.{replies_of};
ghost use Rattle.bc_model.specs.RunLengths.{all_ops_of};
ghost use Rattle.bc_model.specs.WellFormed.{IsTrace};
ghost use Rattle.bc_churn.specs.Churn.{churn_trace};
ghost use Rattle.bc_churn.specs.Counts.{churn_text, run_counts};
ghost use Rattle.bc_churn.specs.TextRooms.{churn_bytes};
ghost use Rattle.bc_replay.specs.Accounts.{KeepsAccount};
ghost use Rattle.bc_replay.specs.Courses.{whole_course};
ghost use Rattle.bc_replay.specs.Endings.{FitsThroughout, WritesFront};
ghost use Rattle.bc_replay.specs.BetweenPhases.{HasRun};
ghost use Rattle.bc_replay.specs.NeedLine.{replies_before};
ghost use Rattle.bc_cli.specs.Churns.{ChurnsDone, ChurnsInFault, HasChurned, IsChurnEnding, summary};

use bc_churn::{Counts, churn_room, generate, put_churn};
use bc_engine::Engine;
use bc_gates::{Gate, Host};
use bc_io::{Sink, write_all};
use bc_model::Trace;
use bc_replay::{Outcome, Status, run_phase};
use std::alloc::{AllocError, Global};
use std::thread::Threads;

/// What the replay of a workload works on: its trace, a new heap, and room for its output.
#[derive(Drop)]
struct Workload {
    trace: Trace,
    engine: Engine,
    text: Vec<u8>,
}

/// A workload that was replayed: the heap at its end, how many replies of each kind there were, and room for its output.
#[derive(Drop)]
struct CountedRun {
    engine: Engine,
    counts: Counts,
    text: Vec<u8>,
}

/// Replays the workload of a starting number and so many drawn operations for each lane, and writes how many replies of each
/// kind there were. What takes memory is done before the first byte is written.
pub(crate) fn churn<R, K, G>(
    host: &Host<R, G>,
    start: u64,
    ops: u32,
    workers: u32,
    sink: &mut K,
) -> Outcome
where
    R: Threads + Sync,
    K: Sink,
    G: Gate + Sync,
    requires ops { ops ≤ 100000 }
    requires workers { (1 ≤ workers) × (workers ≤ 16) }
    requires room { HasRoom (K.room sink.old) (length (summary start ops)) }
    ensures ending { IsChurnEnding result.status }
    ensures done { result.status ≡ Status.Done →
        ChurnsDone start ops (K.held sink.old) (K.held sink.new) result.heap }
    ensures write_fault { result.status ≡ Status.WriteFault → Rose (K.faults sink.old) (K.faults sink.new)
        × ChurnsInFault start ops (K.held sink.old) (K.held sink.new) result.heap }
    ensures firm { result.status ≢ Status.WriteFault → K.faults sink.new ≡ K.faults sink.old }
    ensures no_memory { result.status ≡ Status.NoMemory → (sink.new ≡ sink.old) × (result.heap ≡ None) }
    ensures workers { IfSome result.heap (λ engine. engine.workers ≡ workers) }
    ensures account { IfSome result.heap KeepsAccount }
{
    match counted(host, start, ops, workers) {
        Ok(run) => put_summary(sink, start, ops, run),
        Err(_) => Outcome::without_heap(Status::NoMemory),
    }
}

/// Draws the workload, replays it, and counts the replies of each kind. Room for the output was taken too.
fn counted<R, G>(
    host: &Host<R, G>,
    start: u64,
    ops: u32,
    workers: u32,
) -> Result<CountedRun, AllocError>
where
    R: Threads + Sync,
    G: Gate + Sync,
    requires ops { ops ≤ 100000 }
    requires workers { (1 ≤ workers) × (workers ≤ 16) }
    ensures counts { IfOk result (λ run. run.counts ≡ run_counts (replies_of (churn_trace start ops))) }
    ensures heap { IfOk result (λ run. HasChurned start ops (Some run.engine)) }
    ensures empty { IfOk result (λ run. run.text.items ≡ []) }
    ensures room { IfOk result (λ run. churn_bytes ≤ vec_capacity run.text) }
    ensures workers { IfOk result (λ run. run.engine.workers ≡ workers) }
{
    let Workload {
        trace,
        mut engine,
        text,
    } = draw(host.alloc, start, ops, workers)?;
    let counts = replay(host, &mut engine, &trace, start, ops)?;
    Ok(CountedRun {
        engine,
        counts,
        text,
    })
}

/// Writes how many replies of each kind there were. The whole text is made before any of it is written, in room that was taken: it takes no
/// memory, and ends with the whole text, or with a failed write.
fn put_summary<K: Sink>(sink: &mut K, start: u64, ops: u32, run: CountedRun) -> Outcome
    requires empty { run.text.items ≡ [] }
    requires text_room { churn_bytes ≤ vec_capacity run.text }
    requires alive { run.engine.ended ≢ Some Ended.NoMemory }
    requires room { HasRoom (K.room sink.old) (length (churn_text start ops run.counts)) }
    ensures ending { (result.status ≡ Status.Done) ⊎ (result.status ≡ Status.WriteFault) }
    ensures done { result.status ≡ Status.Done → HeldGrows (K.held sink.old) (K.held sink.new) (churn_text start ops run.counts) }
    ensures write_fault { result.status ≡ Status.WriteFault → WritesFront (K.held sink.old) (K.held sink.new) (churn_text start ops run.counts) }
    ensures cause { result.status ≡ Status.WriteFault → Rose (K.faults sink.old) (K.faults sink.new) }
    ensures firm { result.status ≢ Status.WriteFault → K.faults sink.new ≡ K.faults sink.old }
    ensures heap { result.heap ≡ Some run.engine }
    ensures account { IfSome result.heap KeepsAccount }
{
    let CountedRun {
        engine,
        counts,
        mut text,
    } = run;
    put_churn(&mut text, start, ops, &counts);
    match write_all(sink, &text) {
        Ok(()) => Outcome::with_heap(Status::Done, engine),
        Err(_) => Outcome::with_heap(Status::WriteFault, engine),
    }
}

/// Draws the trace of the workload, opens a heap for it, and takes room for the output.
fn draw(alloc: Global, start: u64, ops: u32, workers: u32) -> Result<Workload, AllocError>
    requires ops { ops ≤ 100000 }
    requires workers { (1 ≤ workers) × (workers ≤ 16) }
    ensures trace { IfOk result (λ workload. workload.trace ≡ churn_trace start ops) }
    ensures opened { IfOk result (λ workload. HasRun (whole_course workload.trace) 0 workload.engine) }
    ensures empty { IfOk result (λ workload. workload.text.items ≡ []) }
    ensures room { IfOk result (λ workload. churn_bytes ≤ vec_capacity workload.text) }
    ensures workers { IfOk result (λ workload. workload.engine.workers ≡ workers) }
{
    let trace = generate(alloc, start, ops)?;
    let engine = Engine::open(alloc, &trace.setup, workers)?;
    let text = churn_room(alloc)?;
    Ok(Workload {
        trace,
        engine,
        text,
    })
}

/// Replays the trace of the workload, and counts the replies. Where it doesn't, the engine has run out of memory itself.
fn replay<R, G>(
    host: &Host<R, G>,
    engine: &mut Engine,
    trace: &Trace,
    start: u64,
    ops: u32,
) -> Result<Counts, AllocError>
where
    R: Threads + Sync,
    G: Gate + Sync,
    requires ops { ops ≤ 100000 }
    requires trace { trace.now ≡ churn_trace start ops }
    requires opened { HasRun (whole_course trace.now) 0 engine.old }
    ensures counts { IfOk result (λ counts. counts ≡ run_counts (replies_of (churn_trace start ops))) }
    ensures heap { OnOk result (HasChurned start ops (Some engine.new)) }
    ensures no_memory { IsErr result → engine.new.ended ≡ Some Ended.NoMemory }
    ensures workers { engine.new.workers ≡ engine.old.workers }
{
    count_phases(host, engine, trace)
}

/// Runs the phases of a trace whose states all fit, and counts the replies. Where it answers no counts the engine has run out of memory
/// itself.
fn count_phases<R, G>(
    host: &Host<R, G>,
    engine: &mut Engine,
    trace: &Trace,
) -> Result<Counts, AllocError>
where
    R: Threads + Sync,
    G: Gate + Sync,
    requires trace { IsTrace trace.now }
    requires few { all_ops_of trace.now < 2 ^ 32 }
    requires fits { FitsThroughout trace.now }
    requires opened { HasRun (whole_course trace.now) 0 engine.old }
    ensures run { OnOk result (HasRun (whole_course trace.now) (length trace.now.phases) engine.new) }
    ensures counted { IfOk result (λ counts. counts ≡ run_counts (replies_of trace.now)) }
    ensures no_memory { IsErr result → engine.new.ended ≡ Some Ended.NoMemory }
    ensures workers { engine.new.workers ≡ engine.old.workers }
{
    let mut counts = Counts::new();
    for index in 0..trace.phases.len() {
        count_phase(host, engine, trace, index, &mut counts)?;
    }
    Ok(counts)
}

/// Runs the phase of this index, and counts its replies too. Where it doesn't, the engine has run out of memory itself.
fn count_phase<R, G>(
    host: &Host<R, G>,
    engine: &mut Engine,
    trace: &Trace,
    index: usize,
    counts: &mut Counts,
) -> Result<(), AllocError>
where
    R: Threads + Sync,
    G: Gate + Sync,
    requires trace { IsTrace trace.now }
    requires few { all_ops_of trace.now < 2 ^ 32 }
    requires fits { FitsThroughout trace.now }
    requires index { index < length trace.now.phases }
    requires opened { HasRun (whole_course trace.now) index engine.old }
    requires counted { counts.old ≡ run_counts (replies_before trace.now index) }
    ensures run { OnOk result (HasRun (whole_course trace.now) (index + 1) engine.new) }
    ensures counted { OnOk result (counts.new ≡ run_counts (replies_before trace.now (index + 1))) }
    ensures no_memory { IsErr result → engine.new.ended ≡ Some Ended.NoMemory }
    ensures workers { engine.new.workers ≡ engine.old.workers }
{
    let end = run_phase(host, engine, trace, 0, index)?;
    match end.need {
        Some(_) => unreachable!(),
        None => counts.add(&end.replies),
    }
    Ok(())
}
