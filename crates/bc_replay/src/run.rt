//! The replay of a trace that was read: each phase's text is written as soon as the phase has run.

ghost use Rattle.std.specs.Prelude.{◌≡◌, ◌≢◌, ◌^◌, ◌<◌, ◌≤◌, ◌⊎◌, Bool, false, None, IfOk, IfSome, drop, length, vec_capacity};
ghost use Rattle.bc_engine.specs.EngineFacts.{new_engine};
ghost use Rattle.bc_engine.specs.Engines.{EngineStands, EngineView, HasEmptyChunks};
ghost use Rattle.bc_io.specs.Faults.{Rose};
ghost use Rattle.bc_model.specs.RunLengths.{all_ops_of};
ghost use Rattle.bc_model.specs.Run.{opening};
ghost use Rattle.bc_model.specs.State.{State};
ghost use Rattle.bc_model.specs.WellFormed.{IsSetup, IsTrace};
ghost use Rattle.bc_pager.specs.Claiming.{unshared};
ghost use Rattle.bc_replay.specs.Accounts.{KeepsAccount};
ghost use Rattle.bc_replay.specs.BetweenPhases.{HasRun};
ghost use Rattle.bc_replay.specs.Courses.{course_from, whole_course};
ghost use Rattle.bc_replay.specs.Endings.{EndsDone, EndsOutOfHeap, EndsInFault, StopsBefore, HasRunRoom};
ghost use Rattle.bc_replay.specs.Feeding.{AreAnswersTo, FedRun};
ghost use Rattle.bc_replay.specs.Outcomes.{IfStatusOutOfHeap, IfHeapless};
ghost use Rattle.bc_replay.specs.PartEndings.{IsEnding};

use crate::outcome::Outcome;
use crate::phases::write_phases;
use crate::status::{Ending, Status};
use bc_engine::{Engine, Pacing};
use bc_gates::{Gate, Host};
use bc_io::{Sink, write_all};
use bc_model::{Setup, Trace};
use bc_pager::{Answer, ListNotices, Notices};
use std::alloc::{AllocError, Global};
use std::thread::Threads;

/// The last line of a run that is done.
const DONE: &[u8] = b"done\n";

/// An engine in the opening state of a setup, whose turns run so. The error is out of memory.
fn open_paced(
    alloc: Global,
    setup: &Setup,
    workers: u32,
    pacing: Pacing,
) -> Result<Engine, AllocError>
    requires setup { IsSetup setup.now }
    requires workers { (1 ≤ workers) × (workers ≤ 16) }
    ensures new { IfOk result (λ engine. engine ≡ new_engine setup.now workers) }
    ensures opening { IfOk result (λ engine. EngineStands engine (opening setup.now)) }
    ensures setup { IfOk result (λ engine. (engine.setup ≡ setup.now) × (engine.ended ≡ None) × HasEmptyChunks engine.running.heap × (engine.workers ≡ workers)) }
{
    let mut engine = Engine::open(alloc, setup, workers)?;
    engine.set_pacing(pacing);
    Ok(engine)
}

/// Replays a trace on a new heap: writes the text of each phase as soon as it has run, and then the last line. `pacing` says how the turns
/// of its lanes run.
pub fn run_trace<R, K, G>(
    host: &Host<R, G>,
    trace: &Trace,
    workers: u32,
    pacing: Pacing,
    sink: &mut K,
) -> Outcome
where
    R: Threads + Sync,
    K: Sink,
    G: Gate + Sync,
    requires trace { IsTrace trace.now }
    requires phases { length trace.now.phases < 2 ^ 32 }
    requires ops { all_ops_of trace.now < 2 ^ 32 }
    requires workers { (1 ≤ workers) × (workers ≤ 16) }
    requires room { HasRunRoom (K.room sink.old) (whole_course trace.now) }
    ensures ending { IsEnding result.status }
    ensures done { result.status ≡ Status.Done →
        EndsDone (whole_course trace.now) (K.held sink.old) (K.held sink.new) result.heap }
    ensures out_of_heap { IfStatusOutOfHeap result.status (λ need.
        EndsOutOfHeap (whole_course trace.now) (K.held sink.old) (K.held sink.new) result.heap need) }
    ensures write_fault { result.status ≡ Status.WriteFault → Rose (K.faults sink.old) (K.faults sink.new)
        × EndsInFault (whole_course trace.now) (K.held sink.old) (K.held sink.new) result.heap }
    ensures firm { result.status ≢ Status.WriteFault → K.faults sink.new ≡ K.faults sink.old }
    ensures no_memory { result.status ≡ Status.NoMemory → (sink.new ≡ sink.old)
        ⊎ StopsBefore (whole_course trace.now) (K.held sink.old) (K.held sink.new) }
    ensures none { IfHeapless result.status (result.heap ≡ None) }
    ensures workers { IfSome result.heap (λ engine. engine.workers ≡ workers) }
    ensures account { IfSome result.heap KeepsAccount }
{
    let mut live = ListNotices::none(host.alloc);
    let mut answers = Vec::new(host.alloc);
    run_trace_with(host, trace, workers, pacing, &mut live, &mut answers, sink)
}

/// Replays a trace on a new heap, as `run_trace` does. In its turns notices are taken from `live`, which no pagers share. What became of each is
/// put after the other answers, where there is room for as many as there are notices at most.
pub fn run_trace_with<R, G, N, K>(
    host: &Host<R, G>,
    trace: &Trace,
    workers: u32,
    pacing: Pacing,
    live: &mut N,
    answers: &mut Vec<Answer>,
    sink: &mut K,
) -> Outcome
where
    R: Threads + Sync,
    G: Gate + Sync,
    N: Notices + Send,
    K: Sink,
    requires trace { IsTrace trace.now }
    requires phases { length trace.now.phases < 2 ^ 32 }
    requires ops { all_ops_of trace.now < 2 ^ 32 }
    requires workers { (1 ≤ workers) × (workers ≤ 16) }
    requires room { HasRunRoom (K.room sink.old) (whole_course trace.now) }
    requires unshared { N.shared live.old ≡ unshared }
    requires told { AreAnswersTo (N.taken live.old) answers.old.items }
    requires answers_room { N.most live.old ≤ vec_capacity answers.old }
    ensures ending { IsEnding result.status }
    ensures done { result.status ≡ Status.Done →
        EndsDone (whole_course trace.now) (K.held sink.old) (K.held sink.new) result.heap }
    ensures out_of_heap { IfStatusOutOfHeap result.status (λ need.
        EndsOutOfHeap (whole_course trace.now) (K.held sink.old) (K.held sink.new) result.heap need) }
    ensures write_fault { result.status ≡ Status.WriteFault → Rose (K.faults sink.old) (K.faults sink.new)
        × EndsInFault (whole_course trace.now) (K.held sink.old) (K.held sink.new) result.heap }
    ensures firm { result.status ≢ Status.WriteFault → K.faults sink.new ≡ K.faults sink.old }
    ensures no_memory { result.status ≡ Status.NoMemory → (sink.new ≡ sink.old)
        ⊎ StopsBefore (whole_course trace.now) (K.held sink.old) (K.held sink.new) }
    ensures none { IfHeapless result.status (result.heap ≡ None) }
    ensures workers { IfSome result.heap (λ engine. engine.workers ≡ workers) }
    ensures account { IfSome result.heap KeepsAccount }
    // Its phases, as many as were run, took what was taken, and each answer is of one of them.
    ensures fed { (last : EngineView) × FedRun trace.now.phases (new_engine trace.now.setup workers) last (N.taken live.old) (N.taken live.new) answers.old.items answers.new.items
        × IfSome result.heap (λ heap. heap ≡ last) }
    ensures feed { (N.shared live.new ≡ N.shared live.old) × (N.told live.new ≡ N.told live.old) × (N.most live.new ≡ N.most live.old) }
    ensures idle { N.coming live.old ≡ false → live.new ≡ live.old }
    ensures told { AreAnswersTo (N.taken live.new) answers.new.items }
    ensures answers_room { vec_capacity answers.new ≡ vec_capacity answers.old }
{
    let Ok(engine) = open_paced(host.alloc, &trace.setup, workers, pacing) else {
        return Outcome::without_heap(Status::NoMemory);
    };
    replay_with(host, engine, trace, 0, live, answers, sink)
}

/// Replays the phases of a trace after the first ones on a heap that has run these: writes the text of each phase as soon as it has
/// run, and then the last line. What it ensures holds of each state that the heap may stand for.
pub fn replay_on<R, K, G>(
    host: &Host<R, G>,
    engine: Engine,
    trace: &Trace,
    first: usize,
    sink: &mut K,
) -> Outcome
where
    R: Threads + Sync,
    K: Sink,
    G: Gate + Sync,
    requires trace { IsTrace trace.now }
    requires phases { length trace.now.phases < 2 ^ 32 }
    requires first { first ≤ length trace.now.phases }
    requires opened { (s : State) × HasRun (course_from trace.now s first) 0 engine
        × HasRunRoom (K.room sink.old) (course_from trace.now s first) }
    ensures ending { IsEnding result.status }
    ensures done { (s : State) → HasRun (course_from trace.now s first) 0 engine → result.status ≡ Status.Done →
        EndsDone (course_from trace.now s first) (K.held sink.old) (K.held sink.new) result.heap }
    ensures out_of_heap { (s : State) → HasRun (course_from trace.now s first) 0 engine → IfStatusOutOfHeap result.status (λ need.
        EndsOutOfHeap (course_from trace.now s first) (K.held sink.old) (K.held sink.new) result.heap need) }
    ensures cause { result.status ≡ Status.WriteFault → Rose (K.faults sink.old) (K.faults sink.new) }
    ensures write_fault { (s : State) → HasRun (course_from trace.now s first) 0 engine → result.status ≡ Status.WriteFault →
        EndsInFault (course_from trace.now s first) (K.held sink.old) (K.held sink.new) result.heap }
    ensures firm { result.status ≢ Status.WriteFault → K.faults sink.new ≡ K.faults sink.old }
    ensures no_memory { (s : State) → HasRun (course_from trace.now s first) 0 engine → result.status ≡ Status.NoMemory →
        StopsBefore (course_from trace.now s first) (K.held sink.old) (K.held sink.new) }
    ensures none { IfHeapless result.status (result.heap ≡ None) }
    ensures workers { IfSome result.heap (λ heap. heap.workers ≡ engine.workers) }
    ensures account { IfSome result.heap KeepsAccount }
{
    let mut live = ListNotices::none(host.alloc);
    let mut answers = Vec::new(host.alloc);
    replay_with(host, engine, trace, first, &mut live, &mut answers, sink)
}

/// Replays the phases of a trace after the first ones, as `replay_on` does. In their turns notices are taken from `live`, which no pagers share.
/// What became of each is put after the other answers, where there is room for as many as there are notices at most.
pub fn replay_with<R, G, N, K>(
    host: &Host<R, G>,
    mut engine: Engine,
    trace: &Trace,
    first: usize,
    live: &mut N,
    answers: &mut Vec<Answer>,
    sink: &mut K,
) -> Outcome
where
    R: Threads + Sync,
    G: Gate + Sync,
    N: Notices + Send,
    K: Sink,
    requires trace { IsTrace trace.now }
    requires phases { length trace.now.phases < 2 ^ 32 }
    requires first { first ≤ length trace.now.phases }
    requires opened { (s : State) × HasRun (course_from trace.now s first) 0 engine
        × HasRunRoom (K.room sink.old) (course_from trace.now s first) }
    requires unshared { N.shared live.old ≡ unshared }
    requires told { AreAnswersTo (N.taken live.old) answers.old.items }
    requires answers_room { N.most live.old ≤ vec_capacity answers.old }
    ensures ending { IsEnding result.status }
    ensures done { (s : State) → HasRun (course_from trace.now s first) 0 engine → result.status ≡ Status.Done →
        EndsDone (course_from trace.now s first) (K.held sink.old) (K.held sink.new) result.heap }
    ensures out_of_heap { (s : State) → HasRun (course_from trace.now s first) 0 engine → IfStatusOutOfHeap result.status (λ need.
        EndsOutOfHeap (course_from trace.now s first) (K.held sink.old) (K.held sink.new) result.heap need) }
    ensures cause { result.status ≡ Status.WriteFault → Rose (K.faults sink.old) (K.faults sink.new) }
    ensures write_fault { (s : State) → HasRun (course_from trace.now s first) 0 engine → result.status ≡ Status.WriteFault →
        EndsInFault (course_from trace.now s first) (K.held sink.old) (K.held sink.new) result.heap }
    ensures firm { result.status ≢ Status.WriteFault → K.faults sink.new ≡ K.faults sink.old }
    ensures no_memory { (s : State) → HasRun (course_from trace.now s first) 0 engine → result.status ≡ Status.NoMemory →
        StopsBefore (course_from trace.now s first) (K.held sink.old) (K.held sink.new) }
    ensures none { IfHeapless result.status (result.heap ≡ None) }
    ensures workers { IfSome result.heap (λ heap. heap.workers ≡ engine.workers) }
    ensures account { IfSome result.heap KeepsAccount }
    ensures fed { (last : EngineView) × FedRun (drop first trace.now.phases) engine last (N.taken live.old) (N.taken live.new) answers.old.items answers.new.items
        × IfSome result.heap (λ heap. heap ≡ last) }
    ensures feed { (N.shared live.new ≡ N.shared live.old) × (N.told live.new ≡ N.told live.old) × (N.most live.new ≡ N.most live.old) }
    ensures idle { N.coming live.old ≡ false → live.new ≡ live.old }
    ensures told { AreAnswersTo (N.taken live.new) answers.new.items }
    ensures answers_room { vec_capacity answers.new ≡ vec_capacity answers.old }
{
    match write_phases(host, &mut engine, trace, first, live, answers, sink) {
        Ok(()) => match write_all(sink, DONE) {
            Ok(()) => Outcome::with_heap(Status::Done, engine),
            Err(_) => Outcome::with_heap(Status::WriteFault, engine),
        },
        Err(Ending::WriteFault) => Outcome::with_heap(Status::WriteFault, engine),
        Err(Ending::OutOfHeap { need }) => Outcome::with_heap(Status::OutOfHeap { need }, engine),
        Err(Ending::NoMemory) => Outcome::without_heap(Status::NoMemory),
    }
}
