//! The phases of a trace: each is run, and what it prints is written.

ghost use Rattle.std.specs.Prelude.{◌≡◌, ◌⊎◌, ℕ, ◌+◌, ◌^◌, ◌<◌, ◌≤◌, Bool, false, List, [], ◌++◌, Option, Some, None, drop, length, vec_capacity, OnOk, IfOk, IsErr, IsErrOf};
ghost use Rattle.std.specs.List.{AllByRecursion};
ghost use Rattle.bc_engine.specs.EngineFacts.{HasRoomForBirths};
ghost use Rattle.bc_engine.specs.Lanes.{HasRoomForOps};
ghost use Rattle.bc_engine.specs.declared.engines.Ended.{Ended};
ghost use Rattle.bc_io.specs.Faults.{Rose};
ghost use Rattle.bc_io.specs.Told.{HeldGrows};
ghost use Rattle.bc_io.specs.Pieces.{RoomFalls};
ghost use Rattle.bc_model.specs.WellFormed.{FitsFrames, IsPhase, IsTrace};
ghost use Rattle.bc_model.specs.Run.{phase_at};
ghost use Rattle.bc_model.specs.State.{State};
ghost use Rattle.bc_pager.specs.Claiming.{unshared};
ghost use Rattle.bc_pager.specs.Serving.{told_with};
ghost use Rattle.bc_pager.specs.declared.notices.Notice.{Notice};
ghost use Rattle.bc_replay.specs.Courses.{course_from};
ghost use Rattle.bc_replay.specs.Output.{texts_before, all_texts};
ghost use Rattle.bc_replay.specs.Endings.{EndsOutOfHeap, EndsInFault, HasRunRoom};
ghost use Rattle.bc_replay.specs.BetweenPhases.{HasRun, HasPhaseRoom, PhaseEnded, Ran, RunsOut};
ghost use Rattle.bc_replay.specs.Feeding.{AreAnswersTo, FedPhase, FedRun};

use crate::status::Ending;
use crate::texts::{PhaseTexts, put_texts, texts_room, write_texts};
use bc_engine::{Engine, PhaseError};
use bc_gates::{Gate, Host};
use bc_io::Sink;
use bc_model::{Phase, Replies, Trace};
use bc_pager::{Answer, ListNotices, Notices, keep_answers};
use std::alloc::AllocError;
use std::thread::Threads;

/// How a phase ended: its replies, and the need where the heap was too small.
#[derive(Drop)]
pub struct PhaseEnd {
    /// What each lane was answered, up to the cut where the heap was too small.
    pub replies: Replies,
    /// How many superpages what is reached there needs: more than the setup has.
    pub need: Option<u64>,
}

/// Runs the phases after the first ones, and writes the text of each as soon as it has run. What it ensures holds of each state
/// that the engine may have stood for before them. In their turns notices are taken from `live`, and `answers` gets what became of them.
pub(crate) fn write_phases<R, G, N, K>(
    host: &Host<R, G>,
    engine: &mut Engine,
    trace: &Trace,
    first: usize,
    live: &mut N,
    answers: &mut Vec<Answer>,
    sink: &mut K,
) -> Result<(), Ending>
where
    R: Threads + Sync,
    G: Gate + Sync,
    N: Notices + Send,
    K: Sink,
    requires trace { IsTrace trace.now }
    requires few { length trace.now.phases < 2 ^ 32 }
    requires first { first ≤ length trace.now.phases }
    requires opened { (s : State) × HasRun (course_from trace.now s first) 0 engine.old
        × HasRunRoom (K.room sink.old) (course_from trace.now s first) }
    requires unshared { N.shared live.old ≡ unshared }
    requires told { AreAnswersTo (N.taken live.old) answers.old.items }
    requires answers_room { N.most live.old ≤ vec_capacity answers.old }
    ensures run { (s : State) → HasRun (course_from trace.now s first) 0 engine.old →
        OnOk result (HasRun (course_from trace.now s first) (length (course_from trace.now s first).phases) engine.new) }
    ensures written { (s : State) → HasRun (course_from trace.now s first) 0 engine.old →
        OnOk result (HeldGrows (K.held sink.old) (K.held sink.new) (all_texts (course_from trace.now s first))) }
    ensures filled { (s : State) → HasRun (course_from trace.now s first) 0 engine.old → OnOk result
        (RoomFalls (K.room sink.old) (K.room sink.new) (length (all_texts (course_from trace.now s first)))) }
    ensures cause { IsErrOf result Ending.WriteFault → Rose (K.faults sink.old) (K.faults sink.new) }
    ensures write_fault { (s : State) → HasRun (course_from trace.now s first) 0 engine.old →
        IsErrOf result Ending.WriteFault →
        EndsInFault (course_from trace.now s first) (K.held sink.old) (K.held sink.new) (Some engine.new) }
    ensures out_of_heap { (s : State) → HasRun (course_from trace.now s first) 0 engine.old →
        (need : ℕ) → IsErrOf result (Ending.OutOfHeap need) →
        EndsOutOfHeap (course_from trace.now s first) (K.held sink.old) (K.held sink.new) (Some engine.new) need }
    ensures no_memory { (s : State) → HasRun (course_from trace.now s first) 0 engine.old →
        IsErrOf result Ending.NoMemory →
        RunsOut (course_from trace.now s first) (K.held sink.old) (K.held sink.new) engine.new }
    ensures firm { ¬ IsErrOf result Ending.WriteFault → K.faults sink.new ≡ K.faults sink.old }
    ensures workers { engine.new.workers ≡ engine.old.workers }
    ensures fed { FedRun (drop first trace.now.phases) engine.old engine.new (N.taken live.old) (N.taken live.new) answers.old.items answers.new.items }
    ensures feed { (N.shared live.new ≡ N.shared live.old) × (N.told live.new ≡ N.told live.old) × (N.most live.new ≡ N.most live.old) }
    ensures idle { N.coming live.old ≡ false → live.new ≡ live.old }
    ensures told { AreAnswersTo (N.taken live.new) answers.new.items }
    ensures answers_room { vec_capacity answers.new ≡ vec_capacity answers.old }
{
    let mut kept = None;
    for index in 0..trace.phases.len() - first {
        write_phase(
            host, engine, trace, first, index, &mut kept, live, answers, sink,
        )?;
    }
    Ok(())
}

/// Runs the phase of this index, counted from the first one, and writes its texts. Room for them is taken first, or was kept of a phase before, and
/// once the phase has run nothing takes memory. Afterwards the room is kept for the next one.
fn write_phase<R, G, N, K>(
    host: &Host<R, G>,
    engine: &mut Engine,
    trace: &Trace,
    first: usize,
    index: usize,
    kept: &mut Option<PhaseTexts>,
    live: &mut N,
    answers: &mut Vec<Answer>,
    sink: &mut K,
) -> Result<(), Ending>
where
    R: Threads + Sync,
    G: Gate + Sync,
    N: Notices + Send,
    K: Sink,
    requires trace { IsTrace trace.now }
    requires few { length trace.now.phases < 2 ^ 32 }
    requires index { index + first < length trace.now.phases }
    requires opened { (s : State) × HasRun (course_from trace.now s first) index engine.old
        × HasPhaseRoom (K.room sink.old) (course_from trace.now s first) index }
    requires unshared { N.shared live.old ≡ unshared }
    requires told { AreAnswersTo (N.taken live.old) answers.old.items }
    requires answers_room { N.most live.old ≤ vec_capacity answers.old }
    ensures run { (s : State) → HasRun (course_from trace.now s first) index engine.old →
        OnOk result (HasRun (course_from trace.now s first) (index + 1) engine.new) }
    ensures written { (s : State) → HasRun (course_from trace.now s first) index engine.old →
        OnOk result ((start : Option (List ℕ)) →
        HeldGrows start (K.held sink.old) (texts_before (course_from trace.now s first) index) →
        HeldGrows start (K.held sink.new) (texts_before (course_from trace.now s first) (index + 1))) }
    ensures filled { (s : State) → HasRun (course_from trace.now s first) index engine.old →
        OnOk result ((start : Option ℕ) →
        RoomFalls start (K.room sink.old) (length (texts_before (course_from trace.now s first) index)) →
        RoomFalls start (K.room sink.new) (length (texts_before (course_from trace.now s first) (index + 1)))) }
    ensures cause { IsErrOf result Ending.WriteFault → Rose (K.faults sink.old) (K.faults sink.new) }
    ensures write_fault { (s : State) → HasRun (course_from trace.now s first) index engine.old →
        IsErrOf result Ending.WriteFault → (start : Option (List ℕ)) →
        HeldGrows start (K.held sink.old) (texts_before (course_from trace.now s first) index) →
        EndsInFault (course_from trace.now s first) start (K.held sink.new) (Some engine.new) }
    ensures out_of_heap { (s : State) → HasRun (course_from trace.now s first) index engine.old →
        (need : ℕ) → IsErrOf result (Ending.OutOfHeap need) → (start : Option (List ℕ)) →
        HeldGrows start (K.held sink.old) (texts_before (course_from trace.now s first) index) →
        EndsOutOfHeap (course_from trace.now s first) start (K.held sink.new) (Some engine.new) need }
    // Memory runs out before the phase is run, or in the engine: never in place of its replies or its need.
    ensures no_memory { IsErrOf result Ending.NoMemory → (sink.new ≡ sink.old)
        × ((engine.new ≡ engine.old) ⊎ (engine.new.ended ≡ Some Ended.NoMemory)) }
    ensures firm { ¬ IsErrOf result Ending.WriteFault → K.faults sink.new ≡ K.faults sink.old }
    ensures workers { engine.new.workers ≡ engine.old.workers }
    // The phase took these, or it wasn't begun.
    ensures fed { (fed : List Notice) × (N.taken live.new ≡ told_with (N.taken live.old) fed)
        × ((FedPhase engine.old (phase_at trace.now (index + first)) fed engine.new × (answers.new.items ≡ answers.old.items ++ engine.new.live))
        ⊎ (IsErr result × (engine.new ≡ engine.old) × (fed ≡ []) × (answers.new.items ≡ answers.old.items))) }
    ensures feed { (N.shared live.new ≡ N.shared live.old) × (N.told live.new ≡ N.told live.old) × (N.most live.new ≡ N.most live.old) }
    ensures idle { N.coming live.old ≡ false → live.new ≡ live.old }
    ensures told { AreAnswersTo (N.taken live.new) answers.new.items }
    ensures answers_room { vec_capacity answers.new ≡ vec_capacity answers.old }
{
    let mut texts = texts_room(host.alloc, kept.take(), &trace.phases[index + first])?;
    let end = run_phase_with(host, engine, trace, first, index, live, answers)?;
    put_texts(
        &mut texts,
        (index + first) as u32 + 1,
        &end.replies,
        end.need,
    );
    write_texts(sink, &texts)?;
    match end.need {
        Some(need) => Err(Ending::OutOfHeap { need }),
        None => {
            *kept = Some(texts);
            Ok(())
        }
    }
}

/// Runs the phase of this index, counted from the first one. What it ensures holds of each state that the engine may have stood for
/// before the first one. Where it answers no end the engine has run out of memory itself.
pub fn run_phase<R, G>(
    host: &Host<R, G>,
    engine: &mut Engine,
    trace: &Trace,
    first: usize,
    index: usize,
) -> Result<PhaseEnd, AllocError>
where
    R: Threads + Sync,
    G: Gate + Sync,
    requires trace { IsTrace trace.now }
    requires index { index + first < length trace.now.phases }
    requires opened { (s : State) × HasRun (course_from trace.now s first) index engine.old }
    ensures ran { (s : State) → HasRun (course_from trace.now s first) index engine.old →
        IfOk result (λ end. Ran (course_from trace.now s first) index engine.old engine.new end.replies end.need) }
    ensures workers { engine.new.workers ≡ engine.old.workers }
    ensures no_memory { IsErr result → engine.new.ended ≡ Some Ended.NoMemory }
{
    let mut live = ListNotices::none(host.alloc);
    let mut answers = Vec::new(host.alloc);
    run_phase_with(host, engine, trace, first, index, &mut live, &mut answers)
}

/// Runs the phase of this index, counted from the first one, as `run_phase` does. In its turns notices are taken from `live`, which no pagers
/// share. What became of each is put after the other answers, where there is room for as many as there are notices at most: also where memory
/// runs out in the phase.
pub fn run_phase_with<R, G, N>(
    host: &Host<R, G>,
    engine: &mut Engine,
    trace: &Trace,
    first: usize,
    index: usize,
    live: &mut N,
    answers: &mut Vec<Answer>,
) -> Result<PhaseEnd, AllocError>
where
    R: Threads + Sync,
    G: Gate + Sync,
    N: Notices + Send,
    requires trace { IsTrace trace.now }
    requires index { index + first < length trace.now.phases }
    requires opened { (s : State) × HasRun (course_from trace.now s first) index engine.old }
    requires unshared { N.shared live.old ≡ unshared }
    requires told { AreAnswersTo (N.taken live.old) answers.old.items }
    requires answers_room { N.most live.old ≤ vec_capacity answers.old }
    ensures ran { (s : State) → HasRun (course_from trace.now s first) index engine.old →
        IfOk result (λ end. Ran (course_from trace.now s first) index engine.old engine.new end.replies end.need) }
    ensures workers { engine.new.workers ≡ engine.old.workers }
    ensures no_memory { IsErr result → engine.new.ended ≡ Some Ended.NoMemory }
    ensures fed { (fed : List Notice) × (N.taken live.new ≡ told_with (N.taken live.old) fed)
        × FedPhase engine.old (phase_at trace.now (index + first)) fed engine.new
        × (answers.new.items ≡ answers.old.items ++ engine.new.live) }
    ensures feed { (N.shared live.new ≡ N.shared live.old) × (N.told live.new ≡ N.told live.old) × (N.most live.new ≡ N.most live.old) }
    ensures idle { N.coming live.old ≡ false → live.new ≡ live.old }
    ensures told { AreAnswersTo (N.taken live.new) answers.new.items }
    ensures answers_room { vec_capacity answers.new ≡ vec_capacity answers.old }
{
    let phase = &trace.phases[index + first];
    let end = play_phase(host, engine, phase, live);
    // What it answers isn't used: its clause says that no more notices were taken than there is room for.
    let _ = live.may_come();
    keep_answers(answers, engine.live_answers());
    end
}

/// Runs a phase, in whose turns notices are taken from `live`. Where it answers no end the engine has run out of memory itself.
fn play_phase<R, G, N>(
    host: &Host<R, G>,
    engine: &mut Engine,
    phase: &Phase,
    live: &mut N,
) -> Result<PhaseEnd, AllocError>
where
    R: Threads + Sync,
    G: Gate + Sync,
    N: Notices + Send,
    requires going { engine.old.ended ≡ None }
    requires phase { IsPhase engine.old.setup phase.now }
    requires budgets { AllByRecursion (FitsFrames engine.old.setup) phase.now.turns }
    requires births { HasRoomForOps engine.old phase.now.lanes 0 }
    requires unshared { N.shared live.old ≡ unshared }
    ensures ended { IfOk result (λ end. PhaseEnded engine.old phase.now engine.new end.replies end.need) }
    ensures setup { engine.new.setup ≡ engine.old.setup }
    ensures workers { engine.new.workers ≡ engine.old.workers }
    ensures births { (n : ℕ) → HasRoomForOps engine.old phase.now.lanes n → HasRoomForBirths engine.new n }
    ensures no_memory { IsErr result → engine.new.ended ≡ Some Ended.NoMemory }
    ensures fed { (fed : List Notice) × (N.taken live.new ≡ told_with (N.taken live.old) fed) × FedPhase engine.old phase.now fed engine.new }
    ensures feed { (N.shared live.new ≡ N.shared live.old) × (N.told live.new ≡ N.told live.old) × (N.most live.new ≡ N.most live.old) }
    ensures idle { N.coming live.old ≡ false → live.new ≡ live.old }
{
    match engine.phase_with(host.threads, host.alloc, phase, live, host.gate) {
        Ok(replies) => Ok(PhaseEnd {
            replies,
            need: None,
        }),
        Err(PhaseError::OutOfHeap { replies, need }) => {
            let need = Some(need);
            Ok(PhaseEnd { replies, need })
        }
        Err(PhaseError::NoMemory) => Err(AllocError),
    }
}
