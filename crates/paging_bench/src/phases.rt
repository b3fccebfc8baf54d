//! A trace is replayed by the engine, whose counters say what it did in each phase.
//!
//! That a lane has births left for its operations is kept by counting: of 2^32 - 1 births each phase takes off as many as its longest lane
//! has operations.

ghost use Rattle.std.specs.Prelude.{◌≡◌, ℕ, ◌≤◌, None, length, true, IfOk};
ghost use Rattle.std.specs.List.{AllByRecursion};
ghost use Rattle.bc_engine.specs.EngineFacts.{HasRoomForBirths};
ghost use Rattle.bc_engine.specs.Lanes.{HasRoomForOps, of_lane};
ghost use Rattle.bc_model.specs.Rows.{lists_of};
ghost use Rattle.bc_model.specs.WellFormed.{FitsFrames, IsPhase, IsTrace};

use crate::Asked;
use crate::counts::{
    operations, print_counters, print_need, print_standing, print_steps, print_time, replies_of,
};
use anyhow::{Result, bail};
use bc_engine::{Engine, PhaseError};
use bc_gates::OpenGate;
use bc_model::{Op, Phase, Setup, Trace};
use std::rt::Clock;
use std::thread::Threads;
use std::time::Instant;

/// The most operations that some lane has.
fn longest(lanes: &[Vec<Op>]) -> usize
    ensures { (j : ℕ) → length (of_lane (lists_of lanes.now) j) ≤ result }
{
    let mut most = 0;
    for ops in lanes {
        if most < ops.len() {
            most = ops.len();
        }
    }
    most
}

/// Begins the log of a phase of so many operations, where its steps are to be printed. It has room for all of them.
fn begin_log(engine: &mut Engine, asked: Asked, operations: usize) -> Result<()>
    ensures { engine.new ≡ engine.old }
{
    if asked.steps {
        engine.keep_log(operations.saturating_add(1).saturating_mul(4))?;
    }
    Ok(())
}

/// Replays a phase and prints its line, and those of its steps. It answers whether others may follow.
fn replay_phase<R>(
    rt: &R,
    engine: &mut Engine,
    setup: &Setup,
    number: usize,
    phase: &Phase,
    asked: Asked,
) -> Result<bool>
where
    R: AllocGlobal + Clock + Print + Threads + Sync,
    requires going { engine.old.ended ≡ None }
    requires phase { IsPhase engine.old.setup phase.now }
    requires budgets { AllByRecursion (FitsFrames engine.old.setup) phase.now.turns }
    requires births { HasRoomForOps engine.old phase.now.lanes 0 }
    ensures going { IfOk result (λ more. more ≡ true → engine.new.ended ≡ None) }
    ensures setup { engine.new.setup ≡ engine.old.setup }
    ensures births { (n : ℕ) → HasRoomForOps engine.old phase.now.lanes n → HasRoomForBirths engine.new n }
{
    let before = engine.counters();
    let count = operations(phase);
    begin_log(engine, asked, count)?;
    let start = Instant::now(rt)?;
    let (replies, need) = match engine.phase(rt, rt.alloc(), phase, &OpenGate) {
        Ok(replies) => (replies, None),
        Err(PhaseError::OutOfHeap { replies, need }) => (replies, Some(need)),
        Err(PhaseError::NoMemory) => bail!("out of memory"),
    };
    let taken = start.elapsed(rt)?;
    print_steps(rt, engine.log())?;
    print!(rt; "phase={number} operations={count}")?;
    print_counters(rt, &before, &engine.counters())?;
    print_standing(rt, &engine.heap().space, setup.frames)?;
    let all = replies_of(&replies);
    print!(rt; " replies={all}")?;
    print_time(rt, asked.clock, taken)?;
    print_need(rt, need)?;
    Ok(need.is_none())
}

/// Replays a trace on a new heap. `left` is how many births each lane has left at least.
pub(crate) fn replay<R>(rt: &R, trace: &Trace, asked: Asked) -> Result<()>
where
    R: AllocGlobal + Clock + Print + Threads + Sync,
    requires { IsTrace trace.now }
{
    let mut engine = Engine::open(rt.alloc(), &trace.setup, 1)?;
    engine.set_pacing(asked.pacing);
    let mut left = u32::MAX as usize;
    for index in 0..trace.phases.len() {
        let phase = &trace.phases[index];
        let births = longest(&phase.lanes);
        if left < births {
            bail!("a lane has too many operations");
        }
        left -= births;
        if !replay_phase(rt, &mut engine, &trace.setup, index + 1, phase, asked)? {
            return Ok(());
        }
    }
    Ok(())
}
