//! What is printed of a phase, and of its steps.

use anyhow::Result;
use bc_cycle::EmptyingKind;
use bc_engine::{Counters, PageCounts, Step, StepKind};
use bc_model::{Phase, Replies, Reply};
use bc_superpages::Space;
use heap_workshop::{pages_gone, superpages_in_use};
use std::time::Duration;

/// How many operations a phase has.
pub(crate) fn operations(phase: &Phase) -> usize {
    let mut all: usize = 0;
    for ops in &phase.lanes {
        all = all.saturating_add(ops.len());
    }
    all
}

/// Prints by how much an engine's counters went on.
pub(crate) fn print_counters<R: Print>(rt: &R, before: &Counters, after: &Counters) -> Result<()> {
    let turns = after.turns.saturating_sub(before.turns);
    let early = after.early.saturating_sub(before.early);
    let promotions = after.promotions.saturating_sub(before.promotions);
    let collections = after.collections.saturating_sub(before.collections);
    let failsafes = after.failsafes.saturating_sub(before.failsafes);
    print!(rt; " turns={turns} early={early} promotions={promotions}")?;
    print!(rt; " collections={collections} failsafes={failsafes}")?;
    let reads = more_pages(&before.reads, &after.reads);
    let all = reads.all();
    let PageCounts {
        turns,
        alone,
        collections,
        ..
    } = reads;
    print!(rt;
        " reads={all} turn_reads={turns} alone_reads={alone} collection_reads={collections}"
    )?;
    let left = more_pages(&before.departures, &after.departures);
    let all = left.all();
    let PageCounts {
        turns,
        alone,
        collections,
        notices,
    } = left;
    print!(rt; " left={all} turn_left={turns} alone_left={alone}")?;
    print!(rt; " collection_left={collections} notice_left={notices}")?;
    Ok(())
}

/// By how much the counts went on. They go round.
fn more_pages(before: &PageCounts, after: &PageCounts) -> PageCounts {
    PageCounts {
        turns: after.turns.wrapping_sub(before.turns),
        alone: after.alone.wrapping_sub(before.alone),
        collections: after.collections.wrapping_sub(before.collections),
        notices: after.notices.wrapping_sub(before.notices),
    }
}

/// The word for a kind of step.
fn name_of(kind: StepKind) -> &'static str {
    match kind {
        StepKind::Turn => "turn",
        StepKind::Early => "early",
        StepKind::Emptying(EmptyingKind::Promotion) => "promotion",
        StepKind::Emptying(EmptyingKind::Collection) => "collection",
        StepKind::Emptying(EmptyingKind::Failsafe) => "failsafe",
        StepKind::TooSmall => "too-small",
        StepKind::Alone => "alone",
    }
}

/// Prints a line for each step.
pub(crate) fn print_steps<R: Print>(rt: &R, steps: &[Step]) -> Result<()> {
    for step in steps {
        let kind = name_of(step.kind);
        print!(rt;
            "step={kind} operations={} reads={}",
            step.operations, step.reads
        )?;
        let standing = step.standing;
        print!(rt;
            " left={} home={} gone={}",
            step.departures, standing.home, standing.gone
        )?;
        println!(rt;
            " cells={} superpages={}",
            standing.cells, standing.superpages
        )?;
    }
    Ok(())
}

/// Prints how things stand: how many of all frames are in use, and what of the space.
pub(crate) fn print_standing<R: Print>(rt: &R, space: &Space, all_frames: u32) -> Result<()> {
    let frames = all_frames.saturating_sub(space.free_frames());
    let superpages = superpages_in_use(space);
    let gone = pages_gone(space);
    print!(rt; " frames={frames} superpages={superpages} gone={gone}")?;
    Ok(())
}

/// Prints how long a phase took, where that was asked for.
pub(crate) fn print_time<R: Print>(rt: &R, clock: bool, taken: Duration) -> Result<()> {
    if clock {
        let nanoseconds = taken
            .as_secs()
            .saturating_mul(1_000_000_000)
            .saturating_add(u64::from(taken.subsec_nanos()));
        print!(rt; " nanoseconds={nanoseconds}")?;
    }
    Ok(())
}

/// Ends the line of a phase, with its need where it ended out of heap.
pub(crate) fn print_need<R: Print>(rt: &R, need: Option<u64>) -> Result<()> {
    match need {
        Some(need) => println!(rt; " need={need}")?,
        None => println!(rt)?,
    }
    Ok(())
}

/// A number made of another one and the one before it, by the step of a well-known hash (FNV-1a).
fn mixed(number: u64, more: u64) -> u64 {
    (number ^ more).wrapping_mul(1_099_511_628_211)
}

/// Two numbers for a reply.
fn numbers_of(reply: &Reply) -> (u64, u64) {
    match *reply {
        Reply::Obj(birth) => (1, u64::from(birth.lane) << 32 | u64::from(birth.serial)),
        Reply::Done => (2, 0),
        Reply::Nil => (3, 0),
        Reply::Num(number) => (4, number),
        Reply::Ref => (5, 0),
        Reply::Len(fields) => (6, u64::from(fields)),
        Reply::Yes => (7, 0),
        Reply::No => (8, 0),
        Reply::NotObj => (9, 0),
        Reply::Range => (10, 0),
        Reply::Foreign => (11, 0),
        Reply::Frozen => (12, 0),
    }
}

/// A number made of the replies of a lane.
fn replies_of_lane(replies: &[Reply]) -> u64 {
    let mut all = 0;
    for reply in replies {
        let (kind, value) = numbers_of(reply);
        all = mixed(mixed(all, kind), value);
    }
    all
}

/// A number made of the replies of all lanes.
pub(crate) fn replies_of(replies: &Replies) -> u64 {
    let mut all = 0;
    for lane in &replies.lanes {
        all = mixed(all, replies_of_lane(lane));
    }
    all
}
