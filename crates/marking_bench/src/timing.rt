//! Collections are timed.

use crate::shapes::Plan;
use anyhow::{Result, ensure};
use bc_marking::MarkPace;
use heap_workshop::{Workshop, objects_in_cells, pages_gone};
use std::rt::Clock;
use std::thread::Threads;
use std::time::{CpuClock, Duration, Instant};

/// Numbers of workers.
const WORKERS: [u32; 4] = [1, 2, 4, 8];

/// How marks are made.
#[derive(Clone, Copy, PartialEq, Eq)]
enum Way {
    /// On one thread, without a table.
    Plain,
    /// At tables.
    Tables,
    /// As the collector chooses.
    Paced,
}

impl Way {
    fn word(self) -> &'static str {
        match self {
            Way::Plain => "plain",
            Way::Tables => "tables",
            Way::Paced => "paced",
        }
    }

    fn pace(self) -> MarkPace {
        match self {
            Way::Plain => MarkPace::alone(),
            Way::Tables => MarkPace::side_by_side(),
            Way::Paced => MarkPace::new(),
        }
    }
}

/// The least times of some collections, in nanoseconds.
#[derive(Clone, Copy)]
struct Times {
    clock: u64,
    processors: u64,
}

fn nanoseconds(taken: Duration) -> u64 {
    taken
        .as_secs()
        .saturating_mul(1_000_000_000)
        .saturating_add(u64::from(taken.subsec_nanos()))
}

/// Collects the heap once, and returns what that took.
fn time_one<R>(rt: &R, workshop: &mut Workshop, pace: &mut MarkPace, workers: u32) -> Result<Times>
where
    R: Clock + CpuClock + AllocGlobal + Threads + Sync,
{
    let used = nanoseconds(rt.process_cpu_time()?);
    let start = Instant::now(rt)?;
    let collected = workshop.collect_with(rt, rt.alloc(), workers, pace);
    let clock = nanoseconds(start.elapsed(rt)?);
    let processors = nanoseconds(rt.process_cpu_time()?).saturating_sub(used);
    ensure!(collected, "the nursery isn't empty");
    Ok(Times { clock, processors })
}

/// Collects the heap some times in one way.
fn time_way<R>(
    rt: &R,
    plan: &Plan,
    workshop: &mut Workshop,
    way: Way,
    workers: u32,
    runs: u32,
) -> Result<()>
where
    R: Clock + CpuClock + AllocGlobal + Threads + Sync + Print + Eprint,
{
    let mut least = Times {
        clock: u64::MAX,
        processors: u64::MAX,
    };
    let mut pace = way.pace();
    for _run in 0..runs {
        let times = time_one(rt, workshop, &mut pace, workers)?;
        least.clock = least.clock.min(times.clock);
        least.processors = least.processors.min(times.processors);
    }
    let (shape, superpages, way) = (plan.shape.word(), plan.superpages, way.word());
    let objects = objects_in_cells(workshop.space());
    let gone = pages_gone(workshop.space());
    println!(rt;
        "shape={shape} superpages={superpages} way={way} workers={workers} objects={objects} gone={gone}"
    )?;
    let (clock, processors) = (least.clock, least.processors);
    eprintln!(rt;
        "shape={shape} superpages={superpages} gone={gone} way={way} workers={workers} clock={clock} processors={processors}"
    )?;
    Ok(())
}

/// Collects the heap in each way.
pub(crate) fn time_all<R>(rt: &R, plan: &Plan, mut workshop: Workshop, runs: u32) -> Result<()>
where
    R: Clock + CpuClock + AllocGlobal + Threads + Sync + Print + Eprint,
{
    time_way(rt, plan, &mut workshop, Way::Plain, 1, runs)?;
    for workers in &WORKERS {
        time_way(rt, plan, &mut workshop, Way::Tables, *workers, runs)?;
    }
    for workers in &WORKERS {
        time_way(rt, plan, &mut workshop, Way::Paced, *workers, runs)?;
    }
    Ok(())
}
