//! When something came: times that several threads note.

use anyhow::Result;
use std::alloc::Global;
use std::rt::Clock;
use std::sync::atomic::AtomicU64;
use std::sync::atomic::Ordering::SeqCst;
use std::time::{Duration, Instant};

fn nanoseconds(taken: Duration) -> u64 {
    taken
        .as_secs()
        .saturating_mul(1_000_000_000)
        .saturating_add(u64::from(taken.subsec_nanos()))
}

/// When the first of some events came, the second and so on, in nanoseconds since the start.
#[derive(Drop)]
pub(crate) struct Times {
    start: Instant,
    /// How many events came. There is room for the times of the first ones.
    count: AtomicU64,
    times: Vec<AtomicU64>,
}

impl Times {
    fn new(alloc: Global, start: Instant, room: u32) -> Result<Times> {
        let mut times = Vec::new(alloc);
        for _ in 0..room {
            times.push(AtomicU64::new(0))?;
        }
        Ok(Times {
            start,
            count: AtomicU64::new(0),
            times,
        })
    }

    /// Notes an event. Where the clock can't be read its time stays 0.
    pub(crate) fn note<R: Clock>(&self, clock: &R) {
        let number = self.count.fetch_add(1, SeqCst);
        let Ok(since) = self.start.elapsed(clock) else {
            return;
        };
        if let Some(time) = self.times.get(number as usize) {
            time.store(nanoseconds(since), SeqCst);
        }
    }

    /// How many events came.
    pub(crate) fn count(&self) -> u64 {
        self.count.load(SeqCst)
    }

    /// When the event of this number came, counted from 0. There is no time where none came or the clock couldn't be read.
    pub(crate) fn time(&self, number: usize) -> Option<u64> {
        let time = self.times.get(number)?.load(SeqCst);
        if time == 0 { None } else { Some(time) }
    }
}

/// What is noted of a run.
#[derive(Drop)]
pub(crate) struct Notes {
    start: Instant,
    /// When each hint was handed in.
    pub(crate) handed: Times,
    /// When the answer to each was kept.
    pub(crate) answered: Times,
    /// When something was written first.
    pub(crate) written: Times,
}

impl Notes {
    /// Of a run that begins now, with so many hints at most.
    pub(crate) fn new<R: Clock>(clock: &R, alloc: Global, hints: u32) -> Result<Notes> {
        let start = Instant::now(clock)?;
        Ok(Notes {
            start,
            handed: Times::new(alloc, start, hints)?,
            answered: Times::new(alloc, start, hints)?,
            written: Times::new(alloc, start, 1)?,
        })
    }

    /// How many nanoseconds have gone by since it began.
    pub(crate) fn since_start<R: Clock>(&self, clock: &R) -> Result<u64> {
        Ok(nanoseconds(self.start.elapsed(clock)?))
    }
}
