//! What a run is given, and notes times: a feed, a gate and a sink.

use crate::times::Times;
use bc_feed::{DrawFeed, Feed};
use bc_gates::Gate;
use bc_io::{Failed, Sink};
use std::rt::Clock;
use std::thread;
use std::time::Duration;

/// The number with which the first pager of a turn passes a gate.
const PAGER: u32 = 200;

/// The point of a gate at which the answer to a pager's notice is kept.
const ANSWERED: u32 = 5;

/// A feed of drawn hints. It sleeps for a pause before it gives one, and notes when it does.
#[derive(Drop)]
pub(crate) struct TimedFeed<'a, R> {
    pub(crate) drawn: DrawFeed,
    pub(crate) pause: Duration,
    pub(crate) clock: &'a R,
    pub(crate) times: &'a Times,
}

impl<'a, R: Clock> Feed for TimedFeed<'a, R> {
    ghost coming = { λ f. f.drawn };

    fn next(&mut self) -> Option<u32> {
        if !self.pause.is_zero() {
            thread::sleep(self.clock, self.pause);
        }
        let hint = self.drawn.next()?;
        self.times.note(self.clock);
        Some(hint)
    }
}

/// A gate that notes when an answer of a pager is kept.
#[derive(Drop)]
pub(crate) struct TimedGate<'a, R> {
    pub(crate) clock: &'a R,
    pub(crate) times: &'a Times,
}

impl<'a, R: Clock> Gate for TimedGate<'a, R> {
    fn at(&self, who: u32, point: u32) {
        if who >= PAGER && point == ANSWERED {
            self.times.note(self.clock);
        }
    }
}

/// A sink that notes when something was written.
#[derive(Drop)]
pub(crate) struct TimedSink<'a, R, K> {
    pub(crate) sink: K,
    pub(crate) clock: &'a R,
    pub(crate) times: &'a Times,
}

impl<'a, R: Clock, K: Sink> Sink for TimedSink<'a, R, K> {
    ghost held = { λ s. K.held s.sink };

    ghost faults = { λ s. K.faults s.sink };

    ghost room = { λ s. K.room s.sink };

    fn write(&mut self, bytes: &[u8]) -> Result<usize, Failed> {
        let taken = self.sink.write(bytes);
        self.times.note(self.clock);
        taken
    }
}
