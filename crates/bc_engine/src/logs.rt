//! A log of an engine's steps, which is kept where somebody asks for one. Nothing is proved of it, and nothing that the engine does hangs on it.

use crate::counters::{Tally, tally_of};
use bc_bits::count;
use bc_cycle::EmptyingKind;
use bc_running::Running;
use bc_superpages::{PageState, Space};
use std::alloc::{AllocError, Global};

/// What a step of an engine was.
#[derive(Clone, Copy, PartialEq, Eq, Debug)]
pub enum StepKind {
    /// A turn of the lanes.
    Turn,
    /// A bookmark collection between a turn and its minor collection, since frames were short.
    Early,
    /// A minor collection, and how its survivors found cells.
    Emptying(EmptyingKind),
    /// A minor collection whose survivors found no cell, since the heap is too small.
    TooSmall,
    /// An operation of each lane that wasn't at its end.
    Alone,
}

/// How a space stands.
#[derive(Clone, Copy, PartialEq, Eq, Debug)]
pub struct Standing {
    /// Pages with a frame, those of nurseries not among them.
    pub home: u32,
    /// Pages that are gone.
    pub gone: u32,
    /// Cells that are allocated, whether or not anything leads to them.
    pub cells: u32,
    /// Superpages in use.
    pub superpages: u32,
}

/// A step of an engine, and how it left the space.
#[derive(Clone, Copy, PartialEq, Eq, Debug)]
pub struct Step {
    pub kind: StepKind,
    /// How many operations were done.
    pub operations: u64,
    /// How many pages were read back.
    pub reads: u64,
    /// How many pages with objects left.
    pub departures: u64,
    pub standing: Standing,
}

/// The first steps since the log was begun, as many as there was room for.
#[derive(Drop)]
pub(crate) struct Log {
    steps: Vec<Step>,
}

impl Log {
    /// A log for no step.
    pub(crate) fn off(alloc: Global) -> Log {
        Log {
            steps: Vec::new(alloc),
        }
    }

    /// Begins the log anew, with room for so many steps at least. The error is out of memory.
    pub(crate) fn begin(&mut self, room: usize) -> Result<(), AllocError> {
        self.steps.clear();
        self.steps.reserve(room)?;
        Ok(())
    }

    /// The steps that were written down.
    pub(crate) fn steps(&self) -> &[Step] {
        &self.steps
    }

    /// Writes a bookmark collection down that came since frames were short, if there was one.
    pub(crate) fn note_early(&mut self, collected: bool, before: Tally, running: &Running) {
        if collected {
            self.note(StepKind::Early, 0, before, running);
        }
    }

    /// Writes a step down, if there is room for it. It takes no memory.
    pub(crate) fn note(
        &mut self,
        kind: StepKind,
        operations: u64,
        before: Tally,
        running: &Running,
    ) {
        if self.steps.len() >= self.steps.capacity() {
            return;
        }
        let after = tally_of(running);
        self.steps.push_reserved(Step {
            kind,
            operations,
            reads: after.reads.wrapping_sub(before.reads),
            departures: after.departures.wrapping_sub(before.departures),
            standing: standing_of(&running.heap().space),
        });
    }
}

/// How a space stands.
fn standing_of(space: &Space) -> Standing {
    let (home, gone) = pages_of(space);
    let (cells, superpages) = cells_of(space);
    Standing {
        home,
        gone,
        cells,
        superpages,
    }
}

/// How many pages have a frame, and how many are gone.
fn pages_of(space: &Space) -> (u32, u32) {
    let mut home = 0u32;
    let mut gone = 0u32;
    for page in 0..space.pages() {
        match space.state(page) {
            PageState::Home | PageState::Remembered => home = home.saturating_add(1),
            PageState::Gone => gone = gone.saturating_add(1),
            _ => {}
        }
    }
    (home, gone)
}

/// How many cells are allocated, and how many superpages are in use.
fn cells_of(space: &Space) -> (u32, u32) {
    space.facts();
    let mut cells = 0u32;
    let mut used = 0u32;
    for superpage in 0..space.superpages() {
        let header = space.header(superpage);
        cells = cells.saturating_add(count(&header.cells, 1024));
        if header.used {
            used = used.saturating_add(1);
        }
    }
    (cells, used)
}
