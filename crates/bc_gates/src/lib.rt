// Gates: places inside the threads of a turn where a test may look on or hold a thread up. And the host: threads, memory and a gate,
// as a program gives them.
//
// A worker (a lane, a marker or a pager) passes its gate at the points that docs/ARCHITECTURE.md
// lists. A gate gets the worker's number and the point's, and returns: no contract sees what it
// does, so nothing that is proved depends on one. The program runs with `OpenGate`, whose call
// does nothing. Tests bring gates of their own, which count the passes or keep one thread at a
// point until another has passed elsewhere.
//
// They stand below the table of a turn (`bc_pins`, which passes them on), since collector, engine and
// program hand a gate down and need nothing else of a turn.
#![tactic(auto)]

use std::alloc::Global;

/// What a program gives a heap that works on threads: they travel together down to the turns.
#[derive(Drop)]
pub struct Host<'h, R, G> {
    /// Threads to work on.
    pub threads: &'h R,
    /// Memory.
    pub alloc: Global,
    /// The gate that lanes, markers and pagers pass.
    pub gate: &'h G,
}

/// A place where a test may look on. A call returns and changes nothing that a clause sees.
pub trait Gate {
    /// Worker `who` passes point `point`.
    ///
    /// `who` is j for lane j, 100 + m for marker m, and 200 + q for pager q, each counted from 0.
    fn at(&self, who: u32, point: u32);
}

/// The gate of the program: it lets everyone pass.
#[derive(Clone, Copy, Debug, PartialEq, Eq)]
pub struct OpenGate;

impl Gate for OpenGate {
    fn at(&self, _who: u32, _point: u32) {}
}
