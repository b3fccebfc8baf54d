//! A trace as data: its setup, its phases, the changes of holders at their ends, and the replies to a phase.

use crate::operations::{Op, Reply};
use std::marker::Model;

/// The size of a run. `docs/TRACE-LANGUAGE.md` has the ranges.
#[derive(Clone, Copy, Debug, PartialEq, Eq)]
pub struct Setup {
    pub lanes: u32,
    pub domains: u32,
    /// Root slots of each domain.
    pub slots: u32,
    pub superpages: u32,
    /// Nursery pages of each lane.
    pub nursery: u32,
    /// Write-buffer entries of each lane.
    pub buffer: u32,
    /// Page frames of the whole run.
    pub frames: u32,
}

/// From the end of a phase on, the domain is held by the lane.
#[derive(Clone, Copy, Debug, PartialEq, Eq)]
pub struct Give {
    pub domain: u32,
    pub lane: u32,
}

/// A change of holders at the end of a phase: a domain changes hands, or is frozen.
#[derive(Clone, Copy, Debug, PartialEq, Eq)]
pub enum Change {
    Give(Give),
    /// From the end of the phase on, all lanes may read this domain, and none may write it.
    Freeze(u32),
}

/// What a `turn` line says of a turn of the phase.
#[derive(Debug, Drop)]
pub struct TurnLine {
    /// How many frames are withheld in the turn: beside those of the nurseries, so many no page may use. In versions 1 and 2 it is 0.
    pub withheld: u32,
    /// The hints of its notices, in their order.
    pub hints: Vec<u32>,
}

impl Model for TurnLine {
    ghost use Rattle.bc_model.specs.Lists.{TurnLists};

    ghost Value = { TurnLists };

    ghost view = { λ t. record { withheld = t.withheld; hints = t.hints.items } };
}

/// A stretch of a run in which no domain changes hands and none is frozen.
#[derive(Debug, Drop)]
pub struct Phase {
    /// The `turn` lines, in their order.
    pub turns: Vec<TurnLine>,
    /// The operations of each lane.
    pub lanes: Vec<Vec<Op>>,
    /// The domains that change hands or are frozen at the end, in order.
    pub gives: Vec<Change>,
}

impl Model for Phase {
    ghost use Rattle.std.specs.Prelude.{map};
    ghost use Rattle.bc_model.specs.Lists.{PhaseLists};

    ghost Value = { PhaseLists };

    ghost view = { λ p. record { turns = p.turns.items; lanes = map (λ v. v.items) p.lanes.items; gives = p.gives.items } };
}

/// What a program of several lanes asks of its heap.
#[derive(Debug, Drop)]
pub struct Trace {
    /// The version of the language that the trace is written in: 1; 2, which has frozen domains; or 3, which has withheld frames too.
    pub version: u32,
    pub setup: Setup,
    pub phases: Vec<Phase>,
}

impl Model for Trace {
    ghost use Rattle.bc_model.specs.Lists.{TraceLists};

    ghost Value = { TraceLists };

    ghost view = { λ t. record { version = t.version; setup = t.setup; phases = t.phases.items } };
}

/// The replies of a phase.
#[derive(Debug, Drop)]
pub struct Replies {
    /// What each lane was answered, in the order of its operations.
    pub lanes: Vec<Vec<Reply>>,
}

impl Model for Replies {
    ghost use Rattle.std.specs.Prelude.{List, map};
    ghost use Rattle.bc_model.specs.declared.operations.Reply.{Reply};

    ghost Value = { List (List Reply) };

    ghost view = { λ r. map (λ v. v.items) r.lanes.items };
}
