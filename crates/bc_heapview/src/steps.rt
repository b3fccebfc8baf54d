//! A way as its caller sees it.

use bc_model::{Birth, Slot};
use std::marker::Model;

/// A field, and the object that it refers to.
#[derive(Clone, Copy, Debug, PartialEq, Eq)]
pub struct Step {
    pub field: u32,
    pub birth: Birth,
}

/// A way from a root slot to an object: what the slot refers to, and then step by step.
#[derive(Debug, Drop)]
pub struct Path {
    pub root: Slot,
    pub first: Birth,
    pub steps: Vec<Step>,
}

impl Model for Path {
    ghost use Rattle.bc_heapview.specs.PathLists.{PathList};

    ghost Value = { PathList };

    ghost view = { λ p. record { root = p.root; first = p.first; steps = p.steps.items } };
}
