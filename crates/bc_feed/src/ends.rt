//! The channel between a feeder and a taker, and its ends.

ghost use Rattle.std.specs.Prelude.{◌≡◌, ◌≤◌, [], ◌++◌, length, vec_capacity};
ghost use Rattle.crossbeam_queue.specs.Passes.{view, ruled_capacity};
ghost use Rattle.bc_feed.specs.Accounts.{whole_account, feeder_account, taker_account, listed};

use crate::rule::{Account, HintQueue};
use crossbeam_queue::Pass;
use std::sync::atomic::AtomicBool;
use std::thread::Parker;

/// The queue, and what tells the feeder that the run has ended. Both ends borrow it.
#[derive(Drop)]
pub struct Channel {
    pub(crate) queue: HintQueue,
    /// Whether the run has ended.
    pub(crate) ended: AtomicBool,
    /// Where the feeder sleeps while the queue has no place.
    pub(crate) parker: Parker,
    ghost places: { ruled_capacity queue ≡ 64 },
}

/// Both ends of a channel before the first hint, and the three lists with their room.
#[derive(Drop)]
pub struct BothEnds {
    pub(crate) pass: Pass<u32, Account>,
    /// How many hints are handed in at most.
    pub(crate) most: usize,
    pub(crate) handed: Vec<u32>,
    pub(crate) taken: Vec<u32>,
    pub(crate) left: Vec<u32>,
    ghost back: { pass.me.1 ≡ [] },
    ghost account: { view pass ≡ whole_account most [] [] },
    ghost none: { (handed.items ≡ []) × (taken.items ≡ []) × (left.items ≡ []) },
    ghost room: { (most ≤ vec_capacity handed) × (most ≤ vec_capacity taken) × (most ≤ vec_capacity left) },
}

/// The feeder's end: it hands in hints.
#[derive(Drop)]
pub struct Feeder {
    pub(crate) pass: Pass<u32, Account>,
    /// How many hints are handed in at most.
    pub(crate) most: usize,
    /// The hints that the feed gave.
    pub(crate) handed: Vec<u32>,
    /// The last of them, where there was no place in the queue for it yet.
    pub(crate) waiting: Option<u32>,
    /// Room for what is left at the end.
    pub(crate) left: Vec<u32>,
    ghost back: { pass.me.1 ≡ [] },
    ghost account: { view pass ≡ feeder_account most (view pass).sent },
    ghost given: { handed.items ≡ (view pass).sent ++ listed waiting },
    ghost few: { length handed.items ≤ most },
    ghost none: { left.items ≡ [] },
    ghost room: { (most ≤ vec_capacity handed) × (most ≤ vec_capacity left) },
}

/// The taker's end: it takes hints.
#[derive(Drop)]
pub struct Taker {
    pub(crate) pass: Pass<u32, Account>,
    /// The hints that were taken.
    pub(crate) taken: Vec<u32>,
    ghost back: { pass.me.1 ≡ [] },
    ghost account: { view pass ≡ taker_account (view pass).most (view pass).sent taken.items },
    ghost few: { length taken.items ≤ (view pass).most },
    ghost room: { (view pass).most ≤ vec_capacity taken },
}

/// The hints that were handed in: those that were taken, and those that were left.
#[derive(Drop)]
pub struct Passed {
    pub handed: Vec<u32>,
    pub taken: Vec<u32>,
    pub left: Vec<u32>,
}
