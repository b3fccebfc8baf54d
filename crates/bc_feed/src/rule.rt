//! The rule of the queue, and the steps under it. These types are for the proofs alone: no value of them is made.

ghost use Rattle.std.specs.Prelude.{ℕ};

use crossbeam_queue::RuledArrayQueue;
use crossbeam_queue::protocol::{Join, Lesson, Outcome, Protocol, Split};
use std::collections::LinkedList;
use std::marker::{Brand, PhantomData};

/// What a pass of the queue knows.
pub struct Account {
    /// How many hints are handed in at most.
    pub most: u64,
    /// Whether it may push.
    pub pushes: bool,
    /// Whether it may pop.
    pub pops: bool,
    /// What was pushed, in order: all of it for a pass that pushes, and else a beginning.
    pub sent: LinkedList<u32>,
    /// What it popped, in order.
    pub got: LinkedList<u32>,
}

/// What was pushed is what was popped, and then what the queue holds.
pub struct InOrder;

impl Protocol<u32, Account> for InOrder {
    ghost use Rattle.bc_feed.specs.Accounts.{PassesInOrder, untold_account};

    ghost holds = { PassesInOrder };

    ghost first = { untold_account };
}

/// How many hints there are at most, for a step that tells a new queue so.
pub trait HintCount {
    ghost hints: { ℕ };
}

impl HintCount for Brand {
    ghost hints = { 0 };
}

/// A new queue is told how many hints there are at most.
pub struct Tells<N> {
    of: PhantomData<N>,
}

impl<N: HintCount> Split<Account> for Tells<N> {
    ghost use Rattle.std.specs.Prelude.{[]};
    ghost use Rattle.bc_feed.specs.Accounts.{whole_account, spent_account};

    ghost left = { λ _. whole_account N.hints [] [] };

    ghost right = { λ _. spent_account };
}

/// The feeder's pass and the taker's, parted and put together again.
pub struct Parts;

impl Split<Account> for Parts {
    ghost use Rattle.bc_feed.specs.Accounts.{feeder_account, taker_account};

    ghost left = { λ v. feeder_account v.most v.sent };

    ghost right = { λ v. taker_account v.most v.sent v.got };
}

impl Join<Account> for Parts {
    ghost use Rattle.bc_feed.specs.Accounts.{whole_account, spent_account};

    ghost both = { λ v w. whole_account v.most v.sent w.got };

    ghost spent = { spent_account };
}

/// A hint is pushed, or the queue has no place for it yet.
pub struct Sends;

impl Outcome<u32, Account> for Sends {
    ghost use Rattle.bc_feed.specs.Accounts.{HasPushedHint};

    ghost then = { HasPushedHint };
}

impl Lesson<u32, Account> for Sends {
    ghost use Rattle.bc_feed.specs.Accounts.{ShowsHints};

    ghost fact = { ShowsHints };
}

/// A hint is popped, or the queue is empty.
pub struct Gets;

impl Outcome<u32, Account> for Gets {
    ghost use Rattle.bc_feed.specs.Accounts.{HasPoppedHint};

    ghost then = { HasPoppedHint };
}

impl Lesson<u32, Account> for Gets {
    ghost use Rattle.bc_feed.specs.Accounts.{ShowsHints};

    ghost fact = { ShowsHints };
}

/// A queue of hints under the rule.
pub type HintQueue = RuledArrayQueue<u32, Account, InOrder>;
