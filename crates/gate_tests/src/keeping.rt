//! Gates that keep threads until others have come, and that count.

use crate::points::{ANSWERED, PAGER, TAKEN};
use bc_cli::Gate;
use std::sync::atomic::{AtomicU64, Ordering};
use std::thread;

/// How often a thread that is kept looks whether the other one has come: for some ten seconds.
const LOOKS: u32 = 50_000_000;

/// Counts how often a worker passes a point.
#[derive(Drop)]
pub struct Counting {
    pub who: u32,
    pub point: u32,
    pub passes: AtomicU64,
}

impl Gate for Counting {
    fn at(&self, who: u32, point: u32) {
        if who == self.who && point == self.point {
            self.passes.fetch_add(1, Ordering::SeqCst);
        }
    }
}

/// Counts how often a thread was let go though the one that it was kept for hadn't come.
#[derive(Drop)]
pub struct Patience {
    pub given_up: AtomicU64,
}

impl Patience {
    /// Nobody was let go yet.
    pub fn new() -> Patience {
        Patience {
            given_up: AtomicU64::new(0),
        }
    }

    /// Keeps the caller until this is above 0, but not for ever, nor where one was let go already.
    pub fn keep_until(&self, come: &AtomicU64) {
        self.keep_until_above(come, 0);
    }

    /// Keeps the caller until this is above a number, but not for ever, nor where one was let go already.
    pub fn keep_until_above(&self, come: &AtomicU64, number: u64) {
        self.keep(come, Awaited::Above(number));
    }

    /// Keeps the caller until all of these bits are set, but not for ever, nor where one was let go already.
    pub fn keep_until_all(&self, come: &AtomicU64, bits: u64) {
        self.keep(come, Awaited::All(bits));
    }

    /// Keeps the caller until what it waits for is so, but not for ever, nor where one was let go already.
    fn keep(&self, come: &AtomicU64, awaited: Awaited) {
        for _ in 0..LOOKS {
            if awaited.is_so(come.load(Ordering::SeqCst))
                || self.given_up.load(Ordering::SeqCst) > 0
            {
                return;
            }
            thread::yield_now();
        }
        self.given_up.fetch_add(1, Ordering::SeqCst);
    }
}

/// What a thread that is kept waits for.
#[derive(Clone, Copy)]
enum Awaited {
    /// The number that it looks at is above this one.
    Above(u64),
    /// In the number that it looks at all of these bits are set.
    All(u64),
}

impl Awaited {
    /// Whether it is so with this number.
    fn is_so(self, number: u64) -> bool {
        match self {
            Awaited::Above(least) => number > least,
            Awaited::All(bits) => number & bits == bits,
        }
    }
}

/// A bit for each of four pagers.
pub const FOUR: u64 = 15;

/// Keeps each pager with its first notice until so many have one, and counts the notices that are answered. While one of the first so many
/// notices is left, a pager that hasn't come can still take it: so all come, whichever threads step.
#[derive(Drop)]
pub struct Together {
    /// A bit for each pager that is to come.
    pub all: u64,
    /// A bit for each one that has come.
    pub come: AtomicU64,
    pub answered: AtomicU64,
    pub patience: Patience,
}

impl Together {
    /// The pagers of these bits are to come.
    pub fn of(all: u64) -> Together {
        Together {
            all,
            come: AtomicU64::new(0),
            answered: AtomicU64::new(0),
            patience: Patience::new(),
        }
    }
}

/// The bit of a pager that passes a gate with this number.
pub fn bit_of(who: u32) -> u64 {
    let pager = who.saturating_sub(PAGER);
    if pager < 64 { 1u64 << pager } else { 0 }
}

impl Gate for Together {
    fn at(&self, who: u32, point: u32) {
        if who < PAGER {
            return;
        }
        match point {
            TAKEN => {
                self.come.fetch_or(bit_of(who), Ordering::SeqCst);
                self.patience.keep_until_all(&self.come, self.all);
            }
            ANSWERED => {
                self.answered.fetch_add(1, Ordering::SeqCst);
            }
            _ => {}
        }
    }
}
