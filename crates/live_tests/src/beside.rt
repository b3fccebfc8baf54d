//! A live pager answers beside a lane of a turn that has no notice of its own, and so many at most in a turn: shown by a gate.

use crate::equal::same;
use crate::rows::{FIRST_PATH, FIRST_PATH_PRINTED, run_over, shows_lists};
use bc_feed::DrawFeed;
use bc_gates::Gate;
use bc_live::LiveStatus;
use bc_pager::Answer;
use std::sync::atomic::{AtomicU64, Ordering};
use std::test::Fail;
use std::thread;

/// How often the lane looks whether a pager has answered, while it is kept.
const LOOKS: u32 = 1_000_000;

/// How often it yields once one has, so that the feeder goes on.
const RESTS: u32 = 100_000;

/// The number that the first pager of a turn passes a gate with.
const PAGER: u32 = 200;

/// A lane is about to do an operation.
const BEFORE: u32 = 1;

/// The answer to a pager's notice is kept.
const ANSWERED: u32 = 5;

/// A trace of two phases, with an operation in each.
const TWO_PHASES: &str =
    "bc-trace 1\nlanes 1\ndomains 1\nslots 2\nsuperpages 1\nnursery 1\nbuffer 4\nframes 3\n\
    phase\nlane 0\nnew 0 0 2\nend\nphase\nlane 0\nset 0 0 1 7\nend\ndone\n";

/// What is printed for it.
const TWO_PHASES_PRINTED: &str = "phase 1\nlane 0\nobj 0.1\nphase 2\nlane 0\nok\ndone\n";

/// A turn answers so many notices at most.
const MOST: u64 = 64;

/// Keeps lane 0 before its first operation until pagers have answered so many notices, and before each later one until they have answered
/// so many, but not for ever.
#[derive(Drop)]
struct Answering {
    first: u64,
    then: u64,
    operations: AtomicU64,
    answered: AtomicU64,
    given_up: AtomicU64,
}

/// Gives the feeder time to hand in the hints for which the queue had no place: its thread may be woken late.
fn rest() {
    for _ in 0..RESTS {
        thread::yield_now();
    }
}

impl Answering {
    fn new(first: u64, then: u64) -> Answering {
        Answering {
            first,
            then,
            operations: AtomicU64::new(0),
            answered: AtomicU64::new(0),
            given_up: AtomicU64::new(0),
        }
    }

    fn keep(&self) {
        let wanted = if self.operations.fetch_add(1, Ordering::SeqCst) == 0 {
            self.first
        } else {
            self.then
        };
        for _ in 0..LOOKS {
            if self.answered.load(Ordering::SeqCst) >= wanted {
                rest();
                return;
            }
            thread::yield_now();
        }
        self.given_up.fetch_add(1, Ordering::SeqCst);
    }
}

impl Gate for Answering {
    fn at(&self, who: u32, point: u32) {
        match (who.min(PAGER), point) {
            (0, BEFORE) => self.keep(),
            (PAGER, ANSWERED) => {
                self.answered.fetch_add(1, Ordering::SeqCst);
            }
            _ => {}
        }
    }
}

#[test]
fn a_live_pager_answers_beside_a_lane(rt: HostRuntime) -> Result<(), Fail> {
    let gate = Answering::new(1, 1);
    let mut feed = DrawFeed::new(5, 1);
    let ran = run_over(
        &rt,
        rt.alloc(),
        &["5", "1"],
        FIRST_PATH,
        false,
        &mut feed,
        &gate,
    )?;
    same(&rt, ran.outcome.status, LiveStatus::Done);
    assert!(rt; ran.written.as_slice() == FIRST_PATH_PRINTED.as_bytes());
    shows_lists(&rt, &ran.outcome, (1, 1, 0));
    assert!(rt; ran.outcome.answers.as_slice() == [Answer::Declined].as_slice());
    same(&rt, gate.given_up.load(Ordering::SeqCst), 0);
    Ok(())
}

#[test]
fn a_turn_answers_64_notices_and_leaves_the_others(rt: HostRuntime) -> Result<(), Fail> {
    let gate = Answering::new(MOST, MOST);
    let mut feed = DrawFeed::new(5, 70);
    let words = ["5", "70"];
    let ran = run_over(&rt, rt.alloc(), &words, FIRST_PATH, false, &mut feed, &gate)?;
    same(&rt, ran.outcome.status, LiveStatus::Done);
    assert!(rt; ran.written.as_slice() == FIRST_PATH_PRINTED.as_bytes());
    same(
        &rt,
        (ran.outcome.taken.len(), ran.outcome.answers.len()),
        (64, 64),
    );
    same(&rt, gate.answered.load(Ordering::SeqCst), MOST);
    same(&rt, gate.given_up.load(Ordering::SeqCst), 0);
    Ok(())
}

#[test]
fn the_next_turn_answers_what_one_leaves(rt: HostRuntime) -> Result<(), Fail> {
    let gate = Answering::new(MOST, 70);
    let mut feed = DrawFeed::new(5, 70);
    let words = ["5", "70"];
    let ran = run_over(&rt, rt.alloc(), &words, TWO_PHASES, false, &mut feed, &gate)?;
    same(&rt, ran.outcome.status, LiveStatus::Done);
    assert!(rt; ran.written.as_slice() == TWO_PHASES_PRINTED.as_bytes());
    shows_lists(&rt, &ran.outcome, (70, 70, 0));
    same(&rt, gate.given_up.load(Ordering::SeqCst), 0);
    Ok(())
}
