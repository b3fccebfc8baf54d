//! Pagers work beside the lanes of a turn and beside one another, as many as notices and at most four, and each notice is answered once.

use crate::equal::same;
use crate::keeping::{FOUR, Patience, Together, bit_of};
use crate::objects::big_objects;
use crate::points::{ANSWERED, BEFORE, PAGER, TAKEN};
use bc_cli::{Gate, Status};
use bc_engine::Answer;
use program_workshop::{ONE_SLOT_EACH, SMALL, repeated, run_past, trace};
use std::alloc::Global;
use std::process::Abort;
use std::sync::atomic::{AtomicU64, Ordering};
use std::test::Fail;
use std::thread::Threads;

/// Keeps lane 0 before its operation until the pager has answered, and the pager at its notice until lane 0 has come there.
#[derive(Drop)]
struct Racing {
    begun_by_0: AtomicU64,
    answered: AtomicU64,
    patience: Patience,
}

impl Gate for Racing {
    fn at(&self, who: u32, point: u32) {
        match (who, point) {
            (0, BEFORE) => {
                self.begun_by_0.fetch_add(1, Ordering::SeqCst);
                self.patience.keep_until(&self.answered);
            }
            (PAGER, TAKEN) => self.patience.keep_until(&self.begun_by_0),
            (PAGER, ANSWERED) => {
                self.answered.fetch_add(1, Ordering::SeqCst);
            }
            _ => {}
        }
    }
}

#[test]
fn a_lane_and_a_pager_that_wait_for_each_other_both_come_through(
    rt: HostRuntime,
) -> Result<(), Fail> {
    let lines = "phase\nturn 0\nlane 0\nnew 0 0 0\nlane 1\nnew 1 0 0\nwho 1 0\nend\ndone\n";
    let text = trace(rt.alloc(), ONE_SLOT_EACH, lines)?;
    let gate = Racing {
        begun_by_0: AtomicU64::new(0),
        answered: AtomicU64::new(0),
        patience: Patience::new(),
    };
    let passed = run_past(&rt, rt.alloc(), &text, &gate)?;
    same(&rt, passed.status, Status::Done);
    let output = "phase 1\nlane 0\nobj 0.1\nlane 1\nobj 1.1\nobj 1.1\ndone\n";
    assert!(rt; passed.written.as_slice() == output.as_bytes());
    assert!(rt; passed.answers.as_slice() == [Answer::Declined].as_slice());
    same(&rt, gate.begun_by_0.load(Ordering::SeqCst), 1);
    same(&rt, gate.answered.load(Ordering::SeqCst), 1);
    same(&rt, gate.patience.given_up.load(Ordering::SeqCst), 0);
    Ok(())
}

/// Shows that so many notices are answered by the pagers of these bits, all of which have one at once, and declined where every page is absent.
fn declined_together<R: Threads + Sync + Abort>(
    rt: &R,
    alloc: Global,
    hints: &str,
    notices: u64,
    pagers: u64,
) -> Result<(), Fail> {
    let lines = format!(in alloc; "phase\nturn{hints}\nlane 0\nnew 0 0 0\nend\ndone\n")?;
    let text = trace(alloc, SMALL, &lines)?;
    let gate = Together::of(pagers);
    let passed = run_past(rt, alloc, &text, &gate)?;
    same(rt, passed.status, Status::Done);
    assert!(rt; passed.written.as_slice() == b"phase 1\nlane 0\nobj 0.1\ndone\n".as_slice());
    same(rt, passed.answers.len() as u64, notices);
    assert!(rt;
        passed
            .answers
            .iter()
            .all(|answer| *answer == Answer::Declined)
    );
    same(rt, gate.answered.load(Ordering::SeqCst), notices);
    same(rt, gate.come.load(Ordering::SeqCst), gate.all);
    same(rt, gate.patience.given_up.load(Ordering::SeqCst), 0);
    Ok(())
}

#[test]
fn eight_notices_are_answered_by_four_pagers_and_declined_while_every_page_is_absent(
    rt: HostRuntime,
) -> Result<(), Fail> {
    declined_together(&rt, rt.alloc(), " 0 1 2 3 0 1 2 3", 8, FOUR)
}

#[test]
fn a_turn_has_as_many_pagers_as_notices_and_at_most_four(rt: HostRuntime) -> Result<(), Fail> {
    for (notices, pagers) in [(1, 1), (2, 3), (3, 7), (5, FOUR), (64, FOUR)] {
        let hints = repeated(rt.alloc(), " 7", notices)?;
        declined_together(&rt, rt.alloc(), &hints, notices as u64, pagers)?;
    }
    Ok(())
}

#[test]
fn of_two_pagers_that_are_alone_one_evicts_a_page_with_an_object_and_the_other_declines(
    rt: HostRuntime,
) -> Result<(), Fail> {
    let lines = "phase\nlane 0\nnew 0 0 0\nend\nphase\nturn 3 0\nlane 0\nend\ndone\n";
    let text = trace(rt.alloc(), SMALL, lines)?;
    let gate = Together::of(3);
    let passed = run_past(&rt, rt.alloc(), &text, &gate)?;
    same(&rt, passed.status, Status::Done);
    let output = "phase 1\nlane 0\nobj 0.1\nphase 2\nlane 0\ndone\n";
    assert!(rt; passed.written.as_slice() == output.as_bytes());
    let answers = passed.answers.as_slice();
    assert!(rt;
        answers == [Answer::Evicted(0), Answer::Declined].as_slice()
            || answers == [Answer::Declined, Answer::Evicted(0)].as_slice()
    );
    same(&rt, gate.come.load(Ordering::SeqCst), gate.all);
    same(&rt, gate.patience.given_up.load(Ordering::SeqCst), 0);
    Ok(())
}

/// Keeps the first of four pagers with its first notice until all have one, and the others with theirs until it has answered five. So it answers
/// one of the first four notices and then the last four, and only then are the others answered.
#[derive(Drop)]
struct Ahead {
    /// A bit for each pager that has come.
    come: AtomicU64,
    /// How many notices the first one answered, and how many the others.
    by_first: AtomicU64,
    by_others: AtomicU64,
    patience: Patience,
}

impl Gate for Ahead {
    fn at(&self, who: u32, point: u32) {
        if who < PAGER {
            return;
        }
        match (who, point) {
            (PAGER, TAKEN) => {
                self.come.fetch_or(1, Ordering::SeqCst);
                self.patience.keep_until_all(&self.come, FOUR);
            }
            (PAGER, ANSWERED) => {
                self.by_first.fetch_add(1, Ordering::SeqCst);
            }
            (_, TAKEN) => {
                self.come.fetch_or(bit_of(who), Ordering::SeqCst);
                self.patience.keep_until_above(&self.by_first, 4);
            }
            (_, ANSWERED) => {
                self.by_others.fetch_add(1, Ordering::SeqCst);
            }
            _ => {}
        }
    }
}

/// The answers where each of eight pages leaves for the notice that names it.
const EACH_PAGE: [Answer; 8] = [
    Answer::Evicted(0),
    Answer::Evicted(1),
    Answer::Evicted(2),
    Answer::Evicted(3),
    Answer::Evicted(4),
    Answer::Evicted(5),
    Answer::Evicted(6),
    Answer::Evicted(7),
];

#[test]
fn answers_stand_in_the_order_of_the_notices_where_the_last_ones_are_answered_first(
    rt: HostRuntime,
) -> Result<(), Fail> {
    let news = big_objects(rt.alloc(), 0, 32)?;
    let lines = format!(in rt.alloc();
        "phase\nlane 0\n{news}end\nphase\nturn 0 1 2 3 4 5 6 7\nlane 0\nclear 0 0\nend\ndone\n"
    )?;
    let text = trace(rt.alloc(), [1, 1, 32, 2, 1, 4, 9], &lines)?;
    let gate = Ahead {
        come: AtomicU64::new(0),
        by_first: AtomicU64::new(0),
        by_others: AtomicU64::new(0),
        patience: Patience::new(),
    };
    let passed = run_past(&rt, rt.alloc(), &text, &gate)?;
    same(&rt, passed.status, Status::Done);
    assert!(rt;
        passed
            .written
            .as_slice()
            .ends_with(b"obj 0.32\nphase 2\nlane 0\nok\ndone\n")
    );
    assert!(rt; passed.answers.as_slice() == EACH_PAGE.as_slice());
    same(&rt, gate.by_first.load(Ordering::SeqCst), 5);
    same(&rt, gate.by_others.load(Ordering::SeqCst), 3);
    same(&rt, gate.patience.given_up.load(Ordering::SeqCst), 0);
    Ok(())
}
