//! Turns and markings that run as the program runs them: at a table, and on threads, where that is likely to pay.

use crate::equal::same;
use crate::keeping::Patience;
use crate::points::{AFTER, ANSWERED, BEFORE, PAGER, TAKEN};
use bc_cli::{Gate, Status};
use bc_engine::{Answer, Pacing};
use bc_io::MemSource;
use program_workshop::{ONE_SLOT_EACH, Paper, repeated, run_between, run_paced, trace};
use std::alloc::{AllocError, Global};
use std::sync::atomic::{AtomicU64, Ordering};
use std::test::Fail;
use std::thread::Threads;

/// Runs the trace with this text, past a gate, as the program does: each turn as is likely to pay. It returns how the run ended, and what it
/// wrote.
fn run_as_pays<R: Threads + Sync, G: Gate + Sync>(
    rt: &R,
    alloc: Global,
    text: &str,
    gate: &G,
) -> Result<(Status, Vec<u8>), AllocError> {
    let mut source = MemSource::new(text.as_bytes().to_vec(alloc)?, 4096, Vec::new(alloc));
    let mut sink = Paper::new(alloc);
    let outcome = run_between(rt, alloc, &["run"], &mut source, &mut sink, gate);
    Ok((outcome.status, sink.into_bytes()))
}

/// Keeps lane 0 before its second operation until a pager has answered, and each pager with each notice until lane 0 has come there.
#[derive(Drop)]
struct Beside {
    come: AtomicU64,
    answered: AtomicU64,
    patience: Patience,
}

impl Gate for Beside {
    fn at(&self, who: u32, point: u32) {
        match (who.min(PAGER), point) {
            (0, BEFORE) => {
                if self.come.fetch_add(1, Ordering::SeqCst) == 1 {
                    self.patience.keep_until(&self.answered);
                }
            }
            (PAGER, TAKEN) => self.patience.keep_until_above(&self.come, 1),
            (PAGER, ANSWERED) => {
                self.answered.fetch_add(1, Ordering::SeqCst);
            }
            _ => {}
        }
    }
}

#[test]
fn in_a_long_turn_pagers_answer_nine_notices_beside_the_lane(rt: HostRuntime) -> Result<(), Fail> {
    let hints = repeated(rt.alloc(), " 0", 9)?;
    let looks = repeated(rt.alloc(), "who 0 0\n", 6_000)?;
    let lines = format!(in rt.alloc();
        "phase\nturn{hints}\nlane 0\nnew 0 0 0\n{looks}end\ndone\n"
    )?;
    let text = trace(rt.alloc(), [1, 1, 1, 1, 1, 4, 3], &lines)?;
    let gate = Beside {
        come: AtomicU64::new(0),
        answered: AtomicU64::new(0),
        patience: Patience::new(),
    };
    let (status, written) = run_as_pays(&rt, rt.alloc(), &text, &gate)?;
    same(&rt, status, Status::Done);
    assert!(rt; written.as_slice().ends_with(b"obj 0.1\nobj 0.1\ndone\n"));
    same(&rt, gate.come.load(Ordering::SeqCst), 6_001);
    same(&rt, gate.answered.load(Ordering::SeqCst), 9);
    same(&rt, gate.patience.given_up.load(Ordering::SeqCst), 0);
    Ok(())
}

/// Holds each of two lanes after its 1000th operation at a table until the other one has come there.
#[derive(Drop)]
struct Midway {
    done_by_0: AtomicU64,
    done_by_1: AtomicU64,
    patience: Patience,
}

impl Midway {
    /// A lane that has done so many operations did one more.
    fn count(&self, own: &AtomicU64, other: &AtomicU64) {
        if own.fetch_add(1, Ordering::SeqCst) == 999 {
            self.patience.keep_until_above(other, 999);
        }
    }
}

impl Gate for Midway {
    fn at(&self, who: u32, point: u32) {
        match (who, point) {
            (0, AFTER) => self.count(&self.done_by_0, &self.done_by_1),
            (1, AFTER) => self.count(&self.done_by_1, &self.done_by_0),
            _ => {}
        }
    }
}

#[test]
fn in_a_long_second_turn_of_a_phase_two_lanes_wait_for_each_other(
    rt: HostRuntime,
) -> Result<(), Fail> {
    let zero = repeated(rt.alloc(), "new 0 0 0\n", 300)?;
    let one = repeated(rt.alloc(), "new 1 0 0\n", 300)?;
    let look_at_0 = repeated(rt.alloc(), "who 0 0\n", 6_000)?;
    let look_at_1 = repeated(rt.alloc(), "who 1 0\n", 6_000)?;
    let lines = format!(in rt.alloc();
        "phase\nlane 0\n{zero}{look_at_0}lane 1\n{one}{look_at_1}end\ndone\n"
    )?;
    let text = trace(rt.alloc(), ONE_SLOT_EACH, &lines)?;
    let gate = Midway {
        done_by_0: AtomicU64::new(0),
        done_by_1: AtomicU64::new(0),
        patience: Patience::new(),
    };
    let (status, written) = run_as_pays(&rt, rt.alloc(), &text, &gate)?;
    same(&rt, status, Status::Done);
    assert!(rt;
        written
            .as_slice()
            .ends_with(b"obj 1.300\nobj 1.300\ndone\n")
    );
    // A chunk holds 256 such objects: the first turn ends there, and the object after them is made between the turns.
    same(&rt, gate.done_by_0.load(Ordering::SeqCst), 6_299);
    same(&rt, gate.done_by_1.load(Ordering::SeqCst), 6_299);
    same(&rt, gate.patience.given_up.load(Ordering::SeqCst), 0);
    Ok(())
}

/// A chain of 300 objects on nineteen superpages. Then a turn with three notices, in which each of two lanes makes an object and looks at it.
fn wide(alloc: Global) -> Result<String, AllocError> {
    let news = repeated(alloc, "new 0 1 127\nlink 0 1 0 0 0\ncopy 0 1 0 0\n", 299)?;
    let zero = repeated(alloc, "who 0 2\n", 6_000)?;
    let one = repeated(alloc, "who 1 2\n", 6_000)?;
    format!(in alloc;
        "phase\nlane 0\nnew 0 0 127\n{news}lane 1\nend\nphase\nturn 0 4 8\nlane 0\nnew 0 2 0\n{zero}lane 1\nnew 1 2 0\n{one}end\ndone\n"
    )
}

#[test]
fn in_a_heap_of_64_superpages_two_lanes_wait_for_each_other(rt: HostRuntime) -> Result<(), Fail> {
    let lines = wide(rt.alloc())?;
    let text = trace(rt.alloc(), [2, 2, 3, 64, 1, 16, 258], &lines)?;
    let gate = Midway {
        done_by_0: AtomicU64::new(0),
        done_by_1: AtomicU64::new(0),
        patience: Patience::new(),
    };
    let passed = run_paced(&rt, rt.alloc(), &text, Pacing::Learned, &gate)?;
    same(&rt, passed.status, Status::Done);
    assert!(rt;
        passed
            .written
            .as_slice()
            .ends_with(b"obj 1.1\nobj 1.1\ndone\n")
    );
    // The second phase has one turn.
    let answers = [Answer::Evicted(0), Answer::Evicted(4), Answer::Evicted(8)];
    same(&rt, passed.answers.as_slice(), answers.as_slice());
    same(&rt, gate.done_by_0.load(Ordering::SeqCst), 6_001);
    same(&rt, gate.done_by_1.load(Ordering::SeqCst), 6_001);
    same(&rt, gate.patience.given_up.load(Ordering::SeqCst), 0);
    Ok(())
}
