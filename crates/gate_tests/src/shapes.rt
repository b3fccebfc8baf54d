//! Lanes and pagers meet in other shapes: sixteen lanes at once, in the second turn of the second phase, and with a page
//! in a lane's hands.

use crate::equal::same;
use crate::keeping::{FOUR, Patience, Together};
use crate::objects::{big_objects, first_births};
use crate::points::{AFTER, ANSWERED, BEFORE, LANE_IN_HAND, PAGER, TAKEN};
use bc_cli::{Gate, Status};
use bc_engine::Answer;
use program_workshop::{SMALL, repeated, run_past, trace};
use std::sync::atomic::{AtomicU64, Ordering};
use std::test::Fail;

/// A bit for each of sixteen lanes.
const ALL_LANES: u64 = 0xffff;

/// Keeps each of sixteen lanes before its first operation until all have come there, and before its second one until the next lane in
/// the ring has done its first.
#[derive(Drop)]
struct Ring {
    /// A bit for each lane that has come before an operation.
    come: AtomicU64,
    /// A bit for each lane that has done one.
    done: AtomicU64,
    /// How many operations all lanes did.
    passes: AtomicU64,
    patience: Patience,
}

impl Gate for Ring {
    fn at(&self, who: u32, point: u32) {
        if who >= 16 {
            return;
        }
        let lane = 1u64 << who;
        let next = 1u64 << ((who + 1) % 16);
        match point {
            BEFORE => {
                if self.come.fetch_or(lane, Ordering::SeqCst) & lane == 0 {
                    self.patience.keep_until_all(&self.come, ALL_LANES);
                } else {
                    self.patience.keep_until_all(&self.done, next);
                }
            }
            AFTER => {
                self.done.fetch_or(lane, Ordering::SeqCst);
                self.passes.fetch_add(1, Ordering::SeqCst);
            }
            _ => {}
        }
    }
}

#[test]
fn sixteen_lanes_that_wait_for_one_another_in_a_ring_all_come_through(
    rt: HostRuntime,
) -> Result<(), Fail> {
    let mut lines = String::from_str(rt.alloc(), "phase\n")?;
    let mut output = String::from_str(rt.alloc(), "phase 1\n")?;
    for lane in 0..16u32 {
        let ops = format!(in rt.alloc(); "lane {lane}\nnew {lane} 0 0\nwho {lane} 0\n")?;
        lines.push_str(&ops)?;
        let replies = format!(in rt.alloc(); "lane {lane}\nobj {lane}.1\nobj {lane}.1\n")?;
        output.push_str(&replies)?;
    }
    lines.push_str("end\ndone\n")?;
    output.push_str("done\n")?;
    let text = trace(rt.alloc(), [16, 16, 1, 16, 1, 4, 34], &lines)?;
    let gate = Ring {
        come: AtomicU64::new(0),
        done: AtomicU64::new(0),
        passes: AtomicU64::new(0),
        patience: Patience::new(),
    };
    let passed = run_past(&rt, rt.alloc(), &text, &gate)?;
    same(&rt, passed.status, Status::Done);
    assert!(rt; passed.written.as_slice() == output.as_bytes());
    same(&rt, gate.passes.load(Ordering::SeqCst), 32);
    same(&rt, gate.patience.given_up.load(Ordering::SeqCst), 0);
    Ok(())
}

/// In the second turn of lane 0: keeps it before its first operation until a pager has answered one of that turn's two notices, and before its
/// second one until the other is answered; and the pager that takes a notice first until lane 0 has come before that operation, and the one
/// that takes the other until it has done it. The first turn has one notice, and five operations of which the last isn't done.
#[derive(Drop)]
struct SecondTurn {
    come: AtomicU64,
    done: AtomicU64,
    taken: AtomicU64,
    answered: AtomicU64,
    patience: Patience,
}

impl Gate for SecondTurn {
    fn at(&self, who: u32, point: u32) {
        match (who.min(PAGER), point) {
            (0, BEFORE) => match self.come.fetch_add(1, Ordering::SeqCst) {
                5 => self.patience.keep_until_above(&self.answered, 1),
                6 => self.patience.keep_until_above(&self.answered, 2),
                _ => {}
            },
            (0, AFTER) => {
                self.done.fetch_add(1, Ordering::SeqCst);
            }
            (PAGER, TAKEN) => match self.taken.fetch_add(1, Ordering::SeqCst) {
                1 => self.patience.keep_until_above(&self.come, 5),
                2 => self.patience.keep_until_above(&self.done, 4),
                _ => {}
            },
            (PAGER, ANSWERED) => {
                self.answered.fetch_add(1, Ordering::SeqCst);
            }
            _ => {}
        }
    }
}

#[test]
fn a_lane_and_two_pagers_meet_in_the_second_turn_of_the_second_phase(
    rt: HostRuntime,
) -> Result<(), Fail> {
    let old = big_objects(rt.alloc(), 1, 12)?;
    let new = repeated(rt.alloc(), "new 0 0 126\n", 8)?;
    let lines = format!(in rt.alloc();
        "phase\nlane 0\nlane 1\n{old}end\nphase\nturn 0\nturn 1 2\nlane 0\n{new}lane 1\nend\ndone\n"
    )?;
    let text = trace(rt.alloc(), [2, 2, 12, 2, 1, 4, 10], &lines)?;
    let gate = SecondTurn {
        come: AtomicU64::new(0),
        done: AtomicU64::new(0),
        taken: AtomicU64::new(0),
        answered: AtomicU64::new(0),
        patience: Patience::new(),
    };
    let passed = run_past(&rt, rt.alloc(), &text, &gate)?;
    same(&rt, passed.status, Status::Done);
    let first = first_births(rt.alloc(), 1, 12)?;
    let second = first_births(rt.alloc(), 0, 8)?;
    let output = format!(in rt.alloc();
        "phase 1\nlane 0\nlane 1\n{first}phase 2\nlane 0\n{second}lane 1\ndone\n"
    )?;
    assert!(rt; passed.written.as_slice() == output.as_bytes());
    let answers = [Answer::Evicted(0), Answer::Evicted(1), Answer::Evicted(2)];
    assert!(rt; passed.answers.as_slice() == answers.as_slice());
    same(&rt, gate.come.load(Ordering::SeqCst), 8);
    same(&rt, gate.done.load(Ordering::SeqCst), 7);
    same(&rt, gate.answered.load(Ordering::SeqCst), 3);
    same(&rt, gate.patience.given_up.load(Ordering::SeqCst), 0);
    Ok(())
}

/// Keeps lane 0 with a page in its hands until the pager has answered, and the pager at its notice until lane 0 has the page.
#[derive(Drop)]
struct Holding {
    in_hand: AtomicU64,
    answered: AtomicU64,
    patience: Patience,
}

impl Gate for Holding {
    fn at(&self, who: u32, point: u32) {
        match (who, point) {
            (0, LANE_IN_HAND) => {
                self.in_hand.fetch_add(1, Ordering::SeqCst);
                self.patience.keep_until(&self.answered);
            }
            (PAGER, TAKEN) => self.patience.keep_until(&self.in_hand),
            (PAGER, ANSWERED) => {
                self.answered.fetch_add(1, Ordering::SeqCst);
            }
            _ => {}
        }
    }
}

#[test]
fn a_page_in_a_lanes_hands_is_declined(rt: HostRuntime) -> Result<(), Fail> {
    let lines =
        "phase\nlane 0\nnew 0 0 1\nend\nphase\nturn 0\nlane 0\nlen 0 0\nwho 0 0\nend\ndone\n";
    let text = trace(rt.alloc(), SMALL, lines)?;
    let gate = Holding {
        in_hand: AtomicU64::new(0),
        answered: AtomicU64::new(0),
        patience: Patience::new(),
    };
    let passed = run_past(&rt, rt.alloc(), &text, &gate)?;
    same(&rt, passed.status, Status::Done);
    let output = "phase 1\nlane 0\nobj 0.1\nphase 2\nlane 0\nlen 1\nobj 0.1\ndone\n";
    assert!(rt; passed.written.as_slice() == output.as_bytes());
    assert!(rt; passed.answers.as_slice() == [Answer::Declined].as_slice());
    same(&rt, gate.in_hand.load(Ordering::SeqCst), 1);
    same(&rt, gate.patience.given_up.load(Ordering::SeqCst), 0);
    Ok(())
}

#[test]
fn lines_of_9_and_of_64_notices_are_answered_turn_by_turn_beside_two_lanes(
    rt: HostRuntime,
) -> Result<(), Fail> {
    let nine = repeated(rt.alloc(), " 0", 9)?;
    let most = repeated(rt.alloc(), " 7", 64)?;
    let zero = repeated(rt.alloc(), "new 0 0 126\n", 10)?;
    let one = repeated(rt.alloc(), "new 1 0 126\n", 10)?;
    let lines = format!(in rt.alloc();
        "phase\nturn{nine}\nturn{most}\nlane 0\n{zero}lane 1\n{one}end\ndone\n"
    )?;
    let text = trace(rt.alloc(), [2, 2, 1, 2, 1, 4, 6], &lines)?;
    let gate = Together::of(FOUR);
    let passed = run_past(&rt, rt.alloc(), &text, &gate)?;
    same(&rt, passed.status, Status::Done);
    let first = first_births(rt.alloc(), 0, 10)?;
    let second = first_births(rt.alloc(), 1, 10)?;
    let output = format!(in rt.alloc(); "phase 1\nlane 0\n{first}lane 1\n{second}done\n")?;
    assert!(rt; passed.written.as_slice() == output.as_bytes());
    // Three turns, of which the third has the first line again.
    same(&rt, passed.answers.len(), 82);
    same(&rt, gate.answered.load(Ordering::SeqCst), 82);
    same(&rt, gate.come.load(Ordering::SeqCst), gate.all);
    same(&rt, gate.patience.given_up.load(Ordering::SeqCst), 0);
    Ok(())
}
