//! Pagers work beside the markers of a collection, and answer the notices of its turn.

use crate::equal::same;
use crate::keeping::{FOUR, Patience, Together};
use crate::points::{ANSWERED, MARKER, MARKER_IN_HAND, PAGER, PUT_BACK, TAKEN};
use bc_cli::{Gate, Status};
use bc_engine::{Answer, Pacing};
use program_workshop::{run_marked, run_paced, trace, trace_in};
use std::alloc::Global;
use std::process::Abort;
use std::sync::atomic::{AtomicU64, Ordering};
use std::test::Fail;
use std::thread::Threads;

/// Two superpages with an object each, and then a third object of another class that finds none: so cells are collected, and their marking
/// has the notice of the second line.
const THREE_CLASSES: &str =
    "phase\nlane 0\nnew 0 0 1\nnew 0 1 2\nend\nphase\nturn\nturn 0\nlane 0\nclear 0 1\nnew 0 1 8\nend\ndone\n";

/// The same with a frame more that each turn withholds.
const ONE_WITHHELD: &str =
    "phase\nturn -1\nlane 0\nnew 0 0 1\nnew 0 1 2\nend\nphase\nturn -1\nturn 0\nlane 0\nclear 0 1\nnew 0 1 8\nend\ndone\n";

/// What they print.
const PRINTED: &str = "phase 1\nlane 0\nobj 0.1\nobj 0.2\nphase 2\nlane 0\nok\nobj 0.3\ndone\n";

/// Keeps a marker at its first page until the pager has answered, and the pager at its notice until the marker has a page in its hands. So the
/// marker finds its page in memory, whichever thread comes first.
#[derive(Drop)]
struct Meeting {
    in_hand: AtomicU64,
    put_back: AtomicU64,
    answered: AtomicU64,
    patience: Patience,
}

impl Meeting {
    /// Neither of them has come yet.
    fn new() -> Meeting {
        Meeting {
            in_hand: AtomicU64::new(0),
            put_back: AtomicU64::new(0),
            answered: AtomicU64::new(0),
            patience: Patience::new(),
        }
    }
}

impl Gate for Meeting {
    fn at(&self, who: u32, point: u32) {
        match (who, point) {
            (MARKER, MARKER_IN_HAND) => {
                self.in_hand.fetch_add(1, Ordering::SeqCst);
                self.patience.keep_until(&self.answered);
            }
            (MARKER, PUT_BACK) => {
                self.put_back.fetch_add(1, Ordering::SeqCst);
            }
            (PAGER, TAKEN) => self.patience.keep_until(&self.in_hand),
            (PAGER, ANSWERED) => {
                self.answered.fetch_add(1, Ordering::SeqCst);
            }
            _ => {}
        }
    }
}

/// Shows that in a run of one of these texts, with turns that run so, a page leaves beside a marker that has another one in its hands, and that
/// the marker puts its pages back.
fn one_leaves<R: Threads + Sync + Abort>(
    rt: &R,
    alloc: Global,
    text: &str,
    pacing: Pacing,
) -> Result<(), Fail> {
    let gate = Meeting::new();
    let passed = run_paced(rt, alloc, text, pacing, &gate)?;
    same(rt, passed.status, Status::Done);
    assert!(rt; passed.written.as_slice() == PRINTED.as_bytes());
    // The first object's page is in the marker's hands, so the notice with its number is answered with the other one.
    assert!(rt; passed.answers.as_slice() == [Answer::Evicted(4)].as_slice());
    same(rt, gate.answered.load(Ordering::SeqCst), 1);
    // The marker puts each page back that it took.
    let taken = gate.in_hand.load(Ordering::SeqCst);
    assert!(rt; taken > 0);
    same(rt, gate.put_back.load(Ordering::SeqCst), taken);
    same(rt, gate.patience.given_up.load(Ordering::SeqCst), 0);
    let Some(counters) = passed.counters else {
        assert!(rt; false, "no heap is handed back");
        return Ok(());
    };
    same(rt, counters.departures.notices, 1);
    Ok(())
}

#[test]
fn a_page_leaves_beside_a_marker_that_has_another_in_its_hands(
    rt: HostRuntime,
) -> Result<(), Fail> {
    let text = trace(rt.alloc(), [1, 1, 2, 2, 1, 4, 3], THREE_CLASSES)?;
    one_leaves(&rt, rt.alloc(), &text, Pacing::SideBySide)?;
    // The turn of the markers has the frames of the lanes' turn before it.
    let text = trace_in(rt.alloc(), 3, [1, 1, 2, 2, 1, 4, 4], ONE_WITHHELD)?;
    one_leaves(&rt, rt.alloc(), &text, Pacing::SideBySide)
}

/// The program itself runs a marking with a notice at a table.
#[test]
fn a_page_leaves_beside_a_marker_where_turns_run_as_is_likely_to_pay(
    rt: HostRuntime,
) -> Result<(), Fail> {
    let text = trace(rt.alloc(), [1, 1, 2, 2, 1, 4, 3], THREE_CLASSES)?;
    one_leaves(&rt, rt.alloc(), &text, Pacing::Learned)?;
    let text = trace_in(rt.alloc(), 3, [1, 1, 2, 2, 1, 4, 4], ONE_WITHHELD)?;
    one_leaves(&rt, rt.alloc(), &text, Pacing::Learned)
}

/// The same as the first with eight notices.
const EIGHT_NOTICES: &str =
    "phase\nlane 0\nnew 0 0 1\nnew 0 1 2\nend\nphase\nturn\nturn 0 1 2 3 4 5 6 7\nlane 0\nclear 0 1\nnew 0 1 8\nend\ndone\n";

#[test]
fn four_pagers_answer_eight_notices_beside_two_markers(rt: HostRuntime) -> Result<(), Fail> {
    let text = trace(rt.alloc(), [1, 1, 2, 2, 1, 4, 3], EIGHT_NOTICES)?;
    let gate = Together::of(FOUR);
    let passed = run_marked(&rt, rt.alloc(), &text, 2, Pacing::SideBySide, &gate)?;
    same(&rt, passed.status, Status::Done);
    assert!(rt; passed.written.as_slice() == PRINTED.as_bytes());
    // The marking has one mark turn, and the lane is at its end then.
    same(&rt, passed.answers.len() as u64, 8);
    same(&rt, gate.answered.load(Ordering::SeqCst), 8);
    same(&rt, gate.come.load(Ordering::SeqCst), gate.all);
    same(&rt, gate.patience.given_up.load(Ordering::SeqCst), 0);
    Ok(())
}

/// Three superpages with an object each, of which the third is garbage, and then one of a fourth class that finds none: so cells are
/// collected, and each of two markers has a live object on a superpage of its share.
const FOUR_CLASSES: &str =
    "phase\nlane 0\nnew 0 0 1\nnew 0 1 2\nnew 0 2 8\nend\nphase\nlane 0\nclear 0 2\nnew 0 3 20\nend\ndone\n";

/// Keeps each of two markers at its first page until the other one has a page in its hands.
#[derive(Drop)]
struct BothInHand {
    first: AtomicU64,
    second: AtomicU64,
    patience: Patience,
}

impl Gate for BothInHand {
    fn at(&self, who: u32, point: u32) {
        if point != MARKER_IN_HAND {
            return;
        }
        if who == MARKER {
            self.first.fetch_add(1, Ordering::SeqCst);
            self.patience.keep_until(&self.second);
        } else if who == MARKER + 1 {
            self.second.fetch_add(1, Ordering::SeqCst);
            self.patience.keep_until(&self.first);
        }
    }
}

#[test]
fn two_markers_have_a_page_each_in_their_hands(rt: HostRuntime) -> Result<(), Fail> {
    let text = trace(rt.alloc(), [1, 1, 4, 3, 1, 4, 5], FOUR_CLASSES)?;
    let gate = BothInHand {
        first: AtomicU64::new(0),
        second: AtomicU64::new(0),
        patience: Patience::new(),
    };
    let passed = run_marked(&rt, rt.alloc(), &text, 2, Pacing::SideBySide, &gate)?;
    same(&rt, passed.status, Status::Done);
    assert!(rt; passed.written.as_slice().ends_with(b"obj 0.4\ndone\n"));
    assert!(rt; gate.first.load(Ordering::SeqCst) > 0);
    assert!(rt; gate.second.load(Ordering::SeqCst) > 0);
    same(&rt, gate.patience.given_up.load(Ordering::SeqCst), 0);
    Ok(())
}
