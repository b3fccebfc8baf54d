//! Lanes run side by side, and do nearly all of their operations so.

use crate::equal::same;
use crate::keeping::{Counting, Patience};
use crate::points::{AFTER, BEFORE};
use bc_cli::{Gate, Status};
use program_workshop::{ONE_SLOT_EACH, SMALL, repeated, run_past, trace};
use std::sync::atomic::{AtomicU64, Ordering};
use std::test::Fail;

#[test]
fn all_operations_but_those_that_find_the_chunk_full_are_done_in_turns(
    rt: HostRuntime,
) -> Result<(), Fail> {
    let news = repeated(rt.alloc(), "new 0 0 0\n", 10_000)?;
    let lines = format!(in rt.alloc(); "phase\nlane 0\n{news}end\ndone\n")?;
    let text = trace(rt.alloc(), SMALL, &lines)?;
    let gate = Counting {
        who: 0,
        point: AFTER,
        passes: AtomicU64::new(0),
    };
    let passed = run_past(&rt, rt.alloc(), &text, &gate)?;
    same(&rt, passed.status, Status::Done);
    assert!(rt; passed.written.as_slice().ends_with(b"obj 0.10000\ndone\n"));
    same(&rt, gate.passes.load(Ordering::SeqCst), 9_961);
    Ok(())
}

/// Keeps lane 0 before its first operation until lane 1 has done one, and lane 1 before its second one until lane 0 has done one.
#[derive(Drop)]
struct Crossing {
    begun_by_1: AtomicU64,
    done_by_0: AtomicU64,
    done_by_1: AtomicU64,
    patience: Patience,
}

impl Gate for Crossing {
    fn at(&self, who: u32, point: u32) {
        match (who, point) {
            (0, BEFORE) => self.patience.keep_until(&self.done_by_1),
            (1, BEFORE) => {
                if self.begun_by_1.fetch_add(1, Ordering::SeqCst) > 0 {
                    self.patience.keep_until(&self.done_by_0);
                }
            }
            (0, AFTER) => {
                self.done_by_0.fetch_add(1, Ordering::SeqCst);
            }
            (1, AFTER) => {
                self.done_by_1.fetch_add(1, Ordering::SeqCst);
            }
            _ => {}
        }
    }
}

#[test]
fn two_lanes_that_wait_for_each_other_in_both_orders_both_come_through(
    rt: HostRuntime,
) -> Result<(), Fail> {
    let lines = "phase\nlane 0\nnew 0 0 0\nlane 1\nnew 1 0 0\nwho 1 0\nend\ndone\n";
    let text = trace(rt.alloc(), ONE_SLOT_EACH, lines)?;
    let gate = Crossing {
        begun_by_1: AtomicU64::new(0),
        done_by_0: AtomicU64::new(0),
        done_by_1: AtomicU64::new(0),
        patience: Patience::new(),
    };
    let passed = run_past(&rt, rt.alloc(), &text, &gate)?;
    same(&rt, passed.status, Status::Done);
    let output = "phase 1\nlane 0\nobj 0.1\nlane 1\nobj 1.1\nobj 1.1\ndone\n";
    assert!(rt; passed.written.as_slice() == output.as_bytes());
    same(&rt, gate.done_by_0.load(Ordering::SeqCst), 1);
    same(&rt, gate.done_by_1.load(Ordering::SeqCst), 2);
    same(&rt, gate.patience.given_up.load(Ordering::SeqCst), 0);
    Ok(())
}
