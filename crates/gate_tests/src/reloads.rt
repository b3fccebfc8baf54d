//! Lanes bring pages back that are gone, and go on in the same turn.

use crate::equal::same;
use crate::keeping::{Counting, Patience};
use crate::objects::{big_objects, first_births};
use crate::points::{AFTER, ANSWERED, BEFORE, PAGER};
use bc_cli::{Gate, Status};
use bc_engine::Answer;
use program_workshop::{SMALL, TWO_FRAMES, chain, chain_printed, run_past, trace};
use std::sync::atomic::{AtomicU64, Ordering};
use std::test::Fail;

/// Keeps lane 0 before its second operation until the pager has answered, and counts the operations that it does in turns.
#[derive(Drop)]
struct Behind {
    come: AtomicU64,
    answered: AtomicU64,
    done: AtomicU64,
    patience: Patience,
}

impl Gate for Behind {
    fn at(&self, who: u32, point: u32) {
        match (who, point) {
            (0, BEFORE) => {
                if self.come.fetch_add(1, Ordering::SeqCst) == 1 {
                    self.patience.keep_until(&self.answered);
                }
            }
            (0, AFTER) => {
                self.done.fetch_add(1, Ordering::SeqCst);
            }
            (PAGER, ANSWERED) => {
                self.answered.fetch_add(1, Ordering::SeqCst);
            }
            _ => {}
        }
    }
}

/// A phase makes an object, and the next one looks at it twice, in a turn with a notice.
const LOOKED_AT_TWICE: &str =
    "phase\nlane 0\nnew 0 0 1\nend\nphase\nturn 0\nlane 0\nlen 0 0\nwho 0 0\nend\ndone\n";

#[test]
fn a_page_that_a_pager_evicted_comes_back_in_the_same_turn(rt: HostRuntime) -> Result<(), Fail> {
    let text = trace(rt.alloc(), SMALL, LOOKED_AT_TWICE)?;
    let gate = Behind {
        come: AtomicU64::new(0),
        answered: AtomicU64::new(0),
        done: AtomicU64::new(0),
        patience: Patience::new(),
    };
    let passed = run_past(&rt, rt.alloc(), &text, &gate)?;
    same(&rt, passed.status, Status::Done);
    let output = "phase 1\nlane 0\nobj 0.1\nphase 2\nlane 0\nlen 1\nobj 0.1\ndone\n";
    assert!(rt; passed.written.as_slice() == output.as_bytes());
    assert!(rt; passed.answers.as_slice() == [Answer::Evicted(0)].as_slice());
    same(&rt, gate.done.load(Ordering::SeqCst), 3);
    same(&rt, gate.patience.given_up.load(Ordering::SeqCst), 0);
    Ok(())
}

#[test]
fn all_operations_on_a_chain_but_those_that_find_the_chunk_full_are_done_in_turns(
    rt: HostRuntime,
) -> Result<(), Fail> {
    let lines = chain(rt.alloc(), "")?;
    let text = trace(rt.alloc(), TWO_FRAMES, &lines)?;
    let gate = Counting {
        who: 0,
        point: AFTER,
        passes: AtomicU64::new(0),
    };
    let passed = run_past(&rt, rt.alloc(), &text, &gate)?;
    same(&rt, passed.status, Status::Done);
    let output = chain_printed(rt.alloc())?;
    assert!(rt; passed.written.as_slice() == output.as_bytes());
    // A chunk holds 256 such objects, and each one after so many is made between the turns.
    same(&rt, gate.passes.load(Ordering::SeqCst), 19_981);
    Ok(())
}

#[test]
fn a_lane_stops_at_a_page_that_is_gone_while_every_page_in_memory_is_remembered(
    rt: HostRuntime,
) -> Result<(), Fail> {
    let news = big_objects(rt.alloc(), 0, 9)?;
    let looks = "new 0 9 0\nlink 0 0 0 0 9\nlink 0 4 0 0 9\nwho 0 8\n";
    let lines = format!(in rt.alloc();
        "phase\nlane 0\n{news}end\nphase\nlane 0\n{looks}end\ndone\n"
    )?;
    let text = trace(rt.alloc(), [1, 1, 10, 2, 1, 4, 3], &lines)?;
    let gate = Counting {
        who: 0,
        point: AFTER,
        passes: AtomicU64::new(0),
    };
    let passed = run_past(&rt, rt.alloc(), &text, &gate)?;
    same(&rt, passed.status, Status::Done);
    let births = first_births(rt.alloc(), 0, 9)?;
    let output = format!(in rt.alloc();
        "phase 1\nlane 0\n{births}phase 2\nlane 0\nobj 0.10\nok\nok\nobj 0.9\ndone\n"
    )?;
    assert!(rt; passed.written.as_slice() == output.as_bytes());
    // Between the turns are made the two objects that find the chunk full, and there the last operation is done.
    same(&rt, gate.passes.load(Ordering::SeqCst), 10);
    Ok(())
}
