//! The calls of an engine that a run doesn't make: an operation by itself, a give or a freeze before any phase, and what it counted.

use crate::equal::same;
use bc_cli::OpenGate;
use bc_engine::{Engine, Pacing};
use bc_model::{Birth, Op, Reply, Setup, Slot};
use program_workshop::{run_paced, trace};
use std::test::Fail;

const SETUP: Setup = Setup {
    lanes: 2,
    domains: 2,
    slots: 1,
    superpages: 1,
    nursery: 1,
    buffer: 4,
    frames: 4,
};

#[test]
fn after_a_give_the_new_holder_makes_an_object(rt: HostRuntime) -> Result<(), Fail> {
    let mut engine = Engine::open(rt.alloc(), &SETUP, 1)?;
    engine.keep_log(4)?;
    engine.facts();
    engine.give(1, 0);
    engine.facts();
    let slot = Slot { domain: 1, slot: 0 };
    let reply = engine.serial(0, &Op::New(slot, 1));
    same(&rt, reply, Reply::Obj(Birth { lane: 0, serial: 1 }));
    assert!(rt; engine.log().is_empty(), "only phases are written down");
    Ok(())
}

#[test]
fn after_a_freeze_another_lane_reads_and_the_old_holder_writes_no_more(
    rt: HostRuntime,
) -> Result<(), Fail> {
    let mut engine = Engine::open(rt.alloc(), &SETUP, 1)?;
    engine.freeze(1);
    engine.facts();
    let slot = Slot { domain: 1, slot: 0 };
    let other = engine.serial(0, &Op::Who(slot));
    same(&rt, other, Reply::Nil);
    let holder = engine.serial(1, &Op::New(slot, 1));
    same(&rt, holder, Reply::Frozen);
    Ok(())
}

/// Three objects on a page each, of which two are gone, are looked at and changed; then one page is given up for a notice and comes back.
const THREE_PAGES: &str =
    "phase\nlane 0\nnew 0 0 1\nnew 0 1 3\nnew 0 2 7\nend\nphase\nlane 0\nwho 0 0\nwho 0 1\nnew 0 3 0\nlink 0 0 0 0 3\n\
    link 0 1 0 0 3\nwho 0 2\nload 0 0 0 0 3\nwho 0 3\nend\nphase\nturn 0 0 0\nlane 0\nclear 0 3\nend\nphase\nlane 0\nwho 0 1\nend\ndone\n";

#[test]
fn counters_tell_turns_minor_collections_and_reads(rt: HostRuntime) -> Result<(), Fail> {
    let text = trace(rt.alloc(), [1, 1, 4, 3, 1, 4, 3], THREE_PAGES)?;
    let passed = run_paced(&rt, rt.alloc(), &text, Pacing::Plain, &OpenGate)?;
    let Some(counters) = passed.counters else {
        assert!(rt; false, "no heap is handed back");
        return Ok(());
    };
    same(&rt, (counters.turns, counters.early), (5, 0));
    same(
        &rt,
        (
            counters.promotions,
            counters.collections,
            counters.failsafes,
        ),
        (5, 0, 0),
    );
    same(
        &rt,
        (
            counters.reads.turns,
            counters.reads.alone,
            counters.reads.collections,
        ),
        (3, 1, 0),
    );
    let left = counters.departures;
    same(
        &rt,
        (left.turns, left.alone, left.collections, left.notices),
        (2, 1, 1, 2),
    );
    Ok(())
}
