//! Domains that are frozen: what every lane reads and none writes, and where a freeze is no word.

ghost use Rattle.std.specs.Prelude.{◌≤◌};

use crate::equal::same;
use crate::shown::shows;
use bc_cli::{OpenGate, Status};
use bc_engine::Pacing;
use bc_trace::Cause;
use program_workshop::{
    FROZEN, READ, TWO_LANES, followed_to_the_end, linked, repeated, run_marked, run_past, trace_in,
};
use std::alloc::{AllocError, Global};
use std::process::Abort;
use std::test::Fail;
use std::thread::Threads;

#[test]
fn a_frozen_domain_is_read_by_every_lane_and_written_by_none(rt: HostRuntime) -> Result<(), Fail> {
    let [first, second, third] = READ;
    let output = format!(in rt.alloc(); "{first}{second}{third}done\n")?;
    for version in [2, 3] {
        let input = trace_in(rt.alloc(), version, TWO_LANES, FROZEN)?.into_bytes();
        let end = (Status::Done, true);
        shows(&rt, rt.alloc(), &["run"], input, end, &output);
    }
    Ok(())
}

#[test]
fn in_version_1_a_freeze_is_no_word(rt: HostRuntime) -> Result<(), Fail> {
    let input = trace_in(rt.alloc(), 1, TWO_LANES, FROZEN)?.into_bytes();
    let (line, cause) = (14, Cause::Word);
    let end = (Status::BadTrace { line, cause }, false);
    shows(&rt, rt.alloc(), &["run"], input, end, "");
    Ok(())
}

#[test]
fn a_freeze_of_a_domain_that_there_is_not_is_refused(rt: HostRuntime) -> Result<(), Fail> {
    let lines = "phase\nlane 0\nnew 0 0 1\nset 0 0 0 7\nlane 1\nfreeze 2\nend\ndone\n";
    let input = trace_in(rt.alloc(), 2, TWO_LANES, lines)?.into_bytes();
    let (line, cause) = (14, Cause::Range);
    let end = (Status::BadTrace { line, cause }, false);
    shows(&rt, rt.alloc(), &["run"], input, end, "");
    Ok(())
}

/// Gives and freezes are done in their order: the last one says who holds a domain.
#[test]
fn of_gives_and_freezes_of_a_domain_the_last_one_holds(rt: HostRuntime) -> Result<(), Fail> {
    let lines =
        "phase\nlane 0\nlane 1\nfreeze 0\ngive 0 1\ngive 1 0\nfreeze 1\nend\nphase\nlane 0\nwho 0 0\nwho 1 0\nclear 1 0\nlane 1\nclear 0 0\nwho 1 0\nclear 1 0\nend\ndone\n";
    let output =
        "phase 1\nlane 0\nlane 1\nphase 2\nlane 0\nforeign\nnil\nfrozen\nlane 1\nok\nnil\nfrozen\ndone\n";
    let input = trace_in(rt.alloc(), 2, TWO_LANES, lines)?.into_bytes();
    let end = (Status::Done, true);
    shows(&rt, rt.alloc(), &["run"], input, end, output);
    Ok(())
}

/// Where each turn is at a table, and each lane on a thread, it prints the same.
#[test]
fn a_frozen_domain_prints_the_same_where_each_turn_is_at_a_table(
    rt: HostRuntime,
) -> Result<(), Fail> {
    let text = trace_in(rt.alloc(), 2, TWO_LANES, FROZEN)?;
    let passed = run_past(&rt, rt.alloc(), &text, &OpenGate)?;
    let [first, second, third] = READ;
    let output = format!(in rt.alloc(); "{first}{second}{third}done\n")?;
    same(&rt, passed.status, Status::Done);
    same(&rt, passed.written.as_slice(), output.as_bytes());
    Ok(())
}

/// How many objects a chain has that lies on six pages.
const CHAIN: u32 = 1_500;

/// A phase in which lane 0 makes a chain in a domain that is frozen then, one of no operations, and one in which both lanes follow the chain from
/// its newest object to its end. The phases after the first have these lines of turns.
fn frozen_chain(alloc: Global, turns: &str) -> Result<String, AllocError> {
    let news = repeated(
        alloc,
        "new 2 1 1\nlink 2 1 0 2 0\ncopy 2 1 2 0\n",
        CHAIN - 1,
    )?;
    let first = repeated(alloc, "load 0 0 0 0 0\n", CHAIN)?;
    let second = repeated(alloc, "load 1 0 0 1 0\n", CHAIN)?;
    format!(in alloc;
        "phase\nlane 0\nnew 2 0 1\n{news}lane 1\nfreeze 2\nend\nphase\n{turns}lane 0\nlane 1\nend\nphase\n{turns}lane 0\ncopy 2 0 0 0\n{first}lane 1\ncopy 2 0 1 0\n{second}end\ndone\n"
    )
}

/// What they print.
fn frozen_chain_printed(alloc: Global) -> Result<String, AllocError> {
    let replies = linked(alloc, CHAIN)?;
    let loads = followed_to_the_end(alloc, CHAIN)?;
    format!(in alloc;
        "phase 1\nlane 0\nobj 0.1\n{replies}lane 1\nphase 2\nlane 0\nlane 1\nphase 3\nlane 0\nok\n{loads}lane 1\nok\n{loads}done\n"
    )
}

/// Shows what is printed where each turn is at a table and two frames beside the nurseries' are all for the chain's six pages, which leave for
/// notices; and that pages come back at tables.
fn shows_frozen_chain<R: Threads + Sync + Abort>(
    rt: &R,
    alloc: Global,
    workers: u32,
) -> Result<(), AllocError>
    requires { (1 ≤ workers) × (workers ≤ 16) }
{
    let lines = frozen_chain(alloc, "turn 0 1 2 3 4 5\nturn 5 4\nturn 2\n")?;
    let text = trace_in(alloc, 2, [2, 3, 2, 2, 1, 4, 4], &lines)?;
    let passed = run_marked(rt, alloc, &text, workers, Pacing::SideBySide, &OpenGate)?;
    same(rt, passed.status, Status::Done);
    let output = frozen_chain_printed(alloc)?;
    assert!(rt; passed.written.as_slice() == output.as_bytes());
    assert!(rt;
        passed
            .counters
            .is_some_and(|counters| counters.reads.turns > 0)
    );
    Ok(())
}

#[test]
fn pages_of_a_frozen_domain_that_leave_and_come_back_at_tables_change_no_reply(
    rt: HostRuntime,
) -> Result<(), Fail> {
    shows_frozen_chain(&rt, rt.alloc(), 1)?;
    shows_frozen_chain(&rt, rt.alloc(), 4)?;
    Ok(())
}

/// What the chain prints without notices, and with a frame for each page.
#[test]
fn a_frozen_chain_that_stays_in_memory_prints_the_same(rt: HostRuntime) -> Result<(), Fail> {
    let lines = frozen_chain(rt.alloc(), "")?;
    let output = frozen_chain_printed(rt.alloc())?;
    for version in [2, 3] {
        let input = trace_in(rt.alloc(), version, [2, 3, 2, 2, 1, 4, 10], &lines)?.into_bytes();
        let end = (Status::Done, true);
        shows(&rt, rt.alloc(), &["run"], input, end, &output);
    }
    Ok(())
}
