//! Traces that fill their heap, and what they print.

use crate::shown::{shows, shows_done};
use bc_cli::Status;
use program_workshop::{
    CUT_PRINTED, CUT_SHORT, SMALL, TWO_FRAMES, TWO_LANES, chain, chain_printed, linked, links,
    repeated, trace_in,
};
use std::alloc::{AllocError, Global};
use std::process::Abort;
use std::test::Fail;
use std::thread::Threads;

/// Shows that `run` over this header and these lines after it ends out of heap by this need, in each version of the language, and what it
/// writes.
fn shows_need<R: Threads + Sync + Abort>(
    rt: &R,
    alloc: Global,
    numbers: [u32; 7],
    lines: &str,
    output: &str,
    need: u64,
) -> Result<(), AllocError> {
    for version in 1..=3 {
        let input = trace_in(alloc, version, numbers, lines)?.into_bytes();
        let end = (Status::OutOfHeap { need }, true);
        shows(rt, alloc, &["run"], input, end, output);
    }
    Ok(())
}

/// The lines of one phase that makes a chain of so many objects, and what it prints before its last line.
fn filled(alloc: Global, objects: u32) -> Result<(String, String), AllocError> {
    let news = links(alloc, objects)?;
    let replies = linked(alloc, objects)?;
    Ok((
        format!(in alloc; "phase\nlane 0\nnew 0 0 1\ncopy 0 0 0 1\n{news}end\ndone\n")?,
        format!(in alloc; "phase 1\nlane 0\nobj 0.1\nok\n{replies}")?,
    ))
}

/// What 600 phases print that make two objects and link them in a cycle.
fn cycles(alloc: Global) -> Result<String, AllocError> {
    let mut output = String::new(alloc);
    for number in 1..=600u32 {
        let first = number * 2 - 1;
        let second = number * 2;
        let replies = format!(in alloc;
            "phase {number}\nlane 0\nobj 0.{first}\nobj 0.{second}\nok\nok\n"
        )?;
        output.push_str(&replies)?;
    }
    output.push_str("done\n")?;
    Ok(output)
}

#[test]
fn cycles_of_two_that_are_dropped_in_600_phases_leave_room_for_the_next(
    rt: HostRuntime,
) -> Result<(), Fail> {
    let phase = "phase\nlane 0\nnew 0 0 1\nnew 0 1 1\nlink 0 0 0 0 1\nlink 0 1 0 0 0\nend\n";
    let mut lines = repeated(rt.alloc(), phase, 600)?;
    lines.push_str("done\n")?;
    let output = cycles(rt.alloc())?;
    shows_done(&rt, rt.alloc(), SMALL, &lines, &output)?;
    Ok(())
}

#[test]
fn a_chain_of_1024_objects_fills_a_superpage_and_is_done(rt: HostRuntime) -> Result<(), Fail> {
    let (lines, mut output) = filled(rt.alloc(), 1024)?;
    output.push_str("done\n")?;
    shows_done(&rt, rt.alloc(), SMALL, &lines, &output)?;
    Ok(())
}

#[test]
fn a_chain_of_one_object_more_ends_for_want_of_a_second_superpage(
    rt: HostRuntime,
) -> Result<(), Fail> {
    let (lines, mut output) = filled(rt.alloc(), 1025)?;
    output.push_str("out of heap 2\n")?;
    shows_need(&rt, rt.alloc(), SMALL, &lines, &output, 2)?;
    Ok(())
}

#[test]
fn an_end_in_the_third_phase_in_the_midst_of_lane_1_tells_the_replies_of_both_lanes_before_it(
    rt: HostRuntime,
) -> Result<(), Fail> {
    let [first, second, third] = CUT_PRINTED;
    let output = format!(in rt.alloc(); "{first}{second}{third}")?;
    shows_need(&rt, rt.alloc(), TWO_LANES, CUT_SHORT, &output, 3)?;
    Ok(())
}

/// What so many phases print that make an object.
fn object_a_phase(alloc: Global, phases: u32) -> Result<String, AllocError> {
    let mut output = String::new(alloc);
    for number in 1..=phases {
        let replies = format!(in alloc; "phase {number}\nlane 0\nobj 0.{number}\n")?;
        output.push_str(&replies)?;
    }
    output.push_str("done\n")?;
    Ok(output)
}

#[test]
fn three_thousand_phases_are_all_done(rt: HostRuntime) -> Result<(), Fail> {
    let mut lines = repeated(rt.alloc(), "phase\nlane 0\nnew 0 0 0\nend\n", 3000)?;
    lines.push_str("done\n")?;
    let output = object_a_phase(rt.alloc(), 3000)?;
    shows_done(&rt, rt.alloc(), SMALL, &lines, &output)?;
    Ok(())
}

#[test]
fn objects_of_two_domains_take_a_superpage_each(rt: HostRuntime) -> Result<(), Fail> {
    let lines = "phase\nlane 0\nnew 0 0 0\nnew 1 0 0\nend\ndone\n";
    let output = "phase 1\nlane 0\nobj 0.1\nobj 0.2\nout of heap 2\n";
    shows_need(&rt, rt.alloc(), [1, 2, 1, 1, 1, 4, 3], lines, output, 2)?;
    Ok(())
}

#[test]
fn cells_of_a_dropped_chain_make_room_for_another_size_class(rt: HostRuntime) -> Result<(), Fail> {
    let news = links(rt.alloc(), 1200)?;
    let replies = linked(rt.alloc(), 1200)?;
    let lines = format!(in rt.alloc();
        "phase\nlane 0\nnew 0 0 1\ncopy 0 0 0 3\ncopy 0 0 0 1\n{news}end\nphase\nlane 0\ncut 0 0 0\nnew 0 2 2\nend\nphase\nlane 0\nsame 0 0 0 1\nwho 0 3\nwho 0 0\nend\ndone\n"
    )?;
    let output = format!(in rt.alloc();
        "phase 1\nlane 0\nobj 0.1\nok\nok\n{replies}phase 2\nlane 0\nok\nobj 0.1201\nphase 3\nlane 0\nyes\nobj 0.1\nobj 0.1200\ndone\n"
    )?;
    shows_done(&rt, rt.alloc(), [1, 1, 4, 2, 1, 4, 9], &lines, &output)?;
    Ok(())
}

#[test]
fn a_chain_on_twenty_pages_prints_the_same_with_a_notice_in_each_turn_and_without(
    rt: HostRuntime,
) -> Result<(), Fail> {
    let output = chain_printed(rt.alloc())?;
    let lines = chain(rt.alloc(), "turn 0\n")?;
    shows_done(&rt, rt.alloc(), TWO_FRAMES, &lines, &output)?;
    let lines = chain(rt.alloc(), "")?;
    shows_done(&rt, rt.alloc(), TWO_FRAMES, &lines, &output)?;
    Ok(())
}

#[test]
fn a_superpage_with_a_page_that_is_gone_is_emptied_by_the_fail_safe(
    rt: HostRuntime,
) -> Result<(), Fail> {
    let news = links(rt.alloc(), 600)?;
    let lines = format!(in rt.alloc();
        "phase\nlane 0\nnew 0 0 1\ncopy 0 0 0 1\n{news}end\nphase\nlane 0\nclear 0 0\nclear 0 1\nnew 0 0 2\nend\ndone\n"
    )?;
    let replies = linked(rt.alloc(), 600)?;
    let output = format!(in rt.alloc();
        "phase 1\nlane 0\nobj 0.1\nok\n{replies}phase 2\nlane 0\nok\nok\nobj 0.601\ndone\n"
    )?;
    shows_done(&rt, rt.alloc(), SMALL, &lines, &output)?;
    Ok(())
}

/// Headers, phases after them, and what they print: pages that leave for notices, one that is remembered, notices that all are
/// declined, and a page that comes back while every other one is remembered.
const WITH_NOTICES: [([u32; 7], &str, &str); 4] = [
    (
        SMALL,
        "phase\nlane 0\nnew 0 0 1\nend\nphase\nturn 0 0\nlane 0\nnew 0 1 0\nlink 0 0 0 0 1\nload 0 0 0 0 1\nwho 0 1\nend\nphase\nlane 0\nwho 0 1\nend\ndone\n",
        "phase 1\nlane 0\nobj 0.1\nphase 2\nlane 0\nobj 0.2\nok\nref\nobj 0.2\nphase 3\nlane 0\nobj 0.2\ndone\n",
    ),
    (
        SMALL,
        "phase\nturn 0 1 2 3 0 1 2 3\nlane 0\nnew 0 0 0\nend\ndone\n",
        "phase 1\nlane 0\nobj 0.1\ndone\n",
    ),
    (
        [1, 1, 4, 3, 1, 4, 3],
        "phase\nlane 0\nnew 0 0 1\nnew 0 1 3\nnew 0 2 7\nend\nphase\nlane 0\nwho 0 0\nwho 0 1\nnew 0 3 0\nlink 0 0 0 0 3\nlink 0 1 0 0 3\nwho 0 2\nload 0 0 0 0 3\nwho 0 3\nend\ndone\n",
        "phase 1\nlane 0\nobj 0.1\nobj 0.2\nobj 0.3\nphase 2\nlane 0\nobj 0.1\nobj 0.2\nobj 0.4\nok\nok\nobj 0.3\nref\nobj 0.4\ndone\n",
    ),
    (
        SMALL,
        "phase\nturn 0 1 2 3\nturn\nlane 0\nnew 0 0 1\nset 0 0 0 5\nend\nphase\nturn 3 2 1 0\nlane 0\nload 0 0 0 0 1\nend\nphase\nlane 0\nwho 0 1\nlen 0 0\nend\ndone\n",
        "phase 1\nlane 0\nobj 0.1\nok\nphase 2\nlane 0\nnum 5\nphase 3\nlane 0\nnum 5\nlen 1\ndone\n",
    ),
];

#[test]
fn notices_and_pages_that_come_back_change_no_reply(rt: HostRuntime) -> Result<(), Fail> {
    for (numbers, lines, output) in WITH_NOTICES {
        shows_done(&rt, rt.alloc(), numbers, lines, output)?;
    }
    Ok(())
}
