//! Turns that withhold frames: what they print, where their lines are refused, and how many frames they leave.

use crate::equal::same;
use crate::shown::shows;
use bc_cli::{OpenGate, Outcome, Status};
use bc_engine::{Engine, Opened};
use bc_io::MemSource;
use bc_trace::Cause;
use program_workshop::{
    FOUR_FRAMES, Paper, chain, chain_printed, linked, links, repeated, run_between, run_past,
    trace_in, withheld_chain,
};
use std::alloc::{AllocError, Global};
use std::process::Abort;
use std::test::Fail;
use std::thread::Threads;

#[test]
fn a_chain_on_twenty_pages_prints_the_same_while_turns_withhold_frames(
    rt: HostRuntime,
) -> Result<(), Fail> {
    let alloc = rt.alloc();
    let output = chain_printed(alloc)?;
    for workers in ["1", "4"] {
        let input = withheld_chain(alloc, "turn -2\nturn +1 0\n")?;
        let end = (Status::Done, true);
        shows(
            &rt,
            alloc,
            &["run", "--workers", workers],
            input,
            end,
            &output,
        );
    }
    Ok(())
}

#[test]
fn it_prints_the_same_where_each_turn_is_at_a_table(rt: HostRuntime) -> Result<(), Fail> {
    let alloc = rt.alloc();
    let lines = chain(alloc, "turn -2\nturn +1 0\n")?;
    let text = trace_in(alloc, 3, FOUR_FRAMES, &lines)?;
    let passed = run_past(&rt, alloc, &text, &OpenGate)?;
    same(&rt, passed.status, Status::Done);
    let output = chain_printed(alloc)?;
    assert!(rt; passed.written.as_slice() == output.as_bytes());
    Ok(())
}

/// Lines of turns that are refused, which line is, and why. Two frames may be withheld, and a phase begins with none.
const REFUSED: [(&str, u32, Cause); 13] = [
    ("turn -3\nturn +1 0\n", 10, Cause::Frames),
    ("turn +1\nturn +1 0\n", 10, Cause::Frames),
    ("turn -2\nturn -1\n", 11, Cause::Frames),
    ("turn -2\nturn +2\nturn +1\n", 12, Cause::Frames),
    ("turn -16640\n", 10, Cause::Frames),
    ("turn -0\nturn +1 0\n", 10, Cause::Range),
    ("turn +0\n", 10, Cause::Range),
    ("turn -16641\n", 10, Cause::Range),
    ("turn -3 4294967296\n", 10, Cause::Range),
    ("turn -\nturn +1 0\n", 10, Cause::Number),
    ("turn -02\n", 10, Cause::Number),
    ("turn -9223372036854775808\n", 10, Cause::Number),
    ("turn 0 -1\n", 10, Cause::Number),
];

#[test]
fn a_turn_that_withholds_too_much_or_returns_too_much_is_refused(
    rt: HostRuntime,
) -> Result<(), Fail> {
    for (turns, line, cause) in REFUSED {
        let input = withheld_chain(rt.alloc(), turns)?;
        let end = (Status::BadTrace { line, cause }, false);
        shows(&rt, rt.alloc(), &["run"], input, end, "");
    }
    Ok(())
}

/// Shows that a phase with this line of a turn is refused in this version by this cause, or, where there is none, that it is done.
fn shows_line<R: Threads + Sync + Abort>(
    rt: &R,
    alloc: Global,
    version: u32,
    turn: &str,
    cause: Option<Cause>,
) -> Result<(), AllocError> {
    let lines = format!(in alloc; "phase\n{turn}\nlane 0\nend\ndone\n")?;
    let input = trace_in(alloc, version, FOUR_FRAMES, &lines)?.into_bytes();
    let (end, output) = match cause {
        Some(cause) => ((Status::BadTrace { line: 10, cause }, false), ""),
        None => ((Status::Done, true), "phase 1\nlane 0\ndone\n"),
    };
    shows(rt, alloc, &["run"], input, end, output);
    Ok(())
}

/// Before version 3 an operand with a sign is no number, and counts as a hint.
#[test]
fn a_sign_is_known_from_version_3_on(rt: HostRuntime) -> Result<(), Fail> {
    let alloc = rt.alloc();
    let hints = repeated(alloc, " 0", 64)?;
    let full = format!(in alloc; "turn -1{hints}")?;
    let over = format!(in alloc; "turn -1 0{hints}")?;
    for version in [1, 2] {
        shows_line(&rt, alloc, version, "turn -1", Some(Cause::Number))?;
        shows_line(&rt, alloc, version, "turn -0", Some(Cause::Number))?;
        shows_line(&rt, alloc, version, &full, Some(Cause::Form))?;
    }
    shows_line(&rt, alloc, 3, "turn -1", None)?;
    shows_line(&rt, alloc, 3, &full, None)?;
    shows_line(&rt, alloc, 3, &over, Some(Cause::Form))?;
    Ok(())
}

/// What a run left of its heap, and what it wrote.
#[derive(Drop)]
struct Left {
    status: Status,
    written: Vec<u8>,
    /// How many frames pages may use: all but those of the nurseries and those that are withheld.
    page_frames: Option<u32>,
    free: u32,
    /// How many pages left memory for the store.
    departures: u64,
}

/// Runs a trace of version 3 with this header and these lines after it.
fn run_budgeted<R: Threads + Sync>(
    rt: &R,
    alloc: Global,
    numbers: [u32; 7],
    lines: &str,
) -> Result<Left, AllocError> {
    let input = trace_in(alloc, 3, numbers, lines)?.into_bytes();
    let mut source = MemSource::new(input, 4096, Vec::new(alloc));
    let mut sink = Paper::new(alloc);
    let outcome = run_between(rt, alloc, &["run"], &mut source, &mut sink, &OpenGate);
    let (page_frames, free, departures) = match &outcome.heap {
        Some(engine) => frames_of(engine),
        None => (None, 0, 0),
    };
    Ok(Left {
        status: outcome.status,
        written: sink.into_bytes(),
        page_frames,
        free,
        departures,
    })
}

/// How many frames the pages of a heap may use, how many of them are free, and how many pages left.
fn frames_of(engine: &Engine) -> (Option<u32>, u32, u64) {
    let space = &engine.heap().space;
    (
        Some(space.page_frames()),
        space.free_frames(),
        space.departures(),
    )
}

/// Objects on three pages, of five that may be in memory. Then, with this line or with none, a turn that looks at none.
fn three_pages(alloc: Global, turn: &str) -> Result<String, AllocError> {
    format!(in alloc;
        "phase\nlane 0\nnew 0 0 1\nnew 0 1 3\nnew 0 2 7\nend\nphase\n{turn}lane 0\nclear 0 1\nend\ndone\n"
    )
}

/// Six frames, one of them the nursery's, for objects of three classes.
const SIX_FRAMES: [u32; 7] = [1, 1, 3, 3, 1, 4, 6];

/// A page leaves for the frames that a turn withholds, and after the phase they are free again.
#[test]
fn a_page_leaves_for_frames_that_are_free_again_after_the_phase(
    rt: HostRuntime,
) -> Result<(), Fail> {
    let alloc = rt.alloc();
    for (turn, departures, free) in [("turn\n", 0, 2), ("turn -2\n", 0, 2), ("turn -3\n", 1, 3)] {
        let lines = three_pages(alloc, turn)?;
        let left = run_budgeted(&rt, alloc, SIX_FRAMES, &lines)?;
        same(&rt, left.status, Status::Done);
        same(&rt, left.departures, departures);
        same(&rt, left.free, free);
        same(&rt, left.page_frames, Some(5));
        assert!(rt;
            left.written
                .as_slice()
                .ends_with(b"phase 2\nlane 0\nok\ndone\n")
        );
    }
    Ok(())
}

/// Where the heap is too small the frames of the turn stay withheld, and all that is printed is what other budgets print.
#[test]
fn a_heap_that_is_too_small_ends_with_the_frames_of_its_turn(rt: HostRuntime) -> Result<(), Fail> {
    let alloc = rt.alloc();
    let news = links(alloc, 1025)?;
    let replies = linked(alloc, 1025)?;
    let output = format!(in alloc; "phase 1\nlane 0\nobj 0.1\nok\n{replies}out of heap 2\n")?;
    for (turn, page_frames) in [("turn", 4), ("turn -2", 2)] {
        let lines = format!(in alloc;
            "phase\n{turn}\nlane 0\nnew 0 0 1\ncopy 0 0 0 1\n{news}end\ndone\n"
        )?;
        let left = run_budgeted(&rt, alloc, [1, 1, 2, 1, 1, 4, 5], &lines)?;
        same(&rt, left.status, Status::OutOfHeap { need: 2 });
        assert!(rt; left.written.as_slice() == output.as_bytes());
        same(&rt, left.page_frames, Some(page_frames));
    }
    Ok(())
}

/// The turns of a trace's last phase, as the engine lists them, and how many answers to its notices there are.
fn turns_listed<R: Threads + Sync>(
    rt: &R,
    alloc: Global,
    numbers: [u32; 7],
    lines: &str,
) -> Result<(Vec<Opened>, usize), AllocError> {
    let input = trace_in(alloc, 3, numbers, lines)?.into_bytes();
    let mut source = MemSource::new(input, 4096, Vec::new(alloc));
    let mut sink = Paper::new(alloc);
    let outcome = run_between(rt, alloc, &["run"], &mut source, &mut sink, &OpenGate);
    turns_of(alloc, &outcome)
}

/// The same of a run that ended.
fn turns_of(alloc: Global, outcome: &Outcome) -> Result<(Vec<Opened>, usize), AllocError> {
    match &outcome.heap {
        Some(engine) => {
            let opened = engine.opened().to_vec(alloc)?;
            Ok((opened, engine.answers().len()))
        }
        None => Ok((Vec::new(alloc), 0)),
    }
}

/// A phase of one turn is listed with the frames of its line, and those of the phase before are gone.
#[test]
fn the_engine_lists_the_turns_of_the_latest_phase(rt: HostRuntime) -> Result<(), Fail> {
    let alloc = rt.alloc();
    for (turn, withheld) in [
        ("", 0),
        ("turn 0\n", 0),
        ("turn -1\n", 1),
        ("turn -2 7\n", 2),
    ] {
        let lines = three_pages(alloc, turn)?;
        let (opened, _) = turns_listed(&rt, alloc, SIX_FRAMES, &lines)?;
        assert!(rt; opened.as_slice() == [Opened { withheld, marks: 0 }].as_slice());
    }
    Ok(())
}

/// Shows that the turns of this trace's last phase use two lines by turns, of which the first withholds two frames, and the second one and has a
/// notice: each turn of the lanes with an even number of turns before it has two, and every second turn an answer. It gives how many turns were
/// mark turns.
fn marks_in_turn<R: Threads + Sync + Abort>(
    rt: &R,
    alloc: Global,
    lines: &str,
) -> Result<u64, AllocError> {
    let (opened, answers) = turns_listed(rt, alloc, FOUR_FRAMES, lines)?;
    let mut turns = 0u64;
    let mut marks = 0u64;
    for turn in &opened {
        let withheld = if turns % 2 == 0 { 2 } else { 1 };
        same(rt, turn.withheld, withheld);
        turns = turns.saturating_add(turn.marks).saturating_add(1);
        marks = marks.saturating_add(turn.marks);
    }
    assert!(rt; turns > 1);
    same(rt, answers as u64, turns / 2);
    Ok(marks)
}

/// Turns of the lanes use the lines in order in a phase that is done, and so do the mark turns of one that ends where the heap is too small.
#[test]
fn turns_of_lanes_and_of_marks_use_the_lines_in_order(rt: HostRuntime) -> Result<(), Fail> {
    let alloc = rt.alloc();
    let turns = "turn -2\nturn +1 0\n";
    let lines = chain(alloc, turns)?;
    marks_in_turn(&rt, alloc, &lines)?;
    let news = links(alloc, 6000)?;
    let lines = format!(in alloc;
        "phase\n{turns}lane 0\nnew 0 0 1\ncopy 0 0 0 1\n{news}end\ndone\n"
    )?;
    let marks = marks_in_turn(&rt, alloc, &lines)?;
    assert!(rt; marks > 0);
    Ok(())
}
