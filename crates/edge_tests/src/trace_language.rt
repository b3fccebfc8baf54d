//! Texts from outside, read and written again, and each cause of a fault once.

use crate::equal::same;
use bc_churn::{Counts, churn_room, generate, put_churn};
use bc_model::{Birth, Change, Give, Op, Replies, Reply, Slot, Trace};
use bc_trace::{
    Cause, ReadTrace, TraceFault, need_room, phase_room, phase_text, put_need, put_phase, read,
    reply_line, write,
};
use std::alloc::{AllocError, Global};
use std::process::Abort;
use std::test::Fail;

/// The text of the first path, line by line.
const FIRST_PATH: [&str; 15] = [
    "bc-trace 1",
    "lanes 1",
    "domains 1",
    "slots 2",
    "superpages 1",
    "nursery 1",
    "buffer 4",
    "frames 3",
    "phase",
    "lane 0",
    "new 0 0 2",
    "set 0 0 1 7",
    "load 0 0 1 0 1",
    "end",
    "done",
];

/// A text of version 2, line by line, with a freeze.
const FROZEN: [&str; 17] = [
    "bc-trace 2",
    "lanes 2",
    "domains 2",
    "slots 2",
    "superpages 2",
    "nursery 1",
    "buffer 4",
    "frames 4",
    "phase",
    "lane 0",
    "new 0 0 1",
    "set 0 0 0 7",
    "lane 1",
    "freeze 0",
    "give 1 0",
    "end",
    "done",
];

/// A text of version 3, line by line, with turns that withhold and return frames. Two may be withheld at once.
const WITHHELD: [&str; 15] = [
    "bc-trace 3",
    "lanes 1",
    "domains 1",
    "slots 2",
    "superpages 5",
    "nursery 1",
    "buffer 4",
    "frames 5",
    "phase",
    "turn -2",
    "turn +1 0",
    "lane 0",
    "new 0 0 1",
    "end",
    "done",
];

/// The lines with another text for line `line`, which counts from 1, and `rest` after them.
fn with_line(
    alloc: Global,
    lines: &[&str],
    line: usize,
    text: &str,
    rest: &str,
) -> Result<Vec<u8>, AllocError> {
    let mut bytes = Vec::new(alloc);
    for (i, own) in lines.iter().enumerate() {
        let here = if i + 1 == line { text } else { *own };
        bytes.extend_from_slice(here.as_bytes())?;
        bytes.extend_from_slice(b"\n")?;
    }
    bytes.extend_from_slice(rest.as_bytes())?;
    Ok(bytes)
}

/// The first path with another text for line `line`, and `rest` after it.
fn changed(alloc: Global, line: usize, text: &str, rest: &str) -> Result<Vec<u8>, AllocError> {
    with_line(alloc, &FIRST_PATH, line, text, rest)
}

/// The fault of a text, which has one.
fn fault_of(rt: &impl Abort, alloc: Global, bytes: &[u8]) -> TraceFault {
    assert!(rt; bytes.len() < 10000);
    match read(alloc, bytes) {
        Err(ReadTrace::Fault(fault)) => fault,
        _ => rt.abort(),
    }
}

/// Shows that a text is refused at this line, by this cause. The note says which text it is.
fn refused(
    rt: &impl Abort,
    alloc: Global,
    bytes: &[u8],
    (line, cause): (usize, Cause),
    note: &str,
) {
    let fault = fault_of(rt, alloc, bytes);
    assert_eq!(rt; fault.line as usize, line, "{note}");
    assert_eq!(rt; fault.cause, cause, "{note}");
}

/// Shows that lines are refused at this line, by this cause, where line `line` has this text.
fn refused_with(
    rt: &impl Abort,
    alloc: Global,
    lines: &[&str],
    (line, text): (usize, &str),
    fault: (usize, Cause),
) -> Result<(), AllocError> {
    let bytes = with_line(alloc, lines, line, text, "")?;
    refused(rt, alloc, &bytes, fault, text);
    Ok(())
}

/// The trace that a text is.
fn trace_of(rt: &impl Abort, alloc: Global, bytes: &[u8]) -> Trace {
    assert!(rt; bytes.len() < 10000);
    match read(alloc, bytes) {
        Ok(trace) => trace,
        Err(_) => rt.panic("the text is a trace"),
    }
}

/// Shows that a text is a trace, which is written as that text.
fn is_written_again(rt: &impl Abort, alloc: Global, bytes: &[u8]) -> Result<(), AllocError> {
    assert!(rt; bytes.len() < 10000);
    match read(alloc, bytes) {
        Ok(trace) => same(rt, write(alloc, &trace)?.as_slice(), bytes),
        Err(_) => rt.panic("the text is a trace"),
    }
    Ok(())
}

#[test]
fn the_first_path_is_read_with_its_setup_and_its_one_phase(rt: HostRuntime) -> Result<(), Fail> {
    let bytes = changed(rt.alloc(), 0, "", "")?;
    same(&rt, bytes.len(), 137);
    let trace = trace_of(&rt, rt.alloc(), &bytes);
    same(&rt, trace.version, 1);
    same(&rt, trace.setup.slots, 2);
    same(&rt, trace.setup.frames, 3);
    same(&rt, trace.phases.len(), 1);
    Ok(())
}

#[test]
fn each_spoilt_line_is_refused_at_its_number_and_with_its_cause(
    rt: HostRuntime,
) -> Result<(), Fail> {
    for (line, text, cause) in [
        (1, "bc-trace 0", Cause::Range),
        (1, "bc-trace 4", Cause::Range),
        (1, "freeze 0", Cause::Word),
        (2, " lanes 1", Cause::Form),
        (2, "lanes 01", Cause::Number),
        (3, "slots 2", Cause::Order),
        (9, "phase\r", Cause::Form),
        (10, "lane 1", Cause::Range),
        (11, "newx 0 0 2", Cause::Word),
        (11, "new 0 0", Cause::Form),
        (11, "turn 0", Cause::Order),
        (12, "set 0 2 1 7", Cause::Range),
        (12, "set 0 0 127 7", Cause::Range),
        (12, "set 0 0 1 99999999999999999999", Cause::Number),
        (14, "freeze 0", Cause::Word),
    ] {
        let fault = (line, cause);
        refused_with(&rt, rt.alloc(), &FIRST_PATH, (line, text), fault)?;
    }
    Ok(())
}

#[test]
fn gives_and_freezes_are_read_in_their_order(rt: HostRuntime) -> Result<(), Fail> {
    let text =
        b"bc-trace 2\nlanes 2\ndomains 2\nslots 1\nsuperpages 1\nnursery 1\nbuffer 4\nframes 4\nphase\nlane 0\nlane 1\ngive 1 0\nfreeze 0\ngive 0 1\nfreeze 1\nend\ndone\n";
    let trace = trace_of(&rt, rt.alloc(), text);
    same(&rt, trace.version, 2);
    assert!(rt; trace.phases.len() == 1);
    let changes = &trace.phases[0].gives;
    assert!(rt; changes.len() == 4);
    assert!(rt; changes[0] == Change::Give(Give { domain: 1, lane: 0 }));
    assert!(rt; changes[1] == Change::Freeze(0));
    assert!(rt; changes[2] == Change::Give(Give { domain: 0, lane: 1 }));
    assert!(rt; changes[3] == Change::Freeze(1));
    is_written_again(&rt, rt.alloc(), text)?;
    Ok(())
}

#[test]
fn a_freeze_is_refused_in_version_1_and_where_a_give_would_be(rt: HostRuntime) -> Result<(), Fail> {
    for (line, text, fault, cause) in [
        (1, "bc-trace 1", 14, Cause::Word),
        (9, "freeze 0", 9, Cause::Order),
        (10, "freeze 0", 10, Cause::Order),
        (13, "freeze 0", 13, Cause::Order),
        (14, "freeze", 14, Cause::Form),
        (14, "freeze 0 0", 14, Cause::Form),
        (14, "freeze 00", 14, Cause::Number),
        (14, "freeze 2", 14, Cause::Range),
        (17, "freeze 0", 17, Cause::Order),
    ] {
        let fault = (fault, cause);
        refused_with(&rt, rt.alloc(), &FROZEN, (line, text), fault)?;
    }
    let bytes = with_line(rt.alloc(), &FROZEN, 14, "freeze 1", "")?;
    trace_of(&rt, rt.alloc(), &bytes);
    Ok(())
}

#[test]
fn a_turn_is_refused_whose_frames_cannot_be_withheld_or_returned(
    rt: HostRuntime,
) -> Result<(), Fail> {
    for (line, text, fault, cause) in [
        (10, "turn -3", 10, Cause::Frames),
        (10, "turn +1", 10, Cause::Frames),
        (10, "turn -16640", 10, Cause::Frames),
        (11, "turn -1", 11, Cause::Frames),
        (11, "turn +3 0", 11, Cause::Frames),
        (10, "turn -0", 10, Cause::Range),
        (10, "turn +0", 10, Cause::Range),
        (10, "turn -16641", 10, Cause::Range),
        (10, "turn -3 4294967296", 10, Cause::Range),
        (10, "turn -", 10, Cause::Number),
        (10, "turn -02", 10, Cause::Number),
        (10, "turn --2", 10, Cause::Number),
        (10, "turn 0 -2", 10, Cause::Number),
        (10, "turn -9223372036854775808", 10, Cause::Number),
        (12, "lane -1", 12, Cause::Number),
        (1, "bc-trace 2", 10, Cause::Number),
        (1, "bc-trace 1", 10, Cause::Number),
    ] {
        let fault = (fault, cause);
        refused_with(&rt, rt.alloc(), &WITHHELD, (line, text), fault)?;
    }
    Ok(())
}

#[test]
fn the_operand_with_a_sign_is_no_hint_from_version_3_on(rt: HostRuntime) -> Result<(), Fail> {
    let hints =
        "turn -2 0 1 2 3 4 5 6 7 8 9 0 1 2 3 4 5 6 7 8 9 0 1 2 3 4 5 6 7 8 9 0 1 2 3 4 5 6 7 8 9 0 1 2 3 4 5 6 7 8 9 0 1 2 3 4 5 6 7 8 9 0 1 2 3";
    let more = format!(in rt.alloc(); "{hints} 4")?;
    let bytes = with_line(rt.alloc(), &WITHHELD, 10, hints, "")?;
    trace_of(&rt, rt.alloc(), &bytes);
    let fault = (10, Cause::Form);
    refused_with(&rt, rt.alloc(), &WITHHELD, (10, &more), fault)?;
    let mut lines = WITHHELD;
    lines[0] = "bc-trace 2";
    refused_with(&rt, rt.alloc(), &lines, (10, hints), fault)?;
    Ok(())
}

#[test]
fn each_turn_line_is_read_with_the_frames_that_are_withheld_in_its_turn(
    rt: HostRuntime,
) -> Result<(), Fail> {
    let bytes = with_line(rt.alloc(), &WITHHELD, 0, "", "")?;
    let trace = trace_of(&rt, rt.alloc(), &bytes);
    same(&rt, trace.version, 3);
    assert!(rt; trace.phases.len() == 1);
    let turns = &trace.phases[0].turns;
    assert!(rt; turns.len() == 2);
    same(&rt, turns[0].withheld, 2);
    same(&rt, turns[0].hints.len(), 0);
    same(&rt, turns[1].withheld, 1);
    same(&rt, turns[1].hints.len(), 1);
    Ok(())
}

#[test]
fn what_goes_on_behind_done_or_stops_before_it_is_refused(rt: HostRuntime) -> Result<(), Fail> {
    // A line after `done`, and a byte after its line feed.
    let line_behind = changed(rt.alloc(), 0, "", "phase\n")?;
    let byte_behind = changed(rt.alloc(), 0, "", "x")?;
    let whole = changed(rt.alloc(), 0, "", "")?;
    assert!(rt; whole.len() > 100);
    let feed_left_out = &whole[..whole.len() - 1];
    for (bytes, line, cause) in [
        (line_behind.as_slice(), 16, Cause::Order),
        (byte_behind.as_slice(), 16, Cause::Order),
        (feed_left_out, 15, Cause::End),
        (b"".as_slice(), 0, Cause::End),
        (b"aaaa".as_slice(), 1, Cause::End),
    ] {
        refused(&rt, rt.alloc(), bytes, (line, cause), "");
    }
    Ok(())
}

#[test]
fn a_trace_without_done_is_refused_at_its_last_line(rt: HostRuntime) {
    let text =
        b"bc-trace 1\nlanes 1\ndomains 1\nslots 2\nsuperpages 1\nnursery 1\nbuffer 4\nframes 3\nphase\nlane 0\nend\n";
    refused(&rt, rt.alloc(), text, (11, Cause::End), "");
}

#[test]
fn frames_3_and_5_are_read_and_2_and_6_are_refused(rt: HostRuntime) -> Result<(), Fail> {
    for frames in ["frames 2", "frames 6"] {
        let fault = (8, Cause::Frames);
        refused_with(&rt, rt.alloc(), &FIRST_PATH, (8, frames), fault)?;
    }
    for frames in ["frames 3", "frames 5"] {
        let bytes = changed(rt.alloc(), 8, frames, "")?;
        trace_of(&rt, rt.alloc(), &bytes);
    }
    Ok(())
}

#[test]
fn the_number_2_to_the_63_is_refused_and_one_less_is_read(rt: HostRuntime) -> Result<(), Fail> {
    let bytes = changed(rt.alloc(), 12, "set 0 0 0 9223372036854775807", "")?;
    let trace = trace_of(&rt, rt.alloc(), &bytes);
    assert!(rt; trace.phases.len() == 1);
    let phase = &trace.phases[0];
    assert!(rt; phase.lanes.len() == 1);
    let ops = &phase.lanes[0];
    let slot = Slot { domain: 0, slot: 0 };
    assert!(rt; ops.len() == 3);
    assert!(rt; ops[1] == Op::Set(slot, 0, 9_223_372_036_854_775_807));
    let greater = "set 0 0 0 9223372036854775808";
    let fault = (12, Cause::Number);
    refused_with(&rt, rt.alloc(), &FIRST_PATH, (12, greater), fault)?;
    Ok(())
}

#[test]
fn objects_of_0_1_and_127_fields_are_read_and_one_of_128_is_refused(rt: HostRuntime) {
    let text =
        b"bc-trace 1\nlanes 1\ndomains 1\nslots 3\nsuperpages 2\nnursery 1\nbuffer 4\nframes 3\nphase\nlane 0\nnew 0 0 0\nnew 0 1 1\nnew 0 2 127\nnew 0 0 128\nend\ndone\n";
    refused(&rt, rt.alloc(), text, (14, Cause::Range), "");
}

#[test]
fn what_is_read_is_written_again_byte_for_byte(rt: HostRuntime) -> Result<(), Fail> {
    let header_only =
        b"bc-trace 1\nlanes 2\ndomains 2\nslots 1\nsuperpages 1\nnursery 1\nbuffer 4\nframes 4\ndone\n";
    let two_lanes =
        b"bc-trace 1\nlanes 2\ndomains 2\nslots 1\nsuperpages 1\nnursery 1\nbuffer 4\nframes 4\nphase\nlane 0\nnew 0 0 0\nlane 1\nend\ndone\n";
    let give_and_take =
        b"bc-trace 1\nlanes 2\ndomains 4\nslots 2\nsuperpages 2\nnursery 1\nbuffer 4\nframes 4\nphase\nlane 0\nnew 0 0 1\nnew 2 0 0\nlink 0 0 0 2 0\nlane 1\ngive 2 1\nend\nphase\nlane 0\nload 0 0 0 0 1\nwho 0 1\nlen 0 1\nwho 2 0\nlane 1\nwho 2 0\ngive 2 0\nend\nphase\nlane 0\nwho 0 1\nlane 1\nend\ndone\n";
    let turns =
        b"bc-trace 1\nlanes 1\ndomains 1\nslots 2\nsuperpages 1\nnursery 1\nbuffer 4\nframes 3\nphase\nturn\nturn 0 4294967295\nlane 0\nset 0 1 2 9223372036854775807\ncut 0 0 126\ncopy 0 0 0 1\nclear 0 0\nsame 0 0 0 1\nend\ndone\n";
    let version_2 =
        b"bc-trace 2\nlanes 1\ndomains 1\nslots 1\nsuperpages 1\nnursery 1\nbuffer 4\nframes 3\ndone\n";
    let version_3 =
        b"bc-trace 3\nlanes 1\ndomains 1\nslots 1\nsuperpages 1\nnursery 1\nbuffer 4\nframes 5\nphase\nturn -2\nturn 7\nturn +1 0\nturn +1\nturn\nlane 0\nend\nphase\nturn -1 5\nlane 0\nfreeze 0\nend\nphase\nturn\nturn -2\nlane 0\nend\ndone\n";
    for text in [
        header_only.as_slice(),
        two_lanes.as_slice(),
        give_and_take.as_slice(),
        turns.as_slice(),
        version_2.as_slice(),
        version_3.as_slice(),
    ] {
        is_written_again(&rt, rt.alloc(), text)?;
    }
    Ok(())
}

#[test]
fn every_reply_is_written_on_a_line_of_its_own(rt: HostRuntime) -> Result<(), Fail> {
    let replies = [
        Reply::Obj(Birth {
            lane: 15,
            serial: 10000,
        }),
        Reply::Done,
        Reply::Nil,
        Reply::Num(9_223_372_036_854_775_807),
        Reply::Ref,
        Reply::Len(127),
        Reply::Yes,
        Reply::No,
        Reply::NotObj,
        Reply::Range,
        Reply::Foreign,
        Reply::Frozen,
    ];
    let lanes = vec![in rt.alloc();
        Vec::from_slice(rt.alloc(), &replies)?,
        Vec::from_slice(rt.alloc(), &[])?,
    ]?;
    let replies = Replies { lanes };
    let mut text = phase_room(rt.alloc(), 2, 12)?;
    put_phase(&mut text, 600, &replies);
    let wanted =
        b"phase 600\nlane 0\nobj 15.10000\nok\nnil\nnum 9223372036854775807\nref\nlen 127\nyes\nno\nnotobj\nrange\nforeign\nfrozen\nlane 1\n";
    same(&rt, text.as_slice(), wanted.as_slice());
    let text = phase_text(rt.alloc(), 600, &replies)?;
    same(&rt, text.as_slice(), wanted.as_slice());
    let mut last = need_room(rt.alloc())?;
    put_need(&mut last, 18_446_744_073_709_551_615);
    same(
        &rt,
        last.as_slice(),
        b"out of heap 18446744073709551615\n".as_slice(),
    );
    let line = reply_line(rt.alloc(), &Reply::Len(0))?;
    same(&rt, line.as_slice(), b"len 0\n".as_slice());
    Ok(())
}

#[test]
fn the_trace_of_churn_is_written_as_its_text_and_read_again(rt: HostRuntime) -> Result<(), Fail> {
    let wanted =
        b"bc-trace 1\nlanes 2\ndomains 4\nslots 8\nsuperpages 32\nnursery 2\nbuffer 64\nframes 24\nphase\nturn 94 63 49\nturn 17 105 3\nlane 0\nclear 0 0\nclear 0 1\nclear 0 2\nclear 0 3\nclear 0 4\nclear 0 5\nclear 0 6\nclear 0 7\nclear 2 0\nclear 2 1\nclear 2 2\nclear 2 3\nclear 2 4\nclear 2 5\nclear 2 6\nclear 2 7\nnew 0 3 6\nload 3 0 0 1 2\nnew 3 4 7\nlane 1\nclear 1 0\nclear 1 1\nclear 1 2\nclear 1 3\nclear 1 4\nclear 1 5\nclear 1 6\nclear 1 7\nclear 3 0\nclear 3 1\nclear 3 2\nclear 3 3\nclear 3 4\nclear 3 5\nclear 3 6\nclear 3 7\nload 1 6 2 1 0\nnew 1 5 0\nlink 1 6 3 1 3\ngive 1 1\nend\ndone\n";
    let trace = generate(rt.alloc(), 7, 3)?;
    let text = write(rt.alloc(), &trace)?;
    same(&rt, text.as_slice(), wanted.as_slice());
    is_written_again(&rt, rt.alloc(), &text)?;
    Ok(())
}

#[test]
fn the_operations_of_churn_go_on_in_a_phase_more_past_each_thousand(
    rt: HostRuntime,
) -> Result<(), Fail> {
    for (ops, phases) in [(0, 0), (1, 1), (1000, 1), (1001, 2), (2000, 2)] {
        let trace = generate(rt.alloc(), 1, ops)?;
        same(&rt, trace.phases.len(), phases);
    }
    Ok(())
}

#[test]
fn a_churn_of_no_operations_has_eleven_counts_of_0(rt: HostRuntime) -> Result<(), Fail> {
    let mut text = churn_room(rt.alloc())?;
    put_churn(&mut text, 7, 0, &Counts::new());
    let wanted =
        b"churn 7 0\nobj 0\nok 0\nnil 0\nnum 0\nref 0\nlen 0\nyes 0\nno 0\nnotobj 0\nrange 0\nforeign 0\ndone\n";
    same(&rt, wanted.len(), 88);
    same(&rt, text.as_slice(), wanted.as_slice());
    Ok(())
}

// A reply `frozen`, which the churn never has, isn't printed.
#[test]
fn replies_are_counted_by_their_kinds(rt: HostRuntime) -> Result<(), Fail> {
    let first = [Reply::Done, Reply::Num(5), Reply::Num(6), Reply::Foreign];
    let second = [Reply::Len(5), Reply::Frozen, Reply::No, Reply::Done];
    let lanes = vec![in rt.alloc();
        Vec::from_slice(rt.alloc(), &first)?,
        Vec::from_slice(rt.alloc(), &second)?,
    ]?;
    let mut counts = Counts::new();
    counts.add(&Replies { lanes });
    let mut text = churn_room(rt.alloc())?;
    put_churn(&mut text, 0, 12, &counts);
    let wanted =
        b"churn 0 12\nobj 0\nok 2\nnil 0\nnum 2\nref 0\nlen 1\nyes 0\nno 1\nnotobj 0\nrange 0\nforeign 1\ndone\n";
    same(&rt, text.as_slice(), wanted.as_slice());
    Ok(())
}

#[test]
fn each_cause_is_written_as_its_word(rt: HostRuntime) -> Result<(), Fail> {
    for (cause, text) in [
        (Cause::Form, "form"),
        (Cause::Word, "word"),
        (Cause::Order, "order"),
        (Cause::Number, "number"),
        (Cause::Range, "range"),
        (Cause::Frames, "frames"),
        (Cause::End, "end"),
    ] {
        same(&rt, format!(in rt.alloc(); "{cause}")?.as_str(), text);
    }
    Ok(())
}
