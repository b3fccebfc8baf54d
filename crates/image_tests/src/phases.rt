//! An image after each phase of a trace: what is printed from there on is what a whole run prints from there on.

use crate::equal::same;
use crate::saving::{ended, saved};
use bc_cli::Status;
use program_workshop::{
    CUT_PRINTED, CUT_SHORT, FOUR_DOMAINS, GIVEN, ONE_SLOT_EACH, SMALL, TWO_LANES, chain_printed,
    followed, followed_to_the_end, linked, links, repeated, run_over, trace, trace_in,
    withheld_chain,
};
use std::alloc::{AllocError, Global};
use std::process::Abort;
use std::test::Fail;
use std::thread::Threads;

/// Shows that a run prints these texts of its phases, and that one that is resumed after some of them prints the others, in each version of the
/// language and with each number of workers.
fn goes_on<R: Threads + Sync + Abort>(
    rt: &R,
    alloc: Global,
    numbers: [u32; 7],
    lines: &str,
    texts: &[&str],
) -> Result<(), AllocError> {
    for version in 1..=3 {
        let input = trace_in(alloc, version, numbers, lines)?.into_bytes();
        goes_on_over(rt, alloc, input, texts)?;
    }
    Ok(())
}

/// Shows that of the text of a whole trace.
pub fn goes_on_over<R: Threads + Sync + Abort>(
    rt: &R,
    alloc: Global,
    input: Vec<u8>,
    texts: &[&str],
) -> Result<(), AllocError> {
    for workers in ["1", "4"] {
        let words = ["run", "--workers", workers];
        let ran = run_over(rt, alloc, &words, input.as_slice().to_vec(alloc)?);
        ended(
            rt,
            &ran,
            Status::Done,
            true,
            texts_after(alloc, texts, 0)?.as_bytes(),
        );
        for phases in 0..=texts.len() {
            let image = saved(rt, alloc, phases, workers, &input)?;
            let whole = followed(alloc, &image, &input)?;
            let ran = run_over(rt, alloc, &["resume", "--workers", workers], whole);
            let rest = texts_after(alloc, texts, phases)?;
            ended(rt, &ran, Status::Done, true, rest.as_bytes());
        }
    }
    Ok(())
}

/// The texts after so many, and the last line.
fn texts_after(alloc: Global, texts: &[&str], phases: usize) -> Result<String, AllocError> {
    let mut output = String::new(alloc);
    for text in &texts[phases.min(texts.len())..] {
        output.push_str(text)?;
    }
    output.push_str("done\n")?;
    Ok(output)
}

#[test]
fn a_domain_that_was_given_away_stays_so_in_an_image(rt: HostRuntime) -> Result<(), Fail> {
    let texts = [
        "phase 1\nlane 0\nobj 0.1\nobj 0.2\nok\nlane 1\n",
        "phase 2\nlane 0\nref\nforeign\nforeign\nforeign\nlane 1\nobj 0.2\n",
        "phase 3\nlane 0\nobj 0.2\nlane 1\n",
    ];
    goes_on(&rt, rt.alloc(), FOUR_DOMAINS, GIVEN, &texts)?;
    Ok(())
}

/// Slots and fields that hold nil, numbers and references, objects that refer to themselves and to one another, and one that nothing
/// reaches any more.
#[test]
fn all_that_slots_and_fields_hold_is_in_an_image(rt: HostRuntime) -> Result<(), Fail> {
    let lines =
        "phase\nlane 0\nnew 0 0 3\nset 0 0 0 9223372036854775807\nlink 0 0 1 0 0\nload 0 0 0 0 1\nend\nphase\nlane 0\nwho 0 1\nload 0 0 0 0 1\nload 0 0 1 0 1\nsame 0 0 0 1\nload 0 0 2 0 1\nwho 0 1\nend\nphase\nlane 0\nnew 0 1 127\nlink 0 1 126 0 0\nlink 0 0 2 0 1\nset 0 1 0 0\nclear 0 1\nend\nphase\nlane 0\nload 0 0 2 0 1\nlen 0 1\nload 0 1 126 0 0\nwho 0 0\nload 0 1 0 0 0\nclear 0 1\nend\nphase\nlane 0\nwho 0 0\nwho 0 1\nnew 0 0 0\nend\ndone\n";
    let texts = [
        "phase 1\nlane 0\nobj 0.1\nok\nok\nnum 9223372036854775807\n",
        "phase 2\nlane 0\nnum 9223372036854775807\nnum 9223372036854775807\nref\nyes\nnil\nnil\n",
        "phase 3\nlane 0\nobj 0.2\nok\nok\nok\nok\n",
        "phase 4\nlane 0\nref\nlen 127\nref\nobj 0.1\nnum 0\nok\n",
        "phase 5\nlane 0\nnum 0\nnil\nobj 0.3\n",
    ];
    goes_on(&rt, rt.alloc(), [1, 1, 2, 2, 1, 4, 3], lines, &texts)?;
    Ok(())
}

/// Two lanes go on counting their births where the image says, also after objects that nothing reaches.
#[test]
fn births_go_on_where_the_image_ends(rt: HostRuntime) -> Result<(), Fail> {
    let lines =
        "phase\nlane 0\nnew 0 0 0\nnew 0 0 0\nnew 0 0 0\nclear 0 0\nlane 1\nnew 1 0 0\nend\nphase\nlane 0\nnew 0 0 1\nlane 1\nend\nphase\nlane 0\nlane 1\nend\nphase\nlane 0\nlane 1\nnew 1 0 2\nend\ndone\n";
    let texts = [
        "phase 1\nlane 0\nobj 0.1\nobj 0.2\nobj 0.3\nok\nlane 1\nobj 1.1\n",
        "phase 2\nlane 0\nobj 0.4\nlane 1\n",
        "phase 3\nlane 0\nlane 1\n",
        "phase 4\nlane 0\nlane 1\nobj 1.2\n",
    ];
    goes_on(&rt, rt.alloc(), ONE_SLOT_EACH, lines, &texts)?;
    Ok(())
}

#[test]
fn a_trace_without_phases_has_one_image(rt: HostRuntime) -> Result<(), Fail> {
    goes_on(&rt, rt.alloc(), SMALL, "done\n", &[])?;
    goes_on(&rt, rt.alloc(), [16, 64, 3, 9, 2, 1, 40], "done\n", &[])?;
    Ok(())
}

/// A chain on three pages, in two frames: when it is saved some of its pages are gone. All of its objects are in the image, and all are there
/// after resuming.
#[test]
fn pages_that_are_gone_are_in_an_image(rt: HostRuntime) -> Result<(), Fail> {
    let alloc = rt.alloc();
    let news = links(alloc, 600)?;
    let loads = repeated(alloc, "load 0 1 0 0 1\n", 600)?;
    let lines = format!(in alloc;
        "phase\nlane 0\nnew 0 0 1\ncopy 0 0 0 1\n{news}end\nphase\nlane 0\n{loads}end\nphase\nlane 0\nclear 0 0\nnew 0 1 2\nend\ndone\n"
    )?;
    let replies = linked(alloc, 600)?;
    let first = format!(in alloc; "phase 1\nlane 0\nobj 0.1\nok\n{replies}")?;
    let rest = followed_to_the_end(alloc, 600)?;
    let second = format!(in alloc; "phase 2\nlane 0\n{rest}")?;
    let texts = [
        first.as_str(),
        second.as_str(),
        "phase 3\nlane 0\nok\nobj 0.601\n",
    ];
    goes_on(&rt, alloc, SMALL, &lines, &texts)?;
    // Eleven items of the header and the setup, the holder's, the births, two slots, two of the superpage, three an object.
    let input = trace(alloc, SMALL, &lines)?;
    let image = saved(&rt, alloc, 1, "1", input.as_bytes())?;
    same(&rt, image.len(), 8 * (12 + 2 + 2 + 3 * 600));
    Ok(())
}

/// As above with eight pages, with notices, and with the first object kept beside the newest.
#[test]
fn pages_that_left_for_notices_are_in_an_image(rt: HostRuntime) -> Result<(), Fail> {
    let alloc = rt.alloc();
    let news = links(alloc, 2000)?;
    let loads = repeated(alloc, "load 0 1 0 0 1\n", 2000)?;
    let turns = "turn 0 1 2 3\nturn 4 5\nturn 6 7\n";
    let lines = format!(in alloc;
        "phase\n{turns}lane 0\nnew 0 0 1\ncopy 0 0 0 1\ncopy 0 0 0 2\n{news}end\nphase\n{turns}lane 0\nwho 0 2\nend\nphase\nlane 0\n{loads}who 0 2\nwho 0 0\nend\ndone\n"
    )?;
    let replies = linked(alloc, 2000)?;
    let first = format!(in alloc; "phase 1\nlane 0\nobj 0.1\nok\nok\n{replies}")?;
    let rest = followed_to_the_end(alloc, 2000)?;
    let third = format!(in alloc; "phase 3\nlane 0\n{rest}obj 0.1\nobj 0.2000\n")?;
    let texts = [first.as_str(), "phase 2\nlane 0\nobj 0.1\n", third.as_str()];
    let input = trace_in(alloc, 2, [1, 1, 3, 2, 1, 4, 4], &lines)?.into_bytes();
    goes_on_over(&rt, alloc, input, &texts)?;
    Ok(())
}

/// Cycles that are dropped by the next phase: the objects that are freed after resuming are those of the image.
#[test]
fn dropped_cycles_are_freed_after_resuming(rt: HostRuntime) -> Result<(), Fail> {
    let alloc = rt.alloc();
    let made = "new 0 0 127\nnew 0 1 127\nlink 0 0 0 0 1\nlink 0 1 0 0 0\n";
    let phase = format!(in alloc; "phase\nlane 0\n{made}{made}{made}{made}end\n")?;
    let mut lines = repeated(alloc, &phase, 8)?;
    lines.push_str("done\n")?;
    let mut texts = Vec::new(alloc);
    for number in 0..8u32 {
        let mut text = format!(in alloc; "phase {}\nlane 0\n", number + 1)?;
        for pair in 0..4 {
            let serial = 8 * number + 2 * pair;
            let replies = format!(in alloc;
                "obj 0.{}\nobj 0.{}\nok\nok\n",
                serial + 1,
                serial + 2
            )?;
            text.push_str(&replies)?;
        }
        texts.push(text)?;
    }
    let mut borrowed = Vec::new(alloc);
    for text in &texts {
        borrowed.push(text.as_str())?;
    }
    goes_on(&rt, alloc, SMALL, &lines, &borrowed)?;
    Ok(())
}

/// Shows that a run which is resumed after so many phases ends out of heap by a need of 3, and what it writes.
fn too_small_after<R: Threads + Sync + Abort>(
    rt: &R,
    alloc: Global,
    phases: usize,
    trace: &[u8],
    output: &[u8],
) -> Result<(), AllocError> {
    let image = saved(rt, alloc, phases, "1", trace)?;
    let whole = followed(alloc, &image, trace)?;
    let ran = run_over(rt, alloc, &["resume"], whole);
    ended(rt, &ran, Status::OutOfHeap { need: 3 }, true, output);
    Ok(())
}

/// A heap that is too small in the third phase is so after resuming from each image before it.
#[test]
fn a_heap_that_is_too_small_is_so_after_resuming(rt: HostRuntime) -> Result<(), Fail> {
    let alloc = rt.alloc();
    let input = trace(alloc, TWO_LANES, CUT_SHORT)?;
    let [first, second, third] = CUT_PRINTED;
    let later = format!(in alloc; "{second}{third}")?;
    let whole = format!(in alloc; "{first}{later}")?;
    too_small_after(&rt, alloc, 0, input.as_bytes(), whole.as_bytes())?;
    too_small_after(&rt, alloc, 1, input.as_bytes(), later.as_bytes())?;
    too_small_after(&rt, alloc, 2, input.as_bytes(), third.as_bytes())?;
    Ok(())
}

#[test]
fn a_chain_made_while_turns_withhold_frames_is_saved_and_resumed(
    rt: HostRuntime,
) -> Result<(), Fail> {
    let alloc = rt.alloc();
    let output = chain_printed(alloc)?;
    let text = output.strip_suffix("done\n").unwrap_or("");
    let input = withheld_chain(alloc, "turn -2\nturn +1 0\n")?;
    goes_on_over(&rt, alloc, input, &[text])?;
    Ok(())
}
