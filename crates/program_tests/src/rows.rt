//! Traces and what they print.

use crate::equal::same;
use crate::shown::{shows, shows_done, shows_fault};
use bc_cli::Status;
use bc_trace::Cause;
use program_workshop::{FIRST_PHASE, FIRST_PRINTED, FOUR_DOMAINS, GIVEN, SMALL, repeated, trace};
use std::test::Fail;

#[test]
fn a_number_is_set_and_loaded_back(rt: HostRuntime) -> Result<(), Fail> {
    let text = trace(rt.alloc(), SMALL, FIRST_PHASE)?;
    same(&rt, text.len(), 137);
    shows_done(&rt, rt.alloc(), SMALL, FIRST_PHASE, FIRST_PRINTED)?;
    Ok(())
}

#[test]
fn a_lane_without_operations_has_its_line_and_a_trace_without_phases_prints_done(
    rt: HostRuntime,
) -> Result<(), Fail> {
    let lines = "phase\nlane 0\nnew 0 0 0\nlane 1\nend\ndone\n";
    let output = "phase 1\nlane 0\nobj 0.1\nlane 1\ndone\n";
    shows_done(&rt, rt.alloc(), [2, 2, 1, 1, 1, 4, 4], lines, output)?;
    shows_done(&rt, rt.alloc(), SMALL, "done\n", "done\n")?;
    Ok(())
}

#[test]
fn objects_of_0_1_and_127_fields_are_made_and_128_fields_are_out_of_range(
    rt: HostRuntime,
) -> Result<(), Fail> {
    let sizes = [1, 1, 3, 2, 1, 4, 3];
    let lines = "phase\nlane 0\nnew 0 0 0\nnew 0 1 1\nnew 0 2 127\nend\ndone\n";
    let output = "phase 1\nlane 0\nobj 0.1\nobj 0.2\nobj 0.3\ndone\n";
    shows_done(&rt, rt.alloc(), sizes, lines, output)?;
    let lines = "phase\nlane 0\nnew 0 0 0\nnew 0 1 1\nnew 0 2 127\nnew 0 0 128\nend\ndone\n";
    shows_fault(&rt, rt.alloc(), sizes, lines, 14, Cause::Range)?;
    Ok(())
}

#[test]
fn the_largest_number_is_kept_and_one_more_is_refused(rt: HostRuntime) -> Result<(), Fail> {
    let lines =
        "phase\nlane 0\nnew 0 0 1\nset 0 0 0 9223372036854775807\nload 0 0 0 0 1\nend\ndone\n";
    let output = "phase 1\nlane 0\nobj 0.1\nok\nnum 9223372036854775807\ndone\n";
    shows_done(&rt, rt.alloc(), SMALL, lines, output)?;
    let lines = "phase\nlane 0\nnew 0 0 1\nset 0 0 0 9223372036854775808\nend\ndone\n";
    shows_fault(&rt, rt.alloc(), SMALL, lines, 12, Cause::Number)?;
    Ok(())
}

/// What `GIVEN` prints.
const FOREIGN: &str =
    "phase 1\nlane 0\nobj 0.1\nobj 0.2\nok\nlane 1\nphase 2\nlane 0\nref\nforeign\nforeign\nforeign\nlane 1\nobj 0.2\nphase 3\nlane 0\nobj 0.2\nlane 1\ndone\n";

#[test]
fn a_domain_that_was_given_away_is_foreign_to_its_old_holder(rt: HostRuntime) -> Result<(), Fail> {
    shows_done(&rt, rt.alloc(), FOUR_DOMAINS, GIVEN, FOREIGN)?;
    Ok(())
}

#[test]
fn every_kind_of_reply_is_printed(rt: HostRuntime) -> Result<(), Fail> {
    let lines =
        "phase\nlane 0\nlen 0 0\nnew 0 0 1\nset 0 0 1 5\nload 0 0 0 0 1\nwho 0 1\nlen 0 0\nsame 0 0 0 1\ncut 0 0 0\nset 0 0 0 5\nload 0 0 0 0 1\nwho 0 1\nlen 0 1\nend\ndone\n";
    let output =
        "phase 1\nlane 0\nnotobj\nobj 0.1\nrange\nnil\nnil\nlen 1\nno\nok\nok\nnum 5\nnum 5\nnotobj\ndone\n";
    shows_done(&rt, rt.alloc(), SMALL, lines, output)?;
    Ok(())
}

#[test]
fn the_fewest_and_the_most_frames_are_taken_and_no_others(rt: HostRuntime) -> Result<(), Fail> {
    shows_done(&rt, rt.alloc(), [1, 1, 2, 1, 1, 4, 3], "done\n", "done\n")?;
    shows_done(&rt, rt.alloc(), [1, 1, 2, 1, 1, 4, 5], "done\n", "done\n")?;
    let cause = Cause::Frames;
    shows_fault(&rt, rt.alloc(), [1, 1, 2, 1, 1, 4, 2], "done\n", 8, cause)?;
    shows_fault(&rt, rt.alloc(), [1, 1, 2, 1, 1, 4, 6], "done\n", 8, cause)?;
    Ok(())
}

#[test]
fn a_text_that_ends_early_or_goes_on_behind_its_end_is_refused_at_its_line(
    rt: HostRuntime,
) -> Result<(), Fail> {
    let lines = "phase\nlane 0\nend\n";
    shows_fault(&rt, rt.alloc(), SMALL, lines, 11, Cause::End)?;
    let lines = "phase\nlane 0\nnew 0 0 2\nset 0 0 1 7\nload 0 0 1 0 1\nend\ndone\nphase\n";
    shows_fault(&rt, rt.alloc(), SMALL, lines, 16, Cause::Order)?;
    let (line, cause) = (0, Cause::End);
    let end = (Status::BadTrace { line, cause }, false);
    shows(&rt, rt.alloc(), &["run"], Vec::new(rt.alloc()), end, "");
    Ok(())
}

#[test]
fn a_trace_without_its_last_line_is_refused_at_its_end(rt: HostRuntime) -> Result<(), Fail> {
    let lines = "phase\nlane 0\nnew 0 0 2\nset 0 0 1 7\nload 0 0 1 0 1\nend\n";
    shows_fault(&rt, rt.alloc(), SMALL, lines, 14, Cause::End)?;
    Ok(())
}

#[test]
fn ten_thousand_dropped_objects_pass_through_one_superpage(rt: HostRuntime) -> Result<(), Fail> {
    let news = repeated(rt.alloc(), "new 0 0 0\n", 10_000)?;
    let lines = format!(in rt.alloc(); "phase\nlane 0\n{news}end\ndone\n")?;
    let mut output = String::from_str(rt.alloc(), "phase 1\nlane 0\n")?;
    for serial in 1..=10_000u32 {
        let line = format!(in rt.alloc(); "obj 0.{serial}\n")?;
        output.push_str(&line)?;
    }
    output.push_str("done\n")?;
    shows_done(&rt, rt.alloc(), SMALL, &lines, &output)?;
    Ok(())
}

#[test]
fn an_input_of_a_byte_more_than_16_mib_is_too_long(rt: HostRuntime) -> Result<(), Fail> {
    let input = vec![in rt.alloc(); b'a'; 16_777_217]?;
    shows(
        &rt,
        rt.alloc(),
        &["run"],
        input,
        (Status::TooLong, false),
        "",
    );
    let input = vec![in rt.alloc(); b'a'; 16_777_216]?;
    let (line, cause) = (1, Cause::End);
    let end = (Status::BadTrace { line, cause }, false);
    shows(&rt, rt.alloc(), &["run"], input, end, "");
    Ok(())
}
