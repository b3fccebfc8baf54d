//! The reader: from the bytes to the trace that they spell, or to their one fault.
ghost use Rattle.std.specs.Prelude.{◌≡◌, ◌+◌, ◌^◌, ◌<◌, ◌≤◌, length, IfOk, IfErr, IsErrAnd, MatchResult};
ghost use Rattle.bc_model.specs.Lists.{TraceLists};
ghost use Rattle.bc_model.specs.RunLengths.{all_ops_of};
ghost use Rattle.bc_trace.specs.declared.fault.ReadTrace.TheVariants.{NoMemory};
ghost use Rattle.bc_trace.specs.declared.fault.TraceFault.{TraceFault};
ghost use Rattle.bc_trace.specs.Lines.{Spells};
ghost use Rattle.bc_trace.specs.Faults.{Fault};
ghost use Rattle.bc_trace.specs.Drafts.{shown};
ghost use Rattle.bc_trace.specs.Reading.{line_at, ended, lines_of, reading, read_of};
ghost use Rattle.bc_trace.specs.Said.{Reads, IsSmall, FitsBuffer, CanGoOn};
ghost use Rattle.bc_trace.specs.Answers.{Gives, TellsFault, IsFaultOrMemory};

use crate::checking::{has_count, line_of};
use crate::cutting::{cut_line, first_word, is_formed};
use crate::draft::Draft;
use crate::fault::{Cause, ReadTrace, TraceFault};
use crate::grammar::{Progress, Stage};
use crate::line::Line;
use crate::numbers::{operands_of, shift_of};
use crate::operations::line_ahead;
use crate::words::word_of;
use bc_model::Trace;
use std::alloc::{AllocError, Global};

/// What a line says, or the first test that it fails. The hints of a turn are put into the buffer.
#[tactic(auto, unfolding(crate::specs::Reading::line_at))]
fn line_at(progress: &Progress, line: &[u8], operands: &mut [u64; 64]) -> Result<Line, Cause>
    requires { IsSmall progress.now progress.now.stood }
    ensures reads { Reads (line_at progress.now line.now) result operands.new }
    ensures buffer { IfOk result (λ l. FitsBuffer l operands.new) }
    ensures shift { IfOk result (λ l. CanGoOn progress.now l) }
{
    if !is_formed(line) {
        return Err(Cause::Form);
    }
    let (first, rest) = first_word(line);
    let word = match word_of(progress.version, first) {
        Some(word) => word,
        None => return Err(Cause::Word),
    };
    if !progress.may_stand(word) {
        return Err(Cause::Order);
    }
    let (shift, rest) = shift_of(progress.version, word, rest);
    let (count, all_numbers) = match operands_of(rest, operands) {
        Some(found) => found,
        None => return Err(Cause::Form),
    };
    if !has_count(word, count) {
        return Err(Cause::Form);
    }
    let shift = match shift {
        Some(shift) => shift,
        None => return Err(Cause::Number),
    };
    if !all_numbers {
        return Err(Cause::Number);
    }
    line_of(progress, word, shift, &operands[..count])
}

/// What the text ends with, after `lines` whole lines.
#[tactic(auto, unfolding(crate::specs::Reading::ended))]
fn end(draft: Draft, lines: u32, rest: &[u8]) -> Result<Trace, ReadTrace>
    requires { lines + length rest.now < 2 ^ 32 }
    ensures { Gives result (ended (shown draft) lines rest.now) }
{
    let Progress { version, setup, .. } = draft.progress;
    let done = matches!(draft.progress.stage, Stage::Finished);
    let begun = if rest.is_empty() { 0 } else { 1 };
    if done && rest.is_empty() {
        return Ok(Trace {
            version,
            setup,
            phases: draft.phases,
        });
    }
    let cause = if done { Cause::Order } else { Cause::End };
    Err(ReadTrace::Fault(TraceFault {
        line: lines + begun,
        cause,
    }))
}

/// Takes up the lines of phases that the text begins with, as far as the fast way goes. Answers how many lines were
/// read by then, and what follows them.
fn read_ahead<'a>(
    alloc: Global,
    draft: &mut Draft,
    lines: u32,
    text: &'a [u8],
) -> Result<(u32, &'a [u8]), AllocError>
    requires small { IsSmall draft.old.progress lines }
    requires count { lines + length text.now < 2 ^ 32 }
    ensures small { IfOk result (λ r. IsSmall draft.new.progress r.0) }
    ensures count { IfOk result (λ r. r.0 + length r.1.now ≤ lines + length text.now) }
    ensures more { IfOk result (λ r. lines ≤ r.0) }
    ensures reads { IfOk result (λ r. reading (shown draft.new) r.0 (lines_of r.1.now) ≡ reading (shown draft.old) lines (lines_of text.now)) }
{
    let mut hints = [0; 64];
    let mut count = lines;
    let mut rest = text;
    while let Some((line, after)) = line_ahead(&draft.progress, rest) {
        draft.put(alloc, line, &[])?;
        count += 1;
        rest = after;
        match draft.progress.stage {
            Stage::Turns => (count, rest) = draft.put_turns(alloc, count, rest, &mut hints)?,
            Stage::Ops => (count, rest) = draft.put_ops(count, rest)?,
            _ => {}
        }
    }
    Ok((count, rest))
}

/// The trace, or the fault, of the text.
fn read_lines(alloc: Global, bytes: &[u8]) -> Result<Trace, ReadTrace>
    requires { length bytes.now < 2 ^ 32 }
    ensures { Gives result (read_of bytes.now) }
{
    let mut draft = Draft::new(alloc);
    let mut operands = [0; 64];
    let mut lines = 0;
    let mut rest = bytes;
    while let Some((line, after)) = cut_line(rest) {
        lines += 1;
        match line_at(&draft.progress, line, &mut operands) {
            Ok(says) => draft.put(alloc, says, &operands)?,
            Err(cause) => return Err(ReadTrace::Fault(TraceFault { line: lines, cause })),
        }
        (lines, rest) = read_ahead(alloc, &mut draft, lines, after)?;
    }
    end(draft, lines, rest)
}

/// The trace that the bytes spell, all of the bytes, or their one fault.
pub fn read(alloc: Global, bytes: &[u8]) -> Result<Trace, ReadTrace>
    requires { length bytes.now < 2 ^ 32 }
    // What is read is spelled so, and what is spelled so is read, unless memory runs out.
    ensures found { IfOk result (Spells bytes.now) }
    ensures spelled { (t : TraceLists) → Spells bytes.now t → MatchResult result (λ x. x ≡ t) (λ e. e ≡ NoMemory) }

    // A text has a byte or more for each phase and each operation.
    ensures short { IfOk result (λ t. all_ops_of t + length t.phases ≤ length bytes.now) }

    // A fault that is answered is the text's, and a text's fault is answered, unless memory runs out.
    ensures fault { IfErr result (TellsFault bytes.now) }
    ensures faulty { (f : TraceFault) → Fault bytes.now f.line f.cause → IsErrAnd result (IsFaultOrMemory f) }
{
    read_lines(alloc, bytes)
}
