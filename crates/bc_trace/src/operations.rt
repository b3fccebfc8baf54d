//! The fast way over whole lines: those of a phase.
ghost use Rattle.std.specs.Prelude.{◌≡◌, ◌<◌, ◌≤◌, ◌++◌, [], length, take, IfSome};
ghost use Rattle.std.specs.List.{AllByRecursion};
ghost use Rattle.bc_model.specs.WellFormed.{IsNumber, IsOp};
ghost use Rattle.bc_trace.specs.declared.grammar.Stage.TheVariants as stages;
ghost use Rattle.bc_trace.specs.Lines.{op, turn, verb_of_op, operands_of_op};
ghost use Rattle.bc_trace.specs.declared.line.Shift.TheVariants.{Stays};
ghost use Rattle.bc_trace.specs.Said.{said, operands_text, FitsBuffer, CanGoOn, IsAhead};

use crate::ahead::{
    byte_ahead, hints_ahead, operand_ahead, slot_ahead, small_ahead, turn_word_ahead, verb_ahead,
    word_ahead,
};
use crate::grammar::Progress;
use crate::line::Line;
use crate::words::{Keyword, Verb};
use bc_model::{Give, Op, Setup};

/// The operation whose operands the text begins with, and what follows them.
#[inline(always)]
#[tactic(auto, unfolding(crate::specs::Said::operands_text))]
fn operands_of_op_ahead<'a>(setup: &Setup, verb: Verb, text: &'a [u8]) -> Option<(Op, &'a [u8])>
    ensures op { IfSome result (λ r. IsOp setup.now r.0) }
    ensures verb { IfSome result (λ r. verb_of_op r.0 ≡ verb) }
    ensures numbers { IfSome result (λ r. AllByRecursion IsNumber (operands_of_op r.0)) }
    ensures text { IfSome result (λ r. text.now ≡ operands_text (operands_of_op r.0) ++ r.1.now) }
{
    let (first, rest) = slot_ahead(setup, text)?;
    match verb {
        Verb::New => {
            let (fields, rest) = small_ahead(rest, 128)?;
            Some((Op::New(first, fields), rest))
        }
        Verb::Who => Some((Op::Who(first), rest)),
        Verb::Len => Some((Op::Len(first), rest)),
        Verb::Set => {
            let (field, rest) = small_ahead(rest, 127)?;
            let (number, rest) = operand_ahead(rest, 1 << 63)?;
            Some((Op::Set(first, field, number), rest))
        }
        Verb::Cut => {
            let (field, rest) = small_ahead(rest, 127)?;
            Some((Op::Cut(first, field), rest))
        }
        Verb::Link => {
            let (field, rest) = small_ahead(rest, 127)?;
            let (other, rest) = slot_ahead(setup, rest)?;
            Some((Op::Link(first, field, other), rest))
        }
        Verb::Load => {
            let (field, rest) = small_ahead(rest, 127)?;
            let (other, rest) = slot_ahead(setup, rest)?;
            Some((Op::Load(first, field, other), rest))
        }
        Verb::Copy => {
            let (other, rest) = slot_ahead(setup, rest)?;
            Some((Op::Copy(first, other), rest))
        }
        Verb::Clear => Some((Op::Clear(first), rest)),
        Verb::Same => {
            let (other, rest) = slot_ahead(setup, rest)?;
            Some((Op::Same(first, other), rest))
        }
    }
}

/// The operation whose line the text begins with, and what follows the line.
#[inline(always)]
pub fn op_ahead<'a>(progress: &Progress, text: &'a [u8]) -> Option<(Op, &'a [u8])>
    requires { progress.now.stage ≡ stages.Ops }
    ensures ahead { IfSome result (λ r. IsAhead progress.now text.now (op r.0) r.1.now) }
    ensures shorter { IfSome result (λ r. length r.1.now < length text.now) }
{
    let (verb, rest) = verb_ahead(text)?;
    let (op, rest) = operands_of_op_ahead(&progress.setup, verb, rest)?;
    let rest = byte_ahead(rest, b'\n')?;
    Some((op, rest))
}

/// The turn whose line the text begins with, without an operand with a sign: how many hints it put into the buffer, and what follows the line.
#[inline(always)]
pub fn turn_ahead<'a>(
    progress: &Progress,
    text: &'a [u8],
    hints: &mut [u32; 64],
) -> Option<(usize, &'a [u8])>
    requires { progress.now.stage ≡ stages.Turns }
    ensures ahead { IfSome result (λ r. IsAhead progress.now text.now (turn Stays (take r.0 hints.new)) r.1.now) }
    ensures few { IfSome result (λ r. r.0 ≤ 64) }
    ensures shorter { IfSome result (λ r. length r.1.now < length text.now) }
{
    let rest = turn_word_ahead(text)?;
    let (count, rest) = hints_ahead(rest, hints)?;
    Some((count, rest))
}

/// What the line says that the text begins with, and what follows the line; None also at a turn and at an operation.
#[inline(always)]
pub fn line_ahead<'a>(progress: &Progress, text: &'a [u8]) -> Option<(Line, &'a [u8])>
    ensures ahead { IfSome result (λ r. IsAhead progress.now text.now (said r.0 []) r.1.now) }
    ensures buffer { IfSome result (λ r. FitsBuffer r.0 []) }
    ensures shift { IfSome result (λ r. CanGoOn progress.now r.0) }
    ensures shorter { IfSome result (λ r. length r.1.now < length text.now) }
{
    let (word, rest) = word_ahead(text)?;
    if !progress.may_stand(word) {
        return None;
    }
    match word {
        Keyword::Phase => Some((Line::Phase, byte_ahead(rest, b'\n')?)),
        Keyword::Lane => {
            let (lane, rest) = small_ahead(rest, progress.setup.lanes)?;
            if lane != progress.stood {
                return None;
            }
            Some((Line::Lane(lane), byte_ahead(rest, b'\n')?))
        }
        Keyword::Give => {
            let (domain, rest) = small_ahead(rest, progress.setup.domains)?;
            let (lane, rest) = small_ahead(rest, progress.setup.lanes)?;
            Some((Line::Give(Give { domain, lane }), byte_ahead(rest, b'\n')?))
        }
        Keyword::End => Some((Line::End, byte_ahead(rest, b'\n')?)),
        _ => None,
    }
}
