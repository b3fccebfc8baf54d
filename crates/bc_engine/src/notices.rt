//! The notices of a phase: room for their answers, and how many pages left for them.

ghost use Rattle.std.specs.Prelude.{◌≡◌, ◌+◌, ◌*◌, ◌≤◌, Bool, true, length, max, vec_capacity, OnOk};
ghost use Rattle.bc_engine.specs.Answers.{IfNoRoom, IfTooSmall};
ghost use Rattle.bc_engine.specs.Counting.{left_since, names_left as names};
ghost use Rattle.bc_engine.specs.Rounds.{HasNoRoomFor, longest_of};
ghost use Rattle.bc_model.specs.TurnLines.{hints_in};
ghost use Rattle.bc_pager.specs.Feeding.{live_room};

use crate::rounds::RoundsError;
use bc_model::TurnLine;
use bc_pager::{Answer, LIVE_ROOM};

/// How many notices the longest line has.
pub(crate) fn longest_line(lines: &[TurnLine]) -> usize
    ensures { result ≡ longest_of (hints_in lines.now) }
{
    let mut most = 0;
    for line in lines {
        most = larger(most, notices_of(line));
    }
    most
}

/// How many notices the line has.
fn notices_of(line: &TurnLine) -> usize
    ensures { result ≡ length line.now.hints }
{
    line.hints.len()
}

/// The larger one of two numbers.
fn larger(a: usize, b: usize) -> usize
    ensures { result ≡ max a b }
{
    if a < b { b } else { a }
}

/// Takes room for the answers of a round: to the notices of its lanes' line, and to those of two lines more, of a mark turn between the turn
/// and the emptying and of one in the emptying. Its only error is that of the list.
pub(crate) fn take_room(
    answers: &mut Vec<Answer>,
    line: usize,
    longest: usize,
) -> Result<(), RoundsError>
    ensures same { answers.new.items ≡ answers.old.items }
    ensures room { OnOk result (length answers.new.items + (line + 2 * longest) ≤ vec_capacity answers.new) }
    ensures no_room { IfNoRoom result (HasNoRoomFor answers.new (line + 2 * longest)) }
    ensures only { IfTooSmall result (λ need. ⊥) }
{
    let more = longest.saturating_mul(2).saturating_add(line);
    answers.reserve(more)?;
    Ok(())
}

/// Takes room for the answers of a turn's live pager, where one notice more may come. Its only error is that of the list.
pub(crate) fn take_live_room(answers: &mut Vec<Answer>, coming: bool) -> Result<(), RoundsError>
    ensures same { answers.new.items ≡ answers.old.items }
    ensures room { OnOk result (coming ≡ true → length answers.new.items + live_room ≤ vec_capacity answers.new) }
    ensures no_room { IfNoRoom result ((coming ≡ true) × HasNoRoomFor answers.new live_room) }
    ensures only { IfTooSmall result (λ need. ⊥) }
{
    if coming {
        answers.reserve(LIVE_ROOM)?;
    }
    Ok(())
}

/// How many pages with objects left for the notices whose answers come after so many.
pub(crate) fn pages_left_since(answers: &Vec<Answer>, from: usize) -> u64
    ensures { result ≡ left_since from answers.now.items }
{
    left_in(answers.as_slice(), from)
}

/// The same of a slice.
fn left_in(answers: &[Answer], from: usize) -> u64
    ensures { result ≡ left_since from answers.now }
{
    let mut left = 0;
    for index in from..answers.len() {
        let answer = &answers[index];
        left += names_left(answer);
    }
    left
}

/// Does the answer name a page with objects that left: 1 if it does, else 0.
fn names_left(answer: &Answer) -> u64
    ensures names { result ≡ names answer.now }
    ensures few { result ≤ 1 }
{
    match answer {
        Answer::Evicted(_) => 1,
        _ => 0,
    }
}
