//! The end of a turn's pagers: their answers are laid in the order of the notices.

ghost use Rattle.std.specs.Prelude.{◌≡◌, ℕ, List, ◌+◌, ◌^◌, ◌<◌, ◌≤◌, [], ◌++◌, length, map, min, slice_index, slice_index_or, vec_capacity};
ghost use Rattle.std.specs.List.{AllByRecursion};
ghost use Rattle.bc_pager.specs.Paging.{AreDealtPagers, HaveAllPaged, seats_of};
ghost use Rattle.bc_pager.specs.Placing.{AnsweredByPagers, AreNumberedOnce, ClaimAsMany, HasNumbersBelow, HavePlaces, paged_of};
ghost use Rattle.bc_pager.specs.declared.answers.Answer.{Answer};
ghost use Rattle.bc_pager.specs.declared.answers.Answer.TheVariants.{Declined};
ghost use Rattle.bc_pager.specs.declared.paging.Paging.{Paging};
ghost use Rattle.bc_pins.specs.Calls.{key_of};
ghost use Rattle.bc_pins.specs.Closing.{HaveClaimed};
ghost use Rattle.bc_pins.specs.Totals.{times};
ghost use Rattle.bc_pins.specs.declared.pins.Pins.{Pins};
ghost use Rattle.bc_pins.specs.declared.pins.Seat.{Seat};

use crate::answers::{Answer, Answers};
use crate::paging::Paging;
use bc_pins::Seat;

/// Gathers the seats of pagers after the others, in their order, and lays their answers after those that there are: each at the number
/// of its notice. It takes no memory.
pub fn end_pagers(
    pagers: Vec<Paging>,
    seats: &mut Vec<Seat>,
    answers: &mut Vec<Answer>,
    notices: usize,
)
    requires seats { length seats.old.items + length pagers.items ≤ vec_capacity seats.old }
    requires answers { length answers.old.items + notices ≤ vec_capacity answers.old }
    requires numbers { AllByRecursion (HasNumbersBelow notices) pagers.items }
    ensures seats { seats.new.items ≡ seats.old.items ++ seats_of pagers.items }
    ensures placed { (told : List Answer) × (answers.new.items ≡ answers.old.items ++ told) × (length told ≡ notices) × (AreNumberedOnce (map paged_of pagers.items) → AllByRecursion (HavePlaces told) (map paged_of pagers.items)) }
    ensures capacity { (vec_capacity seats.new ≡ vec_capacity seats.old) × (vec_capacity answers.new ≡ vec_capacity answers.old) }
{
    let before = answers.len();
    for _ in 0..notices {
        answers.push_reserved(Answer::Declined);
    }
    gather(pagers, seats, answers.slice_mut(before..));
}

/// The same over a list of as many answers as notices.
fn gather(pagers: Vec<Paging>, seats: &mut Vec<Seat>, told: &mut [Answer])
    requires seats { length seats.old.items + length pagers.items ≤ vec_capacity seats.old }
    requires numbers { AllByRecursion (HasNumbersBelow (length told.old)) pagers.items }
    ensures seats { seats.new.items ≡ seats.old.items ++ seats_of pagers.items }
    ensures capacity { vec_capacity seats.new ≡ vec_capacity seats.old }
    ensures long { length told.new ≡ length told.old }
    ensures placed { AreNumberedOnce (map paged_of pagers.items) → AllByRecursion (HavePlaces told.new) (map paged_of pagers.items) }
{
    let mut rest = pagers.into_iter();
    while let Some(paging) = rest.next() {
        let Paging { seat, answers } = paging;
        place(told, &answers);
        seats.push_reserved(seat);
    }
    rest.destroy_empty();
}

/// Lays answers at the numbers of their notices.
fn place(told: &mut [Answer], answers: &Answers)
    requires numbers { AllByRecursion (λ n. n < length told.old) answers.now.numbers }
    ensures long { length told.new ≡ length told.old }
    ensures others { (n : ℕ) → times n answers.now.numbers ≡ 0 → slice_index_or told.new n Declined ≡ slice_index_or told.old n Declined }
    ensures placed { ((n : ℕ) → times n answers.now.numbers ≤ 1) → (j : ℕ) → j < length answers.now.numbers → slice_index_or told.new (slice_index answers.now.numbers j) Declined ≡ slice_index_or answers.now.list j Declined }
{
    let list = answers.list();
    let numbers = answers.numbers();
    for place in 0..list.len() {
        told[numbers[place] as usize] = list[place];
    }
}

/// Law: once a table is closed, at which the pagers of a turn have answered, each notice of the turn is one pager's, and its answer stands
/// at its number. `seats` are those that the table took back, of which the pagers' alone claimed.
pub fn law_answered_by_pagers()
    ensures answered { (pins : Pins) → (hints : List ℕ) → (old new : List Paging) → (seats : List Seat) → (told : List Answer)
        → length old ≡ min (length hints) 4 → length hints < 2 ^ 61 → AreDealtPagers pins old → HaveAllPaged pins hints old new
        → HaveClaimed seats → ClaimAsMany seats (seats_of new) → length told ≡ length hints
        → (AreNumberedOnce (map paged_of new) → AllByRecursion (HavePlaces told) (map paged_of new))
        → AnsweredByPagers (key_of pins) hints (map paged_of new) told }
{}
