//! Notices that are answered where nobody works beside: on a space itself, in place of at a table.

ghost use Rattle.std.specs.Prelude.{◌≡◌, ℕ, ◌+◌, ◌*◌, ◌<◌, ◌≤◌, [], ◌∷◌, length, vec_capacity};
ghost use Rattle.bc_bookmarks.specs.Moves.{MovesPages};
ghost use Rattle.bc_pager.specs.Alone.{AnsweredAlone, AnsweredLeaving, GivesUpFor, IsPlainAnswer};
ghost use Rattle.bc_pager.specs.Leaving.{LeavesNamed, SameObjects};
ghost use Rattle.bc_pins.specs.Opening.{IsOpenable};
ghost use Rattle.bc_superpages.specs.declared.headers.PageState.TheVariants.{Absent, Gone};
ghost use Rattle.bc_superpages.specs.Layout.{superpages};
ghost use Rattle.bc_superpages.specs.LayoutAt.{state_at};

use crate::answers::Answer;
use bc_bookmarks::give_up;
use bc_superpages::{PageState, Space};

/// Answers the notices with these hints, in their order, and keeps the answers after those that there are, for which there is room. It
/// takes no memory.
pub fn answer_all(space: &mut Space, hints: &[u32], answers: &mut Vec<Answer>)
    requires openable { IsOpenable space.old }
    requires room { length answers.old.items + length hints.now ≤ vec_capacity answers.old }
    ensures answered { AnsweredAlone space.old hints.now answers.old.items answers.new.items space.new }
    ensures leaves { AnsweredLeaving space.old hints.now answers.old.items answers.new.items space.new }
    ensures same { SameObjects space.old space.new }
    ensures moves { MovesPages space.old space.new }
    ensures openable { IsOpenable space.new }
    ensures room { vec_capacity answers.new ≡ vec_capacity answers.old }
{
    for hint in hints {
        let answer = answer_one(space, *hint);
        answers.push_reserved(answer);
    }
}

/// Answers a notice with this hint: gives up a page, if one can leave. A hint is a page's number; one past the last page is taken modulo
/// their number. It takes no memory.
pub fn answer_one(space: &mut Space, hint: u32) -> Answer
    requires openable { IsOpenable space.old }
    ensures answer { IsPlainAnswer space.old hint result space.new }
    ensures gives { GivesUpFor space.old hint space.new }
    ensures leaves { LeavesNamed space.old (result ∷ []) space.new }
    ensures same { SameObjects space.old space.new }
    ensures moves { MovesPages space.old space.new }
    ensures openable { IsOpenable space.new }
{
    space.facts();
    match give_up(space, hint) {
        Some(page) => answer_for(space, page),
        None => Answer::Declined,
    }
}

/// What became of a page that was given up.
fn answer_for(space: &Space, page: u32) -> Answer
    requires { page < 4 * superpages space.now }
    ensures evicted { state_at space.now.states page ≡ Gone → result ≡ Answer.Evicted page }
    ensures discarded { state_at space.now.states page ≡ Absent → result ≡ Answer.Discarded page }
{
    match space.state(page) {
        PageState::Gone => Answer::Evicted(page),
        _ => Answer::Discarded(page),
    }
}
