//! The live pager of a turn: it answers notices that come from outside while the turn is under way, beside the others.

ghost use Rattle.std.specs.Prelude.{◌≡◌, ◌+◌, ◌≤◌, ◌++◌, length, option_to_list, replicate, vec_capacity, IfOk};
ghost use Rattle.bc_pager.specs.Claiming.{unshared};
ghost use Rattle.bc_pager.specs.Feeding.{HasServedLive, IsLivePagerReady, ServedOut, answers_of_live, rooms_of_live};
ghost use Rattle.bc_pager.specs.Paging.{seats_of};
ghost use Rattle.bc_pager.specs.Serving.{no_answers};

use crate::answers::{Answer, Answers, keep_answers};
use crate::notices::Notices;
use crate::paging::{Paging, pager_rooms};
use crate::serving::serve;
use bc_gates::Gate;
use bc_pins::{Pins, Seat};
use std::alloc::{AllocError, Global};

/// How many notices a live pager answers at most in its turn.
pub const LIVE_ROOM: usize = 64;

/// Answers notices from outside until `live` has none or so many are answered. It takes no memory, and waits for nothing but what `next`
/// of `live` waits for.
pub fn serve_live<N: Notices, G: Gate>(pins: &Pins, live: &mut N, gate: &G, paging: &mut Paging)
    requires unshared { N.shared live.old ≡ unshared }
    requires ready { IsLivePagerReady pins.now paging.old }
    ensures served { HasServedLive pins.now (N.taken live.old) (N.taken live.new) (N.since live.old) (N.since live.new) paging.old paging.new }
    ensures ended { ServedOut (N.ends live.old) (N.ends live.new) 0 (length paging.new.answers.list) }
    ensures feed { (N.shared live.new ≡ N.shared live.old) × (N.told live.new ≡ N.told live.old) × (N.most live.new ≡ N.most live.old) }
{
    serve(pins, &mut paging.seat, live, gate, &mut paging.answers);
    let _room = paging.answers.left();
}

/// Room for the answers of so many pagers, and for those of the live one, where there is to be one.
pub fn turn_rooms(
    alloc: Global,
    count: u32,
    notices: usize,
    live: bool,
) -> Result<Vec<Answers>, AllocError>
    ensures rooms { IfOk result (λ rooms. rooms.items ≡ replicate count (no_answers notices) ++ rooms_of_live live) }
{
    let mut rooms = pager_rooms(alloc, count, notices)?;
    if live {
        rooms.push(Answers::new(alloc, LIVE_ROOM)?)?;
    }
    Ok(rooms)
}

/// Puts the live pager's seat after the others, and its answers after those that there are, in the order in which it took their notices.
/// It takes no memory.
pub fn end_live(pager: Option<Paging>, seats: &mut Vec<Seat>, answers: &mut Vec<Answer>)
    requires seats { length seats.old.items + length (option_to_list pager) ≤ vec_capacity seats.old }
    requires answers { length answers.old.items + length (answers_of_live pager) ≤ vec_capacity answers.old }
    ensures seats { seats.new.items ≡ seats.old.items ++ seats_of (option_to_list pager) }
    ensures kept { answers.new.items ≡ answers.old.items ++ answers_of_live pager }
    ensures capacity { (vec_capacity seats.new ≡ vec_capacity seats.old) × (vec_capacity answers.new ≡ vec_capacity answers.old) }
{
    if let Some(paging) = pager {
        let Paging {
            seat,
            answers: told,
        } = paging;
        keep_answers(answers, told.list());
        seats.push_reserved(seat);
    }
}
