//! A turn of the lanes: they run, the notices of the turn's line are answered, and the heap is settled.

ghost use Rattle.std.specs.Prelude.{◌≡◌, ◌+◌, ◌≤◌, Bool, true, false, List, [], length, vec_capacity};
ghost use Rattle.bc_engine.specs.Lanes.{IsUnderway, LanesRan};
ghost use Rattle.bc_engine.specs.Turns.{RanTurn};
ghost use Rattle.bc_model.specs.Rows.{lists_of};
ghost use Rattle.bc_model.specs.declared.traces.Setup.{Setup};
ghost use Rattle.bc_pager.specs.Claiming.{unshared};
ghost use Rattle.bc_pager.specs.Feeding.{live_room};
ghost use Rattle.bc_pager.specs.Serving.{told_with};
ghost use Rattle.bc_pager.specs.declared.answers.Answer.{Answer};
ghost use Rattle.bc_pager.specs.declared.notices.Notice.{Notice};
ghost use Rattle.bc_turn.specs.Taking.{IsRoomKept};

use crate::lanes::run_lanes;
use crate::paces::{Pace, TurnWay, way_of_turn};
use bc_gates::{Gate, Host};
use bc_model::{Op, Reply, Setup};
use bc_pager::{Answer, Notices};
use bc_running::Running;
use bc_turn::{TurnRoom, TurnThreads};
use std::thread::Threads;

/// A turn of the lanes: each does operations until it is at its end or stops, the notices with these hints are answered, and the heap is
/// settled. Lanes and pagers work at a table, side by side where threads pay, or, where a table doesn't pay or there is no memory for
/// one, one lane after another on the heap itself, and then the notices are answered. Answers are kept after those that there are, for which
/// there is room. `room` is what turns take for the lanes, and `pace` says how tables of earlier turns paid. A turn takes memory and can't
/// be refused for lack of it.
///
/// Where one more may come from the feed `live`, the turn has a table, and a live pager there answers those that it takes. Its answers are kept in
/// a list of their own, after those that there are. Without memory for the table it takes none, and they are there for the next turn.
pub(crate) fn lane_turn<R, N, G>(
    host: &Host<R, G>,
    running: &mut Running,
    setup: &Setup,
    room: &mut TurnRoom,
    pace: &mut Pace,
    lanes: &[Vec<Op>],
    replies: &mut [Vec<Reply>],
    hints: &[u32],
    answers: &mut Vec<Answer>,
    live: &mut N,
    live_answers: &mut Vec<Answer>,
)
where
    R: Threads + Sync,
    N: Notices + Send,
    G: Gate + Sync,
    requires unshared { N.shared live.old ≡ unshared }
    requires live_room { N.coming live.old ≡ true → length live_answers.old.items + live_room ≤ vec_capacity live_answers.old }
    requires underway { IsUnderway setup.now (lists_of lanes.now) running.old replies.old }
    requires kept { IsRoomKept running.old.holders running.old.heap.roots.slots (lists_of lanes.now) (lists_of replies.old) room.old }
    requires room { length answers.old.items + length hints.now ≤ vec_capacity answers.old }
    ensures runs { LanesRan (lists_of lanes.now) running.old replies.old running.new replies.new }
    ensures turn { (fed : List Notice) × (N.taken live.new ≡ told_with (N.taken live.old) fed)
        × RanTurn (lists_of lanes.now) running.old replies.old answers.old.items hints.now running.new replies.new answers.new.items
        live_answers.old.items fed live_answers.new.items }
    ensures capacity { vec_capacity answers.old ≤ vec_capacity answers.new }
    ensures kept { IsRoomKept running.old.holders running.old.heap.roots.slots (lists_of lanes.now) (lists_of replies.new) room.new }
    ensures feed { (N.shared live.new ≡ N.shared live.old) × (N.told live.new ≡ N.told live.old) × (N.most live.new ≡ N.most live.old) }
    ensures idle { N.coming live.old ≡ false → (live.new ≡ live.old) × (live_answers.new.items ≡ live_answers.old.items) }
{
    let crowded = is_crowded(running);
    let threads = match way_of_turn(setup, pace, crowded, lanes, replies, hints, live.may_come()) {
        TurnWay::AtTable(threads) => threads,
        TurnWay::Plain => return turn_alone(running, lanes, replies, hints, answers),
    };
    match running.take_turn(
        host,
        room,
        lanes,
        replies,
        hints,
        answers,
        live,
        live_answers,
        threads,
    ) {
        Ok(()) => running.settle(),
        Err(_) => turn_alone(running, lanes, replies, hints, answers),
    }
}

/// Are there more pages with content than frames for them? Then one that comes back may have to wait until another leaves.
fn is_crowded(running: &Running) -> bool {
    let space = &running.heap().space;
    space.pages_with_content() > space.page_frames()
}

/// The same where nothing works beside another: one lane after another, and then the notices. No live pager takes any.
fn turn_alone(
    running: &mut Running,
    lanes: &[Vec<Op>],
    replies: &mut [Vec<Reply>],
    hints: &[u32],
    answers: &mut Vec<Answer>,
)
    requires underway { (setup : Setup) × IsUnderway setup (lists_of lanes.now) running.old replies.old }
    requires room { length answers.old.items + length hints.now ≤ vec_capacity answers.old }
    ensures runs { LanesRan (lists_of lanes.now) running.old replies.old running.new replies.new }
    ensures turn { (lived : List Answer) → RanTurn (lists_of lanes.now) running.old replies.old answers.old.items hints.now running.new replies.new answers.new.items
        lived [] lived }
    ensures capacity { vec_capacity answers.old ≤ vec_capacity answers.new }
{
    run_lanes(running, lanes, replies);
    running.answer(hints, answers);
    running.settle();
}
