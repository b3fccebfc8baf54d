//! Lanes do their operations of a phase one after the other, and their replies are kept.

ghost use Rattle.std.specs.Prelude.{◌≡◌, ℕ, ◌<◌, ◌≤◌, [], length, true, false};
ghost use Rattle.bc_engine.specs.Engines.{HasEmptyChunks};
ghost use Rattle.bc_engine.specs.EngineFacts.{IsUnrecorded};
ghost use Rattle.bc_engine.specs.Attempts.{RanByAttempts, StoppedAlone};
ghost use Rattle.bc_engine.specs.Lanes.{of_lane, AreDone, EachFurther, HasMore, IsAtEndOr, IsOneMore, IsUnderway, LeavesCells, LeavesOthers, LanesRan, Stops};
ghost use Rattle.bc_whole_heap.specs.LaneChunks.{chunk_of};
ghost use Rattle.bc_model.specs.Rows.{lists_of};
ghost use Rattle.bc_model.specs.declared.traces.Setup.{Setup};

use bc_model::{Op, Reply};
use bc_running::Running;

/// Does the next operation of a lane and keeps its reply. It answers `false` where the lane is at its end, or its operation
/// stops; then at most pages have moved.
fn advance(running: &mut Running, lanes: &[Vec<Op>], replies: &mut [Vec<Reply>], lane: u32) -> bool
    requires lane { lane < length lanes.now }
    requires underway { (setup : Setup) × IsUnderway setup (lists_of lanes.now) running.old replies.old }
    ensures runs { LanesRan (lists_of lanes.now) running.old replies.old running.new replies.new }
    ensures attempts { RanByAttempts (lists_of lanes.now) running.old (lists_of replies.old) running.new (lists_of replies.new) }
    ensures leaves { LeavesCells running.old running.new }
    ensures further { result ≡ true → IsOneMore (of_lane (lists_of lanes.now) lane) (of_lane (lists_of replies.old) lane) (of_lane (lists_of replies.new) lane) }
    ensures same { result ≡ false → replies.new ≡ replies.old }
    ensures stopped { result ≡ false → IsAtEndOr (of_lane (lists_of lanes.now) lane) (of_lane (lists_of replies.new) lane) (λ op. Stops lane op running.new) }
    ensures alone { (chunk_of running.old.heap.chunks lane).objects ≡ [] → IsUnrecorded running.old.heap → result ≡ false
        → length (of_lane (lists_of lanes.now) lane) ≤ length (of_lane (lists_of replies.new) lane) }
    ensures unrecorded { (chunk_of running.old.heap.chunks lane).objects ≡ [] → IsUnrecorded running.old.heap → IsUnrecorded running.new.heap }
    ensures others { LeavesOthers lane running.old (lists_of replies.old) running.new (lists_of replies.new) }
{
    let index = lane as usize;
    let done = replies[index].len();
    if done >= lanes[index].len() {
        return false;
    }
    match running.operate(lane, &lanes[index][done]) {
        Ok(reply) => {
            replies[index].push_reserved(reply);
            true
        }
        Err(_) => false,
    }
}

/// Does operations of a lane until it is at its end, or one stops.
fn run_lane(running: &mut Running, lanes: &[Vec<Op>], replies: &mut [Vec<Reply>], lane: u32)
    requires lane { lane < length lanes.now }
    requires underway { (setup : Setup) × IsUnderway setup (lists_of lanes.now) running.old replies.old }
    ensures runs { LanesRan (lists_of lanes.now) running.old replies.old running.new replies.new }
    ensures attempts { RanByAttempts (lists_of lanes.now) running.old (lists_of replies.old) running.new (lists_of replies.new) }
    ensures leaves { LeavesCells running.old running.new }
    ensures stopped { IsAtEndOr (of_lane (lists_of lanes.now) lane) (of_lane (lists_of replies.new) lane) (λ op. Stops lane op running.new) }
    ensures others { LeavesOthers lane running.old (lists_of replies.old) running.new (lists_of replies.new) }
{
    'operations: while advance(running, lanes, replies, lane) {}
}

/// Does operations of each lane, in the order of the lanes, until it is at its end or one stops.
pub(crate) fn run_lanes(running: &mut Running, lanes: &[Vec<Op>], replies: &mut [Vec<Reply>])
    requires { (setup : Setup) × IsUnderway setup (lists_of lanes.now) running.old replies.old }
    ensures runs { LanesRan (lists_of lanes.now) running.old replies.old running.new replies.new }
    ensures attempts { RanByAttempts (lists_of lanes.now) running.old (lists_of replies.old) running.new (lists_of replies.new) }
    ensures leaves { LeavesCells running.old running.new }
    ensures stopped { (j : ℕ) → j < length lanes.now
        → StoppedAlone (lists_of lanes.now) running.old replies.old running.new replies.new j }
{
    for lane in 0..lanes.len() as u32 {
        run_lane(running, lanes, replies, lane);
    }
}

/// Does one operation of each lane that isn't at its end, in the order of the lanes. All chunks and write buffers are empty, and no page
/// is Remembered, so none stops: a page that is wanted comes home, since every other one can leave.
pub(crate) fn step_lanes(running: &mut Running, lanes: &[Vec<Op>], replies: &mut [Vec<Reply>])
    requires underway { (setup : Setup) × IsUnderway setup (lists_of lanes.now) running.old replies.old }
    requires empty { HasEmptyChunks running.old.heap }
    requires unrecorded { IsUnrecorded running.old.heap }
    ensures runs { LanesRan (lists_of lanes.now) running.old replies.old running.new replies.new }
    ensures attempts { RanByAttempts (lists_of lanes.now) running.old (lists_of replies.old) running.new (lists_of replies.new) }
    ensures leaves { LeavesCells running.old running.new }
    ensures unrecorded { IsUnrecorded running.new.heap }
    ensures each { EachFurther (length lanes.now) (lists_of lanes.now) (lists_of replies.old) (lists_of replies.new) }
{
    for lane in 0..lanes.len() as u32 {
        let _further = advance(running, lanes, replies, lane);
    }
}

/// Are all lanes at their ends?
pub(crate) fn are_done(lanes: &[Vec<Op>], replies: &[Vec<Reply>]) -> bool
    requires { length replies.now ≡ length lanes.now }
    ensures done { result ≡ true → AreDone (lists_of lanes.now) (lists_of replies.now) }
    ensures more { result ≡ false → HasMore (lists_of lanes.now) (lists_of replies.now) }
{
    for lane in 0..lanes.len() {
        if replies[lane].len() < lanes[lane].len() {
            return false;
        }
    }
    true
}
