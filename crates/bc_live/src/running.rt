//! The run of a trace whose live pagers take hints out of a queue, and the feeder beside it.

ghost use Rattle.std.specs.Prelude.{◌≡◌, ◌^◌, ◌<◌, ◌≤◌, [], Some, length, vec_capacity};
ghost use Rattle.bc_feed.specs.Ends.{HasHandedIn, channel_id, feeder_channel, feeder_most, handed_of, taken_of, taker_channel, taker_most};
ghost use Rattle.bc_model.specs.RunLengths.{all_ops_of};
ghost use Rattle.bc_model.specs.WellFormed.{IsTrace};
ghost use Rattle.bc_replay.specs.Courses.{whole_course};
ghost use Rattle.bc_replay.specs.Endings.{HasRunRoom};
ghost use Rattle.bc_pager.specs.Claiming.{unshared};
ghost use Rattle.bc_replay.specs.Feeding.{AreAnswersTo};
ghost use Rattle.bc_live.specs.Feeds.{RunsFed};
ghost use Rattle.bc_live.specs.Runs.{EndsRun, HasFed};

use crate::notices::{ChannelName, QueueNotices};
use crate::words::LiveWords;
use bc_engine::Pacing;
use bc_feed::{Channel, Feed, Feeder, Taker, feed_beside};
use bc_gates::{Gate, Host};
use bc_io::Sink;
use bc_model::Trace;
use bc_pager::{Answer, Notices};
use bc_replay::{Outcome, run_trace_with};
use std::sync::Wait;
use std::thread::Threads;

/// Replays a trace on a new heap, as `run_trace_with` of bc_replay does, and makes what the caller wants of the outcome. A caller whose
/// notices borrow can call this one alone, as its result is of a type of the caller's.
fn run_as<R, G, N, K, O>(
    host: &Host<R, G>,
    trace: &Trace,
    workers: u32,
    live: &mut N,
    answers: &mut Vec<Answer>,
    sink: &mut K,
) -> O
where
    R: Threads + Sync,
    G: Gate + Sync,
    N: Notices + Send,
    K: Sink,
    O: From<Outcome>,
    requires trace { IsTrace trace.now }
    requires phases { length trace.now.phases < 2 ^ 32 }
    requires ops { all_ops_of trace.now < 2 ^ 32 }
    requires workers { (1 ≤ workers) × (workers ≤ 16) }
    requires room { HasRunRoom (K.room sink.old) (whole_course trace.now) }
    requires unshared { N.shared live.old ≡ unshared }
    requires told { AreAnswersTo (N.taken live.old) answers.old.items }
    requires answers_room { N.most live.old ≤ vec_capacity answers.old }
    ensures ran { (outcome : Outcome) × O.from_gives outcome result
        × EndsRun trace.now workers (K.held sink.old) (K.held sink.new) (K.faults sink.old) (K.faults sink.new) outcome.status outcome.heap (sink.new ≡ sink.old)
        × RunsFed trace.now workers (N.taken live.old) (N.taken live.new) answers.old.items answers.new.items outcome.heap }
    ensures told { AreAnswersTo (N.taken live.new) answers.new.items }
{
    O::from(run_trace_with(host, trace, workers, Pacing::Learned, live, answers, sink))
}

/// Replays a trace on a new heap whose live pagers take hints out of the queue. `answers` has room for one answer for each hint.
fn run_on_queue<R, W, C, K, G>(
    host: &Host<R, G>,
    trace: &Trace,
    workers: u32,
    live: &mut QueueNotices<W, C>,
    answers: &mut Vec<Answer>,
    sink: &mut K,
) -> Outcome
where
    R: Threads + Sync,
    W: Wait + Sync,
    C: ChannelName + Send,
    K: Sink,
    G: Gate + Sync,
    requires trace { IsTrace trace.now }
    requires phases { length trace.now.phases < 2 ^ 32 }
    requires ops { all_ops_of trace.now < 2 ^ 32 }
    requires workers { (1 ≤ workers) × (workers ≤ 16) }
    requires room { HasRunRoom (K.room sink.old) (whole_course trace.now) }
    requires fresh { taken_of live.old.taker ≡ [] }
    requires none { answers.old.items ≡ [] }
    requires answers_room { live.old.most ≤ vec_capacity answers.old }
    ensures ran { EndsRun trace.now workers (K.held sink.old) (K.held sink.new) (K.faults sink.old) (K.faults sink.new) result.status result.heap (sink.new ≡ sink.old) }
    ensures fed { HasFed trace.now workers live.new.taker answers.new.items result.heap }
{
    run_as(host, trace, workers, live, answers, sink)
}

/// Replays a trace, and beside it the feeder hands in more hints of the feed. The taker's end comes back, which took what the live pagers
/// answered.
pub(crate) fn run_beside_feeder<R, W, C, K, F, G>(
    host: &Host<R, G>,
    wait: &W,
    trace: &Trace,
    asked: &LiveWords,
    channel: &Channel,
    feeder: &mut Feeder,
    feed: &mut F,
    taker: Taker,
    answers: &mut Vec<Answer>,
    sink: &mut K,
) -> (Outcome, Taker)
where
    R: Threads + Sync,
    W: Wait + Sync,
    C: ChannelName + Send,
    K: Sink,
    F: Feed + Send,
    G: Gate + Sync,
    requires trace { IsTrace trace.now }
    requires phases { length trace.now.phases < 2 ^ 32 }
    requires ops { all_ops_of trace.now < 2 ^ 32 }
    requires workers { (1 ≤ asked.now.workers) × (asked.now.workers ≤ 16) }
    requires room { HasRunRoom (K.room sink.old) (whole_course trace.now) }
    requires named { Some (channel_id channel.now) ≡ C.channel }
    requires ends { (feeder_channel feeder.old ≡ channel_id channel.now) × (taker_channel taker ≡ channel_id channel.now) }
    requires most { taker_most taker ≡ asked.now.count }
    requires fresh { taken_of taker ≡ [] }
    requires none { answers.old.items ≡ [] }
    requires answers_room { asked.now.count ≤ vec_capacity answers.old }
    ensures ran { EndsRun trace.now asked.now.workers (K.held sink.old) (K.held sink.new) (K.faults sink.old) (K.faults sink.new) result.0.status result.0.heap (sink.new ≡ sink.old) }
    ensures fed { HasFed trace.now asked.now.workers result.1 answers.new.items result.0.heap }
    ensures handed { HasHandedIn (handed_of feeder.old) (F.coming feed.old) (handed_of feeder.new) (F.coming feed.new) }
    ensures most { feeder_most feeder.new ≡ feeder_most feeder.old }
    ensures ends { (feeder_channel feeder.new ≡ channel_id channel.now) × (taker_channel result.1 ≡ channel_id channel.now) }
{
    let mut live = QueueNotices::<W, C>::new(wait, channel, taker, asked.count);
    let outcome = feed_beside(
        host.threads,
        wait,
        channel,
        feeder,
        feed,
        &mut || -> Outcome
            requires { IsTrace trace.now × (length trace.now.phases < 2 ^ 32) × (all_ops_of trace.now < 2 ^ 32)
                × (1 ≤ asked.now.workers) × (asked.now.workers ≤ 16) × HasRunRoom (K.room sink.now) (whole_course trace.now)
                × (taken_of live.taker ≡ []) × (live.most ≡ asked.now.count) × (answers.now.items ≡ []) × (asked.now.count ≤ vec_capacity answers.now) }
            ensures { EndsRun trace.entry.now asked.entry.now.workers (K.held sink.entry.now) (K.held sink.exit.now) (K.faults sink.entry.now) (K.faults sink.exit.now) result.status result.heap (sink.exit.now ≡ sink.entry.now)
                × HasFed trace.entry.now asked.entry.now.workers live.exit.taker answers.exit.now.items result.heap }
        { run_on_queue(host, trace, asked.workers, &mut live, answers, sink) },
    );
    (outcome, live.into_taker())
}
