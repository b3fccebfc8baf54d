//! The call that the program makes: the words, the trace, and its run with a feeder beside it.

ghost use Rattle.std.specs.Prelude.{◌≡◌, ◌≢◌, ◌++◌, ℕ, ◌+◌, ◌^◌, ◌<◌, ◌≤◌, ◌⊎◌, List, [], None, Some, IfOk, IfSome, length, map, min, vec_capacity};
ghost use Rattle.bc_feed.specs.Ends.{both_channel, both_most, channel_id};
ghost use Rattle.bc_io.specs.Faults.{Rose};
ghost use Rattle.bc_io.specs.Told.{GivesAtMost, GivesExactly};
ghost use Rattle.bc_model.specs.Lists.{TraceLists};
ghost use Rattle.bc_model.specs.RunLengths.{all_ops_of};
ghost use Rattle.bc_model.specs.WellFormed.{IsTrace};
ghost use Rattle.bc_trace.specs.Faults.{Fault};
ghost use Rattle.bc_trace.specs.Lines.{Spells};
ghost use Rattle.bc_trace.specs.declared.fault.TraceFault.{TraceFault};
ghost use Rattle.bc_replay.specs.Accounts.{KeepsAccount};
ghost use Rattle.bc_replay.specs.Courses.{whole_course};
ghost use Rattle.bc_replay.specs.Endings.{FitsThroughout, HasRunRoom};
ghost use Rattle.bc_replay.specs.Outcomes.{Faulty, HasRoomFor, IfBadTrace, IfHeapless, IfStatusOutOfHeap, IsOrNoMemory, RanOutOfHeap, Replayed, ReplayedInPart, ReplayedTo, longest_trace};
ghost use Rattle.bc_live.specs.Feeds.{FedLive, FedTrace};
ghost use Rattle.bc_live.specs.Runs.{EndsRun};
ghost use Rattle.bc_live.specs.Statuses.{IfRan, IfUnread, as_status};
ghost use Rattle.bc_live.specs.Words.{IsLiveWords};

use crate::outcome::LiveOutcome;
use crate::running::run_beside_feeder;
use crate::status::LiveStatus;
use crate::words::{LiveWords, live_words_of};
use bc_feed::{BothEnds, Channel, Feed, open};
use bc_gates::{Gate, Host};
use bc_io::{Sink, Source};
use bc_model::Trace;
use bc_pager::Answer;
use bc_replay::{Status, read_trace};
use std::alloc::{AllocError, Global};
use std::marker::Brand;
use std::sync::Wait;
use std::thread::Threads;

/// Reads a trace from the source, replays it, and writes the replies to the sink, as `run` of `bc` does. Beside the run a feeder on another
/// thread hands in hints of the feed. A turn of lanes takes some of those that are there, 64 at most, and a pager answers each: it begins
/// with the page that the hint names to look for one that can leave. What is written doesn't depend on that.
///
/// The words come without the program's name: where the feed's hints are drawn from, which only the caller uses, how many are handed in at
/// most, and how many workers the heap has. The gate goes on to the engine. A sink that reports its room must have room for all that may be
/// written.
pub fn live<R, W, S, K, F, G>(
    rt: &R,
    alloc: Global,
    wait: &W,
    words: &[&str],
    source: &mut S,
    sink: &mut K,
    feed: &mut F,
    gate: &G,
) -> LiveOutcome
where
    R: Threads + Sync,
    W: Wait + Sync,
    S: Source,
    K: Sink,
    F: Feed + Send,
    G: Gate + Sync,
    // A sink whose room is known has room for all that may be written. Four times the bytes of the trace and 40 are enough, or of the
    // longest trace where nothing is known of the source.
    requires room { (asked : LiveWords) → IsLiveWords (map (λ w. w.now) words.now) asked →
        HasRoomFor (S.left source.old) (K.room sink.old) }

    // The headline. Status 0: the bytes that the source had are the text of a trace, none is left, and what was written are exactly the
    // replies to it of the heap that never frees, moves or pages. The heap that is handed back stands for the state of that one at the
    // end, its chunks are empty, and after each phase the need was at most the number of superpages.
    ensures done { result.status ≡ LiveStatus.Done →
        Replayed (S.left source.old) (S.left source.new) (K.held sink.old) (K.held sink.new) result.heap }

    // Status 2 comes only where the words aren't two or three numbers in their ranges.
    ensures bad_words { result.status ≡ LiveStatus.BadWords →
        (asked : LiveWords) → ¬ IsLiveWords (map (λ w. w.now) words.now) asked }

    // Where they aren't, status 2 comes, or memory runs out; source, sink and feed are untouched.
    ensures refused { ((asked : LiveWords) → ¬ IsLiveWords (map (λ w. w.now) words.now) asked) →
        IsOrNoMemory (as_status result.status) Status.BadWords × (source.new ≡ source.old) × (sink.new ≡ sink.old) × (feed.new ≡ feed.old) }

    // Status 3 with a line and a cause: the whole input was read, this is the first fault of its trace, and nothing was written.
    ensures bad_trace { IfBadTrace (as_status result.status) (λ line cause.
        Faulty (S.left source.old) (S.left source.new) line cause × (sink.new ≡ sink.old)) }

    // Status 3 for length: reads without a fault gave one byte more than an input may have, 16,777,217, and nothing was written.
    ensures too_long { result.status ≡ LiveStatus.TooLong →
        GivesExactly (S.left source.old) (S.left source.new) (longest_trace + 1) × (sink.new ≡ sink.old) }

    // At every other status at most as many bytes were read as an input may have.
    ensures short { result.status ≢ LiveStatus.TooLong → GivesAtMost (S.left source.old) (S.left source.new) longest_trace }

    // Status 4: the source's count of faults rose in this call, and nothing was written.
    ensures read_fault { result.status ≡ LiveStatus.ReadFault →
        Rose (S.faults source.old) (S.faults source.new) × (sink.new ≡ sink.old) }

    // Status 5: the sink's count of faults rose in this call. A trace was read, and what was written are the whole texts of some first
    // phases and a prefix, and not all, of what comes next: the next phase's text, `done`, or what a run whose heap is too small ends
    // with. The heap that is handed back stands for the state there.
    ensures write_fault { result.status ≡ LiveStatus.WriteFault → Rose (K.faults sink.old) (K.faults sink.new)
        × ReplayedInPart (S.left source.old) (S.left source.new) (K.held sink.old) (K.held sink.new) result.heap }

    // At every status but 4 the source's count of faults is as it was.
    ensures firm_source { result.status ≢ LiveStatus.ReadFault → S.faults source.new ≡ S.faults source.old }

    // At every status but 5 the sink's count of faults is as it was.
    ensures firm_sink { result.status ≢ LiveStatus.WriteFault → K.faults sink.new ≡ K.faults sink.old }

    // Status 6 with a need: a trace was read, and what was written are the whole texts of the phases before some phase, the replies of
    // that phase up to some cut of its lanes, and the line of the need. The need is that of the plain heap's state at the cut, and above
    // the number of superpages. The heap that is handed back stands for that state.
    ensures out_of_heap { IfStatusOutOfHeap (as_status result.status) (λ need.
        RanOutOfHeap (S.left source.old) (S.left source.new) (K.held sink.old) (K.held sink.new) result.heap need) }

    // Status 7, the one free answer: nothing was written, or a trace was read, and the whole texts of the phases before one of its phases
    // were written, and nothing else.
    ensures no_memory { result.status ≡ LiveStatus.NoMemory → (sink.new ≡ sink.old)
        ⊎ ReplayedTo (S.left source.old) (S.left source.new) (K.held sink.old) (K.held sink.new) }

    // At statuses 2, 3, 4 and 7 no heap is handed back.
    ensures none { IfHeapless (as_status result.status) (result.heap ≡ None) }

    // The heap that is handed back was opened for as many workers as the words ask for.
    ensures workers { (asked : LiveWords) → IsLiveWords (map (λ w. w.now) words.now) asked →
        IfSome result.heap (λ engine. engine.workers ≡ asked.workers) }

    // The heap that is handed back keeps its account: bookmarks and counters stand for what the pages that left refer to, and free frames,
    // nursery pages, withheld frames and resident pages add up to the trace's frames. None is withheld but where the heap turned out too
    // small.
    ensures account { IfSome result.heap KeepsAccount }

    // A trace within the limit: if in every phase, after every cut of its lanes, the need is at most the number of superpages, and no
    // fault is counted, it is done, or memory runs out.
    ensures complete { (asked : LiveWords) (bytes : List ℕ) (t : TraceLists) → IsLiveWords (map (λ w. w.now) words.now) asked →
        S.left source.old ≡ Some bytes → length bytes ≤ longest_trace → Spells bytes t → FitsThroughout t →
        ¬ Rose (S.faults source.old) (S.faults source.new) → ¬ Rose (K.faults sink.old) (K.faults sink.new) →
        IsOrNoMemory (as_status result.status) Status.Done }

    // An input within the limit that is no trace: if no read failed, status 3 comes with its first fault, or memory runs out.
    ensures faulty { (asked : LiveWords) (bytes : List ℕ) (f : TraceFault) → IsLiveWords (map (λ w. w.now) words.now) asked →
        S.left source.old ≡ Some bytes → length bytes ≤ longest_trace → Fault bytes f.line f.cause →
        ¬ Rose (S.faults source.old) (S.faults source.new) →
        IsOrNoMemory (as_status result.status) (Status.BadTrace f.line f.cause) }

    // A longer input: if no read failed, status 3 comes for length, or memory runs out.
    ensures longer { (asked : LiveWords) (bytes : List ℕ) → IsLiveWords (map (λ w. w.now) words.now) asked →
        S.left source.old ≡ Some bytes → longest_trace < length bytes →
        ¬ Rose (S.faults source.old) (S.faults source.new) → IsOrNoMemory (as_status result.status) Status.TooLong }

    // Of the feed. What was handed in are its next hints, in order, and it has those after them.
    ensures handed { result.handed.items ++ F.coming feed.new ≡ F.coming feed.old }

    // No more are handed in than the words allow.
    ensures most { (asked : LiveWords) → IsLiveWords (map (λ w. w.now) words.now) asked →
        length result.handed.items ≤ asked.count }

    // At statuses 0, 5 and 6 at least so many were handed in: as many as the words allow, as the queue has places for, 64, or as the feed
    // had.
    ensures enough { (asked : LiveWords) → IsLiveWords (map (λ w. w.now) words.now) asked →
        IfRan result.status (min (min asked.count 64) (length (F.coming feed.old)) ≤ length result.handed.items) }

    // What was handed in is what was taken, and then what is left.
    ensures split { result.handed.items ≡ result.taken.items ++ result.left.items }

    // There is one answer for each hint that was taken.
    ensures answers { length result.answers.items ≡ length result.taken.items }

    // Where there are answers, a trace was read, and they are what the live pagers of its phases answered to the hints that were taken, each
    // in order.
    ensures fed { (result.answers.items ≡ []) ⊎ ((asked : LiveWords) × IsLiveWords (map (λ w. w.now) words.now) asked
        × FedLive (S.left source.old) (S.left source.new) asked.workers result.taken.items result.answers.items result.heap) }

    // At statuses 0, 5 and 6 a trace was read, and its replay took these hints and no others, and gave these answers, also where there are
    // none. The heap that is handed back is the one that it left.
    ensures fed_run { (asked : LiveWords) → IsLiveWords (map (λ w. w.now) words.now) asked → IfRan result.status
        (FedLive (S.left source.old) (S.left source.new) asked.workers result.taken.items result.answers.items result.heap) }

    // At statuses 2, 3 and 4 the feed is untouched, and the four lists are empty.
    ensures untouched { IfUnread result.status ((feed.new ≡ feed.old)
        × (result.handed.items ≡ []) × (result.taken.items ≡ []) × (result.answers.items ≡ []) × (result.left.items ≡ [])) }
{
    let Ok(found) = live_words_of(alloc, words) else {
        return LiveOutcome::unfed(alloc, LiveStatus::NoMemory);
    };
    let Some(asked) = found else {
        return LiveOutcome::unfed(alloc, LiveStatus::BadWords);
    };
    let host = Host {
        threads: rt,
        alloc,
        gate,
    };
    match read_trace(alloc, source) {
        Ok(trace) => run_fed(&host, wait, &trace, &asked, sink, feed),
        Err(status) => LiveOutcome::unfed(alloc, LiveStatus::from_status(status)),
    }
}

/// Room for the answers, and a channel for as many hints, which weren't handed in yet. All memory is taken here that the feeder and the
/// lists need.
fn room_for(alloc: Global, count: usize) -> Result<(Vec<Answer>, Channel, BothEnds), AllocError>
    ensures answers { IfOk result (λ made. (made.0.items ≡ []) × (count ≤ vec_capacity made.0)) }
    ensures of { IfOk result (λ made. both_channel made.2 ≡ channel_id made.1) }
    ensures most { IfOk result (λ made. both_most made.2 ≡ count) }
{
    let answers = Vec::with_capacity(alloc, count)?;
    let (channel, ends) = open(alloc, count)?;
    Ok((answers, channel, ends))
}

/// Replays a trace that was read, with a feeder beside it. The first hints are handed in before.
fn run_fed<R, W, K, F, G>(
    host: &Host<R, G>,
    wait: &W,
    trace: &Trace,
    asked: &LiveWords,
    sink: &mut K,
    feed: &mut F,
) -> LiveOutcome
where
    R: Threads + Sync,
    W: Wait + Sync,
    K: Sink,
    F: Feed + Send,
    G: Gate + Sync,
    requires trace { IsTrace trace.now }
    requires phases { length trace.now.phases < 2 ^ 32 }
    requires ops { all_ops_of trace.now < 2 ^ 32 }
    requires workers { (1 ≤ asked.now.workers) × (asked.now.workers ≤ 16) }
    requires room { HasRunRoom (K.room sink.old) (whole_course trace.now) }
    ensures ran { EndsRun trace.now asked.now.workers (K.held sink.old) (K.held sink.new) (K.faults sink.old) (K.faults sink.new) (as_status result.status) result.heap (sink.new ≡ sink.old) }
    ensures handed { result.handed.items ++ F.coming feed.new ≡ F.coming feed.old }
    ensures most { length result.handed.items ≤ asked.now.count }
    ensures enough { IfRan result.status (min (min asked.now.count 64) (length (F.coming feed.old)) ≤ length result.handed.items) }
    ensures split { result.handed.items ≡ result.taken.items ++ result.left.items }
    ensures answers { length result.answers.items ≡ length result.taken.items }
    ensures fed { (result.answers.items ≡ []) ⊎ FedTrace trace.now asked.now.workers result.taken.items result.answers.items result.heap }
    ensures fed_run { IfRan result.status (FedTrace trace.now asked.now.workers result.taken.items result.answers.items result.heap) }
{
    let Ok((mut answers, channel, ends)) = room_for(host.alloc, asked.count as usize) else {
        return LiveOutcome::unfed(host.alloc, LiveStatus::NoMemory);
    };
    let (mut feeder, taker) = ends.fill(wait, &channel, feed);
    let (outcome, taker) = run_beside_feeder::<_, _, Brand, _, _, _>(
        host,
        wait,
        trace,
        asked,
        &channel,
        &mut feeder,
        feed,
        taker,
        &mut answers,
        sink,
    );
    let passed = channel.close(wait, feeder, taker);
    LiveOutcome {
        status: LiveStatus::from_status(outcome.status),
        heap: outcome.heap,
        handed: passed.handed,
        taken: passed.taken,
        answers,
        left: passed.left,
    }
}
