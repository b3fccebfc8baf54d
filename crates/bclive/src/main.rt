// bclive: the program that replays an allocation trace as `bc run` does, while a feeder hands in drawn hints which pages to page out.
//
// All its work is that of `bc_live::live`, whose contract is the theorem. `main` only starts a thread that makes the real source, sink and
// feed and calls `live`, prints the line that `report` gives for the status, and ends with its exit status. What it does is shown by
// `.ci/examples` and `.ci/statuses` on the built program. The work has a thread of its own because of its stack, as that of `bc`.
#![tactic(auto)]

ghost use Rattle.std.specs.Prelude.{◌≡◌, ◌≢◌, ◌⊎◌, ◌++◌, ◌≤◌, [], None, IfErr, IfOk, IfSome, length, map, min, option_map, string_bytes};
ghost use Rattle.std.specs.Process.{exit_status};
ghost use mathlib.Core.List.{IsPrefix};
ghost use Rattle.bc_feed.specs.Drawn.{hints_from};
ghost use Rattle.bc_live.specs.Feeds.{FedLive};
ghost use Rattle.bc_live.specs.Statuses.{IfRan, as_status};
ghost use Rattle.bc_live.specs.Words.{IsLiveWords};
ghost use Rattle.bc_replay.specs.Accounts.{KeepsAccount};
ghost use Rattle.bc_replay.specs.Outcomes.{Faulty, IfBadTrace, IfHeapless, IfStatusOutOfHeap, IsOrNoMemory, RanOutOfHeap, Replayed, longest_trace};
ghost use Rattle.bc_replay.specs.Statuses.{exit_code_of, fault_of};
ghost use Rattle.bc_replay.specs.declared.status.Status.TheVariants.{BadWords};

use bc_feed::DrawFeed;
use bc_gates::OpenGate;
use bc_io::{StdSink, StdSource};
use bc_live::live::live;
use bc_live::{LiveFault, LiveOutcome, LiveStatus, LiveWords, live_words_of};
use std::alloc::{AllocError, Global};
use std::env;
use std::io::{ErrorKind, Read, Write};
use std::process::ExitCode;
use std::sync::Wait;
use std::thread::{Builder, Threads};

/// The bytes of the stack on which all work is done: as many as most systems let the first thread's grow to.
const STACK: usize = 8 << 20;

/// The words after the program's name.
fn words_of(rt: &HostRuntime) -> Result<Vec<String>, LiveStatus>
    ensures { IfErr result (λ status. IsOrNoMemory (as_status status) BadWords) }
{
    match env::args(rt) {
        Ok(words) => words
            .skip(1)
            .collect(rt.alloc())
            .map_err(|_| LiveStatus::NoMemory),
        Err(error) => Err(wordless(error.kind())),
    }
}

/// The status of a program that can't have its words. Words that are no text are no numbers.
fn wordless(kind: ErrorKind) -> LiveStatus
    ensures memory { kind ≡ ErrorKind.OutOfMemory → result ≡ LiveStatus.NoMemory }
    ensures text { kind ≢ ErrorKind.OutOfMemory → result ≡ LiveStatus.BadWords }
{
    match kind {
        ErrorKind::OutOfMemory => LiveStatus::NoMemory,
        _ => LiveStatus::BadWords,
    }
}

/// The words, borrowed.
fn borrowed(alloc: Global, words: &[String]) -> Result<Vec<&str>, AllocError>
    ensures { IfOk result (λ texts. map (λ w. w.now) texts.items ≡ map (λ w. string_bytes w) words.now) }
{
    let mut texts = Vec::with_capacity(alloc, words.len())?;
    for word in words {
        texts.push(word.as_str())?;
    }
    Ok(texts)
}

/// The feed of the hints that the words ask for.
fn feed_of(asked: Option<LiveWords>) -> DrawFeed
    ensures drawn { IfSome asked (λ a. result ≡ hints_from a.start a.count) }
{
    match asked {
        Some(asked) => DrawFeed::new(asked.start, asked.count),
        None => DrawFeed::new(0, 0),
    }
}

/// Does what the words ask for, over these streams. No stream's bytes are known, so what is said of them holds of some bytes.
fn run_words<R, I, O>(rt: &R, words: &[String], input: I, output: O) -> LiveOutcome
where
    R: AllocGlobal + Threads + Wait + Sync,
    I: Read + Drop,
    O: Write + Drop,
    ensures done { result.status ≡ LiveStatus.Done → Replayed None None None None result.heap }
    ensures bad_words { result.status ≡ LiveStatus.BadWords →
        (asked : LiveWords) → ¬ IsLiveWords (map (λ w. string_bytes w) words.now) asked }
    ensures refused { ((asked : LiveWords) → ¬ IsLiveWords (map (λ w. string_bytes w) words.now) asked) →
        IsOrNoMemory (as_status result.status) BadWords }
    ensures bad_trace { IfBadTrace (as_status result.status) (λ line cause. Faulty None None line cause) }
    ensures out_of_heap { IfStatusOutOfHeap (as_status result.status) (λ need. RanOutOfHeap None None None None result.heap need) }
    ensures none { IfHeapless (as_status result.status) (result.heap ≡ None) }
    ensures workers { (asked : LiveWords) → IsLiveWords (map (λ w. string_bytes w) words.now) asked →
        IfSome result.heap (λ engine. engine.workers ≡ asked.workers) }
    ensures account { IfSome result.heap KeepsAccount }
    // What was handed in are the first of the hints that are drawn.
    ensures handed { (asked : LiveWords) → IsLiveWords (map (λ w. string_bytes w) words.now) asked →
        IsPrefix result.handed.items (hints_from asked.start asked.count) }
    ensures enough { (asked : LiveWords) → IsLiveWords (map (λ w. string_bytes w) words.now) asked →
        IfRan result.status (min (min asked.count 64) (length (hints_from asked.start asked.count)) ≤ length result.handed.items) }
    ensures split { result.handed.items ≡ result.taken.items ++ result.left.items }
    ensures answers { length result.answers.items ≡ length result.taken.items }
    ensures fed { (result.answers.items ≡ []) ⊎ ((asked : LiveWords) × IsLiveWords (map (λ w. string_bytes w) words.now) asked
        × FedLive None None asked.workers result.taken.items result.answers.items result.heap) }
{
    let Ok(texts) = borrowed(rt.alloc(), words) else {
        return LiveOutcome::unfed(rt.alloc(), LiveStatus::NoMemory);
    };
    let Ok(asked) = live_words_of(rt.alloc(), &texts) else {
        return LiveOutcome::unfed(rt.alloc(), LiveStatus::NoMemory);
    };
    let mut feed = feed_of(asked);
    let mut source = StdSource::new(input);
    let mut sink = StdSink::new(output);
    live(
        rt,
        rt.alloc(),
        rt,
        &texts,
        &mut source,
        &mut sink,
        &mut feed,
        &OpenGate,
    )
}

/// What is printed of a run that ended so: the line for standard error, which says what is wrong with it, if it wasn't done, and the exit
/// status of the program.
fn report(status: LiveStatus) -> (Option<LiveFault>, ExitCode)
    ensures line { option_map (λ f. f.fault) result.0 ≡ fault_of longest_trace (as_status status) }
    ensures status { exit_status result.1 ≡ exit_code_of (as_status status) }
{
    (status.fault(), ExitCode::from(status.exit_code()))
}

fn main(rt: HostRuntime) -> ExitCode {
    let work = move || match words_of(&rt) {
        Ok(words) => {
            let outcome = run_words(&rt, &words, rt.stdin(), rt.stdout());
            outcome.status
        }
        Err(status) => status,
    };
    let status = match Builder::new().stack_size(STACK).spawn(&rt, work) {
        Ok(thread) => thread.join(&rt),
        Err(_) => LiveStatus::NoMemory,
    };
    let (line, code) = report(status);
    if let Some(line) = line {
        let _ = eprintln!(rt; "{line}");
    }
    code
}
