// bc: the program that replays an allocation trace on the collector's heap, and prints each lane's replies.
//
// All its work is that of `bc_cli::top`, whose contract is the theorem. `main` only starts a thread that makes the real source and sink and
// calls `top`, prints the line that `report` gives for the status, and ends with its exit status. What it does is shown by `.ci/examples`
// and `.ci/statuses` on the built program.
//
// The work has a thread of its own because of its stack. The system grows the stack of the first thread as it is touched, and ends the
// program by a signal where there is no memory for that. The stack of another thread is there when it starts, or the start is refused.
#![tactic(auto)]

ghost use Rattle.std.specs.Prelude.{◌≡◌, ◌≢◌, ℕ, IfErr, IfOk, IfSome, map, string_bytes, None};
ghost use Rattle.std.specs.Process.{exit_status};
ghost use Rattle.bc_cli.specs.Churns.{ChurnsDone};
ghost use Rattle.bc_cli.specs.Limits.{longest_of, workers_of};
ghost use Rattle.bc_cli.specs.Resumes.{FaultyInput, ImageFaulty, Resumed};
ghost use Rattle.bc_cli.specs.Saves.{Saved};
ghost use Rattle.bc_replay.specs.Accounts.{KeepsAccount};
ghost use Rattle.bc_replay.specs.Outcomes.{IfStatusBadImage, IfBadTrace, IfHeapless, IfStatusOutOfHeap, IsOrNoMemory, RanOutOfHeap, Replayed};
ghost use Rattle.bc_replay.specs.Statuses.{exit_code_of, fault_of};
ghost use Rattle.bc_words.specs.Commands.{IsCommandOf};
ghost use Rattle.bc_words.specs.declared.command.Command.{Command};
ghost use Rattle.bc_words.specs.declared.command.Command.TheVariants.{Run, Churn, Save, Resume};

use bc_cli::top::top;
use bc_cli::{Fault, OpenGate, Outcome, Status, longest_input};
use bc_io::{StdSink, StdSource};
use std::alloc::{AllocError, Global};
use std::env;
use std::io::{ErrorKind, Read, Write};
use std::process::ExitCode;
use std::thread::{Builder, Threads};

/// The bytes of the stack on which all work is done: as many as most systems let the first thread's grow to. A run of the program as LLVM
/// builds it touches 320 KiB of them (`bench/little-memory`).
const STACK: usize = 8 << 20;

/// The words after the program's name.
fn words_of(rt: &HostRuntime) -> Result<Vec<String>, Status>
    ensures { IfErr result (λ status. IsOrNoMemory status Status.BadWords) }
{
    match env::args(rt) {
        Ok(words) => words
            .skip(1)
            .collect(rt.alloc())
            .map_err(|_| Status::NoMemory),
        Err(error) => Err(wordless(error.kind())),
    }
}

/// The status of a program that can't have its words. Words that are no text are no command.
fn wordless(kind: ErrorKind) -> Status
    ensures memory { kind ≡ ErrorKind.OutOfMemory → result ≡ Status.NoMemory }
    ensures text { kind ≢ ErrorKind.OutOfMemory → result ≡ Status.BadWords }
{
    match kind {
        ErrorKind::OutOfMemory => Status::NoMemory,
        _ => Status::BadWords,
    }
}

/// The words, borrowed.
fn borrowed(alloc: Global, words: &[String]) -> Result<Vec<&str>, AllocError>
    ensures { IfOk result (λ texts. map (λ w. w.now) texts.items ≡ map (λ w. string_bytes w) words.now) }
{
    let mut texts = Vec::with_capacity(alloc, words.len())?;
    for word in words {
        texts.push(word.as_str())?;
    }
    Ok(texts)
}

/// Does what the words ask for, over these streams. No stream's bytes are known, so what is said of them holds of some bytes.
fn run_words<R, I, O>(rt: &R, words: &[String], input: I, output: O) -> Outcome
where
    R: AllocGlobal + Threads + Sync,
    I: Read + Drop,
    O: Write + Drop,
    ensures done { (workers : ℕ) → IsCommandOf (map (λ w. string_bytes w) words.now) (Run workers) →
        result.status ≡ Status.Done → Replayed None None None None result.heap }
    ensures churn_done { (start ops workers : ℕ) → IsCommandOf (map (λ w. string_bytes w) words.now) (Churn start ops workers) →
        result.status ≡ Status.Done → ChurnsDone start ops None None result.heap }
    ensures bad_words { result.status ≡ Status.BadWords →
        (command : Command) → ¬ IsCommandOf (map (λ w. string_bytes w) words.now) command }
    ensures refused { ((command : Command) → ¬ IsCommandOf (map (λ w. string_bytes w) words.now) command) →
        IsOrNoMemory result.status Status.BadWords }
    ensures save_done { (phases workers : ℕ) → IsCommandOf (map (λ w. string_bytes w) words.now) (Save phases workers) →
        result.status ≡ Status.Done → Saved None None None None phases × (result.heap ≡ None) }
    ensures resume_done { (workers : ℕ) → IsCommandOf (map (λ w. string_bytes w) words.now) (Resume workers) →
        result.status ≡ Status.Done → Resumed None None None None result.heap }
    ensures bad_trace { (command : Command) → IsCommandOf (map (λ w. string_bytes w) words.now) command →
        IfBadTrace result.status (λ line cause. FaultyInput command None None line cause) }
    ensures bad_image { IfStatusBadImage result.status (λ at cause. ImageFaulty None None at cause) }
    ensures out_of_heap { (workers : ℕ) → IsCommandOf (map (λ w. string_bytes w) words.now) (Run workers) → IfStatusOutOfHeap result.status (λ need. RanOutOfHeap None None None None result.heap need) }
    ensures none { IfHeapless result.status (result.heap ≡ None) }
    ensures workers { (command : Command) → IsCommandOf (map (λ w. string_bytes w) words.now) command →
        IfSome result.heap (λ engine. engine.workers ≡ workers_of command) }
    ensures account { IfSome result.heap KeepsAccount }
{
    let Ok(texts) = borrowed(rt.alloc(), words) else {
        return Outcome::without_heap(Status::NoMemory);
    };
    let mut source = StdSource::new(input);
    let mut sink = StdSink::new(output);
    top(rt, rt.alloc(), &texts, &mut source, &mut sink, &OpenGate)
}

/// The most bytes that the input may have of the command that the words are.
fn longest_of_words(words: &[String]) -> u64
    ensures { (command : Command) → IsCommandOf (map (λ w. string_bytes w) words.now) command → result ≡ longest_of command }
{
    match words {
        [first, ..] => longest_input(first),
        _ => 0,
    }
}

/// What is printed of a run that ended so, whose input may have had so many bytes: the line for standard error, which says what is
/// wrong with it, if it wasn't done, and the exit status of the program.
fn report(status: Status, most: u64) -> (Option<Fault>, ExitCode)
    ensures line { result.0 ≡ fault_of most status }
    ensures status { exit_status result.1 ≡ exit_code_of status }
{
    (status.fault(most), ExitCode::from(status.exit_code()))
}

fn main(rt: HostRuntime) -> ExitCode {
    let work = move || match words_of(&rt) {
        Ok(words) => {
            let outcome = run_words(&rt, &words, rt.stdin(), rt.stdout());
            (outcome.status, longest_of_words(&words))
        }
        Err(status) => (status, 0),
    };
    let (status, most) = match Builder::new().stack_size(STACK).spawn(&rt, work) {
        Ok(thread) => thread.join(&rt),
        Err(_) => (Status::NoMemory, 0),
    };
    let (line, code) = report(status, most);
    if let Some(line) = line {
        let _ = eprintln!(rt; "{line}");
    }
    code
}
