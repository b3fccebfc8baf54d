// heapview: the program that looks into the image of a heap: how many objects are reached, and the least way to one of them.
//
// All its work is that of `bc_heapview::view`. `main` only starts a thread that makes the real source and sink and calls `view`, prints the
// line that `report` gives for the status, and ends with its exit status. What it does is shown by `.ci/examples` and `.ci/statuses` on the
// built program.
//
// The work has a thread of its own because of its stack. The system grows the stack of the first thread as it is touched, and ends the
// program by a signal where there is no memory for that. The stack of another thread is there when it starts, or the start is refused.
#![tactic(auto)]

ghost use Rattle.std.specs.Prelude.{◌≡◌, ◌≢◌, IfErr, IfOk, None, map, string_bytes};
ghost use Rattle.std.specs.Process.{exit_status};
ghost use Rattle.bc_heapview.specs.Questions.{IsQuestionOf};
ghost use Rattle.bc_heapview.specs.ViewStatuses.{view_exit_code, view_fault_of};
ghost use Rattle.bc_heapview.specs.Views.{FaultyImage, IfBadImage, IsUnlessMemory, Viewed};

use bc_heapview::view::view;
use bc_heapview::{Question, ViewFault, ViewStatus};
use bc_io::{StdSink, StdSource};
use std::alloc::{AllocError, Global};
use std::env;
use std::io::{ErrorKind, Read, Write};
use std::process::ExitCode;
use std::thread::Builder;

/// The bytes of the stack on which all work is done: as many as most systems let the first thread's grow to.
const STACK: usize = 8 << 20;

/// The words after the program's name.
fn words_of(rt: &HostRuntime) -> Result<Vec<String>, ViewStatus>
    ensures { IfErr result (λ status. IsUnlessMemory status ViewStatus.BadWords) }
{
    match env::args(rt) {
        Ok(words) => words
            .skip(1)
            .collect(rt.alloc())
            .map_err(|_| ViewStatus::NoMemory),
        Err(error) => Err(wordless(error.kind())),
    }
}

/// The status of a program that can't have its words. Words that are no text are no question.
fn wordless(kind: ErrorKind) -> ViewStatus
    ensures memory { kind ≡ ErrorKind.OutOfMemory → result ≡ ViewStatus.NoMemory }
    ensures text { kind ≢ ErrorKind.OutOfMemory → result ≡ ViewStatus.BadWords }
{
    match kind {
        ErrorKind::OutOfMemory => ViewStatus::NoMemory,
        _ => ViewStatus::BadWords,
    }
}

/// The words, borrowed.
fn borrowed(alloc: Global, words: &[String]) -> Result<Vec<&str>, AllocError>
    ensures { IfOk result (λ texts. map (λ w. w.now) texts.items ≡ map (λ w. string_bytes w) words.now) }
{
    let mut texts = Vec::with_capacity(alloc, words.len())?;
    for word in words {
        texts.push(word.as_str())?;
    }
    Ok(texts)
}

/// Answers the words over these streams. No stream's bytes are known, so what is said of them holds of some bytes.
fn view_words<R, I, O>(rt: &R, words: &[String], input: I, output: O) -> ViewStatus
where
    R: AllocGlobal,
    I: Read + Drop,
    O: Write + Drop,
    ensures done { (question : Question) → IsQuestionOf (map (λ w. string_bytes w) words.now) question →
        result ≡ ViewStatus.Done → Viewed question None None None None }
    ensures bad_words { result ≡ ViewStatus.BadWords →
        (question : Question) → ¬ IsQuestionOf (map (λ w. string_bytes w) words.now) question }
    ensures refused { ((question : Question) → ¬ IsQuestionOf (map (λ w. string_bytes w) words.now) question) →
        IsUnlessMemory result ViewStatus.BadWords }
    ensures bad_image { IfBadImage result (FaultyImage None None) }
{
    let Ok(texts) = borrowed(rt.alloc(), words) else {
        return ViewStatus::NoMemory;
    };
    let mut source = StdSource::new(input);
    let mut sink = StdSink::new(output);
    view(rt.alloc(), &texts, &mut source, &mut sink)
}

/// What is printed of a view that ended so: the line for standard error, which says what is wrong with it, if it wasn't done, and the exit
/// status of the program.
fn report(status: ViewStatus) -> (Option<ViewFault>, ExitCode)
    ensures line { result.0 ≡ view_fault_of status }
    ensures status { exit_status result.1 ≡ view_exit_code status }
{
    (status.fault(), ExitCode::from(status.exit_code()))
}

fn main(rt: HostRuntime) -> ExitCode {
    let work = move || match words_of(&rt) {
        Ok(words) => view_words(&rt, &words, rt.stdin(), rt.stdout()),
        Err(status) => status,
    };
    let status = match Builder::new().stack_size(STACK).spawn(&rt, work) {
        Ok(thread) => thread.join(&rt),
        Err(_) => ViewStatus::NoMemory,
    };
    let (line, code) = report(status);
    if let Some(line) = line {
        let _ = eprintln!(rt; "{line}");
    }
    code
}
