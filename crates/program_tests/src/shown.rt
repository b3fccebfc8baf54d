//! Shows what the words print.

use crate::equal::same;
use bc_cli::Status;
use bc_trace::Cause;
use program_workshop::{Ran, run_over, trace_in};
use std::alloc::{AllocError, Global};
use std::process::Abort;
use std::thread::Threads;

/// Shows that the words over these bytes end so, with a heap that is handed back or none, and what they write.
pub fn shows<R: Threads + Sync + Abort>(
    rt: &R,
    alloc: Global,
    words: &[&str],
    input: Vec<u8>,
    end: (Status, bool),
    output: &str,
) {
    let ran = run_over(rt, alloc, words, input);
    ended(rt, &ran, end, output);
}

/// Shows how a run ended, whether it handed back a heap, and what it wrote.
pub fn ended<R: Abort>(rt: &R, ran: &Ran, (status, has_heap): (Status, bool), output: &str) {
    same(rt, ran.status, status);
    same(rt, ran.has_heap, has_heap);
    assert!(rt;
        ran.written.as_slice() == output.as_bytes(),
        "in place of {output}"
    );
}

/// Shows that `run` over this header and these lines after it is done, in each version of the language, and what it writes.
pub fn shows_done<R: Threads + Sync + Abort>(
    rt: &R,
    alloc: Global,
    numbers: [u32; 7],
    lines: &str,
    output: &str,
) -> Result<(), AllocError> {
    for version in 1..=3 {
        let input = trace_in(alloc, version, numbers, lines)?.into_bytes();
        shows(rt, alloc, &["run"], input, (Status::Done, true), output);
    }
    Ok(())
}

/// Shows that `run` over this header and these lines after it is refused, in each version of the language, where and why, and that nothing
/// is written.
pub fn shows_fault<R: Threads + Sync + Abort>(
    rt: &R,
    alloc: Global,
    numbers: [u32; 7],
    lines: &str,
    line: u32,
    cause: Cause,
) -> Result<(), AllocError> {
    for version in 1..=3 {
        let input = trace_in(alloc, version, numbers, lines)?.into_bytes();
        let status = Status::BadTrace { line, cause };
        shows(rt, alloc, &["run"], input, (status, false), "");
    }
    Ok(())
}
