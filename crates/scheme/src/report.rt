//! The counters of the heap, as text.

use scheme_heap::{Counters, Limits};
use std::io;

/// Prints a table of what was done.
pub fn print_counters<R: Eprint>(
    rt: &R,
    steps: u64,
    limits: &Limits,
    counters: &Counters,
) -> io::Result<()> {
    let done = &counters.steps;
    let rows = [
        ("steps", steps),
        ("superpages", u64::from(limits.superpages)),
        ("minor collections", counters.minor),
        (
            "bookmark collections",
            done.early.saturating_add(done.collections),
        ),
        ("fail-safe collections", done.failsafes),
        ("pages read", counters.reads),
        ("pages left", done.departures.all()),
    ];
    for (name, number) in rows {
        eprintln!(rt; "{name:<22} {number:>12}")?;
    }
    Ok(())
}

/// Prints a line if there was a collection since these counters.
pub fn print_collections<R: Eprint>(rt: &R, before: &Counters, now: &Counters) -> io::Result<()> {
    if before.minor == now.minor && before.steps.early == now.steps.early {
        return Ok(());
    }
    let kind = if before.steps.failsafes != now.steps.failsafes {
        "fail-safe"
    } else if before.steps.collections != now.steps.collections
        || before.steps.early != now.steps.early
    {
        "bookmark"
    } else {
        "minor"
    };
    let number = now.minor;
    let reads = now.reads;
    eprintln!(rt; "{kind} collection {number}, {reads} pages read")
}
