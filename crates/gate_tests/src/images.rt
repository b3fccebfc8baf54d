//! `save` and `resume` run their turns as `run` does: at a table where that pays, past the gate of the caller.

use crate::equal::same;
use crate::keeping::Counting;
use crate::points::AFTER;
use bc_cli::Status;
use bc_io::MemSource;
use program_workshop::{ONE_SLOT_EACH, Paper, followed, repeated, run_between, trace};
use std::alloc::{AllocError, Global};
use std::process::Abort;
use std::sync::atomic::{AtomicU64, Ordering};
use std::test::Fail;
use std::thread::Threads;

/// Shows that these words over this input are done, and how many operations lane 0 does at tables. It returns what is written.
fn passes<R: Threads + Sync + Abort>(
    rt: &R,
    alloc: Global,
    words: &[&str],
    input: &[u8],
    wanted: u64,
) -> Result<Vec<u8>, AllocError> {
    let gate = Counting {
        who: 0,
        point: AFTER,
        passes: AtomicU64::new(0),
    };
    let mut source = MemSource::new(input.to_vec(alloc)?, 4096, Vec::new(alloc));
    let mut sink = Paper::new(alloc);
    let outcome = run_between(rt, alloc, words, &mut source, &mut sink, &gate);
    same(rt, outcome.status, Status::Done);
    same(rt, gate.passes.load(Ordering::SeqCst), wanted);
    Ok(sink.into_bytes())
}

#[test]
fn lanes_run_at_tables_where_a_trace_is_saved_and_where_it_is_resumed(
    rt: HostRuntime,
) -> Result<(), Fail> {
    let alloc = rt.alloc();
    let zero = repeated(alloc, "new 0 0 0\n", 300)?;
    let one = repeated(alloc, "new 1 0 0\n", 300)?;
    let look_at_0 = repeated(alloc, "who 0 0\n", 6_000)?;
    let look_at_1 = repeated(alloc, "who 1 0\n", 6_000)?;
    let lines = format!(in alloc;
        "phase\nlane 0\nlane 1\nend\nphase\nlane 0\n{zero}{look_at_0}lane 1\n{one}{look_at_1}end\ndone\n"
    )?;
    let text = trace(alloc, ONE_SLOT_EACH, &lines)?;
    // A chunk holds 256 such objects: the first turn ends there, and the object after them is made between the turns.
    passes(&rt, alloc, &["save", "2"], text.as_bytes(), 6_299)?;
    let image = passes(&rt, alloc, &["save", "1"], text.as_bytes(), 0)?;
    let input = followed(alloc, image.as_slice(), text.as_bytes())?;
    let written = passes(&rt, alloc, &["resume"], input.as_slice(), 6_299)?;
    assert!(&rt;
        written
            .as_slice()
            .ends_with(b"obj 1.300\nobj 1.300\ndone\n")
    );
    Ok(())
}
