//! Each command over a sink that says for how many bytes it has room: what the law on outputs asks for is enough.

use crate::equal::same;
use crate::shown::ended;
use bc_cli::top::top;
use bc_cli::{OpenGate, Status, law_output};
use bc_io::{MemSink, MemSource};
use program_workshop::{Ran, SMALL, followed, trace};
use std::alloc::Global;
use std::test::Fail;
use std::thread::Threads;

/// What is enough for `resume` over any input: four times the most bytes that it reads, and forty. No other command writes more.
const ROOM: usize = 603_979_816;

/// Runs the words over these bytes and a sink with that room.
fn run_in_room<R: Threads + Sync>(
    rt: &R,
    alloc: Global,
    words: &[&str],
    input: Vec<u8>,
) -> Result<Ran, Fail> {
    law_output();
    let mut source = MemSource::new(input, 4096, Vec::new(alloc));
    let mut sink = MemSink::new(alloc, ROOM, 4096, Vec::new(alloc))?;
    let outcome = top(rt, alloc, words, &mut source, &mut sink, &OpenGate);
    Ok(Ran {
        status: outcome.status,
        has_heap: outcome.heap.is_some(),
        written: sink.held().to_vec(alloc)?,
    })
}

#[test]
fn the_room_that_the_law_asks_for_is_enough_for_each_command(rt: HostRuntime) -> Result<(), Fail> {
    let alloc = rt.alloc();
    let lines = "phase\nlane 0\nnew 0 0 2\nend\nphase\nlane 0\nwho 0 0\nend\ndone\n";
    let text = trace(alloc, SMALL, lines)?.into_bytes();
    let ran = run_in_room(&rt, alloc, &["run"], text.as_slice().to_vec(alloc)?)?;
    let output = "phase 1\nlane 0\nobj 0.1\nphase 2\nlane 0\nobj 0.1\ndone\n";
    ended(&rt, &ran, (Status::Done, true), output);
    let image = run_in_room(&rt, alloc, &["save", "1"], text.as_slice().to_vec(alloc)?)?;
    same(&rt, image.status, Status::Done);
    let input = followed(alloc, image.written.as_slice(), text.as_slice())?;
    let ran = run_in_room(&rt, alloc, &["resume"], input)?;
    let output = "phase 2\nlane 0\nobj 0.1\ndone\n";
    ended(&rt, &ran, (Status::Done, true), output);
    let ran = run_in_room(&rt, alloc, &["churn", "7", "10"], Vec::new(alloc))?;
    same(&rt, ran.status, Status::Done);
    Ok(())
}
