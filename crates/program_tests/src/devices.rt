//! Faults of the devices: a run reports one as what it is, and leaves a prefix of its output.

ghost use Rattle.std.specs.Prelude.{◌<◌, ◌≤◌, length};

use crate::equal::same;
use bc_cli::Status;
use bc_io::MemSource;
use program_workshop::{Paper, Ran, run_on};
use std::alloc::{AllocError, Global};
use std::process::Abort;
use std::test::Fail;
use std::thread::Threads;

/// A phase of one lane, which is done.
const FIRST_PATH: &[u8; 137] =
    b"bc-trace 1\nlanes 1\ndomains 1\nslots 2\nsuperpages 1\nnursery 1\nbuffer 4\nframes 3\nphase\nlane 0\nnew 0 0 2\nset 0 0 1 7\nload 0 0 1 0 1\nend\ndone\n";

/// What it prints: the phase's text, and the last line.
const FIRST_OUTPUT: &[u8; 37] = b"phase 1\nlane 0\nobj 0.1\nok\nnum 7\ndone\n";

/// Three phases of two lanes. In the third the chunk of lane 1 is full before its sixth operation, and what is reached then needs a
/// superpage more than there are.
const CUT_SHORT: &[u8; 277] =
    b"bc-trace 1\nlanes 2\ndomains 2\nslots 2\nsuperpages 2\nnursery 1\nbuffer 4\nframes 4\nphase\nlane 0\nnew 0 0 0\nlane 1\nnew 1 0 1\nend\nphase\nlane 0\nwho 0 0\nlane 1\nlen 1 0\nend\nphase\nlane 0\nnew 0 1 1\nlane 1\nwho 1 0\nnew 1 1 127\nnew 1 1 127\nnew 1 1 127\nnew 1 1 127\nnew 1 1 127\nwho 1 1\nend\ndone\n";

/// What they print: texts of 38, 36 and 70 bytes, and the line of the need.
const CUT_OUTPUT: &[u8; 158] =
    b"phase 1\nlane 0\nobj 0.1\nlane 1\nobj 1.1\nphase 2\nlane 0\nobj 0.1\nlane 1\nlen 1\nphase 3\nlane 0\nobj 0.2\nlane 1\nobj 1.1\nobj 1.2\nobj 1.3\nobj 1.4\nobj 1.5\nout of heap 3\n";

/// What `churn 7 0` prints.
const NOTHING_DRAWN: &[u8; 88] =
    b"churn 7 0\nobj 0\nok 0\nnil 0\nnum 0\nref 0\nlen 0\nyes 0\nno 0\nnotobj 0\nrange 0\nforeign 0\ndone\n";

/// A run over devices that give and take pieces. The one read and the one write of these numbers fail.
fn run_pieces<R: Threads + Sync>(
    rt: &R,
    alloc: Global,
    trace: &[u8],
    reads: (usize, u64),
    writes: (usize, u64),
) -> Result<Ran, AllocError>
    requires trace { length trace.now ≤ 277 }
    requires reads { 0 < reads.0 }
    requires writes { 0 < writes.0 }
{
    let mut source = MemSource::new(trace.to_vec(alloc)?, reads.0, vec![in alloc; reads.1]?);
    let sink = Paper::torn(alloc, writes.0, writes.1);
    Ok(run_on(rt, alloc, &["run"], &mut source, sink))
}

/// Shows how a run over such devices ends, with a heap that is handed back or none, and what it leaves.
fn leaves<R: Threads + Sync + Abort>(
    rt: &R,
    alloc: Global,
    trace: &[u8],
    reads: (usize, u64),
    writes: (usize, u64),
    end: (Status, bool),
    held: &[u8],
) -> Result<(), AllocError>
    requires trace { length trace.now ≤ 277 }
    requires reads { 0 < reads.0 }
    requires writes { 0 < writes.0 }
{
    let left = run_pieces(rt, alloc, trace, reads, writes)?;
    shows(rt, &left, end, held, (reads.1, writes.1));
    Ok(())
}

/// Shows what was left where the read and the write of these numbers failed.
fn shows<R: Abort>(
    rt: &R,
    left: &Ran,
    (status, has_heap): (Status, bool),
    held: &[u8],
    (read, write): (u64, u64),
) {
    assert_eq!(rt; left.status, status, "at read {read}, write {write}");
    same(rt, left.has_heap, has_heap);
    assert_eq!(rt;
        left.written.as_slice(),
        held,
        "at read {read}, write {write}"
    );
}

/// Shows that the run stops at the write of this number, of so many bytes at most, and leaves this prefix of the output.
fn stops_at_write<R: Threads + Sync + Abort>(
    rt: &R,
    alloc: Global,
    trace: &[u8],
    write: (usize, u64),
    front: &[u8],
) -> Result<(), AllocError>
    requires trace { length trace.now ≤ 277 }
    requires write { 0 < write.0 }
{
    let end = (Status::WriteFault, true);
    leaves(rt, alloc, trace, (4096, 0), write, end, front)
}

#[test]
fn a_write_that_fails_in_the_last_line_leaves_a_front_of_it(rt: HostRuntime) -> Result<(), Fail> {
    let alloc = rt.alloc();
    stops_at_write(&rt, alloc, FIRST_PATH, (1000, 2), &FIRST_OUTPUT[..32])?;
    stops_at_write(&rt, alloc, FIRST_PATH, (3, 12), &FIRST_OUTPUT[..32])?;
    stops_at_write(&rt, alloc, FIRST_PATH, (3, 13), &FIRST_OUTPUT[..35])?;
    Ok(())
}

#[test]
fn a_write_that_fails_in_the_text_of_a_phase_leaves_a_front_of_it(
    rt: HostRuntime,
) -> Result<(), Fail> {
    let alloc = rt.alloc();
    stops_at_write(&rt, alloc, CUT_SHORT, (10, 6), &CUT_OUTPUT[..48])?;
    stops_at_write(&rt, alloc, CUT_SHORT, (10, 8), &CUT_OUTPUT[..68])?;
    Ok(())
}

#[test]
fn a_write_that_fails_in_the_replies_before_a_need_leaves_a_front_of_them(
    rt: HostRuntime,
) -> Result<(), Fail> {
    let alloc = rt.alloc();
    stops_at_write(&rt, alloc, CUT_SHORT, (10, 9), &CUT_OUTPUT[..74])?;
    stops_at_write(&rt, alloc, CUT_SHORT, (10, 11), &CUT_OUTPUT[..94])?;
    stops_at_write(&rt, alloc, CUT_SHORT, (10, 15), &CUT_OUTPUT[..134])?;
    Ok(())
}

#[test]
fn a_write_that_fails_in_the_line_of_the_need_leaves_a_front_of_it(
    rt: HostRuntime,
) -> Result<(), Fail> {
    let alloc = rt.alloc();
    stops_at_write(&rt, alloc, CUT_SHORT, (10, 16), &CUT_OUTPUT[..144])?;
    stops_at_write(&rt, alloc, CUT_SHORT, (10, 17), &CUT_OUTPUT[..154])?;
    let end = (Status::OutOfHeap { need: 3 }, true);
    leaves(&rt, alloc, CUT_SHORT, (4096, 0), (10, 18), end, CUT_OUTPUT)?;
    Ok(())
}

#[test]
fn each_text_and_each_last_line_is_one_write(rt: HostRuntime) -> Result<(), Fail> {
    let alloc = rt.alloc();
    stops_at_write(&rt, alloc, CUT_SHORT, (1000, 1), &CUT_OUTPUT[..0])?;
    stops_at_write(&rt, alloc, CUT_SHORT, (1000, 2), &CUT_OUTPUT[..38])?;
    stops_at_write(&rt, alloc, CUT_SHORT, (1000, 3), &CUT_OUTPUT[..74])?;
    stops_at_write(&rt, alloc, CUT_SHORT, (1000, 4), &CUT_OUTPUT[..144])?;
    let end = (Status::OutOfHeap { need: 3 }, true);
    leaves(&rt, alloc, CUT_SHORT, (4096, 0), (1000, 5), end, CUT_OUTPUT)?;
    let end = (Status::Done, true);
    leaves(
        &rt,
        alloc,
        FIRST_PATH,
        (4096, 0),
        (1000, 3),
        end,
        FIRST_OUTPUT,
    )?;
    Ok(())
}

/// Shows how the words `churn 7 0` end over a source of which every read fails, and what they leave. The one write of this number, of so
/// many bytes at most, fails.
fn churn_leaves<R: Threads + Sync + Abort>(
    rt: &R,
    alloc: Global,
    write: (usize, u64),
    status: Status,
    held: &[u8],
) -> Result<(), AllocError>
    requires write { 0 < write.0 }
{
    let mut source = MemSource::new(Vec::new(alloc), 4096, vec![in alloc; 1]?);
    let sink = Paper::torn(alloc, write.0, write.1);
    let left = run_on(rt, alloc, &["churn", "7", "0"], &mut source, sink);
    shows(rt, &left, (status, true), held, (1, write.1));
    Ok(())
}

#[test]
fn churn_reads_nothing_and_tells_its_counts_in_88_bytes(rt: HostRuntime) -> Result<(), Fail> {
    let alloc = rt.alloc();
    churn_leaves(&rt, alloc, (1000, 0), Status::Done, NOTHING_DRAWN)?;
    Ok(())
}

#[test]
fn the_output_of_churn_is_one_write(rt: HostRuntime) -> Result<(), Fail> {
    let alloc = rt.alloc();
    churn_leaves(&rt, alloc, (1000, 1), Status::WriteFault, b"")?;
    churn_leaves(&rt, alloc, (1000, 2), Status::Done, NOTHING_DRAWN)?;
    Ok(())
}

#[test]
fn a_write_that_fails_in_the_output_of_churn_leaves_a_front_of_it(
    rt: HostRuntime,
) -> Result<(), Fail> {
    let alloc = rt.alloc();
    for number in 1..=9 {
        let taken = number as usize * 10 - 10;
        let front = &NOTHING_DRAWN[..taken];
        churn_leaves(&rt, alloc, (10, number), Status::WriteFault, front)?;
    }
    churn_leaves(&rt, alloc, (10, 10), Status::Done, NOTHING_DRAWN)?;
    Ok(())
}
