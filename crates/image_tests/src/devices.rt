//! Devices that fail while an image is saved or resumed: what comes out, and which bytes the sink holds then.

use crate::equal::same;
use crate::saving::{FIRST_IMAGE, ended, front, saved};
use bc_cli::Status;
use bc_io::{Failed, MemSource, Source};
use program_workshop::{
    CUT_PRINTED, CUT_SHORT, FIRST_PHASE, Paper, SMALL, TWO_LANES, bytes_of, followed, run_on,
    run_over, trace,
};
use std::alloc::{AllocError, Global};
use std::process::Abort;
use std::test::Fail;
use std::thread::Threads;

/// How many bytes the sink takes at most in one call.
const PIECE: usize = 8;

/// What the source below gives at most in one call.
const LETTERS: [u8; 4096] = [b'a'; 4096];

/// A source of so many letters, which holds none of them.
#[derive(Drop)]
struct Letters {
    left: usize,
}

impl Source for Letters {
    ghost use Rattle.std.specs.Prelude.{None};

    ghost left = { λ _. None };

    ghost faults = { λ _. 0 };

    fn read(&mut self, buf: &mut [u8]) -> Result<usize, Failed> {
        let count = buf.len().min(self.left).min(LETTERS.len());
        buf[..count].copy_from_slice(&LETTERS[..count]);
        self.left -= count;
        Ok(count)
    }
}

/// Shows that nothing is written, and no heap handed back, where the read of this number fails, of 16 bytes each.
fn fails_at_read<R: Threads + Sync + Abort>(
    rt: &R,
    alloc: Global,
    words: &[&str],
    input: &[u8],
    number: u64,
) -> Result<(), AllocError> {
    let mut source = MemSource::new(input.to_vec(alloc)?, 16, vec![in alloc; number]?);
    let ran = run_on(rt, alloc, words, &mut source, failing(alloc, 0));
    ended(rt, &ran, Status::ReadFault, false, b"");
    Ok(())
}

/// A sink of which the write of this number fails. 0: none fails.
fn failing(alloc: Global, number: u64) -> Paper {
    Paper::torn(alloc, PIECE, number)
}

/// Each of the nine reads that give 137 bytes may fail, and the one that finds the end.
#[test]
fn a_read_that_fails_before_an_image_is_saved_is_told(rt: HostRuntime) -> Result<(), Fail> {
    let alloc = rt.alloc();
    let text = trace(alloc, SMALL, FIRST_PHASE)?;
    for number in 1..=10 {
        fails_at_read(&rt, alloc, &["save", "1"], text.as_bytes(), number)?;
    }
    Ok(())
}

/// Nineteen reads give 160 bytes of an image and 137 of a trace.
#[test]
fn a_read_that_fails_before_a_run_resumes_is_told(rt: HostRuntime) -> Result<(), Fail> {
    let alloc = rt.alloc();
    let text = trace(alloc, SMALL, FIRST_PHASE)?;
    let input = followed(alloc, &bytes_of(alloc, &FIRST_IMAGE)?, text.as_bytes())?;
    for number in 1..=20 {
        fails_at_read(&rt, alloc, &["resume"], &input, number)?;
    }
    // A fault of reading comes before what is wrong with the bytes.
    for number in 1..=10 {
        fails_at_read(&rt, alloc, &["resume"], text.as_bytes(), number)?;
    }
    Ok(())
}

/// Twenty writes of eight bytes take the image. Where one fails, just the bytes of those before it are held.
#[test]
fn a_write_that_fails_leaves_a_front_of_the_image(rt: HostRuntime) -> Result<(), Fail> {
    let alloc = rt.alloc();
    let text = trace(alloc, SMALL, FIRST_PHASE)?.into_bytes();
    let image = saved(&rt, alloc, 1, "1", &text)?;
    for number in 1..=20 {
        let mut source = MemSource::new(text.as_slice().to_vec(alloc)?, 4096, Vec::new(alloc));
        let ran = run_on(
            &rt,
            alloc,
            &["save", "1"],
            &mut source,
            failing(alloc, number),
        );
        let held = (number as usize).saturating_sub(1).saturating_mul(PIECE);
        ended(&rt, &ran, Status::WriteFault, false, front(&image, held));
    }
    let mut source = MemSource::new(text, 4096, Vec::new(alloc));
    let ran = run_on(&rt, alloc, &["save", "1"], &mut source, failing(alloc, 21));
    ended(&rt, &ran, Status::Done, false, &image);
    Ok(())
}

/// An image of more than the 4,096 bytes that wait before they are written.
#[test]
fn a_write_that_fails_leaves_a_front_of_a_long_image(rt: HostRuntime) -> Result<(), Fail> {
    let alloc = rt.alloc();
    let mut lines = String::from_str(alloc, "phase\nlane 0\n")?;
    for slot in 0..200u32 {
        let line = format!(in alloc; "new 0 {slot} 1\nset 0 {slot} 0 {slot}\n")?;
        lines.push_str(&line)?;
    }
    lines.push_str("end\ndone\n")?;
    let text = trace(alloc, [1, 1, 200, 1, 1, 4, 3], &lines)?.into_bytes();
    let image = saved(&rt, alloc, 1, "1", &text)?;
    // The header, the setup, holder and births; 200 slots; the superpage, and three items an object.
    same(&rt, image.len(), 8 * (12 + 200 + 2 + 600));
    for number in [1, 2, 512, 513, 514, 814] {
        let mut source = MemSource::new(text.as_slice().to_vec(alloc)?, 4096, Vec::new(alloc));
        let ran = run_on(
            &rt,
            alloc,
            &["save", "1"],
            &mut source,
            failing(alloc, number),
        );
        let held = (number as usize).saturating_sub(1).saturating_mul(PIECE);
        ended(&rt, &ran, Status::WriteFault, false, front(&image, held));
    }
    Ok(())
}

/// Nine writes take the text of the third phase, and two the line of the need.
#[test]
fn a_write_that_fails_after_resuming_leaves_a_front_of_the_texts(
    rt: HostRuntime,
) -> Result<(), Fail> {
    let alloc = rt.alloc();
    let text = trace(alloc, TWO_LANES, CUT_SHORT)?.into_bytes();
    let image = saved(&rt, alloc, 2, "1", &text)?;
    let input = followed(alloc, &image, &text)?;
    let [_first, _second, third] = CUT_PRINTED;
    let output = third.as_bytes();
    for number in 1..=11 {
        let mut source = MemSource::new(input.as_slice().to_vec(alloc)?, 4096, Vec::new(alloc));
        let ran = run_on(&rt, alloc, &["resume"], &mut source, failing(alloc, number));
        let before = (number as usize).saturating_sub(1).saturating_mul(PIECE);
        let held = if number < 10 {
            before
        } else {
            before.saturating_sub(2)
        };
        ended(&rt, &ran, Status::WriteFault, true, front(output, held));
    }
    let mut source = MemSource::new(input, 4096, Vec::new(alloc));
    let ran = run_on(&rt, alloc, &["resume"], &mut source, failing(alloc, 12));
    ended(&rt, &ran, Status::OutOfHeap { need: 3 }, true, output);
    Ok(())
}

/// A heap that is too small before the image is due: nothing is written, and the heap is handed back.
#[test]
fn a_heap_that_is_too_small_writes_no_image(rt: HostRuntime) -> Result<(), Fail> {
    let alloc = rt.alloc();
    let text = trace(alloc, TWO_LANES, CUT_SHORT)?.into_bytes();
    let ran = run_over(&rt, alloc, &["save", "3"], text);
    ended(&rt, &ran, Status::OutOfHeap { need: 3 }, true, b"");
    Ok(())
}

/// The limit of `resume`, which is nine times as large, is shown by `.ci/statuses`.
#[test]
fn an_input_of_save_has_16777216_bytes_at_most(rt: HostRuntime) -> Result<(), Fail> {
    let alloc = rt.alloc();
    let mut source = Letters { left: 16_777_217 };
    let ran = run_on(&rt, alloc, &["save", "0"], &mut source, failing(alloc, 0));
    ended(&rt, &ran, Status::TooLong, false, b"");
    Ok(())
}
