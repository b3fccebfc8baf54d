//! Images: what `save` writes, what `resume` prints after it, and what both refuse.

use crate::equal::same;
use bc_cli::{OpenGate, Status};
use bc_image::ImageCause;
use bc_io::MemSource;
use bc_trace::Cause;
use program_workshop::{
    FIRST_PHASE, Paper, Ran, SMALL, bytes_of, followed, run_between, run_over, trace, trace_in,
};
use std::alloc::{AllocError, Global};
use std::process::Abort;
use std::test::Fail;
use std::thread::Threads;

/// The first eight letters of an image.
pub const MAGIC: u64 = 0x6263_696D_6167_6531;

/// The image after `FIRST_PHASE`, with the object in the first cell: the header, one phase done, holder, births, the slots, and a superpage
/// of class 4 with one object of two fields.
pub const FIRST_IMAGE: [u64; 20] = [
    MAGIC, 1, 1, 1, 2, 1, 1, 4, 3, 1, 0, 1, 2, 15, 4, 1, 0, 131_074, 0, 15,
];

/// The image before any phase of the smallest heap with five frames.
const OPENING_IMAGE: [u64; 15] = [MAGIC, 1, 1, 1, 2, 1, 1, 4, 5, 0, 0, 0, 0, 0, 0];

/// The first of these bytes, so many.
pub fn front(bytes: &[u8], length: usize) -> &[u8] {
    &bytes[..length.min(bytes.len())]
}

/// Shows how a run ended, whether it handed back a heap, and what it wrote.
pub fn ended<R: Abort>(rt: &R, ran: &Ran, status: Status, has_heap: bool, written: &[u8]) {
    same(rt, ran.status, status);
    same(rt, ran.has_heap, has_heap);
    same(rt, ran.written.as_slice(), written);
}

/// Shows that these words over this input end so, without a heap, and that nothing is written.
fn refuses<R: Threads + Sync + Abort>(
    rt: &R,
    alloc: Global,
    words: &[&str],
    input: Vec<u8>,
    status: Status,
) {
    let ran = run_over(rt, alloc, words, input);
    ended(rt, &ran, status, false, b"");
}

/// The image that `save` writes after so many phases of a trace.
pub fn saved<R: Threads + Sync + Abort>(
    rt: &R,
    alloc: Global,
    phases: usize,
    workers: &str,
    trace: &[u8],
) -> Result<Vec<u8>, AllocError> {
    let number = format!(in alloc; "{phases}")?;
    let words = ["save", number.as_str(), "--workers", workers];
    let ran = run_over(rt, alloc, &words, trace.to_vec(alloc)?);
    same(rt, ran.status, Status::Done);
    assert!(rt; !ran.has_heap);
    Ok(ran.written)
}

#[test]
fn the_image_of_the_first_trace_has_its_one_object_in_some_cell(
    rt: HostRuntime,
) -> Result<(), Fail> {
    let alloc = rt.alloc();
    let text = trace(alloc, SMALL, FIRST_PHASE)?;
    let image = saved(&rt, alloc, 1, "1", text.as_bytes())?;
    same(&rt, image.len(), 160);
    let mut found = false;
    for cell in 0..512 {
        let mut items = FIRST_IMAGE;
        items[12] = 2 * (4 * cell + 1);
        items[16] = 4 * cell;
        found = found || bytes_of(alloc, &items)?.as_slice() == image.as_slice();
    }
    assert!(rt; found);
    Ok(())
}

#[test]
fn the_image_before_the_first_phase_has_nothing_but_the_setup(rt: HostRuntime) -> Result<(), Fail> {
    let alloc = rt.alloc();
    let text = trace(alloc, [1, 1, 2, 1, 1, 4, 5], FIRST_PHASE)?;
    let image = saved(&rt, alloc, 0, "1", text.as_bytes())?;
    let opening = bytes_of(alloc, &OPENING_IMAGE)?;
    same(&rt, image.as_slice(), opening.as_slice());
    Ok(())
}

#[test]
fn resuming_behind_the_last_phase_prints_the_last_line_alone(rt: HostRuntime) -> Result<(), Fail> {
    let alloc = rt.alloc();
    let text = trace(alloc, SMALL, FIRST_PHASE)?;
    let input = followed(alloc, &bytes_of(alloc, &FIRST_IMAGE)?, text.as_bytes())?;
    let ran = run_over(&rt, alloc, &["resume"], input);
    ended(&rt, &ran, Status::Done, true, b"done\n");
    Ok(())
}

/// A heap that no command wrote is resumed as the image says, from its object's fields on.
#[test]
fn what_the_image_says_is_there(rt: HostRuntime) -> Result<(), Fail> {
    let alloc = rt.alloc();
    let lines =
        "phase\nlane 0\nend\nphase\nlane 0\nwho 0 0\nlen 0 0\nwho 0 1\nload 0 0 1 0 1\nload 0 0 0 0 1\nnew 0 1 2\nend\ndone\n";
    let text = trace(alloc, SMALL, lines)?;
    let mut items = FIRST_IMAGE;
    items[13] = 2 * 41 + 1;
    items[16] = 2044;
    items[12] = 2 * 2045;
    items[11] = 9;
    let input = followed(alloc, &bytes_of(alloc, &items)?, text.as_bytes())?;
    let ran = run_over(&rt, alloc, &["resume", "--workers", "4"], input);
    let output = b"phase 2\nlane 0\nobj 0.1\nlen 2\nnum 41\nnum 7\nnil\nobj 0.10\ndone\n";
    ended(&rt, &ran, Status::Done, true, output);
    Ok(())
}

#[test]
fn broken_images_are_refused_at_their_first_fault(rt: HostRuntime) -> Result<(), Fail> {
    let alloc = rt.alloc();
    let bad = |at, cause| Status::BadImage { at, cause };
    let mut short = bytes_of(alloc, &FIRST_IMAGE)?;
    short.truncate(159);
    refuses(&rt, alloc, &["resume"], short, bad(152, ImageCause::Short));
    let mut items = FIRST_IMAGE;
    items[0] = MAGIC + 1;
    let other = bytes_of(alloc, &items)?;
    refuses(&rt, alloc, &["resume"], other, bad(0, ImageCause::Magic));
    let mut items = FIRST_IMAGE;
    items[13] = 4;
    let nowhere = bytes_of(alloc, &items)?;
    refuses(&rt, alloc, &["resume"], nowhere, bad(104, ImageCause::Link));
    refuses(
        &rt,
        alloc,
        &["resume"],
        Vec::new(alloc),
        bad(0, ImageCause::Short),
    );
    Ok(())
}

#[test]
fn other_items_of_an_image_are_refused_where_they_stand(rt: HostRuntime) -> Result<(), Fail> {
    let alloc = rt.alloc();
    let changes = [
        (1, 4, ImageCause::Range),
        (8, 6, ImageCause::Range),
        // A frozen domain, in the version that has none.
        (10, 1, ImageCause::Range),
        (15, 513, ImageCause::Range),
        (16, 2, ImageCause::Cell),
        // An object that its lane hasn't made yet.
        (17, 262_146, ImageCause::Cell),
    ];
    for (item, value, cause) in changes {
        let mut items = FIRST_IMAGE;
        if let Some(place) = items.get_mut(item) {
            *place = value;
        }
        let at = (item as u64).saturating_mul(8);
        let status = Status::BadImage { at, cause };
        refuses(&rt, alloc, &["resume"], bytes_of(alloc, &items)?, status);
    }
    Ok(())
}

/// Two objects of one birth: the second head is refused.
#[test]
fn a_birth_that_stands_twice_is_refused(rt: HostRuntime) -> Result<(), Fail> {
    let alloc = rt.alloc();
    let items = [
        MAGIC, 1, 1, 1, 2, 1, 1, 4, 3, 1, 0, 2, 0, 6, 2, 2, 0, 131_073, 0, 2, 131_073, 2,
    ];
    let (at, cause) = (160, ImageCause::Twice);
    let status = Status::BadImage { at, cause };
    refuses(&rt, alloc, &["resume"], bytes_of(alloc, &items)?, status);
    Ok(())
}

#[test]
fn no_more_phases_are_saved_than_the_trace_has(rt: HostRuntime) -> Result<(), Fail> {
    let alloc = rt.alloc();
    for phases in ["2", "4294967297", "9223372036854775807"] {
        let text = trace(alloc, SMALL, FIRST_PHASE)?.into_bytes();
        refuses(&rt, alloc, &["save", phases], text, Status::Mismatch);
    }
    let text = trace(alloc, SMALL, "done\n")?.into_bytes();
    refuses(&rt, alloc, &["save", "1"], text, Status::Mismatch);
    Ok(())
}

#[test]
fn an_image_of_another_setup_is_refused(rt: HostRuntime) -> Result<(), Fail> {
    let alloc = rt.alloc();
    let opening = bytes_of(alloc, &OPENING_IMAGE)?;
    let others = [
        [2, 1, 2, 1, 1, 4, 5],
        [1, 2, 2, 1, 1, 4, 5],
        [1, 1, 3, 1, 1, 4, 5],
        [1, 1, 2, 2, 1, 4, 5],
        [1, 1, 2, 1, 2, 4, 5],
        [1, 1, 2, 1, 1, 5, 5],
        [1, 1, 2, 1, 1, 4, 4],
    ];
    for numbers in others {
        let text = trace(alloc, numbers, "done\n")?;
        let input = followed(alloc, &opening, text.as_bytes())?;
        refuses(&rt, alloc, &["resume"], input, Status::Mismatch);
    }
    let text = trace(alloc, [1, 1, 2, 1, 1, 4, 5], "done\n")?;
    let input = followed(alloc, &opening, text.as_bytes())?;
    let ran = run_over(&rt, alloc, &["resume"], input);
    ended(&rt, &ran, Status::Done, true, b"done\n");
    Ok(())
}

#[test]
fn an_image_of_another_version_is_refused(rt: HostRuntime) -> Result<(), Fail> {
    let alloc = rt.alloc();
    // In versions 2 and 3 a domain may be frozen, which the number of lanes stands for.
    for (version, holder) in [(2, 0), (3, 0), (2, 1), (3, 1)] {
        let mut items = FIRST_IMAGE;
        items[1] = version;
        items[10] = holder;
        let text = trace(alloc, SMALL, FIRST_PHASE)?;
        let input = followed(alloc, &bytes_of(alloc, &items)?, text.as_bytes())?;
        refuses(&rt, alloc, &["resume"], input, Status::Mismatch);
    }
    // Nor does an image without a frozen domain go with a trace of a later version.
    for version in [1, 3] {
        let mut items = FIRST_IMAGE;
        items[1] = version;
        let text = trace_in(alloc, 2, SMALL, FIRST_PHASE)?;
        let input = followed(alloc, &bytes_of(alloc, &items)?, text.as_bytes())?;
        refuses(&rt, alloc, &["resume"], input, Status::Mismatch);
    }
    Ok(())
}

#[test]
fn an_image_behind_the_end_of_the_trace_is_refused(rt: HostRuntime) -> Result<(), Fail> {
    let alloc = rt.alloc();
    for phases in [2, 4_294_967_295] {
        let mut items = FIRST_IMAGE;
        items[9] = phases;
        let text = trace(alloc, SMALL, FIRST_PHASE)?;
        let input = followed(alloc, &bytes_of(alloc, &items)?, text.as_bytes())?;
        refuses(&rt, alloc, &["resume"], input, Status::Mismatch);
    }
    Ok(())
}

#[test]
fn lines_are_counted_from_the_end_of_the_image(rt: HostRuntime) -> Result<(), Fail> {
    let alloc = rt.alloc();
    let image = bytes_of(alloc, &FIRST_IMAGE)?;
    let bad = |line, cause| Status::BadTrace { line, cause };
    let frames = trace(alloc, [1, 1, 2, 1, 1, 4, 2], FIRST_PHASE)?;
    let input = followed(alloc, &image, frames.as_bytes())?;
    refuses(&rt, alloc, &["resume"], input, bad(8, Cause::Frames));
    refuses(&rt, alloc, &["resume"], image, bad(0, Cause::End));
    Ok(())
}

/// A bad image comes before a bad trace, and a bad trace before one that doesn't go with the image or has too few phases.
#[test]
fn the_first_of_two_faults_is_the_one_that_is_told(rt: HostRuntime) -> Result<(), Fail> {
    let alloc = rt.alloc();
    let (line, cause) = (11, Cause::End);
    let faulty = trace(alloc, [1, 1, 2, 1, 1, 4, 4], "phase\nlane 0\nend\n")?;
    let mut items = FIRST_IMAGE;
    items[9] = 7;
    let input = followed(alloc, &bytes_of(alloc, &items)?, faulty.as_bytes())?;
    let status = Status::BadTrace { line, cause };
    refuses(&rt, alloc, &["resume"], input, status);
    let bytes = faulty.as_bytes();
    refuses(&rt, alloc, &["save", "0"], bytes.to_vec(alloc)?, status);
    refuses(&rt, alloc, &["save", "9"], bytes.to_vec(alloc)?, status);
    items[13] = 4;
    let input = followed(alloc, &bytes_of(alloc, &items)?, bytes)?;
    let (at, cause) = (104, ImageCause::Link);
    refuses(
        &rt,
        alloc,
        &["resume"],
        input,
        Status::BadImage { at, cause },
    );
    Ok(())
}

#[test]
fn words_that_are_no_command_are_refused_and_nothing_is_read(rt: HostRuntime) -> Result<(), Fail> {
    let alloc = rt.alloc();
    let wrong: [&[&str]; 6] = [
        &["save"],
        &["save", "1", "1"],
        &["save", "9223372036854775808"],
        &["save", "1", "--workers", "17"],
        &["resume", "1"],
        &["resume", "--help"],
    ];
    for words in wrong {
        let mut source = MemSource::new(Vec::new(alloc), 4096, vec![in alloc; 1]?);
        let mut sink = Paper::new(alloc);
        let outcome = run_between(&rt, alloc, words, &mut source, &mut sink, &OpenGate);
        same(&rt, outcome.status, Status::BadWords);
        assert!(rt; outcome.heap.is_none());
        assert!(rt; sink.into_bytes().is_empty());
    }
    Ok(())
}
