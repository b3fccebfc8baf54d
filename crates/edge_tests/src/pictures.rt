//! Heaps that are built of an image, in two frames beside the nursery's, and written again.

use crate::equal::same;
use bc_image::scan;
use bc_io::MemSink;
use bc_picture::{Picture, build, write};
use std::alloc::{AllocError, Global};
use std::process::Abort;
use std::test::Fail;

/// What stands before the objects: one lane, one domain of two slots, and one superpage of 1,024 objects of one field, for whose four
/// pages there are two frames. Slot 0 refers to the first object.
const BEGINNING: [u64; 16] = [
    0x6263_696D_6167_6531,
    1,
    1,
    1,
    2,
    1,
    1,
    4,
    3,
    7,
    0,
    1024,
    2,
    15,
    2,
    1024,
];

/// The image of a chain of objects, each of which refers to the next one.
fn chain(alloc: Global) -> Result<Vec<u8>, AllocError> {
    let mut bytes = Vec::new(alloc);
    for item in BEGINNING {
        bytes.extend_from_slice(&item.to_be_bytes())?;
    }
    for number in 0..1024_u64 {
        let next = if number < 1023 { 4 * number + 6 } else { 0 };
        for item in [2 * number, 131_072 * (number + 1) + 1, next] {
            bytes.extend_from_slice(&item.to_be_bytes())?;
        }
    }
    Ok(bytes)
}

/// Builds the heap of an image and writes it into a sink whose calls with these numbers fail. Answers whether it was written, and the
/// sink.
fn copy<R: Abort>(
    rt: &R,
    alloc: Global,
    bytes: &[u8],
    failing: Vec<u64>,
) -> Result<(bool, MemSink), Fail> {
    assert!(rt; bytes.len() == 24_704);
    let Ok((listing, used)) = scan(alloc, bytes) else {
        panic!(rt; "an image");
    };
    same(rt, used, bytes.len());
    let Picture { roots, mut space } = build(alloc, &listing)?;
    assert!(rt; space.free_frames() == 0 && space.reads() == 0);
    let mut sink = MemSink::new(alloc, bytes.len(), 3000, failing)?;
    let written = write(
        &mut sink,
        listing.version,
        &listing.setup,
        listing.phases,
        &listing.holders,
        &listing.births,
        &roots,
        &mut space,
    );
    assert!(rt; space.reads() > 0);
    Ok((written.is_ok(), sink))
}

#[test]
fn written_as_it_was_read(rt: HostRuntime) -> Result<(), Fail> {
    let alloc = rt.alloc();
    let bytes = chain(alloc)?;
    let (done, sink) = copy(&rt, alloc, &bytes, Vec::new(alloc))?;
    assert!(rt; done && sink.held() == bytes.as_slice());
    Ok(())
}

#[test]
fn prefix_at_a_fault(rt: HostRuntime) -> Result<(), Fail> {
    let alloc = rt.alloc();
    let bytes = chain(alloc)?;
    let mut failing = Vec::new(alloc);
    failing.push(6)?;
    let (done, sink) = copy(&rt, alloc, &bytes, failing)?;
    assert!(rt; !done);
    let held = sink.held();
    same(&rt, held.len(), 11_192);
    assert!(rt; bytes.starts_with(held));
    Ok(())
}
