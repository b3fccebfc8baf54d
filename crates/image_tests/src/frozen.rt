//! Images with frozen domains.

use crate::phases::goes_on_over;
use crate::saving::{MAGIC, ended, saved};
use bc_cli::Status;
use bc_image::ImageCause;
use program_workshop::{
    FOUR_DOMAINS, FROZEN, GIVEN, READ, TWO_LANES, bytes_of, followed, run_over, trace_in,
};
use std::test::Fail;

#[test]
fn a_domain_that_was_frozen_stays_so_in_an_image(rt: HostRuntime) -> Result<(), Fail> {
    let input = trace_in(rt.alloc(), 2, TWO_LANES, FROZEN)?.into_bytes();
    goes_on_over(&rt, rt.alloc(), input, &READ)?;
    Ok(())
}

/// The second number of an image is the trace's version, and the holder of a frozen domain is the number of lanes.
#[test]
fn an_image_has_the_version_of_its_trace(rt: HostRuntime) -> Result<(), Fail> {
    let alloc = rt.alloc();
    for version in [1, 2, 3] {
        let text = trace_in(alloc, version, FOUR_DOMAINS, GIVEN)?;
        let image = saved(&rt, alloc, 1, "1", text.as_bytes())?;
        let first = bytes_of(alloc, &[MAGIC, u64::from(version)])?;
        assert!(rt; image.as_slice().starts_with(&first));
    }
    let text = trace_in(alloc, 2, TWO_LANES, FROZEN)?;
    let image = saved(&rt, alloc, 1, "1", text.as_bytes())?;
    let first = bytes_of(alloc, &[MAGIC, 2, 2, 2, 2, 2, 1, 4, 4, 1, 2, 1])?;
    assert!(rt; image.as_slice().starts_with(&first));
    Ok(())
}

/// In an image of version 1 the number of lanes is no holder.
#[test]
fn an_image_of_version_1_has_no_frozen_domain(rt: HostRuntime) -> Result<(), Fail> {
    let alloc = rt.alloc();
    let text = trace_in(alloc, 2, TWO_LANES, FROZEN)?;
    let mut image = saved(&rt, alloc, 1, "1", text.as_bytes())?;
    if let Some(place) = image.get_mut(15) {
        *place = 1;
    }
    let input = followed(alloc, &image, text.as_bytes())?;
    let (at, cause) = (80, ImageCause::Range);
    let ran = run_over(&rt, alloc, &["resume"], input);
    ended(&rt, &ran, Status::BadImage { at, cause }, false, b"");
    Ok(())
}
