//! Views over devices in memory: what is answered, and what is refused.

use crate::equal::same;
use bc_heapview::ViewStatus;
use bc_heapview::view::view;
use bc_image::ImageCause;
use bc_io::MemSource;
use program_workshop::{Paper, bytes_of};
use std::alloc::{AllocError, Global};
use std::process::Abort;
use std::test::Fail;

/// A heap of one lane, one domain and two slots after a phase of `new 0 0 1`, `new 0 1 1`, `link 0 1 0 0 0`, `clear 0 0`: slot 1
/// refers to object 0.2, whose field refers to 0.1.
const FIRST: [u64; 22] = [
    0x6263_696D_6167_6531,
    1,
    1,
    1,
    2,
    1,
    1,
    4,
    3,
    1,
    0,
    2,
    0,
    6,
    2,
    2,
    0,
    131_073,
    0,
    2,
    262_145,
    2,
];

/// A heap of one lane and two domains of two slots each after a phase of `new 1 0 1`, `new 1 1 1`, `link 1 1 0 1 0`, `clear 1 0`:
/// slot 1 of domain 1 refers to object 0.2, whose field refers to 0.1.
const SECOND: [u64; 25] = [
    0x6263_696d_6167_6531,
    1,
    1,
    2,
    2,
    1,
    1,
    4,
    3,
    1,
    0,
    0,
    2,
    0,
    0,
    0,
    6,
    258,
    2,
    0,
    131_201,
    0,
    2,
    262_273,
    2,
];

/// Shows that the words over these bytes end so, and what they write.
fn shows<R: Abort>(
    rt: &R,
    alloc: Global,
    words: &[&str],
    input: Vec<u8>,
    status: ViewStatus,
    output: &str,
) {
    let mut source = MemSource::new(input, 4096, Vec::new(alloc));
    let mut sink = Paper::new(alloc);
    same(rt, view(alloc, words, &mut source, &mut sink), status);
    assert!(rt;
        sink.into_bytes().as_slice() == output.as_bytes(),
        "in place of {output}"
    );
}

#[test]
fn view_counts(rt: HostRuntime) -> Result<(), Fail> {
    let alloc = rt.alloc();
    let output = "domain 0 class 2 objects 2 superpages 1\nneed 1\n";
    shows(
        &rt,
        alloc,
        &["counts"],
        bytes_of(alloc, &FIRST)?,
        ViewStatus::Done,
        output,
    );
    Ok(())
}

#[test]
fn view_path(rt: HostRuntime) -> Result<(), Fail> {
    let alloc = rt.alloc();
    let output = "root 0 1 0.2\nfield 0 0.1\n";
    shows(
        &rt,
        alloc,
        &["path", "0", "1"],
        bytes_of(alloc, &FIRST)?,
        ViewStatus::Done,
        output,
    );
    Ok(())
}

#[test]
fn view_root(rt: HostRuntime) -> Result<(), Fail> {
    let alloc = rt.alloc();
    let output = "root 0 1 0.2\n";
    shows(
        &rt,
        alloc,
        &["path", "0", "2"],
        bytes_of(alloc, &FIRST)?,
        ViewStatus::Done,
        output,
    );
    Ok(())
}

#[test]
fn view_none(rt: HostRuntime) -> Result<(), Fail> {
    let alloc = rt.alloc();
    shows(
        &rt,
        alloc,
        &["path", "0", "3"],
        bytes_of(alloc, &FIRST)?,
        ViewStatus::Done,
        "none\n",
    );
    Ok(())
}

#[test]
fn view_bad_input(rt: HostRuntime) -> Result<(), Fail> {
    let alloc = rt.alloc();
    shows(
        &rt,
        alloc,
        &["path", "0", "0"],
        bytes_of(alloc, &FIRST)?,
        ViewStatus::BadWords,
        "",
    );
    let mut longer = bytes_of(alloc, &FIRST)?;
    longer.push(0)?;
    let rest = ViewStatus::BadImage {
        at: 176,
        cause: ImageCause::Rest,
    };
    shows(&rt, alloc, &["counts"], longer, rest, "");
    let mut shorter = bytes_of(alloc, &FIRST)?;
    shorter.truncate(175);
    let short = ViewStatus::BadImage {
        at: 168,
        cause: ImageCause::Short,
    };
    shows(&rt, alloc, &["counts"], shorter, short, "");
    Ok(())
}

#[test]
fn a_way_may_begin_in_the_second_domain(rt: HostRuntime) -> Result<(), Fail> {
    let alloc = rt.alloc();
    let output = "root 1 1 0.2\nfield 0 0.1\n";
    shows(
        &rt,
        alloc,
        &["path", "0", "1"],
        bytes_of(alloc, &SECOND)?,
        ViewStatus::Done,
        output,
    );
    let output = "domain 1 class 2 objects 2 superpages 1\nneed 1\n";
    shows(
        &rt,
        alloc,
        &["counts"],
        bytes_of(alloc, &SECOND)?,
        ViewStatus::Done,
        output,
    );
    Ok(())
}

/// Who holds a domain decides no answer, so a heap whose domain is frozen gets that of one that a lane holds.
#[test]
fn a_frozen_domain_is_answered_too(rt: HostRuntime) -> Result<(), Fail> {
    let alloc = rt.alloc();
    let mut items = FIRST;
    items[1] = 2;
    items[10] = 1;
    let output = "root 0 1 0.2\nfield 0 0.1\n";
    shows(
        &rt,
        alloc,
        &["path", "0", "1"],
        bytes_of(alloc, &items)?,
        ViewStatus::Done,
        output,
    );
    let output = "domain 0 class 2 objects 2 superpages 1\nneed 1\n";
    shows(
        &rt,
        alloc,
        &["counts"],
        bytes_of(alloc, &items)?,
        ViewStatus::Done,
        output,
    );
    Ok(())
}

/// An object that nothing reaches isn't counted, the shorter of two ways is printed, and the earlier of two that are equally long.
#[test]
fn what_nothing_reaches_is_not_counted(rt: HostRuntime) -> Result<(), Fail> {
    let alloc = rt.alloc();
    let mut items = FIRST;
    // Slot 0 refers to 0.2 too.
    items[12] = 6;
    let output = "root 0 0 0.2\nfield 0 0.1\n";
    shows(
        &rt,
        alloc,
        &["path", "0", "1"],
        bytes_of(alloc, &items)?,
        ViewStatus::Done,
        output,
    );
    // Slot 1 refers to 0.1 itself.
    items[13] = 2;
    let output = "root 0 1 0.1\n";
    shows(
        &rt,
        alloc,
        &["path", "0", "1"],
        bytes_of(alloc, &items)?,
        ViewStatus::Done,
        output,
    );
    // No slot refers to 0.2.
    items[12] = 0;
    let output = "domain 0 class 2 objects 1 superpages 1\nneed 1\n";
    shows(
        &rt,
        alloc,
        &["counts"],
        bytes_of(alloc, &items)?,
        ViewStatus::Done,
        output,
    );
    shows(
        &rt,
        alloc,
        &["path", "0", "2"],
        bytes_of(alloc, &items)?,
        ViewStatus::Done,
        "none\n",
    );
    Ok(())
}

/// Shows that these words are no question: nothing is read of a source of which every read fails, and nothing is written.
fn shows_bad_words<R: Abort>(rt: &R, alloc: Global, words: &[&str]) -> Result<(), AllocError> {
    let mut source = MemSource::new(Vec::new(alloc), 4096, vec![in alloc; 1]?);
    let mut sink = Paper::new(alloc);
    same(
        rt,
        view(alloc, words, &mut source, &mut sink),
        ViewStatus::BadWords,
    );
    assert!(rt; sink.into_bytes().is_empty());
    Ok(())
}

#[test]
fn words_that_are_no_question_are_refused_and_nothing_is_read(rt: HostRuntime) -> Result<(), Fail> {
    let alloc = rt.alloc();
    shows_bad_words(&rt, alloc, &[])?;
    shows_bad_words(&rt, alloc, &["count"])?;
    shows_bad_words(&rt, alloc, &["counts", "0"])?;
    shows_bad_words(&rt, alloc, &["counts", "--"])?;
    shows_bad_words(&rt, alloc, &["counts", "--workers=2"])?;
    shows_bad_words(&rt, alloc, &["counts", "--help"])?;
    shows_bad_words(&rt, alloc, &["path"])?;
    shows_bad_words(&rt, alloc, &["path", "0"])?;
    shows_bad_words(&rt, alloc, &["path", "16", "1"])?;
    shows_bad_words(&rt, alloc, &["path", "0", "4294967296"])?;
    shows_bad_words(&rt, alloc, &["path", "0", "01"])?;
    shows_bad_words(&rt, alloc, &["path", "--", "0", "1"])?;
    shows_bad_words(&rt, alloc, &["path", "0", "--workers", "1", "1"])?;
    shows_bad_words(&rt, alloc, &["path", "0", "1", "1"])?;
    Ok(())
}

#[test]
fn a_read_that_fails_is_told(rt: HostRuntime) -> Result<(), Fail> {
    let alloc = rt.alloc();
    let mut source = MemSource::new(bytes_of(alloc, &FIRST)?, 100, vec![in alloc; 2]?);
    let mut sink = Paper::new(alloc);
    same(
        &rt,
        view(alloc, &["counts"], &mut source, &mut sink),
        ViewStatus::ReadFault,
    );
    assert!(&rt; sink.into_bytes().is_empty());
    Ok(())
}
