//! Heaps with fewer frames than pages: where survivors are placed, and an operation that touches a page that is gone.

use super::Step::{Chain, Counted, Does, Empty, Follow, Object, Paged};
use super::*;
use bc_mutator::Stop;
use bc_superpages::{PageState, Space};

/// Two frames beyond the nursery, for twelve pages.
const TWO_FRAMES: Setup = Setup {
    lanes: 1,
    domains: 1,
    slots: 4,
    superpages: 3,
    nursery: 2,
    buffer: 8,
    frames: 4,
};

/// Two domains that share one superpage, and two frames beyond the nursery.
const ONE_SUPERPAGE_OF_TWO: Setup = Setup {
    lanes: 1,
    domains: 2,
    slots: 4,
    superpages: 1,
    nursery: 1,
    buffer: 8,
    frames: 3,
};

/// Where the pages of the first superpage are.
fn first_pages(space: &Space) -> [PageState; 4] {
    if 0 < space.superpages() {
        space.header(0).pages
    } else {
        [PageState::Absent; 4]
    }
}

#[test]
fn survivors_of_two_pairs_find_room_on_two_absent_pages_with_one_free_frame(
    rt: HostRuntime,
) -> Result<(), Fail> {
    let workshop = Workshop::open(rt.alloc(), &TWO_FRAMES)?;
    take(
        &rt,
        workshop,
        &[
            Object(Op::New(A, 1), 1),
            Empty,
            Paged(1, 0, 0),
            // Objects of two other size classes by turns. In the order of the chunk each would want the page that the other just had.
            Object(Op::New(B, 3), 2),
            Object(Op::New(C, 7), 3),
            Does(Op::Link(B, 0, C), Reply::Done),
            Object(Op::New(D, 3), 4),
            Does(Op::Link(C, 0, D), Reply::Done),
            Does(Op::Clear(C), Reply::Done),
            Object(Op::New(C, 7), 5),
            Does(Op::Link(D, 0, C), Reply::Done),
            Empty,
            // One page of the three had to leave, and none was read.
            Counted(3, 5),
            Paged(0, 1, 0),
            Object(Op::Who(A), 1),
            Does(Op::Load(B, 0, C), Reply::Ref),
            Object(Op::Who(C), 3),
            Does(Op::Load(C, 0, C), Reply::Ref),
            Object(Op::Who(C), 4),
            Does(Op::Load(D, 0, C), Reply::Ref),
            Object(Op::Who(C), 5),
        ],
    );
    Ok(())
}

#[test]
fn survivors_fill_a_half_full_home_page_and_then_an_absent_page_of_its_superpage(
    rt: HostRuntime,
) -> Result<(), Fail> {
    let workshop = Workshop::open(rt.alloc(), &TWO_FRAMES)?;
    // A page has room for 256 of these objects.
    take(
        &rt,
        workshop,
        &[
            Chain(1, 128),
            Empty,
            Paged(1, 0, 0),
            Chain(129, 256),
            Empty,
            Counted(1, 384),
            Paged(0, 0, 0),
            Follow(384),
            Paged(0, 0, 0),
        ],
    );
    Ok(())
}

#[test]
fn a_page_that_is_gone_is_wanted_while_every_other_page_is_remembered(
    rt: HostRuntime,
) -> Result<(), Fail> {
    let mut workshop = Workshop::open(rt.alloc(), &TWO_FRAMES)?;
    workshop = take(
        &rt,
        workshop,
        &[
            Object(Op::New(A, 1), 1),
            Object(Op::New(B, 3), 2),
            Object(Op::New(C, 7), 3),
            Empty,
            Object(Op::Who(A), 1),
            Object(Op::Who(B), 2),
            // Both pages in memory get a reference to a new object, so neither may leave, and that of the third object is gone.
            Object(Op::New(D, 0), 4),
            Does(Op::Link(A, 0, D), Reply::Done),
            Does(Op::Link(B, 0, D), Reply::Done),
        ],
    );
    let reads = workshop.space().reads();
    paged(&rt, &workshop, 0, 1, reads);
    same(
        &rt,
        workshop.operate(0, &Op::Who(C)),
        Err(Halt::Stopped(Stop::NoFrame)),
    );
    workshop.serve(&[0, 1, 2]);
    paged(&rt, &workshop, 0, 1, reads);
    // Once the nurseries are empty one of the two may leave. The new object lies beside the first one by then.
    workshop = take(&rt, workshop, &[Empty, Object(Op::Who(C), 3)]);
    paged(&rt, &workshop, 0, 1, reads.saturating_add(1));
    take(
        &rt,
        workshop,
        &[Does(Op::Load(A, 0, D), Reply::Ref), Object(Op::Who(D), 4)],
    );
    Ok(())
}

#[test]
fn a_page_leaves_for_each_hint_and_comes_back_for_an_operation(
    rt: HostRuntime,
) -> Result<(), Fail> {
    let mut workshop = Workshop::open(rt.alloc(), &TWO_FRAMES)?;
    workshop.serve(&[7]);
    workshop = take(
        &rt,
        workshop,
        &[
            Paged(2, 0, 0),
            Object(Op::New(A, 1), 1),
            Object(Op::New(B, 3), 2),
            Does(Op::Link(A, 0, B), Reply::Done),
            Empty,
            Paged(0, 0, 0),
        ],
    );
    workshop.serve(&[0]);
    paged(&rt, &workshop, 1, 1, 0);
    workshop.serve(&[0, 0, 0]);
    take(
        &rt,
        workshop,
        &[
            Paged(2, 2, 0),
            Does(Op::Load(A, 0, C), Reply::Ref),
            Paged(1, 1, 1),
            Object(Op::Who(C), 2),
            Paged(0, 0, 2),
        ],
    );
    Ok(())
}

#[test]
fn a_need_that_is_told_leaves_each_page_where_it_was(rt: HostRuntime) -> Result<(), Fail> {
    let mut workshop = Workshop::open(rt.alloc(), &ONE_SUPERPAGE_OF_TWO)?;
    for part in 0..3 {
        chain(&rt, &mut workshop, 1 + 200 * part, 200);
        workshop = emptied(&rt, workshop);
    }
    // A new object comes after the chain's first, whose page is Remembered from then on, and one of the other domain lies beside it.
    workshop = take(
        &rt,
        workshop,
        &[
            Does(Op::Load(A, 0, B), Reply::Ref),
            Object(Op::New(C, 1), 601),
            Does(Op::Link(C, 0, B), Reply::Done),
            Does(Op::Link(A, 0, C), Reply::Done),
            Object(Op::New(X, 0), 602),
        ],
    );
    let pages = first_pages(workshop.space());
    same(
        &rt,
        pages,
        [
            PageState::Gone,
            PageState::Home,
            PageState::Remembered,
            PageState::Absent,
        ],
    );
    same(&rt, workshop.failsafe(), Err(Need(2)));
    same(&rt, first_pages(workshop.space()), pages);
    take(
        &rt,
        workshop,
        &[
            Counted(1, 600),
            Object(Op::Who(X), 602),
            Object(Op::Who(C), 601),
            Does(Op::Load(A, 0, C), Reply::Ref),
            Object(Op::Who(C), 601),
        ],
    );
    Ok(())
}
