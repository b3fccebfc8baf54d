//! Emptyings of nurseries whose survivors don't fit: dead cells in memory are freed for them, and no page is read back. The fail-safe
//! would read each page that is gone, and free all that is dead.

use super::Step::{Collect, Counted, Does, Empty, Follow, Object, ObjectsInCells, Paged, Reads};
use super::*;

/// One superpage of four pages, of which two are in memory. A page has room for four objects of 127 fields.
const HALF_GONE: Setup = Setup {
    lanes: 1,
    domains: 1,
    slots: 2,
    superpages: 1,
    nursery: 1,
    buffer: 4,
    frames: 3,
};

/// Three superpages of twelve pages, of which two are in memory.
const MOSTLY_GONE: Setup = Setup {
    lanes: 1,
    domains: 1,
    slots: 4,
    superpages: 3,
    nursery: 1,
    buffer: 4,
    frames: 3,
};

/// Two new objects of 127 fields refer to each other. The two that slots A and B referred to are dropped.
fn pair(rt: &impl Abort, workshop: &mut Workshop, first: u32) {
    expect(rt, workshop, Op::New(A, 127), object(first));
    expect(rt, workshop, Op::New(B, 127), object(first.wrapping_add(1)));
    expect(rt, workshop, Op::Link(A, 0, B), Reply::Done);
    expect(rt, workshop, Op::Link(B, 0, A), Reply::Done);
}

/// Four new objects of 127 fields, which fill a page, become the head of the list from the slot on. Slot B is used.
fn page_of_list<R>(rt: &R, mut workshop: Workshop, slot: Slot, first: u32) -> Workshop
where
    R: Abort + AllocGlobal + Threads + Sync,
{
    for serial in 0..4 {
        expect(
            rt,
            &mut workshop,
            Op::New(B, 127),
            object(first.wrapping_add(serial)),
        );
        expect(rt, &mut workshop, Op::Link(B, 0, slot), Reply::Done);
        expect(rt, &mut workshop, Op::Copy(B, slot), Reply::Done);
    }
    expect(rt, &mut workshop, Op::Clear(B), Reply::Done);
    emptied(rt, workshop)
}

#[test]
fn cycles_that_are_dropped_make_room_for_others_and_nothing_is_read_back(
    rt: HostRuntime,
) -> Result<(), Fail> {
    let mut workshop = Workshop::open(rt.alloc(), &HALF_GONE)?;
    for round in 0..8 {
        pair(&rt, &mut workshop, 1 + 2 * round);
        workshop = emptied(&rt, workshop);
    }
    workshop = take(&rt, workshop, &[Counted(1, 16), Paged(0, 2, 0)]);
    for round in 8..20 {
        pair(&rt, &mut workshop, 1 + 2 * round);
        workshop = emptied(&rt, workshop);
        // Every fourth time the heap is full. Then the eight on the two pages in memory are freed for the two.
        counted(&rt, &workshop, 1, 10 + 2 * (round % 4));
        paged(&rt, &workshop, 0, 2, 0);
    }
    take(
        &rt,
        workshop,
        &[Does(Op::Load(A, 0, A), Reply::Ref), Object(Op::Who(A), 40)],
    );
    Ok(())
}

#[test]
fn a_collection_by_hand_frees_what_is_dead_in_memory_and_reads_nothing_back(
    rt: HostRuntime,
) -> Result<(), Fail> {
    let mut workshop = Workshop::open(rt.alloc(), &MOSTLY_GONE)?;
    for page in 0..10 {
        workshop = page_of_list(&rt, workshop, A, 1 + 4 * page);
    }
    for page in 10..12 {
        workshop = page_of_list(&rt, workshop, C, 1 + 4 * page);
    }
    take(
        &rt,
        workshop,
        &[
            Does(Op::Clear(C), Reply::Done),
            Object(Op::New(D, 127), 49),
            // The chunk has an object.
            Collect(false),
            Counted(3, 48),
            Empty,
            Counted(3, 41),
            Does(Op::Clear(D), Reply::Done),
            Collect(true),
            Counted(3, 40),
            Reads(0),
            Follow(40),
        ],
    );
    Ok(())
}

#[test]
fn where_most_of_the_heap_is_gone_what_is_dead_in_memory_is_freed_and_the_rest_kept(
    rt: HostRuntime,
) -> Result<(), Fail> {
    let mut workshop = Workshop::open(rt.alloc(), &MOSTLY_GONE)?;
    for page in 0..10 {
        workshop = page_of_list(&rt, workshop, A, 1 + 4 * page);
    }
    for page in 10..12 {
        workshop = page_of_list(&rt, workshop, C, 1 + 4 * page);
    }
    take(
        &rt,
        workshop,
        &[
            Counted(3, 48),
            Paged(0, 10, 0),
            // What is dropped fills the two pages in memory, and the heap is full.
            Does(Op::Clear(C), Reply::Done),
            Object(Op::New(D, 127), 49),
            Empty,
            ObjectsInCells(41),
            Reads(0),
            Follow(40),
            Object(Op::Who(D), 49),
        ],
    );
    Ok(())
}

/// Three superpages of twelve pages, of which eight are in memory.
const ONE_GONE: Setup = Setup {
    lanes: 1,
    domains: 1,
    slots: 4,
    superpages: 3,
    nursery: 1,
    buffer: 4,
    frames: 9,
};

#[test]
fn cells_of_two_superpages_come_together_for_an_object_of_another_class_and_nothing_is_read_back(
    rt: HostRuntime,
) -> Result<(), Fail> {
    let mut workshop = Workshop::open(rt.alloc(), &ONE_GONE)?;
    for page in 0..4 {
        workshop = page_of_list(&rt, workshop, A, 1 + 4 * page);
    }
    workshop = page_of_list(&rt, workshop, C, 17);
    for page in 5..8 {
        workshop = page_of_list(&rt, workshop, D, 1 + 4 * page);
    }
    workshop = page_of_list(&rt, workshop, C, 33);
    for page in 9..12 {
        workshop = page_of_list(&rt, workshop, D, 1 + 4 * page);
    }
    workshop = take(
        &rt,
        workshop,
        &[
            Counted(3, 48),
            Paged(0, 4, 0),
            // Of the second superpage and of the third one four objects are left. An object of another class wants a superpage.
            Does(Op::Clear(D), Reply::Done),
            Object(Op::New(D, 1), 49),
            Empty,
            Counted(3, 25),
            Paged(0, 4, 0),
            Object(Op::Who(D), 49),
        ],
    );
    for passed in 0..4 {
        expect(&rt, &mut workshop, Op::Who(C), object(36 - passed));
        expect(&rt, &mut workshop, Op::Load(C, 0, C), Reply::Ref);
    }
    for passed in 0..3 {
        expect(&rt, &mut workshop, Op::Who(C), object(20 - passed));
        expect(&rt, &mut workshop, Op::Load(C, 0, C), Reply::Ref);
    }
    take(&rt, workshop, &[Object(Op::Who(C), 17), Follow(16)]);
    Ok(())
}
