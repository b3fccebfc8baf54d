//! The emptying of the nurseries.

use super::Step::{Counted, Does, DoesAs1, Empty, Follow, Halts, Object, ObjectOf1};
use super::*;
use bc_mutator::Stop;

/// Two lanes, with a domain and a chunk each.
const TWO_LANES: Setup = Setup {
    lanes: 2,
    domains: 2,
    slots: 4,
    superpages: 2,
    nursery: 1,
    buffer: 2,
    frames: 10,
};

/// The nurseries are emptied, and then so many superpages are in use, and so many objects lie in cells.
fn empty<R>(rt: &R, workshop: Workshop, superpages: u32, objects: u32) -> Workshop
where
    R: Abort + AllocGlobal + Threads + Sync,
{
    let workshop = emptied(rt, workshop);
    counted(rt, &workshop, superpages, objects);
    workshop
}

#[test]
fn a_recorded_field_alone_keeps_its_target_and_twice_recorded_keeps_it_once(
    rt: HostRuntime,
) -> Result<(), Fail> {
    let workshop = Workshop::open(rt.alloc(), &SMALL)?;
    take(
        &rt,
        workshop,
        &[
            Object(Op::New(A, 1), 1),
            Empty,
            Counted(1, 1),
            // The second object lies in the chunk, and only a field of the first one, in a cell, refers to it.
            Object(Op::New(B, 1), 2),
            Does(Op::Link(A, 0, B), Reply::Done),
            Does(Op::Clear(B), Reply::Done),
            Empty,
            Counted(1, 2),
            Does(Op::Load(A, 0, B), Reply::Ref),
            Object(Op::Who(B), 2),
            // The field is recorded twice, and with that the buffer is full.
            Object(Op::New(C, 1), 3),
            Does(Op::Link(A, 0, C), Reply::Done),
            Does(Op::Link(A, 0, C), Reply::Done),
            Halts(Op::Link(A, 0, C), Halt::Stopped(Stop::BufferFull)),
            Does(Op::Clear(C), Reply::Done),
            Empty,
            Counted(1, 3),
            Does(Op::Load(A, 0, C), Reply::Ref),
            Object(Op::Who(C), 3),
        ],
    );
    Ok(())
}

#[test]
fn a_cycle_of_a_chunk_survives_whole_and_one_without_a_reference_does_not(
    rt: HostRuntime,
) -> Result<(), Fail> {
    let workshop = Workshop::open(rt.alloc(), &SMALL)?;
    take(
        &rt,
        workshop,
        &[
            Object(Op::New(A, 1), 1),
            Object(Op::New(B, 1), 2),
            Does(Op::Link(A, 0, B), Reply::Done),
            Does(Op::Link(B, 0, A), Reply::Done),
            Object(Op::New(C, 1), 3),
            Does(Op::Link(C, 0, C), Reply::Done),
            Does(Op::Clear(B), Reply::Done),
            Does(Op::Clear(C), Reply::Done),
            Empty,
            Counted(1, 2),
            Does(Op::Load(A, 0, B), Reply::Ref),
            Object(Op::Who(B), 2),
            Does(Op::Load(B, 0, D), Reply::Ref),
            Does(Op::Same(A, D), Reply::Yes),
        ],
    );
    Ok(())
}

#[test]
fn each_of_two_chunks_has_its_own_survivors(rt: HostRuntime) -> Result<(), Fail> {
    let workshop = Workshop::open(rt.alloc(), &TWO_LANES)?;
    take(
        &rt,
        workshop,
        &[
            Object(Op::New(A, 1), 1),
            Object(Op::New(A, 1), 2),
            ObjectOf1(Op::New(X, 1), 1),
            ObjectOf1(Op::New(Y, 1), 2),
            DoesAs1(Op::Link(X, 0, Y), Reply::Done),
            DoesAs1(Op::Clear(Y), Reply::Done),
            Empty,
            Counted(2, 3),
            Object(Op::Who(A), 2),
            Does(Op::Who(X), Reply::Foreign),
            ObjectOf1(Op::Who(X), 1),
            DoesAs1(Op::Load(X, 0, Y), Reply::Ref),
            ObjectOf1(Op::Who(Y), 2),
        ],
    );
    Ok(())
}

/// One cell is free, and the chunk has two survivors. The chain from slot A on is the cells' and they.
fn one_cell_short<R>(rt: &R) -> Result<Workshop, Fail>
where
    R: Abort + AllocGlobal + Threads + Sync,
{
    let mut workshop = Workshop::open(rt.alloc(), &ONE_SUPERPAGE)?;
    chain(rt, &mut workshop, 1, 1023);
    workshop = empty(rt, workshop, 1, 1023);
    chain(rt, &mut workshop, 1024, 2);
    Ok(workshop)
}

#[test]
fn where_the_last_survivor_finds_no_cell_the_need_is_told(rt: HostRuntime) -> Result<(), Fail> {
    let workshop = one_cell_short(&rt)?;
    let refused = workshop.empty(&rt, rt.alloc()).err();
    same(&rt, refused, Some(Need(2)));
    Ok(())
}

#[test]
fn where_most_cells_have_no_live_object_the_last_survivor_finds_one(
    rt: HostRuntime,
) -> Result<(), Fail> {
    let workshop = one_cell_short(&rt)?;
    take(
        &rt,
        workshop,
        &[
            Follow(1025),
            Does(Op::Load(A, 0, B), Reply::Ref),
            Does(Op::Cut(B, 0), Reply::Done),
            Empty,
            Counted(1, 2),
            Object(Op::Who(A), 1025),
            Does(Op::Load(A, 0, B), Reply::Ref),
            Object(Op::Who(B), 1024),
            Does(Op::Load(B, 0, B), Reply::Nil),
        ],
    );
    Ok(())
}
