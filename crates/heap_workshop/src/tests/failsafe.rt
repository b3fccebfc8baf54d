//! The fail-safe collection.

use super::Step::{
    Chain, Counted, Does, Failsafe, Follow, Needs, Object, ObjectsInCells, SuperpagesInUse,
};
use super::*;

/// Two domains, and one superpage for both.
const TWO_DOMAINS: Setup = Setup {
    lanes: 1,
    domains: 2,
    slots: 4,
    superpages: 1,
    nursery: 1,
    buffer: 2,
    frames: 5,
};

#[test]
fn a_cycle_of_two_and_a_self_reference(rt: HostRuntime) -> Result<(), Fail> {
    let workshop = Workshop::open(rt.alloc(), &SMALL)?;
    take(
        &rt,
        workshop,
        &[
            Object(Op::New(A, 1), 1),
            Object(Op::New(B, 1), 2),
            Does(Op::Link(A, 0, B), Reply::Done),
            Does(Op::Link(B, 0, A), Reply::Done),
            Object(Op::New(C, 1), 3),
            Does(Op::Link(C, 0, C), Reply::Done),
            Does(Op::Clear(B), Reply::Done),
            Failsafe,
            Counted(1, 3),
            Object(Op::Who(A), 1),
            Does(Op::Load(A, 0, B), Reply::Ref),
            Object(Op::Who(B), 2),
            Does(Op::Load(B, 0, D), Reply::Ref),
            Does(Op::Same(A, D), Reply::Yes),
            Does(Op::Load(C, 0, D), Reply::Ref),
            Does(Op::Same(C, D), Reply::Yes),
            Object(Op::Who(C), 3),
        ],
    );
    Ok(())
}

#[test]
fn a_cycle_that_nothing_refers_to_is_gone(rt: HostRuntime) -> Result<(), Fail> {
    let workshop = Workshop::open(rt.alloc(), &SMALL)?;
    take(
        &rt,
        workshop,
        &[
            Object(Op::New(A, 1), 1),
            Object(Op::New(B, 1), 2),
            Does(Op::Link(A, 0, B), Reply::Done),
            Does(Op::Link(B, 0, A), Reply::Done),
            Failsafe,
            Counted(1, 2),
            Does(Op::Clear(A), Reply::Done),
            Failsafe,
            Counted(1, 2),
            Does(Op::Clear(B), Reply::Done),
            Failsafe,
            Counted(0, 0),
        ],
    );
    Ok(())
}

#[test]
fn two_slots_and_a_field_share_a_target(rt: HostRuntime) -> Result<(), Fail> {
    let workshop = Workshop::open(rt.alloc(), &SMALL)?;
    take(
        &rt,
        workshop,
        &[
            Object(Op::New(A, 3), 1),
            Does(Op::Copy(A, B), Reply::Done),
            Object(Op::New(C, 1), 2),
            Does(Op::Link(C, 0, A), Reply::Done),
            Failsafe,
            Counted(2, 2),
            Does(Op::Same(A, B), Reply::Yes),
            Does(Op::Len(A), Reply::Len(3)),
            Does(Op::Set(A, 2, 7), Reply::Done),
            Failsafe,
            Counted(2, 2),
            Does(Op::Load(B, 2, D), Reply::Num(7)),
            Does(Op::Load(B, 3, D), Reply::Range),
            Does(Op::Load(C, 0, D), Reply::Ref),
            Does(Op::Same(B, D), Reply::Yes),
            Object(Op::Who(D), 1),
        ],
    );
    Ok(())
}

#[test]
fn a_chain_goes_back_and_forth_between_chunk_and_cells(rt: HostRuntime) -> Result<(), Fail> {
    let workshop = Workshop::open(rt.alloc(), &SMALL)?;
    take(
        &rt,
        workshop,
        &[
            Object(Op::New(A, 1), 1),
            Object(Op::New(B, 1), 2),
            Failsafe,
            Counted(1, 2),
            // The third and the fourth lie in the chunk, and the chain is 1, 3, 2, 4, 1.
            Object(Op::New(C, 1), 3),
            Object(Op::New(D, 1), 4),
            Does(Op::Link(A, 0, C), Reply::Done),
            Does(Op::Link(C, 0, B), Reply::Done),
            Does(Op::Link(B, 0, D), Reply::Done),
            Does(Op::Link(D, 0, A), Reply::Done),
            Does(Op::Clear(B), Reply::Done),
            Does(Op::Clear(C), Reply::Done),
            Does(Op::Clear(D), Reply::Done),
            Failsafe,
            Counted(1, 4),
            Does(Op::Load(A, 0, B), Reply::Ref),
            Object(Op::Who(B), 3),
            Does(Op::Load(B, 0, B), Reply::Ref),
            Object(Op::Who(B), 2),
            Does(Op::Load(B, 0, B), Reply::Ref),
            Object(Op::Who(B), 4),
            Does(Op::Load(B, 0, B), Reply::Ref),
            Does(Op::Same(A, B), Reply::Yes),
        ],
    );
    Ok(())
}

#[test]
fn an_object_of_each_domain_needs_a_superpage(rt: HostRuntime) -> Result<(), Fail> {
    let workshop = Workshop::open(rt.alloc(), &TWO_DOMAINS)?;
    take(
        &rt,
        workshop,
        &[
            Object(Op::New(A, 1), 1),
            Object(Op::New(X, 1), 2),
            Needs(2),
            SuperpagesInUse(0),
            Object(Op::Who(A), 1),
            Object(Op::Who(X), 2),
            Does(Op::Clear(A), Reply::Done),
            Failsafe,
            Counted(1, 1),
            Object(Op::Who(X), 2),
        ],
    );
    Ok(())
}

#[test]
fn garbage_in_cells_and_in_the_chunk_is_left_behind(rt: HostRuntime) -> Result<(), Fail> {
    let workshop = Workshop::open(rt.alloc(), &ONE_SUPERPAGE)?;
    take(
        &rt,
        workshop,
        &[
            Chain(1, 500),
            Failsafe,
            Counted(1, 500),
            // Only the last three of the chain stay, and an object that is made now.
            Does(Op::Load(A, 0, B), Reply::Ref),
            Does(Op::Load(B, 0, B), Reply::Ref),
            Does(Op::Cut(B, 0), Reply::Done),
            Object(Op::New(D, 1), 501),
            Object(Op::New(D, 1), 502),
            Does(Op::Clear(B), Reply::Done),
            Failsafe,
            Counted(1, 4),
            Object(Op::Who(D), 502),
            Object(Op::Who(A), 500),
            Does(Op::Load(A, 0, B), Reply::Ref),
            Object(Op::Who(B), 499),
            Does(Op::Load(B, 0, B), Reply::Ref),
            Object(Op::Who(B), 498),
            Does(Op::Load(B, 0, B), Reply::Nil),
        ],
    );
    Ok(())
}

#[test]
fn a_heap_may_be_exactly_full(rt: HostRuntime) -> Result<(), Fail> {
    let workshop = Workshop::open(rt.alloc(), &ONE_SUPERPAGE)?;
    take(
        &rt,
        workshop,
        &[
            Chain(1, 1024),
            Failsafe,
            Counted(1, 1024),
            Follow(1024),
            Failsafe,
            Counted(1, 1024),
            Follow(1024),
        ],
    );
    Ok(())
}

#[test]
fn one_object_too_many_needs_a_superpage_more(rt: HostRuntime) -> Result<(), Fail> {
    let workshop = Workshop::open(rt.alloc(), &ONE_SUPERPAGE)?;
    take(
        &rt,
        workshop,
        &[
            Chain(1, 1025),
            Needs(2),
            ObjectsInCells(0),
            Follow(1025),
            // Without the last one it fits.
            Does(Op::Load(A, 0, A), Reply::Ref),
            Failsafe,
            Counted(1, 1024),
            Follow(1024),
        ],
    );
    Ok(())
}
