//! Each call once, with ample memory, and each refusal.

use crate::steps::Step::{
    Clear, Collect, CollectNurseries, Copy, Counted, Cut, Evict, Failsafe, Freeze, Give, Len,
    Lengthen, Link, Load, New, ObjectsInCells, Operate, Release, Root as HandOut, Same, Set, Who,
};
use crate::steps::passes;
use sorvekla::{
    Answer, Birth, Heap, HeapError, Limits, Loaded, Op, OpenError, Reply, Root, Slot, Value,
};
use std::test::Fail;

/// One superpage, which 512 objects of two fields fill.
const ONE_SUPERPAGE: Limits = Limits {
    lanes: 1,
    domains: 1,
    slots: 3,
    superpages: 1,
    nursery: 1,
    buffer: 4,
    frames: 5,
    workers: 1,
};

/// Two lanes, with a domain each.
const TWO_LANES: Limits = Limits {
    lanes: 2,
    domains: 2,
    slots: 2,
    superpages: 4,
    nursery: 1,
    buffer: 4,
    frames: 6,
    workers: 2,
};

/// The first slot of domain 0, which lane 0 works with.
const FIRST: Root = Root {
    lane: 0,
    slot: Slot { domain: 0, slot: 0 },
};

/// The second one.
const SECOND: Root = Root {
    lane: 0,
    slot: Slot { domain: 0, slot: 1 },
};

/// The first slot of domain 0, for lane 1.
const FIRST_FOR_1: Root = Root {
    lane: 1,
    slot: Slot { domain: 0, slot: 0 },
};

/// The first slot of domain 1, which lane 1 works with.
const OTHER: Root = Root {
    lane: 1,
    slot: Slot { domain: 1, slot: 0 },
};

/// A slot that domain 0 doesn't have.
const FAR: Root = Root {
    lane: 0,
    slot: Slot { domain: 0, slot: 2 },
};

/// The first object of lane 0.
const BIRTH: Birth = Birth { lane: 0, serial: 1 };

#[test]
fn every_operation_is_answered(rt: HostRuntime) -> Result<(), Fail> {
    passes(
        &rt,
        rt.alloc(),
        &Limits::default(),
        &[
            HandOut(0, 0, Ok(FIRST)),
            HandOut(0, 0, Ok(SECOND)),
            New(FIRST, 2, Ok(BIRTH)),
            Len(FIRST, Ok(2)),
            Set(FIRST, 0, 42, Ok(())),
            Load(FIRST, 0, SECOND, Ok(Loaded::Num(42))),
            Who(SECOND, Ok(Value::Num(42))),
            Link(FIRST, 1, FIRST, Ok(())),
            Load(FIRST, 1, SECOND, Ok(Loaded::Object)),
            Same(FIRST, SECOND, Ok(true)),
            Who(SECOND, Ok(Value::Obj(BIRTH))),
            Cut(FIRST, 1, Ok(())),
            Load(FIRST, 1, SECOND, Ok(Loaded::Nil)),
            Copy(FIRST, SECOND, Ok(())),
            Release(FIRST, Ok(())),
            Who(FIRST, Ok(Value::Nil)),
            HandOut(0, 0, Ok(FIRST)),
        ],
    )
}

#[test]
fn limits_that_are_refused_say_which(rt: HostRuntime) {
    let none = Limits {
        frames: 3,
        ..TWO_LANES
    };
    assert!(rt; Heap::open(rt.alloc(), &none).err() == Some(OpenError::Frames));
    let idle = Limits {
        workers: 0,
        ..TWO_LANES
    };
    assert!(rt; Heap::open(rt.alloc(), &idle).err() == Some(OpenError::Workers));
}

/// `NoBirthLeft` isn't among them: it comes after 4,294,967,295 objects of a lane.
#[test]
fn what_is_refused_says_why(rt: HostRuntime) -> Result<(), Fail> {
    assert!(rt; FIRST.of_lane(1) == FIRST_FOR_1);
    passes(
        &rt,
        rt.alloc(),
        &TWO_LANES,
        &[
            HandOut(0, 0, Ok(FIRST)),
            HandOut(1, 1, Ok(OTHER)),
            HandOut(2, 0, Err(HeapError::NoLane)),
            HandOut(0, 2, Err(HeapError::NoDomain)),
            Len(FIRST, Err(HeapError::NotObject)),
            New(FIRST, 128, Err(HeapError::OutOfRange)),
            New(FIRST_FOR_1, 1, Err(HeapError::Foreign)),
            Copy(FIRST, OTHER, Err(HeapError::Foreign)),
            Clear(FAR, Err(HeapError::NoSlot)),
            HandOut(0, 0, Ok(SECOND)),
            HandOut(0, 0, Err(HeapError::NoRootLeft)),
            New(FIRST, 2, Ok(BIRTH)),
            Set(FIRST, 2, 1, Err(HeapError::NoField)),
            Load(FIRST, 2, SECOND, Err(HeapError::NoField)),
            Give(1, 0, Ok(())),
            Copy(FIRST, OTHER, Ok(())),
        ],
    )
}

#[test]
fn a_frozen_domain_is_read_by_every_lane_and_written_by_none(rt: HostRuntime) -> Result<(), Fail> {
    passes(
        &rt,
        rt.alloc(),
        &TWO_LANES,
        &[
            HandOut(0, 0, Ok(FIRST)),
            HandOut(1, 1, Ok(OTHER)),
            New(FIRST, 1, Ok(BIRTH)),
            Set(FIRST, 0, 7, Ok(())),
            Who(FIRST_FOR_1, Err(HeapError::Foreign)),
            Freeze(2, Err(HeapError::NoDomain)),
            Freeze(0, Ok(())),
            Who(FIRST, Ok(Value::Obj(BIRTH))),
            Set(FIRST, 0, 8, Err(HeapError::Frozen)),
            Clear(FIRST, Err(HeapError::Frozen)),
            New(FIRST, 0, Err(HeapError::Frozen)),
            Load(FIRST_FOR_1, 0, OTHER, Ok(Loaded::Num(7))),
            Load(FIRST_FOR_1, 0, FIRST_FOR_1, Err(HeapError::Frozen)),
            Copy(FIRST_FOR_1, OTHER, Ok(())),
            Who(OTHER, Ok(Value::Obj(BIRTH))),
            Len(OTHER, Ok(1)),
            Cut(OTHER, 0, Err(HeapError::Frozen)),
            Operate(1, Op::Clear(FIRST.slot), Ok(Reply::Frozen)),
            Give(0, 1, Ok(())),
            Who(FIRST, Err(HeapError::Foreign)),
            Set(OTHER, 0, 9, Ok(())),
            Load(FIRST_FOR_1, 0, OTHER, Ok(Loaded::Num(9))),
        ],
    )
}

/// That a heap of one superpage would need a second one.
const SECOND_NEEDED: HeapError = HeapError::OutOfHeap {
    need: 2,
    superpages: 1,
};

#[test]
fn a_list_that_is_too_long_ends_and_the_heap_goes_on(rt: HostRuntime) -> Result<(), Fail> {
    passes(
        &rt,
        rt.alloc(),
        &ONE_SUPERPAGE,
        &[
            HandOut(0, 0, Ok(FIRST)),
            HandOut(0, 0, Ok(SECOND)),
            Lengthen(FIRST, SECOND, 1000, Err(SECOND_NEEDED)),
            Failsafe(Err(SECOND_NEEDED)),
            Clear(FIRST, Ok(())),
            Clear(SECOND, Ok(())),
            Lengthen(FIRST, SECOND, 500, Ok(())),
            CollectNurseries(Ok(())),
            Collect,
            Failsafe(Ok(())),
            ObjectsInCells(0, 4, 500),
            Evict(0, Answer::Evicted(0)),
            Counted(1, 1, 1),
        ],
    )
}
