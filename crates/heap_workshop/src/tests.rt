//! Heaps built by hand, and what their collections leave of them.

mod collecting;
mod emptying;
mod failsafe;
mod paging;

use super::*;
use bc_failsafe::Need;
use bc_model::{Birth, Op, Reply, Setup, Slot};
use std::fmt::Debug;
use std::process::Abort;
use std::test::Fail;
use std::thread::Threads;

// Slots of domain 0, and two of domain 1.
const A: Slot = Slot { domain: 0, slot: 0 };

const B: Slot = Slot { domain: 0, slot: 1 };

const C: Slot = Slot { domain: 0, slot: 2 };

const D: Slot = Slot { domain: 0, slot: 3 };

const X: Slot = Slot { domain: 1, slot: 0 };

const Y: Slot = Slot { domain: 1, slot: 1 };

/// One lane, one domain, and room for few objects.
const SMALL: Setup = Setup {
    lanes: 1,
    domains: 1,
    slots: 4,
    superpages: 2,
    nursery: 1,
    buffer: 2,
    frames: 9,
};

/// One superpage, which 1,024 objects of one field fill, and room for more of them in the chunk.
const ONE_SUPERPAGE: Setup = Setup {
    lanes: 1,
    domains: 1,
    slots: 4,
    superpages: 1,
    nursery: 5,
    buffer: 2,
    frames: 9,
};

/// What is done on a workshop, with what is answered, or what is to be found then.
#[derive(Clone, Copy)]
enum Step {
    /// Lane 0 does the operation, and is answered so.
    Does(Op, Reply),
    /// Lane 0 does the operation, and is answered by its object of this serial number.
    Object(Op, u32),
    /// Lane 1 does the operation, and is answered so.
    DoesAs1(Op, Reply),
    /// Lane 1 does the operation, and is answered by its object of this serial number.
    ObjectOf1(Op, u32),
    /// Lane 0 can't do the operation.
    Halts(Op, Halt),
    /// `chain`, with the first serial number and the number of objects.
    Chain(u32, u32),
    /// `follow`, with the number of objects.
    Follow(u32),
    /// The nurseries are emptied: their survivors find room.
    Empty,
    /// The cells are collected, or a chunk has an object.
    Collect(bool),
    /// The whole heap is collected by the fail-safe.
    Failsafe,
    /// For that it would need so many superpages.
    Needs(u64),
    /// So many superpages are in use, and so many objects lie in cells.
    Counted(u32, u32),
    SuperpagesInUse(u32),
    ObjectsInCells(u32),
    /// So many frames are free, so many pages are gone, and so many were read back.
    Paged(u32, u32, u64),
    Reads(u64),
}

/// Does the steps one after another. It hands the workshop back. A test's own function then has few calls, however many steps there are: a proof
/// of many calls in a row would carry all facts of those before each.
fn take<R>(rt: &R, workshop: Workshop, steps: &[Step]) -> Workshop
where
    R: Abort + AllocGlobal + Threads + Sync,
{
    let mut workshop = workshop;
    for step in steps {
        workshop = take_one(rt, workshop, step);
    }
    workshop
}

/// Does a step.
fn take_one<R>(rt: &R, mut workshop: Workshop, step: &Step) -> Workshop
where
    R: Abort + AllocGlobal + Threads + Sync,
{
    match *step {
        Step::Empty => emptied(rt, workshop),
        Step::Collect(wanted) => {
            same(rt, workshop.collect(rt, rt.alloc()), wanted);
            workshop
        }
        _ => {
            go(rt, &mut workshop, step);
            workshop
        }
    }
}

/// Does a step that takes no memory.
fn go(rt: &impl Abort, workshop: &mut Workshop, step: &Step) {
    match *step {
        Step::Does(op, reply) => expect(rt, workshop, op, reply),
        Step::Object(op, serial) => expect(rt, workshop, op, object(serial)),
        Step::DoesAs1(op, reply) => expect_of(rt, workshop, 1, op, reply),
        Step::ObjectOf1(op, serial) => {
            expect_of(rt, workshop, 1, op, Reply::Obj(Birth { lane: 1, serial }));
        }
        Step::Halts(op, halt) => same(rt, workshop.operate(0, &op), Err(halt)),
        Step::Chain(first, objects) => chain(rt, workshop, first, objects),
        Step::Follow(objects) => follow(rt, workshop, objects),
        Step::Failsafe => same(rt, workshop.failsafe(), Ok(())),
        Step::Needs(need) => same(rt, workshop.failsafe(), Err(Need(need))),
        _ => look(rt, workshop, step),
    }
}

/// Looks whether the workshop is as a step says.
fn look(rt: &impl Abort, workshop: &Workshop, step: &Step) {
    match *step {
        Step::Counted(superpages, objects) => counted(rt, workshop, superpages, objects),
        Step::SuperpagesInUse(superpages) => {
            same(rt, superpages_in_use(workshop.space()), superpages);
        }
        Step::ObjectsInCells(objects) => same(rt, objects_in_cells(workshop.space()), objects),
        Step::Paged(free, gone, reads) => paged(rt, workshop, free, gone, reads),
        Step::Reads(reads) => same(rt, workshop.space().reads(), reads),
        _ => rt.panic("no such step"),
    }
}

/// Shows that what was found is what was wanted. A call of this is proved in less than a fifth of the time that an `assert_eq!` takes, which
/// stands here once.
fn same<R: Abort, T: PartialEq + Debug + Copy>(rt: &R, found: T, wanted: T) {
    assert_eq!(rt; found, wanted);
}

/// The object of this birth of lane 0.
fn object(serial: u32) -> Reply {
    Reply::Obj(Birth { lane: 0, serial })
}

/// The lane does the operation, and is answered so.
fn expect_of(rt: &impl Abort, workshop: &mut Workshop, lane: u32, op: Op, reply: Reply) {
    same(rt, workshop.operate(lane, &op), Ok(reply));
}

/// The same of lane 0.
fn expect(rt: &impl Abort, workshop: &mut Workshop, op: Op, reply: Reply) {
    expect_of(rt, workshop, 0, op, reply);
}

/// The workshop when its nurseries are empty: its survivors find room.
fn emptied<R>(rt: &R, workshop: Workshop) -> Workshop
where
    R: Abort + AllocGlobal + Threads + Sync,
{
    let emptied = workshop.empty(rt, rt.alloc());
    emptied.expect(rt, "there are superpages enough")
}

/// So many superpages are in use, and so many objects lie in cells.
fn counted(rt: &impl Abort, workshop: &Workshop, superpages: u32, objects: u32) {
    same(rt, superpages_in_use(workshop.space()), superpages);
    same(rt, objects_in_cells(workshop.space()), objects);
}

/// So many frames are free, so many pages are gone, and so many were read back.
fn paged(rt: &impl Abort, workshop: &Workshop, free: u32, gone: u32, reads: u64) {
    let space = workshop.space();
    same(rt, space.free_frames(), free);
    same(rt, pages_gone(space), gone);
    same(rt, space.reads(), reads);
}

/// Makes so many objects of one field, the first one with this serial number, and has each refer to what slot A refers to, and
/// A to it. So they become a chain. B is used.
fn chain(rt: &impl Abort, workshop: &mut Workshop, first: u32, objects: u32) {
    for serial in 0..objects {
        expect(
            rt,
            workshop,
            Op::New(B, 1),
            object(first.wrapping_add(serial)),
        );
        expect(rt, workshop, Op::Link(B, 0, A), Reply::Done);
        expect(rt, workshop, Op::Copy(B, A), Reply::Done);
    }
    expect(rt, workshop, Op::Clear(B), Reply::Done);
}

/// From slot A on lies a chain of the first objects, the last one first. C is used.
fn follow(rt: &impl Abort, workshop: &mut Workshop, objects: u32) {
    expect(rt, workshop, Op::Copy(A, C), Reply::Done);
    for serial in 0..objects {
        expect(rt, workshop, Op::Who(C), object(objects - serial));
        let next = if serial + 1 == objects {
            Reply::Nil
        } else {
            Reply::Ref
        };
        expect(rt, workshop, Op::Load(C, 0, C), next);
    }
}
