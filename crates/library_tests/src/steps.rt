//! Tests as lists of steps. A test's own function then has one call, however many steps there are: a proof of many calls in a row would carry
//! all facts of those before each, and all values that they left.

use sorvekla::{Answer, Birth, Heap, HeapError, Limits, Loaded, Op, Reply, Root, Value};
use std::alloc::Global;
use std::test::Fail;
use std::thread::Threads;

/// What a call returns that changes something: that it is done, or why not.
type Done = Result<(), HeapError>;

/// A call with what it is to return, or what is to be found.
#[derive(Clone, Copy)]
pub(crate) enum Step {
    /// A root slot of a domain is handed out to a lane.
    Root(u32, u32, Result<Root, HeapError>),
    Release(Root, Done),
    New(Root, u32, Result<Birth, HeapError>),
    Who(Root, Result<Value, HeapError>),
    Len(Root, Result<u32, HeapError>),
    Set(Root, u32, u64, Done),
    Cut(Root, u32, Done),
    Link(Root, u32, Root, Done),
    Load(Root, u32, Root, Result<Loaded, HeapError>),
    Copy(Root, Root, Done),
    Clear(Root, Done),
    Same(Root, Root, Result<bool, HeapError>),
    /// A lane does an operation that is given as data.
    Operate(u32, Op, Result<Reply, HeapError>),
    /// A domain is given to a lane.
    Give(u32, u32, Done),
    Freeze(u32, Done),
    /// So many objects are put before the list of the first slot. The second slot is used, and cleared.
    Lengthen(Root, Root, u32, Done),
    CollectNurseries(Done),
    Collect,
    Failsafe(Done),
    /// So many objects of a domain and a class lie in cells.
    ObjectsInCells(u32, u32, u32),
    Evict(u32, Answer),
    /// So many collections by hand, fail-safes and answered hints were counted.
    Counted(u64, u64, u64),
}

/// Does the steps one after another on a heap that is opened with these limits. Fails at the first one that doesn't go as it says.
pub(crate) fn passes<R: Threads + Sync>(
    rt: &R,
    alloc: Global,
    limits: &Limits,
    steps: &[Step],
) -> Result<(), Fail> {
    let Ok(mut heap) = Heap::open(alloc, limits) else {
        return Err(Fail::new("no heap is opened"));
    };
    let mut number: u32 = 1;
    for step in steps {
        if !goes(&mut heap, rt, step) {
            return Err(Fail::new(format_args!("step {number} goes wrong")));
        }
        number = number.saturating_add(1);
    }
    Ok(())
}

/// Does a step. Did it go as the step says?
fn goes<R: Threads + Sync>(heap: &mut Heap, rt: &R, step: &Step) -> bool {
    match *step {
        Step::Root(lane, domain, wanted) => heap.root(lane, domain) == wanted,
        Step::Release(root, wanted) => heap.release(rt, root) == wanted,
        Step::New(into, fields, wanted) => heap.new(rt, into, fields) == wanted,
        Step::Who(root, wanted) => heap.who(rt, root) == wanted,
        Step::Len(root, wanted) => heap.len(rt, root) == wanted,
        Step::Set(root, field, number, wanted) => heap.set(rt, root, field, number) == wanted,
        Step::Cut(root, field, wanted) => heap.cut(rt, root, field) == wanted,
        Step::Link(root, field, to, wanted) => heap.link(rt, root, field, to) == wanted,
        Step::Load(root, field, into, wanted) => heap.load(rt, root, field, into) == wanted,
        Step::Copy(from, into, wanted) => heap.copy(rt, from, into) == wanted,
        Step::Clear(root, wanted) => heap.clear(rt, root) == wanted,
        Step::Same(root, other, wanted) => heap.same(rt, root, other) == wanted,
        _ => goes_on_the_whole(heap, rt, step),
    }
}

/// The same of calls on the whole heap.
fn goes_on_the_whole<R: Threads + Sync>(heap: &mut Heap, rt: &R, step: &Step) -> bool {
    match *step {
        Step::Operate(lane, op, wanted) => heap.operate(rt, lane, &op) == wanted,
        Step::Give(domain, lane, wanted) => heap.give(rt, domain, lane) == wanted,
        Step::Freeze(domain, wanted) => heap.freeze(rt, domain) == wanted,
        Step::Lengthen(list, fresh, more, wanted) => {
            lengthen(heap, rt, list, fresh, more) == wanted
        }
        Step::CollectNurseries(wanted) => heap.collect_nurseries(rt) == wanted,
        Step::Collect => {
            heap.collect(rt);
            true
        }
        Step::Failsafe(wanted) => heap.failsafe() == wanted,
        Step::ObjectsInCells(domain, class, wanted) => {
            heap.objects_in_cells(domain, class) == wanted
        }
        Step::Evict(hint, wanted) => heap.evict(hint) == wanted,
        Step::Counted(by_hand, failsafe, hinted) => {
            let counters = heap.counters();
            counters.by_hand == by_hand
                && counters.failsafe == failsafe
                && counters.hinted == hinted
        }
        _ => false,
    }
}

/// Puts so many objects before the list of the first slot. It answers why it ends before that.
fn lengthen<R: Threads + Sync>(
    heap: &mut Heap,
    rt: &R,
    list: Root,
    fresh: Root,
    more: u32,
) -> Result<(), HeapError> {
    for _ in 0..more {
        put_before(heap, rt, list, fresh)?;
    }
    heap.clear(rt, fresh)
}

/// Puts an object before the list of the first slot.
fn put_before<R: Threads + Sync>(
    heap: &mut Heap,
    rt: &R,
    list: Root,
    fresh: Root,
) -> Result<(), HeapError> {
    heap.new(rt, fresh, 2)?;
    heap.link(rt, fresh, 1, list)?;
    heap.copy(rt, fresh, list)
}
