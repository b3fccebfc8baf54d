//! Tests of the plain heap.

ghost use Rattle.std.specs.Prelude.{◌<◌, IsTrue};
ghost use Rattle.bc_model.specs.StateSizes.{HasSerials, HasSizes};
ghost use Rattle.bc_model.specs.WellFormed.{IsOp, IsSlot};
ghost use Rattle.edge_tests.specs.declared.plain_heap.TheConstants.{SETUP};

use crate::equal::same;
use bc_model::{Birth, Change, Flat, Give, Op, Phase, Reply, Setup, Slot};
use std::alloc::{AllocError, Global};
use std::process::Abort;
use std::test::Fail;

const SETUP: Setup = Setup {
    lanes: 2,
    domains: 4,
    slots: 2,
    superpages: 2,
    nursery: 1,
    buffer: 4,
    frames: 4,
};

/// A heap of that setup, which answers at most `left` operations more.
#[derive(Drop)]
struct Bench {
    heap: Flat,
    left: u32,
    ghost sizes: { HasSizes SETUP heap },
    ghost serials: { HasSerials left heap },
}

impl Bench {
    fn new(alloc: Global) -> Result<Bench, AllocError> {
        Ok(Bench {
            heap: Flat::new(alloc, &SETUP)?,
            left: 100,
        })
    }

    /// The lane does the operation, and is answered so. It is the step of this number.
    fn expect(
        &mut self,
        rt: &(impl Abort + AllocGlobal),
        number: usize,
        lane: u32,
        op: Op,
        reply: Reply,
    ) -> Result<(), AllocError>
        requires lane { lane < 2 }
        requires op { IsOp SETUP op }
    {
        assert!(rt; self.left > 0);
        self.left -= 1;
        let answer = self.heap.step(rt.alloc(), lane, &op)?;
        assert_eq!(rt; answer, reply, "at step {number}");
        Ok(())
    }

    fn give(&mut self, domain: u32, lane: u32)
        requires domain { domain < 4 }
        requires lane { lane < 2 }
    {
        self.heap.give(domain, lane);
    }

    fn freeze(&mut self, domain: u32)
        requires { domain < 4 }
    {
        self.heap.freeze(domain);
    }

    /// Does the step of this number, whose numbers are those of the setup.
    fn take(
        &mut self,
        rt: &(impl Abort + AllocGlobal),
        number: usize,
        step: &Step,
    ) -> Result<(), AllocError> {
        match *step {
            Step::Does(lane, op, reply) => {
                assert!(rt; lane < 2 && fits(&op));
                self.expect(rt, number, lane, op, reply)?;
            }
            Step::Give(domain, lane) => {
                assert!(rt; domain < 4 && lane < 2);
                self.give(domain, lane);
            }
            Step::Freeze(domain) => {
                assert!(rt; domain < 4);
                self.freeze(domain);
            }
        }
        Ok(())
    }
}

/// Are the operation's slots, fields and numbers those of the setup?
fn fits(op: &Op) -> bool
    ensures { IsTrue result → IsOp SETUP op.now }
{
    match *op {
        Op::New(slot, fields) => has_slot(slot) && fields <= 127,
        Op::Who(slot) | Op::Len(slot) | Op::Clear(slot) => has_slot(slot),
        Op::Set(slot, index, number) => has_slot(slot) && index < 127 && number < 1 << 63,
        Op::Cut(slot, index) => has_slot(slot) && index < 127,
        Op::Link(first, index, second) | Op::Load(first, index, second) => {
            has_slot(first) && index < 127 && has_slot(second)
        }
        Op::Copy(first, second) | Op::Same(first, second) => has_slot(first) && has_slot(second),
    }
}

/// Is there such a slot?
fn has_slot(slot: Slot) -> bool
    ensures { IsTrue result → IsSlot SETUP slot }
{
    slot.domain < 4 && slot.slot < 2
}

/// What a lane does, with the reply that it is to get; or a domain that is given away or frozen.
#[derive(Clone, Copy)]
enum Step {
    Does(u32, Op, Reply),
    Give(u32, u32),
    Freeze(u32),
}

/// Does the steps one after another on a heap of that setup. A test's own function then has one call, however many steps there are: a proof of
/// many calls in a row would carry all facts of those before each.
fn passes(rt: &(impl Abort + AllocGlobal), steps: &[Step]) -> Result<(), AllocError> {
    let mut bench = Bench::new(rt.alloc())?;
    for (before, step) in steps.iter().enumerate() {
        bench.take(rt, before, step)?;
    }
    Ok(())
}

// Slots of the domains 0 to 3. Lane 0 holds the even domains, lane 1 the odd ones.
const A: Slot = Slot { domain: 0, slot: 0 };

const B: Slot = Slot { domain: 0, slot: 1 };

const C: Slot = Slot { domain: 2, slot: 0 };

const D: Slot = Slot { domain: 2, slot: 1 };

const X: Slot = Slot { domain: 1, slot: 0 };

const Y: Slot = Slot { domain: 1, slot: 1 };

/// The first object of lane 0.
const FIRST: Reply = Reply::Obj(Birth { lane: 0, serial: 1 });

/// The second one.
const SECOND: Reply = Reply::Obj(Birth { lane: 0, serial: 2 });

/// The first object of lane 1.
const FIRST_OF_1: Reply = Reply::Obj(Birth { lane: 1, serial: 1 });

/// The second one.
const SECOND_OF_1: Reply = Reply::Obj(Birth { lane: 1, serial: 2 });

#[test]
fn each_kind_of_reply_is_given(rt: HostRuntime) -> Result<(), Fail> {
    passes(
        &rt,
        &[
            Step::Does(0, Op::Len(A), Reply::NotObj),
            Step::Does(0, Op::New(A, 1), FIRST),
            Step::Does(0, Op::Set(A, 1, 5), Reply::Range),
            Step::Does(0, Op::Load(A, 0, B), Reply::Nil),
            Step::Does(0, Op::Who(B), Reply::Nil),
            Step::Does(0, Op::Len(A), Reply::Len(1)),
            Step::Does(0, Op::Same(A, B), Reply::No),
            Step::Does(0, Op::Cut(A, 0), Reply::Done),
            Step::Does(0, Op::Set(A, 0, 5), Reply::Done),
            Step::Does(0, Op::Load(A, 0, B), Reply::Num(5)),
            Step::Does(0, Op::Who(B), Reply::Num(5)),
            Step::Does(0, Op::Len(B), Reply::NotObj),
        ],
    )?;
    Ok(())
}

#[test]
fn a_domain_that_was_given_away_is_foreign_until_it_is_back(rt: HostRuntime) -> Result<(), Fail> {
    passes(
        &rt,
        &[
            Step::Does(0, Op::New(A, 1), FIRST),
            Step::Does(0, Op::New(C, 0), SECOND),
            Step::Does(0, Op::Link(A, 0, C), Reply::Done),
            Step::Give(2, 1),
            Step::Does(0, Op::Load(A, 0, B), Reply::Ref),
            Step::Does(0, Op::Who(B), Reply::Foreign),
            Step::Does(0, Op::Len(B), Reply::Foreign),
            Step::Does(0, Op::Who(C), Reply::Foreign),
            Step::Does(1, Op::Who(C), SECOND),
            Step::Give(2, 0),
            Step::Does(0, Op::Who(B), SECOND),
        ],
    )?;
    Ok(())
}

#[test]
fn a_named_domain_of_another_lane_is_foreign_in_any_place(rt: HostRuntime) -> Result<(), Fail> {
    passes(
        &rt,
        &[
            Step::Does(0, Op::New(X, 1), Reply::Foreign),
            Step::Does(0, Op::Who(X), Reply::Foreign),
            Step::Does(0, Op::Len(X), Reply::Foreign),
            Step::Does(0, Op::Set(X, 0, 5), Reply::Foreign),
            Step::Does(0, Op::Cut(X, 0), Reply::Foreign),
            Step::Does(0, Op::Clear(X), Reply::Foreign),
            Step::Does(1, Op::Who(X), Reply::Nil),
        ],
    )?;
    Ok(())
}

#[test]
fn either_named_domain_may_be_the_foreign_one(rt: HostRuntime) -> Result<(), Fail> {
    passes(
        &rt,
        &[
            Step::Does(0, Op::Link(X, 0, A), Reply::Foreign),
            Step::Does(0, Op::Link(A, 0, X), Reply::Foreign),
            Step::Does(0, Op::Load(X, 0, A), Reply::Foreign),
            Step::Does(0, Op::Load(A, 0, X), Reply::Foreign),
            Step::Does(0, Op::Copy(X, A), Reply::Foreign),
            Step::Does(0, Op::Copy(A, X), Reply::Foreign),
            Step::Does(0, Op::Same(X, A), Reply::Foreign),
            Step::Does(0, Op::Same(A, X), Reply::Foreign),
        ],
    )?;
    Ok(())
}

#[test]
fn no_object_comes_before_range(rt: HostRuntime) -> Result<(), Fail> {
    passes(
        &rt,
        &[
            Step::Does(0, Op::Set(A, 126, 5), Reply::NotObj),
            Step::Does(0, Op::Cut(A, 126), Reply::NotObj),
            Step::Does(0, Op::Link(A, 126, B), Reply::NotObj),
            Step::Does(0, Op::Load(A, 126, B), Reply::NotObj),
        ],
    )?;
    Ok(())
}

#[test]
fn no_such_field_is_range(rt: HostRuntime) -> Result<(), Fail> {
    passes(
        &rt,
        &[
            Step::Does(0, Op::New(A, 0), FIRST),
            Step::Does(0, Op::Len(A), Reply::Len(0)),
            Step::Does(0, Op::Set(A, 0, 5), Reply::Range),
            Step::Does(0, Op::Cut(A, 0), Reply::Range),
            Step::Does(0, Op::Link(A, 0, B), Reply::Range),
            Step::Does(0, Op::Load(A, 0, B), Reply::Range),
            Step::Does(0, Op::New(B, 127), SECOND),
            Step::Does(0, Op::Cut(B, 126), Reply::Done),
        ],
    )?;
    Ok(())
}

#[test]
fn a_foreign_object_comes_before_range(rt: HostRuntime) -> Result<(), Fail> {
    passes(
        &rt,
        &[
            Step::Does(0, Op::New(C, 0), FIRST),
            Step::Does(0, Op::Copy(C, A), Reply::Done),
            Step::Give(2, 1),
            Step::Does(0, Op::Len(A), Reply::Foreign),
            Step::Does(0, Op::Set(A, 0, 5), Reply::Foreign),
            Step::Does(0, Op::Cut(A, 0), Reply::Foreign),
            Step::Does(0, Op::Link(A, 0, B), Reply::Foreign),
            Step::Does(0, Op::Load(A, 0, B), Reply::Foreign),
            Step::Does(1, Op::Len(C), Reply::Len(0)),
        ],
    )?;
    Ok(())
}

#[test]
fn values_move_whole_between_slots_and_fields(rt: HostRuntime) -> Result<(), Fail> {
    passes(
        &rt,
        &[
            Step::Does(1, Op::New(X, 2), FIRST_OF_1),
            Step::Does(1, Op::Link(X, 1, X), Reply::Done),
            Step::Does(1, Op::Load(X, 1, Y), Reply::Ref),
            Step::Does(1, Op::Same(X, Y), Reply::Yes),
            Step::Does(1, Op::Load(X, 0, Y), Reply::Nil),
            Step::Does(1, Op::Same(X, Y), Reply::No),
            Step::Does(1, Op::Clear(X), Reply::Done),
            Step::Does(1, Op::Same(X, Y), Reply::Yes),
            Step::Does(1, Op::New(Y, 0), SECOND_OF_1),
        ],
    )?;
    Ok(())
}

#[test]
fn one_number_is_the_same_as_itself_alone(rt: HostRuntime) -> Result<(), Fail> {
    passes(
        &rt,
        &[
            Step::Does(0, Op::New(A, 1), FIRST),
            Step::Does(0, Op::Set(A, 0, 9_223_372_036_854_775_807), Reply::Done),
            Step::Does(0, Op::Load(A, 0, B), Reply::Num(9_223_372_036_854_775_807)),
            Step::Does(0, Op::Copy(B, C), Reply::Done),
            Step::Does(0, Op::Same(B, C), Reply::Yes),
            Step::Does(0, Op::Set(A, 0, 7), Reply::Done),
            Step::Does(0, Op::Load(A, 0, D), Reply::Num(7)),
            Step::Does(0, Op::Same(C, D), Reply::No),
        ],
    )?;
    Ok(())
}

#[test]
fn a_phase_does_lane_after_lane_and_then_the_gives(rt: HostRuntime) -> Result<(), Fail> {
    let first = vec![in rt.alloc(); Op::New(C, 0)]?;
    let second = vec![in rt.alloc(); Op::Who(C)]?;
    let phase = Phase {
        turns: Vec::new(rt.alloc()),
        lanes: vec![in rt.alloc(); first, second]?,
        gives: vec![in rt.alloc(); Change::Give(Give { domain: 2, lane: 1 })]?,
    };
    let mut heap = Flat::new(rt.alloc(), &SETUP)?;
    let replies = heap.phase(rt.alloc(), &phase)?;
    let shown = format!(in rt.alloc(); "{:?}", replies.lanes)?;
    same(
        &rt,
        shown.as_str(),
        "[[Obj(Birth { lane: 0, serial: 1 })], [Foreign]]",
    );
    same(&rt, heap.lanes(), 2);
    Ok(())
}

#[test]
fn a_frozen_domain_is_read_by_all_and_written_by_none(rt: HostRuntime) -> Result<(), Fail> {
    passes(
        &rt,
        &[
            Step::Does(0, Op::New(A, 1), FIRST),
            Step::Does(0, Op::Set(A, 0, 7), Reply::Done),
            Step::Freeze(0),
            Step::Does(0, Op::Who(A), FIRST),
            Step::Does(0, Op::Set(A, 0, 8), Reply::Frozen),
            Step::Does(0, Op::Clear(A), Reply::Frozen),
            Step::Does(0, Op::New(B, 0), Reply::Frozen),
            Step::Does(1, Op::Load(A, 0, X), Reply::Num(7)),
            Step::Does(1, Op::Who(X), Reply::Num(7)),
            Step::Does(1, Op::Copy(A, Y), Reply::Done),
            Step::Does(1, Op::Len(Y), Reply::Len(1)),
            Step::Does(1, Op::Set(Y, 0, 9), Reply::Frozen),
            Step::Give(0, 1),
            Step::Does(0, Op::Who(A), Reply::Foreign),
            Step::Does(1, Op::Set(A, 0, 9), Reply::Done),
            Step::Does(1, Op::Load(Y, 0, X), Reply::Num(9)),
        ],
    )?;
    Ok(())
}

#[test]
fn what_is_tested_first_is_answered_where_a_domain_is_frozen(rt: HostRuntime) -> Result<(), Fail> {
    passes(
        &rt,
        &[
            Step::Does(0, Op::New(A, 1), FIRST),
            Step::Freeze(0),
            // A domain of another lane comes before the frozen slot that is to be written, and that before a slot without an object.
            Step::Does(0, Op::Copy(X, B), Reply::Foreign),
            Step::Does(0, Op::Load(C, 0, B), Reply::Frozen),
            Step::Does(0, Op::Set(B, 0, 5), Reply::NotObj),
            // A frozen object comes before a field that it doesn't have.
            Step::Does(0, Op::Cut(A, 126), Reply::Frozen),
            Step::Does(0, Op::Link(A, 126, C), Reply::Frozen),
            Step::Does(0, Op::Load(A, 126, C), Reply::Range),
        ],
    )?;
    Ok(())
}
