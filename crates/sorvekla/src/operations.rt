//! The operations of lanes.

ghost use Rattle.std.specs.Prelude.{◌≡◌, ◌+◌, ◌^◌, ◌<◌, true, slice_index, IfErr, IfNone, IfOk, IfSome, IsTrue, ◌↔◌, OnOk};
ghost use Rattle.bc_model.specs.Slots.{AreSlots, slots_of};
ghost use Rattle.bc_model.specs.WellFormed.{IsOp, IsSlot};
ghost use Rattle.bc_model.specs.declared.operations.Op.TheVariants as op;
ghost use Rattle.bc_model.specs.declared.operations.Reply.TheVariants as reply;
ghost use Rattle.sorvekla.specs.Steps.{DidStep, IsCauseOf, IsInRange, IsOpFault, is_reply_to, reply_of, reply_of_loaded, reply_of_same};

use crate::emptying;
use crate::errors::HeapError;
use crate::heaps::Heap;
use crate::replies::{
    Loaded, change_told, len_told, loaded_told, object_told, same_told, value_told,
};
use crate::roots::Root;
use bc_model::{Birth, Op, Reply, Setup, Slot, Value};
use std::thread::Threads;

impl Heap {
    /// A new object of so many fields, up to 127, all nil, in the domain of the slot; the slot refers to it. It is identified by its birth, the
    /// name that it has for ever.
    pub fn new<R>(&mut self, rt: &R, into: Root, fields: u32) -> Result<Birth, HeapError>
    where
        R: Threads + Sync,
        ensures done { IfOk result (λ birth. DidStep self.old into.lane (op.New into.slot fields) (reply.Obj birth) self.new) }
        ensures refused { IfErr result (λ error. IsCauseOf self.old into.lane (op.New into.slot fields) error self.new) }
    {
        let reply = self.operate(rt, into.lane, &Op::New(into.slot, fields))?;
        object_told(reply)
    }

    /// What the slot holds: nil, a number, or an object, which is identified by its birth.
    pub fn who<R>(&mut self, rt: &R, root: Root) -> Result<Value, HeapError>
    where
        R: Threads + Sync,
        ensures done { IfOk result (λ value. DidStep self.old root.lane (op.Who root.slot) (reply_of value) self.new) }
        ensures refused { IfErr result (λ error. IsCauseOf self.old root.lane (op.Who root.slot) error self.new) }
    {
        let reply = self.operate(rt, root.lane, &Op::Who(root.slot))?;
        value_told(reply)
    }

    /// How many fields the slot's object has.
    pub fn len<R>(&mut self, rt: &R, root: Root) -> Result<u32, HeapError>
    where
        R: Threads + Sync,
        ensures done { IfOk result (λ fields. DidStep self.old root.lane (op.Len root.slot) (reply.Len fields) self.new) }
        ensures refused { IfErr result (λ error. IsCauseOf self.old root.lane (op.Len root.slot) error self.new) }
    {
        let reply = self.operate(rt, root.lane, &Op::Len(root.slot))?;
        len_told(reply)
    }

    /// The field of the slot's object becomes the number, which is below 2^63.
    pub fn set<R>(&mut self, rt: &R, root: Root, field: u32, number: u64) -> Result<(), HeapError>
    where
        R: Threads + Sync,
        ensures done { OnOk result (DidStep self.old root.lane (op.Set root.slot field number) reply.Done self.new) }
        ensures refused { IfErr result (λ error. IsCauseOf self.old root.lane (op.Set root.slot field number) error self.new) }
    {
        let reply = self.operate(rt, root.lane, &Op::Set(root.slot, field, number))?;
        change_told(reply)
    }

    /// The field of the slot's object becomes nil.
    pub fn cut<R>(&mut self, rt: &R, root: Root, field: u32) -> Result<(), HeapError>
    where
        R: Threads + Sync,
        ensures done { OnOk result (DidStep self.old root.lane (op.Cut root.slot field) reply.Done self.new) }
        ensures refused { IfErr result (λ error. IsCauseOf self.old root.lane (op.Cut root.slot field) error self.new) }
    {
        let reply = self.operate(rt, root.lane, &Op::Cut(root.slot, field))?;
        change_told(reply)
    }

    /// The field of the first slot's object becomes what the second slot holds.
    pub fn link<R>(&mut self, rt: &R, root: Root, field: u32, to: Root) -> Result<(), HeapError>
    where
        R: Threads + Sync,
        ensures done { OnOk result (DidStep self.old root.lane (op.Link root.slot field to.slot) reply.Done self.new) }
        ensures refused { IfErr result (λ error. IsCauseOf self.old root.lane (op.Link root.slot field to.slot) error self.new) }
    {
        let reply = self.operate(rt, root.lane, &Op::Link(root.slot, field, to.slot))?;
        change_told(reply)
    }

    /// The second slot becomes what the field of the first slot's object holds.
    pub fn load<R>(
        &mut self,
        rt: &R,
        root: Root,
        field: u32,
        into: Root,
    ) -> Result<Loaded, HeapError>
    where
        R: Threads + Sync,
        ensures done { IfOk result (λ loaded. DidStep self.old root.lane (op.Load root.slot field into.slot) (reply_of_loaded loaded) self.new) }
        ensures refused { IfErr result (λ error. IsCauseOf self.old root.lane (op.Load root.slot field into.slot) error self.new) }
    {
        let reply = self.operate(rt, root.lane, &Op::Load(root.slot, field, into.slot))?;
        loaded_told(reply)
    }

    /// The second slot becomes what the first one holds.
    pub fn copy<R>(&mut self, rt: &R, from: Root, into: Root) -> Result<(), HeapError>
    where
        R: Threads + Sync,
        ensures done { OnOk result (DidStep self.old from.lane (op.Copy from.slot into.slot) reply.Done self.new) }
        ensures refused { IfErr result (λ error. IsCauseOf self.old from.lane (op.Copy from.slot into.slot) error self.new) }
    {
        let reply = self.operate(rt, from.lane, &Op::Copy(from.slot, into.slot))?;
        change_told(reply)
    }

    /// The slot becomes nil.
    pub fn clear<R>(&mut self, rt: &R, root: Root) -> Result<(), HeapError>
    where
        R: Threads + Sync,
        ensures done { OnOk result (DidStep self.old root.lane (op.Clear root.slot) reply.Done self.new) }
        ensures refused { IfErr result (λ error. IsCauseOf self.old root.lane (op.Clear root.slot) error self.new) }
    {
        let reply = self.operate(rt, root.lane, &Op::Clear(root.slot))?;
        change_told(reply)
    }

    /// Do two slots hold the same value: nil, one number, or one object?
    pub fn same<R>(&mut self, rt: &R, root: Root, other: Root) -> Result<bool, HeapError>
    where
        R: Threads + Sync,
        ensures done { IfOk result (λ same. DidStep self.old root.lane (op.Same root.slot other.slot) (reply_of_same same) self.new) }
        ensures refused { IfErr result (λ error. IsCauseOf self.old root.lane (op.Same root.slot other.slot) error self.new) }
    {
        let reply = self.operate(rt, root.lane, &Op::Same(root.slot, other.slot))?;
        same_told(reply)
    }

    /// Does an operation that is given as data, as a trace has it. What the plain heap refuses (no object, no such field, a domain that the
    /// lane can't read, or that is frozen and would be written) is answered by the reply and is no error here. It takes no memory. Where the
    /// chunk or the write buffer is full, or no frame can be taken, the nurseries are emptied first.
    pub fn operate<R>(&mut self, rt: &R, lane: u32, op: &Op) -> Result<Reply, HeapError>
    where
        R: Threads + Sync,
        ensures done { IfOk result (λ reply. DidStep self.old lane op.now reply self.new) }
        ensures refused { IfErr result (λ error. IsCauseOf self.old lane op.now error self.new) }
        ensures told { IfOk result (λ reply. is_reply_to op.now reply ≡ true) }
    {
        if let Some(error) = self.op_fault(lane, op) {
            return Err(error);
        }
        emptying::operate(
            &mut self.running,
            &self.setup,
            &mut self.upkeep,
            rt,
            lane,
            op,
        )
    }

    /// Why an operation can't be begun.
    fn op_fault(&self, lane: u32, op: &Op) -> Option<HeapError>
        ensures fault { IfSome result (λ error. IsOpFault self.now lane op.now error) }
        ensures lane { IfNone result (lane < self.now.setup.lanes) }
        ensures op { IfNone result (IsOp self.now.setup op.now) }
        ensures serial { IfNone result (slice_index self.now.running.serials lane + 1 < 2 ^ 32) }
    {
        if lane >= self.setup.lanes {
            return Some(HeapError::NoLane);
        }
        if !has_slots(&self.setup, op) {
            return Some(HeapError::NoSlot);
        }
        if !is_in_range(op) {
            return Some(HeapError::OutOfRange);
        }
        if self.running.serials()[lane as usize] == u32::MAX {
            return Some(HeapError::NoBirthLeft);
        }
        None
    }
}

/// Are there the slots that the operation names?
fn has_slots(setup: &Setup, op: &Op) -> bool
    ensures { IsTrue result ↔ AreSlots setup.now (slots_of op.now).0 (slots_of op.now).1 }
{
    match op.slots() {
        (first, None) => has_slot(setup, first),
        (first, Some(second)) => has_slot(setup, first) && has_slot(setup, second),
    }
}

/// Is there such a slot?
fn has_slot(setup: &Setup, slot: Slot) -> bool
    ensures { IsTrue result ↔ IsSlot setup.now slot }
{
    slot.domain < setup.domains && slot.slot < setup.slots
}

/// Are the fields and numbers of an operation in range?
fn is_in_range(op: &Op) -> bool
    ensures { IsTrue result ↔ IsInRange op.now }
{
    match *op {
        Op::New(_, fields) => fields <= 127,
        Op::Set(_, field, number) => field < 127 && number < 1 << 63,
        Op::Cut(_, field) | Op::Link(_, field, _) | Op::Load(_, field, _) => field < 127,
        Op::Who(_) | Op::Len(_) | Op::Copy(_, _) | Op::Clear(_) | Op::Same(_, _) => true,
    }
}
