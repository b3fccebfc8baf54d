//! The heap that never frees, moves or pages: its steps, one operation after another.

ghost use Rattle.std.specs.Prelude.{◌≡◌, ℕ, ◌+◌, ◌*◌, ◌^◌, ◌<◌, ◌≤◌, IfOk, OnErr, MatchResult, length, ◌==◌, if◌then◌else◌};
ghost use Rattle.std.specs.List.{list_all};
ghost use Rattle.bc_model.specs.Consistent.{IsState, IsValue};
ghost use Rattle.bc_model.specs.StateSizes.{sizes_of, HasSizes, HasSerials};
ghost use Rattle.bc_model.specs.State.{State, IsBorn, made_by, frozen, given, reads, writes, field_of, object_of, slot_of, with_born_field, with_slot};
ghost use Rattle.bc_model.specs.Making.{IsNew};
ghost use Rattle.bc_model.specs.Step.{act, domains_of, is_same, loaded, on_field, on_object, on_own_field, step, target_writes};
ghost use Rattle.bc_model.specs.Run.{opening};
ghost use Rattle.bc_model.specs.WellFormed.{IsOp, IsSetup, IsSlot};
ghost use Rattle.bc_model.specs.declared.operations.Op.{Op};
ghost use Rattle.bc_model.specs.declared.operations.Reply.{Reply};
ghost use Rattle.bc_model.specs.declared.values.Birth.{Birth};

use crate::made::Made;
use crate::opening::first_holders;
use crate::operations::{Op, Reply};
use crate::traces::Setup;
use crate::values::{Birth, Holder, Slot, Value};
use std::alloc::{AllocError, Global};
use std::marker::Model;

/// The heap that never frees, moves or pages. Contracts see it as the state that it stands for.
#[derive(Debug, Drop)]
pub struct Flat {
    /// Root slots of each domain.
    width: u32,
    made: Made,
    /// What the root slots hold, domain after domain.
    slots: Vec<Value>,
    /// Who holds each domain.
    holders: Vec<Holder>,
}

impl Model for Flat {
    ghost use Rattle.bc_model.specs.State.{State};

    ghost Value = { State };

    ghost use Rattle.bc_model.specs.Consistent.{IsState};
    ghost use Rattle.bc_model.specs.Flat.{state_of};

    ghost view = { state_of };

    ghost invariant = { λ f. IsState (state_of f) };
}

impl Flat {
    /// The heap that a run of this setup begins with: no object, every slot nil, and domain `d`
    /// held by lane `d % lanes`.
    pub fn new(alloc: Global, setup: &Setup) -> Result<Flat, AllocError>
        requires { IsSetup setup.now }
        ensures opening { IfOk result (λ f. f ≡ opening setup.now) }
        ensures sizes { IfOk result (HasSizes setup.now) }
        ensures serials { IfOk result (λ f. (n : ℕ) → n < 2 ^ 32 → HasSerials n f) }
    {
        let slots = setup.slots as usize * setup.domains as usize;
        Ok(Flat {
            width: setup.slots,
            made: Made::new(alloc, setup.lanes)?,
            slots: vec![in alloc; Value::Nil; slots]?,
            holders: first_holders(alloc, setup.domains, setup.lanes)?,
        })
    }

    /// How many lanes there are. What is true of every state is true of this one.
    pub fn lanes(&self) -> u32
        ensures lanes { result ≡ length self.now.made }
        ensures state { IsState self.now }
    {
        self.made.lanes()
    }

    /// Does one operation of a lane. Takes memory for a new object alone; where there is none, the
    /// heap is as it was.
    pub fn step(&mut self, alloc: Global, lane: u32, op: &Op) -> Result<Reply, AllocError>
        requires lane { lane < length self.old.made }
        requires op { IsOp (sizes_of self.old) op.now }
        requires serials { length (made_by self.old.made lane) + 1 < 2 ^ 32 }
        ensures ok { IfOk result (λ reply. (self.new, reply) ≡ step self.old lane op.now) }
        ensures err { OnErr result (self.new ≡ self.old) }
        ensures only_new { OnErr result (IsNew op.now) }

        // What the next step asks: the sizes stay, and at most one object more was made.
        ensures sizes { sizes_of self.new ≡ sizes_of self.old }
        ensures more { (j : ℕ) → length (made_by self.new.made j) ≤ length (made_by self.old.made j) + 1 }
    {
        if !self.reads_all(lane, op) {
            return Ok(Reply::Foreign);
        }
        if !self.writes_target(lane, op) {
            return Ok(Reply::Frozen);
        }
        self.act(alloc, lane, op)
    }

    /// An operation of a lane that may read all domains that it names, and write the slot that it writes.
    fn act(&mut self, alloc: Global, lane: u32, op: &Op) -> Result<Reply, AllocError>
        requires lane { lane < length self.old.made }
        requires op { IsOp (sizes_of self.old) op.now }
        requires serials { length (made_by self.old.made lane) + 1 < 2 ^ 32 }
        ensures ok { IfOk result (λ reply. (self.new, reply) ≡ act self.old lane op.now) }
        ensures err { OnErr result (self.new ≡ self.old) }
        ensures only_new { OnErr result (IsNew op.now) }
    {
        match *op {
            Op::New(slot, fields) => self.make(alloc, lane, slot, fields),
            Op::Who(slot) => Ok(self.who(lane, slot)),
            Op::Len(slot) => Ok(self.len(lane, slot)),
            Op::Set(slot, index, number) => Ok(self.set(lane, slot, index, number)),
            Op::Cut(slot, index) => Ok(self.cut(lane, slot, index)),
            Op::Link(slot, index, from) => Ok(self.link(lane, slot, index, from)),
            Op::Load(slot, index, to) => Ok(self.load(lane, slot, index, to)),
            Op::Copy(from, to) => Ok(self.copy(from, to)),
            Op::Clear(slot) => Ok(self.clear(slot)),
            Op::Same(first, second) => Ok(self.same(first, second)),
        }
    }

    /// From now on the lane holds the domain, also where it was frozen. Takes no memory.
    pub fn give(&mut self, domain: u32, lane: u32)
        requires domain { domain < length self.old.holders }
        requires lane { lane < length self.old.made }
        ensures given { self.new ≡ given self.old (record { domain = domain; lane = lane }) }
        ensures sizes { sizes_of self.new ≡ sizes_of self.old }
    {
        self.holders[domain as usize] = Holder::Lane(lane);
    }

    /// From now on all lanes may read the domain, and none may write it. Takes no memory.
    pub fn freeze(&mut self, domain: u32)
        requires { domain < length self.old.holders }
        ensures frozen { self.new ≡ frozen self.old domain }
        ensures sizes { sizes_of self.new ≡ sizes_of self.old }
    {
        self.holders[domain as usize] = Holder::Frozen;
    }

    /// Whether the lane may read the domain.
    fn reads(&self, lane: u32, domain: u32) -> bool
        requires { domain < length self.now.holders }
        ensures held { result ≡ reads self.now lane domain }
        ensures state { IsState self.now }
    {
        self.holders[domain as usize].lets_read(lane)
    }

    /// Whether the lane may write the domain.
    fn writes(&self, lane: u32, domain: u32) -> bool
        requires { domain < length self.now.holders }
        ensures held { result ≡ writes self.now lane domain }
    {
        self.holders[domain as usize].lets_write(lane)
    }

    /// Whether the lane may read all domains that the operation names.
    fn reads_all(&self, lane: u32, op: &Op) -> bool
        requires { IsOp (sizes_of self.now) op.now }
        ensures held { result ≡ list_all (reads self.now lane) (domains_of op.now) }
        ensures state { IsState self.now }
    {
        let (first, second) = op.slots();
        self.reads(lane, first.domain)
            && match second {
                Some(slot) => self.reads(lane, slot.domain),
                None => true,
            }
    }

    /// Whether the lane may write the slot that the operation writes, if it writes one.
    fn writes_target(&self, lane: u32, op: &Op) -> bool
        requires { IsOp (sizes_of self.now) op.now }
        ensures { result ≡ target_writes self.now lane op.now }
    {
        match op.target() {
            Some(slot) => self.writes(lane, slot.domain),
            None => true,
        }
    }

    /// Where the slot stands.
    fn place(&self, slot: Slot) -> usize
        requires { IsSlot (sizes_of self.now) slot }
        ensures place { result ≡ self.now.width * slot.domain + slot.slot }
        ensures within { result < length self.now.slots }
    {
        let _ = &self.slots;
        self.width as usize * slot.domain as usize + slot.slot as usize
    }

    /// What the slot holds.
    fn slot(&self, slot: Slot) -> Value
        requires { IsSlot (sizes_of self.now) slot }
        ensures value { result ≡ slot_of self.now slot }
        ensures held { IsValue self.now.made result }
    {
        self.slots[self.place(slot)]
    }

    /// The slot becomes the value.
    fn set_slot(&mut self, slot: Slot, value: Value)
        requires slot { IsSlot (sizes_of self.old) slot }
        requires value { IsValue self.old.made value }
        ensures { self.new ≡ with_slot self.old slot value }
    {
        let place = self.place(slot);
        self.slots[place] = value;
    }

    /// The domain and the number of fields of an object.
    fn shape(&self, birth: Birth) -> (u32, u32)
        requires { IsBorn self.now.made birth }
        ensures domain { result.0 ≡ (object_of self.now.made birth).domain }
        ensures fields { result.1 ≡ length (object_of self.now.made birth).fields }
        ensures held { result.0 < length self.now.holders }
    {
        self.made.shape(birth)
    }

    /// What a field of an object holds.
    fn field(&self, birth: Birth, index: u32) -> Value
        requires born { IsBorn self.now.made birth }
        requires index { index < length (object_of self.now.made birth).fields }
        ensures value { result ≡ field_of self.now birth index }
        ensures held { IsValue self.now.made result }
    {
        self.made.field(birth, index)
    }

    /// A field of an object becomes the value.
    fn set_field(&mut self, birth: Birth, index: u32, value: Value)
        requires born { IsBorn self.old.made birth }
        requires index { index < length (object_of self.old.made birth).fields }
        requires value { IsValue self.old.made value }
        ensures { self.new ≡ with_born_field self.old birth index value }
    {
        self.made.set_field(birth, index, value);
    }

    /// The object that a value refers to, if the lane may read its domain, or the reply that says what
    /// is wrong.
    fn object(&self, lane: u32, value: Value) -> Result<Birth, Reply>
        requires { IsValue self.now.made value }
        ensures found { IfOk result (IsBorn self.now.made) }
        ensures outcome { MatchResult result
            (λ b. (next : Birth → State × Reply) → on_object self.now lane value next ≡ next b)
            (λ r. (next : Birth → State × Reply) → on_object self.now lane value next ≡ (self.now, r)) }
    {
        let Value::Obj(birth) = value else {
            return Err(Reply::NotObj);
        };
        let (domain, _) = self.shape(birth);
        if self.reads(lane, domain) {
            Ok(birth)
        } else {
            Err(Reply::Foreign)
        }
    }

    /// Acts on a field of the slot's object, if the object has the field.
    fn object_with_field(&self, lane: u32, value: Value, index: u32) -> Result<Birth, Reply>
        requires { IsValue self.now.made value }
        ensures found { IfOk result (IsBorn self.now.made) }
        ensures index { IfOk result (λ b. index < length (object_of self.now.made b).fields) }
        ensures outcome { MatchResult result
            (λ b. (next : Birth → State × Reply) → on_field self.now lane value index next ≡ next b)
            (λ r. (next : Birth → State × Reply) → on_field self.now lane value index next ≡ (self.now, r)) }
    {
        let birth = self.object(lane, value)?;
        let (_, fields) = self.shape(birth);
        if index < fields {
            Ok(birth)
        } else {
            Err(Reply::Range)
        }
    }

    /// The object that a value refers to, if the lane may write its domain and it has the field, or the reply that says what is
    /// wrong. The domain is tested before the field.
    fn own_object_with_field(&self, lane: u32, value: Value, index: u32) -> Result<Birth, Reply>
        requires { IsValue self.now.made value }
        ensures found { IfOk result (IsBorn self.now.made) }
        ensures index { IfOk result (λ b. index < length (object_of self.now.made b).fields) }
        ensures outcome { MatchResult result
            (λ b. (next : Birth → State × Reply) → on_own_field self.now lane value index next ≡ next b)
            (λ r. (next : Birth → State × Reply) → on_own_field self.now lane value index next ≡ (self.now, r)) }
    {
        let birth = self.object(lane, value)?;
        let (domain, fields) = self.shape(birth);
        if !self.writes(lane, domain) {
            return Err(Reply::Frozen);
        }
        if index < fields {
            Ok(birth)
        } else {
            Err(Reply::Range)
        }
    }

    fn make(
        &mut self,
        alloc: Global,
        lane: u32,
        slot: Slot,
        fields: u32,
    ) -> Result<Reply, AllocError>
        requires lane { lane < length self.old.made }
        requires op { IsOp (sizes_of self.old) (Op.New slot fields) }
        requires serials { length (made_by self.old.made lane) + 1 < 2 ^ 32 }
        ensures ok { IfOk result (λ reply. (self.new, reply) ≡ act self.old lane (Op.New slot fields)) }
        ensures err { OnErr result (self.new ≡ self.old) }
    {
        let place = self.place(slot);
        let birth = self.made.add(alloc, lane, slot.domain, fields)?;
        self.slots[place] = Value::Obj(birth);
        Ok(Reply::Obj(birth))
    }

    fn who(&self, lane: u32, slot: Slot) -> Reply
        requires { IsOp (sizes_of self.now) (Op.Who slot) }
        ensures { (self.now, result) ≡ act self.now lane (Op.Who slot) }
    {
        match self.slot(slot) {
            Value::Nil => Reply::Nil,
            Value::Num(number) => Reply::Num(number),
            Value::Obj(birth) => {
                let (domain, _) = self.shape(birth);
                if self.reads(lane, domain) {
                    Reply::Obj(birth)
                } else {
                    Reply::Foreign
                }
            }
        }
    }

    fn len(&self, lane: u32, slot: Slot) -> Reply
        requires { IsOp (sizes_of self.now) (Op.Len slot) }
        ensures { (self.now, result) ≡ act self.now lane (Op.Len slot) }
    {
        match self.object(lane, self.slot(slot)) {
            Ok(birth) => {
                let (_, fields) = self.shape(birth);
                Reply::Len(fields)
            }
            Err(reply) => reply,
        }
    }

    fn set(&mut self, lane: u32, slot: Slot, index: u32, number: u64) -> Reply
        requires { IsOp (sizes_of self.old) (Op.Set slot index number) }
        ensures { (self.new, result) ≡ act self.old lane (Op.Set slot index number) }
    {
        match self.own_object_with_field(lane, self.slot(slot), index) {
            Ok(birth) => {
                self.set_field(birth, index, Value::Num(number));
                Reply::Done
            }
            Err(reply) => reply,
        }
    }

    fn cut(&mut self, lane: u32, slot: Slot, index: u32) -> Reply
        requires { IsOp (sizes_of self.old) (Op.Cut slot index) }
        ensures { (self.new, result) ≡ act self.old lane (Op.Cut slot index) }
    {
        match self.own_object_with_field(lane, self.slot(slot), index) {
            Ok(birth) => {
                self.set_field(birth, index, Value::Nil);
                Reply::Done
            }
            Err(reply) => reply,
        }
    }

    fn link(&mut self, lane: u32, slot: Slot, index: u32, from: Slot) -> Reply
        requires { IsOp (sizes_of self.old) (Op.Link slot index from) }
        ensures { (self.new, result) ≡ act self.old lane (Op.Link slot index from) }
    {
        let value = self.slot(from);
        match self.own_object_with_field(lane, self.slot(slot), index) {
            Ok(birth) => {
                self.set_field(birth, index, value);
                Reply::Done
            }
            Err(reply) => reply,
        }
    }

    fn load(&mut self, lane: u32, slot: Slot, index: u32, to: Slot) -> Reply
        requires { IsOp (sizes_of self.old) (Op.Load slot index to) }
        ensures { (self.new, result) ≡ act self.old lane (Op.Load slot index to) }
    {
        match self.object_with_field(lane, self.slot(slot), index) {
            Ok(birth) => {
                let value = self.field(birth, index);
                self.set_slot(to, value);
                loaded(value)
            }
            Err(reply) => reply,
        }
    }

    fn copy(&mut self, from: Slot, to: Slot) -> Reply
        requires { IsOp (sizes_of self.old) (Op.Copy from to) }
        ensures state { self.new ≡ with_slot self.old to (slot_of self.old from) }
        ensures reply { result ≡ Reply.Done }
    {
        let held = self.slot(from);
        self.set_slot(to, held);
        Reply::Done
    }

    fn clear(&mut self, slot: Slot) -> Reply
        requires { IsOp (sizes_of self.old) (Op.Clear slot) }
        ensures state { self.new ≡ with_slot self.old slot Value.Nil }
        ensures reply { result ≡ Reply.Done }
    {
        self.set_slot(slot, Value::Nil);
        Reply::Done
    }

    fn same(&self, first: Slot, second: Slot) -> Reply
        requires { IsOp (sizes_of self.now) (Op.Same first second) }
        ensures { result ≡ (if is_same (slot_of self.now first) (slot_of self.now second) then Reply.Yes else Reply.No) }
    {
        if self.slot(first) == self.slot(second) {
            Reply::Yes
        } else {
            Reply::No
        }
    }
}

/// What a lane is answered that loaded the value: of an object only that it is one.
fn loaded(value: Value) -> Reply
    ensures { result ≡ loaded value }
{
    match value {
        Value::Nil => Reply::Nil,
        Value::Num(number) => Reply::Num(number),
        Value::Obj(_) => Reply::Ref,
    }
}
