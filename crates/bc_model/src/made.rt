//! All objects that were made, by their births.

ghost use Rattle.std.specs.Prelude.{◌≡◌, ◌+◌, ◌^◌, ◌<◌, [], IfOk, OnErr, length, replicate, slice_index_or};
ghost use Rattle.bc_model.specs.State.{IsBorn, made_by, next_birth, object_of, with_made, with_born, with_value};

use crate::item::Item;
use crate::values::{Birth, Value};
use std::alloc::{AllocError, Global};
use std::marker::Model;

/// All objects that the lanes ever made: for each lane its own, in the order of their making.
#[derive(Debug, Drop)]
pub struct Made {
    lanes: Vec<Vec<Item>>,
}

impl Model for Made {
    ghost use Rattle.std.specs.Prelude.{List, map};
    ghost use Rattle.bc_model.specs.State.{Object};

    ghost Value = { List (List Object) };

    ghost view = { λ made. map (λ v. v.items) made.lanes.items };
}

impl Made {
    /// Nothing yet, by so many lanes.
    pub fn new(alloc: Global, lanes: u32) -> Result<Made, AllocError>
        ensures { IfOk result (λ made. made ≡ replicate lanes []) }
    {
        let mut made = Vec::with_capacity(alloc, lanes as usize)?;
        for _ in 0..lanes {
            made.push(Vec::new(alloc))?;
        }
        Ok(Made { lanes: made })
    }

    /// How many lanes there are.
    pub fn lanes(&self) -> u32
        requires { length self.now < 2 ^ 32 }
        ensures { result ≡ length self.now }
    {
        self.lanes.len() as u32
    }

    /// The domain of an object, and how many fields it has.
    pub fn shape(&self, birth: Birth) -> (u32, u32)
        requires born { IsBorn self.now birth }
        requires few { length (object_of self.now birth).fields < 2 ^ 32 }
        ensures domain { result.0 ≡ (object_of self.now birth).domain }
        ensures fields { result.1 ≡ length (object_of self.now birth).fields }
    {
        let objects = &self.lanes[birth.lane as usize];
        let item = &objects[birth.serial as usize - 1];
        (item.domain(), item.len())
    }

    /// What a field of an object holds.
    pub fn field(&self, birth: Birth, index: u32) -> Value
        requires born { IsBorn self.now birth }
        requires index { index < length (object_of self.now birth).fields }
        ensures { result ≡ slice_index_or (object_of self.now birth).fields index Value.Nil }
    {
        let objects = &self.lanes[birth.lane as usize];
        let item = &objects[birth.serial as usize - 1];
        item.field(index)
    }

    /// A field of an object becomes the value.
    pub fn set_field(&mut self, birth: Birth, index: u32, value: Value)
        requires born { IsBorn self.old birth }
        requires index { index < length (object_of self.old birth).fields }
        ensures { self.new ≡ with_born self.old birth (with_value (object_of self.old birth) index value) }
    {
        let objects = &mut self.lanes[birth.lane as usize];
        let item = &mut objects[birth.serial as usize - 1];
        item.set_field(index, value);
    }

    /// The lane makes an object of so many nil fields in the domain.
    pub fn add(
        &mut self,
        alloc: Global,
        lane: u32,
        domain: u32,
        fields: u32,
    ) -> Result<Birth, AllocError>
        requires lane { lane < length self.old }
        requires serials { length (made_by self.old lane) + 1 < 2 ^ 32 }
        ensures birth { IfOk result (λ birth. birth ≡ next_birth self.old lane) }
        ensures made { IfOk result (λ _. self.new ≡ with_made self.old lane (record { domain = domain; fields = replicate fields Value.Nil })) }
        ensures err { OnErr result (self.new ≡ self.old) }
    {
        let item = Item::new(alloc, domain, fields)?;
        let objects = &mut self.lanes[lane as usize];
        objects.push(item)?;
        Ok(Birth {
            lane,
            serial: objects.len() as u32,
        })
    }
}
