//! An object of the plain heap.

ghost use Rattle.std.specs.Prelude.{◌≡◌, ◌^◌, ◌<◌, length, IfOk, replicate, slice_index_or, slice_set};

use crate::values::Value;
use std::alloc::{AllocError, Global};
use std::marker::Model;

/// An object: its domain, and what its fields hold.
#[derive(Debug, Drop)]
pub struct Item {
    domain: u32,
    fields: Vec<Value>,
}

impl Model for Item {
    ghost use Rattle.bc_model.specs.State.{Object};

    ghost Value = { Object };

    ghost view = { λ item. record { domain = item.domain; fields = item.fields.items } };
}

impl Item {
    /// An object of so many nil fields.
    pub fn new(alloc: Global, domain: u32, fields: u32) -> Result<Item, AllocError>
        ensures { IfOk result (λ item. item ≡ record { domain = domain; fields = replicate fields Value.Nil }) }
    {
        let fields = vec![in alloc; Value::Nil; fields as usize]?;
        Ok(Item { domain, fields })
    }

    pub fn domain(&self) -> u32
        ensures { result ≡ self.now.domain }
    {
        self.domain
    }

    /// How many fields it has.
    pub fn len(&self) -> u32
        requires { length self.now.fields < 2 ^ 32 }
        ensures { result ≡ length self.now.fields }
    {
        self.fields.len() as u32
    }

    /// What field `index` holds.
    pub fn field(&self, index: u32) -> Value
        requires { index < length self.now.fields }
        ensures { result ≡ slice_index_or self.now.fields index Value.Nil }
    {
        self.fields[index as usize]
    }

    /// Field `index` becomes the value.
    pub fn set_field(&mut self, index: u32, value: Value)
        requires { index < length self.old.fields }
        ensures { self.new ≡ record self.old { fields = slice_set self.old.fields index value } }
    {
        self.fields[index as usize] = value;
    }
}
