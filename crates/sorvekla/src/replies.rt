//! A reply of the plain heap as the answer of one kind of operation, or as the error that it is.

ghost use Rattle.std.specs.Prelude.{◌≡◌, true, IfErr, IfOk, OnOk};
ghost use Rattle.sorvekla.specs.Steps.{IsReplyFault, is_change_reply, is_len_reply, is_load_reply, is_new_reply, is_same_reply, is_who_reply, reply_of, reply_of_loaded, reply_of_same};

use crate::errors::HeapError;
use bc_model::{Birth, Reply, Value};

/// What was loaded into a slot. Which object it is `who` returns.
#[derive(Clone, Copy, PartialEq, Eq, Debug)]
pub enum Loaded {
    Nil,
    /// A number below 2^63.
    Num(u64),
    /// A reference to an object.
    Object,
}

/// The object that was made.
pub(crate) fn object_told(reply: Reply) -> Result<Birth, HeapError>
    requires told { is_new_reply reply ≡ true }
    ensures ok { IfOk result (λ birth. reply ≡ Reply.Obj birth) }
    ensures err { IfErr result (IsReplyFault reply) }
{
    match reply {
        Reply::Obj(birth) => Ok(birth),
        Reply::Foreign => Err(HeapError::Foreign),
        Reply::Frozen => Err(HeapError::Frozen),
        _ => unreachable!(),
    }
}

/// What a slot holds.
pub(crate) fn value_told(reply: Reply) -> Result<Value, HeapError>
    requires told { is_who_reply reply ≡ true }
    ensures ok { IfOk result (λ value. reply ≡ reply_of value) }
    ensures err { IfErr result (IsReplyFault reply) }
{
    match reply {
        Reply::Nil => Ok(Value::Nil),
        Reply::Num(number) => Ok(Value::Num(number)),
        Reply::Obj(birth) => Ok(Value::Obj(birth)),
        Reply::Foreign => Err(HeapError::Foreign),
        _ => unreachable!(),
    }
}

/// How many fields an object has.
pub(crate) fn len_told(reply: Reply) -> Result<u32, HeapError>
    requires told { is_len_reply reply ≡ true }
    ensures ok { IfOk result (λ fields. reply ≡ Reply.Len fields) }
    ensures err { IfErr result (IsReplyFault reply) }
{
    match reply {
        Reply::Len(fields) => Ok(fields),
        Reply::NotObj => Err(HeapError::NotObject),
        Reply::Foreign => Err(HeapError::Foreign),
        _ => unreachable!(),
    }
}

/// That a change was made.
pub(crate) fn change_told(reply: Reply) -> Result<(), HeapError>
    requires told { is_change_reply reply ≡ true }
    ensures ok { OnOk result (reply ≡ Reply.Done) }
    ensures err { IfErr result (IsReplyFault reply) }
{
    match reply {
        Reply::Done => Ok(()),
        Reply::NotObj => Err(HeapError::NotObject),
        Reply::Range => Err(HeapError::NoField),
        Reply::Foreign => Err(HeapError::Foreign),
        Reply::Frozen => Err(HeapError::Frozen),
        _ => unreachable!(),
    }
}

/// What was loaded.
pub(crate) fn loaded_told(reply: Reply) -> Result<Loaded, HeapError>
    requires told { is_load_reply reply ≡ true }
    ensures ok { IfOk result (λ loaded. reply ≡ reply_of_loaded loaded) }
    ensures err { IfErr result (IsReplyFault reply) }
{
    match reply {
        Reply::Nil => Ok(Loaded::Nil),
        Reply::Num(number) => Ok(Loaded::Num(number)),
        Reply::Ref => Ok(Loaded::Object),
        Reply::NotObj => Err(HeapError::NotObject),
        Reply::Range => Err(HeapError::NoField),
        Reply::Foreign => Err(HeapError::Foreign),
        Reply::Frozen => Err(HeapError::Frozen),
        _ => unreachable!(),
    }
}

/// Whether two slots hold the same.
pub(crate) fn same_told(reply: Reply) -> Result<bool, HeapError>
    requires told { is_same_reply reply ≡ true }
    ensures ok { IfOk result (λ same. reply ≡ reply_of_same same) }
    ensures err { IfErr result (IsReplyFault reply) }
{
    match reply {
        Reply::Yes => Ok(true),
        Reply::No => Ok(false),
        Reply::Foreign => Err(HeapError::Foreign),
        _ => unreachable!(),
    }
}
