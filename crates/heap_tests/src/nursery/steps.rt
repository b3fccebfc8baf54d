//! Steps of a chunk and a write buffer.

ghost use Rattle.std.specs.Prelude.{◌≡◌, true};
ghost use Rattle.bc_word.specs.WordBits.{FitsWord};

use crate::steps::{Trial, passes_on};
use bc_nursery::{Chunk, Full, WriteBuffer};
use bc_word::{Address, Head, Word};
use std::alloc::Global;
use std::test::Fail;

/// For how many entries the buffer has room.
const ENTRIES: u32 = 2;

/// A call with what it is to return, or what is to be found.
#[derive(Clone, Copy)]
pub(crate) enum Step {
    /// A new object of domain 0 and lane 0, of so many fields and with this serial number, lies here; or it got no room.
    Bump(u32, u32, Option<Address>),
    /// A new object with this head lies here.
    BumpAs(Head, Option<Address>),
    /// So many new objects of one field lie one behind the other from here on.
    Row(u32, Address),
    /// How many words are left.
    Left(u32),
    /// Does an object lie here?
    Has(Address, bool),
    HeadIs(Address, Head),
    /// How many fields an object has.
    Fields(Address, u32),
    FieldIs(Address, u32, Word),
    SetField(Address, u32, Word),
    /// Every object is gone from now on.
    Clear,
    /// Which object comes after this one, or first.
    Next(Option<Address>, Option<Address>),
    Mark(Address),
    Marked(Address, bool),
    Finish(Address),
    Finished(Address, bool),
    /// No object is marked or finished from now on.
    ClearMarks,
    /// Fields of unmarked objects are nil from now on.
    BlankUnmarked,
    /// An object's new address.
    Forward(Address, Address),
    Forwarded(Address, Option<Address>),
    /// An entry goes into the buffer, or it is full.
    Push(Address, u32, Result<(), Full>),
    /// How many entries the buffer has.
    Len(u32),
    /// The object and the field of an entry.
    Entry(u32, Address, u32),
    /// The buffer has no entries from now on.
    ClearBuffer,
}

/// A chunk and a write buffer. A call whose conditions don't hold is refused.
#[derive(Drop)]
struct Young {
    chunk: Chunk,
    buffer: WriteBuffer,
}

/// Has the word bits? A number is below 2 ^ 63.
fn fits(word: Word) -> bool
    ensures { result ≡ true → FitsWord word }
{
    match word {
        Word::Num(value) => value < 9_223_372_036_854_775_808,
        Word::Nil | Word::Ref(_) => true,
    }
}

impl Young {
    fn bump(&mut self, head: Head) -> Option<Address> {
        if head.domain >= 64 || head.fields >= 128 || head.lane >= 16 {
            return None;
        }
        self.chunk
            .bump(head.domain, head.fields, head.lane, head.serial)
    }

    /// A new object of domain 0 and lane 0.
    fn bump_plain(&mut self, fields: u32, serial: u32) -> Option<Address> {
        self.bump(Head {
            lane: 0,
            serial,
            domain: 0,
            fields,
        })
    }

    /// Do so many new objects of one field lie one behind the other from here on?
    fn bump_row(&mut self, count: u32, from: Address) -> bool {
        let mut next = from.0;
        for _object in 0..count {
            if self.bump_plain(1, 1) != Some(Address(next)) {
                return false;
            }
            next = next.saturating_add(2);
        }
        true
    }

    fn head(&self, object: Address) -> Option<Head> {
        if self.chunk.has(object) {
            Some(self.chunk.head(object))
        } else {
            None
        }
    }

    fn fields(&self, object: Address) -> Option<u32> {
        Some(self.head(object)?.fields)
    }

    fn field(&self, object: Address, index: u32) -> Option<Word> {
        if self.chunk.has(object) && index < self.chunk.head(object).fields {
            Some(self.chunk.field(object, index))
        } else {
            None
        }
    }

    fn set_field(&mut self, object: Address, index: u32, word: Word) -> bool {
        if !self.chunk.has(object) || !fits(word) {
            return false;
        }
        if index >= self.chunk.head(object).fields {
            return false;
        }
        self.chunk.set_field(object, index, word);
        true
    }

    /// Is this the object after that one, or the first?
    fn is_next(&self, after: Option<Address>, next: Option<Address>) -> bool {
        match after {
            None => self.chunk.next(None) == next,
            Some(object) => self.chunk.has(object) && self.chunk.next(Some(object)) == next,
        }
    }

    fn mark(&mut self, object: Address) -> bool {
        if !self.chunk.has(object) {
            return false;
        }
        self.chunk.mark(object);
        true
    }

    fn marked(&self, object: Address) -> Option<bool> {
        if self.chunk.has(object) {
            Some(self.chunk.marked(object))
        } else {
            None
        }
    }

    fn finish(&mut self, object: Address) -> bool {
        if !self.chunk.has(object) {
            return false;
        }
        self.chunk.finish(object);
        true
    }

    fn finished(&self, object: Address) -> Option<bool> {
        if self.chunk.has(object) {
            Some(self.chunk.finished(object))
        } else {
            None
        }
    }

    fn forward(&mut self, object: Address, to: Address) -> bool {
        if !self.chunk.has(object) {
            return false;
        }
        self.chunk.forward(object, to);
        true
    }

    fn is_forwarded(&self, object: Address, to: Option<Address>) -> bool {
        self.chunk.has(object) && self.chunk.forwarded(object) == to
    }

    /// Are these the object and the field of an entry?
    fn is_entry(&self, number: u32, object: Address, index: u32) -> bool {
        number < self.buffer.len() && self.buffer.entry(number) == (object, index)
    }

    /// Does a call that can't be refused and returns nothing, if the step is one.
    fn is_done(&mut self, step: &Step) -> bool {
        match *step {
            Step::Clear => self.chunk.clear(),
            Step::ClearMarks => self.chunk.clear_marks(),
            Step::BlankUnmarked => self.chunk.blank_unmarked(),
            Step::ClearBuffer => self.buffer.clear(),
            _ => return false,
        }
        true
    }

    /// Is what a step says found?
    fn shows(&self, step: &Step) -> bool {
        match *step {
            Step::Left(answer) => self.chunk.left() == answer,
            Step::Has(object, answer) => self.chunk.has(object) == answer,
            Step::HeadIs(object, answer) => self.head(object) == Some(answer),
            Step::Fields(object, answer) => self.fields(object) == Some(answer),
            Step::FieldIs(object, index, answer) => self.field(object, index) == Some(answer),
            Step::Next(after, answer) => self.is_next(after, answer),
            Step::Marked(object, answer) => self.marked(object) == Some(answer),
            Step::Finished(object, answer) => self.finished(object) == Some(answer),
            Step::Forwarded(object, answer) => self.is_forwarded(object, answer),
            Step::Len(answer) => self.buffer.len() == answer,
            Step::Entry(number, object, index) => self.is_entry(number, object, index),
            _ => false,
        }
    }
}

impl Trial for Young {
    type Step = Step;

    fn goes(&mut self, step: &Step) -> bool {
        match *step {
            Step::Bump(fields, serial, object) => self.bump_plain(fields, serial) == object,
            Step::BumpAs(head, object) => self.bump(head) == object,
            Step::Row(count, from) => self.bump_row(count, from),
            Step::SetField(object, index, word) => self.set_field(object, index, word),
            Step::Mark(object) => self.mark(object),
            Step::Finish(object) => self.finish(object),
            Step::Forward(object, to) => self.forward(object, to),
            Step::Push(object, index, answer) => self.buffer.push(object, index) == answer,
            _ => self.is_done(step) || self.shows(step),
        }
    }
}

/// Does the steps one after another on a new chunk of so many pages, which begins at this page, and a new buffer.
pub(crate) fn passes(alloc: Global, base: u8, pages: u8, steps: &[Step]) -> Result<(), Fail> {
    let chunk = Chunk::new(alloc, Address(512 * u32::from(base)), u32::from(pages))?;
    let buffer = WriteBuffer::new(alloc, ENTRIES)?;
    let mut young = Young { chunk, buffer };
    passes_on(&mut young, steps)
}
