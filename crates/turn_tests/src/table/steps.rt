//! Steps at a table.

use crate::table::{Table, is_object};
use bc_pager::Answer;
use bc_pins::{TakeError, Turn};
use bc_word::Address;
use std::alloc::{AllocError, Global};
use std::test::Fail;
use std::thread::Threads;

/// A call at a table with what it is to return, or what is to be found there.
#[derive(Clone, Copy)]
pub(crate) enum Step {
    /// How many pages the table has.
    Pages(u32),
    /// The turn for which it was opened.
    TurnIs(Turn),
    /// The domain of a page.
    Domain(u32, u32),
    /// An object lies here.
    Object(Address),
    /// The first seat takes a page as a victim and puts it back, or why it can't.
    Take(u32, Option<TakeError>),
    /// The same while the second seat has the page in hand.
    TakeMeanwhile(u32, Option<TakeError>),
    /// The answers to notices with these hints, with room for so many answers.
    Serve(&'static [u32], usize, &'static [Answer]),
    /// The answer to one notice of a source that knows when it was given.
    ServeOne(u32, &'static [Answer]),
    /// The answers to notices while the first seat has this page in hand.
    ServeMeanwhile(u32, &'static [u32], &'static [Answer]),
    /// The answers to notices while the first seat's lane visits page 0, each on a thread of its own, waiting for the other.
    Meet(&'static [u32], &'static [Answer]),
    /// Two lanes write the numbers 3 and 4 into the first field of an object each, on threads of their own.
    Write((Address, Address)),
    /// The first seat's lane writes 7 into the first field of an object, and a pager evicts the page of another one, on threads of their own.
    WriteAndEvict((Address, Address)),
    /// Two lanes take a page of a frozen domain to work on it, the second one first: while it has the page in hand, that is busy for the first one.
    Read(u32),
    /// A page of the first seat's lane, or of a frozen domain, leaves for its frame and is reloaded.
    ComeBack(u32),
    /// The mark word and the finished word of this number.
    Look(u32, (u64, u64)),
    /// The queue bits of this page's superpage. The page's bit is cleared and set again.
    Queue(u32, u64),
}

/// Does the steps one after another. Fails at the first one that doesn't go as it says.
pub(crate) fn follow<R: Threads>(
    rt: &R,
    alloc: Global,
    table: &mut Table,
    steps: &[Step],
) -> Result<(), Fail> {
    let mut number: u32 = 1;
    for step in steps {
        if !goes(rt, alloc, table, step)? {
            return Err(Fail::new(format_args!("at the table: step {number} goes wrong")));
        }
        number = number.saturating_add(1);
    }
    Ok(())
}

/// Does a step. Did it go as the step says?
fn goes<R: Threads>(
    rt: &R,
    alloc: Global,
    table: &mut Table,
    step: &Step,
) -> Result<bool, AllocError> {
    match *step {
        Step::Serve(hints, room, answers) => table.serves(alloc, hints, room, answers),
        Step::ServeOne(hint, answers) => table.serves_one(alloc, hint, answers),
        Step::ServeMeanwhile(page, hints, answers) => {
            table.serves_meanwhile(alloc, page, hints, answers)
        }
        Step::Meet(hints, answers) => table.meets(rt, alloc, hints, answers),
        Step::Write(cells) => Ok(table.are_written(rt, cells)),
        Step::WriteAndEvict(cells) => Ok(table.are_done(rt, cells)),
        Step::Take(page, refused) => Ok(table.is_refused(page, refused)),
        Step::TakeMeanwhile(page, refused) => Ok(table.is_refused_meanwhile(page, refused)),
        Step::Read(page) => Ok(table.is_read(page)),
        Step::ComeBack(page) => Ok(table.comes_back(page)),
        Step::Look(word, answer) => Ok(table.looks(word) == Some(answer)),
        Step::Queue(page, answer) => Ok(table.queues(page) == Some(answer)),
        _ => Ok(table.shows(step)),
    }
}

impl Table {
    /// Is what a step says found at the table?
    fn shows(&self, step: &Step) -> bool {
        match *step {
            Step::Pages(answer) => self.pins.pages() == answer,
            Step::TurnIs(answer) => self.pins.turn() == answer,
            Step::Domain(page, answer) => self.domain(page) == Some(answer),
            Step::Object(cell) => is_object(&self.pins, cell),
            _ => false,
        }
    }
}
