//! Answers to notices, and where they are kept.

ghost use Rattle.std.specs.Prelude.{◌≡◌, ◌+◌, ◌≤◌, ◌++◌, length, vec_capacity};

use std::alloc::{AllocError, Global};
use std::marker::Model;

/// How many notices a list may have, and answers with their numbers: these have 32 bits.
pub(crate) const MOST_NOTICES: usize = 1 << 32;

/// The answer to a notice.
#[derive(Clone, Copy, PartialEq, Eq, Debug)]
pub enum Answer {
    /// This page had no allocated cell, and is Absent.
    Discarded(u32),
    /// This page had one, and is Gone.
    Evicted(u32),
    /// No page could be taken.
    Declined,
}

/// Answers in the order in which their notices were taken, each with the number of its notice, and with room for so many.
#[derive(Drop)]
pub struct Answers {
    list: Vec<Answer>,
    numbers: Vec<u32>,
    room: usize,
}

impl Model for Answers {
    ghost use Rattle.std.specs.Prelude.{◌≡◌, ◌^◌, ◌≤◌, length, vec_capacity};
    ghost use Rattle.bc_pager.specs.Serving.{KeptAnswers};

    ghost Value = { KeptAnswers };

    ghost view = { λ a. record { list = a.list.items; numbers = a.numbers.items; room = a.room } };

    ghost invariant = { λ a. (length a.list.items ≤ a.room) × (length a.numbers.items ≡ length a.list.items) × (a.room ≤ 2 ^ 32) × (a.room ≤ vec_capacity a.list) × (a.room ≤ vec_capacity a.numbers) };
}

impl Answers {
    ghost use Rattle.std.specs.Prelude.{◌≡◌, ◌+◌, ◌^◌, ◌<◌, ◌≤◌, [], ◌∷◌, ◌++◌, length, IfOk};
    ghost use Rattle.bc_pager.specs.Serving.{KeptAnswers, no_answers};

    /// No answer, with room for so many. There is none for more than 2^32, as notices have numbers of 32 bits: that is refused as if there
    /// were no memory for it.
    pub fn new(alloc: Global, room: usize) -> Result<Answers, AllocError>
        ensures new { IfOk result (λ answers. answers ≡ no_answers room) }
        ensures few { IfOk result (λ answers. room ≤ 2 ^ 32) }
    {
        if room > MOST_NOTICES {
            return Err(AllocError);
        }
        Ok(Answers {
            list: Vec::with_capacity(alloc, room)?,
            numbers: Vec::with_capacity(alloc, room)?,
            room,
        })
    }

    /// The answers in order.
    pub fn list(&self) -> &[Answer]
        ensures list { result.now ≡ self.now.list }
        ensures long { length self.now.numbers ≡ length self.now.list }
    {
        self.list.as_slice()
    }

    /// The numbers of their notices, in the same order.
    pub fn numbers(&self) -> &[u32]
        ensures numbers { result.now ≡ self.now.numbers }
        ensures long { length self.now.numbers ≡ length self.now.list }
    {
        self.numbers.as_slice()
    }

    /// For how many answers there is still room.
    pub(crate) fn left(&self) -> usize
        ensures left { result + length self.now.list ≡ self.now.room }
        ensures few { self.now.room ≤ 2 ^ 32 }
    {
        self.room - self.list.len()
    }

    /// Keeps an answer after the others, with the number of its notice.
    pub(crate) fn keep(&mut self, answer: Answer, number: u32)
        requires room { length self.old.list < self.old.room }
        ensures kept { self.new ≡ record self.old { list = self.old.list ++ answer ∷ []; numbers = self.old.numbers ++ number ∷ [] } }
    {
        self.list.push_reserved(answer);
        self.numbers.push_reserved(number);
    }
}

/// Puts these answers after those that there are. It takes no memory.
pub fn keep_answers(answers: &mut Vec<Answer>, more: &[Answer])
    requires room { length answers.old.items + length more.now ≤ vec_capacity answers.old }
    ensures kept { answers.new.items ≡ answers.old.items ++ more.now }
    ensures capacity { vec_capacity answers.new ≡ vec_capacity answers.old }
{
    for answer in more {
        answers.push_reserved(*answer);
    }
}
