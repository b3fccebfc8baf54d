//! Notices that the second seat, a pager's, answers.

use crate::table::Table;
use crate::table::telling::OneNotice;
use bc_gates::OpenGate;
use bc_pager::{Answer, Answers, ListNotices, serve};
use bc_pins::Want;
use std::alloc::{AllocError, Global};

impl Table {
    /// Are notices with these hints so answered, with room for so many answers?
    pub(super) fn serves(
        &mut self,
        alloc: Global,
        hints: &[u32],
        room: usize,
        expected: &[Answer],
    ) -> Result<bool, AllocError> {
        let mut notices = ListNotices::new(alloc, hints)?;
        let mut answers = Answers::new(alloc, room)?;
        serve(
            &self.pins,
            &mut self.second,
            &mut notices,
            &OpenGate,
            &mut answers,
        );
        Ok(answers.list() == expected)
    }

    /// Is one notice so answered, of a source that knows the view that the seat had when the notice was given?
    pub(super) fn serves_one(
        &mut self,
        alloc: Global,
        hint: u32,
        expected: &[Answer],
    ) -> Result<bool, AllocError> {
        let mut notices = OneNotice::new(hint);
        let mut answers = Answers::new(alloc, 2)?;
        serve(
            &self.pins,
            &mut self.second,
            &mut notices,
            &OpenGate,
            &mut answers,
        );
        Ok(answers.list() == expected)
    }

    /// Are notices so answered while the first seat has a page in its hands?
    pub(super) fn serves_meanwhile(
        &mut self,
        alloc: Global,
        page: u32,
        hints: &[u32],
        expected: &[Answer],
    ) -> Result<bool, AllocError> {
        let mut notices = ListNotices::new(alloc, hints)?;
        let mut answers = Answers::new(alloc, 4)?;
        if page >= self.pins.pages() {
            return Ok(false);
        }
        match self.pins.take(&mut self.first, page, Want::Victim) {
            Err(_) => Ok(false),
            Ok(held) => {
                serve(
                    &self.pins,
                    &mut self.second,
                    &mut notices,
                    &OpenGate,
                    &mut answers,
                );
                self.pins.put(&mut self.first, held);
                Ok(answers.list() == expected)
            }
        }
    }
}
