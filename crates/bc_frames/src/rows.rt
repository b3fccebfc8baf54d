//! The pages that were never used. Room for them is taken at once, in rows, and a row is touched only when a page of it is wanted.

ghost use Rattle.std.specs.Prelude.{◌≡◌, ℕ, ◌+◌, ◌-◌, ◌*◌, ◌/◌, ◌<◌, ◌≤◌, [], length, replicate, vec_capacity, IfOk};

use crate::pages::Page;
use std::alloc::{AllocError, Global};
use std::marker::Model;

/// How many pages a row has. An allocator keeps a number beside each block, and so touches memory for it: once a row.
const ROW: usize = 64;

/// Room for the pages of a row, of which nothing was written.
#[derive(Drop)]
struct Row {
    pages: Vec<[u64; 512]>,
}

impl Model for Row {
    ghost use Rattle.std.specs.Prelude.{◌≡◌, ℕ, ◌≤◌, [], length, vec_capacity};
    ghost use Rattle.bc_frames.specs.declared.rows.TheConstants.{ROW};

    ghost Value = { ℕ };

    ghost view = { λ r. length r.pages.items };

    ghost invariant = { λ r. (r.pages.items ≡ []) × (ROW ≤ vec_capacity r.pages) };
}

impl Row {
    /// Room for a row.
    fn new(alloc: Global) -> Result<Self, AllocError> {
        let pages = Vec::with_capacity(alloc, ROW)?;
        Ok(Row { pages })
    }

    /// The row's words, all zeros. They are the program's until it ends.
    fn zeroed(self) -> &'static mut [[u64; 512]]
        ensures zeros { result.now ≡ replicate ROW (replicate 512 0) }
    {
        let Row { mut pages } = self;
        for _page in 0..ROW {
            pages.push_reserved([0; 512]);
        }
        pages.leak()
    }
}

/// The pages that were never used.
#[derive(Drop)]
pub(crate) struct Rows {
    rows: Vec<Row>,
    /// Pages of zeros, of the row that was touched last.
    pages: Vec<Page>,
}

impl Model for Rows {
    ghost use Rattle.std.specs.Prelude.{◌≡◌, ℕ, ◌+◌, ◌*◌, ◌<◌, ◌≤◌, length, replicate, vec_capacity};
    ghost use Rattle.bc_frames.specs.declared.rows.TheConstants.{ROW};

    ghost Value = { ℕ };

    ghost view = { λ r. ROW * length r.rows.items + length r.pages.items };

    ghost invariant = { λ r. (r.pages.items ≡ replicate (length r.pages.items) (replicate 512 0)) × (0 < length r.rows.items → ROW ≤ vec_capacity r.pages) };
}

impl Rows {
    /// Room for this many pages, and perhaps some more.
    pub(crate) fn new(alloc: Global, pages: u32) -> Result<Self, AllocError>
        ensures enough { IfOk result (λ rows. pages ≤ rows) }
    {
        let count = pages as usize / ROW + 1;
        let mut rows = Vec::with_capacity(alloc, count)?;
        for _row in 0..count {
            rows.push_reserved(Row::new(alloc)?);
        }
        Ok(Rows {
            rows,
            pages: Vec::with_capacity(alloc, ROW)?,
        })
    }

    /// No page. It takes no memory.
    pub(crate) fn empty(alloc: Global) -> Self
        ensures none { result ≡ 0 }
    {
        Rows {
            rows: Vec::new(alloc),
            pages: Vec::new(alloc),
        }
    }

    /// A page of zeros.
    pub(crate) fn take(&mut self) -> Page
        requires some { 0 < self.old }
        ensures zeros { result ≡ replicate 512 0 }
        ensures fewer { self.new + 1 ≡ self.old }
    {
        if self.pages.is_empty() {
            match self.rows.pop() {
                Some(row) => cut(&mut self.pages, row.zeroed()),
                None => unreachable!(),
            }
        }
        self.pages.pop().unwrap()
    }
}

/// Cuts a row into pages.
fn cut(pages: &mut Vec<Page>, row: &'static mut [[u64; 512]])
    requires zeros { row.old ≡ replicate ROW (replicate 512 0) }
    requires empty { pages.old.items ≡ [] }
    requires room { ROW ≤ vec_capacity pages.old }
    ensures pages { pages.new.items ≡ replicate ROW (replicate 512 0) }
    ensures room { vec_capacity pages.new ≡ vec_capacity pages.old }
{
    let mut rest: &'static mut [[u64; 512]] = row;
    for _page in 0..ROW {
        let (page, more) = first_page(rest);
        pages.push_reserved(page);
        rest = more;
    }
}

/// The first page of a row, and the others.
fn first_page(row: &'static mut [[u64; 512]]) -> (Page, &'static mut [[u64; 512]])
    requires some { 0 < length row.old }
    requires zeros { row.old ≡ replicate (length row.old) (replicate 512 0) }
    ensures page { result.0 ≡ replicate 512 0 }
    ensures rest { result.1.now ≡ replicate (length row.old - 1) (replicate 512 0) }
{
    match row.split_first_mut() {
        Some((words, rest)) => (Page::of(words), rest),
        None => unreachable!(),
    }
}
