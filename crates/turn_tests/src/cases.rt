//! Tests at a table, each as three lists of steps.

use crate::findings::Found;
use crate::furnished::{Made, Size, furnish};
use crate::steps::passes_on;
use crate::table::steps::{Step, follow};
use crate::table::{Seating, Table};
use std::alloc::Global;
use std::test::Fail;
use std::thread::Threads;

/// What a test at a table does.
pub(crate) struct Case<'a> {
    pub(crate) size: Size,
    /// How the space is made.
    pub(crate) made: &'a [Made],
    pub(crate) seating: Seating,
    /// What is done at the table, and returned there.
    pub(crate) steps: &'a [Step],
    /// What is found in the space once the table is closed.
    pub(crate) found: &'a [Found],
}

/// Makes a space, opens a table over it, does the steps there, closes it and looks for what is to be found.
pub(crate) fn passes<R: Threads>(rt: &R, alloc: Global, case: &Case<'_>) -> Result<(), Fail> {
    let furnished = furnish(alloc, case.size, case.made)?;
    let Some(space) = furnished.done() else {
        return Err(Fail::new(format_args!("a cell is promised or marked")));
    };
    let mut table = Table::open(alloc, space, case.seating)?;
    let followed = follow(rt, alloc, &mut table, case.steps);
    let mut space = table.close();
    followed?;
    passes_on(&mut space, "what is left", case.found)
}
