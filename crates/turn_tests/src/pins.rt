//! Tests of tables.

mod frozen;
mod threads;

use crate::cases::{Case, passes};
use crate::findings::Found;
use crate::furnished::{Made, Size};
use crate::table::Seating;
use crate::table::steps::Step;
use bc_pins::{TakeError, Turn};
use std::test::Fail;

#[test]
fn a_table_of_the_largest_heap_opens_and_closes(rt: HostRuntime) -> Result<(), Fail> {
    passes(
        &rt,
        rt.alloc(),
        &Case {
            size: Size {
                superpages: 4096,
                frames: 16_386,
                nursery: 2,
            },
            made: &[],
            seating: Seating::LaneAndPager,
            steps: &[Step::TurnIs(Turn::Lanes)],
            found: &[Found::Pages(16_384)],
        },
    )
}

#[test]
fn a_page_that_one_seat_holds_is_busy_for_another(rt: HostRuntime) -> Result<(), Fail> {
    passes(
        &rt,
        rt.alloc(),
        &Case {
            size: Size {
                superpages: 1,
                frames: 6,
                nursery: 1,
            },
            made: &[Made::Open(0)],
            seating: Seating::LaneAndPager,
            steps: &[
                Step::Pages(4),
                Step::TakeMeanwhile(0, Some(TakeError::Busy)),
                Step::Take(0, None),
                Step::Take(1, Some(TakeError::Absent)),
            ],
            found: &[Found::Resident(0, true)],
        },
    )
}
