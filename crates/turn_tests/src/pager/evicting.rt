//! Pages with objects at a table: the first that can be taken goes, and a notice is declined where none can.

use crate::cases::{Case, passes};
use crate::findings::Found;
use crate::furnished::{Made, Size};
use crate::table::Seating;
use crate::table::steps::Step;
use bc_pager::Answer;
use bc_superpages::PageState;
use std::test::Fail;

#[test]
fn the_first_page_that_can_be_had_is_evicted(rt: HostRuntime) -> Result<(), Fail> {
    passes(
        &rt,
        rt.alloc(),
        &Case {
            size: Size {
                superpages: 1,
                frames: 6,
                nursery: 0,
            },
            made: &[Made::Objects(257, 0), Made::Remember(1)],
            seating: Seating::LaneAndPager,
            steps: &[
                Step::Pages(4),
                Step::ServeMeanwhile(0, &[1, 1], &[Answer::Evicted(2), Answer::Declined]),
                Step::Serve(&[3, 0], 4, &[Answer::Evicted(0), Answer::Declined]),
            ],
            found: &[
                Found::Pages(4),
                Found::State(0, PageState::Gone),
                Found::State(1, PageState::Remembered),
                Found::State(2, PageState::Gone),
                Found::State(3, PageState::Absent),
                Found::FreeFrames(5),
            ],
        },
    )
}
