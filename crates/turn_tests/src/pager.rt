//! Tests of the pager at a table: pages that are absent, in another's hands, and without cells; and of a page that is given up there.

mod beside;
mod coming_back;
mod evicting;
mod giving_up;
mod marking;

use crate::cases::{Case, passes};
use crate::findings::Found;
use crate::furnished::{Made, Size};
use crate::table::Seating;
use crate::table::steps::Step;
use bc_pager::Answer;
use bc_superpages::PageState;
use std::test::Fail;

#[test]
fn eight_notices_are_declined_where_every_page_is_absent(rt: HostRuntime) -> Result<(), Fail> {
    passes(
        &rt,
        rt.alloc(),
        &Case {
            size: Size {
                superpages: 1,
                frames: 3,
                nursery: 1,
            },
            made: &[],
            seating: Seating::LaneAndPager,
            steps: &[
                Step::Serve(&[0, 1, 2, 3, 0, 1, 2, 3], 64, &[Answer::Declined; 8]),
                Step::ServeOne(0, &[Answer::Declined]),
            ],
            found: &[],
        },
    )
}

#[test]
fn a_page_without_cells_is_discarded_once_it_is_not_held(rt: HostRuntime) -> Result<(), Fail> {
    passes(
        &rt,
        rt.alloc(),
        &Case {
            size: Size {
                superpages: 1,
                frames: 6,
                nursery: 1,
            },
            made: &[Made::Open(0)],
            seating: Seating::LaneAndPager,
            steps: &[
                Step::Pages(4),
                Step::ServeMeanwhile(0, &[0], &[Answer::Declined]),
                Step::Serve(
                    &[4294967295, 0, 0],
                    2,
                    &[Answer::Discarded(0), Answer::Declined],
                ),
            ],
            found: &[
                Found::Pages(4),
                Found::State(0, PageState::Absent),
                Found::FreeFrames(5),
            ],
        },
    )
}
