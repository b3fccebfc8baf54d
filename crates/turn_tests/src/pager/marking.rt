//! A mark turn: what a page refers to is marked when the page leaves, and a marker makes its steps beside that.

use crate::cases::{Case, passes};
use crate::findings::Found;
use crate::furnished::{Made, Size};
use crate::table::Seating;
use crate::table::steps::Step;
use bc_pager::Answer;
use bc_superpages::PageState;
use bc_word::Address;
use std::test::Fail;

#[test]
fn what_a_page_refers_to_is_marked_when_it_leaves_in_a_mark_turn(
    rt: HostRuntime,
) -> Result<(), Fail> {
    passes(
        &rt,
        rt.alloc(),
        &Case {
            size: Size {
                superpages: 1,
                frames: 6,
                nursery: 0,
            },
            made: &[
                Made::Objects(129, 0),
                Made::Link(Address(0), 0, Address(512)),
            ],
            seating: Seating::MarkerAndPager,
            steps: &[
                Step::Pages(4),
                Step::Look(2, (0, 0)),
                Step::Queue(0, 0),
                Step::Queue(0, 1),
                Step::Serve(&[0], 1, &[Answer::Evicted(0)]),
                Step::Look(2, (1, 0)),
                Step::Queue(3, 3),
                Step::Queue(1, 11),
            ],
            found: &[
                Found::Pages(4),
                Found::State(0, PageState::Gone),
                Found::Marks(0, 2, 1),
                Found::Bookmarks(0, 2, 1),
            ],
        },
    )
}
