//! A page that a lane brings back in the turn in which it left.

use crate::cases::{Case, passes};
use crate::findings::Found;
use crate::furnished::{Made, Size};
use crate::table::Seating;
use crate::table::steps::Step;
use bc_superpages::PageState;
use bc_word::Address;
use std::test::Fail;

#[test]
fn a_lane_brings_a_page_back_in_the_turn_in_which_it_left(rt: HostRuntime) -> Result<(), Fail> {
    passes(
        &rt,
        rt.alloc(),
        &Case {
            size: Size {
                superpages: 1,
                frames: 6,
                nursery: 0,
            },
            made: &[
                Made::Objects(129, 0),
                Made::Link(Address(0), 0, Address(512)),
            ],
            seating: Seating::LaneAndPager,
            steps: &[Step::Domain(0, 0), Step::ComeBack(0)],
            found: &[
                Found::Pages(4),
                Found::State(0, PageState::Home),
                Found::Reads(1),
                Found::FreeFrames(4),
                Found::Bookmarks(0, 2, 1),
                Found::Incoming(0, 0),
            ],
        },
    )
}
