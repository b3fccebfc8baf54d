//! A lane writes on a page while a pager gives up the next one, on threads of their own.

use crate::cases::{Case, passes};
use crate::findings::Found;
use crate::furnished::{Made, Size};
use crate::table::Seating;
use crate::table::steps::Step;
use bc_superpages::PageState;
use bc_word::Address;
use std::test::Fail;

/// The first object of the first page, and of the second, which refers to that.
const WRITTEN: Address = Address(0);

const EVICTED: Address = Address(512);

#[test]
fn a_lane_writes_while_a_pager_evicts_the_next_page(rt: HostRuntime) -> Result<(), Fail> {
    passes(
        &rt,
        rt.alloc(),
        &Case {
            size: Size {
                superpages: 1,
                frames: 6,
                nursery: 0,
            },
            made: &[Made::Objects(129, 0), Made::Link(EVICTED, 1, WRITTEN)],
            seating: Seating::LaneAndPager,
            steps: &[
                Step::Object(WRITTEN),
                Step::Object(EVICTED),
                Step::Domain(0, 0),
                Step::WriteAndEvict((WRITTEN, EVICTED)),
            ],
            found: &[
                Found::WordIs(Address(1), 15),
                Found::Pages(4),
                Found::State(0, PageState::Home),
                Found::State(1, PageState::Gone),
                Found::FreeFrames(5),
                Found::Incoming(0, 1),
                Found::Bookmarks(0, 0, 1),
            ],
        },
    )
}
