//! Tests of lanes that take pages of a frozen domain, of which they hold no part.

use crate::cases::{Case, passes};
use crate::findings::Found;
use crate::furnished::{Made, Size};
use crate::table::Seating;
use crate::table::steps::Step;
use bc_superpages::PageState;
use bc_word::Address;
use std::test::Fail;

/// Three superpages, one for each of three domains.
const SIZE: Size = Size {
    superpages: 3,
    frames: 10,
    nursery: 2,
};

/// An object of each lane's domain, and two pages of the frozen one. The first of their objects refers to the first one of the second page.
const MADE: &[Made] = &[
    Made::Objects(1, 0),
    Made::Objects(1, 1),
    Made::Objects(129, 2),
    Made::Link(Address(4096), 0, Address(4608)),
];

/// The field that refers, and its bits: those of a reference to an address a are 2 (a + 1).
const FIELD: Address = Address(4097);

const BITS: u64 = 9218;

#[test]
fn two_lanes_take_a_page_of_a_frozen_domain_one_after_the_other_and_leave_it_as_it_was(
    rt: HostRuntime,
) -> Result<(), Fail> {
    passes(
        &rt,
        rt.alloc(),
        &Case {
            size: SIZE,
            made: MADE,
            seating: Seating::TwoLanes,
            steps: &[Step::Domain(8, 2), Step::Read(8)],
            found: &[
                Found::State(8, PageState::Home),
                Found::WordIs(FIELD, BITS),
                Found::Reads(0),
                Found::FreeFrames(4),
            ],
        },
    )
}

#[test]
fn a_page_of_a_frozen_domain_comes_back_for_a_lane_that_holds_no_part_of_it(
    rt: HostRuntime,
) -> Result<(), Fail> {
    passes(
        &rt,
        rt.alloc(),
        &Case {
            size: SIZE,
            made: MADE,
            seating: Seating::TwoLanes,
            steps: &[Step::Domain(8, 2), Step::ComeBack(8), Step::Read(8)],
            found: &[
                Found::State(8, PageState::Home),
                Found::WordIs(FIELD, BITS),
                Found::Reads(1),
                Found::FreeFrames(4),
                Found::Bookmarks(2, 2, 1),
                Found::Incoming(2, 0),
            ],
        },
    )
}
