//! A test of threads that share a table.

use crate::cases::{Case, passes};
use crate::findings::Found;
use crate::furnished::{Made, Size};
use crate::table::Seating;
use crate::table::steps::Step;
use bc_word::Address;
use std::test::Fail;

/// The second object of each domain. Its first field is the word behind its address. The word of a number n is 2 n + 1.
const OURS: Address = Address(4);

const THEIRS: Address = Address(2052);

#[test]
fn two_threads_write_different_pages(rt: HostRuntime) -> Result<(), Fail> {
    passes(
        &rt,
        rt.alloc(),
        &Case {
            size: Size {
                superpages: 2,
                frames: 10,
                nursery: 2,
            },
            made: &[Made::Objects(2, 0), Made::Objects(2, 1)],
            seating: Seating::TwoLanes,
            steps: &[
                Step::Domain(0, 0),
                Step::Domain(4, 1),
                Step::Write((OURS, THEIRS)),
            ],
            found: &[
                Found::WordIs(Address(5), 7),
                Found::WordIs(Address(2053), 9),
            ],
        },
    )
}
