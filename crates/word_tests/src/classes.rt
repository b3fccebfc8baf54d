//! The table of size classes, compared with numbers written out by hand.

use crate::equal::same;
use bc_classes::{MAX_FIELDS, cap, class_of};

#[test]
fn fields_and_capacities_of_the_seven_classes(rt: HostRuntime) {
    for (fields, words) in [
        (0, 2),
        (1, 2),
        (2, 4),
        (3, 4),
        (4, 8),
        (7, 8),
        (8, 16),
        (15, 16),
        (16, 32),
        (31, 32),
        (32, 64),
        (63, 64),
        (64, 128),
        (127, 128),
    ] {
        assert!(rt; fields <= MAX_FIELDS);
        same(&rt, class_of(fields), words);
    }
    same(&rt, cap(2), 1024);
    same(&rt, cap(4), 512);
    same(&rt, cap(8), 256);
    same(&rt, cap(16), 128);
    same(&rt, cap(32), 64);
    same(&rt, cap(64), 32);
    same(&rt, cap(128), 16);
}
