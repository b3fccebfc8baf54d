//! Tests of sets of bits in words.

use crate::equal::same;
use bc_bits::{contains, count, first_outside, insert, is_empty, remove};

#[test]
fn set_and_cleared_bits_leave_their_neighbours(rt: HostRuntime) {
    let mut set = [0; 16];
    assert!(rt; is_empty(&set));
    insert(&mut set, 0);
    insert(&mut set, 63);
    insert(&mut set, 64);
    insert(&mut set, 1023);
    assert!(rt; contains(&set, 63));
    assert!(rt; !contains(&set, 62));
    assert!(rt; !is_empty(&set));
    same(&rt, count(&set, 1024), 4);
    same(&rt, count(&set, 64), 2);
    remove(&mut set, 63);
    assert!(rt; !contains(&set, 63));
    assert!(rt; contains(&set, 64));
    same(&rt, set[0], 1);
    same(&rt, set[1], 1);
    same(&rt, set[15], 9223372036854775808);
}

#[test]
fn first_bit_that_another_set_lacks(rt: HostRuntime) {
    let mut set = [0; 16];
    let mut other = [0; 16];
    insert(&mut set, 3);
    insert(&mut set, 200);
    insert(&mut set, 201);
    insert(&mut other, 3);
    insert(&mut other, 200);
    same(&rt, first_outside(&set, &other, 0, 1024), Some(201));
    same(&rt, first_outside(&set, &other, 0, 201), None);
    same(&rt, first_outside(&set, &other, 202, 1024), None);
    remove(&mut other, 3);
    same(&rt, first_outside(&set, &other, 0, 1024), Some(3));
    same(&rt, first_outside(&set, &other, 4, 1024), Some(201));
}
