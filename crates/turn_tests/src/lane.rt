//! Tests of what a lane takes into a turn and gives back.

use bc_lane::{LaneRoom, LaneRoots, LaneTurn};
use bc_model::{Holder, Op, Slot};
use bc_nursery::{Chunk, WriteBuffer};
use bc_superpages::Roots;
use bc_word::Address;
use std::alloc::{AllocError, Global};
use std::marker::Send;
use std::test::Fail;

/// Takes what may go to another thread.
fn sent<T: Send>(_value: &T) {}

/// A lane in a turn may go to another thread.
fn may_cross(turn: &LaneTurn) {
    sent(turn);
}

/// What a lane took into a turn, and what it gave back.
#[derive(Clone, Copy, PartialEq, Eq, Debug)]
struct Given {
    lane: u32,
    next: usize,
    words: usize,
    left: u32,
    serial: u32,
    done: usize,
    replies: usize,
}

/// What lane 1 gives back that took sixteen root words, two pages and a serial number into a turn, and did nothing.
fn given_back(alloc: Global) -> Result<Given, AllocError> {
    let roots = LaneRoots {
        domains: vec![in alloc; 1, 3]?,
        words: vec![in alloc; 0; 16]?,
    };
    let holders = [
        Holder::Lane(0),
        Holder::Lane(1),
        Holder::Lane(0),
        Holder::Lane(1),
    ];
    let room = LaneRoom::take(alloc, holders.as_slice(), roots.domains.as_slice(), 8)?;
    let ops = [Op::Clear(Slot { domain: 1, slot: 0 })];
    let shared = Roots::new(alloc, 4, 8)?;
    let turn = LaneTurn::prepare(
        room,
        1,
        roots,
        Chunk::new(alloc, Address(4096), 2)?,
        WriteBuffer::new(alloc, 4)?,
        7,
        Vec::with_capacity(alloc, 1)?,
        ops.as_slice(),
        &shared,
    );
    may_cross(&turn);
    let lane = turn.lane();
    let next = turn.next();
    let done = turn.finish();
    Ok(Given {
        lane,
        next,
        words: done.roots.words.len(),
        left: done.chunk.left(),
        serial: done.serial,
        done: done.next,
        replies: done.replies.len(),
    })
}

#[test]
fn what_was_taken_into_a_turn_is_given_back(rt: HostRuntime) -> Result<(), Fail> {
    let given = Given {
        lane: 1,
        next: 0,
        words: 16,
        left: 1024,
        serial: 7,
        done: 0,
        replies: 0,
    };
    assert_eq!(rt; given_back(rt.alloc())?, given);
    Ok(())
}
