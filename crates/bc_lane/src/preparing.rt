//! What a lane takes into a turn, and gives back. What takes memory is apart from what is given.

ghost use Rattle.std.specs.Prelude.{◌≡◌, ℕ, ◌*◌, ◌<◌, ◌≤◌, length, slice_index, vec_capacity, IfOk};
ghost use Rattle.bc_lane.specs.Turns.{AreStarts, IsFinished, IsPreparedTurn, IsRoomOf};

use crate::parts::LanePart;
use crate::turns::{LaneDone, LaneRoom, LaneRoots, LaneTurn};
use bc_model::{Holder, Op, Reply};
use bc_nursery::{Chunk, WriteBuffer};
use bc_superpages::Roots;
use std::alloc::{AllocError, Global};
use std::snapshot::Snapshot;

impl LaneRoom {
    /// Room for what a lane takes into a turn. `holders` names who holds each domain, and `domains` those that this lane holds,
    /// in ascending order; each has `slots` root slots.
    pub fn take(
        alloc: Global,
        holders: &[Holder],
        domains: &[u32],
        slots: u32,
    ) -> Result<LaneRoom, AllocError>
        requires domains { (i : ℕ) → i < length domains.now → slice_index domains.now i < length holders.now }
        requires few { (length domains.now ≤ 64) × (slots ≤ 256) }
        ensures room { IfOk result (λ room. IsRoomOf holders.now domains.now slots room) }
    {
        let mut starts = vec![in alloc; 0; holders.len()]?;
        let holders = Vec::from_slice(alloc, holders)?;
        place(&mut starts, domains, slots);
        Ok(LaneRoom {
            holders,
            starts,
            slots,
        })
    }
}

impl LaneTurn {
    /// What the lane takes into a turn. `room` was taken for the domains of `roots`, which has a word for each of their slots;
    /// `serial` is the number of the lane's births. `replies` are those to the first operations of `ops`, which are done, and has
    /// room for those to the others. `shared` has the root slots of frozen domains, which the lane reads in the turn. It takes no memory.
    pub fn prepare(
        room: LaneRoom,
        lane: u32,
        roots: LaneRoots,
        chunk: Chunk,
        buffer: WriteBuffer,
        serial: u32,
        replies: Vec<Reply>,
        ops: &[Op],
        shared: &Roots,
    ) -> LaneTurn
        requires room { IsRoomOf room.holders.items roots.domains.items room.slots room }
        requires words { length roots.words.items ≡ length roots.domains.items * room.slots }
        requires done { length replies.items ≤ length ops.now }
        requires capacity { length ops.now ≤ vec_capacity replies }
        ensures prepared { IsPreparedTurn lane room.holders.items room.slots shared.now roots chunk buffer serial replies (length ops.now) result }
    {
        let LaneRoom {
            holders,
            starts,
            slots,
        } = room;
        let LaneRoots { domains, words } = roots;
        LaneTurn {
            part: LanePart {
                lane,
                holders,
                domains,
                slots,
                starts,
                words,
                shared: Snapshot::of(shared),
                chunk,
                buffer,
                serial,
            },
            next: replies.len(),
            replies,
            count: ops.len(),
        }
    }

    /// The number of the lane.
    pub fn lane(&self) -> u32
        ensures lane { result ≡ self.now.part.lane }
    {
        self.part.lane
    }

    /// The index of the first operation that isn't done.
    pub fn next(&self) -> usize
        ensures next { result ≡ self.now.next }
    {
        self.next
    }

    /// What the lane gives back after a turn.
    pub fn finish(self) -> LaneDone
        ensures finished { IsFinished self result }
    {
        let LaneTurn {
            part,
            next,
            replies,
            count: _,
        } = self;
        let LanePart {
            lane: _,
            holders,
            domains,
            slots,
            starts,
            words,
            shared: _,
            chunk,
            buffer,
            serial,
        } = part;
        LaneDone {
            roots: LaneRoots { domains, words },
            chunk,
            buffer,
            serial,
            next,
            replies,
            room: LaneRoom {
                holders,
                starts,
                slots,
            },
        }
    }
}

/// Notes where the words of each domain's slots begin, by domain: those of the domain of number i in the list at i times the
/// number of slots.
fn place(starts: &mut [u32], domains: &[u32], slots: u32)
    requires within { (i : ℕ) → i < length domains.now → slice_index domains.now i < length starts.old }
    requires few { (length domains.now ≤ 64) × (slots ≤ 256) }
    ensures starts { AreStarts domains.now slots (length starts.old) starts.new }
{
    for number in 0..domains.len() {
        starts[domains[number] as usize] = number as u32 * slots;
    }
}
