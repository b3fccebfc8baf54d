//! The memory of a turn, which is taken before anything is done: room for what each lane takes with it, and what stands in its
//! places of the heap meanwhile.

ghost use Rattle.std.specs.Prelude.{◌≡◌, ◌<◌, ◌≤◌, [], length, nat_lt, slice_index_or, IfOk, OnOk, OnErr};
ghost use Rattle.std.specs.List.{filter};
ghost use Rattle.bc_model.specs.Rows.{lists_of};
ghost use Rattle.bc_turn.specs.Begun.{AreBusyLanes, of_lane};
ghost use Rattle.bc_turn.specs.Taking.{AreHeldDomains, AreSparesOf, IsRoomKept, IsSpareOf, spare_lanes, turn_roles};

use bc_lane::{LaneRoom, LaneRoots};
use bc_model::{Holder, Op, Reply};
use bc_nursery::{Chunk, WriteBuffer};
use bc_pager::push_pagers;
use bc_pins::Role;
use bc_word::Address;
use std::alloc::{AllocError, Global};

/// Room for the turn of a lane.
#[derive(Drop)]
pub(crate) struct Spare {
    pub(crate) lane: u32,
    pub(crate) room: LaneRoom,
    /// The domains that the lane holds, and room for the words of their root slots.
    pub(crate) roots: LaneRoots,
    /// What stands for the lane's chunk, write buffer and replies while the lane has them.
    pub(crate) chunk: Chunk,
    pub(crate) buffer: WriteBuffer,
    pub(crate) replies: Vec<Reply>,
}

/// Room that turns take for their lanes, kept from one turn to the next: for the lanes of a phase, whose operations don't change.
#[derive(Drop)]
pub struct TurnRoom {
    /// In the order of the lanes.
    pub(crate) spares: Vec<Spare>,
}

impl TurnRoom {
    ghost use Rattle.std.specs.Prelude.{◌≡◌, []};

    /// No room is taken yet.
    pub fn new(alloc: Global) -> TurnRoom
        ensures none { result.spares.items ≡ [] }
    {
        TurnRoom {
            spares: Vec::new(alloc),
        }
    }
}

/// Has room ready for each lane that has operations left, and for no other. What was kept for it is there already: memory is taken only
/// where nothing was.
pub(crate) fn fit_room(
    alloc: Global,
    room: &mut TurnRoom,
    holders: &[Holder],
    slots: u32,
    lanes: &[Vec<Op>],
    replies: &[Vec<Reply>],
) -> Result<(), AllocError>
    requires sizes { (length replies.now ≡ length lanes.now) × (length lanes.now ≤ 16) }
    requires few { (length holders.now ≤ 64) × (slots ≤ 256) }
    requires kept { IsRoomKept holders.now slots (lists_of lanes.now) (lists_of replies.now) room.old }
    ensures busy { OnOk result (AreBusyLanes (lists_of lanes.now) (lists_of replies.now) (spare_lanes room.new.spares.items)) }
    ensures spares { OnOk result (AreSparesOf holders.now slots room.new.spares.items) }
    ensures refused { OnErr result (room.new ≡ room.old) }
{
    if room.spares.is_empty() {
        room.spares = take_spares(alloc, holders, slots, lanes, replies)?;
    } else {
        drop_idle(&mut room.spares, lanes, replies);
    }
    Ok(())
}

/// Drops the room of lanes that have no operations left.
fn drop_idle(spares: &mut Vec<Spare>, lanes: &[Vec<Op>], replies: &[Vec<Reply>])
    ensures kept { spares.new.items ≡ filter (λ (spare : Spare). nat_lt (length (of_lane (lists_of replies.now) spare.lane)) (length (of_lane (lists_of lanes.now) spare.lane))) spares.old.items }
{
    spares.retain(|spare| has_left(lanes, replies, spare.lane));
}

/// Has the lane operations left?
fn has_left(lanes: &[Vec<Op>], replies: &[Vec<Reply>], lane: u32) -> bool
    ensures { result ≡ nat_lt (length (of_lane (lists_of replies.now) lane)) (length (of_lane (lists_of lanes.now) lane)) }
{
    count_of(replies, lane) < count_of(lanes, lane)
}

/// How long the list of that number is; one past the last has nothing.
fn count_of<T>(lists: &[Vec<T>], number: u32) -> usize
    ensures { result ≡ length (slice_index_or (lists_of lists.now) number []) }
{
    match lists.get(number as usize) {
        Some(list) => list.len(),
        None => 0,
    }
}

/// Room for the turn of each lane that has operations left, in the order of the lanes. `slots` is the number of root slots of a
/// domain.
fn take_spares(
    alloc: Global,
    holders: &[Holder],
    slots: u32,
    lanes: &[Vec<Op>],
    replies: &[Vec<Reply>],
) -> Result<Vec<Spare>, AllocError>
    requires sizes { (length replies.now ≡ length lanes.now) × (length lanes.now ≤ 16) }
    requires few { (length holders.now ≤ 64) × (slots ≤ 256) }
    ensures busy { IfOk result (λ spares. AreBusyLanes (lists_of lanes.now) (lists_of replies.now) (spare_lanes spares.items)) }
    ensures spares { IfOk result (λ spares. AreSparesOf holders.now slots spares.items) }
{
    let mut spares = Vec::new(alloc);
    for number in 0..lanes.len() {
        if replies[number].len() >= lanes[number].len() {
            continue;
        }
        let spare = take_spare(alloc, number as u32, holders, slots)?;
        spares.push(spare)?;
    }
    Ok(spares)
}

/// Room for the turn of a lane.
fn take_spare(alloc: Global, lane: u32, holders: &[Holder], slots: u32) -> Result<Spare, AllocError>
    requires few { (length holders.now ≤ 64) × (slots ≤ 256) }
    ensures lane { IfOk result (λ spare. spare.lane ≡ lane) }
    ensures spare { IfOk result (λ spare. IsSpareOf holders.now slots spare) }
{
    let domains = held_domains(alloc, lane, holders)?;
    let words = Vec::with_capacity(alloc, domains.len() * slots as usize)?;
    Ok(Spare {
        lane,
        room: LaneRoom::take(alloc, holders, &domains, slots)?,
        roots: LaneRoots { domains, words },
        chunk: Chunk::new(alloc, Address(0), 0)?,
        buffer: WriteBuffer::new(alloc, 0)?,
        replies: Vec::new(alloc),
    })
}

/// The domains that the lane holds, in ascending order.
fn held_domains(alloc: Global, lane: u32, holders: &[Holder]) -> Result<Vec<u32>, AllocError>
    requires few { length holders.now ≤ 64 }
    ensures few { IfOk result (λ domains. length domains.items ≤ 64) }
    ensures domains { IfOk result (λ domains. AreHeldDomains holders.now lane domains.items) }
{
    let mut domains = Vec::new(alloc);
    for domain in 0..holders.len() {
        if !holders[domain].lets_write(lane) {
            continue;
        }
        domains.push(domain as u32)?;
    }
    Ok(domains)
}

/// The roles of a turn: the lanes that have room for it, in their order, and so many pagers.
pub(crate) fn roles_of(
    alloc: Global,
    spares: &[Spare],
    pagers: u32,
) -> Result<Vec<Role>, AllocError>
    requires few { pagers ≤ 5 }
    ensures roles { IfOk result (λ roles. roles.items ≡ turn_roles (spare_lanes spares.now) pagers) }
{
    let mut roles = Vec::with_capacity(alloc, spares.len() + pagers as usize)?;
    for spare in spares {
        roles.push_reserved(Role::Lane(spare.lane));
    }
    push_pagers(&mut roles, pagers);
    Ok(roles)
}
