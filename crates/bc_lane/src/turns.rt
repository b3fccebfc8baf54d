//! What a lane takes into a turn and gives back.

ghost use Rattle.std.specs.Prelude.{◌+◌, ◌≤◌, length, vec_capacity};

use crate::parts::LanePart;
use bc_model::{Holder, Reply};
use bc_nursery::{Chunk, WriteBuffer};

/// The root slots of a lane's domains.
#[derive(Drop)]
pub struct LaneRoots {
    /// The domains, in ascending order.
    pub domains: Vec<u32>,
    /// A packed word for each slot of these domains, in order of domain and slot.
    pub words: Vec<u64>,
}

/// Room for what a lane takes into a turn. It is taken before anything is, so that nothing which was given can be lost for lack of
/// memory.
#[derive(Drop)]
pub struct LaneRoom {
    /// By domain, who holds it.
    pub(crate) holders: Vec<Holder>,
    /// By domain, where the words of its slots begin, if it is the lane's.
    pub(crate) starts: Vec<u32>,
    /// How many slots a domain has.
    pub(crate) slots: u32,
}

/// A lane in a turn.
#[derive(Drop)]
pub struct LaneTurn {
    pub(crate) part: LanePart,
    /// The index of the first operation that isn't done.
    pub(crate) next: usize,
    /// The replies to the operations that are done, with room for those to the others.
    pub(crate) replies: Vec<Reply>,
    /// How many operations there are.
    pub(crate) count: usize,
    ghost within: { next ≤ count },
    ghost room: { count + length replies.items ≤ next + vec_capacity replies },
}

/// What a lane gives back after a turn.
#[derive(Drop)]
pub struct LaneDone {
    pub roots: LaneRoots,
    pub chunk: Chunk,
    pub buffer: WriteBuffer,
    /// The number of the lane's births.
    pub serial: u32,
    /// The index of the first operation that isn't done.
    pub next: usize,
    /// The replies to the operations that were done, with the room that they had.
    pub replies: Vec<Reply>,
    /// The room that was given. It serves the lane's next turn as well, while the lane holds the same domains.
    pub room: LaneRoom,
}
