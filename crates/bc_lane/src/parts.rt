//! What a lane has of the heap in a turn, besides its pages.

use bc_model::Holder;
use bc_nursery::{Chunk, WriteBuffer};
use bc_superpages::Roots;
use std::snapshot::Snapshot;

/// The lane's own: root slots of its domains, its chunk, its write buffer and the number of its births.
#[derive(Drop)]
pub(crate) struct LanePart {
    pub(crate) lane: u32,
    /// By domain, who holds it.
    pub(crate) holders: Vec<Holder>,
    /// The domains that the lane holds, in ascending order.
    pub(crate) domains: Vec<u32>,
    /// How many slots a domain has, if the lane holds one.
    pub(crate) slots: u32,
    /// By domain, where the words of its slots begin, if it is the lane's.
    pub(crate) starts: Vec<u32>,
    pub(crate) words: Vec<u64>,
    /// The root slots of the heap, of which the lane reads those of frozen domains: nobody writes them in a turn.
    pub(crate) shared: Snapshot<Roots>,
    pub(crate) chunk: Chunk,
    pub(crate) buffer: WriteBuffer,
    pub(crate) serial: u32,
}
