//! What lies in the slots of a table, and what a seat knows. Views are for the proofs alone: no value of one is made.

use crate::key::About;
use bc_frames::{Page, Shut};
use bc_superpages::Homed;
use std::collections::LinkedList;

/// What lies in a slot. Each page has a frame slot and a store slot, and its box lies in one of them or in a worker's hands.
#[derive(Drop)]
pub enum Lodged {
    /// The box is elsewhere.
    Nothing,
    /// In a frame slot: the box, and the right to its frame.
    Home(Homed),
    /// In a store slot: the box, shut.
    Away(Shut),
}

/// The page that a seat has in hand.
pub struct Hand {
    pub page: u32,
    pub remembered: bool,
    pub frame: u32,
    /// The content that was taken.
    pub content: Page,
    /// The superpages that are counted for the page.
    pub counted: LinkedList<u32>,
    /// The bookmark bits that were set for the page in this holding: in which word, and which bits.
    pub marked: LinkedList<(u32, u64)>,
}

/// What a seat has done and read.
pub struct View {
    /// A seat that was joined away isn't.
    pub alive: bool,
    pub about: About,
    /// The numbers of the roles that the seat has.
    pub roles: LinkedList<u64>,
    pub hand: Option<Hand>,
    /// A lane's own pages that it put back, the last first, each with the content.
    pub changed: LinkedList<(u32, Page)>,
    /// A lane's own pages that it put back as Remembered; and pages that it made Gone, made Absent, and took from Gone.
    pub recorded: LinkedList<u32>,
    pub left: LinkedList<u32>,
    pub emptied: LinkedList<u32>,
    pub fetched: LinkedList<u32>,
    /// Pages that it put back though it isn't the lane that holds their domain.
    pub returned: LinkedList<u32>,
    /// Pages that it read as Remembered, own pages that it read as Gone and hasn't taken since, and own pages that it read as Held
    /// with nothing in hand.
    pub seen: LinkedList<u32>,
    pub gone: LinkedList<u32>,
    pub busy: LinkedList<u32>,
    /// The words that it read, the last first: which word, and what it read.
    pub read: LinkedList<(u64, u64)>,
    /// The bookmark bits that it set: for which page, in which word, and which bits.
    pub bookmarked: LinkedList<(u32, u32, u64)>,
    /// Rights to frames.
    pub rights: LinkedList<u32>,
    /// In mark words: bits that are known to be set, and those that it set first. In finished words: bits that it set.
    pub known: LinkedList<(u32, u64)>,
    pub won: LinkedList<(u32, u64)>,
    pub finished: LinkedList<(u32, u64)>,
    /// Pages of which it answers for gray cells: it cleared their queue bit or won a mark there, and since then neither set the bit, nor
    /// read it as set, nor saw that nothing gray is left.
    pub owed: LinkedList<u32>,
    /// Mark words that it read since it last cleared a queue bit that was set, with what it read.
    pub looked: LinkedList<(u32, u64)>,
    /// The numbers of the notices that it claimed.
    pub notices: LinkedList<u64>,
}
