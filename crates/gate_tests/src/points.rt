//! The points of gates, and who passes them.

/// A lane is about to do an operation.
pub const BEFORE: u32 = 1;

/// The reply to its operation is kept.
pub const AFTER: u32 = 2;

/// A lane has a page in its hands.
pub const LANE_IN_HAND: u32 = 7;

/// The number that the first marker of a turn passes a gate with.
pub const MARKER: u32 = 100;

/// A marker has a page in its hands, and hasn't scanned it.
pub const MARKER_IN_HAND: u32 = 3;

/// It has put a page back.
pub const PUT_BACK: u32 = 6;

/// The number that the first pager of a turn passes a gate with. Each other one has the next number.
pub const PAGER: u32 = 200;

/// A pager has taken a notice, and hasn't looked at a page for it.
pub const TAKEN: u32 = 4;

/// The answer to its notice is kept.
pub const ANSWERED: u32 = 5;
