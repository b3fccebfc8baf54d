//! Why a lane's turn ends.

/// Why a lane does no further operation in a turn.
#[derive(Clone, Copy, PartialEq, Eq, Debug)]
pub enum Stop {
    /// All operations are done.
    End,
    /// The next operation makes an object of more words than are left of the lane's chunk.
    NurseryFull,
    /// The next operation needs an entry, and the lane's write buffer is at capacity.
    BufferFull,
    /// The next operation looks at an object on this page, which somebody else has in hand.
    Busy(u32),
    /// The next operation looks at an object on an own page that is gone, and there was no frame for it: none was free, and no page could
    /// leave.
    NoFrame,
    /// The next operation looks at an object on this page of a frozen domain, which was gone, and couldn't be brought back: no frame was
    /// free for it, or another lane has it.
    Gone(u32),
    /// The next operation looks at an object on this page of a frozen domain, which was gone, and another lane brought it back first.
    Moved(u32),
}
