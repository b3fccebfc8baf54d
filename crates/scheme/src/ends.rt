//! How the program ends.

/// Why the program ends.
#[derive(Clone, Copy)]
pub enum End {
    /// All forms were evaluated.
    Done,
    /// The program ended itself, with this status.
    Exit(u8),
    /// An error of the program or of its text.
    Wrong,
    /// The words of the command line aren't right.
    BadWords,
    /// The heap is too small.
    OutOfHeap,
    /// The steps are used up.
    OutOfSteps,
    /// A file can't be read or written, or the program itself has too little memory.
    NoRoom,
}

impl End {
    /// The exit status.
    pub fn status(self) -> u8 {
        match self {
            End::Done => 0,
            End::Exit(status) => status,
            End::Wrong => 1,
            End::BadWords => 2,
            End::OutOfHeap => 3,
            End::OutOfSteps => 4,
            End::NoRoom => 5,
        }
    }
}
