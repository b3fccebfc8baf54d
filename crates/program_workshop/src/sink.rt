//! A sink in memory that grows: it reports what it holds, and no room.

use bc_io::{Failed, Sink};
use std::alloc::Global;

/// Holds what is written, and fails where it is to.
#[derive(Drop)]
pub struct Paper {
    bytes: Vec<u8>,
    faults: u64,
    piece: usize,
    // How many more calls there are up to the one that fails, with it. 0: none fails.
    failing: u64,
}

impl Paper {
    /// It takes whatever comes.
    pub fn new(alloc: Global) -> Paper {
        Paper::torn(alloc, usize::MAX, 0)
    }

    /// It takes pieces of so many bytes at most, one at least, and the call of this number fails. 0: none fails.
    pub fn torn(alloc: Global, piece: usize, failing: u64) -> Paper {
        Paper {
            bytes: Vec::new(alloc),
            faults: 0,
            piece,
            failing,
        }
    }

    /// What it holds.
    pub fn into_bytes(self) -> Vec<u8> {
        self.bytes
    }
}

impl Sink for Paper {
    ghost use Rattle.std.specs.Prelude.{Some, None};

    ghost held = { λ paper. Some paper.bytes.items };

    ghost faults = { λ paper. paper.faults };

    ghost room = { λ _. None };

    fn write(&mut self, bytes: &[u8]) -> Result<usize, Failed> {
        let fails = self.failing == 1;
        self.failing = self.failing.saturating_sub(1);
        let count = bytes.len().min(self.piece.max(1));
        if !fails && self.bytes.extend_from_slice(&bytes[..count]).is_ok() {
            return Ok(count);
        }
        self.faults = self.faults.saturating_add(1);
        Err(Failed)
    }
}
