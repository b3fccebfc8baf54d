//! A sink that grows: it reports what it holds, and no room.

use bc_io::{Failed, Sink};
use std::alloc::Global;

#[derive(Drop)]
pub struct Paper {
    bytes: Vec<u8>,
    faults: u64,
    fails: bool,
}

impl Paper {
    /// It takes whatever comes, or fails in each call.
    pub fn new(alloc: Global, fails: bool) -> Paper {
        Paper {
            bytes: Vec::new(alloc),
            faults: 0,
            fails,
        }
    }

    pub fn into_bytes(self) -> Vec<u8> {
        self.bytes
    }
}

impl Sink for Paper {
    ghost use Rattle.std.specs.Prelude.{Some, None};

    ghost held = { λ paper. Some paper.bytes.items };

    ghost faults = { λ paper. paper.faults };

    ghost room = { λ _. None };

    fn write(&mut self, bytes: &[u8]) -> Result<usize, Failed> {
        if !self.fails && self.bytes.extend_from_slice(bytes).is_ok() {
            return Ok(bytes.len());
        }
        self.faults = self.faults.saturating_add(1);
        Err(Failed)
    }
}
