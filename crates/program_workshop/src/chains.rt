//! Chains of objects: what makes and follows them, and what that prints.

use crate::traces::{repeated, trace_in};
use std::alloc::{AllocError, Global};

/// How many objects the chain on twenty pages has.
const CHAIN: u32 = 5_000;

/// Two frames beside the nursery's for twenty pages.
pub const TWO_FRAMES: [u32; 7] = [1, 1, 2, 5, 1, 4, 3];

/// Four frames beside the nursery's for twenty pages, of which turns may withhold two.
pub const FOUR_FRAMES: [u32; 7] = [1, 1, 2, 5, 1, 4, 5];

/// Operations that put objects after a chain's first one, so that the chain has this many objects. Slots 0 and 1 hold the last
/// one, and each refers to the one before.
pub fn links(alloc: Global, objects: u32) -> Result<String, AllocError> {
    let link = "new 0 1 1\nlink 0 1 0 0 0\ncopy 0 1 0 0\n";
    repeated(alloc, link, objects.saturating_sub(1))
}

/// Their replies.
pub fn linked(alloc: Global, objects: u32) -> Result<String, AllocError> {
    let mut output = String::new(alloc);
    for serial in 2..=objects {
        let replies = format!(in alloc; "obj 0.{serial}\nok\nok\n")?;
        output.push_str(&replies)?;
    }
    Ok(output)
}

/// The replies to following a chain of so many objects from its newest to its end.
pub fn followed_to_the_end(alloc: Global, objects: u32) -> Result<String, AllocError> {
    let mut output = repeated(alloc, "ref\n", objects.saturating_sub(1))?;
    output.push_str("nil\n")?;
    Ok(output)
}

/// A phase with these lines of turns in which a chain on twenty pages is made, and then followed to its end.
pub fn chain(alloc: Global, turns: &str) -> Result<String, AllocError> {
    let news = links(alloc, CHAIN)?;
    let loads = repeated(alloc, "load 0 1 0 0 1\n", CHAIN)?;
    format!(in alloc;
        "phase\n{turns}lane 0\nnew 0 0 1\ncopy 0 0 0 1\n{news}copy 0 0 0 1\n{loads}end\ndone\n"
    )
}

/// What it prints.
pub fn chain_printed(alloc: Global) -> Result<String, AllocError> {
    let replies = linked(alloc, CHAIN)?;
    let rest = followed_to_the_end(alloc, CHAIN)?;
    format!(in alloc; "phase 1\nlane 0\nobj 0.1\nok\n{replies}ok\n{rest}done\n")
}

/// The trace of that phase with `FOUR_FRAMES`, whose turns may withhold frames.
pub fn withheld_chain(alloc: Global, turns: &str) -> Result<Vec<u8>, AllocError> {
    let lines = chain(alloc, turns)?;
    let text = trace_in(alloc, 3, FOUR_FRAMES, &lines)?;
    Ok(text.into_bytes())
}
