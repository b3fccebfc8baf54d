// Tests of the Scheme's texts and memory, by their public calls alone.
//
// The gate proves a crate that has tests twice, with them and without. So those of dear crates stand here, above them.
// Nothing here is for others to call. Whole programs are run by `.ci/scheme`.
//
// - `code` (scheme_code): texts, and the code that they are
// - `memory` (scheme_heap): registers, and a heap that is full
#![tactic(auto)]

#[cfg(test)]
mod code;
#[cfg(test)]
mod memory;
