// Tests of the lowest crates, by their public calls alone.
//
// The gate proves a crate that has tests twice, with them and without. So those of dear crates stand here, above them.
// Nothing here is for others to call.
//
// - `bits` (bc_bits): sets of bits
// - `classes` (bc_classes): size classes
// - `word` (bc_word): words and heads
// - `frames` (bc_frames): frames and pages
// - `equal`: whether what is found is what is wanted
#![tactic(auto)]

#[cfg(test)]
mod bits;
#[cfg(test)]
mod classes;
#[cfg(test)]
mod equal;
#[cfg(test)]
mod frames;
#[cfg(test)]
mod word;
