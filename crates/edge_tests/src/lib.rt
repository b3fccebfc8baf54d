// Tests of the plain heap, command words, the trace language, images and heaps that are built of them, by their public calls alone.
//
// The gate proves a crate that has tests twice, with them and without. So those of dear crates stand here, above them.
// Nothing here is for others to call.
//
// - `plain_heap` (bc_model): operations whose answers were worked out by hand
// - `command_words` (bc_words): lists of words, and the commands that they are
// - `trace_language` (bc_trace, bc_churn): texts from outside, read and written again, each cause of a fault once, and the counts of replies
// - `images` (bc_image): an image that was written by hand, and what is wrong with it once it is broken
// - `pictures` (bc_picture): a heap that is built of an image, and written again
// - `equal`: whether what is found is what is wanted
#![tactic(auto)]

#[cfg(test)]
mod command_words;
#[cfg(test)]
mod equal;
#[cfg(test)]
mod images;
#[cfg(test)]
mod pictures;
#[cfg(test)]
mod plain_heap;
#[cfg(test)]
mod trace_language;
