// Tests of `live` and of the words of its program, by their public calls alone.
//
// Nothing here is for others to call.
//
// - `rows`: runs with their lists
// - `beside`: a live pager answers beside a lane, shown by a gate
// - `words`: which words there are
// - `equal`: whether what is found is what is wanted
// - `sink`: what is written
#![tactic(auto)]

#[cfg(test)]
mod beside;
#[cfg(test)]
mod equal;
#[cfg(test)]
mod rows;
#[cfg(test)]
mod sink;
#[cfg(test)]
mod words;
