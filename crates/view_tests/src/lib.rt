// Tests of `view`, by its public calls alone.
//
// Nothing here is for others to call.
//
// - `questions`: views over devices in memory
// - `equal`: whether what is found is what is wanted
#![tactic(auto)]

#[cfg(test)]
mod equal;
#[cfg(test)]
mod questions;
