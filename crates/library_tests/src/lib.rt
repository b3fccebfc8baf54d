// Tests of the library, by its public calls alone.
//
// The gate proves a crate that has tests twice, with them and without. So those of dear crates stand here, above them.
// Nothing here is for others to call.
//
// - `calls` (sorvekla): each call, and each refusal
// - `steps`: a test as a list of steps, of which each is a call with what it is to return
#![tactic(auto)]

#[cfg(test)]
mod calls;
#[cfg(test)]
mod steps;
