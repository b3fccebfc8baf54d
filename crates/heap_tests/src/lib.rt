// Tests of superpages, bookmarks, nurseries, promotion, sweep, packing and the fail-safe, by their public calls alone.
//
// The gate proves a crate that has tests twice, with them and without. So those of dear crates stand here, above them.
// Nothing here is for others to call.
//
// - `superpages` (bc_superpages): promises, placed objects, root slots, pages that leave and come back
// - `bookmarks` (bc_bookmarks): pages that leave and come back, as the definitions say it by hand
// - `nursery` (bc_nursery): chunks, write buffers and survivors, each call once
// - `promotion` (bc_promotion): survivors that are placed
// - `sweep` (bc_sweep): the sweep
// - `compact` (bc_compact): cells that are packed
// - `failsafe` (bc_failsafe): the fail-safe
//
// Most tests are lists of steps (`steps`): a step is a call with what it is to return, or what is to be found then. The calls stand once, in functions
// that refuse what their conditions don't allow and have no clauses.
#![tactic(auto)]

#[cfg(test)]
mod bookmarks;
#[cfg(test)]
mod cells;
#[cfg(test)]
mod compact;
#[cfg(test)]
mod failsafe;
#[cfg(test)]
mod nursery;
#[cfg(test)]
mod promotion;
#[cfg(test)]
mod steps;
#[cfg(test)]
mod superpages;
#[cfg(test)]
mod sweep;
