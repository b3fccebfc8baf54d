// Tests of gates, of the table of a turn, of pagers, markers and lanes in a turn, by their public calls alone.
//
// The gate proves a crate that has tests twice, with them and without. So those of dear crates stand here, above them.
// Nothing here is for others to call.
//
// - `gates` (bc_gates): gates
// - `pins` (bc_pins): tables
// - `pager` (bc_pager): notices that are answered at a table
// - `lane` (bc_lane): what a lane takes into a turn and gives back
// - `markers` (bc_mark_turn, bc_marking): mark turns, and whole markings with pagers beside the markers
//
// A test at a table is a case (`cases`) of three lists of steps: how its space is made (`furnished`), what is done at the table and what is returned
// there (`table`), and what is found in the space once the table is closed (`findings`). The calls stand once. A table keeps the conditions of its
// calls by its type, so the functions that go through the lists have no clauses.
#![tactic(auto)]

#[cfg(test)]
mod cases;
#[cfg(test)]
mod findings;
#[cfg(test)]
mod furnished;
#[cfg(test)]
mod gates;
#[cfg(test)]
mod lane;
#[cfg(test)]
mod markers;
#[cfg(test)]
mod pager;
#[cfg(test)]
mod pins;
#[cfg(test)]
mod steps;
#[cfg(test)]
mod table;
