// A heap to work on by hand, for tests and benches: it is no part of the collector.
//
// A `Workshop` is a heap of some lanes, which hold its domains by turns. A lane does an operation on it, the nurseries are
// emptied, notices are served, and the bookmark collection and the fail-safe are done, each when the caller says so. So tests build heaps of any
// shape, in as few frames as they like, collect them, and compare replies.
//
// Between the calls the heap is running (`IsSound`), and a workshop whose nurseries couldn't be emptied is lost. So every condition
// of the calls below holds, and a caller has none to meet. What a call does is said by the clauses of the collector's own calls,
// passed on. What a space has can be counted.
#![tactic(auto)]

mod counts;
mod operations;
mod workshops;

pub use counts::{objects_in_cells, pages_gone, superpages_in_use};
pub use operations::Halt;
pub use workshops::Workshop;

#[cfg(test)]
mod tests;
