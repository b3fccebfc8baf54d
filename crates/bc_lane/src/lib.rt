// A lane's turn: a lane does its operations over the pages of its own domains, and reads those of frozen domains, which lie at a table.
//
// Into a turn a lane takes what is its own: the words of its domains' root slots, its chunk, its write buffer and the number of
// its births (`LanePart`). Its pages lie at the table, and it takes one when an operation looks at a cell on it, keeps it while
// the next operations look there too, and puts it back else (`hands`). A page that is gone comes back: into a frame that is free, and
// where none is, into that of another page, which leaves for it. So a lane works without waiting, and takes no memory once it
// has its room (`LaneRoom`). It stops where the chunk or the write buffer has no room, where a page that it wants is in another's
// hands, and where one is gone for which there is no frame.
//
// All lanes read frozen domains, and none writes them. Their root slots stay in the heap, and each lane reads them there. A page of theirs
// is taken as an own one is, but put back right after the operation, so that the other lanes find it; where another lane has it, it is tried
// again a bounded number of times before the lane stops. One that is gone comes back only into a frame that is free, and not where another
// lane brings it back first: the lane stops then, for no page leaves in vain.
//
// An operation is that of `bc_mutator`, done over the page in hand (`PinnedCells`) and the slots that the lane may read (`LaneSlots`). What
// the proofs have to know of the seat meanwhile is given by a type parameter, the station. An operation may look at a cell of another
// lane's, or be about to write one of a frozen domain; then its superpage's header says the domain, and the answer is that it is foreign or
// frozen (`looking`). No other lane's page is ever taken.
//
// The theorem is the contract of `LaneTurn::run`: whatever whole heap what the lane has belonged to, it then belongs to that heap
// with the lane's operations done, one after another, and answered so (`LaneRan`); and each stop has its cause (`WhyStopped`). It reloads
// at most as many pages as it tries operations: those that it does, and the one that it stops at (`tried_from`). These heaps have none of
// the lane's pages Gone: the first is the one that was opened, with every page back (`law_opening`). So a page that comes back, and one
// that leaves, change nothing of them; what they change at the table `ReadsOn` says. No more pages leave than come back, and no more than
// any frame word was read as full. Pages and slots of frozen domains are in each of these heaps as at the opening. What other lanes have
// isn't among the arguments, so lanes side by side are lanes one after another.
#![tactic(auto)]

mod attempting;
mod cells;
mod hands;
mod laws;
mod looking;
mod operating;
mod parts;
mod preparing;
mod running;
mod slots;
mod stations;
mod stops;
mod turns;

pub use laws::{law_all_back, law_opening};
pub use stops::Stop;
pub use turns::{LaneDone, LaneRoom, LaneRoots, LaneTurn};
