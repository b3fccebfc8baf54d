// One operation of a lane.
//
// A lane does its operations over what it has in hand of a heap: mature cells, root slots, the chunk in which it makes its
// objects, and its write buffer (`operate_parts`). Two traits say where cells and slots lie, `Cells` and `RootSlots`.
// A space is `Cells`, and so may a page of one be; a heap's `Roots` are `RootSlots`, and so may those of a lane be. In
// proofs each has one meaning, `shows`: the whole spaces, or the root words of all domains, that they may belong to. What a
// call of them answers and does is said of every one of these, so an operation is written and proved once.
//
// The theorem stands on `operate_parts`, clause `done`: whatever whole heap the parts belong to (`Serves`), they then belong
// to one in which the operation is done (`DidOperation`). What it is answered, and what that heap stands for, are the step's
// of the heap that never frees, moves or pages. What other lanes have isn't among the arguments. `bc_running` has
// the same of a heap as a whole, derived from it.
//
// There are four things that an operation may do, and each is done in one place: nothing, with a reply read off the heap
// (`telling`); a root slot becomes another word (`slots`); a field of an object does (`fields`, `writing`); and a new
// object is made at the end of the lane's chunk, of the lane's next birth, and a root slot refers to it (`making`).
//
// A lane may read the domains that it holds and those that are frozen, and may write those alone that it holds. So both
// traits say apart what is in hand, which may be read (`at_hand`), and what of it may be written (`is_own`). An operation
// looks first at the domains that it names, then at the one of the slot that it writes, then whether the slot refers to an
// object, then at the object's domain, and last at the number of its fields (`objects`), so the replies come in the order of
// the step's. It looks at the object of one slot at most (`touched_slot`). The object's domain is known from its superpage,
// and where the lane may not read it, or not write it for `set`, `cut` and `link`, that is all that it looks at
// (`has_right`). So the one page that it may want in hand is that of an object that it reads or writes, and an operation
// that is answered `frozen` wants none.
//
// Between operations the heap is closed (`IsRunning`, `IsClosedHeap`). Words of a domain, be they root words or fields,
// refer to cells, and to the chunk of the lane that holds the domain; those of a frozen domain refer to cells alone. So
// whatever a lane comes to, from the slots that it may read on, is a cell or an object of its own chunk (`IsCellOrYoung`),
// and one comparison of the address with the end of the superpages says which (`place_of_object`). A reference from a cell
// to the chunk is recorded: before it is written the field goes into the lane's write buffer, and the cell's page is
// Remembered from then on. So what the root slots of the lane's domains, the write buffer and the chunk itself hold are all
// the references to the chunk. Where a recorded field is written again its entry stays, so an entry may name a field that
// refers to no chunk.
//
// An operation stops, and has changed nothing, exactly where a new object's words are more than what is left of the
// chunk, and only where a field would have to be recorded and the buffer is at capacity. It is done again once the nurseries were emptied.
//
// No operation takes memory or walks over the heap. In the heap as one memory it makes one object, or writes one field of
// an object that the lane holds the domain of, or changes nothing (`IsChangedBy`). Pages and root slots of frozen domains
// stay as they are, whoever operates (`law_frozen_stays`). That births stay different needs one fact of the caller's: no
// object has a later birth of the lane than its last (`NoneLater`), which an operation keeps and `law_births` gives. Then
// the lane may operate again (`next-ready` in `proofs/StepLemmas`).
//
// In `proofs/` there is a file for each thing that is done: what it does to the heap as one memory, that the heap stays
// closed, and that it stands for the next state then (`RootLemmas`; `MatureLemmas`, `YoungLemmas` and `WritingLemmas`;
// `NewLemmas`), all of a whole heap. `PartLemmas` leads from the lane's parts to that heap, and `ActLemmas` puts the ten
// operations together.
#![tactic(auto)]

mod cells;
mod fields;
mod making;
mod objects;
mod operations;
mod reading;
mod root_slots;
mod slots;
mod telling;
mod writing;

pub use cells::Cells;
pub use operations::{
    Stop, has_right, law_births, law_frozen_stays, operate_parts, reads_all, touched, writes_target,
};
pub use root_slots::RootSlots;
