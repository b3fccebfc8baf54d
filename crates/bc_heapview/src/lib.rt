// bc_heapview: what is in a saved heap, and why.
//
// `view` does all that the program does: it reads the words, reads an image from a source, and writes the answer to a sink. To
// `counts` it answers how many objects of each domain and size class the heap's root slots lead to, and how many superpages they
// need; to `path L S` the shortest way to the object that lane L made as its S-th, the first one among those of its length, or
// that there is none. Its contract is the theorem: whatever state of the plain heap the image pictures, the counts are that state's,
// and the way is a least way in that state. Who holds a domain doesn't matter, so frozen domains are answered too (`PicturesObjects` of bc_image), and each image pictures the objects of a state (`law_pictured`).
// `specs/Answers` has what a least way is, `specs/Counts` what the counts are,
// `specs/Views` what each status says, `specs/Questions` which words ask what.
//
//     words -> question_of -> read_image -> index_of -> search -> counts -> put_counts -> write_all
//                                                              -> path  -> put_path
//
// Both answers stand on one search (`search`): from the root slots on, in the order of slots and then breadth first, by fields in
// their order. It notes each object once, with where it came from. The order in which objects are found is the order of their least
// ways, so the first way that leads to an object is its least, and following back where each came from gives the fields. Counts
// are a tally over what was found. The search takes a few words for each object, and looks at each word of an object once.
// Which object lies at an address an index says (`indexes`): a bit for each address, and how many bits are set before each 64 of them. That is
// 384 bytes for each superpage of the image. So memory is linear in the objects and the superpages.
#![tactic(auto)]

mod indexes;
mod input;
mod laws;
mod paths;
mod question;
mod search;
mod status;
mod steps;
mod tally;
mod texts;
pub mod view;

pub use laws::{law_need, law_view_bytes};
pub use paths::path;
pub use question::{Question, question_of};
pub use status::{ViewFault, ViewStatus};
pub use steps::{Path, Step};
pub use tally::{Count, counts, superpages_in};
