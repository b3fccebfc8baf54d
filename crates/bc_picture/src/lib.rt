// Pictures: a heap that is built of an image, and a heap that is written as one.
//
// What is to be written is said by a listing of the heap (`heap_listing`): the objects of its space by ascending addresses, as memory
// has them wherever their pages are, and the words of its root slots. `write` puts the image of that listing into a sink, item by
// item. A page that is Gone is read back when its objects are due, in a frame for which one that was read may leave, so two frames beside
// the nurseries' are enough. Objects and root slots stay as they are. Only where pages are may change, with the frames that are free, the
// bookmarks and counters of pages that are Gone, and the count of pages that were read back. No memory is taken: items wait in 4,096 bytes
// that lie on the stack.
//
// `build` makes a heap of a listing. First it promises a cell for each object, by headers alone, so that each reference names a cell
// from then on. Then it places the objects by ascending addresses: a page comes home when its first object is due, and where no frame
// is free another page leaves, of which nothing is due any more. What is built lists what it was built of (`build`, clause `listing`),
// and heaps that list the same stand for the same states (`law_saved`).
//
// Where things are: `building` a heap of a listing, `promising` its cells, `placing` its objects; `waiting` bytes on their way,
// `putting` items, `reading` what a space says of a cell, `superpages` the items of superpages, `writing` the whole; `laws` what a
// heap that was saved stands for.
#![tactic(auto)]

mod building;
mod laws;
mod placing;
mod promising;
mod putting;
mod reading;
mod superpages;
mod waiting;
mod writing;

pub use building::{Picture, build};
pub use laws::law_saved;
pub use writing::write;
