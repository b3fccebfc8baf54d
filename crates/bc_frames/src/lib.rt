// Frames, pages and the store: where the boxes of the heap's pages lie.
//
// A page of the heap has one box of 512 words for its whole life. While the page is resident its box lies
// in memory and uses a frame; while it isn't, the box lies in the page's place in the store. This crate
// has the three things that move: the box (`Page`), the right to a frame (`Frame`) and the two that
// keep them, `FramePool` for the frames that nobody uses and `Store` for the boxes that aren't resident.
//
// A `Frame` can't be copied, so who has one has a frame that nobody else has. A pool is seen as a
// flag for each frame, true where it is free. It keeps a bit for each frame in words of 64, set where the frame
// isn't free and after the last frame, how many are free, and the first word that may have a free one: `claim`
// takes the first clear bit from there on. The store is seen as the boxes' contents by page.
//
// A page that was never used has no box yet: its place in the store says so, and contracts see zeros there (`Place`). Room for
// the boxes of all pages is taken at once, in rows of 64, of which nothing is written before a page of it is
// wanted (`Rows`), so memory that no page uses is never touched. A row is then cut into its pages. It stays
// the program's until that ends, for a box can't give back a part of a row.
//
// While workers share a table of pages, the boxes of pages that aren't resident lie there shut (`Shut`): `lift` takes one out
// of the store and `lower` puts it back, and neither is a read. Who opens a shut box counts it in an `Opens`, which can't be
// dropped and can't be read: `Store::count` spends it and adds its number to `reads`. There too a frame is a bit of a
// table, whose words are the pool's (`word`) and are put back into it one by one (`put_word`). `Frame::number` and `Frame::of`
// take a right apart and make it again; that no two rights to one frame are in use is then kept by who makes them.
//
// The theorems are the contracts: `claim` gives a frame that was free and no longer is, and nothing exactly
// where no frame is free; a place of the store gives back what was put there, and `reads` counts each
// `take_back` and no `take_blank`. Only the two `new` take memory.
#![tactic(auto)]

mod frames;
mod pages;
mod rows;
mod shutting;
mod storage;

pub use frames::{Frame, FramePool};
pub use pages::Page;
pub use shutting::{Opens, Shut};
pub use storage::Store;

/// Memory ran out.
pub type NoMemory = std::alloc::AllocError;
