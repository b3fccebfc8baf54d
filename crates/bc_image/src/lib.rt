// Images: a heap saved as a list of items of 8 bytes, each a number with its most significant byte first.
//
// An image begins with eight letters, the version, the setup and how many phases are done. After them stand who holds each
// domain, how many objects each lane has made, the words of the root slots, and superpage by superpage its objects: 0 where there
// is none, or else their domain and class, how many they are, and each with its address, its head and its fields. A reference is
// the address of an object of the image.
//
// What an image is, is said twice. `Images` has the bytes of a listing and what may be listed (`ImageOf`). `Items`, `Drafts` and
// `Reading` have which item may stand where, and so the first one that fails a test. A lemma (`proofs/Law`) holds one against the
// other, both ways, and the contract of `scan` speaks of both: it answers the listing exactly where the bytes begin with an image,
// and else the first fault.
//
// The bytes are read once. A birth that stands twice and a reference to nowhere are judged afterwards, among the heads and words that were
// kept; both in time and memory linear in the objects and superpages, whatever the bytes are.
//
// Bytes begin with one image at most (`law_one_listing`), or else they have exactly one fault (`law_one_image_fault`; `law_fault_place`
// says where it lies). No image has more than 100,860,624 bytes (`law_largest_image`).
//
// What an image pictures (`Pictures`) is a state as far as its slots lead; states that one image pictures are alike
// (`law_one_image`).
//
// Where things are: `listing` what an image says, `progress` what may stand where, `draft` the listing that is being read,
// `reading` the one pass over the bytes, `births` births that stand twice, `addresses` where objects lie, `linking` references to nowhere,
// `scanning` the whole, `fault` what may be wrong.
#![tactic(auto)]

mod addresses;
mod births;
mod draft;
mod fault;
mod laws;
mod linking;
mod listing;
mod progress;
mod reading;
mod scanning;

pub use addresses::{homes, is_there};
pub use fault::{ImageCause, ImageFault, ReadImage};
pub use laws::{
    law_fault_place, law_largest_image, law_one_image, law_one_image_fault, law_one_listing,
    law_pictured, law_read_back,
};
pub use listing::{Cell, Listing};
pub use scanning::scan;
