// Saving: an engine's parts as an image, and an image as the parts of an engine.
//
// An engine between phases is taken apart (`Engine::split` of bc_engine): who holds each domain, how many objects each lane has made, root
// slots and a space. These are what `write` of bc_picture puts as an image, and what `build` makes of an image is what `Engine::adopt` goes on
// with. This crate joins the two: `law_writable` says that what is split can be written, and that its image pictures what the engine stood
// for; `adopt_listing` makes an engine of what an image lists, and it stands for what the image pictures. Frozen domains stay frozen; an image
// with one has version 2 at least.
//
// Where things are: `saving` parts that can be written; `resuming` an engine that goes on with what an image lists.
#![tactic(auto)]

mod resuming;
mod saving;

pub use resuming::{adopt_listing, law_built};
pub use saving::law_writable;
