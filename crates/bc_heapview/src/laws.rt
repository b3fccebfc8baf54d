//! Laws of views. Each is the contract of a function that does nothing.

ghost use Rattle.std.specs.Prelude.{ℕ, ◌*◌, ◌≤◌, List, [], Option, Some, length};
ghost use Rattle.bc_image.specs.Images.{IsImageListing, ImageOf};
ghost use Rattle.bc_image.specs.Listings.{ListingLists};
ghost use Rattle.bc_heapview.specs.Views.{HasViewRoom, IsAnswerAbout, view_bytes};

use crate::question::Question;

/// Law: how long an answer is at most. Counts take at most 43,034 bytes, and a way at most 49, and 39 more for each object of the image. An
/// image lists at most 1,024 objects for each of its superpages.
pub fn law_view_bytes()
    ensures text { (l : ListingLists) (question : Question) (text : List ℕ) → IsImageListing l → IsAnswerAbout l question text →
        length text ≤ view_bytes question (length l.cells) }
    ensures objects { (l : ListingLists) → IsImageListing l → length l.cells ≤ 1024 * l.setup.superpages }
{}

/// Law: what room is enough. For the image that the source has, room for `view_bytes` of its objects. For any source, room for `view_bytes`
/// of 4,194,304 objects, which for counts is 43,034 bytes.
pub fn law_need()
    ensures image { (question : Question) (bytes : List ℕ) (l : ListingLists) (room : ℕ) → ImageOf bytes l [] →
        view_bytes question (length l.cells) ≤ room → HasViewRoom question (Some bytes) (Some room) }
    ensures ample { (question : Question) (left : Option (List ℕ)) (room : ℕ) →
        view_bytes question 4194304 ≤ room → HasViewRoom question left (Some room) }
{}
