//! Laws of images. Each is the contract of a function that does nothing.

ghost use Rattle.std.specs.Prelude.{◌≡◌, ◌⊎◌, ℕ, ◌+◌, ◌≤◌, List, [], ◌++◌, length, take};
ghost use Rattle.bc_model.specs.Consistent.{IsState};
ghost use Rattle.bc_model.specs.Resembles.{Resembles};
ghost use Rattle.bc_model.specs.State.{State};
ghost use Rattle.bc_image.specs.FaultPlaces.{LiesAtItem, LeadsNowhere};
ghost use Rattle.bc_image.specs.Faults.{IsFault};
ghost use Rattle.bc_image.specs.ImageOrFault.{AreBytes, BeginWithImage};
ghost use Rattle.bc_image.specs.ImageSizes.{most_image_bytes};
ghost use Rattle.bc_image.specs.Images.{IsImageListing, ImageOf, image_bytes};
ghost use Rattle.bc_image.specs.Listings.{ListingLists};
ghost use Rattle.bc_image.specs.Pictures.{Pictures, PicturesObjects};
ghost use Rattle.bc_image.specs.declared.fault.ImageCause.TheVariants.{Short, Link};
ghost use Rattle.bc_image.specs.declared.fault.ImageFault.{ImageFault};

/// Law: states that one image pictures are alike as far as their slots lead. So they give the same replies from there on
/// (`law_resembling` of bc_model).
pub fn law_one_image()
    ensures { (l : ListingLists) → (s t : State) → Pictures l s → Pictures l t → Resembles s t }
{}

/// Law: each listing that an image may have pictures a state, and so the objects of one. So what is proved of every state that an image
/// pictures is proved of one at least.
pub fn law_pictured()
    ensures objects { (l : ListingLists) → IsImageListing l → (s : State) × IsState s × PicturesObjects l s }
    ensures whole { (l : ListingLists) → IsImageListing l → (s : State) × IsState s × Pictures l s }
{}

/// Law: the bytes of a listing that an image may have are its image and nothing more. So what is written of it is read as it
/// (`scan`, clause `listed`).
pub fn law_read_back()
    ensures { (l : ListingLists) → IsImageListing l → ImageOf (image_bytes l) l [] }
{}

/// Law: no image has more than 100,860,624 bytes. So each is below 134,217,728 bytes.
pub fn law_largest_image()
    ensures { (l : ListingLists) → IsImageListing l → length (image_bytes l) ≤ most_image_bytes }
{}

/// Law: bytes begin with one image at most. If they begin with the images of two listings, the listings are the same, and so is what follows.
pub fn law_one_listing()
    ensures { (bytes rest more : List ℕ) → (l m : ListingLists) → ImageOf bytes l rest → ImageOf bytes m more → (l ≡ m) × (rest ≡ more) }
{}

/// Law: bytes begin with an image or have exactly one fault, and not both. So of bytes `scan` has one answer to give, unless memory runs out.
pub fn law_one_image_fault()
    ensures either { (bytes : List ℕ) → AreBytes bytes → BeginWithImage bytes ⊎ ((f : ImageFault) × IsFault bytes f) }
    ensures not_both { (bytes : List ℕ) → (f : ImageFault) → IsFault bytes f → ¬ BeginWithImage bytes }
    ensures alone { (bytes : List ℕ) → (f other : ImageFault) → IsFault bytes f → IsFault bytes other → f ≡ other }
{}

/// Law: where a fault lies. It lies at an item, which is there whole unless the cause is Short. The bytes before it, taken alone, are only
/// too short, so nothing before it is wrong. The fault of an item stays whatever follows the item, unless the item is a reference to
/// nowhere: that is the first one among the words, in bytes of which all items passed.
pub fn law_fault_place()
    ensures item { (bytes : List ℕ) → (f : ImageFault) → IsFault bytes f → LiesAtItem bytes f }
    ensures before { (bytes : List ℕ) → (f : ImageFault) → IsFault bytes f → IsFault (take f.at bytes) (record { at = f.at; cause = Short }) }
    ensures stays { (bytes more : List ℕ) → (f : ImageFault) → IsFault bytes f → ¬ (f.cause ≡ Short) → ¬ (f.cause ≡ Link) → IsFault (take (f.at + 8) bytes ++ more) f }
    ensures link { (bytes : List ℕ) → (f : ImageFault) → IsFault bytes f → f.cause ≡ Link → LeadsNowhere bytes f }
{}
