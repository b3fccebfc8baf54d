//! From bytes to the image that they begin with.

ghost use Rattle.std.specs.Prelude.{◌≡◌, ℕ, ◌+◌, ◌*◌, ◌/◌, ◌^◌, ◌<◌, ◌≤◌, List, length, drop, IfOk, IfErr, MatchResult, IsErrAnd};
ghost use Rattle.bc_image.specs.Faults.{IsFault, TellsImageFault, IsImageFaultOrMemory};
ghost use Rattle.bc_image.specs.Images.{ImageOf, image_bytes};
ghost use Rattle.bc_image.specs.Listings.{ListingLists};
ghost use Rattle.bc_image.specs.declared.fault.ImageFault.{ImageFault};
ghost use Rattle.bc_image.specs.declared.fault.ReadImage.TheVariants.{NoMemory};

use crate::fault::{ImageCause, ImageFault, ReadImage};
use crate::linking::first_link;
use crate::listing::Listing;
use crate::reading::read_items;
use std::alloc::Global;

/// The listing whose image the bytes begin with, and how many bytes that is. Or the first fault.
pub fn scan(alloc: Global, bytes: &[u8]) -> Result<(Listing, usize), ReadImage>
    requires { length bytes.now < 2 ^ 32 }
    // What is answered is what the bytes begin with, and what they begin with is answered, unless memory runs out.
    ensures found { IfOk result (λ r. (r.1 ≤ length bytes.now) × ImageOf bytes.now r.0 (drop r.1 bytes.now)) }
    ensures listed { (l : ListingLists) → (rest : List ℕ) → ImageOf bytes.now l rest
        → MatchResult result (λ r. (r.0 ≡ l) × (r.1 ≡ length (image_bytes l))) (λ e. e ≡ NoMemory) }
    // A fault that is answered is the bytes' first one, and their first one is answered, unless memory runs out.
    ensures fault { IfErr result (TellsImageFault bytes.now) }
    ensures faulty { (f : ImageFault) → IsFault bytes.now f → IsErrAnd result (IsImageFaultOrMemory f) }
{
    let (draft, count) = read_items(alloc, bytes)?;
    if let Some(number) = first_link(alloc, &draft)? {
        return Err(ReadImage::Fault(ImageFault {
            at: 8 * number as u64,
            cause: ImageCause::Link,
        }));
    }
    let listing = Listing {
        version: draft.progress.version,
        setup: draft.progress.setup,
        phases: draft.progress.phases,
        holders: draft.holders,
        births: draft.births,
        roots: draft.roots,
        cells: draft.cells,
    };
    Ok((listing, 8 * count))
}
