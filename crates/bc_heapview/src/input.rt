//! Reading the input as an image.

ghost use Rattle.std.specs.Prelude.{◌≡◌, ◌≢◌, ℕ, ◌+◌, ◌<◌, ◌≤◌, List, [], Some, Err, length, IfOk, IfErr, IsErrAnd, MatchResult};
ghost use Rattle.bc_io.specs.Faults.{Rose};
ghost use Rattle.bc_io.specs.Told.{GivesAtMost, GivesExactly};
ghost use Rattle.bc_image.specs.Images.{ImageOf};
ghost use Rattle.bc_image.specs.Listings.{ListingLists};
ghost use Rattle.bc_image.specs.declared.fault.ImageFault.{ImageFault};
ghost use Rattle.bc_heapview.specs.Views.{ReadAsImage, FaultyImage, IfBadImage, IsInputFault, IsUnlessMemory, IsUnreadStatus, longest_image};

use crate::status::ViewStatus;
use bc_image::{ImageCause, Listing, scan};
use bc_io::{Source, read_all};
use std::alloc::Global;

/// The most bytes that an input may have.
pub const LONGEST_IMAGE: usize = 134_217_728;

/// Reads the source to its end, and its bytes as an image with nothing after it. The error is the status of a view that ends
/// here.
pub(crate) fn read_image<S: Source>(alloc: Global, source: &mut S) -> Result<Listing, ViewStatus>
    ensures found { IfOk result (ReadAsImage (S.left source.old) (S.left source.new)) }

    // No refusal comes without its cause.
    ensures refusal { IfErr result IsUnreadStatus }
    ensures bad_image { IfErr result (λ status.
        IfBadImage status (FaultyImage (S.left source.old) (S.left source.new))) }
    ensures too_long { result ≡ Err ViewStatus.TooLong →
        GivesExactly (S.left source.old) (S.left source.new) (longest_image + 1) }
    ensures short { result ≢ Err ViewStatus.TooLong →
        GivesAtMost (S.left source.old) (S.left source.new) longest_image }
    ensures read_fault { result ≡ Err ViewStatus.ReadFault → Rose (S.faults source.old) (S.faults source.new) }
    ensures firm { result ≢ Err ViewStatus.ReadFault → S.faults source.new ≡ S.faults source.old }

    // Where no fault is counted, the bytes alone decide, unless memory runs out.
    ensures spelled { (bytes : List ℕ) (l : ListingLists) →
        S.left source.old ≡ Some bytes → length bytes ≤ longest_image → ImageOf bytes l [] →
        ¬ Rose (S.faults source.old) (S.faults source.new) →
        MatchResult result (λ listing. listing ≡ l) (λ status. status ≡ ViewStatus.NoMemory) }
    ensures faulty { (bytes : List ℕ) (f : ImageFault) →
        S.left source.old ≡ Some bytes → length bytes ≤ longest_image → IsInputFault bytes f →
        ¬ Rose (S.faults source.old) (S.faults source.new) →
        IsErrAnd result (λ status. IsUnlessMemory status (ViewStatus.BadImage f.at f.cause)) }
    ensures longer { (bytes : List ℕ) →
        S.left source.old ≡ Some bytes → longest_image < length bytes →
        ¬ Rose (S.faults source.old) (S.faults source.new) →
        IsErrAnd result (λ status. IsUnlessMemory status ViewStatus.TooLong) }
{
    let bytes = read_all(alloc, source, LONGEST_IMAGE)?;
    let (listing, used) = scan(alloc, &bytes)?;
    if used < bytes.len() {
        return Err(ViewStatus::BadImage {
            at: used as u64,
            cause: ImageCause::Rest,
        });
    }
    Ok(listing)
}
