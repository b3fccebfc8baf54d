//! The reader: from the bytes to what they list, or to the first fault.

ghost use Rattle.std.specs.Prelude.{◌≡◌, ℕ, ◌+◌, ◌*◌, ◌/◌, ◌^◌, ◌<◌, ◌≤◌, List, [], length, IfOk};
ghost use Rattle.bc_image.specs.Births.{HasPassed, ShowsHeads, first_twice};
ghost use Rattle.bc_image.specs.Bytes.{item_at};
ghost use Rattle.bc_image.specs.Numbered.{HasWords};
ghost use Rattle.bc_image.specs.Reading.{GivesItems, fault_at, items_of_all};
ghost use Rattle.bc_image.specs.declared.fault.ReadImage.TheVariants.{Fault};

use crate::births::first_double;
use crate::draft::Draft;
use crate::fault::{ImageCause, ImageFault, ReadImage};
use std::alloc::{AllocError, Global};
use std::mem;

/// An item of the bytes, by its number.
#[tactic(auto, unfolding(crate::specs::Bytes::item_at))]
pub(crate) fn item(bytes: &[u8], number: usize) -> u64
    requires { 8 * number + 8 ≤ length bytes.now }
    ensures { result ≡ item_at bytes.now number }
{
    let at = 8 * number;
    let mut word = [0; 8];
    word.copy_from_slice(&bytes[at..at + 8]);
    u64::from_be_bytes(word)
}

/// So many items that pass the tests of their own places, what they list, and the test that the next one fails, if they aren't all.
#[derive(Drop)]
pub(crate) struct Passed {
    pub draft: Draft,
    pub count: usize,
    pub fault: Option<ImageCause>,
}

/// Reads items until one fails the test of its place, or none is left to read.
fn pass_items(alloc: Global, bytes: &[u8]) -> Result<Passed, AllocError>
    requires { length bytes.now < 2 ^ 32 }
    ensures { IfOk result (HasPassed bytes.now) }
{
    let mut draft = Draft::new(alloc);
    let count = bytes.len() / 8;
    for number in 0..count {
        if draft.progress.is_finished() {
            return Ok(Passed {
                draft,
                count: number,
                fault: None,
            });
        }
        if let Some(cause) = draft.take(alloc, number as u32, item(bytes, number))? {
            return Ok(Passed {
                draft,
                count: number,
                fault: Some(cause),
            });
        }
    }
    if draft.progress.is_finished() {
        return Ok(Passed {
            draft,
            count,
            fault: None,
        });
    }
    Ok(Passed {
        draft,
        count,
        fault: Some(ImageCause::Short),
    })
}

/// The number of the first head whose birth stood already. The keys are of no use afterwards.
fn find_twice(alloc: Global, draft: &mut Draft) -> Result<Option<u32>, AllocError>
    requires heads { (hs : List (ℕ × ℕ)) × ShowsHeads draft.old hs }
    requires few { length draft.old.keys.items ≤ 2 ^ 28 }
    ensures twice { (hs : List (ℕ × ℕ)) → ShowsHeads draft.old hs → IfOk result (λ found. found ≡ first_twice [] hs) }
    ensures kept { draft.new ≡ record draft.old { keys = draft.new.keys } }
{
    let keys = mem::replace(&mut draft.keys, Vec::new(alloc));
    let place = first_double(alloc, keys)?;
    match place {
        Some(place) => Ok(Some(draft.heads[place])),
        None => Ok(None),
    }
}

/// A fault of the item of this number.
fn fault_of(number: u64, cause: ImageCause) -> ReadImage
    requires { number < 2 ^ 32 }
    ensures { result ≡ Fault (fault_at number cause) }
{
    ReadImage::Fault(ImageFault {
        at: 8 * number,
        cause,
    })
}

/// What the items list, but for references to nowhere, and how many items that are. Where an item doesn't pass, one before it may be
/// a head whose birth stood already, and then that is the first fault.
pub(crate) fn read_items(alloc: Global, bytes: &[u8]) -> Result<(Draft, usize), ReadImage>
    requires { length bytes.now < 2 ^ 32 }
    ensures items { GivesItems result (items_of_all bytes.now) }
    ensures words { IfOk result (λ r. HasWords bytes.now r.0 r.1) }
{
    let mut passed = pass_items(alloc, bytes)?;
    if let Some(number) = find_twice(alloc, &mut passed.draft)? {
        return Err(fault_of(u64::from(number), ImageCause::Twice));
    }
    if let Some(cause) = passed.fault {
        return Err(fault_of(passed.count as u64, cause));
    }
    Ok((passed.draft, passed.count))
}
