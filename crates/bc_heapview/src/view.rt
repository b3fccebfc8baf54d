//! The call that the program makes: the words, the image, and the answer.

ghost use Rattle.std.specs.Prelude.{◌≡◌, ◌≢◌, ◌⊎◌, ℕ, ◌+◌, ◌<◌, ◌≤◌, List, [], Some, IfOk, length, map};
ghost use Rattle.bc_io.specs.Faults.{Rose};
ghost use Rattle.bc_io.specs.Told.{GivesAtMost, GivesExactly, HasRoom, HeldGrows, IsPrefix};
ghost use Rattle.bc_image.specs.Images.{ImageOf, IsImageListing};
ghost use Rattle.bc_image.specs.Listings.{ListingLists};
ghost use Rattle.bc_image.specs.Pictures.{PicturesObjects};
ghost use Rattle.bc_image.specs.declared.fault.ImageFault.{ImageFault};
ghost use Rattle.bc_model.specs.State.{State};
ghost use Rattle.bc_heapview.specs.Questions.{IsQuestionOf};
ghost use Rattle.bc_heapview.specs.Texts.{steps_in};
ghost use Rattle.bc_heapview.specs.Views.{FaultyImage, HasViewRoom, IfBadImage, AnswersQuestion, IsAnswerAbout, IsAnsweredStatus, IsCountsAnswer, IsInputFault, IsPathAnswer, IsUnlessMemory, Viewed, ViewedInPart, longest_image};

use crate::input::read_image;
use crate::paths::path;
use crate::question::{Question, question_of};
use crate::status::ViewStatus;
use crate::steps::Path;
use crate::tally::{counts, superpages_in};
use crate::texts::{counts_room, path_room, put_counts, put_path};
use bc_image::Listing;
use bc_io::{Sink, Source, write_all};
use bc_model::Birth;
use std::alloc::{AllocError, Global};

/// Answers what the words ask: reads an image from the source, and writes to the sink what it counts of it, or the least way to
/// an object. The words come without the program's name. A sink whose room is known must have room for the answer.
pub fn view<S, K>(alloc: Global, words: &[&str], source: &mut S, sink: &mut K) -> ViewStatus
where
    S: Source,
    K: Sink,
    // A sink whose room is known has room for the answer to this question. For counts 43,034 bytes are enough, and for a way 49 and 39 for
    // each object of the image (`law_need`).
    requires room { (question : Question) → IsQuestionOf (map (λ w. w.now) words.now) question →
        HasViewRoom question (S.left source.old) (K.room sink.old) }

    // Status 0: the input is an image and nothing more, and what was written is the answer about whatever state the image
    // pictures.
    ensures done { (question : Question) → IsQuestionOf (map (λ w. w.now) words.now) question → result ≡ ViewStatus.Done →
        Viewed question (S.left source.old) (S.left source.new) (K.held sink.old) (K.held sink.new) }

    // Status 2 comes only where the words are no question.
    ensures bad_words { result ≡ ViewStatus.BadWords →
        (question : Question) → ¬ IsQuestionOf (map (λ w. w.now) words.now) question }

    // Where the words are no question, status 2 comes, or memory runs out; source and sink are untouched.
    ensures refused { ((question : Question) → ¬ IsQuestionOf (map (λ w. w.now) words.now) question) →
        IsUnlessMemory result ViewStatus.BadWords × (source.new ≡ source.old) × (sink.new ≡ sink.old) }

    // Status 8: the whole input was read, this is its first fault as an image, or the place where bytes follow one, and
    // nothing was written.
    ensures bad_image { IfBadImage result (λ at cause.
        FaultyImage (S.left source.old) (S.left source.new) at cause × (sink.new ≡ sink.old)) }

    // An input is too long where reads without a fault gave 134,217,729 bytes; nothing was written.
    ensures too_long { result ≡ ViewStatus.TooLong →
        GivesExactly (S.left source.old) (S.left source.new) (longest_image + 1) × (sink.new ≡ sink.old) }

    // At every other status at most 134,217,728 bytes were read.
    ensures short { result ≢ ViewStatus.TooLong →
        GivesAtMost (S.left source.old) (S.left source.new) longest_image }

    // Status 4: the source's count of faults rose in this call, and nothing was written.
    ensures read_fault { result ≡ ViewStatus.ReadFault →
        Rose (S.faults source.old) (S.faults source.new) × (sink.new ≡ sink.old) }

    // Status 5: the sink's count of faults rose in this call, and a prefix of the answer, and not all of it, was written.
    ensures write_fault { (question : Question) → IsQuestionOf (map (λ w. w.now) words.now) question →
        result ≡ ViewStatus.WriteFault → Rose (K.faults sink.old) (K.faults sink.new)
        × ViewedInPart question (S.left source.old) (S.left source.new) (K.held sink.old) (K.held sink.new) }

    // At every status but 4 the source's count of faults is as it was.
    ensures firm_source { result ≢ ViewStatus.ReadFault → S.faults source.new ≡ S.faults source.old }

    // At every status but 5 the sink's count of faults is as it was.
    ensures firm_sink { result ≢ ViewStatus.WriteFault → K.faults sink.new ≡ K.faults sink.old }

    // Status 7, the one free answer: nothing was written.
    ensures no_memory { result ≡ ViewStatus.NoMemory → sink.new ≡ sink.old }

    // An image within the limit with nothing after it: if no fault is counted, the view is done, or memory runs out.
    ensures complete { (question : Question) (bytes : List ℕ) (l : ListingLists) → IsQuestionOf (map (λ w. w.now) words.now) question →
        S.left source.old ≡ Some bytes → length bytes ≤ longest_image → ImageOf bytes l [] →
        ¬ Rose (S.faults source.old) (S.faults source.new) → ¬ Rose (K.faults sink.old) (K.faults sink.new) →
        IsUnlessMemory result ViewStatus.Done }

    // An input within the limit that is no image, or goes on after one: if no read failed, status 8 comes with its first
    // fault, or memory runs out.
    ensures faulty { (question : Question) (bytes : List ℕ) (f : ImageFault) → IsQuestionOf (map (λ w. w.now) words.now) question →
        S.left source.old ≡ Some bytes → length bytes ≤ longest_image → IsInputFault bytes f →
        ¬ Rose (S.faults source.old) (S.faults source.new) →
        IsUnlessMemory result (ViewStatus.BadImage f.at f.cause) }

    // A longer input: if no read failed, it is too long, or memory runs out.
    ensures longer { (question : Question) (bytes : List ℕ) → IsQuestionOf (map (λ w. w.now) words.now) question →
        S.left source.old ≡ Some bytes → longest_image < length bytes →
        ¬ Rose (S.faults source.old) (S.faults source.new) → IsUnlessMemory result ViewStatus.TooLong }
{
    let Ok(found) = question_of(alloc, words) else {
        return ViewStatus::NoMemory;
    };
    match found {
        Some(question) => match read_image(alloc, source) {
            Ok(listing) => answer_to(alloc, &listing, question, sink),
            Err(status) => status,
        },
        None => ViewStatus::BadWords,
    }
}

/// Writes the answer about a listing.
fn answer_to<K: Sink>(
    alloc: Global,
    listing: &Listing,
    question: Question,
    sink: &mut K,
) -> ViewStatus
    requires listing { IsImageListing listing.now }
    requires room { (text : List ℕ) → IsAnswerAbout listing.now question text → HasRoom (K.room sink.old) (length text) }
    ensures ending { IsAnsweredStatus result }
    ensures done { result ≡ ViewStatus.Done → (text : List ℕ) × IsAnswerAbout listing.now question text
        × HeldGrows (K.held sink.old) (K.held sink.new) text }
    ensures write_fault { result ≡ ViewStatus.WriteFault → Rose (K.faults sink.old) (K.faults sink.new)
        × ((text : List ℕ) × IsAnswerAbout listing.now question text
        × ((front : List ℕ) × IsPrefix front text × (length front < length text) × HeldGrows (K.held sink.old) (K.held sink.new) front)) }
    ensures firm { result ≢ ViewStatus.WriteFault → K.faults sink.new ≡ K.faults sink.old }
    ensures no_memory { result ≡ ViewStatus.NoMemory → sink.new ≡ sink.old }
{
    let Ok(text) = answer(alloc, listing, question) else {
        return ViewStatus::NoMemory;
    };
    put_answer(&text, sink)
}

/// Writes an answer, for which there is room. It takes no memory.
fn put_answer<K: Sink>(text: &[u8], sink: &mut K) -> ViewStatus
    requires room { HasRoom (K.room sink.old) (length text.now) }
    ensures ending { (result ≡ ViewStatus.Done) ⊎ (result ≡ ViewStatus.WriteFault) }
    ensures done { result ≡ ViewStatus.Done → HeldGrows (K.held sink.old) (K.held sink.new) text.now }
    ensures write_fault { result ≡ ViewStatus.WriteFault → Rose (K.faults sink.old) (K.faults sink.new)
        × ((front : List ℕ) × IsPrefix front text.now × (length front < length text.now) × HeldGrows (K.held sink.old) (K.held sink.new) front) }
    ensures firm { result ≢ ViewStatus.WriteFault → K.faults sink.new ≡ K.faults sink.old }
{
    match write_all(sink, text) {
        Ok(()) => ViewStatus::Done,
        Err(_) => ViewStatus::WriteFault,
    }
}

/// The text of the answer about a listing.
fn answer(alloc: Global, listing: &Listing, question: Question) -> Result<Vec<u8>, AllocError>
    requires listing { IsImageListing listing.now }
    ensures answer { (s : State) → PicturesObjects listing.now s → IfOk result (λ text. AnswersQuestion s question text.items) }
{
    match question {
        Question::Counts => counts_answer(alloc, listing),
        Question::Path { birth } => path_answer(alloc, listing, birth),
    }
}

/// The lines of what is counted.
fn counts_answer(alloc: Global, listing: &Listing) -> Result<Vec<u8>, AllocError>
    requires listing { IsImageListing listing.now }
    ensures answer { (s : State) → PicturesObjects listing.now s → IfOk result (λ text. IsCountsAnswer s text.items) }
{
    let counts = counts(alloc, listing)?;
    let need = superpages_in(&counts);
    let mut text = counts_room(alloc, counts.len())?;
    put_counts(&mut text, &counts, need);
    Ok(text)
}

/// The lines of the least way to an object.
fn path_answer(alloc: Global, listing: &Listing, birth: Birth) -> Result<Vec<u8>, AllocError>
    requires listing { IsImageListing listing.now }
    ensures answer { (s : State) → PicturesObjects listing.now s → IfOk result (λ text. IsPathAnswer s birth text.items) }
{
    let found = path(alloc, listing, birth)?;
    let mut text = path_room(alloc, fields_of(&found))?;
    put_path(&mut text, &found);
    Ok(text)
}

/// How many fields a way has.
fn fields_of(path: &Option<Path>) -> usize
    ensures { result ≡ steps_in path.now }
{
    match path {
        Some(path) => path.steps.len(),
        None => 0,
    }
}
