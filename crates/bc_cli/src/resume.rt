//! `resume`: an image is read and the trace after it, and the phases of the trace are replayed that weren't done.

ghost use Rattle.std.specs.Prelude.{◌≡◌, ◌≢◌, ◌⊎◌, ℕ, ◌+◌, ◌^◌, ◌<◌, ◌≤◌, List, Some, None, Err, length, IfErr, IfOk, IfSome, IsErrAnd, MatchResult, true, false};
ghost use Rattle.bc_image.specs.Faults.{IsFault};
ghost use Rattle.bc_image.specs.Images.{ImageOf, IsImageListing};
ghost use Rattle.bc_image.specs.Listings.{ListingLists};
ghost use Rattle.bc_image.specs.Pictures.{Pictures};
ghost use Rattle.bc_image.specs.declared.fault.ImageFault.{ImageFault};
ghost use Rattle.bc_io.specs.Faults.{Rose};
ghost use Rattle.bc_io.specs.Told.{GivesAtMost, GivesExactly};
ghost use Rattle.bc_model.specs.Consistent.{IsState};
ghost use Rattle.bc_model.specs.Lists.{TraceLists};
ghost use Rattle.bc_model.specs.RunLengths.{all_ops_of};
ghost use Rattle.bc_model.specs.State.{State};
ghost use Rattle.bc_model.specs.WellFormed.{IsTrace};
ghost use Rattle.bc_trace.specs.Faults.{Fault};
ghost use Rattle.bc_trace.specs.Lines.{Spells};
ghost use Rattle.bc_trace.specs.declared.fault.TraceFault.{TraceFault};
ghost use Rattle.bc_replay.specs.Accounts.{KeepsAccount};
ghost use Rattle.bc_replay.specs.Courses.{course_from};
ghost use Rattle.bc_replay.specs.Endings.{CourseFits, EndsDone, EndsInFault, EndsOutOfHeap, HasRunRoom, StopsBefore};
ghost use Rattle.bc_replay.specs.Outcomes.{IfStatusBadImage, IfBadTrace, IfHeapless, IfStatusOutOfHeap, IsOrNoMemory};
ghost use Rattle.bc_replay.specs.PartEndings.{IsEnding};
ghost use Rattle.bc_cli.specs.Limits.{longest_resumed};
ghost use Rattle.bc_cli.specs.Parsing.{IsParsed, IsUnparsed};
ghost use Rattle.bc_cli.specs.PartEndings.{IsResumeStatus, IsUnresumedStatus};
ghost use Rattle.bc_cli.specs.Resumes.{FaultyAfterImage, GoesWith, HasRoomToResume, ImageFaulty, OfEachCourse, ReadAsResumed, ReadsApart, Resumed, ResumedInPart, ResumedOutOfHeap, ResumedTo};

use bc_gates::{Gate, Host};
use bc_image::{Listing, law_pictured, scan};
use bc_io::{Sink, Source, read_all};
use bc_model::Trace;
use bc_replay::{Outcome, Status, replay_on};
use bc_saving::adopt_listing;
use bc_trace::read;
use std::alloc::Global;
use std::thread::Threads;

/// The most bytes that an image and the trace after it may have.
pub const LONGEST_RESUMED: usize = 150_994_944;

/// What `resume` goes on with: an image, and the trace after it.
#[derive(Drop)]
pub(crate) struct Resumable {
    pub(crate) listing: Listing,
    pub(crate) trace: Trace,
}

/// Reads an image and the trace after it from the source, replays the phases of the trace that the image says aren't done, and writes
/// their texts to the sink.
pub(crate) fn resume<R, S, K, G>(
    host: &Host<R, G>,
    workers: u32,
    source: &mut S,
    sink: &mut K,
) -> Outcome
where
    R: Threads + Sync,
    S: Source,
    K: Sink,
    G: Gate + Sync,
    requires workers { (1 ≤ workers) × (workers ≤ 16) }
    requires room { HasRoomToResume (S.left source.old) (K.room sink.old) }
    ensures status { IsResumeStatus result.status }
    ensures done { result.status ≡ Status.Done →
        Resumed (S.left source.old) (S.left source.new) (K.held sink.old) (K.held sink.new) result.heap }
    ensures write_fault { result.status ≡ Status.WriteFault → Rose (K.faults sink.old) (K.faults sink.new)
        × ResumedInPart (S.left source.old) (S.left source.new) (K.held sink.old) (K.held sink.new) result.heap }
    ensures out_of_heap { IfStatusOutOfHeap result.status (λ need.
        ResumedOutOfHeap (S.left source.old) (S.left source.new) (K.held sink.old) (K.held sink.new) result.heap need) }
    ensures no_memory { result.status ≡ Status.NoMemory → (sink.new ≡ sink.old)
        ⊎ ResumedTo (S.left source.old) (S.left source.new) (K.held sink.old) (K.held sink.new) }
    ensures mismatch { result.status ≡ Status.Mismatch →
        ReadsApart (S.left source.old) (S.left source.new) × (sink.new ≡ sink.old) }
    ensures bad_image { IfStatusBadImage result.status (λ at cause.
        ImageFaulty (S.left source.old) (S.left source.new) at cause × (sink.new ≡ sink.old)) }
    ensures bad_trace { IfBadTrace result.status (λ line cause.
        FaultyAfterImage (S.left source.old) (S.left source.new) line cause × (sink.new ≡ sink.old)) }
    ensures too_long { result.status ≡ Status.TooLong →
        GivesExactly (S.left source.old) (S.left source.new) (longest_resumed + 1) × (sink.new ≡ sink.old) }
    ensures short { result.status ≢ Status.TooLong → GivesAtMost (S.left source.old) (S.left source.new) longest_resumed }
    ensures read_fault { result.status ≡ Status.ReadFault →
        Rose (S.faults source.old) (S.faults source.new) × (sink.new ≡ sink.old) }
    ensures firm_source { result.status ≢ Status.ReadFault → S.faults source.new ≡ S.faults source.old }
    ensures firm_sink { result.status ≢ Status.WriteFault → K.faults sink.new ≡ K.faults sink.old }
    ensures none { IfHeapless result.status (result.heap ≡ None) }
    ensures workers { IfSome result.heap (λ engine. engine.workers ≡ workers) }
    ensures account { IfSome result.heap KeepsAccount }

    // Where no fault is counted, the bytes alone decide, unless memory runs out.
    ensures complete { (bytes rest : List ℕ) (l : ListingLists) (t : TraceLists) (s : State) →
        S.left source.old ≡ Some bytes → length bytes ≤ longest_resumed → ImageOf bytes l rest → Spells rest t → GoesWith l t →
        IsState s → Pictures l s → CourseFits (course_from t s l.phases) → ¬ Rose (S.faults source.old) (S.faults source.new) →
        ¬ Rose (K.faults sink.old) (K.faults sink.new) → IsOrNoMemory result.status Status.Done }
    ensures apart { (bytes rest : List ℕ) (l : ListingLists) (t : TraceLists) →
        S.left source.old ≡ Some bytes → length bytes ≤ longest_resumed → ImageOf bytes l rest → Spells rest t → ¬ GoesWith l t →
        ¬ Rose (S.faults source.old) (S.faults source.new) → IsOrNoMemory result.status Status.Mismatch }
    ensures faulty { (bytes rest : List ℕ) (l : ListingLists) (f : TraceFault) →
        S.left source.old ≡ Some bytes → length bytes ≤ longest_resumed → ImageOf bytes l rest → Fault rest f.line f.cause →
        ¬ Rose (S.faults source.old) (S.faults source.new) →
        IsOrNoMemory result.status (Status.BadTrace f.line f.cause) }
    ensures image_faulty { (bytes : List ℕ) (f : ImageFault) →
        S.left source.old ≡ Some bytes → length bytes ≤ longest_resumed → IsFault bytes f →
        ¬ Rose (S.faults source.old) (S.faults source.new) →
        IsOrNoMemory result.status (Status.BadImage f.at f.cause) }
    ensures longer { (bytes : List ℕ) →
        S.left source.old ≡ Some bytes → longest_resumed < length bytes →
        ¬ Rose (S.faults source.old) (S.faults source.new) → IsOrNoMemory result.status Status.TooLong }
{
    match read_resumable(host.alloc, source) {
        Ok(found) => {
            let Resumable { listing, trace } = found;
            resume_trace(host, listing, &trace, workers, sink)
        }
        Err(status) => Outcome::without_heap(status),
    }
}

/// Reads the source to its end, and its bytes as an image and a trace after it that goes with it. The error is the status of a run that ends
/// here.
fn read_resumable<S: Source>(alloc: Global, source: &mut S) -> Result<Resumable, Status>
    ensures found { IfOk result (λ found. ReadAsResumed (S.left source.old) (S.left source.new) found.listing found.trace
        × GoesWith found.listing found.trace) }
    ensures few { IfOk result (λ found. all_ops_of found.trace + length found.trace.phases ≤ longest_resumed) }

    // No refusal comes without its cause.
    ensures refusal { IfErr result IsUnresumedStatus }
    ensures bad_image { IfErr result (λ status. IfStatusBadImage status (ImageFaulty (S.left source.old) (S.left source.new))) }
    ensures bad_trace { IfErr result (λ status. IfBadTrace status (FaultyAfterImage (S.left source.old) (S.left source.new))) }
    ensures mismatch { result ≡ Err Status.Mismatch → ReadsApart (S.left source.old) (S.left source.new) }
    ensures too_long { result ≡ Err Status.TooLong → GivesExactly (S.left source.old) (S.left source.new) (longest_resumed + 1) }
    ensures short { result ≢ Err Status.TooLong → GivesAtMost (S.left source.old) (S.left source.new) longest_resumed }
    ensures read_fault { result ≡ Err Status.ReadFault → Rose (S.faults source.old) (S.faults source.new) }
    ensures firm { result ≢ Err Status.ReadFault → S.faults source.new ≡ S.faults source.old }

    // Where no fault is counted, the bytes alone decide, unless memory runs out.
    ensures complete { (bytes rest : List ℕ) (l : ListingLists) (t : TraceLists) →
        S.left source.old ≡ Some bytes → length bytes ≤ longest_resumed → ImageOf bytes l rest → Spells rest t → GoesWith l t →
        ¬ Rose (S.faults source.old) (S.faults source.new) →
        MatchResult result (λ found. (found.listing ≡ l) × (found.trace ≡ t)) (λ status. status ≡ Status.NoMemory) }
    ensures apart { (bytes rest : List ℕ) (l : ListingLists) (t : TraceLists) →
        S.left source.old ≡ Some bytes → length bytes ≤ longest_resumed → ImageOf bytes l rest → Spells rest t → ¬ GoesWith l t →
        ¬ Rose (S.faults source.old) (S.faults source.new) →
        IsErrAnd result (λ status. IsOrNoMemory status Status.Mismatch) }
    ensures faulty { (bytes rest : List ℕ) (l : ListingLists) (f : TraceFault) →
        S.left source.old ≡ Some bytes → length bytes ≤ longest_resumed → ImageOf bytes l rest → Fault rest f.line f.cause →
        ¬ Rose (S.faults source.old) (S.faults source.new) →
        IsErrAnd result (λ status. IsOrNoMemory status (Status.BadTrace f.line f.cause)) }
    ensures image_faulty { (bytes : List ℕ) (f : ImageFault) →
        S.left source.old ≡ Some bytes → length bytes ≤ longest_resumed → IsFault bytes f →
        ¬ Rose (S.faults source.old) (S.faults source.new) →
        IsErrAnd result (λ status. IsOrNoMemory status (Status.BadImage f.at f.cause)) }
    ensures longer { (bytes : List ℕ) →
        S.left source.old ≡ Some bytes → longest_resumed < length bytes →
        ¬ Rose (S.faults source.old) (S.faults source.new) →
        IsErrAnd result (λ status. IsOrNoMemory status Status.TooLong) }
{
    let bytes = read_all(alloc, source, LONGEST_RESUMED)?;
    parse(alloc, &bytes)
}

/// The bytes as an image and a trace after it that goes with it. The error is the status of a run that ends here.
fn parse(alloc: Global, bytes: &[u8]) -> Result<Resumable, Status>
    requires { length bytes.now ≤ longest_resumed }
    ensures found { IfOk result (λ found. IsParsed bytes.now found.listing found.trace × GoesWith found.listing found.trace) }
    ensures few { IfOk result (λ found. all_ops_of found.trace + length found.trace.phases ≤ longest_resumed) }
    ensures refusal { IfErr result (IsUnparsed bytes.now) }
    ensures complete { (rest : List ℕ) (l : ListingLists) (t : TraceLists) → ImageOf bytes.now l rest → Spells rest t → GoesWith l t →
        MatchResult result (λ found. (found.listing ≡ l) × (found.trace ≡ t)) (λ status. status ≡ Status.NoMemory) }
    ensures apart { (rest : List ℕ) (l : ListingLists) (t : TraceLists) → ImageOf bytes.now l rest → Spells rest t → ¬ GoesWith l t →
        IsErrAnd result (λ status. IsOrNoMemory status Status.Mismatch) }
    ensures faulty { (rest : List ℕ) (l : ListingLists) (f : TraceFault) → ImageOf bytes.now l rest → Fault rest f.line f.cause →
        IsErrAnd result (λ status. IsOrNoMemory status (Status.BadTrace f.line f.cause)) }
    ensures image_faulty { (f : ImageFault) → IsFault bytes.now f →
        IsErrAnd result (λ status. IsOrNoMemory status (Status.BadImage f.at f.cause)) }
{
    let (listing, used) = scan(alloc, bytes)?;
    let trace = read(alloc, &bytes[used..])?;
    if !goes_with(&listing, &trace) {
        return Err(Status::Mismatch);
    }
    Ok(Resumable { listing, trace })
}

/// Whether the image goes with the trace. An image of another version doesn't, also where it has no frozen domain.
fn goes_with(listing: &Listing, trace: &Trace) -> bool
    ensures yes { result ≡ true → GoesWith listing.now trace.now }
    ensures no { result ≡ false → ¬ GoesWith listing.now trace.now }
{
    listing.version == trace.version
        && listing.setup == trace.setup
        && listing.phases as usize <= trace.phases.len()
}

/// How many phases are done, by the image.
fn phases_done(listing: &Listing) -> u32
    ensures { result ≡ listing.now.phases }
{
    listing.phases
}

/// Replays the phases of a trace that the image says aren't done, on the heap that the image lists. The list of
/// the image's objects is let go before.
fn resume_trace<R, K, G>(
    host: &Host<R, G>,
    listing: Listing,
    trace: &Trace,
    workers: u32,
    sink: &mut K,
) -> Outcome
where
    R: Threads + Sync,
    K: Sink,
    G: Gate + Sync,
    requires image { IsImageListing listing }
    requires trace { IsTrace trace.now }
    requires goes { GoesWith listing trace.now }
    requires few { all_ops_of trace.now + length trace.now.phases ≤ longest_resumed }
    requires workers { (1 ≤ workers) × (workers ≤ 16) }
    requires room { OfEachCourse listing trace.now (λ course. HasRunRoom (K.room sink.old) course) }
    ensures ending { IsEnding result.status }
    ensures done { result.status ≡ Status.Done →
        OfEachCourse listing trace.now (λ course. EndsDone course (K.held sink.old) (K.held sink.new) result.heap) }
    ensures write_fault { result.status ≡ Status.WriteFault → Rose (K.faults sink.old) (K.faults sink.new)
        × OfEachCourse listing trace.now (λ course. EndsInFault course (K.held sink.old) (K.held sink.new) result.heap) }
    ensures out_of_heap { IfStatusOutOfHeap result.status (λ need.
        OfEachCourse listing trace.now (λ course. EndsOutOfHeap course (K.held sink.old) (K.held sink.new) result.heap need)) }
    ensures no_memory { result.status ≡ Status.NoMemory → (sink.new ≡ sink.old)
        ⊎ OfEachCourse listing trace.now (λ course. StopsBefore course (K.held sink.old) (K.held sink.new)) }
    ensures firm { result.status ≢ Status.WriteFault → K.faults sink.new ≡ K.faults sink.old }
    ensures none { IfHeapless result.status (result.heap ≡ None) }
    ensures workers { IfSome result.heap (λ engine. engine.workers ≡ workers) }
    ensures account { IfSome result.heap KeepsAccount }
{
    law_pictured();
    let Ok(engine) = adopt_listing(host.alloc, &listing, workers) else {
        return Outcome::without_heap(Status::NoMemory);
    };
    let first = phases_done(&listing) as usize;
    drop(listing);
    replay_on(host, engine, trace, first, sink)
}
