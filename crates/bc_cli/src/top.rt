//! The call that the program makes: the words, and then the command that they are.

ghost use Rattle.std.specs.Prelude.{◌≡◌, ◌≢◌, ℕ, ◌+◌, ◌<◌, ◌≤◌, ◌⊎◌, List, None, Some, IfSome, length, map};
ghost use Rattle.bc_image.specs.Faults.{IsFault};
ghost use Rattle.bc_image.specs.Images.{ImageOf};
ghost use Rattle.bc_image.specs.Listings.{ListingLists};
ghost use Rattle.bc_image.specs.Pictures.{Pictures};
ghost use Rattle.bc_image.specs.declared.fault.ImageFault.{ImageFault};
ghost use Rattle.bc_io.specs.Faults.{Rose};
ghost use Rattle.bc_io.specs.Told.{GivesAtMost, GivesExactly, HasRoom};
ghost use Rattle.bc_model.specs.Consistent.{IsState};
ghost use Rattle.bc_model.specs.Lists.{TraceLists};
ghost use Rattle.bc_model.specs.State.{State};
ghost use Rattle.bc_trace.specs.Faults.{Fault};
ghost use Rattle.bc_trace.specs.Lines.{Spells};
ghost use Rattle.bc_trace.specs.declared.fault.TraceFault.{TraceFault};
ghost use Rattle.bc_words.specs.Commands.{IsCommandOf};
ghost use Rattle.bc_words.specs.declared.command.Command.{Command as Asked};
ghost use Rattle.bc_words.specs.declared.command.Command.TheVariants.{Run, Churn, Save, Resume};
ghost use Rattle.bc_replay.specs.Accounts.{KeepsAccount};
ghost use Rattle.bc_replay.specs.Courses.{course_from, whole_course};
ghost use Rattle.bc_replay.specs.Endings.{CourseFits, FirstFit, FitsThroughout};
ghost use Rattle.bc_replay.specs.Outcomes.{Replayed, RanOutOfHeap, ReplayedInPart, ReplayedTo, IfStatusBadImage, IfBadTrace, IfStatusOutOfHeap, IfHeapless, IsOrNoMemory, HasRoomFor, longest_trace};
ghost use Rattle.bc_cli.specs.Churns.{ChurnsDone, ChurnsInFault, IsChurnEnding, summary};
ghost use Rattle.bc_cli.specs.Limits.{longest_of, longest_resumed, workers_of};
ghost use Rattle.bc_cli.specs.Resumes.{FaultyInput, GoesWith, HasRoomToResume, ImageFaulty, ReadsApart, Resumed, ResumedInPart, ResumedOutOfHeap, ResumedTo};
ghost use Rattle.bc_cli.specs.Saves.{HasFewerPhases, HasRoomToSave, Saved, SavedInPart, SaveRanOutOfHeap};

use crate::churn::churn;
use crate::resume::resume;
use crate::save::save;
use bc_engine::Pacing;
use bc_gates::{Gate, Host};
use bc_io::{Sink, Source};
use bc_replay::{Outcome, Status, read_trace, run_trace};
use bc_words::{Command, command_of};
use std::alloc::Global;
use std::thread::Threads;

/// Does what the words ask for. `run` reads a trace from the source, replays it, and writes the replies to the sink. `churn`
/// draws a trace, replays it, and writes how many replies of each kind there were. `save` reads a trace, replays its first phases, and
/// writes an image of the heap. `resume` reads an image and the trace after it, replays the phases that weren't done, and writes the
/// replies.
///
/// The words come without the program's name. The gate goes on to the engine. A sink that reports its
/// room must have room for all that the command may write.
pub fn top<R, S, K, G>(
    rt: &R,
    alloc: Global,
    words: &[&str],
    source: &mut S,
    sink: &mut K,
    gate: &G,
) -> Outcome
where
    R: Threads + Sync,
    S: Source,
    K: Sink,
    G: Gate + Sync,
    // `run` over a sink whose room is known: it has room for all that the command may write. Four times the bytes of the
    // trace and 40 are enough, or of the longest trace where nothing is known of the source (`law_output`).
    requires run { (workers : ℕ) → IsCommandOf (map (λ w. w.now) words.now) (Run workers) →
        HasRoomFor (S.left source.old) (K.room sink.old) }

    // `churn` over a sink whose room is known: it has room for the output. 200 bytes are enough (`law_output`).
    requires churn { (start ops workers : ℕ) → IsCommandOf (map (λ w. w.now) words.now) (Churn start ops workers) →
        HasRoom (K.room sink.old) (length (summary start ops)) }

    // `save` over a sink whose room is known: it has room for each image that may be written. 134,217,728 bytes are enough
    // (`law_output`).
    requires save { (phases workers : ℕ) → IsCommandOf (map (λ w. w.now) words.now) (Save phases workers) →
        HasRoomToSave (S.left source.old) (K.room sink.old) phases }

    // `resume` over a sink whose room is known: it has room for all that the command may write. Four times the bytes that are
    // read and 40 are enough, or of the most bytes where nothing is known of the source (`law_output`).
    requires resume { (workers : ℕ) → IsCommandOf (map (λ w. w.now) words.now) (Resume workers) →
        HasRoomToResume (S.left source.old) (K.room sink.old) }

    // The headline. `run`, status 0: the bytes that the source had are the text of a trace, none is left, and what was
    // written are exactly the replies to it of the heap that never frees, moves or pages. The heap that is handed back
    // stands for the state of that one at the end, its chunks are empty, and after each phase the need was at most the
    // number of superpages.
    ensures done { (workers : ℕ) → IsCommandOf (map (λ w. w.now) words.now) (Run workers) → result.status ≡ Status.Done →
        Replayed (S.left source.old) (S.left source.new) (K.held sink.old) (K.held sink.new) result.heap }

    // `churn`, status 0: what was written is how many of the plain heap's replies to the drawn trace are of each kind, and
    // `done`. The heap that is handed back stands for the state at the end, and its chunks are empty.
    ensures churn_done { (start ops workers : ℕ) → IsCommandOf (map (λ w. w.now) words.now) (Churn start ops workers) →
        result.status ≡ Status.Done → ChurnsDone start ops (K.held sink.old) (K.held sink.new) result.heap }

    // Status 2 comes only where the words are no command.
    ensures bad_words { result.status ≡ Status.BadWords →
        (command : Asked) → ¬ IsCommandOf (map (λ w. w.now) words.now) command }

    // Where the words are no command, status 2 comes, or memory runs out; source and sink are untouched.
    ensures refused { ((command : Asked) → ¬ IsCommandOf (map (λ w. w.now) words.now) command) →
        IsOrNoMemory result.status Status.BadWords × (source.new ≡ source.old) × (sink.new ≡ sink.old) }

    // Status 3 with a line and a cause: the whole input was read, this is the first fault of its trace, and nothing was written.
    // For `resume` the trace begins after the image, and its lines are counted from there.
    ensures bad_trace { (command : Asked) → IsCommandOf (map (λ w. w.now) words.now) command → IfBadTrace result.status (λ line cause.
        FaultyInput command (S.left source.old) (S.left source.new) line cause × (sink.new ≡ sink.old)) }

    // Status 3 for length: reads without a fault gave one byte more than the command's input may have, 16,777,217, or for `resume`
    // 150,994,945, and nothing was written.
    ensures too_long { (command : Asked) → IsCommandOf (map (λ w. w.now) words.now) command → result.status ≡ Status.TooLong →
        GivesExactly (S.left source.old) (S.left source.new) (longest_of command + 1) × (sink.new ≡ sink.old) }

    // At every other status at most as many bytes were read as the command's input may have.
    ensures short { (command : Asked) → IsCommandOf (map (λ w. w.now) words.now) command → result.status ≢ Status.TooLong →
        GivesAtMost (S.left source.old) (S.left source.new) (longest_of command) }

    // Status 4: the source's count of faults rose in this call, and nothing was written.
    ensures read_fault { result.status ≡ Status.ReadFault →
        Rose (S.faults source.old) (S.faults source.new) × (sink.new ≡ sink.old) }

    // `run`, status 5: the sink's count of faults rose in this call. A trace was read, and what was written are the whole
    // texts of some first phases and a prefix, and not all, of what comes next: the next phase's text, `done`, or what a run
    // whose heap is too small ends with. The heap that is handed back stands for the state there.
    ensures write_fault { (workers : ℕ) → IsCommandOf (map (λ w. w.now) words.now) (Run workers) →
        result.status ≡ Status.WriteFault → Rose (K.faults sink.old) (K.faults sink.new)
        × ReplayedInPart (S.left source.old) (S.left source.new) (K.held sink.old) (K.held sink.new) result.heap }

    // At every status but 4 the source's count of faults is as it was.
    ensures firm_source { result.status ≢ Status.ReadFault → S.faults source.new ≡ S.faults source.old }

    // At every status but 5 the sink's count of faults is as it was.
    ensures firm_sink { result.status ≢ Status.WriteFault → K.faults sink.new ≡ K.faults sink.old }

    // `run`, status 6 with a need: a trace was read, and what was written are the whole texts of the phases before some phase, the
    // replies of that phase up to some cut of its lanes, and the line of the need. The need is that of the plain heap's
    // state at the cut, and above the number of superpages. The heap that is handed back stands for that state.
    ensures out_of_heap { (workers : ℕ) → IsCommandOf (map (λ w. w.now) words.now) (Run workers) → IfStatusOutOfHeap result.status (λ need.
        RanOutOfHeap (S.left source.old) (S.left source.new) (K.held sink.old) (K.held sink.new) result.heap need) }

    // `run`, status 7, the one free answer: nothing was written, or a trace was read, and the whole texts of the phases before one
    // of its phases were written, and nothing else.
    ensures no_memory { (workers : ℕ) → IsCommandOf (map (λ w. w.now) words.now) (Run workers) → result.status ≡ Status.NoMemory → (sink.new ≡ sink.old)
        ⊎ ReplayedTo (S.left source.old) (S.left source.new) (K.held sink.old) (K.held sink.new) }

    // At statuses 2, 3, 4, 7, 8 and 9 no heap is handed back.
    ensures none { IfHeapless result.status (result.heap ≡ None) }

    // `churn` reads nothing, and ends with status 0, 5 or 7: no state of its run needs more than 27 of its 32 superpages.
    ensures churn_ending { (start ops workers : ℕ) → IsCommandOf (map (λ w. w.now) words.now) (Churn start ops workers) →
        IsChurnEnding result.status × (source.new ≡ source.old) }

    // `churn`, status 5: the sink's count of faults rose in this call, a prefix of the output and not all of it was written,
    // and the heap that is handed back stands for the state at the end.
    ensures churn_write_fault { (start ops workers : ℕ) → IsCommandOf (map (λ w. w.now) words.now) (Churn start ops workers) →
        result.status ≡ Status.WriteFault → Rose (K.faults sink.old) (K.faults sink.new)
        × ChurnsInFault start ops (K.held sink.old) (K.held sink.new) result.heap }

    // `churn`, status 7: nothing was written.
    ensures churn_no_memory { (start ops workers : ℕ) → IsCommandOf (map (λ w. w.now) words.now) (Churn start ops workers) →
        result.status ≡ Status.NoMemory → sink.new ≡ sink.old }

    // The heap that is handed back was opened for as many workers as the words ask for.
    ensures workers { (command : Asked) → IsCommandOf (map (λ w. w.now) words.now) command →
        IfSome result.heap (λ engine. engine.workers ≡ workers_of command) }

    // The heap that is handed back keeps its account: bookmarks and counters stand for what the pages that left refer to,
    // and free frames, nursery pages, withheld frames and resident pages add up to the trace's frames. None is withheld but where the heap
    // turned out too small.
    ensures account { IfSome result.heap KeepsAccount }

    // `run` over a trace within the limit: if in every phase, after every cut of its lanes, the need is at most the number
    // of superpages, and no fault is counted, it is done, or memory runs out.
    ensures complete { (workers : ℕ) (bytes : List ℕ) (t : TraceLists) → IsCommandOf (map (λ w. w.now) words.now) (Run workers) →
        S.left source.old ≡ Some bytes → length bytes ≤ longest_trace → Spells bytes t → FitsThroughout t →
        ¬ Rose (S.faults source.old) (S.faults source.new) → ¬ Rose (K.faults sink.old) (K.faults sink.new) →
        IsOrNoMemory result.status Status.Done }

    // `run` over an input within the limit that is no trace: if no read failed, status 3 comes with its first fault, or
    // memory runs out.
    ensures faulty { (workers : ℕ) (bytes : List ℕ) (f : TraceFault) → IsCommandOf (map (λ w. w.now) words.now) (Run workers) →
        S.left source.old ≡ Some bytes → length bytes ≤ longest_trace → Fault bytes f.line f.cause →
        ¬ Rose (S.faults source.old) (S.faults source.new) →
        IsOrNoMemory result.status (Status.BadTrace f.line f.cause) }

    // `run` over a longer input: if no read failed, status 3 comes for length, or memory runs out.
    ensures longer { (workers : ℕ) (bytes : List ℕ) → IsCommandOf (map (λ w. w.now) words.now) (Run workers) →
        S.left source.old ≡ Some bytes → longest_trace < length bytes →
        ¬ Rose (S.faults source.old) (S.faults source.new) → IsOrNoMemory result.status Status.TooLong }

    // `churn`: if no write failed, it is done, or memory runs out.
    ensures churn_complete { (start ops workers : ℕ) → IsCommandOf (map (λ w. w.now) words.now) (Churn start ops workers) →
        ¬ Rose (K.faults sink.old) (K.faults sink.new) → IsOrNoMemory result.status Status.Done }

    // `save`, status 0: the bytes that the source had are the text of a trace that has so many phases, none is left, and what was
    // written is an image of the trace's version and setup and so many phases done, which pictures the plain heap's state after
    // these. After each of them the need was at most the number of superpages. No heap is handed back.
    ensures save_done { (phases workers : ℕ) → IsCommandOf (map (λ w. w.now) words.now) (Save phases workers) →
        result.status ≡ Status.Done →
        Saved (S.left source.old) (S.left source.new) (K.held sink.old) (K.held sink.new) phases × (result.heap ≡ None) }

    // `save`, status 5: the sink's count of faults rose in this call. What was written is a prefix of such an image, and not all of
    // it. No heap is handed back.
    ensures save_write_fault { (phases workers : ℕ) → IsCommandOf (map (λ w. w.now) words.now) (Save phases workers) →
        result.status ≡ Status.WriteFault → Rose (K.faults sink.old) (K.faults sink.new)
        × SavedInPart (S.left source.old) (S.left source.new) (K.held sink.old) (K.held sink.new) phases × (result.heap ≡ None) }

    // `save`, status 6 with a need: a trace was read, and one of its first phases, so many, ended at a cut of its lanes since the heap
    // is too small. The need is that of the plain heap's state there, and above the number of superpages. The heap that is handed
    // back stands for that state, and nothing was written.
    ensures save_out_of_heap { (phases workers : ℕ) → IsCommandOf (map (λ w. w.now) words.now) (Save phases workers) →
        IfStatusOutOfHeap result.status (λ need.
        SaveRanOutOfHeap (S.left source.old) (S.left source.new) phases result.heap need × (sink.new ≡ sink.old)) }

    // `save`, status 7: nothing was written.
    ensures save_no_memory { (phases workers : ℕ) → IsCommandOf (map (λ w. w.now) words.now) (Save phases workers) →
        result.status ≡ Status.NoMemory → sink.new ≡ sink.old }

    // `save`, status 9: a trace was read that has fewer phases, and nothing was written.
    ensures save_mismatch { (phases workers : ℕ) → IsCommandOf (map (λ w. w.now) words.now) (Save phases workers) →
        result.status ≡ Status.Mismatch → HasFewerPhases (S.left source.old) (S.left source.new) phases × (sink.new ≡ sink.old) }

    // `resume`, status 0: the bytes that the source had are an image and after it the text of a trace, none is left, and they go
    // together: the image has the trace's version and setup, and no more phases done than the trace has. For every state that the
    // image pictures, what was written are exactly the replies that the plain heap gives from that state on to the phases that
    // weren't done, numbered as in the trace. The heap that is handed back stands for the plain heap's state at the end, its chunks
    // are empty, and after each of these phases the need was at most the number of superpages.
    ensures resume_done { (workers : ℕ) → IsCommandOf (map (λ w. w.now) words.now) (Resume workers) → result.status ≡ Status.Done →
        Resumed (S.left source.old) (S.left source.new) (K.held sink.old) (K.held sink.new) result.heap }

    // `resume`, status 5: as for `run`, from every state that the image pictures.
    ensures resume_write_fault { (workers : ℕ) → IsCommandOf (map (λ w. w.now) words.now) (Resume workers) →
        result.status ≡ Status.WriteFault → Rose (K.faults sink.old) (K.faults sink.new)
        × ResumedInPart (S.left source.old) (S.left source.new) (K.held sink.old) (K.held sink.new) result.heap }

    // `resume`, status 6 with a need: as for `run`, from every state that the image pictures.
    ensures resume_out_of_heap { (workers : ℕ) → IsCommandOf (map (λ w. w.now) words.now) (Resume workers) →
        IfStatusOutOfHeap result.status (λ need.
        ResumedOutOfHeap (S.left source.old) (S.left source.new) (K.held sink.old) (K.held sink.new) result.heap need) }

    // `resume`, status 7: nothing was written, or an image and a trace were read that go together, and the whole texts were written of
    // the phases from the first that wasn't done to one of the trace's phases, and nothing else.
    ensures resume_no_memory { (workers : ℕ) → IsCommandOf (map (λ w. w.now) words.now) (Resume workers) →
        result.status ≡ Status.NoMemory → (sink.new ≡ sink.old)
        ⊎ ResumedTo (S.left source.old) (S.left source.new) (K.held sink.old) (K.held sink.new) }

    // `resume`, status 9: an image and a trace were read that don't go together, and nothing was written.
    ensures resume_mismatch { (workers : ℕ) → IsCommandOf (map (λ w. w.now) words.now) (Resume workers) →
        result.status ≡ Status.Mismatch → ReadsApart (S.left source.old) (S.left source.new) × (sink.new ≡ sink.old) }

    // Status 8 with a place and a cause comes of `resume` alone: the whole input was read, it begins with no image, this is its first
    // fault, and nothing was written.
    ensures bad_image { IfStatusBadImage result.status (λ at cause.
        ((workers : ℕ) × IsCommandOf (map (λ w. w.now) words.now) (Resume workers))
        × ImageFaulty (S.left source.old) (S.left source.new) at cause × (sink.new ≡ sink.old)) }

    // Status 9 comes of `save` and `resume` alone.
    ensures mismatch { result.status ≡ Status.Mismatch →
        ((phases workers : ℕ) × IsCommandOf (map (λ w. w.now) words.now) (Save phases workers))
        ⊎ ((workers : ℕ) × IsCommandOf (map (λ w. w.now) words.now) (Resume workers)) }

    // `save` over a trace within the limit that has so many phases: if in each of these, after every cut of its lanes, the need is at
    // most the number of superpages, and no fault is counted, it is done, or memory runs out.
    ensures save_complete { (phases workers : ℕ) (bytes : List ℕ) (t : TraceLists) →
        IsCommandOf (map (λ w. w.now) words.now) (Save phases workers) →
        S.left source.old ≡ Some bytes → length bytes ≤ longest_trace → Spells bytes t → phases ≤ length t.phases →
        FirstFit (whole_course t) phases →
        ¬ Rose (S.faults source.old) (S.faults source.new) → ¬ Rose (K.faults sink.old) (K.faults sink.new) →
        IsOrNoMemory result.status Status.Done }

    // `save` over a trace within the limit that has fewer phases: if no read failed, status 9 comes, or memory runs out.
    ensures save_fewer { (phases workers : ℕ) (bytes : List ℕ) (t : TraceLists) →
        IsCommandOf (map (λ w. w.now) words.now) (Save phases workers) →
        S.left source.old ≡ Some bytes → length bytes ≤ longest_trace → Spells bytes t → length t.phases < phases →
        ¬ Rose (S.faults source.old) (S.faults source.new) → IsOrNoMemory result.status Status.Mismatch }

    // `save` over an input within the limit that is no trace: if no read failed, status 3 comes with its first fault, or memory runs
    // out.
    ensures save_faulty { (phases workers : ℕ) (bytes : List ℕ) (f : TraceFault) →
        IsCommandOf (map (λ w. w.now) words.now) (Save phases workers) →
        S.left source.old ≡ Some bytes → length bytes ≤ longest_trace → Fault bytes f.line f.cause →
        ¬ Rose (S.faults source.old) (S.faults source.new) →
        IsOrNoMemory result.status (Status.BadTrace f.line f.cause) }

    // `save` over a longer input: if no read failed, status 3 comes for length, or memory runs out.
    ensures save_longer { (phases workers : ℕ) (bytes : List ℕ) → IsCommandOf (map (λ w. w.now) words.now) (Save phases workers) →
        S.left source.old ≡ Some bytes → longest_trace < length bytes →
        ¬ Rose (S.faults source.old) (S.faults source.new) → IsOrNoMemory result.status Status.TooLong }

    // `resume` over an image and a trace within the limit that go together: if from a state that the image pictures, in every phase
    // that wasn't done, after every cut of its lanes, the need is at most the number of superpages, and no fault is counted, it is
    // done, or memory runs out.
    ensures resume_complete { (workers : ℕ) (bytes rest : List ℕ) (l : ListingLists) (t : TraceLists) (s : State) →
        IsCommandOf (map (λ w. w.now) words.now) (Resume workers) →
        S.left source.old ≡ Some bytes → length bytes ≤ longest_resumed → ImageOf bytes l rest → Spells rest t → GoesWith l t →
        IsState s → Pictures l s → CourseFits (course_from t s l.phases) →
        ¬ Rose (S.faults source.old) (S.faults source.new) → ¬ Rose (K.faults sink.old) (K.faults sink.new) →
        IsOrNoMemory result.status Status.Done }

    // `resume` over an image and a trace within the limit that don't go together: if no read failed, status 9 comes, or memory runs
    // out.
    ensures resume_apart { (workers : ℕ) (bytes rest : List ℕ) (l : ListingLists) (t : TraceLists) →
        IsCommandOf (map (λ w. w.now) words.now) (Resume workers) →
        S.left source.old ≡ Some bytes → length bytes ≤ longest_resumed → ImageOf bytes l rest → Spells rest t → ¬ GoesWith l t →
        ¬ Rose (S.faults source.old) (S.faults source.new) → IsOrNoMemory result.status Status.Mismatch }

    // `resume` over an image within the limit that no trace follows: if no read failed, status 3 comes with the first fault of what
    // follows, or memory runs out.
    ensures resume_faulty { (workers : ℕ) (bytes rest : List ℕ) (l : ListingLists) (f : TraceFault) →
        IsCommandOf (map (λ w. w.now) words.now) (Resume workers) →
        S.left source.old ≡ Some bytes → length bytes ≤ longest_resumed → ImageOf bytes l rest → Fault rest f.line f.cause →
        ¬ Rose (S.faults source.old) (S.faults source.new) →
        IsOrNoMemory result.status (Status.BadTrace f.line f.cause) }

    // `resume` over an input within the limit that begins with no image: if no read failed, status 8 comes with its first fault, or
    // memory runs out.
    ensures image_faulty { (workers : ℕ) (bytes : List ℕ) (f : ImageFault) →
        IsCommandOf (map (λ w. w.now) words.now) (Resume workers) →
        S.left source.old ≡ Some bytes → length bytes ≤ longest_resumed → IsFault bytes f →
        ¬ Rose (S.faults source.old) (S.faults source.new) →
        IsOrNoMemory result.status (Status.BadImage f.at f.cause) }

    // `resume` over a longer input: if no read failed, status 3 comes for length, or memory runs out.
    ensures resume_longer { (workers : ℕ) (bytes : List ℕ) → IsCommandOf (map (λ w. w.now) words.now) (Resume workers) →
        S.left source.old ≡ Some bytes → longest_resumed < length bytes →
        ¬ Rose (S.faults source.old) (S.faults source.new) → IsOrNoMemory result.status Status.TooLong }
{
    let Ok(found) = command_of(alloc, words) else {
        return Outcome::without_heap(Status::NoMemory);
    };
    let host = Host {
        threads: rt,
        alloc,
        gate,
    };
    match found {
        Some(Command::Run { workers }) => match read_trace(alloc, source) {
            Ok(trace) => run_trace(&host, &trace, workers, Pacing::Learned, sink),
            Err(status) => Outcome::without_heap(status),
        },
        Some(
            Command::Churn {
                start,
                ops,
                workers,
            },
        ) => churn(&host, start, ops, workers, sink),
        Some(Command::Save { phases, workers }) => save(&host, phases, workers, source, sink),
        Some(Command::Resume { workers }) => resume(&host, workers, source, sink),
        None => Outcome::without_heap(Status::BadWords),
    }
}
