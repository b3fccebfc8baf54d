//! What the definitions say together. The functions do nothing: their contracts are the laws.

ghost use Rattle.std.specs.Prelude.{◌≡◌, ℕ, ◌+◌, ◌*◌, ◌^◌, ◌<◌, ◌≤◌, ◌++◌, List, Option, Some, length};
ghost use Rattle.bc_engine.specs.Engines.{EngineView};
ghost use Rattle.bc_image.specs.Images.{image_bytes};
ghost use Rattle.bc_image.specs.ImageSizes.{most_image_bytes};
ghost use Rattle.bc_image.specs.Listings.{ListingLists};
ghost use Rattle.bc_io.specs.Told.{HeldGrows};
ghost use Rattle.bc_model.specs.Lists.{TraceLists};
ghost use Rattle.bc_model.specs.Run as runs;
ghost use Rattle.bc_trace.specs.Lines.{Spells};
ghost use Rattle.bc_trace.specs.Replies.{out_of_heap_text};
ghost use Rattle.bc_replay.specs.Courses.{phase_at, before, after_cut, course_from, replies_of_cut, final_state, whole_course};
ghost use Rattle.bc_replay.specs.Endings.{NeedsMore};
ghost use Rattle.bc_replay.specs.Outcomes.{HasRoomFor, longest_trace};
ghost use Rattle.bc_replay.specs.Output.{whole_text, cut_text, texts_before};
ghost use Rattle.bc_cli.specs.Limits.{longest_resumed};
ghost use Rattle.bc_cli.specs.Churns.{summary};
ghost use Rattle.bc_cli.specs.Resumes.{HasRoomToResume, Resumed};
ghost use Rattle.bc_cli.specs.Saves.{HasRoomToSave, IsSaved};

/// A run that is done writes at most four times as many bytes as its trace has, and one whose heap is too small
/// at most 40 more. So a sink with room for as many meets the condition of `top`; whatever the source has, one with that room for the
/// longest trace does. The same holds of `resume` and the bytes of its image and trace. What `churn` writes is at most 200 bytes long, and
/// what `save` writes no longer than the largest image.
pub fn law_output()
    ensures short { (bytes : List ℕ) (t : TraceLists) → length bytes ≤ longest_trace → Spells bytes t →
        length (whole_text (whole_course t)) ≤ 4 * length bytes }
    ensures cut_short { (bytes : List ℕ) (t : TraceLists) (k : ℕ) (cut : List ℕ) (need : ℕ) →
        length bytes ≤ longest_trace → Spells bytes t → NeedsMore (whole_course t) k cut need →
        length (cut_text (whole_course t) k cut ++ out_of_heap_text need) ≤ 4 * length bytes + 40 }
    ensures room { (bytes : List ℕ) (room : ℕ) → 4 * length bytes + 40 ≤ room →
        HasRoomFor (Some bytes) (Some room) }
    ensures ample { (left : Option (List ℕ)) (room : ℕ) → 4 * longest_trace + 40 ≤ room → HasRoomFor left (Some room) }
    ensures churn { (start ops : ℕ) → start < 2 ^ 63 → ops ≤ 100000 → length (summary start ops) ≤ 200 }
    ensures save { (left : Option (List ℕ)) (room count : ℕ) → most_image_bytes ≤ room → HasRoomToSave left (Some room) count }
    ensures resume { (bytes : List ℕ) (room : ℕ) → 4 * length bytes + 40 ≤ room → HasRoomToResume (Some bytes) (Some room) }
    ensures resume_ample { (left : Option (List ℕ)) (room : ℕ) → 4 * longest_resumed + 40 ≤ room → HasRoomToResume left (Some room) }
{}

/// The course of all phases of a trace is the run of the trace: its phases, the states before and inside of them and at the end, and the
/// replies up to a cut are those of the plain heap's run.
pub fn law_whole_course()
    ensures same_phase { (t : TraceLists) (k : ℕ) → phase_at (whole_course t) k ≡ runs.phase_at t k }
    ensures state_before { (t : TraceLists) (k : ℕ) → before (whole_course t) k ≡ runs.before t k }
    ensures state_at_cut { (t : TraceLists) (k : ℕ) (cut : List ℕ) → after_cut (whole_course t) k cut ≡ runs.after_cut t k cut }
    ensures replies_to_cut { (t : TraceLists) (k : ℕ) (cut : List ℕ) → replies_of_cut (whole_course t) k cut ≡ runs.replies_of_cut t k cut }
    ensures state_at_end { (t : TraceLists) → final_state (whole_course t) ≡ runs.final_state t }
{}

/// What `run` writes of a trace are the texts of its first phases, so many, and then what is written of the other phases from the state
/// after these. That is what `resume` writes where it is done, of the image that `save` wrote after these phases, and the trace.
pub fn law_resumed()
    ensures parts { (t : TraceLists) (k : ℕ) → k ≤ length t.phases →
        whole_text (whole_course t) ≡ texts_before (whole_course t) k ++ whole_text (course_from t (before (whole_course t) k) k) }
    ensures goes_on { (t : TraceLists) (k : ℕ) (l : ListingLists) (text : List ℕ) (left held held' : Option (List ℕ)) (heap : Option EngineView) →
        IsSaved t k l → Spells text t → Resumed (Some (image_bytes l ++ text)) left held held' heap →
        HeldGrows held held' (whole_text (course_from t (before (whole_course t) k) k)) }
{}
