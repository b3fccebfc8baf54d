//! What the definitions of `churn` say together: functions that do nothing, whose contracts are the laws.
ghost use Rattle.std.specs.Prelude.{◌≡◌, ◌↔◌, ◌+◌, ◌*◌, ◌<◌, ◌≤◌, ℕ, List, codes, length, slice_index, slice_index_or, sum, take};
ghost use Rattle.bc_model.specs.Need.{IsNeed};
ghost use Rattle.bc_model.specs.Lists.{TraceLists};
ghost use Rattle.bc_model.specs.Run.{after_cut, before, final_state, phase_at, replies_of};
ghost use Rattle.bc_model.specs.RunLengths.{all_ops_of, ops_of};
ghost use Rattle.bc_model.specs.WellFormed.{IsTrace, IsWithin};
ghost use Rattle.bc_model.specs.declared.operations.Op.{Op};
ghost use Rattle.bc_model.specs.declared.operations.Reply.{Reply};
ghost use Rattle.bc_trace.specs.declared.words.Verb.{Verb};
ghost use Rattle.bc_churn.specs.Churn.{churn_phase, churn_setup, churn_trace, holders_before, ops_in, phases_of};
ghost use Rattle.bc_churn.specs.Counts.{all_replies, kind_names, kind_of_reply, run_counts};
ghost use Rattle.bc_churn.specs.KindNames.{IsNamed};
ghost use Rattle.bc_churn.specs.Draws.{draw, drawn_op, number_after_op, verb_of_kind};
ghost use Rattle.bc_churn.specs.DrawnKinds.{first_kind, IsDrawn, last_kind};
ghost use Rattle.bc_trace.specs.Replies.{reply_word};

/// Law: each of the twenty kinds is one operation, and an operation is drawn by its kind and then its operands from left to
/// right, in one way.
pub fn law_kinds()
    ensures kinds { (k : ℕ) (v : Verb) → k < 20 → (verb_of_kind k ≡ v) ↔ IsWithin (first_kind v) (last_kind v) k }
    ensures drawn { (x : ℕ) → IsDrawn x (drawn_op x) (number_after_op x) }
    ensures alone { (x y : ℕ) (o : Op) → IsDrawn x o y → (o ≡ drawn_op x) × (y ≡ number_after_op x) }
    ensures below { (x m : ℕ) → 0 < m → draw x m < m }
{}

/// Law: the trace is well formed, of version 1, has a phase for each thousand operations of a lane or part of it, and in each the lanes begin
/// with clears of what they hold then by the run of the plain heap.
pub fn law_churn_trace()
    ensures formed { (start ops : ℕ) → IsTrace (churn_trace start ops) }
    ensures version { (start ops : ℕ) → (churn_trace start ops).version ≡ 1 }
    ensures setup { (start ops : ℕ) → (churn_trace start ops).setup ≡ churn_setup }
    ensures phases { (start ops : ℕ) → length (churn_trace start ops).phases ≡ phases_of ops }
    ensures phase { (start ops k : ℕ) → k < phases_of ops → phase_at (churn_trace start ops) k ≡ churn_phase start ops k }
    ensures holders { (start ops k : ℕ) → k ≤ phases_of ops → (before (churn_trace start ops) k).holders ≡ holders_before start ops k }
{}

/// Law: a phase has 32 clears beside the drawn operations of both lanes, so the trace has as many more than twice `ops`.
pub fn law_churn_ops()
    ensures phase { (start ops k : ℕ) → ops_of (churn_phase start ops k) ≡ 2 * ops_in ops k + 32 }
    ensures trace { (start ops : ℕ) → all_ops_of (churn_trace start ops) ≡ 2 * ops + 32 * phases_of ops }
{}

/// Law: the line of a reply begins with the name of its kind; the kind past those that are printed is `frozen`.
pub fn law_reply_kinds()
    ensures { (r : Reply) → IsNamed (reply_word r) (slice_index_or kind_names (kind_of_reply r) (codes "frozen")) }
{}

/// Law: each reply is counted once, and each operation of a run has one. In a run of version 1 none is `frozen`, so the counts
/// that are printed are all of the churn's.
pub fn law_counts()
    ensures replies { (phases : List (List (List Reply))) → sum (run_counts phases) ≡ length (all_replies phases) }
    ensures run { (t : TraceLists) → sum (run_counts (replies_of t)) ≡ all_ops_of t }
    ensures frozen { (t : TraceLists) → IsTrace t → t.version ≡ 1 → slice_index (run_counts (replies_of t)) (kind_of_reply Reply.Frozen) ≡ 0 }
    ensures churn { (start ops : ℕ) → sum (take (length kind_names) (run_counts (replies_of (churn_trace start ops)))) ≡ 2 * ops + 32 * phases_of ops }
{}

/// Law: no state of the run needs more than 27 superpages, of which the setup has 32.
pub fn law_churn_need()
    ensures cut { (start ops k n : ℕ) (cut : List ℕ) → IsNeed (after_cut (churn_trace start ops) k cut) n → n ≤ 27 }
    ensures whole { (start ops n : ℕ) → IsNeed (final_state (churn_trace start ops)) n → n ≤ 27 }
{}
