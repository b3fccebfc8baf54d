//! What the definitions say together: functions that do nothing, whose contracts are the laws.
ghost use Rattle.std.specs.List.{AllByRecursion, sum_by};
ghost use Rattle.std.specs.Prelude.{◌≡◌, ◌⊎◌, ◌↔◌, ◌+◌, ◌++◌, ◌<◌, ◌≤◌, ◌^◌, ◌∷◌, ℕ, List, length, take};
ghost use Rattle.bc_model.specs.Lists.{TraceLists, TurnLists};
ghost use Rattle.bc_model.specs.TurnLines.{budget_at};
ghost use Rattle.bc_model.specs.Run.{replies_of, replies_of_cut};
ghost use Rattle.bc_model.specs.RunLengths.{all_ops_of};
ghost use Rattle.bc_model.specs.WellFormed.{IsTrace};
ghost use Rattle.bc_model.specs.declared.operations.Reply.{Reply};
ghost use Rattle.bc_trace.specs.declared.fault.Cause.{Cause};
ghost use Rattle.bc_trace.specs.declared.grammar.Progress.{Progress};
ghost use Rattle.bc_trace.specs.declared.words.Keyword.{Keyword};
ghost use Rattle.bc_trace.specs.Balances.{withheld_by, returned_by};
ghost use Rattle.bc_trace.specs.Lines.{Line, turn_lines, trace_text, Spells};
ghost use Rattle.bc_trace.specs.Grammar.{start, KnowsWord, MayStand, after_all, Follow};
ghost use Rattle.bc_trace.specs.Fronts.{Begins, GoesOnWith};
ghost use Rattle.bc_trace.specs.Faults.{line_words, IsFormed, Fails, Fault};
ghost use Rattle.bc_trace.specs.Words.{name};
ghost use Rattle.bc_trace.specs.Replies.{reply_text, phase_text, phases_text, out_of_heap_text};
ghost use Rattle.bc_trace.specs.ReplyRanges.{FitsReply, FitsPhase, IsLastLine};

/// A text spells at most one trace.
pub fn law_one_trace()
    ensures { (bytes : List ℕ) (t u : TraceLists) → Spells bytes t → Spells bytes u → t ≡ u }
{}

/// A well-formed trace has exactly one text: `read` gives back what `write` gave.
pub fn law_one_text()
    ensures spelled { (t : TraceLists) → IsTrace t → Spells (trace_text t) t }
    ensures alone { (bytes : List ℕ) (t : TraceLists) → Spells bytes t → bytes ≡ trace_text t }
{}

/// A text is spelled by a trace or has exactly one fault, and not both.
pub fn law_one_fault()
    ensures either { (bytes : List ℕ) → ((t : TraceLists) × Spells bytes t) ⊎ ((line : ℕ) × (cause : Cause) × Fault bytes line cause) }
    ensures not_both { (bytes : List ℕ) (t : TraceLists) (line : ℕ) (cause : Cause) → Spells bytes t → ¬ Fault bytes line cause }
    ensures alone { (bytes : List ℕ) (line other : ℕ) (cause because : Cause) → Fault bytes line cause → Fault bytes other because → (line ≡ other) × (cause ≡ because) }
{}

/// Lines pass exactly where they are the first lines of some well-formed trace.
pub fn law_first_lines()
    ensures { (lines : List Line) → Follow start lines ↔ Begins lines }
{}

/// A word may follow lines that pass, and is one of their version's, exactly where some well-formed trace goes on with it.
pub fn law_next_word()
    ensures { (before : List Line) (w : Keyword) → Follow start before → ((KnowsWord (after_all start before).version w × MayStand (after_all start before) w) ↔ GoesOnWith before w) }
{}

/// In version 1, and before the first line was read, `freeze` is no word of the language.
pub fn law_first_version()
    ensures { (s : Progress) (line : List ℕ) (others : List (List ℕ)) → s.version < 2 → IsFormed line
        → line_words line ≡ name Keyword.Freeze ∷ others → Fails s line Cause.Word }
{}

/// Before version 3 an operand of a turn with a sign, a plus or a minus, is a hint that is no number, and no line of a trace
/// withholds frames.
pub fn law_before_signs()
    ensures number { (s : Progress) (line digits : List ℕ) (sign : ℕ) (hints : List (List ℕ)) → s.version < 3 → IsFormed line → MayStand s Keyword.Turn
        → (sign ≡ 43) ⊎ (sign ≡ 45) → line_words line ≡ name Keyword.Turn ∷ ((sign ∷ digits) ∷ hints) → length hints < 64 → Fails s line Cause.Number }
    ensures hint { (s : Progress) (line digits : List ℕ) (sign : ℕ) (hints : List (List ℕ)) → s.version < 3 → IsFormed line → MayStand s Keyword.Turn
        → (sign ≡ 43) ⊎ (sign ≡ 45) → line_words line ≡ name Keyword.Turn ∷ ((sign ∷ digits) ∷ hints) → 64 ≤ length hints → Fails s line Cause.Form }
    ensures none { (bytes : List ℕ) (t : TraceLists) → Spells bytes t → t.version < 3 → AllByRecursion (λ p. AllByRecursion (λ line. line.withheld ≡ 0) p.turns) t.phases }
{}

/// In a turn as many frames are withheld as the lines of its phase up to the turn's withhold, less what they return.
pub fn law_withheld()
    ensures { (lines : List TurnLists) (i : ℕ) → i < length lines
        → sum_by withheld_by (take (i + 1) (turn_lines 0 lines)) ≡ budget_at lines i + sum_by returned_by (take (i + 1) (turn_lines 0 lines)) }
{}

/// A line shows its reply, the text of a phase the replies of each lane, a whole output those of each phase and how it ends,
/// and the line of the need the number, where the numbers fit a `u64`.
pub fn law_one_reply()
    ensures line { (r q : Reply) → FitsReply r → FitsReply q → reply_text r ≡ reply_text q → r ≡ q }
    ensures phase { (k : ℕ) (ps qs : List (List Reply)) → FitsPhase ps → FitsPhase qs → phase_text k ps ≡ phase_text k qs → ps ≡ qs }
    ensures output { (k : ℕ) (ps qs : List (List (List Reply))) (x y : List ℕ) → AllByRecursion FitsPhase ps → AllByRecursion FitsPhase qs
        → IsLastLine x → IsLastLine y → phases_text k ps ++ x ≡ phases_text k qs ++ y → (ps ≡ qs) × (x ≡ y) }
    ensures need { (m n : ℕ) → m < 2 ^ 64 → n < 2 ^ 64 → out_of_heap_text m ≡ out_of_heap_text n → m ≡ n }
{}

/// The numbers in the replies of a run of a well-formed trace of fewer than 2 ^ 32 operations fit, and so do those of a cut.
pub fn law_replies_fit()
    ensures run { (t : TraceLists) → IsTrace t → all_ops_of t < 2 ^ 32 → AllByRecursion FitsPhase (replies_of t) }
    ensures cut { (t : TraceLists) (k : ℕ) (cut : List ℕ) → IsTrace t → all_ops_of t < 2 ^ 32 → FitsPhase (replies_of_cut t k cut) }
{}
