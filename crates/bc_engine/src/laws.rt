//! Laws of phases. The functions do nothing.

ghost use Rattle.std.specs.Prelude.{◌≡◌, ℕ, ◌+◌, ◌%◌, ◌^◌, ◌<◌, Bool, [], List, Vec, length};
ghost use Rattle.std.specs.declared.alloc.Global.{Global};
ghost use Rattle.bc_engine.specs.Budgets.{AreTurns, HasBudget, HaveBudgets, marks_in, turns_with, unused_in};
ghost use Rattle.bc_engine.specs.EngineFacts.{NoneWithheld};
ghost use Rattle.bc_engine.specs.Engines.{EngineView};
ghost use Rattle.bc_engine.specs.PhaseTurns.{HadTurns, HadTurnsToCut, HadTurnsToWant, hints_before};
ghost use Rattle.bc_engine.specs.Rounds.{CutRound, LastRound, RanRound};
ghost use Rattle.bc_engine.specs.Turns.{line_of};
ghost use Rattle.bc_engine.specs.declared.opened.Opened.{Opened};
ghost use Rattle.bc_model.specs.Lists.{PhaseLists, TurnLists};
ghost use Rattle.bc_model.specs.TurnLines.{budget_at};
ghost use Rattle.bc_model.specs.declared.operations.Op.{Op};
ghost use Rattle.bc_model.specs.declared.operations.Reply.{Reply};
ghost use Rattle.bc_pager.specs.declared.notices.Notice.{Notice};

/// Law: an engine that did a phase, or was cut in one, has as many answers as the phase's turns had notices: turns of the lanes, and mark
/// turns. The line of a turn is that of its number modulo how many lines there are.
pub fn law_answers()
    ensures done { (e f : EngineView) → (p : PhaseLists) → (replies : List (List Reply)) → (fed : List Notice) → (had : HadTurns e p f replies fed)
        → length f.answers ≡ hints_before p.turns had.turns }
    ensures cut { (e f : EngineView) → (p : PhaseLists) → (replies : List (List Reply)) → (fed : List Notice) → (had : HadTurnsToCut e p f replies fed)
        → length f.answers ≡ hints_before p.turns had.turns }
    ensures lines { (lines : List TurnLists) → (turn : ℕ) → 0 < length lines → line_of lines turn ≡ turn % length lines }
{}

/// Law: in each round as many frames as its line says no page may use beside those of the nurseries, where its lanes' turn begins and ends and in
/// its mark turns, so in these too as many as in the turn of the lanes before them. In a phase without lines none is withheld. After a phase that
/// was done none is, and one that was cut leaves as many as the line of its latest turn of the lanes says.
pub fn law_budgets()
    ensures round { (lanes : List (List Op)) → (lines : List TurnLists) → (e f : EngineView) → (before after : List (Vec Reply Global)) → (line next : ℕ) → (fed : List Notice)
        → (r : RanRound lanes lines e before line f after next fed) → HasBudget (unused_in e.setup lines line) r.turn.began r.turned r.empties.collected r.emptied }
    ensures last { (lanes : List (List Op)) → (lines : List TurnLists) → (e f : EngineView) → (before after : List (Vec Reply Global)) → (line : ℕ) → (fed : List Notice)
        → (r : LastRound lanes lines e before line f after fed) → HasBudget (unused_in e.setup lines line) r.turn.began r.turned r.empties.collected r.emptied }
    ensures cut { (lanes : List (List Op)) → (lines : List TurnLists) → (e f : EngineView) → (before after : List (Vec Reply Global)) → (line : ℕ) → (fed : List Notice)
        → (r : CutRound lanes lines e before line f after fed) → HasBudget (unused_in e.setup lines line) r.turn.began r.turned r.leaves.collected f.running }
    ensures none { (line : ℕ) → budget_at [] line ≡ 0 }
    ensures returned { (e f : EngineView) → (p : PhaseLists) → (replies : List (List Reply)) → (fed : List Notice) → HadTurns e p f replies fed → NoneWithheld e.setup f.running.heap }
    ensures kept { (e f : EngineView) → (p : PhaseLists) → (replies : List (List Reply)) → (fed : List Notice) → (had : HadTurnsToCut e p f replies fed)
        → f.running.heap.space.nursery ≡ unused_in e.setup p.turns (line_of p.turns had.rounds.1) }
{}

/// Law: the items of `opened` are the turns of the phase that an engine did, or was cut in. There is one for each round. In the turn of the lanes as
/// many frames were withheld as its line says, which are those that no page could use in its mark turns too (`law_budgets`). Where these numbers
/// don't reach their end, the items alone say how many turns there were, and the answers are those to the notices of so many turns.
pub fn law_opened()
    ensures done { (e f : EngineView) → (p : PhaseLists) → (replies : List (List Reply)) → (fed : List Notice) → (had : HadTurns e p f replies fed) → AreTurns p.turns had.turns f.opened }
    ensures cut { (e f : EngineView) → (p : PhaseLists) → (replies : List (List Reply)) → (fed : List Notice) → (had : HadTurnsToCut e p f replies fed) → AreTurns p.turns had.turns f.opened }
    ensures rounds { (e f : EngineView) → (p : PhaseLists) → (replies : List (List Reply)) → (fed : List Notice) → (had : HadTurns e p f replies fed)
        → length f.opened ≡ had.rounds.0 + 1 }
    ensures cut_rounds { (e f : EngineView) → (p : PhaseLists) → (replies : List (List Reply)) → (fed : List Notice) → (had : HadTurnsToCut e p f replies fed)
        → length f.opened ≡ had.rounds.0 + 1 }
    ensures counted { (lines : List TurnLists) → (turns : ℕ) → (opened : List Opened) → AreTurns lines turns opened → turns < 2 ^ 64
        → HaveBudgets lines 0 (marks_in opened) opened × (turns ≡ turns_with (marks_in opened)) }
    ensures answers { (e f : EngineView) → (p : PhaseLists) → (replies : List (List Reply)) → (fed : List Notice) → (had : HadTurns e p f replies fed) → had.turns < 2 ^ 64
        → length f.answers ≡ hints_before p.turns (turns_with (marks_in f.opened)) }
    ensures cut_answers { (e f : EngineView) → (p : PhaseLists) → (replies : List (List Reply)) → (fed : List Notice) → (had : HadTurnsToCut e p f replies fed) → had.turns < 2 ^ 64
        → length f.answers ≡ hints_before p.turns (turns_with (marks_in f.opened)) }
{}

/// Law: an engine has an answer to each notice that live pagers took in a phase, which it did, was cut in or ended in out of memory.
pub fn law_fed()
    ensures done { (e f : EngineView) → (p : PhaseLists) → (replies : List (List Reply)) → (fed : List Notice) → HadTurns e p f replies fed
        → length f.live ≡ length fed }
    ensures cut { (e f : EngineView) → (p : PhaseLists) → (replies : List (List Reply)) → (fed : List Notice) → HadTurnsToCut e p f replies fed
        → length f.live ≡ length fed }
    ensures want { (e f : EngineView) → (p : PhaseLists) → (fed : List Notice) → (coming : Bool) → HadTurnsToWant e p f fed coming
        → length f.live ≡ length fed }
{}
