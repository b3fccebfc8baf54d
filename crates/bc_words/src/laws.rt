//! What the rules say of the order of the words. The function does nothing: its contract is the law.

ghost use Rattle.std.specs.Prelude.{◌++◌, ◌∷◌, ◌↔◌, List, codes};
ghost use Rattle.std.specs.List.{AllByRecursion};
ghost use Rattle.bc_words.specs.Commands.{IsCommandOf, IsHyphened, Word};
ghost use Rattle.bc_words.specs.declared.command.Command.{Command};

/// Where `--workers` stands among the plain values makes no difference: after some of them it is the same command as
/// before them all, in two words or in one.
pub fn law_workers_anywhere()
    ensures two_words { (first value : Word) (front back : List Word) (c : Command) → AllByRecursion (λ w. ¬ IsHyphened w) front →
        IsCommandOf (first ∷ (front ++ codes "--workers" ∷ value ∷ back)) c
        ↔ IsCommandOf (first ∷ codes "--workers" ∷ value ∷ (front ++ back)) c }
    ensures one_word { (first value : Word) (front back : List Word) (c : Command) → AllByRecursion (λ w. ¬ IsHyphened w) front →
        IsCommandOf (first ∷ (front ++ (codes "--workers=" ++ value) ∷ back)) c
        ↔ IsCommandOf (first ∷ codes "--workers" ∷ value ∷ (front ++ back)) c }
{}
