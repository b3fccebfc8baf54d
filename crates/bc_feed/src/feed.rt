//! Where hints come from.

ghost use Rattle.std.specs.Prelude.{◌≡◌, ℕ, List, [], ◌∷◌, IfSome, IfNone};

/// Where hints come from.
pub trait Feed {
    // The hints that are still to come, in order.
    ghost coming: { Self → List ℕ };

    /// The next hint. There is none exactly where none is still to come.
    fn next(&mut self) -> Option<u32>
        ensures some { IfSome result (λ hint. coming self.old ≡ hint ∷ coming self.new) }
        ensures none { IfNone result ((coming self.old ≡ []) × (coming self.new ≡ [])) };
}
