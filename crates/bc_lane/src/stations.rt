//! Where a lane works, as far as the proofs of one operation have to know.

ghost use Rattle.std.specs.Prelude.{ℕ, List, []};
ghost use Rattle.bc_model.specs.declared.values.Holder.{Holder};
ghost use Rattle.bc_pins.specs.declared.views.View.{View};
ghost use Rattle.bc_pins.specs.Steps.{nobody};
ghost use Rattle.bc_superpages.specs.RootWords.{RootWords};

use std::marker::Brand;

/// What stays while a lane does an operation: what its seat knows, who holds each domain, which lane it is, how many slots a
/// domain has, where the words of each domain's slots begin, and the root words that all lanes share. It is for the proofs alone, and
/// each call picks it.
pub trait Station {
    ghost view: { View };

    ghost holders: { List Holder };

    ghost lane: { ℕ };

    ghost slots: { ℕ };

    ghost starts: { List ℕ };

    ghost shared: { RootWords };
}

impl Station for Brand {
    ghost view = { nobody };

    ghost holders = { [] };

    ghost lane = { 0 };

    ghost slots = { 0 };

    ghost starts = { [] };

    ghost shared = { record { domains = 0; slots = 0; words = []; noted = [] } };
}
