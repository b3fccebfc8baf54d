// The churn: a workload that a starting number gives, and what its run prints.
//
// `generate` makes the trace: `draws` has the generator and the table of kinds, and `specs/Churn.antt` says the whole trace as lists.
// `Generator` is what draws; the drawn feed of `bc_feed` draws by it too.
// `counts` counts the replies of a run by their kinds and writes the output, after room was taken for it (`churn_room`).
// `churn_laws` has the table, the sums, and why the run never wants for superpages: a lane clears what it holds as a phase
// begins, so that what is reached was made in that phase or the one before it.
//
// A new operation of the trace language is drawn where the table of kinds has a row for it: in `verb_of` and `op`, and in
// `verb_of_kind`, `limits_of` and `drawn_with` of `specs/Draws.antt`.
#![tactic(auto)]

mod churn;
mod churn_laws;
mod counts;
mod draws;

pub use churn::generate;
pub use churn_laws::{
    law_churn_need, law_churn_ops, law_churn_trace, law_counts, law_kinds, law_reply_kinds,
};
pub use counts::{Counts, churn_room, put_churn};
pub use draws::Generator;
