//! Reading the input as a trace.

ghost use Rattle.std.specs.Prelude.{◌≡◌, ◌≢◌, ℕ, ◌+◌, ◌<◌, ◌≤◌, List, Some, Err, length, IfOk, IfErr, IsErrAnd, MatchResult};
ghost use Rattle.bc_io.specs.Faults.{Rose};
ghost use Rattle.bc_io.specs.Told.{GivesAtMost, GivesExactly};
ghost use Rattle.bc_model.specs.Lists.{TraceLists};
ghost use Rattle.bc_trace.specs.Faults.{Fault};
ghost use Rattle.bc_trace.specs.Lines.{Spells};
ghost use Rattle.bc_trace.specs.declared.fault.TraceFault.{TraceFault};
ghost use Rattle.bc_replay.specs.Outcomes.{ReadAsTrace, Faulty, IfBadTrace, IsOrNoMemory, longest_trace};
ghost use Rattle.bc_replay.specs.PartEndings.{IsRefusedStatus};

use crate::status::Status;
use bc_io::{Source, read_all};
use bc_model::Trace;
use bc_trace::read;
use std::alloc::Global;

/// The most bytes that a trace may have.
pub const LONGEST_TRACE: usize = 16_777_216;

/// Reads the source to its end, and its bytes as a trace. The error is the status of a run that ends here.
pub fn read_trace<S: Source>(alloc: Global, source: &mut S) -> Result<Trace, Status>
    ensures found { IfOk result (ReadAsTrace (S.left source.old) (S.left source.new)) }

    // No refusal comes without its cause.
    ensures refusal { IfErr result IsRefusedStatus }
    ensures bad_trace { IfErr result (λ status.
        IfBadTrace status (Faulty (S.left source.old) (S.left source.new))) }
    ensures too_long { result ≡ Err Status.TooLong →
        GivesExactly (S.left source.old) (S.left source.new) (longest_trace + 1) }
    ensures short { result ≢ Err Status.TooLong →
        GivesAtMost (S.left source.old) (S.left source.new) longest_trace }
    ensures read_fault { result ≡ Err Status.ReadFault → Rose (S.faults source.old) (S.faults source.new) }
    ensures firm { result ≢ Err Status.ReadFault → S.faults source.new ≡ S.faults source.old }

    // Where no fault is counted, the bytes alone decide, unless memory runs out.
    ensures spelled { (bytes : List ℕ) (t : TraceLists) →
        S.left source.old ≡ Some bytes → length bytes ≤ longest_trace → Spells bytes t →
        ¬ Rose (S.faults source.old) (S.faults source.new) →
        MatchResult result (λ trace. trace ≡ t) (λ status. status ≡ Status.NoMemory) }
    ensures faulty { (bytes : List ℕ) (f : TraceFault) →
        S.left source.old ≡ Some bytes → length bytes ≤ longest_trace → Fault bytes f.line f.cause →
        ¬ Rose (S.faults source.old) (S.faults source.new) →
        IsErrAnd result (λ status. IsOrNoMemory status (Status.BadTrace f.line f.cause)) }
    ensures longer { (bytes : List ℕ) →
        S.left source.old ≡ Some bytes → longest_trace < length bytes →
        ¬ Rose (S.faults source.old) (S.faults source.new) →
        IsErrAnd result (λ status. IsOrNoMemory status Status.TooLong) }
{
    let bytes = read_all(alloc, source, LONGEST_TRACE)?;
    let trace = read(alloc, &bytes)?;
    Ok(trace)
}
