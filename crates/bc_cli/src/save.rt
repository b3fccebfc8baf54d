//! `save`: the first phases of a trace are replayed, and the image of the heap after them is written in place of their texts.

ghost use Rattle.std.specs.Prelude.{◌≡◌, ◌≢◌, ◌⊎◌, ℕ, ◌+◌, ◌^◌, ◌<◌, ◌≤◌, List, Some, None, Ok, length, drop, sum_by, IfErr, IfOk, IfSome, IsErr, OnErr, OnOk};
ghost use Rattle.std.specs.List.{AllByRecursion};
ghost use Rattle.bc_engine.specs.EngineFacts.{HasRoomForBirths};
ghost use Rattle.bc_engine.specs.Parts.{CanAdopt, PartsStand};
ghost use Rattle.bc_engine.specs.declared.engines.Ended.{Ended};
ghost use Rattle.bc_image.specs.Images.{image_bytes};
ghost use Rattle.bc_image.specs.Listings.{ListingLists};
ghost use Rattle.bc_io.specs.Faults.{Rose};
ghost use Rattle.bc_io.specs.Told.{GivesAtMost, GivesExactly, HasRoom, HeldGrows};
ghost use Rattle.bc_model.specs.Lists.{TraceLists};
ghost use Rattle.bc_model.specs.RunLengths.{all_ops_of, ops_of};
ghost use Rattle.bc_model.specs.State.{NoneFrozen, State};
ghost use Rattle.bc_model.specs.WellFormed.{IsTrace};
ghost use Rattle.bc_trace.specs.Faults.{Fault};
ghost use Rattle.bc_trace.specs.Lines.{Spells};
ghost use Rattle.bc_trace.specs.declared.fault.TraceFault.{TraceFault};
ghost use Rattle.bc_replay.specs.Accounts.{KeepsAccount};
ghost use Rattle.bc_replay.specs.BetweenPhases.{HasRun};
ghost use Rattle.bc_replay.specs.Courses.{whole_course};
ghost use Rattle.bc_replay.specs.Endings.{FirstFit, NeedsFit, WritesFront};
ghost use Rattle.bc_replay.specs.Outcomes.{Faulty, IfBadTrace, IfHeapless, IfStatusOutOfHeap, IsOrNoMemory, longest_trace};
ghost use Rattle.bc_cli.specs.PartEndings.{IsSaveEnding, IsSaveStatus, IsUnsavedStatus};
ghost use Rattle.bc_cli.specs.Savable.{CanSave};
ghost use Rattle.bc_cli.specs.Saves.{CutOff, CutOffBelow, HasFewerPhases, HasRoomToSave, IsListingOf, IsSaved, Saved, SavedInPart, SaveRanOutOfHeap};

use bc_engine::{Engine, Parts};
use bc_gates::{Gate, Host};
use bc_io::{Sink, Source, WriteFault};
use bc_model::laws::law_first_version;
use bc_model::{Setup, Trace};
use bc_picture::write;
use bc_replay::{Outcome, Status, read_trace, run_phase};
use bc_saving::law_writable;
use std::alloc::AllocError;
use std::thread::Threads;

/// Reads a trace from the source, replays its first phases, so many, and writes the image of the heap after them to the sink.
pub(crate) fn save<R, S, K, G>(
    host: &Host<R, G>,
    count: u64,
    workers: u32,
    source: &mut S,
    sink: &mut K,
) -> Outcome
where
    R: Threads + Sync,
    S: Source,
    K: Sink,
    G: Gate + Sync,
    requires workers { (1 ≤ workers) × (workers ≤ 16) }
    requires room { HasRoomToSave (S.left source.old) (K.room sink.old) count }
    ensures status { IsSaveStatus result.status }
    ensures done { result.status ≡ Status.Done →
        Saved (S.left source.old) (S.left source.new) (K.held sink.old) (K.held sink.new) count × (result.heap ≡ None) }
    ensures write_fault { result.status ≡ Status.WriteFault → Rose (K.faults sink.old) (K.faults sink.new)
        × SavedInPart (S.left source.old) (S.left source.new) (K.held sink.old) (K.held sink.new) count × (result.heap ≡ None) }
    ensures out_of_heap { IfStatusOutOfHeap result.status (λ need.
        SaveRanOutOfHeap (S.left source.old) (S.left source.new) count result.heap need × (sink.new ≡ sink.old)) }
    ensures no_memory { result.status ≡ Status.NoMemory → sink.new ≡ sink.old }
    ensures mismatch { result.status ≡ Status.Mismatch →
        HasFewerPhases (S.left source.old) (S.left source.new) count × (sink.new ≡ sink.old) }
    ensures bad_trace { IfBadTrace result.status (λ line cause.
        Faulty (S.left source.old) (S.left source.new) line cause × (sink.new ≡ sink.old)) }
    ensures too_long { result.status ≡ Status.TooLong →
        GivesExactly (S.left source.old) (S.left source.new) (longest_trace + 1) × (sink.new ≡ sink.old) }
    ensures short { result.status ≢ Status.TooLong → GivesAtMost (S.left source.old) (S.left source.new) longest_trace }
    ensures read_fault { result.status ≡ Status.ReadFault →
        Rose (S.faults source.old) (S.faults source.new) × (sink.new ≡ sink.old) }
    ensures firm_source { result.status ≢ Status.ReadFault → S.faults source.new ≡ S.faults source.old }
    ensures firm_sink { result.status ≢ Status.WriteFault → K.faults sink.new ≡ K.faults sink.old }
    ensures none { IfHeapless result.status (result.heap ≡ None) }
    ensures workers { IfSome result.heap (λ engine. engine.workers ≡ workers) }
    ensures account { IfSome result.heap KeepsAccount }

    // Where no fault is counted, the bytes alone decide, unless memory runs out.
    ensures complete { (bytes : List ℕ) (t : TraceLists) →
        S.left source.old ≡ Some bytes → length bytes ≤ longest_trace → Spells bytes t → count ≤ length t.phases →
        FirstFit (whole_course t) count → ¬ Rose (S.faults source.old) (S.faults source.new) →
        ¬ Rose (K.faults sink.old) (K.faults sink.new) → IsOrNoMemory result.status Status.Done }
    ensures fewer { (bytes : List ℕ) (t : TraceLists) →
        S.left source.old ≡ Some bytes → length bytes ≤ longest_trace → Spells bytes t → length t.phases < count →
        ¬ Rose (S.faults source.old) (S.faults source.new) → IsOrNoMemory result.status Status.Mismatch }
    ensures faulty { (bytes : List ℕ) (f : TraceFault) →
        S.left source.old ≡ Some bytes → length bytes ≤ longest_trace → Fault bytes f.line f.cause →
        ¬ Rose (S.faults source.old) (S.faults source.new) →
        IsOrNoMemory result.status (Status.BadTrace f.line f.cause) }
    ensures longer { (bytes : List ℕ) →
        S.left source.old ≡ Some bytes → longest_trace < length bytes →
        ¬ Rose (S.faults source.old) (S.faults source.new) → IsOrNoMemory result.status Status.TooLong }
{
    match read_trace(host.alloc, source) {
        Ok(trace) => save_trace(host, &trace, count, workers, sink),
        Err(status) => Outcome::without_heap(status),
    }
}

/// Replays the first phases of a trace, so many, and writes the image of the heap after them. What takes memory is done before the first byte
/// is written.
fn save_trace<R, K, G>(
    host: &Host<R, G>,
    trace: &Trace,
    count: u64,
    workers: u32,
    sink: &mut K,
) -> Outcome
where
    R: Threads + Sync,
    K: Sink,
    G: Gate + Sync,
    requires trace { IsTrace trace.now }
    requires few { all_ops_of trace.now + length trace.now.phases ≤ longest_trace }
    requires workers { (1 ≤ workers) × (workers ≤ 16) }
    requires room { count ≤ length trace.now.phases → (l : ListingLists) → IsSaved trace.now count l → HasRoom (K.room sink.old) (length (image_bytes l)) }
    ensures ending { IsSaveEnding result.status }
    ensures mismatch { result.status ≡ Status.Mismatch → (length trace.now.phases < count) × (sink.new ≡ sink.old) }
    ensures enough { result.status ≢ Status.Mismatch → count ≤ length trace.now.phases }
    ensures done { result.status ≡ Status.Done → (l : ListingLists) × IsSaved trace.now count l
        × HeldGrows (K.held sink.old) (K.held sink.new) (image_bytes l) × NeedsFit (whole_course trace.now) count }
    ensures write_fault { result.status ≡ Status.WriteFault → (l : ListingLists) × IsSaved trace.now count l
        × WritesFront (K.held sink.old) (K.held sink.new) (image_bytes l) }
    ensures cause { result.status ≡ Status.WriteFault → Rose (K.faults sink.old) (K.faults sink.new) }
    ensures unhanded { (result.status ≡ Status.Done) ⊎ (result.status ≡ Status.WriteFault) → result.heap ≡ None }
    ensures out_of_heap { IfStatusOutOfHeap result.status (λ need.
        CutOffBelow (whole_course trace.now) count result.heap need × (sink.new ≡ sink.old)) }
    ensures no_memory { result.status ≡ Status.NoMemory → sink.new ≡ sink.old }
    ensures firm { result.status ≢ Status.WriteFault → K.faults sink.new ≡ K.faults sink.old }
    ensures none { IfHeapless result.status (result.heap ≡ None) }
    ensures workers { IfSome result.heap (λ engine. engine.workers ≡ workers) }
    ensures account { IfSome result.heap KeepsAccount }
{
    match run_saved(host, trace, count, workers) {
        Ok(parts) => put_saved(sink, trace, count, parts),
        Err(outcome) => outcome,
    }
}

/// Replays the first phases of a trace, so many, on a new heap, and takes that apart: what the image is made of. Where there is nothing to
/// write, it answers how the command ends.
fn run_saved<R, G>(
    host: &Host<R, G>,
    trace: &Trace,
    count: u64,
    workers: u32,
) -> Result<Parts, Outcome>
where
    R: Threads + Sync,
    G: Gate + Sync,
    requires trace { IsTrace trace.now }
    requires few { all_ops_of trace.now + length trace.now.phases ≤ longest_trace }
    requires workers { (1 ≤ workers) × (workers ≤ 16) }
    ensures within { OnOk result (count ≤ length trace.now.phases) }
    ensures saved { IfOk result (λ parts. CanSave trace.now count parts.holders.items parts.births.items parts.roots parts.space) }
    ensures ending { IfErr result (λ outcome. IsUnsavedStatus outcome.status) }
    ensures mismatch { IfErr result (λ outcome. outcome.status ≡ Status.Mismatch → length trace.now.phases < count) }
    ensures enough { IfErr result (λ outcome. outcome.status ≢ Status.Mismatch → count ≤ length trace.now.phases) }
    ensures out_of_heap { IfErr result (λ outcome. IfStatusOutOfHeap outcome.status (λ need.
        CutOffBelow (whole_course trace.now) count outcome.heap need)) }
    ensures none { IfErr result (λ outcome. IfHeapless outcome.status (outcome.heap ≡ None)) }
    ensures workers { IfErr result (λ outcome. IfSome outcome.heap (λ engine. engine.workers ≡ workers)) }
    ensures account { IfErr result (λ outcome. IfSome outcome.heap KeepsAccount) }
{
    if count > trace.phases.len() as u64 {
        return Err(Outcome::without_heap(Status::Mismatch));
    }
    // In version 1 no domain is ever frozen, and no image of it says so of one.
    law_first_version();
    let Ok(mut engine) = Engine::open(host.alloc, &trace.setup, workers) else {
        return Err(Outcome::without_heap(Status::NoMemory));
    };
    match run_first(host, &mut engine, trace, count as usize) {
        Ok(None) => Ok(engine.split()),
        Ok(Some(need)) => Err(Outcome::with_heap(Status::OutOfHeap { need }, engine)),
        Err(_) => Err(Outcome::without_heap(Status::NoMemory)),
    }
}

/// Writes the image of the heap of an engine that has run so many phases of a trace and was taken apart. It takes no memory: it ends with the
/// whole image, or with a failed write.
fn put_saved<K: Sink>(sink: &mut K, trace: &Trace, count: u64, parts: Parts) -> Outcome
    requires trace { IsTrace trace.now }
    requires few { count < 2 ^ 32 }
    requires saved { CanSave trace.now count parts.holders.items parts.births.items parts.roots parts.space }
    requires room { (l : ListingLists) → IsSaved trace.now count l → HasRoom (K.room sink.old) (length (image_bytes l)) }
    ensures ending { (result.status ≡ Status.Done) ⊎ (result.status ≡ Status.WriteFault) }
    ensures done { result.status ≡ Status.Done → (l : ListingLists) × IsSaved trace.now count l
        × HeldGrows (K.held sink.old) (K.held sink.new) (image_bytes l) }
    ensures write_fault { result.status ≡ Status.WriteFault → (l : ListingLists) × IsSaved trace.now count l
        × WritesFront (K.held sink.old) (K.held sink.new) (image_bytes l) }
    ensures cause { result.status ≡ Status.WriteFault → Rose (K.faults sink.old) (K.faults sink.new) }
    ensures firm { result.status ≢ Status.WriteFault → K.faults sink.new ≡ K.faults sink.old }
    ensures unhanded { result.heap ≡ None }
{
    match put_image(sink, trace.version, &trace.setup, count as u32, parts) {
        Ok(()) => Outcome::without_heap(Status::Done),
        Err(_) => Outcome::without_heap(Status::WriteFault),
    }
}

/// Writes the image of this version of the heap of an engine that has run so many phases and was taken apart. It takes no memory.
fn put_image<K: Sink>(
    sink: &mut K,
    version: u32,
    setup: &Setup,
    done: u32,
    parts: Parts,
) -> Result<(), WriteFault>
    requires version { (1 ≤ version) × (version ≤ 3) }
    requires parts { CanAdopt setup.now parts.holders.items parts.births.items parts.roots parts.space }
    requires holders { NoneFrozen parts.holders.items ⊎ (2 ≤ version) }
    requires births { AllByRecursion (λ n. n ≤ 4000000000) parts.births.items }
    requires room { (s : State) × PartsStand setup.now parts.holders.items parts.births.items parts.roots parts.space s
        × ((l : ListingLists) → IsListingOf version setup.now done s l → HasRoom (K.room sink.old) (length (image_bytes l))) }
    ensures written { (s : State) → PartsStand setup.now parts.holders.items parts.births.items parts.roots parts.space s →
        OnOk result ((l : ListingLists) × IsListingOf version setup.now done s l × HeldGrows (K.held sink.old) (K.held sink.new) (image_bytes l)) }
    ensures front { (s : State) → PartsStand setup.now parts.holders.items parts.births.items parts.roots parts.space s →
        OnErr result ((l : ListingLists) × IsListingOf version setup.now done s l × WritesFront (K.held sink.old) (K.held sink.new) (image_bytes l)) }
    ensures cause { OnErr result (Rose (K.faults sink.old) (K.faults sink.new)) }
    ensures firm { OnOk result (K.faults sink.new ≡ K.faults sink.old) }
{
    law_writable(version, setup, done, &parts);
    let Parts {
        holders,
        births,
        roots,
        mut space,
    } = parts;
    write(
        sink, version, setup, done, &holders, &births, &roots, &mut space,
    )
}

/// Runs so many of the first phases of a trace. Where the heap is too small for one of them it answers the need. Room for all that
/// comes after them was taken before, so where it refuses, the engine has run out of memory itself.
pub(crate) fn run_first<R, G>(
    host: &Host<R, G>,
    engine: &mut Engine,
    trace: &Trace,
    count: usize,
) -> Result<Option<u64>, AllocError>
where
    R: Threads + Sync,
    G: Gate + Sync,
    requires trace { IsTrace trace.now }
    requires count { count ≤ length trace.now.phases }
    requires opened { HasRun (whole_course trace.now) 0 engine.old }
    ensures run { result ≡ Ok None → HasRun (whole_course trace.now) count engine.new }
    ensures out_of_heap { (need : ℕ) → result ≡ Ok (Some need) → CutOffBelow (whole_course trace.now) count (Some engine.new) need }
    ensures no_memory { IsErr result → engine.new.ended ≡ Some Ended.NoMemory }
    ensures births { (n : ℕ) → HasRoomForBirths engine.old (sum_by ops_of trace.now.phases + n) →
        result ≡ Ok None → HasRoomForBirths engine.new (sum_by ops_of (drop count trace.now.phases) + n) }
    ensures workers { engine.new.workers ≡ engine.old.workers }
{
    for index in 0..count {
        let need = run_one(host, engine, trace, index)?;
        if need.is_some() {
            return Ok(need);
        }
    }
    Ok(None)
}

/// Runs the phase of this index. Where the heap is too small for it, it answers the need.
fn run_one<R, G>(
    host: &Host<R, G>,
    engine: &mut Engine,
    trace: &Trace,
    index: usize,
) -> Result<Option<u64>, AllocError>
where
    R: Threads + Sync,
    G: Gate + Sync,
    requires trace { IsTrace trace.now }
    requires index { index < length trace.now.phases }
    requires opened { HasRun (whole_course trace.now) index engine.old }
    ensures run { result ≡ Ok None → HasRun (whole_course trace.now) (index + 1) engine.new }
    ensures out_of_heap { (need : ℕ) → result ≡ Ok (Some need) → CutOff (whole_course trace.now) index (Some engine.new) need }
    ensures no_memory { IsErr result → engine.new.ended ≡ Some Ended.NoMemory }
    ensures births { (n : ℕ) → HasRoomForBirths engine.old (sum_by ops_of (drop index trace.now.phases) + n) →
        result ≡ Ok None → HasRoomForBirths engine.new (sum_by ops_of (drop (index + 1) trace.now.phases) + n) }
    ensures workers { engine.new.workers ≡ engine.old.workers }
{
    let end = run_phase(host, engine, trace, 0, index)?;
    Ok(end.need)
}
