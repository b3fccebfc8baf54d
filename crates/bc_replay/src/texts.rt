//! The texts that a phase prints. Room for them is taken before the phase runs, and all of them are made before the first is
//! written: once a phase has run no memory is taken for what it prints.

ghost use Rattle.std.specs.Prelude.{◌≡◌, ℕ, ◌+◌, ◌^◌, ◌<◌, ◌≤◌, ◌++◌, [], length, sum_by, vec_capacity, IfOk, OnOk, OnErr};
ghost use Rattle.bc_io.specs.Faults.{Rose};
ghost use Rattle.bc_io.specs.Told.{HeldGrows, HasRoom};
ghost use Rattle.bc_io.specs.Pieces.{RoomFalls};
ghost use Rattle.bc_model.specs.Rows.{lists_of};
ghost use Rattle.bc_model.specs.RunLengths.{ops_of};
ghost use Rattle.bc_trace.specs.Replies.{phase_text};
ghost use Rattle.bc_trace.specs.TextRooms.{phase_bytes, need_bytes};
ghost use Rattle.bc_replay.specs.Endings.{WritesFront};
ghost use Rattle.bc_replay.specs.NeedLine.{need_line};

use bc_io::{Sink, WriteFault, write_all};
use bc_model::{Op, Phase, Replies};
use bc_trace::{need_room, phase_room, put_need, put_phase};
use std::alloc::{AllocError, Global};

/// The most bytes that the line of a need has.
const NEED_LINE: usize = 33;

/// What a phase prints, or room for it.
#[derive(Drop)]
pub(crate) struct PhaseTexts {
    /// The number of the phase, and the replies to each lane.
    pub(crate) replies: Vec<u8>,
    /// The line of the need, where the heap was too small for the phase; else nothing.
    pub(crate) need: Vec<u8>,
}

/// How many operations all lanes have.
fn ops_in(lanes: &[Vec<Op>]) -> usize
    requires few { sum_by length (lists_of lanes.now) < 2 ^ 32 }
    ensures all { result ≡ sum_by length (lists_of lanes.now) }
{
    let mut all = 0;
    for ops in lanes {
        all += ops.len();
    }
    all
}

/// How many bytes the text of a phase of so many lanes may have, with so many replies in all: 27 are for its own line, and 26 for that of each lane and
/// of each reply.
fn text_bytes(lanes: usize, replies: usize) -> usize
    requires lanes { lanes < 2 ^ 32 }
    requires replies { replies < 2 ^ 32 }
    ensures { result ≡ phase_bytes lanes replies }
{
    27 + 26 * (lanes + replies)
}

/// Room for the texts of a phase, of which nothing is known yet but its lanes and their operations: the room that was kept of a phase before, where
/// there is one that is large enough, and else new room. What was kept is given back before. It does nothing but take memory.
pub(crate) fn texts_room(
    alloc: Global,
    kept: Option<PhaseTexts>,
    phase: &Phase,
) -> Result<PhaseTexts, AllocError>
    requires lanes { length phase.now.lanes < 2 ^ 32 }
    requires ops { ops_of phase.now < 2 ^ 32 }
    ensures empty { IfOk result (λ texts. (texts.replies.items ≡ []) × (texts.need.items ≡ [])) }
    ensures replies { IfOk result (λ texts. phase_bytes (length phase.now.lanes) (ops_of phase.now) ≤ vec_capacity texts.replies) }
    ensures need { IfOk result (λ texts. need_bytes ≤ vec_capacity texts.need) }
{
    let lanes = phase.lanes.len();
    let ops = ops_in(&phase.lanes);
    if let Some(mut texts) = kept {
        if text_bytes(lanes, ops) <= texts.replies.capacity()
            && NEED_LINE <= texts.need.capacity()
        {
            texts.replies.clear();
            texts.need.clear();
            return Ok(texts);
        }
    }
    let replies = phase_room(alloc, lanes, ops)?;
    let need = need_room(alloc)?;
    Ok(PhaseTexts { replies, need })
}

/// Makes the texts of a phase with these replies, whose heap was too small where there is a need. It takes no memory.
pub(crate) fn put_texts(texts: &mut PhaseTexts, number: u32, replies: &Replies, need: Option<u64>)
    requires empty { (texts.old.replies.items ≡ []) × (texts.old.need.items ≡ []) }
    requires replies { phase_bytes (length replies.now) (sum_by length replies.now) ≤ vec_capacity texts.old.replies }
    requires need { need_bytes ≤ vec_capacity texts.old.need }
    ensures replies { texts.new.replies.items ≡ phase_text number replies.now }
    ensures need { texts.new.need.items ≡ need_line need }
{
    put_phase(&mut texts.replies, number, replies);
    if let Some(need) = need {
        put_need(&mut texts.need, need);
    }
}

/// Writes the texts of a phase, each of them as a whole.
pub(crate) fn write_texts<K: Sink>(sink: &mut K, texts: &PhaseTexts) -> Result<(), WriteFault>
    requires { HasRoom (K.room sink.old) (length (texts.now.replies.items ++ texts.now.need.items)) }
    ensures all { OnOk result (HeldGrows (K.held sink.old) (K.held sink.new)
        (texts.now.replies.items ++ texts.now.need.items)) }
    ensures filled { OnOk result (RoomFalls (K.room sink.old) (K.room sink.new)
        (length (texts.now.replies.items ++ texts.now.need.items))) }
    ensures front { OnErr result (WritesFront (K.held sink.old) (K.held sink.new)
        (texts.now.replies.items ++ texts.now.need.items)) }
    ensures cause { OnErr result (Rose (K.faults sink.old) (K.faults sink.new)) }
    ensures firm { OnOk result (K.faults sink.new ≡ K.faults sink.old) }
{
    write_all(sink, &texts.replies)?;
    write_all(sink, &texts.need)
}
