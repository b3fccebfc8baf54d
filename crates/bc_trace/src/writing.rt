//! The writer: the one text of a trace.
ghost use Rattle.std.specs.Prelude.{◌≡◌, ◌++◌, [], ◌∷◌, map, OnOk, IfOk};
ghost use Rattle.std.specs.List.{flat_map};
ghost use Rattle.std.specs.Fmt.{decimal};
ghost use Rattle.bc_model.specs.WellFormed.{IsTrace};
ghost use Rattle.bc_trace.specs.declared.line.Shift.TheVariants.{Stays};
ghost use Rattle.bc_trace.specs.Lines.{setting as setting_line, turn as turn_line, lane as lane_line, op as op_line, change_line, setup_lines, turn_lines, shift_words, lane_lines, phase_lines, trace_text, spelling, line_text};

use crate::line::Shift;
use crate::rooms::put_number;
use crate::words::{Keyword, Setting, Verb};
use bc_model::{Change, Op, Phase, Setup, Slot, Trace, TurnLine};
use std::alloc::{AllocError, Global};

/// Puts the number at the end, in decimal.
fn push_number(out: &mut Vec<u8>, number: u64) -> Result<(), AllocError>
    ensures { OnOk result (out.new.items ≡ out.old.items ++ decimal number) }
{
    out.reserve(20)?;
    put_number(out, number);
    Ok(())
}

/// Puts each number after a space at the end.
fn push_operands(out: &mut Vec<u8>, numbers: &[u64]) -> Result<(), AllocError>
    ensures { OnOk result (out.new.items ≡ out.old.items ++ flat_map (λ n. 32 ∷ decimal n) numbers.now) }
{
    for number in numbers {
        out.push(b' ')?;
        push_number(out, *number)?;
    }
    Ok(())
}

/// Puts the line of the word and the numbers at the end.
#[tactic(auto, unfolding(crate::specs::Lines::spelling))]
fn push_line(out: &mut Vec<u8>, word: Keyword, numbers: &[u64]) -> Result<(), AllocError>
    ensures { OnOk result (out.new.items ≡ out.old.items ++ (spelling word Stays numbers.now ++ 10 ∷ [])) }
{
    out.extend_from_slice(word.name())?;
    push_operands(out, numbers)?;
    out.extend_from_slice(b"\n")
}

/// Puts the line of a setting at the end.
#[tactic(auto, unfolding(crate::specs::Lines::line_text))]
fn push_setting(out: &mut Vec<u8>, setting: Setting, number: u32) -> Result<(), AllocError>
    ensures { OnOk result (out.new.items ≡ out.old.items ++ line_text (setting_line setting number)) }
{
    push_line(out, Keyword::Setting(setting), &[number as u64])
}

/// Puts the lines of a setup at the end.
fn push_setup(out: &mut Vec<u8>, setup: &Setup) -> Result<(), AllocError>
    ensures { OnOk result (out.new.items ≡ out.old.items ++ flat_map line_text (setup_lines setup.now)) }
{
    push_setting(out, Setting::Lanes, setup.lanes)?;
    push_setting(out, Setting::Domains, setup.domains)?;
    push_setting(out, Setting::Slots, setup.slots)?;
    push_setting(out, Setting::Superpages, setup.superpages)?;
    push_setting(out, Setting::Nursery, setup.nursery)?;
    push_setting(out, Setting::Buffer, setup.buffer)?;
    push_setting(out, Setting::Frames, setup.frames)?;
    Ok(())
}

/// Puts a sign and a number after a space at the end.
fn push_signed(out: &mut Vec<u8>, sign: u8, number: u64) -> Result<(), AllocError>
    ensures { OnOk result (out.new.items ≡ out.old.items ++ 32 ∷ sign ∷ decimal number) }
{
    out.push(b' ')?;
    out.push(sign)?;
    push_number(out, number)
}

/// Puts the operand at the end that changes the number of withheld frames, if it changes.
fn push_shift(out: &mut Vec<u8>, shift: Shift) -> Result<(), AllocError>
    ensures { OnOk result (out.new.items ≡ out.old.items ++ flat_map (λ word. 32 ∷ word) (shift_words shift)) }
{
    match shift {
        Shift::Stays => Ok(()),
        Shift::Withhold(frames) => push_signed(out, b'-', frames),
        Shift::Return(frames) => push_signed(out, b'+', frames),
    }
}

/// Puts the line of a turn at the end.
#[tactic(auto, unfolding(crate::specs::Lines::line_text, crate::specs::Lines::spelling))]
fn push_turn(out: &mut Vec<u8>, shift: Shift, hints: &[u32]) -> Result<(), AllocError>
    ensures { OnOk result (out.new.items ≡ out.old.items ++ line_text (turn_line shift hints.now)) }
{
    out.extend_from_slice(Keyword::Turn.name())?;
    push_shift(out, shift)?;
    for hint in hints {
        out.push(b' ')?;
        push_number(out, *hint as u64)?;
    }
    out.extend_from_slice(b"\n")
}

/// Puts the line of an operation on a slot at the end, with the operands that follow the slot.
#[tactic(auto, unfolding(crate::specs::Lines::spelling))]
fn push_on(out: &mut Vec<u8>, verb: Verb, slot: Slot, operands: &[u64]) -> Result<(), AllocError>
    ensures { OnOk result (out.new.items
        ≡ out.old.items ++ (spelling (Keyword.Op verb) Stays (slot.domain ∷ slot.slot ∷ operands.now) ++ 10 ∷ [])) }
{
    out.extend_from_slice(Keyword::Op(verb).name())?;
    push_operands(out, &[slot.domain as u64, slot.slot as u64])?;
    push_operands(out, operands)?;
    out.extend_from_slice(b"\n")
}

/// Puts the line of an operation at the end.
#[tactic(auto, unfolding(crate::specs::Lines::line_text))]
fn push_op(out: &mut Vec<u8>, op: &Op) -> Result<(), AllocError>
    ensures { OnOk result (out.new.items ≡ out.old.items ++ line_text (op_line op.now)) }
{
    match *op {
        Op::New(slot, fields) => push_on(out, Verb::New, slot, &[fields as u64]),
        Op::Who(slot) => push_on(out, Verb::Who, slot, &[]),
        Op::Len(slot) => push_on(out, Verb::Len, slot, &[]),
        Op::Set(slot, field, number) => push_on(out, Verb::Set, slot, &[field as u64, number]),
        Op::Cut(slot, field) => push_on(out, Verb::Cut, slot, &[field as u64]),
        Op::Link(slot, field, other) => {
            let [domain, place] = numbers_of(other);
            push_on(out, Verb::Link, slot, &[field as u64, domain, place])
        }
        Op::Load(slot, field, other) => {
            let [domain, place] = numbers_of(other);
            push_on(out, Verb::Load, slot, &[field as u64, domain, place])
        }
        Op::Copy(slot, other) => push_on(out, Verb::Copy, slot, &numbers_of(other)),
        Op::Clear(slot) => push_on(out, Verb::Clear, slot, &[]),
        Op::Same(slot, other) => push_on(out, Verb::Same, slot, &numbers_of(other)),
    }
}

/// The domain and the number of a slot.
fn numbers_of(slot: Slot) -> [u64; 2]
    ensures { result ≡ slot.domain ∷ slot.slot ∷ [] }
{
    [slot.domain as u64, slot.slot as u64]
}

/// Puts a lane's line at the end.
#[tactic(auto, unfolding(crate::specs::Lines::line_text))]
fn push_lane_line(out: &mut Vec<u8>, lane: u64) -> Result<(), AllocError>
    ensures { OnOk result (out.new.items ≡ out.old.items ++ line_text (lane_line lane)) }
{
    push_line(out, Keyword::Lane, &[lane])
}

/// Puts a lane's line and those of its operations at the end.
fn push_lane(out: &mut Vec<u8>, lane: u64, ops: &[Op]) -> Result<(), AllocError>
    ensures { OnOk result (out.new.items ≡ out.old.items ++ (line_text (lane_line lane) ++ flat_map line_text (map op_line ops.now))) }
{
    push_lane_line(out, lane)?;
    for op in ops {
        push_op(out, op)?;
    }
    Ok(())
}

/// Puts the lines of all lanes at the end.
fn push_lanes(out: &mut Vec<u8>, lanes: &[Vec<Op>]) -> Result<(), AllocError>
    ensures { OnOk result (out.new.items ≡ out.old.items ++ flat_map line_text (lane_lines 0 (map (λ v. v.items) lanes.now))) }
{
    for (lane, ops) in lanes.iter().enumerate() {
        push_lane(out, lane as u64, ops)?;
    }
    Ok(())
}

/// Puts the lines of all turns at the end.
fn push_turns(out: &mut Vec<u8>, turns: &[TurnLine]) -> Result<(), AllocError>
    ensures { OnOk result (out.new.items ≡ out.old.items ++ flat_map line_text (turn_lines 0 turns.now)) }
{
    let mut before = 0;
    for line in turns {
        push_turn(out, Shift::between(before, line.withheld), &line.hints)?;
        before = line.withheld;
    }
    Ok(())
}

/// Puts the line of a give or a freeze at the end.
#[tactic(auto, unfolding(crate::specs::Lines::line_text))]
fn push_change(out: &mut Vec<u8>, change: &Change) -> Result<(), AllocError>
    ensures { OnOk result (out.new.items ≡ out.old.items ++ line_text (change_line change.now)) }
{
    match *change {
        Change::Give(give) => push_line(
            out,
            Keyword::Give,
            &[give.domain as u64, give.lane as u64],
        ),
        Change::Freeze(domain) => push_line(out, Keyword::Freeze, &[domain as u64]),
    }
}

/// Puts the lines of all gives and freezes at the end.
fn push_changes(out: &mut Vec<u8>, changes: &[Change]) -> Result<(), AllocError>
    ensures { OnOk result (out.new.items ≡ out.old.items ++ flat_map line_text (map change_line changes.now)) }
{
    for change in changes {
        push_change(out, change)?;
    }
    Ok(())
}

/// Puts the lines of a phase at the end.
fn push_phase(out: &mut Vec<u8>, phase: &Phase) -> Result<(), AllocError>
    ensures { OnOk result (out.new.items ≡ out.old.items ++ flat_map line_text (phase_lines phase.now)) }
{
    push_line(out, Keyword::Phase, &[])?;
    push_turns(out, &phase.turns)?;
    push_lanes(out, &phase.lanes)?;
    push_changes(out, &phase.gives)?;
    push_line(out, Keyword::End, &[])?;
    Ok(())
}

/// The one text of a well-formed trace.
pub fn write(alloc: Global, trace: &Trace) -> Result<Vec<u8>, AllocError>
    requires { IsTrace trace.now }
    ensures { IfOk result (λ text. text.items ≡ trace_text trace.now) }
{
    let mut text = Vec::new(alloc);
    push_line(&mut text, Keyword::Version, &[trace.version as u64])?;
    push_setup(&mut text, &trace.setup)?;
    for phase in &trace.phases {
        push_phase(&mut text, phase)?;
    }
    push_line(&mut text, Keyword::Done, &[])?;
    Ok(text)
}
