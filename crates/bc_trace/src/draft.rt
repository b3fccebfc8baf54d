//! The trace that is being read: what the lines so far say, put together.
ghost use Rattle.std.specs.Prelude.{◌≡◌, ◌+◌, ◌^◌, ◌<◌, ◌≤◌, [], length, OnOk, IfOk};
ghost use Rattle.bc_trace.specs.declared.grammar.Stage.TheVariants as stages;
ghost use Rattle.bc_trace.specs.Lines.{turn, op as op_line};
ghost use Rattle.bc_trace.specs.declared.line.Shift.TheVariants.{Stays};
ghost use Rattle.bc_trace.specs.Drafts.{shown, empty_draft, put, lanes_ended, phase_ended};
ghost use Rattle.bc_trace.specs.Reading.{lines_of, reading};
ghost use Rattle.bc_trace.specs.Said.{said, FitsBuffer, AreHints, CanGoOn};

use crate::grammar::Progress;
use crate::line::Line;
use crate::operations::{op_ahead, turn_ahead};
use bc_model::{Change, Op, Phase, TurnLine};
use std::alloc::{AllocError, Global};
use std::mem;

/// Up to so many elements are copied into a list of their own size.
const SHORT: usize = 1024;

/// A trace that is being read.
#[derive(Drop)]
pub struct Draft {
    pub progress: Progress,
    /// The phases that were read.
    pub phases: Vec<Phase>,
    /// The turns of the phase that is being read.
    pub turns: Vec<TurnLine>,
    /// Its lanes before the one that was begun last.
    pub lanes: Vec<Vec<Op>>,
    /// The operations of that lane.
    pub ops: Vec<Op>,
    /// The gives and freezes of the phase.
    pub gives: Vec<Change>,
}

impl Draft {
    pub fn new(alloc: Global) -> Draft
        ensures { shown result ≡ empty_draft }
    {
        Draft {
            progress: Progress::new(),
            phases: Vec::new(alloc),
            turns: Vec::new(alloc),
            lanes: Vec::new(alloc),
            ops: Vec::new(alloc),
            gives: Vec::new(alloc),
        }
    }

    /// After the last operation of a lane.
    #[inline(always)]
    fn end_lane(&mut self, alloc: Global) -> Result<(), AllocError>
        ensures { OnOk result (shown self.new ≡ lanes_ended (shown self.old)) }
    {
        let ops = take_all(alloc, &mut self.ops)?;
        self.lanes.push(ops)?;
        Ok(())
    }

    /// After the last line of a phase.
    #[inline(always)]
    fn end_phase(&mut self, alloc: Global) -> Result<(), AllocError>
        ensures { OnOk result (shown self.new ≡ phase_ended (shown self.old)) }
    {
        self.end_lane(alloc)?;
        let phase = Phase {
            turns: take_all(alloc, &mut self.turns)?,
            lanes: mem::replace(&mut self.lanes, Vec::new(alloc)),
            gives: take_all(alloc, &mut self.gives)?,
        };
        self.phases.push(phase)?;
        Ok(())
    }

    /// Puts one more line in. After an error the draft is of no use.
    #[inline(always)]
    #[tactic(auto, unfolding(crate::specs::Drafts::put_lists))]
    pub fn put(&mut self, alloc: Global, line: Line, numbers: &[u64]) -> Result<(), AllocError>
        requires room { self.old.progress.stood + 1 < 2 ^ 32 }
        requires buffer { FitsBuffer line numbers.now }
        requires shift { CanGoOn self.old.progress line }
        ensures { OnOk result (shown self.new ≡ put (said line numbers.now) (shown self.old)) }
    {
        match line {
            Line::Version(_) | Line::Setting(_, _) | Line::Phase | Line::Done => {}
            Line::Turn(shift, count) => self.turns.push(TurnLine {
                withheld: shift.after(self.progress.withheld),
                hints: hints(alloc, &numbers[..count])?,
            })?,
            Line::Lane(_) => {
                if self.progress.stood == 0 {
                    self.lanes
                        .reserve_exact(self.progress.setup.lanes as usize)?;
                } else {
                    self.end_lane(alloc)?;
                }
            }
            Line::Op(op) => self.ops.push(op)?,
            Line::Give(give) => self.gives.push(Change::Give(give))?,
            Line::Freeze(domain) => self.gives.push(Change::Freeze(domain))?,
            Line::End => self.end_phase(alloc)?,
        }
        self.progress.advance(line);
        Ok(())
    }

    /// Puts one more turn in, which withholds as many frames as the one before it. After an error the draft is of no use.
    #[inline(always)]
    #[tactic(auto, unfolding(crate::specs::Drafts::put_lists))]
    fn put_turn(&mut self, alloc: Global, hints: &[u32]) -> Result<(), AllocError>
        requires { self.old.progress.stage ≡ stages.Turns }
        ensures progress { OnOk result (self.new.progress ≡ self.old.progress) }
        ensures put { OnOk result (shown self.new ≡ put (turn Stays hints.now) (shown self.old)) }
    {
        self.turns.push(TurnLine {
            withheld: self.progress.withheld,
            hints: Vec::from_slice(alloc, hints)?,
        })?;
        Ok(())
    }

    /// Puts one more operation in. After an error the draft is of no use.
    #[inline(always)]
    #[tactic(auto, unfolding(crate::specs::Drafts::put_lists))]
    fn put_op(&mut self, op: Op) -> Result<(), AllocError>
        requires { self.old.progress.stage ≡ stages.Ops }
        ensures progress { OnOk result (self.new.progress ≡ self.old.progress) }
        ensures put { OnOk result (shown self.new ≡ put (op_line op) (shown self.old)) }
    {
        self.ops.push(op)?;
        Ok(())
    }

    /// Puts the turns in whose lines the text begins with. Answers how many lines were read by then, and what
    /// follows them. After an error the draft is of no use.
    pub fn put_turns<'a>(
        &mut self,
        alloc: Global,
        lines: u32,
        text: &'a [u8],
        hints: &mut [u32; 64],
    ) -> Result<(u32, &'a [u8]), AllocError>
        requires stage { self.old.progress.stage ≡ stages.Turns }
        requires count { lines + length text.now < 2 ^ 32 }
        ensures progress { OnOk result (self.new.progress ≡ self.old.progress) }
        ensures count { IfOk result (λ r. r.0 + length r.1.now ≤ lines + length text.now) }
        ensures more { IfOk result (λ r. lines ≤ r.0) }
        ensures reads { IfOk result (λ r. reading (shown self.new) r.0 (lines_of r.1.now) ≡ reading (shown self.old) lines (lines_of text.now)) }
    {
        let mut count = lines;
        let mut rest = text;
        while let Some((many, after)) = turn_ahead(&self.progress, rest, hints) {
            self.put_turn(alloc, &hints[..many])?;
            count += 1;
            rest = after;
        }
        Ok((count, rest))
    }

    /// Puts the operations in whose lines the text begins with. Answers how many lines were read by then, and what
    /// follows them. After an error the draft is of no use.
    pub fn put_ops<'a>(&mut self, lines: u32, text: &'a [u8]) -> Result<(u32, &'a [u8]), AllocError>
        requires stage { self.old.progress.stage ≡ stages.Ops }
        requires count { lines + length text.now < 2 ^ 32 }
        ensures progress { OnOk result (self.new.progress ≡ self.old.progress) }
        ensures count { IfOk result (λ r. r.0 + length r.1.now ≤ lines + length text.now) }
        ensures more { IfOk result (λ r. lines ≤ r.0) }
        ensures reads { IfOk result (λ r. reading (shown self.new) r.0 (lines_of r.1.now) ≡ reading (shown self.old) lines (lines_of text.now)) }
    {
        let mut count = lines;
        let mut rest = text;
        while let Some((op, after)) = op_ahead(&self.progress, rest) {
            self.put_op(op)?;
            count += 1;
            rest = after;
        }
        Ok((count, rest))
    }
}

/// Takes the elements out, into a list with no room to spare. A short list keeps its room for those of the next lane or
/// phase: to grow anew each time would cost more than the copy.
#[inline(always)]
fn take_all<T: Drop>(alloc: Global, list: &mut Vec<T>) -> Result<Vec<T>, AllocError>
    ensures taken { IfOk result (λ all. all.items ≡ list.old.items) }
    ensures left { OnOk result (list.new.items ≡ []) }
{
    if list.is_empty() {
        return Ok(Vec::new(alloc));
    }
    if list.len() > SHORT {
        let mut all = mem::replace(list, Vec::new(alloc));
        all.shrink_to_fit();
        return Ok(all);
    }
    let mut all = Vec::with_capacity(alloc, list.len())?;
    all.append(list)?;
    Ok(all)
}

/// The numbers as hints.
fn hints(alloc: Global, numbers: &[u64]) -> Result<Vec<u32>, AllocError>
    requires { AreHints numbers.now }
    ensures { IfOk result (λ v. v.items ≡ numbers.now) }
{
    let mut hints = Vec::with_capacity(alloc, numbers.len())?;
    for number in numbers {
        hints.push(*number as u32)?;
    }
    Ok(hints)
}
