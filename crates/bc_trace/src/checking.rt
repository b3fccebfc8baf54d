//! What a line says once its word and its numbers are read: the tests of counts and ranges.
ghost use Rattle.std.specs.Prelude.{◌≡◌, ◌+◌, ◌*◌, ◌^◌, ◌<◌, ◌≤◌, ◌==◌, ◌&&◌, [], if◌then◌else◌, nat_lt, true, length, slice_index, Some, None, Ok, Err, IfOk};
ghost use Rattle.std.specs.List.{list_all};
ghost use Rattle.bc_trace.specs.declared.words.Keyword.TheVariants as words;
ghost use Rattle.bc_trace.specs.Grammar.{arity};
ghost use Rattle.bc_trace.specs.Reading.{most_of, has_count, slot_at, op_of, give_at, is_slot, is_op, is_within, is_setting, least_frames, most_frames, in_range, frames_fit, shift_in_range, shift_fits, line_of, judge_line};
ghost use Rattle.bc_trace.specs.Lines.{setting as setting_of, turn as turn_of};
ghost use Rattle.bc_trace.specs.Said.{Reads, IsSmall, HoldsAllHints, CanGoOn, CanShift};

use crate::fault::Cause;
use crate::grammar::Progress;
use crate::line::{Line, Shift};
use crate::words::{Keyword, Setting, Verb};
use bc_model::{Give, Op, Setup, Slot};

/// The latest version of the language.
const LATEST: u64 = 3;

/// The most frames that a setup may have, and so the most that a line can withhold or return.
const MOST_FRAMES: u64 = 16_640;

/// How many numbers follow the word, `turn` aside.
#[tactic(auto, unfolding(crate::specs::Grammar::arity))]
fn arity(word: Keyword) -> usize
    ensures { result ≡ arity word }
{
    match word {
        Keyword::Version | Keyword::Setting(_) | Keyword::Lane | Keyword::Freeze => 1,
        Keyword::Phase | Keyword::Turn | Keyword::End | Keyword::Done => 0,
        Keyword::Give => 2,
        Keyword::Op(verb) => match verb {
            Verb::Who | Verb::Len | Verb::Clear => 2,
            Verb::New | Verb::Cut => 3,
            Verb::Set | Verb::Copy | Verb::Same => 4,
            Verb::Link | Verb::Load => 5,
        },
    }
}

/// Whether so many numbers may follow the word.
#[tactic(auto, unfolding(crate::specs::Reading::has_count))]
pub fn has_count(word: Keyword, count: usize) -> bool
    ensures { result ≡ has_count word count }
{
    match word {
        Keyword::Turn => count <= 64,
        _ => count == arity(word),
    }
}

/// The number, if it is below the limit.
fn below(number: u64, limit: u32) -> Option<u32>
    ensures { result ≡ (if nat_lt number limit then Some number else None) }
{
    if number < limit as u64 {
        Some(number as u32)
    } else {
        None
    }
}

/// The slot whose domain and number stand at `at`, if there is one.
fn slot_at(setup: &Setup, numbers: &[u64], at: usize) -> Option<Slot>
    requires { at + 1 < length numbers.now }
    ensures { result ≡ (if is_slot setup.now (slot_at numbers.now at) then Some (slot_at numbers.now at) else None) }
{
    let domain = below(numbers[at], setup.domains)?;
    let slot = below(numbers[at + 1], setup.slots)?;
    Some(Slot { domain, slot })
}

/// The operation, if its numbers are in range.
#[tactic(auto, unfolding(crate::specs::Reading::is_op, crate::specs::Grammar::arity))]
fn op_of(setup: &Setup, verb: Verb, numbers: &[u64]) -> Option<Op>
    requires { length numbers.now ≡ arity (words.Op verb) }
    ensures { result ≡ (if is_op setup.now (op_of verb numbers.now) then Some (op_of verb numbers.now) else None) }
{
    let first = slot_at(setup, numbers, 0)?;
    match verb {
        Verb::New => Some(Op::New(first, below(numbers[2], 128)?)),
        Verb::Who => Some(Op::Who(first)),
        Verb::Len => Some(Op::Len(first)),
        Verb::Set => {
            let field = below(numbers[2], 127)?;
            if numbers[3] < 1 << 63 {
                Some(Op::Set(first, field, numbers[3]))
            } else {
                None
            }
        }
        Verb::Cut => Some(Op::Cut(first, below(numbers[2], 127)?)),
        Verb::Link => {
            let field = below(numbers[2], 127)?;
            Some(Op::Link(first, field, slot_at(setup, numbers, 3)?))
        }
        Verb::Load => {
            let field = below(numbers[2], 127)?;
            Some(Op::Load(first, field, slot_at(setup, numbers, 3)?))
        }
        Verb::Copy => Some(Op::Copy(first, slot_at(setup, numbers, 2)?)),
        Verb::Clear => Some(Op::Clear(first)),
        Verb::Same => Some(Op::Same(first, slot_at(setup, numbers, 2)?)),
    }
}

/// The give, if its numbers are in range.
fn give_of(setup: &Setup, numbers: &[u64]) -> Option<Give>
    requires { length numbers.now ≡ 2 }
    ensures { result ≡ (if nat_lt (slice_index numbers.now 0) setup.now.domains && nat_lt (slice_index numbers.now 1) setup.now.lanes then Some (give_at numbers.now) else None) }
{
    let domain = below(numbers[0], setup.domains)?;
    let lane = below(numbers[1], setup.lanes)?;
    Some(Give { domain, lane })
}

/// Whether each number may be a hint.
fn are_hints(numbers: &[u64]) -> bool
    ensures { result ≡ list_all (λ h. nat_lt h (2 ^ 32)) numbers.now }
{
    numbers.iter().all(|hint| *hint < 1 << 32)
}

/// Whether there may be so many frames.
fn fits_frames(setup: &Setup, number: u64) -> bool
    requires lanes { setup.now.lanes ≤ 16 }
    requires nursery { setup.now.nursery ≤ 16 }
    requires superpages { setup.now.superpages ≤ 4096 }
    ensures { result ≡ is_within (least_frames setup.now) (most_frames setup.now) number }
{
    let nurseries = setup.lanes * setup.nursery;
    let least = nurseries + 2;
    let most = nurseries + 4 * setup.superpages;
    least as u64 <= number && number <= most as u64
}

/// Whether a line can withhold or return so many frames at all.
fn is_shift(shift: Shift) -> bool
    ensures { result ≡ shift_in_range shift }
{
    match shift {
        Shift::Stays => true,
        Shift::Withhold(frames) | Shift::Return(frames) => 1 <= frames && frames <= MOST_FRAMES,
    }
}

/// Whether so many frames can be withheld or returned here.
fn fits_shift(progress: &Progress, shift: Shift) -> bool
    requires { IsSmall progress.now progress.now.stood }
    ensures fits { result ≡ shift_fits progress.now shift }
    ensures room { result ≡ true → CanShift progress.now.withheld shift }
{
    match shift {
        Shift::Stays => true,
        Shift::Withhold(frames) => {
            let least = progress.setup.lanes * progress.setup.nursery + 2;
            let taken = least as u64 + progress.withheld as u64;
            let all = progress.setup.frames as u64;
            taken <= all && frames <= all - taken
        }
        Shift::Return(frames) => frames <= progress.withheld as u64,
    }
}

/// What the line of a turn says.
#[tactic(auto, unfolding(crate::specs::Reading::judge_line, crate::specs::Reading::in_range, crate::specs::Reading::frames_fit))]
fn turn_line(progress: &Progress, shift: Shift, hints: &[u64]) -> Result<Line, Cause>
    requires { IsSmall progress.now progress.now.stood }
    ensures reads { Reads (judge_line progress.now (turn_of shift hints.now)) result hints.now }
    ensures whole { IfOk result (λ l. HoldsAllHints l hints.now) }
    ensures shift { IfOk result (λ l. CanGoOn progress.now l) }
{
    if !is_shift(shift) || !are_hints(hints) {
        return Err(Cause::Range);
    }
    if !fits_shift(progress, shift) {
        return Err(Cause::Frames);
    }
    Ok(Line::Turn(shift, hints.len()))
}

/// The most that a setting other than the frames may say.
fn most_of(setting: Setting) -> u64
    ensures { result ≡ most_of setting }
{
    match setting {
        Setting::Lanes | Setting::Nursery => 16,
        Setting::Domains => 64,
        Setting::Slots => 256,
        Setting::Superpages | Setting::Buffer => 4096,
        Setting::Frames => 0,
    }
}

/// What the line of a setting says.
#[tactic(auto, unfolding(crate::specs::Reading::judge_line, crate::specs::Reading::in_range, crate::specs::Reading::frames_fit, crate::specs::Reading::is_setting))]
fn setting_line(progress: &Progress, setting: Setting, number: u64) -> Result<Line, Cause>
    requires { IsSmall progress.now progress.now.stood }
    ensures { Reads (judge_line progress.now (setting_of setting number)) result [] }
{
    match setting {
        Setting::Frames => {
            if fits_frames(&progress.setup, number) {
                Ok(Line::Setting(setting, number as u32))
            } else {
                Err(Cause::Frames)
            }
        }
        _ => {
            if 1 <= number && number <= most_of(setting) {
                Ok(Line::Setting(setting, number as u32))
            } else {
                Err(Cause::Range)
            }
        }
    }
}

/// What a line says: its word, what it does to the withheld frames, and as many numbers as may follow it.
#[tactic(auto, unfolding(crate::specs::Reading::judge_line, crate::specs::Reading::in_range, crate::specs::Reading::frames_fit, crate::specs::Reading::has_count, crate::specs::Grammar::arity))]
pub fn line_of(
    progress: &Progress,
    word: Keyword,
    shift: Shift,
    numbers: &[u64],
) -> Result<Line, Cause>
    requires small { IsSmall progress.now progress.now.stood }
    requires count { has_count word (length numbers.now) ≡ true }
    ensures reads { Reads (judge_line progress.now (line_of word shift numbers.now)) result numbers.now }
    ensures whole { IfOk result (λ l. HoldsAllHints l numbers.now) }
    ensures shift { IfOk result (λ l. CanGoOn progress.now l) }
{
    match word {
        Keyword::Version => {
            if 1 <= numbers[0] && numbers[0] <= LATEST {
                Ok(Line::Version(numbers[0] as u32))
            } else {
                Err(Cause::Range)
            }
        }
        Keyword::Setting(setting) => setting_line(progress, setting, numbers[0]),
        Keyword::Phase => Ok(Line::Phase),
        Keyword::Turn => turn_line(progress, shift, numbers),
        Keyword::Lane => {
            if numbers[0] == progress.stood as u64 {
                Ok(Line::Lane(progress.stood))
            } else {
                Err(Cause::Range)
            }
        }
        Keyword::Give => match give_of(&progress.setup, numbers) {
            Some(give) => Ok(Line::Give(give)),
            None => Err(Cause::Range),
        },
        Keyword::Freeze => match below(numbers[0], progress.setup.domains) {
            Some(domain) => Ok(Line::Freeze(domain)),
            None => Err(Cause::Range),
        },
        Keyword::End => Ok(Line::End),
        Keyword::Done => Ok(Line::Done),
        Keyword::Op(verb) => match op_of(&progress.setup, verb, numbers) {
            Some(op) => Ok(Line::Op(op)),
            None => Err(Cause::Range),
        },
    }
}
