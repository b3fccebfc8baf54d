//! What a line says.
ghost use Rattle.std.specs.Prelude.{◌≡◌};
ghost use Rattle.bc_trace.specs.Grammar.{shifted};
ghost use Rattle.bc_trace.specs.Lines.{shift_between};
ghost use Rattle.bc_trace.specs.Said.{CanShift};

use crate::words::Setting;
use bc_model::{Give, Op};

/// What a turn's line does to the frames that are withheld.
#[derive(Clone, Copy, Debug)]
pub enum Shift {
    /// As many stay withheld.
    Stays,
    /// So many more are withheld: the operand is a minus and this number.
    Withhold(u64),
    /// So many are returned: the operand is a plus and this number.
    Return(u64),
}

/// What a line says. The hints of a turn lie apart, in a buffer.
#[derive(Clone, Copy, Debug)]
pub enum Line {
    Version(u32),
    Setting(Setting, u32),
    Phase,
    /// So many numbers of the buffer are the hints.
    Turn(Shift, usize),
    Lane(u32),
    Op(Op),
    Give(Give),
    Freeze(u32),
    End,
    Done,
}

impl Shift {
    /// What brings the number of withheld frames from what it was to what it is now.
    #[tactic(auto, unfolding(crate::specs::Lines::shift_between))]
    pub fn between(before: u32, now: u32) -> Shift
        ensures { result ≡ shift_between before now }
    {
        if before < now {
            Shift::Withhold((now - before) as u64)
        } else if now < before {
            Shift::Return((before - now) as u64)
        } else {
            Shift::Stays
        }
    }

    /// How many frames are withheld after it, where so many were.
    #[inline(always)]
    pub fn after(self, withheld: u32) -> u32
        requires { CanShift withheld self }
        ensures { result ≡ shifted self withheld }
    {
        match self {
            Shift::Stays => withheld,
            Shift::Withhold(frames) => withheld + frames as u32,
            Shift::Return(frames) => withheld - frames as u32,
        }
    }
}
