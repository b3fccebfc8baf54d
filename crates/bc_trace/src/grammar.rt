//! Which line may stand next, and how far a line brings the reader.
ghost use Rattle.std.specs.Prelude.{◌≡◌, ◌==◌, ◌+◌, ◌^◌, ◌<◌, ℕ, List};
ghost use Rattle.bc_trace.specs.Grammar.{start, may_stand, stage_after_setting, with_setting, after};
ghost use Rattle.bc_trace.specs.Said.{said, CanGoOn};

use crate::line::Line;
use crate::words::{Keyword, Setting};
use bc_model::Setup;

/// How far a trace has been read: which lines may stand next.
#[derive(Clone, Copy, Debug)]
pub enum Stage {
    /// At the first line.
    Start,
    /// In the header, at the line of this setting.
    Awaiting(Setting),
    /// Between phases.
    Phases,
    /// In a phase, before its lanes.
    Turns,
    /// In a phase, at a lane's operations.
    Ops,
    /// In a phase, after its first give or freeze.
    Gives,
    /// After `done`.
    Finished,
}

/// What the lines so far say about which line may stand next, and what it may say.
#[derive(Clone, Copy, Debug)]
pub struct Progress {
    /// The version of the language; 0 before its line was read.
    pub version: u32,
    pub stage: Stage,
    /// The header's numbers; 0 where they weren't read yet.
    pub setup: Setup,
    /// The lanes of this phase that have stood.
    pub stood: u32,
    /// The frames that are withheld in the turn of this phase's last `turn` line; 0 before the first.
    pub withheld: u32,
}

impl Progress {
    /// Before the first line.
    pub fn new() -> Progress
        ensures { result ≡ start }
    {
        Progress {
            version: 0,
            stage: Stage::Start,
            setup: Setup {
                lanes: 0,
                domains: 0,
                slots: 0,
                superpages: 0,
                nursery: 0,
                buffer: 0,
                frames: 0,
            },
            stood: 0,
            withheld: 0,
        }
    }

    /// Whether a line with this word may stand next.
    #[inline(always)]
    #[tactic(auto, unfolding(crate::specs::Grammar::may_stand))]
    pub fn may_stand(&self, word: Keyword) -> bool
        ensures { result ≡ may_stand word self.now.stage (self.now.stood == self.now.setup.lanes) }
    {
        let all_stood = self.stood == self.setup.lanes;
        match word {
            Keyword::Version => matches!(self.stage, Stage::Start),
            Keyword::Setting(setting) => match self.stage {
                Stage::Awaiting(awaited) => setting == awaited,
                _ => false,
            },
            Keyword::Phase | Keyword::Done => matches!(self.stage, Stage::Phases),
            Keyword::Turn => matches!(self.stage, Stage::Turns),
            Keyword::Lane => match self.stage {
                Stage::Turns => true,
                Stage::Ops => !all_stood,
                _ => false,
            },
            Keyword::Op(_) => matches!(self.stage, Stage::Ops),
            Keyword::Give | Keyword::Freeze | Keyword::End => match self.stage {
                Stage::Ops => all_stood,
                Stage::Gives => true,
                _ => false,
            },
        }
    }

    /// Goes on after the line.
    #[inline(always)]
    pub fn advance(&mut self, line: Line)
        requires room { self.old.stood + 1 < 2 ^ 32 }
        requires shift { CanGoOn self.old line }
        ensures { (ns : List ℕ) → self.new ≡ after (said line ns) self.old }
    {
        match line {
            Line::Version(version) => {
                self.version = version;
                self.stage = Stage::Awaiting(Setting::Lanes);
            }
            Line::Setting(setting, number) => {
                self.stage = behind(setting);
                set(&mut self.setup, setting, number);
            }
            Line::Phase => {
                self.stage = Stage::Turns;
                self.stood = 0;
                self.withheld = 0;
            }
            Line::Turn(shift, _) => {
                self.stage = Stage::Turns;
                self.withheld = shift.after(self.withheld);
            }
            Line::Lane(_) => {
                self.stage = Stage::Ops;
                self.stood += 1;
            }
            Line::Op(_) => self.stage = Stage::Ops,
            Line::Give(_) | Line::Freeze(_) => self.stage = Stage::Gives,
            Line::End => self.stage = Stage::Phases,
            Line::Done => self.stage = Stage::Finished,
        }
    }
}

/// The stage after the line of a setting.
fn behind(setting: Setting) -> Stage
    ensures { result ≡ stage_after_setting setting }
{
    match setting {
        Setting::Lanes => Stage::Awaiting(Setting::Domains),
        Setting::Domains => Stage::Awaiting(Setting::Slots),
        Setting::Slots => Stage::Awaiting(Setting::Superpages),
        Setting::Superpages => Stage::Awaiting(Setting::Nursery),
        Setting::Nursery => Stage::Awaiting(Setting::Buffer),
        Setting::Buffer => Stage::Awaiting(Setting::Frames),
        Setting::Frames => Stage::Phases,
    }
}

/// Puts the number of a setting into the setup.
fn set(setup: &mut Setup, setting: Setting, number: u32)
    ensures { setup.new ≡ with_setting setting number setup.old }
{
    match setting {
        Setting::Lanes => setup.lanes = number,
        Setting::Domains => setup.domains = number,
        Setting::Slots => setup.slots = number,
        Setting::Superpages => setup.superpages = number,
        Setting::Nursery => setup.nursery = number,
        Setting::Buffer => setup.buffer = number,
        Setting::Frames => setup.frames = number,
    }
}
