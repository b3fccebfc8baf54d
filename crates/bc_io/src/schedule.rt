//! Which calls of a device in memory fail.

ghost use Rattle.std.specs.Prelude.{◌≡◌, ◌+◌, ◌<◌, ◌≤◌, ◌↔◌, IsTrue, if◌then◌else◌};
ghost use Rattle.bc_io.specs.FaultCounts.{counted};
ghost use Rattle.bc_io.specs.Scripts.{FailsNext};

/// The numbers of the calls that fail, how many calls were made, and how many of them failed.
#[derive(Drop)]
pub(crate) struct Schedule {
    failing: Vec<u64>,
    calls: u64,
    faults: u64,
    ghost counted: { faults ≤ calls },
}

impl Schedule {
    /// No call was made yet. The numbers are counted from 1.
    pub(crate) fn new(failing: Vec<u64>) -> Schedule
        ensures failing { result.failing ≡ failing }
        ensures calls { result.calls ≡ 0 }
        ensures faults { result.faults ≡ 0 }
    {
        Schedule {
            failing,
            calls: 0,
            faults: 0,
        }
    }

    /// Counts a call, and says whether it fails.
    pub(crate) fn next_fails(&mut self) -> bool
        ensures fails { IsTrue result ↔ FailsNext self.old.failing.items self.old.calls }
        ensures failing { self.new.failing ≡ self.old.failing }
        ensures calls { self.new.calls ≡ counted self.old.calls }
        ensures faults { self.new.faults
            ≡ (if result then self.old.faults + 1 else self.old.faults) }
    {
        let fails = fails_after(&self.failing, self.calls);
        self.calls = self.calls.saturating_add(1);
        if fails {
            self.faults += 1;
        }
        fails
    }
}

/// Whether the call after this many is to fail. The list has no number that a `u64` can't count.
fn fails_after(failing: &[u64], calls: u64) -> bool
    ensures fails { IsTrue result ↔ FailsNext failing.now calls }
    ensures within { IsTrue result → calls < u64.MAX }
{
    match calls.checked_add(1) {
        Some(number) => failing.contains(&number),
        None => false,
    }
}
