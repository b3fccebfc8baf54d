//! Frames that are withheld: how many in each turn, and that pages leave for them.

ghost use Rattle.std.specs.Prelude.{◌≡◌, ◌+◌, ◌-◌, ◌*◌, ◌^◌, ◌≤◌, List, Vec, min};
ghost use Rattle.bc_bookmarks.specs.Withholding.{Withheld};
ghost use Rattle.bc_engine.specs.EngineFacts.{CanRunLanes};
ghost use Rattle.bc_engine.specs.Lanes.{LanesRan};
ghost use Rattle.bc_model.specs.TurnLines.{budget_at};
ghost use Rattle.bc_running.specs.RunningFacts.{with_space};
ghost use Rattle.bc_whole_heap.specs.HeapFacts.{NoneRemembered};

use bc_model::{Op, Reply, Setup, TurnLine};
use bc_running::Running;
use std::alloc::Global;

/// How many frames are withheld in a turn of the lanes that uses this line. Where there is no such line, none.
pub(crate) fn withheld_at(lines: &[TurnLine], line: usize) -> u32
    ensures { result ≡ budget_at lines.now line }
{
    match lines.get(line) {
        Some(turn) => turn.withheld,
        None => 0,
    }
}

/// How many frames more this line withholds than so many.
pub(crate) fn withheld_beyond(lines: &[TurnLine], line: usize, now: u32) -> u32
    ensures { result ≡ budget_at lines.now line - now }
{
    withheld_at(lines, line).saturating_sub(now)
}

/// How many frames are wanted after a turn: as many as the nurseries have pages, and so many more.
pub(crate) fn wanted_frames(setup: &Setup, more: u32) -> u32
    ensures few { result ≤ setup.now.lanes * setup.now.nursery + more }
{
    nursery_pages(setup).saturating_add(more)
}

/// How many pages the nurseries of all lanes have.
fn nursery_pages(setup: &Setup) -> u32
    ensures { result ≡ min (setup.now.lanes * setup.now.nursery) (2 ^ 32 - 1) }
{
    setup.lanes.saturating_mul(setup.nursery)
}

/// Has so many frames be withheld beside those of the nurseries, and no other, where no page is remembered. Pages are given up where frames are
/// wanting. What the heap stands for stays, and lanes can run on. It takes no memory.
pub(crate) fn withhold(running: &mut Running, setup: &Setup, frames: u32)
    requires ready { CanRunLanes setup.now running.old }
    requires unrecorded { NoneRemembered running.old.heap.space }
    requires fits { setup.now.lanes * setup.now.nursery + 2 + frames ≤ setup.now.frames }
    ensures withheld { Withheld (setup.now.lanes * setup.now.nursery + frames) running.old.heap.space running.new.heap.space }
    ensures rest { running.new ≡ with_space running.old running.new.heap.space }
    ensures runs { (lanes : List (List Op)) → (told : List (Vec Reply Global)) → LanesRan lanes running.old told running.new told }
{
    let nurseries = nursery_pages(setup);
    running.withhold(nurseries, frames);
}
