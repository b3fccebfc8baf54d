//! Lanes at work, each on a thread of its own or one after another, and pagers beside them.

ghost use Rattle.std.specs.Prelude.{◌≡◌, length, IfNone, IfSome};
ghost use Rattle.std.specs.Thread.{IsSync};
ghost use Rattle.bc_model.specs.Rows.{lists_of};
ghost use Rattle.bc_pager.specs.Claiming.{unshared};
ghost use Rattle.bc_pager.specs.Feeding.{HasServedLive, IsLivePagerReady, ServedOut, ServesLive};
ghost use Rattle.bc_pager.specs.Paging.{AllPagersReady, HaveAllPaged};
ghost use Rattle.bc_turn.specs.Taking.{CanAllRun, CanRun, HaveRun, LaneHasRun};

use bc_gates::Gate;
use bc_lane::LaneTurn;
use bc_model::Op;
use bc_pager::{Notices, Paging, serve_each, serve_live};
use bc_pins::{Pins, Seat};
use bc_superpages::Roots;
use std::thread;
use std::thread::Threads;

/// A lane at work: its seat at the table, and what it took into the turn.
pub(crate) struct Run {
    pub(crate) seat: Seat,
    pub(crate) turn: LaneTurn,
    /// Unused: lanes write to their runs all the time, and two of a list stand two cache lines of 64 bytes apart, since processors fetch
    /// lines in pairs.
    pub(crate) padding: [u64; 16],
}

/// On which threads the seats of a turn work, but for the live pager, which always has a thread of its own. What they do is the same.
#[derive(Clone, Copy, PartialEq, Eq, Debug)]
pub enum TurnThreads {
    /// One pager after another and then one lane after another work on the caller's thread.
    One,
    /// Each lane has a thread of its own, and the pagers have one together. Who works alone is on the caller's thread.
    Lanes,
    /// Each lane and each pager has a thread of its own. Who works alone is on the caller's thread.
    Each,
}

/// Runs all lanes and the pagers beside them, and beside these, on a thread of its own, the live pager, where there is one. `shared` has the
/// root slots, of which all lanes read those of frozen domains. There may be no lane that runs, and where there is no notice there is no
/// pager but the live one.
pub(crate) fn run_turn<R: Threads + Sync, N: Notices + Send, G: Gate + Sync>(
    rt: &R,
    pins: &Pins,
    lanes: &[Vec<Op>],
    shared: &Roots,
    hints: &[u32],
    gate: &G,
    runs: &mut Vec<Run>,
    pagers: &mut Vec<Paging>,
    live: &mut N,
    pager: &mut Option<Paging>,
    threads: TurnThreads,
)
    requires can { CanAllRun pins.now (lists_of lanes.now) shared.now runs.old.items }
    requires ready { AllPagersReady pins.now hints.now pagers.old.items }
    requires unshared { N.shared live.old ≡ unshared }
    requires live_ready { IfSome pager.old (IsLivePagerReady pins.now) }
    ensures ran { HaveRun (lists_of lanes.now) runs.old.items runs.new.items }
    ensures paged { HaveAllPaged pins.now hints.now pagers.old.items pagers.new.items }
    ensures served { ServesLive pins.now (N.taken live.old) (N.taken live.new) (N.since live.old) (N.since live.new) pager.old pager.new }
    ensures ended { IfSome pager.new (λ paging. ServedOut (N.ends live.old) (N.ends live.new) 0 (length paging.answers.list)) }
    ensures none { IfNone pager.old (live.new ≡ live.old) }
    ensures feed { (N.shared live.new ≡ N.shared live.old) × (N.told live.new ≡ N.told live.old) × (N.most live.new ≡ N.most live.old) }
{
    match pager {
        Some(paging) => run_live(
            rt, pins, lanes, shared, hints, gate, runs, pagers, live, paging, threads,
        ),
        None => run_beside(rt, pins, lanes, shared, hints, gate, runs, pagers, threads),
    }
}

/// The same with a live pager.
fn run_live<R: Threads + Sync, N: Notices + Send, G: Gate + Sync>(
    rt: &R,
    pins: &Pins,
    lanes: &[Vec<Op>],
    shared: &Roots,
    hints: &[u32],
    gate: &G,
    runs: &mut Vec<Run>,
    pagers: &mut Vec<Paging>,
    live: &mut N,
    paging: &mut Paging,
    threads: TurnThreads,
)
    requires can { CanAllRun pins.now (lists_of lanes.now) shared.now runs.old.items }
    requires ready { AllPagersReady pins.now hints.now pagers.old.items }
    requires unshared { N.shared live.old ≡ unshared }
    requires live_ready { IsLivePagerReady pins.now paging.old }
    ensures ran { HaveRun (lists_of lanes.now) runs.old.items runs.new.items }
    ensures paged { HaveAllPaged pins.now hints.now pagers.old.items pagers.new.items }
    ensures served { HasServedLive pins.now (N.taken live.old) (N.taken live.new) (N.since live.old) (N.since live.new) paging.old paging.new }
    ensures ended { ServedOut (N.ends live.old) (N.ends live.new) 0 (length paging.new.answers.list) }
    ensures feed { (N.shared live.new ≡ N.shared live.old) × (N.told live.new ≡ N.told live.old) × (N.most live.new ≡ N.most live.old) }
{
    thread::join_mut(
        rt,
        &mut ||
            requires { (N.shared live.now ≡ unshared) × IsLivePagerReady pins.now paging.now }
            ensures { HasServedLive pins.entry.now (N.taken live.entry.now) (N.taken live.exit.now) (N.since live.entry.now) (N.since live.exit.now) paging.entry.now paging.exit.now
                × ServedOut (N.ends live.entry.now) (N.ends live.exit.now) 0 (length paging.exit.now.answers.list)
                × (N.shared live.exit.now ≡ N.shared live.entry.now) × (N.told live.exit.now ≡ N.told live.entry.now) × (N.most live.exit.now ≡ N.most live.entry.now) }
        { serve_live(pins, live, gate, paging) },
        &mut ||
            requires { IsSync R.row × CanAllRun pins.now (lists_of lanes.now) shared.now runs.now.items × AllPagersReady pins.now hints.now pagers.now.items }
            ensures { HaveRun (lists_of lanes.entry.now) runs.entry.now.items runs.exit.now.items × HaveAllPaged pins.entry.now hints.entry.now pagers.entry.now.items pagers.exit.now.items }
        { run_beside(rt, pins, lanes, shared, hints, gate, runs, pagers, threads) },
    );
}

/// Runs all lanes, and the pagers beside them.
fn run_beside<R: Threads + Sync, G: Gate + Sync>(
    rt: &R,
    pins: &Pins,
    lanes: &[Vec<Op>],
    shared: &Roots,
    hints: &[u32],
    gate: &G,
    runs: &mut Vec<Run>,
    pagers: &mut Vec<Paging>,
    threads: TurnThreads,
)
    requires can { CanAllRun pins.now (lists_of lanes.now) shared.now runs.old.items }
    requires ready { AllPagersReady pins.now hints.now pagers.old.items }
    ensures ran { HaveRun (lists_of lanes.now) runs.old.items runs.new.items }
    ensures paged { HaveAllPaged pins.now hints.now pagers.old.items pagers.new.items }
{
    if runs.is_empty() || pagers.is_empty() || threads == TurnThreads::One {
        serve_all(rt, pins, hints, gate, pagers, threads);
        run_all(rt, pins, lanes, shared, gate, runs, threads);
    } else {
        run_abreast(rt, pins, lanes, shared, hints, gate, runs, pagers, threads);
    }
}

/// Runs all lanes side by side, each on a thread of its own, and the pagers beside them on one or more others.
fn run_abreast<R: Threads + Sync, G: Gate + Sync>(
    rt: &R,
    pins: &Pins,
    lanes: &[Vec<Op>],
    shared: &Roots,
    hints: &[u32],
    gate: &G,
    runs: &mut Vec<Run>,
    pagers: &mut Vec<Paging>,
    threads: TurnThreads,
)
    requires can { CanAllRun pins.now (lists_of lanes.now) shared.now runs.old.items }
    requires ready { AllPagersReady pins.now hints.now pagers.old.items }
    ensures ran { HaveRun (lists_of lanes.now) runs.old.items runs.new.items }
    ensures paged { HaveAllPaged pins.now hints.now pagers.old.items pagers.new.items }
{
    thread::join_mut(
        rt,
        &mut ||
            requires { IsSync R.row × AllPagersReady pins.now hints.now pagers.now.items }
            ensures { HaveAllPaged pins.entry.now hints.entry.now pagers.entry.now.items pagers.exit.now.items }
        { serve_all(rt, pins, hints, gate, pagers, threads) },
        &mut ||
            requires { IsSync R.row × CanAllRun pins.now (lists_of lanes.now) shared.now runs.now.items }
            ensures { HaveRun (lists_of lanes.entry.now) runs.entry.now.items runs.exit.now.items }
        { run_all(rt, pins, lanes, shared, gate, runs, threads) },
    );
}

/// All pagers answer notices, side by side or one after another, until none is left.
fn serve_all<R: Threads + Sync, G: Gate + Sync>(
    rt: &R,
    pins: &Pins,
    hints: &[u32],
    gate: &G,
    pagers: &mut Vec<Paging>,
    threads: TurnThreads,
)
    requires ready { AllPagersReady pins.now hints.now pagers.old.items }
    ensures paged { HaveAllPaged pins.now hints.now pagers.old.items pagers.new.items }
{
    let count = match threads {
        TurnThreads::One | TurnThreads::Lanes => 1,
        TurnThreads::Each => pagers.len().max(1),
    };
    serve_each(rt, pins, hints, gate, pagers.as_mut_slice(), count);
}

/// Runs all lanes, side by side or one after another. A lane that is alone runs on the caller's thread.
fn run_all<R: Threads + Sync, G: Gate + Sync>(
    rt: &R,
    pins: &Pins,
    lanes: &[Vec<Op>],
    shared: &Roots,
    gate: &G,
    runs: &mut Vec<Run>,
    threads: TurnThreads,
)
    requires can { CanAllRun pins.now (lists_of lanes.now) shared.now runs.old.items }
    ensures ran { HaveRun (lists_of lanes.now) runs.old.items runs.new.items }
{
    let count = match threads {
        TurnThreads::One => 1,
        TurnThreads::Lanes | TurnThreads::Each => runs.len().max(1),
    };
    thread::for_each_mut(
        rt,
        runs.as_mut_slice(),
        count,
        &|_, run: &mut Run|
            requires { CanRun pins.now (lists_of lanes.now) shared.now run.now }
            ensures { LaneHasRun (lists_of lanes.entry.now) run.entry.now run.exit.now }
        { run_lane(pins, lanes, shared, gate, run) },
    );
}

/// Runs a lane until all of its operations are done or one can't be yet.
fn run_lane<G: Gate>(pins: &Pins, lanes: &[Vec<Op>], shared: &Roots, gate: &G, run: &mut Run)
    requires { CanRun pins.now (lists_of lanes.now) shared.now run.old }
    ensures { LaneHasRun (lists_of lanes.now) run.old run.new }
{
    let lane = run.turn.lane() as usize;
    let _why = run
        .turn
        .run(pins, &mut run.seat, &lanes[lane], shared, gate);
}
