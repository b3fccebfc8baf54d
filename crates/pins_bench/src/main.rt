// What it costs to open the table of a turn and to close it: a program for `bench/turns`, and no part of the collector.
//
// A space of so many superpages has the first of them in use, with all of their pages Home; the others are unused. A table is
// opened over it for two seats, and closed with nothing done, again and again. The arguments are how often, the superpages
// of the space, and then numbers of superpages in use. What was done goes to standard output, so that the gate can compare
// it; how long it took, in nanoseconds a call, goes to standard error.
#![tactic(auto)]

ghost use Rattle.std.specs.Prelude.{◌≡◌, ℕ, ◌<◌, ◌≤◌, false, IfOk};
ghost use Rattle.bc_bits.specs.Bits.{has};
ghost use Rattle.bc_superpages.specs.Layout.{set_of, is_cell};
ghost use Rattle.bc_bookmarks.specs.Summarised.{HasNoBookmarks};
ghost use Rattle.bc_pins.specs.Opening.{IsOpenable};

use anyhow::{Context, Result, bail, ensure};
use bc_model::Holder;
use bc_pins::{Pins, Role, Turn};
use bc_superpages::{PageState, Space};
use std::env;
use std::rt::Clock;
use std::time::{Duration, Instant};

/// Brings a page home where it is Absent, in a space without cells and bookmarks.
fn bring_bare(space: &mut Space, page: u32)
    requires cells { (q b : ℕ) → has (set_of space.old.cells q) b ≡ false }
    requires promised { (a : ℕ) → is_cell space.old.classes space.old.promised a ≡ false }
    requires none { HasNoBookmarks space.old }
    ensures cells { (q b : ℕ) → has (set_of space.new.cells q) b ≡ false }
    ensures promised { (a : ℕ) → is_cell space.new.classes space.new.promised a ≡ false }
    ensures none { HasNoBookmarks space.new }
{
    if page < space.pages() && space.state(page) == PageState::Absent {
        space.facts();
        match space.open_page(page) {
            Ok(()) => {}
            Err(_) => {}
        }
    }
}

/// A space of so many superpages, whose first pages are Home.
fn space_with<R: AllocGlobal>(rt: &R, superpages: u32, pages: u32) -> Result<Space>
    requires { superpages ≤ 4096 }
    ensures openable { IfOk result (λ space. IsOpenable space) }
{
    let mut space = Space::new(rt.alloc(), superpages, 4 * superpages + 1, 1)?;
    for page in 0..pages {
        bring_bare(&mut space, page);
    }
    Ok(space)
}

/// Opens a table over the space and closes it; says how long each took.
fn turn<R: Clock + AllocGlobal>(rt: &R, space: Space) -> Result<(Space, Duration, Duration)>
    requires { IsOpenable space }
    ensures openable { IfOk result (λ r. IsOpenable r.0) }
{
    let roles = [Role::Lane(0), Role::Pager(0)];
    let start = Instant::now(rt)?;
    let Ok((pins, seats)) = Pins::open(
        rt.alloc(),
        space,
        Turn::Lanes,
        [Holder::Lane(0)].as_slice(),
        roles.as_slice(),
    ) else {
        bail!("memory for a table")
    };
    let middle = Instant::now(rt);
    let space = pins.close(seats);
    let end = Instant::now(rt)?;
    let middle = middle?;
    Ok((
        space,
        middle.duration_since(start),
        end.duration_since(middle),
    ))
}

/// How many pages are at home.
fn pages_home(space: &Space) -> u32 {
    let mut home: u32 = 0;
    for page in 0..space.pages() {
        if space.resident(page) {
            home = home.saturating_add(1);
        }
    }
    home
}

/// Nanoseconds a call.
fn each(taken: Duration, calls: u32) -> u64 {
    let nanoseconds = taken
        .as_secs()
        .saturating_mul(1_000_000_000)
        .saturating_add(u64::from(taken.subsec_nanos()));
    nanoseconds / u64::from(calls.max(1))
}

/// So many turns over a space; gives it back, and says how long the openings and the closings took.
fn turns<R: Clock + AllocGlobal>(
    rt: &R,
    space: Space,
    times: u32,
) -> Result<(Space, Duration, Duration)>
    requires { IsOpenable space }
{
    let mut space = space;
    let mut opening = Duration::from_secs(0);
    let mut closing = Duration::from_secs(0);
    for _turn in 0..times {
        let (closed, opened_in, closed_in) = turn(rt, space)?;
        space = closed;
        opening = opening.saturating_add(opened_in);
        closing = closing.saturating_add(closed_in);
    }
    Ok((space, opening, closing))
}

fn run<R>(rt: &R, times: u32, superpages: u32, counts: &[u32]) -> Result<()>
where
    R: Clock + AllocGlobal + Print + Eprint,
{
    ensure!(superpages <= 4096, "{superpages} superpages");
    for count in counts {
        let used = (*count).min(superpages);
        let space = space_with(rt, superpages, 4 * used)?;
        let (space, opening, closing) = turns(rt, space, times)?;
        let pages = pages_home(&space);
        println!(rt; "{used} of {superpages} superpages, {pages} pages home: {times} turns")?;
        let opening = each(opening, times);
        let closing = each(closing, times);
        eprintln!(rt;
            "{used} of {superpages} superpages: {opening} nanoseconds to open, {closing} to close"
        )?;
    }
    Ok(())
}

fn main(rt: HostRuntime) -> Result<()> {
    let mut numbers = Vec::new(rt.alloc());
    for word in env::args(&rt)?.skip(1) {
        let number = word.parse::<u32>().context("an argument")?;
        numbers.push(number)?;
    }
    let Some((times, rest)) = numbers.split_first() else {
        bail!("how often, and then superpages")
    };
    let Some((superpages, counts)) = rest.split_first() else {
        bail!("the superpages of the space")
    };
    run(&rt, *times, *superpages, counts)
}
