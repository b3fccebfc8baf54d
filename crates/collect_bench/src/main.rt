// How long a bookmark collection takes beside the fail-safe: a program for `bench/collect`, and no part of the collector.
//
// It makes two equal heaps with empty nurseries, collects one by bookmarks and the other by the fail-safe, and prints a line for the
// heap and one for each collection, of words `key=value`:
//
//     fields=1 superpages=4 share=2 kept=4 heap=built objects=4096 used=4 gone=8 reads=0
//     fields=1 superpages=4 share=2 kept=4 heap=bookmarks objects=2560 used=4 gone=8 reads=0
//     fields=1 superpages=4 share=2 kept=4 heap=failsafe objects=1024 used=1 gone=3 reads=48
//
// A heap fills so many superpages with objects of so many fields, or, where `fields` is 0, with objects of all seven size classes in all 64
// domains: 448 pairs, whose superpages lie mixed. There are frames for one page in `share`. Of each superpage one object in `kept` is
// kept, or the first one alone where `kept` is 0: it is the head of a list of such objects of its domain. All others are on lists that
// are dropped before the collection. The heap's line says how it stood before, those of the collections how they left it: how many
// objects lie in cells, superpages in use, pages that are gone, and pages that were read back, before or in the collection. How long
// collections took, in nanoseconds, goes to standard error, with the same words before it.
//
// Its arguments are those four numbers, for as many heaps as there are. It promises nothing: what is proved is that every condition of the
// calls is met.
#![tactic(auto)]

ghost use Rattle.std.specs.Prelude.{◌≡◌, ◌≤◌};
ghost use Rattle.bc_cycle.specs.Openings.{CanOpen};

use anyhow::{Context, Result, bail, ensure};
use bc_failsafe::Need;
use bc_model::{Op, Reply, Setup, Slot};
use heap_workshop::{Halt, Workshop, objects_in_cells, pages_gone, superpages_in_use};
use std::env;
use std::rt::Clock;
use std::thread::Threads;
use std::time::{Duration, Instant};

/// The words of a superpage.
const SUPERPAGE_WORDS: u32 = 2048;

/// How many fields an object of each class has, if it fills its cell.
const FIELDS: [u32; 7] = [1, 3, 7, 15, 31, 63, 127];

/// How many domains there are, where there are objects of all pairs.
const DOMAINS: u32 = 64;

/// The slots of a domain: for a new object, and for the lists of objects that are kept and that are dropped.
const NEW: u32 = 0;

const KEPT: u32 = 1;

const DROPPED: u32 = 2;

/// The pages of the nursery.
const NURSERY: u32 = 16;

/// What lies in a heap, in how many superpages and frames, and how much of it is kept.
#[derive(Clone, Copy)]
struct Plan {
    /// How many fields an object has, or 0 for objects of all pairs.
    fields: u32,
    superpages: u32,
    /// There is a frame for one page in so many.
    share: u32,
    /// One object in so many of a superpage is kept, or the first one alone, where it is 0.
    kept: u32,
}

impl Plan {
    /// How many domains the objects are of.
    fn domains(&self) -> u32
        ensures { result ≤ 64 }
    {
        if self.fields == 0 { DOMAINS } else { 1 }
    }

    /// How many superpages are filled of each pair.
    fn rounds(&self) -> u32 {
        if self.fields == 0 {
            self.superpages / (DOMAINS * 7)
        } else {
            self.superpages
        }
    }

    /// Is an object of this number in its superpage kept?
    fn keeps(&self, number: u32) -> bool {
        number == 0 || (self.kept != 0 && number % self.kept == 0)
    }
}

/// The setup of such a heap. There are two frames beyond those of the nursery at least.
fn setup_for(plan: &Plan) -> Setup
    requires { (1 ≤ plan.now.superpages) × (plan.now.superpages ≤ 4096) }
    ensures setup { CanOpen result }
    ensures lanes { result.lanes ≡ 1 }
{
    Setup {
        lanes: 1,
        domains: plan.domains(),
        slots: 3,
        superpages: plan.superpages,
        nursery: NURSERY,
        buffer: 16,
        frames: NURSERY + frames_for(4 * plan.superpages, plan.share),
    }
}

/// A frame for one page in so many, but two at least.
fn frames_for(pages: u32, share: u32) -> u32
    requires { 4 ≤ pages }
    ensures { (2 ≤ result) × (result ≤ pages) }
{
    if share == 0 {
        return pages;
    }
    let frames = pages / share;
    if frames < 2 { 2 } else { frames }
}

fn slot_of(domain: u32, slot: u32) -> Slot {
    Slot { domain, slot }
}

/// Empties the nursery.
fn empty<R>(rt: &R, workshop: Workshop) -> Result<Workshop>
where
    R: AllocGlobal + Threads + Sync,
{
    match workshop.empty(rt, rt.alloc()) {
        Ok(emptied) => Ok(emptied),
        Err(Need(superpages)) => bail!("{superpages} superpages needed"),
    }
}

/// Does the operation, after the nursery was emptied if it has to wait for that.
fn act<R>(rt: &R, mut workshop: Workshop, op: Op) -> Result<Workshop>
where
    R: AllocGlobal + Threads + Sync,
{
    if let Err(Halt::Stopped(_)) = try_once(&mut workshop, &op)? {
        workshop = empty(rt, workshop)?;
        if try_once(&mut workshop, &op)?.is_err() {
            bail!("an operation stopped");
        }
    }
    Ok(workshop)
}

/// Does the operation, or returns why it stopped.
fn try_once(workshop: &mut Workshop, op: &Op) -> Result<Result<(), Halt>> {
    match workshop.operate(0, op) {
        Ok(Reply::NotObj | Reply::Range | Reply::Foreign | Reply::Frozen) => {
            bail!("an operation was refused")
        }
        Ok(_) => Ok(Ok(())),
        Err(halt) => Ok(Err(halt)),
    }
}

/// Makes an object of the domain, which becomes the head of the list of this slot.
fn make<R>(rt: &R, mut workshop: Workshop, domain: u32, fields: u32, list: u32) -> Result<Workshop>
where
    R: AllocGlobal + Threads + Sync,
{
    let (new, list) = (slot_of(domain, NEW), slot_of(domain, list));
    workshop = act(rt, workshop, Op::New(new, fields))?;
    workshop = act(rt, workshop, Op::Link(new, 0, list))?;
    act(rt, workshop, Op::Copy(new, list))
}

/// Makes as many objects of a pair as fill a superpage.
fn fill<R>(
    rt: &R,
    mut workshop: Workshop,
    plan: &Plan,
    domain: u32,
    fields: u32,
) -> Result<Workshop>
where
    R: AllocGlobal + Threads + Sync,
{
    for number in 0..SUPERPAGE_WORDS / fields.saturating_add(1) {
        let list = if plan.keeps(number) { KEPT } else { DROPPED };
        workshop = make(rt, workshop, domain, fields, list)?;
    }
    Ok(workshop)
}

/// Fills a superpage of each pair.
fn fill_each<R>(rt: &R, mut workshop: Workshop, plan: &Plan) -> Result<Workshop>
where
    R: AllocGlobal + Threads + Sync,
{
    if plan.fields != 0 {
        return fill(rt, workshop, plan, 0, plan.fields);
    }
    for domain in 0..DOMAINS {
        for fields in &FIELDS {
            workshop = fill(rt, workshop, plan, domain, *fields)?;
        }
    }
    Ok(workshop)
}

/// The heap of the plan. Its nursery is empty, and nothing is kept but the lists.
fn build<R>(rt: &R, plan: &Plan) -> Result<Workshop>
where
    R: AllocGlobal + Threads + Sync,
    requires { (1 ≤ plan.now.superpages) × (plan.now.superpages ≤ 4096) }
{
    let mut workshop = Workshop::open(rt.alloc(), &setup_for(plan))?;
    for _round in 0..plan.rounds() {
        workshop = fill_each(rt, workshop, plan)?;
    }
    workshop = empty(rt, workshop)?;
    for domain in 0..plan.domains() {
        workshop = act(rt, workshop, Op::Clear(slot_of(domain, NEW)))?;
        workshop = act(rt, workshop, Op::Clear(slot_of(domain, DROPPED)))?;
    }
    Ok(workshop)
}

/// Prints how a heap stands. `before` is how many pages had been read back when its collection began.
fn print_standing<R: Print>(
    rt: &R,
    plan: &Plan,
    heap: &str,
    workshop: &Workshop,
    before: u64,
) -> Result<()> {
    let space = workshop.space();
    let (fields, superpages, share, kept) = (plan.fields, plan.superpages, plan.share, plan.kept);
    let objects = objects_in_cells(space);
    let used = superpages_in_use(space);
    let gone = pages_gone(space);
    let reads = space.reads().saturating_sub(before);
    print!(rt; "fields={fields} superpages={superpages} share={share} kept={kept} heap={heap} ")?;
    println!(rt; "objects={objects} used={used} gone={gone} reads={reads}")?;
    Ok(())
}

/// Prints how long a collection took.
fn print_time<R: Eprint>(rt: &R, plan: &Plan, heap: &str, taken: Duration) -> Result<()> {
    let (fields, superpages, share, kept) = (plan.fields, plan.superpages, plan.share, plan.kept);
    let nanoseconds = nanoseconds(taken);
    eprintln!(rt;
        "fields={fields} superpages={superpages} share={share} kept={kept} heap={heap} nanoseconds={nanoseconds}"
    )?;
    Ok(())
}

fn nanoseconds(taken: Duration) -> u64 {
    taken
        .as_secs()
        .saturating_mul(1_000_000_000)
        .saturating_add(u64::from(taken.subsec_nanos()))
}

/// Collects a heap of the plan by bookmarks.
fn collect_by_bookmarks<R>(rt: &R, plan: &Plan) -> Result<()>
where
    R: Clock + AllocGlobal + Threads + Sync + Print + Eprint,
    requires { (1 ≤ plan.now.superpages) × (plan.now.superpages ≤ 4096) }
{
    let mut workshop = build(rt, plan)?;
    print_standing(rt, plan, "built", &workshop, 0)?;
    let before = workshop.space().reads();
    let start = Instant::now(rt)?;
    let collected = workshop.collect(rt, rt.alloc());
    let taken = start.elapsed(rt)?;
    ensure!(collected, "the nursery isn't empty");
    print_standing(rt, plan, "bookmarks", &workshop, before)?;
    print_time(rt, plan, "bookmarks", taken)
}

/// Collects a heap of the plan by the fail-safe.
fn collect_by_failsafe<R>(rt: &R, plan: &Plan) -> Result<()>
where
    R: Clock + AllocGlobal + Threads + Sync + Print + Eprint,
    requires { (1 ≤ plan.now.superpages) × (plan.now.superpages ≤ 4096) }
{
    let mut workshop = build(rt, plan)?;
    let before = workshop.space().reads();
    let start = Instant::now(rt)?;
    let collected = workshop.failsafe();
    let taken = start.elapsed(rt)?;
    if let Err(Need(superpages)) = collected {
        bail!("{superpages} superpages needed");
    }
    print_standing(rt, plan, "failsafe", &workshop, before)?;
    print_time(rt, plan, "failsafe", taken)
}

/// The plan that begins at this number.
fn plan_at(numbers: &[u32], index: usize) -> Option<Plan> {
    Some(Plan {
        fields: *numbers.get(index)?,
        superpages: *numbers.get(index.saturating_add(1))?,
        share: *numbers.get(index.saturating_add(2))?,
        kept: *numbers.get(index.saturating_add(3))?,
    })
}

fn main(rt: HostRuntime) -> Result<()> {
    let mut numbers = Vec::new(rt.alloc());
    for word in env::args(&rt)?.skip(1) {
        numbers.push(word.parse::<u32>().context("an argument")?)?;
    }
    for heap in 0..numbers.len() / 4 {
        let plan = plan_at(&numbers, 4 * heap).context("four numbers a heap")?;
        ensure!(
            plan.superpages >= 1 && plan.superpages <= 4096,
            "no such heap"
        );
        collect_by_bookmarks(&rt, &plan)?;
        collect_by_failsafe(&rt, &plan)?;
    }
    Ok(())
}
