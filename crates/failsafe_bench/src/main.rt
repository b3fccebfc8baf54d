// How long the fail-safe collection takes: a program for `bench/failsafe`, and no part of the collector.
//
// It makes a heap of so many small objects, of one field each, and times one collection of all of it. In a `chain` they
// are one long list whose objects lie on pages in an order without a pattern; in a `random` heap each refers to an object
// anywhere, and tables refer to all. First all lie in cells when the collection begins, and then, an eighth as many, all lie
// in the chunk of a lane with a large nursery (`young`). There is a frame for every page. Its arguments are the numbers of objects, powers
// of 2 from 8 to 1,048,576. What was collected goes to standard output, so that the gate can compare it; how long it took, in
// nanoseconds, goes to standard error.
//
// After the word `frames` the objects lie in cells most of whose pages are gone: there are two frames beyond those of the nursery,
// or 16, or half as many as pages. A third heap is there then, a chain in the order of its pages (`ordered`). What is printed
// is how many pages were gone, and how many the collection read back.
//
// The objects hang on tables of 127 fields while they are linked, and those on further tables, one in each root slot.
//
// It promises nothing: what is proved is that every condition of the calls is met.
#![tactic(auto)]

ghost use Rattle.std.specs.Prelude.{◌≡◌, ◌<◌, ◌≤◌};
ghost use Rattle.bc_cycle.specs.Openings.{CanOpen};

use anyhow::{Context, Result, bail, ensure};
use bc_failsafe::Need;
use bc_model::{Op, Reply, Setup, Slot};
use heap_workshop::{Halt, Workshop, objects_in_cells, pages_gone, superpages_in_use};
use std::alloc::Global;
use std::env;
use std::rt::Clock;
use std::time::{Duration, Instant};

/// What the objects are when they are collected: a chain in the order in which they were made, a chain in an order without a
/// pattern, or a graph in which each refers to one anywhere.
#[derive(Clone, Copy)]
enum Shape {
    Ordered,
    Chain,
    Random,
}

impl Shape {
    /// Its word in what is printed.
    fn word(self) -> &'static str {
        match self {
            Shape::Ordered => "ordered",
            Shape::Chain => "chain",
            Shape::Random => "random",
        }
    }
}

/// How many frames there are beyond those of the nursery.
#[derive(Clone, Copy)]
enum Beyond {
    Two,
    Sixteen,
    Half,
    All,
}

impl Beyond {
    /// So many of this many pages.
    fn of(self, pages: u32) -> u32
        requires { 16 ≤ pages }
        ensures { (2 ≤ result) × (result ≤ pages) }
    {
        match self {
            Beyond::Two => 2,
            Beyond::Sixteen => 16,
            Beyond::Half => pages / 2,
            Beyond::All => pages,
        }
    }

    /// Its word in what is printed.
    fn word(self) -> &'static str {
        match self {
            Beyond::Two => "two",
            Beyond::Sixteen => "16",
            Beyond::Half => "half",
            Beyond::All => "all",
        }
    }
}

/// How many fields a table has.
const FIELDS: u32 = 127;

/// Root slots for one object each, and the number of the first slot for tables.
const NODE: Slot = Slot { domain: 0, slot: 0 };

const OTHER: Slot = Slot { domain: 0, slot: 1 };

const TABLE: Slot = Slot { domain: 0, slot: 2 };

const HEAD: Slot = Slot { domain: 0, slot: 3 };

const FIRST_TABLE: u32 = 4;

/// Does the operation, after a collection if it has to wait for one.
fn act(workshop: &mut Workshop, op: Op) -> Result<()> {
    let answer = match workshop.operate(0, &op) {
        Err(Halt::Stopped(_)) => {
            failsafe(workshop)?;
            workshop.operate(0, &op)
        }
        answer => answer,
    };
    match answer {
        Ok(Reply::NotObj | Reply::Range | Reply::Foreign | Reply::Frozen) => {
            bail!("an operation was refused")
        }
        Ok(_) => Ok(()),
        Err(_) => bail!("an operation stopped"),
    }
}

fn failsafe(workshop: &mut Workshop) -> Result<()> {
    match workshop.failsafe() {
        Ok(()) => Ok(()),
        Err(Need(superpages)) => bail!("{superpages} superpages needed"),
    }
}

/// The slot of the table of tables on which the object of this number hangs.
fn table_slot(node: u32) -> Slot {
    Slot {
        domain: 0,
        slot: FIRST_TABLE + node / (FIELDS * FIELDS),
    }
}

/// Makes an object and hangs it on its tables.
fn make(workshop: &mut Workshop, node: u32) -> Result<()> {
    if node % (FIELDS * FIELDS) == 0 {
        act(workshop, Op::New(table_slot(node), FIELDS))?;
    }
    if node % FIELDS == 0 {
        act(workshop, Op::New(TABLE, FIELDS))?;
        act(
            workshop,
            Op::Link(table_slot(node), node / FIELDS % FIELDS, TABLE),
        )?;
    }
    act(workshop, Op::New(NODE, 1))?;
    act(workshop, Op::Link(TABLE, node % FIELDS, NODE))
}

/// Has the slot refer to the object of this number.
fn fetch(workshop: &mut Workshop, node: u32, slot: Slot) -> Result<()> {
    act(
        workshop,
        Op::Load(table_slot(node), node / FIELDS % FIELDS, TABLE),
    )?;
    act(workshop, Op::Load(TABLE, node % FIELDS, slot))
}

/// The number after this one in an order without a pattern that goes through all numbers below a power of 2.
fn after(node: u32, nodes: u32) -> u32
    requires { 0 < nodes }
    ensures { result < nodes }
{
    node.wrapping_mul(1664525).wrapping_add(1013904223) % nodes
}

/// The objects become one chain, which HEAD refers to, and nothing else is referred to. It goes through them in the order in which they
/// were made, or in one without a pattern.
fn link_chain(workshop: &mut Workshop, nodes: u32, ordered: bool) -> Result<()>
    requires { 0 < nodes }
{
    let mut node = 0;
    fetch(workshop, node, HEAD)?;
    fetch(workshop, node, NODE)?;
    for link in 1..nodes {
        node = if ordered { link } else { after(node, nodes) };
        fetch(workshop, node, OTHER)?;
        act(workshop, Op::Link(NODE, 0, OTHER))?;
        act(workshop, Op::Copy(OTHER, NODE))?;
    }
    clear(workshop, nodes)
}

/// No slot but HEAD refers to an object.
fn clear(workshop: &mut Workshop, nodes: u32) -> Result<()> {
    for table in 0..nodes / (FIELDS * FIELDS) + 1 {
        let slot = Slot {
            domain: 0,
            slot: FIRST_TABLE + table,
        };
        act(workshop, Op::Clear(slot))?;
    }
    act(workshop, Op::Clear(TABLE))?;
    act(workshop, Op::Clear(OTHER))?;
    act(workshop, Op::Clear(NODE))
}

/// Each object refers to one anywhere.
fn link_at_random(workshop: &mut Workshop, nodes: u32) -> Result<()>
    requires { 0 < nodes }
{
    let mut state: u64 = 1;
    for node in 0..nodes {
        state = state
            .wrapping_mul(6364136223846793005)
            .wrapping_add(1442695040888963407);
        let target = (state >> 33) % u64::from(nodes);
        fetch(workshop, node, NODE)?;
        fetch(workshop, target as u32, OTHER)?;
        act(workshop, Op::Link(NODE, 0, OTHER))?;
    }
    Ok(())
}

/// Links the objects in this shape.
fn link(workshop: &mut Workshop, nodes: u32, shape: Shape) -> Result<()>
    requires { 0 < nodes }
{
    match shape {
        Shape::Ordered => link_chain(workshop, nodes, true),
        Shape::Chain => link_chain(workshop, nodes, false),
        Shape::Random => link_at_random(workshop, nodes),
    }
}

/// The setup of a heap for so many objects, all in cells or all in the nursery.
fn setup_for(nodes: u32, young: bool, beyond: Beyond) -> Setup
    requires { nodes ≤ 1048576 }
    ensures setup { CanOpen result }
    ensures lanes { result.lanes ≡ 1 }
{
    let superpages = nodes / 512 + 4;
    let nursery = nursery_for(nodes, young);
    Setup {
        lanes: 1,
        domains: 1,
        slots: 256,
        superpages,
        nursery,
        buffer: 4096,
        frames: nursery + beyond.of(4 * superpages),
    }
}

/// So many nursery pages, of 512 words: objects of two words and their tables take less than four words an object.
fn nursery_for(nodes: u32, young: bool) -> u32
    requires { nodes ≤ 1048576 }
    ensures { result ≤ 4096 }
{
    if young && nodes <= 262144 {
        nodes / 128 + 1
    } else {
        16
    }
}

/// Makes a heap of so many objects in cells.
fn heap_of(alloc: Global, nodes: u32, shape: Shape, beyond: Beyond) -> Result<Workshop>
    requires some { 0 < nodes }
    requires few { nodes ≤ 1048576 }
{
    let mut workshop = Workshop::open(alloc, &setup_for(nodes, false, beyond))?;
    for node in 0..nodes {
        make(&mut workshop, node)?;
    }
    failsafe(&mut workshop)?;
    link(&mut workshop, nodes, shape)?;
    Ok(workshop)
}

/// Makes a heap of so many objects in the chunk of a lane.
fn young_heap(alloc: Global, nodes: u32, shape: Shape) -> Result<Workshop>
    requires some { 0 < nodes }
    requires few { nodes ≤ 1048576 }
{
    let mut workshop = Workshop::open(alloc, &setup_for(nodes, true, Beyond::All))?;
    for node in 0..nodes {
        make(&mut workshop, node)?;
    }
    link(&mut workshop, nodes, shape)?;
    Ok(workshop)
}

/// Collects the whole heap, and says how many nanoseconds that takes.
fn time<R: Clock>(rt: &R, workshop: &mut Workshop) -> Result<u64> {
    let start = Instant::now(rt)?;
    failsafe(workshop)?;
    Ok(nanoseconds(start.elapsed(rt)?))
}

/// Collects heaps of so many objects with a frame for every page.
fn measure<R>(rt: &R, nodes: u32, shape: Shape, young: bool) -> Result<()>
where
    R: Clock + AllocGlobal + Print + Eprint,
    requires some { 0 < nodes }
    requires few { nodes ≤ 1048576 }
{
    let mut workshop = if young {
        young_heap(rt.alloc(), nodes, shape)?
    } else {
        heap_of(rt.alloc(), nodes, shape, Beyond::All)?
    };
    let taken = time(rt, &mut workshop)?;
    let place = if young { "young " } else { "" };
    let kind = shape.word();
    let objects = objects_in_cells(workshop.space());
    let superpages = superpages_in_use(workshop.space());
    println!(rt; "{place}{kind} {nodes}: {objects} objects in {superpages} superpages")?;
    eprintln!(rt; "{place}{kind} {nodes}: {taken} nanoseconds")?;
    Ok(())
}

/// Collects a heap of so many objects most of whose pages are gone.
fn measure_within<R>(rt: &R, nodes: u32, shape: Shape, beyond: Beyond) -> Result<()>
where
    R: Clock + AllocGlobal + Print + Eprint,
    requires some { 0 < nodes }
    requires few { nodes ≤ 1048576 }
{
    let mut workshop = heap_of(rt.alloc(), nodes, shape, beyond)?;
    let gone = pages_gone(workshop.space());
    let before = workshop.space().reads();
    let taken = time(rt, &mut workshop)?;
    let reads = workshop.space().reads().saturating_sub(before);
    let kind = shape.word();
    let frames = beyond.word();
    println!(rt; "{kind} {nodes} in {frames}: {gone} pages gone, {reads} read")?;
    eprintln!(rt; "{kind} {nodes} in {frames}: {taken} nanoseconds")?;
    Ok(())
}

/// Collects the three heaps of so many objects with two frames beyond the nursery's, with 16, and with half as many as pages.
fn measure_few<R>(rt: &R, nodes: u32) -> Result<()>
where
    R: Clock + AllocGlobal + Print + Eprint,
    requires some { 0 < nodes }
    requires few { nodes ≤ 1048576 }
{
    for beyond in [Beyond::Two, Beyond::Sixteen, Beyond::Half] {
        measure_within(rt, nodes, Shape::Ordered, beyond)?;
        measure_within(rt, nodes, Shape::Chain, beyond)?;
        measure_within(rt, nodes, Shape::Random, beyond)?;
    }
    Ok(())
}

fn nanoseconds(taken: Duration) -> u64 {
    taken
        .as_secs()
        .saturating_mul(1_000_000_000)
        .saturating_add(u64::from(taken.subsec_nanos()))
}

fn main(rt: HostRuntime) -> Result<()> {
    let mut few = false;
    for word in env::args(&rt)?.skip(1) {
        if word.as_str() == "frames" {
            few = true;
            continue;
        }
        let nodes = word.parse::<u32>().context("an argument")?;
        ensure!(
            nodes.is_power_of_two() && nodes >= 8 && nodes <= 1_048_576,
            "{nodes} objects"
        );
        if few {
            measure_few(&rt, nodes)?;
            continue;
        }
        measure(&rt, nodes, Shape::Chain, false)?;
        measure(&rt, nodes, Shape::Random, false)?;
        measure(&rt, nodes / 8, Shape::Chain, true)?;
        measure(&rt, nodes / 8, Shape::Random, true)?;
    }
    Ok(())
}
