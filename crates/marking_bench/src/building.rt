//! Heaps are built by operations of a lane.

ghost use Rattle.std.specs.Prelude.{◌≡◌, ◌≤◌};

use crate::shapes::{FIELDS, HEADS, LISTS, Plan, SUPERPAGE_OBJECTS, Shape, setup_for, slot};
use anyhow::{Result, bail};
use bc_failsafe::Need;
use bc_model::{Op, Reply};
use heap_workshop::{Halt, Workshop};
use std::thread::Threads;

/// The slots for a new object, for one that gets a reference, and for one that is referred to.
const NEW: u32 = 0;

const FROM: u32 = 1;

const TO: u32 = 2;

/// No tree here is deeper.
const DEEPEST: u32 = 32;

/// Empties the nursery.
fn empty<R>(rt: &R, workshop: Workshop) -> Result<Workshop>
where
    R: AllocGlobal + Threads + Sync,
{
    match workshop.empty(rt, rt.alloc()) {
        Ok(emptied) => Ok(emptied),
        Err(Need(superpages)) => bail!("{superpages} superpages needed"),
    }
}

/// Does the operation, after the nursery was emptied if it has to wait for that.
fn act<R>(rt: &R, mut workshop: Workshop, op: Op) -> Result<Workshop>
where
    R: AllocGlobal + Threads + Sync,
{
    if let Err(Halt::Stopped(_)) = try_once(&mut workshop, &op)? {
        workshop = empty(rt, workshop)?;
        if try_once(&mut workshop, &op)?.is_err() {
            bail!("an operation stopped");
        }
    }
    Ok(workshop)
}

/// Does the operation, or returns why it stopped.
fn try_once(workshop: &mut Workshop, op: &Op) -> Result<Result<(), Halt>> {
    match workshop.operate(0, op) {
        Ok(Reply::NotObj | Reply::Range | Reply::Foreign | Reply::Frozen) => {
            bail!("an operation was refused")
        }
        Ok(_) => Ok(Ok(())),
        Err(halt) => Ok(Err(halt)),
    }
}

/// The number of the object that has this one, in a tree of which each object has so many others.
fn above(object: u32, fan: u32) -> u32 {
    object.saturating_sub(1).checked_div(fan).unwrap_or(0)
}

/// The field of that object that refers to this one.
fn field_of(object: u32, fan: u32) -> u32 {
    object.saturating_sub(1).checked_rem(fan).unwrap_or(0)
}

/// So many steps up from an object.
fn climbed(object: u32, fan: u32, steps: u32) -> u32 {
    let mut at = object;
    for _step in 0..steps {
        at = above(at, fan);
    }
    at
}

/// How many steps an object is below the root.
fn depth_of(object: u32, fan: u32) -> u32 {
    for depth in 0..DEEPEST {
        if climbed(object, fan, depth) == 0 {
            return depth;
        }
    }
    DEEPEST
}

/// Lets a slot refer to the object of this number in a tree of which each object has so many others.
fn find<R>(rt: &R, mut workshop: Workshop, fan: u32, object: u32, to: u32) -> Result<Workshop>
where
    R: AllocGlobal + Threads + Sync,
{
    workshop = act(rt, workshop, Op::Copy(slot(HEADS), slot(to)))?;
    let depth = depth_of(object, fan);
    for step in 1..depth.saturating_add(1) {
        let next = climbed(object, fan, depth.saturating_sub(step));
        let field = field_of(next, fan);
        workshop = act(rt, workshop, Op::Load(slot(to), field, slot(to)))?;
    }
    Ok(workshop)
}

/// Adds the object of this number to a tree of which each object has so many others. Those of lower numbers are there, and the one before it
/// was added last.
fn add_to_tree<R>(rt: &R, mut workshop: Workshop, fan: u32, object: u32) -> Result<Workshop>
where
    R: AllocGlobal + Threads + Sync,
{
    if object == 0 {
        return act(rt, workshop, Op::New(slot(HEADS), FIELDS));
    }
    let field = field_of(object, fan);
    if field == 0 {
        workshop = find(rt, workshop, fan, above(object, fan), FROM)?;
    }
    workshop = act(rt, workshop, Op::New(slot(NEW), FIELDS))?;
    act(rt, workshop, Op::Link(slot(FROM), field, slot(NEW)))
}

/// A tree of which each object has so many others, in the order of their numbers.
fn grow_tree<R>(rt: &R, mut workshop: Workshop, fan: u32, objects: u32) -> Result<Workshop>
where
    R: AllocGlobal + Threads + Sync,
{
    for object in 0..objects {
        workshop = add_to_tree(rt, workshop, fan, object)?;
    }
    Ok(workshop)
}

/// The next number drawn at random.
fn next_random(state: u64) -> u64 {
    state
        .wrapping_mul(6364136223846793005)
        .wrapping_add(1442695040888963407)
}

/// Two references from each object of a tree of five to others drawn at random.
fn add_random<R>(rt: &R, mut workshop: Workshop, objects: u32) -> Result<Workshop>
where
    R: AllocGlobal + Threads + Sync,
{
    let mut state = 42;
    for object in 0..objects {
        workshop = find(rt, workshop, 5, object, FROM)?;
        for field in 5..FIELDS {
            state = next_random(state);
            let other = (state >> 33).checked_rem(u64::from(objects)).unwrap_or(0);
            workshop = find(rt, workshop, 5, u32::try_from(other).unwrap_or(0), TO)?;
            workshop = act(rt, workshop, Op::Link(slot(FROM), field, slot(TO)))?;
        }
    }
    Ok(workshop)
}

/// Puts a new object before the list in this slot.
fn add_to_list<R>(rt: &R, mut workshop: Workshop, head: u32) -> Result<Workshop>
where
    R: AllocGlobal + Threads + Sync,
{
    workshop = act(rt, workshop, Op::New(slot(NEW), FIELDS))?;
    workshop = act(rt, workshop, Op::Link(slot(NEW), 0, slot(head)))?;
    act(rt, workshop, Op::Copy(slot(NEW), slot(head)))
}

/// So many lists, whose objects lie mixed.
fn grow_lists<R>(rt: &R, mut workshop: Workshop, lists: u32, objects: u32) -> Result<Workshop>
where
    R: AllocGlobal + Threads + Sync,
{
    for object in 0..objects {
        let list = object.checked_rem(lists).unwrap_or(0);
        workshop = add_to_list(rt, workshop, HEADS.saturating_add(list))?;
    }
    Ok(workshop)
}

/// A tree of seven on the superpages with numbers that four divides, and on the others a list, which is dropped.
fn grow_skewed<R>(rt: &R, mut workshop: Workshop, objects: u32) -> Result<Workshop>
where
    R: AllocGlobal + Threads + Sync,
{
    let list = HEADS + 1;
    let mut grown: u32 = 0;
    for object in 0..objects {
        if object / SUPERPAGE_OBJECTS % 4 == 0 {
            workshop = add_to_tree(rt, workshop, FIELDS, grown)?;
            grown = grown.saturating_add(1);
        } else {
            workshop = add_to_list(rt, workshop, list)?;
        }
    }
    workshop = act(rt, workshop, Op::Clear(slot(list)))?;
    Ok(workshop)
}

/// The heap of the plan. Its nursery is empty.
pub(crate) fn build<R>(rt: &R, plan: &Plan) -> Result<Workshop>
where
    R: AllocGlobal + Threads + Sync,
    requires { (1 ≤ plan.now.superpages) × (plan.now.superpages ≤ 2048) }
{
    let mut workshop = Workshop::open(rt.alloc(), &setup_for(plan))?;
    let objects = plan.objects();
    workshop = match plan.shape {
        Shape::Wide => grow_tree(rt, workshop, FIELDS, objects)?,
        Shape::Random => {
            let tree = grow_tree(rt, workshop, 5, objects)?;
            add_random(rt, tree, objects)?
        }
        Shape::Lists => grow_lists(rt, workshop, LISTS, objects)?,
        Shape::List => grow_lists(rt, workshop, 1, objects)?,
        Shape::Skewed => grow_skewed(rt, workshop, objects)?,
    };
    for work in [NEW, FROM, TO] {
        workshop = act(rt, workshop, Op::Clear(slot(work)))?;
    }
    workshop = empty(rt, workshop)?;
    if plan.gone {
        evict_half(rt, &mut workshop)?;
    }
    Ok(workshop)
}

/// Evicts every second page.
fn evict_half<R: AllocGlobal>(rt: &R, workshop: &mut Workshop) -> Result<()> {
    let pages = workshop.space().pages_in_use();
    let mut hints = Vec::new(rt.alloc());
    for half in 0..pages / 2 {
        hints.push(half.saturating_mul(2))?;
    }
    workshop.serve(hints.as_slice());
    Ok(())
}
