//! Frames are withheld from the pages of a heap that lanes run on, and returned.

ghost use Rattle.std.specs.Prelude.{IfSome};
ghost use Rattle.bc_running.specs.RunningFacts.{IsSound};
ghost use Rattle.bc_whole_heap.specs.HeapFacts.{NoneRemembered};

use super::*;
use bc_gates::{Host, OpenGate};
use bc_model::Slot;
use std::test::Fail;

/// Lane 0 makes an object of so many fields, to which a slot of the first domain refers then. Was it made?
fn makes(running: &mut Running, slot: u32, fields: u32) -> bool
    requires sound { IsSound running.old }
    ensures sound { IsSound running.new }
{
    let roots = &running.heap().roots;
    if roots.domains() == 0 || slot >= roots.slots() || fields > 127 {
        return false;
    }
    let serials = running.serials();
    if serials.is_empty() || serials[0] > 100 {
        return false;
    }
    let op = Op::New(Slot { domain: 0, slot }, fields);
    running.operate(0, &op).is_ok()
}

/// A heap with an object on each of three pages, all of which are in memory, and eight frames for pages.
fn with_three_pages<R: Threads + Sync>(rt: &R, alloc: Global) -> Option<Running>
    ensures sound { IfSome result (λ running. IsSound running) }
    ensures unrecorded { IfSome result (λ running. NoneRemembered running.heap.space) }
{
    let setup = Setup {
        lanes: 1,
        domains: 1,
        slots: 3,
        superpages: 3,
        nursery: 1,
        buffer: 2,
        frames: 9,
    };
    let Ok(mut running) = Running::open(alloc, &setup) else {
        return None;
    };
    if !makes(&mut running, 0, 1) || !makes(&mut running, 1, 3) || !makes(&mut running, 2, 7) {
        return None;
    }
    let host = Host {
        threads: rt,
        alloc,
        gate: &OpenGate,
    };
    match running.empty_nursery(&host, 1) {
        Ok(_) => Some(running),
        Err(_) => None,
    }
}

/// Has so many frames be withheld beside the nursery's, where that leaves two. Then it answers how many frames no page may use, how many are
/// free, and how many pages with objects have left so far.
fn withheld(running: &mut Running, frames: u32) -> Option<(u32, u32, u64)>
    requires sound { IsSound running.old }
    requires unrecorded { NoneRemembered running.old.heap.space }
    ensures sound { IsSound running.new }
    ensures unrecorded { NoneRemembered running.new.heap.space }
{
    let space = &running.heap().space;
    let unused = space.withheld(0);
    let all = unused as u64 + space.page_frames() as u64;
    if unused == 0 || frames as u64 + 3 > all {
        return None;
    }
    running.withhold(1, frames);
    let space = &running.heap().space;
    Some((space.withheld(0), space.free_frames(), space.departures()))
}

#[test]
fn a_page_leaves_where_frames_that_are_withheld_are_wanting(rt: HostRuntime) -> Result<(), Fail> {
    let Some(mut running) = with_three_pages(&rt, rt.alloc()) else {
        panic!(rt; "a heap with objects on three pages")
    };
    assert_eq!(rt; withheld(&mut running, 5), Some((6, 0, 0)));
    assert_eq!(rt; withheld(&mut running, 6), Some((7, 0, 1)));
    assert_eq!(rt; withheld(&mut running, 0), Some((1, 6, 1)));
    Ok(())
}
