//! The beginning of a turn: each lane takes what is its own out of the heap.

ghost use Rattle.std.specs.Prelude.{◌≡◌, ℕ, List, Vec, ◌+◌, ◌*◌, ◌<◌, ◌≤◌, [], length, slice_index, slice_index_or, slice_set, vec_capacity};
ghost use Rattle.std.specs.declared.alloc.Global.{Global};
ghost use Rattle.bc_cycle.specs.Emptying.{heap_view};
ghost use Rattle.bc_model.specs.Rows.{lists_of};
ghost use Rattle.bc_model.specs.declared.values.Holder.{Holder};
ghost use Rattle.bc_turn.specs.Begun.{AreBusyLanes, HasLeft, of_lane};
ghost use Rattle.bc_turn.specs.Taking.{AreSparesOf, AreTaken, AreWordsOf, FitsLanes, HasCopied, HasReplyRoom, IsSpareOf, TakesAlong, spare_lanes};

use crate::rooms::Spare;
use crate::runs::Run;
use bc_cycle::Heap;
use bc_lane::{LaneRoots, LaneTurn};
use bc_model::{Op, Reply};
use bc_pins::Seat;
use bc_superpages::Roots;
use std::mem;

/// Begins the turn of each lane that has room for one, with the seats that were dealt to them, the last lane's first.
pub(crate) fn begin_all(
    heap: &mut Heap,
    serials: &[u32],
    lanes: &[Vec<Op>],
    replies: &mut [Vec<Reply>],
    spares: &mut Vec<Spare>,
    seats: &mut Vec<Seat>,
    runs: &mut Vec<Run>,
)
    requires sizes { FitsLanes (length lanes.now) (heap_view heap.old) (length serials.now) (length replies.old) }
    requires busy { AreBusyLanes (lists_of lanes.now) (lists_of replies.old) (spare_lanes spares.old.items) }
    requires spares { (holders : List Holder) × (length holders ≡ heap.old.roots.domains) × AreSparesOf holders heap.old.roots.slots spares.old.items }
    requires seats { length seats.old.items ≡ length spares.old.items }
    requires runs { (runs.old.items ≡ []) × (length spares.old.items ≤ vec_capacity runs.old) }
    requires room { HasReplyRoom (lists_of lanes.now) replies.old [] }
    ensures taken { (holders : List Holder) → AreSparesOf holders heap.old.roots.slots spares.old.items
        → AreTaken (heap_view heap.old) holders serials.now (lists_of lanes.now) replies.old (spare_lanes spares.old.items) seats.old.items (heap_view heap.new) replies.new runs.new.items }
    ensures same { heap.new ≡ record heap.old { chunks = heap.new.chunks; buffers = heap.new.buffers } }
    ensures spares { (spares.new.items ≡ []) × (vec_capacity spares.new ≡ vec_capacity spares.old) }
    ensures seats { (seats.new.items ≡ []) × (vec_capacity seats.new ≡ vec_capacity seats.old) }
{
    while let Some(seat) = seats.pop() {
        match spares.pop() {
            Some(spare) => {
                runs.push_reserved(begin_lane(heap, serials, lanes, replies, spare, seat));
            }
            None => unreachable!(),
        }
    }
}

/// Begins the turn of a lane: what is its own leaves the heap, and what is spare stands in its places.
fn begin_lane(
    heap: &mut Heap,
    serials: &[u32],
    lanes: &[Vec<Op>],
    replies: &mut [Vec<Reply>],
    spare: Spare,
    seat: Seat,
) -> Run
    requires lane { spare.lane < length lanes.now }
    requires sizes { FitsLanes (length lanes.now) (heap_view heap.old) (length serials.now) (length replies.old) }
    requires spare { IsSpareOf spare.room.holders.items heap.old.roots.slots spare }
    requires domains { length spare.room.holders.items ≡ heap.old.roots.domains }
    requires left { HasLeft (lists_of lanes.now) (lists_of replies.old) spare.lane }
    requires room { (v : Vec Reply Global) → v ≡ slice_index_or replies.old spare.lane v → length (of_lane (lists_of lanes.now) spare.lane) ≤ vec_capacity v }
    ensures takes { TakesAlong (heap_view heap.old) spare.room.holders.items serials.now (lists_of lanes.now) (lists_of replies.old) spare.lane result.turn }
    ensures room { length (of_lane (lists_of lanes.now) spare.lane) ≤ vec_capacity result.turn.replies }
    ensures seat { result.seat ≡ seat }
    ensures same { heap.new ≡ record heap.old { chunks = heap.new.chunks; buffers = heap.new.buffers } }
    ensures chunks { heap.new.chunks.items ≡ slice_set heap.old.chunks.items spare.lane spare.chunk }
    ensures buffers { heap.new.buffers.items ≡ slice_set heap.old.buffers.items spare.lane spare.buffer }
    ensures replies { replies.new ≡ slice_set replies.old spare.lane spare.replies }
{
    let Spare {
        lane,
        room,
        roots: LaneRoots { domains, mut words },
        chunk,
        buffer,
        replies: none,
    } = spare;
    let index = lane as usize;
    copy_words(&heap.roots, &domains, &mut words);
    let chunk = mem::replace(&mut heap.chunks[index], chunk);
    let buffer = mem::replace(&mut heap.buffers[index], buffer);
    let told = mem::replace(&mut replies[index], none);
    let roots = LaneRoots { domains, words };
    Run {
        seat,
        turn: LaneTurn::prepare(
            room,
            lane,
            roots,
            chunk,
            buffer,
            serials[index],
            told,
            &lanes[index],
            &heap.roots,
        ),
        padding: [0; 16],
    }
}

/// Copies the words of the root slots of these domains, in order of domain and slot.
fn copy_words(roots: &Roots, domains: &[u32], words: &mut Vec<u64>)
    requires domains { (i : ℕ) → i < length domains.now → slice_index domains.now i < roots.now.domains }
    requires none { words.old.items ≡ [] }
    requires room { length domains.now * roots.now.slots ≤ vec_capacity words.old }
    ensures words { AreWordsOf roots.now domains.now words.new.items }
{
    for domain in domains {
        copy_slots(roots, *domain, words);
    }
}

/// Copies the words of the root slots of a domain.
fn copy_slots(roots: &Roots, domain: u32, words: &mut Vec<u64>)
    requires domain { domain < roots.now.domains }
    requires room { length words.old.items + roots.now.slots ≤ vec_capacity words.old }
    ensures copied { HasCopied roots.now domain roots.now.slots words.old.items words.new.items }
    ensures room { vec_capacity words.new ≡ vec_capacity words.old }
{
    for slot in 0..roots.slots() {
        words.push_reserved(roots.get(domain, slot));
    }
}
