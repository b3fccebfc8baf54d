//! The end of a turn: each lane lays back what is its own.

ghost use Rattle.std.specs.Prelude.{◌≡◌, ℕ, List, ◌+◌, ◌*◌, ◌<◌, ◌≤◌, [], length, slice_index, slice_index_or, slice_set, vec_capacity};
ghost use Rattle.bc_cycle.specs.Emptying.{heap_view};
ghost use Rattle.bc_model.specs.declared.operations.Op.{Op};
ghost use Rattle.bc_model.specs.declared.values.Holder.{Holder};
ghost use Rattle.bc_model.specs.Rows.{lists_of};
ghost use Rattle.bc_turn.specs.Laying.{AreLaidBack, LaysBack};
ghost use Rattle.bc_turn.specs.Taking.{AreRunsOf, AreSparesOf, FitsLanes, HasReplyRoom, HasRoomForLane, IsSpareOf, LaysDomains, LaysSlots, LiesRight, MayLay, running_lanes, seat_at, spare_lanes, turn_at};
ghost use Rattle.bc_word.specs.WordBits.{IsPacked};

use crate::rooms::Spare;
use crate::runs::Run;
use bc_cycle::Heap;
use bc_lane::{LaneDone, LaneRoots};
use bc_model::Reply;
use bc_pins::Seat;
use bc_superpages::Roots;
use std::mem;

/// Ends the turn of each lane, the last of the list first, and gathers their seats and their room.
pub(crate) fn end_all(
    heap: &mut Heap,
    serials: &mut [u32],
    replies: &mut [Vec<Reply>],
    runs: &mut Vec<Run>,
    seats: &mut Vec<Seat>,
    spares: &mut Vec<Spare>,
)
    requires sizes { (lanes : ℕ) × FitsLanes lanes (heap_view heap.old) (length serials.old) (length replies.old) }
    requires runs { (holders : List Holder) × (busy : List ℕ) × AreRunsOf holders busy (heap_view heap.old) runs.old.items }
    requires seats { (seats.old.items ≡ []) × (length runs.old.items ≤ vec_capacity seats.old) }
    requires spares { (spares.old.items ≡ []) × (length runs.old.items ≤ vec_capacity spares.old) }
    ensures back { (holders : List Holder) → (busy : List ℕ) → (d : Run) → AreRunsOf holders busy (heap_view heap.old) runs.old.items
        → AreLaidBack holders busy (turn_at d runs.old.items) (length busy) (heap_view heap.old) serials.old (lists_of replies.old) (heap_view heap.new) serials.new (lists_of replies.new) }
    ensures seats { (i : ℕ) → (d : Run) → (e : Seat) → i < length runs.old.items → slice_index_or seats.new.items i e ≡ seat_at d runs.old.items i }
    ensures seats_long { length seats.new.items ≡ length runs.old.items }
    ensures seats_room { vec_capacity seats.new ≡ vec_capacity seats.old }
    ensures spares { (holders : List Holder) → (busy : List ℕ) → AreRunsOf holders busy (heap_view heap.old) runs.old.items
        → AreSparesOf holders heap.old.roots.slots spares.new.items × (spare_lanes spares.new.items ≡ busy) }
    ensures room { (lanes : List (List Op)) → HasReplyRoom lanes replies.old (running_lanes runs.old.items)
        → ((i : ℕ) → (d : Run) → i < length runs.old.items → HasRoomForLane lanes (slice_index_or runs.old.items i d).turn) → HasReplyRoom lanes replies.new [] }
    ensures same { heap.new ≡ record heap.old { roots = heap.new.roots; chunks = heap.new.chunks; buffers = heap.new.buffers } }
    ensures runs { runs.new.items ≡ [] }
{
    while let Some(run) = runs.pop() {
        let (seat, spare) = end_lane(heap, serials, replies, run);
        seats.push_reserved(seat);
        spares.push_reserved(spare);
    }
}

/// Ends the turn of a lane: what is its own goes back to its places in the heap, and what stood there is room for its next turn.
fn end_lane(
    heap: &mut Heap,
    serials: &mut [u32],
    replies: &mut [Vec<Reply>],
    run: Run,
) -> (Seat, Spare)
    requires sizes { (lanes : ℕ) × (run.turn.part.lane < lanes) × FitsLanes lanes (heap_view heap.old) (length serials.old) (length replies.old) }
    requires right { LiesRight run.turn.part.holders.items heap.old.roots run.turn.part }
    ensures back { LaysBack run.turn.part.holders.items run.turn (heap_view heap.old) serials.old (lists_of replies.old) (heap_view heap.new) serials.new (lists_of replies.new) }
    ensures replies { replies.new ≡ slice_set replies.old run.turn.part.lane run.turn.replies }
    ensures seat { result.0 ≡ run.seat }
    ensures lane { result.1.lane ≡ run.turn.part.lane }
    ensures spare { IsSpareOf run.turn.part.holders.items heap.old.roots.slots result.1 }
    ensures same { heap.new ≡ record heap.old { roots = heap.new.roots; chunks = heap.new.chunks; buffers = heap.new.buffers } }
{
    let Run {
        seat,
        turn,
        padding: _,
    } = run;
    let lane = turn.lane();
    let index = lane as usize;
    let LaneDone {
        roots: LaneRoots { domains, mut words },
        chunk,
        buffer,
        serial,
        next: _,
        replies: told,
        room,
    } = turn.finish();
    lay_words(&mut heap.roots, &domains, &words);
    words.clear();
    serials[index] = serial;
    let chunk = mem::replace(&mut heap.chunks[index], chunk);
    let buffer = mem::replace(&mut heap.buffers[index], buffer);
    let replies = mem::replace(&mut replies[index], told);
    let spare = Spare {
        lane,
        room,
        roots: LaneRoots { domains, words },
        chunk,
        buffer,
        replies,
    };
    (seat, spare)
}

/// Writes the words of a lane's root slots, those of these domains, where they are other than before.
fn lay_words(roots: &mut Roots, domains: &[u32], words: &[u64])
    requires { MayLay roots.old domains.now words.now }
    ensures { LaysDomains roots.old domains.now words.now (length domains.now) roots.new }
{
    for number in 0..domains.len() {
        let start = number * roots.slots() as usize;
        lay_slots(roots, domains[number], words, start);
    }
}

/// Writes the words of a domain's root slots, which stand in the list from a place on, where they are other than before.
fn lay_slots(roots: &mut Roots, domain: u32, words: &[u64], start: usize)
    requires domain { domain < roots.old.domains }
    requires enough { start + roots.old.slots ≤ length words.now }
    requires packed { (k : ℕ) → IsPacked (slice_index words.now k) }
    ensures { LaysSlots roots.old domain words.now start roots.old.slots roots.new }
{
    for slot in 0..roots.slots() {
        let word = words[start + slot as usize];
        if roots.get(domain, slot) == word {
            continue;
        }
        roots.set(domain, slot, word);
    }
}
