//! Notices that are answered where nobody works beside: pages are given up for their hints. And frames are withheld, and the space is settled.

ghost use Rattle.std.specs.Prelude.{◌≡◌, ◌+◌, ◌≤◌, length, vec_capacity};
ghost use Rattle.bc_bookmarks.specs.Changes.{Settled};
ghost use Rattle.bc_bookmarks.specs.Moves.{MovesPages};
ghost use Rattle.bc_bookmarks.specs.Withholding.{KeepsFrames, Withheld};
ghost use Rattle.bc_cycle.specs.Emptying.{heap_view};
ghost use Rattle.bc_pager.specs.Alone.{AnsweredAlone};
ghost use Rattle.bc_pins.specs.Opening.{IsOpenable};
ghost use Rattle.bc_whole_heap.specs.HeapFacts.{NoneRemembered};
ghost use Rattle.bc_whole_heap.specs.Running.{IsRunning};
ghost use Rattle.bc_running.specs.Serving.{GivesUpFirst, Served};

use bc_bookmarks::{settle, withhold};
use bc_cycle::Heap;
use bc_model::Holder;
use bc_pager::{Answer, answer_all, answer_one};
use bc_superpages::Space;
use bc_whole_heap::heap_facts;

/// Gives up a page of a heap that is running for each hint, in their order, and then settles. A hint for which no page can leave
/// changes nothing.
pub(crate) fn serve_heap(heap: &mut Heap, holders: &[Holder], hints: &[u32])
    requires { IsRunning (heap_view heap.old) holders.now }
    ensures served { Served heap.old.space hints.now heap.new.space }
    ensures moves { MovesPages heap.old.space heap.new.space }
    ensures rest { heap.new ≡ record heap.old { space = heap.new.space } }
{
    heap_facts(&heap.space, &heap.roots, &heap.chunks);
    serve_space(&mut heap.space, hints);
}

/// Answers the notices with these hints on a heap that is running, in their order, and keeps the answers after those that there are.
pub(crate) fn answer_heap(
    heap: &mut Heap,
    holders: &[Holder],
    hints: &[u32],
    answers: &mut Vec<Answer>,
)
    requires running { IsRunning (heap_view heap.old) holders.now }
    requires room { length answers.old.items + length hints.now ≤ vec_capacity answers.old }
    ensures answered { AnsweredAlone heap.old.space hints.now answers.old.items answers.new.items heap.new.space }
    ensures capacity { vec_capacity answers.new ≡ vec_capacity answers.old }
    ensures moves { MovesPages heap.old.space heap.new.space }
    ensures rest { heap.new ≡ record heap.old { space = heap.new.space } }
{
    heap_facts(&heap.space, &heap.roots, &heap.chunks);
    answer_all(&mut heap.space, hints, answers);
}

/// Settles the space of a heap that is running.
pub(crate) fn settle_heap(heap: &mut Heap, holders: &[Holder])
    requires { IsRunning (heap_view heap.old) holders.now }
    ensures settled { Settled heap.old.space heap.new.space }
    ensures moves { MovesPages heap.old.space heap.new.space }
    ensures rest { heap.new ≡ record heap.old { space = heap.new.space } }
{
    settle(&mut heap.space);
}

/// Withholds frames of a heap that is running, beside those of the nurseries.
pub(crate) fn withhold_heap(heap: &mut Heap, holders: &[Holder], nurseries: u32, frames: u32)
    requires running { IsRunning (heap_view heap.old) holders.now }
    requires unrecorded { NoneRemembered heap.old.space }
    requires nurseries { nurseries ≤ heap.old.space.nursery }
    requires frames { nurseries + frames ≤ heap.old.space.frames }
    ensures withheld { Withheld (nurseries + frames) heap.old.space heap.new.space }
    ensures keeps { KeepsFrames (nurseries + frames) heap.old.space heap.new.space }
    ensures rest { heap.new ≡ record heap.old { space = heap.new.space } }
{
    withhold(&mut heap.space, nurseries, frames);
}

/// Gives up a page of the space of such a heap for each hint, and then settles.
fn serve_space(space: &mut Space, hints: &[u32])
    requires openable { IsOpenable space.old }
    ensures served { Served space.old hints.now space.new }
    ensures moves { MovesPages space.old space.new }
{
    give_up_all(space, hints);
    settle(space);
}

/// Gives up a page for each hint, in their order.
fn give_up_all(space: &mut Space, hints: &[u32])
    requires openable { IsOpenable space.old }
    ensures gives { GivesUpFirst space.old hints.now (length hints.now) space.new }
    ensures moves { MovesPages space.old space.new }
{
    for hint in hints {
        let _answer = answer_one(space, *hint);
    }
}
