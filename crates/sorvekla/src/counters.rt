//! What a heap counts, and what can be counted of it.

ghost use Rattle.std.specs.Prelude.{◌≡◌, ◌≤◌, length, if◌then◌else◌};
ghost use Rattle.bc_bits.specs.Bits.{has};
ghost use Rattle.bc_bits.specs.Counting.{count_below};
ghost use Rattle.bc_whole_heap.specs.Counting.{is_of_pair};
ghost use Rattle.sorvekla.specs.Counts.{call_counts, cells_of_pair};
ghost use Rattle.sorvekla.specs.Heaps.{no_calls, one_answer, one_by_hand, one_failsafe, one_minor};

use crate::heaps::Heap;
use bc_bits::count;
use bc_cycle::EmptyingKind;
use bc_engine::{Counters as StepCounts, Tally};
use bc_pager::Answer;
use bc_superpages::{Header, Space};

/// What was done on a heap since it was opened. Each number stays at its type's end, but for those of pages in `steps`, which wrap at 2^64.
/// Each call says what it adds to `minor`, `by_hand`, `failsafe` and `hinted`: an operation may add one to `minor`. `reads` is the heap's
/// own count.
#[derive(Clone, Copy, PartialEq, Eq, Debug)]
pub struct Counters {
    /// Minor collections: the nurseries were emptied.
    pub minor: u64,
    /// Bookmark collections that a call asked for.
    pub by_hand: u64,
    /// Fail-safe collections that a call asked for.
    pub failsafe: u64,
    /// Pages that were read back.
    pub reads: u64,
    /// Hints for which a page left, with objects or without.
    pub hinted: u64,
    /// What the heap did by itself, as the engine of `bc run` counts it: collections by kind, and how many pages were read back and how many left,
    /// by whose step it was. An operation is one of a lane alone, and there are no turns. Pages of a fail-safe or a hint that a call asked for count
    /// with those of collections; that call itself is counted above alone. A minor collection that was refused, out of heap, is one by the
    /// fail-safe. No contract says these numbers.
    pub steps: StepCounts,
}

impl Counters {
    /// Nothing was done.
    pub(crate) fn none() -> Self
        ensures none { call_counts result ≡ no_calls }
    {
        Counters {
            minor: 0,
            by_hand: 0,
            failsafe: 0,
            reads: 0,
            hinted: 0,
            steps: StepCounts::none(),
        }
    }

    /// A lane did an operation.
    pub(crate) fn count_operation(&mut self, before: Tally, after: Tally)
        ensures uncounted { call_counts self.new ≡ call_counts self.old }
    {
        self.steps.count_alone(before, after);
    }

    /// There was a bookmark collection since frames were short, or none.
    pub(crate) fn count_early(&mut self, collected: bool)
        ensures uncounted { call_counts self.new ≡ call_counts self.old }
    {
        self.steps.count_early(collected, 0);
    }

    /// The nurseries were emptied once more.
    pub(crate) fn count_minor(&mut self, kind: EmptyingKind, before: Tally, after: Tally)
        ensures counted { call_counts self.new ≡ one_minor (call_counts self.old) }
    {
        self.minor = self.minor.saturating_add(1);
        self.steps.count_emptying(kind, before, after, 0);
    }

    /// The nurseries couldn't be emptied, which the fail-safe found.
    pub(crate) fn count_refusal(&mut self, before: Tally, after: Tally)
        ensures uncounted { call_counts self.new ≡ call_counts self.old }
    {
        self.steps
            .count_emptying(EmptyingKind::Failsafe, before, after, 0);
    }

    /// A call asked for a bookmark collection.
    pub(crate) fn count_by_hand(&mut self)
        ensures counted { call_counts self.new ≡ one_by_hand (call_counts self.old) }
    {
        self.by_hand = self.by_hand.saturating_add(1);
    }

    /// A call asked for a fail-safe collection.
    pub(crate) fn count_failsafe(&mut self, before: Tally, after: Tally)
        ensures counted { call_counts self.new ≡ one_failsafe (call_counts self.old) }
    {
        self.failsafe = self.failsafe.saturating_add(1);
        self.steps.count_pages(before, after, 0);
    }

    /// A hint was answered. It is counted, unless the answer is that no page could leave.
    pub(crate) fn count_answer(&mut self, answer: Answer, before: Tally, after: Tally)
        ensures counted { call_counts self.new ≡ one_answer answer (call_counts self.old) }
    {
        if answer != Answer::Declined {
            self.hinted = self.hinted.saturating_add(1);
        }
        let left = after.departures.wrapping_sub(before.departures);
        self.steps.count_pages(before, after, left);
    }
}

impl Heap {
    /// What was done on the heap since it was opened.
    pub fn counters(&self) -> Counters
        ensures counts { call_counts result ≡ self.now.counts }
        ensures reads { result.reads ≡ self.now.running.heap.space.reads }
    {
        Counters {
            reads: self.running.heap().space.reads(),
            ..self.upkeep.counters
        }
    }

    /// How many objects of a domain and of a size class lie in cells: those that are reached, and those that no collection has freed yet. A
    /// class is the size of a cell in words: 2, 4, 8, 16, 32, 64 or 128. An object of n fields takes the least that is above n.
    pub fn objects_in_cells(&self, domain: u32, class: u32) -> u32
        ensures count { result ≡ cells_of_pair self.now.running.heap.space domain class }
    {
        count_pair(&self.running.heap().space, domain, class)
    }
}

/// How many cells of a pair are allocated.
fn count_pair(space: &Space, domain: u32, class: u32) -> u32
    ensures count { result ≡ cells_of_pair space.now domain class }
{
    space.facts();
    let mut objects = 0;
    for superpage in 0..space.superpages() {
        objects += count_in(space.header(superpage), domain, class);
    }
    objects
}

/// How many cells of a superpage are allocated, if it is of the pair.
fn count_in(header: &Header, domain: u32, class: u32) -> u32
    requires long { length header.now.cells ≡ 16 }
    ensures count { result ≡ (if is_of_pair domain class header.now then count_below (has header.now.cells) 1024 else 0) }
    ensures few { result ≤ 1024 }
{
    if header.used && header.domain == domain && header.class == class {
        count(&header.cells, 1024)
    } else {
        0
    }
}
