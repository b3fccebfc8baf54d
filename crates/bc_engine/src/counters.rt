//! What an engine counts of what it does: turns, collections by kind and reason, and pages that were read back or left, by whose step it was.
//!
//! The heap itself counts its page reads and the pages that left. Before and after a step of a round both are looked at (`tally_of`), and as much
//! as they went on by is added to the step's own count. So the counts of all steps add up to the heap's. Pages that left for a notice are counted
//! apart, by its answer. Contracts see the heap's reads and the answers, and so they say exactly how many pages were read in each way, and how many
//! left for notices. They don't see the heap's count of pages that left, and say nothing of how many left in each other way.

ghost use Rattle.std.specs.Prelude.{◌≡◌, ◌^◌, ◌<◌};
ghost use Rattle.bc_engine.specs.Counting.{CountsAlone, CountsEarly, CountsEmptying, CountsPages, CountsTurn, all_pages, counts_from, gone_on, no_counts, one_of_kind};

use bc_cycle::EmptyingKind;
use bc_running::Running;

/// How many pages, by whose step it was. Each number goes round at 2^64.
#[derive(Clone, Copy, PartialEq, Eq, Debug)]
pub struct PageCounts {
    /// In turns, by lanes. Pages that leave where frames are withheld for a turn are counted here too.
    pub turns: u64,
    /// By operations of one lane alone: each lane does one after a minor collection, and some are done between phases.
    pub alone: u64,
    /// By minor collections, with the bookmark collections and fail-safes that they need.
    pub collections: u64,
    /// For notices, in turns and while collections mark. No page is read for one.
    pub notices: u64,
}

/// What an engine has done since it was opened. Each number of turns and collections stays at 2^64 - 1.
#[derive(Clone, Copy, PartialEq, Eq, Debug)]
pub struct Counters {
    /// Turns of the lanes.
    pub turns: u64,
    /// Bookmark collections between a turn and its minor collection, since frames were short.
    pub early: u64,
    /// Minor collections whose survivors found cells at once.
    pub promotions: u64,
    /// Minor collections whose survivors found cells after a bookmark collection.
    pub collections: u64,
    /// Minor collections whose survivors found no cell even then: the fail-safe collected the whole heap, or found it too small.
    pub failsafes: u64,
    /// Pages that had been read back before the engine had the heap: none, but where it was adopted.
    pub earlier: u64,
    /// Pages that were read back from the store. Each number is proved, and all together with the earlier ones are the heap's reads.
    pub reads: PageCounts,
    /// Pages with objects that left memory for the store. How many left for notices is proved: as many as answers say so. No contract says the
    /// other three numbers.
    pub departures: PageCounts,
}

/// What a heap had counted at some time.
#[derive(Clone, Copy)]
pub struct Tally {
    /// Pages that were read back.
    pub reads: u64,
    /// Pages with objects that left.
    pub departures: u64,
}

/// What the heap has counted.
pub fn tally_of(running: &Running) -> Tally
    ensures reads { result.reads ≡ running.now.heap.space.reads }
    ensures fits { running.now.heap.space.reads < 2 ^ 64 }
{
    let space = &running.heap().space;
    Tally {
        reads: space.reads(),
        departures: space.departures(),
    }
}

impl PageCounts {
    /// No page.
    const NONE: PageCounts = PageCounts {
        turns: 0,
        alone: 0,
        collections: 0,
        notices: 0,
    };

    /// All of them together. The sum goes round at 2^64 too.
    pub fn all(&self) -> u64
        ensures all { result ≡ all_pages self.now }
    {
        self.turns
            .wrapping_add(self.alone)
            .wrapping_add(self.collections)
            .wrapping_add(self.notices)
    }
}

impl Counters {
    /// Nothing was done.
    pub fn none() -> Self
        ensures { result ≡ no_counts }
    {
        Counters {
            turns: 0,
            early: 0,
            promotions: 0,
            collections: 0,
            failsafes: 0,
            earlier: 0,
            reads: PageCounts::NONE,
            departures: PageCounts::NONE,
        }
    }

    /// Nothing was done yet on a heap that has read so many pages.
    pub(crate) fn from_here(reads: u64) -> Self
        ensures { result ≡ counts_from reads }
    {
        let mut counters = Counters::none();
        counters.earlier = reads;
        counters
    }

    /// There was a turn, in which so many pages left for notices.
    pub(crate) fn count_turn(&mut self, before: Tally, after: Tally, noticed: u64)
        ensures counts { CountsTurn self.old before.reads after.reads noticed self.new }
    {
        self.turns = self.turns.saturating_add(1);
        go_on(&mut self.reads.turns, before.reads, after.reads);
        self.departures.notices = self.departures.notices.wrapping_add(noticed);
        let left = before.departures.wrapping_add(noticed);
        go_on(&mut self.departures.turns, left, after.departures);
    }

    /// There was a bookmark collection since frames were short, or none. So many pages left for notices while it marked, and no other.
    pub fn count_early(&mut self, collected: bool, noticed: u64)
        ensures counts { CountsEarly self.old collected noticed self.new }
    {
        if collected {
            self.early = self.early.saturating_add(1);
            self.departures.notices = self.departures.notices.wrapping_add(noticed);
        }
    }

    /// The nurseries were emptied, or couldn't be, after the fail-safe had tried. So many pages left for notices while it marked.
    pub fn count_emptying(&mut self, kind: EmptyingKind, before: Tally, after: Tally, noticed: u64)
        ensures counts { CountsEmptying kind self.old before.reads after.reads noticed self.new }
    {
        self.count_kind(kind);
        self.count_pages(before, after, noticed);
    }

    /// One minor collection more of this kind.
    fn count_kind(&mut self, kind: EmptyingKind)
        ensures { self.new ≡ one_of_kind kind self.old }
    {
        match kind {
            EmptyingKind::Promotion => self.promotions = self.promotions.saturating_add(1),
            EmptyingKind::Collection => self.collections = self.collections.saturating_add(1),
            EmptyingKind::Failsafe => self.failsafes = self.failsafes.saturating_add(1),
        }
    }

    /// Pages were read back and left in collections, so many of them for notices, and nothing else is counted.
    pub fn count_pages(&mut self, before: Tally, after: Tally, noticed: u64)
        ensures counts { CountsPages self.old before.reads after.reads noticed self.new }
    {
        go_on(&mut self.reads.collections, before.reads, after.reads);
        self.departures.notices = self.departures.notices.wrapping_add(noticed);
        let left = before.departures.wrapping_add(noticed);
        go_on(&mut self.departures.collections, left, after.departures);
    }

    /// Lanes did operations by themselves.
    pub fn count_alone(&mut self, before: Tally, after: Tally)
        ensures counts { CountsAlone self.old before.reads after.reads self.new }
    {
        go_on(&mut self.reads.alone, before.reads, after.reads);
        go_on(
            &mut self.departures.alone,
            before.departures,
            after.departures,
        );
    }
}

/// The count goes on as another one did.
fn go_on(count: &mut u64, before: u64, after: u64)
    ensures { count.new ≡ gone_on count.old before after }
{
    *count = count.wrapping_add(after.wrapping_sub(before));
}
