// The engine: it replays the phases of a trace on the collector's heap.
//
// An `Engine` keeps one heap (a space of cells, root slots, and for each lane a chunk and a write buffer), who holds each
// domain, and how many objects each lane has made, by which it numbers the next one. A domain is held by a lane, which alone
// reads and writes it, or it is frozen: then all lanes read it and none writes it. It knows the setup and the
// number of workers that it was opened with and, once it has ended, how: what it stands for needs more superpages than there
// are, or memory ran out. An engine that has ended replays no other phase.
//
// A phase (`phases`) begins by taking room for the replies to all its operations. Then it goes in rounds (`rounds`), on a `Player`. A round
// begins with a turn of the lanes (`turns`): each does operations until it is at its end or one stops. The lanes run side by
// side, each on a thread of its own where these pay, over a table of the heap's pages (`bc_turn`), and beside them pagers, at most four,
// claim the notices of the turn's line and give up a page for each, if they get one (`bc_pager`). A lane stops where its chunk or its write
// buffer is full, and where it looks at an object in a cell whose page is in another's hands. One whose page is gone reloads it, and
// stops only where no frame is free and no other page can leave. A page of a frozen domain any lane takes and reloads, and puts back as it
// was. Where one is gone for which no frame is free, or which another lane reloads first, the lane stops too. What the lanes do so is
// what they do one after another (`RanBeside`), so a turn is a stretch of the phase like any other. Where tables of its kind don't pay
// (`paces`), where pages have to leave and one lane alone has work, or where there is no memory for a table, they do run one after another
// (`lanes`), and then the notices are answered. So a turn takes memory and is never refused for lack of it. An operation that stops has at
// most moved pages.
// Then the heap is settled. The lines of a phase are used in order, one for each turn of the lanes and each mark turn of a
// collection (`bc_marking`), and from the first one again when they are used up. So the heap gets by with the frames that the setup gives it, and no reply says which pages were away; but what
// became of each notice is kept, in order (`Engine::answers`). Room for the answers of a round is taken before it, and only where
// there is none does a phase end in the middle, out of memory.
//
// A phase may also take notices as it runs, from a feed (`Engine::phase_with`). Where one more may come, a live pager beside the lanes answers those
// that it takes, up to 64 a turn. What it leaves is there for the next turn. These answers stand in a list of their own (`Engine::live_answers`), and
// room for those of a turn is taken before its round too. Where there is no memory for the turn's table no notice is taken. `Engine::phase` is the
// same over no notices, and then no list but that of the lines grows.
//
// The line of a turn of the lanes also says how many frames are withheld in it (`budgets`): so many beside those of the nurseries no page may use.
// Before the turn pages are given up where frames are wanting for that. Chunks hold at most one object then, which nothing mature refers to, and
// no page is remembered, so every page can go. A mark turn leaves the number, and so do operations of a lane alone. When all lanes are at their
// ends none is withheld any more; a phase that ends out of heap leaves them, and the engine has ended (`law_budgets`). A list that the engine keeps
// (`opened`) has an item for each turn of the lanes: how many frames were withheld in it, and how many mark turns came after it, before the next
// one (`law_opened`). Room for it is taken before anything is done, since a round that isn't the last one does an operation. What the type of an
// engine says is true of it between phases, so within one the rounds run on what it plays on, the `Player`.
//
// Where frames are short a bookmark collection comes next. Then the nurseries are emptied, and if all lanes are at their ends the rounds are
// through. If not, each lane that has
// operations left does one more on empty chunks. That one can't stop: an empty chunk has room for any object, where a
// chunk is empty no reference to it can be stored, and no page is remembered, so every page can leave for the one that is
// wanted. Nor does it record anything, so all buffers are empty still. So each round that isn't the last does an operation
// of every lane that had any left, and the operations that are left get fewer. When the rounds are through, domains change
// hands or are frozen: all chunks are empty then, so nothing refers to the chunk of the lane that loses one, and no word of a
// frozen domain to any chunk. `Engine::serial` does such an operation by itself.
//
// An emptying may find that the heap is too small. Then it stands for what it stood for, that needs more superpages than
// there are, and the phase ends there with the replies so far. Whatever the lanes have done is a cut of
// the phase: so many of the first operations of each lane. They were done in the order of the rounds and not lane after
// lane, but a lane looks at no domain of another lane, and nobody writes a frozen one, so each order gives the same replies and the same state.
// The proofs keep the list of the steps that were done, in their order (`Goes`), and turn to lane after lane at
// the phase's end alone (proofs/CutLemmas.antt).
//
// What is true of every engine between calls, until memory runs out (`IsEngine`): its heap is in order, so that lanes can run
// on it (`IsRunning` in `bc_whole_heap`), of which it is part that bookmarks and counters stand for the pages that left; it has
// the sizes of the setup and its frames, of which two aren't those of nursery pages, and superpages are in use for the setup's
// domains alone; and there is a state of the heap that never frees, moves or pages that it stands for, with just these holders
// and births. As long as it hasn't ended, write buffers are empty, no page is remembered and no frame is withheld. `facts` says all this.
//
// An engine counts what it does (`counters`): turns, collections by kind and reason, and the pages that were read back or left, by whose step it
// was. Each round says how the counts go on, and all page reads by their causes, with those before the engine had the heap, add up to the heap's
// own count at any time (`IsCounted`). Where a log is asked for (`keep_log`) each step of a round is written down too.
//
// Between phases an engine that hasn't ended can be taken apart (`split`): what is left then is who holds each domain, how many objects each
// lane has made, the root slots and the space (`Parts`). An engine goes on with such parts (`adopt`), also with ones that no engine was taken
// apart for: each reference names an allocated cell, no two cells are of one birth, and each birth is one of its lane's (`CanAdopt`). No state is
// among the conditions. One is made of the space in the proof (`adopted_state`): each birth's object is what its cell holds.
//
// The theorem is the contract of `Engine::phase` and `Engine::phase_with`. Done, the replies are those of the heap that never frees, to every
// operation, the engine stands for the state after the phase, and its superpages are at least that state's need
// (`DidPhase`). Refused, out of heap, the replies and the state are those of a cut, and the need that is answered
// is the need of that state and above the number of superpages (`CutPhase`). Each notice that was taken has its answer, once and in order (`HadTurns`, `law_answers`, `law_fed`). `Engine::open`, `give`, `freeze` and `serial`
// say the same of the opening state, of one give, of one freeze and of one operation.
#![tactic(auto)]

mod budgets;
mod counters;
mod engines;
mod lanes;
mod laws;
mod logs;
mod notices;
mod opened;
mod paces;
mod phases;
mod players;
mod rounds;
mod turns;

pub use bc_pager::Answer;
pub use bc_running::Parts;
pub use counters::{Counters, PageCounts, Tally, tally_of};
pub use engines::Engine;
pub use laws::{law_answers, law_budgets, law_fed, law_opened};
pub use logs::{Standing, Step, StepKind};
pub use opened::Opened;
pub use paces::Pacing;
pub use phases::PhaseError;
