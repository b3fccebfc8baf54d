// A turn of the lanes: those that have operations left run side by side over a table, and pagers beside them answer the turn's
// notices. The heap is then what it would be had the lanes run one after another, but for pages that moved.
//
// A domain that is frozen has no lane: all lanes read its root slots and its pages, and none writes them.
//
// Between turns a heap lies in one value. For a turn it is taken apart: the space becomes a table (`bc_pins`), at which each lane that
// runs has a seat and after them each pager, and each of these lanes takes what is its own out of the heap (`bc_lane`): the words of
// its domains' root slots, its chunk, its write buffer, the number of its births and its replies so far. Then they work (`run_turn`): on
// threads that the call joins, or, where the caller says that these wouldn't pay (`TurnThreads`), one after another on the caller's. The
// contract doesn't distinguish these. A lane runs until it is at its end or its next operation can't be done in this turn: its chunk or
// its write buffer has no room, or the operation looks at an object whose page is in other hands, or gone while no frame can be taken for
// it. The page is Gone after the turn then (`StopsBeside`), since who takes a page of another lane's puts none back; or it is of a frozen
// domain, where any lane takes pages and puts them back as they were. When all are through each lane lays back what it took, the table
// is closed, and the heap is one value again. The root slots stay whole in the heap meanwhile. All lanes share them (`&Roots`), to read
// those of frozen domains.
//
// There are as many pagers (`bc_pager`) as notices, at most four. They claim the notices in their order, each by one step at the table,
// and for each that it claimed a pager gives up a page, or declines it. Who comes first has a page, and nobody waits: where a lane has it
// in hand, or another pager, a pager goes on to the next; a page that a pager got first is in other hands, where a lane that looks there
// stops, and then gone, from where its lane reloads it.
//
// More notices may come while the turn is under way, where their source says so (`Notices::may_come`). Then one pager more, the live one,
// takes them from the source and answers each before it takes the next (`run_turn`). It has a thread of its own and the number after those
// of the others, and claims nothing at the table. It ends where the source has none, or where it has answered as many as there is room for.
//
// Where there is no pager at all, a lane that is alone starts no thread. Where no lane has operations left, the pagers are alone at a table
// (`answer_alone`). Where there is neither, nothing is done.
//
// Each notice has one answer (`AnsweredBeside`): by what the pager that claimed it did and read since. The answers stand in the order of
// the notices, after those that the caller's list had. Each pager keeps its own in a room of its own, with the numbers of their notices;
// once all are through they are laid into the list by these numbers (`close_turn`). At the close each number is one pager's claim. The live
// pager's answers stand in a list of their own, in the order in which it took their notices.
//
// Lanes reload pages of their own and of frozen domains, at most one for each operation that they do or stop at (`tried_in_turn`). For
// their frames they make others Gone or Absent, no more than they reload. By all answers and the lists of these pages each page is
// accounted for: how often it is Gone, or Absent, at the close. The bookmark bits that came are those of targets that pages had which were
// made Gone in the turn, and pages were read as often as one came back. Where a notice was declined, each page that is Home afterwards is
// looked at in the turn (`declined`), by an operation that a lane did which may read it, or by the next one that it would do; and so is
// each page that a lane reloaded (`IsLookedAtInTurn`).
//
// What takes memory comes first: room for what each lane takes along (`fit_room`), with a chunk, a write buffer and a list of replies
// without words that stand in the heap's places meanwhile; then the roles, each pager's room for answers to
// all notices, the lists of runs and pagers, and the table (`open_turn`).
// Where there is none the space is given back, and nothing has changed but the room that is kept. The lists of answers have their room from
// the caller. From then on nothing takes memory, so what has left the heap always comes back (`begin_all` and `finish_turn` have no
// allocator). A slot whose word is as it was isn't written back, since a slot that is written is noted.
//
// A turn is cut in two where all that leaves the heap has left it (`IsTurnUnderWay`): `begin_turn` opens the table, and the lanes take what is
// theirs; `finish_turn` runs them, and says what the heap is then by what it was before the turn began.
//
// Room is kept from turn to turn (`TurnRoom`), for the lanes of a phase, whose operations don't change. At the end of a turn a lane's
// room comes back with what stood in the heap's places, in the order of the lanes. The next turn drops that of lanes that are through
// by then, and takes no memory for the others. Roles, pagers' rooms, runs and the table are made anew.
//
// What holds meanwhile, of each lane that runs: what it has belongs to the heap that was with every page back (`heap_back`), before it
// runs, and after it to that heap with its operations done; and what another lane does changes nothing of what belongs to it. So the
// lanes may be put one after another,
// in the order of their numbers: lane j finds the heap `at j` and leaves the heap `at (j + 1)`, though no heap was ever like that, and
// the heap after the turn is the last of them, but for pages that moved (`RanBeside`, `IsLaidBack`). Pages that are Remembered
// afterwards are those that the operations make so, and no others. Pagers change where pages lie, and nothing of what they hold, so
// none of that speaks of them.
//
// The theorem is the contract of `take_turn`: clause `ran` speaks of the lanes, clause `answered` of the notices. That lanes can run on the
// heap afterwards, and that it stands for what the last of those heaps stands for, is `law_back`.
#![tactic(auto)]

mod beginning;
mod ending;
mod laws;
mod rooms;
mod runs;
mod turns;

pub use laws::law_back;
pub use rooms::TurnRoom;
pub use runs::TurnThreads;
pub use turns::take_turn;
