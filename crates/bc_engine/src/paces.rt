//! How turns run: at a table where one is likely to pay, and not again at once where one didn't; and on threads where these pay.

ghost use Rattle.std.specs.Prelude.{◌≡◌, length};

use bc_marking::{MarkPace, Wait};
use bc_model::{Op, Reply, Setup};
use bc_turn::TurnThreads;

/// To open a table and to close it takes at least the time of so many operations besides.
const OPERATIONS_A_TABLE: u64 = 128;

/// To start a thread and to end it takes a fraction of the time that so many operations take.
const OPERATIONS_A_THREAD: u64 = 4_096;

/// No lane is looked further ahead than so many operations.
const OPERATIONS_AHEAD: u64 = 8_192;

/// How the turns of an engine run. What they reply is the same. A turn that would have no table has one, on the caller's thread, where a notice
/// may come from a feed: only there a live pager takes some.
#[derive(Clone, Copy, PartialEq, Eq, Debug)]
pub enum Pacing {
    /// Each as is likely to pay, by what earlier turns cost and by who has work where pages have to leave: at a table or on the heap itself, on
    /// threads or on the caller's alone.
    Learned,
    /// Each at a table, with a thread for each lane that has operations left, or for each marker, and one for each pager. So a test may hold
    /// one of them up until another has come.
    SideBySide,
    /// Each turn of the lanes at a table, on the caller's thread alone, and markings without one. So a bench tells what threads save.
    OneThread,
    /// Each without a table: one lane after another on the heap itself, and then the notices; and markings on the caller's thread. So a bench
    /// reads the same pages at each run.
    Plain,
}

/// How a turn runs.
#[derive(Clone, Copy, PartialEq, Eq, Debug)]
pub(crate) enum TurnWay {
    /// One lane after another on the heap itself, and then the notices.
    Plain,
    /// At a table, on these threads.
    AtTable(TurnThreads),
}

/// A kind of turn, of whose tables is learnt apart from those of others.
#[derive(Clone, Copy, PartialEq, Eq, Debug)]
enum TurnKind {
    /// Notices came to it.
    Asked,
    /// No notice came, and it is likely to be long.
    Long,
    /// No notice came, and it has little to do.
    Short,
}

/// How the tables of earlier turns paid. Whether a marking has one is chosen beside it (`bc_marking`, `way_of_marking`). Where a table doesn't pay a lane did little at it: its chunk or its write buffer was soon full, it
/// came to a page in another's hands, or to one that is gone while no page could leave for it, or it had little to do.
#[derive(Drop)]
pub(crate) struct Pace {
    pacing: Pacing,
    asked: Wait,
    long: Wait,
    short: Wait,
    /// What the table of the turn under way costs, as so many operations; 0 where it has none of which is to be learnt.
    costs: u64,
    /// Of which kind the turn under way is.
    kind: TurnKind,
    /// How the tables of earlier markings paid.
    pub(crate) marks: MarkPace,
}

impl Pace {
    /// No turn was taken yet.
    pub(crate) fn new() -> Pace {
        Pace {
            pacing: Pacing::Learned,
            asked: Wait::none(),
            long: Wait::none(),
            short: Wait::none(),
            costs: 0,
            kind: TurnKind::Short,
            marks: MarkPace::new(),
        }
    }

    /// Turns of lanes and of marks run so from here on.
    pub(crate) fn set(&mut self, pacing: Pacing) {
        self.pacing = pacing;
        self.marks = match pacing {
            Pacing::Learned => MarkPace::new(),
            Pacing::SideBySide => MarkPace::side_by_side(),
            Pacing::OneThread | Pacing::Plain => MarkPace::alone(),
        };
    }

    /// Is the turn under way, which is of this kind, to go without a table since tables of its kind didn't pay?
    fn is_waiting(&mut self, kind: TurnKind) -> bool {
        self.kind = kind;
        match kind {
            TurnKind::Asked => self.asked.is_waiting(),
            TurnKind::Long => self.long.is_waiting(),
            TurnKind::Short => self.short.is_waiting(),
        }
    }

    /// Notes that the lanes did so many operations in the turn under way.
    pub(crate) fn note(&mut self, done: u64) {
        if self.costs == 0 {
            return;
        }
        let paid = done >= self.costs / 4;
        match self.kind {
            TurnKind::Asked => self.asked.note(paid),
            TurnKind::Long => self.long.note(paid),
            TurnKind::Short => self.short.note(paid),
        }
    }
}

/// How many replies all lanes have.
pub(crate) fn replies_told(replies: &[Vec<Reply>]) -> u64 {
    let mut told = 0u64;
    for lane in 0..replies.len() {
        told = told.saturating_add(replies[lane].len() as u64);
    }
    told
}

/// How the turn runs. Where it would have no table, and a notice may come from a feed (`coming`), it has one on the caller's thread, for its live
/// pager.
pub(crate) fn way_of_turn(
    setup: &Setup,
    pace: &mut Pace,
    crowded: bool,
    lanes: &[Vec<Op>],
    replies: &[Vec<Reply>],
    hints: &[u32],
    coming: bool,
) -> TurnWay
    requires { length replies.now ≡ length lanes.now }
{
    match way_that_pays(setup, pace, crowded, lanes, replies, hints) {
        TurnWay::Plain if coming => TurnWay::AtTable(TurnThreads::One),
        way => way,
    }
}

/// How the turn runs without a feed. A turn to which notices came has a table, so that pagers work beside the lanes. One to which none came has a
/// table where it is likely to be long, and the first turn of a phase where it has some operations for what a table looks at. No turn has one
/// while tables of its kind are waited with, since they didn't pay; nor where pages have to leave for those that come back (`crowded`) and
/// one lane or the pagers alone have work: on the heap its clock chooses which leave. Lanes at a table have threads where these are likely to
/// pay, and pagers one together: with 64 notices, four threads took from 0.93 to 1.48 times as long as one. `pace` then knows of the turn what
/// it needs to learn whether its table pays.
fn way_that_pays(
    setup: &Setup,
    pace: &mut Pace,
    crowded: bool,
    lanes: &[Vec<Op>],
    replies: &[Vec<Reply>],
    hints: &[u32],
) -> TurnWay
    requires { length replies.now ≡ length lanes.now }
{
    pace.costs = 0;
    match pace.pacing {
        Pacing::Learned => {}
        Pacing::SideBySide => return TurnWay::AtTable(TurnThreads::Each),
        Pacing::OneThread => return TurnWay::AtTable(TurnThreads::One),
        Pacing::Plain => return TurnWay::Plain,
    }
    let threads = threads_cost(lanes, replies, hints);
    if crowded && threads == 0 {
        return TurnWay::Plain;
    }
    let ahead = all_ahead(setup, lanes, replies);
    let is_wide = ahead > threads;
    let kind = if !hints.is_empty() {
        TurnKind::Asked
    } else if ahead > looked_at(setup).saturating_add(threads) {
        TurnKind::Long
    } else if replies_told(replies) > 0 || ahead <= looked_at(setup) / 8 {
        return TurnWay::Plain;
    } else {
        TurnKind::Short
    };
    if pace.is_waiting(kind) {
        return TurnWay::Plain;
    }
    let costs = looked_at(setup).saturating_add(OPERATIONS_A_TABLE);
    if is_wide {
        pace.costs = costs.saturating_add(threads);
        TurnWay::AtTable(TurnThreads::Lanes)
    } else {
        pace.costs = costs;
        TurnWay::AtTable(TurnThreads::One)
    }
}

/// About how many operations all lanes do in a turn.
fn all_ahead(setup: &Setup, lanes: &[Vec<Op>], replies: &[Vec<Reply>]) -> u64
    requires { length replies.now ≡ length lanes.now }
{
    let mut ahead = 0u64;
    for lane in 0..lanes.len() {
        let done = replies[lane].len();
        ahead = ahead.saturating_add(operations_ahead(setup, &lanes[lane], done));
    }
    ahead
}

/// What the threads of a turn cost, as so many operations: one for each lane that has operations left, and one for the pagers where notices
/// came; one of them all is the caller's.
fn threads_cost(lanes: &[Vec<Op>], replies: &[Vec<Reply>], hints: &[u32]) -> u64
    requires { length replies.now ≡ length lanes.now }
{
    let mut threads = 0u64;
    for lane in 0..lanes.len() {
        if replies[lane].len() < lanes[lane].len() {
            threads = threads.saturating_add(OPERATIONS_A_THREAD);
        }
    }
    if !hints.is_empty() {
        threads = threads.saturating_add(OPERATIONS_A_THREAD);
    }
    threads.saturating_sub(OPERATIONS_A_THREAD)
}

/// How many root slots and frames there are: what is known of a table's costs before it is opened.
fn looked_at(setup: &Setup) -> u64 {
    setup.domains as u64 * setup.slots as u64 + setup.frames as u64
}

/// About how many operations a lane does until its chunk or its write buffer is full, or all are done, from this one on. It looks no
/// further ahead than `OPERATIONS_AHEAD`.
fn operations_ahead(setup: &Setup, ops: &[Op], from: usize) -> u64 {
    let mut words = setup.nursery as u64 * 512;
    let mut entries = setup.buffer as u64;
    for number in from..ops.len() {
        let ahead = (number as u64).saturating_sub(from as u64);
        if ahead >= OPERATIONS_AHEAD {
            return ahead;
        }
        match &ops[number] {
            Op::New(_, fields) => {
                let size = *fields as u64 + 2;
                if words < size {
                    return ahead;
                }
                words -= size;
            }
            Op::Link(_, _, _) => {
                if entries == 0 {
                    return ahead;
                }
                entries -= 1;
            }
            _ => {}
        }
    }
    (ops.len() as u64).saturating_sub(from as u64)
}
