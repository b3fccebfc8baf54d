//! Hostile use: inputs that are changed in one place, devices that fail, hints that name no page, and calls after one that was refused.

ghost use Rattle.std.specs.Prelude.{◌≡◌, ℕ, ◌*◌, ◌<◌, ◌≤◌, ◌+◌, length, IfOk};
ghost use Rattle.std.specs.List.{AllByRecursion};
ghost use Rattle.bc_engine.specs.Lanes.{of_lane};
ghost use Rattle.bc_model.specs.WellFormed.{FitsFrames, IsPhase};

use crate::equal::same;
use crate::shown::{shows, shows_done};
use bc_bits::count;
use bc_cli::{OpenGate, Status};
use bc_engine::{Answer, Engine, PhaseError};
use bc_io::MemSource;
use bc_model::{Op, Phase, Replies, Setup, Slot};
use bc_superpages::Space;
use bc_trace::Cause;
use program_workshop::{Paper, SMALL, repeated, run_between, run_past, trace};
use std::alloc::{AllocError, Global};
use std::process::Abort;
use std::test::Fail;
use std::thread::Threads;

/// A phase of one lane, which is done.
const FIRST_PATH: &str =
    "bc-trace 1\nlanes 1\ndomains 1\nslots 2\nsuperpages 1\nnursery 1\nbuffer 4\nframes 3\nphase\nlane 0\nnew 0 0 2\nset 0 0 1 7\nload 0 0 1 0 1\nend\ndone\n";

/// What it prints.
const FIRST_OUTPUT: &str = "phase 1\nlane 0\nobj 0.1\nok\nnum 7\ndone\n";

/// The first line of a trace in each version of the language.
const FIRST_LINES: [&str; 3] = ["bc-trace 1\n", "bc-trace 2\n", "bc-trace 3\n"];

/// Changes of the first path: what is replaced where it stands first, what comes in its place, and the line and the cause by which the changed
/// text is refused.
const CHANGES: [(&str, &str, u32, Cause); 14] = [
    ("bc-trace 1", "bc-trace 4", 1, Cause::Range),
    ("\nlanes 1", "\n lanes 1", 2, Cause::Form),
    ("lanes 1", "lanes 01", 2, Cause::Number),
    ("domains 1", "slots 2", 3, Cause::Order),
    ("\nphase\n", "\nphase\r\n", 9, Cause::Form),
    ("\nlane 0", "\nlane 1", 10, Cause::Range),
    ("new 0 0 2", "newx 0 0 2", 11, Cause::Word),
    ("new 0 0 2", "new 0 0", 11, Cause::Form),
    ("new 0 0 2", "turn 0", 11, Cause::Order),
    ("set 0 0 1 7", "set 0 2 1 7", 12, Cause::Range),
    ("set 0 0 1 7", "set 0 0 127 7", 12, Cause::Range),
    (
        "set 0 0 1 7",
        "set 0 0 1 99999999999999999999",
        12,
        Cause::Number,
    ),
    ("done\n", "done", 15, Cause::End),
    ("done\n", "done\nx", 16, Cause::Order),
];

#[test]
fn each_change_of_the_first_path_is_refused_at_its_line_by_its_cause(
    rt: HostRuntime,
) -> Result<(), Fail> {
    for first in FIRST_LINES {
        for (old, new, line, cause) in CHANGES {
            let text = FIRST_PATH
                .replacen(rt.alloc(), old, new, 1)?
                .replacen(rt.alloc(), "bc-trace 1\n", first, 1)?;
            let end = (Status::BadTrace { line, cause }, false);
            shows(&rt, rt.alloc(), &["run"], text.into_bytes(), end, "");
        }
    }
    Ok(())
}

/// What a run over devices ended with, the heap that it handed back, and what the sink holds.
#[derive(Drop)]
struct Left {
    status: Status,
    heap: Option<Engine>,
    held: Vec<u8>,
}

/// A run over devices that give and take pieces of these sizes. The one read and the one write of these numbers fail.
fn run_pieces<R: Threads + Sync>(
    rt: &R,
    alloc: Global,
    trace: &[u8],
    reads: (usize, u64),
    writes: (usize, u64),
) -> Result<Left, Fail>
    requires reads { 0 < reads.0 }
    requires writes { 0 < writes.0 }
{
    let mut source = MemSource::new(trace.to_vec(alloc)?, reads.0, vec![in alloc; reads.1]?);
    let mut sink = Paper::torn(alloc, writes.0, writes.1);
    let outcome = run_between(rt, alloc, &["run"], &mut source, &mut sink, &OpenGate);
    Ok(Left {
        status: outcome.status,
        heap: outcome.heap,
        held: sink.into_bytes(),
    })
}

/// Shows how the first path ends over such devices, with a heap that is handed back or none, and how many bytes of its output are held.
fn first_path_leaves<R: Threads + Sync + Abort>(
    rt: &R,
    alloc: Global,
    reads: (usize, u64),
    writes: (usize, u64),
    end: (Status, bool),
    held: usize,
) -> Result<(), Fail>
    requires reads { 0 < reads.0 }
    requires writes { 0 < writes.0 }
    requires held { held ≤ 37 }
{
    let (status, has_heap) = end;
    let left = run_pieces(rt, alloc, FIRST_PATH.as_bytes(), reads, writes)?;
    assert_eq!(rt;
        left.status,
        status,
        "at read {}, write {}",
        reads.1, writes.1
    );
    same(rt, left.heap.is_some(), has_heap);
    same(rt, left.held.as_slice(), &FIRST_OUTPUT.as_bytes()[..held]);
    Ok(())
}

#[test]
fn a_read_or_a_write_that_fails_ends_the_first_path_there(rt: HostRuntime) -> Result<(), Fail> {
    let alloc = rt.alloc();
    let read_fault = (Status::ReadFault, false);
    for number in 1..=10 {
        first_path_leaves(&rt, alloc, (16, number), (1000, 0), read_fault, 0)?;
    }
    let done = (Status::Done, true);
    first_path_leaves(&rt, alloc, (16, 11), (1000, 0), done, 37)?;
    let write_fault = (Status::WriteFault, true);
    first_path_leaves(&rt, alloc, (4096, 0), (10, 3), write_fault, 20)?;
    Ok(())
}

/// A phase that makes a chain of 1,025 objects, one more than a superpage has cells.
fn chain(alloc: Global) -> Result<String, AllocError> {
    let links = repeated(alloc, "new 0 1 1\nlink 0 1 0 0 0\ncopy 0 1 0 0\n", 1024)?;
    let lines = format!(in alloc; "phase\nlane 0\nnew 0 0 1\ncopy 0 0 0 1\n{links}end\ndone\n")?;
    trace(alloc, SMALL, &lines)
}

/// What it prints: all its replies, and the line of the need.
fn chained(alloc: Global) -> Result<String, AllocError> {
    let mut output = String::from_str(alloc, "phase 1\nlane 0\nobj 0.1\nok\n")?;
    for serial in 2..=1025u32 {
        let replies = format!(in alloc; "obj 0.{serial}\nok\nok\n")?;
        output.push_str(&replies)?;
    }
    output.push_str("out of heap 2\n")?;
    Ok(output)
}

/// How many objects lie in cells.
fn objects_in_cells(space: &Space) -> u32 {
    space.facts();
    let mut objects: u32 = 0;
    for superpage in 0..space.superpages() {
        objects = objects.saturating_add(count(&space.header(superpage).cells, 1024));
    }
    objects
}

/// How many words are left of the chunk of lane 0.
fn words_left(engine: &Engine) -> u32 {
    match engine.heap().chunks.first() {
        Some(chunk) => chunk.left(),
        None => 0,
    }
}

#[test]
fn a_write_that_fails_after_an_object_too_many_leaves_the_heap_of_the_stopped_state(
    rt: HostRuntime,
) -> Result<(), Fail> {
    let alloc = rt.alloc();
    let text = chain(alloc)?;
    let output = chained(alloc)?;
    let bytes = text.as_bytes();
    for number in 1..=2 {
        let left = run_pieces(&rt, alloc, bytes, (65_536, 0), (65_536, number))?;
        same(&rt, left.status, Status::WriteFault);
        assert!(rt; output.as_bytes().starts_with(&left.held));
        same(&rt, left.held.is_empty(), number == 1);
        let Some(engine) = &left.heap else {
            return Err(Fail::new("no heap was handed back"));
        };
        same(&rt, objects_in_cells(&engine.heap().space), 1024);
        same(&rt, words_left(engine), 510);
    }
    Ok(())
}

/// Lines of a phase whose notices name a page, three times none or one that is absent, while a mature object comes to refer to a young one.
/// What they print. And the same with a phase after it.
const REMEMBERED: [(&str, &str); 2] = [
    (
        "phase\nlane 0\nnew 0 0 1\nend\nphase\nturn 0 4294967295 3 2\nlane 0\nnew 0 1 0\nlink 0 0 0 0 1\nload 0 0 0 0 1\nwho 0 1\nend\ndone\n",
        "phase 1\nlane 0\nobj 0.1\nphase 2\nlane 0\nobj 0.2\nok\nref\nobj 0.2\ndone\n",
    ),
    (
        "phase\nlane 0\nnew 0 0 1\nend\nphase\nturn 0 4294967295 3 2\nlane 0\nnew 0 1 0\nlink 0 0 0 0 1\nload 0 0 0 0 1\nwho 0 1\nend\nphase\nlane 0\nwho 0 1\nend\ndone\n",
        "phase 1\nlane 0\nobj 0.1\nphase 2\nlane 0\nobj 0.2\nok\nref\nobj 0.2\nphase 3\nlane 0\nobj 0.2\ndone\n",
    ),
];

#[test]
fn hints_of_no_page_and_of_absent_pages_change_no_reply(rt: HostRuntime) -> Result<(), Fail> {
    for (lines, output) in REMEMBERED {
        shows_done(&rt, rt.alloc(), SMALL, lines, output)?;
    }
    Ok(())
}

/// How many turns the lane's phase has at most: each turn does one of its four operations at least.
const MOST_TURNS: u64 = 5;

/// Are there four answers for each of so many turns of the lanes, of a page that left or of none? There is one turn where the lane finds its
/// pages, and one more each time that a pager has the lane's page in hand. Page 1 has an object where page 0 had left as the first turn ended.
fn are_answers(answers: &[Answer], turns: u64) -> bool {
    let may_be = |answer: &Answer| matches!(answer, Answer::Declined | Answer::Evicted(0 | 1));
    (1..=MOST_TURNS).contains(&turns)
        && answers.len() as u64 == turns.saturating_mul(4)
        && answers.iter().all(may_be)
}

#[test]
fn each_hint_of_each_turn_has_an_answer_though_it_names_no_page(
    rt: HostRuntime,
) -> Result<(), Fail> {
    let text = trace(rt.alloc(), SMALL, REMEMBERED[0].0)?;
    let left = run_pieces(&rt, rt.alloc(), text.as_bytes(), (4096, 0), (4096, 0))?;
    assert!(rt;
        left.heap.is_some_and(|engine| are_answers(engine.answers(), engine.opened().len() as u64))
    );
    Ok(())
}

#[test]
fn each_hint_of_each_turn_has_an_answer_where_pagers_work_beside_the_lane(
    rt: HostRuntime,
) -> Result<(), Fail> {
    let text = trace(rt.alloc(), SMALL, REMEMBERED[0].0)?;
    let passed = run_past(&rt, rt.alloc(), &text, &OpenGate)?;
    let Some(counters) = passed.counters else {
        assert!(rt; false, "no heap is handed back");
        return Ok(());
    };
    // The first phase has one turn, without a notice.
    assert!(rt; are_answers(&passed.answers, counters.turns.saturating_sub(1)));
    Ok(())
}

/// How many answers are this one.
fn answered_so(answers: &[Answer], one: Answer) -> usize {
    answers.iter().filter(|answer| **answer == one).count()
}

#[test]
fn a_second_turn_of_the_lanes_in_a_phase_has_the_same_hints_again(
    rt: HostRuntime,
) -> Result<(), Fail> {
    let alloc = rt.alloc();
    let news = repeated(alloc, "new 0 0 0\n", 258)?;
    let lines = format!(in alloc; "phase\nturn 0 4294967295 3 2\nlane 0\n{news}end\ndone\n")?;
    let text = trace(alloc, SMALL, &lines)?;
    let passed = run_past(&rt, alloc, &text, &OpenGate)?;
    same(&rt, passed.status, Status::Done);
    assert!(rt; passed.answers.len() == 8);
    same(
        &rt,
        &passed.answers.as_slice()[..4],
        [Answer::Declined; 4].as_slice(),
    );
    // In the second turn page 0 has an object. One of four pagers evicts it, whichever comes first.
    let later = &passed.answers.as_slice()[4..];
    same(&rt, answered_so(later, Answer::Evicted(0)), 1);
    same(&rt, answered_so(later, Answer::Declined), 3);
    Ok(())
}

const TWO_LANES: Setup = Setup {
    lanes: 2,
    domains: 2,
    slots: 1,
    superpages: 1,
    nursery: 1,
    buffer: 4,
    frames: 4,
};

/// A phase in which lane 0 makes an object in each of the two domains.
fn an_object_in_each_domain(alloc: Global) -> Result<Phase, AllocError>
    ensures phase { (setup : Setup) → setup.lanes ≡ 2 → setup.domains ≡ 2 → setup.slots ≡ 1
        → IfOk result (λ phase. IsPhase setup phase) }
    ensures budgets { (setup : Setup) → IfOk result (λ phase. AllByRecursion (FitsFrames setup) phase.turns) }
    ensures few { IfOk result (λ phase. (lane : ℕ) → length (of_lane phase.lanes lane) ≤ 2) }
{
    let first = Op::New(Slot { domain: 0, slot: 0 }, 0);
    let second = Op::New(Slot { domain: 1, slot: 0 }, 0);
    Ok(Phase {
        turns: Vec::new(alloc),
        lanes: vec![in alloc; vec![in alloc; first, second]?, Vec::new(alloc)]?,
        gives: Vec::new(alloc),
    })
}

/// How a phase ended.
#[derive(Clone, Copy, PartialEq, Eq, Debug)]
enum PhaseEnd {
    Done,
    /// So many superpages were needed, after so many replies to lane 0.
    OutOfHeap { need: u64, replies: usize },
    NoMemory,
}

fn end_of(answer: Result<Replies, PhaseError>) -> PhaseEnd {
    match answer {
        Ok(_replies) => PhaseEnd::Done,
        Err(PhaseError::OutOfHeap { replies, need }) => {
            let replies = match replies.lanes.first() {
                Some(lane) => lane.len(),
                None => 0,
            };
            PhaseEnd::OutOfHeap { need, replies }
        }
        Err(PhaseError::NoMemory) => PhaseEnd::NoMemory,
    }
}

/// Where an allocation of the first phase is refused, the second one is to answer the same.
#[test]
fn a_phase_after_one_that_was_refused_answers_the_same_alone_and_changes_nothing(
    rt: HostRuntime,
) -> Result<(), Fail> {
    let mut engine = Engine::open(rt.alloc(), &TWO_LANES, 1)?;
    engine.give(1, 0);
    let phase = an_object_in_each_domain(rt.alloc())?;
    let first = end_of(engine.phase(&rt, rt.alloc(), &phase, &OpenGate));
    let before = (objects_in_cells(&engine.heap().space), words_left(&engine));
    let second = end_of(engine.phase(&rt, rt.alloc(), &phase, &OpenGate));
    let after = (objects_in_cells(&engine.heap().space), words_left(&engine));
    if first == PhaseEnd::NoMemory {
        same(&rt, second, PhaseEnd::NoMemory);
    } else {
        same(
            &rt,
            first,
            PhaseEnd::OutOfHeap {
                need: 2,
                replies: 2,
            },
        );
        same(
            &rt,
            second,
            PhaseEnd::OutOfHeap {
                need: 2,
                replies: 0,
            },
        );
    }
    same(&rt, after, before);
    assert!(rt; engine.answers().is_empty());
    Ok(())
}
