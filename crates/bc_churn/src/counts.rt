//! How many replies of each kind a run has had, and the output of `churn`, which prints them.
ghost use Rattle.std.specs.Prelude.{◌≡◌, ◌+◌, ◌<◌, ◌≤◌, ◌^◌, ◌++◌, [], ◌∷◌, List, ℕ, length, slice_index, sum, vec_capacity, IfOk};
ghost use Rattle.bc_model.specs.declared.operations.Reply.{Reply as ModelReply};
ghost use Rattle.bc_churn.specs.Counts.{churn_line, churn_text, count_line, count_lines, count_of_kind, counts, kind_names, kind_of_reply, phase_replies, run_counts};
ghost use Rattle.bc_churn.specs.TextRooms.{churn_bytes};

use bc_model::{Replies, Reply};
use bc_trace::{put, put_number, put_numbered, put_small};
use std::alloc::{AllocError, Global};
use std::marker::Model;

/// The most bytes that the output of `churn` has.
const CHURN: usize = 325;

/// How many replies of each of the twelve kinds a run has had so far. The last is `frozen`, which isn't printed: the churn has none.
#[derive(Clone, Copy, Debug)]
pub struct Counts {
    kinds: [u64; 12],
}

impl Model for Counts {
    ghost use Rattle.std.specs.Prelude.{List, ℕ};

    ghost Value = { List ℕ };

    ghost view = { λ c. c.kinds };

    ghost inverse = { λ cs. record { kinds = cs } };
}

/// The place of the reply's kind among the twelve.
#[tactic(auto, unfolding(crate::specs::Counts::kind_of_reply))]
fn kind_of(reply: &Reply) -> usize
    ensures kind { result ≡ kind_of_reply reply.now }
    ensures below { result < 12 }
{
    match *reply {
        Reply::Obj(_) => 0,
        Reply::Done => 1,
        Reply::Nil => 2,
        Reply::Num(_) => 3,
        Reply::Ref => 4,
        Reply::Len(_) => 5,
        Reply::Yes => 6,
        Reply::No => 7,
        Reply::NotObj => 8,
        Reply::Range => 9,
        Reply::Foreign => 10,
        Reply::Frozen => 11,
    }
}

impl Counts {
    /// Those of no replies.
    #[tactic(auto, unfolding(crate::specs::Counts::counts))]
    pub fn new() -> Counts
        ensures { result ≡ counts [] }
    {
        Counts { kinds: [0; 12] }
    }

    /// Counts the replies of a lane too.
    fn add_lane(&mut self, replies: &[Reply])
        requires { (k : ℕ) → slice_index self.old k + length replies.now < 2 ^ 64 }
        ensures each { (k : ℕ) → slice_index self.new k ≡ slice_index self.old k + count_of_kind k replies.now }
        ensures kinds { length self.new ≡ length self.old }
    {
        for reply in replies {
            self.kinds[kind_of(reply)] += 1;
        }
    }

    /// Counts the replies of one more phase too. All that are counted fit a `u64`.
    pub fn add(&mut self, replies: &Replies)
        requires { sum self.old + length (phase_replies replies.now) < 2 ^ 64 }
        ensures each { (k : ℕ) → slice_index self.new k ≡ slice_index self.old k + count_of_kind k (phase_replies replies.now) }
        ensures phase { (before : List (List (List ModelReply))) → self.old ≡ run_counts before → self.new ≡ run_counts (before ++ replies.now ∷ []) }
    {
        for lane in &replies.lanes {
            self.add_lane(lane);
        }
    }
}

/// Puts a line at the end: the name of a kind, and how many there were.
#[tactic(auto, unfolding(crate::specs::Counts::count_line))]
fn put_count(out: &mut Vec<u8>, name: &[u8], count: u64)
    requires room { length out.old.items + length name.now + 22 ≤ vec_capacity out.old }
    ensures text { out.new.items ≡ out.old.items ++ count_line name.now count }
    ensures long { length out.new.items ≤ length out.old.items + length name.now + 22 }
    ensures room { vec_capacity out.new ≡ vec_capacity out.old }
{
    put(out, name);
    put_numbered(out, b" ", count);
}

/// Puts the line of the workload at the end.
#[tactic(auto, unfolding(crate::specs::Counts::churn_line))]
fn put_workload(out: &mut Vec<u8>, start: u64, ops: u32)
    requires room { length out.old.items + 38 ≤ vec_capacity out.old }
    ensures text { out.new.items ≡ out.old.items ++ churn_line start ops }
    ensures long { length out.new.items ≤ length out.old.items + 38 }
    ensures room { vec_capacity out.new ≡ vec_capacity out.old }
{
    put(out, b"churn ");
    put_number(out, start);
    put(out, b" ");
    put_small(out, ops);
    put(out, b"\n");
}

/// Puts the lines of the eleven counts that are printed at the end.
fn put_counts(out: &mut Vec<u8>, counts: &Counts)
    requires room { length out.old.items + 282 ≤ vec_capacity out.old }
    ensures text { out.new.items ≡ out.old.items ++ count_lines kind_names counts.now 0 }
    ensures long { length out.new.items ≤ length out.old.items + 282 }
    ensures room { vec_capacity out.new ≡ vec_capacity out.old }
{
    let kinds = counts.kinds;
    put_count(out, b"obj", kinds[0]);
    put_count(out, b"ok", kinds[1]);
    put_count(out, b"nil", kinds[2]);
    put_count(out, b"num", kinds[3]);
    put_count(out, b"ref", kinds[4]);
    put_count(out, b"len", kinds[5]);
    put_count(out, b"yes", kinds[6]);
    put_count(out, b"no", kinds[7]);
    put_count(out, b"notobj", kinds[8]);
    put_count(out, b"range", kinds[9]);
    put_count(out, b"foreign", kinds[10]);
}

/// Room for the output of `churn`. It does nothing but take memory.
pub fn churn_room(alloc: Global) -> Result<Vec<u8>, AllocError>
    ensures empty { IfOk result (λ text. text.items ≡ []) }
    ensures room { IfOk result (λ text. churn_bytes ≤ vec_capacity text) }
{
    Vec::with_capacity(alloc, CHURN)
}

/// Puts the whole output of `bc churn start ops` at the end, whose replies have these counts. It takes no memory.
#[tactic(auto, unfolding(crate::specs::Counts::churn_text, bc_trace::specs::Replies::done_text))]
pub fn put_churn(out: &mut Vec<u8>, start: u64, ops: u32, counts: &Counts)
    requires room { length out.old.items + churn_bytes ≤ vec_capacity out.old }
    ensures text { out.new.items ≡ out.old.items ++ churn_text start ops counts.now }
    ensures long { length out.new.items ≤ length out.old.items + churn_bytes }
    ensures room { vec_capacity out.new ≡ vec_capacity out.old }
{
    put_workload(out, start, ops);
    put_counts(out, counts);
    put(out, b"done\n");
}
