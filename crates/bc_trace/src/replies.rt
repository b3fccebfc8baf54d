//! The texts that a replay prints: the line of a reply, that of a need, and the text of a whole phase. Each is put after a text
//! that has room for it.
ghost use Rattle.std.specs.Prelude.{◌≡◌, ◌+◌, ◌*◌, ◌^◌, ◌<◌, ◌≤◌, ◌++◌, [], length, sum_by, vec_capacity, IfOk};
ghost use Rattle.bc_trace.specs.Replies.{reply_word, reply_text, lane_text, phase_text, out_of_heap_text};
ghost use Rattle.bc_trace.specs.TextRooms.{line_bytes, phase_bytes, need_bytes};

use crate::rooms::{put, put_number, put_numbered, put_small};
use bc_model::{Replies, Reply};
use std::alloc::{AllocError, Global};

/// The most bytes that the line of a lane or of a reply has.
const LINE: usize = 26;

/// The most bytes that the line of a phase has.
const PHASE_LINE: usize = 27;

/// The most bytes that the line of a need has.
const NEED_LINE: usize = 33;

/// Puts a reply at the end, without its line feed.
#[tactic(auto, unfolding(crate::specs::Replies::reply_word))]
fn put_word(out: &mut Vec<u8>, reply: &Reply)
    requires room { length out.old.items + 25 ≤ vec_capacity out.old }
    ensures text { out.new.items ≡ out.old.items ++ reply_word reply.now }
    ensures long { length out.new.items ≤ length out.old.items + 25 }
    ensures room { vec_capacity out.new ≡ vec_capacity out.old }
{
    match *reply {
        Reply::Obj(birth) => {
            put(out, b"obj ");
            put_small(out, birth.lane);
            put(out, b".");
            put_small(out, birth.serial);
        }
        Reply::Done => put(out, b"ok"),
        Reply::Nil => put(out, b"nil"),
        Reply::Num(number) => {
            put(out, b"num ");
            put_number(out, number);
        }
        Reply::Ref => put(out, b"ref"),
        Reply::Len(fields) => {
            put(out, b"len ");
            put_small(out, fields);
        }
        Reply::Yes => put(out, b"yes"),
        Reply::No => put(out, b"no"),
        Reply::NotObj => put(out, b"notobj"),
        Reply::Range => put(out, b"range"),
        Reply::Foreign => put(out, b"foreign"),
        Reply::Frozen => put(out, b"frozen"),
    }
}

/// Puts the line of a reply at the end.
fn put_reply(out: &mut Vec<u8>, reply: &Reply)
    requires room { length out.old.items + line_bytes ≤ vec_capacity out.old }
    ensures text { out.new.items ≡ out.old.items ++ reply_text reply.now }
    ensures long { length out.new.items ≤ length out.old.items + line_bytes }
    ensures room { vec_capacity out.new ≡ vec_capacity out.old }
{
    put_word(out, reply);
    put(out, b"\n");
}

/// Puts a lane's line and those of its replies at the end.
#[tactic(auto, unfolding(crate::specs::Replies::lane_text))]
fn put_lane(out: &mut Vec<u8>, lane: u64, replies: &[Reply])
    requires room { length out.old.items + line_bytes * (1 + length replies.now) ≤ vec_capacity out.old }
    ensures text { out.new.items ≡ out.old.items ++ lane_text lane replies.now }
    ensures long { length out.new.items ≤ length out.old.items + line_bytes * (1 + length replies.now) }
    ensures room { vec_capacity out.new ≡ vec_capacity out.old }
{
    put_numbered(out, b"lane ", lane);
    for reply in replies {
        put_reply(out, reply);
    }
}

/// The line of a reply, its line feed too.
pub fn reply_line(alloc: Global, reply: &Reply) -> Result<Vec<u8>, AllocError>
    ensures { IfOk result (λ line. line.items ≡ reply_text reply.now) }
{
    let mut line = Vec::with_capacity(alloc, LINE)?;
    put_reply(&mut line, reply);
    Ok(line)
}

/// Room for the text of a phase of so many lanes, with so many replies in all. It does nothing but take memory, which is touched
/// only where text is put.
pub fn phase_room(alloc: Global, lanes: usize, replies: usize) -> Result<Vec<u8>, AllocError>
    requires lanes { lanes < 2 ^ 32 }
    requires replies { replies < 2 ^ 32 }
    ensures empty { IfOk result (λ text. text.items ≡ []) }
    ensures room { IfOk result (λ text. phase_bytes lanes replies ≤ vec_capacity text) }
{
    Vec::with_capacity(alloc, PHASE_LINE + LINE * (lanes + replies))
}

/// Room for the line of a need. It does nothing but take memory.
pub fn need_room(alloc: Global) -> Result<Vec<u8>, AllocError>
    ensures empty { IfOk result (λ line. line.items ≡ []) }
    ensures room { IfOk result (λ line. need_bytes ≤ vec_capacity line) }
{
    Vec::with_capacity(alloc, NEED_LINE)
}

/// Puts the whole text of phase `number` at the end, which counts from 1: its line, and each lane's line and replies. It takes no
/// memory.
pub fn put_phase(out: &mut Vec<u8>, number: u32, replies: &Replies)
    requires room { length out.old.items + phase_bytes (length replies.now) (sum_by length replies.now) ≤ vec_capacity out.old }
    ensures text { out.new.items ≡ out.old.items ++ phase_text number replies.now }
    ensures long { length out.new.items ≤ length out.old.items + phase_bytes (length replies.now) (sum_by length replies.now) }
    ensures room { vec_capacity out.new ≡ vec_capacity out.old }
{
    put_numbered(out, b"phase ", number as u64);
    for (lane, its_replies) in replies.lanes.iter().enumerate() {
        put_lane(out, lane as u64, its_replies);
    }
}

/// The whole text of phase `number`, which counts from 1, in memory of its own, which is taken lane by lane.
#[tactic(auto, unfolding(crate::specs::Replies::phase_text))]
pub fn phase_text(alloc: Global, number: u32, replies: &Replies) -> Result<Vec<u8>, AllocError>
    ensures { IfOk result (λ text. text.items ≡ phase_text number replies.now) }
{
    let mut text = Vec::with_capacity(alloc, PHASE_LINE)?;
    put_numbered(&mut text, b"phase ", number as u64);
    for (lane, its_replies) in replies.lanes.iter().enumerate() {
        let its_replies = its_replies.as_slice();
        text.reserve(LINE * (1 + its_replies.len()))?;
        put_lane(&mut text, lane as u64, its_replies);
    }
    Ok(text)
}

/// Puts the last line of a run whose heap is too small at the end, with the number of superpages that it would need. It takes no memory.
#[tactic(auto, unfolding(crate::specs::Replies::out_of_heap_text))]
pub fn put_need(out: &mut Vec<u8>, need: u64)
    requires room { length out.old.items + need_bytes ≤ vec_capacity out.old }
    ensures text { out.new.items ≡ out.old.items ++ out_of_heap_text need }
    ensures long { length out.new.items ≤ length out.old.items + need_bytes }
    ensures room { vec_capacity out.new ≡ vec_capacity out.old }
{
    put_numbered(out, b"out of heap ", need);
}
