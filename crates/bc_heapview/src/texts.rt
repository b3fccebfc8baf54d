//! The texts of the answers. Room for each is taken before it is put, so that what puts it takes no memory.

ghost use Rattle.std.specs.Prelude.{◌≡◌, ◌+◌, ◌*◌, ◌^◌, ◌<◌, ◌≤◌, ◌++◌, [], length, vec_capacity, IfOk};
ghost use Rattle.std.specs.List.{flat_map};
ghost use Rattle.bc_heapview.specs.Texts.{birth_text, count_text, counts_text, root_text, step_text, path_text, steps_in};

use crate::steps::{Path, Step};
use crate::tally::Count;
use bc_model::Birth;
use bc_trace::{put, put_number, put_numbered, put_small};
use std::alloc::{AllocError, Global};

/// The most bytes that the line of a count has.
const COUNT_LINE: usize = 96;

/// The most bytes that the line of a need has.
const NEED_LINE: usize = 26;

/// The most bytes that the line of a root slot has.
const ROOT_LINE: usize = 49;

/// The most bytes that the line of a field has.
const STEP_LINE: usize = 39;

/// Room for the lines of so many counts and of the need. It does nothing but take memory.
pub(crate) fn counts_room(alloc: Global, counts: usize) -> Result<Vec<u8>, AllocError>
    requires { counts ≤ 448 }
    ensures empty { IfOk result (λ text. text.items ≡ []) }
    ensures room { IfOk result (λ text. 96 * counts + 26 ≤ vec_capacity text) }
{
    Vec::with_capacity(alloc, COUNT_LINE * counts + NEED_LINE)
}

/// Room for the lines of a way with so many fields. It does nothing but take memory.
pub(crate) fn path_room(alloc: Global, fields: usize) -> Result<Vec<u8>, AllocError>
    requires { fields < 2 ^ 32 }
    ensures empty { IfOk result (λ text. text.items ≡ []) }
    ensures room { IfOk result (λ text. 49 + 39 * fields ≤ vec_capacity text) }
{
    Vec::with_capacity(alloc, ROOT_LINE + STEP_LINE * fields)
}

/// Puts the lines of counts at the end, and that of the need.
pub(crate) fn put_counts(out: &mut Vec<u8>, counts: &[Count], need: u64)
    requires room { length out.old.items + 96 * length counts.now + 26 ≤ vec_capacity out.old }
    ensures text { out.new.items ≡ out.old.items ++ counts_text counts.now need }
    ensures long { length out.new.items ≤ length out.old.items + 96 * length counts.now + 26 }
{
    for count in counts {
        put_count_line(out, count);
    }
    put_numbered(out, b"need ", need);
}

/// Puts the line of a count at the end.
fn put_count_line(out: &mut Vec<u8>, count: &Count)
    requires room { length out.old.items + 96 ≤ vec_capacity out.old }
    ensures text { out.new.items ≡ out.old.items ++ count_text count.now }
    ensures long { length out.new.items ≤ length out.old.items + 96 }
    ensures room { vec_capacity out.new ≡ vec_capacity out.old }
{
    put(out, b"domain ");
    put_small(out, count.domain);
    put(out, b" class ");
    put_small(out, count.class);
    put(out, b" objects ");
    put_number(out, count.objects);
    put(out, b" superpages ");
    put_number(out, count.superpages);
    put(out, b"\n");
}

/// Puts the lines of a way at the end, or that there is none.
pub(crate) fn put_path(out: &mut Vec<u8>, path: &Option<Path>)
    requires room { length out.old.items + 49 + 39 * steps_in path.now ≤ vec_capacity out.old }
    ensures text { out.new.items ≡ out.old.items ++ path_text path.now }
    ensures long { length out.new.items ≤ length out.old.items + 49 + 39 * steps_in path.now }
{
    match path {
        Some(path) => {
            put_root(out, path);
            put_steps(out, &path.steps);
        }
        None => put(out, b"none\n"),
    }
}

/// Puts the line of a root slot at the end, and of the object that it refers to.
fn put_root(out: &mut Vec<u8>, path: &Path)
    requires room { length out.old.items + 49 ≤ vec_capacity out.old }
    ensures text { out.new.items ≡ out.old.items ++ root_text path.now }
    ensures long { length out.new.items ≤ length out.old.items + 49 }
    ensures room { vec_capacity out.new ≡ vec_capacity out.old }
{
    put(out, b"root ");
    put_small(out, path.root.domain);
    put(out, b" ");
    put_small(out, path.root.slot);
    put(out, b" ");
    put_birth(out, path.first);
}

/// Puts the lines of fields at the end.
fn put_steps(out: &mut Vec<u8>, steps: &[Step])
    requires room { length out.old.items + 39 * length steps.now ≤ vec_capacity out.old }
    ensures text { out.new.items ≡ out.old.items ++ flat_map step_text steps.now }
    ensures long { length out.new.items ≤ length out.old.items + 39 * length steps.now }
    ensures room { vec_capacity out.new ≡ vec_capacity out.old }
{
    for step in steps {
        put(out, b"field ");
        put_small(out, step.field);
        put(out, b" ");
        put_birth(out, step.birth);
    }
}

/// Puts a birth at the end, and a line feed.
fn put_birth(out: &mut Vec<u8>, birth: Birth)
    requires room { length out.old.items + 22 ≤ vec_capacity out.old }
    ensures text { out.new.items ≡ out.old.items ++ birth_text birth }
    ensures long { length out.new.items ≤ length out.old.items + 22 }
    ensures room { vec_capacity out.new ≡ vec_capacity out.old }
{
    put_small(out, birth.lane);
    put(out, b".");
    put_small(out, birth.serial);
    put(out, b"\n");
}
