//! The memory that a table takes, and the seats that are dealt.

ghost use Rattle.std.specs.Prelude.{◌≡◌, ◌<◌, ◌≤◌, [], length, slice_index_or, IfOk, vec_capacity};
ghost use Rattle.bc_pins.specs.declared.key.Role.TheVariants.{Lane};
ghost use Rattle.bc_pins.specs.Tidy.{IsTidy};
ghost use Rattle.bc_pins.specs.Seating.{AreDealt, IsRoot};

use crate::key::{About, Role};
use crate::pins::Seat;
use crate::rule::{Deal, TurnRule};
use crate::views::{Lodged, View};
use atomic_table::Shared;
use bc_frames::Opens;
use bc_model::Holder;
use std::alloc::{AllocError, Global};

/// Room for the words and slots of a table, and copies of what its key is made of.
#[derive(Drop)]
pub(crate) struct Room {
    pub(crate) words: Vec<u64>,
    pub(crate) slots: Vec<Lodged>,
    pub(crate) holders: Vec<Holder>,
    pub(crate) roles: Vec<Role>,
}

/// Takes the memory of a table.
pub(crate) fn take_room(
    alloc: Global,
    words: usize,
    slots: usize,
    holders: &[Holder],
    roles: &[Role],
) -> Result<Room, AllocError>
    ensures words { IfOk result (λ r. (r.words.items ≡ []) × (words ≤ vec_capacity r.words)) }
    ensures slots { IfOk result (λ r. (r.slots.items ≡ []) × (slots ≤ vec_capacity r.slots)) }
    ensures copies { IfOk result (λ r. (r.holders.items ≡ holders.now) × (r.roles.items ≡ roles.now)) }
{
    Ok(Room {
        words: Vec::with_capacity(alloc, words)?,
        slots: Vec::with_capacity(alloc, slots)?,
        holders: Vec::from_slice(alloc, holders)?,
        roles: Vec::from_slice(alloc, roles)?,
    })
}

type Board = Shared<Lodged, View, About, TurnRule>;

type Worker = atomic_table::Seat<Lodged, View>;

/// A seat with the role that stands at this place.
fn seat_of(inner: Worker, roles: &[Role], number: usize) -> Seat
    requires number { number < length roles.now }
    requires tidy { IsTidy inner.me.0 }
    ensures inner { result.inner ≡ inner.entry }
    ensures role { result.role ≡ slice_index_or roles.now number (Lane 0) }
    ensures opens { result.opens ≡ 0 }
{
    Seat {
        inner,
        role: roles[number],
        opens: Opens::new(),
    }
}

/// Gives each role to a seat of its own, in their order. The last seat is the one from which the others are split.
pub(crate) fn deal_all(board: &Board, root: Worker, roles: &[Role], seats: &mut Vec<Seat>)
    requires table { (root.table_id ≡ board.now.table_id) × (0 < board.now.table_id.words) }
    requires root { IsRoot board.now.key roles.now root }
    requires some { 0 < length roles.now }
    requires none { seats.old.items ≡ [] }
    requires room { length roles.now ≤ vec_capacity seats.old }
    ensures dealt { AreDealt board.now.table_id board.now.key roles.now (length roles.now) seats.new.items }
{
    let mut root = root;
    let last = roles.len() - 1;
    for number in 0..last {
        let inner = board.split_seat::<Deal>(&mut root);
        seats.push_reserved(seat_of(inner, roles, number));
    }
    seats.push_reserved(seat_of(root, roles, last));
}
