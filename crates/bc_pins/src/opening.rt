//! Opening a table.

ghost use Rattle.std.specs.Prelude.{◌≡◌, ℕ, ◌+◌, ◌*◌, ◌<◌, ◌≤◌, false, [], length, map, vec_capacity, IfOk, IfErr};
ghost use Rattle.bc_pins.specs.Key.{table_words, is_lanes, role_number};
ghost use Rattle.bc_pins.specs.Totals.{times};
ghost use Rattle.bc_pins.specs.Opening.{IsOpenable, IsMarkable, key_for};
ghost use Rattle.bc_pins.specs.Opened.{IsKeyOf, Opened};

use crate::filling::{fill_words, word_count};
use crate::key::{About, PAGE_SLOTS, PAGES, Role, Turn, bit_words};
use crate::pins::{Pins, Seat};
use crate::rest::{Rest, lodge_all, restore};
use crate::room::{Room, deal_all, take_room};
use atomic_table::{Refused, Table};
use bc_classes::SUPERPAGE_PAGES;
use bc_model::Holder;
use bc_superpages::{Space, SpaceParts};
use std::alloc::{AllocError, Global};
use std::snapshot::Snapshot;

/// What a table is made from.
fn about_of(
    parts: &SpaceParts,
    superpages: usize,
    turn: Turn,
    opening: Snapshot<Space>,
    holders: &Vec<Holder>,
    roles: &Vec<Role>,
) -> About
    ensures key { result ≡ key_for superpages turn opening.value parts.now.pool parts.now.nursery.items holders.now.items roles.now.items }
{
    About {
        superpages,
        frames: parts.pool.frames() as usize,
        pool: Snapshot::of(&parts.pool),
        turn,
        opening,
        holders: Snapshot::of(holders),
        roles: Snapshot::of(roles),
        nursery: Snapshot::of(&parts.nursery),
    }
}

impl Pins {
    /// Opens a table over a space. The pages of its first superpages have their words and slots; after these superpages every page is Absent.
    /// Each role has its seat, in their order. `holders` names who holds each domain; in a mark turn no lane holds one, and the list is
    /// empty. It takes all its memory first, and where there is none it gives the space back.
    pub fn open(
        alloc: Global,
        space: Space,
        turn: Turn,
        holders: &[Holder],
        roles: &[Role],
    ) -> Result<(Pins, Vec<Seat>), (Space, AllocError)>
        requires openable { IsOpenable space }
        requires some { 0 < length roles.now }
        requires apart { (r : ℕ) → times r (map role_number roles.now) ≤ 1 }
        requires mark { is_lanes turn ≡ false → holders.now ≡ [] }
        requires markable { is_lanes turn ≡ false → IsMarkable space }
        ensures opened { IfOk result (λ r. Opened space turn holders.now roles.now r.0 r.1.items) }
        ensures refused { IfErr result (λ e. e.0 ≡ space) }
    {
        let opening = Snapshot::of(&space);
        let parts = space.open_up();
        let superpages = ((parts.end + (SUPERPAGE_PAGES - 1)) / SUPERPAGE_PAGES) as usize;
        let words = word_count(superpages, parts.pool.frames() as usize, turn);
        let Ok(room) = take_room(alloc, words, PAGE_SLOTS * superpages, holders, roles) else {
            return Err((Space::close_up(parts), AllocError));
        };
        let Ok(seats) = Vec::with_capacity(alloc, roles.len()) else {
            return Err((Space::close_up(parts), AllocError));
        };
        let about = about_of(
            &parts,
            superpages,
            turn,
            opening,
            &room.holders,
            &room.roles,
        );
        Pins::draw(alloc, parts, superpages, turn, about, room, seats)
    }

    /// Fills words and slots, and makes the table.
    fn draw(
        alloc: Global,
        mut parts: SpaceParts,
        superpages: usize,
        turn: Turn,
        about: About,
        room: Room,
        mut seats: Vec<Seat>,
    ) -> Result<(Pins, Vec<Seat>), (Space, AllocError)>
        requires drawn { IsKeyOf parts superpages turn room.holders.items room.roles.items about }
        requires words { (room.words.items ≡ []) × (table_words superpages (length parts.pool) turn ≤ vec_capacity room.words) }
        requires slots { (room.slots.items ≡ []) × (8 * superpages ≤ vec_capacity room.slots) }
        requires seats { (seats.items ≡ []) × (length room.roles.items ≤ vec_capacity seats) }
        ensures opened { IfOk result (λ r. Opened about.opening turn room.holders.items room.roles.items r.0 r.1.items) }
        ensures refused { IfErr result (λ e. e.0 ≡ about.opening) }
    {
        let Room {
            mut words,
            mut slots,
            holders: _,
            roles,
        } = room;
        let whole = Snapshot::of(&parts);
        let pages = PAGES * superpages;
        let frames = parts.pool.frames() as usize;
        fill_words(
            &mut words,
            parts.headers.as_slice(),
            superpages,
            &parts.pool,
            turn,
        );
        lodge_all(&mut parts, pages, &mut slots);
        match Table::new(alloc, words.as_slice(), slots, &about) {
            Ok((table, root)) => {
                deal_all(&table.shared, root, roles.as_slice(), &mut seats);
                let pins = Pins {
                    table,
                    rest: Rest {
                        parts,
                        whole,
                        pages,
                    },
                    superpages,
                    turn,
                    frame_words: bit_words(frames) as u32,
                };
                Ok((pins, seats))
            }
            Err(Refused { slots }) => {
                restore(&mut parts, &whole, pages, slots);
                seats.destroy_empty();
                Err((Space::close_up(parts), AllocError))
            }
        }
    }
}
