//! What a space says of its superpages, and pages that come back to be read.

ghost use Rattle.std.specs.Prelude.{◌≡◌, ◌≢◌, ℕ, ◌*◌, ◌<◌, true, count_by};
ghost use Rattle.std.specs.List.{range_with_len};
ghost use Rattle.bc_bits.specs.Bits.{has};
ghost use Rattle.bc_bits.specs.Counting.{count_below};
ghost use Rattle.bc_bookmarks.specs.Moves.{MovesPages};
ghost use Rattle.bc_classes.specs.Classes.{cap};
ghost use Rattle.bc_classes.specs.ClassNumbers.{IsClass};
ghost use Rattle.bc_picture.specs.Readable.{CanBeRead};
ghost use Rattle.bc_superpages.specs.declared.headers.PageState.TheVariants.{Absent};
ghost use Rattle.bc_superpages.specs.Headers.{is_resident};
ghost use Rattle.bc_superpages.specs.Layout.{superpages};
ghost use Rattle.bc_superpages.specs.LayoutAt.{state_at};

use bc_bits::contains;
use bc_bookmarks::reload_from;
use bc_classes::cap;
use bc_superpages::{Header, PageState, Space};

/// How many cells of a superpage are allocated.
pub(crate) fn count_cells(header: &Header) -> u32
    requires { IsClass header.now.class }
    ensures { result ≡ count_below (has header.now.cells) (cap header.now.class) }
{
    let mut count = 0;
    for cell in 0..cap(header.class) {
        if contains(&header.cells, cell) {
            count += 1;
        }
    }
    count
}

/// Brings a page back, if it is Gone. Pages are read in the order of their numbers, so the first ones, which were read already, leave for it.
pub(crate) fn open(space: &mut Space, page: u32)
    requires readable { CanBeRead space.old }
    requires page { page < 4 * superpages space.old }
    requires there { state_at space.old.states page ≢ Absent }
    ensures moves { MovesPages space.old space.new }
    ensures here { is_resident (state_at space.new.states page) ≡ true }
{
    space.facts();
    if space.state(page) == PageState::Gone {
        let Ok(()) = reload_from(space, page, 0) else {
            unreachable!();
        };
    }
}
