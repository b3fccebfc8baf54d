//! Cells that are promised for the objects of a listing.

ghost use Rattle.std.specs.Prelude.{◌≡◌, ℕ, length};
ghost use Rattle.bc_picture.specs.Building.{ArePlaceable, PromisesFirst};
ghost use Rattle.bc_superpages.specs.Calls.{new_space};
ghost use Rattle.bc_superpages.specs.Layout.{superpages};

use bc_classes::class_of;
use bc_image::Cell;
use bc_superpages::Space;

/// Promises each object of a list the cell at its address, in a new space.
pub(crate) fn promise_cells(space: &mut Space, cells: &[Cell])
    requires new { space.old ≡ new_space (superpages space.old) space.old.frames space.old.nursery }
    requires cells { ArePlaceable (superpages space.old) cells.now }
    ensures promises { PromisesFirst space.old cells.now (length cells.now) space.new }
{
    for cell in cells {
        space.facts();
        space.promise_at(cell.head.domain, class_of(cell.head.fields), cell.address);
    }
}
