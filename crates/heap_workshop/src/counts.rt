//! What tests and benches count of a space: superpages in use, objects in cells, pages that are gone. And whether chunks have objects.

ghost use Rattle.std.specs.Prelude.{◌≡◌, ◌↔◌, ℕ, [], true};
ghost use Rattle.bc_whole_heap.specs.LaneChunks.{chunk_of};
ghost use Rattle.heap_workshop.specs.Workshops.{superpages_in_use as count_in_use, objects_in_cells as count_objects, pages_gone as count_gone};

use bc_bits::count;
use bc_nursery::Chunk;
use bc_superpages::Space;

/// How many superpages are in use.
#[tactic(auto, unfolding(bc_bits::specs::Counting::count_below))]
pub fn superpages_in_use(space: &Space) -> u32
    ensures count { result ≡ count_in_use space.now }
{
    let mut used = 0;
    for superpage in 0..space.superpages() {
        if space.header(superpage).used {
            used += 1;
        }
    }
    used
}

/// How many objects lie in cells.
pub fn objects_in_cells(space: &Space) -> u32
    ensures count { result ≡ count_objects space.now }
{
    space.facts();
    let mut objects = 0;
    for superpage in 0..space.superpages() {
        objects += count(&space.header(superpage).cells, 1024);
    }
    objects
}

/// How many pages are gone.
#[tactic(auto, unfolding(bc_bits::specs::Counting::count_below))]
pub fn pages_gone(space: &Space) -> u32
    ensures count { result ≡ count_gone space.now }
{
    let mut gone = 0;
    for page in 0..space.pages() {
        if space.state(page).is_gone() {
            gone += 1;
        }
    }
    gone
}

/// Has no chunk an object?
pub(crate) fn are_empty(chunks: &[Chunk]) -> bool
    ensures { result ≡ true ↔ ((l : ℕ) → (chunk_of chunks.now l).objects ≡ []) }
{
    for chunk in chunks {
        if chunk.next(None).is_some() {
            return false;
        }
    }
    true
}
