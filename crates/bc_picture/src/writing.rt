//! A heap written as an image.

ghost use Rattle.std.specs.Prelude.{◌≡◌, ℕ, ◌*◌, ◌<◌, [], ◌∷◌, ◌++◌, length, map, OnOk, OnErr};
ghost use Rattle.std.specs.List.{flat_map};
ghost use Rattle.bc_bookmarks.specs.Moves.{MovesPages};
ghost use Rattle.bc_bookmarks.specs.Summarised.{IsSummarised};
ghost use Rattle.bc_image.specs.Images.{IsImageListing, holder_number, image_bytes, image_items, superpage_items};
ghost use Rattle.bc_image.specs.Items.{magic};
ghost use Rattle.bc_io.specs.Faults.{Rose};
ghost use Rattle.bc_io.specs.Told.{HasRoom, HeldGrows};
ghost use Rattle.bc_io.specs.Pieces.{RoomFalls, TakesFront};
ghost use Rattle.bc_model.specs.State.{numbers_below};
ghost use Rattle.bc_picture.specs.Readable.{IsCalm, CanBeRead};
ghost use Rattle.bc_picture.specs.SpaceListing.{heap_listing, item_bytes, listed_cells};
ghost use Rattle.bc_picture.specs.Streams.{stream_of, HasStreamRoom, Puts, Breaks};
ghost use Rattle.bc_superpages.specs.Layout.{superpages};

use crate::putting::{flush, put, put_all};
use crate::superpages::put_superpage;
use crate::waiting::Waiting;
use bc_io::{Sink, WriteFault};
use bc_model::{Holder, Setup};
use bc_superpages::{Roots, Space};

/// Writes the image of a heap: of what the engine knows, its root slots, and all objects of the space. Pages that are Gone are
/// read back one at a time. Only where pages are changes, and what is kept of that: free frames, bookmarks, counters and the count of reads.
/// At a fault a prefix of the image was written.
pub fn write<K: Sink>(
    sink: &mut K,
    version: u32,
    setup: &Setup,
    phases: u32,
    holders: &[Holder],
    births: &[u32],
    roots: &Roots,
    space: &mut Space,
) -> Result<(), WriteFault>
    requires image { IsImageListing (heap_listing version setup.now phases holders.now births.now roots.now space.old) }
    requires room { HasRoom (K.room sink.old) (length (image_bytes (heap_listing version setup.now phases holders.now births.now roots.now space.old))) }
    requires superpages { superpages space.old ≡ setup.now.superpages }
    requires frames { space.old.frames ≡ setup.now.frames }
    requires nursery { space.old.nursery ≡ setup.now.lanes * setup.now.nursery }
    requires calm { IsCalm space.old }
    requires summarised { IsSummarised space.old }
    ensures all { OnOk result (HeldGrows (K.held sink.old) (K.held sink.new) (image_bytes (heap_listing version setup.now phases holders.now births.now roots.now space.old))) }
    ensures filled { OnOk result (RoomFalls (K.room sink.old) (K.room sink.new) (length (image_bytes (heap_listing version setup.now phases holders.now births.now roots.now space.old)))) }
    ensures firm { OnOk result (K.faults sink.new ≡ K.faults sink.old) }
    ensures front { OnErr result (TakesFront (K.held sink.old) (K.held sink.new) (K.room sink.old) (K.room sink.new) (image_bytes (heap_listing version setup.now phases holders.now births.now roots.now space.old))) }
    ensures cause { OnErr result (Rose (K.faults sink.old) (K.faults sink.new)) }
    ensures moves { MovesPages space.old space.new }
{
    space.facts();
    let mut waiting = Waiting::new();
    put_numbers(sink, &mut waiting, version, setup, phases)?;
    put_holders(sink, &mut waiting, setup.lanes, holders)?;
    put_births(sink, &mut waiting, births)?;
    put_all(sink, &mut waiting, roots.words())?;
    put_superpages(sink, &mut waiting, space)?;
    flush(sink, &mut waiting)
}

/// Puts the ten numbers with which an image begins.
fn put_numbers<K: Sink>(
    sink: &mut K,
    waiting: &mut Waiting,
    version: u32,
    setup: &Setup,
    phases: u32,
) -> Result<(), WriteFault>
    requires room { HasStreamRoom (stream_of (K.held sink.old) (K.room sink.old) (K.faults sink.old) waiting.old) (item_bytes (magic ∷ version ∷ setup.now.lanes ∷ setup.now.domains ∷ setup.now.slots ∷ setup.now.superpages ∷ setup.now.nursery ∷ setup.now.buffer ∷ setup.now.frames ∷ phases ∷ [])) }
    ensures puts { OnOk result (Puts (stream_of (K.held sink.old) (K.room sink.old) (K.faults sink.old) waiting.old)
        (stream_of (K.held sink.new) (K.room sink.new) (K.faults sink.new) waiting.new) (item_bytes (magic ∷ version ∷ setup.now.lanes ∷ setup.now.domains ∷ setup.now.slots ∷ setup.now.superpages ∷ setup.now.nursery ∷ setup.now.buffer ∷ setup.now.frames ∷ phases ∷ []))) }
    ensures breaks { OnErr result (Breaks (stream_of (K.held sink.old) (K.room sink.old) (K.faults sink.old) waiting.old)
        (stream_of (K.held sink.new) (K.room sink.new) (K.faults sink.new) waiting.new) (item_bytes (magic ∷ version ∷ setup.now.lanes ∷ setup.now.domains ∷ setup.now.slots ∷ setup.now.superpages ∷ setup.now.nursery ∷ setup.now.buffer ∷ setup.now.frames ∷ phases ∷ []))) }
{
    let numbers = [
        0x6263_696d_6167_6531,
        u64::from(version),
        u64::from(setup.lanes),
        u64::from(setup.domains),
        u64::from(setup.slots),
        u64::from(setup.superpages),
        u64::from(setup.nursery),
        u64::from(setup.buffer),
        u64::from(setup.frames),
        u64::from(phases),
    ];
    put_all(sink, waiting, &numbers)
}

/// The number that stands for a holder, among so many lanes.
fn number_of(lanes: u32, holder: Holder) -> u64
    ensures { result ≡ holder_number lanes holder }
{
    match holder {
        Holder::Lane(lane) => u64::from(lane),
        Holder::Frozen => u64::from(lanes),
    }
}

/// Puts who holds each domain.
fn put_holders<K: Sink>(
    sink: &mut K,
    waiting: &mut Waiting,
    lanes: u32,
    holders: &[Holder],
) -> Result<(), WriteFault>
    requires room { HasStreamRoom (stream_of (K.held sink.old) (K.room sink.old) (K.faults sink.old) waiting.old) (item_bytes (map (holder_number lanes) holders.now)) }
    ensures puts { OnOk result (Puts (stream_of (K.held sink.old) (K.room sink.old) (K.faults sink.old) waiting.old)
        (stream_of (K.held sink.new) (K.room sink.new) (K.faults sink.new) waiting.new) (item_bytes (map (holder_number lanes) holders.now))) }
    ensures breaks { OnErr result (Breaks (stream_of (K.held sink.old) (K.room sink.old) (K.faults sink.old) waiting.old)
        (stream_of (K.held sink.new) (K.room sink.new) (K.faults sink.new) waiting.new) (item_bytes (map (holder_number lanes) holders.now))) }
{
    for holder in holders {
        put(sink, waiting, number_of(lanes, *holder))?;
    }
    Ok(())
}

/// Puts how many objects each lane has made.
fn put_births<K: Sink>(
    sink: &mut K,
    waiting: &mut Waiting,
    births: &[u32],
) -> Result<(), WriteFault>
    requires room { HasStreamRoom (stream_of (K.held sink.old) (K.room sink.old) (K.faults sink.old) waiting.old) (item_bytes births.now) }
    ensures puts { OnOk result (Puts (stream_of (K.held sink.old) (K.room sink.old) (K.faults sink.old) waiting.old)
        (stream_of (K.held sink.new) (K.room sink.new) (K.faults sink.new) waiting.new) (item_bytes births.now)) }
    ensures breaks { OnErr result (Breaks (stream_of (K.held sink.old) (K.room sink.old) (K.faults sink.old) waiting.old)
        (stream_of (K.held sink.new) (K.room sink.new) (K.faults sink.new) waiting.new) (item_bytes births.now)) }
{
    for birth in births {
        put(sink, waiting, u64::from(*birth))?;
    }
    Ok(())
}

/// Puts all superpages.
fn put_superpages<K: Sink>(
    sink: &mut K,
    waiting: &mut Waiting,
    space: &mut Space,
) -> Result<(), WriteFault>
    requires readable { CanBeRead space.old }
    requires room { HasStreamRoom (stream_of (K.held sink.old) (K.room sink.old) (K.faults sink.old) waiting.old) (item_bytes (flat_map (superpage_items (listed_cells space.old)) (numbers_below (superpages space.old)))) }
    ensures puts { OnOk result (Puts (stream_of (K.held sink.old) (K.room sink.old) (K.faults sink.old) waiting.old)
        (stream_of (K.held sink.new) (K.room sink.new) (K.faults sink.new) waiting.new) (item_bytes (flat_map (superpage_items (listed_cells space.old)) (numbers_below (superpages space.old))))) }
    ensures breaks { OnErr result (Breaks (stream_of (K.held sink.old) (K.room sink.old) (K.faults sink.old) waiting.old)
        (stream_of (K.held sink.new) (K.room sink.new) (K.faults sink.new) waiting.new) (item_bytes (flat_map (superpage_items (listed_cells space.old)) (numbers_below (superpages space.old))))) }
    ensures moves { MovesPages space.old space.new }
{
    space.facts();
    for superpage in 0..space.superpages() {
        put_superpage(sink, waiting, space, superpage)?;
    }
    Ok(())
}
