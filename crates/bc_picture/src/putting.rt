//! Items put into a sink, by way of bytes that wait.

ghost use Rattle.std.specs.Prelude.{◌≡◌, ℕ, ◌+◌, ◌≤◌, [], ◌∷◌, length, OnOk, OnErr};
ghost use Rattle.bc_picture.specs.SpaceListing.{item_bytes};
ghost use Rattle.bc_picture.specs.Streams.{stream_of, HasStreamRoom, Puts, Breaks};

use crate::waiting::Waiting;
use bc_io::{Sink, WriteFault, write_all};

/// Writes what waits.
pub(crate) fn flush<K: Sink>(sink: &mut K, waiting: &mut Waiting) -> Result<(), WriteFault>
    requires room { HasStreamRoom (stream_of (K.held sink.old) (K.room sink.old) (K.faults sink.old) waiting.old) ([]) }
    ensures puts { OnOk result (Puts (stream_of (K.held sink.old) (K.room sink.old) (K.faults sink.old) waiting.old)
        (stream_of (K.held sink.new) (K.room sink.new) (K.faults sink.new) waiting.new) ([])) }
    ensures breaks { OnErr result (Breaks (stream_of (K.held sink.old) (K.room sink.old) (K.faults sink.old) waiting.old)
        (stream_of (K.held sink.new) (K.room sink.new) (K.faults sink.new) waiting.new) ([])) }
    ensures empty { OnOk result (waiting.new ≡ []) }
{
    write_all(sink, waiting.bytes())?;
    waiting.clear();
    Ok(())
}

/// Writes what waits, where there is no room for another item.
fn make_room<K: Sink>(sink: &mut K, waiting: &mut Waiting) -> Result<(), WriteFault>
    requires room { HasStreamRoom (stream_of (K.held sink.old) (K.room sink.old) (K.faults sink.old) waiting.old) [] }
    ensures puts { OnOk result (Puts (stream_of (K.held sink.old) (K.room sink.old) (K.faults sink.old) waiting.old)
        (stream_of (K.held sink.new) (K.room sink.new) (K.faults sink.new) waiting.new) []) }
    ensures breaks { OnErr result (Breaks (stream_of (K.held sink.old) (K.room sink.old) (K.faults sink.old) waiting.old)
        (stream_of (K.held sink.new) (K.room sink.new) (K.faults sink.new) waiting.new) []) }
    ensures place { OnOk result (length waiting.new + 8 ≤ 4096) }
{
    if waiting.is_full() {
        return flush(sink, waiting);
    }
    Ok(())
}

/// Puts an item after what waits, which is written first where there is no room for the item.
pub(crate) fn put<K: Sink>(sink: &mut K, waiting: &mut Waiting, item: u64) -> Result<(), WriteFault>
    requires room { HasStreamRoom (stream_of (K.held sink.old) (K.room sink.old) (K.faults sink.old) waiting.old) (item_bytes (item ∷ [])) }
    ensures puts { OnOk result (Puts (stream_of (K.held sink.old) (K.room sink.old) (K.faults sink.old) waiting.old)
        (stream_of (K.held sink.new) (K.room sink.new) (K.faults sink.new) waiting.new) (item_bytes (item ∷ []))) }
    ensures breaks { OnErr result (Breaks (stream_of (K.held sink.old) (K.room sink.old) (K.faults sink.old) waiting.old)
        (stream_of (K.held sink.new) (K.room sink.new) (K.faults sink.new) waiting.new) (item_bytes (item ∷ []))) }
{
    make_room(sink, waiting)?;
    waiting.push(item);
    Ok(())
}

/// Puts items after what waits.
pub(crate) fn put_all<K: Sink>(
    sink: &mut K,
    waiting: &mut Waiting,
    items: &[u64],
) -> Result<(), WriteFault>
    requires room { HasStreamRoom (stream_of (K.held sink.old) (K.room sink.old) (K.faults sink.old) waiting.old) (item_bytes items.now) }
    ensures puts { OnOk result (Puts (stream_of (K.held sink.old) (K.room sink.old) (K.faults sink.old) waiting.old)
        (stream_of (K.held sink.new) (K.room sink.new) (K.faults sink.new) waiting.new) (item_bytes items.now)) }
    ensures breaks { OnErr result (Breaks (stream_of (K.held sink.old) (K.room sink.old) (K.faults sink.old) waiting.old)
        (stream_of (K.held sink.new) (K.room sink.new) (K.faults sink.new) waiting.new) (item_bytes items.now)) }
{
    for item in items {
        put(sink, waiting, *item)?;
    }
    Ok(())
}
