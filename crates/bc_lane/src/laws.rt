//! What a turn of a lane begins with.

ghost use Rattle.std.specs.Prelude.{◌≡◌, ℕ, ◌+◌, ◌*◌, false, List, None, slice_index};
ghost use Rattle.bc_bits.specs.Counting.{count_below};
ghost use Rattle.bc_bookmarks.specs.Moves.{MovesPages};
ghost use Rattle.bc_bookmarks.specs.Summarised.{IsSummarised, gone_in};
ghost use Rattle.bc_lane.specs.declared.turns.LaneTurn.{LaneTurn};
ghost use Rattle.bc_lane.specs.Back.{all_back, heap_back};
ghost use Rattle.bc_lane.specs.Turns.{IsWhole, SlotsOf};
ghost use Rattle.bc_model.specs.State.{State};
ghost use Rattle.bc_model.specs.declared.values.Holder.{Holder};
ghost use Rattle.bc_mutator.specs.Objects.{MayOperate, own_chunk};
ghost use Rattle.bc_pins.specs.Key.{Key};
ghost use Rattle.bc_pins.specs.Steps.{fresh};
ghost use Rattle.bc_superpages.specs.Calls.{resident_count};
ghost use Rattle.bc_superpages.specs.Headers.{is_gone};
ghost use Rattle.bc_superpages.specs.Kept.{IsLayout};
ghost use Rattle.bc_superpages.specs.Layout.{Layout, superpages};
ghost use Rattle.bc_superpages.specs.LayoutAt.{state_at};
ghost use Rattle.bc_whole_heap.specs.Closed.{buffer_of};
ghost use Rattle.bc_whole_heap.specs.Heaps.{HeapView, end_of};
ghost use Rattle.bc_whole_heap.specs.LaneStates.{StandsAs};
ghost use Rattle.bc_whole_heap.specs.Running.{IsRunning};

/// Law: at the opening of a turn, with a seat that has done nothing, what a lane takes into it belongs to the heap that was opened, with
/// every page back.
pub fn law_opening()
    ensures { (k : Key) → (roles : List ℕ) → (turn : LaneTurn) → (h : HeapView) → k.opening ≡ h.space
        → MayOperate h turn.part.holders.items turn.part.lane
        → ((serials : List ℕ) × (state : State) × StandsAs h turn.part.holders.items serials state × (slice_index serials turn.part.lane ≡ turn.part.serial))
        → SlotsOf turn.part h.roots → own_chunk h turn.part.lane ≡ turn.part.chunk → buffer_of h.buffers turn.part.lane ≡ turn.part.buffer
        → IsWhole turn.part (fresh k roles) None (end_of h.space) (heap_back h) }
{}

/// Law: a space with every page back is a space, is summarised, and is the space with pages moved. So lanes can run on a heap with every
/// page back, each lane may operate on it where it might, and it stands for the same. Its account of frames is short of one for each page
/// that was Gone.
pub fn law_all_back()
    ensures layout { (s : Layout) → IsLayout s → IsLayout (all_back s) }
    ensures summarised { (s : Layout) → IsSummarised s → IsSummarised (all_back s) }
    ensures none { (s : Layout) → (page : ℕ) → is_gone (state_at (all_back s).states page) ≡ false }
    ensures moves { (s : Layout) → IsSummarised s → MovesPages s (all_back s) }
    ensures account { (s : Layout) → s.free + (s.nursery + resident_count s) ≡ s.frames
        → s.free + (s.nursery + resident_count (all_back s)) ≡ s.frames + count_below (gone_in s) (4 * superpages s) }
    ensures running { (h : HeapView) → (holders : List Holder) → IsRunning h holders → IsRunning (heap_back h) holders }
    ensures operates { (h : HeapView) → (holders : List Holder) → (lane : ℕ) → MayOperate h holders lane → MayOperate (heap_back h) holders lane }
    ensures stands { (h : HeapView) → (holders : List Holder) → (serials : List ℕ) → (state : State) → IsRunning h holders → StandsAs h holders serials state
        → StandsAs (heap_back h) holders serials state }
{}
