//! Laws of a turn. The functions do nothing.

ghost use Rattle.std.specs.Prelude.{List, ℕ};
ghost use Rattle.bc_model.specs.State.{State};
ghost use Rattle.bc_model.specs.declared.values.Holder.{Holder};
ghost use Rattle.bc_turn.specs.Beside.{IsLaidBack};
ghost use Rattle.bc_whole_heap.specs.Heaps.{HeapView};
ghost use Rattle.bc_whole_heap.specs.LaneStates.{StandsAs};
ghost use Rattle.bc_whole_heap.specs.Running.{IsRunning};

/// Law: where what the lanes took into a turn is laid back, lanes can run on, and the heap stands for the same.
pub fn law_back()
    ensures running { (h k : HeapView) → (holders : List Holder) → IsLaidBack h k → IsRunning h holders → IsRunning k holders }
    ensures stands { (h k : HeapView) → (holders : List Holder) → (serials : List ℕ) → (state : State) → IsLaidBack h k
        → StandsAs h holders serials state → StandsAs k holders serials state }
{}
