//! Laws of states, steps and runs. Each is the contract of a function that does nothing.

ghost use Rattle.std.specs.List.{AllByRecursion};
ghost use Rattle.std.specs.Prelude.{◌≡◌, ℕ, ◌+◌, ◌*◌, ◌<◌, ◌≤◌, ◌↔◌, ◌≢◌, ◌==◌, List, [], false, length, map, slice_index_or, take, true};
ghost use Rattle.bc_classes.specs.Classes.{cap};
ghost use Rattle.bc_classes.specs.ClassNumbers.{IsClass};
ghost use Rattle.bc_model.specs.Changes.{WritesField, WritesSlot};
ghost use Rattle.bc_model.specs.Consistent.{IsState};
ghost use Rattle.bc_model.specs.StateSizes.{HasSizes, sizes_of};
ghost use Rattle.bc_model.specs.Grows.{Grows};
ghost use Rattle.bc_model.specs.Interleaving.{after_steps, Commute, FitSteps, IsAsInOrder, IsInterleaving, LaneOp};
ghost use Rattle.bc_model.specs.Lists.{PhaseLists, TraceLists};
ghost use Rattle.bc_model.specs.Making.{IsNew};
ghost use Rattle.bc_model.specs.Need.{IsNeed, superpages_for};
ghost use Rattle.bc_model.specs.Reached.{Reached};
ghost use Rattle.bc_model.specs.Paths.{HasPath};
ghost use Rattle.bc_model.specs.Refused.{IsChange, IsRefused, LacksDomain, LacksField, LacksObject, LacksRight, Tells, TellsKind};
ghost use Rattle.bc_model.specs.Resembles.{Resembles};
ghost use Rattle.bc_model.specs.Run.{after_cut, after_phases, before, cut_lanes, replies_of, replies_of_cut, replies_of_phases, replies_to_lanes};
ghost use Rattle.bc_model.specs.State.{changed, field_of, frozen, given, holder_of, reads, writes, IsBorn, made_by, next_birth, NoneFrozen, Object, object_of, slot_of, State};
ghost use Rattle.bc_model.specs.Step.{loaded, step};
ghost use Rattle.bc_model.specs.Refusals.{IsRefusal};
ghost use Rattle.bc_model.specs.WellFormed.{IsOp, IsPhase, IsSlot, IsTrace};
ghost use Rattle.bc_model.specs.declared.operations.Op.{Op};
ghost use Rattle.bc_model.specs.declared.operations.Reply.{Reply};
ghost use Rattle.bc_model.specs.declared.traces.Change.{Change};
ghost use Rattle.bc_model.specs.declared.traces.Give.{Give};
ghost use Rattle.bc_model.specs.declared.traces.Setup.{Setup};
ghost use Rattle.bc_model.specs.declared.values.Birth.{Birth};
ghost use Rattle.bc_model.specs.declared.values.Slot.{Slot};
ghost use Rattle.bc_model.specs.declared.values.Value.{Value};

use crate::operations::{Op, Reply};
use crate::values::Value;

/// Law: steps of two lanes commute, with the same replies.
pub fn law_steps_commute()
    ensures { (s : State) → (j k : ℕ) → (o p : Op) → IsState s → j < length s.made → k < length s.made → j ≢ k
        → IsOp (sizes_of s) o → IsOp (sizes_of s) p → Commute s j o k p }
{}

/// Law: in whatever order the lanes' operations are done, those of each lane in its own order, each lane
/// gets the replies, and the state is the one, of lane after lane.
pub fn law_any_order()
    ensures { (s : State) → (lanes : List (List Op)) → (steps : List LaneOp) → IsState s
        → IsInterleaving s lanes steps → IsAsInOrder s lanes steps }
{}

/// Law: no object is ever forgotten, none changes its domain or its number of fields, and gives and
/// freezes change none.
pub fn law_objects_stay()
    ensures steps { (s : State) → (steps : List LaneOp) → IsState s → FitSteps s steps → Grows s.made (after_steps s steps).made }
    ensures changes { (s : State) → (c : Change) → (changed s c).made ≡ s.made }
{}

/// Law: a lane changes no slot and no object of a domain that it may not write, be it another lane's or frozen.
pub fn law_others_untouched()
    ensures slots { (s : State) → (j : ℕ) → (o : Op) → (p : Slot) → IsState s → j < length s.made → IsOp (sizes_of s) o
        → IsSlot (sizes_of s) p → writes s j p.domain ≡ false → slot_of (step s j o).0 p ≡ slot_of s p }
    ensures objects { (s : State) → (j : ℕ) → (o : Op) → (b : Birth) → IsState s → j < length s.made → IsOp (sizes_of s) o
        → IsBorn s.made b → writes s j (object_of s.made b).domain ≡ false → object_of (step s j o).0.made b ≡ object_of s.made b }
{}

/// Law: who a slot is after a `new` into it is the new object, which has the lane's next serial.
pub fn law_who_after_new()
    ensures { (s : State) → (j : ℕ) → (p : Slot) → (n : ℕ) → IsState s → j < length s.made → IsSlot (sizes_of s) p
        → writes s j p.domain ≡ true
        → (step (step s j (Op.New p n)).0 j (Op.Who p)).1 ≡ Reply.Obj (next_birth s.made j) }
{}

/// Law: the length of a slot's object after a `new` into it is the number of fields that it asked for.
pub fn law_len_after_new()
    ensures { (s : State) → (j : ℕ) → (p : Slot) → (n : ℕ) → IsState s → j < length s.made → IsSlot (sizes_of s) p
        → writes s j p.domain ≡ true → (step (step s j (Op.New p n)).0 j (Op.Len p)).1 ≡ Reply.Len n }
{}

/// Law: the reply is `Foreign` exactly where the lane may not read the domain of a slot that the operation names, or, having a
/// right to all slots, of an object that the operation looks at.
pub fn law_foreign()
    ensures { (s : State) → (j : ℕ) → (o : Op) → ((step s j o).1 ≡ Reply.Foreign) ↔ LacksDomain s j o }
{}

/// Law: the reply is `Frozen` exactly where the lane may read the slots that the operation names but not write the one that it
/// writes, or, having a right to all slots, may read the object but not write it where the operation writes it.
pub fn law_frozen()
    ensures { (s : State) → (j : ℕ) → (o : Op) → ((step s j o).1 ≡ Reply.Frozen) ↔ LacksRight s j o }
{}

/// Law: the reply is `NotObj` exactly where the lane has a right to all slots of the operation, and the slot that has to refer
/// to an object is nil or a number.
pub fn law_not_object()
    ensures { (s : State) → (j : ℕ) → (o : Op) → ((step s j o).1 ≡ Reply.NotObj) ↔ LacksObject s j o }
{}

/// Law: the reply is `Range` exactly where the lane has a right to all slots of the operation and to the object, and the object
/// has no field of the number that the operation names.
pub fn law_range()
    ensures { (s : State) → (j : ℕ) → (o : Op) → ((step s j o).1 ≡ Reply.Range) ↔ LacksField s j o }
{}

/// Law: an operation that isn't refused (`IsRefused`) is answered `Done` where it changes a field or a slot, and else
/// has its own answer: the next birth of the lane, what the slot holds, how many fields its object has, what was loaded.
pub fn law_done()
    ensures change { (s : State) → (j : ℕ) → (o : Op) → IsChange o → ¬ IsRefused s j o → (step s j o).1 ≡ Reply.Done }
    ensures new { (s : State) → (j : ℕ) → (p : Slot) → (n : ℕ) → ¬ IsRefused s j (Op.New p n)
        → (step s j (Op.New p n)).1 ≡ Reply.Obj (next_birth s.made j) }
    ensures who { (s : State) → (j : ℕ) → (p : Slot) → ¬ IsRefused s j (Op.Who p)
        → Tells (slot_of s p) (step s j (Op.Who p)).1 }
    ensures len { (s : State) → (j : ℕ) → (p : Slot) → (b : Birth) → slot_of s p ≡ Value.Obj b → ¬ IsRefused s j (Op.Len p)
        → (step s j (Op.Len p)).1 ≡ Reply.Len (length (object_of s.made b).fields) }
    ensures load { (s : State) → (j : ℕ) → (p q : Slot) → (i : ℕ) → (b : Birth) → slot_of s p ≡ Value.Obj b
        → ¬ IsRefused s j (Op.Load p i q) → TellsKind (field_of s b i) (step s j (Op.Load p i q)).1 }
{}

/// Law: two slots of domains that the lane may read are answered `Yes` exactly where they hold the same value, and `No`
/// exactly where they don't.
pub fn law_same()
    ensures yes { (s : State) → (j : ℕ) → (p q : Slot) → ((step s j (Op.Same p q)).1 ≡ Reply.Yes)
        ↔ (reads s j p.domain ≡ true) × (reads s j q.domain ≡ true) × (slot_of s p ≡ slot_of s q) }
    ensures no { (s : State) → (j : ℕ) → (p q : Slot) → ((step s j (Op.Same p q)).1 ≡ Reply.No)
        ↔ (reads s j p.domain ≡ true) × (reads s j q.domain ≡ true) × (slot_of s p ≢ slot_of s q) }
{}

/// Law: an operation that is refused changes nothing, whatever the state.
pub fn law_refused_changes_nothing()
    ensures { (s : State) → (j : ℕ) → (o : Op) → IsRefusal (step s j o).1 → (step s j o).0 ≡ s }
{}

/// Law: an operation that isn't refused leaves in the slot that it writes the new object, what the field held, what the
/// other slot held, or nil; every other slot holds what it held.
pub fn law_slots_written()
    ensures new { (s : State) → (j : ℕ) → (p : Slot) → (n : ℕ) → IsState s → IsSlot (sizes_of s) p
        → ¬ IsRefused s j (Op.New p n) → slot_of (step s j (Op.New p n)).0 p ≡ Value.Obj (next_birth s.made j) }
    ensures load { (s : State) → (j : ℕ) → (p q : Slot) → (i : ℕ) → (b : Birth) → IsState s → IsSlot (sizes_of s) q
        → slot_of s p ≡ Value.Obj b → ¬ IsRefused s j (Op.Load p i q)
        → slot_of (step s j (Op.Load p i q)).0 q ≡ field_of s b i }
    ensures copy { (s : State) → (j : ℕ) → (p q : Slot) → IsState s → IsSlot (sizes_of s) q
        → ¬ IsRefused s j (Op.Copy p q) → slot_of (step s j (Op.Copy p q)).0 q ≡ slot_of s p }
    ensures clear { (s : State) → (j : ℕ) → (p : Slot) → IsState s → IsSlot (sizes_of s) p
        → ¬ IsRefused s j (Op.Clear p) → slot_of (step s j (Op.Clear p)).0 p ≡ Value.Nil }
    ensures others { (s : State) → (j : ℕ) → (o : Op) → (r : Slot) → IsOp (sizes_of s) o → IsSlot (sizes_of s) r
        → ¬ WritesSlot o r → slot_of (step s j o).0 r ≡ slot_of s r }
{}

/// Law: a `set`, `cut` or `link` that isn't refused leaves in the field of the slot's object the number, nil, or what the
/// second slot holds; every other field of every object that was born holds what it held.
pub fn law_fields_written()
    ensures set { (s : State) → (j : ℕ) → (p : Slot) → (i v : ℕ) → (b : Birth) → IsState s → slot_of s p ≡ Value.Obj b
        → ¬ IsRefused s j (Op.Set p i v) → field_of (step s j (Op.Set p i v)).0 b i ≡ Value.Num v }
    ensures cut { (s : State) → (j : ℕ) → (p : Slot) → (i : ℕ) → (b : Birth) → IsState s → slot_of s p ≡ Value.Obj b
        → ¬ IsRefused s j (Op.Cut p i) → field_of (step s j (Op.Cut p i)).0 b i ≡ Value.Nil }
    ensures link { (s : State) → (j : ℕ) → (p q : Slot) → (i : ℕ) → (b : Birth) → IsState s → slot_of s p ≡ Value.Obj b
        → ¬ IsRefused s j (Op.Link p i q) → field_of (step s j (Op.Link p i q)).0 b i ≡ slot_of s q }
    ensures others { (s : State) → (j : ℕ) → (o : Op) → (b : Birth) → (k : ℕ) → IsState s → j < length s.made
        → IsBorn s.made b → ¬ WritesField s o b k → field_of (step s j o).0 b k ≡ field_of s b k }
{}

/// Law: a `new` that isn't refused makes one object more of the lane, of the slot's domain, with so many fields, all nil.
/// No other operation makes one, and no lane makes one for another. All that was born stays, with its domain and its
/// number of fields.
pub fn law_objects_made()
    ensures one { (s : State) → (j : ℕ) → (p : Slot) → (n : ℕ) → j < length s.made → ¬ IsRefused s j (Op.New p n)
        → length (made_by (step s j (Op.New p n)).0.made j) ≡ length (made_by s.made j) + 1 }
    ensures domain { (s : State) → (j : ℕ) → (p : Slot) → (n : ℕ) → j < length s.made → ¬ IsRefused s j (Op.New p n)
        → (object_of (step s j (Op.New p n)).0.made (next_birth s.made j)).domain ≡ p.domain }
    ensures fields { (s : State) → (j : ℕ) → (p : Slot) → (n : ℕ) → j < length s.made → ¬ IsRefused s j (Op.New p n)
        → length (object_of (step s j (Op.New p n)).0.made (next_birth s.made j)).fields ≡ n }
    ensures nil { (s : State) → (j : ℕ) → (p : Slot) → (n i : ℕ) → j < length s.made → ¬ IsRefused s j (Op.New p n)
        → field_of (step s j (Op.New p n)).0 (next_birth s.made j) i ≡ Value.Nil }
    ensures none { (s : State) → (j : ℕ) → (o : Op) → (k : ℕ) → IsState s → ¬ IsNew o
        → length (made_by (step s j o).0.made k) ≡ length (made_by s.made k) }
    ensures lanes { (s : State) → (j k : ℕ) → (o : Op) → k ≢ j → IsState s → IsOp (sizes_of s) o
        → length (made_by (step s j o).0.made k) ≡ length (made_by s.made k) }
    ensures kept { (s : State) → (j : ℕ) → (o : Op) → IsState s → j < length s.made → IsOp (sizes_of s) o
        → Grows s.made (step s j o).0.made }
{}

/// Law: no operation changes whose a domain is, or how many slots there are, in any state.
pub fn law_rest_stays()
    ensures holders { (s : State) → (j : ℕ) → (o : Op) → (step s j o).0.holders ≡ s.holders }
    ensures width { (s : State) → (j : ℕ) → (o : Op) → (step s j o).0.width ≡ s.width }
    ensures slots { (s : State) → (j : ℕ) → (o : Op) → length (step s j o).0.slots ≡ length s.slots }
{}

/// Law: what is loaded from a field after a `set` of it is the number.
pub fn law_load_after_set()
    ensures { (s : State) → (j : ℕ) → (p q : Slot) → (i v : ℕ) → IsState s → (step s j (Op.Set p i v)).1 ≡ Reply.Done
        → writes s j q.domain ≡ true
        → (step (step s j (Op.Set p i v)).0 j (Op.Load p i q)).1 ≡ Reply.Num v }
{}

/// Law: what is loaded from a field after a `cut` of it is nil.
pub fn law_load_after_cut()
    ensures { (s : State) → (j : ℕ) → (p q : Slot) → (i : ℕ) → IsState s → (step s j (Op.Cut p i)).1 ≡ Reply.Done
        → writes s j q.domain ≡ true
        → (step (step s j (Op.Cut p i)).0 j (Op.Load p i q)).1 ≡ Reply.Nil }
{}

/// Law: after a `link` that was done, what is loaded from the field is what the second slot held.
pub fn law_load_after_link()
    ensures reply { (s : State) → (j : ℕ) → (p q r : Slot) → (i : ℕ) → IsState s → (step s j (Op.Link p i q)).1 ≡ Reply.Done
        → writes s j r.domain ≡ true
        → (step (step s j (Op.Link p i q)).0 j (Op.Load p i r)).1 ≡ loaded (slot_of s q) }
    ensures slot { (s : State) → (j : ℕ) → (p q r : Slot) → (i : ℕ) → IsState s → IsSlot (sizes_of s) r
        → (step s j (Op.Link p i q)).1 ≡ Reply.Done → writes s j r.domain ≡ true
        → slot_of (step (step s j (Op.Link p i q)).0 j (Op.Load p i r)).0 r ≡ slot_of s q }
{}

/// Law: who a slot is after a `clear` of it is nil.
pub fn law_who_after_clear()
    ensures { (s : State) → (j : ℕ) → (p : Slot) → IsState s → IsSlot (sizes_of s) p → writes s j p.domain ≡ true
        → (step (step s j (Op.Clear p)).0 j (Op.Who p)).1 ≡ Reply.Nil }
{}

/// Law: after a `copy` both slots hold the same.
pub fn law_same_after_copy()
    ensures { (s : State) → (j : ℕ) → (p q : Slot) → IsState s → IsSlot (sizes_of s) q → reads s j p.domain ≡ true
        → writes s j q.domain ≡ true
        → (step (step s j (Op.Copy p q)).0 j (Op.Same p q)).1 ≡ Reply.Yes }
{}

/// Law: after a give the domain is read and written by the lane and no other, every other domain is whose it was, and
/// nothing else has changed.
pub fn law_holder_after_give()
    ensures reads { (s : State) → (g : Give) → (j : ℕ) → g.domain < length s.holders
        → reads (given s g) j g.domain ≡ (g.lane == j) }
    ensures writes { (s : State) → (g : Give) → (j : ℕ) → g.domain < length s.holders
        → writes (given s g) j g.domain ≡ (g.lane == j) }
    ensures others { (s : State) → (g : Give) → (d : ℕ) → d ≢ g.domain
        → holder_of (given s g).holders d ≡ holder_of s.holders d }
    ensures rest { (s : State) → (g : Give) → given s g ≡ record s { holders = (given s g).holders } }
{}

/// Law: after a freeze every lane may read the domain and none may write it, every other domain is whose it was, and
/// nothing else has changed.
pub fn law_holder_after_freeze()
    ensures reads { (s : State) → (d j : ℕ) → d < length s.holders → reads (frozen s d) j d ≡ true }
    ensures writes { (s : State) → (d j : ℕ) → d < length s.holders → writes (frozen s d) j d ≡ false }
    ensures others { (s : State) → (d e : ℕ) → e ≢ d → holder_of (frozen s d).holders e ≡ holder_of s.holders e }
    ensures rest { (s : State) → (d : ℕ) → frozen s d ≡ record s { holders = (frozen s d).holders } }
{}

/// Law: what is true of every state is true in each part of a run of a well-formed trace, and the sizes are
/// those of its setup.
pub fn law_states_of_a_run()
    ensures before { (t : TraceLists) → (k : ℕ) → IsTrace t → IsState (before t k) × HasSizes t.setup (before t k) }
    ensures cut { (t : TraceLists) → (k : ℕ) → (cut : List ℕ) → IsTrace t
        → IsState (after_cut t k cut) × HasSizes t.setup (after_cut t k cut) }
{}

/// Law: in a run of a well-formed trace of version 1 no domain is ever frozen.
pub fn law_first_version()
    ensures before { (t : TraceLists) → (k : ℕ) → IsTrace t → t.version ≡ 1 → NoneFrozen (before t k).holders }
    ensures cut { (t : TraceLists) → (k : ℕ) → (cut : List ℕ) → IsTrace t → t.version ≡ 1 → NoneFrozen (after_cut t k cut).holders }
{}

/// Law: each lane is answered in a cut of a phase the first of the replies that it is answered in the whole phase, as
/// many as the cut has operations of it. So in a phase of a run of a well-formed trace, and in one from any state.
pub fn law_cut_is_front()
    ensures phase { (s : State) → (lanes : List (List Op)) → (cut : List ℕ) → (j : ℕ) → IsState s → length lanes ≤ length s.made
        → AllByRecursion (AllByRecursion (IsOp (sizes_of s))) lanes
        → slice_index_or (replies_to_lanes s 0 (cut_lanes cut lanes)) j []
        ≡ take (slice_index_or cut j 0) (slice_index_or (replies_to_lanes s 0 lanes) j []) }
    ensures run { (t : TraceLists) → (k : ℕ) → (cut : List ℕ) → (j : ℕ) → IsTrace t
        → slice_index_or (replies_of_cut t k cut) j []
        ≡ take (slice_index_or cut j 0) (slice_index_or (slice_index_or (replies_of t) k []) j []) }
{}

/// Law: a cut at the ends of all lanes leaves the lanes whole.
pub fn law_whole_cut()
    ensures { (lanes : List (List Op)) → cut_lanes (map length lanes) lanes ≡ lanes }
{}

/// Law: a phase that fits the setup fits every state of its sizes.
pub fn law_phase_fits()
    ensures { (setup : Setup) → (s : State) → (p : PhaseLists) → HasSizes setup s → IsPhase setup p → IsPhase (sizes_of s) p }
{}

/// Law: an object is reached where some slot and some list of field numbers lead to it, and nowhere else.
pub fn law_reached_by_paths()
    ensures { (slots : List Value) → (made : List (List Object)) → (b : Birth) → Reached slots made b ↔ HasPath slots made b }
{}

/// Law: every state has a need.
pub fn law_has_need()
    ensures { (s : State) → IsState s → (n : ℕ) × IsNeed s n }
{}

/// Law: a state has one need.
pub fn law_one_need()
    ensures { (s : State) → (m n : ℕ) → IsNeed s m → IsNeed s n → m ≡ n }
{}

/// Law: the superpages that objects of a class take hold them, and fewer don't.
pub fn law_rounded_up()
    ensures { (c n k : ℕ) → IsClass c → (n ≤ k * cap c) ↔ (superpages_for c n ≤ k) }
{}

/// Law: states that are alike as far as their slots lead give one reply to each operation, and are alike after it. So they
/// give the same replies to phases that fit the setup.
pub fn law_resembling()
    ensures step { (s t : State) → (k : ℕ) → (o : Op) → k < length s.made → IsState s → Resembles s t
        → Resembles (step s k o).0 (step t k o).0 × ((step t k o).1 ≡ (step s k o).1) }
    ensures phases { (setup : Setup) → (s t : State) → (phases : List PhaseLists) → IsState s → HasSizes setup s
        → AllByRecursion (IsPhase setup) phases → Resembles s t
        → Resembles (after_phases s phases) (after_phases t phases)
        × (replies_of_phases t phases ≡ replies_of_phases s phases) }
{}
