//! Theorems on all slot maps, and one on lists of mappings.
ghost use Rattle.std.specs.Prelude.{◌≡◌, ℕ, ◌^◌, ◌<◌, ◌≤◌, Option, List};
ghost use Rattle.slot_lock.specs.Slots.{Slots, IsSlotMap, Divides, Joins};
ghost use Rattle.slot_lock.specs.Edges.{edges_below};
ghost use Rattle.vm_base.specs.declared.info.Meta.{Meta};
ghost use Rattle.slot_lock.specs.declared.map_list.MapLine.{MapLine};
ghost use Rattle.slot_lock.specs.MapList.{IsMapList};

/// Each division makes the slots of valid pages more, and there are never more of them than 2^35.
/// So the divisions of a run without folds are bounded.
pub fn division_adds_an_edge()
    ensures grows { (s : Slots) (t : Slots) (owner : Option ℕ) (at : ℕ) → at < 2 ^ 35
        → Divides s t owner at → edges_below s (2 ^ 35) < edges_below t (2 ^ 35) }
    ensures bounded { (s : Slots) → edges_below s (2 ^ 35) ≤ 2 ^ 35 }
{}

/// What divisions and joins make of a slot map is a slot map.
pub fn divisions_and_joins_give_slot_maps()
    ensures divided { (s : Slots) (t : Slots) (owner : Option ℕ) (at : ℕ) → IsSlotMap s
        → Divides s t owner at → IsSlotMap t }
    ensures joined { (s : Slots) (t : Slots) → IsSlotMap s → Joins s t → IsSlotMap t }
{}

/// Whatever the pages are mapped to, there is no second list of their mappings.
pub fn pages_have_one_list()
    ensures { (meta : ℕ → Option Meta) (xs : List MapLine) (ys : List MapLine)
        → IsMapList meta xs → IsMapList meta ys → xs ≡ ys }
{}
