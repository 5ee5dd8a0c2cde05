//! Room in the histories of held slots.
ghost use Rattle.std.specs.Prelude.{◌≡◌, ◌<◌, true, map, All, IsSome, OnOk};
ghost use Rattle.live_tree.specs.Guards.{slot_of};
ghost use Rattle.live_tree.specs.Held.{AreAlike, HasRoom, is_inside, without_room};

use crate::held::{Guards, Held};
use live_levels::slot::SlotState;
use std::alloc::Allocator;
use std::sync::MutexGuard;
use vm_base::{NoMemory, PageRange};

impl<'a, A: Allocator + Clone> Held<'a, A> {
    /// Makes room for one change in the history of each held slot that lies in the range. A refusal
    /// changes nothing but how much room there is.
    pub fn reserve(&mut self, range: PageRange) -> Result<(), NoMemory>
        ensures room { OnOk result (All (HasRoom range) self.new.slots) }
        ensures place { (self.new.first ≡ self.old.first) × (self.new.end ≡ self.old.end) }
        ensures same { AreAlike self.new.slots self.old.slots }
    {
        reserve_all(&mut self.guards, range)
    }
}

// Room at all guards.
fn reserve_all<'a, A: Allocator>(
    guards: &mut Guards<'a, A>,
    range: PageRange,
) -> Result<(), NoMemory>
    requires some { All IsSome guards.old.items }
    ensures some { All IsSome guards.new.items }
    ensures room { OnOk result (All (HasRoom range) (map slot_of guards.new.items)) }
    ensures same { AreAlike (map slot_of guards.new.items) (map slot_of guards.old.items) }
{
    'guards: for guard in guards.as_mut_slice().iter_mut() {
        reserve_at(guard, range)?;
    }
    Ok(())
}

// Room at one guard, which is there, where its slot lies in the range.
fn reserve_at<A: Allocator>(
    guard: &mut Option<MutexGuard<'_, SlotState<A>>>,
    range: PageRange,
) -> Result<(), NoMemory>
    requires some { IsSome guard.old }
    ensures some { IsSome guard.new }
    ensures room { OnOk result (HasRoom range (slot_of guard.new)) }
    ensures same { without_room (slot_of guard.new) ≡ without_room (slot_of guard.old) }
{
    match guard {
        Some(slot) => reserve_slot(slot, range),
        None => unreachable!(),
    }
}

// Room in one slot, where it lies in the range.
fn reserve_slot<A: Allocator>(slot: &mut SlotState<A>, range: PageRange) -> Result<(), NoMemory>
    ensures room { OnOk result (HasRoom range slot.new) }
    ensures same { without_room slot.new ≡ without_room slot.old }
{
    let first = slot.first();
    if range.first <= first && first + slot.count() <= range.end {
        slot.reserve(1)?;
    }
    Ok(())
}
