//! Held pages: what one has, and a change of each.
ghost use Rattle.std.specs.Prelude.{◌≡◌, ◌↔◌, ◌<◌, map, All, IsSome, IsTrue};
ghost use Rattle.live_levels.specs.Replay.{dated};
ghost use Rattle.live_levels.specs.Slots.{changed};
ghost use Rattle.live_tree.specs.Guards.{slot_of};
ghost use Rattle.live_tree.specs.Held.{CanTake};
ghost use Rattle.live_tree.specs.Shown.{shown};

use crate::held::{Guards, Held};
use live_levels::act::{Act, suits};
use live_levels::slot::SlotState;
use std::alloc::Allocator;
use std::sync::MutexGuard;
use vm_base::{PageInfo, info_from};

impl<'a, A: Allocator + Clone> Held<'a, A> {
    /// What a held page has. It takes no memory.
    pub fn page(&self, page: u64) -> Option<PageInfo>
        ensures { result ≡ (shown self.now.slots).info page }
    {
        page_at(&self.guards, page)
    }

    /// Tells whether each held slot can take the change, in room that there is.
    pub fn can_take(&self, act: Act) -> bool
        ensures { IsTrue result ↔ All (CanTake act) self.now.slots }
    {
        all_can_take(&self.guards, &act)
    }

    /// Makes the same change in each held slot, under one ticket, as where the held page gets a
    /// frame or a recorded core. It takes no memory.
    pub fn change_each(&mut self, ticket: u64, act: Act)
        requires { All (CanTake act) self.old.slots }
        ensures { self.new
            ≡ record self.old { slots = map (λ s. changed s (dated ticket act)) self.old.slots } }
    {
        change_all(&mut self.guards, ticket, &act);
    }
}

// What a page has, of those that the guards hold.
fn page_at<'a, A: Allocator>(guards: &Guards<'a, A>, page: u64) -> Option<PageInfo>
    requires { All IsSome guards.now.items }
    ensures { result ≡ (shown (map slot_of guards.now.items)).info page }
{
    'guards: for guard in guards.as_slice() {
        let Some(slot) = guard else {
            unreachable!();
        };
        let first = slot.first();
        if page < first + slot.count() {
            return info_from(slot.content(), page.saturating_sub(first));
        }
    }
    None
}

// Tells whether the slot can take the change, in room that there is.
fn can_take<A: Allocator>(slot: &SlotState<A>, act: &Act) -> bool
    ensures { IsTrue result ↔ CanTake act.now slot.now }
{
    slot.room() > 0 && suits(act, slot.count())
}

// Tells whether the slot of a guard, which is there, can take the change.
fn guard_can_take<A: Allocator>(guard: &Option<MutexGuard<'_, SlotState<A>>>, act: &Act) -> bool
    requires { IsSome guard.now }
    ensures { IsTrue result ↔ CanTake act.now (slot_of guard.now) }
{
    match guard {
        Some(slot) => can_take(slot, act),
        None => unreachable!(),
    }
}

// Tells whether the slots of all guards can take the change.
fn all_can_take<'a, A: Allocator>(guards: &Guards<'a, A>, act: &Act) -> bool
    requires { All IsSome guards.now.items }
    ensures { IsTrue result ↔ All (CanTake act.now) (map slot_of guards.now.items) }
{
    'guards: for guard in guards.as_slice() {
        if !guard_can_take(guard, act) {
            return false;
        }
    }
    true
}

// The change at all guards.
fn change_all<'a, A: Allocator>(guards: &mut Guards<'a, A>, ticket: u64, act: &Act)
    requires some { All IsSome guards.old.items }
    requires each { All (CanTake act.now) (map slot_of guards.old.items) }
    ensures some { All IsSome guards.new.items }
    ensures slots { map slot_of guards.new.items ≡ map (λ s. changed s (dated ticket act.now))
        (map slot_of guards.old.items) }
{
    'guards: for guard in guards.as_mut_slice().iter_mut() {
        change_at(guard, ticket, act);
    }
}

// The change at one guard, which is there.
fn change_at<A: Allocator>(guard: &mut Option<MutexGuard<'_, SlotState<A>>>, ticket: u64, act: &Act)
    requires some { IsSome guard.old }
    requires each { CanTake act.now (slot_of guard.old) }
    ensures some { IsSome guard.new }
    ensures slot { slot_of guard.new ≡ changed (slot_of guard.old) (dated ticket act.now) }
{
    if let Some(slot) = guard {
        slot.change(ticket, *act);
    }
}
