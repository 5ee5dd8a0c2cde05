//! Held slots, lent to what reads slots.
ghost use Rattle.std.specs.Prelude.{◌≡◌, ℕ, ◌+◌, Some, map, All, IfSome, IsTrue, IsSome};
ghost use Rattle.slot_lock.specs.Adding.{with_slot};
ghost use Rattle.slot_lock.specs.Slots.{IsNew};
ghost use Rattle.live_tree.specs.Guards.{slot_of};
ghost use Rattle.live_tree.specs.Held.{SideBySide};
ghost use Rattle.live_tree.specs.Shown.{Lends};

use crate::held::{Guards, Held};
use live_levels::slot::SlotState;
use slot_lock::{SlotList, SlotRead};
use std::alloc::Allocator;
use std::sync::MutexGuard;
use vm_base::CoreId;

impl<'a, A: Allocator + Clone> Held<'a, A> {
    /// A map of the held slots, for what reads slots: it has their pages as they are, with this
    /// core as owner, and nothing else. `None` where memory ran out, or a held slot has a page that
    /// isn't valid or a file page that no file can have.
    pub fn lent<B: Allocator>(&self, alloc: B, core: CoreId) -> Option<SlotList<B>>
        ensures { IfSome result (λ map. Lends core self.now (⟦<SlotList<B> as SlotRead>⟧.slots map)) }
    {
        let Ok(mut lent) = SlotList::new(alloc) else {
            return None;
        };
        if !lend_all(&mut lent, &self.guards, core) {
            return None;
        }
        Some(lent)
    }
}

// Adds all held slots to a new map, and tells whether it could.
fn lend_all<'a, A: Allocator, B: Allocator>(
    lent: &mut SlotList<B>,
    guards: &Guards<'a, A>,
    core: CoreId,
) -> bool
    requires new { IsNew (⟦<SlotList<B> as SlotRead>⟧.slots lent.old) }
    requires some { All IsSome guards.now.items }
    ensures { IsTrue result → (first : ℕ) (end : ℕ)
        → SideBySide first end (map slot_of guards.now.items)
        → Lends core (record { first = first; end = end; slots = map slot_of guards.now.items })
        (⟦<SlotList<B> as SlotRead>⟧.slots lent.new) }
{
    'guards: for guard in guards.as_slice() {
        if !lend(lent, guard, core) {
            return false;
        }
    }
    true
}

// Adds the slot of a guard, which is there, and tells whether it could.
fn lend<A: Allocator, B: Allocator>(
    lent: &mut SlotList<B>,
    guard: &Option<MutexGuard<'_, SlotState<A>>>,
    core: CoreId,
) -> bool
    requires { IsSome guard.now }
    ensures { IsTrue result → ⟦<SlotList<B> as SlotRead>⟧.slots lent.new ≡ with_slot
        (⟦<SlotList<B> as SlotRead>⟧.slots lent.old) (slot_of guard.now).first
        ((slot_of guard.now).first + (slot_of guard.now).count) (Some core)
        (slot_of guard.now).content }
{
    let Some(slot) = guard else {
        unreachable!();
    };
    let first = slot.first();
    let end = first + slot.count();
    match lent.add_slot(first, end, Some(core), slot.content()) {
        Ok(is_added) => is_added,
        Err(_) => false,
    }
}
