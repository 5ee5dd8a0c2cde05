//! The history of each slot, as it is gathered at the end, once no thread shares the tree.
//!
//! No clause can follow a value out of a lock. That histories are those of a tree's own slots is said by a type: a `Kept` is borrowed
//! from a lock, for as long as the tree was lent, and a function that is lent the tree for any time has no other lock.
ghost use Rattle.std.specs.Prelude.{◌≡◌, ℕ, ◌+◌, ◌^◌, [], ◌∷◌, ◌++◌, false, map, IfSome, IfOk, IfNone};
ghost use Rattle.live_levels.specs.Histories.{AreSlots, Grew, history_of, past_of};

use crate::act::SlotChange;
use crate::slot::SlotState;
use std::alloc::{AllocError, Allocator};
use std::marker::Model;
use std::sync::Mutex;

/// A slot's place, and its changes in their order.
#[derive(Drop)]
pub struct SlotHistory<A: Allocator> {
    pub first: u64,
    pub count: u64,
    pub changes: Vec<SlotChange, A>,
}

/// A slot that lies under a lock which no thread shares, and isn't divided. Only `of` makes one.
#[derive(Drop)]
pub struct Kept<'a, A: Allocator> {
    slot: &'a SlotState<A>,
}

impl<'a, A: Allocator> Model for Kept<'a, A> {
    ghost use Rattle.std.specs.Prelude.{◌≡◌, false};
    ghost use Rattle.live_levels.specs.Slots.{SlotView};

    ghost Value = { SlotView };

    ghost view = { λ k. k.slot.now };

    ghost invariant = { λ k. k.slot.now.divided ≡ false };
}

impl<'a, A: Allocator> Kept<'a, A> {
    /// The slot under the lock. None where it is divided.
    pub(crate) fn of(lock: &'a mut Mutex<SlotState<A>>) -> Option<Kept<'a, A>> {
        let slot = lock.get_mut();
        if slot.is_divided() {
            return None;
        }
        Some(Kept { slot })
    }

    /// The slot.
    pub(crate) fn slot(&self) -> &SlotState<A>
        ensures slot { result.now ≡ self.now }
        ensures whole { self.now.divided ≡ false }
    {
        self.slot
    }
}

/// Adds the slot, where it begins at `next`, and answers its end. `None` where memory ran out, or the
/// slot begins elsewhere.
pub(crate) fn gather_slot<'a, A: Allocator>(
    slot: Kept<'a, A>,
    slots: &mut Vec<Kept<'a, A>, A>,
    next: u64,
) -> Option<u64>
    ensures added { IfSome result (λ _. slots.new.items ≡ slots.old.items ++ slot.entry ∷ []) }
    ensures place { IfSome result (λ end. Grew next end slots.old.items slots.new.items) }
{
    let first = slot.slot().first();
    if first != next {
        return None;
    }
    let end = first + slot.slot().count();
    match slots.push(slot) {
        Ok(()) => Some(end),
        Err(_) => None,
    }
}

/// The histories of these slots, in their order. `None` where memory ran out.
pub fn histories_of<A: Allocator + Clone>(
    alloc: &A,
    slots: &[Kept<'_, A>],
) -> Option<Vec<SlotHistory<A>, A>>
    ensures { IfSome result (λ v. map past_of v.items ≡ map history_of slots.now) }
{
    let Ok(own) = alloc.clone() else {
        return None;
    };
    let mut histories = Vec::new(own);
    'slots: for slot in slots {
        let Ok(history) = copy_history(alloc, slot.slot()) else {
            return None;
        };
        if histories.push(history).is_err() {
            return None;
        }
    }
    Some(histories)
}

// A copy of the slot's place, and of its changes.
fn copy_history<A: Allocator + Clone>(
    alloc: &A,
    slot: &SlotState<A>,
) -> Result<SlotHistory<A>, AllocError>
    ensures { IfOk result (λ history. past_of history ≡ history_of slot.now) }
{
    let own = alloc.clone()?;
    let changes = slot.history(own)?;
    Ok(SlotHistory {
        first: slot.first(),
        count: slot.count(),
        changes,
    })
}
