//! What a core that asks for a slot finds once the slot is locked.
ghost use Rattle.std.specs.Prelude.{◌≡◌, ◌+◌, ◌-◌, ◌<◌, ◌≤◌, ◌^◌, ◌↔◌, IfSome, IfNone, IsTrue, Some};
ghost use Rattle.std.specs.Sync.Mutex.{mutex_guard_value};
ghost use Rattle.live_levels.specs.Nexts.{Asks, IsForAnother, IsFreeFor};
ghost use Rattle.live_levels.specs.Slots.{HasPage};

use crate::slot::SlotState;
use std::alloc::Allocator;
use std::sync::MutexGuard;
use vm_base::CoreId;

/// What a core that asks for the slots from a cursor up to an end finds in a locked slot.
pub enum AskedSlot<'a, A: Allocator> {
    /// The slot begins at the cursor and ends by the end.
    Whole(MutexGuard<'a, SlotState<A>>),
    /// Another core is to lock it first.
    Owned(MutexGuard<'a, SlotState<A>>),
    /// It begins before the cursor or ends after the end.
    Larger(MutexGuard<'a, SlotState<A>>),
    /// It doesn't have the cursor, or is divided. That never comes.
    Lost,
}

/// What the core finds in the slot.
pub(crate) fn ask<'a, A: Allocator>(
    guard: MutexGuard<'a, SlotState<A>>,
    core: CoreId,
    cursor: u64,
    end: u64,
) -> AskedSlot<'a, A>
    requires range { cursor < end }
    ensures { Asks core cursor end (mutex_guard_value guard.entry) result }
{
    if !has_page(&guard, cursor) {
        return AskedSlot::Lost;
    }
    if other_owner(&guard, core).is_some() {
        return AskedSlot::Owned(guard);
    }
    if guard.first() < cursor || guard.count() > end - cursor {
        return AskedSlot::Larger(guard);
    }
    AskedSlot::Whole(guard)
}

/// The locked slot, where it has the page and isn't divided.
pub(crate) fn with_page<'a, A: Allocator>(
    guard: MutexGuard<'a, SlotState<A>>,
    page: u64,
) -> Option<MutexGuard<'a, SlotState<A>>>
    ensures { IfSome result (λ guard. HasPage (mutex_guard_value guard) page) }
{
    if has_page(&guard, page) {
        Some(guard)
    } else {
        None
    }
}

// Tells whether the slot has the page, and isn't divided.
fn has_page<A: Allocator>(slot: &SlotState<A>, page: u64) -> bool
    ensures { IsTrue result ↔ HasPage slot.now page }
{
    let first = slot.first();
    !slot.is_divided() && first <= page && page - first < slot.count()
}

/// The other core that is to lock the slot first.
pub fn other_owner<A: Allocator>(slot: &SlotState<A>, core: CoreId) -> Option<CoreId>
    ensures some { IfSome result (λ other. slot.now.owner ≡ Some other) }
    ensures other { IfSome result (λ other. IsForAnother core slot.now.owner) }
    ensures none { IfNone result (IsFreeFor core slot.now.owner) }
{
    let Some(owner) = slot.owner() else {
        return None;
    };
    if owner.index() == core.index() {
        return None;
    }
    Some(owner)
}
