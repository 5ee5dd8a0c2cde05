//! What the levels of the shared tree do. A level is 512 slots side by side, and none of the types
//! holds itself.
ghost use Rattle.std.specs.Prelude.{◌≡◌, ◌≢◌, ℕ, ◌+◌, ◌*◌, ◌<◌, ◌≤◌, ◌^◌, [], ◌∷◌, ◌++◌, vec_len};
ghost use Rattle.std.specs.Prelude.{vec_capacity, Some, IfSome, IfNone, IsTrue, ◌↔◌, ◌-◌};
ghost use Rattle.std.specs.Sync.Mutex.{mutex_guard_value};
ghost use Rattle.live_levels.specs.Nexts.{Answers, Cuts, IsFreeFor, Folds};
ghost use Rattle.live_levels.specs.Slots.{HasPage};
ghost use Rattle.live_levels.specs.Histories.{Grew};

use crate::close::Kept;
use crate::fold::JoinedSlots;
use crate::joint::Foldable;
use crate::parts::{Divided, SLOTS};
use crate::place::Division;
use crate::slot::SlotState;
use std::alloc::Allocator;
use std::sync::{MutexGuard, Wait};
use vm_base::{CoreId, NoMemory};

/// Who draws a ticket and notes a step under it. Whoever calls it holds the locks of all that the
/// step touches.
pub trait Stepper {
    ghost use Rattle.std.specs.Prelude.{ℕ};

    /// A step can be noted.
    ghost can_step: { Self → Type 0 };

    /// One step was noted, under the ticket.
    ghost stepped: { Self → ℕ → Self → Type 0 };

    /// Draws a ticket, notes the step under it, and answers it.
    fn step(&mut self) -> u64
        requires { can_step self.old }
        ensures { stepped self.old result self.new };
}

/// The result of a try to lock the next slot.
pub enum Next<'a, A: Allocator> {
    /// The slot is locked. It begins at the cursor and ends by the end.
    Whole(MutexGuard<'a, SlotState<A>>),
    /// The slot was divided, which was noted.
    Split,
    /// Another core is to lock the slot first, which is locked.
    Owned(MutexGuard<'a, SlotState<A>>),
    /// A division was noted, but the slot's place had a level before. It never comes; the call gives up.
    Unseen,
    /// No memory was there to divide the slot.
    NoMemory,
    /// A slot was in a wrong place, and nothing was noted. It never comes; the call gives up.
    Lost,
}

/// The result of a try to cut a slot.
pub enum SlotCut {
    /// The slot was divided, which was noted: threads reach its parts in its place. The slot itself
    /// is to be marked, while it is locked.
    Cut(Division),
    /// The division was noted, but the slot's place had a level before. It never comes; the call
    /// gives up.
    Unseen(Divided),
    /// No memory was there to divide it.
    NoMemory,
    /// A slot was in a wrong place, and nothing was noted. It never comes; the call gives up.
    Lost,
}

/// A level of the tree.
pub trait Level<A: Allocator + Clone>: Drop {
    /// A level with room for 512 slots of this many pages each, from the page `first` on.
    fn new(alloc: A, first: u64, pages: u64) -> Result<Self, NoMemory>;

    /// Takes the slots over, in their order and as far as there is room, each under a lock of its
    /// own. It takes no memory.
    fn fill(&mut self, slots: &mut Vec<SlotState<A>, A>);

    /// Locks the slot that has the cursor, where it begins there and ends by the end; else it
    /// divides the slot.
    fn lock_next<'a, R: Wait, S: Stepper>(
        &'a self,
        rt: &R,
        alloc: &A,
        stepper: &mut S,
        core: CoreId,
        cursor: u64,
        end: u64,
    ) -> Next<'a, A>
        requires range { cursor < end }
        requires stepper { S.can_step stepper.old }
        ensures { Answers S.stepped stepper.old stepper.new core cursor end result };

    /// Locks the deepest slot that has the page, whoever is to lock it first. `None` where a slot
    /// was in a wrong place.
    fn lock_at<'a, R: Wait>(&'a self, rt: &R, page: u64) -> Option<MutexGuard<'a, SlotState<A>>>
        ensures { IfSome result (λ guard. HasPage (mutex_guard_value guard) page) };

    /// Divides a slot that the caller holds and lends. The core is to lock the new slots first.
    fn cut<S: Stepper>(
        &self,
        alloc: &A,
        stepper: &mut S,
        core: CoreId,
        slot: &SlotState<A>,
    ) -> SlotCut
        requires { S.can_step stepper.old }
        ensures { Cuts S.stepped stepper.old stepper.new (Some core) slot.now result };

    /// Adds all slots that aren't divided, which lie side by side from the page `next` on, and
    /// answers the page after them. `None` where memory ran out, or a slot was in a wrong place.
    fn gather<'a>(&'a mut self, slots: &mut Vec<Kept<'a, A>, A>, next: u64) -> Option<u64>
        ensures { IfSome result (λ end. Grew next end slots.old.items slots.new.items) };

    /// Tells whether the slot of this level that has the page is divided.
    fn is_divided(&mut self, page: u64) -> bool;

    /// All slots of this level, where none is divided and they can be one.
    fn joint(&mut self) -> Option<Foldable>;

    /// Makes one slot of the deepest level that has the page, where that isn't this one and its
    /// slots can be one, which is noted.
    fn fold<S: Stepper>(&mut self, stepper: &mut S, page: u64) -> Option<JoinedSlots>
        requires { S.can_step stepper.old }
        ensures { Folds S.stepped stepper.old stepper.new page result };
}

/// The number of the slot that has the page, in a level of slots of this many pages from the page
/// `first` on.
pub(crate) fn index_of(first: u64, pages: u64, page: u64) -> Option<usize> {
    let from = page.checked_sub(first)?;
    let index = from.checked_div(pages)?;
    if index < SLOTS as u64 {
        Some(index as usize)
    } else {
        None
    }
}

/// Puts the item after the others, where there is room. It takes no memory.
pub(crate) fn put<T: Drop, A: Allocator>(items: &mut Vec<T, A>, item: T)
    ensures { vec_len items.old < vec_capacity items.old
        → items.new.items ≡ items.old.items ++ item ∷ [] }
{
    if items.len() < items.capacity() {
        items.push_reserved(item);
    }
}

/// A level with room for 512 slots, in a box of its own.
pub(crate) fn boxed<C: Level<A>, A: Allocator + Clone>(
    alloc: &A,
    first: u64,
    pages: u64,
) -> Result<Box<C, A>, NoMemory> {
    let Ok(own) = alloc.clone() else {
        return Err(NoMemory);
    };
    let level = match C::new(own, first, pages) {
        Ok(level) => level,
        Err(e) => return Err(e),
    };
    let Ok(own) = alloc.clone() else {
        return Err(NoMemory);
    };
    match Box::new(own, level) {
        Ok(level) => Ok(level),
        Err(_) => Err(NoMemory),
    }
}
