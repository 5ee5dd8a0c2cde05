//! A place of a level: a slot, or the level in its place once it is divided.
//!
//! No clause can follow a value into a lock. So a place is tested when it is met, and a wrong one, which never comes,
//! answers `Lost`. This is the one way to a slot: a look, the lock, and a second look, at the locked slot, which says
//! whether it was divided meanwhile.
ghost use Rattle.std.specs.Prelude.{◌≡◌, ℕ, ◌+◌, ◌*◌, ◌<◌, ◌≤◌, true, IfSome, Some};
ghost use Rattle.live_levels.specs.Histories.{Grew};
ghost use Rattle.live_levels.specs.Nexts.{Cuts, Folds};
ghost use Rattle.live_levels.specs.Parts.{AreParts, IsDivided};
ghost use Rattle.live_levels.specs.Reached.{IsWhole};

use crate::close::{Kept, gather_slot};
use crate::fold::{JoinedSlots, has_pages_of, replace};
use crate::level::{Level, SlotCut, Stepper, boxed};
use crate::parts::{Divided, SLOTS, carry_on, side_by_side};
use crate::slot::SlotState;
use std::alloc::Allocator;
use std::sync::{Mutex, MutexGuard, OnceLock, OnceToken, Wait};
use vm_base::CoreId;

/// A slot that was divided. It is told only by what shows that the level with its parts was
/// published, and so only here. It may not be dropped: it ends by `mark`.
pub struct Division {
    divided: Divided,
}

impl Division {
    fn shown_by<T>(_token: OnceToken<'_, T>, divided: &Divided) -> Division
        ensures { result.divided ≡ divided.now }
    {
        Division { divided: *divided }
    }

    /// The slot that was divided says so from now on, to whoever locks it next.
    pub fn mark<A: Allocator>(self, slot: &mut SlotState<A>)
        requires { IsDivided self.divided slot.old }
        ensures { slot.new ≡ record slot.old { divided = true } }
    {
        let Division { divided: _ } = self;
        slot.set_divided();
    }

    /// The parts weren't found in the slot's place, which never comes. The call that holds the slot
    /// gives up.
    pub fn give_up(self) {
        let Division { divided: _ } = self;
    }
}

/// A slot under its lock, and the level in its place once it is divided. From then on nobody looks
/// at the slot itself: `reach` and `reach_mut` are the only ways to it.
#[derive(Drop)]
pub(crate) struct Place<C, A: Allocator> {
    slot: Mutex<SlotState<A>>,
    below: OnceLock<Box<C, A>>,
}

/// What threads find in a place.
pub(crate) enum Reached<'a, C, A: Allocator> {
    /// The slot was divided: the level with its parts.
    Below(&'a Box<C, A>),
    /// The slot, which isn't divided, locked.
    Slot(MutexGuard<'a, SlotState<A>>),
    /// The slot is divided, and has no level in its place. It never comes.
    Lost,
}

/// What is in a place that no thread shares.
pub(crate) enum Unshared<'a, C, A: Allocator> {
    /// The slot was divided: the level with its parts.
    Below(&'a mut Box<C, A>),
    /// The slot, which isn't divided.
    Slot(Kept<'a, A>),
    /// The slot is divided, and has no level in its place. It never comes.
    Lost,
}

impl<C: Level<A>, A: Allocator + Clone> Place<C, A> {
    pub(crate) fn new(slot: SlotState<A>) -> Place<C, A> {
        Place {
            slot: Mutex::new(slot),
            below: OnceLock::new(),
        }
    }

    /// Looks for a level in the slot's place, and locks the slot where there is none. Then it looks
    /// at the slot: another thread may have divided it while this one waited.
    pub(crate) fn reach<'a, R: Wait>(&'a self, rt: &R) -> Reached<'a, C, A>
        ensures { IsWhole result }
    {
        if let Some(below) = self.below.get() {
            return Reached::Below(below);
        }
        let guard = self.slot.lock(rt);
        if !guard.is_divided() {
            return Reached::Slot(guard);
        }
        drop(guard);
        match self.below.get() {
            Some(below) => Reached::Below(below),
            None => Reached::Lost,
        }
    }

    /// What is in the place, which no thread shares.
    pub(crate) fn reach_mut<'a>(&'a mut self) -> Unshared<'a, C, A> {
        if let Some(below) = self.below.get_mut() {
            return Unshared::Below(below);
        }
        match Kept::of(&mut self.slot) {
            Some(slot) => Unshared::Slot(slot),
            None => Unshared::Lost,
        }
    }

    /// Divides the place's slot, which the caller has locked, and which stays its owner's.
    pub(crate) fn split<S: Stepper>(
        &self,
        alloc: &A,
        stepper: &mut S,
        slot: &SlotState<A>,
    ) -> SlotCut
        requires { S.can_step stepper.old }
        ensures { Cuts S.stepped stepper.old stepper.new slot.now.owner slot.now result }
    {
        self.divide(alloc, stepper, slot, slot.owner())
    }

    /// Divides the slot of so many pages that the caller holds and lends, in this place or below
    /// it. The core is to lock the new slots first.
    pub(crate) fn cut<S: Stepper>(
        &self,
        alloc: &A,
        stepper: &mut S,
        core: CoreId,
        slot: &SlotState<A>,
        pages: u64,
    ) -> SlotCut
        requires { S.can_step stepper.old }
        ensures { Cuts S.stepped stepper.old stepper.new (Some core) slot.now result }
    {
        if let Some(below) = self.below.get() {
            return below.cut(alloc, stepper, core, slot);
        }
        if slot.count() != pages {
            return SlotCut::Lost;
        }
        self.divide(alloc, stepper, slot, Some(core))
    }

    // Divides the place's slot, whose lock is held: the level in its place gets 512 slots, which
    // carry on what its pages have, and are this owner's. Only what stands before the ticket is
    // drawn takes memory.
    fn divide<S: Stepper>(
        &self,
        alloc: &A,
        stepper: &mut S,
        slot: &SlotState<A>,
        owner: Option<CoreId>,
    ) -> SlotCut
        requires { S.can_step stepper.old }
        ensures { Cuts S.stepped stepper.old stepper.new owner slot.now result }
    {
        let first = slot.first();
        let pages = slot.count() / SLOTS as u64;
        if pages == 0 || slot.count() != pages * SLOTS as u64 {
            return SlotCut::Lost;
        }
        let Ok(mut parts) = side_by_side(alloc, first, pages) else {
            return SlotCut::NoMemory;
        };
        let Ok(level) = boxed::<C, A>(alloc, first, pages) else {
            return SlotCut::NoMemory;
        };
        let divided = Divided {
            first,
            content: slot.content(),
            owner,
            ticket: stepper.step(),
        };
        carry_on(&mut parts, &divided, pages);
        match self.publish(level, &mut parts, &divided, slot, pages) {
            Some(division) => SlotCut::Cut(division),
            None => SlotCut::Unseen(divided),
        }
    }

    // Shows the level to all threads, once it has these slots: the parts of the slot that is
    // divided. `None` where there was a level. It takes no memory.
    fn publish(
        &self,
        mut level: Box<C, A>,
        parts: &mut Vec<SlotState<A>, A>,
        divided: &Divided,
        _slot: &SlotState<A>,
        _pages: u64,
    ) -> Option<Division>
        requires count { _slot.now.count ≡ 512 * _pages }
        requires parts { AreParts divided.now _pages parts.old.items }
        ensures { IfSome result (λ d. d.divided ≡ divided.now) }
    {
        level.fill(parts);
        match self.below.try_set(level) {
            Ok(token) => Some(Division::shown_by(token, divided)),
            Err(_) => None,
        }
    }

    /// Makes one slot of the deepest level below the place that has the page, where its slots can
    /// be one, which is noted.
    pub(crate) fn fold<S: Stepper>(&mut self, stepper: &mut S, page: u64) -> Option<JoinedSlots>
        requires { S.can_step stepper.old }
        ensures { Folds S.stepped stepper.old stepper.new page result }
    {
        let Some(below) = self.below.get_mut() else {
            return None;
        };
        if below.is_divided(page) {
            return below.fold(stepper, page);
        }
        let Some(joint) = below.joint() else {
            return None;
        };
        if page < joint.first || joint.end <= page {
            return None;
        }
        let slot = self.slot.get_mut();
        if !has_pages_of(slot, &joint) {
            return None;
        }
        let Some(parts) = self.below.take() else {
            return None;
        };
        Some(replace(slot, parts, &joint, stepper))
    }

    /// Adds all slots below the place that aren't divided, or its own.
    pub(crate) fn gather<'a>(
        &'a mut self,
        slots: &mut Vec<Kept<'a, A>, A>,
        next: u64,
    ) -> Option<u64>
        ensures { IfSome result (λ end. Grew next end slots.old.items slots.new.items) }
    {
        match self.reach_mut() {
            Unshared::Below(below) => below.gather(slots, next),
            Unshared::Slot(slot) => gather_slot(slot, slots, next),
            Unshared::Lost => None,
        }
    }
}
