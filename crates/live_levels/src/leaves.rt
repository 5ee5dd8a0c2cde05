//! The last level: slots of one page.
ghost use Rattle.std.specs.Prelude.{◌≡◌, ℕ, ◌+◌, ◌-◌, ◌<◌, ◌≤◌, ◌^◌, IfSome, Some};
ghost use Rattle.std.specs.Sync.Mutex.{mutex_guard_value};
ghost use Rattle.live_levels.specs.Nexts.{Answers, Cuts, Folds};
ghost use Rattle.live_levels.specs.Slots.{HasPage};
ghost use Rattle.live_levels.specs.Histories.{Grew};

use crate::ask::{AskedSlot, ask, with_page};
use crate::close::{Kept, gather_slot};
use crate::fold::{JoinedSlots, with_next};
use crate::joint::Foldable;
use crate::level::{Level, Next, SlotCut, Stepper, index_of, put};
use crate::parts::SLOTS;
use crate::slot::SlotState;
use std::alloc::Allocator;
use std::sync::{Mutex, MutexGuard, Wait};
use vm_base::{CoreId, NoMemory};

/// 512 slots of one page, each under its lock.
#[derive(Drop)]
pub struct Leaves<A: Allocator> {
    first: u64,
    slots: Vec<Mutex<SlotState<A>>, A>,
}

impl<A: Allocator + Clone> Level<A> for Leaves<A> {
    fn new(alloc: A, first: u64, pages: u64) -> Result<Self, NoMemory> {
        match Vec::with_capacity(alloc, SLOTS) {
            Ok(slots) => Ok(Leaves { first, slots }),
            Err(_) => Err(NoMemory),
        }
    }

    fn fill(&mut self, slots: &mut Vec<SlotState<A>, A>) {
        'slots: for slot in slots.drain(..) {
            put(&mut self.slots, Mutex::new(slot));
        }
    }

    fn lock_next<'a, R: Wait, S: Stepper>(
        &'a self,
        rt: &R,
        _alloc: &A,
        _stepper: &mut S,
        core: CoreId,
        cursor: u64,
        end: u64,
    ) -> Next<'a, A> {
        let Some(index) = index_of(self.first, 1, cursor) else {
            return Next::Lost;
        };
        let Some(slot) = self.slots.get(index) else {
            return Next::Lost;
        };
        match ask(slot.lock(rt), core, cursor, end) {
            AskedSlot::Whole(guard) => Next::Whole(guard),
            AskedSlot::Owned(guard) => Next::Owned(guard),
            AskedSlot::Larger(_guard) => Next::Lost,
            AskedSlot::Lost => Next::Lost,
        }
    }

    fn lock_at<'a, R: Wait>(&'a self, rt: &R, page: u64) -> Option<MutexGuard<'a, SlotState<A>>> {
        let index = index_of(self.first, 1, page)?;
        let slot = self.slots.get(index)?;
        with_page(slot.lock(rt), page)
    }

    fn cut<S: Stepper>(
        &self,
        _alloc: &A,
        _stepper: &mut S,
        _core: CoreId,
        _slot: &SlotState<A>,
    ) -> SlotCut {
        SlotCut::Lost
    }

    fn gather<'a>(&'a mut self, slots: &mut Vec<Kept<'a, A>, A>, next: u64) -> Option<u64> {
        let mut at = next;
        'slots: for slot in self.slots.iter_mut() {
            let Some(end) = gather_slot(Kept::of(slot)?, slots, at) else {
                return None;
            };
            at = end;
        }
        Some(at)
    }

    fn is_divided(&mut self, _page: u64) -> bool {
        false
    }

    fn joint(&mut self) -> Option<Foldable> {
        let mut joint: Option<Foldable> = None;
        'slots: for slot in self.slots.iter_mut() {
            let slot = Kept::of(slot)?;
            let Some(next) = with_next(joint, slot.slot()) else {
                return None;
            };
            joint = Some(next);
        }
        joint
    }

    fn fold<S: Stepper>(&mut self, _stepper: &mut S, _page: u64) -> Option<JoinedSlots> {
        None
    }
}
