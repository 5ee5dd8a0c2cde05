//! A level above others: 512 places, each a slot, or the level below once it is divided.
ghost use Rattle.std.specs.Prelude.{◌≡◌, ℕ, ◌+◌, ◌-◌, ◌<◌, ◌≤◌, ◌^◌, IfSome, Some};
ghost use Rattle.std.specs.Sync.Mutex.{mutex_guard_value};
ghost use Rattle.live_levels.specs.Nexts.{Answers, Cuts, Folds};
ghost use Rattle.live_levels.specs.Slots.{HasPage};
ghost use Rattle.live_levels.specs.Histories.{Grew};

use crate::ask::{AskedSlot, ask, with_page};
use crate::close::Kept;
use crate::fold::{JoinedSlots, with_next};
use crate::joint::Foldable;
use crate::level::{Level, Next, SlotCut, Stepper, index_of, put};
use crate::parts::SLOTS;
use crate::place::{Place, Reached, Unshared};
use crate::slot::SlotState;
use std::alloc::Allocator;
use std::sync::{MutexGuard, Wait};
use vm_base::{CoreId, NoMemory};

/// 512 slots of several pages, each under its lock or divided. A lookup takes no lock above the
/// slot that it finds.
#[derive(Drop)]
pub struct Inner<C, A: Allocator> {
    first: u64,
    pages: u64,
    places: Vec<Place<C, A>, A>,
}

impl<C: Level<A>, A: Allocator + Clone> Level<A> for Inner<C, A> {
    fn new(alloc: A, first: u64, pages: u64) -> Result<Self, NoMemory> {
        match Vec::with_capacity(alloc, SLOTS) {
            Ok(places) => Ok(Inner {
                first,
                pages,
                places,
            }),
            Err(_) => Err(NoMemory),
        }
    }

    fn fill(&mut self, slots: &mut Vec<SlotState<A>, A>) {
        'slots: for slot in slots.drain(..) {
            put(&mut self.places, Place::new(slot));
        }
    }

    fn lock_next<'a, R: Wait, S: Stepper>(
        &'a self,
        rt: &R,
        alloc: &A,
        stepper: &mut S,
        core: CoreId,
        cursor: u64,
        end: u64,
    ) -> Next<'a, A> {
        let Some(index) = index_of(self.first, self.pages, cursor) else {
            return Next::Lost;
        };
        let Some(place) = self.places.get(index) else {
            return Next::Lost;
        };
        let guard = match place.reach(rt) {
            Reached::Below(below) => {
                return below.lock_next(rt, alloc, stepper, core, cursor, end);
            }
            Reached::Slot(guard) => guard,
            Reached::Lost => return Next::Lost,
        };
        let mut larger = match ask(guard, core, cursor, end) {
            AskedSlot::Whole(guard) => return Next::Whole(guard),
            AskedSlot::Owned(guard) => return Next::Owned(guard),
            AskedSlot::Larger(guard) => guard,
            AskedSlot::Lost => return Next::Lost,
        };
        match place.split(alloc, stepper, &larger) {
            SlotCut::Cut(division) => {
                division.mark(&mut larger);
                Next::Split
            }
            SlotCut::Unseen(_) => Next::Unseen,
            SlotCut::NoMemory => Next::NoMemory,
            SlotCut::Lost => Next::Lost,
        }
    }

    fn lock_at<'a, R: Wait>(&'a self, rt: &R, page: u64) -> Option<MutexGuard<'a, SlotState<A>>> {
        let index = index_of(self.first, self.pages, page)?;
        let place = self.places.get(index)?;
        match place.reach(rt) {
            Reached::Below(below) => below.lock_at(rt, page),
            Reached::Slot(guard) => with_page(guard, page),
            Reached::Lost => None,
        }
    }

    fn cut<S: Stepper>(
        &self,
        alloc: &A,
        stepper: &mut S,
        core: CoreId,
        slot: &SlotState<A>,
    ) -> SlotCut {
        let Some(index) = index_of(self.first, self.pages, slot.first()) else {
            return SlotCut::Lost;
        };
        let Some(place) = self.places.get(index) else {
            return SlotCut::Lost;
        };
        place.cut(alloc, stepper, core, slot, self.pages)
    }

    fn gather<'a>(&'a mut self, slots: &mut Vec<Kept<'a, A>, A>, next: u64) -> Option<u64> {
        let mut at = next;
        'places: for place in self.places.iter_mut() {
            let Some(end) = place.gather(slots, at) else {
                return None;
            };
            at = end;
        }
        Some(at)
    }

    fn is_divided(&mut self, page: u64) -> bool {
        let Some(index) = index_of(self.first, self.pages, page) else {
            return false;
        };
        let Some(place) = self.places.get_mut(index) else {
            return false;
        };
        match place.reach_mut() {
            Unshared::Below(_) => true,
            Unshared::Slot(_) | Unshared::Lost => false,
        }
    }

    fn joint(&mut self) -> Option<Foldable> {
        let mut joint: Option<Foldable> = None;
        'places: for place in self.places.iter_mut() {
            let slot = match place.reach_mut() {
                Unshared::Below(_) | Unshared::Lost => return None,
                Unshared::Slot(slot) => slot,
            };
            let Some(next) = with_next(joint, slot.slot()) else {
                return None;
            };
            joint = Some(next);
        }
        joint
    }

    fn fold<S: Stepper>(&mut self, stepper: &mut S, page: u64) -> Option<JoinedSlots> {
        let index = index_of(self.first, self.pages, page)?;
        let place = self.places.get_mut(index)?;
        place.fold(stepper, page)
    }
}
