//! An attempt to lock a slot, and the unlocking of one, each in one walk.
ghost use Rattle.std.specs.Prelude.{◌≡◌, ◌*◌, ◌<◌, ◌≤◌, None};
ghost use Rattle.radix_node.specs.State.{state_of};
ghost use Rattle.radix_node.specs.Run.{width_of, cell_at, with_run, in_state, IsWhole};
ghost use Rattle.radix_node.specs.Node.{runs};
ghost use Rattle.radix_node.specs.Lock.{Meets, after_lock};

use crate::node::{Node, Slot};
use crate::place::{place_of, slot_pages};
use crate::state::SlotState;
use std::alloc::Allocator;
use vm_base::CoreId;

/// The result of an attempt to lock the slot of a page, which has to begin at the page and to have
/// at most so many pages.
#[derive(Clone, Copy)]
pub enum Lock {
    /// A core holds the slot.
    Held(CoreId),
    /// The slot begins before the page.
    Before,
    /// The slot has more pages.
    Beyond,
    /// The slot, which has so many pages, is locked.
    Locked(u64),
}

impl SlotState {
    /// Locks the slot for the core, where nobody holds it, and it begins at the page and has at
    /// most `room` pages. The slot has `width` pages, of which `offset` lie before the page.
    pub fn lock(&mut self, offset: u64, width: u64, room: u64, core: CoreId) -> Lock
        ensures meets { Meets (record { state = state_of self.old; offset = offset; width = width })
            room result }
        ensures state { state_of self.new ≡ after_lock result core (state_of self.old) }
    {
        if let Some(owner) = self.owner() {
            return Lock::Held(owner);
        }
        if 0 < offset {
            return Lock::Before;
        }
        if room < width {
            return Lock::Beyond;
        }
        self.set_owner(Some(core));
        Lock::Locked(width)
    }
}

impl<A: Allocator> Node<A> {
    /// Locks the slot that has the page for the core, where nobody holds it, and it begins at the
    /// page and has at most `room` pages. Else nothing changes.
    pub fn lock_at(&mut self, page: u64, room: u64, core: CoreId) -> Lock
        requires { page < 512 * width_of self.old.level }
        ensures level { self.new.level ≡ self.old.level }
        ensures whole { IsWhole self.new.level (512 * width_of self.new.level) (runs self.new) }
        ensures meets { Meets (cell_at (runs self.old) page) room result }
        ensures set { runs self.new ≡ with_run
            (in_state (after_lock result core (cell_at (runs self.old) page).state))
            (runs self.old) page }
    {
        let level = self.level;
        let place = place_of(level, page);
        match &mut self.slots[place.slot] {
            Slot::Own(own) => {
                let width = slot_pages(level);
                return own.lock(place.rest, width, room, core);
            }
            Slot::Child(node) => node.lock_at(place.rest, room, core),
        }
    }

    /// Unlocks the slot that has the page, whoever holds it, and answers the slot's level.
    pub fn unlock_at(&mut self, page: u64) -> u8
        requires { page < 512 * width_of self.old.level }
        ensures level { self.new.level ≡ self.old.level }
        ensures whole { IsWhole self.new.level (512 * width_of self.new.level) (runs self.new) }
        ensures set { runs self.new ≡ with_run
            (in_state (record { info = (cell_at (runs self.old) page).state.info; owner = None }))
            (runs self.old) page }
        ensures low { result ≤ 3 }
        ensures width { width_of result ≡ (cell_at (runs self.old) page).width }
    {
        let level = self.level;
        let place = place_of(level, page);
        match &mut self.slots[place.slot] {
            Slot::Own(own) => {
                own.set_owner(None);
                return level;
            }
            Slot::Child(node) => node.unlock_at(place.rest),
        }
    }
}
