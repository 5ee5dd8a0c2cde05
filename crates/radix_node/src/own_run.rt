//! Neighbouring slots of one node that get another owner, in one walk.
ghost use Rattle.std.specs.Prelude.{◌≡◌, ◌≢◌, ◌+◌, ◌*◌, ◌-◌, ◌<◌, ◌≤◌, IsTrue};
ghost use Rattle.radix_node.specs.State.{state_of};
ghost use Rattle.radix_node.specs.Run.{width_of, IsWhole};
ghost use Rattle.radix_node.specs.Node.{runs};
ghost use Rattle.radix_node.specs.OwnedRuns.{HandsOver, GetOwner, OwnerChanges};

use crate::node::{Node, Slot};
use crate::place::{SLOTS, place_of, slot_pages};
use crate::state::SlotState;
use std::alloc::Allocator;
use vm_base::CoreId;

/// Whose slots get another owner, and which.
#[derive(Clone, Copy)]
pub struct Handover {
    /// The owner of the slots.
    pub from: Option<CoreId>,
    /// The owner that they get.
    pub to: Option<CoreId>,
}

/// Neighbouring slots of one node.
#[derive(Clone, Copy)]
pub struct OwnedRun {
    /// How many slots they are.
    pub slots: u64,
    /// How many pages each of them has.
    pub width: u64,
}

impl SlotState {
    /// Gives the slot another owner, where it is one of those that get one. Answers whether it is.
    pub(crate) fn hand_over(&mut self, owners: &Handover) -> bool
        ensures changes { IsTrue result → OwnerChanges (state_of self.old) (state_of self.new) owners.now }
        ensures same { ¬ IsTrue result → self.new ≡ self.old }
    {
        if self.owner() != owners.from {
            return false;
        }
        self.set_owner(owners.to);
        true
    }
}

impl<A: Allocator> Slot<A> {
    // Gives the slot another owner, where it is one of those that get one, and no child. Answers
    // whether it is.
    fn hand_over(&mut self, owners: &Handover) -> bool
        ensures changes { IsTrue result → HandsOver self.old self.new owners.now }
        ensures same { ¬ IsTrue result → self.new ≡ self.old }
    {
        match self {
            Slot::Own(state) => state.hand_over(owners),
            Slot::Child(_) => false,
        }
    }
}

impl<A: Allocator> Node<A> {
    // Gives the slots of this node from `first` up to `end` another owner, one after another, as
    // long as they are some that get one, and no children. Answers how many.
    fn own_slots(&mut self, first: usize, end: usize, owners: &Handover) -> usize
        requires order { first ≤ end }
        requires within { end ≤ 512 }
        ensures level { self.new.level ≡ self.old.level }
        ensures whole { IsWhole self.new.level (512 * width_of self.new.level) (runs self.new) }
        ensures few { first + result ≤ end }
        ensures owners { GetOwner (runs self.old) (runs self.new)
            (first * width_of self.old.level) (width_of self.old.level) owners.now result }
    {
        let handover = *owners;
        let slots = self.slots.as_mut_slice();
        'slots: for k in first..end {
            if !slots[k].hand_over(&handover) {
                return k - first;
            }
        }
        end - first
    }

    /// Gives neighbouring slots of one node another owner, in one walk: the slot that begins at the
    /// page and those after it, as long as their owner is the one given. They are at most `most`,
    /// and have at most `room` pages. Answers which they are: none where no slot begins at the page.
    pub fn own_run(&mut self, page: u64, room: u64, most: u64, owners: &Handover) -> OwnedRun
        requires { page < 512 * width_of self.old.level }
        ensures level { self.new.level ≡ self.old.level }
        ensures whole { IsWhole self.new.level (512 * width_of self.new.level) (runs self.new) }
        ensures few { result.slots ≤ most }
        ensures fits { result.slots * result.width ≤ room }
        ensures within { page + result.slots * result.width ≤ 512 * width_of self.old.level }
        ensures owners { GetOwner (runs self.old) (runs self.new) page result.width owners.now
            result.slots }
    {
        let level = self.level;
        let place = place_of(level, page);
        match &mut self.slots[place.slot] {
            Slot::Child(node) => node.own_run(place.rest, room, most, owners),
            Slot::Own(_) => {
                let width = slot_pages(level);
                if 0 < place.rest {
                    return OwnedRun { slots: 0, width };
                }
                let left = (SLOTS - place.slot) as u64;
                let end = place.slot + left.min(most).min(room / width) as usize;
                let slots = self.own_slots(place.slot, end, owners);
                OwnedRun {
                    slots: slots as u64,
                    width,
                }
            }
        }
    }
}
