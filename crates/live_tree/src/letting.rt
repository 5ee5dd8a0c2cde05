//! Held slots that are let go, from left to right.
ghost use Rattle.std.specs.Prelude.{◌≡◌, ◌<◌, [], length, map, drop, All, IsSome, None};
ghost use Rattle.live_tree.specs.Guards.{slot_of};
ghost use Rattle.live_tree.specs.Letting.{StepsOften, letting_view, freed_first};

use crate::held::Guards;
use live_levels::level::Stepper;
use live_levels::slot::SlotState;
use std::alloc::Allocator;
use std::marker::Model;
use std::sync::MutexGuard;

/// Held slots that are let go one after another, from left to right. A clause sees those that are
/// still locked: the slots of which nothing is noted yet, and the slot that was noted last. It may
/// not be dropped: it ends by `finish`, which asks that each slot was noted.
pub struct Letting<'a, A: Allocator> {
    // from right to left, so that the next one is the last
    guards: Guards<'a, A>,
    noted: Option<MutexGuard<'a, SlotState<A>>>,
}

impl<'a, A: Allocator> Model for Letting<'a, A> {
    ghost use Rattle.std.specs.Prelude.{map, reverse, All, IsSome};
    ghost use Rattle.live_tree.specs.Letting.{LettingView, letting_view};
    ghost use Rattle.live_tree.specs.Guards.{slot_of, noted_slot};

    ghost Value = { LettingView };

    ghost view = { λ l. letting_view (reverse (map slot_of l.guards.items)) (noted_slot l.noted) };

    ghost invariant = { λ l. All IsSome l.guards.items };
}

impl<'a, A: Allocator> Letting<'a, A> {
    /// All of these have to be let go.
    pub(crate) fn of(mut guards: Guards<'a, A>) -> Letting<'a, A>
        requires { All IsSome guards.items }
        ensures { result ≡ letting_view (map slot_of guards.entry.items) None }
    {
        guards.as_mut_slice().reverse();
        Letting {
            guards,
            noted: None,
        }
    }

    /// How many slots are locked of which nothing is noted yet.
    pub fn len(&self) -> usize
        ensures { result ≡ length self.now.slots }
    {
        self.guards.len()
    }

    /// Notes that the leftmost slot is let go, and answers the ticket of the step. The slot is
    /// still locked then, and no core is to lock it first any more. The slot that was noted before
    /// is unlocked. It takes no memory.
    pub fn note_first<S: Stepper>(&mut self, stepper: &mut S) -> u64
        requires some { 0 < length self.old.slots }
        requires step { S.can_step stepper.old }
        ensures first { self.new ≡ letting_view (drop 1 self.old.slots) (freed_first self.old.slots) }
        ensures noted { S.stepped stepper.old result stepper.new }
    {
        match self.guards.pop() {
            Some(Some(mut slot)) => {
                let ticket = free(&mut slot, stepper);
                self.noted = Some(slot);
                ticket
            }
            _ => unreachable!(),
        }
    }

    /// Ends, where of each slot it is noted that it is let go: the last one is unlocked. It takes no
    /// memory.
    pub fn finish(self)
        requires none { self.slots ≡ [] }
    {
        let Letting {
            guards: _none,
            noted: _last,
        } = self;
    }

    /// Lets all slots go, from left to right, each in a step of its own that is noted while the slot
    /// is still locked, for who can always step. Tells how many there were. It takes no memory.
    pub fn unlock_all<S: Stepper>(mut self, stepper: &mut S) -> usize
        requires always { (s : S) → S.can_step s }
        ensures count { result ≡ length self.entry.slots }
        ensures noted { StepsOften S.stepped result stepper.old stepper.new }
    {
        let count = self.len();
        'slots: while self.len() > 0 {
            let _ticket = self.note_first(stepper);
        }
        self.finish();
        count
    }
}

// Notes that the slot is let go, by whoever still has it locked.
fn free<A: Allocator, S: Stepper>(slot: &mut SlotState<A>, stepper: &mut S) -> u64
    requires { S.can_step stepper.old }
    ensures owner { slot.new ≡ record slot.old { owner = None } }
    ensures noted { S.stepped stepper.old result stepper.new }
{
    slot.set_owner(None);
    stepper.step()
}
