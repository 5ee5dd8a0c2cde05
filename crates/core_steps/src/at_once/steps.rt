//! Steps of a call that are made at once: so many plain ones. Slots that it locks or unlocks one after
//! another, what a fault does at its page, and what a change does at slots that nobody holds.
ghost use Rattle.std.specs.Prelude.{◌≡◌, ◌+◌, ◌≤◌};
ghost use Rattle.slot_lock.specs.declared.plan.Goal.TheVariants as GoalOf;
ghost use Rattle.machine_model.specs.declared.phase.Phase.{Phase};
ghost use Rattle.machine_model.specs.Step.{StepsTo, event_limit};
ghost use Rattle.machine_model.specs.Sound.{IsReached};
ghost use Rattle.core_steps.specs.State.{world};
ghost use Rattle.core_steps.specs.Moving.{IsAt};

use crate::engine::Engine;
use crate::rows::acquire::locked_to;
use crate::rows::answer::{held_after, let_go};
use machine_log::ledger::Ledger;
use machine_model::Phase;
use mmu::Hardware;
use slot_lock::{Change, Goal, SlotMap};
use std::alloc::Allocator;
use vm_base::{CoreId, PageRange, Reply};

impl<M: SlotMap, H: Hardware, A: Allocator, L: Ledger> Engine<M, H, A, L> {
    // Slots of the goal, from the cursor on. A page alone is one slot, which a step locks as fast.
    fn lock_slots(&mut self, core: CoreId, goal: Goal, cursor: u64, most: u64) -> u64
        requires at { IsAt (world M.slots self.old) core (Phase.Lock goal cursor) }
        requires room { self.old.calls.events + most ≤ event_limit }
        ensures few { result ≤ most }
        ensures steps { StepsTo (world M.slots self.old) core result (world M.slots self.new) }
        ensures edges { (M.slots self.new.map).edge ≡ (M.slots self.old.map).edge }
    {
        let end = goal.range().end;
        if end - cursor == 1 {
            return 0;
        }
        let run = self.map.lock_run(core, cursor, end, most);
        if run.slots == 0 {
            return 0;
        }
        self.calls.events += run.slots;
        self.go_to(core, locked_to(goal, run.upto));
        run.slots
    }

    // Slots of what is held, from its first page on; a page alone by a step too.
    fn unlock_slots(&mut self, core: CoreId, held: PageRange, reply: Reply, most: u64) -> u64
        requires at { IsAt (world M.slots self.old) core (Phase.Unlock held reply) }
        requires room { self.old.calls.events + most ≤ event_limit }
        ensures few { result ≤ most }
        ensures steps { StepsTo (world M.slots self.old) core result (world M.slots self.new) }
        ensures edges { (M.slots self.new.map).edge ≡ (M.slots self.old.map).edge }
    {
        if held.end - held.first == 1 {
            return 0;
        }
        let run = self.map.unlock_run(core, held.first, held.end, most);
        if run.slots == 0 {
            return 0;
        }
        self.calls.events += run.slots;
        let left = held_after(held, run.upto);
        self.go_to(core, let_go(left, reply));
        run.slots
    }

    // Slots of a change, from the cursor on, or all that it does, at slots that nobody holds.
    fn lock_change(&mut self, core: CoreId, change: Change, cursor: u64, most: u64) -> u64
        requires at { IsAt (world M.slots self.old) core (Phase.Lock (GoalOf.Change change) cursor) }
        requires room { self.old.calls.events + most ≤ event_limit }
        ensures few { result ≤ most }
        ensures steps { StepsTo (world M.slots self.old) core result (world M.slots self.new) }
        ensures edges { (M.slots self.new.map).edge ≡ (M.slots self.old.map).edge }
    {
        let range = change.range();
        if range.end - range.first == 1 {
            return self.change_at_once(core, change, cursor, most);
        }
        if let Some(found) = self.find_range(core, change, cursor, most) {
            return self.range_at_once(core, change, &found);
        }
        self.lock_slots(core, Goal::Change(change), cursor, most)
    }

    // Steps from the lock of the goal's pages on: of an access, and of a change, those at the pages too.
    fn lock_at_once(&mut self, core: CoreId, goal: Goal, cursor: u64, most: u64) -> u64
        requires at { IsAt (world M.slots self.old) core (Phase.Lock goal cursor) }
        requires reached { ∥ IsReached (world M.slots self.old) ∥₁ }
        requires room { self.old.calls.events + most ≤ event_limit }
        ensures few { result ≤ most }
        ensures steps { StepsTo (world M.slots self.old) core result (world M.slots self.new) }
        ensures edges { (M.slots self.new.map).edge ≡ (M.slots self.old.map).edge }
    {
        match goal {
            Goal::Access(touch) => self.fault_at_once(core, touch, most),
            Goal::Change(change) => self.lock_change(core, change, cursor, most),
            _ => self.lock_slots(core, goal, cursor, most),
        }
    }

    /// The events of the next steps of the core's call that can be made at once, at most this many: those
    /// that lock or unlock slots which the map finds side by side, and those of a fault, or of a change,
    /// at slots that nobody holds. It answers how many they were: none where the call does something else
    /// next, or can't go on. No slot is divided by them.
    pub fn steps_at_once(&mut self, core: CoreId, most: u64) -> u64
        requires { ∥ IsReached (world M.slots self.old) ∥₁ }
        ensures few { result ≤ most }
        ensures steps { StepsTo (world M.slots self.old) core result (world M.slots self.new) }
        ensures edges { (M.slots self.new.map).edge ≡ (M.slots self.old.map).edge }
        ensures reached { ∥ IsReached (world M.slots self.new) ∥₁ }
    {
        if !self.is_here(Some(core)) {
            return 0;
        }
        let room = most.min(u64::MAX - self.calls.events);
        match self.calls.phases[core.index() as usize] {
            Phase::Lock { goal, cursor } => self.lock_at_once(core, goal, cursor, room),
            Phase::Unlock { held, reply } => self.unlock_slots(core, held, reply, room),
            _ => 0,
        }
    }
}
