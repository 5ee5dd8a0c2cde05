//! The step that locks the pages of a call, slot by slot from left to right.
ghost use Rattle.std.specs.Prelude.{◌≡◌, ◌<◌, ◌≤◌, IfOk};
ghost use Rattle.slot_lock.specs.Plan.{IsSoundGoal, goal_range};
ghost use Rattle.machine_model.specs.Locks.{all_locked, locked_to, locking};
ghost use Rattle.machine_model.specs.Step.{Goes};
ghost use Rattle.core_steps.specs.State.{world};
ghost use Rattle.core_steps.specs.Moving.{IsAt, WantsMemory, Tries};
ghost use Rattle.core_steps.specs.Dividing.{GoesAsMap};

use crate::engine::Engine;
use machine_log::ledger::Ledger;
use machine_model::{Blocker, Outcome, Phase};
use mmu::Hardware;
use slot_lock::{Goal, Got, SlotMap};
use std::alloc::Allocator;
use vm_base::{CoreId, NoMemory};

/// All pages of the goal have to be locked, from the first on.
pub fn locking(goal: Goal) -> Phase
    requires { IsSoundGoal goal }
    ensures { result ≡ locking goal }
{
    Phase::Lock {
        goal,
        cursor: goal.range().first,
    }
}

/// Where the call goes on once the pages up to the cursor are locked.
pub fn locked_to(goal: Goal, cursor: u64) -> Phase
    requires { IsSoundGoal goal }
    ensures { result ≡ locked_to goal cursor }
{
    if cursor < goal.range().end {
        return Phase::Lock { goal, cursor };
    }
    match goal {
        Goal::Place { place, target } => Phase::Find { place, target },
        Goal::Change(change) => Phase::Decide(change),
        Goal::Access(touch) => Phase::Settle(touch),
    }
}

impl<M: SlotMap, H: Hardware, A: Allocator, L: Ledger> Engine<M, H, A, L> {
    /// One step towards holding all pages of the goal. A refusal for memory changes nothing.
    pub fn go_lock(&mut self, core: CoreId, goal: Goal, cursor: u64) -> Result<Outcome, NoMemory>
        requires { IsAt (world M.slots self.old) core (Phase.Lock goal cursor) }
        ensures row { Tries (Goes (world M.slots self.old) core (Phase.Lock goal cursor))
            (WantsMemory L.keeps (world M.slots self.old) core (Phase.Lock goal cursor))
            (world M.slots self.old) result (world M.slots self.new) }
        ensures divides { IfOk result
            (λ outcome. GoesAsMap M.parts (M.slots self.old.map) core (Phase.Lock goal cursor) outcome
            (M.slots self.new.map)) }
    {
        let end = goal.range().end;
        match self.map.lock_next(core, cursor, end)? {
            Got::Split => Ok(Outcome::Stepped),
            Got::Held(by) => Ok(Outcome::Wait(Blocker::Slot(by))),
            Got::Locked(upto) => {
                self.go_to(core, locked_to(goal, upto));
                Ok(Outcome::Stepped)
            }
        }
    }
}
