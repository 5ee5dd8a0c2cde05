//! The ways in which a machine is moved, with one who may watch each step.
ghost use Rattle.std.specs.Prelude.{◌≡◌, IfOk, OnErr};
ghost use Rattle.core_steps.specs.Finishing.{Calls, Finishes, IsCallRefused, IsRefused};
ghost use Rattle.core_steps.specs.Machine.{state};
ghost use Rattle.core_steps.specs.Moving.{JoinsAsMap, MayWant, Tries};
ghost use Rattle.machine_model.specs.Step.{Step};
ghost use Rattle.machine_model.specs.World.{World as WorldOf};
ghost use Rattle.machine_model.specs.declared.event.Event.{Event as EventOf};
ghost use Rattle.machine_model.specs.declared.event.Outcome.{Outcome as OutcomeOf};
ghost use Rattle.watched.specs.Watching.{WatchesCall, WatchesCallPart, WatchesFinish, WatchesPart};

use core_steps::{Finished, Machine};
use machine_log::Ledger;
use machine_model::{Event, Outcome};
use slot_lock::SlotMap;
use std::alloc::Allocator;
use vm_base::{CoreId, NoMemory, Request};

/// How many steps finish a call at the most.
const FINISH_LIMIT: u64 = 1 << 40;

/// One who moves a machine, each time as the machine itself would be moved, and may watch its steps.
/// Who has only `step` watches each step of a call; who doesn't watch hands calls on whole.
pub trait Watch {
    // What it may be after a step: from the one state by this event to this outcome and the other state.
    ghost after: { Self → WorldOf → EventOf → OutcomeOf → WorldOf → Self → Type 0 };

    /// One event, as by `Machine::step`. A refusal for memory changes nothing, and isn't seen.
    fn step<M: SlotMap, A: Allocator + Clone, L: Ledger>(
        &mut self,
        machine: &mut Machine<M, A, L>,
        event: Event,
    ) -> Result<Outcome, NoMemory>
        ensures step { Tries (Step (state machine.old) event)
            (MayWant L.keeps (state machine.old) event)
            (state machine.old) result (state machine.new) }
        ensures joins { IfOk result
            (λ outcome. JoinsAsMap M.can_fold M.folds (state machine.old) event outcome (state machine.new)) }
        ensures watched { IfOk result
            (λ outcome. after self.old (state machine.old) event outcome (state machine.new) self.new) }
        ensures unseen { OnErr result (self.new ≡ self.old) };

    /// Steps of the core's call until one isn't Stepped, at most 2^40, as by `Machine::finish`. After
    /// a refusal for memory the steps before it stand, and were seen.
    fn finish<M: SlotMap, A: Allocator + Clone, L: Ledger>(
        &mut self,
        machine: &mut Machine<M, A, L>,
        core: CoreId,
    ) -> Result<Finished, NoMemory>
        ensures ends { IfOk result (λ finished. Finishes (state machine.old) core finished (state machine.new)) }
        ensures err { OnErr result (IsRefused L.keeps (state machine.old) core (state machine.new)) }
        ensures watched { IfOk result (λ finished.
            WatchesFinish after self.old (state machine.old) core finished (state machine.new) self.new) }
        ensures part { OnErr result (WatchesPart after self.old (state machine.old) core (state machine.new) self.new) }
    {
        let mut n = 0u64;
        'steps: while n < FINISH_LIMIT {
            let outcome = match self.step(machine, Event::Go(core)) {
                Ok(outcome) => outcome,
                Err(refused) => return Err(refused),
            };
            if outcome != Outcome::Stepped {
                return Ok(Finished::Last(outcome));
            }
            n += 1;
        }
        Ok(Finished::Stuck)
    }

    /// A call, and if it begins its steps until one isn't Stepped, at most 2^40, as by `Machine::call`.
    /// After a refusal for memory the steps before it stand, and were seen.
    fn call<M: SlotMap, A: Allocator + Clone, L: Ledger>(
        &mut self,
        machine: &mut Machine<M, A, L>,
        core: CoreId,
        request: Request,
    ) -> Result<Finished, NoMemory>
        ensures ends { IfOk result (λ finished. Calls (state machine.old) core request finished (state machine.new)) }
        ensures err { OnErr result
            (IsCallRefused L.keeps (state machine.old) core request (state machine.new)) }
        ensures watched { IfOk result (λ finished.
            WatchesCall after self.old (state machine.old) core request finished (state machine.new) self.new) }
        ensures part { OnErr result
            (WatchesCallPart after self.old (state machine.old) core request (state machine.new) self.new) }
    {
        let outcome = match self.step(machine, Event::Call(core, request)) {
            Ok(outcome) => outcome,
            Err(refused) => return Err(refused),
        };
        if outcome != Outcome::Stepped {
            return Ok(Finished::Last(outcome));
        }
        self.finish(machine, core)
    }
}
