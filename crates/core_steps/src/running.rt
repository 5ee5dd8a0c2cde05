//! A list of events, run on a new machine.
ghost use Rattle.std.specs.Prelude.{◌≡◌, ◌≤◌, ◌<◌, ◌⊎◌, [], IfOk, IfErr, OnOk, length, vec_capacity};
ghost use Rattle.slot_lock.specs.Slots.{IsNew};
ghost use Rattle.machine_model.specs.World.{new_world};
ghost use Rattle.machine_model.specs.Step.{Run as RunsTo};
ghost use Rattle.machine_model.specs.Brackets.{IsBracketed};
ghost use Rattle.machine_model.specs.Sound.{SoundRun};
ghost use Rattle.core_steps.specs.Machine.{state};
ghost use Rattle.machine_model.specs.Setups.{IsFirstFault, made_of};
ghost use Rattle.core_steps.specs.Running.{Fails, IsRefusedAt, LogsPlainly, RunsAsMap};
ghost use Rattle.frames.specs.Given.{given_files};

use crate::machine::Machine;
use crate::run_result::{Run, RunFault};
use machine_log::ledger::{Ledger, Opening};
use machine_model::setup::{Setup, SetupFault};
use machine_model::{Event, Outcome};
use slot_lock::SlotMap;
use std::alloc::Allocator;

/// All events, in order, on a new machine over a new slot map. The outcomes and the
/// machine are handed back: each reply stands once in its log, between the event that
/// began its call and the event that handed it out. In each state of the run the log is
/// that of a plain page map (POSIX.1-2017, mmap, munmap and mprotect), each translation
/// agrees with that map, and no frame that something names is free.
///
/// A fault of the setup comes before want of memory for the list of outcomes, and that
/// before the first event. After a fault nothing is handed back.
pub fn run<M: SlotMap + Drop, A: Allocator + Clone + Drop, L: Opening<A> + Drop>(
    alloc: A,
    map: M,
    setup: Setup<A>,
    events: &[Event],
) -> Result<Run<M, A, L>, RunFault>
    requires { IsNew (M.slots map) }
    ensures run { IfOk result (λ done. RunsTo (new_world (made_of setup) (M.slots map)) events.now
        done.outcomes.items (state done.machine)) }
    ensures as_map { IfOk result (λ done. RunsAsMap M.parts M.can_fold M.folds (new_world (made_of setup)
        (M.slots map)) events.now done.outcomes.items (state done.machine)) }
    ensures all { IfOk result (λ done. length done.outcomes.items ≡ length events.now) }
    ensures plain { IfOk result (λ done. LogsPlainly (given_files setup.files.items) events.now
        done.outcomes.items (state done.machine).calls.log) }
    ensures brackets { IfOk result (λ done. IsBracketed events.now done.outcomes.items
        (state done.machine).calls.requests (state done.machine).calls.log) }
    ensures sound { IfOk result (λ done. SoundRun (new_world (made_of setup) (M.slots map)) events.now
        done.outcomes.items (state done.machine)) }
    ensures fault { IfErr result (λ fault. Fails L.keeps (new_world (made_of setup) (M.slots map)) setup events.now fault) }
{
    let Ok(own) = alloc.clone() else {
        return Err(RunFault::Setup(setup.fault().unwrap_or(SetupFault::NoMemory)));
    };
    let mut machine = match Machine::new(own, map, setup) {
        Ok(machine) => machine,
        Err(fault) => return Err(RunFault::Setup(fault)),
    };
    match outcomes_of(alloc, &mut machine, events) {
        Ok(outcomes) => Ok(Run { outcomes, machine }),
        Err(at) => Err(RunFault::NoMemory { at }),
    }
}

// The outcomes of all events, taken in order. Where one is refused for memory, its place is reported,
// and where the list of outcomes finds no room, the number of events.
fn outcomes_of<M: SlotMap, A: Allocator + Clone, L: Ledger>(
    alloc: A,
    machine: &mut Machine<M, A, L>,
    events: &[Event],
) -> Result<Vec<Outcome, A>, usize>
    ensures run { IfOk result (λ outcomes. RunsTo (state machine.old) events.now outcomes.items (state machine.new)) }
    ensures as_map { IfOk result (λ outcomes. RunsAsMap M.parts M.can_fold M.folds (state machine.old) events.now
        outcomes.items (state machine.new)) }
    ensures all { IfOk result (λ outcomes. length outcomes.items ≡ length events.now) }
    ensures err { IfErr result (λ at. ((at ≡ length events.now) × (0 < length events.now))
        ⊎ IsRefusedAt L.keeps (state machine.old) events.now at) }
{
    let Ok(mut outcomes) = Vec::with_capacity(alloc, events.len()) else {
        return Err(events.len());
    };
    match take_events(machine, events, &mut outcomes) {
        Ok(()) => Ok(outcomes),
        Err(at) => Err(at),
    }
}

// Takes all events, in order, and their outcomes into a list that has room for them. Where one is
// refused for memory, its place is reported.
fn take_events<M: SlotMap, A: Allocator + Clone, L: Ledger>(
    machine: &mut Machine<M, A, L>,
    events: &[Event],
    outcomes: &mut Vec<Outcome, A>,
) -> Result<(), usize>
    requires none { outcomes.old.items ≡ [] }
    requires room { length events.now ≤ vec_capacity outcomes.old }
    ensures run { OnOk result (RunsTo (state machine.old) events.now outcomes.new.items (state machine.new)) }
    ensures as_map { OnOk result (RunsAsMap M.parts M.can_fold M.folds (state machine.old) events.now
        outcomes.new.items (state machine.new)) }
    ensures all { OnOk result (length outcomes.new.items ≡ length events.now) }
    ensures err { IfErr result (λ at. IsRefusedAt L.keeps (state machine.old) events.now at) }
{
    'events: for at in 0..events.len() {
        let event = events[at];
        let outcome = match machine.step(event) {
            Ok(outcome) => outcome,
            Err(_) => return Err(at),
        };
        outcomes.push_reserved(outcome);
    }
    Ok(())
}
