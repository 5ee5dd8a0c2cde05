//! A machine that is given events, of which a list is kept.
ghost use Rattle.std.specs.Prelude.{◌≡◌, ◌++◌, ◌∷◌, [], ℕ, IfOk, replicate};
ghost use Rattle.machine_model.specs.declared.event.Event.TheVariants.{Go as GoOf};
ghost use Rattle.machine_model.specs.Step.{Step};
ghost use Rattle.core_steps.specs.Machine.{state};

use core_steps::Machine;
use machine_log::KeepsAll;
use machine_model::{Blocker, Event, Outcome};
use slot_lock::SlotMap;
use std::alloc::Allocator;
use vm_base::{CoreId, CoreSet, NoMemory};

/// So many steps are made of a call at the most.
const STEPS: usize = 1 << 20;

/// Gives the machine an event, and keeps it at the end of the list. After an `Err`, which says that memory was refused, the list is
/// as it was.
pub fn give<M: SlotMap, A: Allocator + Clone>(
    machine: &mut Machine<M, A, KeepsAll<A>>,
    events: &mut Vec<Event, A>,
    event: &Event,
) -> Result<Outcome, NoMemory>
    ensures kept { IfOk result (λ _. events.new.items ≡ events.old.items ++ event.now ∷ []) }
    ensures step { IfOk result (λ outcome. Step (state machine.old) event.now outcome (state machine.new)) }
{
    let outcome = machine.step(*event)?;
    events.push(*event)?;
    Ok(outcome)
}

/// Gives the machine steps of the core's call until one isn't Stepped.
pub fn go_on<M: SlotMap, A: Allocator + Clone>(
    machine: &mut Machine<M, A, KeepsAll<A>>,
    events: &mut Vec<Event, A>,
    core: CoreId,
) -> Result<(), NoMemory>
    ensures { IfOk result (λ _. (n : ℕ) × (events.new.items ≡ events.old.items ++ replicate n (GoOf core))) }
{
    'steps: for _ in 0..u64::MAX {
        let outcome = give(machine, events, &Event::Go(core))?;
        if outcome != Outcome::Stepped {
            return Ok(());
        }
    }
    Ok(())
}

// Lets each of the cores act on its message: it invalidates, and acknowledges.
fn acknowledge<M: SlotMap, A: Allocator + Clone>(
    machine: &mut Machine<M, A, KeepsAll<A>>,
    events: &mut Vec<Event, A>,
    cores: CoreSet,
) -> Result<(), NoMemory> {
    'cores: for index in 0..64u8 {
        let core = CoreId::new(index);
        if cores.contains(core) {
            give(machine, events, &Event::Take(core))?;
            give(machine, events, &Event::Take(core))?;
        }
    }
    Ok(())
}

// Lets the cores act that are waited for, if any are.
fn acknowledge_some<M: SlotMap, A: Allocator + Clone>(
    machine: &mut Machine<M, A, KeepsAll<A>>,
    events: &mut Vec<Event, A>,
    blocker: Blocker,
) -> Result<(), NoMemory> {
    match blocker {
        Blocker::Slot(_) => Ok(()),
        Blocker::Acks(cores) => acknowledge(machine, events, cores),
    }
}

// One step of the call that holds the slot, with the takes that it waits for.
fn let_go<M: SlotMap, A: Allocator + Clone>(
    machine: &mut Machine<M, A, KeepsAll<A>>,
    events: &mut Vec<Event, A>,
    holder: CoreId,
) -> Result<(), NoMemory> {
    let outcome = give(machine, events, &Event::Go(holder))?;
    match outcome {
        Outcome::Wait(blocker) => acknowledge_some(machine, events, blocker),
        Outcome::Stepped | Outcome::Idle | Outcome::Answered(_) | Outcome::Full => Ok(()),
    }
}

// Does a part of what a call waits for.
fn help<M: SlotMap, A: Allocator + Clone>(
    machine: &mut Machine<M, A, KeepsAll<A>>,
    events: &mut Vec<Event, A>,
    blocker: Blocker,
) -> Result<(), NoMemory> {
    match blocker {
        Blocker::Slot(holder) => let_go(machine, events, holder),
        Blocker::Acks(cores) => acknowledge(machine, events, cores),
    }
}

// One step of the core's call, or a part of what it waits for. `false` where the call makes no other step.
fn advance<M: SlotMap, A: Allocator + Clone>(
    machine: &mut Machine<M, A, KeepsAll<A>>,
    events: &mut Vec<Event, A>,
    core: CoreId,
) -> Result<bool, NoMemory> {
    let outcome = give(machine, events, &Event::Go(core))?;
    match outcome {
        Outcome::Stepped => Ok(true),
        Outcome::Wait(blocker) => {
            help(machine, events, blocker)?;
            Ok(true)
        }
        Outcome::Idle | Outcome::Answered(_) | Outcome::Full => Ok(false),
    }
}

/// Drives the core's call until the log has this many entries, or the call makes no other step, or made too many.
pub(crate) fn reach<M: SlotMap, A: Allocator + Clone>(
    machine: &mut Machine<M, A, KeepsAll<A>>,
    events: &mut Vec<Event, A>,
    core: CoreId,
    entries: usize,
) -> Result<(), NoMemory> {
    'steps: for _ in 0..STEPS {
        if machine.log().len() >= entries {
            return Ok(());
        }
        let goes = advance(machine, events, core)?;
        if !goes {
            return Ok(());
        }
    }
    Ok(())
}

/// Drives the core's call until it makes no other step, or made too many.
pub(crate) fn finish<M: SlotMap, A: Allocator + Clone>(
    machine: &mut Machine<M, A, KeepsAll<A>>,
    events: &mut Vec<Event, A>,
    core: CoreId,
) -> Result<(), NoMemory> {
    'steps: for _ in 0..STEPS {
        let goes = advance(machine, events, core)?;
        if !goes {
            return Ok(());
        }
    }
    Ok(())
}
