//! The opening, event by event.
ghost use Rattle.std.specs.Prelude.{◌≡◌, ◌++◌, ◌∷◌, ℕ, List, IfOk, None, replicate};
ghost use Rattle.machine_model.specs.declared.event.Event.{Event as EventOf};
ghost use Rattle.machine_model.specs.declared.event.Event.TheVariants.{Call as CallOf, Go as GoOf};
ghost use Rattle.trace_words.specs.Declarations.{asked_fault};
ghost use Rattle.litmus_outcomes.specs.Outcomes.{AreLines, IsLine};

use crate::fault::Late;
use crate::machines::setup_of;
use crate::outcome::Opened;
use crate::{give, go_on};
use core_steps::Machine;
use machine_log::{KeepsAll, Opening};
use machine_model::{Event, Outcome, Setup};
use radix_range::RadixMap;
use slot_lock::SlotMap;
use std::alloc::Allocator;
use trace_words::declaration::Declaration;
use vm_base::{CoreId, NoMemory, Request};

// A call with its steps, if it begins.
fn call<M: SlotMap, A: Allocator + Clone>(
    machine: &mut Machine<M, A, KeepsAll<A>>,
    events: &mut Vec<Event, A>,
    core: CoreId,
    request: Request,
) -> Result<(), NoMemory>
    ensures { IfOk result (λ _. (n : ℕ) × (events.new.items ≡ events.old.items ++ CallOf core request ∷ replicate n (GoOf core))) }
{
    let outcome = give(machine, events, &Event::Call(core, request))?;
    if outcome == Outcome::Stepped {
        go_on(machine, events, core)?;
    }
    Ok(())
}

// The events of a line.
fn give_line<M: SlotMap, A: Allocator + Clone>(
    machine: &mut Machine<M, A, KeepsAll<A>>,
    events: &mut Vec<Event, A>,
    line: &Opened,
) -> Result<(), NoMemory>
    ensures { IfOk result (λ _. (first : List EventOf) × IsLine line.now first × (events.new.items ≡ events.old.items ++ first)) }
{
    match line {
        Opened::Step(event) => {
            let _outcome = give(machine, events, event)?;
            Ok(())
        }
        Opened::Whole(core, request) => call(machine, events, *core, *request),
        Opened::Finish(core) => go_on(machine, events, *core),
    }
}

// The events of all lines.
fn give_lines<M: SlotMap, A: Allocator + Clone>(
    machine: &mut Machine<M, A, KeepsAll<A>>,
    lines: &[Opened],
    alloc: A,
) -> Result<Vec<Event, A>, NoMemory>
    ensures { IfOk result (λ events. AreLines lines.now events.items) }
{
    let mut events = Vec::new(alloc);
    'lines: for k in 0..lines.len() {
        give_line(machine, &mut events, &lines[k])?;
    }
    Ok(events)
}

// A new machine.
fn make<A: Allocator + Clone + Drop>(
    alloc: &A,
    setup: Setup<A>,
) -> Result<Machine<RadixMap<A>, A, KeepsAll<A>>, Late> {
    let Ok(for_map) = alloc.clone() else {
        return Err(Late::NoMemory);
    };
    let Ok(map) = RadixMap::new(for_map) else {
        return Err(Late::NoMemory);
    };
    let Ok(own) = alloc.clone() else {
        return Err(Late::NoMemory);
    };
    match Machine::new(own, map, setup) {
        Ok(machine) => Ok(machine),
        // (the setup has no fault)
        Err(_) => Err(Late::NoMemory),
    }
}

/// The events of the opening's lines, in order: a call is its begin, and then steps until one isn't Stepped.
pub(crate) fn events_of<A: Allocator + Clone + Drop>(
    alloc: &A,
    declared: &Declaration,
    lines: &[Opened],
) -> Result<Vec<Event, A>, Late>
    requires { asked_fault declared.now ≡ None }
    ensures { IfOk result (λ events. AreLines lines.now events.items) }
{
    let setup = match setup_of(alloc, declared) {
        Ok(setup) => setup,
        Err(late) => return Err(late),
    };
    let mut machine = match make(alloc, setup) {
        Ok(machine) => machine,
        Err(late) => return Err(late),
    };
    let Ok(own) = alloc.clone() else {
        return Err(Late::NoMemory);
    };
    match give_lines(&mut machine, lines, own) {
        Ok(events) => Ok(events),
        Err(_) => Err(Late::NoMemory),
    }
}
