//! Machines that the opening's events lead to.
ghost use Rattle.std.specs.Prelude.{◌≡◌, ℕ, ◌<◌, IfOk, IfNone, None, false, true};
ghost use Rattle.machine_model.specs.declared.phase.Phase.TheVariants.{Free};
ghost use Rattle.machine_model.specs.Step.{Run as RunsTo};
ghost use Rattle.core_steps.specs.Machine.{state};
ghost use Rattle.machine_model.specs.Setups.{fault_of, made_of};
ghost use Rattle.trace_words.specs.Declarations.{asked_fault, made_by};
ghost use Rattle.litmus_outcomes.specs.Opening.{AreAlike, IsCalm, IsRun};

use crate::fault::Late;
use crate::same::is_same_request;
use core_steps::{Machine, Run, run};
use machine_log::KeepsAll;
use machine_model::{Event, Outcome, Setup};
use radix_range::RadixMap;
use slot_lock::SlotMap;
use std::alloc::Allocator;
use trace_words::declaration::Declaration;
use vm_base::{CoreId, Entry, NoMemory, Request};

/// The setup that is declared.
pub(crate) fn setup_of<A: Allocator + Clone>(
    alloc: &A,
    declared: &Declaration,
) -> Result<Setup<A>, Late>
    requires { asked_fault declared.now ≡ None }
    ensures made { IfOk result (λ setup. made_of setup ≡ made_by declared.now) }
    ensures sound { IfOk result (λ setup. fault_of setup ≡ None) }
{
    let Ok(own) = alloc.clone() else {
        return Err(Late::NoMemory);
    };
    let Ok(setup) = declared.setup(own) else {
        return Err(Late::NoMemory);
    };
    Ok(setup)
}

// A new machine that was given the events.
fn run_all<A: Allocator + Clone + Drop>(
    alloc: &A,
    setup: Setup<A>,
    events: &[Event],
) -> Result<Run<RadixMap<A>, A, KeepsAll<A>>, Late>
    requires { fault_of setup ≡ None }
    ensures { IfOk result (λ done. IsRun (made_of setup) events.now (state done.machine)) }
{
    let Ok(for_map) = alloc.clone() else {
        return Err(Late::NoMemory);
    };
    let Ok(map) = RadixMap::new(for_map) else {
        return Err(Late::NoMemory);
    };
    let Ok(own) = alloc.clone() else {
        return Err(Late::NoMemory);
    };
    match run(own, map, setup, events) {
        Ok(done) => Ok(done),
        // (the setup has no fault)
        Err(_) => Err(Late::NoMemory),
    }
}

// Whether it is a core of the machine, and has a call.
fn has_call<M: SlotMap, A: Allocator + Clone>(
    machine: &Machine<M, A, KeepsAll<A>>,
    core: CoreId,
) -> bool
    ensures { result ≡ false → core < (state machine.now).made.cores → (state machine.now).calls.phase core ≡ Free }
{
    if core.index() as usize >= machine.cores() {
        return false;
    }
    let phase = machine.phase(core);
    !phase.is_free()
}

// The first core that has a call.
fn first_open<M: SlotMap, A: Allocator + Clone>(
    machine: &Machine<M, A, KeepsAll<A>>,
) -> Option<CoreId>
    ensures { IfNone result ((c : ℕ) → c < 64 → c < (state machine.now).made.cores
        → (state machine.now).calls.phase c ≡ Free) }
{
    'cores: for index in 0..64u8 {
        let core = CoreId::new(index);
        if has_call(machine, core) {
            return Some(core);
        }
    }
    None
}

/// A new machine that was given the opening's events, and on which no core has a call then.
pub(crate) fn open<A: Allocator + Clone + Drop>(
    alloc: &A,
    declared: &Declaration,
    events: &[Event],
) -> Result<Run<RadixMap<A>, A, KeepsAll<A>>, Late>
    requires { asked_fault declared.now ≡ None }
    ensures { IfOk result (λ done. IsCalm (made_by declared.now) events.now (state done.machine)) }
{
    let setup = match setup_of(alloc, declared) {
        Ok(setup) => setup,
        Err(late) => return Err(late),
    };
    let done = match run_all(alloc, setup, events) {
        Ok(done) => done,
        Err(late) => return Err(late),
    };
    if let Some(core) = first_open(&done.machine) {
        return Err(Late::Open(core));
    }
    Ok(done)
}

// Whether two entries are the same.
fn is_same_entry(one: Entry, other: Entry) -> bool
    ensures { result ≡ true → one ≡ other }
{
    one == other
}

// Whether two lists of requests are the same.
fn are_same_requests(one: &[Request], other: &[Request]) -> bool
    ensures { result ≡ true → one.now ≡ other.now }
{
    if one.len() != other.len() {
        return false;
    }
    'requests: for k in 0..one.len() {
        if !is_same_request(&one[k], &other[k]) {
            return false;
        }
    }
    true
}

// Whether two logs are the same.
fn are_same_entries(one: &[Entry], other: &[Entry]) -> bool
    ensures { result ≡ true → one.now ≡ other.now }
{
    if one.len() != other.len() {
        return false;
    }
    'entries: for k in 0..one.len() {
        let entry = one[k];
        let same = other[k];
        if !is_same_entry(entry, same) {
            return false;
        }
    }
    true
}

/// Tells whether two machines have begun the same calls, and have the same log.
pub(crate) fn are_alike<M: SlotMap, A: Allocator + Clone>(
    one: &Machine<M, A, KeepsAll<A>>,
    other: &Machine<M, A, KeepsAll<A>>,
) -> bool
    ensures { result ≡ true → AreAlike (state one.now) (state other.now) }
{
    let same = are_same_requests(one.requests(), other.requests());
    let alike = are_same_entries(one.log(), other.log());
    same && alike
}

/// Gives the machine the events, in order, and hands back what they came to. `Err` says that memory was refused.
pub(crate) fn give_all<M: SlotMap, A: Allocator + Clone>(
    machine: &mut Machine<M, A, KeepsAll<A>>,
    events: &[Event],
    alloc: A,
) -> Result<Vec<Outcome, A>, NoMemory>
    ensures { IfOk result (λ results. RunsTo (state machine.old) events.now results.items (state machine.new)) }
{
    let mut results = Vec::new(alloc);
    'events: for at in 0..events.len() {
        let event = events[at];
        let outcome = machine.step(event)?;
        results.push(outcome)?;
    }
    Ok(results)
}
