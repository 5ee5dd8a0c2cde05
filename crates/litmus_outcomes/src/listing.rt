//! All that can come out.
ghost use Rattle.std.specs.Prelude.{◌≡◌, IfErr, IfOk, None, true};
ghost use Rattle.vm_base.specs.Plain.{Plain};
ghost use Rattle.frames.specs.Files.{files_of};
ghost use Rattle.machine_model.specs.Log.{LeadsTo};
ghost use Rattle.core_steps.specs.Machine.{state};
ghost use Rattle.litmus_merges.specs.Laws.{AreNamed};
ghost use Rattle.litmus_merges.specs.Nodes.{AreAll, AreOnce};
ghost use Rattle.trace_words.specs.Declarations.{asked_fault, made_by};
ghost use Rattle.litmus_outcomes.specs.Faults.{Faults};
ghost use Rattle.litmus_outcomes.specs.Leading.{AreOfLog};
ghost use Rattle.litmus_outcomes.specs.Listing.{AreListed, AreSeen, IsOf, IsSeen};
ghost use Rattle.litmus_outcomes.specs.Opening.{IsCalm};
ghost use Rattle.litmus_outcomes.specs.Outcomes.{AreLines, AreOutcomes};

use crate::fault::{Late, OutcomesFault, fault_by};
use crate::laws::finals_are_shown;
use crate::leading::lead_log;
use crate::machines::{open, setup_of};
use crate::opening::events_of;
use crate::outcome::{LitmusOutcome, Opened, Outcomes};
use crate::witnessing::{find_witness, loads_of};
use core_steps::Machine;
use frames::Objects;
use litmus_merges::{Asked, End, Explored, MapChange, are_named, explore};
use machine_log::KeepsAll;
use machine_model::{Event, Setup};
use radix_range::RadixMap;
use slot_lock::{MapLine, SlotMap};
use std::alloc::Allocator;
use trace_words::declaration::Declaration;
use vm_base::{NoMemory, Reply};

// The files that are declared.
fn objects_of<A: Allocator + Clone>(alloc: &A, declared: &Declaration) -> Result<Objects<A>, Late>
    requires { asked_fault declared.now ≡ None }
    ensures { IfOk result (λ objects. files_of objects ≡ (made_by declared.now).file) }
{
    let setup = match setup_of(alloc, declared) {
        Ok(setup) => setup,
        Err(late) => return Err(late),
    };
    let Setup {
        cores: _,
        frames: _,
        files,
        calls: _,
    } = setup;
    let Ok(own) = alloc.clone() else {
        return Err(Late::NoMemory);
    };
    let Ok(objects) = Objects::new(own, files) else {
        return Err(Late::NoMemory);
    };
    Ok(objects)
}

// The steps of the map to which the machine's log leads.
fn steps_of<M: SlotMap, A: Allocator + Clone>(
    alloc: &A,
    machine: &Machine<M, A, KeepsAll<A>>,
    objects: &Objects<A>,
) -> Result<Vec<MapChange, A>, Late>
    ensures { IfOk result (λ steps. AreOfLog objects.now (state machine.now).calls.requests
        (state machine.now).calls.log steps.items) }
{
    let Ok(own) = alloc.clone() else {
        return Err(Late::NoMemory);
    };
    match lead_log(objects, machine.requests(), machine.log(), own) {
        Ok(Some(steps)) => Ok(steps),
        Ok(None) => Err(Late::NotLed),
        Err(_) => Err(Late::NoMemory),
    }
}

// All merges of the calls, from the map to which the machine's log leads.
fn explore_from<A: Allocator + Clone + Drop>(
    alloc: &A,
    declared: &Declaration,
    machine: &Machine<RadixMap<A>, A, KeepsAll<A>>,
    calls: &[Asked],
    finals: &[u64],
    maps: bool,
    limit: usize,
) -> Result<Explored<A>, Late>
    requires fault { asked_fault declared.now ≡ None }
    requires named { AreNamed calls.now }
    requires made { (state machine.now).made ≡ made_by declared.now }
    ensures once { IfOk result (λ it. AreOnce it.ends.items) }
    ensures all { IfOk result (λ it. it.whole ≡ true → (t : Plain) → LeadsTo (state machine.now) t
        → AreAll calls.now finals.now maps t it.ends.items) }
{
    let objects = match objects_of(alloc, declared) {
        Ok(objects) => objects,
        Err(late) => return Err(late),
    };
    let steps = match steps_of(alloc, machine, &objects) {
        Ok(steps) => steps,
        Err(late) => return Err(late),
    };
    let Ok(own) = alloc.clone() else {
        return Err(Late::NoMemory);
    };
    match explore(&objects, steps.as_slice(), calls, finals, maps, limit, own) {
        Ok(it) => Ok(it),
        Err(_) => Err(Late::NoMemory),
    }
}

// The replies once more.
fn copy_of<A: Allocator + Clone>(alloc: &A, replies: &[Reply]) -> Result<Vec<Reply, A>, NoMemory>
    ensures { IfOk result (λ copy. copy.items ≡ replies.now) }
{
    let mut copy = Vec::new(alloc.clone()?);
    copy.extend_from_slice(replies)?;
    Ok(copy)
}

// The mappings once more.
fn lines_of<A: Allocator + Clone>(alloc: &A, lines: &[MapLine]) -> Result<Vec<MapLine, A>, NoMemory>
    ensures { IfOk result (λ copy. copy.items ≡ lines.now) }
{
    let mut copy = Vec::new(alloc.clone()?);
    copy.extend_from_slice(lines)?;
    Ok(copy)
}

// The outcome of an end, with its witness, if one is found.
fn outcome_of<A: Allocator + Clone + Drop>(
    alloc: &A,
    declared: &Declaration,
    first: &Machine<RadixMap<A>, A, KeepsAll<A>>,
    opening: &[Event],
    calls: &[Asked],
    loads: &[Asked],
    maps: bool,
    end: &End<A>,
) -> Result<LitmusOutcome<A>, Late>
    requires fault { asked_fault declared.now ≡ None }
    requires first { IsCalm (made_by declared.now) opening.now (state first.now) }
    ensures is { IfOk result (λ one. IsOf end.now one) }
    ensures reached { IfOk result (λ one. (t : Plain) → LeadsTo (state first.now) t
        → IsSeen (made_by declared.now) opening.now t calls.now loads.now maps one) }
{
    let witness = match find_witness(alloc, declared, first, opening, calls, loads, maps, end) {
        Ok(witness) => witness,
        Err(late) => return Err(late),
    };
    let Ok(replies) = copy_of(alloc, end.replies.as_slice()) else {
        return Err(Late::NoMemory);
    };
    let Ok(finals) = copy_of(alloc, end.finals.as_slice()) else {
        return Err(Late::NoMemory);
    };
    let Ok(lines) = lines_of(alloc, end.maps.as_slice()) else {
        return Err(Late::NoMemory);
    };
    Ok(LitmusOutcome {
        replies,
        finals,
        maps: lines,
        witness,
    })
}

// The outcomes of all ends.
fn outcomes_of<A: Allocator + Clone + Drop>(
    alloc: &A,
    declared: &Declaration,
    first: &Machine<RadixMap<A>, A, KeepsAll<A>>,
    opening: &[Event],
    calls: &[Asked],
    loads: &[Asked],
    maps: bool,
    ends: &[End<A>],
) -> Result<Vec<LitmusOutcome<A>, A>, Late>
    requires fault { asked_fault declared.now ≡ None }
    requires first { IsCalm (made_by declared.now) opening.now (state first.now) }
    ensures listed { IfOk result (λ list. AreListed ends.now list.items) }
    ensures reached { IfOk result (λ list. (t : Plain) → LeadsTo (state first.now) t
        → AreSeen (made_by declared.now) opening.now t calls.now loads.now maps list.items) }
{
    let Ok(own) = alloc.clone() else {
        return Err(Late::NoMemory);
    };
    let mut list = Vec::new(own);
    'ends: for k in 0..ends.len() {
        let one = match outcome_of(
            alloc, declared, first, opening, calls, loads, maps, &ends[k],
        ) {
            Ok(one) => one,
            Err(late) => return Err(late),
        };
        list.push(one)?;
    }
    Ok(list)
}

// What can come out on this machine, to which the opening's events led.
fn list_on<A: Allocator + Clone + Drop>(
    alloc: &A,
    declared: &Declaration,
    first: &Machine<RadixMap<A>, A, KeepsAll<A>>,
    opening: Vec<Event, A>,
    calls: &[Asked],
    finals: &[u64],
    maps: bool,
    limit: usize,
) -> Result<Outcomes<A>, Late>
    requires fault { asked_fault declared.now ≡ None }
    requires named { AreNamed calls.now }
    requires first { IsCalm (made_by declared.now) opening.items (state first.now) }
    ensures outcomes { IfOk result (λ it. AreOutcomes (made_by declared.now) calls.now finals.now maps it) }
    ensures opening { IfOk result (λ it. it.opening.items ≡ opening.items) }
{
    let explored = match explore_from(alloc, declared, first, calls, finals, maps, limit) {
        Ok(explored) => explored,
        Err(late) => return Err(late),
    };
    let Ok(own) = alloc.clone() else {
        return Err(Late::NoMemory);
    };
    let Ok(loads) = loads_of(finals, own) else {
        return Err(Late::NoMemory);
    };
    let ends = explored.ends.as_slice();
    let asked = loads.as_slice();
    let events = opening.as_slice();
    let list = match outcomes_of(alloc, declared, first, events, calls, asked, maps, ends) {
        Ok(list) => list,
        Err(late) => return Err(late),
    };
    let whole = explored.whole;
    finals_are_shown();
    Ok(Outcomes {
        opening,
        list,
        whole,
    })
}

// What can come out behind the opening's events.
fn list_behind<A: Allocator + Clone + Drop>(
    alloc: &A,
    declared: &Declaration,
    opening: Vec<Event, A>,
    calls: &[Asked],
    finals: &[u64],
    maps: bool,
    limit: usize,
) -> Result<Outcomes<A>, Late>
    requires fault { asked_fault declared.now ≡ None }
    requires named { AreNamed calls.now }
    ensures outcomes { IfOk result (λ it. AreOutcomes (made_by declared.now) calls.now finals.now maps it) }
    ensures opening { IfOk result (λ it. it.opening.items ≡ opening.items) }
{
    let events = opening.as_slice();
    let first = match open(alloc, declared, events) {
        Ok(first) => first,
        Err(late) => return Err(late),
    };
    match list_on(
        alloc,
        declared,
        &first.machine,
        opening,
        calls,
        finals,
        maps,
        limit,
    ) {
        Ok(it) => Ok(it),
        Err(late) => Err(late),
    }
}

// The same of a declaration without fault, and calls that name their places.
fn list_declared<A: Allocator + Clone + Drop>(
    alloc: &A,
    declared: &Declaration,
    opening: &[Opened],
    calls: &[Asked],
    finals: &[u64],
    maps: bool,
    limit: usize,
) -> Result<Outcomes<A>, Late>
    requires fault { asked_fault declared.now ≡ None }
    requires named { AreNamed calls.now }
    ensures outcomes { IfOk result (λ it. AreOutcomes (made_by declared.now) calls.now finals.now maps it) }
    ensures opening { IfOk result (λ it. AreLines opening.now it.opening.items) }
{
    let events = match events_of(alloc, declared, opening) {
        Ok(events) => events,
        Err(late) => return Err(late),
    };
    match list_behind(alloc, declared, events, calls, finals, maps, limit) {
        Ok(it) => Ok(it),
        Err(late) => Err(late),
    }
}

/// What can come out of these calls, where each core makes its own in order, on the machine that is declared, behind the
/// opening; what core 0 is answered that loads from the addresses in `finals` then; and, where `maps` asks for them, the mappings
/// behind these loads. Each outcome with a witness is reached by it on the machine. Where the answer is whole, no list of events
/// has other replies, nor other finals or mappings with them, unless one of them is "no frame" or "no memory". At most `limit`
/// points of merges are kept; where there are more, the answer isn't whole.
pub fn list_outcomes<A: Allocator + Clone + Drop>(
    alloc: A,
    declared: &Declaration,
    opening: &[Opened],
    calls: &[Asked],
    finals: &[u64],
    maps: bool,
    limit: usize,
) -> Result<Outcomes<A>, OutcomesFault>
    ensures outcomes { IfOk result (λ it. AreOutcomes (made_by declared.now) calls.now finals.now maps it) }
    ensures opening { IfOk result (λ it. AreLines opening.now it.opening.items) }
    ensures err { IfErr result (λ fault. Faults declared.now calls.now fault) }
{
    if !are_named(calls) {
        return Err(OutcomesFault::Placed);
    }
    if let Some(fault) = declared.fault() {
        return Err(OutcomesFault::Setup(fault));
    }
    match list_declared(&alloc, declared, opening, calls, finals, maps, limit) {
        Ok(it) => Ok(it),
        Err(late) => Err(fault_by(late)),
    }
}
