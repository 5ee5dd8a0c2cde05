//! Events that perform the calls with given replies.
ghost use Rattle.std.specs.Prelude.{◌≡◌, ◌++◌, IfOk, IfSome, None, true};
ghost use Rattle.vm_base.specs.Plain.{Plain};
ghost use Rattle.litmus_merges.specs.Finals.{loads_by};
ghost use Rattle.machine_model.specs.World.{World};
ghost use Rattle.machine_model.specs.Log.{LeadsTo};
ghost use Rattle.core_steps.specs.Machine.{state};
ghost use Rattle.trace_words.specs.Declarations.{asked_fault, made_by};
ghost use Rattle.litmus_outcomes.specs.Opening.{IsCalm};
ghost use Rattle.litmus_outcomes.specs.Outcomes.{HasMaps, IsWitness, Performs};

use crate::fault::Late;
use crate::machines::{are_alike, give_all, open};
use crate::performing::perform;
use crate::schedule;
use core_steps::Machine;
use litmus_merges::{Asked, End, are_same_maps};
use machine_log::KeepsAll;
use machine_model::Event;
use radix_range::RadixMap;
use slot_lock::{MapLine, SlotMap};
use std::alloc::Allocator;
use trace_words::declaration::Declaration;
use vm_base::{CoreId, NoMemory, Reply, Request};

// Events that should perform calls, and loads behind them.
#[derive(Drop)]
struct Tried<A: Allocator> {
    calls: Vec<Event, A>,
    loads: Vec<Event, A>,
}

/// Loads of these addresses by core 0, one after another.
pub(crate) fn loads_of<A: Allocator>(addrs: &[u64], alloc: A) -> Result<Vec<Asked, A>, NoMemory>
    ensures { IfOk result (λ loads. loads.items ≡ loads_by 0 addrs.now) }
{
    let mut loads = Vec::new(alloc);
    'addrs: for k in 0..addrs.len() {
        let addr = addrs[k];
        loads.push(Asked {
            core: CoreId::new(0),
            request: Request::Load { addr },
        })?;
    }
    Ok(loads)
}

// The first so many places.
fn places_of<A: Allocator>(count: usize, alloc: A) -> Result<Vec<usize, A>, NoMemory> {
    let mut places = Vec::new(alloc);
    'places: for k in 0..count {
        places.push(k)?;
    }
    Ok(places)
}

// Events that should perform the calls by turns in this order, and then the loads.
fn schedule_both<M: SlotMap, A: Allocator + Clone>(
    machine: &mut Machine<M, A, KeepsAll<A>>,
    calls: &[Asked],
    order: &[usize],
    loads: &[Asked],
    alloc: &A,
) -> Result<Tried<A>, NoMemory> {
    let first = schedule(machine, calls, order, alloc.clone()?)?;
    let places = places_of(loads.len(), alloc.clone()?)?;
    let later = schedule(machine, loads, places.as_slice(), alloc.clone()?)?;
    Ok(Tried {
        calls: first,
        loads: later,
    })
}

// The same on a machine that is opened for it.
fn scheduled<A: Allocator + Clone + Drop>(
    alloc: &A,
    declared: &Declaration,
    opening: &[Event],
    calls: &[Asked],
    order: &[usize],
    loads: &[Asked],
) -> Result<Tried<A>, Late>
    requires { asked_fault declared.now ≡ None }
{
    let mut done = match open(alloc, declared, opening) {
        Ok(done) => done,
        Err(late) => return Err(late),
    };
    match schedule_both(&mut done.machine, calls, order, loads, alloc) {
        Ok(tried) => Ok(tried),
        Err(_) => Err(Late::NoMemory),
    }
}

// Whether a machine performs the calls with these replies by these events.
fn does<M: SlotMap, A: Allocator + Clone>(
    machine: &mut Machine<M, A, KeepsAll<A>>,
    calls: &[Asked],
    replies: &[Reply],
    events: &[Event],
    alloc: &A,
) -> Result<bool, NoMemory>
    ensures { IfOk result (λ yes. yes ≡ true
        → Performs calls.now replies.now (state machine.old) events.now (state machine.new)) }
{
    let results = give_all(machine, events, alloc.clone()?)?;
    let yes = perform(calls, replies, events, results.as_slice(), alloc.clone()?)?;
    Ok(yes)
}

// Whether these are all mappings of the machine, where they are asked for; and else whether there are none.
fn has_maps<M: SlotMap, A: Allocator + Clone>(
    machine: &Machine<M, A, KeepsAll<A>>,
    maps: bool,
    lines: &[MapLine],
    alloc: &A,
) -> Result<bool, NoMemory>
    ensures { IfOk result (λ yes. yes ≡ true → HasMaps maps (state machine.now) lines.now) }
{
    if !maps {
        return Ok(are_same_maps(lines, &[]));
    }
    let all = machine.plain_maps(alloc.clone()?)?;
    Ok(are_same_maps(all.as_slice(), lines))
}

// Whether it performs the calls with the end's replies, and then the loads with its finals, and has its mappings then.
fn does_both<M: SlotMap, A: Allocator + Clone>(
    machine: &mut Machine<M, A, KeepsAll<A>>,
    calls: &[Asked],
    loads: &[Asked],
    maps: bool,
    end: &End<A>,
    tried: &Tried<A>,
    alloc: &A,
) -> Result<bool, NoMemory>
    ensures { IfOk result (λ yes. yes ≡ true → (mid : World)
        × Performs calls.now end.now.replies.items (state machine.old) tried.now.calls.items mid
        × Performs loads.now end.now.finals.items mid tried.now.loads.items (state machine.new)
        × HasMaps maps (state machine.new) end.now.maps.items) }
{
    let replies = end.replies.as_slice();
    let first = tried.calls.as_slice();
    let performs = does(machine, calls, replies, first, alloc)?;
    if !performs {
        return Ok(false);
    }
    let finals = end.finals.as_slice();
    let later = tried.loads.as_slice();
    let shows = does(machine, loads, finals, later, alloc)?;
    if !shows {
        return Ok(false);
    }
    let lines = end.maps.as_slice();
    let mapped = has_maps(machine, maps, lines, alloc)?;
    Ok(mapped)
}

// Whether these events do so on a machine that is opened once more.
fn is_witness<A: Allocator + Clone + Drop>(
    alloc: &A,
    declared: &Declaration,
    first: &Machine<RadixMap<A>, A, KeepsAll<A>>,
    opening: &[Event],
    calls: &[Asked],
    loads: &[Asked],
    maps: bool,
    end: &End<A>,
    tried: &Tried<A>,
) -> Result<bool, Late>
    requires fault { asked_fault declared.now ≡ None }
    requires first { IsCalm (made_by declared.now) opening.now (state first.now) }
    ensures { IfOk result (λ yes. yes ≡ true → (t : Plain) → LeadsTo (state first.now) t
        → IsWitness (made_by declared.now) opening.now t calls.now loads.now maps end.now.replies.items end.now.finals.items
        end.now.maps.items (tried.now.calls.items ++ tried.now.loads.items)) }
{
    let mut done = match open(alloc, declared, opening) {
        Ok(done) => done,
        Err(late) => return Err(late),
    };
    if !are_alike(first, &done.machine) {
        return Ok(false);
    }
    match does_both(&mut done.machine, calls, loads, maps, end, tried, alloc) {
        Ok(yes) => Ok(yes),
        Err(_) => Err(Late::NoMemory),
    }
}

// All events.
fn joined<A: Allocator>(tried: Tried<A>) -> Result<Vec<Event, A>, NoMemory>
    ensures { IfOk result (λ events. events.items ≡ tried.calls.items ++ tried.loads.items) }
{
    let Tried { calls, loads } = tried;
    let mut events = calls;
    events.extend_from_slice(loads.as_slice())?;
    Ok(events)
}

/// Events behind the opening's that perform the calls with the end's replies, and then the loads with its finals, and leave its
/// mappings, if they were found.
pub(crate) fn find_witness<A: Allocator + Clone + Drop>(
    alloc: &A,
    declared: &Declaration,
    first: &Machine<RadixMap<A>, A, KeepsAll<A>>,
    opening: &[Event],
    calls: &[Asked],
    loads: &[Asked],
    maps: bool,
    end: &End<A>,
) -> Result<Option<Vec<Event, A>>, Late>
    requires fault { asked_fault declared.now ≡ None }
    requires first { IsCalm (made_by declared.now) opening.now (state first.now) }
    ensures { IfOk result (λ found. IfSome found (λ events. (t : Plain) → LeadsTo (state first.now) t
        → IsWitness (made_by declared.now) opening.now t calls.now loads.now maps end.now.replies.items end.now.finals.items
        end.now.maps.items events.items)) }
{
    let tried = match scheduled(alloc, declared, opening, calls, end.order.as_slice(), loads) {
        Ok(tried) => tried,
        Err(late) => return Err(late),
    };
    let yes = match is_witness(
        alloc, declared, first, opening, calls, loads, maps, end, &tried,
    ) {
        Ok(yes) => yes,
        Err(late) => return Err(late),
    };
    if !yes {
        return Ok(None);
    }
    match joined(tried) {
        Ok(events) => Ok(Some(events)),
        Err(_) => Err(Late::NoMemory),
    }
}
