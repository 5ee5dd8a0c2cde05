//! Turns of calls, one after another.
use crate::driving::{finish, give, reach};
use core_steps::Machine;
use litmus_merges::Asked;
use machine_log::KeepsAll;
use machine_model::Event;
use slot_lock::SlotMap;
use std::alloc::Allocator;
use vm_base::NoMemory;

// Tells whether the place is in the order.
fn has(order: &[usize], at: usize) -> bool {
    'places: for k in 0..order.len() {
        if order[k] == at {
            return true;
        }
    }
    false
}

// Begins the call, if this is its first turn.
fn begin<M: SlotMap, A: Allocator + Clone>(
    machine: &mut Machine<M, A, KeepsAll<A>>,
    events: &mut Vec<Event, A>,
    call: &Asked,
    begins: bool,
) -> Result<(), NoMemory> {
    if !begins {
        return Ok(());
    }
    let _outcome = give(machine, events, &Event::Call(call.core, call.request))?;
    Ok(())
}

// Drives the call up to its answer, if this was its last turn.
fn end<M: SlotMap, A: Allocator + Clone>(
    machine: &mut Machine<M, A, KeepsAll<A>>,
    events: &mut Vec<Event, A>,
    call: &Asked,
    ends: bool,
) -> Result<(), NoMemory> {
    if !ends {
        return Ok(());
    }
    finish(machine, events, call.core)
}

// The turn of a call: up to its next entry in the log, from its begin on where it hasn't begun, and up to its answer where that
// is its last turn.
fn take_turn<M: SlotMap, A: Allocator + Clone>(
    machine: &mut Machine<M, A, KeepsAll<A>>,
    events: &mut Vec<Event, A>,
    call: &Asked,
    begins: bool,
    ends: bool,
) -> Result<(), NoMemory> {
    let entries = machine.log().len();
    begin(machine, events, call, begins)?;
    reach(machine, events, call.core, entries.saturating_add(1))?;
    end(machine, events, call, ends)
}

/// Events that should perform the calls by turns in this order, which names their places: the place of a store comes twice where its
/// page is copied first. A call begins at its first turn and is finished after its last; where it waits, the cores that it
/// waits for act on their messages, or the call that holds a slot makes a step. `Err` says that memory was refused.
pub fn schedule<M: SlotMap, A: Allocator + Clone>(
    machine: &mut Machine<M, A, KeepsAll<A>>,
    calls: &[Asked],
    order: &[usize],
    alloc: A,
) -> Result<Vec<Event, A>, NoMemory> {
    let mut events = Vec::new(alloc);
    'turns: for k in 0..order.len() {
        let at = order[k];
        if at < calls.len() {
            let begins = !has(&order[..k], at);
            let ends = !has(&order[k + 1..], at);
            take_turn(machine, &mut events, &calls[at], begins, ends)?;
        }
    }
    Ok(events)
}
