//! What C asks of a machine that it holds.
ghost use Rattle.std.specs.Prelude.{◌≡◌, None, IfOk, IfErr};
ghost use Rattle.core_steps.specs.Machine.{state};
ghost use Rattle.coded.specs.Opening.{Refuses, fault_of};
ghost use Rattle.coded.specs.Maps.{ListsOn};
ghost use Rattle.coded.specs.Holding.{held_state, OpensHeld, TakesOn, TakesItemOn};
ghost use Rattle.coded.specs.Holding.{RunsOn, CallsOn, taken_code, entry_of};

use crate::batch::{
    BatchEnd, BatchStop, make_items, refusal_of, run_events, stop_code, take_event, take_item,
};
use crate::codes::{RawEvent, RawOutcome, core_of};
use crate::held::AnyMachine;
use crate::maps::{RawLine, list_maps};
use crate::opening::{LoggedSpace, RawFile, RawSetup, Refusal, Unlogged, open};
use core_steps::Machine;
use machine_log::Ledger;
use slot_lock::SlotMap;
use std::alloc::{Allocator, Global};
use vm_base::is_valid;

/// A new machine, which keeps its log where C asked for that. At an error nothing is made.
pub fn open_held(
    alloc: Global,
    setup: &RawSetup,
    files: &[RawFile],
    bytes: &[u8],
) -> Result<AnyMachine, Refusal>
    ensures ok { IfOk result (λ held. OpensHeld setup.now files.now bytes.now (held_state held)) }
    ensures well { IfOk result (λ held. fault_of setup.now files.now ≡ None) }
    ensures err { IfErr result (λ refusal. Refuses setup.now files.now bytes.now refusal) }
{
    if setup.log == 0 {
        let machine: Unlogged = open(alloc, setup, files, bytes)?;
        return Ok(AnyMachine::Plain(machine));
    }
    let machine: LoggedSpace = open(alloc, setup, files, bytes)?;
    Ok(AnyMachine::Logged(machine))
}

/// One event. Where it isn't taken, nothing changes.
pub fn take_event_on(
    held: &mut AnyMachine,
    raw: &RawEvent,
    told: &mut RawOutcome,
) -> Result<(), BatchStop>
    ensures { TakesOn (held_state held.old) raw.now told.old result told.new (held_state held.new) }
{
    match held {
        AnyMachine::Plain(machine) => take_event(machine, raw, told),
        AnyMachine::Logged(machine) => take_event(machine, raw, told),
    }
}

/// One item. Where it isn't made, `told` stays as it was.
pub fn take_item_on(
    held: &mut AnyMachine,
    raw: &RawEvent,
    told: &mut RawOutcome,
) -> Result<(), BatchStop>
    ensures { TakesItemOn (held_state held.old) raw.now told.old result told.new (held_state held.new) }
{
    match held {
        AnyMachine::Plain(machine) => take_item(machine, raw, told),
        AnyMachine::Logged(machine) => take_item(machine, raw, told),
    }
}

/// More events. After a refusal none was taken, and `told` is unchanged.
pub fn run_on(
    held: &mut AnyMachine,
    raws: &[RawEvent],
    told: &mut [RawOutcome],
) -> Result<BatchEnd, Refusal>
    ensures { RunsOn (held_state held.old) raws.now told.old result told.new (held_state held.new) }
{
    if let Some(refusal) = refusal_of(0, 0, raws.len(), told.len()) {
        return Err(refusal);
    }
    match held {
        AnyMachine::Plain(machine) => Ok(run_events(machine, raws, told)),
        AnyMachine::Logged(machine) => Ok(run_events(machine, raws, told)),
    }
}

/// More items. After a refusal none was made, and `told` is unchanged.
pub fn calls_on(
    held: &mut AnyMachine,
    raws: &[RawEvent],
    told: &mut [RawOutcome],
) -> Result<BatchEnd, Refusal>
    ensures { CallsOn (held_state held.old) raws.now told.old result told.new (held_state held.new) }
{
    if let Some(refusal) = refusal_of(0, 0, raws.len(), told.len()) {
        return Err(refusal);
    }
    match held {
        AnyMachine::Plain(machine) => Ok(make_items(machine, raws, told)),
        AnyMachine::Logged(machine) => Ok(make_items(machine, raws, told)),
    }
}

/// What C reads of one event: 0 where it was taken.
pub fn taken_code(taken: Result<(), BatchStop>) -> u32
    ensures { result ≡ taken_code taken }
{
    match taken {
        Ok(()) => 0,
        Err(stop) => stop_code(Some(stop)),
    }
}

/// How many cores the machine has.
pub fn cores_of(held: &AnyMachine) -> u64
    ensures { result ≡ (held_state held.now).world.made.cores }
{
    match held {
        AnyMachine::Plain(machine) => machine.cores() as u64,
        AnyMachine::Logged(machine) => machine.cores() as u64,
    }
}

fn entry_in<M: SlotMap, A: Allocator + Clone, L: Ledger>(
    machine: &Machine<M, A, L>,
    core: u32,
    page: u64,
) -> Option<u64>
    ensures { result ≡ entry_of (state machine.now) core page }
{
    let core = core_of(core)?;
    if core.index() as usize >= machine.cores() || !is_valid(page) {
        return None;
    }
    Some(machine.entry(core, page).unwrap_or(0))
}

/// The word that the core's tables have for the page, 0 where they have none, if the machine has the
/// core, and there is such a page.
pub fn entry_of(held: &AnyMachine, core: u32, page: u64) -> Option<u64>
    ensures { result ≡ entry_of (held_state held.now).world core page }
{
    match held {
        AnyMachine::Plain(machine) => entry_in(machine, core, page),
        AnyMachine::Logged(machine) => entry_in(machine, core, page),
    }
}

/// All mappings, as far as there is room; the count tells how many there are. Where memory is refused,
/// or the buffer is said to be too long, nothing is told.
pub fn maps_of(alloc: Global, held: &AnyMachine, told: &mut [RawLine]) -> Result<BatchEnd, Refusal>
    ensures { ListsOn (held_state held.now).world told.old result told.new }
{
    match held {
        AnyMachine::Plain(machine) => list_maps(alloc, machine, told),
        AnyMachine::Logged(machine) => list_maps(alloc, machine, told),
    }
}
