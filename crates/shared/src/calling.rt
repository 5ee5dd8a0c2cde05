//! What ends a whole call of a machine: the caller makes the takes of the cores that it waits for.
ghost use Rattle.std.specs.Prelude.{◌≡◌, ◌<◌};
ghost use Rattle.core_steps.specs.Machine.{state, IsLegal};
ghost use Rattle.shared.specs.Calling.{ComesTo, EndsFrom, Halts, HaltsTo, IsLetGo, LeavesHalted};
ghost use Rattle.shared.specs.Calling.{TakesPast, Wants, ended_by, is_answered};

use crate::whole::CallEnd;
use core_steps::{Finished, Machine};
use machine_log::Ledger;
use machine_model::{Event, Outcome};
use slot_lock::SlotMap;
use std::alloc::Allocator;
use vm_base::{CoreId, CoreSet};

// Ends a call that has come so far, if it isn't ended.
#[inline(always)]
pub(crate) fn call_settled<M: SlotMap, A: Allocator + Clone, L: Ledger>(
    machine: &mut Machine<M, A, L>,
    core: CoreId,
    finished: Finished,
) -> CallEnd
    requires here { core < (state machine.old).made.cores }
    requires legal { IsLegal (state machine.old) }
    ensures ends { EndsFrom (ComesTo finished) (state machine.old) core result (state machine.new) }
    ensures legal { IsLegal (state machine.new) }
{
    if is_answered(&finished) {
        return ended_by(finished);
    }
    if machine.phase(core).is_free() {
        return CallEnd::Refused;
    }
    call_waited(machine, core)
}

// Tells whether a reply was handed out.
#[inline(always)]
fn is_answered(finished: &Finished) -> bool
    ensures { result ≡ is_answered finished.now }
{
    if let Finished::Last(Outcome::Answered(_)) = finished {
        return true;
    }
    false
}

// Ends a call that waits for other cores, once these have taken what they were told.
#[inline(never)]
fn call_waited<M: SlotMap, A: Allocator + Clone, L: Ledger>(
    machine: &mut Machine<M, A, L>,
    core: CoreId,
) -> CallEnd
    ensures ends { EndsFrom Halts (state machine.old) core result (state machine.new) }
    ensures legal { IsLegal (state machine.new) }
{
    take_all(machine, core);
    match machine.finish(core) {
        Ok(finished) => ended_by(finished),
        Err(_) => call_given_up(machine, core),
    }
}

// Ends a call that was refused memory: it lets go what it holds, which takes no memory.
#[inline(never)]
pub(crate) fn call_given_up<M: SlotMap, A: Allocator + Clone, L: Ledger>(
    machine: &mut Machine<M, A, L>,
    core: CoreId,
) -> CallEnd
    ensures ends { EndsFrom Wants (state machine.old) core result (state machine.new) }
    ensures legal { IsLegal (state machine.new) }
{
    let _given_up = machine.step(Event::GiveUp(core));
    match machine.finish(core) {
        Ok(finished) => ended_by(finished),
        Err(_) => CallEnd::Spent,
    }
}

// The result of finishing a call.
#[inline(always)]
fn ended_by(finished: Finished) -> CallEnd
    ensures { result ≡ ended_by finished }
{
    if let Finished::Last(Outcome::Answered(reply)) = finished {
        return CallEnd::Reply(reply);
    }
    CallEnd::Spent
}

// The cores that the call waits for take what they were told.
fn take_all<M: SlotMap, A: Allocator + Clone, L: Ledger>(
    machine: &mut Machine<M, A, L>,
    core: CoreId,
)
    ensures lets_go { LeavesHalted IsLetGo (state machine.old) core (state machine.new) }
{
    let awaited = machine.awaited(core);
    'cores: for index in 0..64 {
        let other = CoreId::new(index);
        take_twice(machine, core, awaited, other);
    }
}

// An awaited core takes both messages that a call has for it: it clears its tables, and then its TLB.
fn take_twice<M: SlotMap, A: Allocator + Clone, L: Ledger>(
    machine: &mut Machine<M, A, L>,
    core: CoreId,
    awaited: CoreSet,
    other: CoreId,
)
    ensures takes { TakesPast awaited other (state machine.old) core (state machine.new) }
{
    if !awaited.contains(other) {
        return;
    }
    let _tables = machine.step(Event::Take(other));
    let _tlb = machine.step(Event::Take(other));
}
