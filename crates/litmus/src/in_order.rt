//! Calls that are performed one after another.
ghost use Rattle.std.specs.Prelude.{◌≡◌, IfOk, true};
ghost use Rattle.litmus.specs.Runs.{PerformsInOrder};

use crate::reading::{replies_of, told};
use litmus_merges::Asked;
use litmus_outcomes::perform;
use machine_model::{Event, Outcome};
use std::alloc::Global;
use vm_base::{CoreId, NoMemory};

// How many events there are up to the core's first reply.
fn events_to_reply(core: CoreId, events: &[Event], outcomes: &[Outcome]) -> Option<usize> {
    'events: for at in 0..events.len() {
        let outcome = *outcomes.get(at)?;
        if told(events[at], outcome, core).is_some() {
            return Some(at + 1);
        }
    }
    None
}

/// Tells whether the events, which came to these outcomes, perform the calls, one after another.
pub(crate) fn perform_in_order(
    alloc: Global,
    calls: &[Asked],
    events: &[Event],
    outcomes: &[Outcome],
) -> Result<bool, NoMemory>
    ensures { IfOk result (λ yes. yes ≡ true → PerformsInOrder calls.now events.now outcomes.now) }
{
    let mut rest = events;
    let mut others = outcomes;
    'calls: for at in 0..calls.len() {
        let call = calls[at];
        let Some(count) = events_to_reply(call.core, rest, others) else {
            return Ok(false);
        };
        if count > rest.len() || count > others.len() {
            return Ok(false);
        }
        let (first, later) = rest.split_at(count);
        let (came, left) = others.split_at(count);
        let Some(_replies) = replies_of(alloc, &[call], first, came)? else {
            return Ok(false);
        };
        rest = later;
        others = left;
    }
    let yes = perform(&[], &[], rest, others, alloc)?;
    Ok(yes)
}
