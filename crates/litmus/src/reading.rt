//! The replies that calls had.
ghost use Rattle.std.specs.Prelude.{◌≡◌, IfOk, IfSome, true};
ghost use Rattle.litmus_outcomes.specs.Performed.{PerformsScript};

use litmus_merges::Asked;
use litmus_outcomes::perform;
use machine_model::{Event, Outcome};
use std::alloc::Global;
use vm_base::{CoreId, NoMemory, Reply};

/// The reply that an event hands out to the core, if it does.
pub(crate) fn told(event: Event, outcome: Outcome, core: CoreId) -> Option<Reply> {
    let Outcome::Answered(reply) = outcome else {
        return None;
    };
    let asked = event.core()?;
    if asked.index() == core.index() {
        Some(reply)
    } else {
        None
    }
}

// The core's reply with this number, from 0.
fn reply_with_number(
    core: CoreId,
    number: usize,
    events: &[Event],
    outcomes: &[Outcome],
) -> Option<Reply> {
    let mut left = number;
    'events: for at in 0..events.len() {
        let outcome = *outcomes.get(at)?;
        if let Some(reply) = told(events[at], outcome, core) {
            if left == 0 {
                return Some(reply);
            }
            left -= 1;
        }
    }
    None
}

// How many calls of the core stand before this place.
fn calls_before(calls: &[Asked], core: CoreId, place: usize) -> usize {
    let mut count = 0usize;
    'calls: for at in 0..calls.len() {
        if at < place && calls[at].core.index() == core.index() {
            count = count.saturating_add(1);
        }
    }
    count
}

// The replies to the calls, where each has one.
fn replies_in(
    alloc: Global,
    calls: &[Asked],
    events: &[Event],
    outcomes: &[Outcome],
) -> Result<Option<Vec<Reply>>, NoMemory> {
    let mut replies = Vec::new(alloc);
    'calls: for at in 0..calls.len() {
        let core = calls[at].core;
        let number = calls_before(calls, core, at);
        let Some(reply) = reply_with_number(core, number, events, outcomes) else {
            return Ok(None);
        };
        replies.push(reply)?;
    }
    Ok(Some(replies))
}

/// The replies with which the events, which came to these outcomes, perform the calls. Nothing, where they perform none.
pub(crate) fn replies_of(
    alloc: Global,
    calls: &[Asked],
    events: &[Event],
    outcomes: &[Outcome],
) -> Result<Option<Vec<Reply>>, NoMemory>
    ensures { IfOk result (λ found. IfSome found (λ replies. PerformsScript calls.now replies.items events.now outcomes.now)) }
{
    let Some(replies) = replies_in(alloc, calls, events, outcomes)? else {
        return Ok(None);
    };
    if perform(calls, replies.as_slice(), events, outcomes, alloc)? {
        Ok(Some(replies))
    } else {
        Ok(None)
    }
}

/// Tells whether no reply says that no frame was free, or that a call was given up.
pub(crate) fn are_plain(replies: &[Reply]) -> bool {
    'replies: for at in 0..replies.len() {
        match replies[at] {
            Reply::NoFrame | Reply::NoMemory => return false,
            Reply::Mapped(_)
            | Reply::Done
            | Reply::Byte(_)
            | Reply::Refused(_)
            | Reply::Segv(_)
            | Reply::Bus => {}
        }
    }
    true
}
