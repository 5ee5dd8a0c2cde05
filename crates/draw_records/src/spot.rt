//! How far a trace has come: the line of its last step, and whether the next step has the same column.
ghost use Rattle.std.specs.Prelude.{◌≡◌};
ghost use Rattle.draw_records.specs.Columns.{caller_of, cause_of, goes_on, is_part, is_waiting, last_after, last_in, waits_on};

use crate::lines::Asking;
use draw_lines::waits::Cause;
use machine_model::{Blocker, Event, Outcome};
use vm_base::CoreId;

/// What the last step was.
#[derive(Clone, Copy)]
pub enum Last {
    /// No step of a call, or its last one.
    Nothing,
    /// A step of this core's call, which isn't over.
    Went(CoreId),
    /// The same, and the call waits.
    Waits(CoreId),
}

/// How far a trace has come.
#[derive(Clone, Copy)]
pub struct Spot {
    /// How many lines that ask for steps have begun.
    pub begun: usize,
    /// The last of them.
    pub present: Asking,
    /// Whether it asks for more steps.
    pub is_within: bool,
    /// Whether the first line that is shown has begun.
    pub is_shown: bool,
    /// What the last step was.
    pub last: Last,
}

// The core whose call the event is a step of.
fn caller_of(event: &Event) -> Option<CoreId>
    ensures { result ≡ caller_of event.now }
{
    match event {
        Event::Call(core, _) => Some(*core),
        Event::Go(core) => Some(*core),
        Event::Frame(core, _) => Some(*core),
        Event::Guess(core, _) => Some(*core),
        Event::Whole(core) => Some(*core),
        Event::GiveUp(core) => Some(*core),
        Event::Take(_)
        | Event::Walk(..)
        | Event::Evict(..)
        | Event::Flush(_)
        | Event::Review(_)
        | Event::Fold(_) => None,
    }
}

// Tells whether the event is a later step of the core's call.
fn is_part(core: CoreId, event: &Event) -> bool
    ensures { result ≡ is_part core event.now }
{
    match event {
        Event::Go(other) => *other == core,
        Event::Frame(other, _) => *other == core,
        Event::Guess(other, _) => *other == core,
        Event::Whole(other) => *other == core,
        Event::GiveUp(other) => *other == core,
        Event::Call(..)
        | Event::Take(_)
        | Event::Walk(..)
        | Event::Evict(..)
        | Event::Flush(_)
        | Event::Review(_)
        | Event::Fold(_) => false,
    }
}

/// Tells whether the event is a step of the same call as the last step.
pub fn goes_on(last: Last, event: &Event) -> bool
    ensures { result ≡ goes_on last event.now }
{
    match last {
        Last::Nothing => false,
        Last::Went(core) => is_part(core, event),
        Last::Waits(core) => is_part(core, event),
    }
}

// What the last step was, if it was one of this core's call.
fn last_in(caller: Option<CoreId>, outcome: &Outcome) -> Last
    ensures { result ≡ last_in caller outcome.now }
{
    let Some(core) = caller else {
        return Last::Nothing;
    };
    match outcome {
        Outcome::Stepped => Last::Went(core),
        Outcome::Wait(_) => Last::Waits(core),
        Outcome::Idle | Outcome::Answered(_) | Outcome::Full => Last::Nothing,
    }
}

/// What the last step was, after it.
pub fn last_after(event: &Event, outcome: &Outcome) -> Last
    ensures { result ≡ last_after event.now outcome.now }
{
    let caller = caller_of(event);
    last_in(caller, outcome)
}

// Tells whether the last step was one of a call that waits, and the event is its next.
fn is_waiting(last: Last, event: &Event) -> bool
    ensures { result ≡ is_waiting last event.now }
{
    match last {
        Last::Waits(core) => is_part(core, event),
        Last::Nothing | Last::Went(_) => false,
    }
}

/// Tells whether the step is again one of a call that waited before it, in the same column.
pub fn waits_on(last: Last, event: &Event, outcome: &Outcome) -> bool
    ensures { result ≡ waits_on last event.now outcome.now }
{
    match outcome {
        Outcome::Wait(_) => is_waiting(last, event),
        Outcome::Stepped | Outcome::Idle | Outcome::Answered(_) | Outcome::Full => false,
    }
}

/// Why a call waits.
pub fn cause_of(blocker: Blocker) -> Cause
    ensures { result ≡ cause_of blocker }
{
    match blocker {
        Blocker::Slot(core) => Cause::Lock(core),
        Blocker::Acks(cores) => Cause::Acks(cores),
    }
}
