//! Whether events perform calls with given replies.
ghost use Rattle.std.specs.Prelude.{◌≡◌, ◌<◌, ◌++◌, [], ℕ, IfOk, IfSome, Some, false, length, slice_get, true};
ghost use Rattle.machine_model.specs.declared.event.Event.TheVariants as EventOf;
ghost use Rattle.litmus_outcomes.specs.Performed.{PerformsScript, asks_by, said, said_by, tells_by};
ghost use Rattle.litmus_outcomes.specs.declared.performing.Due.{Due as DueOf};
ghost use Rattle.litmus_outcomes.specs.declared.performing.Stage.TheVariants.{Ahead, Begun, Over};
ghost use Rattle.litmus_outcomes.specs.Dues.{IsNextDue, dues_of, dues_said};

use crate::same::is_same_request;
use litmus_merges::Asked;
use machine_model::{Event, Outcome};
use std::alloc::Allocator;
use vm_base::{CoreId, NoMemory, Reply, Request};

/// How far a call is.
#[derive(Clone, Copy)]
pub(crate) enum Stage {
    /// It hasn't begun.
    Ahead,
    /// It has no reply yet.
    Begun,
    /// It has its reply.
    Over,
}

/// A call that is to be performed with a reply.
#[derive(Clone, Copy)]
pub(crate) struct Due {
    /// Who asks.
    pub core: CoreId,
    /// For what.
    pub request: Request,
    /// What the core is to be told.
    pub reply: Reply,
    /// How far it is.
    pub stage: Stage,
}

// The reply at a place.
fn reply_at(replies: &[Reply], k: usize) -> Reply
    requires { k < length replies.now }
    ensures { slice_get replies.now k ≡ Some result }
{
    replies[k]
}

// The calls with the replies that they are to have.
fn dues_of<A: Allocator>(
    calls: &[Asked],
    replies: &[Reply],
    alloc: A,
) -> Result<Vec<Due, A>, NoMemory>
    requires { length calls.now ≡ length replies.now }
    ensures { IfOk result (λ dues. dues.items ≡ dues_of calls.now replies.now) }
{
    let mut dues = Vec::new(alloc);
    'calls: for k in 0..calls.len() {
        let call = calls[k];
        let reply = reply_at(replies, k);
        dues.push(Due {
            core: call.core,
            request: call.request,
            reply,
            stage: Stage::Ahead,
        })?;
    }
    Ok(dues)
}

// Whether the call is of this core, and isn't over.
fn is_next(due: Due, core: CoreId) -> bool
    ensures yes { result ≡ true → due.core ≡ core }
    ensures no { result ≡ false → due.core ≡ core → due.stage ≡ Over }
{
    if due.core != core {
        return false;
    }
    match due.stage {
        Stage::Ahead | Stage::Begun => true,
        Stage::Over => false,
    }
}

// The place of the core's first call that isn't over.
fn next_due(dues: &[Due], core: CoreId) -> Option<usize>
    ensures { IfSome result (λ k. (due : DueOf) × IsNextDue dues.now core k due) }
{
    'dues: for k in 0..dues.len() {
        let due = dues[k];
        if is_next(due, core) {
            return Some(k);
        }
    }
    None
}

// Whether the call is to begin, for this.
fn can_begin(due: &Due, request: &Request) -> bool
    ensures stage { result ≡ true → due.now.stage ≡ Ahead }
    ensures request { result ≡ true → due.now.request ≡ request.now }
{
    due.stage == Stage::Ahead && is_same_request(&due.request, request)
}

// Whether two replies are the same.
fn is_same_reply(one: Reply, other: Reply) -> bool
    ensures { result ≡ true → one ≡ other }
{
    one == other
}

// Whether the call is to have this reply.
fn can_tell(due: &Due, reply: Reply) -> bool
    ensures stage { result ≡ true → due.now.stage ≡ Begun }
    ensures reply { result ≡ true → due.now.reply ≡ reply }
{
    due.stage == Stage::Begun && is_same_reply(due.reply, reply)
}

// The core begins its next call, if it is for this.
fn begin<A: Allocator>(dues: &mut Vec<Due, A>, core: CoreId, request: &Request) -> bool
    ensures { result ≡ true → (c : ℕ) → dues_said c dues.old.items
        ≡ asks_by c (EventOf.Call core request.now) ++ dues_said c dues.new.items }
{
    let Some(k) = next_due(dues.as_slice(), core) else {
        return false;
    };
    let can = can_begin(&dues[k], request);
    if !can {
        return false;
    }
    dues[k].stage = Stage::Begun;
    true
}

// The core is told this reply, if its call is to have it.
fn tell<A: Allocator>(dues: &mut Vec<Due, A>, core: CoreId, reply: Reply) -> bool
    ensures { result ≡ true → (c : ℕ) → dues_said c dues.old.items
        ≡ tells_by c (Some core) reply ++ dues_said c dues.new.items }
{
    let Some(k) = next_due(dues.as_slice(), core) else {
        return false;
    };
    let can = can_tell(&dues[k], reply);
    if !can {
        return false;
    }
    dues[k].stage = Stage::Over;
    true
}

// What an event that was Stepped says.
fn take_asked<A: Allocator>(dues: &mut Vec<Due, A>, event: Event) -> bool
    ensures { result ≡ true → (c : ℕ) → dues_said c dues.old.items
        ≡ asks_by c event ++ dues_said c dues.new.items }
{
    match event {
        Event::Call(core, request) => begin(dues, core, &request),
        Event::Go(_)
        | Event::Frame(..)
        | Event::Guess(..)
        | Event::Whole(_)
        | Event::Take(_)
        | Event::Walk(..)
        | Event::Evict(..)
        | Event::Flush(_)
        | Event::Review(_)
        | Event::Fold(_)
        | Event::GiveUp(_) => true,
    }
}

// What an event says to which a reply was handed out.
fn take_told<A: Allocator>(dues: &mut Vec<Due, A>, core: Option<CoreId>, reply: Reply) -> bool
    ensures { result ≡ true → (c : ℕ) → dues_said c dues.old.items
        ≡ tells_by c core reply ++ dues_said c dues.new.items }
{
    match core {
        Some(core) => tell(dues, core, reply),
        None => true,
    }
}

// What an event with this outcome says, if that is what is due.
fn take<A: Allocator>(dues: &mut Vec<Due, A>, event: Event, outcome: Outcome) -> bool
    ensures { result ≡ true → (c : ℕ) → dues_said c dues.old.items
        ≡ said_by c event outcome ++ dues_said c dues.new.items }
{
    match outcome {
        Outcome::Stepped => take_asked(dues, event),
        Outcome::Answered(reply) => {
            let core = event.core();
            take_told(dues, core, reply)
        }
        Outcome::Wait(_) | Outcome::Idle | Outcome::Full => true,
    }
}

// Whether the call is over.
fn is_over(due: Due) -> bool
    ensures { result ≡ true → due.stage ≡ Over }
{
    due.stage == Stage::Over
}

// Whether all calls are over.
fn are_over(dues: &[Due]) -> bool
    ensures { result ≡ true → (c : ℕ) → dues_said c dues.now ≡ [] }
{
    'dues: for k in 0..dues.len() {
        let due = dues[k];
        if !is_over(due) {
            return false;
        }
    }
    true
}

// Whether events with these outcomes say just what is due.
fn say<A: Allocator>(dues: &mut Vec<Due, A>, events: &[Event], outcomes: &[Outcome]) -> bool
    requires { length outcomes.now ≡ length events.now }
    ensures { result ≡ true → (c : ℕ) → said c events.now outcomes.now ≡ dues_said c dues.old.items }
{
    'events: for k in 0..events.len() {
        let event = events[k];
        let outcome = outcomes[k];
        if !take(dues, event, outcome) {
            return false;
        }
    }
    are_over(dues.as_slice())
}

/// Tells whether the events, which came to these outcomes, perform the calls with these replies. `Err` says that memory was refused.
pub fn perform<A: Allocator>(
    calls: &[Asked],
    replies: &[Reply],
    events: &[Event],
    outcomes: &[Outcome],
    alloc: A,
) -> Result<bool, NoMemory>
    ensures { IfOk result (λ yes. yes ≡ true → PerformsScript calls.now replies.now events.now outcomes.now) }
{
    if calls.len() != replies.len() {
        return Ok(false);
    }
    if outcomes.len() != events.len() {
        return Ok(false);
    }
    let mut dues = dues_of(calls, replies, alloc)?;
    let yes = say(&mut dues, events, outcomes);
    Ok(yes)
}
