//! The calls that notes answer.
ghost use Rattle.std.specs.Prelude.{◌≡◌, ◌++◌, IfOk, OnOk, length, map};
ghost use Rattle.seats.specs.Packing.{shown};
ghost use Rattle.live_script.specs.History.{begun_at, calls_of, ended_at, first_answer, history_of, timed};

use audit::Call;
use machine_model::{Event, Outcome};
use orders::Timed;
use seats::{Noted, Notes};
use std::alloc::{AllocError, Allocator};
use vm_base::{CoreId, NoMemory, Reply, Request};

/// A call that begins.
#[derive(Clone, Copy)]
pub struct Invocation {
    pub core: CoreId,
    pub request: Request,
}

/// An answer, and the ticket of its note.
#[derive(Clone, Copy)]
pub struct Response {
    pub ticket: u64,
    pub reply: Reply,
}

// The call that begins at the note.
fn begun_at(note: &Noted) -> Option<Invocation>
    ensures { result ≡ begun_at note.now }
{
    match note.event {
        Event::Call(core, request) => match note.outcome {
            Outcome::Stepped => Some(Invocation { core, request }),
            _ => None,
        },
        _ => None,
    }
}

// The answer that the note has.
fn ended_at(note: &Noted) -> Option<Response>
    ensures { result ≡ ended_at note.now.ticket note.now.outcome }
{
    match note.outcome {
        Outcome::Answered(reply) => Some(Response {
            ticket: note.ticket,
            reply,
        }),
        _ => None,
    }
}

// The first answer of notes, before another call begins.
fn first_answer(notes: Notes<'_>) -> Option<Response>
    ensures { result ≡ first_answer (shown notes.entry) }
{
    let mut rest = notes;
    'notes: while !rest.is_empty() {
        let note = rest.get(0);
        let begins = begun_at(&note).is_some();
        if begins {
            return None;
        }
        let ended = ended_at(&note);
        let answers = ended.is_some();
        if answers {
            return ended;
        }
        let more = rest.rest();
        rest = more;
    }
    None
}

// Adds a call from its beginning to its answer, where both are there.
fn add_call<A: Allocator>(
    calls: &mut Vec<Timed, A>,
    ticket: u64,
    begun: Option<Invocation>,
    ended: Option<Response>,
) -> Result<(), AllocError>
    ensures { OnOk result (calls.new.items ≡ calls.old.items ++ timed ticket begun ended) }
{
    if let Some(begun) = begun
        && let Some(ended) = ended
    {
        calls.push(Timed {
            begin: ticket,
            end: ended.ticket,
            call: Call {
                core: begun.core,
                request: begun.request,
                reply: ended.reply,
            },
        })?;
    }
    Ok(())
}

// Adds the answered calls of a core's notes.
fn add_calls<A: Allocator>(calls: &mut Vec<Timed, A>, notes: Notes<'_>) -> Result<(), AllocError>
    ensures { OnOk result (calls.new.items ≡ calls.old.items ++ calls_of (shown notes.entry)) }
{
    let mut rest = notes;
    'notes: while !rest.is_empty() {
        let note = rest.get(0);
        let more = rest.rest();
        let begun = begun_at(&note);
        let ended = first_answer(more);
        add_call(calls, note.ticket, begun, ended)?;
        rest = more;
    }
    Ok(())
}

/// The answered calls of notes of cores, one core after another, and those of a core in order of their beginnings. A call that was
/// never answered is none of them. Their memory may be refused.
pub fn history_of<A: Allocator>(alloc: A, seats: &[Notes<'_>]) -> Result<Vec<Timed, A>, NoMemory>
    ensures { IfOk result (λ calls. calls.items ≡ history_of (map shown seats.now)) }
{
    let mut calls = Vec::new(alloc);
    'seats: for at in 0..seats.len() {
        let notes = seats[at];
        add_calls(&mut calls, notes)?;
    }
    Ok(calls)
}
