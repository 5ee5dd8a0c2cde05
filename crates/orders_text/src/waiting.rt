//! Calls that wait when a text ends. They may have taken effect, and had any reply.
ghost use Rattle.std.specs.Prelude.{◌≡◌, ◌<◌, ◌++◌, IfOk, OnOk};
ghost use Rattle.orders_text.specs.History.{completed, left_open, replies_in};
ghost use Rattle.orders_text.specs.Steps.{HasPlaces, read_of};

use crate::clock::{PendingCall, between};
use crate::reading::History;
use audit::Call;
use orders::Timed;
use std::alloc::Allocator;
use vm_base::{CoreId, NoMemory, Reply};

/// How many cores a space may have.
const CORES: usize = 64;

/// The last line that a text may have.
const LAST_LINE: u64 = 0x3fff_ffff_ffff_ffff;

// A core's reply in a list.
fn reply_of(replies: &[Reply], core: usize) -> Reply
    ensures { result ≡ replies_in replies.now core }
{
    match replies.get(core) {
        Some(reply) => *reply,
        None => Reply::NoMemory,
    }
}

// Adds a core's call with this reply, if it waits.
fn push_open<A: Allocator>(
    calls: &mut Vec<Timed, A>,
    core: usize,
    waits: Option<PendingCall>,
    reply: Reply,
) -> Result<(), NoMemory>
    requires { core < 64 }
    ensures { OnOk result (calls.new.items ≡ calls.old.items ++ left_open core waits reply) }
{
    let Some(begun) = waits else {
        return Ok(());
    };
    let call = Call {
        core: CoreId::new(core as u8),
        request: begun.request,
        reply,
    };
    let Some(timed) = between(begun.line, LAST_LINE, call) else {
        // (this never comes, since no text has so many lines)
        return Err(NoMemory);
    };
    calls.push(timed)?;
    Ok(())
}

/// The calls of a history, and behind them those that wait when its text ends, with the reply of each core: they end behind all others.
pub fn completed<A: Allocator + Clone + Drop>(
    alloc: &A,
    history: &History<A>,
    replies: &[Reply],
) -> Result<Vec<Timed, A>, NoMemory>
    requires { HasPlaces history.now }
    ensures { IfOk result (λ calls. calls.items ≡ completed (replies_in replies.now) (read_of history.now)) }
{
    let mut calls = Vec::new(alloc.clone()?);
    calls.extend_from_slice(history.calls.as_slice())?;
    let mut core = 0;
    'cores: while core < CORES {
        let waits = history.waiting[core];
        let reply = reply_of(replies, core);
        push_open(&mut calls, core, waits, reply)?;
        core += 1;
    }
    Ok(calls)
}
