//! The log, as C reads it.
ghost use Rattle.std.specs.Prelude.{◌≡◌};
ghost use Rattle.vm_base.specs.Log.{nth};
ghost use Rattle.coded.specs.Holding.{held_state};
ghost use Rattle.coded.specs.Logs.{asked_code, entry_code, told_entries, ShowsLog};

use crate::batch::{BatchEnd, LENGTH_LIMIT};
use crate::codes::{RawEvent, RawOutcome, call_code, nothing, reply_code};
use crate::held::AnyMachine;
use crate::opening::Refusal;
use vm_base::{CoreId, Entry, Request};

/// An entry of the log, as C reads it.
#[repr(C)]
#[derive(Clone, Copy, Drop)]
pub struct RawEntry {
    /// 1 where a call was answered, 2 where a page got a copy of its own.
    pub kind: u32,
    /// The core whose call was answered; else 0.
    pub core: u32,
    /// The number of the event that made the entry, from 1.
    pub step: u64,
    /// The number of the call, from 1.
    pub call: u64,
    /// The page that got the copy; else 0.
    pub page: u64,
    /// The call that was answered, as C writes it; else all 0.
    pub asked: RawEvent,
    /// Its reply; else all 0.
    pub reply: RawOutcome,
}

// The request of the call with this number, from 1.
fn request_of(requests: &[Request], call: u64) -> Option<Request>
    ensures { result ≡ nth requests.now call }
{
    if call == 0 || call > requests.len() as u64 {
        return None;
    }
    Some(requests[call as usize - 1])
}

// What C reads of the request of the core's call with this number.
fn asked_code(core: CoreId, call: u64, requests: &[Request]) -> RawEvent
    ensures { result ≡ asked_code core (nth requests.now call) }
{
    match request_of(requests, call) {
        None => nothing(),
        Some(request) => call_code(core, request),
    }
}

/// What C reads of an entry, where these are the requests of the calls in order.
pub fn entry_code(entry: &Entry, requests: &[Request]) -> RawEntry
    ensures { result ≡ entry_code requests.now entry.now }
{
    match *entry {
        Entry::Answer {
            step,
            call,
            core,
            reply,
        } => RawEntry {
            kind: 1,
            core: u32::from(core.index()),
            step,
            call,
            page: 0,
            asked: asked_code(core, call, requests),
            reply: reply_code(reply),
        },
        Entry::Detach { step, call, page } => RawEntry {
            kind: 2,
            core: 0,
            step,
            call,
            page,
            asked: nothing(),
            reply: RawOutcome { kind: 0, value: 0 },
        },
    }
}

// The entries, as far as there is room. Places without an entry stay as they were.
fn tell_entries(requests: &[Request], log: &[Entry], told: &mut [RawEntry])
    ensures { told.new ≡ told_entries requests.now log.now told.old }
{
    'entries: for at in 0..log.len().min(told.len()) {
        told[at] = entry_code(&log[at], requests);
    }
}

/// The log, as far as there is room; the count tells how many entries it has. Where none is kept, or
/// the buffer is said to be too long, nothing is told.
pub fn show_log(held: &AnyMachine, told: &mut [RawEntry]) -> Result<BatchEnd, Refusal>
    ensures { ShowsLog (held_state held.now) told.old result told.new }
{
    if told.len() as u64 > LENGTH_LIMIT {
        return Err(Refusal::TooLong);
    }
    match held {
        AnyMachine::Plain(_) => Err(Refusal::NoLog),
        AnyMachine::Logged(machine) => {
            let log = machine.log();
            tell_entries(machine.requests(), log, told);
            Ok(BatchEnd {
                stop: None,
                count: log.len(),
            })
        }
    }
}
