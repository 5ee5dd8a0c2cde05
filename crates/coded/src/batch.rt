//! Batches: many events, or whole calls, on one machine.
ghost use Rattle.std.specs.Prelude.{◌≡◌, ◌≤◌, length};
ghost use Rattle.core_steps.specs.Machine.{state, IsLegal};
ghost use Rattle.coded.specs.Batches.{Takes, MakesOne, MakesRaw, TakesItem, RunsFirst, StopsAt, MakesUntil};
ghost use Rattle.coded.specs.Batches.{RunsBatch, CallsBatch, refusal_of, fault_code, stop_code, refusal_done, done_of};

use crate::codes::{
    BatchItem, RawEvent, RawOutcome, core_of, event_of, finished_code, item_of, outcome_code,
    store_of,
};
use crate::opening::{RawFile, RawSetup, Refusal, Unlogged, open};
use core_steps::{Finished, Machine};
use machine_log::Ledger;
use machine_model::{Event, SetupFault};
use slot_lock::SlotMap;
use std::alloc::{Allocator, Global};
use vm_base::{NoMemory, Request};

/// Why a batch stopped before its end.
#[derive(Clone, Copy)]
pub enum BatchStop {
    /// The next event is none: its kind, its core, a bit or a byte is out of range.
    BadEvent,
    /// Memory was refused to the next event.
    NoMemory,
}

/// How far a batch went.
#[derive(Clone, Copy)]
pub struct BatchEnd {
    /// Why it stopped, where it did.
    pub stop: Option<BatchStop>,
    /// How many events were taken, and told.
    pub count: usize,
}

/// One event. Where it isn't taken, nothing changes.
pub fn take_event<M: SlotMap, A: Allocator + Clone, L: Ledger>(
    machine: &mut Machine<M, A, L>,
    raw: &RawEvent,
    told: &mut RawOutcome,
) -> Result<(), BatchStop>
    ensures { Takes L.keeps (state machine.old) raw.now told.old result told.new (state machine.new) }
{
    let Some(event) = event_of(raw) else {
        return Err(BatchStop::BadEvent);
    };
    let Ok(outcome) = machine.step(event) else {
        return Err(BatchStop::NoMemory);
    };
    *told = outcome_code(outcome);
    Ok(())
}

/// The events, one after another, as far as they can be taken. The result of each is written in its
/// place.
pub fn run_events<M: SlotMap, A: Allocator + Clone, L: Ledger>(
    machine: &mut Machine<M, A, L>,
    raws: &[RawEvent],
    told: &mut [RawOutcome],
) -> BatchEnd
    requires { length raws.now ≤ length told.old }
    ensures runs { RunsFirst (state machine.old) raws.now result.count told.old told.new
        (state machine.new) }
    ensures stops { StopsAt L.keeps raws.now result.stop result.count (state machine.new) }
{
    'events: for at in 0..raws.len() {
        match take_event(machine, &raws[at], &mut told[at]) {
            Ok(()) => {}
            Err(stop) => {
                return BatchEnd {
                    stop: Some(stop),
                    count: at,
                };
            }
        }
    }
    BatchEnd {
        stop: None,
        count: raws.len(),
    }
}

/// The code of a load.
const LOAD: u32 = 4;

/// The code of a store.
const STORE: u32 = 5;

/// The code of a fetch.
const FETCH: u32 = 6;

// What an item does.
#[inline(always)]
fn make<M: SlotMap, A: Allocator + Clone, L: Ledger>(
    machine: &mut Machine<M, A, L>,
    item: BatchItem,
) -> Result<Finished, NoMemory>
    ensures makes { MakesOne L.keeps (state machine.old) item result (state machine.new) }
    ensures legal { IsLegal (state machine.new) }
{
    match item {
        BatchItem::Call(core, request) => machine.call(core, request),
        BatchItem::Finish(core) => machine.finish(core),
        BatchItem::Step(event) => step(machine, event),
    }
}

#[inline(always)]
fn step<M: SlotMap, A: Allocator + Clone, L: Ledger>(
    machine: &mut Machine<M, A, L>,
    event: Event,
) -> Result<Finished, NoMemory>
    ensures makes { MakesOne L.keeps (state machine.old) (BatchItem.Step event) result (state machine.new) }
    ensures legal { IsLegal (state machine.new) }
{
    match machine.step(event) {
        Ok(outcome) => Ok(Finished::Last(outcome)),
        Err(refused) => Err(refused),
    }
}

// What C asks for in a batch of calls is made. An access goes from the event's numbers straight to its
// call, so that its request is never written to memory.
#[inline(always)]
fn make_raw<M: SlotMap, A: Allocator + Clone, L: Ledger>(
    machine: &mut Machine<M, A, L>,
    raw: &RawEvent,
) -> Option<Result<Finished, NoMemory>>
    ensures makes { MakesRaw L.keeps (state machine.old) raw.now result (state machine.new) }
    ensures legal { IsLegal (state machine.old) → IsLegal (state machine.new) }
{
    let core = core_of(raw.core)?;
    match raw.kind {
        LOAD => {
            let made = make(
                machine,
                BatchItem::Call(core, Request::Load { addr: raw.at }),
            );
            Some(made)
        }
        STORE => {
            let request = store_of(raw)?;
            let made = make(machine, BatchItem::Call(core, request));
            Some(made)
        }
        FETCH => {
            let made = make(
                machine,
                BatchItem::Call(core, Request::Fetch { addr: raw.at }),
            );
            Some(made)
        }
        _ => {
            let item = item_of(raw)?;
            let made = make(machine, item);
            Some(made)
        }
    }
}

/// One item. Where it isn't made, `told` stays as it was.
#[inline(always)]
pub fn take_item<M: SlotMap, A: Allocator + Clone, L: Ledger>(
    machine: &mut Machine<M, A, L>,
    raw: &RawEvent,
    told: &mut RawOutcome,
) -> Result<(), BatchStop>
    ensures takes { TakesItem L.keeps (state machine.old) raw.now told.old result told.new
        (state machine.new) }
    ensures legal { IsLegal (state machine.old) → IsLegal (state machine.new) }
{
    let Some(made) = make_raw(machine, raw) else {
        return Err(BatchStop::BadEvent);
    };
    let Ok(finished) = made else {
        return Err(BatchStop::NoMemory);
    };
    *told = finished_code(finished);
    Ok(())
}

/// The items, one after another, as far as they can be made. The result of each is written in its place.
pub fn make_items<M: SlotMap, A: Allocator + Clone, L: Ledger>(
    machine: &mut Machine<M, A, L>,
    raws: &[RawEvent],
    told: &mut [RawOutcome],
) -> BatchEnd
    requires { length raws.now ≤ length told.old }
    ensures makes { MakesUntil L.keeps (state machine.old) raws.now result told.old told.new
        (state machine.new) }
    ensures legal { IsLegal (state machine.old) → IsLegal (state machine.new) }
{
    'items: for at in 0..raws.len() {
        match take_item(machine, &raws[at], &mut told[at]) {
            Ok(()) => {}
            Err(stop) => {
                return BatchEnd {
                    stop: Some(stop),
                    count: at,
                };
            }
        }
    }
    BatchEnd {
        stop: None,
        count: raws.len(),
    }
}

/// How many items a buffer may be said to have.
pub const LENGTH_LIMIT: u64 = 1 << 32;

/// Whether one of the buffers is said to have more items than any may have, or there is too little
/// room.
pub fn refusal_of(files: usize, bytes: usize, raws: usize, room: usize) -> Option<Refusal>
    ensures { result ≡ refusal_of files bytes raws room }
{
    let limit = LENGTH_LIMIT;
    if files as u64 > limit || bytes as u64 > limit || raws as u64 > limit || room as u64 > limit {
        return Some(Refusal::TooLong);
    }
    if room < raws {
        return Some(Refusal::NoRoom);
    }
    None
}

/// The events on a new machine. After a refusal no event was taken, and `told` is unchanged.
pub fn run_batch(
    alloc: Global,
    setup: &RawSetup,
    files: &[RawFile],
    bytes: &[u8],
    raws: &[RawEvent],
    told: &mut [RawOutcome],
) -> Result<BatchEnd, Refusal>
    ensures { RunsBatch setup.now files.now bytes.now raws.now told.old result told.new }
{
    if let Some(refusal) = refusal_of(files.len(), bytes.len(), raws.len(), told.len()) {
        return Err(refusal);
    }
    let mut machine: Unlogged = open(alloc, setup, files, bytes)?;
    Ok(run_events(&mut machine, raws, told))
}

/// The calls on a new machine. After a refusal none was made, and `told` is unchanged.
pub fn calls_batch(
    alloc: Global,
    setup: &RawSetup,
    files: &[RawFile],
    bytes: &[u8],
    raws: &[RawEvent],
    told: &mut [RawOutcome],
) -> Result<BatchEnd, Refusal>
    ensures { CallsBatch setup.now files.now bytes.now raws.now told.old result told.new }
{
    if let Some(refusal) = refusal_of(files.len(), bytes.len(), raws.len(), told.len()) {
        return Err(refusal);
    }
    let mut machine: Unlogged = open(alloc, setup, files, bytes)?;
    Ok(make_items(&mut machine, raws, told))
}

/// The result of a batch, as C reads it.
#[repr(C)]
#[derive(Clone, Copy, Drop)]
pub struct Done {
    /// The code of how it ended: 0 where all was done.
    pub status: u32,
    /// How many events were taken, and told; of a bad file, which it is.
    pub count: u64,
}

fn fault_code(fault: SetupFault) -> u32
    ensures { result ≡ fault_code fault }
{
    match fault {
        SetupFault::Cores => 11,
        SetupFault::Frames => 12,
        SetupFault::TooManyFiles => 13,
        SetupFault::FileTooLong => 14,
        SetupFault::Calls => 15,
        SetupFault::NoMemory => 16,
    }
}

/// The code of why a batch stopped: 0 where it didn't.
pub fn stop_code(stop: Option<BatchStop>) -> u32
    ensures { result ≡ stop_code stop }
{
    match stop {
        None => 0,
        Some(BatchStop::BadEvent) => 1,
        Some(BatchStop::NoMemory) => 2,
    }
}

/// What C reads of a refusal.
pub fn refusal_done(refusal: Refusal) -> Done
    ensures { result ≡ refusal_done refusal }
{
    match refusal {
        Refusal::NoRoom => Done {
            status: 3,
            count: 0,
        },
        Refusal::TooLong => Done {
            status: 4,
            count: 0,
        },
        Refusal::BadFile { at } => Done {
            status: 5,
            count: at as u64,
        },
        Refusal::Empty => Done {
            status: 7,
            count: 0,
        },
        Refusal::InUse => Done {
            status: 8,
            count: 0,
        },
        Refusal::NoLog => Done {
            status: 10,
            count: 0,
        },
        Refusal::Setup(fault) => Done {
            status: fault_code(fault),
            count: 0,
        },
    }
}

/// What C reads of how a batch ended.
pub fn done_of(ended: Result<BatchEnd, Refusal>) -> Done
    ensures { result ≡ done_of ended }
{
    match ended {
        Ok(ended) => Done {
            status: stop_code(ended.stop),
            count: ended.count as u64,
        },
        Err(refusal) => refusal_done(refusal),
    }
}
