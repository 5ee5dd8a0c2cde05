//! The static library for C: batches, machines that C holds, and seats of shared ones.
//!
//! - The root has the functions of batches and of held machines; `tables`: those for real page tables; `threads`: those of
//!   shared machines. Their names begin with `radixvm_`.
//! - `handle`, `placed`, `loose`, `making`: what C keeps, and how it is made; `chair_handle`, `chair`, `seats`,
//!   `sharing`: a seat.
//!
//! It exists for `radixvm_run_batch`, a batch has the outcomes of a run, and `laws::held_are_legal`. It knows no
//! text.
#![tactic(auto)]

ghost use Rattle.std.specs.Prelude.{◌≡◌, None};
ghost use Rattle.coded.specs.Batches.{TellsRun, TellsCalls};
ghost use Rattle.coded.specs.Holding.{state_in, TellsNew, TellsStep, TellsCall, TellsRunOn, TellsCallsOn};
ghost use Rattle.coded.specs.Holding.{cores_of, TellsEntry};
ghost use Rattle.coded.specs.Maps.{TellsMaps};
ghost use Rattle.coded.specs.Logs.{TellsLog};

pub mod chair;
pub mod chair_handle;
pub mod handle;
pub mod laws;
pub mod loose;
pub mod making;
pub mod placed;
pub mod seats;
pub mod sharing;
pub mod tables;
pub mod threads;

use crate::handle::Handle;
use crate::making::open_in;
use coded::batch::{Done, calls_batch, done_of, refusal_done, run_batch};
use coded::codes::{RawEvent, RawOutcome};
use coded::holding::{
    calls_on, cores_of, entry_of, maps_of, run_on, take_event_on, take_item_on, taken_code,
};
use coded::logs::{RawEntry, show_log};
use coded::maps::RawLine;
use coded::opening::{RawFile, RawSetup, Refusal};
use std::alloc::Global;

/// The version that include/radixvm.h has.
const VERSION: u32 = 5;

/// The code of an empty handle, where no `Done` is told.
pub(crate) const EMPTY: u32 = 7;

/// The code of a core or a page that isn't there.
const ABSENT: u32 = 9;

/// The version of the codes and structs of `include/radixvm.h`.
#[unsafe(no_mangle)]
pub extern "C" fn radixvm_version() -> u32
    ensures { result ≡ 5 }
{
    VERSION
}

/// Takes the events, one after another, on a new machine, as far as they can be taken, and writes
/// the result of each in its place of `told`.
#[unsafe(no_mangle)]
pub extern "C" fn radixvm_run_batch(
    alloc: Global,
    setup: &RawSetup,
    files: &[RawFile],
    bytes: &[u8],
    raws: &[RawEvent],
    told: &mut [RawOutcome],
) -> Done
    ensures { TellsRun setup.now files.now bytes.now raws.now told.old result told.new }
{
    done_of(run_batch(alloc, setup, files, bytes, raws, told))
}

/// Makes the calls, each to its end, and the events between them, on a new machine, as far as they
/// can be made, and writes the result of each in its place of `told`.
#[unsafe(no_mangle)]
pub extern "C" fn radixvm_calls_batch(
    alloc: Global,
    setup: &RawSetup,
    files: &[RawFile],
    bytes: &[u8],
    raws: &[RawEvent],
    told: &mut [RawOutcome],
) -> Done
    ensures { TellsCalls setup.now files.now bytes.now raws.now told.old result told.new }
{
    done_of(calls_batch(alloc, setup, files, bytes, raws, told))
}

/// Makes a machine in an empty handle. At an error the handle is as it was.
#[unsafe(no_mangle)]
pub extern "C" fn radixvm_new_held(
    alloc: Global,
    setup: &RawSetup,
    files: &[RawFile],
    bytes: &[u8],
    handle: &mut Handle,
) -> Done
    ensures { TellsNew setup.now files.now bytes.now (state_in handle.old.value) result
        (state_in handle.new.value) }
{
    match open_in(alloc, setup, files, bytes, handle) {
        Ok(()) => Done {
            status: 0,
            count: 0,
        },
        Err(refusal) => refusal_done(refusal),
    }
}

/// Lets the machine go, with all its memory, and leaves the handle empty.
#[unsafe(no_mangle)]
pub extern "C" fn radixvm_free_held(alloc: Global, handle: &mut Handle)
    ensures { handle.new.value ≡ None }
{
    if handle.is_open() {
        let _held = handle.take(alloc);
    }
}

/// Takes one event on the machine.
#[unsafe(no_mangle)]
pub extern "C" fn radixvm_step_held(
    handle: &mut Handle,
    raw: &RawEvent,
    told: &mut RawOutcome,
) -> u32
    ensures { TellsStep (state_in handle.old.value) raw.now told.old result told.new
        (state_in handle.new.value) }
{
    if !handle.is_open() {
        return EMPTY;
    }
    taken_code(take_event_on(handle.get_mut(), raw, told))
}

/// Makes one call on the machine, to its end or until it waits, or takes what else a batch of calls
/// may ask for.
#[unsafe(no_mangle)]
pub extern "C" fn radixvm_call_held(
    handle: &mut Handle,
    raw: &RawEvent,
    told: &mut RawOutcome,
) -> u32
    ensures { TellsCall (state_in handle.old.value) raw.now told.old result told.new
        (state_in handle.new.value) }
{
    if !handle.is_open() {
        return EMPTY;
    }
    taken_code(take_item_on(handle.get_mut(), raw, told))
}

/// Takes more events on the machine, as far as they can be taken.
#[unsafe(no_mangle)]
pub extern "C" fn radixvm_run_held(
    handle: &mut Handle,
    raws: &[RawEvent],
    told: &mut [RawOutcome],
) -> Done
    ensures { TellsRunOn (state_in handle.old.value) raws.now told.old result told.new
        (state_in handle.new.value) }
{
    if !handle.is_open() {
        return refusal_done(Refusal::Empty);
    }
    done_of(run_on(handle.get_mut(), raws, told))
}

/// Makes more calls on the machine, as far as they can be made.
#[unsafe(no_mangle)]
pub extern "C" fn radixvm_calls_held(
    handle: &mut Handle,
    raws: &[RawEvent],
    told: &mut [RawOutcome],
) -> Done
    ensures { TellsCallsOn (state_in handle.old.value) raws.now told.old result told.new
        (state_in handle.new.value) }
{
    if !handle.is_open() {
        return refusal_done(Refusal::Empty);
    }
    done_of(calls_on(handle.get_mut(), raws, told))
}

/// How many cores the machine has; 0 where there is none.
#[unsafe(no_mangle)]
pub extern "C" fn radixvm_cores_held(handle: &mut Handle) -> u64
    ensures cores { result ≡ cores_of (state_in handle.old.value) }
    ensures same { handle.new.value ≡ handle.old.value }
{
    if !handle.is_open() {
        return 0;
    }
    cores_of(handle.get_mut())
}

/// Tells the word that the core's tables have for the page, 0 where they have none.
#[unsafe(no_mangle)]
pub extern "C" fn radixvm_entry_held(
    handle: &mut Handle,
    core: u32,
    page: u64,
    told: &mut u64,
) -> u32
    ensures tells { TellsEntry (state_in handle.old.value) core page told.old result told.new }
    ensures same { handle.new.value ≡ handle.old.value }
{
    if !handle.is_open() {
        return EMPTY;
    }
    match entry_of(handle.get_mut(), core, page) {
        Some(word) => {
            *told = word;
            0
        }
        None => ABSENT,
    }
}

/// Tells all mappings, as far as there is room, and how many there are.
#[unsafe(no_mangle)]
pub extern "C" fn radixvm_maps_held(
    alloc: Global,
    handle: &mut Handle,
    told: &mut [RawLine],
) -> Done
    ensures tells { TellsMaps (state_in handle.old.value) told.old result told.new }
    ensures same { handle.new.value ≡ handle.old.value }
{
    if !handle.is_open() {
        return refusal_done(Refusal::Empty);
    }
    done_of(maps_of(alloc, handle.get_mut(), told))
}

/// Tells the log, as far as there is room, and how many entries it has.
#[unsafe(no_mangle)]
pub extern "C" fn radixvm_log_held(handle: &mut Handle, told: &mut [RawEntry]) -> Done
    ensures tells { TellsLog (state_in handle.old.value) told.old result told.new }
    ensures same { handle.new.value ≡ handle.old.value }
{
    if !handle.is_open() {
        return refusal_done(Refusal::Empty);
    }
    done_of(show_log(handle.get_mut(), told))
}
