//! The functions for C of a machine that threads share.
//!
//! C's seats ask and never wait, since a static library can't wait: so `radixvm_seat_try` tells BUSY. The header's
//! inline call makes 16 pauses, then twice as many up to 128, and yields after ten tries: the thread that has the
//! machine makes several calls while its data stay in one cache. Whoever waits makes the takes of the cores that it
//! waits for, so no call is in flight between calls. A list of calls stops behind a call that memory was refused to;
//! that call is in the log, and counts. At a limit a list is told AT_LIMIT, and a single call FULL. All memory of a
//! share is taken before the machine is, and the machine stays in its block, so that it comes back without needing
//! memory.
ghost use Rattle.std.specs.Prelude.{◌≡◌, None};
ghost use Rattle.radixvm_c.specs.Seats.{core_in, AreBeside, TellsShare, TellsSplit, TellsTry, TellsCalls, TellsReturn, TellsUnshare};

use crate::chair_handle::ChairHandle;
use crate::handle::Handle;
use crate::seats::{call_chair, give_back, split, try_chair};
use crate::sharing::{EMPTY, share, unshare};
use coded::batch::{Done, refusal_done};
use coded::codes::{RawEvent, RawOutcome};
use coded::opening::Refusal;
use std::alloc::Global;

/// Shares the machine: its place is left empty, and the other one gets the seat of core 0.
#[unsafe(no_mangle)]
pub extern "C" fn radixvm_share_held(
    alloc: Global,
    handle: &mut Handle,
    chair: &mut ChairHandle,
) -> u32
    ensures { TellsShare handle.old.value chair.old.value result handle.new.value chair.new.value }
{
    share(alloc, handle, chair)
}

/// Splits a core off into an empty handle: the last one that has no seat yet.
#[unsafe(no_mangle)]
pub extern "C" fn radixvm_split_seat(
    alloc: Global,
    first: &mut ChairHandle,
    other: &mut ChairHandle,
) -> u32
    ensures { TellsSplit (core_in first.old.value) other.old.value result (core_in first.new.value)
        other.new.value }
{
    split(alloc, first, other)
}

/// Makes a whole call of the seat's core, or a step beside calls, or tells that another seat is in a call.
#[unsafe(no_mangle)]
pub extern "C" fn radixvm_try_seat(
    chair: &mut ChairHandle,
    raw: &RawEvent,
    told: &mut RawOutcome,
) -> u32
    ensures { TellsTry (core_in chair.old.value) raw.now told.old result told.new
        (core_in chair.new.value) }
{
    if !chair.is_open() {
        return EMPTY;
    }
    try_chair(chair.get_mut(), raw, told)
}

/// Makes whole calls of the seat's core, one after another, or tells that another seat is in a call.
#[unsafe(no_mangle)]
pub extern "C" fn radixvm_calls_seat(
    chair: &mut ChairHandle,
    raws: &[RawEvent],
    told: &mut [RawOutcome],
) -> Done
    ensures { TellsCalls (core_in chair.old.value) raws.now told.old result told.new
        (core_in chair.new.value) }
{
    if !chair.is_open() {
        return refusal_done(Refusal::Empty);
    }
    call_chair(chair.get_mut(), raws, told)
}

/// Takes the other seat in, whose core is done. Both are of one machine.
#[unsafe(no_mangle)]
pub extern "C" fn radixvm_return_seat(
    alloc: Global,
    first: &mut ChairHandle,
    other: &mut ChairHandle,
) -> u32
    requires { AreBeside (core_in first.old.value) (core_in other.old.value) }
    ensures { TellsReturn (core_in first.old.value) (core_in other.old.value) result
        (core_in first.new.value) other.new.value }
{
    give_back(alloc, first, other)
}

/// Ends the sharing by the last seat: its handle is left empty, and the other one gets the machine.
#[unsafe(no_mangle)]
pub extern "C" fn radixvm_unshare_seat(
    alloc: Global,
    chair: &mut ChairHandle,
    handle: &mut Handle,
) -> u32
    ensures { TellsUnshare (core_in chair.old.value) handle.old.value result chair.new.value
        handle.new.value }
{
    unshare(alloc, chair, handle)
}

/// Lets the seat go, and with the last one the machine.
#[unsafe(no_mangle)]
pub extern "C" fn radixvm_free_seat(alloc: Global, chair: &mut ChairHandle)
    ensures { chair.new.value ≡ None }
{
    if chair.is_open() {
        let _chair = chair.take(alloc);
    }
}

fn is_send<T: Send>(_one: &T) {}

/// What C holds, of a machine or of a seat, may go to another thread.
pub fn may_cross(handle: &Handle, chair: &ChairHandle) {
    is_send(handle);
    is_send(chair);
}
