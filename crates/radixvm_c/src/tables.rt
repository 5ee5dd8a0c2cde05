//! The functions of a held machine that decides what real page tables may translate.
ghost use Rattle.driven.specs.Driving.{both, TellsTouch, TellsChange, TellsGoOn, TellsTake};
ghost use Rattle.driven.specs.Reclaiming.{TellsReclaim};
ghost use Rattle.coded.specs.Holding.{state_in};

use crate::EMPTY;
use crate::handle::Handle;
use coded::codes::{RawEvent, RawOutcome};
use driven::driving::{RawDrop, RawFilled, change_on, drive_code, go_on_on, take_on, touch_on};
use driven::reclaiming::reclaim_on;

/// A page fault of the core at an address: a load, a store or a fetch.
#[unsafe(no_mangle)]
pub extern "C" fn radixvm_touch_held(
    handle: &mut Handle,
    core: u32,
    at: u64,
    kind: u32,
    told: &mut RawOutcome,
    filled: &mut RawFilled,
) -> u32
    ensures { TellsTouch (state_in handle.old.value) core at kind told.old filled.old result told.new filled.new
        (state_in handle.new.value) }
{
    if !handle.is_open() {
        return EMPTY;
    }
    drive_code(touch_on(handle.get_mut(), core, at, kind, told, filled))
}

/// A change of the mappings, and the pages of which its own core is to drop its real translations.
#[unsafe(no_mangle)]
pub extern "C" fn radixvm_change_held(
    handle: &mut Handle,
    raw: &RawEvent,
    told: &mut RawOutcome,
    own: &mut RawDrop,
) -> u32
    ensures { TellsChange (state_in handle.old.value) raw.now told.old own.old result told.new own.new
        (state_in handle.new.value) }
{
    if !handle.is_open() {
        return EMPTY;
    }
    drive_code(change_on(handle.get_mut(), raw, told, own))
}

/// The core's call goes on, to its end or until it waits.
#[unsafe(no_mangle)]
pub extern "C" fn radixvm_go_on_held(
    handle: &mut Handle,
    core: u32,
    told: &mut RawOutcome,
    filled: &mut RawFilled,
    own: &mut RawDrop,
) -> u32
    ensures { TellsGoOn (state_in handle.old.value) core told.old (both filled.old own.old) result told.new
        (both filled.new own.new) (state_in handle.new.value) }
{
    if !handle.is_open() {
        return EMPTY;
    }
    drive_code(go_on_on(handle.get_mut(), core, told, filled, own))
}

/// The core does what the oldest message of its inbox asks, which is told.
#[unsafe(no_mangle)]
pub extern "C" fn radixvm_take_held(handle: &mut Handle, core: u32, drop: &mut RawDrop) -> u32
    ensures { TellsTake (state_in handle.old.value) core drop.old result drop.new (state_in handle.new.value) }
{
    if !handle.is_open() {
        return EMPTY;
    }
    drive_code(take_on(handle.get_mut(), core, drop))
}

/// Frames that nothing uses are brought back, and how many came is told.
#[unsafe(no_mangle)]
pub extern "C" fn radixvm_reclaim_held(handle: &mut Handle, frames: &mut u64) -> u32
    ensures { TellsReclaim (state_in handle.old.value) frames.old result frames.new (state_in handle.new.value) }
{
    if !handle.is_open() {
        return EMPTY;
    }
    drive_code(reclaim_on(handle.get_mut(), frames))
}
