//! Sharing a held machine among threads.
ghost use Rattle.std.specs.Prelude.{◌≡◌, IfOk, IfErr};
ghost use Rattle.radixvm_c.specs.Seats.{IsFirst, CannotShare, unshared_code, TellsShare, core_in, core_on, Closes, ClosesChair, TellsUnshare};

use crate::chair::{Chair, HeldSeat};
use crate::chair_handle::ChairHandle;
use crate::handle::Handle;
use crate::placed::Placed;
use coded::held::AnyMachine;
use shared::{CoreSeat, ShareFault, SharedMachine, Unshared};
use std::alloc::Global;
use std::mem::replace;
use std::sync::Arc;

/// The status of what was done.
pub const DONE: u32 = 0;

/// The status where there was no memory.
pub const NO_MEMORY: u32 = 2;

/// The status of a handle that has nothing.
pub const EMPTY: u32 = 7;

/// The status of a handle that has something already, or of a machine that has another seat.
pub const IN_USE: u32 = 8;

/// The status of a machine that has a call in flight.
const IN_FLIGHT: u32 = 18;

/// The status of a machine that a seat had which was let go amid a call.
const LOST: u32 = 19;

/// Why a machine isn't shared, with the machine as it was.
#[derive(Drop)]
pub struct NotShared {
    pub held: Box<AnyMachine, Global>,
    pub status: u32,
}

/// A place for a seat.
pub fn new_chair(alloc: Global) -> Option<Box<Chair, Global>> {
    Box::new(alloc, Chair::Vacant).ok()
}

fn unshared_code(why: ShareFault) -> u32
    ensures { result ≡ unshared_code why }
{
    match why {
        ShareFault::NoMemory => NO_MEMORY,
        ShareFault::NotCalm => IN_FLIGHT,
    }
}

// The machine as it was, and why it isn't shared.
fn kept_from(unshared: Unshared<Placed>) -> NotShared
    ensures { (result.held ≡ unshared.machine.held) × (result.status ≡ unshared_code unshared.why) }
{
    let Unshared { machine, why } = unshared;
    let Placed { held } = machine;
    NotShared {
        held,
        status: unshared_code(why),
    }
}

// The seat of core 0 of the machine. All memory is taken before the machine is, except for what
// `SharedMachine::new` takes, which hands it back.
fn seat_first(alloc: Global, held: Box<AnyMachine, Global>) -> Result<HeldSeat, NotShared>
    ensures ok { IfOk result (λ seat. IsFirst held.value seat.core) }
    ensures err { IfErr result (λ kept. (kept.held ≡ held) × CannotShare held.value kept.status) }
{
    let Ok(mut room) = Arc::new(alloc, None) else {
        return Err(NotShared {
            held,
            status: NO_MEMORY,
        });
    };
    let Some(place) = Arc::get_mut(&mut room) else {
        return Err(NotShared {
            held,
            status: NO_MEMORY,
        });
    };
    match SharedMachine::new(alloc, Placed { held }) {
        Ok((space, core)) => {
            *place = Some(space);
            Ok(HeldSeat { room, core })
        }
        Err(unshared) => Err(kept_from(unshared)),
    }
}

/// Takes the machine of the handle, and puts the seat of its core 0 into the other one. Else both are
/// as they were.
pub fn share(alloc: Global, handle: &mut Handle, chair: &mut ChairHandle) -> u32
    ensures { TellsShare handle.old.value chair.old.value result handle.new.value chair.new.value }
{
    if !handle.is_open() {
        return EMPTY;
    }
    if chair.is_open() {
        return IN_USE;
    }
    let Some(mut place) = new_chair(alloc) else {
        return NO_MEMORY;
    };
    match seat_first(alloc, handle.take(alloc)) {
        Ok(seat) => {
            let _vacant = Box::replace(&mut place, Chair::Taken(seat));
            chair.put(place);
            DONE
        }
        Err(NotShared { held, status }) => {
            handle.put(held);
            status
        }
    }
}

/// The result of ending a space.
#[derive(Drop)]
pub enum Closed {
    /// The machine, with its history.
    Back(Box<AnyMachine, Global>),
    /// Another seat is left, and nothing was done.
    Beside,
    /// The machine is gone with a seat that was let go amid a call.
    Gone,
}

fn close_space(space: SharedMachine<Placed>, core: CoreSeat<Placed>) -> Closed
    requires { core.space ≡ space.table.shared.table_id }
    ensures { Closes core result }
{
    match space.close(core) {
        Some(Placed { held }) => Closed::Back(held),
        None => Closed::Gone,
    }
}

// Ends the space of a seat, which is left vacant, if it has no other seat.
fn close_seat(chair: &mut Chair) -> Closed
    ensures { ClosesChair (core_on chair.old) result (core_on chair.new) }
{
    match replace(chair, Chair::Vacant) {
        Chair::Vacant => Closed::Beside,
        Chair::Taken(HeldSeat { room, core }) => match Arc::try_unwrap(room) {
            Ok(Some(space)) => close_space(space, core),
            Ok(None) => unreachable!(),
            Err(room) => {
                *chair = Chair::Taken(HeldSeat { room, core });
                Closed::Beside
            }
        },
    }
}

/// Takes the last seat of the handle, and puts the machine into the other one. Where another seat is
/// left all is as it was.
pub fn unshare(alloc: Global, chair: &mut ChairHandle, handle: &mut Handle) -> u32
    ensures { TellsUnshare (core_in chair.old.value) handle.old.value result chair.new.value
        handle.new.value }
{
    if !chair.has_seat() {
        return EMPTY;
    }
    if handle.is_open() {
        return IN_USE;
    }
    match close_seat(chair.get_mut()) {
        Closed::Back(machine) => {
            let _vacant = chair.take(alloc);
            handle.put(machine);
            DONE
        }
        Closed::Beside => IN_USE,
        Closed::Gone => {
            let _vacant = chair.take(alloc);
            LOST
        }
    }
}
