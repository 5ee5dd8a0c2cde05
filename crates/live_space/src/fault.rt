//! Why a call of a thread didn't begin.
ghost use Rattle.std.specs.Prelude.{◌≡◌, ◌+◌, ◌≤◌, ◌^◌, length, OnOk, IfErr};
ghost use Rattle.live_space.specs.Calls.{LacksRoom};

use seats::Seat;
use std::alloc::Allocator;
use thiserror::Error;

/// Why nothing was begun. The first that holds is reported, in this order.
#[derive(Clone, Copy, Debug, Error)]
pub enum LiveFault {
    /// The seat has begun its share of calls.
    #[error("V1")]
    Calls,
    /// The seat's notes are at their limit.
    #[error("V2")]
    Notes,
    /// There was no memory to begin.
    #[error("V3")]
    NoMemory,
}

/// Makes room for this many more notes of the seat. After a fault the room is what may have changed.
pub(crate) fn reserve_notes<A: Allocator>(seat: &mut Seat<A>, count: usize) -> Result<(), LiveFault>
    ensures room { OnOk result (count ≤ seat.new.room) }
    ensures limit { OnOk result (length seat.old.notes + count ≤ 2 ^ 32) }
    ensures fault { IfErr result (LacksRoom count seat.old) }
    ensures same { seat.new ≡ record seat.old { room = seat.new.room } }
{
    if !seat.is_within_limit(count) {
        return Err(LiveFault::Notes);
    }
    if !seat.reserve(count) {
        return Err(LiveFault::NoMemory);
    }
    Ok(())
}
