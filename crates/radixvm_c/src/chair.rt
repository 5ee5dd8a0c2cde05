//! What lies behind a seat.
ghost use Rattle.std.specs.Arc.{arc_value};
ghost use Rattle.radixvm_c.specs.Rooms.{IsIn};

use crate::placed::Placed;
use shared::{CoreSeat, SharedMachine};
use std::alloc::Global;
use std::sync::Arc;

/// The machine that threads share, where there is one. It is all seats' together, and goes with the
/// last of them.
pub type Room = Arc<Option<SharedMachine<Placed>>, Global>;

/// The right to call as one core.
#[derive(Drop)]
pub struct HeldSeat {
    pub room: Room,
    pub core: CoreSeat<Placed>,
    pub ghost here: { IsIn (arc_value room) core },
}

/// A place on the heap for a seat.
#[derive(Drop)]
pub enum Chair {
    /// There is none yet, or no more.
    Vacant,
    /// Its seat.
    Taken(HeldSeat),
}
