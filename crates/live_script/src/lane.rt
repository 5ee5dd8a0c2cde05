//! A core's seat while a script is run.
use live_space::fault::LiveFault;
use seats::Seat;
use std::alloc::Allocator;

/// A seat, and why its core stopped before its last task.
#[derive(Drop)]
pub struct Lane<A: Allocator> {
    pub(crate) seat: Seat<A>,
    pub(crate) fault: Option<LiveFault>,
}
