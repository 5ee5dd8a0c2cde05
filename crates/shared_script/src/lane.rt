//! A core while a script is run.
use crate::fault::SharedFault;
use shared::{CoreSeat, Replied};

/// A core, the calls that it made with the replies that it was told, and why it stopped before its last task.
#[derive(Drop)]
pub struct Lane<S> {
    pub(crate) number: usize,
    pub(crate) core: CoreSeat<S>,
    pub(crate) told: Vec<Replied>,
    pub(crate) stop: Option<SharedFault>,
}
