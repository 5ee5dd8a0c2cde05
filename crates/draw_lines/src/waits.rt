//! Calls that wait, and for what.

use vm_base::{CoreId, CoreSet};

/// What a call waits for.
#[derive(Clone, Copy)]
pub enum Cause {
    /// This core's call holds a slot of its pages.
    Lock(CoreId),
    /// These cores have not acknowledged its message.
    Acks(CoreSet),
}

/// A call that waits in a column.
#[derive(Clone, Copy)]
pub struct Waited {
    /// The column.
    pub column: u64,
    /// The core that asked.
    pub core: CoreId,
    /// What it waits for.
    pub cause: Cause,
}
