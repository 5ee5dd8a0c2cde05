//! The calls of a script.
use vm_base::{CoreId, Request};

/// A call of a core's list. A list of them has the lists of all cores: each core makes its own in their order.
#[derive(Clone, Copy)]
pub struct Asked {
    /// Who asks.
    pub core: CoreId,
    /// For what.
    pub request: Request,
}
