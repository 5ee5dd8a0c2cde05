//! Why runs of a litmus test weren't counted.
use live_space::fault::LiveFault;
use thiserror::Error;
use vm_base::NoMemory;

/// Why runs of a litmus test weren't counted.
#[derive(Clone, Copy, Debug, Error)]
pub enum LiveTestFault {
    /// A call couldn't begin.
    #[error("live {0}")]
    Live(LiveFault),
    /// A call found no frame, or was given up for want of memory: such outcomes are never listed.
    #[error("a run had noframe or nomemory, which no list has")]
    NotPlain,
    /// A run isn't certified, or isn't one of the test.
    #[error("a run isn't certified")]
    NotCertified,
    /// Memory was refused.
    #[error("out of memory")]
    NoMemory,
}

impl From<LiveFault> for LiveTestFault {
    fn from(fault: LiveFault) -> LiveTestFault {
        LiveTestFault::Live(fault)
    }
}

impl From<NoMemory> for LiveTestFault {
    fn from(_refused: NoMemory) -> LiveTestFault {
        LiveTestFault::NoMemory
    }
}
