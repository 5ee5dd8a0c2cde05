//! What the surroundings of a text do to it: the faults that reading and writing have in common.
use thiserror::Error;

/// Why a text wasn't read to its end, or what comes of it wasn't written whole.
#[derive(Clone, Copy, Debug, Error)]
pub enum IoFault {
    /// A read failed, or one more than `READ_LIMIT` was due.
    #[error("read failed")]
    ReadFailed,
    /// The allocator refused.
    #[error("out of memory")]
    NoMemory,
    /// A write failed, or took no byte.
    #[error("write failed")]
    WriteFailed,
}
