//! Why a text is that of no history.
use thiserror::Error;
use trace_io::IoFault;

/// How many bytes a line may have without its newline.
pub const LINE_LIMIT: usize = 512;

/// Why a text is that of no history, or could not be read. Lines are numbered from 1.
#[derive(Clone, Copy, Debug, Error)]
pub enum HistoryFault {
    /// The line says nothing that may stand at this place.
    #[error("line {0}: bad line")]
    BadLine(u64),
    /// The line has more than 512 bytes.
    #[error("line {0}: too long")]
    TooLong(u64),
    /// No `vm` line stands in front.
    #[error("no vm line first")]
    NoVmLine,
    /// The call of the line doesn't begin below its end.
    #[error("line {0}: the begin isn't below the end")]
    Backwards(u64),
    /// The calls of two lines are of one core, and overlap.
    #[error("line {0}: overlaps line {1}, of the same core")]
    Overlap(u64, u64),
    /// A read or a write failed, or the allocator refused.
    #[error("{0}")]
    Io(IoFault),
}
