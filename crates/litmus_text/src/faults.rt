//! Why a text is no litmus test.
use machine_model::SetupFault;
use thiserror::Error;
use trace_io::IoFault;

/// Why a text is no litmus test, or could not be read. Lines are numbered from 1.
#[derive(Clone, Copy, Debug, Error)]
pub enum LitmusFault {
    /// The line says nothing that may stand at this place.
    #[error("line {0}: bad line")]
    BadLine(u64),
    /// The line has more than 256 bytes.
    #[error("line {0}: too long")]
    TooLong(u64),
    /// An mmap of a core's list leaves its place open.
    #[error("line {0}: an mmap of a list needs the flag f")]
    Placed(u64),
    /// The clause of the line names a call that its core's list doesn't have.
    #[error("line {0}: no such call in the lists")]
    NoCall(u64),
    /// The clause of the line names an address that no `final` line names.
    #[error("line {0}: no final line for the address")]
    NoFinal(u64),
    /// No `vm` line stands in front.
    #[error("no vm line first")]
    NoVmLine,
    /// The setup of the `vm` and `file` lines makes no machine.
    #[error("setup {0}")]
    Setup(SetupFault),
    /// The lists have no call.
    #[error("no call in the lists")]
    NoCalls,
    /// A read or a write failed, or the allocator refused.
    #[error("{0}")]
    Io(IoFault),
}
