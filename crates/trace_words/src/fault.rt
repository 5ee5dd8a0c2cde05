//! What ends a replay early.
ghost use Rattle.std.specs.Prelude.{◌≡◌, ◌≤◌};
ghost use Rattle.trace_words.specs.Status.{fault_status};

use machine_model::SetupFault;
use thiserror::Error;

/// Why a replay ended early. Lines are numbered from 1.
#[derive(Clone, Copy, Debug, PartialEq, Eq, Error)]
pub enum TraceFault {
    /// The line says nothing that a trace may say at this place.
    #[error("line {0}: bad line")]
    BadLine(u64),
    /// The line has more than 256 bytes.
    #[error("line {0}: too long")]
    TooLong(u64),
    /// A read failed, or 2^32 reads were made.
    #[error("read failed")]
    ReadFailed,
    /// No `vm` line came before the first other line with words, or before the end.
    #[error("no vm line first")]
    NoVmLine,
    /// The allocator refused.
    #[error("out of memory")]
    NoMemory,
    /// The setup of the `vm` and `file` lines makes no machine.
    #[error("setup {0}")]
    Setup(SetupFault),
    /// A write failed, or took no byte.
    #[error("write failed")]
    WriteFailed,
}

/// The status that a fault ends a program with: 2 where the text is at fault, 3 where its surroundings are.
pub fn status_of_fault(fault: TraceFault) -> u8
    ensures value { result ≡ fault_status fault }
    ensures within { result ≤ 3 }
{
    match fault {
        TraceFault::BadLine(_) | TraceFault::TooLong(_) | TraceFault::NoVmLine => 2,
        TraceFault::Setup(SetupFault::NoMemory) => 3,
        TraceFault::Setup(_) => 2,
        TraceFault::ReadFailed | TraceFault::NoMemory | TraceFault::WriteFailed => 3,
    }
}
