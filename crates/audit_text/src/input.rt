//! The lines of an audit's text, and why it can't be judged.
ghost use Rattle.std.specs.Prelude.{◌≡◌, ◌<◌, ◌≤◌, IfErr, IfOk, length};
ghost use Rattle.audit_text.specs.Grammar.{Tells};
ghost use Rattle.audit_text.specs.Faults.{SaysNothing};

use crate::reading::{Said, read_said};
use thiserror::Error;
use trace_io::IoFault;

/// How many bytes a line may have without its newline.
pub const LINE_LIMIT: usize = 512;

/// Why a text could not be judged. Lines are numbered from 1.
#[derive(Clone, Copy, Debug, Error)]
pub enum AuditFault {
    /// The line says nothing that may stand at this place.
    #[error("line {0}: bad line")]
    BadLine(u64),
    /// The line has more than 512 bytes.
    #[error("line {0}: too long")]
    TooLong(u64),
    /// No `vm` line stands in the text.
    #[error("no vm line first")]
    NoVmLine,
    /// A read or a write failed, the allocator refused, or bytes of more than 65,536 pages would be kept.
    #[error("{0}")]
    Io(IoFault),
}

/// What the line says, which has this number. The fault is its own.
pub(crate) fn said_at(line: &[u8], number: u64) -> Result<Said, AuditFault>
    ensures ok { IfOk result (λ said. (length line.now ≤ 512) × Tells said line.now) }
    ensures err { IfErr result (λ f. SaysNothing line.now number f) }
{
    if line.len() > LINE_LIMIT {
        return Err(AuditFault::TooLong(number));
    }
    match read_said(line) {
        Some(said) => Ok(said),
        None => Err(AuditFault::BadLine(number)),
    }
}
