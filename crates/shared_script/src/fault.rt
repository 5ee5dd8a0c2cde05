//! Why a script wasn't run on a machine that threads share.
use thiserror::Error;
use trace_words::fault::TraceFault;

/// Why a script's text wasn't run to its end, or what came of it wasn't written.
#[derive(Clone, Copy, Debug, Error)]
pub enum SharedFault {
    /// The text can't be read, it makes no machine, memory is refused, or a write failed.
    #[error("{0}")]
    Text(TraceFault),
    /// The machine is at a limit: that of calls, or that of events.
    #[error("live V4")]
    Full,
}
