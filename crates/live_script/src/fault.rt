//! Why a script wasn't run to its end.
use live_space::fault::LiveFault;
use machine_model::SetupFault;
use thiserror::Error;

/// Why a script wasn't run, or not to its end.
#[derive(Clone, Copy, Debug, Error)]
pub enum ScriptFault {
    /// What the script declares makes no space.
    #[error("setup {0}")]
    Setup(SetupFault),
    /// A task of a core couldn't begin. Of several cores it is the least one's fault.
    #[error("live {0}")]
    Live(LiveFault),
    /// The allocator refused.
    #[error("out of memory")]
    NoMemory,
}
