//! Why nothing is listed.
ghost use Rattle.std.specs.Prelude.{◌≡◌};
ghost use Rattle.litmus_outcomes.specs.Faults.{fault_by};

use machine_model::SetupFault;
use std::alloc::{AllocError, AllocFailed};
use vm_base::{CoreId, NoMemory};

/// Why nothing is listed.
#[derive(Clone, Copy)]
pub enum OutcomesFault {
    /// One of the calls leaves its place open.
    Placed,
    /// What the `vm` and `file` lines ask for makes no machine.
    Setup(SetupFault),
    /// The opening leaves a call of this core open.
    Open(CoreId),
    /// The map to which the opening leads wasn't found, which never comes.
    NotLed,
    /// There was no memory.
    NoMemory,
}

/// Why nothing is listed of a declaration without fault.
#[derive(Clone, Copy)]
pub(crate) enum Late {
    /// The opening leaves a call of this core open.
    Open(CoreId),
    /// The map to which the opening leads wasn't found.
    NotLed,
    /// There was no memory.
    NoMemory,
}

impl From<NoMemory> for Late {
    fn from(_refused: NoMemory) -> Late {
        Late::NoMemory
    }
}

impl From<AllocError> for Late {
    fn from(_refused: AllocError) -> Late {
        Late::NoMemory
    }
}

impl<T: Drop> From<AllocFailed<T>> for Late {
    fn from(_refused: AllocFailed<T>) -> Late {
        Late::NoMemory
    }
}

/// The same as a fault.
pub(crate) fn fault_by(late: Late) -> OutcomesFault
    ensures { result ≡ fault_by late }
{
    match late {
        Late::Open(core) => OutcomesFault::Open(core),
        Late::NotLed => OutcomesFault::NotLed,
        Late::NoMemory => OutcomesFault::NoMemory,
    }
}
