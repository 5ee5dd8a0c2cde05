//! Why nothing is told of a litmus test.
ghost use Rattle.litmus.specs.Tells.{IsLate};

use crate::LiveTestFault;
use litmus_outcomes::OutcomesFault;
use litmus_text::LitmusFault;
use thiserror::Error;
use trace_io::IoFault;

/// Why nothing is told of a litmus test.
#[derive(Clone, Copy, Debug, Error)]
pub enum TestFault {
    /// The text is none.
    #[error("{0}")]
    Text(LitmusFault),
    /// The opening leaves the call of a core open.
    #[error("the opening leaves a call of core {0} open")]
    Open(u64),
    /// There are fewer outcomes.
    #[error("there is no outcome {0}")]
    NoOutcome(u64),
    /// The outcome isn't known to come about.
    #[error("outcome {0} is open, and has no witness")]
    NoWitness(u64),
    /// The opening has a step that no call to a kernel makes.
    #[error("the opening has a step that no call to a kernel makes")]
    NoCall,
    /// The mappings are asked for, which a program in C can't tell.
    #[error("a program in C can't tell the mappings")]
    NoMaps,
    /// The opening has a step that no thread can be told to take.
    #[error("the opening has a step that no thread can be told to take")]
    NoTask,
    /// A run on threads came to no outcome.
    #[error("{0}")]
    Live(LiveTestFault),
    /// The line of the counts is neither a count nor a comment.
    #[error("counts: line {0}: bad line")]
    BadCount(u64),
}

/// Memory was refused.
pub(crate) const NO_MEMORY: TestFault = TestFault::Text(LitmusFault::Io(IoFault::NoMemory));

/// The same as a fault of the opening, or as want of memory. Of a test that was read the others never come.
pub(crate) fn fault_by(fault: OutcomesFault) -> TestFault
    ensures { IsLate result }
{
    match fault {
        OutcomesFault::Open(core) => TestFault::Open(u64::from(core.index())),
        OutcomesFault::Setup(_)
        | OutcomesFault::Placed
        | OutcomesFault::NotLed
        | OutcomesFault::NoMemory => NO_MEMORY,
    }
}
