//! The result of certifying notes.
use machine_model::{Outcome, SetupFault};
use thiserror::Error;

/// What certifying notes that are a run of the machine answers.
#[derive(Clone, Copy, PartialEq, Eq)]
pub struct Certified {
    /// How many calls were answered.
    pub calls: u64,
}

/// Why notes aren't certified. The first that holds is reported, in the order of the first four; memory
/// may be wanted at any time after the setup was looked at.
#[derive(Clone, Copy, Debug, PartialEq, Eq, Error)]
pub enum CertifyFault {
    /// The setup makes no machine.
    #[error("C4 {0}")]
    Setup(SetupFault),
    /// Of the tickets below the number of the notes, this is the least that doesn't stand once.
    #[error("C1 {0}")]
    Ticket(u64),
    /// After all earlier notes the machine's outcome isn't the one in the note with this ticket.
    #[error("C2 {ticket}")]
    Differs {
        ticket: u64,
        noted: Outcome,
        expected: Outcome,
    },
    /// All notes are a run, but this is the first valid page of the first slot whose history didn't go
    /// along with it: its tickets don't rise or aren't all those of notes, or from its first change on
    /// (from ticket 0 where it has none) a valid page of it had something else after some note than its
    /// changes come to. It is reported only if histories are handed in.
    #[error("C5 {page}")]
    Slot {
        page: u64,
    },
    /// There was no memory.
    #[error("C3")]
    NoMemory,
}
