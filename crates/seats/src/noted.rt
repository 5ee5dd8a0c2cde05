//! One note: a step with its ticket and its outcome.
use machine_model::{Event, Outcome};

/// A step as a thread took it: its ticket, its event and its outcome.
#[derive(Clone, Copy)]
pub struct Noted {
    pub ticket: u64,
    pub event: Event,
    pub outcome: Outcome,
}
