//! What a replay may write of a trace.

/// What a replay writes.
#[derive(Clone, Copy)]
pub enum Show {
    /// The outcome of each line of an event.
    Outcomes,
    /// That, and at the end of the trace the log: a line for each reply and for each page
    /// that got a copy of its own, in order.
    OutcomesAndLog,
    /// No outcome, and at the end of the trace the list of mappings: a line for each
    /// range of neighbouring pages, in order.
    Maps,
}
