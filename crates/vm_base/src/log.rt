//! The entries of a machine's log.
use crate::cores::CoreId;
use crate::replies::Reply;

/// An entry of the log.
#[derive(Clone, Copy, PartialEq, Eq)]
pub enum Entry {
    /// The call with this number, from 1, has this reply from the event with the number `step` on,
    /// from 1.
    Answer {
        step: u64,
        call: u64,
        core: CoreId,
        reply: Reply,
    },
    /// The private page has a copy of its own from the event with the number `step` on, made for
    /// the store that the call with this number is. Until then it showed its file's page.
    Detach {
        step: u64,
        call: u64,
        page: u64,
    },
}
