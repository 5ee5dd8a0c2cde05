//! What a core is asked, and what it answers by.
use vm_base::{CoreId, PageRange};

/// What a core is asked to do with the pages of a range: first to clear its table entries, then to
/// invalidate its TLB.
#[derive(Clone, Copy)]
pub struct Message {
    /// The core that waits for it to be done.
    pub from: CoreId,
    pub range: PageRange,
    /// The tables are cleared, and the TLB is still to be invalidated.
    pub is_cleared: bool,
}

/// What a core has to do for the oldest message of its inbox.
#[derive(Clone, Copy)]
pub enum Took {
    /// Clear the table entries of the range.
    Clear(PageRange),
    /// Invalidate the range in the TLB. The message is acknowledged.
    Invalidate(PageRange),
    /// There is no message.
    Idle,
}

impl Default for Message {
    // What a place of an inbox holds that no message is in.
    fn default() -> Message {
        Message {
            from: CoreId::new(0),
            range: PageRange { first: 0, end: 0 },
            is_cleared: false,
        }
    }
}
