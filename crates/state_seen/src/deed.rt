//! What a step does to TLBs and inboxes.
use mmu::entry::Translation;
use slot_lock::Touch;
use vm_base::{CoreId, CoreSet, PageRange};

/// What a step does to TLBs and inboxes, where it is made.
#[derive(Clone, Copy)]
pub enum HardwareStep {
    /// Nothing.
    Nothing,
    /// The core translates an access to a page of which its tables have this entry.
    Translate {
        core: CoreId,
        touch: Touch,
        entry: Option<Translation>,
    },
    /// The core drops its own translations of the range, and tells the other cores of the set.
    Shoot {
        core: CoreId,
        set: CoreSet,
        range: PageRange,
    },
    /// The core acts on its oldest message.
    Take(CoreId),
    /// The core's TLB may get this entry, which its tables have of the page.
    Walk {
        core: CoreId,
        page: u64,
        entry: Option<Translation>,
    },
    /// The core's TLB drops the page.
    Evict {
        core: CoreId,
        page: u64,
    },
}
