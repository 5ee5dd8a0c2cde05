//! What a step does to tables.
use vm_base::{CoreId, PageRange};

/// What a step does to the tables of its core, where it is made.
#[derive(Clone, Copy)]
pub enum TableStep {
    /// Nothing.
    Nothing,
    /// They lose the pages of the range.
    Clear { core: CoreId, range: PageRange },
    /// They lose the pages of the core's oldest message, if this is its first take.
    Take(CoreId),
    /// The page gets an entry.
    Install { core: CoreId, page: u64 },
}
