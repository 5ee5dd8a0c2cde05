//! What a core does beside its calls.
ghost use Rattle.std.specs.Prelude.{◌≡◌};
ghost use Rattle.shared.specs.Histories.{event_of};

use machine_model::Event;
use vm_base::CoreId;

/// An event of a core that is no part of a call.
#[derive(Clone, Copy)]
pub enum Aside {
    /// Its TLB gets the page's translation from its tables.
    Walk(u64),
    /// Its TLB drops its translation of the page.
    Evict(u64),
    /// It flushes one of its counts, or ends its part of the epoch.
    Flush,
    /// It reviews the object at the front of its queue.
    Review,
    /// Slots are joined at the page.
    Fold(u64),
}

impl Aside {
    /// The event that it is, made by this core.
    pub fn event(&self, core: CoreId) -> Event
        ensures { result ≡ event_of core self.now }
    {
        match self {
            Aside::Walk(page) => Event::Walk(core, *page),
            Aside::Evict(page) => Event::Evict(core, *page),
            Aside::Flush => Event::Flush(core),
            Aside::Review => Event::Review(core),
            Aside::Fold(page) => Event::Fold(*page),
        }
    }
}
