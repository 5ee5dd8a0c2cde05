//! Pages that were seen unmapped.
ghost use Rattle.std.specs.Prelude.{◌≡◌, ◌+◌, ◌≤◌, None};
ghost use Rattle.live_levels.specs.Slots.{HasPage};

use live_levels::slot::SlotState;
use std::alloc::Allocator;

/// Pages side by side. Each was in a slot that was locked and unmapped then: only `with` makes it
/// longer.
#[derive(Clone, Copy)]
pub struct Room {
    first: u64,
    end: u64,
    ghost ordered: { first ≤ end },
}

impl Room {
    /// No page yet. The first is to be this one.
    pub(crate) fn at(page: u64) -> Room
        ensures { (result.first ≡ page) × (result.end ≡ page) }
    {
        Room {
            first: page,
            end: page,
        }
    }

    /// With the rest of a slot's pages. The slot is locked and unmapped, and has the next page.
    pub(crate) fn with<A: Allocator>(self, slot: &SlotState<A>) -> Room
        requires next { HasPage slot.now self.end }
        requires unmapped { slot.now.content ≡ None }
        ensures first { result.first ≡ self.first }
        ensures end { result.end ≡ slot.now.first + slot.now.count }
    {
        Room {
            first: self.first,
            end: slot.first() + slot.count(),
        }
    }

    /// The first page.
    pub fn first(&self) -> u64
        ensures { result ≡ self.now.first }
    {
        self.first
    }

    /// The page after the last.
    pub fn end(&self) -> u64
        ensures { result ≡ self.now.end }
    {
        self.end
    }
}
