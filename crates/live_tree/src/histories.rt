//! The histories of all slots, as a tree hands them out.
ghost use Rattle.std.specs.Prelude.{◌≡◌, ◌^◌};
ghost use Rattle.std.specs.Arc.{arc_value};
ghost use Rattle.live_levels.specs.Histories.{Chain};

use live_levels::close::SlotHistory;
use seats::Tickets;
use std::alloc::Allocator;
use std::sync::Arc;

/// The histories of slots that lie side by side and have all pages below 2^36, and so all valid
/// pages. Only a tree hands them out, with its word, by which they are known as that tree's.
#[derive(Drop)]
pub struct Histories<A: Allocator> {
    slots: Vec<SlotHistory<A>, A>,
    tickets: Arc<Tickets<A>, A>,
    ghost chain: { ∥ Chain 0 (2 ^ 36) slots.items ∥₁ },
}

impl<A: Allocator> Histories<A> {
    /// These histories, with the word of their tree.
    pub(crate) fn new(slots: Vec<SlotHistory<A>, A>, tickets: Arc<Tickets<A>, A>) -> Histories<A>
        requires { ∥ Chain 0 (2 ^ 36) slots.items ∥₁ }
        ensures word { arc_value result.tickets ≡ arc_value tickets }
        ensures slots { result.slots.items ≡ slots.items }
    {
        Histories { slots, tickets }
    }

    /// The slots, from left to right.
    pub fn slots(&self) -> &[SlotHistory<A>]
        ensures are { result.now ≡ self.now.slots.items }
        ensures chain { ∥ Chain 0 (2 ^ 36) result.now ∥₁ }
    {
        self.slots.as_slice()
    }
}
