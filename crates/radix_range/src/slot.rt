//! The slot of a tree that has a page.
ghost use Rattle.std.specs.Prelude.{◌≡◌, ◌<◌, ◌^◌};
ghost use Rattle.radix_node.specs.State.{state_of};
ghost use Rattle.radix_range.specs.Tree.{IsRadix, tree_slots};
ghost use Rattle.radix_range.specs.Found.{IsSlotOf};

use radix_node::{Node, SlotState};
use std::alloc::Allocator;

/// The slot that has a page.
#[derive(Clone, Copy)]
pub struct SlotRef<'a> {
    /// What the slot says of its first page, and who holds it.
    pub state: &'a SlotState,
    /// The slot's first page.
    pub first: u64,
    /// The page after the slot's last.
    pub end: u64,
}

/// The slot that has the page, by one index in each level.
pub(crate) fn slot_at<A: Allocator>(root: &Node<A>, page: u64) -> SlotRef<'_>
    requires tree { IsRadix root.now }
    requires page { page < 2 ^ 36 }
    ensures { IsSlotOf (tree_slots root.now) page result.first result.end (state_of result.state.now) }
{
    let found = root.descend(page);
    let first = page - found.offset;
    SlotRef {
        state: found.state,
        first,
        end: first + found.width,
    }
}
