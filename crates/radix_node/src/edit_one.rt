//! A change of one page.
ghost use Rattle.std.specs.Prelude.{◌≡◌, ◌≢◌, ℕ, ◌+◌, ◌*◌, ◌<◌};
ghost use Rattle.radix_node.specs.Run.{width_of, cell_at, IsWhole};
ghost use Rattle.radix_node.specs.Node.{runs};
ghost use Rattle.radix_node.specs.Edit.{CanEdit, edited_cell};

use crate::edit::Edit;
use crate::node::{Node, Slot};
use crate::place::place_of;
use std::alloc::Allocator;

impl<A: Allocator> Node<A> {
    /// Changes a page that is a slot of its own, by one index in each level: what `edit` does of a
    /// range of one page.
    pub fn edit_one(&mut self, page: u64, edit: &Edit)
        requires within { page < 512 * width_of self.old.level }
        requires begins { (cell_at (runs self.old) page).offset ≡ 0 }
        requires ends { (cell_at (runs self.old) (page + 1)).offset ≡ 0 }
        requires sound { CanEdit edit.now 1 }
        ensures level { self.new.level ≡ self.old.level }
        ensures whole { IsWhole self.new.level (512 * width_of self.new.level) (runs self.new) }
        ensures here { cell_at (runs self.new) page ≡ edited_cell edit.now 0
            (cell_at (runs self.old) page) }
        ensures others { (p : ℕ) → p ≢ page → cell_at (runs self.new) p ≡ cell_at (runs self.old) p }
    {
        let place = place_of(self.level, page);
        match &mut self.slots[place.slot] {
            Slot::Own(state) => state.edit(edit, 0),
            Slot::Child(node) => node.edit_one(place.rest, edit),
        }
    }
}
