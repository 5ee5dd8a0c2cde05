//! A change of all pages of a range.
ghost use Rattle.std.specs.Prelude.{◌≡◌, ℕ, Some, None, ◌+◌, ◌*◌, ◌-◌, ◌<◌, ◌≤◌, ◌^◌, ◌⊎◌};
ghost use Rattle.radix_node.specs.Run.{width_of, cell_at, IsWhole};
ghost use Rattle.radix_node.specs.Node.{runs};
ghost use Rattle.radix_node.specs.declared.edit.Edit.TheVariants.{Put, Protect};
ghost use Rattle.radix_node.specs.Edit.{CanEdit, EditsNode, edited_cell};

use crate::node::{Node, Slot};
use crate::place::{part_in, place_of, slot_pages, slots_of};
use crate::state::SlotState;
use std::alloc::Allocator;
use vm_base::{PageInfo, Prot};

/// What a change makes of the pages of a range.
#[derive(Clone, Copy)]
pub enum Edit {
    /// The first page has this, and each later page goes on from it.
    Put(Option<PageInfo>),
    /// Each page has this protection, and no recorded core.
    Protect(Prot),
}

impl<A: Allocator> Node<A> {
    // Maps pages as those that follow on the first page of a range, in a node whose slots have one
    // page each.
    fn put_pages(&mut self, first: usize, end: usize, info: &PageInfo, by: u64)
        requires level { self.old.level ≡ 0 }
        requires some { first < end }
        requires within { end ≤ 512 }
        requires few { by + (end - first) ≤ 2 ^ 36 }
        requires sound { CanEdit (Put (Some info.now)) (by + (end - first)) }
        ensures { EditsNode self.old self.new first end by (Put (Some info.now)) }
    {
        let made = SlotState::mapped(*info, None);
        let slots = self.slots.as_mut_slice();
        'pages: for k in first..end {
            match &mut slots[k] {
                Slot::Own(state) => state.follow(&made, by + (k - first) as u64),
                Slot::Child(_) => unreachable!(),
            }
        }
    }

    // Unmaps pages, in a node whose slots have one page each.
    fn clear_pages(&mut self, first: usize, end: usize)
        requires level { self.old.level ≡ 0 }
        requires some { first < end }
        requires within { end ≤ 512 }
        ensures { EditsNode self.old self.new first end 0 (Put None) }
    {
        let slots = self.slots.as_mut_slice();
        'pages: for k in first..end {
            match &mut slots[k] {
                Slot::Own(state) => state.clear(),
                Slot::Child(_) => unreachable!(),
            }
        }
    }

    // Protects pages, in a node whose slots have one page each.
    fn protect_pages(&mut self, first: usize, end: usize, prot: Prot)
        requires level { self.old.level ≡ 0 }
        requires some { first < end }
        requires within { end ≤ 512 }
        ensures { EditsNode self.old self.new first end 0 (Protect prot) }
    {
        let slots = self.slots.as_mut_slice();
        'pages: for k in first..end {
            match &mut slots[k] {
                Slot::Own(state) => state.protect(prot),
                Slot::Child(_) => unreachable!(),
            }
        }
    }

    // Changes pages as `edit` does, in a node whose slots have one page each. The kind of change is
    // matched once, and not for each slot.
    fn edit_pages(&mut self, first: usize, end: usize, edit: &Edit, by: u64)
        requires level { self.old.level ≡ 0 }
        requires some { first < end }
        requires within { end ≤ 512 }
        requires few { by + (end - first) ≤ 2 ^ 36 }
        requires sound { CanEdit edit.now (by + (end - first)) }
        ensures level { self.new.level ≡ self.old.level }
        ensures whole { IsWhole self.new.level (512 * width_of self.new.level) (runs self.new) }
        ensures inside { (p : ℕ) → first ≤ p → p < end
            → cell_at (runs self.new) p ≡ edited_cell edit.now (by + (p - first))
            (cell_at (runs self.old) p) }
        ensures outside { (p : ℕ) → (p < first) ⊎ (end ≤ p)
            → cell_at (runs self.new) p ≡ cell_at (runs self.old) p }
    {
        match edit {
            Edit::Put(None) => self.clear_pages(first, end),
            Edit::Put(Some(info)) => self.put_pages(first, end, info, by),
            Edit::Protect(prot) => self.protect_pages(first, end, *prot),
        }
    }

    /// Changes the node's pages from `first` up to `end`, whose edges no slot crosses, as those of
    /// a range that begins `by` pages before them.
    pub fn edit(&mut self, first: u64, end: u64, edit: &Edit, by: u64)
        requires some { first < end }
        requires within { end ≤ 512 * width_of self.old.level }
        requires begins { (cell_at (runs self.old) first).offset ≡ 0 }
        requires ends { (cell_at (runs self.old) end).offset ≡ 0 }
        requires few { by + (end - first) ≤ 2 ^ 36 }
        requires sound { CanEdit edit.now (by + (end - first)) }
        ensures level { self.new.level ≡ self.old.level }
        ensures whole { IsWhole self.new.level (512 * width_of self.new.level) (runs self.new) }
        ensures inside { (p : ℕ) → first ≤ p → p < end
            → cell_at (runs self.new) p ≡ edited_cell edit.now (by + (p - first))
            (cell_at (runs self.old) p) }
        ensures outside { (p : ℕ) → (p < first) ⊎ (end ≤ p)
            → cell_at (runs self.new) p ≡ cell_at (runs self.old) p }
    {
        if self.level == 0 {
            return self.edit_pages(first as usize, end as usize, edit, by);
        }
        let width = slot_pages(self.level);
        let place = place_of(self.level, first);
        if end - first <= width - place.rest {
            return match &mut self.slots[place.slot] {
                Slot::Own(state) => state.edit(edit, by),
                Slot::Child(node) => node.edit(place.rest, place.rest + (end - first), edit, by),
            };
        }
        let slots = slots_of(self.level, first, end);
        'slots: for k in slots.from..slots.to {
            let start = k as u64 * width;
            let part = part_in(first, end, start, width);
            let past = by + (start + part.first - first);
            match &mut self.slots[k] {
                Slot::Own(state) => state.edit(edit, past),
                Slot::Child(node) => node.edit(part.first, part.end, edit, past),
            }
        }
    }
}
