//! A node: 512 slots, each in a state of its own or with a node below.
ghost use Rattle.std.specs.Prelude.{◌≡◌, ℕ, ◌+◌, ◌*◌, ◌-◌, ◌<◌, ◌≤◌, ◌^◌, IfOk, OnOk, OnErr, IfSome};
ghost use Rattle.std.specs.Prelude.{IfNone, IsTrue, ◌↔◌, false, Some, slice_get, slice_set};
ghost use Rattle.vm_base.specs.Info.{is_leaf, info_file_page};
ghost use Rattle.radix_node.specs.State.{State, state_of, state_from, no_state, IsPlain};
ghost use Rattle.radix_node.specs.Run.{width_of, Run, cell_at, with_run, in_state, in_parts, divided};
ghost use Rattle.radix_node.specs.Run.{CanFoldRuns, FoldsRuns, IsCarried, FitsWidth, IsWhole};
ghost use Rattle.radix_node.specs.Slots.{part_of};
ghost use Rattle.radix_node.specs.Node.{runs, node_of, owns_divided, Own, Below, Expands, IsOwn};
ghost use Rattle.radix_node.specs.Node.{IsBelow, CanFoldSlot, FoldsSlot};

use crate::place::{SLOTS, place_of, slot_pages};
use crate::state::SlotState;
use std::alloc::Allocator;
use std::marker::Model;
use vm_base::NoMemory;

/// A slot of a node.
#[cycle(node)]
#[derive(Drop)]
pub enum Slot<A: Allocator> {
    /// What the slot's pages have, and who holds them.
    Own(SlotState),
    /// The node with 512 slots in place of the slot.
    Child(Box<Node<A>, A>),
}

/// A node of the tree: 512 slots of 512^level pages each. Dropping it frees all below it. A clause
/// sees it as its level and its parts, each of which is a slot's state or the slots below.
#[cycle(node)]
#[derive(Drop)]
pub struct Node<A: Allocator> {
    pub(crate) level: u8,
    pub(crate) slots: Vec<Slot<A>, A>,
}

impl<A: Allocator> Model for Node<A> {
    ghost use Rattle.radix_node.specs.Node.{Parts};

    ghost Value = { Parts };

    ghost use Rattle.radix_node.specs.Slots.{parts_of, IsNode};

    ghost view = { λ a. record { level = a.level; parts = parts_of a.slots.items } };

    ghost invariant = { λ a. IsNode a.level a.slots.items };

    ghost size = { λ v. v.level };

    ghost use Rattle.radix_node.specs.SlotsFall.{most_le-level};

    ghost size_decreases = { λ a h. most_le-level A.Allocator a.level a.slots.items h.lower };
}

/// The slot that has a page.
#[derive(Clone, Copy)]
pub struct FoundSlot<'a> {
    /// What the slot says of its first page.
    pub state: &'a SlotState,
    /// How many of the slot's pages lie before the page.
    pub offset: u64,
    /// How many pages the slot has.
    pub width: u64,
}

impl<A: Allocator> Node<A> {
    /// The node's level, 0 to 3. Its slots have 512^level pages each.
    pub fn level(&self) -> u8
        ensures { result ≡ self.now.level }
    {
        self.level
    }

    /// Tells whether the slot is a child.
    pub fn is_child(&self, slot: usize) -> bool
        requires { slot < 512 }
        ensures child { IsTrue result → IsBelow (slice_get self.now.parts slot) }
        ensures own { ¬ IsTrue result → IsOwn (slice_get self.now.parts slot) }
    {
        matches!(&self.slots[slot], Slot::Child(_))
    }

    /// The slot that has the page, which is counted from the node's first.
    pub fn descend(&self, page: u64) -> FoundSlot<'_>
        requires { page < 512 * width_of self.now.level }
        ensures state { state_of result.state.now ≡ (cell_at (runs self.now) page).state }
        ensures offset { result.offset ≡ (cell_at (runs self.now) page).offset }
        ensures width { result.width ≡ (cell_at (runs self.now) page).width }
    {
        let mut node = self;
        let mut rest = page;
        'levels: loop {
            let place = place_of(node.level, rest);
            match &node.slots[place.slot] {
                Slot::Own(state) => {
                    return FoundSlot {
                        state,
                        offset: place.rest,
                        width: slot_pages(node.level),
                    };
                }
                Slot::Child(below) => {
                    node = below;
                    rest = place.rest;
                }
            }
        }
    }

    // What all pages of the node have as one slot, where no slot is a child, all are plain, and
    // each goes on from the first.
    fn joined(&self) -> Option<SlotState>
        ensures some { IfSome result (λ s. IsPlain (state_of s)
            × (self.now.parts ≡ owns_divided (width_of self.now.level) (state_of s))) }
        ensures sound { IfSome result (λ s. FitsWidth (512 * width_of self.now.level) (state_of s)) }
        ensures none { IfNone result ((s : State) → IsPlain s → ¬ IsCarried (width_of self.now.level) s
            (runs self.now)) }
    {
        let first = match &self.slots[0] {
            Slot::Own(state) => *state,
            Slot::Child(_) => return None,
        };
        if !first.is_plain() {
            return None;
        }
        let width = slot_pages(self.level);
        'slots: for k in 0..SLOTS {
            if !goes_on(&first, &self.slots[k], k as u64 * width) {
                return None;
            }
        }
        Some(first)
    }

    /// Joins the 512 slots of a child to one, where none of them is a child, nobody holds one, they
    /// have no frame and no recorded core, and all are empty or each goes on from the one before.
    /// Answers whether it did.
    pub fn fold(&mut self, slot: usize) -> bool
        requires { slot < 512 }
        ensures level { self.new.level ≡ self.old.level }
        ensures whole { IsWhole self.new.level (512 * width_of self.new.level) (runs self.new) }
        ensures folded { IsTrue result → FoldsSlot self.old self.new slot }
        ensures same { ¬ IsTrue result → self.new ≡ self.old }
        ensures only { ¬ IsTrue result → (s : State) → ¬ CanFoldSlot self.old slot s }
    {
        let joined = match &self.slots[slot] {
            Slot::Own(_) => return false,
            Slot::Child(node) => node.joined(),
        };
        let Some(state) = joined else {
            return false;
        };
        self.slots[slot] = Slot::Own(state);
        true
    }

    // Tells whether the page lies in a slot of a node below this one.
    fn is_below(&self, page: u64) -> bool
        requires { page < 512 * width_of self.now.level }
        ensures { IsTrue result ↔ ((cell_at (runs self.now) page).width < width_of self.now.level) }
    {
        self.descend(page).width < slot_pages(self.level)
    }

    /// Folds the deepest node that has the page, where it isn't this one. Answers whether it did.
    pub fn fold_at(&mut self, page: u64) -> bool
        requires { page < 512 * width_of self.old.level }
        ensures level { self.new.level ≡ self.old.level }
        ensures whole { IsWhole self.new.level (512 * width_of self.new.level) (runs self.new) }
        ensures folded { IsTrue result → FoldsRuns (runs self.old) (runs self.new) page }
        ensures same { ¬ IsTrue result → self.new ≡ self.old }
        ensures only { ¬ IsTrue result → ¬ CanFoldRuns self.old.level (runs self.old) page }
    {
        let place = place_of(self.level, page);
        match &mut self.slots[place.slot] {
            Slot::Own(_) => false,
            Slot::Child(node) => {
                if node.is_below(place.rest) {
                    node.fold_at(place.rest)
                } else {
                    self.fold(place.slot)
                }
            }
        }
    }
}

// Tells whether a slot is no child and goes on from a first one, `by` pages later.
fn goes_on<A: Allocator>(first: &SlotState, slot: &Slot<A>, by: u64) -> bool
    requires plain { IsPlain (state_of first.now) }
    requires fits { info_file_page (state_of first.now).info + by < 2 ^ 64 }
    ensures { IsTrue result ↔ (part_of slot.now ≡ Own (state_from (state_of first.now) by)) }
{
    match slot {
        Slot::Own(state) => first.goes_on(state, by),
        Slot::Child(_) => false,
    }
}

impl<A: Allocator + Clone> Node<A> {
    /// A node of the level with no page mapped and no slot held.
    pub fn new(alloc: A, level: u8) -> Result<Node<A>, NoMemory>
        requires { level ≤ 3 }
        ensures is { IfOk result (λ n. n ≡ node_of level no_state) }
        ensures whole { IfOk result (λ n. IsWhole n.level (512 * width_of n.level) (runs n)) }
    {
        Node::divided(alloc, level, &SlotState::new(None, None))
    }

    // A node of the level whose slots carry on what one slot of its pages says.
    fn divided(alloc: A, level: u8, state: &SlotState) -> Result<Node<A>, NoMemory>
        requires level { level ≤ 3 }
        requires large { is_leaf (state_of state.now).info ≡ false }
        requires fits { info_file_page (state_of state.now).info + 512 * width_of level ≤ 2 ^ 36 }
        ensures is { IfOk result (λ n. n ≡ node_of level (state_of state.now)) }
        ensures whole { IfOk result (λ n. IsWhole n.level (512 * width_of n.level) (runs n)) }
    {
        let width = slot_pages(level);
        let mut slots = match Vec::with_capacity(alloc, SLOTS) {
            Ok(slots) => slots,
            Err(_) => return Err(NoMemory),
        };
        'slots: for k in 0..SLOTS {
            slots.push_reserved(Slot::Own(state.advanced(k as u64 * width)));
        }
        Ok(Node { level, slots })
    }

    /// Makes a slot a child with 512 slots, which carry on the slot's content and its owner. A
    /// refusal for memory changes nothing.
    pub fn expand(&mut self, slot: usize) -> Result<(), NoMemory>
        requires slot { slot < 512 }
        requires above { 0 < self.old.level }
        requires own { IsOwn (slice_get self.old.parts slot) }
        ensures level { self.new.level ≡ self.old.level }
        ensures whole { IsWhole self.new.level (512 * width_of self.new.level) (runs self.new) }
        ensures ok { OnOk result (Expands self.old self.new slot) }
        ensures err { OnErr result (self.new ≡ self.old) }
    {
        let state = match &self.slots[slot] {
            Slot::Own(state) => *state,
            Slot::Child(_) => unreachable!(),
        };
        let Ok(alloc) = self.slots.allocator().clone() else {
            return Err(NoMemory);
        };
        let Ok(below) = self.slots.allocator().clone() else {
            return Err(NoMemory);
        };
        let node = match Node::divided(below, self.level - 1, &state) {
            Ok(node) => node,
            Err(_) => return Err(NoMemory),
        };
        match Box::new(alloc, node) {
            Ok(node) => {
                self.slots[slot] = Slot::Child(node);
                Ok(())
            }
            Err(_) => Err(NoMemory),
        }
    }

    /// Makes 512 slots of the slot that has the page, which is one of several pages. A refusal for
    /// memory changes nothing.
    pub fn expand_at(&mut self, page: u64) -> Result<(), NoMemory>
        requires within { page < 512 * width_of self.old.level }
        requires large { 1 < (cell_at (runs self.old) page).width }
        ensures level { self.new.level ≡ self.old.level }
        ensures whole { IsWhole self.new.level (512 * width_of self.new.level) (runs self.new) }
        ensures ok { OnOk result (runs self.new ≡ with_run in_parts (runs self.old) page) }
        ensures err { OnErr result (self.new ≡ self.old) }
    {
        let place = place_of(self.level, page);
        match &mut self.slots[place.slot] {
            Slot::Child(node) => node.expand_at(place.rest),
            Slot::Own(_) => self.expand(place.slot),
        }
    }
}
