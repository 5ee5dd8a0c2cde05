//! What lies under a slot's lock: its place, who is to lock it first, and the history of its changes.
//!
//! Histories are optional, since notes as text have none. A certificate looks at a slot before each step that may
//! change it, and at the end; one look settles all tickets in between.
ghost use Rattle.std.specs.Prelude.{◌≡◌, ℕ, ◌+◌, ◌-◌, ◌<◌, ◌≤◌, ◌^◌, false, true, [], ◌∷◌, ◌++◌, None, IfOk};
ghost use Rattle.std.specs.Prelude.{OnErr, OnOk};
ghost use Rattle.vm_base.specs.Info.{info_file_page, is_leaf};
ghost use Rattle.live_levels.specs.Replay.{replay, dated};
ghost use Rattle.live_levels.specs.Slots.{SlotView, IsSlotView, Suits, changed};

use crate::act::{Act, SlotChange, after};
use std::alloc::{AllocError, Allocator};
use std::marker::Model;
use vm_base::{CoreId, PageInfo};

/// A slot of neighbouring pages: its place, the core that is to lock it first, what its pages have,
/// and the changes that led to it, each under its ticket. The first change stands apart, so that it
/// takes no memory. Whenever a thread locks the slot, what its first page has is the replay of its
/// changes; a page with a frame or a recorded core is a slot of its own. It says itself, under its
/// lock, whether it was divided: who has waited for it asks that, since others have its pages then.
#[derive(Drop)]
pub struct SlotState<A: Allocator> {
    first: u64,
    count: u64,
    owner: Option<CoreId>,
    content: Option<PageInfo>,
    begun: Option<SlotChange>,
    later: Vec<SlotChange, A>,
    divided: bool,
}

impl<A: Allocator> Model for SlotState<A> {
    ghost use Rattle.std.specs.Prelude.{◌≡◌, ◌-◌, vec_len, vec_capacity};
    ghost use Rattle.live_levels.specs.Replay.{history};
    ghost use Rattle.live_levels.specs.Slots.{SlotView, slot_view, IsSlotView};

    ghost Value = { SlotView };

    ghost view = { λ s. slot_view s.first s.count s.owner s.content (history s.begun s.later.items)
        (vec_capacity s.later - vec_len s.later) s.divided };

    ghost invariant = { λ s. IsSlotView (slot_view s.first s.count s.owner s.content
        (history s.begun s.later.items) (vec_capacity s.later - vec_len s.later) s.divided) };
}

impl<A: Allocator> SlotState<A> {
    /// An unmapped slot with no history.
    pub fn new(alloc: A, first: u64, count: u64) -> SlotState<A>
        requires some { 1 ≤ count }
        requires place { first + count ≤ 2 ^ 36 }
        ensures place { (result.first ≡ first) × (result.count ≡ count) × (result.owner ≡ None) }
        ensures unmapped { (result.content ≡ None) × (result.changes ≡ []) }
        ensures whole { result.divided ≡ false }
    {
        SlotState {
            first,
            count,
            owner: None,
            content: None,
            begun: None,
            later: Vec::new(alloc),
            divided: false,
        }
    }

    /// The number of the slot's first page.
    pub fn first(&self) -> u64
        ensures first { result ≡ self.now.first }
        ensures place { result + self.now.count ≤ 2 ^ 36 }
    {
        self.first
    }

    /// How many pages the slot has.
    pub fn count(&self) -> u64
        ensures count { result ≡ self.now.count }
        ensures some { 1 ≤ result }
    {
        self.count
    }

    /// The core that is to lock the slot first: the one that cut it from a larger slot.
    pub fn owner(&self) -> Option<CoreId>
        ensures { result ≡ self.now.owner }
    {
        self.owner
    }

    /// Lets this core, or any, lock the slot next.
    pub fn set_owner(&mut self, owner: Option<CoreId>)
        ensures { self.new ≡ record self.old { owner = owner } }
    {
        self.owner = owner;
    }

    /// Tells whether the slot was divided, so that others have its pages.
    pub fn is_divided(&self) -> bool
        ensures { result ≡ self.now.divided }
    {
        self.divided
    }

    // The slot is divided from now on, until it stands for its parts.
    pub(crate) fn set_divided(&mut self)
        ensures { self.new ≡ record self.old { divided = true } }
    {
        self.divided = true;
    }

    /// What the slot's first page has: the replay of its changes.
    pub fn content(&self) -> Option<PageInfo>
        ensures content { result ≡ self.now.content }
        ensures replay { result ≡ replay self.now.changes }
        ensures fits { info_file_page result + self.now.count ≤ 2 ^ 36 }
        ensures alone { 1 < self.now.count → is_leaf result ≡ false }
    {
        self.content
    }

    /// A copy of the changes, in their order.
    pub(crate) fn history(&self, alloc: A) -> Result<Vec<SlotChange, A>, AllocError>
        ensures { IfOk result (λ v. v.items ≡ self.now.changes) }
    {
        let mut all = Vec::new(alloc);
        if let Some(begun) = self.begun {
            all.push(begun)?;
        }
        all.extend_from_slice(self.later.as_slice())?;
        Ok(all)
    }

    /// How many changes fit without memory.
    pub fn room(&self) -> usize
        ensures { result ≡ self.now.room }
    {
        self.later.capacity() - self.later.len()
    }

    /// Makes room for this many changes more. A refusal changes nothing.
    pub fn reserve(&mut self, more: usize) -> Result<(), AllocError>
        ensures ok { OnOk result (more ≤ self.new.room) }
        ensures same { self.new ≡ record self.old { room = self.new.room } }
        ensures err { OnErr result (self.new ≡ self.old) }
    {
        self.later.reserve(more)
    }

    /// One change, under its ticket, in room that was made before.
    pub fn change(&mut self, ticket: u64, act: Act)
        requires room { 0 < self.old.room }
        requires suits { Suits act self.old.count }
        ensures { self.new ≡ changed self.old (dated ticket act) }
    {
        self.content = after(self.content, &act);
        self.later.push_reserved(SlotChange { ticket, act });
    }

    /// The slot begins anew, with one change and this owner, and isn't divided. It takes no memory,
    /// and keeps its place.
    pub fn restart(&mut self, ticket: u64, act: Act, owner: Option<CoreId>)
        requires suits { Suits act self.old.count }
        ensures place { (self.new.first ≡ self.old.first) × (self.new.count ≡ self.old.count)
            × (self.new.owner ≡ owner) }
        ensures begun { self.new.changes ≡ dated ticket act ∷ [] }
        ensures content { self.new.content ≡ replay self.new.changes }
        ensures whole { self.new.divided ≡ false }
    {
        self.owner = owner;
        self.content = after(None, &act);
        self.begun = Some(SlotChange { ticket, act });
        self.later.clear();
        self.divided = false;
    }
}
