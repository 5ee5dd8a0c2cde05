//! Held slots that are cut into smaller ones.
ghost use Rattle.std.specs.Prelude.{◌≡◌, ℕ, ◌+◌, ◌-◌, ◌<◌, ◌≤◌, ◌^◌, ◌↔◌, [], ◌∷◌, ◌++◌, List, Option, Some};
ghost use Rattle.std.specs.Prelude.{get_or, length, map, take, drop, All, IsTrue, IfSome, IfNone, IsSome};
ghost use Rattle.std.specs.List.{insert_slice};
ghost use Rattle.std.specs.declared.sync.MutexGuard.{MutexGuard};
ghost use Rattle.smallvec.specs.SmallVec.{HasRoomFor};
ghost use Rattle.vm_base.specs.Info.{info_file_page, info_from};
ghost use Rattle.live_levels.specs.Parts.{IsDivided};
ghost use Rattle.live_levels.specs.Slots.{SlotView};
ghost use Rattle.live_tree.specs.Cutting.{AddsSlots, CutsAt, CutsNext, IsFirstCrossing, IsPartOf};
ghost use Rattle.live_tree.specs.Guards.{slot_of};
ghost use Rattle.live_tree.specs.Held.{CrossesNoEdge};
ghost use Rattle.live_tree.specs.Shown.{KeepsPages};

use crate::held::{Guards, Held};
use crate::tree::SharedTree;
use live_levels::level::{SlotCut, Stepper};
use live_levels::parts::SLOTS;
use live_levels::place::Division;
use live_levels::slot::SlotState;
use std::alloc::Allocator;
use std::sync::{MutexGuard, Wait};
use vm_base::info::goes_on;
use vm_base::{CoreId, PageInfo, PageRange, is_leaf};

/// The result of a step towards held slots that cross no edge of a range.
#[derive(Clone, Copy)]
pub enum Cutting {
    /// A slot was cut, which was noted.
    Cut,
    /// No held slot crosses an edge of the range.
    Fits,
    /// A cut was noted, but the parts weren't found in the slot's place. It never comes; the call
    /// gives up.
    Unseen,
    /// No memory was there.
    NoMemory,
    /// A slot was in a wrong place, and nothing was noted. It never comes; the call gives up.
    Lost,
}

impl<'a, A: Allocator + Clone> Held<'a, A> {
    /// Tells whether no held slot crosses an edge of the range.
    pub fn fits(&self, range: PageRange) -> bool
        ensures { IsTrue result ↔ All (CrossesNoEdge range) self.now.slots }
    {
        match crossing(&self.guards, range) {
            Some(_) => false,
            None => true,
        }
    }

    /// One step of the core towards held slots that cross no edge of the range: the leftmost that
    /// does is cut into 512, which is noted, and they are held in its place. They are locked while
    /// it is still locked, and no other core may lock them first, so that no page is let go in
    /// between. Want of memory changes nothing.
    pub fn cut_next<R: Wait, S: Stepper>(
        &mut self,
        rt: &R,
        tree: &'a SharedTree<A>,
        stepper: &mut S,
        core: CoreId,
        range: PageRange,
    ) -> Cutting
        requires { S.can_step stepper.old }
        ensures cuts { CutsNext S.stepped stepper.old stepper.new self.old self.new core range result }
        ensures pages { KeepsPages self.old self.new }
    {
        match crossing(&self.guards, range) {
            Some(at) => cut_at(rt, tree, stepper, core, &mut self.guards, at),
            None => Cutting::Fits,
        }
    }
}

// Cuts the slot at this place into 512, and holds them in its place.
fn cut_at<'a, R: Wait, A: Allocator + Clone, S: Stepper>(
    rt: &R,
    tree: &'a SharedTree<A>,
    stepper: &mut S,
    core: CoreId,
    guards: &mut Guards<'a, A>,
    at: usize,
) -> Cutting
    requires step { S.can_step stepper.old }
    requires within { at < length guards.old.items }
    requires some { All IsSome guards.old.items }
    ensures { CutsAt S.stepped stepper.old stepper.new guards.old.items guards.new.items core at result }
{
    if guards.reserve(SLOTS).is_err() {
        return Cutting::NoMemory;
    }
    let Some(Some(slot)) = guards.as_slice().get(at) else {
        unreachable!();
    };
    let first = slot.first();
    let end = first + slot.count();
    let content = slot.content();
    let division = match tree.cut(stepper, core, slot) {
        SlotCut::Cut(division) => division,
        SlotCut::Unseen(_) => return Cutting::Unseen,
        SlotCut::NoMemory => return Cutting::NoMemory,
        SlotCut::Lost => return Cutting::Lost,
    };
    let len = guards.len();
    if !lock_parts(rt, tree, guards, core, first, end, &content) {
        division.give_up();
        guards.truncate(len);
        return Cutting::Unseen;
    }
    mark(division, put_in_place(guards, at));
    Cutting::Cut
}

// Tells whether the slot crosses no edge of the range.
fn fits<A: Allocator>(slot: &SlotState<A>, range: PageRange) -> bool
    ensures { IsTrue result ↔ CrossesNoEdge range slot.now }
{
    let first = slot.first();
    let end = first + slot.count();
    (range.first <= first && end <= range.end) || end <= range.first || range.end <= first
}

// Tells whether the slot of a guard, which is there, crosses no edge of the range.
fn guard_fits<A: Allocator>(guard: &Option<MutexGuard<'_, SlotState<A>>>, range: PageRange) -> bool
    requires { IsSome guard.now }
    ensures { IsTrue result ↔ CrossesNoEdge range (slot_of guard.now) }
{
    match guard {
        Some(slot) => fits(slot, range),
        None => unreachable!(),
    }
}

// The place of the first slot that crosses an edge of the range.
fn crossing<'a, A: Allocator>(guards: &Guards<'a, A>, range: PageRange) -> Option<usize>
    requires { All IsSome guards.now.items }
    ensures some { IfSome result (IsFirstCrossing range (map slot_of guards.now.items)) }
    ensures none { IfNone result (All (CrossesNoEdge range) (map slot_of guards.now.items)) }
{
    'guards: for (at, guard) in guards.as_slice().iter().enumerate() {
        if !guard_fits(guard, range) {
            return Some(at);
        }
    }
    None
}

// Tells whether the core is to lock the slot first.
fn is_own<A: Allocator>(slot: &SlotState<A>, core: CoreId) -> bool
    ensures { IsTrue result → slot.now.owner ≡ Some core }
{
    match slot.owner() {
        Some(owner) => owner.index() == core.index(),
        None => false,
    }
}

// Tells whether the slot's pages have what those of a slot had that begins at the page `from` with this
// content.
fn carries<A: Allocator>(slot: &SlotState<A>, from: u64, whole: &Option<PageInfo>) -> bool
    requires { info_file_page whole.now ≤ 2 ^ 36 }
    ensures from { IsTrue result → from ≤ slot.now.first }
    ensures carried { IsTrue result → slot.now.content ≡ info_from whole.now (slot.now.first - from) }
{
    let first = slot.first();
    if first < from || is_leaf(*whole) || is_leaf(slot.content()) {
        return false;
    }
    goes_on(*whole, slot.content(), first - from)
}

// Tells whether the slot is a part of that one, and the core's.
fn is_part<A: Allocator>(
    slot: &SlotState<A>,
    core: CoreId,
    from: u64,
    whole: &Option<PageInfo>,
) -> bool
    requires { info_file_page whole.now ≤ 2 ^ 36 }
    ensures { IsTrue result → IsPartOf core from whole.now slot.now }
{
    is_own(slot, core) && carries(slot, from, whole)
}

// Locks the 512 parts of the slot that was cut, from the page `first` up to `end`, in room that there
// is, and tells whether they are that.
fn lock_parts<'a, R: Wait, A: Allocator + Clone>(
    rt: &R,
    tree: &'a SharedTree<A>,
    guards: &mut Guards<'a, A>,
    core: CoreId,
    first: u64,
    end: u64,
    content: &Option<PageInfo>,
) -> bool
    requires room { HasRoomFor guards.old 512 }
    requires file { info_file_page content.now ≤ 2 ^ 36 }
    ensures { (n : ℕ) × (next : ℕ) × AddsSlots core first content.now next n guards.old.items guards.new.items
        × (IsTrue result → (n ≡ 512) × (next ≡ end)) }
{
    let mut next = first;
    'parts: for _ in 0..SLOTS {
        if next >= end {
            return false;
        }
        let Some(guard) = tree.lock_at(rt, next) else {
            return false;
        };
        if guard.first() != next || !is_part(&guard, core, first, content) {
            return false;
        }
        next = guard.first() + guard.count();
        guards.push_reserved(Some(guard));
    }
    next == end
}

// Moves the items from `tail` on to `index`, before those that were there.
fn move_tail_to<T>(items: &mut [T], tail: usize, index: usize)
    requires order { index ≤ tail }
    requires within { tail ≤ length items.old }
    ensures { (front back : List T) → items.old ≡ front ++ back → length front ≡ tail
        → items.new ≡ insert_slice front index back }
{
    items[index..].rotate_left(tail - index);
}

// The slot that was divided says so, and is unlocked.
fn mark<A: Allocator>(division: Division, slot: Option<MutexGuard<'_, SlotState<A>>>)
    requires some { IsSome slot }
    requires divided { IsDivided division.divided (slot_of slot) }
{
    match slot {
        Some(mut slot) => division.mark(&mut slot),
        None => unreachable!(),
    }
}

// Puts the last 512 guards in the place of one, and takes that out.
fn put_in_place<'a, A: Allocator>(
    guards: &mut Guards<'a, A>,
    at: usize,
) -> Option<MutexGuard<'a, SlotState<A>>>
    requires { at + 512 < length guards.old.items }
    ensures taken { (gs more : List (Option (MutexGuard SlotView))) → guards.old.items ≡ gs ++ more
        → length more ≡ 512 → result ≡ get_or gs at result }
    ensures placed { (gs more : List (Option (MutexGuard SlotView))) → guards.old.items ≡ gs ++ more
        → length more ≡ 512 → guards.new.items ≡ take at gs ++ (more ++ drop (at + 1) gs) }
{
    let tail = guards.len() - SLOTS;
    move_tail_to(guards.as_mut_slice(), tail, at);
    guards.remove(at + SLOTS)
}
