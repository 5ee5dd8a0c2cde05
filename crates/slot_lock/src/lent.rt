//! Slots that are added to a list of slots from left to right.
ghost use Rattle.std.specs.Prelude.{◌≡◌, ◌≢◌, ℕ, ◌+◌, ◌-◌, ◌^◌, ◌<◌, ◌≤◌, OnOk, OnErr, IsTrue, IfSome};
ghost use Rattle.std.specs.Prelude.{IfNone, ◌↔◌, None, length};
ghost use Rattle.std.specs.Vec.{vec_len, vec_capacity};
ghost use Rattle.vm_base.specs.Info.{info_file_page};
ghost use Rattle.slot_lock.specs.SlotList.{IsSlotList, IsInner, get_slot};
ghost use Rattle.slot_lock.specs.ListedSlots.{slots_of};
ghost use Rattle.slot_lock.specs.Adding.{IsFreeRest, IsSoundSlot, CanAdd, with_edge, filled, with_slot};

use crate::slot::{self, Slot};
use std::alloc::Allocator;
use vm_base::page::PAGE_LIMIT;
use vm_base::{Back, CoreId, NoMemory, PageInfo, is_leaf};

fn file_page(info: &Option<PageInfo>) -> u64
    ensures { result ≡ info_file_page info.now }
{
    match info {
        None => 0,
        Some(info) => match info.meta.back {
            Back::Anon => 0,
            Back::Shared { page, .. } | Back::Private { page, .. } => page,
        },
    }
}

// Tells whether a slot can have these pages, where its first page has this.
fn is_sound(first: u64, end: u64, info: &Option<PageInfo>) -> bool
    ensures { IsTrue result ↔ IsSoundSlot first end info.now }
{
    if end <= first || PAGE_LIMIT < end {
        return false;
    }
    let size = end - first;
    if is_leaf(*info) && size != 1 {
        return false;
    }
    file_page(info) <= PAGE_LIMIT - size
}

// Where the pages after the last slot begin, if nobody holds them and nothing is mapped there.
fn rest_of(slots: &[Slot]) -> Option<u64>
    requires { IsSlotList slots.now }
    ensures some { IfSome result (IsFreeRest (slots_of slots.now)) }
    ensures none { IfNone result ((start : ℕ) → ¬ IsFreeRest (slots_of slots.now) start) }
{
    let rest = slots[slots.len() - 2];
    if rest.owner.is_some() {
        return None;
    }
    if rest.info.is_some() {
        return None;
    }
    Some(rest.start)
}

/// Tells whether a slot of these pages, whose first has this, follows on from the last one.
pub(crate) fn can_add(slots: &[Slot], first: u64, end: u64, info: &Option<PageInfo>) -> bool
    requires { IsSlotList slots.now }
    ensures { IsTrue result ↔ CanAdd (slots_of slots.now) first end info.now }
{
    let Some(rest) = rest_of(slots) else {
        return false;
    };
    let is_next = first == rest;
    let is_first = rest == 1 && 1 <= first;
    (is_next || is_first) && is_sound(first, end, info)
}

// Begins a slot at a page of the last one, in room that there is, and answers its place.
fn begin<A: Allocator>(slots: &mut Vec<Slot, A>, last: usize, first: u64) -> usize
    requires list { IsSlotList slots.old.items }
    requires last { last + 2 ≡ length slots.old.items }
    requires low { (get_slot slots.old.items last).start ≤ first }
    requires high { first < 2 ^ 35 }
    requires room { vec_len slots.old < vec_capacity slots.old }
    ensures list { IsSlotList slots.new.items }
    ensures slots { slots_of slots.new.items ≡ with_edge (slots_of slots.old.items) first }
    ensures place { result + 2 ≡ length slots.new.items }
    ensures start { (get_slot slots.new.items result).start ≡ first }
    ensures len { vec_len slots.new ≤ vec_len slots.old + 1 }
    ensures capacity { vec_capacity slots.old ≤ vec_capacity slots.new }
{
    if first <= slots[last].start {
        return last;
    }
    if let Err(_) = slot::cut(slots, last, first) {
        unreachable!();
    }
    last + 1
}

// Ends the last slot at a page, in room that there is.
fn end_at<A: Allocator>(slots: &mut Vec<Slot, A>, i: usize, end: u64)
    requires list { IsSlotList slots.old.items }
    requires place { i + 2 ≡ length slots.old.items }
    requires above { (get_slot slots.old.items i).start < end }
    requires high { end ≤ 2 ^ 35 }
    requires room { vec_len slots.old < vec_capacity slots.old }
    ensures list { IsSlotList slots.new.items }
    ensures slots { slots_of slots.new.items ≡ with_edge (slots_of slots.old.items) end }
    ensures within { i + 1 < length slots.new.items }
    ensures start { (get_slot slots.new.items i).start ≡ (get_slot slots.old.items i).start }
    ensures end { (get_slot slots.new.items (i + 1)).start ≡ end }
{
    if end < PAGE_LIMIT {
        if let Err(_) = slot::cut(slots, i, end) {
            unreachable!();
        }
    }
}

// Gives the slot at a place this owner and this content.
fn fill<A: Allocator>(
    slots: &mut Vec<Slot, A>,
    i: usize,
    owner: Option<CoreId>,
    info: &Option<PageInfo>,
)
    requires list { IsSlotList slots.old.items }
    requires inner { IsInner slots.old.items i }
    requires sound { IsSoundSlot (get_slot slots.old.items i).start
        (get_slot slots.old.items (i + 1)).start info.now }
    ensures list { IsSlotList slots.new.items }
    ensures slots { slots_of slots.new.items ≡ filled (slots_of slots.old.items)
        (get_slot slots.old.items i).start (get_slot slots.old.items (i + 1)).start owner info.now }
{
    let start = slots[i].start;
    slots[i] = Slot {
        start,
        owner,
        info: *info,
    };
}

/// Adds a slot that follows on. A refusal for memory changes nothing.
pub(crate) fn add<A: Allocator>(
    slots: &mut Vec<Slot, A>,
    first: u64,
    end: u64,
    owner: Option<CoreId>,
    info: &Option<PageInfo>,
) -> Result<(), NoMemory>
    requires list { IsSlotList slots.old.items }
    requires can { CanAdd (slots_of slots.old.items) first end info.now }
    ensures list { IsSlotList slots.new.items }
    ensures ok { OnOk result
        (slots_of slots.new.items ≡ with_slot (slots_of slots.old.items) first end owner info.now) }
    ensures err { OnErr result (slots.new.items ≡ slots.old.items) }
{
    slots.reserve(2)?;
    let last = slots.len() - 2;
    let i = begin(slots, last, first);
    end_at(slots, i, end);
    fill(slots, i, owner, info);
    Ok(())
}
