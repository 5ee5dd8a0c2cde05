//! A slot of the list: pages from its start up to the next one's.
ghost use Rattle.std.specs.Prelude.{◌≡◌, ℕ, ◌+◌, ◌-◌, ◌^◌, ◌<◌, ◌≤◌, OnOk, OnErr, IsTrue, ◌↔◌, None};
ghost use Rattle.std.specs.Prelude.{Some, false, length};
ghost use Rattle.std.specs.Vec.{vec_len, vec_capacity};
ghost use Rattle.vm_base.specs.Pages.{IsPage};
ghost use Rattle.vm_base.specs.Info.{info_with_prot, info_from, info_file_page, is_leaf};
ghost use Rattle.slot_lock.specs.Plan.{IsSoundChange, range_of};
ghost use Rattle.slot_lock.specs.SlotList.{IsSlotList, HasPageAt, IsInner, IsInsideSlot, IsJoint, get_slot, cut_list};
ghost use Rattle.slot_lock.specs.Slots.{Divides, DividesAs, HasMeta, IsCut, CanJoin, Folds, with_owner};
ghost use Rattle.slot_lock.specs.Slots.{with_info};
ghost use Rattle.slot_lock.specs.Changes.{changed};
ghost use Rattle.slot_lock.specs.ListedSlots.{slots_of, two_parts};

use crate::plan::Change;
use std::alloc::Allocator;
use vm_base::info::{goes_on, info_from, protected};
use vm_base::{CoreId, NoMemory, PageInfo, is_leaf};

/// A slot: the pages from `start` up to the next slot's.
#[derive(Clone, Copy)]
pub struct Slot {
    pub start: u64,
    pub owner: Option<CoreId>,
    pub info: Option<PageInfo>,
}

impl Slot {
    ghost use Rattle.slot_lock.specs.SlotList.{changed_slot, AreOne};

    /// The slot after a change of its pages, which lie in the range of the change.
    fn changed(self, change: Change) -> Slot
        requires sound { IsSoundChange change }
        requires from { (range_of change).first ≤ self.start }
        requires below { self.start < (range_of change).end }
        ensures { result ≡ changed_slot change self }
    {
        let info = match change {
            Change::Put { range, meta } => {
                Some(PageInfo::unused(meta.advanced(self.start - range.first)))
            }
            Change::Clear { .. } => None,
            Change::Protect { prot, .. } => protected(self.info, prot),
        };
        Slot { info, ..self }
    }

    // Tells whether the slot and one that begins at its end can be one slot.
    fn joins(self, next: Slot) -> bool
        requires later { self.start ≤ next.start }
        requires fits { info_file_page self.info + next.start < 2 ^ 64 }
        ensures { IsTrue result ↔ AreOne self next }
    {
        if !is_plain(self.owner, self.info) || !is_plain(next.owner, next.info) {
            return false;
        }
        goes_on(self.info, next.info, next.start - self.start)
    }
}

// Tells whether nobody holds a slot, and its pages have no frame and no recorded core.
fn is_plain(owner: Option<CoreId>, info: Option<PageInfo>) -> bool
    ensures { IsTrue result ↔ ((owner ≡ None) × (is_leaf info ≡ false)) }
{
    owner.is_none() && !is_leaf(info)
}

/// The place of the slot that has the page.
pub(crate) fn place(slots: &[Slot], page: u64) -> usize
    requires { IsSlotList slots.now }
    ensures { HasPageAt slots.now page result }
{
    let mut low = 0;
    let mut high = slots.len();
    'halves: while high - low > 1 {
        let middle = low + (high - low) / 2;
        if slots[middle].start <= page {
            low = middle;
        } else {
            high = middle;
        }
    }
    low
}

/// Cuts the slot at a place in two, at a page inside it. A refusal for memory changes nothing.
pub(crate) fn cut<A: Allocator>(slots: &mut Vec<Slot, A>, i: usize, at: u64) -> Result<(), NoMemory>
    requires list { IsSlotList slots.old.items }
    requires inside { IsInsideSlot slots.old.items i at }
    ensures list { IsSlotList slots.new.items }
    ensures items { OnOk result (slots.new.items ≡ cut_list slots.old.items i at) }
    ensures ok { OnOk result (Divides (slots_of slots.old.items) (slots_of slots.new.items)
        (get_slot slots.old.items i).owner at) }
    ensures exact { OnOk result
        (DividesAs two_parts (slots_of slots.old.items) (slots_of slots.new.items) at) }
    ensures err { OnErr result (slots.new.items ≡ slots.old.items) }
    ensures full { OnErr result (vec_capacity slots.old ≤ vec_len slots.old) }
    ensures capacity { vec_capacity slots.old ≤ vec_capacity slots.new }
{
    let slot = slots[i];
    let tail = Slot {
        start: at,
        owner: slot.owner,
        info: info_from(slot.info, at - slot.start),
    };
    slots.insert(i + 1, tail)?;
    Ok(())
}

/// Gives the slot at a place another owner.
pub(crate) fn set_owner<A: Allocator>(slots: &mut Vec<Slot, A>, i: usize, owner: Option<CoreId>)
    requires list { IsSlotList slots.old.items }
    requires inner { IsInner slots.old.items i }
    ensures list { IsSlotList slots.new.items }
    ensures slots { slots_of slots.new.items ≡ with_owner (slots_of slots.old.items)
        (get_slot slots.old.items i).start (get_slot slots.old.items (i + 1)).start owner }
{
    slots[i].owner = owner;
}

/// Gives the slot at a place, which is one mapped page, another frame and other cores.
pub(crate) fn set_info<A: Allocator>(slots: &mut Vec<Slot, A>, i: usize, info: PageInfo)
    requires list { IsSlotList slots.old.items }
    requires inner { IsInner slots.old.items i }
    requires one { (get_slot slots.old.items (i + 1)).start ≡ (get_slot slots.old.items i).start + 1 }
    requires meta { HasMeta (get_slot slots.old.items i).info info.meta }
    ensures list { IsSlotList slots.new.items }
    ensures slots { slots_of slots.new.items ≡ with_info (slots_of slots.old.items)
        (get_slot slots.old.items i).start (Some info) }
{
    slots[i].info = Some(info);
}

/// Changes each page of a range that no slot crosses the edge of. Only the slots of the range are read.
pub(crate) fn change<A: Allocator>(slots: &mut Vec<Slot, A>, change: Change)
    requires list { IsSlotList slots.old.items }
    requires sound { IsSoundChange change }
    requires cut { IsCut (slots_of slots.old.items) (range_of change) }
    ensures list { IsSlotList slots.new.items }
    ensures slots { slots_of slots.new.items ≡ changed (slots_of slots.old.items) change }
{
    let range = change.range();
    let mut i = place(slots, range.first);
    'slots: while slots[i].start < range.end {
        slots[i] = slots[i].changed(change);
        i += 1;
    }
}

// Tells whether the slot at a place and the next one are two slots that nobody holds, without frame
// and recorded core, whose pages go on from one another.
fn can_join(slots: &[Slot], i: usize) -> bool
    requires list { IsSlotList slots.now }
    requires within { i < length slots.now }
    ensures { IsTrue result ↔ IsJoint slots.now i }
{
    if slots.len() - i <= 2 {
        return false;
    }
    slots[i].joins(slots[i + 1])
}

/// Joins the page's slot with the next one, where nobody holds them, they have no frame and no
/// recorded core, and the pages of the second go on from those of the first. Answers whether it
/// did.
pub(crate) fn fold<A: Allocator>(slots: &mut Vec<Slot, A>, page: u64) -> bool
    requires list { IsSlotList slots.old.items }
    requires page { IsPage page }
    ensures list { IsSlotList slots.new.items }
    ensures joined { IsTrue result → Folds (slots_of slots.old.items) (slots_of slots.new.items) page }
    ensures same { ¬ IsTrue result → slots.new.items ≡ slots.old.items }
    ensures only { ¬ IsTrue result → (at : ℕ) → ¬ CanJoin (slots_of slots.old.items) page at }
{
    let i = place(slots, page);
    if !can_join(slots, i) {
        return false;
    }
    slots.remove(i + 1);
    true
}
