//! Walks over the slots of a range, from left to right.
ghost use Rattle.std.specs.Prelude.{◌≡◌, ℕ, ◌+◌, ◌^◌, ◌<◌, ◌≤◌, ◌↔◌, IfSome, IfNone, true};
ghost use Rattle.vm_base.specs.Cores.{members};
ghost use Rattle.vm_base.specs.Info.{frame_of};
ghost use Rattle.vm_base.specs.Pages.{IsPageRange};
ghost use Rattle.slot_lock.specs.SlotList.{IsSlotList};
ghost use Rattle.arrayvec.specs.ArrayVec.{array_vec_len};
ghost use Rattle.slot_lock.specs.Framed.{AddsFrames, frames_in};
ghost use Rattle.slot_lock.specs.Slots.{IsFreeRun, IsUser};
ghost use Rattle.slot_lock.specs.ListedSlots.{slots_of};

use crate::framed::{Framed, FramedPages};
use crate::slot::{Slot, place};
use vm_base::info::recorded_cores;
use vm_base::{CoreSet, PageInfo, PageRange};

/// The least start of `n` unmapped pages in the range, if there is one.
pub(crate) fn first_free_run(slots: &[Slot], range: PageRange, n: u64) -> Option<u64>
    requires some { 1 ≤ n }
    requires list { IsSlotList slots.now }
    requires range { IsPageRange range }
    ensures found { IfSome result (IsFreeRun (slots_of slots.now) range n) }
    ensures least { IfSome result (λ s. (r : ℕ) → r < s → ¬ IsFreeRun (slots_of slots.now) range n r) }
    ensures none { IfNone result ((r : ℕ) → ¬ IsFreeRun (slots_of slots.now) range n r) }
{
    let mut i = place(slots, range.first);
    // the pages from here up to the slot at i are unmapped, and too few
    let mut start = range.first;
    'slots: while slots[i].start < range.end {
        let next = slots[i + 1].start;
        if slots[i].info.is_some() {
            start = next;
        } else if n <= next.min(range.end) - start {
            return Some(start);
        }
        i += 1;
    }
    None
}

/// The cores that are recorded on some page of the range.
pub(crate) fn recorded(slots: &[Slot], range: PageRange) -> CoreSet
    requires list { IsSlotList slots.now }
    requires range { IsPageRange range }
    ensures { (core : ℕ) → (members result core ≡ true) ↔ IsUser (slots_of slots.now) range core }
{
    let mut i = place(slots, range.first);
    let mut cores = CoreSet::empty();
    'slots: while slots[i].start < range.end {
        cores = cores.union(recorded_cores(&slots[i].info));
        i += 1;
    }
    cores
}

// The frame of a page, if it has one.
fn frame_of(info: Option<PageInfo>) -> Option<u32>
    ensures { result ≡ frame_of info }
{
    match info {
        None => None,
        Some(info) => info.frame,
    }
}

/// Adds the pages from `from` up to `end` that have a frame, and their frames, to the list, in
/// order of pages, until it is full. Answers the page up to which none is left out.
pub(crate) fn list_frames(slots: &[Slot], from: u64, end: u64, list: &mut FramedPages) -> u64
    requires list { IsSlotList slots.now }
    requires ordered { from ≤ end }
    requires end { end ≤ 2 ^ 35 }
    ensures low { from ≤ result }
    ensures high { result ≤ end }
    ensures added { AddsFrames (frames_in (slots_of slots.now)) from result
        list.old.items list.new.items }
    ensures full { result < end → array_vec_len list.new ≡ 32 }
{
    let mut i = place(slots, from);
    'slots: while slots[i].start < end {
        if let Some(frame) = frame_of(slots[i].info) {
            let page = slots[i].start;
            if list.is_full() {
                return page;
            }
            list.push(Framed { page, frame });
        }
        i += 1;
    }
    end
}
