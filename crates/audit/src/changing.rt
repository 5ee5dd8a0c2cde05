//! Changes of ranges of pages.
ghost use Rattle.std.specs.Prelude.{◌≡◌, ℕ, ◌+◌, Option, OnOk, OnErr, IfNone, IfSome};
ghost use Rattle.slot_lock.specs.Plan.{IsSoundChange, range_of};
ghost use Rattle.slot_lock.specs.Changes.{IsMappedFor, changed};
ghost use Rattle.slot_lock.specs.Slots.{IsFreePage, IsFreeSlot, IsHeld};
ghost use Rattle.vm_base.specs.Pages.{IsPageRange};
ghost use Rattle.frames.specs.Parts.{frame_bytes, free_frames};
ghost use Rattle.audit.specs.Keeping.{NobodyHolds, Keeps, AreTaken, freed, Forgets, frame_lost, none_cached};

use crate::holding::{hold, let_go, only_core};
use frames::Frames;
use slot_lock::{Change, Framed, FramedPages, FreePage, SlotMap};
use std::alloc::Allocator;
use vm_base::{NoMemory, PageInfo, PageRange};

/// Gives the frames of the listed pages back.
fn give_list<A: Allocator>(frames: &mut Frames<A>, list: &[Framed])
    requires taken { AreTaken list.now frames.old.count (free_frames frames.old) }
    ensures free { free_frames frames.new ≡ freed list.now (free_frames frames.old) }
    ensures bytes { frame_bytes frames.new ≡ frame_bytes frames.old }
    ensures count { frames.new.count ≡ frames.old.count }
{
    'pages: for k in 0..list.len() {
        frames.give(list[k].frame);
    }
}

/// Gives the frames of all pages of the range back, a list of them at a time. The pages still name
/// them, and are about to be mapped anew, or unmapped.
fn forget_bytes<M: SlotMap, A: Allocator>(map: &M, frames: &mut Frames<A>, range: PageRange)
    requires pages { IsPageRange range }
    requires kept { Keeps (M.slots map.now) none_cached frames.old }
    ensures { Forgets (M.slots map.now) frames.old frames.new range }
{
    let mut list = FramedPages::new();
    let mut from = range.first;
    'lists: while from < range.end {
        list.clear();
        from = map.list_frames(from, range.end, &mut list);
        give_list(frames, &list);
    }
}

/// Makes the change of pages that are held.
fn change_held<M: SlotMap, A: Allocator>(map: &mut M, frames: &mut Frames<A>, change: Change)
    requires sound { IsSoundChange change }
    requires held { IsHeld (M.slots map.old) 0 (range_of change) }
    requires mapped { IsMappedFor (M.slots map.old) change }
    requires kept { Keeps (M.slots map.old) none_cached frames.old }
    ensures info { (M.slots map.new).info ≡ (changed (M.slots map.old) change).info }
    ensures owners { (M.slots map.new).owner ≡ (M.slots map.old).owner }
    ensures edges { (M.slots map.new).edge ≡ (M.slots map.old).edge }
    ensures bytes { frame_bytes frames.new ≡ frame_bytes frames.old }
    ensures kept { (cached : ℕ → ℕ → Option ℕ) → Keeps (M.slots map.old) cached frames.old
        → Keeps (M.slots map.new) cached frames.new }
{
    match change {
        Change::Put { range, .. } => {
            forget_bytes(map, frames, range);
            map.change(only_core(), change);
        }
        Change::Clear { range } => {
            forget_bytes(map, frames, range);
            map.change(only_core(), change);
        }
        Change::Protect { .. } => map.change(only_core(), change),
    }
}

/// Makes the change, and gives frames of pages that are mapped anew or unmapped back. Where memory is
/// refused no page changes.
pub fn make_change<M: SlotMap, A: Allocator>(
    map: &mut M,
    frames: &mut Frames<A>,
    change: Change,
) -> Result<(), NoMemory>
    requires sound { IsSoundChange change }
    requires mapped { IsMappedFor (M.slots map.old) change }
    requires free { NobodyHolds (M.slots map.old) }
    requires kept { Keeps (M.slots map.old) none_cached frames.old }
    ensures ok { OnOk result ((M.slots map.new).info ≡ (changed (M.slots map.old) change).info) }
    ensures err { OnErr result ((M.slots map.new).info ≡ (M.slots map.old).info) }
    ensures bytes { frame_bytes frames.new ≡ frame_bytes frames.old }
    ensures kept { (cached : ℕ → ℕ → Option ℕ) → Keeps (M.slots map.old) cached frames.old
        → Keeps (M.slots map.new) cached frames.new }
    ensures free { NobodyHolds (M.slots map.new) }
{
    let range = change.range();
    hold(map, range)?;
    change_held(map, frames, change);
    let_go(map, range.first, range.end);
    Ok(())
}

/// What the only page of a change has, where it is a slot of its own that nobody holds.
pub fn free_alone<M: SlotMap>(map: &M, change: Change) -> Option<FreePage>
    requires { IsSoundChange change }
    ensures one { IfSome result (λ page. (range_of change).end ≡ (range_of change).first + 1) }
    ensures page { IfSome result (IsFreePage (M.slots map.now) (range_of change).first) }
    ensures none { IfNone result ((range_of change).end ≡ (range_of change).first + 1
        → ¬ IsFreeSlot (M.slots map.now) (range_of change).first) }
{
    let range = change.range();
    if range.end - range.first != 1 {
        return None;
    }
    map.free_page(range.first)
}

/// The frame that a page which has this loses by a change of it, if it does.
fn frame_lost(change: Change, info: Option<PageInfo>) -> Option<u32>
    ensures { result ≡ frame_lost change info }
{
    match change {
        Change::Put { .. } | Change::Clear { .. } => info?.frame,
        Change::Protect { .. } => None,
    }
}

/// Makes a change of one page that is a slot of its own, which has this, and gives its frame back where
/// it is mapped anew or unmapped. The page is not held for it.
pub fn change_alone<M: SlotMap, A: Allocator>(
    map: &mut M,
    frames: &mut Frames<A>,
    change: Change,
    page: FreePage,
)
    requires sound { IsSoundChange change }
    requires one { (range_of change).end ≡ (range_of change).first + 1 }
    requires page { IsFreePage (M.slots map.old) (range_of change).first page }
    requires mapped { IsMappedFor (M.slots map.old) change }
    requires kept { Keeps (M.slots map.old) none_cached frames.old }
    ensures slots { M.slots map.new ≡ changed (M.slots map.old) change }
    ensures bytes { frame_bytes frames.new ≡ frame_bytes frames.old }
    ensures kept { (cached : ℕ → ℕ → Option ℕ) → Keeps (M.slots map.old) cached frames.old
        → Keeps (M.slots map.new) cached frames.new }
{
    if let Some(frame) = frame_lost(change, page.info) {
        frames.give(frame);
    }
    map.change_free(change);
}
