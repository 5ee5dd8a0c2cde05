//! What is found on the pages of a range: each slot, and each node that has some of them, is
//! visited once.
ghost use Rattle.std.specs.Prelude.{◌≡◌, ℕ, ◌+◌, ◌^◌, ◌<◌, ◌≤◌, ◌↔◌, IfSome, IfNone, true};
ghost use Rattle.vm_base.specs.Cores.{members};
ghost use Rattle.vm_base.specs.Pages.{IsPageRange};
ghost use Rattle.arrayvec.specs.ArrayVec.{array_vec_len};
ghost use Rattle.slot_lock.specs.Framed.{AddsFrames, frames_in};
ghost use Rattle.slot_lock.specs.Slots.{IsFreeRun, IsUser};
ghost use Rattle.slot_lock.specs.Surveys.{AreFree};
ghost use Rattle.radix_range.specs.Tree.{IsRadix, tree_slots};
ghost use Rattle.radix_range.specs.Mapped.{IsMappedRun};

use crate::slot::slot_at;
use radix_node::{FreeRun, Node};
use slot_lock::{FramedPages, Survey};
use std::alloc::Allocator;
use vm_base::{CoreId, CoreSet, PageRange};

// The least start of `n` unmapped pages in the range, if there is one. There may be no pages in it.
fn free_run<A: Allocator>(root: &Node<A>, range: PageRange, n: u64) -> Option<u64>
    requires some { 1 ≤ n }
    requires tree { IsRadix root.now }
    requires high { range.end ≤ 2 ^ 36 }
    ensures found { IfSome result (IsFreeRun (tree_slots root.now) range n) }
    ensures least { IfSome result (λ s. (r : ℕ) → r < s → ¬ IsFreeRun (tree_slots root.now) range n r) }
    ensures none { IfNone result ((r : ℕ) → ¬ IsFreeRun (tree_slots root.now) range n r) }
{
    if range.end <= range.first {
        return None;
    }
    match root.free_run(0, range.first, range.end, n, range.first) {
        FreeRun::Found(start) => Some(start),
        FreeRun::Open(_) => None,
    }
}

/// The least start of `n` unmapped pages in the range, if there is one. There may be no pages in it.
/// Pages that are known to be mapped aren't looked at.
pub(crate) fn first_free_run<A: Allocator>(
    root: &Node<A>,
    full: PageRange,
    range: PageRange,
    n: u64,
) -> Option<u64>
    requires some { 1 ≤ n }
    requires tree { IsRadix root.now }
    requires full { IsMappedRun (tree_slots root.now) full }
    requires high { range.end ≤ 2 ^ 36 }
    ensures found { IfSome result (IsFreeRun (tree_slots root.now) range n) }
    ensures least { IfSome result (λ s. (r : ℕ) → r < s → ¬ IsFreeRun (tree_slots root.now) range n r) }
    ensures none { IfNone result ((r : ℕ) → ¬ IsFreeRun (tree_slots root.now) range n r) }
{
    let first = full.first.max(range.first);
    let end = full.end.min(range.end);
    if end <= first {
        return free_run(root, range, n);
    }
    let front = PageRange {
        first: range.first,
        end: first,
    };
    match free_run(root, front, n) {
        Some(start) => Some(start),
        None => {
            let rest = PageRange {
                first: end,
                end: range.end,
            };
            free_run(root, rest, n)
        }
    }
}

/// The cores that are recorded on some page of the range.
pub(crate) fn recorded<A: Allocator>(root: &Node<A>, range: PageRange) -> CoreSet
    requires tree { IsRadix root.now }
    requires range { IsPageRange range }
    ensures { (core : ℕ) → (members result core ≡ true) ↔ IsUser (tree_slots root.now) range core }
{
    root.recorded(range.first, range.end)
}

/// What the slots of the range have together, where nobody holds them, and none crosses an edge of
/// it. It tells nothing where another core than this is recorded on some page.
pub(crate) fn survey<A: Allocator>(root: &Node<A>, core: CoreId, range: PageRange) -> Option<Survey>
    requires tree { IsRadix root.now }
    requires range { IsPageRange range }
    ensures { IfSome result (AreFree (tree_slots root.now) range) }
{
    if slot_at(root, range.first).first < range.first {
        return None;
    }
    if slot_at(root, range.end).first < range.end {
        return None;
    }
    let found = root.survey(range.first, range.end, core)?;
    Some(found)
}

/// Adds the pages from `from` up to `end` that have a frame, and their frames, to the list, in
/// order of pages, until it is full. Answers the page up to which none is left out.
pub(crate) fn list_frames<A: Allocator>(
    root: &Node<A>,
    from: u64,
    end: u64,
    list: &mut FramedPages,
) -> u64
    requires tree { IsRadix root.now }
    requires ordered { from ≤ end }
    requires end { end ≤ 2 ^ 35 }
    ensures low { from ≤ result }
    ensures high { result ≤ end }
    ensures added { AddsFrames (frames_in (tree_slots root.now)) from result
        list.old.items list.new.items }
    ensures full { result < end → array_vec_len list.new ≡ 32 }
{
    if from == end {
        return end;
    }
    root.list_frames(0, from, end, list)
}
