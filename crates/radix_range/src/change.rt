//! Changes of a tree's slots.
ghost use Rattle.std.specs.Prelude.{◌≡◌, ℕ, ◌+◌, ◌-◌, ◌^◌, ◌<◌, ◌≤◌, ◌↔◌, OnOk, OnErr, IsTrue, true};
ghost use Rattle.std.specs.Prelude.{false, Option, Some, None};
ghost use Rattle.vm_base.specs.Pages.{IsPage, IsPageRange};
ghost use Rattle.slot_lock.specs.Plan.{IsSoundChange, range_of};
ghost use Rattle.slot_lock.specs.Slots.{Divides, DividesAs, HasMeta, IsCut, IsSlot, Joins, Slots};
ghost use Rattle.slot_lock.specs.Slots.{between, with_owner, with_info};
ghost use Rattle.slot_lock.specs.Changes.{changed};
ghost use Rattle.radix_node.specs.Edit.{CanEdit};
ghost use Rattle.radix_range.specs.Tree.{IsRadix, tree_slots};
ghost use Rattle.radix_range.specs.Folds.{CanFold, FoldsNode};
ghost use Rattle.radix_range.specs.Found.{in_512, edited_to};
ghost use Rattle.radix_range.specs.Locking.{TriesLock, HandsRun};

use radix_node::place::slot_pages;
use radix_node::{Edit, Handover, Lock, Node};
use slot_lock::{Change, SlotRun};
use std::alloc::Allocator;
use vm_base::{CoreId, NoMemory, PageInfo, PageRange};

/// Makes 512 slots of the slot that has the valid page and begins before it. A refusal for memory
/// changes nothing.
pub(crate) fn expand<A: Allocator + Clone>(root: &mut Node<A>, page: u64) -> Result<(), NoMemory>
    requires tree { IsRadix root.old }
    requires page { IsPage page }
    requires crossed { (tree_slots root.old).edge page ≡ false }
    ensures tree { IsRadix root.new }
    ensures ok { OnOk result ((at : ℕ) × IsPage at
        × Divides (tree_slots root.old) (tree_slots root.new) ((tree_slots root.old).owner page) at) }
    ensures exact { OnOk result (DividesAs in_512 (tree_slots root.old) (tree_slots root.new) page) }
    ensures err { OnErr result (root.new ≡ root.old) }
{
    root.expand_at(page)
}

/// Locks the slot that has the cursor for the core, in one walk, where nobody holds it, and it
/// begins at the cursor and ends by `end`. Else nothing changes.
pub(crate) fn lock<A: Allocator>(root: &mut Node<A>, core: CoreId, cursor: u64, end: u64) -> Lock
    requires tree { IsRadix root.old }
    requires ordered { cursor < end }
    requires valid { (1 ≤ cursor) × (end ≤ 2 ^ 35) }
    ensures tree { IsRadix root.new }
    ensures tries { TriesLock (tree_slots root.old) (tree_slots root.new) core cursor end result }
{
    root.lock_at(cursor, end - cursor, core)
}

/// Gives slots another owner, in one walk: neighbours of one node, from the one that begins at the
/// cursor on, as long as their owner is the one given. They end by `end`, and are at most `most`.
#[inline(always)]
pub(crate) fn own_run<A: Allocator>(
    root: &mut Node<A>,
    cursor: u64,
    end: u64,
    most: u64,
    owners: &Handover,
) -> SlotRun
    requires tree { IsRadix root.old }
    requires ordered { cursor < end }
    requires valid { (1 ≤ cursor) × (end ≤ 2 ^ 35) }
    ensures tree { IsRadix root.new }
    ensures few { result.slots ≤ most }
    ensures owners { HandsRun (tree_slots root.old) (tree_slots root.new) owners.now cursor end result }
    ensures info { (tree_slots root.new).info ≡ (tree_slots root.old).info }
{
    let run = root.own_run(cursor, end - cursor, most, owners);
    SlotRun {
        slots: run.slots,
        upto: cursor + run.slots * run.width,
    }
}

/// Unlocks the slot that begins at the page, and answers its end.
pub(crate) fn unlock<A: Allocator>(root: &mut Node<A>, page: u64) -> u64
    requires tree { IsRadix root.old }
    requires page { IsPage page }
    requires begins { (tree_slots root.old).edge page ≡ true }
    ensures tree { IsRadix root.new }
    ensures slot { IsSlot (tree_slots root.old) page result }
    ensures one_owner { (p : ℕ) → page ≤ p → p < result
        → (tree_slots root.old).owner p ≡ (tree_slots root.old).owner page }
    ensures slots { tree_slots root.new ≡ with_owner (tree_slots root.old) page result None }
{
    let level = root.unlock_at(page);
    page + slot_pages(level)
}

// Changes each page of a range that no slot crosses the edge of.
fn edit_range<A: Allocator>(root: &mut Node<A>, range: PageRange, edit: &Edit)
    requires tree { IsRadix root.old }
    requires pages { IsPageRange range }
    requires cut { IsCut (tree_slots root.old) range }
    requires sound { CanEdit edit.now (range.end - range.first) }
    ensures tree { IsRadix root.new }
    ensures slots { tree_slots root.new ≡ edited_to (tree_slots root.old) range edit.now }
{
    root.edit(range.first, range.end, edit, 0);
}

// Changes a page that is a slot of its own.
fn edit_one<A: Allocator>(root: &mut Node<A>, page: u64, edit: &Edit)
    requires tree { IsRadix root.old }
    requires page { IsPage page }
    requires alone { IsSlot (tree_slots root.old) page (page + 1) }
    requires sound { CanEdit edit.now 1 }
    ensures tree { IsRadix root.new }
    ensures slots { tree_slots root.new ≡ edited_to (tree_slots root.old) (between page (page + 1))
        edit.now }
{
    root.edit_one(page, edit);
}

/// Gives a mapped page that is a slot of its own another frame and other cores.
pub(crate) fn set_info<A: Allocator>(root: &mut Node<A>, page: u64, info: PageInfo)
    requires tree { IsRadix root.old }
    requires page { IsPage page }
    requires alone { IsSlot (tree_slots root.old) page (page + 1) }
    requires meta { HasMeta ((tree_slots root.old).info page) info.meta }
    ensures tree { IsRadix root.new }
    ensures slots { tree_slots root.new ≡ with_info (tree_slots root.old) page (Some info) }
{
    edit_one(root, page, &Edit::Put(Some(info)));
}

// What a change makes of its pages, each of which goes on from the first.
#[inline(always)]
fn edit_of(change: Change) -> Edit
    requires { IsSoundChange change }
    ensures sound { CanEdit result ((range_of change).end - (range_of change).first) }
    ensures makes { (s : Slots) → edited_to s (range_of change) result ≡ changed s change }
{
    match change {
        Change::Put { meta, .. } => Edit::Put(Some(PageInfo::unused(meta))),
        Change::Clear { .. } => Edit::Put(None),
        Change::Protect { prot, .. } => Edit::Protect(prot),
    }
}

/// Makes a change of pages that no slot crosses the edge of, in one walk over their slots.
pub(crate) fn change<A: Allocator>(root: &mut Node<A>, change: Change)
    requires tree { IsRadix root.old }
    requires sound { IsSoundChange change }
    requires cut { IsCut (tree_slots root.old) (range_of change) }
    ensures tree { IsRadix root.new }
    ensures slots { tree_slots root.new ≡ changed (tree_slots root.old) change }
{
    let range = change.range();
    if range.end - range.first == 1 {
        return change_one(root, change);
    }
    edit_range(root, range, &edit_of(change));
}

/// Makes a change of a page that is a slot of its own.
pub(crate) fn change_one<A: Allocator>(root: &mut Node<A>, change: Change)
    requires tree { IsRadix root.old }
    requires sound { IsSoundChange change }
    requires one { (range_of change).end ≡ (range_of change).first + 1 }
    requires alone { IsSlot (tree_slots root.old) (range_of change).first
        ((range_of change).first + 1) }
    ensures tree { IsRadix root.new }
    ensures slots { tree_slots root.new ≡ changed (tree_slots root.old) change }
{
    edit_one(root, change.range().first, &edit_of(change));
}

/// Folds the deepest node below the root that has the page, where all its slots can be one. Answers
/// whether it did.
pub(crate) fn fold<A: Allocator>(root: &mut Node<A>, page: u64) -> bool
    requires tree { IsRadix root.old }
    requires page { IsPage page }
    ensures tree { IsRadix root.new }
    ensures can { IsTrue result ↔ CanFold (tree_slots root.old) page }
    ensures joined { IsTrue result → Joins (tree_slots root.old) (tree_slots root.new) }
    ensures same { ¬ IsTrue result → root.new ≡ root.old }
    ensures exact { IsTrue result → FoldsNode (tree_slots root.old) (tree_slots root.new) page }
{
    root.fold_at(page)
}
