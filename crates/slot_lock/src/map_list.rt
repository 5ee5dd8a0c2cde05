//! The list of mappings as a user sees them, read from slots: neighbouring pages are one line of it
//! where the protection is the same and the backing goes on, whatever slots they stand in. Nothing
//! of the slots is changed, and only the list takes memory.
ghost use Rattle.std.specs.Prelude.{◌≡◌, ◌≢◌, ℕ, ◌+◌, ◌-◌, ◌^◌, ◌<◌, ◌≤◌, ◌↔◌, IsTrue, IfSome, IfNone};
ghost use Rattle.std.specs.Prelude.{IfOk, OnErr, Some};
ghost use Rattle.vm_base.specs.Info.{advance};
ghost use Rattle.vm_base.specs.Pages.{IsPage};
ghost use Rattle.slot_lock.specs.Slots.{IsSlotMap};
ghost use Rattle.vm_base.specs.Runs.{NoneIn};
ghost use Rattle.slot_lock.specs.MapList.{GoesOn, IsMapList, IsNextLine};
ghost use Rattle.slot_lock.specs.MapWalks.{info_meta, slot_metas, IsFirstMapped, IsRun};

use crate::slot_map::SlotRead;
use std::alloc::Allocator;
use vm_base::info::is_same;
use vm_base::page::PAGE_LIMIT;
use vm_base::{Back, Meta, NoMemory, PageInfo, PageRange, Prot};

/// Neighbouring pages with the same protection, whose backing goes on from page to page.
#[derive(Clone, Copy, PartialEq, Eq)]
pub struct MapLine {
    /// The pages.
    pub range: PageRange,
    /// What may be done with each of them.
    pub prot: Prot,
    /// What backs the first of them.
    pub back: Back,
}

// Tells whether the page is mapped so.
fn is_mapped_to(info: &Option<PageInfo>, meta: Meta) -> bool
    ensures { IsTrue result ↔ (info_meta info.now ≡ Some meta) }
{
    match info {
        None => false,
        Some(info) => is_same(info.meta, meta),
    }
}

// The first mapped page from a page on, and what it is mapped to. One page of each slot is looked at.
fn first_mapped<M: SlotRead>(map: &M, from: u64) -> Option<(u64, Meta)>
    requires laws { IsSlotMap (M.slots map.now) }
    requires reads { (p : ℕ) → IsPage p → M.reads map.now p }
    requires from { 1 ≤ from }
    ensures some { IfSome result (λ found.
        IsFirstMapped (slot_metas (M.slots map.now)) from found.0 found.1) }
    ensures none { IfNone result (NoneIn (slot_metas (M.slots map.now)) from (2 ^ 35)) }
{
    let mut page = from;
    'slots: while page < PAGE_LIMIT {
        if let Some(info) = map.page(page) {
            return Some((page, info.meta));
        }
        let slot = map.slot(page);
        page = slot.end;
    }
    None
}

// Where the pages end that are mapped one after another from this one on. One page of each slot is
// looked at.
fn run_end<M: SlotRead>(map: &M, first: u64, meta: Meta) -> u64
    requires laws { IsSlotMap (M.slots map.now) }
    requires reads { (p : ℕ) → IsPage p → M.reads map.now p }
    requires page { IsPage first }
    requires mapped { slot_metas (M.slots map.now) first ≡ Some meta }
    ensures run { IsRun (slot_metas (M.slots map.now)) first meta result }
    ensures ends { slot_metas (M.slots map.now) result ≢ Some (advance meta (result - first)) }
{
    let slot = map.slot(first);
    let mut end = slot.end;
    'slots: while end < PAGE_LIMIT {
        let next = map.page(end);
        if !is_mapped_to(&next, meta.advanced(end - first)) {
            return end;
        }
        let slot = map.slot(end);
        end = slot.end;
    }
    end
}

/// The first line that begins at the page `from` or above, where no line goes across that page: it
/// is 1, or the end of another line. One page of each slot is looked at, and no memory is taken.
pub fn next_line<M: SlotRead>(map: &M, from: u64) -> Option<MapLine>
    requires laws { IsSlotMap (M.slots map.now) }
    requires reads { (p : ℕ) → IsPage p → M.reads map.now p }
    requires from { 1 ≤ from }
    requires begins { ¬ GoesOn (slot_metas (M.slots map.now) (from - 1))
        (slot_metas (M.slots map.now) from) }
    ensures some { IfSome result (IsNextLine (slot_metas (M.slots map.now)) from) }
    ensures none { IfNone result (NoneIn (slot_metas (M.slots map.now)) from (2 ^ 35)) }
{
    let Some((first, meta)) = first_mapped(map, from) else {
        return None;
    };
    let end = run_end(map, first, meta);
    Some(MapLine {
        range: PageRange { first, end },
        prot: meta.prot,
        back: meta.back,
    })
}

/// All lines, in order. The error says that memory ran out, and some page is mapped.
pub fn all_lines<M: SlotRead, A: Allocator>(map: &M, alloc: A) -> Result<Vec<MapLine, A>, NoMemory>
    requires laws { IsSlotMap (M.slots map.now) }
    requires reads { (p : ℕ) → IsPage p → M.reads map.now p }
    ensures lines { IfOk result (λ lines. IsMapList (slot_metas (M.slots map.now)) lines.items) }
    ensures err_only { OnErr result (¬ NoneIn (slot_metas (M.slots map.now)) 1 (2 ^ 35)) }
{
    let mut lines = Vec::new(alloc);
    let mut from = 1;
    'lines: while let Some(line) = next_line(map, from) {
        lines.push(line)?;
        from = line.range.end;
    }
    Ok(lines)
}
