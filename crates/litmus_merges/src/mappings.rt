//! The mappings of the map that steps make.
ghost use Rattle.std.specs.Prelude.{◌≡◌, ◌≢◌, ◌↔◌, ◌-◌, ◌^◌, ◌<◌, ◌≤◌, IfNone, IfOk, IfSome, IsTrue, Some};
ghost use Rattle.vm_base.specs.Info.{advance};
ghost use Rattle.vm_base.specs.Pages.{IsPage};
ghost use Rattle.vm_base.specs.Runs.{NoneIn};
ghost use Rattle.slot_lock.specs.MapList.{GoesOn, IsMapList, IsNextLine, line_meta, plain_metas};
ghost use Rattle.slot_lock.specs.MapWalks.{IsFirstMapped, IsRun};
ghost use Rattle.litmus_merges.specs.Mappings.{AreMaps};
ghost use Rattle.litmus_merges.specs.Steps.{AreSound, map_of};

use crate::change::MapChange;
use crate::reading::look;
use crate::runs::run_end;
use crate::seen::Spot;
use frames::Objects;
use slot_lock::MapLine;
use std::alloc::Allocator;
use vm_base::info::is_same;
use vm_base::page::PAGE_LIMIT;
use vm_base::{Meta, NoMemory, PageRange};

/// What a page is mapped to, if it is mapped.
fn meta_of<A: Allocator>(objects: &Objects<A>, steps: &[MapChange], page: u64) -> Option<Meta>
    requires { AreSound steps.now }
    ensures { result ≡ plain_metas (map_of objects.now steps.now) page }
{
    match look(objects, steps, Spot { page, offset: 0 }) {
        None => None,
        Some(seen) => Some(Meta {
            back: seen.back,
            prot: seen.prot,
        }),
    }
}

/// Tells whether a page is mapped to this.
fn is_mapped_to(mapped: Option<Meta>, meta: Meta) -> bool
    ensures { IsTrue result ↔ (mapped ≡ Some meta) }
{
    match mapped {
        None => false,
        Some(other) => is_same(other, meta),
    }
}

/// The first mapped page from a page on, and what it is mapped to.
fn first_mapped<A: Allocator>(
    objects: &Objects<A>,
    steps: &[MapChange],
    from: u64,
) -> Option<(u64, Meta)>
    requires { AreSound steps.now }
    ensures some { IfSome result (λ found. IsFirstMapped (plain_metas (map_of objects.now steps.now)) from found.0 found.1) }
    ensures none { IfNone result (NoneIn (plain_metas (map_of objects.now steps.now)) from (2 ^ 35)) }
{
    let mut page = from;
    'pages: while page < PAGE_LIMIT {
        if let Some(meta) = meta_of(objects, steps, page) {
            return Some((page, meta));
        }
        page = run_end(steps, page, PAGE_LIMIT);
    }
    None
}

/// Where the pages end that are mapped one after another from this one on.
fn line_end<A: Allocator>(objects: &Objects<A>, steps: &[MapChange], first: u64, meta: Meta) -> u64
    requires sound { AreSound steps.now }
    requires page { IsPage first }
    requires mapped { plain_metas (map_of objects.now steps.now) first ≡ Some meta }
    ensures run { IsRun (plain_metas (map_of objects.now steps.now)) first meta result }
    ensures ends { plain_metas (map_of objects.now steps.now) result ≢ Some (advance meta (result - first)) }
{
    let mut end = run_end(steps, first, PAGE_LIMIT);
    'pages: while end < PAGE_LIMIT {
        let next = meta_of(objects, steps, end);
        if !is_mapped_to(next, meta.advanced(end - first)) {
            return end;
        }
        end = run_end(steps, end, PAGE_LIMIT);
    }
    end
}

/// The first mapping that begins at the page `from` or above, where none goes across that page.
fn next_line<A: Allocator>(objects: &Objects<A>, steps: &[MapChange], from: u64) -> Option<MapLine>
    requires sound { AreSound steps.now }
    requires from { 1 ≤ from }
    requires begins { ¬ GoesOn (plain_metas (map_of objects.now steps.now) (from - 1))
        (plain_metas (map_of objects.now steps.now) from) }
    ensures some { IfSome result (IsNextLine (plain_metas (map_of objects.now steps.now)) from) }
    ensures none { IfNone result (NoneIn (plain_metas (map_of objects.now steps.now)) from (2 ^ 35)) }
{
    let Some((first, meta)) = first_mapped(objects, steps, from) else {
        return None;
    };
    let end = line_end(objects, steps, first, meta);
    Some(MapLine {
        range: PageRange { first, end },
        prot: meta.prot,
        back: meta.back,
    })
}

/// All mappings, in order.
fn all_lines<A: Allocator>(
    objects: &Objects<A>,
    steps: &[MapChange],
    alloc: A,
) -> Result<Vec<MapLine, A>, NoMemory>
    requires { AreSound steps.now }
    ensures { IfOk result (λ lines. IsMapList (plain_metas (map_of objects.now steps.now)) lines.items) }
{
    let mut lines = Vec::new(alloc);
    let mut from = 1;
    'lines: while let Some(line) = next_line(objects, steps, from) {
        lines.push(line)?;
        from = line.range.end;
    }
    Ok(lines)
}

/// All mappings, in order, where they are asked for; and else none.
pub(crate) fn mappings<A: Allocator + Clone>(
    objects: &Objects<A>,
    steps: &[MapChange],
    maps: bool,
    alloc: &A,
) -> Result<Vec<MapLine, A>, NoMemory>
    requires { AreSound steps.now }
    ensures { IfOk result (λ lines. AreMaps maps (map_of objects.now steps.now) lines.items) }
{
    let own = alloc.clone()?;
    if !maps {
        return Ok(Vec::new(own));
    }
    let lines = all_lines(objects, steps, own)?;
    Ok(lines)
}

/// Tells whether two ranges are the same.
fn is_same_range(one: PageRange, other: PageRange) -> bool
    ensures { IsTrue result ↔ (one ≡ other) }
{
    one == other
}

/// What the first page of a mapping is mapped to.
fn line_meta(line: MapLine) -> Meta
    ensures { result ≡ line_meta line }
{
    Meta {
        back: line.back,
        prot: line.prot,
    }
}

/// Tells whether two mappings have the same pages, and the first of them is mapped to the same.
fn has_same_parts(one: MapLine, other: MapLine) -> bool
    ensures { IsTrue result ↔ ((one.range ≡ other.range) × (line_meta one ≡ line_meta other)) }
{
    is_same_range(one.range, other.range) && is_same(line_meta(one), line_meta(other))
}

/// Tells whether two mappings are the same.
fn is_same_line(one: MapLine, other: MapLine) -> bool
    ensures { IsTrue result ↔ (one ≡ other) }
{
    let same = has_same_parts(one, other);
    same
}

/// Tells whether two lists of mappings are the same.
pub fn are_same_maps(one: &[MapLine], other: &[MapLine]) -> bool
    ensures { IsTrue result ↔ (one.now ≡ other.now) }
{
    if one.len() != other.len() {
        return false;
    }
    'lines: for k in 0..one.len() {
        let line = one[k];
        let same = other[k];
        if !is_same_line(line, same) {
            return false;
        }
    }
    true
}
