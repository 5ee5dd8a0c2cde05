//! Mappings as a sorted list of runs, each as long as it can be.

use slot_lock::Change;
use std::alloc::Allocator;
use vm_base::{Back, Meta, NoMemory, PageRange, Prot};

/// Pages that are mapped alike, one file page after another.
#[derive(Clone, Copy)]
pub(crate) struct Run {
    pub first: u64,
    pub end: u64,
    /// That of the first page.
    pub meta: Meta,
}

// What backs the page so many pages on.
fn back_after(back: Back, by: u64) -> Back {
    match back {
        Back::Anon => Back::Anon,
        Back::Shared { file, page } => Back::Shared {
            file,
            page: page.wrapping_add(by),
        },
        Back::Private { file, page } => Back::Private {
            file,
            page: page.wrapping_add(by),
        },
    }
}

/// What the page is mapped to.
pub(crate) fn meta_at(runs: &[Run], page: u64) -> Option<Meta> {
    for run in runs {
        if page < run.first {
            return None;
        }
        if page < run.end {
            return Some(Meta {
                back: back_after(run.meta.back, page.wrapping_sub(run.first)),
                prot: run.meta.prot,
            });
        }
    }
    None
}

// The part of a run that lies in these pages.
fn part(run: &Run, range: PageRange) -> Option<Run> {
    let first = run.first.max(range.first);
    let end = run.end.min(range.end);
    if first >= end {
        return None;
    }
    let back = back_after(run.meta.back, first.wrapping_sub(run.first));
    Some(Run {
        first,
        end,
        meta: Meta {
            back,
            prot: run.meta.prot,
        },
    })
}

// Tells whether a run goes on with this one.
fn goes_on(run: &Run, next: &Run) -> bool {
    run.end == next.first
        && run.meta.prot == next.meta.prot
        && back_after(run.meta.back, next.first.wrapping_sub(run.first)) == next.meta.back
}

// Appends a run, or lengthens the last by it.
fn append<A: Allocator>(runs: &mut Vec<Run, A>, run: Run) -> Result<(), NoMemory> {
    if let Some(last) = runs.last_mut() {
        if goes_on(last, &run) {
            last.end = run.end;
            return Ok(());
        }
    }
    runs.push(run)?;
    Ok(())
}

// Appends the parts of runs that lie in these pages, with this protection, if one is given.
fn append_parts<A: Allocator>(
    new: &mut Vec<Run, A>,
    runs: &[Run],
    range: PageRange,
    prot: Option<Prot>,
) -> Result<(), NoMemory> {
    for run in runs {
        if let Some(mut run) = part(run, range) {
            if let Some(prot) = prot {
                run.meta.prot = prot;
            }
            append(new, run)?;
        }
    }
    Ok(())
}

// Runs from one place to another.
fn from_to(runs: &[Run], first: usize, end: usize) -> &[Run] {
    if first <= end && end <= runs.len() {
        return &runs[first..end];
    }
    &runs[0..0]
}

// How many runs end at this page or before.
fn count_before(runs: &[Run], page: u64) -> usize {
    for at in 0..runs.len() {
        if runs[at].end > page {
            return at;
        }
    }
    runs.len()
}

// How many runs begin before this page.
fn count_begun(runs: &[Run], page: u64) -> usize {
    for at in 0..runs.len() {
        if runs[at].first >= page {
            return at;
        }
    }
    runs.len()
}

// Appends what a change makes of the runs that have pages of its range.
fn append_changed<A: Allocator>(
    new: &mut Vec<Run, A>,
    runs: &[Run],
    change: Change,
) -> Result<(), NoMemory> {
    let range = change.range();
    let before = PageRange {
        first: 0,
        end: range.first,
    };
    let behind = PageRange {
        first: range.end,
        end: u64::MAX,
    };
    append_parts(new, runs, before, None)?;
    match change {
        Change::Put { range, meta } => append(
            new,
            Run {
                first: range.first,
                end: range.end,
                meta,
            },
        )?,
        Change::Clear { .. } => {}
        Change::Protect { prot, .. } => append_parts(new, runs, range, Some(prot))?,
    }
    append_parts(new, runs, behind, None)
}

/// Fills `new` with the runs after a change. Those in front of its range stay as they are, and of those behind it only the first can
/// become a part of another.
pub(crate) fn change_runs<A: Allocator>(
    new: &mut Vec<Run, A>,
    runs: &[Run],
    change: Change,
) -> Result<(), NoMemory> {
    let range = change.range();
    let first = count_before(runs, range.first);
    let end = count_begun(runs, range.end);
    new.clear();
    new.extend_from_slice(from_to(runs, 0, first))?;
    append_changed(new, from_to(runs, first, end), change)?;
    if let Some(next) = runs.get(end) {
        append(new, *next)?;
        new.extend_from_slice(from_to(runs, end.saturating_add(1), runs.len()))?;
    }
    Ok(())
}

/// Tells whether all pages of the range are mapped.
pub(crate) fn all_mapped(runs: &[Run], range: PageRange) -> bool {
    first_hole(runs, range) >= range.end
}

/// The first page of the range that isn't mapped, or its end.
pub(crate) fn first_hole(runs: &[Run], range: PageRange) -> u64 {
    let mut next = range.first;
    for run in runs {
        if run.first <= next && next < run.end {
            next = run.end;
        }
    }
    next.min(range.end)
}

/// Tells whether no page of the range is mapped.
pub(crate) fn none_mapped(runs: &[Run], range: PageRange) -> bool {
    for run in runs {
        if part(run, range).is_some() {
            return false;
        }
    }
    true
}

/// The least page from which so many on are free in the window.
pub(crate) fn least_room(runs: &[Run], window: PageRange, count: u64) -> Option<u64> {
    let mut first = window.first;
    for run in runs {
        if run.end > first && run.first < first.saturating_add(count) {
            first = run.end;
        }
    }
    if first.saturating_add(count) <= window.end {
        return Some(first);
    }
    None
}
