//! A core of a history of which no order was found. Which one is tried is nobody's belief: each is shown to have no order.
ghost use Rattle.std.specs.Prelude.{◌≡◌, ◌≤◌, IfOk, IfSome, Some, length, slice_get};
ghost use Rattle.cores.specs.Shown.{IsShown, IsShownBut, IsShownOf};

use crate::building::is_base;
use crate::byteless::without_bytes;
use crate::effects::are_told;
use crate::gathering::{gather, start_of, took};
use crate::kept::Kept;
use crate::parts::{is_aside, is_reset, part_of, sets};
use crate::trying::{followed_by, none_of};
use audit::Call;
use frames::FileSpec;
use orders::Timed;
use std::alloc::Allocator;
use vm_base::{NoMemory, PageRange, Reply, Request, page_count, page_of, pages};

/// How many first calls are tried for some pages.
const FIRSTS: usize = 6;

/// How many ranges of pages are tried.
const RANGES: usize = 6;

/// How many ranges are tried that calls changed which ended before.
const RECENT: usize = 3;

/// How many calls that change nothing are tried beside those that do.
const READS: usize = 16;

/// A range of more pages isn't tried.
const WIDEST: u64 = 64;

/// So many first calls build a map of some pages at most.
const BUILDERS: u8 = 8;

/// A core that has no order: what its first call does within some pages, and its other calls until the cut.
#[derive(Drop)]
pub struct Core<A: Allocator> {
    /// The pages.
    pub pages: PageRange,
    /// The number of the first call.
    pub number: usize,
    /// The first call.
    pub first: Timed,
    /// What it does within these pages.
    pub start: Timed,
    /// Where that leaves something of what was there, the calls until this time build the map.
    pub built: u64,
    /// The time until which calls are looked at.
    pub cut: u64,
    /// The other calls.
    pub kept: Vec<Kept, A>,
}

/// The call of this number, if the history has it.
fn call_at(history: &[Timed], number: usize) -> Option<Timed>
    ensures { result ≡ slice_get history.now number }
{
    history.get(number).copied()
}

/// The number of the call that a core begins with, and until when it and others build the map.
#[derive(Clone, Copy)]
struct Base {
    number: usize,
    built: u64,
}

/// Shows that a core has no order, if that can be shown.
fn attempt<A: Allocator + Clone + Drop>(
    alloc: &A,
    files: &[FileSpec<A>],
    any_place: bool,
    history: &[Timed],
    effects: &[bool],
    pages: PageRange,
    base: Base,
    cut: u64,
    wanted: &[usize],
) -> Result<Option<Core<A>>, NoMemory>
    requires { length files.now ≤ 16 }
    ensures { IfOk result (λ found. IfSome found (λ core. IsShownOf any_place history.now effects.now core)) }
{
    let (number, built) = (base.number, base.built);
    let Some(first) = call_at(history, number) else {
        return Ok(None);
    };
    let Some(start) = start_of(pages, &first) else {
        return Ok(None);
    };
    let gathered = gather(alloc, history, effects, pages, number, &first, cut, wanted)?;
    let Some(kept) = gathered else {
        return Ok(None);
    };
    let sure = took(effects, number);
    if !sure {
        return Ok(None);
    }
    let told = are_told(effects, kept.as_slice());
    if !told {
        return Ok(None);
    }
    if !is_base(pages, &start, built, kept.as_slice()) {
        return Ok(None);
    }
    let nothing = Vec::new(alloc.clone()?);
    let front = followed_by(alloc, nothing.as_slice(), start)?;
    let none = none_of(alloc, files, any_place, front.as_slice(), kept.as_slice())?;
    if !none {
        return Ok(None);
    }
    Ok(Some(Core {
        pages,
        number,
        first,
        start,
        built,
        cut,
        kept,
    }))
}

// All but one.
fn without<A: Allocator + Clone + Drop>(
    alloc: &A,
    wanted: &[usize],
    place: usize,
) -> Result<Vec<usize, A>, NoMemory> {
    let mut fewer = Vec::new(alloc.clone()?);
    for at in 0..wanted.len() {
        if at != place {
            fewer.push(wanted[at])?;
        }
    }
    Ok(fewer)
}

// The last ones, so many.
fn last_of<A: Allocator + Clone + Drop>(
    alloc: &A,
    numbers: &[usize],
    count: usize,
) -> Result<Vec<usize, A>, NoMemory> {
    let mut last = Vec::new(alloc.clone()?);
    for at in 0..numbers.len() {
        if numbers.len() - at <= count {
            last.push(numbers[at])?;
        }
    }
    Ok(last)
}

// The core, without those of the wanted calls that it doesn't need.
fn shrink<A: Allocator + Clone + Drop>(
    alloc: &A,
    files: &[FileSpec<A>],
    any_place: bool,
    history: &[Timed],
    effects: &[bool],
    found: Core<A>,
    wanted: &[usize],
) -> Result<Core<A>, NoMemory>
    requires few { length files.now ≤ 16 }
    requires shown { IsShownOf any_place history.now effects.now found }
    ensures { IfOk result (λ core. IsShownOf any_place history.now effects.now core) }
{
    let mut core = found;
    let (pages, cut) = (core.pages, core.cut);
    let base = Base {
        number: core.number,
        built: core.built,
    };
    let mut wanted = without(alloc, wanted, wanted.len())?;
    let mut place = 0usize;
    'wanted: for _ in 0..READS {
        let fewer = without(alloc, wanted.as_slice(), place)?;
        let less = attempt(
            alloc,
            files,
            any_place,
            history,
            effects,
            pages,
            base,
            cut,
            fewer.as_slice(),
        )?;
        match less {
            Some(smaller) => {
                core = smaller;
                wanted = fewer;
            }
            None => {
                place = place.saturating_add(1);
            }
        }
    }
    Ok(core)
}

// The pages that a range call changes, if it was done.
fn pages_of(call: Call) -> Option<PageRange> {
    match (call.request, call.reply) {
        (Request::Munmap { addr, len }, Reply::Done) => Some(pages(addr, len)),
        (Request::Mprotect { addr, len, .. }, Reply::Done) => Some(pages(addr, len)),
        (Request::Mmap { len, .. }, Reply::Mapped(at)) => {
            let first = page_of(at);
            Some(PageRange {
                first,
                end: first + page_count(len),
            })
        }
        _ => None,
    }
}

// The page of an access.
fn accessed(request: Request) -> Option<u64> {
    match request {
        Request::Load { addr } | Request::Fetch { addr } | Request::Store { addr, .. } => {
            Some(page_of(addr))
        }
        _ => None,
    }
}

// Adds a call to the latest ones by their ends.
fn keep_latest<A: Allocator>(
    latest: &mut Vec<(u64, usize), A>,
    most: usize,
    end: u64,
    number: usize,
) -> Result<(), NoMemory> {
    if latest.len() >= most {
        if let Some((least, _)) = latest.get(0).copied() {
            if end <= least {
                return Ok(());
            }
            let _ = latest.remove(0);
        }
    }
    latest.push((end, number))?;
    latest.sort_unstable();
    Ok(())
}

// The page alone.
fn page_alone(page: u64) -> PageRange {
    PageRange {
        first: page,
        end: page.saturating_add(1),
    }
}

// The ranges of several pages, this one among them, that calls changed which were under way with an access; and of those that ended before it
// the latest ones.
fn around<A: Allocator + Clone + Drop>(
    alloc: &A,
    history: &[Timed],
    stuck: Timed,
    page: u64,
) -> Result<Vec<PageRange, A>, NoMemory> {
    let mut ranges = Vec::new(alloc.clone()?);
    ranges.push(page_alone(page))?;
    let mut latest = Vec::new(alloc.clone()?);
    for at in 0..history.len() {
        let timed = history[at];
        if let Some(range) = pages_of(timed.call) {
            let is_wide = range.end > range.first.saturating_add(1) && range.contains(page);
            if is_wide && timed.end < stuck.begin {
                keep_latest(&mut latest, RECENT, timed.end, at)?;
            } else if is_wide && timed.begin <= stuck.end && ranges.len() < RANGES {
                ranges.push(range)?;
            }
        }
    }
    for (_, number) in latest.as_slice() {
        if let Some(timed) = call_at(history, *number) {
            if let Some(range) = pages_of(timed.call) {
                ranges.push(range)?;
            }
        }
    }
    Ok(ranges)
}

// The pages that may have a core: that of the access that has no reply, and those around it; or those of the range call, one by one, and
// all.
fn candidates<A: Allocator + Clone + Drop>(
    alloc: &A,
    history: &[Timed],
    stuck: Timed,
) -> Result<Vec<PageRange, A>, NoMemory> {
    if let Some(page) = accessed(stuck.call.request) {
        return around(alloc, history, stuck, page);
    }
    let mut ranges = Vec::new(alloc.clone()?);
    if let Some(range) = pages_of(stuck.call) {
        for step in 0..4u64 {
            let page = range.first.saturating_add(step);
            if page < range.end {
                ranges.push(page_alone(page))?;
            }
        }
        ranges.push(range)?;
    }
    Ok(ranges)
}

// The latest calls until the cut that map or unmap all of these pages.
fn firsts<A: Allocator + Clone + Drop>(
    alloc: &A,
    history: &[Timed],
    effects: &[bool],
    pages: PageRange,
    cut: u64,
) -> Result<Vec<(u64, usize), A>, NoMemory> {
    let mut latest = Vec::new(alloc.clone()?);
    for at in 0..history.len() {
        let timed = history[at];
        if timed.end <= cut && is_reset(pages, timed.call) && took(effects, at) {
            keep_latest(&mut latest, FIRSTS, timed.end, at)?;
        }
    }
    Ok(latest)
}

// The latest calls until the cut that tell something of these pages, and change nothing there.
fn reads<A: Allocator + Clone + Drop>(
    alloc: &A,
    history: &[Timed],
    pages: PageRange,
    after: u64,
    cut: u64,
) -> Result<Vec<usize, A>, NoMemory> {
    let mut latest = Vec::new(alloc.clone()?);
    for at in 0..history.len() {
        let timed = history[at];
        if after < timed.begin
            && timed.end <= cut
            && is_aside(pages, timed.call)
            && part_of(pages, timed.call).is_some()
        {
            keep_latest(&mut latest, READS, timed.end, at)?;
        }
    }
    let mut numbers = Vec::new(alloc.clone()?);
    for (_, number) in latest.as_slice() {
        numbers.push(*number)?;
    }
    Ok(numbers)
}

// These pages without those of a range that has the first or the last of them.
fn without_pages(left: PageRange, range: PageRange) -> PageRange {
    if range.first <= left.first {
        return PageRange {
            first: left.first.max(range.end),
            end: left.end,
        };
    }
    if left.end <= range.end {
        return PageRange {
            first: left.first,
            end: left.end.min(range.first),
        };
    }
    left
}

// The latest call until a time that maps or unmaps pages at either end of these, and those that it leaves.
fn builder(
    history: &[Timed],
    effects: &[bool],
    left: PageRange,
    until: u64,
) -> Option<(usize, PageRange)> {
    let mut found = None;
    let mut latest = 0u64;
    for at in 0..history.len() {
        let timed = history[at];
        if timed.end <= until && latest <= timed.end && sets(timed.call) && took(effects, at) {
            if let Some(range) = pages_of(timed.call) {
                let rest = without_pages(left, range);
                if rest != left {
                    found = Some((at, rest));
                    latest = timed.end;
                }
            }
        }
    }
    found
}

// A core of these pages with this first call.
fn find_behind<A: Allocator + Clone + Drop>(
    alloc: &A,
    files: &[FileSpec<A>],
    any_place: bool,
    history: &[Timed],
    effects: &[bool],
    pages: PageRange,
    base: Base,
    cut: u64,
) -> Result<Option<Core<A>>, NoMemory>
    requires { length files.now ≤ 16 }
    ensures { IfOk result (λ found. IfSome found (λ core. IsShownOf any_place history.now effects.now core)) }
{
    let Some(first) = call_at(history, base.number) else {
        return Ok(None);
    };
    let latest = reads(alloc, history, pages, first.end.max(base.built), cut)?;
    let mut count = 1usize;
    for _ in 0..5u8 {
        let wanted = last_of(alloc, latest.as_slice(), count)?;
        let wanted = wanted.as_slice();
        let found = attempt(
            alloc, files, any_place, history, effects, pages, base, cut, wanted,
        )?;
        if let Some(core) = found {
            let core = shrink(alloc, files, any_place, history, effects, core, wanted)?;
            return Ok(Some(core));
        }
        if latest.len() <= count {
            return Ok(None);
        }
        // (each overlaps some others, and so makes many orders more)
        count = count.saturating_mul(2);
    }
    Ok(None)
}

// The latest calls until a time, one behind another, that map or unmap all of these pages; and when the first of the last ones began.
fn base_until(
    history: &[Timed],
    effects: &[bool],
    pages: PageRange,
    until: u64,
) -> Option<(Base, u64)> {
    let mut left = pages;
    let mut until = until;
    let mut last = None;
    for _ in 0..BUILDERS {
        let (number, rest) = builder(history, effects, left, until)?;
        let timed = call_at(history, number)?;
        let (built, begin) = last.unwrap_or((timed.end, timed.begin));
        last = Some((built, begin));
        if rest.end <= rest.first {
            return Some((Base { number, built }, begin));
        }
        left = rest;
        until = timed.begin.saturating_sub(1);
    }
    None
}

// A core of these pages, whose map is built before the rest begins, by one call or several.
fn find_built<A: Allocator + Clone + Drop>(
    alloc: &A,
    files: &[FileSpec<A>],
    any_place: bool,
    history: &[Timed],
    effects: &[bool],
    pages: PageRange,
    cut: u64,
) -> Result<Option<Core<A>>, NoMemory>
    requires { length files.now ≤ 16 }
    ensures { IfOk result (λ found. IfSome found (λ core. IsShownOf any_place history.now effects.now core)) }
{
    let mut until = cut;
    for _ in 0..FIRSTS {
        let Some((base, begin)) = base_until(history, effects, pages, until) else {
            return Ok(None);
        };
        let found = find_behind(alloc, files, any_place, history, effects, pages, base, cut)?;
        if let Some(core) = found {
            return Ok(Some(core));
        }
        until = begin.saturating_sub(1);
    }
    Ok(None)
}

// A core of these pages.
fn find_in<A: Allocator + Clone + Drop>(
    alloc: &A,
    files: &[FileSpec<A>],
    any_place: bool,
    history: &[Timed],
    effects: &[bool],
    pages: PageRange,
    cut: u64,
) -> Result<Option<Core<A>>, NoMemory>
    requires { length files.now ≤ 16 }
    ensures { IfOk result (λ found. IfSome found (λ core. IsShownOf any_place history.now effects.now core)) }
{
    if pages.end > pages.first.saturating_add(1) {
        let built = find_built(alloc, files, any_place, history, effects, pages, cut)?;
        if let Some(core) = built {
            return Ok(Some(core));
        }
    }
    let latest = firsts(alloc, history, effects, pages, cut)?;
    let count = latest.len();
    for back in 0..count {
        if let Some((_, number)) = latest.get(count - 1 - back).copied() {
            let base = Base { number, built: 0 };
            let found = find_behind(alloc, files, any_place, history, effects, pages, base, cut)?;
            if let Some(core) = found {
                return Ok(Some(core));
            }
        }
    }
    Ok(None)
}

// A core around this call.
fn find_around<A: Allocator + Clone + Drop>(
    alloc: &A,
    any_place: bool,
    history: &[Timed],
    effects: &[bool],
    stuck: usize,
) -> Result<Option<Core<A>>, NoMemory>
    ensures { IfOk result (λ found. IfSome found (λ core. IsShownOf any_place history.now effects.now core)) }
{
    let files = Vec::new(alloc.clone()?);
    let Some(timed) = call_at(history, stuck) else {
        return Ok(None);
    };
    let ranges = candidates(alloc, history, timed)?;
    for at in 0..ranges.len() {
        if let Some(range) = ranges.get(at).copied() {
            if range.end <= range.first.saturating_add(WIDEST) {
                let found = find_in(
                    alloc,
                    files.as_slice(),
                    any_place,
                    history,
                    effects,
                    range,
                    timed.end,
                )?;
                if let Some(core) = found {
                    return Ok(Some(core));
                }
            }
        }
    }
    Ok(None)
}

// Tells whether some call mapped a file.
fn has_files(history: &[Timed]) -> bool {
    history.iter().any(
        |timed| matches!(timed.call.request, Request::Mmap { flags, .. } if !flags.anon),
    )
}

/// Finds a core of a history of which no order was found until the end of this call, and shows that it has none, whichever of those calls
/// took effect that may not have, as they are told. So the history has none, whatever map it begins with. Where no core is found that has to do
/// with no file, one may be that has no order whatever bytes there are. `None` says nothing. `Err` says that memory was wanting.
pub fn find_core_but<A: Allocator + Clone + Drop>(
    alloc: &A,
    any_place: bool,
    history: &[Timed],
    effects: &[bool],
    stuck: usize,
) -> Result<Option<Core<A>>, NoMemory>
    ensures { IfOk result (λ found. IfSome found (λ core. IsShownBut any_place history.now effects.now core)) }
{
    if let Some(core) = find_around(alloc, any_place, history, effects, stuck)? {
        return Ok(Some(core));
    }
    if !has_files(history) {
        return Ok(None);
    }
    let Some(left) = without_bytes(alloc, history)? else {
        return Ok(None);
    };
    match find_around(alloc, any_place, left.as_slice(), effects, stuck)? {
        Some(core) => Ok(Some(core)),
        None => Ok(None),
    }
}

/// The same of a history all of whose calls took effect.
pub fn find_core<A: Allocator + Clone + Drop>(
    alloc: &A,
    any_place: bool,
    history: &[Timed],
    stuck: usize,
) -> Result<Option<Core<A>>, NoMemory>
    ensures { IfOk result (λ found. IfSome found (λ core. IsShown any_place history.now core)) }
{
    match find_core_but(alloc, any_place, history, &[], stuck)? {
        Some(core) => Ok(Some(core)),
        None => Ok(None),
    }
}
