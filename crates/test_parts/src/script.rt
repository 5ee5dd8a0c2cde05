//! Rows of calls of a slot map, each made where its condition holds, and what they come to.
ghost use Rattle.std.specs.Prelude.{◌≡◌, ◌<◌, ◌≤◌, ◌^◌, IsTrue, IfSome};
ghost use Rattle.vm_base.specs.Pages.{IsPage, IsPageRange};
ghost use Rattle.slot_lock.specs.Slots.{IsHeld, IsSlot, OwnsAll};

use slot_lock::{Acquire, Fit, Footprint, Got, SlotMap};
use test_support::words::numbers_of;
use vm_base::{Back, CoreId, Meta, NoMemory, PageRange, Prot, is_valid};

/// A private mapping of a file, from its fifth page on.
const FILE: Meta = Meta {
    back: Back::Private { file: 3, page: 5 },
    prot: Prot {
        read: true,
        write: false,
        exec: false,
    },
};

/// What a row comes to: two numbers, or one and 0.
type Told = (u64, u64);

/// One step, where the cursor is on a page that the core doesn't hold.
fn step<M: SlotMap>(
    map: &mut M,
    acquire: &mut Acquire,
    core: CoreId,
) -> Result<Option<Got>, NoMemory> {
    if acquire.is_done() || !is_valid(acquire.cursor) {
        return Ok(None);
    }
    if let Some(owner) = map.owner(acquire.cursor) {
        if owner.index() == core.index() {
            return Ok(None);
        }
    }
    Ok(Some(acquire.next(map, core)?))
}

/// How many slots are divided and how many locked in so many steps towards holding the pages of two ranges, or of one that is given twice.
pub fn lock<M: SlotMap>(
    map: &mut M,
    core: CoreId,
    range: PageRange,
    other: PageRange,
    steps: u64,
) -> Result<Told, NoMemory>
    requires range { IsPageRange range }
    requires other { IsPageRange other }
{
    let mut acquire = Acquire::new(Footprint::both(range, other));
    let mut splits = 0u64;
    let mut locks = 0u64;
    for _ in 0..steps {
        match step(map, &mut acquire, core)? {
            Some(Got::Split) => splits = splits.saturating_add(1),
            Some(Got::Locked(_)) => locks = locks.saturating_add(1),
            _ => {}
        }
    }
    Ok((splits, locks))
}

/// Tells whether the core holds the pages, which are one slot.
fn is_held<M: SlotMap>(map: &M, core: CoreId, range: PageRange) -> bool
    requires { IsPageRange range }
    ensures held { IsTrue result → IsHeld (M.slots map.now) core range }
    ensures slot { IsTrue result → IsSlot (M.slots map.now) range.first range.end }
{
    let slot = map.slot(range.first);
    if slot.first != range.first || slot.end != range.end {
        return false;
    }
    match map.owner(range.first) {
        Some(owner) => owner.index() == core.index(),
        None => false,
    }
}

/// Maps the pages of a held slot, of 2^34 at most: 1 if it is done.
fn put<M: SlotMap>(map: &mut M, core: CoreId, range: PageRange) -> Told
    requires { IsPageRange range }
{
    if !is_held(map, core, range) || range.end - range.first > 1 << 34 {
        return (0, 0);
    }
    map.set_range(core, range, FILE);
    (1, 0)
}

fn clear<M: SlotMap>(map: &mut M, core: CoreId, range: PageRange) -> Told
    requires { IsPageRange range }
{
    if !is_held(map, core, range) {
        return (0, 0);
    }
    map.clear_range(core, range);
    (1, 0)
}

/// The end of the slot that begins with the pages and ends by their end, which is unlocked.
fn unlock<M: SlotMap>(map: &mut M, core: CoreId, range: PageRange) -> Told
    requires { IsPageRange range }
{
    let slot = map.slot(range.first);
    if slot.first != range.first || range.end < slot.end {
        return (0, 0);
    }
    match map.owner(range.first) {
        Some(owner) if owner.index() == core.index() => (
            map.unlock_next(core, range.first, range.end),
            0,
        ),
        _ => (0, 0),
    }
}

/// A step of a cut, after which the pages are still held.
fn cut_once<M: SlotMap>(map: &mut M, core: CoreId, range: PageRange) -> Result<u64, NoMemory>
    requires pages { IsPageRange range }
    requires held { OwnsAll (M.slots map.old) core range.first range.end }
    ensures { OwnsAll (M.slots map.new) core range.first range.end }
{
    match map.cut_next(core, range)? {
        Fit::Cut => Ok(1),
        Fit::Fits => Ok(0),
    }
}

/// How many of four steps of a cut of some pages of a held slot divide one.
fn cut<M: SlotMap>(
    map: &mut M,
    core: CoreId,
    slot: PageRange,
    range: PageRange,
) -> Result<Told, NoMemory>
    requires slot { IsPageRange slot }
    requires pages { IsPageRange range }
{
    if range.first < slot.first || slot.end < range.end || !is_held(map, core, slot) {
        return Ok((0, 0));
    }
    let first = cut_once(map, core, range)?;
    let second = cut_once(map, core, range)?;
    let third = cut_once(map, core, range)?;
    let fourth = cut_once(map, core, range)?;
    let cuts = first.saturating_add(second).saturating_add(third);
    Ok((cuts.saturating_add(fourth), 0))
}

/// What a page's row comes to: whether slots round it are joined, its slot, or the core that holds it, 64 for none.
fn told_of_page<M: SlotMap>(map: &mut M, word: &str, page: u64) -> Told
    requires { IsPage page }
{
    match word {
        "fold" => (u64::from(map.fold(page)), 0),
        "slot" => {
            let slot = map.slot(page);
            (slot.first, slot.end)
        }
        _ => match map.owner(page) {
            Some(owner) => (u64::from(owner.index()), 0),
            None => (64, 0),
        },
    }
}

/// Slots that are locked, or unlocked, at once: how many, and up to which page.
fn run<M: SlotMap>(map: &mut M, core: CoreId, is_lock: bool, range: PageRange, most: u64) -> Told
    requires { IsPageRange range }
{
    let run = if is_lock {
        map.lock_run(core, range.first, range.end, most)
    } else {
        map.unlock_run(core, range.first, range.end, most)
    };
    (run.slots, run.upto)
}

/// The first room for so many pages, 0 for none.
fn room<M: SlotMap>(map: &M, range: PageRange, count: u64) -> Told
    requires { IsPageRange range }
{
    if count == 0 {
        return (0, 0);
    }
    match map.first_free_run(range, count) {
        Some(page) => (page, 0),
        None => (0, 0),
    }
}

/// A range of pages, if it has some and all are valid.
fn pages(first: u64, end: u64) -> Option<PageRange>
    ensures { IfSome result (λ range. IsPageRange range) }
{
    if first == 0 || end <= first || end > 0x8_0000_0000 {
        return None;
    }
    Some(PageRange { first, end })
}

/// What the row of a core and a range comes to, with a number or another range behind.
fn told_of_range<M: SlotMap>(
    map: &mut M,
    word: &str,
    core: CoreId,
    range: PageRange,
    behind: (u64, u64),
) -> Result<Told, NoMemory>
    requires { IsPageRange range }
{
    let other = pages(behind.0, behind.1).unwrap_or(range);
    match word {
        "lock" => lock(map, core, range, other, 1800),
        "cut" => cut(map, core, range, other),
        "put" => Ok(put(map, core, range)),
        "clear" => Ok(clear(map, core, range)),
        "free" => Ok(unlock(map, core, range)),
        "room" => Ok(room(map, range, behind.0)),
        _ => Ok(run(map, core, word == "run", range, behind.0)),
    }
}

/// What a row comes to, by its word and its numbers.
fn told<M: SlotMap>(map: &mut M, word: &str, numbers: [u64; 6]) -> Result<Told, NoMemory> {
    let [core, first, end, one, two, _] = numbers;
    match pages(first, end) {
        Some(range) => {
            let core = CoreId::new((core % 64) as u8);
            told_of_range(map, word, core, range, (one, two))
        }
        None if is_valid(core) => Ok(told_of_page(map, word, core)),
        None => Ok((0, 0)),
    }
}

/// The first row, `WORD NUMBER.. = NUMBER..`, that comes to something else than it says.
pub fn first_wrong<'a, M: SlotMap>(
    map: &mut M,
    rows: &'a str,
) -> Result<Option<&'a str>, NoMemory> {
    for row in rows.lines() {
        let (call, due) = row.split_once(" = ").unwrap_or((row, ""));
        let (word, words) = call.split_once(' ').unwrap_or((call, ""));
        let due = numbers_of(due);
        if told(map, word, numbers_of(words))? != (due[0], due[1]) {
            return Ok(Some(row));
        }
    }
    Ok(None)
}
