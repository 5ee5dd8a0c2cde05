//! Maps of slots: a page locked, mapped and unlocked; a page looked up; ranges looked through and
//! mapped; room looked for.
ghost use Rattle.std.specs.Prelude.{◌≡◌, ◌+◌, ◌<◌, ◌≤◌, ◌^◌, IsTrue, Some};
ghost use Rattle.vm_base.specs.Pages.{IsPage, IsPageRange};
ghost use Rattle.slot_lock.specs.Slots.{IsHeld, between};
ghost use Rattle.radix_range.specs.Tree.{tree_slots};

use crate::timing::Part;
use radix_range::RadixMap;
use slot_lock::{Change, Got, SlotList, SlotMap, SlotRead};
use std::alloc::Global;
use vm_base::{Back, CoreId, Meta, PageRange, Prot};

/// How many pages are mapped: every other one from page 16 on, each a slot of its own, as each page
/// between two of them is.
pub const PAGES: u64 = 50_000;

/// How many pages a range has.
pub const SPAN: u64 = 4096;

/// Core 0's window, which is a slot of a tree's root.
const WINDOW: PageRange = PageRange {
    first: 0x800_0000,
    end: 0x1000_0000,
};

/// The pages from the first mapped one up to the window.
const BEFORE: PageRange = PageRange {
    first: 16,
    end: 0x800_0000,
};

const ZERO: Meta = Meta {
    back: Back::Anon,
    prot: Prot {
        read: true,
        write: true,
        exec: false,
    },
};

/// The core that holds what is held.
fn holder() -> CoreId {
    CoreId::new(1)
}

/// The page of a place among the mapped ones.
fn page_at(place: u64) -> u64
    ensures low { 16 ≤ result }
    ensures high { result < 2 ^ 22 }
{
    if place < 0x10_0000 {
        16 + 2 * place
    } else {
        16
    }
}

/// The range from the mapped page of a place on.
fn range_at(place: u64) -> PageRange
    ensures pages { IsPageRange result }
    ensures below { result.end < 2 ^ 35 }
{
    let first = page_at(place);
    PageRange {
        first,
        end: first + SPAN,
    }
}

/// Maps the page, where it is a slot of its own; else takes one step of the way there.
fn map_page<M: SlotMap>(map: &mut M, page: u64)
    requires { IsPage page }
{
    if let Some(_) = map.free_page(page) {
        let range = PageRange {
            first: page,
            end: page + 1,
        };
        map.change_free(Change::Put { range, meta: ZERO });
        return;
    }
    let core = holder();
    if let Some(_) = map.owner(page) {
        return;
    }
    if let Ok(_) = map.lock_next(core, page, page + 1) {
        map.unlock_run(core, page, page + 1, 1);
    }
}

/// Maps so many pages. A page takes four steps at the most.
fn fill<M: SlotMap>(map: &mut M, pages: u64) {
    'pages: for place in 0..pages {
        let page = page_at(place);
        map_page(map, page);
        map_page(map, page);
        map_page(map, page);
        map_page(map, page);
    }
}

/// Locks the page, where it is a slot of its own that nobody holds; tells whether it did.
fn lock<M: SlotMap>(map: &mut M, core: CoreId, page: u64) -> bool
    requires { IsPage page }
    ensures { IsTrue result → IsHeld (M.slots map.new) core (between page (page + 1)) }
{
    map.lock_run(core, page, page + 1, 1).slots == 1
}

/// Maps the range anew.
fn put<M: SlotMap>(map: &mut M, core: CoreId, range: PageRange)
    requires held { IsHeld (M.slots map.old) core range }
    ensures held { IsHeld (M.slots map.new) core range }
{
    map.set_range(core, range, ZERO);
}

/// Unmaps the range.
fn clear<M: SlotMap>(map: &mut M, core: CoreId, range: PageRange)
    requires held { IsHeld (M.slots map.old) core range }
    ensures held { IsHeld (M.slots map.new) core range }
{
    map.clear_range(core, range);
}

/// Locks and unlocks a page that nobody holds, where it is a slot of its own; tells whether it did.
fn lock_and_unlock<M: SlotMap>(map: &mut M, core: CoreId, page: u64) -> bool
    requires { IsPage page }
{
    if let Some(_) = map.owner(page) {
        return false;
    }
    let Ok(Got::Locked(_)) = map.lock_next(core, page, page + 1) else {
        return false;
    };
    map.unlock_next(core, page, page + 1);
    true
}

/// Locks a page, maps it, where it isn't mapped, unmaps it, and unlocks it; tells whether it was locked.
fn change<M: SlotMap>(map: &mut M, core: CoreId, page: u64) -> bool
    requires { IsPage page }
{
    if !lock(map, core, page) {
        return false;
    }
    if let None = map.page(page) {
        let one = PageRange {
            first: page,
            end: page + 1,
        };
        put(map, core, one);
        clear(map, core, one);
    }
    map.unlock_run(core, page, page + 1, 1);
    true
}

/// Tells whether the range has neither two neighbouring free pages nor a recorded core.
fn has_none<M: SlotMap>(map: &M, range: PageRange) -> bool
    requires { IsPageRange range }
{
    map.first_free_run(range, 2).is_none() && map.recorded(range).is_empty()
}

/// Tells whether 2 to 16 free pages, as the place says, are found at this page.
fn finds<M: SlotMap>(map: &M, range: PageRange, place: u64, room: u64) -> bool
    requires { IsPageRange range }
{
    map.first_free_run(range, 2 + place % 15) == Some(room)
}

/// What is done with a page or a range of a map.
#[derive(Clone, Copy)]
pub enum ToPages {
    /// A mapped page is locked and unlocked.
    Lock,
    /// A mapped page is looked up.
    LookUp,
    /// A page that isn't mapped is locked, mapped, unmapped and unlocked.
    Change,
    /// A range is looked through for two neighbouring free pages and for a recorded core.
    Scan,
    /// Room is looked for in the window, which begins with a mapping.
    FindAfterOne,
    /// Room is looked for after twice so many mapped pages, between which there is one free page each.
    FindAfterGaps,
}

/// A map, and what is done with it.
#[derive(Drop)]
pub struct Mapped<M> {
    map: M,
    to_pages: ToPages,
}

impl<M: SlotMap + Drop> Part for Mapped<M> {
    fn round(&mut self, place: u64) -> bool {
        let map = &mut self.map;
        match self.to_pages {
            ToPages::Lock => lock_and_unlock(map, holder(), page_at(place)),
            ToPages::LookUp => map.page(page_at(place)).is_some(),
            ToPages::Change => change(map, holder(), page_at(place) + 1),
            ToPages::Scan => has_none(map, range_at(place)),
            ToPages::FindAfterOne => finds(map, WINDOW, place, WINDOW.first + 2 * PAGES),
            ToPages::FindAfterGaps => finds(map, BEFORE, place, 15 + 4 * PAGES),
        }
    }
}

/// A list of slots whose pages are locked and unlocked.
pub fn list(alloc: Global) -> Option<Mapped<SlotList<Global>>> {
    let mut map = SlotList::new(alloc).ok()?;
    fill(&mut map, PAGES);
    let to_pages = ToPages::Lock;
    Some(Mapped { map, to_pages })
}

fn filled(alloc: Global, pages: u64) -> Option<RadixMap<Global>> {
    let mut map = RadixMap::new(alloc).ok()?;
    fill(&mut map, pages);
    Some(map)
}

/// A radix tree of so many mapped pages, with which this is done.
pub fn tree(alloc: Global, pages: u64, to_pages: ToPages) -> Option<Mapped<RadixMap<Global>>> {
    let map = filled(alloc, pages)?;
    Some(Mapped { map, to_pages })
}

/// A radix tree whose window begins with one mapping of twice so many pages.
pub fn mapped_once(alloc: Global) -> Option<Mapped<RadixMap<Global>>> {
    let range = PageRange {
        first: WINDOW.first,
        end: WINDOW.first + 2 * PAGES,
    };
    let mut held = hold(RadixMap::new(alloc).ok()?, range)?;
    held.put();
    let Edits { map, .. } = held;
    let to_pages = ToPages::FindAfterOne;
    Some(Mapped { map, to_pages })
}

/// A radix tree, of which one range is held. It is mapped and unmapped.
#[derive(Drop)]
pub struct Edits {
    map: RadixMap<Global>,
    core: CoreId,
    range: PageRange,
    ghost held: { IsHeld (tree_slots map.root) core range },
}

/// In how many steps at the most a range is locked.
const STEPS: u64 = 5_000;

/// One step of locking the pages from the cursor up to the end; the page from which none is locked
/// by then.
fn lock_from(map: &mut RadixMap<Global>, core: CoreId, cursor: u64, end: u64) -> u64
    requires { end ≤ 2 ^ 35 }
{
    if cursor < 1 || end <= cursor {
        return cursor;
    }
    if let Some(_) = map.owner(cursor) {
        return cursor;
    }
    match map.lock_next(core, cursor, end) {
        Ok(Got::Locked(next)) => next,
        _ => cursor,
    }
}

/// Tells whether the core holds the page.
fn holds(map: &RadixMap<Global>, core: CoreId, page: u64) -> bool
    requires { IsPage page }
    ensures { IsTrue result → (⟦<RadixMap<Global> as SlotRead>⟧.slots map.now).owner page ≡ Some core }
{
    let Some(owner) = map.owner(page) else {
        return false;
    };
    owner.index() == core.index()
}

/// Tells whether the core holds the range's pages, and no slot crosses an edge of it.
fn is_held(map: &RadixMap<Global>, core: CoreId, range: PageRange) -> bool
    requires pages { IsPageRange range }
    requires below { range.end < 2 ^ 35 }
    ensures held { IsTrue result → IsHeld (⟦<RadixMap<Global> as SlotRead>⟧.slots map.now) core range }
{
    let first = map.slot(range.first);
    let after = map.slot(range.end);
    if first.first != range.first || after.first != range.end {
        return false;
    }
    'pages: for page in range.first..range.end {
        if !holds(map, core, page) {
            return false;
        }
    }
    true
}

/// The map with the range held; none where it couldn't be locked.
fn hold(mut map: RadixMap<Global>, range: PageRange) -> Option<Edits>
    requires pages { IsPageRange range }
    requires below { range.end < 2 ^ 35 }
{
    let core = holder();
    let mut cursor = range.first;
    'steps: for _ in 0..STEPS {
        cursor = lock_from(&mut map, core, cursor, range.end);
    }
    if !is_held(&map, core, range) {
        return None;
    }
    Some(Edits { map, core, range })
}

pub fn held_range(alloc: Global) -> Option<Edits> {
    hold(filled(alloc, PAGES)?, range_at(0))
}

impl Edits {
    fn put(&mut self) {
        put(&mut self.map, self.core, self.range);
    }
}

impl Part for Edits {
    fn round(&mut self, _place: u64) -> bool {
        self.put();
        clear(&mut self.map, self.core, self.range);
        true
    }
}
