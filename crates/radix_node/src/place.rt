//! Where in a node a page is.
ghost use Rattle.std.specs.Prelude.{◌≡◌, ◌+◌, ◌*◌, ◌<◌, ◌≤◌, ◌^◌, min, max};
ghost use Rattle.radix_node.specs.Run.{width_of};

/// Slots of a node.
pub const SLOTS: usize = 512;

/// The slot of a node that has a page, and how many of the slot's pages lie before that page.
#[derive(Clone, Copy)]
pub struct SlotPlace {
    pub slot: usize,
    pub rest: u64,
}

/// How many pages a slot of the level has: 1, 2^9, 2^18 or 2^27.
#[inline(always)]
pub fn slot_pages(level: u8) -> u64
    requires { level ≤ 3 }
    ensures { result ≡ width_of level }
{
    1 << (9 * level)
}

/// The place of a page in a node of the level, whose pages are counted from 0.
#[inline(always)]
pub(crate) fn place_of(level: u8, page: u64) -> SlotPlace
    requires level { level ≤ 3 }
    requires within { page < 512 * width_of level }
    ensures slot { result.slot < 512 }
    ensures page { page ≡ result.slot * width_of level + result.rest }
    ensures rest { result.rest < width_of level }
{
    let width = slot_pages(level);
    let slot = page / width;
    SlotPlace {
        slot: slot as usize,
        rest: page - slot * width,
    }
}

/// The slots of a node that have some page of a range: from one up to another.
#[derive(Clone, Copy)]
pub struct SlotSpan {
    pub from: usize,
    pub to: usize,
}

/// The slots of a node of the level that have the pages from `first` up to `end`, which are counted
/// from the node's first.
#[inline(always)]
pub(crate) fn slots_of(level: u8, first: u64, end: u64) -> SlotSpan
    requires level { level ≤ 3 }
    requires some { first < end }
    requires within { end ≤ 512 * width_of level }
    ensures to { result.to ≤ 512 }
    ensures some { result.from < result.to }
    ensures from_low { result.from * width_of level ≤ first }
    ensures from_high { first < result.from * width_of level + width_of level }
    ensures to_low { result.to * width_of level < end + width_of level }
    ensures to_high { end ≤ result.to * width_of level }
{
    let from = place_of(level, first).slot;
    let last = place_of(level, end - 1).slot;
    SlotSpan { from, to: last + 1 }
}

/// Pages of a slot, counted from the slot's first.
#[derive(Clone, Copy)]
pub struct SlotPart {
    pub first: u64,
    pub end: u64,
}

/// The pages from `first` up to `end` that a slot of so many pages has which begins at `start`.
#[inline(always)]
pub(crate) fn part_in(first: u64, end: u64, start: u64, width: u64) -> SlotPart
    requires some { first < end }
    requires starts { start < end }
    requires ends { first < start + width }
    requires wide { 0 < width }
    requires small { start + width ≤ 2 ^ 36 }
    ensures first { start + result.first ≡ max first start }
    ensures end { start + result.end ≡ min end (start + width) }
    ensures some { result.first < result.end }
    ensures within { result.end ≤ width }
{
    SlotPart {
        first: first.max(start) - start,
        end: end.min(start + width) - start,
    }
}
