//! The pages that an acquisition locks.
ghost use Rattle.std.specs.Prelude.{◌≡◌, ℕ, ◌+◌, ◌^◌, ◌<◌, ◌≤◌, true, IfSome, Option};
ghost use Rattle.vm_base.specs.Pages.{IsPageRange};
ghost use Rattle.slot_lock.specs.Footprint.{IsFootprint, one_range, both, end_at, next_after, is_past};

use vm_base::PageRange;

/// One or two ranges of pages, from left to right, with a gap between.
#[derive(Clone, Copy)]
pub struct Footprint {
    pub first: PageRange,
    pub second: Option<PageRange>,
}

impl Footprint {
    /// The pages of one range.
    pub fn one(range: PageRange) -> Footprint
        requires { IsPageRange range }
        ensures value { result ≡ one_range range }
        ensures sound { IsFootprint result }
    {
        Footprint {
            first: range,
            second: None,
        }
    }

    /// The pages of two ranges, as one range where they overlap or touch.
    pub fn both(range: PageRange, other: PageRange) -> Footprint
        requires one { IsPageRange range }
        requires other { IsPageRange other }
        ensures value { result ≡ both range other }
        ensures sound { IsFootprint result }
    {
        if range.end < other.first {
            Footprint {
                first: range,
                second: Some(other),
            }
        } else if other.end < range.first {
            Footprint {
                first: other,
                second: Some(range),
            }
        } else {
            Footprint::one(PageRange {
                first: range.first.min(other.first),
                end: range.end.max(other.end),
            })
        }
    }

    /// The end of the range that has the cursor.
    pub fn end_at(&self, cursor: u64) -> u64
        ensures { result ≡ end_at self.now cursor }
    {
        match self.second {
            Some(second) if self.first.end <= cursor => second.end,
            _ => self.first.end,
        }
    }

    /// Where the cursor goes after the pages up to `end` of a range.
    pub fn next_after(&self, end: u64) -> u64
        ensures { result ≡ next_after self.now end }
    {
        match self.second {
            Some(second) if end == self.first.end => second.first,
            _ => end,
        }
    }

    /// Tells whether a cursor is past all pages.
    pub fn is_past(&self, cursor: u64) -> bool
        ensures { result ≡ is_past self.now cursor }
    {
        match self.second {
            Some(second) => second.end <= cursor,
            None => self.first.end <= cursor,
        }
    }
}
