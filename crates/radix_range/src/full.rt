//! A run of pages of which a map knows that all are mapped.
ghost use Rattle.std.specs.Prelude.{◌≡◌, ℕ, ◌⊎◌, true, false};
ghost use Rattle.vm_base.specs.Functions.{has};
ghost use Rattle.slot_lock.specs.Slots.{Slots};
ghost use Rattle.slot_lock.specs.Changes.{changed};
ghost use Rattle.radix_range.specs.Mapped.{IsMappedRun};

use slot_lock::Change;
use vm_base::PageRange;

/// What is known after a change of pages.
#[inline(always)]
pub(crate) fn with_change(full: PageRange, change: Change) -> PageRange
    ensures { (s : Slots) → IsMappedRun s full → IsMappedRun (changed s change) result }
{
    match change {
        Change::Put { range, .. } => with_range(full, range),
        Change::Clear { range } => without_range(full, range),
        Change::Protect { .. } => full,
    }
}

/// What is known once the pages of a range are mapped: the run with the range, where they touch,
/// else the longer of them.
pub(crate) fn with_range(full: PageRange, range: PageRange) -> PageRange
    ensures { (p : ℕ) → has result p ≡ true → (has full p ≡ true) ⊎ (has range p ≡ true) }
{
    if range.first <= full.end && full.first <= range.end {
        return PageRange {
            first: full.first.min(range.first),
            end: full.end.max(range.end),
        };
    }
    if full.end.saturating_sub(full.first) < range.end.saturating_sub(range.first) {
        return range;
    }
    full
}

/// What is known once the pages of a range are unmapped: what the run has before the range, or else
/// what it has after it.
pub(crate) fn without_range(full: PageRange, range: PageRange) -> PageRange
    ensures { (p : ℕ) → has result p ≡ true → (has full p ≡ true) × (has range p ≡ false) }
{
    if full.first < range.first {
        return PageRange {
            first: full.first,
            end: full.end.min(range.first),
        };
    }
    PageRange {
        first: full.first.max(range.end),
        end: full.end,
    }
}
