//! Where a map knows that no room begins: it was looked for there, and no page was unmapped since.
ghost use Rattle.std.specs.Prelude.{◌≡◌, ℕ, ◌^◌, ◌<◌, ◌≤◌, All, IfSome, IfNone};
ghost use Rattle.vm_base.specs.Pages.{IsPageRange};
ghost use Rattle.slot_lock.specs.Plan.{IsSoundChange};
ghost use Rattle.slot_lock.specs.Slots.{AllMapped, IsFreeRun, Slots};
ghost use Rattle.slot_lock.specs.Changes.{changed};
ghost use Rattle.radix_range.specs.Tree.{IsRadix, tree_slots};
ghost use Rattle.radix_range.specs.Mapped.{IsMappedRun};
ghost use Rattle.radix_range.specs.Tight.{IsTight, IsTightBeside, IsTightBut};

use crate::walk;
use arrayvec::ArrayVec;
use radix_node::Node;
use slot_lock::Change;
use std::alloc::Allocator;
use vm_base::PageRange;

// How many a map keeps in mind.
const PLACES: usize = 16;

// Room of more pages isn't looked for round pages that were unmapped.
const FEW_PAGES: u64 = 32;

// So far beyond what is known a place is worth keeping in mind.
const FAR: u64 = 64;

/// Pages at which no `n` unmapped pages begin.
#[derive(Clone, Copy, Default)]
pub(crate) struct Tight {
    /// How many pages.
    pub(crate) n: u64,
    /// The first page.
    pub(crate) first: u64,
    /// The page after the last.
    pub(crate) end: u64,
}

/// What a map keeps in mind, from left to right.
pub(crate) type Tights = ArrayVec<Tight, PLACES>;

// The least start of `n` unmapped pages in the range, if there is one before the pages of a `tight`,
// which has some and is for so many or fewer.
fn run_before<A: Allocator>(
    root: &Node<A>,
    full: PageRange,
    tight: Tight,
    range: PageRange,
    n: u64,
) -> Option<u64>
    requires some { 1 ≤ n }
    requires tree { IsRadix root.now }
    requires full { IsMappedRun (tree_slots root.now) full }
    requires tight { IsTight (tree_slots root.now) tight }
    requires pages { tight.first < tight.end }
    requires few { tight.n ≤ n }
    requires high { range.end ≤ 2 ^ 36 }
    ensures found { IfSome result (IsFreeRun (tree_slots root.now) range n) }
    ensures least { IfSome result (λ s. (r : ℕ) → r < s → ¬ IsFreeRun (tree_slots root.now) range n r) }
    ensures none { IfNone result ((r : ℕ) → IsFreeRun (tree_slots root.now) range n r → tight.end ≤ r) }
{
    if tight.first <= range.first {
        return None;
    }
    let end = range.end.min(tight.first.saturating_add(tight.n));
    let before = PageRange {
        first: range.first,
        end,
    };
    walk::first_free_run(root, full, before, n)
}

/// The least start of `n` unmapped pages in the range, if there is one. There may be no pages in it.
/// Pages at which none so many begin are passed over.
pub(crate) fn first_free_run<A: Allocator>(
    root: &Node<A>,
    full: PageRange,
    tights: &[Tight],
    range: PageRange,
    n: u64,
) -> Option<u64>
    requires some { 1 ≤ n }
    requires tree { IsRadix root.now }
    requires full { IsMappedRun (tree_slots root.now) full }
    requires tights { All (IsTight (tree_slots root.now)) tights.now }
    requires high { range.end ≤ 2 ^ 36 }
    ensures found { IfSome result (IsFreeRun (tree_slots root.now) range n) }
    ensures least { IfSome result (λ s. (r : ℕ) → r < s → ¬ IsFreeRun (tree_slots root.now) range n r) }
    ensures none { IfNone result ((r : ℕ) → ¬ IsFreeRun (tree_slots root.now) range n r) }
{
    let mut from = range.first;
    'tights: for k in 0..tights.len() {
        let tight = tights[k];
        if tight.n <= n && from < tight.end && tight.first < tight.end {
            let rest = PageRange {
                first: from,
                end: range.end,
            };
            if let Some(start) = run_before(root, full, tight, rest, n) {
                return Some(start);
            }
            from = tight.end;
        }
    }
    let rest = PageRange {
        first: from,
        end: range.end,
    };
    walk::first_free_run(root, full, rest, n)
}

// Adds one that is wanted, if it has some pages and there is a place for it.
fn add(tights: &mut Tights, tight: Tight, is_wanted: bool)
    ensures { (s : Slots) → All (IsTight s) tights.old.items → IsTight s tight
        → All (IsTight s) tights.new.items }
{
    if is_wanted && tight.first < tight.end && !tights.is_full() {
        tights.push(tight);
    }
}

// All of them with a new one, without those that it makes needless.
fn with(tights: &[Tight], new: Tight) -> Tights
    ensures { (s : Slots) → All (IsTight s) tights.now → IsTight s new → All (IsTight s) result.items }
{
    let mut all = Tights::new();
    'left: for k in 0..tights.len() {
        let tight = tights[k];
        add(&mut all, tight, tight.first < new.first);
    }
    add(&mut all, new, true);
    'right: for k in 0..tights.len() {
        let tight = tights[k];
        let says_more = tight.n < new.n || new.end < tight.end;
        add(&mut all, tight, new.first <= tight.first && says_more);
    }
    all
}

// The page up to which no room of `n` pages begins, from the first page on, as far as one of them tells.
fn known_to(tights: &[Tight], first: u64, n: u64) -> u64 {
    let mut known = first;
    'tights: for k in 0..tights.len() {
        let tight = tights[k];
        if tight.n <= n && tight.first <= first {
            known = known.max(tight.end);
        }
    }
    known
}

// Keeps in mind that no room for the pages of a range, which are mapped now, was found from the
// first page on in front of them, where that is far.
#[inline(never)]
fn note_room<A: Allocator>(
    tights: &mut Tights,
    root: &Node<A>,
    full: PageRange,
    first: u64,
    range: PageRange,
)
    requires tree { IsRadix root.now }
    requires full { IsMappedRun (tree_slots root.now) full }
    requires tights { All (IsTight (tree_slots root.now)) tights.old.items }
    requires range { IsPageRange range }
    requires mapped { AllMapped (tree_slots root.now) range }
    ensures { All (IsTight (tree_slots root.now)) tights.new.items }
{
    let n = range.end - range.first;
    let known = known_to(tights.as_slice(), first, n);
    if range.first < known.saturating_add(FAR) {
        return;
    }
    let before = PageRange {
        first,
        end: range.end,
    };
    let end = match first_free_run(root, full, tights.as_slice(), before, n) {
        Some(start) => start,
        None => range.end,
    };
    *tights = with(tights.as_slice(), Tight { n, first, end });
}

// Where room for so many pages may begin since the pages of the range were unmapped.
fn opened<A: Allocator>(
    root: &Node<A>,
    full: PageRange,
    tight: Tight,
    range: PageRange,
) -> PageRange
    requires tree { IsRadix root.now }
    requires full { IsMappedRun (tree_slots root.now) full }
    requires tight { IsTightBeside (tree_slots root.now) range tight }
    requires range { IsPageRange range }
    ensures { IsTightBut (tree_slots root.now) result tight }
{
    let first = range.first.saturating_sub(tight.n);
    if range.end <= tight.first || tight.end <= first {
        return PageRange { first: 0, end: 0 };
    }
    if FEW_PAGES < tight.n {
        return PageRange {
            first,
            end: range.end,
        };
    }
    let near = PageRange {
        first,
        end: range.end + tight.n,
    };
    match walk::first_free_run(root, full, near, tight.n) {
        Some(start) => PageRange {
            first: start,
            end: range.end,
        },
        None => PageRange { first: 0, end: 0 },
    }
}

// Forgets of each what is no longer known since the pages of the range were unmapped.
fn forget<A: Allocator>(
    tights: &[Tight],
    root: &Node<A>,
    full: PageRange,
    range: PageRange,
) -> Tights
    requires tree { IsRadix root.now }
    requires full { IsMappedRun (tree_slots root.now) full }
    requires tights { All (IsTightBeside (tree_slots root.now) range) tights.now }
    requires range { IsPageRange range }
    ensures { All (IsTight (tree_slots root.now)) result.items }
{
    let mut rest = Tights::new();
    'tights: for k in 0..tights.len() {
        let tight = tights[k];
        let opened = opened(root, full, tight, range);
        let before = Tight {
            end: tight.end.min(opened.first),
            ..tight
        };
        let behind = Tight {
            first: tight.first.max(opened.end),
            ..tight
        };
        add(&mut rest, before, true);
        add(&mut rest, behind, true);
    }
    rest
}

// The same in place. It stands by itself, so that a change where there is none clears no room for others.
#[inline(never)]
fn forget_opened<A: Allocator>(
    tights: &mut Tights,
    root: &Node<A>,
    full: PageRange,
    range: PageRange,
)
    requires tree { IsRadix root.now }
    requires full { IsMappedRun (tree_slots root.now) full }
    requires tights { All (IsTightBeside (tree_slots root.now) range) tights.old.items }
    requires range { IsPageRange range }
    ensures { All (IsTight (tree_slots root.now)) tights.new.items }
{
    *tights = forget(tights.as_slice(), root, full, range);
}

/// Keeps in mind what is known after a change. Room was last looked for from the first page of
/// `sought` on, and found at its end.
#[inline(always)]
pub(crate) fn note_change<A: Allocator>(
    tights: &mut Tights,
    root: &Node<A>,
    full: PageRange,
    sought: PageRange,
    change: Change,
)
    requires tree { IsRadix root.now }
    requires full { IsMappedRun (tree_slots root.now) full }
    requires sound { IsSoundChange change }
    requires before { (s : Slots) × (tree_slots root.now ≡ changed s change)
        × All (IsTight s) tights.old.items }
    ensures { All (IsTight (tree_slots root.now)) tights.new.items }
{
    match change {
        Change::Put { range, .. } => {
            if sought.end == range.first {
                note_room(tights, root, full, sought.first, range);
            }
        }
        Change::Clear { range } => {
            if !tights.is_empty() {
                forget_opened(tights, root, full, range);
            }
        }
        Change::Protect { .. } => {}
    }
}
