//! Steps that may change places, and steps of which later ones leave nothing.
ghost use Rattle.std.specs.Prelude.{◌≡◌};
ghost use Rattle.litmus_merges.specs.Passing.{are_apart, change_covers, change_passes, copy_passes, covers, file_covers, file_passes, is_inside, is_within, may_pass, own_covers, own_passes, protects_within, spares};

use crate::change::MapChange;
use slot_lock::Change;
use vm_base::PageRange;

/// Tells whether no page is in both ranges.
fn are_apart(one: PageRange, other: PageRange) -> bool
    ensures { result ≡ are_apart one other }
{
    one.end <= other.first || other.end <= one.first
}

/// Tells whether each page of the one range is in the other.
fn is_inside(one: PageRange, other: PageRange) -> bool
    ensures { result ≡ is_inside one other }
{
    other.first <= one.first && one.end <= other.end
}

/// Tells whether own bytes of the page are the same before and after the change.
fn spares(change: Change, page: u64) -> bool
    ensures { result ≡ spares change page }
{
    match change {
        Change::Put { range, .. } => !range.contains(page),
        Change::Clear { range } => !range.contains(page),
        Change::Protect { .. } => true,
    }
}

/// Tells whether a change and a step may change places.
fn change_passes(change: Change, other: MapChange) -> bool
    ensures { result ≡ change_passes change other }
{
    match other {
        MapChange::Change(other) => are_apart(change.range(), other.range()),
        MapChange::Copy { page } => spares(change, page),
        MapChange::Own { page, .. } => spares(change, page),
        MapChange::File { .. } => true,
    }
}

/// Tells whether the copy of a page and a step may change places.
fn copy_passes(page: u64, other: MapChange) -> bool
    ensures { result ≡ copy_passes page other }
{
    match other {
        MapChange::Change(change) => spares(change, page),
        MapChange::Copy { page: other } => page != other,
        MapChange::Own { page: other, .. } => page != other,
        MapChange::File { .. } => false,
    }
}

/// Tells whether another own byte of a page and a step may change places.
fn own_passes(page: u64, offset: u64, other: MapChange) -> bool
    ensures { result ≡ own_passes page offset other }
{
    match other {
        MapChange::Change(change) => spares(change, page),
        MapChange::Copy { page: other } => page != other,
        MapChange::Own {
            page: other,
            offset: there,
            ..
        } => page != other || offset != there,
        MapChange::File { .. } => true,
    }
}

/// Tells whether another byte of a file and a step may change places.
fn file_passes(file: u32, page: u64, offset: u64, other: MapChange) -> bool
    ensures { result ≡ file_passes file page offset other }
{
    match other {
        MapChange::Change(_) => true,
        MapChange::Copy { .. } => false,
        MapChange::Own { .. } => true,
        MapChange::File {
            file: other,
            page: k,
            offset: there,
            ..
        } => file != other || (page != k || offset != there),
    }
}

/// Tells whether two steps may change places.
pub(crate) fn may_pass(one: MapChange, other: MapChange) -> bool
    ensures { result ≡ may_pass one other }
{
    match one {
        MapChange::Change(change) => change_passes(change, other),
        MapChange::Copy { page } => copy_passes(page, other),
        MapChange::Own { page, offset, .. } => own_passes(page, offset, other),
        MapChange::File {
            file,
            page,
            offset,
            ..
        } => file_passes(file, page, offset, other),
    }
}

/// Tells whether the step changes pages of the range alone.
fn is_within(step: MapChange, range: PageRange) -> bool
    ensures { result ≡ is_within step range }
{
    match step {
        MapChange::Change(change) => is_inside(change.range(), range),
        MapChange::Copy { page } => range.contains(page),
        MapChange::Own { page, .. } => range.contains(page),
        MapChange::File { .. } => false,
    }
}

/// Tells whether the step protects pages of the range alone.
fn protects_within(step: MapChange, range: PageRange) -> bool
    ensures { result ≡ protects_within step range }
{
    match step {
        MapChange::Change(Change::Protect { range: other, .. }) => is_inside(other, range),
        MapChange::Change(Change::Put { .. }) | MapChange::Change(Change::Clear { .. }) => false,
        MapChange::Copy { .. } | MapChange::Own { .. } | MapChange::File { .. } => false,
    }
}

/// Tells whether the change leaves nothing of the step before it.
fn change_covers(change: Change, earlier: MapChange) -> bool
    ensures { result ≡ change_covers change earlier }
{
    match change {
        Change::Put { range, .. } => is_within(earlier, range),
        Change::Clear { range } => is_within(earlier, range),
        Change::Protect { range, .. } => protects_within(earlier, range),
    }
}

/// Tells whether another own byte there leaves nothing of the step before it.
fn own_covers(page: u64, offset: u64, earlier: MapChange) -> bool
    ensures { result ≡ own_covers page offset earlier }
{
    match earlier {
        MapChange::Own {
            page: other,
            offset: there,
            ..
        } => page == other && offset == there,
        MapChange::Change(_) | MapChange::Copy { .. } | MapChange::File { .. } => false,
    }
}

/// Tells whether another byte of the file there leaves nothing of the step before it.
fn file_covers(file: u32, page: u64, offset: u64, earlier: MapChange) -> bool
    ensures { result ≡ file_covers file page offset earlier }
{
    match earlier {
        MapChange::File {
            file: other,
            page: k,
            offset: there,
            ..
        } => file == other && (page == k && offset == there),
        MapChange::Change(_) | MapChange::Copy { .. } | MapChange::Own { .. } => false,
    }
}

/// Tells whether the later step leaves nothing of the earlier one.
pub(crate) fn covers(later: MapChange, earlier: MapChange) -> bool
    ensures { result ≡ covers later earlier }
{
    match later {
        MapChange::Change(change) => change_covers(change, earlier),
        MapChange::Copy { .. } => false,
        MapChange::Own { page, offset, .. } => own_covers(page, offset, earlier),
        MapChange::File {
            file,
            page,
            offset,
            ..
        } => file_covers(file, page, offset, earlier),
    }
}
