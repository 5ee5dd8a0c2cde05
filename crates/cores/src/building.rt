//! Whether a core's first calls leave nothing of what was in its pages.
ghost use Rattle.std.specs.Prelude.{◌≡◌, ℕ, ◌<◌, ◌≤◌, ◌⊎◌, true};
ghost use Rattle.cores.specs.Cores.{AreTimely, IsBase, IsBuilt, IsBuiltBy, IsTimely};
ghost use Rattle.cores.specs.Parts.{IsResetAt};

use crate::kept::Kept;
use crate::parts::{is_reset, resets, sets};
use orders::Timed;
use vm_base::PageRange;

/// Tells whether a call that ended by this time maps or unmaps pages, and surely took effect; and another began later.
fn is_timely(built: u64, call: &Kept) -> bool
    ensures { result ≡ true → IsTimely built call.now }
{
    if call.timed.end <= built {
        return !call.is_open && sets(call.timed.call);
    }
    built < call.timed.begin
}

/// Tells whether all are so.
fn are_timely(built: u64, kept: &[Kept]) -> bool
    ensures { result ≡ true → AreTimely built kept.now }
{
    let [first, rest @ ..] = kept else {
        return true;
    };
    if !is_timely(built, first) {
        return false;
    }
    are_timely(built, rest)
}

/// Tells whether a call that ended by this time maps or unmaps this page.
fn is_built_by(page: u64, built: u64, kept: &[Kept]) -> bool
    ensures { result ≡ true → IsBuiltBy page built kept.now }
{
    let [first, rest @ ..] = kept else {
        return false;
    };
    if first.timed.end <= built && resets(page, first.timed.call) {
        return true;
    }
    is_built_by(page, built, rest)
}

/// Tells whether the first call or such a one does so with each page from one up to another.
fn are_built(page: u64, end: u64, start: &Timed, built: u64, kept: &[Kept]) -> bool
    ensures { result ≡ true → (x : ℕ) → page ≤ x → x < end
        → IsResetAt x start.now.call.request start.now.call.reply ⊎ IsBuiltBy x built kept.now }
{
    if page >= end {
        return true;
    }
    if !resets(page, start.call) && !is_built_by(page, built, kept) {
        return false;
    }
    are_built(page + 1, end, start, built, kept)
}

/// Tells whether calls that ended by this time, the first one among them, map or unmap each of these pages before the others begin.
fn is_built(pages: PageRange, start: &Timed, built: u64, kept: &[Kept]) -> bool
    ensures { result ≡ true → IsBuilt pages start.now built kept.now }
{
    if start.end > built || !sets(start.call) || !are_timely(built, kept) {
        return false;
    }
    are_built(pages.first, pages.end, start, built, kept)
}

/// Tells whether the first call maps or unmaps all of these pages; or it and others do, before the rest begins.
pub(crate) fn is_base(pages: PageRange, start: &Timed, built: u64, kept: &[Kept]) -> bool
    ensures { result ≡ true → IsBase pages start.now built kept.now }
{
    if is_reset(pages, start.call) {
        return true;
    }
    is_built(pages, start, built, kept)
}
