//! Whether a call may find no frame.
ghost use Rattle.std.specs.Prelude.{◌≡◌, ◌-◌, ◌^◌, count_by, min, nat_lt, sum_by};
ghost use Rattle.litmus.specs.Lacking.{frames_taken, has_page, is_access_line, is_of, is_other, page_accessed, taken_by};

use litmus_merges::Asked;
use trace_text::{Action, Line};
use vm_base::{CoreId, Request, page_of};

// The page of an access.
fn page_accessed(request: Request) -> Option<u64>
    ensures { result ≡ page_accessed request }
{
    match request {
        Request::Load { addr } | Request::Store { addr, .. } | Request::Fetch { addr } => Some(
            page_of(addr),
        ),
        Request::Mmap { .. } | Request::Munmap { .. } | Request::Mprotect { .. } => None,
    }
}

// Whether one of so many bytes from this address on is in the page.
fn is_of(addr: u64, len: u64, page: u64) -> bool
    ensures { result ≡ is_of addr len page }
{
    let last = addr.saturating_add(len.saturating_sub(1));
    page_of(addr) <= page && page <= page_of(last)
}

// Whether the request is of a range that has the page.
fn has_page(request: Request, page: u64) -> bool
    ensures { result ≡ has_page request page }
{
    match request {
        Request::Mmap { addr, len, .. } => is_of(addr, len, page),
        Request::Munmap { addr, len } => is_of(addr, len, page),
        Request::Mprotect { addr, len, .. } => is_of(addr, len, page),
        Request::Load { .. } | Request::Store { .. } | Request::Fetch { .. } => false,
    }
}

// Whether a call is another core's, of a range that has the page.
fn is_other(core: CoreId, page: u64, call: Asked) -> bool
    ensures { result ≡ is_other core page call }
{
    call.core.index() != core.index() && has_page(call.request, page)
}

// How many calls of other cores are of ranges that have the page.
fn count_others(calls: &[Asked], core: CoreId, page: u64) -> u64
    ensures { result ≡ count_by (is_other core page) calls.now }
{
    let mut count = 0u64;
    'calls: for at in 0..calls.len() {
        let call = calls[at];
        if is_other(core, page, call) {
            count += 1;
        }
    }
    count
}

// How many frames a call may take: an access one, and one more for each call of another core whose range has its page.
fn frames_by(calls: &[Asked], call: Asked) -> u64
    ensures { result ≡ min (taken_by calls.now call) (2 ^ 64 - 1) }
{
    match page_accessed(call.request) {
        Some(page) => count_others(calls, call.core, page).saturating_add(1),
        None => 0,
    }
}

// How many frames the calls may take.
fn frames_by_all(calls: &[Asked]) -> u64
    ensures { result ≡ min (sum_by (taken_by calls.now) calls.now) (2 ^ 64 - 1) }
{
    let mut count = 0u64;
    'calls: for at in 0..calls.len() {
        count = count.saturating_add(frames_by(calls, calls[at]));
    }
    count
}

// Whether the line of an opening is of an access.
fn is_access(line: Line) -> bool
    ensures { result ≡ is_access_line line }
{
    match line {
        Line::Now(_, request) => page_accessed(request).is_some(),
        Line::Act(_, Action::Call(request)) => page_accessed(request).is_some(),
        _ => false,
    }
}

// How many lines of an opening are of an access.
fn count_accesses(opening: &[Line]) -> u64
    ensures { result ≡ count_by is_access_line opening.now }
{
    let mut count = 0u64;
    'lines: for at in 0..opening.len() {
        if is_access(opening[at]) {
            count += 1;
        }
    }
    count
}

/// Whether a call may find no frame: the accesses of the opening and of the lists may take more than there are.
pub(crate) fn may_lack(frames: u64, opening: &[Line], calls: &[Asked]) -> bool
    ensures { result ≡ nat_lt frames (min (frames_taken opening.now calls.now) (2 ^ 64 - 1)) }
{
    let count = count_accesses(opening).saturating_add(frames_by_all(calls));
    frames < count
}
