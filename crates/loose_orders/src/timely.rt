//! The calls of a history without the accesses that may be late.
ghost use Rattle.std.specs.Prelude.{◌≡◌, ◌⊎◌, ℕ, IfOk, IfSome, Some, false, length, slice_get, true};
ghost use Rattle.orders.specs.declared.history.Timed.{Timed as TimedType};
ghost use Rattle.orders.specs.Pages.{lost};
ghost use Rattle.loose_orders.specs.Timely.{AreWithoutLate, LateAreLeftOut, NoneIsPart, StaysAsTimely, is_beside};
ghost use Rattle.loose_orders.specs.Timely.{is_part, is_stored, lets_lag, out_of, stores};

use crate::between::{changed, page_accessed};
use audit::Call;
use cores::without_bytes;
use orders::{Timed, lost};
use std::alloc::Allocator;
use vm_base::page::PAGE_SIZE;
use vm_base::{NoMemory, PageRange, Reply, Request, page_of, pages};

/// Of more calls only those around the one at which a search is stuck are looked at: each is compared with each.
const MANY: usize = 8_192;

// So many on either side of it.
const BESIDE: usize = 2_000;

/// Which accesses are looked at: those of some pages at some places. All others are left out.
#[derive(Clone, Copy)]
struct Near {
    first: usize,
    end: usize,
    pages: PageRange,
}

// The pages that a call has to do with.
fn reach(call: Call) -> PageRange {
    match call.request {
        Request::Load { addr } | Request::Store { addr, .. } | Request::Fetch { addr } => {
            let page = page_of(addr);
            PageRange {
                first: page,
                end: page.saturating_add(1),
            }
        }
        Request::Munmap { addr, len } | Request::Mprotect { addr, len, .. } => pages(addr, len),
        Request::Mmap { addr, len, .. } => match call.reply {
            Reply::Mapped(at) => pages(at, len),
            _ => pages(addr, len),
        },
    }
}

// All accesses, if there are few calls; else those around this one.
fn around(history: &[Timed], stuck: usize) -> Near {
    let all = PageRange {
        first: 0,
        end: 0xffff_ffff_ffff_ffff,
    };
    match history.get(stuck) {
        Some(timed) if history.len() > MANY => Near {
            first: stuck.saturating_sub(BESIDE),
            end: stuck.saturating_add(BESIDE),
            pages: reach(timed.call),
        },
        _ => Near {
            first: 0,
            end: history.len(),
            pages: all,
        },
    }
}

// Tells whether the access of a page at this place is one of them.
fn is_near(near: Near, at: usize, page: u64) -> bool {
    near.first <= at && at < near.end && near.pages.contains(page)
}

// Tells whether accesses may be late to a request.
fn lets_lag(request: Request) -> bool
    ensures { result ≡ lets_lag request }
{
    matches!(request, Request::Munmap { .. } | Request::Mprotect { .. })
}

// Tells whether an access of this page may be late to a change.
fn is_beside(timed: &Timed, page: u64, change: &Timed) -> bool
    ensures { result ≡ is_beside timed.now page change.now }
{
    let lets = lets_lag(change.call.request);
    let range = changed(change.call.request, change.call.reply);
    let of_page = range.contains(page);
    lets && of_page && change.begin <= timed.end && timed.begin <= change.end
}

// Tells whether an access of this page may be late to some call.
fn may_be_late(history: &[Timed], timed: &Timed, page: u64) -> bool
    ensures { result ≡ false → (i : ℕ) (change : TimedType) → slice_get history.now i ≡ Some change
        → is_beside timed.now page change ≡ false }
{
    'calls: for at in 0..history.len() {
        let beside = is_beside(timed, page, &history[at]);
        if beside {
            return true;
        }
    }
    false
}

// Tells whether a call is a store, or another one that was done.
fn is_stored(request: Request, reply: Reply) -> bool
    ensures { result ≡ is_stored request reply }
{
    match (request, reply) {
        (Request::Store { .. }, _) => true,
        (_, Reply::Done) => true,
        _ => false,
    }
}

// An access that is left out, unless no store may be and it is one.
fn left_out(timed: Timed, unstored: bool) -> Option<Timed>
    ensures out { IfSome result (λ d. d ≡ lost timed) }
    ensures stored { IfSome result (λ d. unstored ≡ true → stores timed.call ≡ false) }
{
    if unstored && is_stored(timed.call.request, timed.call.reply) {
        return None;
    }
    Some(lost(timed))
}

// A call as it is left; none, if it is a store that may be late, and no store may be left out.
#[tactic(auto, using(crate::proofs::TakenLemmas::stays_unaccessed, crate::proofs::TakenLemmas::stays_timely, crate::proofs::TakenLemmas::out_if))]
fn left_one(history: &[Timed], near: Near, at: usize, timed: Timed, unstored: bool) -> Option<Timed>
    ensures { IfSome result (λ d. StaysAsTimely history.now timed d ⊎ out_of unstored timed d) }
{
    let Some(page) = page_accessed(timed.call.request) else {
        return Some(timed);
    };
    if is_near(near, at, page) {
        let late = may_be_late(history, &timed, page);
        if !late {
            return Some(timed);
        }
    }
    left_out(timed, unstored)
}

// All calls as they are left.
#[tactic(auto, using(crate::proofs::TakenLemmas::none_so_far))]
fn left_all<A: Allocator + Clone + Drop>(
    alloc: &A,
    history: &[Timed],
    near: Near,
    unstored: bool,
) -> Result<Option<Vec<Timed, A>>, NoMemory>
    ensures { IfOk result (λ found. IfSome found (λ left. LateAreLeftOut (out_of unstored) history.now left.items)) }
{
    let mut left = Vec::with_capacity(alloc.clone()?, history.len())?;
    'calls: for at in 0..history.len() {
        match left_one(history, near, at, history[at], unstored) {
            Some(timed) => left.push(timed)?,
            None => return Ok(None),
        }
    }
    Ok(Some(left))
}

/// The calls of a history without the accesses that may be late, if that can be told: as they are, if none of these is
/// a store; else without their bytes. Of many calls only those around this one are looked at.
pub fn taken<A: Allocator + Clone + Drop>(
    alloc: &A,
    history: &[Timed],
    stuck: usize,
) -> Result<Option<Vec<Timed, A>>, NoMemory>
    ensures { IfOk result (λ found. IfSome found (λ calls. AreWithoutLate history.now calls.items)) }
{
    let near = around(history, stuck);
    if history.len() <= MANY {
        if let Some(calls) = left_all(alloc, history, near, true)? {
            return Ok(Some(calls));
        }
    }
    match left_all(alloc, history, near, false)? {
        Some(left) => {
            let calls = without_bytes(alloc, left.as_slice())?;
            Ok(calls)
        }
        None => Ok(None),
    }
}

// Tells whether a call is an `mprotect` of several pages that was refused, and may have changed some.
fn is_part(request: Request, reply: Reply) -> bool
    ensures { result ≡ is_part request reply }
{
    match (request, reply) {
        (Request::Mprotect { addr, len, .. }, Reply::Refused(_)) => {
            addr % PAGE_SIZE == 0 && len > PAGE_SIZE
        }
        _ => false,
    }
}

/// Tells whether none is.
pub fn none_is_part(history: &[Timed]) -> bool
    ensures { result ≡ true → NoneIsPart history.now }
{
    'calls: for at in 0..history.len() {
        let call = history[at].call;
        let part = is_part(call.request, call.reply);
        if part {
            return false;
        }
    }
    true
}
