//! What comes between a change and an access of an order that may be late to it.
ghost use Rattle.std.specs.Prelude.{◌≡◌, ◌<◌, ◌≤◌, ◌^◌, IfSome, Some, false, true};
ghost use Rattle.vm_base.specs.declared.replies.Reply.TheVariants as ReplyOf;
ghost use Rattle.vm_base.specs.declared.replies.SegvCode.{SegvCode as Code};
ghost use Rattle.vm_base.specs.declared.requests.Request.{Request as RequestType};
ghost use Rattle.vm_base.specs.declared.replies.SegvCode.TheVariants.{AccErr};
ghost use Rattle.vm_base.specs.declared.rights.Access.TheVariants as By;
ghost use Rattle.orders.specs.declared.history.Timed.{Timed as TimedType};
ghost use Rattle.vm_base.specs.Functions.{has};
ghost use Rattle.orders.specs.Orders.{Precedes};
ghost use Rattle.loose_orders.specs.Kernel.{Conflict, GoesOn, IsAt, IsBound, IsServed, IsUnseen, MayLag, Meet, Sees, changed, kind_of};
ghost use Rattle.loose_orders.specs.Loose.{page_accessed};

use crate::keeping::call_at;
use crate::moves::Move;
use audit::Call;
use orders::Timed;
use vm_base::page::PageRange;
use vm_base::{Access, Errno, Reply, Request, SegvCode, page_of, pages};

/// The call of the move at this place, if both are there.
pub(crate) fn timed_at(history: &[Timed], moves: &[Move], place: usize) -> Option<Timed>
    ensures { (c : TimedType) → IsAt history.now moves.now place c → result ≡ Some c }
{
    match moves.get(place) {
        Some(one) => call_at(history, one.call()),
        None => None,
    }
}

/// The pages that a call changes, or that a refused `mprotect` was to change.
pub(crate) fn changed(request: Request, reply: Reply) -> PageRange
    ensures { result ≡ changed request reply }
{
    match (request, reply) {
        (Request::Mmap { len, .. }, Reply::Mapped(at)) => pages(at, len),
        (Request::Munmap { addr, len }, Reply::Done) => pages(addr, len),
        (Request::Mprotect { addr, len, .. }, Reply::Done) => pages(addr, len),
        (Request::Mprotect { addr, len, .. }, Reply::Refused(Errno::ENOMEM)) => pages(addr, len),
        (Request::Mprotect { addr, len, .. }, Reply::Refused(Errno::EACCES)) => pages(addr, len),
        _ => PageRange { first: 0, end: 0 },
    }
}

/// Tells whether two ranges have no page in common.
fn are_apart(a: PageRange, b: PageRange) -> bool
    ensures { result ≡ true → ¬ Meet a b }
{
    a.first.max(b.first) >= a.end.min(b.end)
}

/// Tells whether a change goes on although this call comes behind it: that hasn't begun after its end, and changes no
/// page of it.
fn lets(change: &Timed, one: &Timed) -> bool
    ensures time { result ≡ true → ¬ Precedes change.now one.now }
    ensures pages { result ≡ true → ¬ Conflict one.now change.now }
{
    let begun = one.begin;
    if change.end < begun {
        return false;
    }
    are_apart(
        changed(one.call.request, one.call.reply),
        changed(change.call.request, change.call.reply),
    )
}

/// Tells whether the change at a place goes on at a later one.
fn goes_on(history: &[Timed], moves: &[Move], place: usize, now: usize, change: &Timed) -> bool
    ensures { result ≡ true → GoesOn history.now moves.now place now change.now }
{
    if place >= now {
        return false;
    }
    'between: for at in place + 1..now {
        let Some(one) = timed_at(history, moves, at) else {
            return false;
        };
        if !lets(change, &one) {
            return false;
        }
    }
    let Some(last) = timed_at(history, moves, now) else {
        return false;
    };
    let begun = last.begin;
    if change.end < begun {
        return false;
    }
    true
}

/// Tells whether the change at a place, of which this page is one, goes on at a later place.
pub(crate) fn is_late_to(
    history: &[Timed],
    moves: &[Move],
    place: usize,
    now: usize,
    change: &Timed,
    page: u64,
) -> bool
    ensures goes_on { result ≡ true → GoesOn history.now moves.now place now change.now }
    ensures within { result ≡ true → has (changed change.now.call.request change.now.call.reply) page ≡ true }
{
    let range = changed(change.call.request, change.call.reply);
    if !range.contains(page) {
        return false;
    }
    goes_on(history, moves, place, now, change)
}

/// The page that a request accesses.
pub(crate) fn page_accessed(request: Request) -> Option<u64>
    ensures value { result ≡ page_accessed request }
    ensures bounded { IfSome result (λ page. page < 2 ^ 52) }
{
    match request {
        Request::Load { addr } | Request::Store { addr, .. } | Request::Fetch { addr } => {
            Some(page_of(addr))
        }
        Request::Mmap { .. } | Request::Munmap { .. } | Request::Mprotect { .. } => None,
    }
}

/// Tells whether a request accesses this page.
fn accesses(request: Request, page: u64) -> bool
    ensures { page_accessed request ≡ Some page → result ≡ true }
{
    match page_accessed(request) {
        Some(found) => found == page,
        None => false,
    }
}

/// The access of this page at a place, if one goes by the list there.
fn seen_by(history: &[Timed], moves: &[Move], place: usize, page: u64) -> Option<Timed>
    ensures { (c : TimedType) → Sees history.now moves.now place page c → result ≡ Some c }
{
    match moves.get(place) {
        Some(Move::Reply(call)) => match call_at(history, *call) {
            Some(timed) => {
                if accesses(timed.call.request, page) {
                    Some(timed)
                } else {
                    None
                }
            }
            None => None,
        },
        _ => None,
    }
}

/// Tells whether no access of the page goes by the list between two places.
pub(crate) fn is_unseen(
    history: &[Timed],
    moves: &[Move],
    place: usize,
    now: usize,
    page: u64,
) -> bool
    ensures { result ≡ true → IsUnseen history.now moves.now place now page }
{
    if place >= now {
        return true;
    }
    'between: for at in place + 1..now {
        if let Some(_one) = seen_by(history, moves, at, page) {
            return false;
        }
    }
    true
}

/// How a request accesses its page, if it does.
fn kind_of(request: Request) -> Option<Access>
    ensures { result ≡ kind_of request }
{
    match request {
        Request::Load { .. } => Some(Access::Load),
        Request::Store { .. } => Some(Access::Store),
        Request::Fetch { .. } => Some(Access::Fetch),
        Request::Mmap { .. } | Request::Munmap { .. } | Request::Mprotect { .. } => None,
    }
}

/// Tells whether two kinds are one.
fn is_same(a: Option<Access>, b: Option<Access>) -> bool
    ensures { a ≡ b → result ≡ true }
{
    match (a, b) {
        (Some(Access::Load), Some(Access::Store)) => false,
        (Some(Access::Load), Some(Access::Fetch)) => false,
        (Some(Access::Store), Some(Access::Load)) => false,
        (Some(Access::Store), Some(Access::Fetch)) => false,
        (Some(Access::Fetch), Some(Access::Load)) => false,
        (Some(Access::Fetch), Some(Access::Store)) => false,
        _ => true,
    }
}

/// Tells whether an access was refused which is of the other's core and kind.
fn binds(by: &Call, call: &Call) -> bool
    ensures { (code : Code) → by.now.core ≡ call.now.core → kind_of by.now.request ≡ kind_of call.now.request
        → by.now.reply ≡ ReplyOf.Segv code → result ≡ true }
{
    let is_kind = is_same(kind_of(by.request), kind_of(call.request));
    let is_refused = matches!(by.reply, Reply::Segv(_));
    is_kind && is_refused && by.core == call.core
}

/// A time at which nothing at this place had ended, if something is there.
fn end_at(history: &[Timed], moves: &[Move], place: usize) -> u64
    ensures { (c : TimedType) → IsAt history.now moves.now place c → result ≤ c.end }
{
    match timed_at(history, moves, place) {
        Some(one) => one.end,
        None => u64::MAX,
    }
}

/// The earlier one of two times.
fn earlier(a: u64, b: u64) -> u64
    ensures first { result ≤ a }
    ensures second { result ≤ b }
{
    a.min(b)
}

/// Tells whether at this place the list refuses an access that binds another one, where something ended at this time.
fn binds_at(
    history: &[Timed],
    moves: &[Move],
    place: usize,
    page: u64,
    call: &Call,
    ended: u64,
) -> bool
    ensures { (c : TimedType) (code : Code) → result ≡ false → Sees history.now moves.now place page c
        → c.call.core ≡ call.now.core
        → kind_of c.call.request ≡ kind_of call.now.request → c.call.reply ≡ ReplyOf.Segv code → c.begin ≤ ended }
{
    let Some(by) = seen_by(history, moves, place, page) else {
        return false;
    };
    if !binds(&by.call, call) {
        return false;
    }
    let begun = by.begin;
    if begun <= ended {
        return false;
    }
    true
}

/// Tells whether between two places nothing binds an access of the page. `false` says nothing of one behind `mprotect`:
/// a refusal may have begun before the page was seen new.
pub(crate) fn is_free(
    history: &[Timed],
    moves: &[Move],
    place: usize,
    now: usize,
    page: u64,
    call: &Call,
) -> bool
    ensures { (request : RequestType) → result ≡ true
        → ¬ IsBound history.now moves.now place now page request call.now }
{
    if place >= now {
        return true;
    }
    let mut ended = end_at(history, moves, place);
    'between: for at in place + 1..now {
        if binds_at(history, moves, at, page, call, ended) {
            return false;
        }
        let end = end_at(history, moves, at);
        ended = earlier(ended, end);
    }
    true
}

/// Tells whether a reply is of an access that was served.
fn is_served(reply: Reply) -> bool
    ensures { result ≡ true → IsServed reply }
{
    matches!(reply, Reply::Byte(_) | Reply::Done)
}

/// Tells whether a fetch was refused.
fn is_refused_fetch(call: &Call) -> bool
    ensures fetch { result ≡ true → kind_of call.now.request ≡ Some By.Fetch }
    ensures code { result ≡ true → call.now.reply ≡ ReplyOf.Segv AccErr }
{
    match call.request {
        Request::Fetch { .. } => matches!(call.reply, Reply::Segv(SegvCode::AccErr)),
        _ => false,
    }
}

/// Tells whether an access of the page may go by what the change at a place has replaced. Where threads move between
/// cores, nothing binds it.
pub(crate) fn may_lag(
    moving: bool,
    history: &[Timed],
    moves: &[Move],
    place: usize,
    now: usize,
    page: u64,
    call: &Call,
) -> bool
    ensures { (request : RequestType) → result ≡ true
        → MayLag moving history.now moves.now place now page request call.now }
{
    if is_refused_fetch(call) {
        return true;
    }
    if !is_served(call.reply) {
        return false;
    }
    moving || is_free(history, moves, place, now, page, call)
}
