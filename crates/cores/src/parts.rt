//! What a call does within some pages.
ghost use Rattle.std.specs.Prelude.{◌≡◌, ◌≤◌, ◌⊎◌, IfSome, true};
ghost use Rattle.vm_base.specs.Pages.{pages_of};
ghost use Rattle.cores.specs.Parts.{Has, IsAccess, IsMeet, IsPart, IsPartOf, IsPassed, IsReset, IsResetAt, Sets};
ghost use Rattle.cores.specs.Parts.{are_apart, is_aside, is_quiet, is_told, misses, pages_put};

use audit::Call;
use vm_base::page::{PAGE_LIMIT, PAGE_SIZE};
use vm_base::{
    CoreId, Flags, PageRange, Prot, Reply, Request, page_count, page_of, pages, refusal,
};

/// Tells whether a reply says that the call changed nothing.
fn is_quiet(reply: Reply) -> bool
    ensures { result ≡ is_quiet reply }
{
    !matches!(reply, Reply::Mapped(_) | Reply::Done)
}

/// Tells whether one of two ranges ends before the other begins.
fn are_apart(range: PageRange, of: PageRange) -> bool
    ensures { result ≡ are_apart range of }
{
    range.end <= of.first || of.end <= range.first
}

/// The pages of a mapping that was put at this address.
pub(crate) fn pages_put(fixed: bool, addr: u64, len: u64, at: u64) -> PageRange
    ensures { result ≡ pages_put fixed addr len at }
{
    if fixed {
        return pages(addr, len);
    }
    let first = page_of(at);
    PageRange {
        first,
        end: first + page_count(len),
    }
}

/// Tells whether a call that was done has to do with other pages alone.
fn misses(of: PageRange, request: Request, reply: Reply) -> bool
    ensures { result ≡ misses of request reply }
{
    match request {
        Request::Mmap {
            addr,
            len,
            flags,
            ..
        } => match reply {
            Reply::Mapped(at) => are_apart(pages_put(flags.fixed, addr, len, at), of),
            _ => false,
        },
        Request::Munmap { addr, len } => are_apart(pages(addr, len), of),
        Request::Mprotect { addr, len, .. } => are_apart(pages(addr, len), of),
        Request::Store { addr, .. } => !of.contains(page_of(addr)),
        Request::Load { .. } | Request::Fetch { .. } => false,
    }
}

/// Tells whether a call changes none of these pages.
pub(crate) fn is_aside(of: PageRange, call: Call) -> bool
    ensures { result ≡ is_aside of call }
{
    is_quiet(call.reply) || misses(of, call.request, call.reply)
}

/// Tells whether a reply tells something of the map.
fn is_told(reply: Reply) -> bool
    ensures { result ≡ is_told reply }
{
    !matches!(reply, Reply::NoFrame | Reply::NoMemory)
}

/// Tells whether this is an access of these pages whose reply tells something.
fn is_access(of: PageRange, addr: u64, reply: Reply) -> bool
    ensures { result ≡ true → IsAccess of addr reply }
{
    of.contains(page_of(addr)) && is_told(reply)
}

/// The greater of two numbers.
fn greater(one: u64, other: u64) -> u64
    ensures { (one ≤ result) × (other ≤ result) × ((result ≡ one) ⊎ (result ≡ other)) }
{
    if one < other { other } else { one }
}

/// The lesser of two numbers.
fn lesser(one: u64, other: u64) -> u64
    ensures { (result ≤ one) × (result ≤ other) × ((result ≡ one) ⊎ (result ≡ other)) }
{
    if one < other { one } else { other }
}

/// The pages that a range has of others.
#[tactic(auto, using(crate::proofs::Meeting::meets))]
fn meet(range: PageRange, of: PageRange) -> PageRange
    ensures { IsMeet result range of }
{
    PageRange {
        first: greater(range.first, of.first),
        end: lesser(range.end, of.end),
    }
}

/// From where on and for how many bytes a call asks for the pages that a range has of others, if it has some.
fn asked(range: PageRange, of: PageRange) -> Option<(u64, u64)>
    ensures { IfSome result (λ found. IsMeet (pages_of found.0 found.1) range of) }
{
    let both = meet(range, of);
    if both.end <= both.first || both.end > PAGE_LIMIT {
        return None;
    }
    let addr = both.first * PAGE_SIZE;
    let len = (both.end - both.first) * PAGE_SIZE;
    if pages(addr, len) == both {
        return Some((addr, len));
    }
    None
}

/// Tells whether the test of a request's arguments refuses it where there are no files.
pub(crate) fn is_passed(request: Request) -> bool
    ensures { result ≡ true → IsPassed request }
{
    refusal(None, request).is_none()
}

/// What an unmapping does within these pages.
fn unmapped(of: PageRange, core: CoreId, addr: u64, len: u64, reply: Reply) -> Option<Call>
    ensures { IfSome result (λ part. (part.core ≡ core) × IsPartOf of (Request.Munmap addr len) reply part.request part.reply) }
{
    let Reply::Done = reply else {
        return None;
    };
    let (first, count) = asked(pages(addr, len), of)?;
    let part = Request::Munmap {
        addr: first,
        len: count,
    };
    if !is_passed(Request::Munmap { addr, len }) || !is_passed(part) {
        return None;
    }
    Some(Call {
        core,
        request: part,
        reply: Reply::Done,
    })
}

/// What a change of rights does within these pages.
fn protected(
    of: PageRange,
    core: CoreId,
    addr: u64,
    len: u64,
    prot: Prot,
    reply: Reply,
) -> Option<Call>
    ensures { IfSome result (λ part. (part.core ≡ core) × IsPartOf of (Request.Mprotect addr len prot) reply part.request part.reply) }
{
    let Reply::Done = reply else {
        return None;
    };
    let (first, count) = asked(pages(addr, len), of)?;
    let part = Request::Mprotect {
        addr: first,
        len: count,
        prot,
    };
    if !is_passed(Request::Mprotect { addr, len, prot }) || !is_passed(part) {
        return None;
    }
    Some(Call {
        core,
        request: part,
        reply: Reply::Done,
    })
}

/// The flags of a mapping at a fixed place, of no file.
fn fixed(flags: Flags) -> Flags
    ensures fixed { result.fixed ≡ true }
    ensures anon { result.anon ≡ true }
{
    Flags {
        private: flags.private,
        shared: flags.shared,
        fixed: true,
        anon: true,
    }
}

/// What a mapping of no file, with these rights and flags, does within these pages.
fn mapped(
    of: PageRange,
    core: CoreId,
    addr: u64,
    len: u64,
    prot: Prot,
    flags: Flags,
    file: u64,
    off: u64,
    reply: Reply,
) -> Option<Call>
    ensures { IfSome result (λ part. (part.core ≡ core) × IsPartOf of (Request.Mmap addr len prot flags file off) reply part.request part.reply) }
{
    let Reply::Mapped(at) = reply else {
        return None;
    };
    if !flags.anon {
        return None;
    }
    let (first, count) = asked(pages_put(flags.fixed, addr, len, at), of)?;
    let range = pages(first, count);
    if range.first > PAGE_LIMIT {
        return None;
    }
    let whole = Request::Mmap {
        addr,
        len,
        prot,
        flags,
        file,
        off,
    };
    let part = Request::Mmap {
        addr: first,
        len: count,
        prot,
        flags: fixed(flags),
        file: 0,
        off: 0,
    };
    if !is_passed(whole) || !is_passed(part) {
        return None;
    }
    Some(Call {
        core,
        request: part,
        reply: Reply::Mapped(range.first * PAGE_SIZE),
    })
}

/// What a call does within these pages, as a call of its own, if that can be told.
pub(crate) fn part_of(of: PageRange, call: Call) -> Option<Call>
    ensures { IfSome result (λ part. IsPart of call part) }
{
    let (core, reply) = (call.core, call.reply);
    match call.request {
        Request::Load { addr } | Request::Fetch { addr } | Request::Store { addr, .. } => {
            if is_access(of, addr, reply) {
                Some(call)
            } else {
                None
            }
        }
        Request::Munmap { addr, len } => unmapped(of, core, addr, len, reply),
        Request::Mprotect { addr, len, prot } => protected(of, core, addr, len, prot, reply),
        Request::Mmap {
            addr,
            len,
            prot,
            flags,
            file,
            off,
        } => mapped(of, core, addr, len, prot, flags, file, off, reply),
    }
}

/// Tells whether a range has all of these pages.
#[tactic(auto, using(crate::proofs::Meeting::covers))]
fn has_all(range: PageRange, of: PageRange) -> bool
    ensures { result ≡ true → Has range of }
{
    if range.first <= of.first && of.end <= range.end {
        return true;
    }
    false
}

/// Tells whether a call maps or unmaps all of these pages.
pub(crate) fn is_reset(of: PageRange, call: Call) -> bool
    ensures { result ≡ true → IsReset of call.request call.reply }
{
    match call.request {
        Request::Munmap { addr, len } => has_all(pages(addr, len), of),
        Request::Mmap {
            addr,
            len,
            flags,
            ..
        } => match call.reply {
            Reply::Mapped(at) => has_all(pages_put(flags.fixed, addr, len, at), of),
            _ => false,
        },
        _ => false,
    }
}

/// Tells whether a call maps or unmaps pages.
pub(crate) fn sets(call: Call) -> bool
    ensures { result ≡ true → Sets call.request call.reply }
{
    match call.request {
        Request::Munmap { .. } => true,
        Request::Mmap { .. } => matches!(call.reply, Reply::Mapped(_)),
        _ => false,
    }
}

/// Tells whether it maps or unmaps this page.
pub(crate) fn resets(page: u64, call: Call) -> bool
    ensures { result ≡ true → IsResetAt page call.request call.reply }
{
    match call.request {
        Request::Munmap { addr, len } => pages(addr, len).contains(page),
        Request::Mmap {
            addr,
            len,
            flags,
            ..
        } => match call.reply {
            Reply::Mapped(at) => pages_put(flags.fixed, addr, len, at).contains(page),
            _ => false,
        },
        _ => false,
    }
}
