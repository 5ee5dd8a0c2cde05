//! The calls of single pages for which a call on a range stands.
ghost use Rattle.std.specs.Prelude.{◌≡◌, ◌<◌, ◌≤◌, ◌^◌};
ghost use Rattle.orders.specs.Pages.{is_at, is_done, is_refused, no_pages, page_call, page_reply, page_request, pages_mapped, stretch_asked, stretch_from, stretch_of};

use audit::Call;
use vm_base::page::{PAGE_LIMIT, PAGE_SIZE, pages};
use vm_base::{Errno, Flags, Reply, Request};

/// The pages of a call that change each for itself: from an address on, so many.
#[derive(Clone, Copy)]
pub struct Stretch {
    /// The address of the first.
    pub start: u64,
    /// How many there are. Where there is none, the call takes effect at one moment.
    pub count: u64,
}

// No pages.
fn no_pages() -> Stretch
    ensures { result ≡ no_pages }
{
    Stretch { start: 0, count: 0 }
}

// Tells whether a reply says that something was done.
fn is_done(reply: Reply) -> bool
    ensures { result ≡ is_done reply }
{
    matches!(reply, Reply::Done)
}

// Tells whether a reply says that `mprotect` met a page that it can't protect.
pub(crate) fn is_refused(reply: Reply) -> bool
    ensures { result ≡ is_refused reply }
{
    matches!(
        reply,
        Reply::Refused(Errno::ENOMEM) | Reply::Refused(Errno::EACCES)
    )
}

// The pages from an address on that have so many bytes, if all are valid.
fn stretch_from(start: u64, len: u64) -> Stretch
    ensures value { result ≡ stretch_from start len }
    ensures start { result.start < 2 ^ 48 }
    ensures count { result.count ≤ 2 ^ 35 }
{
    let range = pages(start, len);
    if range.first < 1 || PAGE_LIMIT < range.end || range.end <= range.first {
        return no_pages();
    }
    Stretch {
        start,
        count: range.end - range.first,
    }
}

// Tells whether a mapping with these flags may be at an address, where this one was asked for.
fn is_at(flags: Flags, addr: u64, at: u64) -> bool
    ensures { result ≡ is_at flags addr at }
{
    !flags.fixed || addr == at
}

// The pages of a mapping of so many bytes with these flags, which was asked for at this address and has this reply.
fn pages_mapped(flags: Flags, addr: u64, len: u64, reply: Reply) -> Stretch
    ensures value { result ≡ pages_mapped flags addr len reply }
    ensures start { result.start < 2 ^ 48 }
    ensures count { result.count ≤ 2 ^ 35 }
{
    match reply {
        Reply::Mapped(at) => {
            if is_at(flags, addr, at) {
                stretch_from(at, len)
            } else {
                no_pages()
            }
        }
        _ => no_pages(),
    }
}

// The pages that a call asks for which was done, or which met a page that it can't protect.
fn stretch_asked(request: Request, reply: Reply) -> Stretch
    ensures value { result ≡ stretch_asked request reply }
    ensures start { result.start < 2 ^ 48 }
    ensures count { result.count ≤ 2 ^ 35 }
{
    match request {
        Request::Mmap {
            addr,
            len,
            flags,
            ..
        } => pages_mapped(flags, addr, len, reply),
        Request::Munmap { addr, len } => {
            if is_done(reply) {
                stretch_from(addr, len)
            } else {
                no_pages()
            }
        }
        Request::Mprotect { addr, len, .. } => {
            if is_done(reply) || is_refused(reply) {
                stretch_from(addr, len)
            } else {
                no_pages()
            }
        }
        Request::Load { .. } | Request::Store { .. } | Request::Fetch { .. } => no_pages(),
    }
}

/// The pages of a call that change each for itself: those of a range that was mapped, unmapped or protected, and those that an `mprotect`
/// of several may have protected before it met one that it can't.
pub fn stretch_of(call: Call) -> Stretch
    ensures value { result ≡ stretch_of call }
    ensures start { result.start < 2 ^ 48 }
    ensures count { result.count ≤ 2 ^ 35 }
{
    let stretch = stretch_asked(call.request, call.reply);
    if is_refused(call.reply) && stretch.count <= 1 {
        return no_pages();
    }
    stretch
}

// What is asked for a page of a range that begins here.
fn page_request(request: Request, start: u64, page: u64) -> Request
    requires start { start < 2 ^ 48 }
    requires page { page < 2 ^ 35 }
    ensures { result ≡ page_request request start page }
{
    let addr = start + PAGE_SIZE * page;
    match request {
        Request::Mmap {
            prot,
            flags,
            file,
            off,
            ..
        } => Request::Mmap {
            addr,
            len: PAGE_SIZE,
            prot,
            flags,
            file,
            off: off.saturating_add(PAGE_SIZE * page),
        },
        Request::Munmap { .. } => Request::Munmap {
            addr,
            len: PAGE_SIZE,
        },
        Request::Mprotect { prot, .. } => Request::Mprotect {
            addr,
            len: PAGE_SIZE,
            prot,
        },
        Request::Load { .. } | Request::Store { .. } | Request::Fetch { .. } => request,
    }
}

// What is answered for a page of a range that begins here.
fn page_reply(reply: Reply, start: u64, page: u64) -> Reply
    requires start { start < 2 ^ 48 }
    requires page { page < 2 ^ 35 }
    ensures { result ≡ page_reply reply start page }
{
    match reply {
        Reply::Mapped(_) => Reply::Mapped(start + PAGE_SIZE * page),
        _ => Reply::Done,
    }
}

/// The call of one of the pages.
pub(crate) fn page_call(call: Call, start: u64, page: u64) -> Call
    requires start { start < 2 ^ 48 }
    requires page { page < 2 ^ 35 }
    ensures { result ≡ page_call call start page }
{
    Call {
        core: call.core,
        request: page_request(call.request, start, page),
        reply: page_reply(call.reply, start, page),
    }
}
