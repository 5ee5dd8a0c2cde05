//! Whether two requests are the same.
ghost use Rattle.std.specs.Prelude.{◌≡◌, true};
ghost use Rattle.vm_base.specs.declared.requests.Request.TheVariants as RequestOf;

use vm_base::{Flags, Prot, Request};

// Whether two protections are the same.
fn is_same_prot(one: Prot, other: Prot) -> bool
    ensures { result ≡ true → one ≡ other }
{
    one == other
}

// Whether the flags are the same.
fn are_same_flags(one: Flags, other: Flags) -> bool
    ensures { result ≡ true → one ≡ other }
{
    one == other
}

// Whether it is this mapping.
fn is_mmap(
    request: &Request,
    addr: u64,
    len: u64,
    prot: Prot,
    flags: Flags,
    file: u64,
    off: u64,
) -> bool
    ensures { result ≡ true → RequestOf.Mmap addr len prot flags file off ≡ request.now }
{
    match request {
        Request::Mmap {
            addr: a,
            len: l,
            prot: p,
            flags: f,
            file: g,
            off: o,
        } => {
            if addr != *a || len != *l || file != *g || off != *o {
                return false;
            }
            is_same_prot(prot, *p) && are_same_flags(flags, *f)
        }
        _ => false,
    }
}

// Whether it unmaps these pages.
fn is_munmap(request: &Request, addr: u64, len: u64) -> bool
    ensures { result ≡ true → RequestOf.Munmap addr len ≡ request.now }
{
    match request {
        Request::Munmap { addr: a, len: l } => addr == *a && len == *l,
        _ => false,
    }
}

// Whether it protects these pages so.
fn is_mprotect(request: &Request, addr: u64, len: u64, prot: Prot) -> bool
    ensures { result ≡ true → RequestOf.Mprotect addr len prot ≡ request.now }
{
    match request {
        Request::Mprotect {
            addr: a,
            len: l,
            prot: p,
        } => addr == *a && len == *l && is_same_prot(prot, *p),
        _ => false,
    }
}

// Whether it loads from there.
fn is_load(request: &Request, addr: u64) -> bool
    ensures { result ≡ true → RequestOf.Load addr ≡ request.now }
{
    match request {
        Request::Load { addr: a } => addr == *a,
        _ => false,
    }
}

// Whether it stores the byte there.
fn is_store(request: &Request, addr: u64, byte: u8) -> bool
    ensures { result ≡ true → RequestOf.Store addr byte ≡ request.now }
{
    match request {
        Request::Store { addr: a, byte: b } => addr == *a && byte == *b,
        _ => false,
    }
}

// Whether it fetches from there.
fn is_fetch(request: &Request, addr: u64) -> bool
    ensures { result ≡ true → RequestOf.Fetch addr ≡ request.now }
{
    match request {
        Request::Fetch { addr: a } => addr == *a,
        _ => false,
    }
}

/// Tells whether two requests are the same.
pub(crate) fn is_same_request(one: &Request, other: &Request) -> bool
    ensures { result ≡ true → one.now ≡ other.now }
{
    match one {
        Request::Mmap {
            addr,
            len,
            prot,
            flags,
            file,
            off,
        } => is_mmap(other, *addr, *len, *prot, *flags, *file, *off),
        Request::Munmap { addr, len } => is_munmap(other, *addr, *len),
        Request::Mprotect { addr, len, prot } => is_mprotect(other, *addr, *len, *prot),
        Request::Load { addr } => is_load(other, *addr),
        Request::Store { addr, byte } => is_store(other, *addr, *byte),
        Request::Fetch { addr } => is_fetch(other, *addr),
    }
}
