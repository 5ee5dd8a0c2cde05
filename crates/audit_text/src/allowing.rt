//! Which replies may be there: the plain page map's, and those of calls that found no frame or no memory.
ghost use Rattle.std.specs.Prelude.{◌≡◌, ◌&&◌, not};
ghost use Rattle.vm_base.specs.Requests.{is_placed};
ghost use Rattle.audit_text.specs.Allowed.{is_given_up, is_lack, is_lacking, is_store, is_unplaced, places, serves};

use vm_base::{Errno, Reply, Request};

/// By what replies are judged.
#[derive(Clone, Copy)]
pub struct Terms {
    /// A mapping without `MAP_FIXED` may have any place, and not just the first one; or be refused for want of memory.
    pub any_place: bool,
    /// No call may find that there is no frame or no memory.
    pub is_strict: bool,
}

// Tells whether an access is served where this is due.
fn serves(request: Request, due: Reply) -> bool
    ensures { result ≡ serves request due }
{
    match request {
        Request::Load { .. } | Request::Fetch { .. } => matches!(due, Reply::Byte(_)),
        Request::Store { .. } => matches!(due, Reply::Done),
        Request::Mmap { .. } | Request::Munmap { .. } | Request::Mprotect { .. } => false,
    }
}

// Tells whether a request is a mapping that leaves its place open.
fn is_placed(request: Request) -> bool
    ensures { result ≡ is_placed request }
{
    match request {
        Request::Mmap { flags, .. } => !flags.fixed,
        _ => false,
    }
}

// Tells whether a reply tells where a mapping is.
fn places(reply: Reply) -> bool
    ensures { result ≡ places reply }
{
    matches!(reply, Reply::Mapped(_))
}

// Tells whether this is what a call may come to that found no frame or no memory, where this would be due.
fn is_lack(any_place: bool, request: Request, due: Reply, reply: Reply) -> bool
    ensures { result ≡ is_lack any_place request due reply }
{
    match reply {
        Reply::NoFrame => serves(request, due),
        Reply::NoMemory => true,
        Reply::Refused(Errno::ENOMEM) => any_place && is_placed(request) && places(due),
        _ => false,
    }
}

/// Tells whether this may be, though another reply would be due: unless it is ruled out, for want of a frame or of memory.
pub(crate) fn is_let(terms: Terms, request: Request, due: Reply, reply: Reply) -> bool
    ensures { result ≡ (not terms.is_strict && is_lack terms.any_place request due reply) }
{
    !terms.is_strict && is_lack(terms.any_place, request, due, reply)
}

/// Tells whether a call is a mapping that was refused for want of memory, though its place was open.
pub(crate) fn is_unplaced(request: Request, reply: Reply) -> bool
    ensures { result ≡ is_unplaced request reply }
{
    matches!(reply, Reply::Refused(Errno::ENOMEM)) && is_placed(request)
}

/// Tells whether a call found no frame or no memory.
pub fn is_lacking(reply: Reply) -> bool
    ensures { result ≡ is_lacking reply }
{
    matches!(reply, Reply::NoFrame | Reply::NoMemory)
}

/// Tells whether it may have left a copy: a store for which there was no memory.
pub(crate) fn may_copy(request: Request, reply: Reply) -> bool
    ensures { result ≡ (is_store request && is_given_up reply) }
{
    matches!(reply, Reply::NoMemory) && matches!(request, Request::Store { .. })
}
