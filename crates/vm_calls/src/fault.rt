//! What an access finds at its page: a fault, a frame, or where its frame is to come from.
ghost use Rattle.std.specs.Prelude.{◌≡◌, ℕ, Option};
ghost use Rattle.vm_base.specs.Plain.{File, PageEntry};
ghost use Rattle.vm_base.specs.Apply.{entry_reply, is_anonymous};
ghost use Rattle.vm_calls.specs.Settling.{settled, source, is_private_store, IsSettled, IsEntryOf};

use vm_base::{Access, Back, PageInfo, allows};

/// What an access finds at its page, whose slot its call holds: a fault, or where the frame comes from.
#[derive(Clone, Copy)]
pub enum Settled {
    /// Nothing is mapped: `SIGSEGV` with `SEGV_MAPERR`.
    MapErr,
    /// The protection forbids the access: `SIGSEGV` with `SEGV_ACCERR`.
    AccErr,
    /// The page lies wholly past the end of its file: `SIGBUS`.
    Bus,
    /// The page has this frame.
    Has(u32),
    /// The private page has the frame that caches its file page, and the store is to change a copy
    /// of it.
    Copies(u32),
    /// The page has no frame, and this one caches its file page.
    Cached(u32),
    /// A frame has to be taken for the page.
    Wants,
}

/// What an access finds at a page. `past_end` tells whether the page's file page lies past the end
/// of its file, and `cached` is the frame that caches it: false and none where the page is
/// anonymous or not mapped. The tests come in this order: no mapping, the protection, the end of
/// the file (POSIX.1-2017, mmap), the page's frame, the frame that caches its file page. A store to
/// a private page never reaches a frame that caches a file page.
pub fn settle(
    info: Option<PageInfo>,
    access: Access,
    past_end: bool,
    cached: Option<u32>,
) -> Settled
    ensures value { result ≡ settled info access past_end cached }
    ensures plain { (files : ℕ → Option File) (entry : Option PageEntry) (offset : ℕ)
        → IsEntryOf files entry info past_end cached
        → IsSettled result info access (entry_reply files entry access offset) }
{
    let Some(info) = info else {
        return Settled::MapErr;
    };
    if !allows(info.meta.prot, access) {
        return Settled::AccErr;
    }
    if past_end {
        return Settled::Bus;
    }
    source(info.meta.back, info.frame, access, cached)
}

/// Where the frame comes from of a page whose bytes are there.
fn source(back: Back, frame: Option<u32>, access: Access, cached: Option<u32>) -> Settled
    ensures { result ≡ source back frame access cached }
{
    let is_private_store = is_private_store(back, access);
    match (frame, cached) {
        (Some(frame), Some(shown)) if is_private_store && shown == frame => Settled::Copies(frame),
        (Some(frame), _) => Settled::Has(frame),
        (None, Some(frame)) if !is_private_store && back != Back::Anon => Settled::Cached(frame),
        (None, _) => Settled::Wants,
    }
}

/// Tells whether the access is a store to a private page of a file (POSIX.1-2017, mmap: the file
/// never sees it).
fn is_private_store(back: Back, access: Access) -> bool
    ensures { result ≡ is_private_store back access }
{
    match (back, access) {
        (Back::Private { .. }, Access::Store) => true,
        _ => false,
    }
}
