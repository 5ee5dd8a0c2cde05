//! What the machine and the threads both answer of a page, of an access and of a change. Nothing here takes memory.
ghost use Rattle.std.specs.Prelude.{◌≡◌, ◌*◌, ℕ, Option};
ghost use Rattle.vm_base.specs.Apply.{byte_reply};
ghost use Rattle.slot_lock.specs.Plan.{IsSoundChange, IsSoundTouch};
ghost use Rattle.frames.specs.Files.{files_of};
ghost use Rattle.machine_model.specs.Accesses.{is_past_end};
ghost use Rattle.machine_model.specs.Changes.{reply_to};
ghost use Rattle.machine_model.specs.Files.{back_of, file_frame, prot_installed};
ghost use Rattle.machine_model.specs.Holding.{page_of_touch};

use frames::Objects;
use slot_lock::{Change, Touch};
use std::alloc::Allocator;
use vm_base::page::PAGE_SIZE;
use vm_base::{Access, Back, PageInfo, PageRange, Prot, Reply};

/// What an access answers that found this byte.
pub fn byte_reply(access: Access, byte: u8) -> Reply
    ensures { result ≡ byte_reply access byte }
{
    match access {
        Access::Load | Access::Fetch => Reply::Byte(byte),
        Access::Store => Reply::Done,
    }
}

/// What a change that is made answers.
pub fn reply_to(change: Change) -> Reply
    requires { IsSoundChange change }
    ensures { result ≡ reply_to change }
{
    match change {
        Change::Put { range, .. } => Reply::Mapped(range.first * PAGE_SIZE),
        Change::Clear { .. } | Change::Protect { .. } => Reply::Done,
    }
}

/// The page of an access, which its call locks.
pub fn page_of_touch(touch: Touch) -> PageRange
    requires { IsSoundTouch touch }
    ensures { result ≡ page_of_touch touch }
{
    PageRange {
        first: touch.page,
        end: touch.page + 1,
    }
}

/// What backs the page. Of a page that isn't mapped nothing is asked.
pub fn back_of(info: &Option<PageInfo>) -> Back
    ensures { result ≡ back_of info.now }
{
    match info {
        Some(info) => info.meta.back,
        None => Back::Anon,
    }
}

/// Tells whether the page's file page lies wholly past the end of its file.
pub fn is_past_end<A: Allocator>(objects: &Objects<A>, info: &Option<PageInfo>) -> bool
    ensures { result ≡ is_past_end (files_of objects.now) info.now }
{
    let Some(info) = info else {
        return false;
    };
    match info.meta.back {
        Back::Anon => false,
        Back::Shared { file, page } | Back::Private { file, page } => {
            objects.is_past_end(file, page)
        }
    }
}

/// The protection that the page's entries have, where this frame caches its file page, if one does:
/// through a private page that shows its file's page nothing is stored, so that the file never sees
/// a store (POSIX.1-2017, mmap, `MAP_PRIVATE`).
pub fn prot_with(info: &PageInfo, cached: Option<u32>) -> Prot
    ensures { (c : ℕ → ℕ → Option ℕ) → file_frame c info.now.meta.back ≡ cached
        → result ≡ prot_installed c info.now }
{
    let prot = info.meta.prot;
    match (info.meta.back, info.frame) {
        (Back::Private { .. }, Some(frame)) => {
            if cached == Some(frame) {
                Prot {
                    read: true,
                    write: false,
                    exec: prot.exec,
                }
            } else {
                prot
            }
        }
        _ => prot,
    }
}
