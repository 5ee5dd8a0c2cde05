//! Accesses that would be served.
ghost use Rattle.std.specs.Prelude.{◌≡◌, is_some, Some};
ghost use Rattle.frames.specs.Parts.{FrameParts, frame_bytes};
ghost use Rattle.vm_base.specs.Plain.{bytes_of};
ghost use Rattle.audit.specs.Keeping.{entry_kept, files_kept, own_kept, plain_kept};
ghost use Rattle.audit.specs.Serving.{can_access, is_served};

use frames::Objects;
use slot_lock::SlotMap;
use std::alloc::Allocator;
use vm_base::page::is_valid;
use vm_base::{Access, Back, PageInfo, Request, allows, page_of};

/// Tells whether a page that has this has bytes.
fn has_bytes<A: Allocator>(objects: &Objects<A>, info: &PageInfo) -> bool
    ensures { (frames : FrameParts) → result ≡ is_some (bytes_of (files_kept objects.now frames) info.now.meta.back
        (own_kept (frame_bytes frames) info.now.meta.back info.now.frame)) }
{
    match info.meta.back {
        Back::Anon => true,
        Back::Shared { file, page } => !objects.is_past_end(file, page),
        Back::Private { file, page } => info.frame.is_some() || !objects.is_past_end(file, page),
    }
}

/// Tells whether an access of the page would be served.
fn can_access<M: SlotMap, A: Allocator>(
    map: &M,
    objects: &Objects<A>,
    page: u64,
    access: Access,
) -> bool
    ensures { (frames : FrameParts) → result ≡ can_access (files_kept objects.now frames)
        (entry_kept (frame_bytes frames) ((M.slots map.now).info page)) access }
{
    if !is_valid(page) {
        return false;
    }
    match map.page(page) {
        Some(info) => allows(info.meta.prot, access) && has_bytes(objects, &info),
        None => false,
    }
}

/// Tells whether the request is an access that would be served.
pub fn is_served<M: SlotMap, A: Allocator>(map: &M, objects: &Objects<A>, request: Request) -> bool
    ensures { (frames : FrameParts) → result ≡ is_served (plain_kept (M.slots map.now) objects.now frames) request }
{
    match request {
        Request::Load { addr } => can_access(map, objects, page_of(addr), Access::Load),
        Request::Store { addr, .. } => can_access(map, objects, page_of(addr), Access::Store),
        Request::Fetch { addr } => can_access(map, objects, page_of(addr), Access::Fetch),
        Request::Mmap { .. } | Request::Munmap { .. } | Request::Mprotect { .. } => false,
    }
}
