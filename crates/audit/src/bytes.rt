//! The bytes of pages, as the plain page map that is kept has them.
ghost use Rattle.std.specs.Prelude.{◌≡◌, ◌<◌, IfSome, Some};
ghost use Rattle.vm_base.specs.Apply.{byte_reply, entry_reply};
ghost use Rattle.vm_base.specs.Plain.{bytes_of, file_bytes};
ghost use Rattle.slot_lock.specs.Plan.{IsSoundTouch};
ghost use Rattle.frames.specs.Files.{cached_in};
ghost use Rattle.frames.specs.Parts.{frame_bytes};
ghost use Rattle.audit.specs.Judging.{after_copy};
ghost use Rattle.audit.specs.Keeping.{AreFrames, byte_at, entry_kept, files_kept, own_kept};

use frames::{Frames, Objects};
use slot_lock::Touch;
use std::alloc::Allocator;
use vm_base::{Access, Back, PageInfo, Reply, SegvCode, allows};

/// A byte of a file's page, if there is such a page: as stores have left it.
pub fn file_byte<A: Allocator>(
    objects: &Objects<A>,
    frames: &Frames<A>,
    file: u32,
    page: u64,
    offset: usize,
) -> Option<u8>
    requires offset { offset < 4096 }
    requires cached { AreFrames (cached_in objects.now) frames.now }
    ensures { result ≡ byte_at (file_bytes (files_kept objects.now frames.now file) page) offset }
{
    if objects.is_past_end(file, page) {
        return None;
    }
    match objects.cached(file, page) {
        Some(frame) => Some(frames.byte(frame, offset)),
        None => Some(objects.byte(file, page, offset)),
    }
}

/// A byte of a mapped page, if the page has bytes.
fn shown_byte<A: Allocator>(
    objects: &Objects<A>,
    frames: &Frames<A>,
    info: &PageInfo,
    offset: usize,
) -> Option<u8>
    requires offset { offset < 4096 }
    requires cached { AreFrames (cached_in objects.now) frames.now }
    requires own { IfSome info.now.frame (λ f. f < frames.now.count) }
    ensures { result ≡ byte_at (bytes_of (files_kept objects.now frames.now) info.now.meta.back
        (own_kept (frame_bytes frames.now) info.now.meta.back info.now.frame)) offset }
{
    match info.meta.back {
        Back::Anon => match info.frame {
            Some(frame) => Some(frames.byte(frame, offset)),
            None => Some(0),
        },
        Back::Shared { file, page } => file_byte(objects, frames, file, page, offset),
        Back::Private { file, page } => match info.frame {
            Some(frame) => Some(frames.byte(frame, offset)),
            None => file_byte(objects, frames, file, page, offset),
        },
    }
}

/// The reply to an access that is allowed, to a page with this byte.
fn byte_reply(access: Access, byte: u8) -> Reply
    ensures { result ≡ byte_reply access byte }
{
    match access {
        Access::Load | Access::Fetch => Reply::Byte(byte),
        Access::Store => Reply::Done,
    }
}

/// The reply to an access of a mapped page, which has this; a store before which a copy is due is done after
/// it.
pub fn access_reply<A: Allocator>(
    objects: &Objects<A>,
    frames: &Frames<A>,
    info: &PageInfo,
    touch: Touch,
) -> Reply
    requires touch { IsSoundTouch touch }
    requires cached { AreFrames (cached_in objects.now) frames.now }
    requires own { IfSome info.now.frame (λ f. f < frames.now.count) }
    ensures { result ≡ after_copy (entry_reply (files_kept objects.now frames.now)
        (entry_kept (frame_bytes frames.now) (Some info.now)) touch.access touch.offset) }
{
    if !allows(info.meta.prot, touch.access) {
        return Reply::Segv(SegvCode::AccErr);
    }
    match shown_byte(objects, frames, info, touch.offset as usize) {
        Some(byte) => byte_reply(touch.access, byte),
        None => Reply::Bus,
    }
}
