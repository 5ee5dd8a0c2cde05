//! Stores of bytes.
ghost use Rattle.std.specs.Prelude.{◌≡◌, ℕ, ◌<◌, IfSome, IfNone, IfOk, OnOk, OnErr, Some, None, Option, true, false};
ghost use Rattle.std.specs.Prelude.{is_some};
ghost use Rattle.vm_base.specs.Apply.{first_own, stored_back};
ghost use Rattle.vm_base.specs.Functions.{put};
ghost use Rattle.vm_base.specs.Plain.{bytes_of, file_bytes};
ghost use Rattle.vm_base.specs.Pages.{IsPage};
ghost use Rattle.vm_base.specs.declared.info.Back.TheVariants.{Shared};
ghost use Rattle.slot_lock.specs.Plan.{IsSoundTouch};
ghost use Rattle.slot_lock.specs.Slots.{Slots};
ghost use Rattle.frames.specs.Files.{cached_in, files_of};
ghost use Rattle.frames.specs.Parts.{frame_bytes, free_frames};
ghost use Rattle.audit.specs.Judging.{stored};
ghost use Rattle.audit.specs.Keeping.{AreFrames, Keeps, NobodyHolds, TakesFrame, files_kept, plain_kept};
ghost use Rattle.audit.specs.Storing.{CachesPage, GetsFrame, HasBytes, IsStored, is_shared_back};

use crate::holding::{only_core, set_apart};
use frames::{Frames, Objects};
use slot_lock::{SlotMap, Touch};
use std::alloc::Allocator;
use vm_base::{Back, NoMemory, PageInfo};

/// Gives a frame the bytes that a new page with this backing shows.
fn fill<A: Allocator>(objects: &Objects<A>, frames: &mut Frames<A>, back: Back, frame: u32)
    requires bytes { is_some (bytes_of (files_kept objects.now frames.old) back (first_own back)) ≡ true }
    requires frame { frame < frames.old.count }
    requires cached { AreFrames (cached_in objects.now) frames.old }
    ensures bytes { IfSome (bytes_of (files_kept objects.now frames.old) back (first_own back))
        (λ shown. frame_bytes frames.new ≡ put (frame_bytes frames.old) frame shown) }
    ensures free { free_frames frames.new ≡ free_frames frames.old }
    ensures count { frames.new.count ≡ frames.old.count }
{
    match back {
        Back::Anon => frames.fill_zero(frame),
        Back::Shared { file, page } => objects.fill(file, page, frames, frame),
        Back::Private { file, page } => objects.fill(file, page, frames, frame),
    }
}

/// Takes a free frame, with the bytes that a new page with this backing shows. Where no frame is free
/// it answers none, and nothing changes.
fn take_filled<A: Allocator>(
    objects: &Objects<A>,
    frames: &mut Frames<A>,
    back: Back,
) -> Option<u32>
    requires bytes { is_some (bytes_of (files_kept objects.now frames.old) back (first_own back)) ≡ true }
    requires cached { AreFrames (cached_in objects.now) frames.old }
    ensures some { IfSome result (λ f. IfSome (bytes_of (files_kept objects.now frames.old) back
        (first_own back)) (TakesFrame frames.old frames.new f)) }
    ensures none { IfNone result (frames.new ≡ frames.old) }
{
    let frame = frames.least_free()?;
    fill(objects, frames, back, frame);
    frames.take(frame);
    Some(frame)
}

/// The frame that has the bytes of a file's page from here on, which stores may change. Where no frame
/// is free it answers none, and nothing changes.
fn file_frame<A: Allocator>(
    objects: &mut Objects<A>,
    frames: &mut Frames<A>,
    file: u32,
    page: u64,
) -> Option<u32>
    requires page { is_some (file_bytes (files_kept objects.old frames.old file) page) ≡ true }
    requires cached { AreFrames (cached_in objects.old) frames.old }
    ensures some { IfSome result
        (CachesPage objects.old objects.new frames.old frames.new file page) }
    ensures none_files { IfNone result (objects.new ≡ objects.old) }
    ensures none_frames { IfNone result (frames.new ≡ frames.old) }
{
    if let Some(frame) = objects.cached(file, page) {
        return Some(frame);
    }
    let frame = take_filled(objects, frames, Back::Shared { file, page })?;
    objects.set_cached(file, page, frame);
    Some(frame)
}

/// Stores a byte to a file's page, which the file has. Where no frame is free nothing changes.
pub fn store_to_file<A: Allocator>(
    objects: &mut Objects<A>,
    frames: &mut Frames<A>,
    file: u32,
    page: u64,
    offset: u64,
    byte: u8,
) -> Result<(), NoMemory>
    requires offset { offset < 4096 }
    requires page { is_some (file_bytes (files_kept objects.old frames.old file) page) ≡ true }
    requires cached { AreFrames (cached_in objects.old) frames.old }
    ensures ok { OnOk result ((s : Slots) → Keeps s (cached_in objects.old) frames.old
        → IsStored s objects.new frames.new
        (stored_back (plain_kept s objects.old frames.old) (Shared file page) offset byte)) }
    ensures err_files { OnErr result (objects.new ≡ objects.old) }
    ensures err_frames { OnErr result (frames.new ≡ frames.old) }
{
    let Some(frame) = file_frame(objects, frames, file, page) else {
        return Err(NoMemory);
    };
    frames.set_byte(frame, offset as usize, byte);
    Ok(())
}

/// The frame of a page's own bytes from here on: a new one, with the bytes that the page shows, where
/// it has none yet. Where memory or frames run out nothing changes.
pub fn own_frame<M: SlotMap, A: Allocator>(
    map: &mut M,
    objects: &Objects<A>,
    frames: &mut Frames<A>,
    page: u64,
    info: PageInfo,
) -> Result<u32, NoMemory>
    requires page { IsPage page }
    requires info { (M.slots map.old).info page ≡ Some info }
    requires bytes { HasBytes objects.now frames.old info }
    requires cached { AreFrames (cached_in objects.now) frames.old }
    requires free { NobodyHolds (M.slots map.old) }
    ensures ok { IfOk result (GetsFrame (M.slots map.old) (M.slots map.new) objects.now frames.old
        frames.new page info) }
    ensures err_info { OnErr result ((M.slots map.new).info ≡ (M.slots map.old).info) }
    ensures err_frames { OnErr result (frames.new ≡ frames.old) }
    ensures free { NobodyHolds (M.slots map.new) }
{
    if let Some(frame) = info.frame {
        return Ok(frame);
    }
    set_apart(map, page)?;
    let Some(frame) = take_filled(objects, frames, info.meta.back) else {
        return Err(NoMemory);
    };
    map.set_leaf(
        only_core(),
        page,
        PageInfo {
            frame: Some(frame),
            ..info
        },
    );
    Ok(frame)
}

/// Stores a byte to a page's own bytes, which it gets before where it has none. Where memory or frames
/// are wanting nothing changes.
fn store_own<M: SlotMap, A: Allocator>(
    map: &mut M,
    objects: &Objects<A>,
    frames: &mut Frames<A>,
    info: PageInfo,
    touch: Touch,
) -> Result<(), NoMemory>
    requires touch { IsSoundTouch touch }
    requires info { (M.slots map.old).info touch.page ≡ Some info }
    requires own { is_shared_back info.meta.back ≡ false }
    requires bytes { HasBytes objects.now frames.old info }
    requires kept { Keeps (M.slots map.old) (cached_in objects.now) frames.old }
    requires free { NobodyHolds (M.slots map.old) }
    ensures ok { OnOk result (IsStored (M.slots map.new) objects.now frames.new
        (stored (plain_kept (M.slots map.old) objects.now frames.old) touch)) }
    ensures err_info { OnErr result ((M.slots map.new).info ≡ (M.slots map.old).info) }
    ensures err_frames { OnErr result (frames.new ≡ frames.old) }
    ensures free { NobodyHolds (M.slots map.new) }
{
    let frame = own_frame(map, objects, frames, touch.page, info)?;
    frames.set_byte(frame, touch.offset as usize, touch.byte);
    Ok(())
}

/// Stores a byte to a page that has this, and bytes: to its file's page where it is a shared one, and
/// else to its own bytes, which it gets before where it has none. Where memory or frames run out
/// nothing changes.
pub fn store<M: SlotMap, A: Allocator>(
    map: &mut M,
    objects: &mut Objects<A>,
    frames: &mut Frames<A>,
    info: PageInfo,
    touch: Touch,
) -> Result<(), NoMemory>
    requires touch { IsSoundTouch touch }
    requires info { (M.slots map.old).info touch.page ≡ Some info }
    requires bytes { HasBytes objects.old frames.old info }
    requires kept { Keeps (M.slots map.old) (cached_in objects.old) frames.old }
    requires free { NobodyHolds (M.slots map.old) }
    ensures ok { OnOk result (IsStored (M.slots map.new) objects.new frames.new
        (stored (plain_kept (M.slots map.old) objects.old frames.old) touch)) }
    ensures err_info { OnErr result ((M.slots map.new).info ≡ (M.slots map.old).info) }
    ensures err_files { OnErr result (objects.new ≡ objects.old) }
    ensures err_frames { OnErr result (frames.new ≡ frames.old) }
    ensures free { NobodyHolds (M.slots map.new) }
{
    match info.meta.back {
        Back::Shared { file, page } => {
            store_to_file(objects, frames, file, page, touch.offset, touch.byte)
        }
        _ => store_own(map, objects, frames, info, touch),
    }
}
