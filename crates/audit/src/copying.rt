//! Copies of private pages.
ghost use Rattle.std.specs.Prelude.{◌≡◌, ◌↔◌, IfSome, IsTrue, OnErr, Ok, Some, false, true};
ghost use Rattle.frames.specs.Files.{cached_in};
ghost use Rattle.frames.specs.Parts.{FrameParts, frame_bytes};
ghost use Rattle.audit.specs.Copying.{Copies, is_copy_due};
ghost use Rattle.audit.specs.Keeping.{AreFrames, Keeps, NobodyHolds, entry_kept, files_kept, plain_kept};
ghost use Rattle.vm_base.specs.Plain.{Plain};

use crate::storing::own_frame;
use frames::{Frames, Objects};
use slot_lock::SlotMap;
use std::alloc::Allocator;
use vm_base::page::is_valid;
use vm_base::{Access, Back, NoMemory, PageInfo, allows};

/// Tells whether a page that has this shows its file's bytes, and a store to it is allowed.
fn is_copy_due<A: Allocator>(objects: &Objects<A>, info: &PageInfo) -> bool
    ensures { (frames : FrameParts) → result ≡ is_copy_due (files_kept objects.now frames) (entry_kept (frame_bytes frames) (Some info.now)) }
{
    match info.meta.back {
        Back::Private { file, page } => {
            allows(info.meta.prot, Access::Store)
                && info.frame.is_none()
                && !objects.is_past_end(file, page)
        }
        _ => false,
    }
}

/// Gives a page a copy of its own, where it is a private one that shows its file's bytes and a store to it is allowed, and
/// tells whether it did. Otherwise, and where memory or frames run out for it, the plain page map stays.
pub fn copy_page<M: SlotMap, A: Allocator>(
    map: &mut M,
    objects: &Objects<A>,
    frames: &mut Frames<A>,
    page: u64,
) -> Result<bool, NoMemory>
    requires free { NobodyHolds (M.slots map.old) }
    requires kept { Keeps (M.slots map.old) (cached_in objects.now) frames.old }
    ensures yes { result ≡ Ok true → Copies (plain_kept (M.slots map.old) objects.now frames.old) page
        (plain_kept (M.slots map.new) objects.now frames.new) }
    ensures no { result ≡ Ok false → (u : Plain) → ¬ Copies (plain_kept (M.slots map.old) objects.now frames.old) page u }
    ensures same { result ≡ Ok false → plain_kept (M.slots map.new) objects.now frames.new
        ≡ plain_kept (M.slots map.old) objects.now frames.old }
    ensures err { OnErr result (plain_kept (M.slots map.new) objects.now frames.new
        ≡ plain_kept (M.slots map.old) objects.now frames.old) }
    ensures due { OnErr result ((u : Plain) × Copies (plain_kept (M.slots map.old) objects.now frames.old) page u) }
    ensures free { NobodyHolds (M.slots map.new) }
    ensures kept { Keeps (M.slots map.new) (cached_in objects.now) frames.new }
{
    if !is_valid(page) {
        return Ok(false);
    }
    let Some(info) = map.page(page) else {
        return Ok(false);
    };
    if !is_copy_due(objects, &info) {
        return Ok(false);
    }
    own_frame(map, objects, frames, page, info)?;
    Ok(true)
}
