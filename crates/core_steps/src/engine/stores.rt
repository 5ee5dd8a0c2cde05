//! The making of the engine's stores: the open files, the frames and their counts.
ghost use Rattle.std.specs.Prelude.{◌≡◌, ◌≤◌, ◌^◌, ℕ, IfOk, None, length, nat_lt};
ghost use Rattle.vm_base.specs.Plain.{zeros};
ghost use Rattle.frames.specs.Files.{files_of, cached_in};
ghost use Rattle.frames.specs.Given.{given_files};
ghost use Rattle.frames.specs.Parts.{frame_bytes, free_frames};
ghost use Rattle.refcache.specs.Counts.{no_counts};
ghost use Rattle.refcache.specs.Parts.{counts_of};

use frames::{FileSpec, Frames, Objects};
use refcache::Refcache;
use std::alloc::Allocator;
use vm_base::NoMemory;

/// What the engine has of bytes.
#[derive(Drop)]
pub(crate) struct Stores<A: Allocator> {
    /// The open files.
    pub objects: Objects<A>,
    /// How many pages have each frame.
    pub counts: Refcache<A>,
    /// The frames of physical memory.
    pub frames: Frames<A>,
}

/// The files, of which no page is cached, and so many frames, all of them free and of zeros, that
/// this many cores count. The bytes of the files are moved, not copied.
pub(crate) fn new_stores<A: Allocator + Clone + Drop>(
    alloc: A,
    files: Vec<FileSpec<A>, A>,
    cores: u8,
    frames: u32,
) -> Result<Stores<A>, NoMemory>
    requires files { length files.items ≤ 16 }
    requires cores { (1 ≤ cores) × (cores ≤ 64) }
    requires frames { frames ≤ 2 ^ 16 }
    ensures files { IfOk result (λ stores. files_of stores.objects ≡ given_files files.items) }
    ensures cached { IfOk result (λ stores. cached_in stores.objects ≡ (λ n k. None)) }
    ensures counts { IfOk result (λ stores. counts_of stores.counts ≡ no_counts cores frames) }
    ensures count { IfOk result (λ stores. stores.frames.count ≡ frames) }
    ensures bytes { IfOk result (λ stores. frame_bytes stores.frames ≡ (λ f. zeros)) }
    ensures free { IfOk result (λ stores. free_frames stores.frames ≡ (λ f. nat_lt f frames)) }
{
    let Ok(for_files) = alloc.clone() else {
        return Err(NoMemory);
    };
    let Ok(objects) = Objects::new(for_files, files) else {
        return Err(NoMemory);
    };
    let Ok(for_counts) = alloc.clone() else {
        drop(objects);
        return Err(NoMemory);
    };
    let Ok(counts) = Refcache::new(for_counts, cores, frames) else {
        drop(objects);
        return Err(NoMemory);
    };
    let Ok(frames) = Frames::new(alloc, frames) else {
        drop(objects);
        drop(counts);
        return Err(NoMemory);
    };
    Ok(Stores {
        objects,
        counts,
        frames,
    })
}
