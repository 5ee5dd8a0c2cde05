//! What a page has to do with the page of its file: which frame caches it, and what translations of
//! the page allow.
ghost use Rattle.std.specs.Prelude.{◌≡◌};
ghost use Rattle.frames.specs.Files.{cached_in};
ghost use Rattle.machine_model.specs.Files.{file_frame, prot_installed};

use frames::Objects;
use machine_model::answers::prot_with;
use std::alloc::Allocator;
use vm_base::{Back, PageInfo, Prot};

/// The frame that caches the page's file page, if one does.
pub fn file_frame<A: Allocator>(objects: &Objects<A>, back: Back) -> Option<u32>
    ensures { result ≡ file_frame (cached_in objects.now) back }
{
    match back {
        Back::Anon => None,
        Back::Shared { file, page } | Back::Private { file, page } => objects.cached(file, page),
    }
}

/// The protection that the page's entries have.
pub fn prot_installed<A: Allocator>(objects: &Objects<A>, info: &PageInfo) -> Prot
    ensures { result ≡ prot_installed (cached_in objects.now) info.now }
{
    prot_with(info, file_frame(objects, info.meta.back))
}
