//! One open file: its mode, its own bytes, and the frame that caches each of its pages.
ghost use Rattle.std.specs.Prelude.{◌≡◌, IfOk, None, replicate};

use crate::cached_frame::CachedFrame;
use crate::file_spec::FileSpec;
use std::alloc::{AllocError, Allocator};
use std::marker::Model;
use vm_base::Mode;

/// Bytes of a page.
const PAGE_BYTES: usize = 4096;

/// An open file: for what, its own bytes, and of each of its pages the frame that caches it.
#[derive(Drop)]
pub(crate) struct FileObject<A: Allocator> {
    mode: Mode,
    bytes: Vec<u8, A>,
    cached: Vec<CachedFrame, A>,
}

impl<A: Allocator> Model for FileObject<A> {
    ghost use Rattle.std.specs.Prelude.{◌≡◌, length};
    ghost use Rattle.vm_base.specs.Pages.{page_count};
    ghost use Rattle.frames.specs.Files.{FileParts};

    ghost Value = { FileParts };

    ghost view = { λ s. record { mode = s.mode; bytes = s.bytes.items; cached = s.cached.items } };

    ghost invariant = { λ s. length s.cached.items ≡ page_count (length s.bytes.items) };
}

/// No frame caches any of this many pages yet.
fn uncached<A: Allocator>(alloc: A, count: usize) -> Result<Vec<CachedFrame, A>, AllocError>
    ensures { IfOk result (λ v. v.items ≡ replicate count None) }
{
    Ok(vec![in alloc; CachedFrame::none(); count]?)
}

impl<A: Allocator + Clone> FileObject<A> {
    ghost use Rattle.std.specs.Prelude.{◌≡◌, IfOk};
    ghost use Rattle.frames.specs.Given.{opened};

    /// The file that is asked for, with no page cached. The error says that memory ran out.
    pub fn new(alloc: &A, spec: FileSpec<A>) -> Result<FileObject<A>, AllocError>
        ensures { IfOk result (λ f. f ≡ opened spec) }
    {
        let FileSpec { mode, bytes } = spec;
        let cached = uncached(alloc.clone()?, bytes.len().div_ceil(PAGE_BYTES))?;
        Ok(FileObject {
            mode,
            bytes,
            cached,
        })
    }
}

impl<A: Allocator> FileObject<A> {
    ghost use Rattle.std.specs.Prelude.{◌≡◌, ◌<◌, ◌≤◌, Some, None, length, get_or, set, nat_lt};
    ghost use Rattle.vm_base.specs.Pages.{page_count};
    ghost use Rattle.vm_base.specs.Plain.{page_bytes};

    /// For what the file is open.
    pub fn mode(&self) -> Mode
        ensures { result ≡ self.now.mode }
    {
        self.mode
    }

    /// Tells whether the file has the page.
    pub(crate) fn has_page(&self, page: u64) -> bool
        ensures { result ≡ nat_lt page (page_count (length self.now.bytes)) }
    {
        page < self.cached.len() as u64
    }

    /// The file's own bytes of a page that it has, without the zeros after its length.
    pub(crate) fn first_part(&self, page: u64) -> &[u8]
        requires { page < page_count (length self.now.bytes) }
        ensures short { length result.now ≤ 4096 }
        ensures bytes { page_bytes result.now 0 ≡ page_bytes self.now.bytes page }
    {
        let len = self.bytes.len();
        let start = page as usize * PAGE_BYTES;
        let end = len.min(start + PAGE_BYTES);
        &self.bytes[start..end]
    }

    /// The file's own byte, zero after its length.
    pub fn byte(&self, page: u64, offset: usize) -> u8
        requires page { page < page_count (length self.now.bytes) }
        requires offset { offset < 4096 }
        ensures { result ≡ page_bytes self.now.bytes page offset }
    {
        let part = self.first_part(page);
        if offset < part.len() { part[offset] } else { 0 }
    }

    /// The frame that caches a page, if one does.
    pub fn cached(&self, page: u64) -> Option<u32>
        ensures { result ≡ get_or self.now.cached page None }
    {
        if self.has_page(page) {
            self.cached[page as usize].get()
        } else {
            None
        }
    }

    /// From now on the frame caches the page, which none has cached before.
    pub fn set_cached(&mut self, page: u64, frame: u32)
        requires page { page < page_count (length self.old.bytes) }
        requires new { get_or self.old.cached page None ≡ None }
        ensures mode { self.new.mode ≡ self.old.mode }
        ensures bytes { self.new.bytes ≡ self.old.bytes }
        ensures within { page < length self.old.cached }
        ensures cached { self.new.cached ≡ set self.old.cached page (Some frame) }
    {
        self.cached[page as usize].set(frame);
    }
}
