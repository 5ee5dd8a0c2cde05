//! The other face of the crate: all open files, by their numbers.
ghost use Rattle.std.specs.Prelude.{◌≡◌, IfOk, map};
ghost use Rattle.frames.specs.Given.{opened};

use crate::Frames;
use crate::file_object::FileObject;
use crate::file_spec::{FileSpec, Sharing};
use std::alloc::{AllocError, Allocator};
use std::marker::Model;
use vm_base::{Errno, Mode, Prot};

/// The open files by their numbers from 0 on, at most 16, and the frames that cache their pages.
/// Once they are made, no call takes memory or fails. A clause sees the files as `files_of`, and
/// the caching frames as `cached_in`.
#[derive(Drop)]
pub struct Objects<A: Allocator> {
    files: Vec<FileObject<A>, A>,
}

impl<A: Allocator> Model for Objects<A> {
    ghost use Rattle.std.specs.Prelude.{◌≤◌, List, length};
    ghost use Rattle.frames.specs.Files.{FileParts};

    ghost Value = { List FileParts };

    ghost view = { λ s. s.files.items };

    ghost invariant = { λ s. length s.files.items ≤ 16 };
}

/// Opens the files, of which no page is cached.
fn open_all<A: Allocator + Clone>(
    alloc: &A,
    specs: Vec<FileSpec<A>, A>,
) -> Result<Vec<FileObject<A>, A>, AllocError>
    ensures { IfOk result (λ v. v.items ≡ map opened specs.items) }
{
    let mut files = Vec::with_capacity(alloc.clone()?, specs.len())?;
    'files: for spec in specs {
        files.push(FileObject::new(alloc, spec)?)?;
    }
    Ok(files)
}

impl<A: Allocator + Clone> Objects<A> {
    ghost use Rattle.std.specs.Prelude.{◌≡◌, ◌≤◌, IfOk, None, length};
    ghost use Rattle.frames.specs.Files.{files_of, cached_in};
    ghost use Rattle.frames.specs.Given.{given_files};

    /// Opens the files, of which no page is cached; their bytes are moved, not copied. The error
    /// says that memory ran out.
    pub fn new(alloc: A, files: Vec<FileSpec<A>, A>) -> Result<Objects<A>, AllocError>
        requires { length files.items ≤ 16 }
        ensures files { IfOk result (λ o. files_of o ≡ given_files files.items) }
        ensures cached { IfOk result (λ o. cached_in o ≡ (λ n k. None)) }
    {
        let files = open_all(&alloc, files)?;
        Ok(Objects { files })
    }
}

impl<A: Allocator> Objects<A> {
    ghost use Rattle.std.specs.Prelude.{◌≡◌, ℕ, ◌<◌, ◌≤◌, ◌+◌, ◌^◌, Some, None, IfSome, is_some, not};
    ghost use Rattle.std.specs.Prelude.{true, length};
    ghost use Rattle.vm_base.specs.declared.requests.Flags.{Flags};
    ghost use Rattle.vm_base.specs.Functions.{put};
    ghost use Rattle.vm_base.specs.Plain.{file_bytes, mode_of, page_bytes};
    ghost use Rattle.vm_base.specs.Refusals.{file_refusal};
    ghost use Rattle.frames.specs.Parts.{frame_bytes, free_frames};
    ghost use Rattle.frames.specs.Files.{files_of, cached_in, bytes_now};
    ghost use Rattle.frames.specs.Given.{is_shared, refused_by};

    /// No files. It takes no memory.
    pub fn none(alloc: A) -> Objects<A>
        ensures files { files_of result ≡ (λ n. None) }
        ensures cached { cached_in result ≡ (λ n k. None) }
    {
        Objects {
            files: Vec::new(alloc),
        }
    }

    /// For what a file is open, if there is a file of this number.
    pub fn mode(&self, file: u64) -> Option<Mode>
        ensures mode { result ≡ mode_of (files_of self.now file) }
        ensures few { IfSome result (λ m. file < 16) }
    {
        if file < self.files.len() as u64 {
            Some(self.files[file as usize].mode())
        } else {
            None
        }
    }

    /// Tells whether the file lets itself be mapped so (POSIX.1-2017, mmap, ERRORS), in this order:
    /// `EBADF` where there is no such file; `EACCES` where it isn't open for reading, or where
    /// pages have to be shared and written and it isn't open for writing.
    pub fn may(&self, file: u64, sharing: Sharing, prot: Prot) -> Result<(), Errno>
        ensures { (len : ℕ) (off : ℕ) (flags : Flags) → flags.shared ≡ is_shared sharing
            → off + len ≤ 2 ^ 47
            → file_refusal (mode_of (files_of self.now file)) len prot flags off ≡ refused_by result }
    {
        let Some(mode) = self.mode(file) else {
            return Err(Errno::EBADF);
        };
        if !mode.can_read() {
            return Err(Errno::EACCES);
        }
        if sharing == Sharing::Shared && prot.write && !mode.can_write() {
            return Err(Errno::EACCES);
        }
        Ok(())
    }

    /// Tells whether a page lies wholly past the end of its file, in which case an access to it
    /// gets `SIGBUS` (POSIX.1-2017, mmap). There may be no such file, and then no page of it.
    pub fn is_past_end(&self, file: u32, page: u64) -> bool
        ensures { result ≡ not (is_some (file_bytes (files_of self.now file) page)) }
    {
        if (file as usize) < self.files.len() {
            !self.files[file as usize].has_page(page)
        } else {
            true
        }
    }

    /// A file's own byte in a page that it has, at an offset in bytes; zero after the file's
    /// length. What stores changed isn't seen here, but in the frame that caches the page.
    pub fn byte(&self, file: u32, page: u64, offset: usize) -> u8
        requires page { is_some (file_bytes (files_of self.now file) page) ≡ true }
        requires offset { offset < 4096 }
        ensures { IfSome (file_bytes (files_of self.now file) page) (λ own. result ≡ own offset) }
    {
        self.files[file as usize].byte(page, offset)
    }

    /// A file's own bytes of a page that it has, up to the file's length: at most 4,096, after
    /// which the page has zeros.
    pub fn first_bytes(&self, file: u32, page: u64) -> &[u8]
        requires { is_some (file_bytes (files_of self.now file) page) ≡ true }
        ensures short { length result.now ≤ 4096 }
        ensures bytes { IfSome (file_bytes (files_of self.now file) page)
            (λ own. page_bytes result.now 0 ≡ own) }
    {
        self.files[file as usize].first_part(page)
    }

    /// The frame that caches a page of a file, if one does. There may be no such page.
    pub fn cached(&self, file: u32, page: u64) -> Option<u32>
        ensures { result ≡ cached_in self.now file page }
    {
        if (file as usize) < self.files.len() {
            self.files[file as usize].cached(page)
        } else {
            None
        }
    }

    /// From now on the frame caches the page, which no frame has cached before.
    pub fn set_cached(&mut self, file: u32, page: u64, frame: u32)
        requires page { is_some (file_bytes (files_of self.old file) page) ≡ true }
        requires new { cached_in self.old file page ≡ None }
        ensures cached { cached_in self.new ≡ put (cached_in self.old) file
            (put (cached_in self.old file) page (Some frame)) }
        ensures files { files_of self.new ≡ files_of self.old }
    {
        self.files[file as usize].set_cached(page, frame);
    }

    /// Gives a frame the bytes of a file's page as they now are: those of the frame that caches it,
    /// or else the file's own bytes, and zeros after them. The caller has seen that a caching frame
    /// is one of `frames`.
    pub fn fill(&self, file: u32, page: u64, frames: &mut Frames<A>, frame: u32)
        requires page { is_some (file_bytes (files_of self.now file) page) ≡ true }
        requires frame { frame < frames.old.count }
        requires cached { IfSome (cached_in self.now file page) (λ g. g < frames.old.count) }
        ensures bytes { IfSome (file_bytes (files_of self.now file) page)
            (λ own. frame_bytes frames.new ≡ put (frame_bytes frames.old) frame
            (bytes_now (cached_in self.now file page) (frame_bytes frames.old) own)) }
        ensures free { free_frames frames.new ≡ free_frames frames.old }
        ensures count { frames.new.count ≡ frames.old.count }
    {
        match self.cached(file, page) {
            Some(cached) => frames.copy(cached, frame),
            None => frames.fill(frame, self.first_bytes(file, page)),
        }
    }
}
