//! What files are opened with, and how their pages are mapped.
use std::alloc::Allocator;
use vm_base::Mode;

/// A file that is open from the start: its access mode, and its bytes.
#[derive(Drop)]
pub struct FileSpec<A: Allocator> {
    /// For what the file is open.
    pub mode: Mode,
    /// The file's bytes, from offset 0 on.
    pub bytes: Vec<u8, A>,
}

/// Whether stores to the pages of a mapping change the file (POSIX.1-2017, mmap).
#[derive(Clone, Copy)]
pub enum Sharing {
    /// `MAP_PRIVATE`: they don't.
    Private,
    /// `MAP_SHARED`: they do.
    Shared,
}
