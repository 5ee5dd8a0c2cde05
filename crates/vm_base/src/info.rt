//! What a page has: its backing and rights (`Meta`), and its frame and recorded cores once it is used
//! (`PageInfo`).
ghost use Rattle.std.specs.Prelude.{◌≡◌, ℕ, ◌+◌, ◌<◌, ◌^◌, ◌↔◌, IsTrue, false};
ghost use Rattle.vm_base.specs.Info.{advance, file_page, info_file_page, info_from, unused};
ghost use Rattle.vm_base.specs.Cores.{members};
ghost use Rattle.vm_base.specs.Info.{is_leaf, info_with_prot, recorded_cores, is_recorded};

use crate::cores::CoreSet;
use crate::rights::Prot;

/// What backs a page. Files are counted from 0 in the order in which they were opened, and a file's
/// pages of 4096 bytes from 0 too.
#[derive(Clone, Copy, PartialEq, Eq)]
pub enum Back {
    /// Zero bytes. POSIX.1-2017 has no `MAP_ANONYMOUS`; it is a common extension. With one address
    /// space, shared and private anonymous pages are alike.
    Anon,
    /// A page of a file: a store changes the file (POSIX.1-2017, mmap, `MAP_SHARED`).
    Shared {
        /// The file's number.
        file: u32,
        /// The page's number in the file.
        page: u64,
    },
    /// A copy of a page of a file: a store changes the copy alone (POSIX.1-2017, mmap, `MAP_PRIVATE`).
    Private {
        /// The file's number.
        file: u32,
        /// The page's number in the file.
        page: u64,
    },
}

/// A mapping of the first of some neighbouring pages. Each later page has the next file page, and
/// the same protection.
#[derive(Clone, Copy, PartialEq, Eq)]
pub struct Meta {
    /// What backs the first page.
    pub back: Back,
    /// What may be done with each page.
    pub prot: Prot,
}

/// What a mapped page has.
#[derive(Clone, Copy)]
pub struct PageInfo {
    /// Its mapping.
    pub meta: Meta,
    /// The number of the frame with its bytes, once a core has used the page.
    pub frame: Option<u32>,
    /// The cores that may have a translation of it in their tables or their TLB.
    pub cores: CoreSet,
}

impl Meta {
    /// The mapping of the page `by` pages on: the next file pages, the same protection. The caller
    /// has seen that the number of the file page fits 64 bits.
    pub fn advanced(self, by: u64) -> Meta
        requires { file_page self.back + by < 2 ^ 64 }
        ensures { result ≡ advance self by }
    {
        Meta {
            back: match self.back {
                Back::Anon => Back::Anon,
                Back::Shared { file, page } => Back::Shared {
                    file,
                    page: page + by,
                },
                Back::Private { file, page } => Back::Private {
                    file,
                    page: page + by,
                },
            },
            prot: self.prot,
        }
    }
}

impl PageInfo {
    /// A page of a mapping that no core has used: it has no frame, and no core has a translation of it.
    pub fn unused(meta: Meta) -> PageInfo
        ensures { result ≡ unused meta }
    {
        PageInfo {
            meta,
            frame: None,
            cores: CoreSet::empty(),
        }
    }
}

/// What the page has that lies `by` pages on in the same slot: nothing if the slot is unmapped,
/// else the next file pages. The caller has seen that the number of the file page fits 64 bits.
pub fn info_from(info: Option<PageInfo>, by: u64) -> Option<PageInfo>
    requires { info_file_page info + by < 2 ^ 64 }
    ensures { result ≡ info_from info by }
{
    match info {
        None => None,
        Some(info) => Some(PageInfo {
            meta: info.meta.advanced(by),
            ..info
        }),
    }
}

/// Tells whether the page has a frame or a recorded core, and so is a slot of its own.
pub fn is_leaf(info: Option<PageInfo>) -> bool
    ensures { result ≡ is_leaf info }
{
    match info {
        None => false,
        Some(info) => info.frame.is_some() || !info.cores.is_empty(),
    }
}

/// Tells whether two mappings are the same.
pub fn is_same(meta: Meta, other: Meta) -> bool
    ensures { IsTrue result ↔ (meta ≡ other) }
{
    meta == other
}

/// Tells whether what a page has goes on at the page `by` pages later, which has `next`: whether
/// both can be in one slot. The caller has seen that neither has a frame or a recorded core, and
/// that the number of the file page fits 64 bits.
pub fn goes_on(info: Option<PageInfo>, next: Option<PageInfo>, by: u64) -> bool
    requires fits { info_file_page info + by < 2 ^ 64 }
    requires no_leaf { is_leaf info ≡ false }
    requires next_no_leaf { is_leaf next ≡ false }
    ensures { IsTrue result ↔ (next ≡ info_from info by) }
{
    match (info, next) {
        (None, None) => true,
        (Some(info), Some(next)) => is_same(info.meta.advanced(by), next.meta),
        _ => false,
    }
}

/// The cores that are recorded on a page that has this, which may have a translation of it.
pub fn recorded_cores(info: &Option<PageInfo>) -> CoreSet
    ensures value { result ≡ recorded_cores info.now }
    ensures recorded { (core : ℕ) → members result core ≡ is_recorded info.now core }
{
    match info {
        Some(info) => info.cores,
        None => CoreSet::empty(),
    }
}

/// What a page has under another protection, under which no core has used it yet: the same frame,
/// and no recorded core. An unmapped page stays so.
pub fn protected(info: Option<PageInfo>, prot: Prot) -> Option<PageInfo>
    ensures { result ≡ info_with_prot prot info }
{
    match info {
        None => None,
        Some(info) => Some(PageInfo {
            meta: Meta { prot, ..info.meta },
            cores: CoreSet::empty(),
            ..info
        }),
    }
}
