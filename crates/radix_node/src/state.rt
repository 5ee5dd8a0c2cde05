//! What a slot that is no child says of its pages.
ghost use Rattle.std.specs.Prelude.{◌≡◌, ◌+◌, ◌<◌, ◌^◌, ◌↔◌, IsTrue, Option, None, Some, is_some, true};
ghost use Rattle.std.specs.Prelude.{false};
ghost use Rattle.vm_base.specs.Cores.{members};
ghost use Rattle.vm_base.specs.Info.{file_page, info_file_page, info_from, info_with_prot};
ghost use Rattle.vm_base.specs.Info.{is_leaf, frame_of, is_recorded};
ghost use Rattle.slot_lock.specs.Surveys.{is_shared};
ghost use Rattle.radix_node.specs.Edit.{CanEdit, edited};
ghost use Rattle.radix_node.specs.State.{backing_of, frame_in, state_of, state_from, IsPlain};

use crate::edit::Edit;
use vm_base::{Back, CoreId, CoreSet, Meta, PageInfo, Prot, goes_on, info_from, is_leaf};

/// What backs the pages of a slot.
#[derive(Clone, Copy)]
pub enum BackKind {
    /// Nothing is mapped.
    Unmapped,
    /// Zero bytes.
    Zeros,
    /// Pages of a file, which a store changes.
    OfFile,
    /// Copies of pages of a file.
    Copies,
}

/// A slot that is no child: what its pages have, and the core that holds it. Its parts lie side by
/// side, in 32 bytes, since a node has 512 slots.
#[derive(Clone, Copy)]
pub struct SlotState {
    // the file page of the first page, where a file backs it
    file_page: u64,
    // this and all that follows but the owner says something where the slot is mapped
    cores: CoreSet,
    file: u32,
    frame: u32,
    has_frame: bool,
    kind: BackKind,
    prot: Prot,
    owner: Option<CoreId>,
}

// A backing as its kind, the file, and the page in it.
fn parts_of(back: Back) -> (BackKind, u32, u64)
    ensures back { backing_of result.0 result.1 result.2 ≡ Some back }
    ensures page { result.2 ≡ file_page back }
{
    match back {
        Back::Anon => (BackKind::Zeros, 0, 0),
        Back::Shared { file, page } => (BackKind::OfFile, file, page),
        Back::Private { file, page } => (BackKind::Copies, file, page),
    }
}

impl SlotState {
    /// A slot whose first page has this.
    pub fn new(info: Option<PageInfo>, owner: Option<CoreId>) -> SlotState
        ensures { state_of result ≡ record { info = info; owner = owner } }
    {
        match info {
            None => SlotState::unmapped(owner),
            Some(info) => SlotState::mapped(info, owner),
        }
    }

    // A slot with nothing mapped.
    fn unmapped(owner: Option<CoreId>) -> SlotState
        ensures { state_of result ≡ record { info = None; owner = owner } }
    {
        SlotState {
            file_page: 0,
            cores: CoreSet::empty(),
            file: 0,
            frame: 0,
            has_frame: false,
            kind: BackKind::Unmapped,
            prot: Prot {
                read: false,
                write: false,
                exec: false,
            },
            owner,
        }
    }

    // A slot whose first page has this.
    pub(crate) fn mapped(info: PageInfo, owner: Option<CoreId>) -> SlotState
        ensures state { state_of result ≡ record { info = Some info; owner = owner } }
        ensures page { result.file_page ≡ info_file_page (Some info) }
    {
        let (kind, file, file_page) = parts_of(info.meta.back);
        let (has_frame, frame) = match info.frame {
            None => (false, 0),
            Some(frame) => (true, frame),
        };
        SlotState {
            file_page,
            cores: info.cores,
            file,
            frame,
            has_frame,
            kind,
            prot: info.meta.prot,
            owner,
        }
    }

    // What backs the slot's first page.
    fn back(&self) -> Option<Back>
        ensures { result ≡ backing_of self.now.kind self.now.file self.now.file_page }
    {
        match self.kind {
            BackKind::Unmapped => None,
            BackKind::Zeros => Some(Back::Anon),
            BackKind::OfFile => Some(Back::Shared {
                file: self.file,
                page: self.file_page,
            }),
            BackKind::Copies => Some(Back::Private {
                file: self.file,
                page: self.file_page,
            }),
        }
    }

    /// What the slot's first page has.
    pub fn info(&self) -> Option<PageInfo>
        ensures { result ≡ (state_of self.now).info }
    {
        match self.back() {
            None => None,
            Some(back) => Some(PageInfo {
                meta: Meta {
                    back,
                    prot: self.prot,
                },
                frame: if self.has_frame {
                    Some(self.frame)
                } else {
                    None
                },
                cores: self.cores,
            }),
        }
    }

    /// The core that holds the slot.
    pub fn owner(&self) -> Option<CoreId>
        ensures { result ≡ (state_of self.now).owner }
    {
        self.owner
    }

    /// Gives the slot another owner.
    pub fn set_owner(&mut self, owner: Option<CoreId>)
        ensures { state_of self.new ≡ record { info = (state_of self.old).info; owner = owner } }
    {
        self.owner = owner;
    }

    // Maps the slot's first page as the one `by` pages after the first of another slot.
    pub(crate) fn follow(&mut self, made: &SlotState, by: u64)
        requires { made.now.file_page + by < 2 ^ 64 }
        ensures { state_of self.new ≡ record {
          info = info_from (state_of made.now).info by;
          owner = (state_of self.old).owner;
        } }
    {
        self.file_page = made.file_page + by;
        self.cores = made.cores;
        self.file = made.file;
        self.frame = made.frame;
        self.has_frame = made.has_frame;
        self.kind = made.kind;
        self.prot = made.prot;
    }

    // Unmaps the slot's pages.
    pub(crate) fn clear(&mut self)
        ensures { state_of self.new ≡ record { info = None; owner = (state_of self.old).owner } }
    {
        self.kind = BackKind::Unmapped;
    }

    // Gives the slot's pages this protection, and no recorded core.
    pub(crate) fn protect(&mut self, prot: Prot)
        ensures { state_of self.new ≡ record {
          info = info_with_prot prot (state_of self.old).info;
          owner = (state_of self.old).owner;
        } }
    {
        self.prot = prot;
        self.cores = CoreSet::empty();
    }

    /// Changes the slot as one of a range that begins `by` pages before it.
    pub fn edit(&mut self, edit: &Edit, by: u64)
        requires { CanEdit edit.now (by + 1) }
        ensures { state_of self.new ≡ edited edit.now by (state_of self.old) }
    {
        match edit {
            Edit::Put(None) => self.clear(),
            Edit::Put(Some(info)) => self.follow(&SlotState::mapped(*info, None), by),
            Edit::Protect(prot) => self.protect(*prot),
        }
    }

    /// The cores that are recorded on the slot's first page.
    pub fn cores(&self) -> CoreSet
        ensures { members result ≡ is_recorded (state_of self.now).info }
    {
        match self.kind {
            BackKind::Unmapped => CoreSet::empty(),
            _ => self.cores,
        }
    }

    /// The frame of the slot's first page, if it has one.
    pub fn frame(&self) -> Option<u32>
        ensures { result ≡ frame_of (state_of self.now).info }
    {
        if self.has_frame && self.is_mapped() {
            Some(self.frame)
        } else {
            None
        }
    }

    /// Tells whether the slot's pages are shared ones of a file.
    pub fn is_shared(&self) -> bool
        ensures { result ≡ is_shared (state_of self.now).info }
    {
        matches!(self.kind, BackKind::OfFile)
    }

    /// Tells whether a page of the slot is mapped.
    pub fn is_mapped(&self) -> bool
        ensures { result ≡ is_some (state_of self.now).info }
    {
        !matches!(self.kind, BackKind::Unmapped)
    }

    /// What the slot says `by` pages on, as a slot of its own.
    pub fn advanced(&self, by: u64) -> SlotState
        requires { info_file_page (state_of self.now).info + by < 2 ^ 64 }
        ensures { state_of result ≡ state_from (state_of self.now) by }
    {
        SlotState::new(info_from(self.info(), by), self.owner)
    }

    /// Tells whether nobody holds the slot, and its pages have no frame and no recorded core.
    pub fn is_plain(&self) -> bool
        ensures { IsTrue result ↔ IsPlain (state_of self.now) }
    {
        self.owner.is_none() && !is_leaf(self.info())
    }

    /// Tells whether two slots that nobody holds, without frame and recorded core, are such that
    /// the second's pages go on from the first's, `by` pages later.
    pub fn goes_on(&self, next: &SlotState, by: u64) -> bool
        requires fits { info_file_page (state_of self.now).info + by < 2 ^ 64 }
        requires plain { IsPlain (state_of self.now) }
        ensures { IsTrue result ↔ (state_of next.now ≡ state_from (state_of self.now) by) }
    {
        next.is_plain() && goes_on(self.info(), next.info(), by)
    }
}
