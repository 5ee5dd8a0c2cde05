//! An audit: the replies of an implementation, one after another, beside a plain page map.
ghost use Rattle.frames.specs.Parts.{FrameParts};
ghost use Rattle.frames.specs.Files.{cached_in};
ghost use Rattle.audit.specs.Keeping.{Keeps, NobodyHolds};

use crate::bytes::file_byte;
use crate::copying::copy_page;
use crate::judging::{ReplyVerdict, compared, judge_plan};
use crate::serving::is_served;
use crate::storing::store_to_file;
use frames::{FileSpec, Frames, Objects};
use slot_lock::SlotMap;
use std::alloc::Allocator;
use vm_base::{CoreId, NoMemory, Reply, Request};
use vm_calls::check;

/// A request of a core, and what it was answered.
#[derive(Clone, Copy, PartialEq, Eq)]
pub struct Call {
    /// Who asked.
    pub core: CoreId,
    /// For what.
    pub request: Request,
    /// What it was answered.
    pub reply: Reply,
}

/// The first call whose reply no plain page map gives.
#[derive(Clone, Copy, Debug, PartialEq, Eq)]
pub struct Wrong {
    /// How many calls come before it, all of whose replies are legal.
    pub at: usize,
    /// What a plain page map would give.
    pub due: Reply,
}

/// How many frames an audit has: at most this many pages have own bytes, or are pages of files that
/// stores have changed.
const FRAMES: u32 = 65_536;

/// A plain page map, which the replies of an implementation are compared with, one after another.
#[derive(Drop)]
pub struct Auditor<M: SlotMap, A: Allocator> {
    map: M,
    objects: Objects<A>,
    frames: Frames<A>,
    any_place: bool,
    ghost kept: { Keeps (M.slots map) (cached_in objects) frames },
    ghost free: { NobodyHolds (M.slots map) },
}

impl<M: SlotMap + Drop, A: Allocator + Clone + Drop> Auditor<M, A> {
    ghost use Rattle.std.specs.Prelude.{◌≡◌, ◌≤◌, IfOk, length};
    ghost use Rattle.vm_base.specs.Plain.{nothing_mapped};
    ghost use Rattle.slot_lock.specs.Slots.{IsNew};
    ghost use Rattle.frames.specs.Given.{given_files};
    ghost use Rattle.audit.specs.Auditor.{plain_of};

    /// Begins with nothing mapped and these files, whose bytes are moved, not copied. A mapping without
    /// `MAP_FIXED` may be at any free run of valid pages if `any_place` says so, and else only at the
    /// first place. It keeps the bytes of at most 65,536 pages, whose memory is reserved here.
    pub fn new(
        alloc: A,
        map: M,
        files: Vec<FileSpec<A>, A>,
        any_place: bool,
    ) -> Result<Auditor<M, A>, NoMemory>
        requires new { IsNew (M.slots map) }
        requires files { length files.items ≤ 16 }
        ensures plain { IfOk result (λ it. plain_of it ≡ nothing_mapped (given_files files.items)) }
        ensures any_place { IfOk result (λ it. it.any_place ≡ any_place) }
    {
        let objects = Objects::new(alloc.clone()?, files)?;
        let frames = Frames::new(alloc, FRAMES)?;
        Ok(Auditor {
            map,
            objects,
            frames,
            any_place,
        })
    }
}

impl<M: SlotMap, A: Allocator> Auditor<M, A> {
    ghost use Rattle.std.specs.Prelude.{◌≡◌, IfOk, OnErr};
    ghost use Rattle.audit.specs.Auditor.{plain_of};
    ghost use Rattle.audit.specs.Judging.{IsGiven, Judges};
    ghost use Rattle.audit.specs.Placing.{rule_of};

    /// The slots that say what each page is mapped to.
    pub fn map(&self) -> &M
        ensures { result.now ≡ self.now.map }
    {
        &self.map
    }

    /// Judges the reply to a request of the core, which comes after those judged before. A legal one is
    /// the plain page map's, which goes on from there; after another one the map is as it was. Each
    /// request has a legal reply (POSIX.1-2017, mmap, munmap and mprotect; loads, stores and fetches of
    /// one byte with the bytes of pages and of files). A private page that shows its file's gets a copy
    /// before a store that is done. Memory is wanted only for a legal reply. Where it is wanting, or bytes of
    /// more than 65,536 pages would be kept, nothing changes.
    pub fn judge(
        &mut self,
        core: CoreId,
        request: Request,
        reply: Reply,
    ) -> Result<ReplyVerdict, NoMemory>
        ensures judged { IfOk result (λ verdict. Judges (rule_of self.old.any_place)
            (plain_of self.old) core request reply verdict (plain_of self.new)) }
        ensures err { OnErr result (plain_of self.new ≡ plain_of self.old) }
        ensures legal { OnErr result (IsGiven (rule_of self.old.any_place) (plain_of self.old) core request reply) }
        ensures any_place { self.new.any_place ≡ self.old.any_place }
    {
        // this says that the core is one of 64
        let _index = core.index();
        match check(&self.objects, core, request) {
            Err(due) => Ok(compared(reply, due)),
            Ok(plan) => judge_plan(
                &mut self.map,
                &mut self.objects,
                &mut self.frames,
                self.any_place,
                plan,
                reply,
            ),
        }
    }
}

impl<M: SlotMap, A: Allocator> Auditor<M, A> {
    ghost use Rattle.std.specs.Prelude.{◌≡◌, ◌↔◌, IsTrue, Ok, OnErr, false, true};
    ghost use Rattle.vm_base.specs.Log.{IsServable};
    ghost use Rattle.vm_base.specs.Plain.{Plain};
    ghost use Rattle.audit.specs.Auditor.{plain_of};
    ghost use Rattle.audit.specs.Copying.{Copies};

    /// Gives a page its own copy of its file's bytes, as a step by itself, and tells whether it did: `true` where it is a private
    /// page that shows its file's bytes and a store to it is allowed, as the entry of a log that tells a copy. Such a copy may come
    /// long before its store is done, and may be all that a store did that got no memory. Elsewhere nothing changes; nor where
    /// memory is refused, or bytes of more than 65,536 pages would be kept, which comes only where a copy is due.
    pub fn copy(&mut self, page: u64) -> Result<bool, NoMemory>
        ensures yes { result ≡ Ok true → Copies (plain_of self.old) page (plain_of self.new) }
        ensures no { result ≡ Ok false → (u : Plain) → ¬ Copies (plain_of self.old) page u }
        ensures same { result ≡ Ok false → plain_of self.new ≡ plain_of self.old }
        ensures err { OnErr result (plain_of self.new ≡ plain_of self.old) }
        ensures due { OnErr result ((u : Plain) × Copies (plain_of self.old) page u) }
        ensures any_place { self.new.any_place ≡ self.old.any_place }
    {
        copy_page(&mut self.map, &self.objects, &mut self.frames, page)
    }

    /// Whether a mapping without `MAP_FIXED` may have any place.
    pub fn any_place(&self) -> bool
        ensures { result ≡ self.now.any_place }
    {
        self.any_place
    }

    /// Tells whether the request is an access that would be served: of a mapped page that has bytes, and whose protection allows
    /// it. Only such a one may be answered that no frame was free.
    pub fn would_serve(&self, request: Request) -> bool
        ensures { IsTrue result ↔ IsServable (plain_of self.now) request }
    {
        is_served(&self.map, &self.objects, request)
    }
}

impl<M: SlotMap, A: Allocator> Auditor<M, A> {
    ghost use Rattle.std.specs.Prelude.{◌≡◌, ◌<◌, OnErr, OnOk, is_some, true};
    ghost use Rattle.vm_base.specs.Apply.{stored_back};
    ghost use Rattle.vm_base.specs.Plain.{file_bytes};
    ghost use Rattle.vm_base.specs.declared.info.Back.TheVariants.{Shared};
    ghost use Rattle.audit.specs.Auditor.{plain_of};
    ghost use Rattle.audit.specs.Keeping.{byte_at};

    /// The byte of a file's page at this offset, as stores have left it; none where the file has no such page, or there is no such file.
    pub fn file_byte(&self, file: u32, page: u64, offset: u64) -> Option<u8>
        requires offset { offset < 4096 }
        ensures { result ≡ byte_at (file_bytes ((plain_of self.now).file file) page) offset }
    {
        file_byte(&self.objects, &self.frames, file, page, offset as usize)
    }

    /// Stores a byte to a file's page at this offset, as a store by a shared mapping of it does, with no mapping. The file has the page:
    /// `file_byte` tells. What each page is mapped to stays. Where memory is refused, or bytes of more than 65,536 pages would be kept,
    /// nothing changes.
    pub fn store_to_file(
        &mut self,
        file: u32,
        page: u64,
        offset: u64,
        byte: u8,
    ) -> Result<(), NoMemory>
        requires offset { offset < 4096 }
        requires page { is_some (file_bytes ((plain_of self.old).file file) page) ≡ true }
        ensures ok { OnOk result (plain_of self.new ≡ stored_back (plain_of self.old) (Shared file page) offset byte) }
        ensures err { OnErr result (plain_of self.new ≡ plain_of self.old) }
        ensures any_place { self.new.any_place ≡ self.old.any_place }
    {
        store_to_file(
            &mut self.objects,
            &mut self.frames,
            file,
            page,
            offset,
            byte,
        )
    }
}

impl<M: SlotMap, A: Allocator> Auditor<M, A> {
    ghost use Rattle.std.specs.Prelude.{◌≡◌, IfOk, IfNone, IfSome, OnErr};
    ghost use Rattle.audit.specs.Auditor.{plain_of};
    ghost use Rattle.audit.specs.Judging.{AreReplies, IsFirstWrong, IsWanting};
    ghost use Rattle.audit.specs.Placing.{rule_of};

    /// Judges the replies of calls, which come one after another behind those judged before: none is
    /// wrong exactly where they are the plain page map's, and else the first wrong one is reported, before which
    /// it has stopped. Memory is wanted only for a legal reply, before which it has then stopped.
    pub fn judge_all(&mut self, calls: &[Call]) -> Result<Option<Wrong>, NoMemory>
        ensures legal { IfOk result (λ found. IfNone found (AreReplies (rule_of self.old.any_place)
            (plain_of self.old) calls.now (plain_of self.new))) }
        ensures wrong { IfOk result (λ found. IfSome found (λ wrong. IsFirstWrong
            (rule_of self.old.any_place) (plain_of self.old) calls.now wrong (plain_of self.new))) }
        ensures err { OnErr result (IsWanting (rule_of self.old.any_place) (plain_of self.old) calls.now (plain_of self.new)) }
        ensures any_place { self.new.any_place ≡ self.old.any_place }
    {
        for at in 0..calls.len() {
            let call = calls[at];
            match self.judge(call.core, call.request, call.reply)? {
                ReplyVerdict::Legal => {}
                ReplyVerdict::Illegal(due) => return Ok(Some(Wrong { at, due })),
            }
        }
        Ok(None)
    }
}
