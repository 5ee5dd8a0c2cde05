//! What is kept of the entries that calls have replaced: as much as late accesses need.
ghost use Rattle.std.specs.Prelude.{◌≡◌, ◌≢◌, ◌==◌, ℕ, IfNone, IfOk, IfSome, Some, not, slice_get, true};
ghost use Rattle.vm_base.specs.Apply.{access_reply};
ghost use Rattle.vm_base.specs.Pages.{is_page, offset_of, page_of};
ghost use Rattle.vm_base.specs.Plain.{Bytes};
ghost use Rattle.vm_base.specs.declared.replies.Reply.TheVariants as ReplyOf;
ghost use Rattle.vm_base.specs.declared.rights.Access.TheVariants as By;
ghost use Rattle.audit.specs.Auditor.{plain_of};
ghost use Rattle.audit.specs.Keeping.{entry_kept, own_kept};
ghost use Rattle.loose_orders.specs.Kept.{AllKept, HasReplaced, IsWas, Olds};
ghost use Rattle.loose_orders.specs.Kernel.{HasRights};
ghost use Rattle.loose_orders.specs.Loose.{replaces};

use audit::{Auditor, ReplyVerdict};
use orders::Timed;
use slot_lock::SlotMap;
use std::alloc::Allocator;
use vm_base::{
    Back, CoreId, NoMemory, PageInfo, Prot, Reply, Request, is_valid, offset_of, page_of, pages,
};

/// What a page was mapped to.
#[derive(Clone, Copy)]
pub(crate) enum Was {
    /// To nothing.
    Unmapped,
    /// To memory of its own with this protection, which has this byte at the offset of an access, if it is known: to
    /// anonymous memory, or to a private page of a file that has its copy.
    Own {
        /// What may be done with it.
        prot: Prot,
        /// The byte.
        byte: Option<u8>,
    },
    /// To a page of a shared file with this protection, which shows the file's bytes of any time.
    Shared {
        /// The file.
        file: u32,
        /// The page of the file.
        page: u64,
        /// What may be done with it.
        prot: Prot,
    },
    /// To a private page of a file with this protection, which has no copy and shows the file's bytes of any time.
    Private {
        /// The file.
        file: u32,
        /// The page of the file.
        page: u64,
        /// What may be done with it.
        prot: Prot,
    },
}

/// What is known of the entry that a call has replaced on a page.
#[derive(Clone, Copy)]
pub(crate) struct Kept {
    /// The call.
    pub call: u32,
    /// The page.
    pub page: u64,
    /// Where in it an access lies that may find the entry.
    pub offset: u64,
    /// The entry.
    pub was: Was,
}

/// An access that may be late to a call, by the numbers of both.
#[derive(Clone, Copy)]
pub(crate) struct Use {
    /// The call.
    pub of: u32,
    /// The access.
    pub by: u32,
}

/// The call of this number, if the history has it.
pub(crate) fn call_at(history: &[Timed], call: u32) -> Option<Timed>
    ensures { result ≡ slice_get history.now call }
{
    history.get(call as usize).copied()
}

/// Tells whether a call that is answered so replaces the entry of a page.
fn replaces(request: Request, reply: Reply, page: u64) -> bool
    ensures { result ≡ replaces request reply page }
{
    match (request, reply) {
        (Request::Mmap { len, .. }, Reply::Mapped(at)) => pages(at, len).contains(page),
        (Request::Munmap { addr, len }, Reply::Done) => pages(addr, len).contains(page),
        (Request::Mprotect { addr, len, .. }, Reply::Done) => pages(addr, len).contains(page),
        _ => false,
    }
}

/// The byte that a load finds, if it does.
fn loaded<M: SlotMap, A: Allocator>(
    auditor: &mut Auditor<M, A>,
    core: CoreId,
    addr: u64,
) -> Result<Option<u8>, NoMemory>
    ensures plain { plain_of auditor.new ≡ plain_of auditor.old }
    ensures any_place { auditor.new.any_place ≡ auditor.old.any_place }
    ensures byte { IfOk result (λ found. IfSome found (λ byte.
        access_reply (plain_of auditor.old) addr By.Load ≡ Some (ReplyOf.Byte byte))) }
{
    // (this reply is asked for since it changes nothing)
    match auditor.judge(core, Request::Load { addr }, Reply::Bus)? {
        ReplyVerdict::Illegal(Reply::Byte(byte)) => Ok(Some(byte)),
        _ => Ok(None),
    }
}

/// The byte that a fetch finds, if it does.
fn fetched<M: SlotMap, A: Allocator>(
    auditor: &mut Auditor<M, A>,
    core: CoreId,
    addr: u64,
) -> Result<Option<u8>, NoMemory>
    ensures plain { plain_of auditor.new ≡ plain_of auditor.old }
    ensures any_place { auditor.new.any_place ≡ auditor.old.any_place }
    ensures byte { IfOk result (λ found. IfSome found (λ byte.
        access_reply (plain_of auditor.old) addr By.Fetch ≡ Some (ReplyOf.Byte byte))) }
{
    match auditor.judge(core, Request::Fetch { addr }, Reply::Bus)? {
        ReplyVerdict::Illegal(Reply::Byte(byte)) => Ok(Some(byte)),
        _ => Ok(None),
    }
}

/// What a page is mapped to that has this and shows a file's bytes; none if it has bytes of its own.
fn shown(info: &PageInfo) -> Option<Was>
    ensures some { (bytes : ℕ → Bytes) (i : ℕ) → IfSome result (IsWas (entry_kept bytes (Some info.now)) i) }
    ensures none { (bytes : ℕ → Bytes) → IfNone result ((own : Bytes)
        × (own_kept bytes info.now.meta.back info.now.frame ≡ Some own)) }
{
    let prot = info.meta.prot;
    match info.meta.back {
        Back::Anon => None,
        Back::Shared { file, page } => Some(Was::Shared { file, page, prot }),
        Back::Private { file, page } => match info.frame {
            Some(_) => None,
            None => Some(Was::Private { file, page, prot }),
        },
    }
}

/// What is known of the entry of the page of an address, if it is a valid one.
fn was_at<M: SlotMap, A: Allocator>(
    auditor: &mut Auditor<M, A>,
    core: CoreId,
    addr: u64,
) -> Result<Option<Was>, NoMemory>
    ensures plain { plain_of auditor.new ≡ plain_of auditor.old }
    ensures any_place { auditor.new.any_place ≡ auditor.old.any_place }
    ensures valid { IfOk result (λ found. IfSome found (λ was. is_page (page_of addr) ≡ true)) }
    ensures was { IfOk result (λ found. IfSome found (IsWas ((plain_of auditor.old).entry (page_of addr)) (offset_of addr))) }
{
    let page = page_of(addr);
    if !is_valid(page) {
        return Ok(None);
    }
    let Some(info) = auditor.map().page(page) else {
        return Ok(Some(Was::Unmapped));
    };
    if let Some(was) = shown(&info) {
        return Ok(Some(was));
    }
    let prot = info.meta.prot;
    let byte = loaded(auditor, core, addr)?;
    if byte.is_some() {
        return Ok(Some(Was::Own { prot, byte }));
    }
    let byte = fetched(auditor, core, addr)?;
    Ok(Some(Was::Own { prot, byte }))
}

/// Tells whether a page is mapped with these rights.
pub(crate) fn has_rights<M: SlotMap, A: Allocator>(
    auditor: &Auditor<M, A>,
    page: u64,
    prot: Prot,
) -> bool
    ensures { result ≡ true → HasRights ((plain_of auditor.now).entry page) prot }
{
    if !is_valid(page) {
        return false;
    }
    match auditor.map().page(page) {
        Some(info) => info.meta.prot == prot,
        None => false,
    }
}

/// The address that a request accesses.
fn address_of(request: Request) -> Option<u64> {
    match request {
        Request::Load { addr } | Request::Store { addr, .. } | Request::Fetch { addr } => {
            Some(addr)
        }
        Request::Mmap { .. } | Request::Munmap { .. } | Request::Mprotect { .. } => None,
    }
}

/// Keeps what an access needs of the entry that a call is about to replace.
fn note_one<M: SlotMap, A: Allocator>(
    auditor: &mut Auditor<M, A>,
    kept: &mut Vec<Kept, A>,
    history: &[Timed],
    call: u32,
    by: u32,
) -> Result<(), NoMemory>
    ensures plain { plain_of auditor.new ≡ plain_of auditor.old }
    ensures any_place { auditor.new.any_place ≡ auditor.old.any_place }
    ensures kept { (old : Olds) → HasReplaced old history.now call (plain_of auditor.old) → AllKept old kept.old.items
        → AllKept old kept.new.items }
{
    let Some(timed) = call_at(history, call) else {
        return Ok(());
    };
    let Some(access) = call_at(history, by) else {
        return Ok(());
    };
    let Some(addr) = address_of(access.call.request) else {
        return Ok(());
    };
    if !replaces(timed.call.request, timed.call.reply, page_of(addr)) {
        return Ok(());
    }
    if let Some(was) = was_at(auditor, access.call.core, addr)? {
        let page = page_of(addr);
        let offset = offset_of(addr);
        kept.push(Kept {
            call,
            page,
            offset,
            was,
        })?;
    }
    Ok(())
}

/// How many uses come before those of a call.
fn first_use(uses: &[Use], call: u32) -> usize {
    let mut low = 0usize;
    let mut high = uses.len();
    for _ in 0..64u8 {
        if low >= high {
            return low;
        }
        let middle = low + (high - low) / 2;
        match uses.get(middle) {
            Some(one) if one.of < call => low = middle + 1,
            _ => high = middle,
        }
    }
    low
}

/// Keeps what accesses need of the entries that a call is about to replace. The uses are sorted.
pub(crate) fn note<M: SlotMap, A: Allocator>(
    auditor: &mut Auditor<M, A>,
    kept: &mut Vec<Kept, A>,
    history: &[Timed],
    uses: &[Use],
    call: u32,
) -> Result<(), NoMemory>
    ensures plain { plain_of auditor.new ≡ plain_of auditor.old }
    ensures any_place { auditor.new.any_place ≡ auditor.old.any_place }
    ensures kept { (old : Olds) → HasReplaced old history.now call (plain_of auditor.old) → AllKept old kept.old.items
        → AllKept old kept.new.items }
{
    'uses: for at in first_use(uses, call)..uses.len() {
        let one = uses[at];
        if one.of != call {
            return Ok(());
        }
        note_one(auditor, kept, history, call, one.by)?;
    }
    Ok(())
}

/// Tells whether something is kept for another call.
fn is_other(kept: &Kept, call: u32) -> bool
    ensures { result ≡ not (kept.now.call == call) }
{
    kept.call != call
}

/// Nothing is kept for a call any more.
pub(crate) fn forget<A: Allocator>(kept: &mut Vec<Kept, A>, call: u32)
    ensures { (old new : Olds) → ((other page : ℕ) → other ≢ call → new other page ≡ old other page)
        → AllKept old kept.old.items → AllKept new kept.new.items }
{
    kept.retain(|one| is_other(one, call));
}
