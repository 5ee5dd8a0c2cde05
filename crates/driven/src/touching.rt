//! A touch of a core: its TLB drops the page, and the access is made. It is made at once where what it tells follows from
//! the page before and after it: nothing where the core's tables permit it, and else a new frame at the most.
ghost use Rattle.std.specs.Prelude.{◌≡◌, ◌<◌, ◌≢◌, true, false};
ghost use Rattle.vm_base.specs.Info.{frame_of};
ghost use Rattle.vm_base.specs.Pages.{is_page, page_of};
ghost use Rattle.mmu.specs.declared.entry.Translation.{Translation};
ghost use Rattle.mmu.specs.Entry.{entry_word};
ghost use Rattle.machine_model.specs.declared.phase.Phase.TheVariants.{Free};
ghost use Rattle.core_steps.specs.Machine.{state};
ghost use Rattle.driven.specs.Telling.{CallsTelling, nothing_told};
ghost use Rattle.driven.specs.Served.{IsPermitted, IsAccessAt, HasEntryFor, IsServed, EvictsAndCalls};
ghost use Rattle.driven.specs.Gotten.{may_copy, missing_from, is_from, gotten, IsUncopiedAt};

use crate::telling::{FrameFill, Origin, Told, call_telling, source_at};
use core_steps::{Finished, Machine};
use machine_log::Ledger;
use machine_model::answers::back_of;
use machine_model::{Event, Outcome};
use slot_lock::SlotMap;
use std::alloc::Allocator;
use vm_base::{Back, CoreId, NoMemory, PageInfo, Request, is_valid, page_of};

// Whether an entry that is this word permits what is asked for (Intel SDM volume 3A, 4-level paging, format of a
// page-table entry that maps a 4-KByte page: bit 1, R/W, and bit 63, XD).
fn permits(word: u64, request: Request) -> bool
    ensures { (e : Translation) → entry_word e ≡ word → result ≡ true → IsPermitted e request }
{
    match request {
        Request::Load { .. } => true,
        Request::Store { .. } => word / 2 % 2 == 1,
        Request::Fetch { .. } => word < 1 << 63,
        _ => false,
    }
}

// Whether the core's tables permit it at this page.
fn is_permitted<M: SlotMap, A: Allocator + Clone, L: Ledger>(
    machine: &Machine<M, A, L>,
    core: CoreId,
    page: u64,
    request: Request,
) -> bool
    requires { core < (state machine.now).made.cores }
    ensures valid { result ≡ true → is_page page ≡ true }
    ensures entry { result ≡ true → HasEntryFor (state machine.now) core page request }
{
    if !is_valid(page) {
        return false;
    }
    match machine.entry(core, page) {
        Some(word) => permits(word, request),
        None => false,
    }
}

// The access is made, to its end or until it waits, as `call_telling` makes it. Nothing is told.
fn call_at_once<M: SlotMap, A: Allocator + Clone, L: Ledger>(
    machine: &mut Machine<M, A, L>,
    core: CoreId,
    request: Request,
) -> Result<Outcome, NoMemory>
    requires { IsServed (state machine.old) core request }
    ensures { CallsTelling L.keeps (state machine.old) core request nothing_told result (state machine.new) }
{
    match machine.call(core, request) {
        Ok(Finished::Last(outcome)) => Ok(outcome),
        Ok(Finished::Stuck) => Ok(Outcome::Stepped),
        Err(refused) => Err(refused),
    }
}

// Whether the request may have the frame copied that a page with this has: it stores, and the page is private.
fn may_copy(info: &Option<PageInfo>, request: Request) -> bool
    ensures { result ≡ may_copy info.now request }
{
    let Request::Store { .. } = request else {
        return false;
    };
    let Some(info) = info else {
        return false;
    };
    match info.meta.back {
        Back::Private { .. } => info.frame.is_some(),
        _ => false,
    }
}

// Whether the page is valid, and such a request doesn't have its frame copied.
fn is_uncopied<M: SlotMap, A: Allocator + Clone, L: Ledger>(
    machine: &Machine<M, A, L>,
    page: u64,
    request: Request,
) -> bool
    ensures valid { result ≡ true → is_page page ≡ true }
    ensures kept { result ≡ true → may_copy ((state machine.now).slots.info page) request ≡ false }
{
    if !is_valid(page) {
        return false;
    }
    let info = machine.page(page);
    !may_copy(&info, request)
}

// Where the bytes of a new frame come from, if a page with this has none.
fn missing_from<M: SlotMap, A: Allocator + Clone, L: Ledger>(
    machine: &Machine<M, A, L>,
    info: &Option<PageInfo>,
) -> Option<Origin>
    ensures { result ≡ missing_from (state machine.now) info.now }
{
    match info {
        Some(PageInfo { frame: Some(_), .. }) => None,
        _ => Some(source_at(machine, back_of(info))),
    }
}

// Whether its bytes come from this frame.
fn is_from(from: Origin, frame: u32) -> bool
    ensures { result ≡ is_from from frame }
{
    match from {
        Origin::Frame(other) => other == frame,
        _ => false,
    }
}

// The new frame that the page got, if its frame was missing.
fn gotten<M: SlotMap, A: Allocator + Clone, L: Ledger>(
    machine: &Machine<M, A, L>,
    page: u64,
    missing: Option<Origin>,
) -> Option<FrameFill>
    requires { is_page page ≡ true }
    ensures { result ≡ gotten page missing (frame_of ((state machine.now).slots.info page)) }
{
    let from = missing?;
    let info = machine.page(page)?;
    let frame = info.frame?;
    if is_from(from, frame) {
        return None;
    }
    Some(FrameFill { page, frame, from })
}

// The access is made, to its end or until it waits, as `call_telling` makes it. What it tells follows from what the page
// had, and what it has then.
fn call_uncopied<M: SlotMap, A: Allocator + Clone, L: Ledger>(
    machine: &mut Machine<M, A, L>,
    core: CoreId,
    page: u64,
    request: Request,
    told: &mut Told,
) -> Result<Outcome, NoMemory>
    requires page { is_page page ≡ true }
    requires access { IsUncopiedAt (state machine.old) core page request }
    requires nothing { told.old ≡ nothing_told }
    ensures { CallsTelling L.keeps (state machine.old) core request told.new result (state machine.new) }
{
    let info = machine.page(page);
    let missing = missing_from(machine, &info);
    let ended = machine.call(core, request);
    told.fill = gotten(machine, page, missing);
    match ended {
        Ok(Finished::Last(outcome)) => Ok(outcome),
        Ok(Finished::Stuck) => Ok(Outcome::Stepped),
        Err(refused) => Err(refused),
    }
}

/// The core's TLB drops the page of the address, as at a page fault (Intel SDM volume 3A, operations that invalidate
/// TLBs), and the core's access is made as `call_telling` says.
pub fn touch_telling<M: SlotMap, A: Allocator + Clone, L: Ledger>(
    machine: &mut Machine<M, A, L>,
    core: CoreId,
    at: u64,
    request: Request,
    told: &mut Told,
) -> Result<Outcome, NoMemory>
    requires here { core < (state machine.old).made.cores }
    requires free { (state machine.old).calls.phase core ≡ Free }
    requires access { IsAccessAt at request }
    requires nothing { told.old ≡ nothing_told }
    ensures { EvictsAndCalls L.keeps (state machine.old) at core request told.new result (state machine.new) }
{
    let page = page_of(at);
    let Ok(evicted) = machine.step(Event::Evict(core, page)) else {
        unreachable!()
    };
    if evicted != Outcome::Full && is_permitted(machine, core, page, request) {
        return call_at_once(machine, core, request);
    }
    if is_uncopied(machine, page, request) {
        return call_uncopied(machine, core, page, request, told);
    }
    call_telling(machine, core, request, told)
}
