//! What the replies after a wrong one are judged by.
ghost use Rattle.std.specs.Prelude.{◌≡◌, ◌+◌, ◌≤◌, ◌<◌, ◌^◌, ◌↔◌, IfSome, IsTrue, Ok, OnOk, false, true};
ghost use Rattle.vm_base.specs.Places.{IsFree, IsHint};
ghost use Rattle.vm_base.specs.Plain.{Plain, is_mapped};
ghost use Rattle.vm_base.specs.Pages.{IsPageRange};
ghost use Rattle.vm_calls.specs.Decisions.{entries};
ghost use Rattle.audit.specs.Auditor.{plain_of};
ghost use Rattle.audit_text.specs.Reviewed.{GoesOn, GoesOnBy, IsThere, asked_there, count_asked};
ghost use Rattle.audit_text.specs.Steps.{IsCounted, count_of, heard_of, terms_of};

use crate::hearing::Hearing;
use crate::item::AuditItem;
use audit::{Call, ReplyVerdict};
use slot_lock::SlotMap;
use std::alloc::Allocator;
use vm_base::{Flags, NoMemory, PageRange, Reply, Request, page_count, page_of};

// The request for a mapping at just this address.
fn asked_there(request: Request, at: u64) -> Request
    ensures { result ≡ asked_there request at }
{
    match request {
        Request::Mmap {
            len,
            prot,
            flags,
            file,
            off,
            ..
        } => Request::Mmap {
            addr: at,
            len,
            prot,
            flags: Flags {
                fixed: true,
                ..flags
            },
            file,
            off,
        },
        _ => request,
    }
}

// How many pages a mapping has that may have any place.
fn count_asked(request: Request) -> Option<u64>
    ensures value { result ≡ count_asked request }
    ensures some { IfSome result (λ n. 1 ≤ n) }
    ensures few { IfSome result (λ n. n ≤ 2 ^ 52) }
{
    match request {
        Request::Mmap { len, flags, .. } => {
            let count = page_count(len);
            if flags.fixed || count == 0 {
                return None;
            }
            Some(count)
        }
        _ => None,
    }
}

// Tells whether no page of the range is mapped.
fn is_free<M: SlotMap>(map: &M, range: PageRange) -> bool
    requires { IsPageRange range }
    ensures { IsTrue result ↔ IsFree (is_mapped (entries (M.slots map.now))) range }
{
    map.first_free_run(range, range.end - range.first).is_some()
}

// Tells whether so many pages from this one on are valid and free.
fn is_hint<M: SlotMap>(map: &M, first: u64, count: u64) -> bool
    requires first { first < 2 ^ 52 }
    requires some { 1 ≤ count }
    requires few { count ≤ 2 ^ 52 }
    ensures { IsTrue result ↔ IsHint (is_mapped (entries (M.slots map.now))) first count }
{
    let range = PageRange {
        first,
        end: first + count,
    };
    range.is_valid() && is_free(map, range)
}

// Goes on from where the reply says that the mapping is, if it can be there, and tells whether it does.
fn go_there<M: SlotMap + Drop, A: Allocator + Drop>(
    hearing: &mut Hearing<M, A>,
    call: &Call,
) -> Result<bool, NoMemory>
    ensures yes { result ≡ Ok true → IsThere (terms_of hearing.old) (plain_of hearing.old.auditor) call.now (plain_of hearing.new.auditor) }
    ensures no { result ≡ Ok false → (v : Plain) → ¬ IsThere (terms_of hearing.old) (plain_of hearing.old.auditor) call.now v }
    ensures same { result ≡ Ok false → plain_of hearing.new.auditor ≡ plain_of hearing.old.auditor }
    ensures heard { heard_of hearing.new ≡ heard_of hearing.old }
    ensures counted { IsCounted hearing.old → IsCounted hearing.new }
    ensures few { count_of hearing.new ≡ count_of hearing.old }
    ensures terms { terms_of hearing.new ≡ terms_of hearing.old }
{
    let Reply::Mapped(at) = call.reply else {
        return Ok(false);
    };
    let Some(count) = count_asked(call.request) else {
        return Ok(false);
    };
    if !is_hint(hearing.auditor.map(), page_of(at), count) {
        return Ok(false);
    }
    let request = asked_there(call.request, at);
    match hearing.auditor.judge(call.core, request, call.reply)? {
        ReplyVerdict::Legal => Ok(true),
        ReplyVerdict::Illegal(_) => Ok(false),
    }
}

// Goes on from what was due, if it can be by the terms.
fn go_due<M: SlotMap + Drop, A: Allocator + Drop>(
    hearing: &mut Hearing<M, A>,
    call: &Call,
    due: Reply,
) -> Result<(), NoMemory>
    requires { (v : Plain) → ¬ IsThere (terms_of hearing.old) (plain_of hearing.old.auditor) call.now v }
    ensures goes { OnOk result (GoesOn (terms_of hearing.old) (plain_of hearing.old.auditor) call.now due (plain_of hearing.new.auditor)) }
    ensures heard { heard_of hearing.new ≡ heard_of hearing.old }
    ensures counted { IsCounted hearing.old → IsCounted hearing.new }
    ensures few { count_of hearing.new ≡ count_of hearing.old }
    ensures terms { terms_of hearing.new ≡ terms_of hearing.old }
{
    let _verdict = hearing.auditor.judge(call.core, call.request, due)?;
    Ok(())
}

// Goes on from the map after a wrong reply, for which this was due.
#[tactic(auto, using(crate::proofs::ReviewLemmas::not_there, crate::proofs::ReviewLemmas::goes_so, crate::proofs::ReviewLemmas::goes_there))]
fn go_on<M: SlotMap + Drop, A: Allocator + Drop>(
    hearing: &mut Hearing<M, A>,
    call: &Call,
    due: Reply,
) -> Result<(), NoMemory>
    ensures goes { OnOk result (GoesOn (terms_of hearing.old) (plain_of hearing.old.auditor) call.now due (plain_of hearing.new.auditor)) }
    ensures heard { heard_of hearing.new ≡ heard_of hearing.old }
    ensures counted { IsCounted hearing.old → IsCounted hearing.new }
    ensures few { count_of hearing.new ≡ count_of hearing.old }
    ensures terms { terms_of hearing.new ≡ terms_of hearing.old }
{
    match go_there(hearing, call) {
        Ok(true) => Ok(()),
        Ok(false) => go_due(hearing, call, due),
        Err(refused) => Err(refused),
    }
}

/// Goes on from the map after a wrong reply, for which this was due, or after a copy that may not be.
pub(crate) fn go_on_by<M: SlotMap + Drop, A: Allocator + Drop>(
    hearing: &mut Hearing<M, A>,
    item: &AuditItem,
    due: Option<Reply>,
) -> Result<(), NoMemory>
    ensures goes { OnOk result (GoesOnBy (terms_of hearing.old) (plain_of hearing.old.auditor) item.now due (plain_of hearing.new.auditor)) }
    ensures heard { heard_of hearing.new ≡ heard_of hearing.old }
    ensures counted { IsCounted hearing.old → IsCounted hearing.new }
    ensures few { count_of hearing.new ≡ count_of hearing.old }
    ensures terms { terms_of hearing.new ≡ terms_of hearing.old }
{
    match item {
        AuditItem::Answer(call) => match due {
            Some(due) => go_on(hearing, call, due),
            None => Ok(()),
        },
        AuditItem::Copy(_) => Ok(()),
    }
}
