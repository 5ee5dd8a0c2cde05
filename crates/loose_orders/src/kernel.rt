//! Whether moves, one after another, lead from one state to another by the kernels' rule.
ghost use Rattle.std.specs.Prelude.{◌≡◌, ◌<◌, ◌*◌, ◌^◌, ℕ, Bool, IfSome, List, Ok, Option, Some, false, slice_get, true};
ghost use Rattle.vm_base.specs.Log.{RepliesBy};
ghost use Rattle.vm_base.specs.Plain.{PageEntry};
ghost use Rattle.vm_base.specs.declared.replies.Reply.TheVariants as ReplyOf;
ghost use Rattle.vm_base.specs.declared.requests.Request.{Request as RequestType};
ghost use Rattle.vm_base.specs.declared.requests.Request.TheVariants as RequestOf;
ghost use Rattle.audit.specs.Auditor.{plain_of};
ghost use Rattle.audit.specs.Placing.{rule_of};
ghost use Rattle.orders.specs.Orders.{CopiesFor};
ghost use Rattle.loose_orders.specs.Kept.{AllKept, HasReplaced, IsKept, IsWas, Olds};
ghost use Rattle.loose_orders.specs.Kernel.{HasRights, IsReady, IsUnseen, LeadAll, MayLag};
ghost use Rattle.loose_orders.specs.Loose.{Loose, begun, page_accessed};
ghost use Rattle.loose_orders.specs.Moved.{ChangesBy, ChangesFront, CopiesOld, GoesBehind, GoesByRights, HadRights, Lags, MovesOn};
ghost use Rattle.loose_orders.specs.declared.moves.Move.{Move as MoveType};
ghost use Rattle.loose_orders.specs.declared.moves.Move.TheVariants as MoveOf;

use crate::behind::goes_behind;
use crate::between::{is_late_to, is_unseen, may_lag, page_accessed};
use crate::keeping::{Kept, Use, Was, call_at, forget, has_rights};
use crate::leading::{copies, is_copied, is_plain, replies};
use crate::moves::Move;
use audit::{Auditor, Call};
use orders::Timed;
use slot_lock::SlotMap;
use std::alloc::Allocator;
use vm_base::page::{PAGE_LIMIT, PAGE_SIZE};
use vm_base::{CoreId, Errno, NoMemory, Prot, Reply, Request, pages};

/// The rights of an entry of which this is known.
fn rights_of(was: Was) -> Option<Prot>
    ensures { (entry : Option PageEntry) (i : ℕ) → IsWas entry i was → IfSome result (λ prot. HasRights entry prot) }
{
    match was {
        Was::Unmapped => None,
        Was::Own { prot, .. } | Was::Shared { prot, .. } | Was::Private { prot, .. } => Some(prot),
    }
}

/// What is kept of what a call has replaced on a page.
fn kept_of(kept: &[Kept], of: u32, page: u64) -> Option<Kept>
    ensures kept { (old : Olds) → AllKept old kept.now → IfSome result (IsKept old) }
    ensures call { IfSome result (λ one. one.call ≡ of) }
    ensures page { IfSome result (λ one. one.page ≡ page) }
{
    'kept: for at in 0..kept.len() {
        let one = kept[at];
        if one.call == of && one.page == page {
            return Some(one);
        }
    }
    None
}

/// The rights that a call has replaced on a page, if they are kept.
fn old_rights(kept: &[Kept], of: u32, page: u64) -> Option<Prot>
    ensures { (old : Olds) → AllKept old kept.now → IfSome result (HadRights old of page) }
{
    match kept_of(kept, of, page) {
        Some(one) => rights_of(one.was),
        None => None,
    }
}

/// Tells whether the plain page map gives this reply to a request, and goes on from there.
fn answers<M: SlotMap, A: Allocator>(
    auditor: &mut Auditor<M, A>,
    core: CoreId,
    request: Request,
    reply: Reply,
) -> Result<bool, NoMemory>
    ensures yes { result ≡ Ok true
        → RepliesBy (rule_of auditor.old.any_place) (plain_of auditor.old) core request reply (plain_of auditor.new) }
    ensures any_place { auditor.new.any_place ≡ auditor.old.any_place }
{
    let call = Call {
        core,
        request,
        reply,
    };
    let goes = is_plain(auditor, call)?;
    Ok(goes)
}

/// Gives a page these rights, if the plain page map does.
fn protect<M: SlotMap, A: Allocator>(
    auditor: &mut Auditor<M, A>,
    core: CoreId,
    page: u64,
    prot: Prot,
) -> Result<bool, NoMemory>
    requires page { page < 2 ^ 52 }
    ensures yes { result ≡ Ok true → RepliesBy (rule_of auditor.old.any_place) (plain_of auditor.old) core
        (RequestOf.Mprotect (page * 4096) 4096 prot) ReplyOf.Done (plain_of auditor.new) }
    ensures any_place { auditor.new.any_place ≡ auditor.old.any_place }
{
    let request = Request::Mprotect {
        addr: page * PAGE_SIZE,
        len: PAGE_SIZE,
        prot,
    };
    let goes = answers(auditor, core, request, Reply::Done)?;
    Ok(goes)
}

/// Tells whether no copy is due before a request, if the page was seen new.
fn is_ready<M: SlotMap, A: Allocator>(
    auditor: &mut Auditor<M, A>,
    request: Request,
    is_unseen: bool,
) -> Result<bool, NoMemory>
    ensures ready { result ≡ Ok true → is_unseen ≡ false → IsReady (plain_of auditor.old) request }
    ensures same { result ≡ Ok true → plain_of auditor.new ≡ plain_of auditor.old }
    ensures any_place { auditor.new.any_place ≡ auditor.old.any_place }
{
    if is_unseen {
        return Ok(true);
    }
    let goes = is_copied(auditor, request)?;
    if goes {
        return Ok(false);
    }
    Ok(true)
}

/// Tells whether an access of this page goes by the rights that a call has replaced there, and lets it: with the copy
/// that is due before it if the page wasn't seen new.
fn lags<M: SlotMap, A: Allocator>(
    auditor: &mut Auditor<M, A>,
    kept: &[Kept],
    of: u32,
    page: u64,
    call: &Call,
    new: Prot,
    is_unseen: bool,
) -> Result<bool, NoMemory>
    requires page { page < 2 ^ 52 }
    ensures yes { result ≡ Ok true
        → Lags (rule_of auditor.old.any_place) of page is_unseen (plain_of auditor.old) kept.now
        (plain_of auditor.new) new call.now }
    ensures any_place { auditor.new.any_place ≡ auditor.old.any_place }
{
    let Some(old) = old_rights(kept, of, page) else {
        return Ok(false);
    };
    if !has_rights(auditor, page, new) {
        return Ok(false);
    }
    let is_old = protect(auditor, call.core, page, old)?;
    if !is_old {
        return Ok(false);
    }
    let ready = is_ready(auditor, call.request, is_unseen)?;
    if !ready {
        return Ok(false);
    }
    let goes = is_plain(auditor, *call)?;
    if !goes {
        return Ok(false);
    }
    let is_new = protect(auditor, call.core, page, new)?;
    Ok(is_new)
}

/// Tells whether the page that a request stores to gets a copy by the rights that a call has replaced there, and makes
/// it.
fn copies_old<M: SlotMap, A: Allocator>(
    auditor: &mut Auditor<M, A>,
    kept: &[Kept],
    of: u32,
    page: u64,
    call: &Call,
    new: Prot,
) -> Result<bool, NoMemory>
    requires page { page < 2 ^ 52 }
    ensures yes { result ≡ Ok true
        → CopiesOld (rule_of auditor.old.any_place) of page (plain_of auditor.old) kept.now
        (plain_of auditor.new) new call.now }
    ensures any_place { auditor.new.any_place ≡ auditor.old.any_place }
{
    let Some(old) = old_rights(kept, of, page) else {
        return Ok(false);
    };
    if !has_rights(auditor, page, new) {
        return Ok(false);
    }
    let is_old = protect(auditor, call.core, page, old)?;
    if !is_old {
        return Ok(false);
    }
    let goes = is_copied(auditor, call.request)?;
    if !goes {
        return Ok(false);
    }
    let is_new = protect(auditor, call.core, page, new)?;
    Ok(is_new)
}

/// The move at a place, if there is one.
fn move_at(moves: &[Move], place: usize) -> Option<Move>
    ensures { result ≡ slice_get moves.now place }
{
    moves.get(place).copied()
}

/// Tells whether an access finds what a call has unmapped on its page, and lets it.
fn finds_gone<M: SlotMap, A: Allocator>(
    auditor: &mut Auditor<M, A>,
    kept: &mut Vec<Kept, A>,
    moving: bool,
    history: &[Timed],
    moves: &[Move],
    place: usize,
    now: usize,
    of: u32,
    page: u64,
    call: &Call,
) -> Result<bool, NoMemory>
    requires page { page_accessed call.now.request ≡ Some page }
    ensures lags { (request : RequestType) → result ≡ Ok true
        → MayLag moving history.now moves.now place now page request call.now }
    ensures goes { result ≡ Ok true
        → GoesBehind of page (plain_of auditor.old) kept.old.items (plain_of auditor.new) kept.new.items call.now }
    ensures any_place { auditor.new.any_place ≡ auditor.old.any_place }
{
    if !may_lag(moving, history, moves, place, now, page, call) {
        return Ok(false);
    }
    let goes = goes_behind(auditor, kept, of, *call)?;
    Ok(goes)
}

/// Tells whether an access of a page may go by old rights there.
fn may_go(
    is_unseen: bool,
    moving: bool,
    history: &[Timed],
    moves: &[Move],
    place: usize,
    now: usize,
    page: u64,
    call: &Call,
) -> bool
    ensures { (request : RequestType) → result ≡ true → is_unseen ≡ false
        → MayLag moving history.now moves.now place now page request call.now }
{
    if is_unseen {
        return true;
    }
    may_lag(moving, history, moves, place, now, page, call)
}

/// Tells whether an access goes by the rights that an `mprotect` has replaced on its page, and lets it.
fn goes_by_rights<M: SlotMap, A: Allocator>(
    auditor: &mut Auditor<M, A>,
    kept: &[Kept],
    moving: bool,
    history: &[Timed],
    moves: &[Move],
    place: usize,
    now: usize,
    of: u32,
    page: u64,
    call: &Call,
    new: Prot,
) -> Result<bool, NoMemory>
    requires page { page < 2 ^ 52 }
    ensures yes { result ≡ Ok true
        → GoesByRights (rule_of auditor.old.any_place) moving history.now moves.now place now of page
        (plain_of auditor.old) kept.now
        (plain_of auditor.new) new call.now }
    ensures any_place { auditor.new.any_place ≡ auditor.old.any_place }
{
    let unseen = is_unseen(history, moves, place, now, page);
    if !may_go(unseen, moving, history, moves, place, now, page, call) {
        return Ok(false);
    }
    let goes = lags(auditor, kept, of, page, call, new, unseen)?;
    Ok(goes)
}

/// Tells whether an access goes by what the change at a place has replaced, and lets it.
fn goes_late<M: SlotMap, A: Allocator>(
    auditor: &mut Auditor<M, A>,
    kept: &mut Vec<Kept, A>,
    moving: bool,
    history: &[Timed],
    moves: &[Move],
    now: usize,
    call: u32,
    place: u32,
) -> Result<bool, NoMemory>
    ensures yes { result ≡ Ok true
        → MovesOn (rule_of auditor.old.any_place) moving history.now moves.now now (plain_of auditor.old) kept.old.items
        (MoveOf.Late call place) (plain_of auditor.new) kept.new.items }
    ensures any_place { auditor.new.any_place ≡ auditor.old.any_place }
{
    let Some(timed) = call_at(history, call) else {
        return Ok(false);
    };
    let Some(page) = page_accessed(timed.call.request) else {
        return Ok(false);
    };
    let place = place as usize;
    let Some(one) = move_at(moves, place) else {
        return Ok(false);
    };
    let of = one.call();
    let Some(change) = call_at(history, of) else {
        return Ok(false);
    };
    if !is_late_to(history, moves, place, now, &change, page) {
        return Ok(false);
    }
    let late = &timed.call;
    match change.call.request {
        Request::Munmap { .. } => {
            let goes = finds_gone(
                auditor, kept, moving, history, moves, place, now, of, page, late,
            )?;
            Ok(goes)
        }
        Request::Mprotect { prot, .. } => {
            let ks = kept.as_slice();
            let goes = goes_by_rights(
                auditor, ks, moving, history, moves, place, now, of, page, late, prot,
            )?;
            Ok(goes)
        }
        _ => Ok(false),
    }
}

/// Tells whether the page that a call stores to gets a copy by the rights that the change at a place has replaced, and
/// makes it.
fn copies_late<M: SlotMap, A: Allocator>(
    auditor: &mut Auditor<M, A>,
    kept: &[Kept],
    history: &[Timed],
    moves: &[Move],
    now: usize,
    call: u32,
    place: u32,
) -> Result<bool, NoMemory>
    ensures yes { (moving : Bool) → result ≡ Ok true
        → MovesOn (rule_of auditor.old.any_place) moving history.now moves.now now (plain_of auditor.old) kept.now
        (MoveOf.LateCopy call place) (plain_of auditor.new) kept.now }
    ensures any_place { auditor.new.any_place ≡ auditor.old.any_place }
{
    let Some(timed) = call_at(history, call) else {
        return Ok(false);
    };
    let Some(page) = page_accessed(timed.call.request) else {
        return Ok(false);
    };
    let place = place as usize;
    let Some(one) = move_at(moves, place) else {
        return Ok(false);
    };
    let of = one.call();
    let Some(change) = call_at(history, of) else {
        return Ok(false);
    };
    if !is_late_to(history, moves, place, now, &change, page) {
        return Ok(false);
    }
    if !is_unseen(history, moves, place, now, page) {
        return Ok(false);
    }
    match change.call.request {
        Request::Mprotect { prot, .. } => {
            let goes = copies_old(auditor, kept, of, page, &timed.call, prot)?;
            Ok(goes)
        }
        _ => Ok(false),
    }
}

/// Tells whether an `mprotect` of this range, which was refused so, may have changed so many of its pages, where the
/// error is that of this one, and changes them.
fn changes_front<M: SlotMap, A: Allocator>(
    auditor: &mut Auditor<M, A>,
    core: CoreId,
    addr: u64,
    len: u64,
    prot: Prot,
    error: Errno,
    count: u64,
    page: u64,
) -> Result<bool, NoMemory>
    ensures yes { result ≡ Ok true
        → ChangesFront (rule_of auditor.old.any_place) (plain_of auditor.old) core addr len prot error count page
        (plain_of auditor.new) }
    ensures any_place { auditor.new.any_place ≡ auditor.old.any_place }
{
    let range = pages(addr, len);
    if !range.is_valid() || !range.contains(page) {
        return Ok(false);
    }
    if count > PAGE_LIMIT || page >= PAGE_LIMIT {
        return Ok(false);
    }
    let one = Request::Mprotect {
        addr: page * PAGE_SIZE,
        len: PAGE_SIZE,
        prot,
    };
    let is_refused = answers(auditor, core, one, Reply::Refused(error))?;
    if !is_refused {
        return Ok(false);
    }
    let front = Request::Mprotect {
        addr,
        len: count * PAGE_SIZE,
        prot,
    };
    let goes = answers(auditor, core, front, Reply::Done)?;
    Ok(goes)
}

/// The same of a call, if it is an `mprotect` that was refused.
fn changes_by<M: SlotMap, A: Allocator>(
    auditor: &mut Auditor<M, A>,
    call: &Call,
    count: u64,
    page: u64,
) -> Result<bool, NoMemory>
    ensures yes { result ≡ Ok true
        → ChangesBy (rule_of auditor.old.any_place) (plain_of auditor.old) call.now count page (plain_of auditor.new) }
    ensures any_place { auditor.new.any_place ≡ auditor.old.any_place }
{
    match (call.request, call.reply) {
        (Request::Mprotect { addr, len, prot }, Reply::Refused(error)) => {
            let core = call.core;
            let goes = changes_front(auditor, core, addr, len, prot, error, count, page)?;
            Ok(goes)
        }
        _ => Ok(false),
    }
}

/// The same of a call of a history.
fn changes_part<M: SlotMap, A: Allocator>(
    auditor: &mut Auditor<M, A>,
    kept: &mut Vec<Kept, A>,
    history: &[Timed],
    call: u32,
    count: u64,
    page: u64,
) -> Result<bool, NoMemory>
    ensures yes { (moving : Bool) (moves : List MoveType) (k : ℕ) → result ≡ Ok true
        → MovesOn (rule_of auditor.old.any_place) moving history.now moves k
        (plain_of auditor.old) kept.old.items (MoveOf.Part call count page) (plain_of auditor.new) kept.new.items }
    ensures any_place { auditor.new.any_place ≡ auditor.old.any_place }
{
    let Some(timed) = call_at(history, call) else {
        return Ok(false);
    };
    forget(kept, call);
    let goes = changes_by(auditor, &timed.call, count, page)?;
    Ok(goes)
}

/// Tells whether the move at a place leads on, and goes there.
fn leads<M: SlotMap, A: Allocator>(
    auditor: &mut Auditor<M, A>,
    kept: &mut Vec<Kept, A>,
    moving: bool,
    history: &[Timed],
    uses: &[Use],
    moves: &[Move],
    now: usize,
    one: Move,
) -> Result<bool, NoMemory>
    ensures yes { result ≡ Ok true
        → MovesOn (rule_of auditor.old.any_place) moving history.now moves.now now (plain_of auditor.old) kept.old.items
        one (plain_of auditor.new) kept.new.items }
    ensures any_place { auditor.new.any_place ≡ auditor.old.any_place }
{
    match one {
        Move::Reply(call) => {
            let goes = replies(auditor, kept, history, uses, call)?;
            Ok(goes)
        }
        Move::Late { call, place } => {
            let goes = goes_late(auditor, kept, moving, history, moves, now, call, place)?;
            Ok(goes)
        }
        Move::Part { call, count, page } => {
            let goes = changes_part(auditor, kept, history, call, count, page)?;
            Ok(goes)
        }
        Move::Copy(call) => {
            let goes = copies(auditor, kept.as_slice(), history, call)?;
            Ok(goes)
        }
        Move::LateCopy { call, place } => {
            let ks = kept.as_slice();
            let goes = copies_late(auditor, ks, history, moves, now, call, place)?;
            Ok(goes)
        }
    }
}

/// Tells whether all moves lead on, one after another, where nothing was replaced before.
pub(crate) fn all_lead<M: SlotMap, A: Allocator>(
    alloc: A,
    auditor: &mut Auditor<M, A>,
    moving: bool,
    history: &[Timed],
    uses: &[Use],
    moves: &[Move],
) -> Result<bool, NoMemory>
    ensures { result ≡ Ok true → (last : Loose)
        × LeadAll (rule_of auditor.old.any_place) moving history.now moves.now 0 (begun
        (plain_of auditor.old)) moves.now last }
{
    let mut kept = Vec::new(alloc);
    'moves: for at in 0..moves.len() {
        let one = moves[at];
        let goes = leads(auditor, &mut kept, moving, history, uses, moves, at, one)?;
        if !goes {
            return Ok(false);
        }
    }
    Ok(true)
}
