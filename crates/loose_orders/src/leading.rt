//! Whether calls take effect by the map as it is, and pages are copied.
ghost use Rattle.std.specs.Prelude.{◌≡◌, ◌↔◌, IsTrue, Ok, false, true};
ghost use Rattle.vm_base.specs.Log.{RepliesBy};
ghost use Rattle.orders.specs.declared.history.Timed.{Timed};
ghost use Rattle.orders.specs.Orders.{CopiesFor};
ghost use Rattle.audit.specs.Auditor.{plain_of};
ghost use Rattle.audit.specs.Placing.{rule_of};
ghost use Rattle.loose_orders.specs.Moved.{CopiesOn, TakesOn};
ghost use Rattle.loose_orders.specs.Kernel.{IsReady};

use crate::keeping::{Kept, Use, call_at, forget, note};
use audit::{Auditor, Call, ReplyVerdict};
use orders::Timed;
use slot_lock::SlotMap;
use std::alloc::Allocator;
use vm_base::{NoMemory, Reply, Request, page_of};

/// Tells whether a reply says that no memory was there.
fn wants_memory(reply: Reply) -> bool
    ensures { IsTrue result ↔ (reply ≡ Reply.NoMemory) }
{
    matches!(reply, Reply::NoMemory)
}

/// Tells whether a reply says that no frame was free.
fn wants_frame(reply: Reply) -> bool
    ensures { IsTrue result ↔ (reply ≡ Reply.NoFrame) }
{
    matches!(reply, Reply::NoFrame)
}

/// Tells whether a call's reply is the plain page map's, which goes on from there.
pub(crate) fn is_plain<M: SlotMap, A: Allocator>(
    auditor: &mut Auditor<M, A>,
    call: Call,
) -> Result<bool, NoMemory>
    ensures yes { result ≡ Ok true
        → RepliesBy (rule_of auditor.old.any_place) (plain_of auditor.old) call.core call.request
        call.reply (plain_of auditor.new) }
    ensures any_place { auditor.new.any_place ≡ auditor.old.any_place }
{
    if wants_memory(call.reply) {
        return Ok(true);
    }
    if wants_frame(call.reply) {
        return Ok(auditor.would_serve(call.request));
    }
    match auditor.judge(call.core, call.request, call.reply)? {
        ReplyVerdict::Legal => Ok(true),
        ReplyVerdict::Illegal(_) => Ok(false),
    }
}

/// Tells whether the page that the request stores to gets a copy here, and makes it.
pub(crate) fn is_copied<M: SlotMap, A: Allocator>(
    auditor: &mut Auditor<M, A>,
    request: Request,
) -> Result<bool, NoMemory>
    ensures yes { result ≡ Ok true → CopiesFor (plain_of auditor.old) request (plain_of auditor.new) }
    ensures no { result ≡ Ok false → IsReady (plain_of auditor.old) request }
    ensures same { result ≡ Ok false → plain_of auditor.new ≡ plain_of auditor.old }
    ensures any_place { auditor.new.any_place ≡ auditor.old.any_place }
{
    match request {
        Request::Store { addr, .. } => auditor.copy(page_of(addr)),
        Request::Mmap { .. }
        | Request::Munmap { .. }
        | Request::Mprotect { .. }
        | Request::Load { .. }
        | Request::Fetch { .. } => Ok(false),
    }
}

/// Tells whether a call has its reply in the plain page map, and lets it take effect.
pub(crate) fn replies<M: SlotMap, A: Allocator>(
    auditor: &mut Auditor<M, A>,
    kept: &mut Vec<Kept, A>,
    history: &[Timed],
    uses: &[Use],
    call: u32,
) -> Result<bool, NoMemory>
    ensures yes { result ≡ Ok true
        → TakesOn (rule_of auditor.old.any_place) history.now (plain_of auditor.old) kept.old.items
        call (plain_of auditor.new) kept.new.items }
    ensures any_place { auditor.new.any_place ≡ auditor.old.any_place }
{
    let Some(timed) = call_at(history, call) else {
        return Ok(false);
    };
    forget(kept, call);
    note(auditor, kept, history, uses, call)?;
    let goes = is_plain(auditor, timed.call)?;
    Ok(goes)
}

/// Tells whether the page that a call stores to gets a copy here, and makes it.
pub(crate) fn copies<M: SlotMap, A: Allocator>(
    auditor: &mut Auditor<M, A>,
    kept: &[Kept],
    history: &[Timed],
    call: u32,
) -> Result<bool, NoMemory>
    ensures yes { result ≡ Ok true → CopiesOn history.now (plain_of auditor.old) kept.now call (plain_of auditor.new) kept.now }
    ensures any_place { auditor.new.any_place ≡ auditor.old.any_place }
{
    let Some(timed) = call_at(history, call) else {
        return Ok(false);
    };
    let goes = is_copied(auditor, timed.call.request)?;
    Ok(goes)
}
