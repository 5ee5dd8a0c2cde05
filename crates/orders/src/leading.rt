//! Whether items, one after another, lead from one plain page map to another.
ghost use Rattle.std.specs.Prelude.{◌≡◌, ◌↔◌, IsTrue, Ok, false, true};
ghost use Rattle.vm_base.specs.Log.{RepliesBy};
ghost use Rattle.vm_base.specs.Plain.{Plain};
ghost use Rattle.audit.specs.Auditor.{plain_of};
ghost use Rattle.audit.specs.Placing.{rule_of};
ghost use Rattle.orders.specs.Orders.{CopiesFor, LeadAll, Leads};

use crate::history::{Item, Timed, call_at};
use audit::{Auditor, Call, ReplyVerdict};
use slot_lock::SlotMap;
use std::alloc::Allocator;
use vm_base::{NoMemory, Reply, Request, page_of};

/// Tells whether a reply says that no memory was there.
fn wants_memory(reply: Reply) -> bool
    ensures { IsTrue result ↔ (reply ≡ Reply.NoMemory) }
{
    matches!(reply, Reply::NoMemory)
}

/// Tells whether a reply says that no frame was free.
fn wants_frame(reply: Reply) -> bool
    ensures { IsTrue result ↔ (reply ≡ Reply.NoFrame) }
{
    matches!(reply, Reply::NoFrame)
}

/// Tells whether a call's reply is the plain page map's, which goes on from there.
fn replies<M: SlotMap, A: Allocator>(
    auditor: &mut Auditor<M, A>,
    call: Call,
) -> Result<bool, NoMemory>
    ensures yes { result ≡ Ok true → RepliesBy (rule_of auditor.old.any_place) (plain_of auditor.old) call.core call.request
        call.reply (plain_of auditor.new) }
    ensures no { result ≡ Ok false → (u : Plain) → ¬ RepliesBy (rule_of auditor.old.any_place) (plain_of auditor.old) call.core
        call.request call.reply u }
    ensures any_place { auditor.new.any_place ≡ auditor.old.any_place }
{
    if wants_memory(call.reply) {
        return Ok(true);
    }
    if wants_frame(call.reply) {
        return Ok(auditor.would_serve(call.request));
    }
    match auditor.judge(call.core, call.request, call.reply)? {
        ReplyVerdict::Legal => Ok(true),
        ReplyVerdict::Illegal(_) => Ok(false),
    }
}

/// Tells whether the page that the request stores to gets a copy here, and makes it.
fn copies<M: SlotMap, A: Allocator>(
    auditor: &mut Auditor<M, A>,
    request: Request,
) -> Result<bool, NoMemory>
    ensures yes { result ≡ Ok true → CopiesFor (plain_of auditor.old) request (plain_of auditor.new) }
    ensures no { result ≡ Ok false → (u : Plain) → ¬ CopiesFor (plain_of auditor.old) request u }
    ensures any_place { auditor.new.any_place ≡ auditor.old.any_place }
{
    match request {
        Request::Store { addr, .. } => auditor.copy(page_of(addr)),
        Request::Mmap { .. }
        | Request::Munmap { .. }
        | Request::Mprotect { .. }
        | Request::Load { .. }
        | Request::Fetch { .. } => Ok(false),
    }
}

/// Tells whether the item leads on from the auditor's plain page map, and goes there.
fn leads<M: SlotMap, A: Allocator>(
    auditor: &mut Auditor<M, A>,
    history: &[Timed],
    item: Item,
) -> Result<bool, NoMemory>
    ensures yes { result ≡ Ok true → Leads (rule_of auditor.old.any_place) history.now (plain_of auditor.old) item (plain_of auditor.new) }
    ensures no { result ≡ Ok false → (u : Plain) → ¬ Leads (rule_of auditor.old.any_place) history.now (plain_of auditor.old) item u }
    ensures any_place { auditor.new.any_place ≡ auditor.old.any_place }
{
    let Some(timed) = call_at(history, item.call()) else {
        return Ok(false);
    };
    match item {
        Item::Reply(_) => replies(auditor, timed.call),
        Item::Copy(_) => copies(auditor, timed.call.request),
    }
}

/// Tells whether all items lead on, one after another, and goes there.
pub fn lead_all<M: SlotMap, A: Allocator>(
    auditor: &mut Auditor<M, A>,
    history: &[Timed],
    items: &[Item],
) -> Result<bool, NoMemory>
    ensures yes { result ≡ Ok true → LeadAll (rule_of auditor.old.any_place) history.now (plain_of auditor.old) items.now (plain_of auditor.new) }
    ensures no { result ≡ Ok false → (u : Plain) → ¬ LeadAll (rule_of auditor.old.any_place) history.now (plain_of auditor.old) items.now u }
{
    'order: for at in 0..items.len() {
        let item = items[at];
        let goes = leads(auditor, history, item)?;
        if !goes {
            return Ok(false);
        }
    }
    Ok(true)
}
