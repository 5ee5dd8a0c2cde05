//! Accesses that find what a page was mapped to before it was unmapped.
ghost use Rattle.std.specs.Prelude.{◌≡◌, ℕ, IfSome, Ok, OnOk, Some, true};
ghost use Rattle.vm_base.specs.declared.replies.Reply.TheVariants as ReplyOf;
ghost use Rattle.vm_base.specs.declared.requests.Request.TheVariants as RequestOf;
ghost use Rattle.vm_base.specs.declared.rights.Access.TheVariants as By;
ghost use Rattle.vm_base.specs.Pages.{offset_of, page_of};
ghost use Rattle.audit.specs.Auditor.{plain_of};
ghost use Rattle.loose_orders.specs.Kept.{AllKept, FindsDue, IsKept, Olds};
ghost use Rattle.loose_orders.specs.Loose.{page_accessed};
ghost use Rattle.loose_orders.specs.Moved.{GoesBehind};

use crate::keeping::{Kept, Was};
use crate::late::{is_match, store};
use audit::{Auditor, Call};
use slot_lock::SlotMap;
use std::alloc::Allocator;
use vm_base::{Access, NoMemory, Reply, Request, offset_of};

/// Tells whether with what is kept of what a call has replaced an access of this address has this reply.
fn is_match_of<M: SlotMap, A: Allocator>(
    auditor: &Auditor<M, A>,
    one: Kept,
    of: u32,
    addr: u64,
    access: Access,
    reply: Reply,
) -> bool
    ensures call { result ≡ true → one.call ≡ of }
    ensures page { result ≡ true → one.page ≡ page_of addr }
    ensures offset { result ≡ true → one.offset ≡ offset_of addr }
    ensures due { result ≡ true → FindsDue (plain_of auditor.now).file (offset_of addr) one.was access reply }
{
    if one.call != of {
        return false;
    }
    is_match(auditor, one, addr, access, reply)
}

/// What is kept of what a call has replaced with which an access of this address has this reply.
fn matching_of<M: SlotMap, A: Allocator>(
    auditor: &Auditor<M, A>,
    kept: &[Kept],
    of: u32,
    addr: u64,
    access: Access,
    reply: Reply,
) -> Option<Kept>
    ensures kept { (old : Olds) → AllKept old kept.now → IfSome result (IsKept old) }
    ensures call { IfSome result (λ one. one.call ≡ of) }
    ensures page { IfSome result (λ one. one.page ≡ page_of addr) }
    ensures offset { IfSome result (λ one. one.offset ≡ offset_of addr) }
    ensures due { IfSome result (λ one. FindsDue (plain_of auditor.now).file (offset_of addr) one.was access reply) }
{
    'kept: for at in 0..kept.len() {
        let one = kept[at];
        let found = is_match_of(auditor, one, of, addr, access, reply);
        if found {
            return Some(one);
        }
    }
    None
}

/// Tells whether a load of this address finds what a call has unmapped.
fn loads<M: SlotMap, A: Allocator>(
    auditor: &Auditor<M, A>,
    kept: &[Kept],
    of: u32,
    call: Call,
    addr: u64,
) -> bool
    requires { call.request ≡ RequestOf.Load addr }
    ensures { result ≡ true
        → GoesBehind of (page_of addr) (plain_of auditor.now) kept.now (plain_of auditor.now) kept.now call }
{
    match matching_of(auditor, kept, of, addr, Access::Load, call.reply) {
        Some(_one) => true,
        None => false,
    }
}

/// The same of a fetch.
fn fetches<M: SlotMap, A: Allocator>(
    auditor: &Auditor<M, A>,
    kept: &[Kept],
    of: u32,
    call: Call,
    addr: u64,
) -> bool
    requires { call.request ≡ RequestOf.Fetch addr }
    ensures { result ≡ true
        → GoesBehind of (page_of addr) (plain_of auditor.now) kept.now (plain_of auditor.now) kept.now call }
{
    match matching_of(auditor, kept, of, addr, Access::Fetch, call.reply) {
        Some(_one) => true,
        None => false,
    }
}

/// Lets a store be done to what a call has unmapped, with this of what is kept: to the file, as it is now, if the page
/// was a shared file's, and else to what is kept.
fn store_behind<M: SlotMap, A: Allocator>(
    auditor: &mut Auditor<M, A>,
    kept: &mut Vec<Kept, A>,
    one: Kept,
    call: Call,
    addr: u64,
    byte: u8,
) -> Result<(), NoMemory>
    requires request { call.request ≡ RequestOf.Store addr byte }
    requires done { call.reply ≡ ReplyOf.Done }
    requires kept { (old : Olds) → AllKept old kept.old.items → IsKept old one }
    requires page { one.page ≡ page_of addr }
    requires offset { one.offset ≡ offset_of addr }
    requires due { FindsDue (plain_of auditor.old).file (offset_of addr) one.was By.Store ReplyOf.Done }
    ensures ok { OnOk result (GoesBehind one.call (page_of addr) (plain_of auditor.old) kept.old.items
        (plain_of auditor.new) kept.new.items call) }
    ensures any_place { auditor.new.any_place ≡ auditor.old.any_place }
{
    match one.was {
        Was::Unmapped => Ok(()),
        Was::Private { .. } => Ok(()),
        Was::Own { .. } => {
            store(kept, one.call, one.page, one.offset, byte);
            Ok(())
        }
        Was::Shared { file, page, .. } => {
            auditor.store_to_file(file, page, offset_of(addr), byte)?;
            Ok(())
        }
    }
}

/// The same of a store of this byte that is done, if it may be.
fn stores<M: SlotMap, A: Allocator>(
    auditor: &mut Auditor<M, A>,
    kept: &mut Vec<Kept, A>,
    of: u32,
    call: Call,
    addr: u64,
    byte: u8,
) -> Result<bool, NoMemory>
    requires request { call.request ≡ RequestOf.Store addr byte }
    requires done { call.reply ≡ ReplyOf.Done }
    ensures yes { result ≡ Ok true
        → GoesBehind of (page_of addr) (plain_of auditor.old) kept.old.items (plain_of auditor.new)
        kept.new.items call }
    ensures any_place { auditor.new.any_place ≡ auditor.old.any_place }
{
    match matching_of(
        auditor,
        kept.as_slice(),
        of,
        addr,
        Access::Store,
        Reply::Done,
    ) {
        Some(one) => {
            store_behind(auditor, kept, one, call, addr, byte)?;
            Ok(true)
        }
        None => Ok(false),
    }
}

/// Tells whether a reply says that a store was done.
fn is_done(reply: Reply) -> bool
    ensures { result ≡ true → reply ≡ ReplyOf.Done }
{
    matches!(reply, Reply::Done)
}

/// Tells whether an access of this page has its reply with what a call has unmapped there, and lets it.
pub(crate) fn goes_behind<M: SlotMap, A: Allocator>(
    auditor: &mut Auditor<M, A>,
    kept: &mut Vec<Kept, A>,
    of: u32,
    call: Call,
) -> Result<bool, NoMemory>
    ensures yes { (page : ℕ) → result ≡ Ok true → page_accessed call.request ≡ Some page
        → GoesBehind of page (plain_of auditor.old) kept.old.items (plain_of auditor.new) kept.new.items call }
    ensures any_place { auditor.new.any_place ≡ auditor.old.any_place }
{
    match call.request {
        Request::Load { addr } => Ok(loads(auditor, kept.as_slice(), of, call, addr)),
        Request::Fetch { addr } => Ok(fetches(auditor, kept.as_slice(), of, call, addr)),
        Request::Store { addr, byte } => {
            if !is_done(call.reply) {
                return Ok(false);
            }
            let goes = stores(auditor, kept, of, call, addr, byte)?;
            Ok(goes)
        }
        Request::Mmap { .. } | Request::Munmap { .. } | Request::Mprotect { .. } => Ok(false),
    }
}
