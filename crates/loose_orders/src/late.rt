//! What an access finds of a replaced entry, and what a store leaves of it.
ghost use Rattle.std.specs.Prelude.{◌≡◌, ◌<◌, ℕ, IfSome, None, Option, Some, false, map, true};
ghost use Rattle.vm_base.specs.declared.info.Back.TheVariants.{Private};
ghost use Rattle.vm_base.specs.Apply.{bytes_reply, needs_copy};
ghost use Rattle.vm_base.specs.Pages.{offset_of, page_of};
ghost use Rattle.vm_base.specs.Plain.{Bytes};
ghost use Rattle.audit.specs.Auditor.{plain_of};
ghost use Rattle.audit.specs.Keeping.{byte_at};
ghost use Rattle.loose_orders.specs.Kept.{FindsDue, kept_stored, was_stored};

use crate::keeping::{Kept, Was};
use audit::Auditor;
use slot_lock::SlotMap;
use std::alloc::Allocator;
use vm_base::{Access, Reply, SegvCode, allows, offset_of, page_of};

/// The reply to an access that is allowed and needs no copy, where the page has this byte, or none.
fn byte_due(byte: Option<u8>, access: Access) -> Reply
    ensures { (bytes : Option Bytes) (i : ℕ) → byte ≡ byte_at bytes i → bytes_reply false bytes access i ≡ Some result }
{
    match byte {
        Some(byte) => match access {
            Access::Store => Reply::Done,
            Access::Load | Access::Fetch => Reply::Byte(byte),
        },
        None => Reply::Bus,
    }
}

/// The same where a store needs a copy first: of such a one nothing is known.
fn uncopied_due(byte: Option<u8>, access: Access) -> Option<Reply>
    ensures { (file page : ℕ) (bytes : Option Bytes) (i : ℕ) → byte ≡ byte_at bytes i
        → IfSome result (λ y. bytes_reply (needs_copy access (Private file page) None) bytes access i ≡ Some y) }
{
    match (byte, access) {
        (Some(_), Access::Store) => None,
        _ => Some(byte_due(byte, access)),
    }
}

/// The reply to an access at this offset that finds this, if it is known. A page that shows a file's bytes has those
/// that the file has now.
fn due<M: SlotMap, A: Allocator>(
    auditor: &Auditor<M, A>,
    was: Was,
    offset: u64,
    access: Access,
) -> Option<Reply>
    requires offset { offset < 4096 }
    ensures { IfSome result (FindsDue (plain_of auditor.now).file offset was access) }
{
    match was {
        Was::Unmapped => Some(Reply::Segv(SegvCode::MapErr)),
        Was::Own { prot, .. } if !allows(prot, access) => Some(Reply::Segv(SegvCode::AccErr)),
        Was::Own { byte, .. } => match access {
            Access::Store => Some(Reply::Done),
            Access::Load | Access::Fetch => match byte {
                Some(byte) => Some(Reply::Byte(byte)),
                None => None,
            },
        },
        Was::Shared { prot, .. } if !allows(prot, access) => Some(Reply::Segv(SegvCode::AccErr)),
        Was::Shared { file, page, .. } => {
            let byte = auditor.file_byte(file, page, offset);
            Some(byte_due(byte, access))
        }
        Was::Private { prot, .. } if !allows(prot, access) => Some(Reply::Segv(SegvCode::AccErr)),
        Was::Private { file, page, .. } => {
            let shown = auditor.file_byte(file, page, offset);
            uncopied_due(shown, access)
        }
    }
}

/// Tells whether an access at this offset that finds this has this reply.
fn fits<M: SlotMap, A: Allocator>(
    auditor: &Auditor<M, A>,
    was: Was,
    offset: u64,
    access: Access,
    reply: Reply,
) -> bool
    requires offset { offset < 4096 }
    ensures { result ≡ true → FindsDue (plain_of auditor.now).file offset was access reply }
{
    match due(auditor, was, offset, access) {
        Some(due) => due == reply,
        None => false,
    }
}

/// Tells whether with what is kept of an entry an access of this address has this reply.
pub(crate) fn is_match<M: SlotMap, A: Allocator>(
    auditor: &Auditor<M, A>,
    one: Kept,
    addr: u64,
    access: Access,
    reply: Reply,
) -> bool
    ensures page { result ≡ true → one.page ≡ page_of addr }
    ensures offset { result ≡ true → one.offset ≡ offset_of addr }
    ensures due { result ≡ true → FindsDue (plain_of auditor.now).file (offset_of addr) one.was access reply }
{
    if one.page != page_of(addr) {
        return false;
    }
    if one.offset != offset_of(addr) {
        return false;
    }
    fits(auditor, one.was, offset_of(addr), access, reply)
}

/// What is known of an entry once a byte was stored there.
fn was_stored(byte: u8, was: Was) -> Was
    ensures { result ≡ was_stored byte was }
{
    match was {
        Was::Own { prot, .. } => Was::Own {
            prot,
            byte: Some(byte),
        },
        Was::Unmapped | Was::Shared { .. } | Was::Private { .. } => was,
    }
}

/// What is kept of an entry once a byte was stored to that which a call has replaced.
fn kept_stored(call: u32, page: u64, offset: u64, byte: u8, one: Kept) -> Kept
    ensures { result ≡ kept_stored call page offset byte one }
{
    if one.call == call && one.page == page && one.offset == offset {
        return Kept {
            was: was_stored(byte, one.was),
            ..one
        };
    }
    one
}

/// The same of all that is kept.
pub(crate) fn store<A: Allocator>(
    kept: &mut Vec<Kept, A>,
    call: u32,
    page: u64,
    offset: u64,
    byte: u8,
)
    ensures { kept.new.items ≡ map (kept_stored call page offset byte) kept.old.items }
{
    'kept: for at in 0..kept.len() {
        let one = kept[at];
        kept[at] = kept_stored(call, page, offset, byte, one);
    }
}
