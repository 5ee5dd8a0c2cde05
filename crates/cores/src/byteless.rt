//! Histories whose bytes are forgotten, so that pages of files are as all others.
ghost use Rattle.std.specs.Prelude.{◌≡◌, IfOk, IfSome};
ghost use Rattle.cores.specs.Byteless.{AreByteless, Fits, FitsAt, byteless, fixed_anon, if_done, mapping_left, served, timed_byteless};

use crate::parts::{is_passed, pages_put};
use audit::Call;
use orders::Timed;
use std::alloc::Allocator;
use vm_base::{Flags, NoMemory, Prot, Reply, Request, pages};

/// Whether an access was served.
fn served(reply: Reply) -> Reply
    ensures { result ≡ served reply }
{
    match reply {
        Reply::Byte(_) => Reply::Byte(0),
        Reply::Done => Reply::Done,
        Reply::Segv(code) => Reply::Segv(code),
        _ => Reply::NoMemory,
    }
}

/// Whether a change was done.
fn if_done(reply: Reply) -> Reply
    ensures { result ≡ if_done reply }
{
    match reply {
        Reply::Done => Reply::Done,
        _ => Reply::NoMemory,
    }
}

/// The flags of a mapping of no file at a fixed place.
fn fixed_anon(flags: Flags) -> Flags
    ensures { result ≡ fixed_anon flags }
{
    Flags {
        private: flags.private,
        shared: flags.shared,
        fixed: true,
        anon: true,
    }
}

/// A mapping of no file where this one was put, if there can be one.
fn mapping_left(addr: u64, len: u64, prot: Prot, flags: Flags, at: u64) -> Option<Request>
    ensures { IfSome result (λ left. (left ≡ mapping_left at len prot flags) × FitsAt addr len prot flags at) }
{
    let left = Request::Mmap {
        addr: at,
        len,
        prot,
        flags: fixed_anon(flags),
        file: 0,
        off: 0,
    };
    if is_passed(left) && pages(at, len) == pages_put(flags.fixed, addr, len, at) {
        return Some(left);
    }
    None
}

/// The call without its bytes, if that can be told.
fn byteless(call: Call) -> Option<Call>
    ensures { IfSome result (λ left. (left ≡ byteless call) × Fits call.request call.reply) }
{
    let (request, reply) = (call.request, call.reply);
    let (request, reply) = match request {
        Request::Load { .. } | Request::Fetch { .. } => (request, served(reply)),
        Request::Store { addr, .. } => (Request::Store { addr, byte: 0 }, served(reply)),
        Request::Munmap { .. } | Request::Mprotect { .. } => (request, if_done(reply)),
        Request::Mmap {
            addr,
            len,
            prot,
            flags,
            ..
        } => match reply {
            Reply::Mapped(at) => (mapping_left(addr, len, prot, flags, at)?, reply),
            _ => (request, Reply::NoMemory),
        },
    };
    Some(Call {
        core: call.core,
        request,
        reply,
    })
}

/// The call at its times.
fn timed_byteless(timed: Timed) -> Option<Timed>
    ensures { IfSome result (λ left. (left ≡ timed_byteless timed) × Fits timed.call.request timed.call.reply) }
{
    let call = byteless(timed.call)?;
    Some(Timed {
        begin: timed.begin,
        end: timed.end,
        call,
    })
}

/// The calls without their bytes, if that can be told of each.
#[tactic(auto, using(crate::proofs::Forgetting::none_so_far))]
pub fn without_bytes<A: Allocator + Clone + Drop>(
    alloc: &A,
    history: &[Timed],
) -> Result<Option<Vec<Timed, A>>, NoMemory>
    ensures { IfOk result (λ found. IfSome found (λ left. AreByteless history.now left.items)) }
{
    let mut left = Vec::new(alloc.clone()?);
    'calls: for at in 0..history.len() {
        match timed_byteless(history[at]) {
            Some(timed) => left.push(timed)?,
            None => return Ok(None),
        }
    }
    Ok(Some(left))
}
