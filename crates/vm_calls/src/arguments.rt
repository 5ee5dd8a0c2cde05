//! The check of a request's arguments: it is refused at once, or becomes the plan of its call.
ghost use Rattle.std.specs.Prelude.{◌≡◌, ◌≤◌, ◌^◌, IfOk, IfErr, false, true, is_some};
ghost use Rattle.vm_base.specs.Pages.{page_of};
ghost use Rattle.vm_base.specs.Plain.{Plain, mode_of};
ghost use Rattle.vm_base.specs.Refusals.{refusal};
ghost use Rattle.vm_base.specs.Apply.{Applies, back_at};
ghost use Rattle.vm_base.specs.Places.{IsPlace};
ghost use Rattle.slot_lock.specs.Plan.{IsSoundPlan};
ghost use Rattle.frames.specs.Files.{files_of};
ghost use Rattle.vm_calls.specs.Checks.{checked, HasModes, placed_count, hint_at, place_of, touched};

use frames::Objects;
use slot_lock::{Change, Place, Plan, Touch};
use std::alloc::Allocator;
use vm_base::page::PAGE_LIMIT;
use vm_base::{
    Access, Back, CoreId, Flags, Meta, PageRange, Prot, Reply, Request, SegvCode, is_valid,
    offset_of, page_count, page_of, pages, refusal, window,
};

/// The answer of the first test of the arguments that holds.
fn refused<A: Allocator>(objects: &Objects<A>, request: Request) -> Option<Reply>
    ensures { result ≡ refusal (λ file. mode_of (files_of objects.now file)) request }
{
    match request {
        Request::Mmap { file, .. } => refusal(objects.mode(file), request),
        _ => refusal(None, request),
    }
}

/// What backs the first page of a mapping. If the mapping isn't anonymous its file is there.
fn back_at<A: Allocator>(objects: &Objects<A>, flags: Flags, file: u64, off: u64) -> Back
    requires { flags.anon ≡ false → is_some (mode_of (files_of objects.now file)) ≡ true }
    ensures { result ≡ back_at flags file off }
{
    if flags.anon || objects.mode(file).is_none() {
        return Back::Anon;
    }
    flags.back(file, off)
}

/// How many pages have to be placed for this many bytes. As many as `PAGE_LIMIT` are more than there are,
/// and find no place.
fn placed_count(len: u64) -> u64
    ensures { result ≡ placed_count len }
{
    page_count(len).min(PAGE_LIMIT)
}

/// The pages of a hint, if all are valid.
fn hint_at(addr: u64, count: u64) -> Option<PageRange>
    requires { count ≤ 2 ^ 35 }
    ensures { result ≡ hint_at (page_of addr) count }
{
    let first = page_of(addr);
    let hint = PageRange {
        first,
        end: first + count,
    };
    if hint.is_valid() { Some(hint) } else { None }
}

/// A mapping whose place is still to be found.
fn place_of(core: CoreId, addr: u64, len: u64, meta: Meta) -> Place
    ensures { result ≡ place_of core addr len meta }
{
    let count = placed_count(len);
    Place {
        hint: hint_at(addr, count),
        window: window(core),
        count,
        meta,
    }
}

/// An access of the byte at an address, if its page is a valid one; on any other nothing is mapped.
fn touched(addr: u64, access: Access, byte: u8) -> Result<Plan, Reply>
    ensures { result ≡ touched addr access byte }
{
    let touch = Touch {
        page: page_of(addr),
        offset: offset_of(addr),
        access,
        byte,
    };
    if is_valid(touch.page) {
        Ok(Plan::Touch(touch))
    } else {
        Err(Reply::Segv(SegvCode::MapErr))
    }
}

/// What a request of the core is to do, or its reply, if its arguments alone decide that: the
/// answer of the first test that refuses them (POSIX.1-2017, mmap, munmap and mprotect, ERRORS; the
/// order of the tests is this project's), `Done` for an `mprotect` of length 0, and `Segv(MapErr)`
/// for an access to an invalid page. Any request may be asked for; sums of addresses and lengths
/// don't wrap.
#[inline(always)]
pub fn check<A: Allocator>(
    objects: &Objects<A>,
    core: CoreId,
    request: Request,
) -> Result<Plan, Reply>
    ensures value { result ≡ checked (λ file. mode_of (files_of objects.now file)) core request }
    ensures sound { IfOk result (λ plan. IsSoundPlan plan) }
    ensures plain { IfErr result (λ reply. (t : Plain) → HasModes t (files_of objects.now)
        → Applies IsPlace t core request reply t) }
{
    if let Some(reply) = refused(objects, request) {
        return Err(reply);
    }
    match request {
        Request::Mmap {
            addr,
            len,
            prot,
            flags,
            file,
            off,
        } => {
            let back = back_at(objects, flags, file, off);
            let meta = Meta { back, prot };
            if flags.fixed {
                let range = pages(addr, len);
                Ok(Plan::Change(Change::Put { range, meta }))
            } else {
                Ok(Plan::Place(place_of(core, addr, len, meta)))
            }
        }
        Request::Munmap { addr, len } => Ok(Plan::Change(Change::Clear {
            range: pages(addr, len),
        })),
        Request::Mprotect { addr, len, prot } => Ok(Plan::Change(Change::Protect {
            range: pages(addr, len),
            prot,
        })),
        Request::Load { addr } => touched(addr, Access::Load, 0),
        Request::Store { addr, byte } => touched(addr, Access::Store, byte),
        Request::Fetch { addr } => touched(addr, Access::Fetch, 0),
    }
}
