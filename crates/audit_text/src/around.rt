//! The mappings around a page.
ghost use Rattle.std.specs.Prelude.{◌≡◌, ◌^◌, IfOk, OnErr};
ghost use Rattle.slot_lock.specs.MapWalks.{slot_metas};
ghost use Rattle.vm_base.specs.Runs.{NoneIn};
ghost use Rattle.audit_text.specs.Around.{IsAround};
ghost use Rattle.audit_text.specs.Legal.{page_asked};

use slot_lock::{MapLine, SlotMap, next_line};
use std::alloc::Allocator;
use vm_base::{NoMemory, Request, page_of};

/// How many mappings are shown.
const SHOWN: usize = 4;

/// The page of the request's address.
pub(crate) fn page_asked(request: Request) -> u64
    ensures { result ≡ page_asked request }
{
    match request {
        Request::Mmap { addr, .. } => page_of(addr),
        Request::Munmap { addr, .. } => page_of(addr),
        Request::Mprotect { addr, .. } => page_of(addr),
        Request::Load { addr } => page_of(addr),
        Request::Store { addr, .. } => page_of(addr),
        Request::Fetch { addr } => page_of(addr),
    }
}

/// The mappings around a page, in order of their pages: the last one that ends at the page or before, and those
/// after it, four at most. Memory is wanted only where some page is mapped.
pub(crate) fn mappings_around<M: SlotMap, A: Allocator>(
    map: &M,
    alloc: A,
    page: u64,
) -> Result<Vec<MapLine, A>, NoMemory>
    ensures around { IfOk result (λ shown. IsAround (slot_metas (M.slots map.now)) page shown.items) }
    ensures want { OnErr result (¬ NoneIn (slot_metas (M.slots map.now)) 1 (2 ^ 35)) }
{
    let mut shown = Vec::new(alloc);
    let mut from = 1;
    'lines: while shown.len() < SHOWN {
        let Some(line) = next_line(map, from) else {
            return Ok(shown);
        };
        if line.range.end <= page {
            shown.clear();
        }
        shown.push(line)?;
        from = line.range.end;
    }
    Ok(shown)
}
