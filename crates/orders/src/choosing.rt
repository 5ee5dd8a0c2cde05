//! Which parts took effect that may not have.
ghost use Rattle.std.specs.Prelude.{◌≡◌, IfOk};
ghost use Rattle.orders.specs.Pages.{AreChosen, IsChosen, lost};

use crate::Timed;
use crate::splitting::Part;
use audit::Call;
use std::alloc::Allocator;
use vm_base::{NoMemory, Reply};

/// The same call, which found no memory, and changed nothing.
pub fn lost(timed: Timed) -> Timed
    ensures { result ≡ lost timed }
{
    Timed {
        begin: timed.begin,
        end: timed.end,
        call: Call {
            core: timed.call.core,
            request: timed.call.request,
            reply: Reply::NoMemory,
        },
    }
}

// A part, as it took effect or was lost. One that is sure took effect.
fn one_chosen(part: &Part, is_lost: bool) -> Timed
    ensures { IsChosen part.now result }
{
    if part.is_sure || !is_lost {
        part.timed
    } else {
        lost(part.timed)
    }
}

// Tells whether a part is among those that are lost.
fn is_lost(losses: &[bool], at: usize) -> bool {
    match losses.get(at) {
        Some(is_lost) => *is_lost,
        None => false,
    }
}

/// The calls of a history by pages, where these of the parts that aren't sure are lost.
pub fn chosen<A: Allocator + Clone + Drop>(
    alloc: &A,
    parts: &[Part],
    losses: &[bool],
) -> Result<Vec<Timed, A>, NoMemory>
    ensures { IfOk result (λ calls. AreChosen parts.now calls.items) }
{
    let mut calls = Vec::with_capacity(alloc.clone()?, parts.len())?;
    'parts: for at in 0..parts.len() {
        let call = one_chosen(&parts[at], is_lost(losses, at));
        calls.push(call)?;
    }
    Ok(calls)
}
