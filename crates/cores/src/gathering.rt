//! Which calls of a history a core has.
ghost use Rattle.std.specs.Prelude.{◌≡◌, ◌<◌, ◌≤◌, IfOk, IfSome, slice_get, Some, false, true};
ghost use Rattle.cores.specs.Cores.{AreAll, IsKeptAs, IsRole, IsStart, is_left_out};
ghost use Rattle.cores.specs.Effects.{took};
ghost use Rattle.cores.specs.Parts.{IsPart};

use crate::kept::Kept;
use crate::parts::{is_aside, part_of};
use orders::Timed;
use std::alloc::Allocator;
use vm_base::{NoMemory, PageRange, Request, page_of};

/// At most so many calls are kept.
const MOST: usize = 60;

/// At most so many of them are open: each doubles the work.
const OPEN: usize = 6;

/// What becomes of a call.
#[derive(Clone, Copy)]
pub(crate) enum Role {
    /// It is left out.
    Out,
    /// It is kept.
    In(Kept),
    /// There is no such core.
    Unfit,
}

/// The first call of a core, as far as it is one of these pages.
pub(crate) fn start_of(pages: PageRange, first: &Timed) -> Option<Timed>
    ensures { IfSome result (λ start. IsStart pages first.now start) }
{
    let call = part_of(pages, first.call)?;
    Some(Timed {
        begin: first.begin,
        end: first.end,
        call,
    })
}

/// Tells whether a call may be left out.
fn is_left_out(pages: PageRange, first: &Timed, cut: u64, timed: &Timed) -> bool
    ensures { result ≡ is_left_out pages first.now cut timed.now }
{
    timed.end < first.begin || cut < timed.begin || is_aside(pages, timed.call)
}

/// Tells whether a call of this number took effect. One of which nothing is told did.
pub(crate) fn took(effects: &[bool], number: usize) -> bool
    ensures { result ≡ took effects.now number }
{
    match effects.get(number).copied() {
        Some(took) => took,
        None => true,
    }
}

/// Tells whether a call has surely taken effect after the first one and until the cut, if it took effect.
fn is_sure(first: &Timed, cut: u64, took: bool, timed: &Timed) -> bool
    ensures { result ≡ true → (first.now.end < timed.now.begin) × (timed.now.begin ≤ cut) × (timed.now.end ≤ cut) }
{
    if took && first.end < timed.begin && timed.begin <= cut && timed.end <= cut {
        return true;
    }
    false
}

/// What a call does within these pages, at its times, if that can be told.
fn timed_part(pages: PageRange, timed: &Timed) -> Option<Timed>
    ensures begins { IfSome result (λ part. part.begin ≡ timed.now.begin) }
    ensures ends { IfSome result (λ part. part.end ≡ timed.now.end) }
    ensures part { IfSome result (λ part. IsPart pages timed.now.call part.call) }
{
    let call = part_of(pages, timed.call)?;
    Some(Timed {
        begin: timed.begin,
        end: timed.end,
        call,
    })
}

/// It is kept as this, if that can be told, and is open if it hasn't surely taken effect.
fn kept_as(number: usize, part: Option<Timed>, is_sure: bool) -> Role
    ensures { IsKeptAs number part is_sure result }
{
    match part {
        Some(timed) => Role::In(Kept {
            number,
            timed,
            is_open: !is_sure,
        }),
        None => Role::Unfit,
    }
}

/// What becomes of a call of a history, if it may be wanted though it changes nothing, and may not have taken effect.
fn become_of(
    pages: PageRange,
    number: usize,
    first: &Timed,
    cut: u64,
    is_wanted: bool,
    at: usize,
    took: bool,
    timed: &Timed,
) -> Role
    ensures { IsRole pages number first.now cut at timed.now result }
{
    if at == number {
        return Role::Out;
    }
    let is_out = is_left_out(pages, first, cut, timed);
    if is_out && !is_wanted {
        return Role::Out;
    }
    kept_as(
        at,
        timed_part(pages, timed),
        is_sure(first, cut, took, timed),
    )
}

/// The calls of a core: those that have to do with these pages, from the first one on until the cut, and of the others the wanted ones; if
/// there is such a core. Those are open that may not have taken effect.
#[tactic(auto, using(crate::proofs::Gathered::none_so_far))]
pub(crate) fn gather<A: Allocator + Clone + Drop>(
    alloc: &A,
    history: &[Timed],
    effects: &[bool],
    pages: PageRange,
    number: usize,
    first: &Timed,
    cut: u64,
    wanted: &[usize],
) -> Result<Option<Vec<Kept, A>>, NoMemory>
    ensures { IfOk result (λ found. IfSome found (λ kept.
        AreAll history.now pages number first.now cut kept.items)) }
{
    let mut kept = Vec::new(alloc.clone()?);
    let mut open = 0usize;
    'calls: for at in 0..history.len() {
        let is_wanted = wanted.contains(&at);
        let took = took(effects, at);
        match become_of(pages, number, first, cut, is_wanted, at, took, &history[at]) {
            Role::Out => {}
            Role::In(call) => {
                open = open.saturating_add(usize::from(call.is_open));
                if kept.len() >= MOST || open > OPEN {
                    return Ok(None);
                }
                kept.push(call)?;
            }
            Role::Unfit => return Ok(None),
        }
    }
    Ok(Some(kept))
}
