//! A history, split into the calls of its pages.
ghost use Rattle.std.specs.Prelude.{◌≡◌, ◌++◌, IfOk, OnOk};
ghost use Rattle.orders.specs.Pages.{pages_below, parts_from, parts_of, stays, stretch_of};

use crate::Timed;
use crate::pages::{is_refused, page_call, stretch_of};
use std::alloc::Allocator;
use vm_base::NoMemory;

/// At most so many calls of pages are made. More are told as a want of memory.
pub const MOST: usize = 0x200_0000;

/// A call of a history by pages.
#[derive(Clone, Copy)]
pub struct Part {
    /// The call, with the begin and the end of the one that it is a part of.
    pub timed: Timed,
    /// The place of that one in the history.
    pub of: usize,
    /// Whether it took effect. Else it may have, and may as well have found no memory, and changed nothing.
    pub is_sure: bool,
}

// Tells whether a call is itself a part: it has no pages that change each for itself, or it was refused at a moment of its own.
fn stays(timed: &Timed) -> bool
    ensures { result ≡ stays timed.now.call.reply (stretch_of timed.now.call) }
{
    let stretch = stretch_of(timed.call);
    stretch.count == 0 || is_refused(timed.call.reply)
}

// Appends the calls of the pages of a call.
fn push_pages<A: Allocator>(
    parts: &mut Vec<Part, A>,
    of: usize,
    timed: &Timed,
) -> Result<(), NoMemory>
    ensures { OnOk result (parts.new.items ≡ parts.old.items ++ pages_below of timed.now (stretch_of timed.now.call).count) }
{
    let stretch = stretch_of(timed.call);
    let is_sure = !is_refused(timed.call.reply);
    'pages: for page in 0..stretch.count {
        if parts.len() >= MOST {
            return Err(NoMemory);
        }
        let call = page_call(timed.call, stretch.start, page);
        parts.push(Part {
            timed: Timed {
                begin: timed.begin,
                end: timed.end,
                call,
            },
            of,
            is_sure,
        })?;
    }
    Ok(())
}

// Appends the parts of a call.
#[tactic(auto, using(crate::proofs::PartLemmas::behind_itself, crate::proofs::PartLemmas::pages_alone))]
fn push_parts<A: Allocator>(
    parts: &mut Vec<Part, A>,
    of: usize,
    timed: &Timed,
) -> Result<(), NoMemory>
    ensures { OnOk result (parts.new.items ≡ parts.old.items ++ parts_of of timed.now) }
{
    if stays(timed) {
        parts.push(Part {
            timed: *timed,
            of,
            is_sure: true,
        })?;
    }
    push_pages(parts, of, timed)
}

/// The parts of the calls of a history, in their order: each call on a range is replaced by one call for each of its pages. `Err` says that
/// memory was wanting, or that there are more than `MOST`.
pub fn split<A: Allocator + Clone + Drop>(
    alloc: &A,
    history: &[Timed],
) -> Result<Vec<Part, A>, NoMemory>
    ensures { IfOk result (λ parts. parts.items ≡ parts_from 0 history.now) }
{
    let mut parts = Vec::with_capacity(alloc.clone()?, history.len())?;
    'calls: for at in 0..history.len() {
        push_parts(&mut parts, at, &history[at])?;
    }
    Ok(parts)
}
