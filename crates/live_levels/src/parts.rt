//! The 512 slots that are made of one.
ghost use Rattle.std.specs.Prelude.{◌≡◌, ℕ, ◌+◌, ◌-◌, ◌*◌, ◌<◌, ◌≤◌, ◌^◌, false, None, IfOk, length};
ghost use Rattle.vm_base.specs.Info.{info_file_page, info_from, is_leaf};
ghost use Rattle.live_levels.specs.Replay.{after};
ghost use Rattle.live_levels.specs.Parts.{AreParts, AreSideBySide, AreUnused, CanCarry, carried_act};

use crate::act::Act;
use crate::slot::SlotState;
use std::alloc::Allocator;
use vm_base::{CoreId, NoMemory, PageInfo};

/// How many slots a level of the tree has, and into how many a slot is divided.
pub const SLOTS: usize = 512;

/// A slot that is divided: its first page, and what that page has. The owner is the core that is to
/// lock its parts first, and the ticket that of the step which divides it.
#[derive(Clone, Copy)]
pub struct Divided {
    pub first: u64,
    pub content: Option<PageInfo>,
    pub owner: Option<CoreId>,
    pub ticket: u64,
}

/// 512 unmapped slots of this many pages each, side by side, with no history.
pub fn side_by_side<A: Allocator + Clone>(
    alloc: &A,
    first: u64,
    pages: u64,
) -> Result<Vec<SlotState<A>, A>, NoMemory>
    requires some { 1 ≤ pages }
    requires place { first + 512 * pages ≤ 2 ^ 36 }
    ensures { IfOk result (λ v. AreUnused first pages v.items) }
{
    let mut slots = Vec::with_capacity(alloc.clone()?, SLOTS)?;
    'slots: for k in 0..SLOTS {
        let place = first + k as u64 * pages;
        slots.push_reserved(SlotState::new(alloc.clone()?, place, pages));
    }
    Ok(slots)
}

/// Lets each of 512 slots begin with its part of what the divided slot has, by a history of one
/// change. It takes no memory.
pub fn carry_on<A: Allocator>(slots: &mut Vec<SlotState<A>, A>, divided: &Divided, pages: u64)
    requires slots { AreSideBySide divided.now.first pages slots.old.items }
    requires carry { CanCarry divided.now.content pages }
    ensures { AreParts divided.now pages slots.new.items }
{
    'slots: for k in 0..SLOTS {
        let act = carried_act(divided.content, k as u64 * pages);
        slots[k].restart(divided.ticket, act, divided.owner);
    }
}

/// The act by which a slot begins with what another has this many pages further on.
fn carried_act(content: Option<PageInfo>, by: u64) -> Act
    requires fits { info_file_page content + by < 2 ^ 64 }
    ensures act { result ≡ carried_act content by }
    ensures content { is_leaf content ≡ false → after None result ≡ info_from content by }
{
    match content {
        None => Act::Clear,
        Some(info) => Act::Put(info.meta.advanced(by)),
    }
}
