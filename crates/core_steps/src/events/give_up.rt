//! The event that gives a call up for want of memory, while that may still be.
ghost use Rattle.std.specs.Prelude.{◌≡◌, IfSome};
ghost use Rattle.vm_base.specs.declared.page.PageRange.{PageRange};
ghost use Rattle.slot_lock.specs.Plan.{IsSoundGoal};
ghost use Rattle.machine_model.specs.GivingUp.{GivesUp};
ghost use Rattle.machine_model.specs.Holding.{can_give_up, if_some_page, range_held, taken_in};
ghost use Rattle.core_steps.specs.State.{phase_of, world};
ghost use Rattle.core_steps.specs.Moving.{AwaitsCopy, IsOf, goal_in, is_copy_due};

use crate::engine::Engine;
use crate::rows::filling::give_back;
use machine_log::ledger::Ledger;
use machine_model::answers::page_of_touch;
use machine_model::{Outcome, Phase};
use mmu::Hardware;
use slot_lock::SlotMap;
use std::alloc::Allocator;
use vm_base::{CoreId, PageRange, Reply};

/// Tells whether the call has no reply, and no change for which other cores do something.
fn can_give_up(phase: &Phase) -> bool
    ensures { result ≡ can_give_up phase.now }
{
    !matches!(
        phase,
        Phase::Free | Phase::Acks { .. } | Phase::Unlock { .. } | Phase::Answer(_)
    )
}

/// The frame that the call has taken and that no page has yet.
fn taken_in(phase: &Phase) -> Option<u32>
    ensures { result ≡ taken_in phase.now }
{
    match phase {
        Phase::Fill { frame, .. } => *frame,
        Phase::CopyPost { frame, .. } => Some(*frame),
        Phase::CopyAcks { frame, .. } => Some(*frame),
        _ => None,
    }
}

/// The pages that the call holds.
fn range_held(phase: &Phase) -> Option<PageRange>
    requires { IfSome (goal_in phase.now) IsSoundGoal }
    ensures { result ≡ range_held phase.now }
{
    match phase {
        Phase::Free | Phase::Check(_) | Phase::Guess(_) | Phase::Answer(_) | Phase::Try(_) => None,
        Phase::Lock { goal, cursor } => Some(PageRange {
            first: goal.range().first,
            end: *cursor,
        }),
        Phase::Find { place, target } => Some(target.range(*place)),
        Phase::Back { held, .. } => Some(*held),
        Phase::Cut { place, target, .. } => Some(target.range(*place)),
        Phase::Decide(change) => Some(change.range()),
        Phase::Post { change, .. } => Some(change.range()),
        Phase::Acks { goal, .. } => Some(goal.range()),
        Phase::Unlock { held, .. } => Some(*held),
        Phase::Settle(touch) => Some(page_of_touch(*touch)),
        Phase::Want { touch, .. } => Some(page_of_touch(*touch)),
        Phase::Fill { touch, .. } => Some(page_of_touch(*touch)),
        Phase::CopyPost { touch, .. } => Some(page_of_touch(*touch)),
        Phase::CopyAcks { touch, .. } => Some(page_of_touch(*touch)),
        Phase::Install(touch) => Some(page_of_touch(*touch)),
        Phase::Release(touch) => Some(page_of_touch(*touch)),
    }
}

/// The range, if it has some page.
fn if_some_page(range: Option<PageRange>) -> Option<PageRange>
    ensures { result ≡ if_some_page range }
{
    let range = range?;
    if range.first == range.end {
        None
    } else {
        Some(range)
    }
}

/// Tells whether a copy is due once no other core is awaited.
fn is_copy_due(phase: &Phase) -> bool
    ensures { result ≡ is_copy_due phase.now }
{
    matches!(phase, Phase::CopyAcks { .. })
}

impl<M: SlotMap, H: Hardware, A: Allocator, L: Ledger> Engine<M, H, A, L> {
    /// Tells whether the call waits for other cores before its copy is made.
    fn awaits_copy(&self, core: CoreId, phase: &Phase) -> bool
        ensures { AwaitsCopy (world M.slots self.now).hardware core phase.now result }
    {
        if !is_copy_due(phase) {
            return false;
        }
        match self.cores.awaited(core) {
            Some(_) => true,
            None => false,
        }
    }

    /// The core's call is given up, if it still can be: a frame that no page has yet goes
    /// back, and what is held is unlocked next.
    pub fn give_up(&mut self, core: CoreId) -> Outcome
        requires { IsOf (world M.slots self.old) core }
        ensures { GivesUp (world M.slots self.old) core (phase_of self.old core) result
            (world M.slots self.new) }
    {
        let phase = *self.stands(core);
        if !can_give_up(&phase) {
            return Outcome::Idle;
        }
        if self.awaits_copy(core, &phase) {
            return Outcome::Idle;
        }
        give_back(&mut self.frames, taken_in(&phase));
        let held = if_some_page(range_held(&phase));
        self.reply(core, held, Reply::NoMemory);
        Outcome::Stepped
    }
}
