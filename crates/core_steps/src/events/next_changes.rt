//! What is asked before an event: which pages the next step of a call may change.
ghost use Rattle.std.specs.Prelude.{◌≡◌, IfSome};
ghost use Rattle.slot_lock.specs.Plan.{IsSoundGoal};
ghost use Rattle.machine_model.specs.Holding.{page_of_touch};
ghost use Rattle.machine_model.specs.Invariant.{IsWellFormed};
ghost use Rattle.core_steps.specs.Changing.{changes_in};
ghost use Rattle.core_steps.specs.Moving.{goal_in};
ghost use Rattle.core_steps.specs.State.{world};

use crate::engine::Engine;
use machine_log::ledger::Ledger;
use machine_model::Phase;
use machine_model::answers::page_of_touch;
use mmu::Hardware;
use slot_lock::SlotMap;
use std::alloc::Allocator;
use vm_base::{CoreId, PageRange};

/// The pages that the next step of a call in this phase may change.
fn changes_in(phase: &Phase) -> Option<PageRange>
    requires { IfSome (goal_in phase.now) IsSoundGoal }
    ensures { result ≡ changes_in phase.now }
{
    match phase {
        Phase::Acks { change, .. } => Some(change.range()),
        Phase::Fill { touch, .. } => Some(page_of_touch(*touch)),
        Phase::CopyAcks { touch, .. } => Some(page_of_touch(*touch)),
        Phase::Install(touch) => Some(page_of_touch(*touch)),
        _ => None,
    }
}

impl<M: SlotMap, H: Hardware, A: Allocator, L: Ledger> Engine<M, H, A, L> {
    /// The pages that the next step of the core's call may change, if there is such a core.
    pub fn next_changes(&self, core: CoreId) -> Option<PageRange>
        requires { ∥ IsWellFormed (world M.slots self.now) ∥₁ }
        ensures { result ≡ changes_in ((world M.slots self.now).calls.phase core) }
    {
        if !self.is_here(Some(core)) {
            return None;
        }
        changes_in(self.stands(core))
    }
}
