//! What a core does beside its call: it acts on a message, and its TLB is filled or drops an entry.
ghost use Rattle.std.specs.Prelude.{◌≡◌};
ghost use Rattle.mmu.specs.Messages.{asked};
ghost use Rattle.machine_model.specs.Translating.{TakesMessage, Walks, Evicts};
ghost use Rattle.core_steps.specs.State.{world};
ghost use Rattle.machine_model.specs.Invariant.{IsWellFormed};
ghost use Rattle.core_steps.specs.Moving.{IsOf};
ghost use Rattle.core_steps.specs.Telling.{taken_outcome, TakesTold};

use crate::engine::Engine;
use machine_log::ledger::Ledger;
use machine_model::Outcome;
use mmu::{Hardware, Took};
use slot_lock::SlotMap;
use std::alloc::Allocator;
use vm_base::{CoreId, is_valid};

impl<M: SlotMap, H: Hardware, A: Allocator, L: Ledger> Engine<M, H, A, L> {
    /// The core acts on its oldest message, and this says what it asked for: its tables are cleared at
    /// the first take, its TLB is invalidated at the second (Intel SDM volume 3A, propagation of
    /// paging-structure changes to multiple processors).
    pub fn act_on_message(&mut self, core: CoreId) -> Took
        requires { IsOf (world M.slots self.old) core }
        ensures asked { result ≡ asked ((world M.slots self.old).hardware.inbox core) }
        ensures acts { TakesMessage (world M.slots self.old) core result (taken_outcome result) (world M.slots self.new) }
    {
        match self.cores.take(core) {
            Took::Clear(range) => {
                self.cores.clear_tables(core, range);
                Took::Clear(range)
            }
            Took::Invalidate(range) => {
                self.cores.invalidate(core, range);
                Took::Invalidate(range)
            }
            Took::Idle => Took::Idle,
        }
    }

    /// The same, with what it comes to as a step.
    pub fn take(&mut self, core: CoreId) -> Outcome
        requires { IsOf (world M.slots self.old) core }
        ensures { TakesMessage (world M.slots self.old) core
            (asked ((world M.slots self.old).hardware.inbox core)) result (world M.slots self.new) }
    {
        match self.act_on_message(core) {
            Took::Clear(_) => Outcome::Stepped,
            Took::Invalidate(_) => Outcome::Stepped,
            Took::Idle => Outcome::Idle,
        }
    }

    /// `Event::Take`, counted as `step` counts it. Where the core acts on a message, this says what it
    /// asked for.
    pub fn take_counted(&mut self, core: CoreId) -> Took
        requires { ∥ IsWellFormed (world M.slots self.old) ∥₁ }
        ensures { TakesTold (world M.slots self.old) core result (world M.slots self.new) }
    {
        if self.calls.events == u64::MAX {
            return Took::Idle;
        }
        self.calls.events += 1;
        if !self.is_here(Some(core)) {
            return Took::Idle;
        }
        self.act_on_message(core)
    }

    /// The core's TLB gets the page's translation from its tables.
    pub fn walk(&mut self, core: CoreId, page: u64) -> Outcome
        requires { IsOf (world M.slots self.old) core }
        ensures { Walks (world M.slots self.old) core page result (world M.slots self.new) }
    {
        if is_valid(page) && self.cores.walk(core, page) {
            return Outcome::Stepped;
        }
        Outcome::Idle
    }

    /// The core's TLB drops its translation of the page.
    pub fn evict(&mut self, core: CoreId, page: u64) -> Outcome
        requires { IsOf (world M.slots self.old) core }
        ensures { Evicts (world M.slots self.old) core page result (world M.slots self.new) }
    {
        if self.cores.evict(core, page) {
            return Outcome::Stepped;
        }
        Outcome::Idle
    }
}
