//! The first steps of a call: it gets its number, and its arguments are checked.
//!
//! Invalid pages and an mprotect of length 0 are answered here: nothing is locked. A placed mapping's length stops at
//! 2^35 pages in a plan, so that sums stay in bounds.
ghost use Rattle.std.specs.Prelude.{◌≡◌, ◌<◌, length};
ghost use Rattle.machine_model.specs.Step.{Goes};
ghost use Rattle.machine_model.specs.Orderly.{answer_count};
ghost use Rattle.core_steps.specs.AtOnce.{with_call};
ghost use Rattle.core_steps.specs.State.{world};

use crate::engine::Engine;
use crate::rows::acquire::locking;
use crate::rows::place::placing;
use machine_log::ledger::Ledger;
use machine_model::{Outcome, Phase};
use mmu::Hardware;
use slot_lock::{Goal, Plan, SlotMap};
use std::alloc::Allocator;
use vm_base::{CoreId, Request};
use vm_calls::check;

impl<M: SlotMap, H: Hardware, A: Allocator, L: Ledger> Engine<M, H, A, L> {
    /// The ledger takes the request, and the core's call has its number.
    #[inline(always)]
    pub fn number_call(&mut self, core: CoreId, request: Request)
        requires here { core < length self.old.calls.phases.items }
        requires room { length (L.requests self.old.calls.ledger) < self.old.calls.limit }
        ensures { world M.slots self.new ≡ with_call core request (world M.slots self.old) }
    {
        let number = self.calls.ledger.begin(request);
        self.calls.numbers[core.index() as usize] = number;
    }

    /// The arguments are checked: the call goes on, or has its reply. A mapping without `MAP_FIXED`
    /// begins with its hint, if all pages of it are valid. What the core's phase was isn't read.
    pub fn go_check(&mut self, core: CoreId, request: Request) -> Outcome
        requires here { core < length self.old.calls.phases.items }
        requires room { answer_count (L.entries self.old.calls.ledger) < self.old.calls.limit }
        ensures { Goes (world M.slots self.old) core (Phase.Check request) result (world M.slots self.new) }
    {
        match check(&self.objects, core, request) {
            Ok(Plan::Change(change)) => self.go_to(core, locking(Goal::Change(change))),
            Ok(Plan::Touch(touch)) => self.go_to(core, Phase::Try(touch)),
            Ok(Plan::Place(place)) => self.go_to(core, placing(place)),
            Err(reply) => self.reply(core, None, reply),
        }
        Outcome::Stepped
    }
}
