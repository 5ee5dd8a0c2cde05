//! A call that begins, with the steps that it can make at once. No step looks up anew what the one
//! before it has left.
ghost use Rattle.std.specs.Prelude.{◌≡◌, ◌<◌, true, length};
ghost use Rattle.machine_model.specs.Sound.{IsReached};
ghost use Rattle.core_steps.specs.AtOnce.{CanBegin, Starts, StartsAsMap};
ghost use Rattle.core_steps.specs.State.{world};

use crate::at_once::access::access_of;
use crate::at_once::fault::MOST_STEPS;
use crate::engine::Engine;
use machine_log::ledger::Ledger;
use machine_model::{Event, Outcome, Phase};
use mmu::Hardware;
use slot_lock::SlotMap;
use std::alloc::Allocator;
use vm_base::{CoreId, Request};

/// The most events of a call that are made at once: it begins, its arguments are checked, its page is
/// tried, a fault's steps, and the reply is handed out.
const MOST_EVENTS: u64 = 3 + MOST_STEPS + 1;

/// How far a call has come that was begun.
#[derive(Clone, Copy)]
pub(crate) enum Started {
    /// It began, and this many plain steps of it were made.
    Begun { steps: u64 },
    /// This outcome ended it: its reply, or why it didn't begin.
    Ended(Outcome),
}

impl<M: SlotMap, H: Hardware, A: Allocator, L: Ledger> Engine<M, H, A, L> {
    // Tells whether a call of the core can begin.
    fn can_begin(&self, core: CoreId) -> bool
        requires { core < length self.now.calls.phases.items }
        ensures { result ≡ true → CanBegin (world M.slots self.now) core }
    {
        match self.calls.phases[core.index() as usize] {
            Phase::Free => !self.calls.is_full(),
            _ => false,
        }
    }

    // The call's event alone.
    fn begin(&mut self, core: CoreId, request: Request) -> Started
        requires { ∥ IsReached (world M.slots self.old) ∥₁ }
        ensures starts { Starts (world M.slots self.old) core request result (world M.slots self.new) }
        ensures divides { StartsAsMap M.parts (world M.slots self.old) core request result (world M.slots self.new) }
        ensures reached { ∥ IsReached (world M.slots self.new) ∥₁ }
    {
        let Ok(outcome) = self.step(Event::Call(core, request)) else {
            // only a step of a call takes memory
            return Started::Ended(Outcome::Idle);
        };
        match outcome {
            Outcome::Stepped => Started::Begun { steps: 0 },
            outcome => Started::Ended(outcome),
        }
    }

    /// The events of a call and of its first steps, made at once if it can begin: it begins, and its
    /// arguments are checked. An access tries its page too, and where the page's translation is at hand
    /// the reply is handed out. Steps divide slots as the map does.
    #[inline(always)]
    pub fn start(&mut self, core: CoreId, request: Request) -> Started
        requires { ∥ IsReached (world M.slots self.old) ∥₁ }
        ensures starts { Starts (world M.slots self.old) core request result (world M.slots self.new) }
        ensures divides { StartsAsMap M.parts (world M.slots self.old) core request result (world M.slots self.new) }
        ensures reached { ∥ IsReached (world M.slots self.new) ∥₁ }
    {
        if self.calls.events >= u64::MAX - MOST_EVENTS || !self.is_here(Some(core)) {
            return self.begin(core, request);
        }
        if !self.can_begin(core) {
            return self.begin(core, request);
        }
        if let Some(touch) = access_of(request) {
            return self.access_at_once(core, request, touch);
        }
        self.number_call(core, request);
        self.calls.events += 2;
        let _ = self.go_check(core, request);
        Started::Begun { steps: 1 }
    }
}
