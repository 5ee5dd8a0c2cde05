//! A machine may be shared.
ghost use Rattle.std.specs.Prelude.{◌≡◌, ℕ, ◌<◌};
ghost use Rattle.core_steps.specs.Machine.{state};
ghost use Rattle.shared.specs.Calling.{CalmBelow};

use crate::asides::Aside;
use crate::calling::{call_given_up, call_settled};
use crate::whole::{CallEnd, Whole};
use core_steps::Machine;
use machine_log::Ledger;
use machine_model::Outcome;
use slot_lock::SlotMap;
use std::alloc::Allocator;
use vm_base::{CoreId, Request};

impl<M: SlotMap, A: Allocator + Clone, L: Ledger> Whole for Machine<M, A, L> {
    ghost use Rattle.core_steps.specs.Machine.{state as machine_state};

    ghost state = { λ machine. machine_state machine };

    fn core_count(&self) -> usize {
        self.cores()
    }

    fn is_calm(&self) -> bool {
        let count = self.cores();
        'all: for index in 0..count {
            if !self.phase(CoreId::new(index as u8)).is_free() {
                return false;
            }
        }
        true
    }

    #[inline(always)]
    fn call_whole(&mut self, core: CoreId, request: Request) -> CallEnd {
        match self.call(core, request) {
            Ok(finished) => call_settled(self, core, finished),
            Err(_) => call_given_up(self, core),
        }
    }

    fn step_aside(&mut self, core: CoreId, aside: Aside) -> Outcome {
        match self.step(aside.event(core)) {
            Ok(outcome) => outcome,
            Err(_) => unreachable!(),
        }
    }
}
