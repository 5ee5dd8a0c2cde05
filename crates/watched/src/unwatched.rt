//! A machine whose steps nobody watches.
ghost use Rattle.std.specs.Prelude.{◌≡◌};

use crate::watch::Watch;
use core_steps::{Finished, Machine};
use machine_log::Ledger;
use machine_model::{Event, Outcome};
use slot_lock::SlotMap;
use std::alloc::Allocator;
use vm_base::{CoreId, NoMemory, Request};

/// Nobody watches: the machine makes as many steps at once as it can.
#[derive(Clone, Copy)]
pub struct Unwatched;

impl Watch for Unwatched {
    ghost after = { λ one w e o v other. other ≡ one };

    #[inline(always)]
    fn step<M: SlotMap, A: Allocator + Clone, L: Ledger>(
        &mut self,
        machine: &mut Machine<M, A, L>,
        event: Event,
    ) -> Result<Outcome, NoMemory> {
        machine.step(event)
    }

    #[inline(always)]
    fn finish<M: SlotMap, A: Allocator + Clone, L: Ledger>(
        &mut self,
        machine: &mut Machine<M, A, L>,
        core: CoreId,
    ) -> Result<Finished, NoMemory> {
        machine.finish(core)
    }

    #[inline(always)]
    fn call<M: SlotMap, A: Allocator + Clone, L: Ledger>(
        &mut self,
        machine: &mut Machine<M, A, L>,
        core: CoreId,
        request: Request,
    ) -> Result<Finished, NoMemory> {
        machine.call(core, request)
    }
}
