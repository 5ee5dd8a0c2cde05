//! A summary watches each step.
ghost use Rattle.watched.specs.Sums.{summed};
ghost use Rattle.watched.specs.Watching.{makes};

use crate::look::look;
use crate::summary::Summary;
use crate::watch::Watch;
use core_steps::Machine;
use machine_log::Ledger;
use machine_model::{Event, Outcome};
use slot_lock::SlotMap;
use std::alloc::Allocator;
use vm_base::NoMemory;

impl Watch for Summary {
    ghost after = { makes summed };

    fn step<M: SlotMap, A: Allocator + Clone, L: Ledger>(
        &mut self,
        machine: &mut Machine<M, A, L>,
        event: Event,
    ) -> Result<Outcome, NoMemory> {
        let core = event.core();
        let before = look(machine, &core);
        let outcome = match machine.step(event) {
            Ok(outcome) => outcome,
            Err(refused) => return Err(refused),
        };
        let after = look(machine, &core);
        self.add(&before, &outcome, &after);
        Ok(outcome)
    }
}
