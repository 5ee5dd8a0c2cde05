//! What a machine tells whoever keeps real page tables by it: what a core is asked to drop, and which frame caches a
//! file's page.
ghost use Rattle.core_steps.specs.Machine.{state};

use crate::machine::Machine;
use machine_log::ledger::Ledger;
use mmu::{Cpu, Hardware, Took};
use slot_lock::SlotMap;
use std::alloc::Allocator;
use vm_base::CoreId;

impl<M: SlotMap, A: Allocator + Clone, L: Ledger> Machine<M, A, L>
where
    Cpu<A>: Hardware,
{
    ghost use Rattle.std.specs.Prelude.{◌≡◌};
    ghost use Rattle.core_steps.specs.Machine.{state, IsLegal};
    ghost use Rattle.core_steps.specs.Telling.{TakesTold};

    /// What `step` does with `Event::Take`: the core acts on the oldest message of its inbox. This says what the
    /// message asked for, and `Idle` where the core did nothing.
    pub fn take(&mut self, core: CoreId) -> Took
        ensures takes { TakesTold (state self.old) core result (state self.new) }
        ensures legal { IsLegal (state self.new) }
    {
        self.engine.take_counted(core)
    }

    /// The frame that caches the file's page, if one does. There may be no such page.
    pub fn cached(&self, file: u32, page: u64) -> Option<u32>
        ensures { result ≡ (state self.now).memory.cached file page }
    {
        self.engine.objects.cached(file, page)
    }
}
