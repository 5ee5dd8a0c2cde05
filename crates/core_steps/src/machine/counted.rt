//! What a machine tells of its counts, by which frames come back (Refcache of the RadixVM paper, EuroSys 2013).
ghost use Rattle.core_steps.specs.Machine.{state};

use crate::machine::Machine;
use machine_log::ledger::Ledger;
use mmu::{Cpu, Hardware};
use refcache::Queued;
use slot_lock::SlotMap;
use std::alloc::Allocator;
use vm_base::{CoreId, CoreSet};

impl<M: SlotMap, A: Allocator + Clone, L: Ledger> Machine<M, A, L>
where
    Cpu<A>: Hardware,
{
    ghost use Rattle.std.specs.Prelude.{◌≡◌, ◌<◌, ◌++◌};
    ghost use Rattle.vm_base.specs.Cores.{members};
    ghost use Rattle.refcache.specs.Counts.{true_count};
    ghost use Rattle.core_steps.specs.Machine.{state};

    /// Whether the frame is free.
    pub fn is_free(&self, frame: u32) -> bool
        requires { frame < (state self.now).made.frames }
        ensures { result ≡ (state self.now).memory.is_free frame }
    {
        self.engine.frames.is_free(frame)
    }

    /// The frame's true count: its global count, and what the cores have yet to add to it.
    pub fn true_count(&self, frame: u32) -> i64
        requires { frame < (state self.now).made.frames }
        ensures { result ≡ true_count (state self.now).memory.counts frame }
    {
        self.engine.counts.true_count(frame)
    }

    /// The frame's global count.
    pub fn global_count(&self, frame: u32) -> i64
        requires { frame < (state self.now).made.frames }
        ensures { result ≡ (state self.now).memory.counts.global frame }
    {
        self.engine.counts.global(frame)
    }

    /// What the core has yet to add to the frame's global count, if it has an entry of it.
    pub fn delta(&self, core: CoreId, frame: u32) -> Option<i64>
        requires { core < (state self.now).made.cores }
        ensures { result ≡ (state self.now).memory.counts.delta core frame }
    {
        self.engine.counts.delta(core, frame)
    }

    /// The frames that the core is to review, the next one first, as two slices, one behind the other.
    pub fn queue(&self, core: CoreId) -> (&[Queued], &[Queued])
        requires { core < (state self.now).made.cores }
        ensures { result.0.now ++ result.1.now ≡ (state self.now).memory.counts.queue core }
    {
        self.engine.counts.queue(core)
    }

    /// Whether the frame's global count left 0 and came back to it since the frame was put into a queue.
    pub fn is_dirty(&self, frame: u32) -> bool
        requires { frame < (state self.now).made.frames }
        ensures { result ≡ (state self.now).memory.counts.dirty frame }
    {
        self.engine.counts.is_dirty(frame)
    }

    /// The cores that have flushed all their counts in the present epoch.
    pub fn flushed(&self) -> CoreSet
        ensures { members result ≡ (state self.now).memory.counts.flushed }
    {
        self.engine.counts.flushed()
    }
}
