//! The events by which frames come back, a flush and a review, and the one by which slots are joined.
ghost use Rattle.std.specs.Prelude.{◌≡◌, true, false};
ghost use Rattle.machine_model.specs.Counting.{FlushesOnce, ReviewsOnce};
ghost use Rattle.machine_model.specs.Locks.{FoldsAt};
ghost use Rattle.core_steps.specs.State.{world};
ghost use Rattle.core_steps.specs.Moving.{IsOf, FoldsExactly};

use crate::engine::Engine;
use machine_log::ledger::Ledger;
use machine_model::Outcome;
use mmu::Hardware;
use refcache::{Flush, Review};
use slot_lock::SlotMap;
use std::alloc::Allocator;
use vm_base::{CoreId, is_valid};

impl<M: SlotMap, H: Hardware, A: Allocator, L: Ledger> Engine<M, H, A, L> {
    /// The core flushes one of its counts, or ends its part of the epoch (Refcache of the
    /// RadixVM paper, EuroSys 2013).
    pub fn flush(&mut self, core: CoreId) -> Outcome
        requires { IsOf (world M.slots self.old) core }
        ensures { FlushesOnce (world M.slots self.old) core result (world M.slots self.new) }
    {
        match self.counts.flush(core) {
            Flush::Idle => Outcome::Idle,
            Flush::Evicted(_) | Flush::Flushed | Flush::EpochEnded => Outcome::Stepped,
        }
    }

    /// The core reviews the frame at the front of its queue. If no page has it any more,
    /// it may be taken again.
    pub fn review(&mut self, core: CoreId) -> Outcome
        requires { IsOf (world M.slots self.old) core }
        ensures { ReviewsOnce (world M.slots self.old) core result (world M.slots self.new) }
    {
        match self.counts.review(core) {
            Review::Idle => Outcome::Idle,
            Review::Dropped(_) | Review::Requeued(_) => Outcome::Stepped,
            Review::Freed(frame) => {
                self.frames.give(frame);
                Outcome::Stepped
            }
        }
    }

    /// Slots are joined at the page, where the map can.
    pub fn fold(&mut self, page: u64) -> Outcome
        ensures row { FoldsAt (world M.slots self.old) page result (world M.slots self.new) }
        ensures exact { FoldsExactly M.can_fold M.folds (M.slots self.old.map) page result
            (M.slots self.new.map) }
    {
        if is_valid(page) && self.map.fold(page) {
            return Outcome::Stepped;
        }
        Outcome::Idle
    }
}
