//! The steps of a change of a range, made at once: where nobody holds its slots, none crosses an edge of
//! it, and no other core may have a translation of its pages. Its slots are looked through once, changed
//! once and not locked.
ghost use Rattle.std.specs.Prelude.{◌≡◌, ◌+◌, ◌*◌, ◌≤◌, IfSome};
ghost use Rattle.slot_lock.specs.declared.plan.Change.{Change};
ghost use Rattle.slot_lock.specs.declared.plan.Goal.TheVariants as GoalOf;
ghost use Rattle.slot_lock.specs.Plan.{range_of};
ghost use Rattle.vm_calls.specs.declared.decision.Decision.TheVariants as DecisionOf;
ghost use Rattle.machine_model.specs.declared.phase.Phase.{Phase};
ghost use Rattle.machine_model.specs.Step.{StepsTo, event_limit};
ghost use Rattle.core_steps.specs.Moving.{IsAt};
ghost use Rattle.core_steps.specs.PageChange.{IsAlone};
ghost use Rattle.core_steps.specs.RangeChange.{IsFreeRange, IsRangeChange};
ghost use Rattle.core_steps.specs.State.{world};

use crate::engine::Engine;
use crate::rows::commit::count_surveyed;
use machine_log::ledger::Ledger;
use machine_model::answers::reply_to;
use mmu::Hardware;
use slot_lock::{Change, SlotMap, Survey};
use std::alloc::Allocator;
use vm_base::{CoreId, CoreSet, Errno, Reply};
use vm_calls::decide_surveyed;

impl<M: SlotMap, H: Hardware, A: Allocator, L: Ledger> Engine<M, H, A, L> {
    // The steps of a change that is refused.
    fn refuse_range(&mut self, core: CoreId, change: Change, found: &Survey, errno: Errno)
        requires { IsRangeChange (world M.slots self.old) core change found.now (DecisionOf.Refuse errno) }
        ensures steps { StepsTo (world M.slots self.old) core (2 * found.now.slots + 1) (world M.slots self.new) }
        ensures edges { (M.slots self.new.map).edge ≡ (M.slots self.old.map).edge }
    {
        self.reply_at_once(core, Reply::Refused(errno), found.slots + 1);
        self.calls.events += found.slots - 1;
    }

    // The steps of a change that is made: these cores are recorded on its pages.
    #[inline(always)]
    fn make_range(&mut self, core: CoreId, change: Change, found: &Survey, shoot: CoreSet)
        requires change { IsRangeChange (world M.slots self.old) core change found.now
            (DecisionOf.Act (range_of change) shoot) }
        requires alone { IsAlone shoot core }
        ensures steps { StepsTo (world M.slots self.old) core (2 * found.now.slots + 3) (world M.slots self.new) }
        ensures edges { (M.slots self.new.map).edge ≡ (M.slots self.old.map).edge }
    {
        self.cores.shoot_alone(core, shoot, change.range());
        count_surveyed(&self.map, &mut self.counts, core, change, found);
        self.map.change_unheld(change);
        self.reply_at_once(core, reply_to(change), found.slots + 3);
        self.calls.events += found.slots - 1;
    }

    /// What the slots of a change's range have together, if it can be decided and made at once: nobody
    /// holds them, no core but the call's own is recorded there, and its steps may be taken, which are at
    /// most this many.
    pub fn find_range(&self, core: CoreId, change: Change, cursor: u64, most: u64) -> Option<Survey>
        requires at { IsAt (world M.slots self.now) core (Phase.Lock (GoalOf.Change change) cursor) }
        requires room { self.now.calls.events + most ≤ event_limit }
        ensures few { IfSome result (λ found. 2 * found.slots + 3 ≤ most) }
        ensures free { IfSome result (IsFreeRange (world M.slots self.now) core change) }
    {
        let range = change.range();
        if cursor != range.first {
            return None;
        }
        let found = self.map.survey(core, range)?;
        if most / 2 < found.slots + 2 || !found.cores.without(core).is_empty() {
            return None;
        }
        Some(found)
    }

    /// The steps from the lock of a change's first slot to the unlock of its last. It answers how many
    /// they were.
    pub fn range_at_once(&mut self, core: CoreId, change: Change, found: &Survey) -> u64
        requires { IsFreeRange (world M.slots self.old) core change found.now }
        ensures few { result ≤ 2 * found.now.slots + 3 }
        ensures steps { StepsTo (world M.slots self.old) core result (world M.slots self.new) }
        ensures edges { (M.slots self.new.map).edge ≡ (M.slots self.old.map).edge }
    {
        let known = *found;
        match decide_surveyed(&self.map, &self.objects, change, known) {
            Err(errno) => {
                self.refuse_range(core, change, found, errno);
                2 * found.slots + 1
            }
            Ok(shoot) => {
                self.make_range(core, change, found, shoot);
                2 * found.slots + 3
            }
        }
    }
}
