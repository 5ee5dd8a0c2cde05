//! The steps of a change of one page, made at once: where the page is a slot of its own that nobody
//! holds, and no other core may have a translation of it. The page is looked for once and not locked.
ghost use Rattle.std.specs.Prelude.{◌≡◌, ◌+◌, ◌≤◌};
ghost use Rattle.slot_lock.specs.declared.plan.Change.{Change};
ghost use Rattle.slot_lock.specs.declared.plan.Goal.TheVariants as GoalOf;
ghost use Rattle.slot_lock.specs.declared.slot_map.FreePage.{FreePage};
ghost use Rattle.slot_lock.specs.Plan.{range_of};
ghost use Rattle.vm_calls.specs.declared.decision.Decision.TheVariants as DecisionOf;
ghost use Rattle.machine_model.specs.declared.phase.Phase.{Phase};
ghost use Rattle.machine_model.specs.Step.{StepsTo, event_limit};
ghost use Rattle.core_steps.specs.Moving.{IsAt};
ghost use Rattle.core_steps.specs.PageChange.{IsAlone, IsPageChange};
ghost use Rattle.core_steps.specs.State.{world};

use crate::engine::Engine;
use crate::rows::commit::count_page;
use machine_log::ledger::Ledger;
use machine_model::answers::reply_to;
use mmu::Hardware;
use slot_lock::{Change, FreePage, SlotMap};
use std::alloc::Allocator;
use vm_base::{CoreId, CoreSet, Errno, Reply};
use vm_calls::decide_page;

/// The steps of a change that is made: lock, decide, post, acks and unlock.
const MADE: u64 = 5;

/// The steps of one that is refused: lock, decide and unlock.
const REFUSED: u64 = 3;

impl<M: SlotMap, H: Hardware, A: Allocator, L: Ledger> Engine<M, H, A, L> {
    // The steps of a change that is refused.
    fn refuse_at_once(&mut self, core: CoreId, errno: Errno)
        requires { (change : Change) × (page : FreePage)
            × IsPageChange (world M.slots self.old) core change page (DecisionOf.Refuse errno) }
        ensures steps { StepsTo (world M.slots self.old) core 3 (world M.slots self.new) }
        ensures edges { (M.slots self.new.map).edge ≡ (M.slots self.old.map).edge }
    {
        self.reply_at_once(core, Reply::Refused(errno), 2);
    }

    // The steps of a change that is made: these cores are recorded on the page.
    #[inline(always)]
    fn make_at_once(&mut self, core: CoreId, change: Change, page: FreePage, shoot: CoreSet)
        requires change { IsPageChange (world M.slots self.old) core change page
            (DecisionOf.Act (range_of change) shoot) }
        requires alone { IsAlone shoot core }
        ensures steps { StepsTo (world M.slots self.old) core 5 (world M.slots self.new) }
        ensures edges { (M.slots self.new.map).edge ≡ (M.slots self.old.map).edge }
    {
        self.cores.shoot_alone(core, shoot, change.range());
        count_page(&mut self.counts, core, change, page.info);
        self.map.change_free(change);
        self.reply_at_once(core, reply_to(change), 4);
    }

    /// The events of the steps from the lock of a change's page to its unlock, if it has just one page,
    /// which is free to be changed at once, and this many events may be taken. It answers how many they
    /// were: none where the plain steps have to be made.
    pub fn change_at_once(&mut self, core: CoreId, change: Change, cursor: u64, most: u64) -> u64
        requires at { IsAt (world M.slots self.old) core (Phase.Lock (GoalOf.Change change) cursor) }
        requires room { self.old.calls.events + most ≤ event_limit }
        ensures few { result ≤ most }
        ensures steps { StepsTo (world M.slots self.old) core result (world M.slots self.new) }
        ensures edges { (M.slots self.new.map).edge ≡ (M.slots self.old.map).edge }
    {
        let range = change.range();
        if range.end - range.first != 1 || most < MADE {
            return 0;
        }
        let Some(page) = self.map.free_page(range.first) else {
            return 0;
        };
        match decide_page(&self.objects, change, page.info) {
            Err(errno) => {
                self.refuse_at_once(core, errno);
                REFUSED
            }
            Ok(shoot) => {
                if !shoot.without(core).is_empty() {
                    return 0;
                }
                self.make_at_once(core, change, page, shoot);
                MADE
            }
        }
    }
}
