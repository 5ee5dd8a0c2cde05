//! The copy of a private page that shows its file's page, for a store: no core may go on
//! translating it by the old frame.
ghost use Rattle.std.specs.Prelude.{◌≡◌, Some, true, OnOk, OnErr};
ghost use Rattle.machine_model.specs.Step.{Goes};
ghost use Rattle.core_steps.specs.State.{world};
ghost use Rattle.core_steps.specs.Filling.{MakesCopy};
ghost use Rattle.core_steps.specs.Moving.{IsAt, Tries, WantsMemory};

use crate::engine::Engine;
use machine_log::ledger::Ledger;
use machine_model::answers::page_of_touch;
use machine_model::{Blocker, Outcome, Phase};
use mmu::Hardware;
use slot_lock::{SlotMap, Touch};
use std::alloc::Allocator;
use vm_base::info::recorded_cores;
use vm_base::{CoreId, CoreSet, NoMemory, PageInfo};

impl<M: SlotMap, H: Hardware, A: Allocator, L: Ledger> Engine<M, H, A, L> {
    /// The core drops its own translations of the page, and the other recorded cores are
    /// asked to drop theirs.
    pub fn go_copy_post(&mut self, core: CoreId, touch: Touch, frame: u32) -> Outcome
        requires { IsAt (world M.slots self.old) core (Phase.CopyPost touch frame) }
        ensures { Goes (world M.slots self.old) core (Phase.CopyPost touch frame) result (world M.slots self.new) }
    {
        let shoot = recorded_cores(&self.map.page(touch.page));
        self.cores.shoot(core, shoot, page_of_touch(touch));
        self.go_to(core, Phase::CopyAcks { touch, frame });
        Outcome::Stepped
    }

    /// The page, which has the frame `shown`, gets a copy of it in `frame`, which no core
    /// has used yet. A refusal for memory, which comes only where the log keeps its entries,
    /// changes nothing.
    fn make_copy(
        &mut self,
        core: CoreId,
        touch: Touch,
        frame: u32,
        shown: u32,
        info: PageInfo,
    ) -> Result<(), NoMemory>
        requires at { IsAt (world M.slots self.old) core (Phase.CopyAcks touch frame) }
        requires page { (M.slots self.old.map).info touch.page ≡ Some info }
        requires shown { info.frame ≡ Some shown }
        ensures ok { OnOk result (MakesCopy (world M.slots self.old) core touch frame shown (world M.slots self.new)) }
        ensures err { OnErr result (world M.slots self.new ≡ world M.slots self.old) }
        ensures err_only { OnErr result (L.keeps ≡ true) }
    {
        self.calls.log_detach(core, touch.page)?;
        self.frames.copy(shown, frame);
        self.counts.begin(frame, 1);
        self.counts.dec(core, shown);
        let frame = Some(frame);
        let cores = CoreSet::empty();
        self.map.set_leaf(
            core,
            touch.page,
            PageInfo {
                frame,
                cores,
                ..info
            },
        );
        self.go_to(core, Phase::Install(touch));
        Ok(())
    }

    /// Once no core is awaited, the page gets its copy at once. A refusal for memory,
    /// which comes only then, and only where the log keeps its entries, changes nothing.
    pub fn go_copy_acks(
        &mut self,
        core: CoreId,
        touch: Touch,
        frame: u32,
    ) -> Result<Outcome, NoMemory>
        requires { IsAt (world M.slots self.old) core (Phase.CopyAcks touch frame) }
        ensures { Tries (Goes (world M.slots self.old) core (Phase.CopyAcks touch frame))
            (WantsMemory L.keeps (world M.slots self.old) core (Phase.CopyAcks touch frame))
            (world M.slots self.old) result (world M.slots self.new) }
    {
        if let Some(waiting) = self.cores.awaited(core) {
            return Ok(Outcome::Wait(Blocker::Acks(waiting)));
        }
        let Some(info) = self.map.page(touch.page) else {
            unreachable!()
        };
        let Some(shown) = info.frame else {
            unreachable!()
        };
        self.make_copy(core, touch, frame, shown, info)?;
        Ok(Outcome::Stepped)
    }
}
