//! A fault of an access whose page is held: what the page's slot says is read, a frame is
//! taken, the page's translation is installed, and the core is recorded. `filling` and
//! `copy` say how the page gets the frame.
ghost use Rattle.std.specs.Prelude.{◌≡◌, ℕ, ◌+◌, ◌<◌, ◌⊎◌, true, false, None, Some, length};
ghost use Rattle.std.specs.Prelude.{IfNone, IfSome, OnErr, OnOk};
ghost use Rattle.vm_base.specs.Pages.{IsPage};
ghost use Rattle.mmu.specs.Entry.{has_right, translation_of};
ghost use Rattle.mmu.specs.Tables.{IsEmptyBeside};
ghost use Rattle.slot_lock.specs.Slots.{HasMeta, IsSlot};
ghost use Rattle.frames.specs.Parts.{free_frames};
ghost use Rattle.machine_model.specs.Accesses.{TakesThisFrame, after_finding, found_at, taken_for};
ghost use Rattle.machine_model.specs.Files.{prot_installed};
ghost use Rattle.machine_model.specs.Step.{Goes};
ghost use Rattle.machine_model.specs.World.{World};
ghost use Rattle.core_steps.specs.State.{phase_of, world};
ghost use Rattle.core_steps.specs.Moving.{IsAt, IsOf, Tries, WantsMemory};
ghost use Rattle.core_steps.specs.OnePage.{after_settling, with_entry_of, with_translation};

use crate::engine::Engine;
use crate::rows::file_pages::{file_frame, prot_installed};
use machine_log::ledger::Ledger;
use machine_model::answers::{back_of, is_past_end, page_of_touch};
use machine_model::{Outcome, Phase};
use mmu::Hardware;
use slot_lock::{SlotMap, Touch};
use std::alloc::Allocator;
use vm_base::{CoreId, NoMemory, PageInfo, Prot, Reply, SegvCode};
use vm_calls::{Settled, settle};

/// Where the call goes on that has taken this frame: the page gets it, or a copy in it of
/// the frame that the page has.
fn taken_for(touch: Touch, old: Option<u32>, frame: u32) -> Phase
    ensures { result ≡ taken_for touch old frame }
{
    match old {
        Some(_) => Phase::CopyPost { touch, frame },
        None => {
            let frame = Some(frame);
            Phase::Fill { touch, frame }
        }
    }
}

/// Where the access goes on by what it found at its page, which has a frame or wants one, or what it
/// is answered.
#[inline(always)]
pub fn settled_to(touch: Touch, settled: Settled) -> Result<Phase, Reply>
    ensures { (core : ℕ) (w : World) → after_finding core touch settled w ≡ after_settling core touch result w }
{
    match settled {
        Settled::MapErr => Err(Reply::Segv(SegvCode::MapErr)),
        Settled::AccErr => Err(Reply::Segv(SegvCode::AccErr)),
        Settled::Bus => Err(Reply::Bus),
        Settled::Has(_) => Ok(Phase::Install(touch)),
        Settled::Copies(frame) => {
            let old = Some(frame);
            Ok(Phase::Want { touch, old })
        }
        Settled::Cached(_) => Ok(Phase::Fill { touch, frame: None }),
        Settled::Wants => Ok(Phase::Want { touch, old: None }),
    }
}

impl<M: SlotMap, H: Hardware, A: Allocator, L: Ledger> Engine<M, H, A, L> {
    /// What the access finds at its page, which has this.
    pub fn find(&self, touch: Touch, info: &Option<PageInfo>) -> Settled
        requires { info.now ≡ (M.slots self.now.map).info touch.page }
        ensures { result ≡ found_at (world M.slots self.now) touch }
    {
        let past_end = is_past_end(&self.objects, info);
        let cached = file_frame(&self.objects, back_of(info));
        settle(*info, touch.access, past_end, cached)
    }

    /// What the page's slot says is read: no mapping, a protection that forbids the access,
    /// a page past its file's end, a frame that is there, or one that is still to be taken.
    pub fn go_settle(&mut self, core: CoreId, touch: Touch) -> Outcome
        requires { IsAt (world M.slots self.old) core (Phase.Settle touch) }
        ensures { Goes (world M.slots self.old) core (Phase.Settle touch) result (world M.slots self.new) }
    {
        let info = self.map.page(touch.page);
        match settled_to(touch, self.find(touch, &info)) {
            Ok(phase) => self.go_to(core, phase),
            Err(reply) => self.reply(core, Some(page_of_touch(touch)), reply),
        }
        Outcome::Stepped
    }

    /// The least free frame is taken, if one is free.
    pub fn go_want(&mut self, core: CoreId, touch: Touch, old: Option<u32>) -> Outcome
        requires { IsAt (world M.slots self.old) core (Phase.Want touch old) }
        ensures { Goes (world M.slots self.old) core (Phase.Want touch old) result (world M.slots self.new) }
    {
        match self.frames.least_free() {
            None => self.reply(core, Some(page_of_touch(touch)), Reply::NoFrame),
            Some(frame) => {
                self.frames.take(frame);
                self.go_to(core, taken_for(touch, old, frame));
            }
        }
        Outcome::Stepped
    }

    /// The frame of this number, if it is free.
    fn free_frame(&self, frame: u64) -> Option<u32>
        requires { (f : ℕ) → free_frames self.now.frames f ≡ true → f < self.now.frames.count }
        ensures none { IfNone result (free_frames self.now.frames frame ≡ false) }
        ensures some { IfSome result (λ f. (f ≡ frame) × (free_frames self.now.frames f ≡ true)) }
    {
        if frame >= u64::from(self.frames.count()) {
            return None;
        }
        let frame = frame as u32;
        if self.frames.is_free(frame) {
            Some(frame)
        } else {
            None
        }
    }

    /// The core's call takes this frame, if it wants one and the frame is free.
    pub fn take_frame(&mut self, core: CoreId, frame: u64) -> Outcome
        requires { IsOf (world M.slots self.old) core }
        ensures { TakesThisFrame (world M.slots self.old) core (phase_of self.old core) frame result
            (world M.slots self.new) }
    {
        match self.calls.phases[core.index() as usize] {
            Phase::Want { touch, old } => {
                let Some(frame) = self.free_frame(frame) else {
                    return Outcome::Idle;
                };
                self.frames.take(frame);
                self.go_to(core, taken_for(touch, old, frame));
                Outcome::Stepped
            }
            _ => Outcome::Idle,
        }
    }

    /// The core's tables get an entry of the page, with this frame and protection, and the page has this
    /// from here on, with the core recorded. The core holds the page, or nobody. A refusal for memory
    /// changes nothing. The core's phase isn't written.
    #[inline(always)]
    pub fn show_with(
        &mut self,
        core: CoreId,
        page: u64,
        info: PageInfo,
        frame: u32,
        prot: Prot,
    ) -> Result<(), NoMemory>
        requires here { core < length self.old.calls.phases.items }
        requires page { IsPage page }
        requires held { ((M.slots self.old.map).owner page ≡ Some core)
            ⊎ ((M.slots self.old.map).owner page ≡ None) }
        requires alone { IsSlot (M.slots self.old.map) page (page + 1) }
        requires meta { HasMeta ((M.slots self.old.map).info page) info.meta }
        requires right { has_right prot ≡ true }
        ensures ok { OnOk result (world M.slots self.new
            ≡ with_entry_of core page info (Some (translation_of frame prot)) (world M.slots self.old)) }
        ensures err { OnErr result (world M.slots self.new ≡ world M.slots self.old) }
        ensures err_last { OnErr result (IsEmptyBeside ((world M.slots self.old).hardware.table core) page) }
        ensures calls { self.new.calls ≡ self.old.calls }
    {
        self.cores.install(core, page, frame, prot)?;
        let cores = info.cores.with(core);
        self.map.set_leaf(core, page, PageInfo { cores, ..info });
        Ok(())
    }

    /// The core's tables get the entry of the page, which has this from here on, with the core recorded.
    /// The core holds the page, or nobody. A refusal for memory changes nothing. The core's phase isn't
    /// written.
    #[inline(always)]
    pub fn show_page(
        &mut self,
        core: CoreId,
        page: u64,
        info: PageInfo,
        frame: u32,
    ) -> Result<(), NoMemory>
        requires here { core < length self.old.calls.phases.items }
        requires page { IsPage page }
        requires held { ((M.slots self.old.map).owner page ≡ Some core)
            ⊎ ((M.slots self.old.map).owner page ≡ None) }
        requires alone { IsSlot (M.slots self.old.map) page (page + 1) }
        requires meta { HasMeta ((M.slots self.old.map).info page) info.meta }
        requires frame { info.frame ≡ Some frame }
        requires right { has_right (prot_installed (world M.slots self.old).memory.cached info) ≡ true }
        ensures ok { OnOk result (world M.slots self.new ≡ with_translation core page info (world M.slots self.old)) }
        ensures err { OnErr result (world M.slots self.new ≡ world M.slots self.old) }
        ensures err_last { OnErr result (IsEmptyBeside ((world M.slots self.old).hardware.table core) page) }
    {
        let prot = prot_installed(&self.objects, &info);
        self.show_with(core, page, info, frame, prot)?;
        Ok(())
    }

    /// The core's tables get the page's entry, and the core is recorded on the page. A
    /// refusal for memory changes nothing.
    pub fn go_install(&mut self, core: CoreId, touch: Touch) -> Result<Outcome, NoMemory>
        requires { IsAt (world M.slots self.old) core (Phase.Install touch) }
        ensures { Tries (Goes (world M.slots self.old) core (Phase.Install touch))
            (WantsMemory L.keeps (world M.slots self.old) core (Phase.Install touch))
            (world M.slots self.old) result (world M.slots self.new) }
    {
        let Some(info) = self.map.page(touch.page) else {
            unreachable!()
        };
        let Some(frame) = info.frame else {
            unreachable!()
        };
        self.show_page(core, touch.page, info, frame)?;
        self.go_to(core, Phase::Release(touch));
        Ok(Outcome::Stepped)
    }
}
