//! How a page gets its frame: a new one of zeros, the one that caches its file page, or a
//! copy of its file page.
ghost use Rattle.std.specs.Prelude.{◌≡◌, ◌<◌, None, Some, IfSome, true, false};
ghost use Rattle.vm_base.specs.declared.info.Back.TheVariants.{Anon, Private};
ghost use Rattle.vm_base.specs.declared.rights.Access.TheVariants.{Store};
ghost use Rattle.vm_base.specs.Info.{info_with_frame};
ghost use Rattle.frames.specs.Parts.{frame_bytes, free_frames};
ghost use Rattle.slot_lock.specs.Slots.{with_info};
ghost use Rattle.machine_model.specs.declared.event.Outcome.TheVariants.{Stepped};
ghost use Rattle.machine_model.specs.Files.{back_of, file_frame};
ghost use Rattle.machine_model.specs.Filling.{FillsFromFile, FillsOwn, after_zeros, after_first_copy};
ghost use Rattle.machine_model.specs.GivingUp.{given_back};
ghost use Rattle.machine_model.specs.Step.{Goes};
ghost use Rattle.core_steps.specs.State.{world};
ghost use Rattle.core_steps.specs.Filling.{IsAloneAt, IsOfFile};
ghost use Rattle.core_steps.specs.Moving.{IsAt, Tries, WantsMemory};

use crate::engine::Engine;
use frames::Frames;
use machine_log::ledger::Ledger;
use machine_model::answers::back_of;
use machine_model::{Outcome, Phase};
use mmu::Hardware;
use slot_lock::{SlotMap, Touch};
use std::alloc::Allocator;
use vm_base::{Access, Back, CoreId, NoMemory, PageInfo};

/// The page, if it is mapped, has this frame.
fn set_frame<M: SlotMap>(map: &mut M, core: CoreId, page: u64, frame: u32)
    requires { IsAloneAt (M.slots map.old) core page }
    ensures { M.slots map.new ≡ with_info (M.slots map.old) page (info_with_frame frame ((M.slots map.old).info page)) }
{
    if let Some(info) = map.page(page) {
        let frame = Some(frame);
        map.set_leaf(core, page, PageInfo { frame, ..info });
    }
}

/// A frame that a call took and no page has goes back.
pub fn give_back<A: Allocator>(frames: &mut Frames<A>, own: Option<u32>)
    requires { IfSome own (λ f. (f < frames.old.count) × (free_frames frames.old f ≡ false)) }
    ensures free { free_frames frames.new ≡ given_back own (free_frames frames.old) }
    ensures bytes { frame_bytes frames.new ≡ frame_bytes frames.old }
    ensures count { frames.new.count ≡ frames.old.count }
{
    if let Some(frame) = own {
        frames.give(frame);
    }
}

impl<M: SlotMap, H: Hardware, A: Allocator, L: Ledger> Engine<M, H, A, L> {
    /// The anonymous page gets the frame that the call has taken, with zero bytes and counted once.
    fn fill_zeros(&mut self, core: CoreId, touch: Touch, frame: Option<u32>) -> Outcome
        requires at { IsAt (world M.slots self.old) core (Phase.Fill touch frame) }
        requires backed { back_of ((M.slots self.old.map).info touch.page) ≡ Anon }
        ensures { FillsOwn (world M.slots self.old)
            (λ f counts. after_zeros core touch f counts (world M.slots self.old)) frame result
            (world M.slots self.new) }
    {
        let Some(frame) = frame else {
            // the call has taken one
            return Outcome::Idle;
        };
        self.frames.fill_zero(frame);
        self.counts.begin(frame, 1);
        set_frame(&mut self.map, core, touch.page, frame);
        self.go_to(core, Phase::Install(touch));
        Outcome::Stepped
    }

    /// The private page gets the frame that the call has taken, with the bytes of its file page
    /// as they now are and counted once, for a store. A refusal for memory, which comes only where
    /// the log keeps its entries, changes nothing.
    fn fill_copy(
        &mut self,
        core: CoreId,
        touch: Touch,
        frame: Option<u32>,
        file: u32,
        page: u64,
    ) -> Result<Outcome, NoMemory>
        requires at { IsAt (world M.slots self.old) core (Phase.Fill touch frame) }
        requires backed { back_of ((M.slots self.old.map).info touch.page) ≡ Private file page }
        requires store { touch.access ≡ Store }
        ensures { Tries (FillsOwn (world M.slots self.old)
            (λ f counts. after_first_copy core touch f counts (world M.slots self.old)) frame)
            (L.keeps ≡ true)
            (world M.slots self.old) result (world M.slots self.new) }
    {
        let Some(frame) = frame else {
            // the call has taken one
            return Ok(Outcome::Idle);
        };
        self.calls.log_detach(core, touch.page)?;
        self.objects.fill(file, page, &mut self.frames, frame);
        self.counts.begin(frame, 1);
        set_frame(&mut self.map, core, touch.page, frame);
        self.go_to(core, Phase::Install(touch));
        Ok(Outcome::Stepped)
    }

    /// The page shows the frame that caches its file page, and is counted there; a frame
    /// that the call has taken goes back.
    fn share(&mut self, core: CoreId, touch: Touch, own: Option<u32>, cached: u32)
        requires at { IsAt (world M.slots self.old) core (Phase.Fill touch own) }
        requires cached { file_frame (world M.slots self.old).memory.cached
            (back_of ((M.slots self.old.map).info touch.page)) ≡ Some cached }
        ensures { FillsFromFile (world M.slots self.old) core touch own (Some cached) Stepped (world M.slots self.new) }
    {
        give_back(&mut self.frames, own);
        self.counts.inc(core, cached);
        set_frame(&mut self.map, core, touch.page, cached);
        self.go_to(core, Phase::Install(touch));
    }

    /// The frame gets the file page, caches it from here on, and is counted for the file
    /// and for the page, which shows it.
    fn cache(&mut self, core: CoreId, touch: Touch, frame: u32, file: u32, page: u64)
        requires at { IsAt (world M.slots self.old) core (Phase.Fill touch (Some frame)) }
        requires backed { IsOfFile (back_of ((M.slots self.old.map).info touch.page)) file page }
        requires none { (world M.slots self.old).memory.cached file page ≡ None }
        ensures { FillsFromFile (world M.slots self.old) core touch (Some frame) None Stepped (world M.slots self.new) }
    {
        self.objects.fill(file, page, &mut self.frames, frame);
        self.objects.set_cached(file, page, frame);
        self.counts.begin(frame, 2);
        set_frame(&mut self.map, core, touch.page, frame);
        self.go_to(core, Phase::Install(touch));
    }

    /// The page shows its file page: by the frame that caches it, or else by the one that
    /// the call has taken.
    fn show_file(
        &mut self,
        core: CoreId,
        touch: Touch,
        own: Option<u32>,
        file: u32,
        page: u64,
    ) -> Outcome
        requires at { IsAt (world M.slots self.old) core (Phase.Fill touch own) }
        requires backed { IsOfFile (back_of ((M.slots self.old.map).info touch.page)) file page }
        ensures { FillsFromFile (world M.slots self.old) core touch own
            ((world M.slots self.old).memory.cached file page) result (world M.slots self.new) }
    {
        if let Some(cached) = self.objects.cached(file, page) {
            self.share(core, touch, own, cached);
            return Outcome::Stepped;
        }
        let Some(frame) = own else {
            // a call that has taken none comes here only where one caches the file page
            return Outcome::Idle;
        };
        self.cache(core, touch, frame, file, page);
        Outcome::Stepped
    }

    /// The page gets its frame, by what backs it and by the access. A refusal for memory,
    /// which only a private page's first store may have, and only where the log keeps its entries,
    /// changes nothing.
    pub fn go_fill(
        &mut self,
        core: CoreId,
        touch: Touch,
        frame: Option<u32>,
    ) -> Result<Outcome, NoMemory>
        requires { IsAt (world M.slots self.old) core (Phase.Fill touch frame) }
        ensures { Tries (Goes (world M.slots self.old) core (Phase.Fill touch frame))
            (WantsMemory L.keeps (world M.slots self.old) core (Phase.Fill touch frame))
            (world M.slots self.old) result (world M.slots self.new) }
    {
        let info = self.map.page(touch.page);
        match back_of(&info) {
            Back::Anon => Ok(self.fill_zeros(core, touch, frame)),
            Back::Shared { file, page } => Ok(self.show_file(core, touch, frame, file, page)),
            Back::Private { file, page } => match touch.access {
                Access::Store => self.fill_copy(core, touch, frame, file, page),
                Access::Load | Access::Fetch => {
                    Ok(self.show_file(core, touch, frame, file, page))
                }
            },
        }
    }
}
