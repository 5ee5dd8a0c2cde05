//! A fault of an access, made at once: its page is found once and set once. No other core can act in
//! between, so that the page, which nobody holds, need not be locked, nor the core's phase written.
ghost use Rattle.std.specs.Prelude.{◌≡◌, ◌+◌, ◌<◌, ◌≤◌, None, Some, IfSome, Err, true};
ghost use Rattle.std.specs.Prelude.{length, ℕ};
ghost use Rattle.vm_base.specs.Pages.{IsPage};
ghost use Rattle.slot_lock.specs.declared.plan.Goal.TheVariants as To;
ghost use Rattle.frames.specs.Parts.{free_frames};
ghost use Rattle.refcache.specs.Counts.{Counts};
ghost use Rattle.refcache.specs.Steps.{Takes, Begin};
ghost use Rattle.machine_model.specs.Accesses.{NoneFree, after_finding, found_at};
ghost use Rattle.machine_model.specs.Files.{file_frame};
ghost use Rattle.machine_model.specs.Filling.{CountsCopy};
ghost use Rattle.machine_model.specs.Locks.{locking};
ghost use Rattle.machine_model.specs.Step.{StepsTo, event_limit};
ghost use Rattle.machine_model.specs.World.{Memory, World};
ghost use Rattle.machine_model.specs.Sound.{IsReached};
ghost use Rattle.core_steps.specs.OnePage.{CanCopy, CanFill, CanRead, CanTake, HasRoom, IsFault, IsSource};
ghost use Rattle.core_steps.specs.OnePage.{IsUntold, Makes};
ghost use Rattle.core_steps.specs.OnePage.{ReadsBacking, TakesFrom, after_settling, at_lock, cached_from};
ghost use Rattle.core_steps.specs.OnePage.{detached_from, frame_from, shown_from, steps_from, wants_frame};
ghost use Rattle.core_steps.specs.OnePage.{with_frame_copied, with_page_copied, with_page_read};
ghost use Rattle.core_steps.specs.declared.at_once.fault.Source.TheVariants.{First, Shown};
ghost use Rattle.core_steps.specs.State.{world};

use crate::engine::Engine;
use crate::rows::access::tried_to;
use crate::rows::fault::settled_to;
use crate::rows::file_pages::file_frame;
use machine_log::ledger::Ledger;
use machine_model::answers::prot_with;
use mmu::Hardware;
use slot_lock::{SlotMap, Touch};
use std::alloc::Allocator;
use vm_base::{Access, Back, CoreId, CoreSet, PageInfo, PageRange, Reply};
use vm_calls::Settled;

/// The most steps that a fault makes at once.
pub const MOST_STEPS: u64 = 8;

/// Where the frame of a page comes from that is shown at once.
#[derive(Clone, Copy)]
pub(crate) enum Source {
    /// The page has it.
    Own(u32),
    /// It caches the page's file page.
    Cached(u32),
    /// It is the least free one, for a page of zeros.
    Free(u32),
    /// It is the least free one, which gets this page of a file, and caches it from there on.
    Read { frame: u32, file: u32, page: u64 },
    /// It is the least free one, for a private page's copy of this page of a file.
    First { frame: u32, file: u32, page: u64 },
    /// It is the least free one, for a copy of this frame, which a private page shows that no other core
    /// has used.
    Shown { frame: u32, shown: u32 },
}

impl Source {
    // The frame.
    fn frame(&self) -> u32
        ensures { result ≡ frame_from self.now }
    {
        match *self {
            Source::Own(frame) | Source::Cached(frame) | Source::Free(frame) => frame,
            Source::Read { frame, .. }
            | Source::First { frame, .. }
            | Source::Shown { frame, .. } => frame,
        }
    }

    // In how many steps the page gets it.
    fn steps(&self) -> u64
        ensures value { result ≡ steps_from self.now }
        ensures few { result ≤ 3 }
    {
        match *self {
            Source::Own(_) => 0,
            Source::Cached(_) => 1,
            Source::Free(_) | Source::Read { .. } | Source::First { .. } => 2,
            Source::Shown { .. } => 3,
        }
    }

    // What a page with this has then, but for the core that is recorded.
    fn shown(&self, info: &PageInfo) -> PageInfo
        ensures { result ≡ shown_from self.now info.now }
    {
        let frame = Some(self.frame());
        let cores = match *self {
            Source::Shown { .. } => CoreSet::empty(),
            _ => info.cores,
        };
        PageInfo {
            meta: info.meta,
            frame,
            cores,
        }
    }
}

// Whether the access has to take a frame: for a page that has none, or for a copy of the page's.
fn wants_frame(settled: Settled) -> bool
    ensures { result ≡ wants_frame settled }
{
    match settled {
        Settled::Wants | Settled::Copies(_) => true,
        Settled::MapErr | Settled::AccErr | Settled::Bus | Settled::Has(_) | Settled::Cached(_) =>
            false,
    }
}

impl<M: SlotMap, H: Hardware, A: Allocator, L: Ledger> Engine<M, H, A, L> {
    // The access fails at its page, and this is its reply.
    fn fail_at_once(&mut self, core: CoreId, touch: Touch, reply: Reply)
        requires fault { IsFault (at_lock core touch (world M.slots self.old)) core touch }
        requires fails { (m : World) → after_finding core touch (found_at (world M.slots self.old) touch) m
            ≡ after_settling core touch (Err reply) m }
        ensures { Makes (world M.slots self.old) core touch (Some reply) (world M.slots self.new) }
    {
        self.log_at_once(core, reply, 2);
    }

    // The access has to take a frame, and none is free.
    fn want_at_once(&mut self, core: CoreId, touch: Touch)
        requires fault { IsFault (at_lock core touch (world M.slots self.old)) core touch }
        requires wants { wants_frame (found_at (world M.slots self.old) touch) ≡ true }
        requires none { NoneFree (world M.slots self.old).memory.is_free }
        ensures { Makes (world M.slots self.old) core touch (Some Reply.NoFrame) (world M.slots self.new) }
    {
        self.log_at_once(core, Reply::NoFrame, 3);
    }

    // What the least free frame is for, where a page wants one.
    fn new_source(&self, access: Access, back: Back) -> Option<Source>
        ensures from { IfSome result (IsSource access Settled.Wants back (free_frames self.now.frames)) }
        ensures untold { (core cores : ℕ) → IfSome result (λ source. IsUntold source core cores) }
    {
        let frame = self.frames.least_free()?;
        match (back, access) {
            (Back::Anon, _) => Some(Source::Free(frame)),
            (Back::Private { file, page }, Access::Store) => Some(Source::First {
                frame,
                file,
                page,
            }),
            (Back::Shared { file, page } | Back::Private { file, page }, _) => {
                Some(Source::Read { frame, file, page })
            }
        }
    }

    // Where the frame of the page comes from, which has this. There is none where another core has to be
    // told of a copy.
    fn source_of(
        &self,
        core: CoreId,
        access: Access,
        settled: Settled,
        info: &PageInfo,
    ) -> Option<Source>
        ensures from { IfSome result
            (IsSource access settled info.now.meta.back (free_frames self.now.frames)) }
        ensures untold { IfSome result (λ source. IsUntold source core info.now.cores) }
    {
        match settled {
            Settled::Has(frame) => Some(Source::Own(frame)),
            Settled::Cached(frame) => Some(Source::Cached(frame)),
            Settled::Wants => self.new_source(access, info.meta.back),
            Settled::Copies(shown) => {
                if !info.cores.without(core).is_empty() {
                    return None;
                }
                let frame = self.frames.least_free()?;
                Some(Source::Shown { frame, shown })
            }
            _ => None,
        }
    }

    // The frame that caches the page's file page once its own comes from there.
    fn cached_from(&self, source: Source, back: Back) -> Option<u32>
        requires { ReadsBacking source back }
        ensures { result ≡ file_frame (cached_from (world M.slots self.now).memory.cached source) back }
    {
        match source {
            Source::Read { frame, .. } => Some(frame),
            _ => file_frame(&self.objects, back),
        }
    }

    // The free frame is taken, gets the page of the file, which it caches from here on, and is counted
    // for the file and for the page, which shows it.
    fn read_page(&mut self, frame: u32, file: u32, page: u64)
        requires { CanRead (world M.slots self.old).memory (world M.slots self.old).made.frames
            ((world M.slots self.old).made.file file) frame file page }
        ensures { (counts : Counts) × Takes (world M.slots self.old).memory.counts (Begin frame 2) counts
            × (world M.slots self.new ≡ record (world M.slots self.old) {
              memory = with_page_read (world M.slots self.old).made.file frame file page counts
                  (world M.slots self.old).memory;
            }) }
    {
        self.frames.take(frame);
        self.objects.fill(file, page, &mut self.frames, frame);
        self.objects.set_cached(file, page, frame);
        self.counts.begin(frame, 2);
    }

    // The free frame is taken, gets the page of the file, and is counted for the page, which has it as a
    // copy. That is logged.
    fn copy_page(&mut self, core: CoreId, at: u64, frame: u32, file: u32, page: u64)
        requires can { CanFill (world M.slots self.old).memory (world M.slots self.old).made.frames
            ((world M.slots self.old).made.file file) frame file page }
        requires here { core < length self.old.calls.phases.items }
        requires room { L.limit self.old.calls.ledger < L.fits self.old.calls.ledger }
        requires events { self.old.calls.events + 4 < event_limit }
        ensures { (counts : Counts) × Takes (world M.slots self.old).memory.counts (Begin frame 1) counts
            × (world M.slots self.new ≡ detached_from core at (First frame file page)
            (record (world M.slots self.old) {
              memory = with_page_copied (world M.slots self.old).made.file frame file page counts
                  (world M.slots self.old).memory;
            })) }
    {
        self.frames.take(frame);
        self.objects.fill(file, page, &mut self.frames, frame);
        self.counts.begin(frame, 1);
        self.calls.log_copy(core, at, 4);
    }

    // The free frame is taken, gets the bytes of the one that the page showed, and is counted for the
    // page in its place. That is logged, and the core's TLB drops the page.
    fn copy_shown(&mut self, core: CoreId, at: u64, frame: u32, shown: u32)
        requires can { CanCopy (world M.slots self.old).memory (world M.slots self.old).made.frames core frame shown }
        requires here { core < length self.old.calls.phases.items }
        requires page { IsPage at }
        requires room { L.limit self.old.calls.ledger < L.fits self.old.calls.ledger }
        requires events { self.old.calls.events + 5 < event_limit }
        ensures { (counts : Counts) × CountsCopy core frame shown (world M.slots self.old).memory.counts counts
            × (world M.slots self.new ≡ detached_from core at (Shown frame shown)
            (record (world M.slots self.old) {
              memory = with_frame_copied frame shown counts (world M.slots self.old).memory;
            })) }
    {
        self.cores.invalidate(
            core,
            PageRange {
                first: at,
                end: at + 1,
            },
        );
        self.frames.take(frame);
        self.frames.copy(shown, frame);
        self.counts.begin(frame, 1);
        self.counts.dec(core, shown);
        self.calls.log_copy(core, at, 5);
    }

    // There is memory for the entry of a copy, if the frame comes from there for one. Nothing else
    // changes.
    fn room_for(&mut self, source: Source) -> bool
        ensures same { world M.slots self.new ≡ world M.slots self.old }
        ensures cores { length self.new.calls.phases.items ≡ length self.old.calls.phases.items }
        ensures room { result ≡ true
            → HasRoom source (L.limit self.new.calls.ledger) (L.fits self.new.calls.ledger) }
    {
        match source {
            Source::First { .. } | Source::Shown { .. } => self.calls.make_room().is_ok(),
            Source::Own(_) | Source::Cached(_) | Source::Free(_) | Source::Read { .. } => true,
        }
    }

    // The frame of the core's page `at` is taken, filled and counted, as far as it has to be, and a copy
    // is logged.
    fn take_from(&mut self, core: CoreId, at: u64, source: Source)
        requires can { CanTake (world M.slots self.old) core source }
        requires here { core < length self.old.calls.phases.items }
        requires room { HasRoom source (L.limit self.old.calls.ledger) (L.fits self.old.calls.ledger) }
        requires page { IsPage at }
        requires events { self.old.calls.events + 5 < event_limit }
        ensures { (memory : Memory)
            × TakesFrom (world M.slots self.old).made.file (world M.slots self.old).memory core source memory
            × (world M.slots self.new
            ≡ detached_from core at source (record (world M.slots self.old) { memory = memory })) }
    {
        match source {
            Source::Own(_) => {}
            Source::Cached(frame) => self.counts.inc(core, frame),
            Source::Free(frame) => {
                self.frames.take(frame);
                self.frames.fill_zero(frame);
                self.counts.begin(frame, 1);
            }
            Source::Read { frame, file, page } => self.read_page(frame, file, page),
            Source::First { frame, file, page } => self.copy_page(core, at, frame, file, page),
            Source::Shown { frame, shown } => self.copy_shown(core, at, frame, shown),
        }
    }

    // The page, which has this, gets its frame from there, and the access is tried again. Beside the
    // frame's steps there are those that lock the page, read it, install it and let it go.
    fn show_at_once(
        &mut self,
        core: CoreId,
        touch: Touch,
        info: PageInfo,
        source: Source,
    ) -> Option<Reply>
        requires fault { IsFault (at_lock core touch (world M.slots self.old)) core touch }
        requires info { (M.slots self.old.map).info touch.page ≡ Some info }
        requires source { IsSource touch.access (found_at (world M.slots self.old) touch) info.meta.back
            (world M.slots self.old).memory.is_free source }
        requires untold { IsUntold source core info.cores }
        requires log { HasRoom source (L.limit self.old.calls.ledger) (L.fits self.old.calls.ledger) }
        ensures { Makes (world M.slots self.old) core touch result (world M.slots self.new) }
    {
        let frame = source.frame();
        let shown = source.shown(&info);
        let prot = prot_with(&shown, self.cached_from(source, info.meta.back));
        let Ok(()) = self.show_with(core, touch.page, shown, frame, prot) else {
            return None;
        };
        self.take_from(core, touch.page, source);
        self.calls.events += source.steps() + 4;
        self.try_page(core, touch)
    }

    /// The steps of an access whose page has to be locked, where that is a slot of its own that nobody
    /// holds: up to the next try of the page, or up to the reply where the access fails. It answers the
    /// access's reply, which is logged; without one the call is to lock its page. The core's phase isn't
    /// written. No step is made where a plain one has to look, since there may be no memory, or other
    /// cores have to be told of a copy.
    pub fn make_fault(&mut self, core: CoreId, touch: Touch) -> Option<Reply>
        requires here { core < length self.old.calls.phases.items }
        requires reached { ∥ IsReached (at_lock core touch (world M.slots self.old)) ∥₁ }
        requires room { self.old.calls.events + 8 ≤ event_limit }
        ensures { Makes (world M.slots self.old) core touch result (world M.slots self.new) }
    {
        let Some(page) = self.map.free_page(touch.page) else {
            return None;
        };
        let settled = self.find(touch, &page.info);
        if let Err(reply) = settled_to(touch, settled) {
            self.fail_at_once(core, touch, reply);
            return Some(reply);
        }
        if let Some(info) = page.info
            && let Some(source) = self.source_of(core, touch.access, settled, &info)
        {
            if !self.room_for(source) {
                return None;
            }
            return self.show_at_once(core, touch, info, source);
        }
        if wants_frame(settled) && self.frames.least_free().is_none() {
            self.want_at_once(core, touch);
            return Some(Reply::NoFrame);
        }
        None
    }

    /// The events of a fault's steps, as `make_fault` makes them, where the core's call is to lock its
    /// page. It answers how many they were.
    pub fn fault_at_once(&mut self, core: CoreId, touch: Touch, most: u64) -> u64
        requires at { (world M.slots self.old).calls.phase core ≡ locking (To.Access touch) }
        requires here { core < length self.old.calls.phases.items }
        requires reached { ∥ IsReached (world M.slots self.old) ∥₁ }
        requires room { self.old.calls.events + most ≤ event_limit }
        ensures few { result ≤ most }
        ensures steps { StepsTo (world M.slots self.old) core result (world M.slots self.new) }
        ensures edges { (M.slots self.new.map).edge ≡ (M.slots self.old.map).edge }
    {
        if most < MOST_STEPS {
            return 0;
        }
        let before = self.calls.events;
        let reply = self.make_fault(core, touch);
        self.go_to(core, tried_to(touch, reply));
        self.calls.events - before
    }
}
