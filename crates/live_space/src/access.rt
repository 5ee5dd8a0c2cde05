//! A load, a store or a fetch: it is tried, and after a fault its page is held while it gets a frame
//! and an entry in the core's tables; then it is tried again.
ghost use Rattle.std.specs.Prelude.{◌≡◌, ◌+◌, ◌*◌, [], Some, IfNone, IfSome};
ghost use Rattle.vm_base.specs.Pages.{pages_from};
ghost use Rattle.vm_base.specs.Cores.{with_member};
ghost use Rattle.live_tree.specs.Shown.{shown};
ghost use Rattle.live_pages.specs.Acking.{HasOthers};
ghost use Rattle.live_pages.specs.Targets.{count_below};
ghost use Rattle.slot_lock.specs.Plan.{IsSoundTouch};
ghost use Rattle.live_space.specs.declared.ending.Ending.TheVariants.{GiveUp};
ghost use Rattle.live_space.specs.Endings.{HoldsNone, RunsTo};
ghost use Rattle.frames.specs.Files.{files_of};
ghost use Rattle.live_levels.specs.declared.act.Act.TheVariants.{Record};
ghost use Rattle.live_space.specs.InFlight.{GoesOn, HasStepsLeft, HoldsJust};
ghost use Rattle.live_space.specs.Answering.{IsFault};
ghost use Rattle.live_space.specs.Faulting.{ActsOn, Gets, GetsCopy, GetsFrame, GetsNew, GetsTaken, GivesUpOr, Settles};
ghost use Rattle.live_space.specs.Spending.{Spends, UsesCopy, UsesFrame, UsesNew};
ghost use Rattle.live_space.specs.Planned.{AnswersTouch, EndsIn, RanIn};

use crate::changing::tell_others;
use crate::ending::{Ending, Ran, given_up_with};
use crate::gate::{Gate, Point};
use crate::in_call::InCall;
use live_pages::copy::copy_page;
use live_pages::filling::fill;
use live_pages::frame::{FrameSearch, want};
use live_pages::installing::install;
use live_pages::settling::settle_page;
use live_pages::telling::{Posted, ShootdownTargets, TAKES, count_of, take_all};
use live_pages::touching::{Tried, try_touch};
use machine_model::answers::page_of_touch;
use slot_lock::Touch;
use std::alloc::Allocator;
use std::sync::Wait;
use vm_base::info::recorded_cores;
use vm_base::{CoreSet, Reply, SegvCode};
use vm_calls::Settled;

/// The frames of a private page that gets its copy.
#[derive(Clone, Copy)]
struct Copying {
    /// The one that the page shows, which caches its file page.
    shown: u32,
    /// The one that the call took.
    own: u32,
}

impl<'c, R: Wait, G: Gate, A: Allocator + Clone> InCall<'c, '_, '_, '_, R, G, A> {
    /// The steps of an access, after its check.
    pub(crate) fn touch(&mut self, touch: Touch) -> Ran
        requires sound { IsSoundTouch touch }
        requires none { self.old.held.slots ≡ [] }
        ensures runs { RunsTo self.old.seat result self.new.seat }
        ensures none { HoldsNone result self.new.held }
        ensures answers { RanIn (AnswersTouch touch.access) result }
    {
        let rt = self.rt;
        'tries: for _turn in rt.forever() {
            // for the step and its answer
            if !self.has_room(2) {
                return Ran::Open(Ending::GiveUp);
            }
            match try_touch(rt, &self.space.pieces(), self.seat, touch) {
                Tried::Served(reply) => return Ran::Answered(reply),
                Tried::Lost => return Ran::Open(Ending::GiveUp),
                Tried::Fault => {
                    if let Some(ending) = self.fault(touch) {
                        return Ran::Open(ending);
                    }
                }
            }
        }
        unreachable!()
    }

    // The page is held until it has its frame and its entry, or the call is to end. None where the
    // access has to be tried again.
    fn fault(&mut self, touch: Touch) -> Option<Ending>
        requires { IsSoundTouch touch }
        ensures goes { GoesOn self.old.seat self.new.seat }
        ensures none { IfNone result (self.new.held.slots ≡ []) }
        ensures answers { IfSome result (EndsIn IsFault) }
    {
        let ending = self.lock_page(touch);
        if ending.is_none() {
            self.hold_from(touch.page);
        }
        ending
    }

    // The page's slot is locked.
    fn lock_page(&mut self, touch: Touch) -> Option<Ending>
        requires { IsSoundTouch touch }
        ensures goes { GoesOn self.old.seat self.new.seat }
        ensures answers { IfSome result (EndsIn IsFault) }
    {
        self.hold_from(touch.page);
        if !self.lock_all(touch.page + 1, 2) {
            return Some(Ending::GiveUp);
        }
        self.at(Point::Locked);
        self.settle(touch)
    }

    // What the access finds at its page.
    fn settle(&mut self, touch: Touch) -> Option<Ending>
        requires sound { IsSoundTouch touch }
        requires page { HoldsJust (pages_from touch.page 1) self.old.held }
        ensures goes { GoesOn self.old.seat self.new.seat }
        ensures answers { IfSome result (EndsIn IsFault) }
        ensures settles { Settles (files_of self.old.space.now.files) touch self.old.seat.now.core self.old.held result self.new.held }
    {
        if !self.has_room(1) {
            return Some(Ending::GiveUp);
        }
        let info = self.held.page(touch.page);
        match settle_page(self.rt, &self.space.pieces(), self.seat, touch, &info) {
            Some(settled) => self.act_on(touch, settled),
            None => Some(Ending::GiveUp),
        }
    }

    // The access is answered, or the page gets what it wants.
    fn act_on(&mut self, touch: Touch, settled: Settled) -> Option<Ending>
        requires { IsSoundTouch touch }
        ensures goes { GoesOn self.old.seat self.new.seat }
        ensures answers { IfSome result (EndsIn IsFault) }
        ensures acts { ActsOn settled self.old.seat.now.core self.old.held result self.new.held }
    {
        match settled {
            Settled::MapErr => Some(Ending::Answer(Reply::Segv(SegvCode::MapErr))),
            Settled::AccErr => Some(Ending::Answer(Reply::Segv(SegvCode::AccErr))),
            Settled::Bus => Some(Ending::Answer(Reply::Bus)),
            Settled::Has(_) => self.install(touch),
            Settled::Copies(shown) => self.want(touch, Some(shown)),
            Settled::Cached(_) => self.fill(touch, None),
            Settled::Wants => self.want(touch, None),
        }
    }

    // A frame is taken, for the page or for a copy of the frame that it shows.
    fn want(&mut self, touch: Touch, shown: Option<u32>) -> Option<Ending>
        requires { IsSoundTouch touch }
        ensures goes { GoesOn self.old.seat self.new.seat }
        ensures answers { IfSome result (EndsIn IsFault) }
        ensures taken { GetsTaken shown self.old.seat.now.core self.old.held result self.new.held }
    {
        if !self.has_room(1) {
            return Some(Ending::GiveUp);
        }
        match want(self.rt, &self.space.pieces(), self.seat) {
            FrameSearch::Taken(own) => self.use_frame(touch, shown, own),
            FrameSearch::NoFrame => Some(Ending::Answer(Reply::NoFrame)),
            FrameSearch::Lost => Some(Ending::GiveUp),
        }
    }

    // The frame is for the page, or for a copy of the frame that it shows.
    fn use_frame(&mut self, touch: Touch, shown: Option<u32>, own: u32) -> Option<Ending>
        requires { IsSoundTouch touch }
        ensures goes { GoesOn self.old.seat self.new.seat }
        ensures page { GivesUpOr (GetsNew shown self.old.seat.now.core self.old.held) result self.new.held }
        ensures own { Spends (Some own) (UsesNew shown own touch self.old.held) result }
    {
        match shown {
            Some(shown) => self.copy(touch, Copying { shown, own }),
            None => self.fill(touch, Some(own)),
        }
    }

    // The page gets its frame.
    fn fill(&mut self, touch: Touch, own: Option<u32>) -> Option<Ending>
        requires { IsSoundTouch touch }
        ensures goes { GoesOn self.old.seat self.new.seat }
        ensures page { GivesUpOr (GetsFrame self.old.seat.now.core self.old.held) result self.new.held }
        ensures own { Spends own (UsesFrame own touch self.old.held) result }
    {
        if !self.has_room(1) {
            return Some(given_up_with(own));
        }
        match fill(
            self.rt,
            &self.space.pieces(),
            self.seat,
            &mut self.held,
            touch,
            own,
        ) {
            Some(_) => self.install(touch),
            None => Some(given_up_with(own)),
        }
    }

    // The other recorded cores of the page are told to drop the page, and then it gets a copy.
    fn copy(&mut self, touch: Touch, frames: Copying) -> Option<Ending>
        requires { IsSoundTouch touch }
        ensures goes { GoesOn self.old.seat self.new.seat }
        ensures page { GivesUpOr (GetsCopy self.old.seat.now.core self.old.held) result self.new.held }
        ensures own { Spends (Some frames.own) (UsesCopy frames.own self.old.held) result }
    {
        let core = self.seat.core();
        let targets = recorded_cores(&self.held.page(touch.page)).without(core);
        // the post, the takes of all that are told, and the copy
        let most = 2 + TAKES * count_of(targets);
        if !self.has_room(most) {
            return Some(Ending::GiveBack(frames.own));
        }
        let space = self.space;
        let range = page_of_touch(touch);
        match ShootdownTargets::of(
            self.rt,
            space.tree.alloc(),
            &space.cores,
            core,
            targets,
            range,
        ) {
            Some(telling) => {
                let posted = tell_others(telling, self.seat, range, targets);
                self.copy_told(touch, frames, targets, posted)
            }
            None => Some(Ending::GiveBack(frames.own)),
        }
    }

    // All other cores that are recorded on the page were told, and acknowledge. Then the page gets its
    // copy, since no core translates it by the old frame any more.
    fn copy_told(
        &mut self,
        touch: Touch,
        frames: Copying,
        targets: CoreSet,
        posted: Posted,
    ) -> Option<Ending>
        requires others { HasOthers self.old.seat.now.core ((shown self.old.held.slots).info touch.page) targets }
        requires posted { posted ≡ record { core = self.old.seat.now.core; set = with_member targets self.old.seat.now.core; range = pages_from touch.page 1 } }
        requires sound { IsSoundTouch touch }
        requires room { HasStepsLeft (1 + 126 * count_below targets 64) self.old.held self.old.seat.now }
        ensures goes { GoesOn self.old.seat self.new.seat }
        ensures page { GivesUpOr (GetsCopy self.old.seat.now.core self.old.held) result self.new.held }
        ensures own { Spends (Some frames.own) (UsesCopy frames.own self.old.held) result }
    {
        let space = self.space;
        let Copying { shown: from, own } = frames;
        let Some(acked) = take_all(self.rt, &space.cores, self.seat, posted, targets) else {
            return Some(Ending::GiveBack(own));
        };
        let pieces = space.pieces();
        let page = touch.page;
        if copy_page(
            self.rt,
            &pieces,
            self.seat,
            &mut self.held,
            page,
            &acked,
            from,
            own,
        ) {
            self.install(touch)
        } else {
            Some(Ending::GiveBack(own))
        }
    }

    // The core's tables get the page's entry. The access has to be tried again then.
    fn install(&mut self, touch: Touch) -> Option<Ending>
        requires { IsSoundTouch touch }
        ensures goes { GoesOn self.old.seat self.new.seat }
        ensures page { GivesUpOr (Gets (Record self.old.seat.now.core) self.old.held) result self.new.held }
        ensures none { IfSome result (λ ending. ending ≡ GiveUp) }
    {
        self.at(Point::Filled);
        if !self.has_room(1) {
            return Some(Ending::GiveUp);
        }
        if install(
            self.rt,
            &self.space.pieces(),
            self.seat,
            &mut self.held,
            touch,
        ) {
            None
        } else {
            Some(Ending::GiveUp)
        }
    }
}
