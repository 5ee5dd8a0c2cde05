//! A change of the pages that its request names: a mapping with `MAP_FIXED`, an munmap or an mprotect.
ghost use Rattle.std.specs.Prelude.{◌≡◌, ◌+◌, ◌*◌, length, IfSome, IsTrue};
ghost use Rattle.std.specs.Sync.Mutex.{mutex_guard_value};
ghost use Rattle.slot_lock.specs.Plan.{IsSoundChange, range_of};
ghost use Rattle.frames.specs.Files.{files_of};
ghost use Rattle.live_tree.specs.Deciding.{Loses};
ghost use Rattle.live_tree.specs.Held.{AreAlike, Covers};
ghost use Rattle.live_tree.specs.Losing.{AreUsers};
ghost use Rattle.live_tree.specs.Shown.{shown};
ghost use Rattle.live_pages.specs.Acking.{HaveAcked};
ghost use Rattle.live_pages.specs.Targets.{count_below};
ghost use Rattle.live_space.specs.Changing.{AreOthers, Changes, ChangesJust, IsReady, Made, MadeIn};
ghost use Rattle.live_space.specs.InFlight.{GoesOn, HasStepsLeft};
ghost use Rattle.live_pages.specs.Steps.{StepsOnce};
ghost use Rattle.seats.specs.Notes.{CanNote};
ghost use Rattle.vm_base.specs.Cores.{with_member};
ghost use Rattle.live_space.specs.Planned.{AnswersChange, EndsIn};

use crate::commit::{Counting, Locks};
use crate::ending::Ending;
use crate::gate::{Gate, Point};
use crate::in_call::InCall;
use crate::space::Live;
use live_levels::level::Stepper;
use live_pages::pieces::lock_core;
use live_pages::telling::{Acked, Posted, ShootdownTargets, TAKES, count_of, take_all};
use live_tree::decide_held::{Decided, decide_held};
use live_tree::held::Held;
use live_tree::held::losses::{FrameList, FramesLost};
use machine_model::answers::reply_to;
use seats::Seat;
use slot_lock::Change;
use std::alloc::Allocator;
use std::sync::Wait;
use vm_base::{CoreId, CoreSet, PageRange, Reply};

impl<A: Allocator + Clone> Live<A> {
    // The locks of a change that the core makes alone. None where memory is refused, or something
    // that has to be locked isn't there.
    fn locked_for<'a, R: Wait>(
        &'a self,
        rt: &R,
        core: CoreId,
        lost: FrameList<'a, A>,
    ) -> Option<Locks<'a, A>>
        ensures lost { IfSome result (λ locks. locks.lost.items ≡ lost.entry.items) }
        ensures own { IfSome result (λ locks. (mutex_guard_value locks.core).inbox.core ≡ core) }
    {
        let state = lock_core(rt, &self.cores, core)?;
        let counting = Counting::by(&state, self.tree.alloc(), lost)?;
        let locks = Locks::of(rt, state, counting, &self.frames, &self.epochs);
        if locks.are_there { Some(locks) } else { None }
    }

    // What the core counts down. None where memory is refused.
    fn counting<'a, R: Wait>(
        &'a self,
        rt: &R,
        core: CoreId,
        lost: FrameList<'a, A>,
    ) -> Option<Counting<'a, A>>
        ensures lost { IfSome result (λ counting. counting.lost.items ≡ lost.entry.items) }
        ensures own { IfSome result (λ counting. counting.core ≡ core) }
    {
        if lost.is_empty() {
            return Counting::nothing(self.tree.alloc(), core);
        }
        let state = lock_core(rt, self.cores.as_slice(), core)?;
        Counting::by(&state, self.tree.alloc(), lost)
    }
}

impl<'c, R: Wait, G: Gate, A: Allocator + Clone> InCall<'c, '_, '_, '_, R, G, A> {
    /// The steps of a change, after its check: its pages are locked, and changed, or it is refused.
    pub(crate) fn change(&mut self, change: Change) -> Ending
        requires { IsSoundChange change }
        ensures goes { GoesOn self.old.seat self.new.seat }
        ensures answers { EndsIn (AnswersChange change) result }
        ensures made { EndsIn (ChangesJust (files_of self.old.space.now.files) change self.new.seat.now self.new.held) result }
    {
        let range = change.range();
        self.hold_from(range.first);
        if !self.lock_all(range.end, 1) {
            return Ending::GiveUp;
        }
        self.at(Point::Locked);
        match self.decide_and_change(change) {
            Some(reply) => Ending::Answer(reply),
            None => Ending::GiveUp,
        }
    }

    // Decides of the pages, which are held, and changes them, or refuses to.
    fn decide_and_change(&mut self, change: Change) -> Option<Reply>
        requires sound { IsSoundChange change }
        requires covers { Covers self.old.held (range_of change) }
        ensures goes { GoesOn self.old.seat self.new.seat }
        ensures made { IfSome result (Changes (files_of self.old.space.now.files) change self.old.held
            self.new.seat.now self.new.held) }
    {
        let space = self.space;
        if !self.has_room(1) {
            return None;
        }
        let core = self.seat.core();
        match decide_held(&space.objects, space.tree.alloc(), core, &self.held, change)? {
            Decided::Refuse(errno) => {
                let _decided = self.seat.step();
                Some(Reply::Refused(errno))
            }
            Decided::Act(losses) => {
                if self.make(change, losses) {
                    Some(reply_to(change))
                } else {
                    None
                }
            }
        }
    }

    // Makes the change, whose pages are held. False where the call has to be given up.
    fn make(&mut self, change: Change, losses: FramesLost<'c, A>) -> bool
        requires sound { IsSoundChange change }
        requires lost { Loses (shown self.old.held.slots) change losses.frames.items }
        requires users { AreUsers (shown self.old.held.slots) (range_of change) losses.cores }
        requires covers { Covers self.old.held (range_of change) }
        ensures goes { GoesOn self.old.seat self.new.seat }
        ensures made { IsTrue result → MadeIn change self.old.held self.new.seat.now self.new.held }
    {
        if !is_ready(&mut self.held, change) {
            return false;
        }
        let FramesLost { cores, frames } = losses;
        let targets = cores.without(self.seat.core());
        if targets.is_empty() {
            self.make_alone(change, frames)
        } else {
            self.make_told(change, targets, frames)
        }
    }

    // Makes a change of pages that no other core may have translations of: three steps under the
    // same locks.
    fn make_alone(&mut self, change: Change, lost: FrameList<'c, A>) -> bool
        requires ready { IsReady self.old.held change }
        requires alone { AreOthers (shown self.old.held.slots) (range_of change) self.old.seat.now.core 0 }
        requires lost { Loses (shown self.old.held.slots) change lost.items }
        ensures goes { GoesOn self.old.seat self.new.seat }
        ensures made { IsTrue result → Made change self.old.held self.new.seat.now self.new.held }
    {
        if !self.has_room(3) {
            return false;
        }
        self.at(Point::Commit);
        match self.space.locked_for(self.rt, self.seat.core(), lost) {
            Some(mut locks) => {
                self.decide_and_commit(&mut locks, change);
                true
            }
            None => false,
        }
    }

    // Makes a change of pages that these other cores may have translations of: they are told to drop
    // them, and take what they were told, and then the pages change. It is decided and posted under the
    // same locks, and from then on nothing takes memory.
    fn make_told(&mut self, change: Change, targets: CoreSet, lost: FrameList<'c, A>) -> bool
        requires ready { IsReady self.old.held change }
        requires others { AreOthers (shown self.old.held.slots) (range_of change) self.old.seat.now.core targets }
        requires lost { Loses (shown self.old.held.slots) change lost.items }
        ensures goes { GoesOn self.old.seat self.new.seat }
        ensures made { IsTrue result → Made change self.old.held self.new.seat.now self.new.held }
    {
        // the decision, the post, the takes of all that are told, and the change
        let most = 3 + TAKES * count_of(targets);
        if !self.has_room(most) {
            return false;
        }
        let space = self.space;
        let core = self.seat.core();
        let Some(counting) = space.counting(self.rt, core, lost) else {
            return false;
        };
        match ShootdownTargets::of(
            self.rt,
            space.tree.alloc(),
            &space.cores,
            core,
            targets,
            change.range(),
        ) {
            Some(telling) => {
                let _decided = self.seat.step();
                let posted = tell_others(telling, self.seat, change.range(), targets);
                self.take_and_commit(change, targets, counting, posted)
            }
            None => false,
        }
    }

    // The other cores take what they were told, and the change is made. False where a core isn't there,
    // which never comes.
    fn take_and_commit(
        &mut self,
        change: Change,
        targets: CoreSet,
        counting: Counting<'c, A>,
        posted: Posted,
    ) -> bool
        requires own { counting.core ≡ self.old.seat.now.core }
        requires posted { posted ≡ record { core = self.old.seat.now.core; set = with_member targets self.old.seat.now.core; range = range_of change } }
        requires ready { IsReady self.old.held change }
        requires others { AreOthers (shown self.old.held.slots) (range_of change) self.old.seat.now.core targets }
        requires lost { Loses (shown self.old.held.slots) change counting.lost.items }
        requires room { HasStepsLeft (1 + 126 * count_below targets 64) self.old.held self.old.seat.now }
        ensures goes { GoesOn self.old.seat self.new.seat }
        ensures made { IsTrue result → Made change self.old.held self.new.seat.now self.new.held }
    {
        let space = self.space;
        let Some(acked) = take_all(self.rt, &space.cores, self.seat, posted, targets) else {
            return false;
        };
        self.at(Point::Commit);
        self.commit_acked(&acked, change, targets, counting)
    }

    // The change is made, once the other cores have acknowledged. False where the core isn't there,
    // which never comes.
    fn commit_acked(
        &mut self,
        _acked: &Acked,
        change: Change,
        _targets: CoreSet,
        counting: Counting<'c, A>,
    ) -> bool
        requires own { counting.core ≡ self.old.seat.now.core }
        requires acked { HaveAcked _targets (range_of change) _acked.now }
        requires ready { IsReady self.old.held change }
        requires others { AreOthers (shown self.old.held.slots) (range_of change) self.old.seat.now.core _targets }
        requires lost { Loses (shown self.old.held.slots) change counting.lost.items }
        requires room { HasStepsLeft 1 self.old.held self.old.seat.now }
        ensures goes { GoesOn self.old.seat self.new.seat }
        ensures made { IsTrue result → Made change self.old.held self.new.seat.now self.new.held }
    {
        if counting.is_empty() {
            self.commit_frameless(change);
            return true;
        }
        let space = self.space;
        let Some(state) = lock_core(self.rt, &space.cores, self.seat.core()) else {
            return false;
        };
        let mut locks = Locks::of(self.rt, state, counting, &space.frames, &space.epochs);
        self.commit(&mut locks, change);
        true
    }
}

/// The step that posts to these other cores, which are locked: they are to drop their translations of
/// the range.
pub(crate) fn tell_others<A: Allocator + Clone>(
    telling: ShootdownTargets<'_, A>,
    seat: &mut Seat<A>,
    _range: PageRange,
    _others: CoreSet,
) -> Posted
    requires step { CanNote seat.old }
    requires told { telling ≡ record { core = seat.old.core; set = with_member _others seat.old.core; range = _range } }
    ensures step { StepsOnce seat.old seat.new }
    ensures posted { result ≡ record { core = seat.old.core; set = with_member _others seat.old.core; range = _range } }
{
    telling.post(seat)
}

// Makes room for the change in the histories of its slots, and tells whether it can be made in them.
fn is_ready<A: Allocator + Clone>(held: &mut Held<'_, A>, change: Change) -> bool
    requires sound { IsSoundChange change }
    requires covers { Covers held.old (range_of change) }
    ensures ready { IsTrue result → IsReady held.new change }
    ensures place { (held.new.first ≡ held.old.first) × (held.new.end ≡ held.old.end) }
    ensures same { AreAlike held.new.slots held.old.slots }
    ensures count { length held.new.slots ≡ length held.old.slots }
{
    if held.reserve(change.range()).is_err() {
        return false;
    }
    held.fits(change.range())
}
