//! A mapping without `MAP_FIXED` finds its place: at its hint, else at one run of its core's window
//! that it guesses to be free, else at the least room of the window. It holds one of the three at a
//! time, and maps no page that it doesn't hold.
ghost use Rattle.std.specs.Prelude.{◌≡◌, ◌≢◌, ◌+◌, ◌*◌, ◌<◌, IfSome, IsSome, IsTrue, All};
ghost use Rattle.vm_base.specs.declared.replies.Reply.TheVariants.{Mapped};
ghost use Rattle.live_tree.specs.Held.{Covers, CrossesNoEdge};
ghost use Rattle.live_tree.specs.Shown.{KeepsPages, shown};
ghost use Rattle.slot_lock.specs.declared.plan.Goal.TheVariants as GoalOf;
ghost use Rattle.slot_lock.specs.declared.plan.Target.TheVariants.{Window};
ghost use Rattle.slot_lock.specs.Plan.{IsSoundGoal, IsSoundPlace, IsSoundPut, IsTarget, target_range};
ghost use Rattle.vm_calls.specs.declared.decision.Decision.TheVariants.{Again};
ghost use Rattle.vm_calls.specs.Decisions.{DecidesPlace, IsSoundAct};
ghost use Rattle.live_space.specs.InFlight.{GoesOn, HasStepsLeft};
ghost use Rattle.live_space.specs.Placing.{IsInside, IsInWindow, Places, PlacesJust, PlacesSomewhere, Puts};
ghost use Rattle.live_space.specs.Planned.{AnswersPlace, EndsIn, PlacesAt};

use crate::ending::Ending;
use crate::gate::{Gate, Point};
use crate::in_call::InCall;
use crate::space::Live;
use frames::Objects;
use live_levels::level::Stepper;
use live_tree::held::cut::Cutting;
use machine_model::{Event, Outcome};
use slot_lock::{Change, Goal, Place, SlotMap, Target};
use std::alloc::Allocator;
use std::sync::Wait;
use vm_base::page::PAGE_SIZE;
use vm_base::{Meta, PageRange, Reply};
use vm_calls::{Decision, decide};

impl<A: Allocator + Clone> Live<A> {
    // A run of the window that seems free, looked for from this page on and then from the window's
    // first; one slot is locked at a time.
    fn find_run<R: Wait>(&self, rt: &R, from: u64, place: Place) -> Option<u64>
        requires { IsSoundPlace place }
        ensures { IfSome result (IsInWindow place) }
    {
        let window = place.window;
        if window.first < from && from < window.end {
            if let Some(room) = self.tree.find_room(rt, from, window.end, place.count) {
                return Some(room.first());
            }
        }
        match self
            .tree
            .find_room(rt, window.first, window.end, place.count)
        {
            Some(room) => Some(room.first()),
            None => None,
        }
    }
}

impl<'c, R: Wait, G: Gate, A: Allocator + Clone> InCall<'c, '_, '_, '_, R, G, A> {
    /// The steps of a placed mapping, after its check.
    pub(crate) fn place(&mut self, place: Place) -> Ending
        requires { IsSoundPlace place }
        ensures goes { GoesOn self.old.seat self.new.seat }
        ensures answers { EndsIn (AnswersPlace place) result }
        ensures made { EndsIn (PlacesSomewhere place self.new.seat.now self.new.held) result }
    {
        let Some(hint) = place.hint else {
            return self.place_in_window(place);
        };
        match self.try_target(place, Target::Hint(hint)) {
            Some(ending) => ending,
            None => self.place_in_window(place),
        }
    }

    // It goes to a run of its window that it guesses to be free, or else to any room there, where it
    // holds the window, or is refused where there is none.
    fn place_in_window(&mut self, place: Place) -> Ending
        requires { IsSoundPlace place }
        ensures goes { GoesOn self.old.seat self.new.seat }
        ensures answers { EndsIn (AnswersPlace place) result }
        ensures made { EndsIn (PlacesSomewhere place self.new.seat.now self.new.held) result }
    {
        let Some(target) = self.guess(place) else {
            return Ending::GiveUp;
        };
        if let Some(ending) = self.try_target(place, target) {
            return ending;
        }
        match self.try_target(place, Target::Window) {
            Some(ending) => ending,
            None => unreachable!(),
        }
    }

    // Notes which run of its window the mapping guesses to be free, or that it guesses none and takes
    // the window. None where the call has to be given up.
    fn guess(&mut self, place: Place) -> Option<Target>
        requires { IsSoundPlace place }
        ensures target { IfSome result (IsTarget place) }
        ensures goes { GoesOn self.old.seat self.new.seat }
    {
        if !self.has_room(1) {
            return None;
        }
        let core = self.seat.core();
        match self.space.find_run(self.rt, self.seat.next_page(), place) {
            Some(first) => {
                let _ticket = self.seat.note(Event::Guess(core, first), Outcome::Stepped);
                Some(Target::Run(PageRange {
                    first,
                    end: first + place.count,
                }))
            }
            None => {
                let _ticket = self.seat.note(Event::Whole(core), Outcome::Stepped);
                Some(Target::Window)
            }
        }
    }

    // The mapping holds the pages of its target, and goes to a place there if it may. None where it
    // looks elsewhere.
    fn try_target(&mut self, place: Place, target: Target) -> Option<Ending>
        requires { IsSoundGoal (GoalOf.Place place target) }
        ensures goes { GoesOn self.old.seat self.new.seat }
        ensures answers { IfSome result (EndsIn (AnswersPlace place)) }
        ensures made { IfSome result (EndsIn (PlacesJust place target self.new.seat.now self.new.held)) }
        ensures last { target ≡ Window → IsSome result }
    {
        let ending = self.lock_target(place, target);
        if ending.is_none() {
            self.hold_from(target.range(place).first);
        }
        ending
    }

    // The pages of the target are locked, and the mapping goes to a place there if it may.
    fn lock_target(&mut self, place: Place, target: Target) -> Option<Ending>
        requires { IsSoundGoal (GoalOf.Place place target) }
        ensures goes { GoesOn self.old.seat self.new.seat }
        ensures answers { IfSome result (EndsIn (AnswersPlace place)) }
        ensures made { IfSome result (EndsIn (PlacesJust place target self.new.seat.now self.new.held)) }
        ensures last { target ≡ Window → IsSome result }
    {
        let range = target.range(place);
        self.hold_from(range.first);
        if !self.lock_all(range.end, 0) {
            return Some(Ending::GiveUp);
        }
        self.at(Point::Locked);
        self.find(place, target)
    }

    // All pages of the target are held: the mapping goes to a place there, is refused, or looks
    // elsewhere.
    fn find(&mut self, place: Place, target: Target) -> Option<Ending>
        requires sound { IsSoundGoal (GoalOf.Place place target) }
        requires covers { Covers self.old.held (target_range place target) }
        ensures goes { GoesOn self.old.seat self.new.seat }
        ensures answers { IfSome result (EndsIn (AnswersPlace place)) }
        ensures made { IfSome result (EndsIn (Places place target self.old.held self.new.seat.now self.new.held)) }
        ensures last { target ≡ Window → IsSome result }
    {
        let Some(decision) = self.decide_place(place, target) else {
            return Some(Ending::GiveUp);
        };
        if !self.step() {
            return Some(Ending::GiveUp);
        }
        match decision {
            Decision::Act { range, .. } => Some(self.put(range, place.meta)),
            Decision::Refuse(errno) => Some(Ending::Answer(Reply::Refused(errno))),
            Decision::Again => None,
        }
    }

    // What a mapping decides that holds its target. None for want of memory.
    fn decide_place(&self, place: Place, target: Target) -> Option<Decision>
        requires sound { IsSoundGoal (GoalOf.Place place target) }
        requires covers { Covers self.now.held (target_range place target) }
        ensures decides { IfSome result (DecidesPlace (shown self.now.held.slots) place target) }
        ensures sound { IfSome result (IsSoundAct (GoalOf.Place place target)) }
        ensures inside { IfSome result (IsInside (target_range place target)) }
        ensures places { IfSome result (PlacesAt place) }
        ensures last { IfSome result (λ decision. target ≡ Window → decision ≢ Again) }
    {
        let space = self.space;
        let Ok(own) = space.tree.alloc().clone() else {
            return None;
        };
        let lent = self.held.lent(own, self.seat.core())?;
        let decision = decide_place_over(&lent, &space.objects, place, target);
        Some(decision)
    }

    // The pages of the range have to be mapped: the held slots that cross an edge of it are cut, and
    // then they are mapped in one step. Nothing was mapped there, so that no frame is counted down, and
    // no other core gets a message.
    fn put(&mut self, range: PageRange, meta: Meta) -> Ending
        requires sound { IsSoundPut range meta }
        requires covers { Covers self.old.held range }
        ensures goes { GoesOn self.old.seat self.new.seat }
        ensures answers { EndsIn (λ reply. reply ≡ Mapped (range.first * 4096)) result }
        ensures made { EndsIn (λ reply. Puts range meta self.old.held self.new.seat.now self.new.held) result }
    {
        if !self.cut_all(range) {
            return Ending::GiveUp;
        }
        if self.held.reserve(range).is_err() {
            return Ending::GiveUp;
        }
        self.at(Point::Commit);
        let _fits = self.seat.step();
        self.commit_slots(Change::Put { range, meta });
        self.seat.set_next_page(range.end);
        Ending::Answer(Reply::Mapped(range.first * PAGE_SIZE))
    }

    // Cuts the held slots that cross an edge of the range. False where the call has to be given up.
    fn cut_all(&mut self, range: PageRange) -> bool
        ensures goes { GoesOn self.old.seat self.new.seat }
        ensures place { (self.new.held.first ≡ self.old.held.first)
            × (self.new.held.end ≡ self.old.held.end) }
        ensures pages { KeepsPages self.old.held self.new.held }
        ensures room { IsTrue result → HasStepsLeft 2 self.new.held self.new.seat.now }
        ensures edges { IsTrue result → All (CrossesNoEdge range) self.new.held.slots }
    {
        let rt = self.rt;
        let space = self.space;
        let core = self.seat.core();
        'cuts: for _turn in rt.forever() {
            // for the step and its 511 slots more, and for the last step of the cuts and that of the
            // commit
            if !self.has_room(514) {
                return false;
            }
            match self.held.cut_next(rt, &space.tree, self.seat, core, range) {
                Cutting::Cut => {}
                Cutting::Fits => return true,
                Cutting::Unseen | Cutting::NoMemory | Cutting::Lost => return false,
            }
        }
        unreachable!()
    }
}

// What a mapping decides over a whole slot map, which is readable by the laws of slot maps.
fn decide_place_over<M: SlotMap, A: Allocator>(
    map: &M,
    objects: &Objects<A>,
    place: Place,
    target: Target,
) -> Decision
    requires { IsSoundGoal (GoalOf.Place place target) }
    ensures decides { DecidesPlace (M.slots map.now) place target result }
    ensures sound { IsSoundAct (GoalOf.Place place target) result }
    ensures inside { IsInside (target_range place target) result }
    ensures places { PlacesAt place result }
    ensures last { target ≡ Window → result ≢ Again }
{
    decide(map, objects, Goal::Place { place, target })
}
