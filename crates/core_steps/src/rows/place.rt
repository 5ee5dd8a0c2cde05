//! How a mapping without `MAP_FIXED` finds its place: at its hint, else at one run of its
//! window that it guesses to be free, else at the least room of its window. It holds one
//! of the three at a time, and maps no page that it doesn't hold.
ghost use Rattle.std.specs.Prelude.{◌≡◌, ◌+◌, ◌^◌, ◌<◌, ◌≤◌, IfOk, IfSome};
ghost use Rattle.vm_base.specs.Pages.{pages_from};
ghost use Rattle.slot_lock.specs.declared.plan.Goal.TheVariants as GoalOf;
ghost use Rattle.slot_lock.specs.declared.plan.Target.TheVariants.{Run};
ghost use Rattle.slot_lock.specs.Plan.{IsSoundGoal, IsSoundPlace};
ghost use Rattle.machine_model.specs.Placing.{GuessesThisRun, TakesWindow, back_to, elsewhere};
ghost use Rattle.machine_model.specs.Placing.{guess_of, placing, trying};
ghost use Rattle.vm_base.specs.Runs.{lies_in};
ghost use Rattle.machine_model.specs.Step.{Goes};
ghost use Rattle.core_steps.specs.State.{phase_of, world};
ghost use Rattle.core_steps.specs.Moving.{IsAt, IsOf, Tries, WantsMemory};
ghost use Rattle.core_steps.specs.Dividing.{GoesAsMap};

use crate::engine::Engine;
use crate::rows::acquire::locking;
use crate::rows::answer::held_after;
use machine_log::ledger::Ledger;
use machine_model::{Outcome, Phase};
use mmu::Hardware;
use slot_lock::{Change, Fit, Goal, Place, SlotMap, Target};
use std::alloc::Allocator;
use vm_base::{CoreId, NoMemory, PageRange, Reply};
use vm_calls::{Decision, decide};

/// The pages of the target have to be locked, from the first on.
fn trying(place: Place, target: Target) -> Phase
    requires { IsSoundGoal (GoalOf.Place place target) }
    ensures { result ≡ trying place target }
{
    locking(Goal::Place { place, target })
}

/// A mapping begins with its hint, if there is one, and else guesses a run.
pub fn placing(place: Place) -> Phase
    requires { IsSoundPlace place }
    ensures { result ≡ placing place place.hint }
{
    match place.hint {
        Some(range) => trying(place, Target::Hint(range)),
        None => Phase::Guess(place),
    }
}

/// The mapping's pages, from the first on.
fn run_from(place: Place, first: u64) -> Target
    requires { first + place.count < 2 ^ 64 }
    ensures { result ≡ Run (pages_from first place.count) }
{
    Target::Run(PageRange {
        first,
        end: first + place.count,
    })
}

/// The run from this page on, if there is room from there, or else the window.
fn guess_of(place: Place, found: Option<u64>) -> Target
    requires sound { IsSoundPlace place }
    requires room { IfSome found (λ first. first + place.count ≤ place.window.end) }
    ensures { result ≡ guess_of place found }
{
    match found {
        Some(first) => run_from(place, first),
        None => Target::Window,
    }
}

/// Tells whether the mapping's pages lie in its window, from the first on.
fn has_run(place: Place, first: u64) -> bool
    requires { IsSoundPlace place }
    ensures { result ≡ lies_in place.window place.count first }
{
    place.window.first <= first
        && first <= place.window.end
        && place.count <= place.window.end - first
}

/// Where a mapping looks that can't go to this target.
fn elsewhere(place: Place, target: Target) -> Phase
    requires { IsSoundPlace place }
    ensures { result ≡ elsewhere place target }
{
    match target {
        Target::Hint(_) => Phase::Guess(place),
        Target::Run(_) | Target::Window => trying(place, Target::Window),
    }
}

/// What is still held is let go, and then the mapping looks elsewhere.
fn back_to(place: Place, target: Target, held: Option<PageRange>) -> Phase
    requires { IsSoundPlace place }
    ensures { result ≡ back_to place target held }
{
    match held {
        Some(held) => Phase::Back {
            place,
            target,
            held,
        },
        None => elsewhere(place, target),
    }
}

impl<M: SlotMap, H: Hardware, A: Allocator, L: Ledger> Engine<M, H, A, L> {
    /// The least room of the window is guessed, or the window is taken where there is
    /// none: the slots are read as they are now, and nobody holds them for the call yet.
    pub fn go_guess(&mut self, core: CoreId, place: Place) -> Outcome
        requires { IsAt (world M.slots self.old) core (Phase.Guess place) }
        ensures { Goes (world M.slots self.old) core (Phase.Guess place) result (world M.slots self.new) }
    {
        let found = self.map.first_free_run(place.window, place.count);
        self.go_to(core, trying(place, guess_of(place, found)));
        Outcome::Stepped
    }

    /// The core's call, if it looks for a place, guesses the run from this page on, if it
    /// lies in its window.
    pub fn guess(&mut self, core: CoreId, first: u64) -> Outcome
        requires { IsOf (world M.slots self.old) core }
        ensures { GuessesThisRun (world M.slots self.old) core (phase_of self.old core) first result
            (world M.slots self.new) }
    {
        let Phase::Guess(place) = *self.stands(core) else {
            return Outcome::Idle;
        };
        if !has_run(place, first) {
            return Outcome::Idle;
        }
        self.go_to(core, trying(place, run_from(place, first)));
        Outcome::Stepped
    }

    /// The core's call, if it looks for a place, takes its window.
    pub fn take_window(&mut self, core: CoreId) -> Outcome
        requires { IsOf (world M.slots self.old) core }
        ensures { TakesWindow (world M.slots self.old) core (phase_of self.old core) result
            (world M.slots self.new) }
    {
        let Phase::Guess(place) = *self.stands(core) else {
            return Outcome::Idle;
        };
        self.go_to(core, trying(place, Target::Window));
        Outcome::Stepped
    }

    /// All pages of the target are held: the mapping goes to pages of it, looks
    /// elsewhere, or is refused.
    pub fn go_find(&mut self, core: CoreId, place: Place, target: Target) -> Outcome
        requires { IsAt (world M.slots self.old) core (Phase.Find place target) }
        ensures { Goes (world M.slots self.old) core (Phase.Find place target) result
            (world M.slots self.new) }
    {
        let held = target.range(place);
        match decide(&self.map, &self.objects, Goal::Place { place, target }) {
            Decision::Refuse(errno) => self.reply(core, Some(held), Reply::Refused(errno)),
            Decision::Act { range, .. } => self.go_to(
                core,
                Phase::Cut {
                    place,
                    target,
                    range,
                },
            ),
            Decision::Again => self.go_to(
                core,
                Phase::Back {
                    place,
                    target,
                    held,
                },
            ),
        }
        Outcome::Stepped
    }

    /// The leftmost slot that is held is unlocked. After the last the mapping looks elsewhere.
    pub fn go_back(
        &mut self,
        core: CoreId,
        place: Place,
        target: Target,
        held: PageRange,
    ) -> Outcome
        requires { IsAt (world M.slots self.old) core (Phase.Back place target held) }
        ensures { Goes (world M.slots self.old) core (Phase.Back place target held) result
            (world M.slots self.new) }
    {
        let unlocked_to = self.map.unlock_next(core, held.first, held.end);
        let left = held_after(held, unlocked_to);
        self.go_to(core, back_to(place, target, left));
        Outcome::Stepped
    }

    /// One step towards slots that don't cross an edge of the range where the mapping
    /// goes. A refusal for memory changes nothing.
    pub fn go_cut(
        &mut self,
        core: CoreId,
        place: Place,
        target: Target,
        range: PageRange,
    ) -> Result<Outcome, NoMemory>
        requires { IsAt (world M.slots self.old) core (Phase.Cut place target range) }
        ensures row { Tries (Goes (world M.slots self.old) core (Phase.Cut place target range))
            (WantsMemory L.keeps (world M.slots self.old) core (Phase.Cut place target range))
            (world M.slots self.old) result (world M.slots self.new) }
        ensures divides { IfOk result
            (λ outcome. GoesAsMap M.parts (M.slots self.old.map) core (Phase.Cut place target range)
            outcome (M.slots self.new.map)) }
    {
        match self.map.cut_next(core, range)? {
            Fit::Cut => {}
            Fit::Fits => {
                let goal = Goal::Place { place, target };
                let change = Change::Put {
                    range,
                    meta: place.meta,
                };
                self.go_to(core, Phase::Acks { goal, change });
            }
        }
        Ok(Outcome::Stepped)
    }
}
