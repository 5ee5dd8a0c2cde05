//! One event: a call begins or goes one step on, a core acts for itself, or slots are joined. The steps
//! of calls are in `rows`; a file here has what another event does, or what is asked of an event.
ghost use Rattle.std.specs.Prelude.{◌≡◌, ◌+◌, ◌^◌, ◌<◌, length, true, IfOk};
ghost use Rattle.machine_model.specs.declared.event.Event.{Event};
ghost use Rattle.machine_model.specs.Events.{core_of};
ghost use Rattle.machine_model.specs.Step.{Acts, Begins, Goes, Step, is_here};
ghost use Rattle.machine_model.specs.Invariant.{IsWellFormed};
ghost use Rattle.core_steps.specs.State.{phase_of, world};
ghost use Rattle.core_steps.specs.Moving.{JoinsAsMap, MayWant, Tries, WantsMemory};
ghost use Rattle.core_steps.specs.Dividing.{DividesAsMap, GoesAsMap};

pub mod core_events;
pub mod counting;
pub mod give_up;
pub mod next_changes;

use crate::engine::Engine;
use machine_log::ledger::Ledger;
use machine_model::{Event, Outcome, Phase};
use mmu::Hardware;
use slot_lock::SlotMap;
use std::alloc::Allocator;
use vm_base::{CoreId, NoMemory, Request};

impl<M: SlotMap, H: Hardware, A: Allocator, L: Ledger> Engine<M, H, A, L> {
    /// A call begins, if the core has none and the limit of calls isn't reached.
    pub fn call(&mut self, core: CoreId, request: Request) -> Outcome
        requires { core < length self.old.calls.phases.items }
        ensures { Begins (world M.slots self.old) core request (phase_of self.old core) result
            (world M.slots self.new) }
    {
        match self.calls.phases[core.index() as usize] {
            Phase::Free => {
                if self.calls.is_full() {
                    return Outcome::Full;
                }
                self.number_call(core, request);
                self.go_to(core, Phase::Check(request));
                Outcome::Stepped
            }
            _ => Outcome::Idle,
        }
    }

    /// The core's call goes one step on. A refusal for memory changes nothing.
    fn go(&mut self, core: CoreId) -> Result<Outcome, NoMemory>
        requires here { core < length self.old.calls.phases.items }
        requires well { ∥ IsWellFormed (world M.slots self.old) ∥₁ }
        ensures row { Tries (Goes (world M.slots self.old) core (phase_of self.old core))
            (WantsMemory L.keeps (world M.slots self.old) core (phase_of self.old core))
            (world M.slots self.old) result (world M.slots self.new) }
        ensures divides { IfOk result
            (λ outcome. GoesAsMap M.parts (M.slots self.old.map) core (phase_of self.old core) outcome
            (M.slots self.new.map)) }
    {
        match *self.stands(core) {
            Phase::Free => Ok(Outcome::Idle),
            Phase::Check(request) => Ok(self.go_check(core, request)),
            Phase::Lock { goal, cursor } => self.go_lock(core, goal, cursor),
            Phase::Guess(place) => Ok(self.go_guess(core, place)),
            Phase::Find { place, target } => Ok(self.go_find(core, place, target)),
            Phase::Back {
                place,
                target,
                held,
            } => Ok(self.go_back(core, place, target, held)),
            Phase::Cut {
                place,
                target,
                range,
            } => self.go_cut(core, place, target, range),
            Phase::Decide(change) => Ok(self.go_decide(core, change)),
            Phase::Post { change, shoot } => Ok(self.go_post(core, change, shoot)),
            Phase::Acks { goal, change } => Ok(self.go_acks(core, goal, change)),
            Phase::Unlock { held, reply } => Ok(self.go_unlock(core, held, reply)),
            Phase::Answer(reply) => Ok(self.go_answer(core, reply)),
            Phase::Try(touch) => Ok(self.go_try(core, touch)),
            Phase::Settle(touch) => Ok(self.go_settle(core, touch)),
            Phase::Want { touch, old } => Ok(self.go_want(core, touch, old)),
            Phase::Fill { touch, frame } => self.go_fill(core, touch, frame),
            Phase::CopyPost { touch, frame } => Ok(self.go_copy_post(core, touch, frame)),
            Phase::CopyAcks { touch, frame } => self.go_copy_acks(core, touch, frame),
            Phase::Install(touch) => self.go_install(core, touch),
            Phase::Release(touch) => Ok(self.go_release(core, touch)),
        }
    }

    /// What the event does, its core being one of the machine's. A refusal for memory changes nothing.
    #[inline(always)]
    fn act(&mut self, event: Event) -> Result<Outcome, NoMemory>
        requires here { is_here (world M.slots self.old).made (core_of event) ≡ true }
        requires well { ∥ IsWellFormed (world M.slots self.old) ∥₁ }
        ensures row { Tries (Acts (world M.slots self.old) event)
            (MayWant L.keeps (world M.slots self.old) event)
            (world M.slots self.old) result (world M.slots self.new) }
        ensures joins { IfOk result
            (λ outcome. JoinsAsMap M.can_fold M.folds (world M.slots self.old) event outcome
            (world M.slots self.new)) }
        ensures divides { IfOk result
            (λ outcome. DividesAsMap M.parts (world M.slots self.old) event outcome (world M.slots self.new)) }
    {
        match event {
            Event::Call(core, request) => Ok(self.call(core, request)),
            Event::Go(core) => self.go(core),
            Event::Frame(core, frame) => Ok(self.take_frame(core, frame)),
            Event::Guess(core, first) => Ok(self.guess(core, first)),
            Event::Whole(core) => Ok(self.take_window(core)),
            Event::Take(core) => Ok(self.take(core)),
            Event::Walk(core, page) => Ok(self.walk(core, page)),
            Event::Evict(core, page) => Ok(self.evict(core, page)),
            Event::Flush(core) => Ok(self.flush(core)),
            Event::Review(core) => Ok(self.review(core)),
            Event::Fold(page) => Ok(self.fold(page)),
            Event::GiveUp(core) => Ok(self.give_up(core)),
        }
    }

    /// Tells whether the core is the machine's, if an event has one.
    pub fn is_here(&self, core: Option<CoreId>) -> bool
        ensures { result ≡ is_here (world M.slots self.now).made core }
    {
        match core {
            Some(core) => (core.index() as usize) < self.calls.phases.len(),
            None => true,
        }
    }

    /// One event, which is counted unless memory is refused; then nothing changes.
    #[inline(always)]
    pub fn step(&mut self, event: Event) -> Result<Outcome, NoMemory>
        requires { ∥ IsWellFormed (world M.slots self.old) ∥₁ }
        ensures step { Tries (Step (world M.slots self.old) event)
            (MayWant L.keeps (world M.slots self.old) event)
            (world M.slots self.old) result (world M.slots self.new) }
        ensures joins { IfOk result
            (λ outcome. JoinsAsMap M.can_fold M.folds (world M.slots self.old) event outcome
            (world M.slots self.new)) }
        ensures divides { IfOk result
            (λ outcome. DividesAsMap M.parts (world M.slots self.old) event outcome (world M.slots self.new)) }
    {
        if self.calls.events == u64::MAX {
            return Ok(Outcome::Full);
        }
        self.calls.events += 1;
        if !self.is_here(event.core()) {
            return Ok(Outcome::Idle);
        }
        match self.act(event) {
            Ok(outcome) => Ok(outcome),
            Err(NoMemory) => {
                self.calls.events -= 1;
                Err(NoMemory)
            }
        }
    }
}
