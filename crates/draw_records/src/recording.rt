//! A recorder watches each step.
ghost use Rattle.std.specs.Prelude.{◌≡◌};
ghost use Rattle.core_steps.specs.Machine.{state};
ghost use Rattle.draw_records.specs.Looking.{came, gone, idled, recorded, replied, stepped, taken, waited};
ghost use Rattle.watched.specs.Watching.{makes};

use crate::looking::{Before, awaited_by, look, pass_of};
use crate::recorder::Recorder;
use core_steps::Machine;
use draw_steps::moments::Deed;
use machine_log::Ledger;
use machine_model::{Event, Outcome, Phase};
use slot_lock::{Change, SlotMap};
use std::alloc::Allocator;
use vm_base::{CoreId, NoMemory, Reply};
use watched::Watch;

impl<B: Allocator> Recorder<B> {
    ghost use Rattle.std.specs.Prelude.{◌≡◌};
    ghost use Rattle.core_steps.specs.Machine.{state};
    ghost use Rattle.draw_records.specs.Looking.{came, gone, idled, recorded, replied, stepped, taken, waited};

    // The core's call, which stood so, went on.
    fn go<M: SlotMap, A: Allocator + Clone, L: Ledger>(
        &mut self,
        machine: &Machine<M, A, L>,
        core: CoreId,
        phase: &Phase,
    )
        ensures { self.new ≡ gone self.old core phase.now (state machine.now) }
    {
        match phase {
            Phase::Acks { change, .. } => self.make(change),
            Phase::Post { .. } | Phase::CopyPost { .. } => self.tell(
                core,
                awaited_by(machine, core),
            ),
            _ => (),
        }
    }

    // The core acted on a message of this one.
    fn take<M: SlotMap, A: Allocator + Clone, L: Ledger>(
        &mut self,
        machine: &Machine<M, A, L>,
        core: CoreId,
        sender: &Option<CoreId>,
    )
        ensures { self.new ≡ taken self.old core sender.now (state machine.now) }
    {
        if let Some(sender) = sender {
            let pass = pass_of(machine, *sender, core);
            self.take_of(core, *sender, pass);
        }
    }

    // A plain step, and what was seen before it.
    fn step_on<M: SlotMap, A: Allocator + Clone, L: Ledger>(
        &mut self,
        machine: &Machine<M, A, L>,
        before: &Before,
        event: &Event,
    )
        ensures { self.new ≡ stepped self.old before.now event.now (state machine.now) }
    {
        match event {
            Event::Call(core, request) => self.begin(*core, *request),
            Event::Go(core) => self.go(machine, *core, &before.phase),
            Event::Take(core) => self.take(machine, *core, &before.sender),
            Event::Walk(core, _) => self.deed(*core, Deed::Walk),
            Event::Evict(core, _) => self.deed(*core, Deed::Evict),
            Event::Flush(core) => self.deed(*core, Deed::Flush),
            Event::Review(core) => self.deed(*core, Deed::Review),
            Event::Frame(..)
            | Event::Guess(..)
            | Event::Whole(_)
            | Event::Fold(_)
            | Event::GiveUp(_) => (),
        }
    }

    // An event that wasn't possible.
    fn idle(&mut self, event: &Event)
        ensures { self.new ≡ idled self.old event.now }
    {
        if let Event::Take(core) = event {
            self.deed(*core, Deed::Idle);
        }
    }

    // A call that waits.
    fn wait(&mut self, core: &Option<CoreId>)
        ensures { self.new ≡ waited self.old core.now }
    {
        if let Some(core) = core {
            self.deed(*core, Deed::Wait);
        }
    }

    // A call that is answered.
    fn reply(&mut self, core: &Option<CoreId>, reply: Reply)
        ensures { self.new ≡ replied self.old core.now reply }
    {
        if let Some(core) = core {
            self.answer(*core, reply);
        }
    }

    /// What an event came to, and what was seen before it.
    pub fn come<M: SlotMap, A: Allocator + Clone, L: Ledger>(
        &mut self,
        machine: &Machine<M, A, L>,
        before: &Before,
        event: &Event,
        outcome: &Outcome,
    )
        ensures { self.new ≡ came self.old before.now event.now outcome.now (state machine.now) }
    {
        match outcome {
            Outcome::Stepped => self.step_on(machine, before, event),
            Outcome::Wait(_) => self.wait(&event.core()),
            Outcome::Idle => self.idle(event),
            Outcome::Answered(reply) => self.reply(&event.core(), *reply),
            Outcome::Full => (),
        }
    }
}

impl<B: Allocator> Watch for Recorder<B> {
    ghost after = { makes recorded };

    fn step<M: SlotMap, A: Allocator + Clone, L: Ledger>(
        &mut self,
        machine: &mut Machine<M, A, L>,
        event: Event,
    ) -> Result<Outcome, NoMemory> {
        let before = look(machine, self.told(), &event);
        let outcome = match machine.step(event) {
            Ok(outcome) => outcome,
            Err(refused) => return Err(refused),
        };
        self.advance(machine.cores() as u64);
        self.come(machine, &before, &event, &outcome);
        Ok(outcome)
    }
}
