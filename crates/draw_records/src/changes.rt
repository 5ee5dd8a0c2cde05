//! Watches a whole run and records where mappings begin and end.
ghost use Rattle.std.specs.Prelude.{◌≡◌};
ghost use Rattle.core_steps.specs.Machine.{state};
ghost use Rattle.draw_records.specs.Changes.{Changes, ChangesRecorded, stood};

use crate::looking::phase_in;
use crate::recorder::moment_of;
use core_steps::Machine;
use draw_steps::moments::Recorded;
use ghost_list::GhostList;
use machine_log::Ledger;
use machine_model::{Event, Outcome, Phase};
use slot_lock::{Change, SlotMap};
use std::alloc::{AllocError, Allocator};
use std::marker::Model;
use vm_base::NoMemory;
use watched::Watch;

/// Records each change of mappings in a whole run, as many as there are. Its memory grows with them. A clause sees it as
/// `Changes`, and in them whether all memory was there.
#[derive(Drop)]
pub struct ChangeRecorder<A: Allocator> {
    steps: u64,
    all: GhostList<Recorded>,
    kept: Vec<Recorded, A>,
    // No memory was refused so far.
    is_whole: bool,
}

impl<A: Allocator> Model for ChangeRecorder<A> {
    ghost use Rattle.std.specs.Prelude.{◌≡◌, true};
    ghost use Rattle.draw_records.specs.Changes.{Changes};

    ghost Value = { Changes };

    ghost view = { λ r. record {
      steps = r.steps;
      moments = r.all.items;
      is_whole = r.is_whole;
    } };

    ghost invariant = { λ r. r.is_whole ≡ true → r.kept.items ≡ r.all.items };
}

// Where the call stands of which the event is a step.
fn stood<M: SlotMap, A: Allocator + Clone, L: Ledger>(
    machine: &Machine<M, A, L>,
    event: &Event,
) -> Phase
    ensures { result ≡ stood (state machine.now) event.now }
{
    match event {
        Event::Go(core) => phase_in(machine, *core),
        _ => Phase::Free,
    }
}

impl<A: Allocator> ChangeRecorder<A> {
    ghost use Rattle.std.specs.Prelude.{◌≡◌, IfOk, OnErr, OnOk, false, true};
    ghost use Rattle.draw_records.specs.Changes.{ChangeNoted, StepNoted, advanced, nothing_changed};

    /// A recorder before the first step of a run.
    pub fn new(alloc: A) -> ChangeRecorder<A>
        ensures { result ≡ nothing_changed }
    {
        ChangeRecorder {
            steps: 0,
            all: GhostList::new(),
            kept: Vec::new(alloc),
            is_whole: true,
        }
    }

    /// How many steps there were.
    pub fn steps(&self) -> u64
        ensures { result ≡ self.now.steps }
    {
        self.steps
    }

    /// All changes, in order. An error says that memory was refused for one of them; none is wanted here.
    pub fn moments(&self) -> Result<&[Recorded], AllocError>
        ensures moments { IfOk result (λ moments. moments.now ≡ self.now.moments) }
        ensures whole { OnOk result (self.now.is_whole ≡ true) }
        ensures refused { OnErr result (self.now.is_whole ≡ false) }
    {
        if self.is_whole {
            Ok(self.kept.as_slice())
        } else {
            Err(AllocError)
        }
    }

    // The next step.
    fn advance(&mut self)
        ensures { self.new ≡ advanced self.old }
    {
        self.steps = self.steps.saturating_add(1);
    }

    // The change is made in this step.
    fn note(&mut self, change: &Change)
        ensures { ChangeNoted self.old change.now self.new }
    {
        let recorded = Recorded {
            step: self.steps,
            moment: moment_of(change),
        };
        let was_whole = self.is_whole;
        self.is_whole = false;
        self.all = self.all.and(&recorded);
        if was_whole && self.kept.push(recorded).is_ok() {
            self.is_whole = true;
        }
    }

    // A call that stood so came to this outcome.
    fn come(&mut self, phase: &Phase, outcome: &Outcome)
        ensures { StepNoted self.old phase.now outcome.now self.new }
    {
        if let Phase::Acks { change, .. } = phase {
            if *outcome == Outcome::Stepped {
                self.note(change);
            }
        }
    }
}

impl<B: Allocator> Watch for ChangeRecorder<B> {
    ghost after = { ChangesRecorded };

    fn step<M: SlotMap, A: Allocator + Clone, L: Ledger>(
        &mut self,
        machine: &mut Machine<M, A, L>,
        event: Event,
    ) -> Result<Outcome, NoMemory> {
        let phase = stood(machine, &event);
        let outcome = match machine.step(event) {
            Ok(outcome) => outcome,
            Err(refused) => return Err(refused),
        };
        self.advance();
        self.come(&phase, &outcome);
        Ok(outcome)
    }
}
