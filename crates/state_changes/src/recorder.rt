//! One who watches a machine's steps, and records what each changes in the text of the state.
ghost use Rattle.std.specs.Prelude.{◌≡◌, ◌++◌, [], IfOk, OnOk, true};
ghost use Rattle.state_changes.specs.Applied.{Differs};
ghost use Rattle.std.specs.Option.{is_some};
ghost use Rattle.core_steps.specs.Changing.{may_change};
ghost use Rattle.core_steps.specs.Machine.{state};
ghost use Rattle.state_text.specs.Counts.{counts_text};
ghost use Rattle.state_text.specs.declared.form.Form.TheVariants.{Text};
ghost use Rattle.state_text.specs.Texts.{seen_text};
ghost use Rattle.state_changes.specs.Recorded.{HasAdded, KeepsMaps, IsFresh, MomentOf, Recorded, Records, goes_on};

use crate::listing::mappings_of;
use crate::{Difference, difference_of};
use core_steps::Machine;
use machine_log::Ledger;
use machine_model::{Event, Outcome};
use slot_lock::SlotMap;
use state_seen::mirror::Mirror;
use state_text::Form;
use state_text::counts::put_counts;
use state_text::texts::put_state;
use std::alloc::{AllocError, Allocator, Global};
use std::marker::Model;
use vm_base::NoMemory;
use watched::Watch;

/// A step that was made.
#[derive(Drop)]
pub struct StateStep {
    goes_on: bool,
    change: Difference,
}

impl Model for StateStep {
    ghost use Rattle.state_changes.specs.Recorded.{MomentOf};

    ghost Value = { MomentOf };

    ghost view = { λ m. record { goes_on = m.goes_on; change = m.change } };
}

/// What each step changed in the text of the state. A clause sees it as `Recorded`.
#[derive(Drop)]
pub struct StateRecorder {
    alloc: Global,
    // Whether there was memory for all so far.
    whole: bool,
    mirror: Mirror<Global>,
    first: Vec<u8>,
    // The text of the mappings now.
    maps: Vec<u8>,
    text: Vec<u8>,
    moments: Vec<StateStep>,
}

impl Model for StateRecorder {
    ghost use Rattle.state_changes.specs.Recorded.{Recorded};

    ghost Value = { Recorded };

    ghost view = { λ r. record {
      whole = r.whole;
      seen = r.mirror;
      first = r.first.items;
      maps = r.maps.items;
      text = r.text.items;
      moments = r.moments.items;
    } };
}

impl StateStep {
    ghost use Rattle.std.specs.Prelude.{◌≡◌};

    /// Whether its call may go on: the outcome was a plain step.
    pub fn goes_on(&self) -> bool
        ensures { result ≡ self.now.goes_on }
    {
        self.goes_on
    }

    /// What it changed in the text of the state.
    pub fn change(&self) -> &Difference
        ensures { result.now ≡ self.now.change }
    {
        &self.change
    }
}

// Whether the outcome is a plain step.
fn goes_on(outcome: &Outcome) -> bool
    ensures { result ≡ goes_on outcome.now }
{
    match outcome {
        Outcome::Stepped => true,
        Outcome::Wait(_) | Outcome::Idle | Outcome::Answered(_) | Outcome::Full => false,
    }
}

// The text of what was seen before the first step, when nothing was mapped and nothing counted.
fn first_text(alloc: Global, mirror: &Mirror<Global>) -> Result<Vec<u8>, AllocError>
    ensures { IfOk result (λ text. text.items ≡ seen_text Text [] mirror.now) }
{
    let mut text = Vec::new(alloc);
    put_state(&mut text, Form::Text, mirror, b"")?;
    Ok(text)
}

// Lists the machine's mappings anew, where the step may have changed some.
fn renew_maps<M: SlotMap, A: Allocator + Clone, L: Ledger>(
    alloc: Global,
    maps: &mut Vec<u8>,
    machine: &Machine<M, A, L>,
    changes: bool,
) -> Result<(), AllocError>
    ensures { OnOk result (KeepsMaps changes (state machine.now) maps.old.items maps.new.items) }
{
    if changes {
        *maps = mappings_of(alloc, machine)?;
    }
    Ok(())
}

// The text of what was seen, of these mappings, and of the machine's counts.
fn text_of<M: SlotMap, A: Allocator + Clone, L: Ledger>(
    alloc: Global,
    mirror: &Mirror<Global>,
    maps: &[u8],
    machine: &Machine<M, A, L>,
) -> Result<Vec<u8>, AllocError>
    ensures { IfOk result (λ text. text.items ≡ seen_text Text maps.now mirror.now ++ counts_text Text (state machine.now)) }
{
    let mut text = Vec::new(alloc);
    put_state(&mut text, Form::Text, mirror, maps)?;
    put_counts(&mut text, Form::Text, machine)?;
    Ok(text)
}

impl StateRecorder {
    ghost use Rattle.std.specs.Prelude.{◌≡◌, ◌&&◌, IfOk, OnErr, true};
    ghost use Rattle.state_changes.specs.Recorded.{HasAdded, IsFresh};
    ghost use Rattle.core_steps.specs.Machine.{state};
    ghost use Rattle.state_text.specs.Texts.{seen_text};

    /// One who hasn't seen a step yet. An error is a refusal of memory.
    pub fn new(alloc: Global) -> Result<StateRecorder, AllocError>
        ensures { IfOk result IsFresh }
    {
        let mirror = Mirror::new(alloc)?;
        let first = first_text(alloc, &mirror)?;
        let text = first_text(alloc, &mirror)?;
        Ok(StateRecorder {
            alloc,
            whole: true,
            mirror,
            first,
            maps: Vec::new(alloc),
            text,
            moments: Vec::new(alloc),
        })
    }

    /// Whether all was recorded: there was memory for it.
    pub fn is_whole(&self) -> bool
        ensures { result ≡ (self.now.whole && self.now.seen.whole) }
    {
        self.whole && self.mirror.is_whole()
    }

    /// The text of the first state.
    pub fn first(&self) -> &[u8]
        ensures { result.now ≡ self.now.first }
    {
        self.first.as_slice()
    }

    /// The steps, in order.
    pub fn moments(&self) -> &[StateStep]
        ensures { result.now ≡ self.now.moments }
    {
        self.moments.as_slice()
    }

    // Adds a step that led to what is seen now, and to the machine's mappings and counts, and may have changed pages. At an error the text
    // and the steps are as before.
    fn add<M: SlotMap, A: Allocator + Clone, L: Ledger>(
        &mut self,
        machine: &Machine<M, A, L>,
        goes_on: bool,
        changes: bool,
    ) -> Result<(), AllocError>
        ensures whole { self.new.whole ≡ self.old.whole }
        ensures seen { self.new.seen ≡ self.old.seen }
        ensures first { self.new.first ≡ self.old.first }
        ensures added { IfOk result (λ u. HasAdded goes_on changes (state machine.now) self.old self.new) }
    {
        renew_maps(self.alloc, &mut self.maps, machine, changes)?;
        let text = text_of(self.alloc, &self.mirror, self.maps.as_slice(), machine)?;
        let change = difference_of(self.alloc, self.text.as_slice(), text.as_slice())?;
        self.moments.push(StateStep { goes_on, change })?;
        self.text = text;
        Ok(())
    }

    // The same, where there was memory for all before.
    fn note<M: SlotMap, A: Allocator + Clone, L: Ledger>(
        &mut self,
        machine: &Machine<M, A, L>,
        goes_on: bool,
        changes: bool,
    )
        ensures whole { self.new.whole ≡ true → self.old.whole ≡ true }
        ensures seen { self.new.seen ≡ self.old.seen }
        ensures first { self.new.first ≡ self.old.first }
        ensures added { self.new.whole ≡ true → HasAdded goes_on changes (state machine.now) self.old self.new }
    {
        if self.add(machine, goes_on, changes).is_err() {
            self.whole = false;
        }
    }
}

// Whether the event may change what pages have.
fn may_change_pages<M: SlotMap, A: Allocator + Clone, L: Ledger>(
    machine: &Machine<M, A, L>,
    event: &Event,
) -> bool
    ensures { result ≡ is_some (may_change (state machine.now) event.now) }
{
    let range = machine.may_change(*event);
    range.is_some()
}

impl Watch for StateRecorder {
    ghost after = { Records };

    fn step<M: SlotMap, A: Allocator + Clone, L: Ledger>(
        &mut self,
        machine: &mut Machine<M, A, L>,
        event: Event,
    ) -> Result<Outcome, NoMemory> {
        let changes = may_change_pages(machine, &event);
        let outcome = match self.mirror.step(machine, event) {
            Ok(outcome) => outcome,
            Err(refused) => return Err(refused),
        };
        self.note(machine, goes_on(&outcome), changes);
        Ok(outcome)
    }
}
