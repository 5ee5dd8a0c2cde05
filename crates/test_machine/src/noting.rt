//! Steps of a machine over the tree, noted as seats note them.
ghost use Rattle.slot_lock.specs.Slots.{IsNew};

use crate::by_hand::{Moves, outcome_of};
use crate::machines::machine_over;
use machine_model::{Event, Outcome};
use radix_range::RadixMap;
use seats::Noted;
use slot_lock::SlotMap;
use std::alloc::{Allocator, Global};
use test_support::setups::declared;
use trace_text::read_line;
use vm_base::NoMemory;

/// A space each of whose steps is noted, with tickets from 0 on.
#[derive(Drop)]
struct Noting<'s, S> {
    space: &'s mut S,
    notes: Vec<Noted, Global>,
}

impl<'s, S: Moves> Moves for Noting<'s, S> {
    fn take(&mut self, event: Event) -> Result<Outcome, NoMemory> {
        let mut note = Noted {
            ticket: self.notes.len() as u64,
            event,
            outcome: Outcome::Idle,
        };
        note.outcome = self.space.take(note.event)?;
        let outcome = note.outcome;
        self.notes.push(note)?;
        Ok(outcome)
    }

    fn push_state(&self, alloc: Global, out: &mut String<Global>) -> Result<(), NoMemory> {
        self.space.push_state(alloc, out)
    }
}

/// The notes of a trace's steps on a space.
fn noted<S: Moves>(
    alloc: Global,
    space: &mut S,
    trace: &str,
) -> Result<Vec<Noted, Global>, NoMemory> {
    let mut noting = Noting {
        space,
        notes: Vec::new(alloc),
    };
    for line in trace.lines() {
        outcome_of(&mut noting, read_line(line.as_bytes()))?;
    }
    Ok(noting.notes)
}

/// What a new machine over this map, with this memory, notes of a trace's steps.
fn noted_over<M: SlotMap + Drop, A: Allocator + Clone + Drop>(
    alloc: Global,
    memory: A,
    map: M,
    trace: &str,
) -> Result<Vec<Noted, Global>, NoMemory>
    requires { IsNew (M.slots map) }
{
    let mut machine = machine_over(memory, map, &declared(trace))?;
    noted(alloc, &mut machine, trace)
}

/// What a machine over the tree notes of a trace's steps.
pub fn notes_of_lines(alloc: Global, trace: &str) -> Result<Vec<Noted, Global>, NoMemory> {
    noted_over(alloc, alloc, RadixMap::new(alloc)?, trace)
}
