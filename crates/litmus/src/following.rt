//! Notes in order of their tickets.
ghost use Rattle.std.specs.Prelude.{◌≡◌, IfOk, length, map};
ghost use Rattle.seats.specs.Packing.{shown};
ghost use Rattle.certifier.specs.Following.{events_in_order, outcomes_in_order};
ghost use Rattle.certifier.specs.Order.{all_notes};
ghost use Rattle.certifier.specs.Standings.{AreStandings};

use certifier::order::{Standing, note_of};
use machine_model::{Event, Outcome};
use seats::Notes;
use std::alloc::Global;
use vm_base::NoMemory;

/// Events, and what they came to.
#[derive(Drop)]
pub(crate) struct Steps {
    pub events: Vec<Event>,
    pub outcomes: Vec<Outcome>,
}

/// The events of all notes in order of tickets, with what was noted of them. Where a ticket doesn't stand once there is no such
/// order.
pub(crate) fn steps_of(
    alloc: Global,
    seats: &[Notes<'_>],
    standings: &[Standing],
) -> Result<Steps, NoMemory>
    requires { AreStandings (map shown seats.now) standings.now }
    ensures events { IfOk result (λ steps. steps.events.items ≡ events_in_order (all_notes (map shown seats.now))) }
    ensures outcomes { IfOk result (λ steps. steps.outcomes.items ≡ outcomes_in_order (all_notes (map shown seats.now))) }
    ensures same { IfOk result (λ steps. length steps.outcomes.items ≡ length steps.events.items) }
{
    let mut events = Vec::new(alloc);
    let mut outcomes = Vec::new(alloc);
    'tickets: for at in 0..standings.len() {
        // (each stands once where the notes are certified)
        let Standing::Once(place) = standings[at] else {
            return Err(NoMemory);
        };
        let note = note_of(seats, place);
        events.push(note.event)?;
        outcomes.push(note.outcome)?;
    }
    Ok(Steps { events, outcomes })
}
