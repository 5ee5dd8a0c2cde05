//! A space in which a script was run.
ghost use Rattle.std.specs.Prelude.{◌≡◌, All, IfOk, map};
ghost use Rattle.seats.specs.Gathered.{AreWhole};
ghost use Rattle.seats.specs.Fitting.{FitsTypes};
ghost use Rattle.seats.specs.Packing.{shown};
ghost use Rattle.live_tree.specs.Named.{BearWord};
ghost use Rattle.live_script.specs.Certified.{AreRising};
ghost use Rattle.live_script.specs.Runs.{RanView};

use crate::lane::Lane;
use live_space::space::Live;
use live_tree::histories::Histories;
use seats::{NoteList, Notes, Seat};
use std::alloc::Allocator;
use std::marker::Model;
use vm_base::NoMemory;

/// A space in which a script was run, with all its seats, one for each core.
#[derive(Drop)]
pub struct RunSpace<A: Allocator + Clone> {
    pub(crate) live: Live<A>,
    pub(crate) lanes: Vec<Lane<A>, A>,
}

impl<A: Allocator + Clone> Model for RunSpace<A> {
    ghost use Rattle.std.specs.Prelude.{map};
    ghost use Rattle.seats.specs.Gathered.{AreAll};
    ghost use Rattle.live_script.specs.Runs.{RanView};

    ghost Value = { RanView };

    ghost view = { λ r. record { live = r.live; seats = map (λ lane. lane.seat) r.lanes.items } };

    ghost invariant = { λ r. AreAll r.live.word (map (λ lane. lane.seat) r.lanes.items) };
}

impl<A: Allocator + Clone> RunSpace<A> {
    /// What each seat noted, in order of cores. The tickets of each seat rise.
    pub fn notes(&self, alloc: A) -> Result<Vec<Notes<'_>, A>, NoMemory>
        ensures are { IfOk result (λ all. map shown all.items ≡ map (λ s. s.notes) self.now.seats) }
        ensures rising { IfOk result (λ all. All AreRising (map shown all.items)) }
    {
        notes_of(alloc, self.lanes.as_slice())
    }

    /// Takes all seats back: what is left is what each noted, in order of cores. The tickets of each seat rise, and
    /// those of all are the numbers below that of all notes, each once. Memory may be refused.
    pub fn into_notes(self, alloc: A) -> Result<Vec<NoteList<A>, A>, NoMemory>
        ensures are { IfOk result (λ all. map (λ list. list.notes) all.items ≡ map (λ s. s.notes) self.seats) }
        ensures whole { IfOk result (λ all. AreWhole (map (λ list. list.notes) all.items)) }
    {
        let RunSpace { live, lanes } = self;
        let seats = seats_of(alloc, lanes)?;
        match live.gather(seats) {
            Ok(notes) => Ok(notes),
            Err(_) => Err(NoMemory),
        }
    }

    /// Ends the space: what is left is what its seats noted, as of `into_notes`, and the histories of its own slots.
    /// Memory for these may be wanting.
    pub fn end(self, alloc: A) -> Result<RunNotes<A>, NoMemory>
        ensures are { IfOk result (λ ended. map (λ list. list.notes) ended.notes.items
            ≡ map (λ s. s.notes) self.seats) }
        ensures whole { IfOk result (λ ended. AreWhole (map (λ list. list.notes) ended.notes.items)) }
        ensures word { IfOk result (λ ended. BearWord self.live.word ended.histories) }
    {
        let RunSpace { live, lanes } = self;
        let seats = seats_of(alloc, lanes)?;
        let Ok(notes) = live.gather(seats) else {
            return Err(NoMemory);
        };
        match live.close() {
            Ok(histories) => Ok(RunNotes { notes, histories }),
            Err(_) => Err(NoMemory),
        }
    }
}

/// What is left of a space in which a script was run: what its seats noted, and the histories of its slots.
#[derive(Drop)]
pub struct RunNotes<A: Allocator> {
    pub(crate) notes: Vec<NoteList<A>, A>,
    pub histories: Histories<A>,
}

impl<A: Allocator> RunNotes<A> {
    /// What each seat noted, in order of cores.
    pub fn notes(&self, alloc: A) -> Result<Vec<Notes<'_>, A>, NoMemory>
        ensures { IfOk result (λ all. map shown all.items
            ≡ map (λ list. list.notes) self.now.notes.items) }
    {
        lend(alloc, self.notes.as_slice())
    }
}

// The seats of the lanes.
fn seats_of<A: Allocator>(alloc: A, lanes: Vec<Lane<A>, A>) -> Result<Vec<Seat<A>, A>, NoMemory>
    ensures { IfOk result (λ seats. seats.items ≡ map (λ lane. lane.seat) lanes.items) }
{
    let mut seats = Vec::with_capacity(alloc, lanes.len())?;
    'lanes: for lane in lanes {
        let Lane { seat, .. } = lane;
        seats.push(seat)?;
    }
    Ok(seats)
}

// What each seat noted, lent. The notes have numbers as their types have them.
pub(crate) fn lend<A: Allocator>(
    alloc: A,
    notes: &[NoteList<A>],
) -> Result<Vec<Notes<'_>, A>, NoMemory>
    ensures are { IfOk result (λ all. map shown all.items ≡ map (λ list. list.notes) notes.now) }
    ensures typed { IfOk result (λ all. All (All FitsTypes) (map shown all.items)) }
{
    let mut all = Vec::with_capacity(alloc, notes.len())?;
    'seats: for at in 0..notes.len() {
        all.push(notes[at].notes())?;
    }
    Ok(all)
}

// What the seat of each lane noted.
pub(crate) fn notes_of<A: Allocator>(
    alloc: A,
    lanes: &[Lane<A>],
) -> Result<Vec<Notes<'_>, A>, NoMemory>
    ensures are { IfOk result (λ all. map shown all.items ≡ map (λ lane. lane.seat.notes) lanes.now) }
    ensures rising { IfOk result (λ all. All AreRising (map shown all.items)) }
{
    let mut all = Vec::with_capacity(alloc, lanes.len())?;
    'lanes: for at in 0..lanes.len() {
        let notes = lanes[at].seat.noted();
        all.push(notes)?;
    }
    Ok(all)
}
