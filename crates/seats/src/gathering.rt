//! All seats of a word together: what they noted has the tickets from 0 on, each once.
ghost use Rattle.std.specs.Prelude.{◌≡◌, IfErr, IfOk, map};
ghost use Rattle.seats.specs.Gathered.{AreAll, AreWhole};

use crate::note_list::NoteList;
use crate::seat::{Parts, Seat};
use crate::tickets::Tickets;
use std::alloc::Allocator;

/// What all seats of the word noted, a list for each, in their order: the tickets of each list rise, and those of all lists
/// are the numbers below that of all notes, each once. Where memory is refused the seats come back.
pub fn gather<A: Allocator>(
    alloc: A,
    word: &Tickets<A>,
    mut seats: Vec<Seat<A>, A>,
) -> Result<Vec<NoteList<A>, A>, Vec<Seat<A>, A>>
    requires { AreAll word.now seats.items }
    ensures notes { IfOk result (λ all. map (λ list. list.notes) all.items ≡ map (λ s. s.notes) seats.items) }
    ensures whole { IfOk result (λ all. AreWhole (map (λ list. list.notes) all.items)) }
    ensures back { IfErr result (λ back. back.items ≡ seats.items) }
{
    let Ok(mut all) = Vec::with_capacity(alloc, seats.len()) else {
        return Err(seats);
    };
    // (there is one at least)
    let Some(last) = seats.pop() else {
        return Err(seats);
    };
    let Parts { ticketer, notes } = last.into_parts();
    let mut joined = ticketer.into_joined();
    let last = notes;
    'seats: for seat in seats {
        let Parts { ticketer, notes } = seat.into_parts();
        word.join(&mut joined, ticketer);
        all.push_reserved(notes);
    }
    all.push_reserved(last);
    let _count = word.count(&mut joined);
    Ok(all)
}
