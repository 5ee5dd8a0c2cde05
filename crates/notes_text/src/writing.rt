//! Notes as text: what is declared, and a line of each note, in order of tickets.
ghost use Rattle.std.specs.Prelude.{◌≡◌, ◌⊎◌, All, Err, IfOk, List, OnOk, map, true};
ghost use Rattle.std.specs.List.{flat_map};
ghost use Rattle.std.specs.List.Sorted.{IsNonDecreasingBy};
ghost use Rattle.trace_io.specs.Io.{IsWritten, written_to};
ghost use Rattle.seats.specs.Notes.{ticket_of};
ghost use Rattle.seats.specs.declared.noted.Noted.{Noted};
ghost use Rattle.seats.specs.Packing.{shown};
ghost use Rattle.certifier.specs.Order.{all_notes};
ghost use Rattle.notes_text.specs.Ordered.{AreInOrder};
ghost use Rattle.notes_text.specs.NotesWritten.{note_head, note_text, notes_text};
ghost use Rattle.notes_text.specs.WriteEnds.{Writes};

use crate::merging::{all_climb, least};
use crate::ordering::in_order;
use crate::verdict::write_both;
use seats::{Noted, Notes};
use std::alloc::Allocator;
use trace_io::sink::{Sink, WriteFailed};
use trace_text::{LineText, push_number};
use trace_words::declaration::Declaration;
use trace_words::declaring::write_declaration;
use trace_words::event_text::push_event;
use trace_words::fault::TraceFault;
use trace_words::outcome_text::write_outcome;
use trace_words::script::Script;
use vm_base::NoMemory;

// Replaces the text by what stands before a note's outcome.
fn put_head(text: &mut LineText, note: &Noted)
    ensures { text.new.bytes ≡ note_head note.now }
{
    text.clear();
    push_number(text, note.ticket);
    push_event(text, note.event);
    text.push_str(" = ");
}

// Writes the line of a note.
fn write_note<W: Sink>(writer: &mut W, note: &Noted) -> Result<(), WriteFailed>
    ensures { IsWritten result (written_to W.Sink writer.old writer.new) (note_text note.now) }
{
    let mut head = LineText::new();
    put_head(&mut head, note);
    let mut outcome = LineText::new();
    write_outcome(&mut outcome, note.outcome);
    write_both(
        writer,
        head.as_str().as_bytes(),
        outcome.as_str().as_bytes(),
    )
}

// Writes a line for each note, in order of tickets. In each list the tickets don't fall; notes with the same ticket go in order
// of the lists. What was written is taken off the lists.
fn write_merged<W: Sink>(writer: &mut W, lists: &mut [Notes<'_>]) -> Result<(), WriteFailed>
    requires { All (IsNonDecreasingBy ticket_of) (map shown lists.old) }
    ensures { (order : List Noted) × AreInOrder (all_notes (map shown lists.old)) order
        × IsWritten result (written_to W.Sink writer.old writer.new) (flat_map note_text order) }
{
    'notes: while let Some(head) = least(lists) {
        let list = lists[head.at];
        let note = list.get(0);
        let rest = list.rest();
        lists[head.at] = rest;
        if let Err(failed) = write_note(writer, &note) {
            return Err(failed);
        }
    }
    Ok(())
}

// Writes a line of each note.
fn write_each<W: Sink>(writer: &mut W, notes: &[Noted]) -> Result<(), WriteFailed>
    ensures { IsWritten result (written_to W.Sink writer.old writer.new) (flat_map note_text notes.now) }
{
    let mut at = 0;
    'notes: while at < notes.len() {
        let note = notes[at];
        if let Err(failed) = write_note(writer, &note) {
            return Err(failed);
        }
        at += 1;
    }
    Ok(())
}

// Writes what is declared and the notes.
fn write_lines<W: Sink>(
    writer: &mut W,
    declaration: &Declaration,
    notes: &[Noted],
) -> Result<(), WriteFailed>
    ensures { IsWritten result (written_to W.Sink writer.old writer.new) (notes_text declaration.now notes.now) }
{
    if let Err(failed) = write_declaration(writer, declaration) {
        return Err(failed);
    }
    write_each(writer, notes)
}

// The same, and a flush.
fn write_out<W: Sink>(
    writer: &mut W,
    declaration: &Declaration,
    notes: &[Noted],
) -> Result<(), WriteFailed>
    ensures wrote { IsWritten result (written_to W.Sink writer.old writer.new) (notes_text declaration.now notes.now) }
    ensures out { OnOk result (W.is_flushed writer.new ≡ true) }
{
    if let Err(failed) = write_lines(writer, declaration, notes) {
        return Err(failed);
    }
    writer.flush()
}

// The same of notes that are merged, and a flush.
fn merge_out<W: Sink>(
    writer: &mut W,
    declaration: &Declaration,
    lists: &mut [Notes<'_>],
) -> Result<(), WriteFailed>
    requires { All (IsNonDecreasingBy ticket_of) (map shown lists.old) }
    ensures wrote { (order : List Noted) × AreInOrder (all_notes (map shown lists.old)) order
        × IsWritten result (written_to W.Sink writer.old writer.new) (notes_text declaration.now order) }
    ensures out { OnOk result (W.is_flushed writer.new ≡ true) }
{
    if let Err(failed) = write_declaration(writer, declaration) {
        return Err(failed);
    }
    if let Err(failed) = write_merged(writer, lists) {
        return Err(failed);
    }
    writer.flush()
}

// The lists, each where its notes begin.
fn heads<'a, A: Allocator>(alloc: A, seats: &[Notes<'a>]) -> Result<Vec<Notes<'a>, A>, NoMemory>
    ensures { IfOk result (λ heads. map shown heads.items ≡ map shown seats.now) }
{
    let mut heads = Vec::new(alloc);
    let Ok(()) = heads.extend_from_slice(seats) else {
        return Err(NoMemory);
    };
    Ok(heads)
}

// The same of seats, which are merged: in each of them the tickets don't fall.
fn merge_notes<A: Allocator, W: Sink>(
    alloc: A,
    declaration: &Declaration,
    seats: &[Notes<'_>],
    writer: &mut W,
) -> Result<(), TraceFault>
    requires { All (IsNonDecreasingBy ticket_of) (map shown seats.now) }
    ensures ends { Writes declaration.now (all_notes (map shown seats.now)) (W.contents writer.old) (W.contents writer.new) result }
    ensures out { OnOk result (W.is_flushed writer.new ≡ true) }
    ensures kept { (result ≡ Err TraceFault.WriteFailed) ⊎ (W.failed writer.new ≡ W.failed writer.old) }
    ensures write { result ≡ Err TraceFault.WriteFailed → W.failed writer.new ≡ true }
{
    let Ok(mut lists) = heads(alloc, seats) else {
        return Err(TraceFault::NoMemory);
    };
    if let Err(_) = merge_out(writer, declaration, lists.as_mut_slice()) {
        return Err(TraceFault::WriteFailed);
    }
    Ok(())
}

/// Writes the notes of all seats as text: the `vm` line, always with CALLS, and the `file` lines of what the script declares, and
/// then of each note the line `TICKET EVENT = OUTCOME`. They stand in order of tickets, and notes that have one ticket in
/// order of seats. What was written has gone out then. Where the tickets of no seat fall, the seats are merged: memory is taken
/// for a list of the seats, and not for the notes. Else all notes are sorted. This memory is taken from the script's allocator
/// before anything is written; where it is refused, nothing is. At `WriteFailed` a front of the text was written.
#[tactic(auto, using(crate::proofs::PieceLemmas::wrote_all, crate::proofs::PieceLemmas::wrote_front, crate::proofs::PieceLemmas::wrote_none))]
pub fn write_notes<A: Allocator + Clone + Drop, W: Sink>(
    script: &Script<A>,
    seats: &[Notes<'_>],
    writer: &mut W,
) -> Result<(), TraceFault>
    ensures ends { Writes script.now.asked (all_notes (map shown seats.now)) (W.contents writer.old) (W.contents writer.new) result }
    ensures out { OnOk result (W.is_flushed writer.new ≡ true) }
    ensures kept { (result ≡ Err TraceFault.WriteFailed) ⊎ (W.failed writer.new ≡ W.failed writer.old) }
    ensures write { result ≡ Err TraceFault.WriteFailed → W.failed writer.new ≡ true }
{
    let Ok(for_order) = script.allocator().clone() else {
        return Err(TraceFault::NoMemory);
    };
    if all_climb(seats) {
        return merge_notes(for_order, script.declaration(), seats, writer);
    }
    let Ok(order) = in_order(for_order, seats) else {
        return Err(TraceFault::NoMemory);
    };
    if let Err(_) = write_out(writer, script.declaration(), order.as_slice()) {
        return Err(TraceFault::WriteFailed);
    }
    Ok(())
}
