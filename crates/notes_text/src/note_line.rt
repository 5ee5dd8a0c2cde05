//! What a line of notes says: `TICKET EVENT = OUTCOME`.
ghost use Rattle.std.specs.Prelude.{◌≡◌, ◌<◌, IfSome, IfNone};
ghost use Rattle.seats.specs.declared.noted.Noted.{Noted};
ghost use Rattle.trace_text.specs.Words.{words_of};
ghost use Rattle.notes_text.specs.Grammar.{NamesNote, event_said};
ghost use Rattle.notes_text.specs.Halves.{event_named, note_of};

use crate::outcome_words::read_outcome;
use machine_model::Event;
use seats::Noted;
use trace_text::number::next_number;
use trace_text::sign::halves;
use trace_text::{Line, read_words};
use trace_words::events::event_of;

// The event that the line asks for, where it asks for just one.
fn event_said(line: Line) -> Option<Event>
    ensures { result ≡ event_said line }
{
    match line {
        Line::Act(core, action) => Some(event_of(core, action)),
        Line::Fold(page) => Some(Event::Fold(page)),
        Line::Blank | Line::Space { .. } | Line::File { .. } | Line::Finish(_) | Line::Now(..) => {
            None
        }
    }
}

#[tactic(auto, unfolding(crate::specs::Halves::event_named))]
fn read_event(words: &[u8]) -> Option<Event>
    ensures { result ≡ event_named (words_of words.now) }
{
    let line = read_words(words)?;
    event_said(line)
}

#[tactic(auto, unfolding(crate::specs::Halves::note_of))]
fn read_halves(front: &[u8], behind: &[u8]) -> Option<Noted>
    ensures { result ≡ note_of (words_of front.now) (words_of behind.now) }
{
    let (ticket, words) = next_number(front)?;
    let event = read_event(words)?;
    let outcome = read_outcome(behind)?;
    Some(Noted {
        ticket,
        event,
        outcome,
    })
}

/// The note that the line names; `None` where it names none. Its event is one of a trace's lines, but
/// for `cC!` and `cC finish`, which are several, and its outcome any text of one but `stuck`.
pub fn read_note(line: &[u8]) -> Option<Noted>
    ensures some { IfSome result (λ note. NamesNote note (words_of line.now)) }
    ensures none { IfNone result ((note : Noted) → NamesNote note (words_of line.now) → ⊥) }
{
    let (front, behind) = halves(line)?;
    read_halves(front, behind)
}
