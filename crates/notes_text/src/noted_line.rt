//! Notes as the lines after a declaration.
ghost use Rattle.std.specs.Prelude.{true};
ghost use Rattle.notes_text.specs.Grammar.{NamesNote};

use crate::note_line::read_note;
use seats::Noted;
use trace_words::collector::LineOf;

/// The lines of notes.
pub struct NoteLines;

impl LineOf<Noted> for NoteLines {
    ghost needs_calls = { true };

    ghost names = { λ cores note words. NamesNote note words };

    fn needs_calls() -> bool {
        true
    }

    fn read(_cores: u64, line: &[u8]) -> Option<Noted> {
        read_note(line)
    }
}
