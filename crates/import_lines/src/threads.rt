//! The lines of a log, each about a thread: those that name none are about the first one.
ghost use Rattle.std.specs.Prelude.{◌≡◌, map};
ghost use Rattle.import_lines.specs.Threads.{renamed};

use crate::line::Line;
use crate::lines::KeptLines;
use std::marker::Model;

/// The lines of a log. A clause sees them as what they say.
#[derive(Drop)]
pub struct ThreadLines {
    lines: KeptLines,
    // The thread that the lines are about which name none.
    first: u64,
}

impl Model for ThreadLines {
    ghost use Rattle.std.specs.Prelude.{List, map};
    ghost use Rattle.import_forms.specs.Speech.{Spoken};
    ghost use Rattle.import_lines.specs.Threads.{renamed};

    ghost Value = { List Spoken };

    ghost view = { λ s. map (renamed s.first) s.lines };
}

impl ThreadLines {
    ghost use Rattle.std.specs.Prelude.{◌≡◌, ◌<◌, length, map};
    ghost use Rattle.import_lines.specs.Joining.{speech_at};
    ghost use Rattle.import_lines.specs.Lines.{kept_of, kept_text};
    ghost use Rattle.import_lines.specs.Threads.{renamed};

    /// These lines, as they are.
    #[tactic(auto, using(crate::proofs::ThreadLemmas::none_renamed))]
    pub fn new(lines: KeptLines) -> ThreadLines
        ensures { result ≡ lines }
    {
        ThreadLines { lines, first: 0 }
    }

    /// The same, but lines that name no thread are about this one.
    #[tactic(auto, using(crate::proofs::ThreadLemmas::renamed_first, crate::proofs::ThreadLemmas::renamed_again))]
    pub fn with_first(self, first: u64) -> ThreadLines
        ensures { result ≡ map (renamed first) self }
    {
        if self.first == 0 {
            ThreadLines {
                lines: self.lines,
                first,
            }
        } else {
            self
        }
    }

    /// How many there are.
    #[tactic(auto, using(crate::proofs::ThreadLemmas::renamed_long))]
    pub fn len(&self) -> usize
        ensures { result ≡ length self.now }
    {
        self.lines.len()
    }

    /// Whose this one is.
    pub fn thread(&self, place: usize) -> u64
        requires { place < length self.now }
        ensures { result ≡ (speech_at self.now place).0 }
    {
        let thread = self.lines.thread(place);
        if thread == 0 { self.first } else { thread }
    }

    /// What is kept of this one.
    pub(crate) fn line(&self, place: usize) -> Line<'_>
        requires { place < length self.now }
        ensures { kept_of result ≡ kept_text (speech_at self.now place).1 }
    {
        self.lines.line(place)
    }
}
