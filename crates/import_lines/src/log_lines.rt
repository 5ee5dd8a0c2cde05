//! A log of strace as it is read, line by line: what is kept of its lines, and the first that isn't read.
ghost use Rattle.std.specs.Prelude.{◌≡◌, ◌++◌, ◌∷◌, [], ℕ, List, OnOk, take};
ghost use Rattle.import_forms.specs.Said.{said_of};
ghost use Rattle.import_forms.specs.Speech.{spoken};
ghost use Rattle.import_lines.specs.LogLines.{IsRead, IsReadBy, front_left, is_unread, spoken_whole};
ghost use Rattle.import_lines.specs.Lines.{kept_of, kept_text};

use crate::line::{Line, read_line};
use crate::lines::KeptLines;
use crate::reading::Listener;
use import_forms::said::{Said, read_call};
use import_forms::speech::{Speech, broken, read_speech};
use std::alloc::{AllocError, Global};

/// A log of strace, as far as it is read.
#[derive(Drop)]
pub struct StraceLog {
    /// What its lines say.
    pub lines: KeptLines,
    /// Whether some line isn't read.
    pub found: bool,
    /// The first that isn't, 80 bytes at most.
    pub unread: Vec<u8>,
    /// What stands before a message about a thread in the last line, where that ends with one.
    pub broken: Vec<u8>,
    alloc: Global,
}

// Tells whether what is said isn't read.
fn is_unread(said: Said) -> bool
    ensures { result ≡ is_unread said }
{
    match said {
        Said::Unread | Said::Other => true,
        Said::Asks(_)
        | Said::Breaks(_)
        | Said::Moves { .. }
        | Said::Makes { .. }
        | Said::Begins
        | Said::Keyed(_)
        | Said::Sizes { .. }
        | Said::Attaches { .. }
        | Said::Detaches(_)
        | Said::Clears { .. }
        | Said::Loses(_)
        | Said::Ends
        | Said::Fails => false,
    }
}

// The first bytes of a line, 80 at most.
#[tactic(auto, using(std::proofs::lemmas::List::take_min))]
fn front_of(line: &[u8]) -> &[u8]
    ensures { result.now ≡ take 80 line.now }
{
    &line[..80usize.min(line.len())]
}

// What a text says, of which this is kept.
#[tactic(auto, using(crate::proofs::HalfLemmas::whole_said))]
fn said_of<'a>(text: &[u8], line: Line<'a>) -> Said
    requires { kept_of line ≡ kept_text text.now }
    ensures { result ≡ said_of text.now }
{
    if line.half {
        read_call(text)
    } else {
        line.said
    }
}

/// What a text says, and of which thread; and what stands before a message about a thread, where the text ends with
/// one: it goes on after that.
pub fn read_text(text: &[u8]) -> (Speech<'_>, &[u8])
    ensures speech { spoken result.0 ≡ spoken_whole text.now }
    ensures front { result.1.now ≡ front_left text.now }
{
    match broken(text) {
        Some((front, thread)) => (
            Speech {
                thread,
                text: b"".as_slice(),
            },
            front,
        ),
        None => (read_speech(text), b"".as_slice()),
    }
}

// Hears a line, whose text with what stands before a message in the line before it is this.
fn hear_whole(log: &mut StraceLog, text: &[u8], line: &[u8]) -> Result<(), AllocError>
    requires { log.old.broken.items ≡ [] }
    ensures { OnOk result ((all : List (List ℕ)) (front : List ℕ)
        → IsReadBy all log.old.lines log.old.found log.old.unread.items front → text.now ≡ front ++ line.now
        → IsRead (all ++ line.now ∷ []) log.new) }
{
    let (speech, front) = read_text(text);
    let kept = read_line(speech.text);
    log.lines.push(speech, kept)?;
    log.broken.extend_from_slice(front)?;
    if log.found {
        return Ok(());
    }
    if !is_unread(said_of(speech.text, kept)) {
        return Ok(());
    }
    log.unread.extend_from_slice(front_of(line))?;
    log.found = true;
    Ok(())
}

impl StraceLog {
    ghost use Rattle.std.specs.Prelude.{[]};
    ghost use Rattle.import_lines.specs.LogLines.{IsRead};

    /// No line yet.
    pub fn new(alloc: Global) -> StraceLog
        ensures { IsRead [] result }
    {
        StraceLog {
            lines: KeptLines::new(alloc),
            found: false,
            unread: Vec::new(alloc),
            broken: Vec::new(alloc),
            alloc,
        }
    }
}

impl Listener for StraceLog {
    ghost use Rattle.import_lines.specs.LogLines.{IsRead};

    ghost has_heard = { λ s lines. IsRead lines s };

    fn hear(&mut self, line: &[u8]) -> Result<(), AllocError> {
        if self.broken.as_slice().is_empty() {
            return hear_whole(self, line, line);
        }
        let mut whole: Vec<u8> = Vec::new(self.alloc);
        whole.extend_from_slice(self.broken.as_slice())?;
        whole.extend_from_slice(line)?;
        self.broken.clear();
        hear_whole(self, whole.as_slice(), line)
    }
}
