//! The result of certifying a text of notes, and the line that tells it.
ghost use Rattle.std.specs.Prelude.{◌≡◌, ◌++◌, ◌≤◌, codes, decimal, length};
ghost use Rattle.trace_io.specs.Io.{IsWritten, written_to};
ghost use Rattle.trace_words.specs.OutcomeText.{outcome_text};
ghost use Rattle.notes_text.specs.Verdicts.{differs_head, differs_text, is_certified, unended, verdict_text};

use machine_model::Outcome;
use trace_io::sink::{Sink, WriteFailed, write_all};
use trace_text::{LineText, push_number};
use trace_words::outcome_text::write_outcome;

/// The result of certifying the notes of a text.
#[derive(Clone, Copy)]
pub enum NotesVerdict {
    /// They are certified, with this many answered calls.
    Certified(u64),
    /// Of the tickets below the number of the notes, this is the least that doesn't stand once.
    Ticket(u64),
    /// After all earlier notes the machine's outcome isn't the one in the note with this ticket.
    Differs {
        ticket: u64,
        noted: Outcome,
        expected: Outcome,
    },
    /// The histories of slots don't all go along with the run: this is the first valid page of the first slot that
    /// doesn't. Of a text's notes alone this isn't found, since it has no histories.
    Slot(u64),
}

// Writes two texts, one after the other.
pub(crate) fn write_both<W: Sink>(
    writer: &mut W,
    first: &[u8],
    second: &[u8],
) -> Result<(), WriteFailed>
    ensures { IsWritten result (written_to W.Sink writer.old writer.new) (first.now ++ second.now) }
{
    if let Err(failed) = write_all(writer, first) {
        return Err(failed);
    }
    write_all(writer, second)
}

// Replaces the text by the words before the outcome that was noted.
fn write_differs_head(text: &mut LineText, ticket: u64)
    ensures { text.new.bytes ≡ differs_head ticket }
{
    text.clear();
    text.push_str("refused C2 ");
    push_number(text, ticket);
    text.push_str(": noted ");
}

// Writes the words before the outcome that was noted, and that outcome without its newline.
fn write_noted<W: Sink>(writer: &mut W, ticket: u64, noted: Outcome) -> Result<(), WriteFailed>
    ensures { IsWritten result (written_to W.Sink writer.old writer.new)
        (differs_head ticket ++ unended (outcome_text noted)) }
{
    let mut head = LineText::new();
    write_differs_head(&mut head, ticket);
    let mut text = LineText::new();
    write_outcome(&mut text, noted);
    let line = text.as_str().as_bytes();
    let (told, _) = line.split_at(line.len().saturating_sub(1));
    write_both(writer, head.as_str().as_bytes(), told)
}

// Writes the words before the expected outcome, and that outcome.
fn write_expected<W: Sink>(writer: &mut W, expected: Outcome) -> Result<(), WriteFailed>
    ensures { IsWritten result (written_to W.Sink writer.old writer.new) (codes ", expected " ++ outcome_text expected) }
{
    let mut text = LineText::new();
    write_outcome(&mut text, expected);
    write_both(writer, b", expected ".as_slice(), text.as_str().as_bytes())
}

// Writes the line of an outcome that differs.
fn write_differs<W: Sink>(
    writer: &mut W,
    ticket: u64,
    noted: Outcome,
    expected: Outcome,
) -> Result<(), WriteFailed>
    ensures { IsWritten result (written_to W.Sink writer.old writer.new) (differs_text ticket noted expected) }
{
    if let Err(failed) = write_noted(writer, ticket, noted) {
        return Err(failed);
    }
    write_expected(writer, expected)
}

// Replaces the text by these words and the number, and a newline.
fn write_count(text: &mut LineText, words: &str, number: u64)
    requires { length words.now ≤ 20 }
    ensures { text.new.bytes ≡ words.now ++ decimal number ++ codes "\n" }
{
    text.clear();
    text.push_str(words);
    push_number(text, number);
    text.push_str("\n");
}

/// Writes the line that tells the verdict: `certified CALLS`, `refused C1 TICKET`,
/// `refused C2 TICKET: noted OUTCOME, expected OUTCOME`, or `refused C5 PAGE`. At an `Err` a front of it was written.
pub fn write_verdict<W: Sink>(writer: &mut W, verdict: NotesVerdict) -> Result<(), WriteFailed>
    ensures { IsWritten result (written_to W.Sink writer.old writer.new) (verdict_text verdict) }
{
    let mut text = LineText::new();
    match verdict {
        NotesVerdict::Certified(calls) => {
            write_count(&mut text, "certified ", calls);
            write_all(writer, text.as_str().as_bytes())
        }
        NotesVerdict::Ticket(ticket) => {
            write_count(&mut text, "refused C1 ", ticket);
            write_all(writer, text.as_str().as_bytes())
        }
        NotesVerdict::Differs {
            ticket,
            noted,
            expected,
        } => write_differs(writer, ticket, noted, expected),
        NotesVerdict::Slot(page) => {
            write_count(&mut text, "refused C5 ", page);
            write_all(writer, text.as_str().as_bytes())
        }
    }
}

impl NotesVerdict {
    /// Tells whether the notes are certified.
    pub fn is_certified(&self) -> bool
        ensures { result ≡ is_certified self.now }
    {
        match self {
            NotesVerdict::Certified(_) => true,
            NotesVerdict::Ticket(_) | NotesVerdict::Differs { .. } | NotesVerdict::Slot(_) => false,
        }
    }
}
