//! What is said about an error in a text: its place, the line, a caret below where it goes wrong, and what was expected there.
ghost use Rattle.std.specs.Prelude.{◌≤◌, length};

use crate::forms::{TextKind, add_expected, is_line, reach};
use crate::naming::explain_outcome;
use machine_model::{CallLimit, SetupFault};
use std::io::Write;
use trace_text::number::read_number;
use trace_text::{Line, first_word_is_vm, is_printable, read_line};
use trace_words::fault::TraceFault;
use word_parts::keeping::KeptText;
use word_parts::pointing::{Report, Text, behind, front, word_at, word_start, words_in};

/// What a text is read as, and how more is said about it.
#[derive(Clone, Copy)]
pub struct Manner {
    /// Which lines it has.
    pub kind: TextKind,
    /// How many calls it may ask for.
    pub limit: CallLimit,
    /// Whether the command has an option by which it may ask for more.
    pub may_be_long: bool,
}

// ---- bytes that may not stand in a text

// Where the first byte stands that isn't printable; the length where all are.
fn first_unprintable(line: &[u8]) -> usize
    ensures { result ≤ length line.now }
{
    for (at, byte) in line.iter().enumerate() {
        if *byte < 0x20 || *byte > 0x7e {
            return at;
        }
    }
    line.len()
}

// What is said about a byte that may not stand in a text.
fn byte_rule(byte: Option<&u8>) -> &'static str {
    match byte {
        Some(b'\t') => "spaces and visible ASCII: here is a tab",
        Some(b'\r') => "spaces and visible ASCII: here is a carriage return",
        Some(128..=255) => "spaces and visible ASCII: here is a letter beyond it",
        _ => "spaces and visible ASCII: here is a control character",
    }
}

// ---- words that are no line's

// Where the event of a line begins: after the ticket of a note.
fn event_start(kind: TextKind, line: &[u8]) -> usize {
    match kind {
        TextKind::Notes => word_start(line, 1),
        TextKind::Timed => word_start(line, 2),
        TextKind::Trace | TextKind::Script | TextKind::Replies => 0,
    }
}

// Where the sign `=` stands that divides a line last; the length where none does.
fn sign_at(line: &[u8]) -> usize {
    let mut sign = line.len();
    for (at, byte) in line.iter().enumerate() {
        if *byte == b'=' {
            sign = at;
        }
    }
    sign
}

// Tells of the words of a line, from this place on to this one, of which not all are right.
fn explain_part<E: Write>(
    manner: Manner,
    line: &[u8],
    (from, to): (usize, usize),
    report: &mut Report<'_, E>,
) {
    let part = behind(front(line, to), from);
    let count = reach(manner.kind, part);
    let start = word_start(part, count);
    report.point(line, from.saturating_add(start));
    if part.get(start) == Some(&b'#') {
        report.expect("no more words: a comment is a line whose first byte is #");
        return;
    }
    let mut text = Text::new();
    let _ = text.try_extend_from_slice(b"  expected ");
    add_expected(&mut text, manner.kind, part, count);
    report.write(&mut text);
}

/// Tells of the line of an event, after its ticket or its times, and of what it came to.
pub(crate) fn explain_whole<E: Write>(manner: Manner, line: &[u8], report: &mut Report<'_, E>) {
    let from = event_start(manner.kind, line);
    let sign = sign_at(line);
    if is_line(manner.kind, behind(front(line, sign), from)) {
        explain_outcome(manner.kind, line, sign, report);
    } else {
        explain_part(manner, line, (from, sign), report);
    }
}

/// Whether a line begins with two numbers, as a call of a history does.
pub(crate) fn is_timed(line: &[u8]) -> bool {
    read_number(word_at(line, 0)).is_some() && read_number(word_at(line, 1)).is_some()
}

// Tells of the line of an event with what it came to.
fn explain_event<E: Write>(manner: Manner, line: &[u8], report: &mut Report<'_, E>) {
    if manner.kind == TextKind::Notes && read_number(word_at(line, 0)).is_none() {
        report.point(line, word_start(line, 0));
        report.expect("a ticket, which is a number below 2^64, before the event");
        return;
    }
    if manner.kind == TextKind::Replies && is_timed(line) {
        report.point(line, word_start(line, 0));
        report.expect("a call without times; audit --overlapping judges calls with times");
        return;
    }
    explain_whole(manner, line, report);
}

// Tells of a bad line whose words are no line's of the text.
fn explain_words<E: Write>(manner: Manner, line: &[u8], report: &mut Report<'_, E>) {
    let is_declaration = matches!(word_at(line, 0), b"vm" | b"file");
    match manner.kind {
        TextKind::Notes | TextKind::Replies if !is_declaration => explain_event(
            manner, line, report,
        ),
        TextKind::Notes => {
            let declaring = Manner {
                kind: TextKind::Trace,
                ..manner
            };
            explain_part(declaring, line, (0, line.len()), report);
        }
        _ => explain_part(manner, line, (0, line.len()), report),
    }
}

// ---- lines that say something, and not at this place

// Tells of a `vm` line: a second one, or one of notes without CALLS.
fn explain_space<E: Write>(manner: Manner, line: &[u8], report: &mut Report<'_, E>) {
    if manner.kind == TextKind::Notes && words_in(line) == 3 {
        report.point(line, line.len());
        report.expect("CALLS, which the vm line of notes always has");
        return;
    }
    report.point(line, word_start(line, 0));
    report.expect("one vm line, before all others");
}

// Tells of a line that says something, and not at this place.
fn explain_place<E: Write>(manner: Manner, said: Line, line: &[u8], report: &mut Report<'_, E>) {
    match said {
        Line::Space { .. } => explain_space(manner, line, report),
        Line::File { .. } => {
            report.point(line, word_start(line, 1));
            report.expect("the files' numbers to be 0, 1, 2 and so on, all before the first event");
        }
        _ if is_line(manner.kind, line) && manner.kind == TextKind::Script => {
            report.point(line, word_start(line, 0));
            report.expect("a core of the vm line, whose cores are c0 and on");
        }
        _ => explain_words(manner, line, report),
    }
}

/// Tells of a bad line.
pub(crate) fn explain_bad<E: Write>(manner: Manner, line: &[u8], report: &mut Report<'_, E>) {
    if !is_printable(line) {
        let at = first_unprintable(line);
        report.point(line, at);
        report.expect(byte_rule(line.get(at)));
        return;
    }
    match read_line(line) {
        Some(said) => explain_place(manner, said, line, report),
        None => explain_words(manner, line, report),
    }
}

// ---- the vm line and the lines of files

// A line of a text, and its number.
#[derive(Clone, Copy)]
struct Numbered<'a> {
    number: u64,
    line: &'a [u8],
}

// The line that comes after this many whose first word is this.
fn line_of<'a>(kept: &'a KeptText, name: &[u8], before: u64) -> Option<Numbered<'a>> {
    let mut count = 0u64;
    let mut number = kept.before();
    for line in kept.text().split(|byte| *byte == b'\n') {
        number = number.saturating_add(1);
        if word_at(line, 0) == name {
            if count == before {
                return Some(Numbered { number, line });
            }
            count = count.saturating_add(1);
        }
    }
    None
}

// The first line of a file that is longer than it may be.
fn long_file(kept: &KeptText) -> Option<Numbered<'_>> {
    let mut number = kept.before();
    for line in kept.text().split(|byte| *byte == b'\n') {
        number = number.saturating_add(1);
        if word_at(line, 0) == b"file".as_slice()
            && let Some(len) = read_number(word_at(line, 3))
            && len > 1_048_576
        {
            return Some(Numbered { number, line });
        }
    }
    None
}

// Tells that no line is the first with words, or of the one that is and isn't the vm line. Where it is the vm line, only lines in front
// of it were asked for.
fn explain_first<E: Write>(manner: Manner, kept: &KeptText, report: &mut Report<'_, E>) {
    let mut number = kept.before();
    for line in kept.text().split(|byte| *byte == b'\n') {
        number = number.saturating_add(1);
        if !matches!(read_line(line), Some(Line::Blank)) {
            if first_word_is_vm(line) {
                report.expect("the vm line, or one after it: there is no machine before it");
                return;
            }
            report.is_at(number);
            report.point(line, word_start(line, 0));
            break;
        }
    }
    if manner.kind == TextKind::Notes {
        report.expect("vm CORES FRAMES CALLS as the first line with words");
        return;
    }
    report.expect("vm CORES FRAMES, or vm CORES FRAMES CALLS, as the first line with words");
}

// How many calls may be asked for with --long.
const MOST_CALLS: u64 = 1_099_511_627_776;

// What the vm line and the lines of files may ask for.
fn setup_rule(fault: SetupFault, limit: CallLimit) -> &'static str {
    match fault {
        SetupFault::Cores => "CORES of the vm line from 1 to 64",
        SetupFault::Frames => "FRAMES of the vm line up to 65536",
        SetupFault::TooManyFiles => "at most 16 files",
        SetupFault::FileTooLong => "LEN of a file up to 1048576",
        SetupFault::Calls => match limit {
            CallLimit::Usual => "CALLS of the vm line up to 1048576",
            CallLimit::Long => "CALLS of the vm line up to 1099511627776",
        },
        SetupFault::NoMemory => "memory for the cores, frames and calls of the vm line",
    }
}

// The line that the fault is of, and the word of it that asks for too much.
fn setup_place(fault: SetupFault, kept: &KeptText) -> (Option<Numbered<'_>>, usize) {
    match fault {
        SetupFault::Cores => (line_of(kept, b"vm", 0), 1),
        SetupFault::Frames => (line_of(kept, b"vm", 0), 2),
        SetupFault::Calls => (line_of(kept, b"vm", 0), 3),
        SetupFault::TooManyFiles => (line_of(kept, b"file", 16), 0),
        SetupFault::FileTooLong => (long_file(kept), 3),
        SetupFault::NoMemory => (line_of(kept, b"vm", 0), 0),
    }
}

// Writes what was expected in place of the word with this index, which is named where it isn't the first.
fn expect_other<E: Write>(rule: &str, line: &[u8], index: usize, report: &mut Report<'_, E>) {
    match str::from_utf8(word_at(line, index)) {
        Ok(asked) if index > 0 => {
            let mut text = Text::new();
            for part in ["  expected ", rule, ", and not ", asked] {
                let _ = text.try_extend_from_slice(part.as_bytes());
            }
            report.write(&mut text);
        }
        _ => report.expect(rule),
    }
}

// Tells of what the vm line and the lines of files ask for.
fn explain_setup<E: Write>(
    manner: Manner,
    fault: SetupFault,
    kept: &KeptText,
    report: &mut Report<'_, E>,
) {
    let rule = setup_rule(fault, manner.limit);
    let (Some(found), index) = setup_place(fault, kept) else {
        report.expect(rule);
        return;
    };
    let line = found.line;
    report.is_at(found.number);
    report.point(line, word_start(line, index));
    expect_other(rule, line, index, report);
    let asked = read_number(word_at(line, index)).unwrap_or(0);
    if fault == SetupFault::Calls && manner.may_be_long && asked <= MOST_CALLS {
        report.tell("with --long it may be up to 1099511627776");
    }
}

// ---- all faults

/// Says what is known of an error and its place: the line, a caret below the place where it goes wrong, and what was expected. Of a read, a
/// write or memory that failed nothing is known here.
pub fn explain<E: Write>(
    fault: TraceFault,
    manner: Manner,
    kept: &KeptText,
    report: &mut Report<'_, E>,
) {
    match fault {
        TraceFault::BadLine(number) => {
            if let Some(line) = kept.line(number) {
                explain_bad(manner, line, report);
            }
        }
        TraceFault::NoVmLine => explain_first(manner, kept, report),
        TraceFault::TooLong(_) if manner.kind == TextKind::Replies => {
            report.expect("at most 512 bytes in a line");
        }
        TraceFault::TooLong(_) => report.expect("at most 256 bytes in a line"),
        TraceFault::Setup(fault) => explain_setup(manner, fault, kept, report),
        TraceFault::ReadFailed | TraceFault::NoMemory | TraceFault::WriteFailed => {}
    }
}
