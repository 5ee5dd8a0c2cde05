//! What is said of a text that was read: of lines that may be mistakes, and of the reply that is illegal.

use crate::forms::TextKind;
use std::io::Write;
use trace_text::{Action, Line, read_line};
use vm_base::{CoreId, Flags, Request};
use word_parts::keeping::KeptText;
use word_parts::pointing::{Report, behind, front, word_at, word_start};

/// A line of a text, or all lines before it.
#[derive(Clone, Copy)]
pub struct Place<'a> {
    /// The text's name.
    pub name: &'a str,
    /// The line's number.
    pub number: u64,
    /// Whether a caret has a colour.
    pub is_coloured: bool,
}

// ---- lines that are taken, and may be mistakes

// How many cores there are, where a line gives that, or else this many as before.
fn cores_given(before: u64, said: Line) -> u64 {
    match said {
        Line::Space { cores, .. } => cores,
        _ => before,
    }
}

// The same of a line as it stands.
fn cores_after(before: u64, line: &[u8]) -> u64 {
    match read_line(line) {
        Some(said) => cores_given(before, said),
        None => before,
    }
}

// The core of a line.
fn core_said(said: Line) -> Option<CoreId> {
    match said {
        Line::Act(core, _) | Line::Finish(core) | Line::Now(core, _) => Some(core),
        Line::Blank | Line::Space { .. } | Line::File { .. } | Line::Fold(_) => None,
    }
}

// The same of a line as it stands.
fn core_of(line: &[u8]) -> Option<CoreId> {
    let said = read_line(line)?;
    core_said(said)
}

// The call that a line asks for.
fn request_of(said: Line) -> Option<Request> {
    match said {
        Line::Act(_, Action::Call(request)) | Line::Now(_, request) => Some(request),
        _ => None,
    }
}

// The flags of the mapping that a line asks for.
fn flags_of(said: Line) -> Option<Flags> {
    match request_of(said)? {
        Request::Mmap { flags, .. } => Some(flags),
        _ => None,
    }
}

// What is told of the flags of a mapping.
fn flags_rule(flags: Flags) -> Option<&'static str> {
    match (flags.private, flags.shared) {
        (false, false) => Some(
            "note: FLAGS has neither p nor s, of which mmap needs one: this reads einval",
        ),
        (true, true) => Some("note: FLAGS has p and s, of which mmap needs one: this reads einval"),
        _ => None,
    }
}

// What is told of a line that asks for a mapping.
fn rule_of(line: &[u8]) -> Option<&'static str> {
    let said = read_line(line)?;
    let flags = flags_of(said)?;
    flags_rule(flags)
}

// Says that the line with this number may be a mistake, and shows the place.
fn tell_note<E: Write>(place: Place<'_>, what: &str, line: &[u8], index: usize, errors: &mut E) {
    let mut report = Report::new(
        errors,
        place.name,
        Some(place.number),
        what,
        place.is_coloured,
    );
    report.point(line, word_start(line, index));
}

// Tells of a core that the vm line doesn't give, if none was told of, and answers whether one was by then.
fn notice_core<E: Write>(
    is_told: bool,
    cores: u64,
    place: Place<'_>,
    line: &[u8],
    errors: &mut E,
) -> bool {
    let Some(core) = core_of(line) else {
        return is_told;
    };
    if is_told || u64::from(core.index()) < cores {
        return is_told;
    }
    let what = "note: the vm line gives no such core: its lines read idle";
    tell_note(place, what, line, 0, errors);
    true
}

// Tells of flags that no mapping may have, if none were told of, and answers whether some were by then.
fn notice_flags<E: Write>(is_told: bool, place: Place<'_>, line: &[u8], errors: &mut E) -> bool {
    let Some(rule) = rule_of(line) else {
        return is_told;
    };
    if is_told {
        return true;
    }
    let index = if word_at(line, 1) == b"call".as_slice() {
        6
    } else {
        5
    };
    tell_note(place, rule, line, index, errors);
    true
}

/// Tells of the first line of a core that the vm line doesn't give, and of the first mapping whose flags have neither `p` nor `s`, or
/// both, before the line with this number, in the text of this place.
pub fn tell_notes<E: Write>(kind: TextKind, place: Place<'_>, kept: &KeptText, errors: &mut E) {
    if kind != TextKind::Trace {
        return;
    }
    let mut cores = u64::MAX;
    let mut tells_core = false;
    let mut tells_flags = false;
    let mut number = kept.before();
    for line in kept.text().split(|byte| *byte == b'\n') {
        number = number.saturating_add(1);
        if number >= place.number {
            return;
        }
        let here = Place { number, ..place };
        cores = cores_after(cores, line);
        tells_core = notice_core(tells_core, cores, here, line, errors);
        tells_flags = notice_flags(tells_flags, here, line, errors);
    }
}

// ---- the reply that is illegal

// Whether a line begins a call of the core.
fn begins_call(line: &[u8], core: &[u8]) -> bool {
    word_at(line, 0).strip_suffix(b"!") == Some(core)
        || (word_at(line, 0) == core && word_at(line, 1) == b"call".as_slice())
}

// The last line before this one at which the core's call begins that is answered here.
fn line_that_waits<'a>(kept: &'a KeptText, core: &[u8], end: u64) -> Option<&'a [u8]> {
    let mut found = None;
    let mut number = kept.before();
    for line in kept.text().split(|byte| *byte == b'\n') {
        number = number.saturating_add(1);
        if number < end && begins_call(line, core) {
            found = Some(line);
        }
    }
    found
}

// Where the reply of a line begins.
fn reply_at(line: &[u8]) -> usize {
    let mut place = 0usize;
    for (at, byte) in line.iter().enumerate() {
        if *byte == b'=' {
            place = at.saturating_add(1);
        }
    }
    place.saturating_add(word_start(behind(line, place), 0))
}

// Shows the line that asked first for what is answered here, where that is another one.
fn show_asked<E: Write>(number: u64, line: &[u8], kept: &KeptText, report: &mut Report<'_, E>) {
    if matches!(word_at(line, 1), b"finish" | b"go" | b"giveup")
        && let Some(asked) = line_that_waits(kept, word_at(line, 0), number)
    {
        report.show(asked);
    }
}

/// Shows the request whose reply is illegal, which is in the line with this number: that line, or where it finishes a call that
/// waited, the line that asked for it first.
pub fn show_request<E: Write>(number: u64, kept: &KeptText, report: &mut Report<'_, E>) {
    let Some(line) = kept.line(number) else {
        report.end();
        return;
    };
    report.begin_at(reply_at(line));
    show_asked(number, line, kept, report);
    report.point(line, reply_at(line));
}

// Whether a line asks for a mapping without `MAP_FIXED`, and tells what it came to.
fn is_placed(line: &[u8]) -> bool {
    let mut end = 0usize;
    for (at, byte) in line.iter().enumerate() {
        if *byte == b'=' {
            end = at;
        }
    }
    match read_line(front(line, end)) {
        Some(said) => matches!(flags_of(said), Some(flags) if !flags.fixed),
        None => false,
    }
}

/// Tells of `--any-place`, if the line with this number has the reply to a mapping without `MAP_FIXED`.
pub fn tell_of_places<E: Write>(number: u64, kept: &KeptText, report: &mut Report<'_, E>) {
    if let Some(line) = kept.line(number)
        && is_placed(line)
    {
        report.tell("with --any-place it may be at any free pages, or be enomem");
    }
}

/// Tells why a reply isn't told to be illegal, which isn't right in the order of the replies.
pub fn tell_undecided<E: Write>(report: &mut Report<'_, E>) {
    report.tell("calls overlapped before it, or a store had nomemory: in another order of the");
    report.tell("calls, or with a copy that the store left, the reply may be right");
}
