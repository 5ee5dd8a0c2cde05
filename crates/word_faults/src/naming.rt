//! What is said about the outcome or the reply that a line names.

use crate::forms::TextKind;
use std::io::Write;
use word_parts::pointing::{Report, Text, behind, word_at, word_start};

// The replies that have no number.
const REPLIES: &[&str] = &[
    "done",
    "einval",
    "enomem",
    "ebadf",
    "eoverflow",
    "eacces",
    "segv maperr",
    "segv accerr",
    "bus",
    "noframe",
    "nomemory",
];

// What else a step may come to.
const STEPS: &[&str] = &["step", "idle", "full"];

// Whether a text is this one, except for the case of its letters.
fn is_but_for_case(text: &[u8], name: &str) -> bool {
    text.eq_ignore_ascii_case(name.as_bytes())
}

// The one of these that a text is, except for the case of its letters.
fn named_so(text: &[u8], names: &[&'static str]) -> Option<&'static str> {
    for name in names {
        if is_but_for_case(text, *name) {
            return Some(*name);
        }
    }
    None
}

// The text without the spaces at both ends.
fn trimmed(text: &[u8]) -> &[u8] {
    text.trim_ascii()
}

// Whether the event of a line may come to a reply.
fn may_reply(line: &[u8]) -> bool {
    word_at(line, 0).ends_with(b"!") || matches!(word_at(line, 1), b"finish" | b"go" | b"giveup")
}

// What the outcome of an event may be that comes to no reply.
fn passed_rule(kind: TextKind, line: &[u8]) -> Option<&'static str> {
    if kind == TextKind::Replies && !may_reply(line) {
        return Some("step, idle or full");
    }
    None
}

// What may stand after the sign.
fn outcome_rule(kind: TextKind) -> &'static str {
    match kind {
        TextKind::Notes => "step, idle, full, wait slot C, wait acks C.., or a reply,",
        TextKind::Timed => "a reply,",
        _ => "wait .., or a reply,",
    }
}

// What is wrong with a line whose event and outcome are right each.
fn named_rule(kind: TextKind) -> &'static str {
    match kind {
        TextKind::Notes => "the event's core to be one of the vm line",
        TextKind::Timed => "one space on each side of =",
        _ => "one space on each side of =; a call that waits where one goes on, else none",
    }
}

// Tells what the reply may be.
fn tell_replies<E: Write>(kind: TextKind, report: &mut Report<'_, E>) {
    report.expect(outcome_rule(kind));
    report.tell("which is an address as 0x1000, a byte, done, einval, enomem, ebadf,");
    report.tell("eoverflow, eacces, segv maperr, segv accerr, bus, noframe or nomemory");
}

// Tells of an outcome that is none, or that can't be read as it is written.
fn explain_named<E: Write>(
    kind: TextKind,
    line: &[u8],
    outcome: &[u8],
    report: &mut Report<'_, E>,
) {
    if let Some(rule) = passed_rule(kind, line) {
        report.expect(rule);
        return;
    }
    let found = named_so(outcome, REPLIES).or(named_so(outcome, STEPS));
    match found {
        Some(name) if outcome == name.as_bytes() => report.expect(named_rule(kind)),
        Some(name) => {
            let mut text = Text::new();
            for part in ["  expected ", name, ", in small letters"] {
                let _ = text.try_extend_from_slice(part.as_bytes());
            }
            report.write(&mut text);
        }
        None => tell_replies(kind, report),
    }
}

/// Tells of a line whose event is right: of the sign at this place, and of what stands after it.
pub fn explain_outcome<E: Write>(
    kind: TextKind,
    line: &[u8],
    sign: usize,
    report: &mut Report<'_, E>,
) {
    point_behind(line, sign, report);
    let outcome = trimmed(behind(line, sign.saturating_add(1)));
    if outcome.is_empty() {
        report.expect("= and what it came to, after the event");
        return;
    }
    explain_named(kind, line, outcome, report);
}

// Writes the line, with a caret below the first word after the sign.
fn point_behind<E: Write>(line: &[u8], sign: usize, report: &mut Report<'_, E>) {
    let from = sign.saturating_add(1);
    let word = word_start(behind(line, from), 0);
    report.point(line, from.saturating_add(word).min(line.len()));
}
