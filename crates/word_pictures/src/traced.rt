//! The text of a trace that a text of notes tells.
ghost use Rattle.std.specs.Prelude.{◌≡◌, ◌++◌, ◌≤◌, codes, eqb, false, length, map, option_map, take, IfOk, Ok, OnOk, List, None, true, ℕ};
ghost use Rattle.std.specs.List.{flat_map, list_any, starts_with};
ghost use Rattle.word_pictures.specs.Notes.{before_outcome, behind_digits, behind_ticket, ended_line, event_in, is_note, traced_line, traced_text};
ghost use Rattle.trace_io.specs.Lines.{lines_of};
ghost use Rattle.trace_text.specs.Line.{line_of};

use std::alloc::{AllocError, Allocator};
use trace_io::lines::front_line;

// What stands behind digits and a space.
fn behind_digits(text: &[u8]) -> Option<&[u8]>
    ensures { option_map (λ rest. rest.now) result ≡ behind_digits text.now }
{
    let mut rest = text;
    'digits: while let Some((byte, more)) = rest.split_first() {
        if *byte == b' ' {
            return Some(more);
        }
        if !byte.is_ascii_digit() {
            return None;
        }
        rest = more;
    }
    None
}

// What stands behind a ticket.
fn behind_ticket(line: &[u8]) -> Option<&[u8]>
    ensures { option_map (λ rest. rest.now) result ≡ behind_ticket line.now }
{
    let (byte, rest) = line.split_first()?;
    if !byte.is_ascii_digit() {
        return None;
    }
    behind_digits(rest)
}

// Whether an outcome begins here.
fn begins_outcome(text: &[u8]) -> bool
    ensures { result ≡ starts_with eqb text.now (codes " = ") }
{
    text.starts_with(b" = ")
}

// Where the outcome begins, or the end.
fn outcome_at(line: &[u8]) -> usize
    ensures within { result ≤ length line.now }
    ensures before { take result line.now ≡ before_outcome line.now }
{
    let mut at = 0;
    'bytes: while at < line.len() {
        let (_, rest) = line.split_at(at);
        if begins_outcome(rest) {
            return at;
        }
        at += 1;
    }
    at
}

// The event of a note.
fn event_in(line: &[u8]) -> Option<&[u8]>
    ensures { option_map (λ event. event.now) result ≡ event_in line.now }
{
    let rest = behind_ticket(line)?;
    let (event, _) = rest.split_at(outcome_at(rest));
    Some(event)
}

// The line of a trace that a line says.
fn traced_line(line: &[u8]) -> &[u8]
    ensures { result.now ≡ traced_line line.now }
{
    match event_in(line) {
        Some(event) => event,
        None => line,
    }
}

// Whether a line is a note.
fn has_notes(text: &[u8]) -> bool
    ensures { result ≡ list_any is_note (lines_of text.now) }
{
    let mut rest = text;
    'lines: while !rest.is_empty() {
        let (line, more) = front_line(rest);
        if event_in(line).is_some() {
            return true;
        }
        rest = more;
    }
    false
}

// Appends the lines of a trace that the lines of a text say.
fn put_lines<A: Allocator>(out: &mut Vec<u8, A>, text: &[u8]) -> Result<(), AllocError>
    ensures { OnOk result (out.new.items ≡ out.old.items ++ flat_map ended_line (lines_of text.now)) }
{
    let mut rest = text;
    'lines: while !rest.is_empty() {
        let (line, more) = front_line(rest);
        out.extend_from_slice(traced_line(line))?;
        out.push(b'\n')?;
        rest = more;
    }
    Ok(())
}

/// The text of a trace for a text that may have notes. Each line stays under its number: a note says its event, without its ticket and
/// its outcome, and any other line stays as it is. A text without notes is given back, and takes no memory.
pub fn traced<A: Allocator>(alloc: A, text: Vec<u8, A>) -> Result<Vec<u8, A>, AllocError>
    ensures text { IfOk result (λ trace. trace.items ≡ traced_text text.items) }
    ensures lines { IfOk result (λ trace. lines_of trace.items ≡ map traced_line (lines_of text.items)) }
    ensures same { list_any is_note (lines_of text.items) ≡ false → result ≡ Ok text }
{
    if !has_notes(text.as_slice()) {
        return Ok(text);
    }
    let mut trace = Vec::new(alloc);
    put_lines(&mut trace, text.as_slice())?;
    Ok(trace)
}

/// A line that says something in a trace is no note, so `traced` gives a trace back as it is.
pub fn no_line_is_a_note()
    ensures { (line : List ℕ) → is_note line ≡ true → line_of line ≡ None }
{}
