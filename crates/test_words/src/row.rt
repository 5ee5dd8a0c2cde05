//! A row, which is run and compared with what it says.
use crate::text::{push_lines, push_text, push_words};
use command_line::command::program;
use command_line::output::Noted;
use command_line::terminals::Terminals;
use live_script::OnThreads;
use std::alloc::Global;
use std::env::{Env, FillError};
use std::io::Write;
use std::sync::Wait;
use std::thread::Threads;
use trace_io::sink::TrackedSink;
use word_parts::input::Files;

// The words of a command line, with a zero byte between them, and whether `NO_COLOR` is set.
#[derive(Drop)]
struct Words<'a> {
    words: &'a [u8],
    is_plain: bool,
}

impl Env for Words<'_> {
    fn arg(&self, i: usize, buffer: &mut [u8]) -> Result<usize, FillError> {
        let Some(word) = self.words.split(|byte| *byte == 0).nth(i) else {
            return Err(FillError::NotPresent);
        };
        if word.len() > buffer.len() {
            return Err(FillError::TooLong);
        }
        buffer[..word.len()].copy_from_slice(word);
        Ok(word.len())
    }

    fn var(&self, name: &str, buffer: &mut [u8]) -> Result<usize, FillError> {
        if name != "NO_COLOR" || !self.is_plain {
            return Err(FillError::NotPresent);
        }
        if buffer.is_empty() {
            return Err(FillError::TooLong);
        }
        buffer[0] = b'1';
        Ok(1)
    }

    fn var_at(&self, _i: usize, _buffer: &mut [u8]) -> Result<usize, FillError> {
        Err(FillError::NotPresent)
    }
}

// What came on both outputs, and the status.
#[derive(Drop)]
struct Came {
    out: Vec<u8>,
    errors: Vec<u8>,
    status: u8,
}

// Which streams are terminals where these words are given: those whose names stand among them behind `@`.
fn terminals_of(words: &str) -> Terminals {
    Terminals {
        input: words.contains(" @input "),
        output: words.contains(" @output "),
        errors: words.contains(" @errors "),
    }
}

// What the program comes to with these words, which are those of a row, and this input.
fn came_of<F: Files, T: Threads + Wait + Sync>(
    (files, rt, alloc): (&F, &T, Global),
    row: &str,
    words: &[u8],
    input: &[u8],
) -> Came {
    let mut out = TrackedSink::unbuffered(alloc, Noted::new(Vec::new(alloc)));
    let mut errors = Vec::new(alloc);
    let status = program(
        Words {
            words,
            is_plain: row.contains(" @NO_COLOR "),
        },
        &alloc,
        alloc,
        (files, rt, &OnThreads),
        input,
        &mut out,
        &mut errors,
        terminals_of(row),
    );
    Came {
        out: out.writer.into_parts().0.into_inner(),
        errors,
        status,
    }
}

// What stands in the text behind the part, where that first stands in it.
fn behind<'a>(text: &'a [u8], part: &[u8]) -> Option<&'a [u8]> {
    for at in 0..text.len() {
        if let Some(rest) = text[at..].strip_prefix(part) {
            return Some(rest);
        }
    }
    None
}

// Whether a text stands in what came as often as is said before it.
fn has(alloc: Global, said: &str, came: &[u8]) -> Option<bool> {
    let (times, part) = said.split_once(' ')?;
    let Ok(times) = times.parse::<u64>() else {
        return None;
    };
    let mut bytes = Vec::new(alloc);
    push_text(&mut bytes, part)?;
    let mut rest = came;
    for _time in 0..times {
        let Some(more) = behind(rest, &bytes) else {
            return Some(false);
        };
        rest = more;
    }
    Some(behind(rest, &bytes).is_none())
}

// Whether a part of the row is right that has one line.
fn is_said(alloc: Global, said: &str, came: &Came) -> Option<bool> {
    if let Some(said) = said.strip_prefix("out has ") {
        return has(alloc, said, &came.out);
    }
    if let Some(said) = said.strip_prefix("err has ") {
        return has(alloc, said, &came.errors);
    }
    match said.strip_prefix("status ")?.parse::<u8>() {
        Ok(status) => Some(came.status == status),
        Err(_) => None,
    }
}

// Whether this part of the row is right.
fn holds(alloc: Global, part: &str, came: &Came) -> Option<bool> {
    let (head, lines) = part.split_once('\n').unwrap_or((part, ""));
    let mut due = Vec::new(alloc);
    push_lines(&mut due, lines)?;
    match head {
        "out" => Some(came.out.as_slice() == due.as_slice()),
        "err" => Some(came.errors.as_slice() == due.as_slice()),
        "out begins" => Some(came.out.starts_with(&due)),
        "err begins" => Some(came.errors.starts_with(&due)),
        _ if due.is_empty() => is_said(alloc, head, came),
        _ => None,
    }
}

// Whether all parts of the row are right, and what it doesn't name is nothing.
fn is_right(alloc: Global, row: &str, came: &Came) -> bool {
    for (at, part) in row.split("\n-- ").enumerate() {
        if at > 0 && holds(alloc, part, came) != Some(true) {
            return false;
        }
    }
    (came.out.is_empty() || row.contains("\n-- out"))
        && (came.errors.is_empty() || row.contains("\n-- err"))
        && (came.status == 0 || row.contains("\n-- status"))
}

// Tells what came.
fn tell<W: Write>(out: &mut W, words: &str, came: &Came) {
    let _ = writeln!(out, "=={words}\n-- out");
    let _ = out.write_all(&came.out);
    let _ = writeln!(out, "-- err");
    let _ = out.write_all(&came.errors);
    let _ = writeln!(out, "-- status {}", came.status);
}

// Whether the row is right with these words of it; tells what came where it isn't.
fn is_right_with<F: Files, T: Threads + Wait + Sync, W: Write>(
    host: (&F, &T, Global),
    told: &mut W,
    words: &str,
    row: &str,
) -> Option<bool> {
    let (_, _, alloc) = host;
    let (first, _) = row.split_once("\n-- ").unwrap_or((row, ""));
    let (_, lines) = first.split_once('\n').unwrap_or((first, ""));
    let mut command = Vec::new(alloc);
    let mut input = Vec::new(alloc);
    push_words(&mut command, words)?;
    push_lines(&mut input, lines)?;
    let came = came_of(host, words, &command, &input);
    if is_right(alloc, row, &came) {
        return Some(true);
    }
    tell(told, words, &came);
    Some(false)
}

/// Runs each command line of the row, and answers whether each comes to what the row says. Where one doesn't, tells what came
/// and what the row says.
pub fn run_row<F: Files, T: Threads + Wait + Sync, W: Write>(
    host: (&F, &T, Global),
    out: &mut W,
    row: &str,
) -> bool {
    let (command_lines, _) = row.split_once('\n').unwrap_or((row, ""));
    let mut is_right = true;
    for words in command_lines.split(" ==") {
        if is_right_with(host, out, words, row) != Some(true) {
            is_right = false;
        }
    }
    if !is_right {
        let _ = writeln!(out, "in place of\n=={row}");
    }
    is_right
}
