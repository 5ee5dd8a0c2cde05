//! What is said about words that can't be acted on, and of files that can't be read.
ghost use Rattle.std.specs.Prelude.{◌≡◌};
ghost use Rattle.command_line.specs.Done.{Shows, TellsUsage, TellsWords};
ghost use Rattle.command_line.specs.Status.{words_status};
ghost use Rattle.trace_io.specs.Io.{written_to};

use crate::output::{Output, status_seen};
use clap::Error;
use clap::error::ErrorKind;
use std::alloc::Global;
use std::io;
use std::io::Write;
use trace_io::IoFault;
use trace_io::sink::write_out;
use word_grammar::Usage;
use word_help::{brief, page};
use word_parts::pointing::tell as tell_line;

// Prints a text on standard output, and answers the status.
fn show<W: Output, E: Write>(text: &str, out: &mut W, errors: &mut E) -> u8
    ensures { Shows text.now (written_to W.Sink out.old out.new) result }
{
    match write_out(out, text.as_bytes()) {
        Ok(()) => 0,
        Err(_) => {
            tell_unwritten(out, errors);
            status_seen(3, out)
        }
    }
}

/// Tells that standard output couldn't be written, and why, where that is known. Nothing is said where its reader has
/// gone.
pub(crate) fn tell_unwritten<W: Output, E: Write>(out: &W, errors: &mut E) {
    match out.cause() {
        Some(io::ErrorKind::BrokenPipe) => {}
        cause => tell_cause("standard output", IoFault::WriteFailed, cause, errors),
    }
}

/// Why the program's words can't be acted on, except for what they say.
#[derive(Clone, Copy)]
pub enum WordsFault {
    /// A word isn't UTF-8.
    NotUtf8,
    /// The allocator refused.
    NoMemory,
}

/// Prints the fault, and answers the status: 3 where memory was refused, else 2.
pub fn refuse_words<E: Write>(fault: WordsFault, errors: &mut E) -> u8
    ensures { result ≡ words_status fault }
{
    let text = match fault {
        WordsFault::NotUtf8 => "the words are not UTF-8",
        WordsFault::NoMemory => "out of memory",
    };
    let _ = writeln!(errors, "radixvm: {text}");
    match fault {
        WordsFault::NotUtf8 => 2,
        WordsFault::NoMemory => 3,
    }
}

// The letters of a flag that is told of as unknown, of one hyphen: as `l` of `-l`.
fn letters_told(text: &str) -> Option<&str> {
    let (_, behind) = text.split_once("unexpected argument '-")?;
    let (letters, _) = behind.split_once('\'')?;
    if letters.is_empty() || letters.starts_with('-') {
        return None;
    }
    Some(letters)
}

// Writes the flags of the usage that begin with these letters.
fn tell_flags<E: Write>(letters: &str, usage: &str, errors: &mut E) {
    let mut is_first = true;
    for piece in usage.split("--") {
        let end = piece.find(|letter: char| !letter.is_ascii_lowercase() && letter != '-');
        let name = piece.get(..end.unwrap_or(piece.len())).unwrap_or("");
        if name.starts_with(letters) {
            let sign = if is_first {
                "  tip: flags that begin so:"
            } else {
                ","
            };
            let _ = write!(errors, "{sign} '--{name}'");
            is_first = false;
        }
    }
    if !is_first {
        let _ = errors.write_all(b"\n");
    }
}

// Tells what is wrong with the words, as the parser says it, and after it which flags begin so.
fn tell_mistake<E: Write>(text: &str, errors: &mut E) {
    let (first, rest) = text.split_once("\n\n").unwrap_or((text, ""));
    let _ = write!(errors, "radixvm: {first}\n\n");
    if let Some(letters) = letters_told(first)
        && let Some((_, usage)) = rest.split_once("Usage: ")
    {
        tell_flags(letters, usage, errors);
        if !rest.starts_with("  tip: ") {
            let _ = errors.write_all(b"\n");
        }
    }
    let _ = errors.write_all(rest.as_bytes());
}

// Tells why the words can't be acted on, or what they ask the parser for, and answers the status.
fn tell_words<W: Output, E: Write>(alloc: Global, error: &Error, out: &mut W, errors: &mut E) -> u8
    ensures { TellsWords error.now (written_to W.Sink out.old out.new) result }
{
    let Ok(text) = format!(in alloc; "{error}") else {
        return refuse_words(WordsFault::NoMemory, errors);
    };
    match error.kind() {
        ErrorKind::DisplayHelp | ErrorKind::DisplayVersion => show(text.as_str(), out, errors),
        ErrorKind::OutOfMemory => refuse_words(WordsFault::NoMemory, errors),
        _ => {
            // One prefix is enough.
            let text = text.as_str();
            tell_mistake(text.strip_prefix("error: ").unwrap_or(text), errors);
            2
        }
    }
}

/// Prints what is said in place of what is asked for, and answers the status.
pub(crate) fn tell<W: Output, E: Write>(
    alloc: Global,
    told: &Usage,
    out: &mut W,
    errors: &mut E,
) -> u8
    ensures { TellsUsage told.now (written_to W.Sink out.old out.new) result }
{
    match told {
        Usage::Words(error) => tell_words(alloc, error, out, errors),
        Usage::Page(topic) => show(page(*topic), out, errors),
        Usage::Front(topic) => show(brief(*topic), out, errors),
        Usage::NoSteps(steps) => {
            let first = steps.first;
            let last = steps.last;
            let _ = writeln!(errors, "radixvm: --from {first} is after --to {last}");
            2
        }
        Usage::NoLine => {
            let _ = writeln!(errors, "radixvm: lines are counted from 1");
            2
        }
        Usage::NoAddress => {
            let _ = writeln!(
                errors,
                "radixvm: --who: an address is wanted, such as 0x10000"
            );
            2
        }
        Usage::ManyFiles => {
            let _ = writeln!(errors, "radixvm: --lackey reads one FILE");
            2
        }
    }
}

/// Tells that a stream or memory failed.
pub(crate) fn tell_io<E: Write>(fault: IoFault, errors: &mut E) {
    let _ = writeln!(errors, "radixvm: {fault}");
}

/// Tells which file it is that can't be read or written, and why, where that is known.
pub(crate) fn tell_cause<E: Write>(
    name: &str,
    fault: IoFault,
    cause: Option<io::ErrorKind>,
    errors: &mut E,
) {
    let Some(cause) = cause else {
        let _ = writeln!(errors, "radixvm: {name}: {fault}");
        return;
    };
    let why = match cause {
        io::ErrorKind::NotFound => "there is no such file",
        io::ErrorKind::PermissionDenied => "permission denied",
        io::ErrorKind::IsADirectory => "it is a directory",
        _ => "",
    };
    if why.is_empty() {
        let _ = writeln!(errors, "radixvm: {name}: {fault}: {cause}");
    } else {
        let _ = writeln!(errors, "radixvm: {name}: {fault}: {why}");
    }
}

/// Says that lines are read from the terminal, and shows one.
pub(crate) fn tell_of_terminal<E: Write>(example: &str, errors: &mut E) {
    let _ = writeln!(
        errors,
        "radixvm: reads lines from the terminal, up to Ctrl-D, such as"
    );
    tell_line(example, errors);
}
