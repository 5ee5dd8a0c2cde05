//! Which thread a line of strace is about, and what it says of it.
ghost use Rattle.std.specs.Prelude.{◌≡◌, ◌<◌, IfOk, codes, map, option_map};
ghost use Rattle.trace_io.specs.Lines.{lines_of};
ghost use Rattle.import_forms.specs.Said.{behind};
ghost use Rattle.import_forms.specs.Tokens.{from_token, stripped};
ghost use Rattle.import_forms.specs.Speech.{begun_of, broken_of, ends_message, message_of, numbered, returned_of, spoken, speech_of};

use crate::making::behind;
use crate::stamps::{call_text, front_thread};
use crate::tokens::{begins, next_count, next_token, strip, without_gaps};
use std::alloc::{AllocError, Global};
use trace_io::lines::front_line;

/// What a line says, and of which thread.
#[derive(Clone, Copy)]
pub struct Speech<'a> {
    /// The thread's number, 0 where the line names none.
    pub thread: u64,
    /// The call, or what else the line says.
    pub text: &'a [u8],
}

// The thread that the line names, `PID` or `[pid PID]`, and what stands after it. Another number in brackets is a
// call's, or an address.
#[tactic(auto, unfolding(crate::specs::Speech::numbered))]
fn numbered(line: &[u8]) -> Option<(u64, &[u8])>
    ensures { option_map (λ f. (f.0, f.1.now)) result ≡ numbered line.now }
{
    let (first, rest) = next_token(line)?;
    if first == b"pid".as_slice() {
        front_thread(rest)
    } else if begins(line, b"[".as_slice()) {
        None
    } else {
        front_thread(line)
    }
}

/// Which thread the line is about, and what it says of it.
pub fn read_speech(line: &[u8]) -> Speech<'_>
    ensures { spoken result ≡ speech_of line.now }
{
    match numbered(line) {
        Some((thread, text)) => Speech {
            thread,
            text: call_text(text),
        },
        None => Speech {
            thread: 0,
            text: call_text(line),
        },
    }
}

/// What each line of the log says, in order.
pub fn read_speeches<'a>(alloc: Global, log: &'a [u8]) -> Result<Vec<Speech<'a>>, AllocError>
    ensures { IfOk result (λ all. map spoken all.items ≡ map speech_of (lines_of log.now)) }
{
    let mut all: Vec<Speech<'a>> = Vec::new(alloc);
    let mut rest = log;
    'lines: while !rest.is_empty() {
        let (line, more) = front_line(rest);
        all.push(read_speech(line))?;
        rest = more;
    }
    Ok(all)
}

// Tells whether the line ends as a message does of a thread that is attached or let go of.
fn ends_message(line: &[u8]) -> bool
    ensures { result ≡ ends_message line.now }
{
    let (_, back) = line.split_at(line.len().saturating_sub(8));
    back == b"attached".as_slice() || back == b"detached".as_slice()
}

// What stands after the words with which a message about a thread begins, `strace: Process`.
fn past_mark(line: &[u8]) -> Option<&[u8]>
    ensures { option_map (λ f. f.now) result ≡ behind (codes "strace: Process ") line.now }
{
    behind(line, b"strace: Process ".as_slice())
}

// What stands before the message `strace: Process PID attached`, and its number, of a line that ends so.
#[tactic(auto, unfolding(crate::specs::Speech::message_of))]
fn message_of(line: &[u8]) -> Option<(&[u8], u64)>
    ensures { option_map (λ f. (f.0.now, f.1)) result ≡ message_of line.now }
{
    let rest = past_mark(line)?;
    let (number, _) = next_count(rest)?;
    let before = line.len().saturating_sub(rest.len()).saturating_sub(16);
    let (front, _) = line.split_at(before);
    Some((front, number))
}

/// What stands before strace's own message about a thread, `strace: Process PID attached`, where a line ends with it,
/// and the thread. The line goes on after it.
pub fn broken(line: &[u8]) -> Option<(&[u8], u64)>
    ensures { option_map (λ f. (f.0.now, f.1)) result ≡ broken_of line.now }
{
    if ends_message(line) {
        message_of(line)
    } else {
        None
    }
}

/// What stands before `<unfinished ...>`, where a text ends with it.
pub fn begun(text: &[u8]) -> Option<&[u8]>
    ensures { option_map (λ f. f.now) result ≡ begun_of text.now }
{
    let (front, back) = text.split_at(text.len().saturating_sub(16));
    if back == b"<unfinished ...>".as_slice() {
        Some(front)
    } else {
        None
    }
}

// What stands after the word that says that a call goes on.
fn past_resumed(bytes: &[u8]) -> Option<&[u8]>
    ensures { option_map (λ f. f.now) result ≡ stripped (codes "resumed>") (from_token bytes.now) }
{
    strip(without_gaps(bytes), b"resumed>".as_slice())
}

/// The name of a call that returns, `<... NAME resumed>`, and what stands right after that.
#[tactic(auto, unfolding(crate::specs::Speech::returned_of))]
pub fn returned(text: &[u8]) -> Option<(&[u8], &[u8])>
    ensures { option_map (λ f. (f.0.now, f.1.now)) result ≡ returned_of text.now }
{
    let (first, rest) = next_token(text)?;
    let (name, rest) = next_token(rest)?;
    let rest = past_resumed(rest)?;
    if first == b"<...".as_slice() {
        Some((name, rest))
    } else {
        None
    }
}
