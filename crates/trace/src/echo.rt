//! A replay that shows each line beside what it gives.
ghost use Rattle.std.specs.Prelude.{◌≡◌, ◌+◌, ◌≤◌, ◌++◌, IfOk, codes, length, true};
ghost use Rattle.std.specs.List.{flat_map};
ghost use Rattle.trace_io.specs.Io.{IsWritten, TellsIo, read_from, written_to};
ghost use Rattle.trace_io.specs.Source.{Reads};
ghost use Rattle.trace_io.specs.Window.{opening};
ghost use Rattle.machine_log.specs.Packing.{listed};
ghost use Rattle.machine_model.specs.Setups.{Fits};
ghost use Rattle.machine_model.specs.declared.setup.CallLimit.{CallLimit};
ghost use Rattle.trace_words.specs.Faults.{TellsFaults, fault_named};
ghost use Rattle.trace.specs.Shown.{log_at};
ghost use Rattle.trace.specs.Stage.{Start};
ghost use Rattle.trace.specs.Numbered.{texts_of};
ghost use Rattle.trace.specs.Asking.{nothing_asked, whose_text};
ghost use Rattle.trace.specs.Echo.{EchoEnds, added_text, echo, echo_limit, entry_line, shaded, unended};

use crate::LogLines;
use crate::asking::{Asking, Asks};
use crate::numbered::text_at;
use crate::replay::{Replayed, turn};
use crate::replayer::{Replayer, Staged};
use crate::shown::Showing;
use arrayvec::ArrayVec;
use machine_log::{KeepsLog, KeepsNone, LoggedEntries, Opening};
use machine_model::CallLimit;
use std::alloc::Allocator;
use trace_io::lines::{LineReader, line_reader};
use trace_io::sink::{Sink, WriteFailed, write_all};
use trace_io::source::Source;
use trace_text::{Line, LineText, read_line};
use trace_words::fault::TraceFault;
use watched::Unwatched;

// Room for a line of a trace, in colours, the sign after it, and a line of output.
type EchoText = ArrayVec<u8, 528>;

// These bytes, one after the other.
fn joined(line: &[u8], sign: &[u8], text: &[u8]) -> EchoText
    requires { length line.now + length sign.now + length text.now ≤ 528 }
    ensures { result.items ≡ line.now ++ sign.now ++ text.now }
{
    let mut all = EchoText::new();
    let _ = all.try_extend_from_slice(line);
    let _ = all.try_extend_from_slice(sign);
    let _ = all.try_extend_from_slice(text);
    all
}

// The line as it is shown: where there are colours faint, between the terminal's words for that and for all as usual.
fn shaded(line: &[u8], coloured: bool) -> EchoText
    requires { length line.now ≤ 256 }
    ensures value { result.items ≡ shaded coloured line.now }
    ensures short { length result.items ≤ 264 }
{
    if coloured {
        return joined(b"\x1b[2m", line, b"\x1b[0m");
    }
    let mut text = EchoText::new();
    let _ = text.try_extend_from_slice(line);
    text
}

// What is shown of a line that gave this text.
fn echo_of(line: &[u8], text: &LineText, coloured: bool) -> EchoText
    requires { length line.now ≤ 256 }
    ensures { result.items ≡ echo coloured line.now text.now.bytes }
{
    let shown = shaded(line, coloured);
    match read_line(line) {
        None | Some(Line::Blank) => joined(b"", b"", b""),
        Some(Line::Space { .. }) | Some(Line::File { .. }) => joined(&shown, b"\n", b""),
        Some(Line::Act(..)) | Some(Line::Fold(_)) | Some(Line::Finish(_)) | Some(Line::Now(..)) =>
            joined(&shown, b" = ", text.as_str().as_bytes()),
    }
}

// Shows each line beside what it gave.
#[derive(Clone, Copy)]
struct Echoing {
    coloured: bool,
}

impl Showing for Echoing {
    ghost shown = { λ s line text. echo s.coloured line text };

    fn write_line<W: Sink>(
        &self,
        writer: &mut W,
        line: &[u8],
        text: &LineText,
    ) -> Result<(), WriteFailed> {
        let shown = echo_of(line, text, self.coloured);
        write_all(writer, &shown)
    }
}

// A line without its newline.
fn unended(line: &[u8]) -> &[u8]
    ensures { result.now ≡ unended line.now }
{
    let (front, _) = line.split_at(line.len().saturating_sub(1));
    front
}

// Writes one text after another.
fn write_two<W: Sink>(writer: &mut W, first: &[u8], second: &[u8]) -> Result<(), WriteFailed>
    ensures { IsWritten result (written_to W.Sink writer.old writer.new) (first.now ++ second.now) }
{
    if let Err(failed) = write_all(writer, first) {
        return Err(failed);
    }
    write_all(writer, second)
}

// Writes the line of an entry, and behind it whose it is.
fn write_entry<W: Sink>(writer: &mut W, line: &[u8], whose: &[u8]) -> Result<(), WriteFailed>
    ensures { IsWritten result (written_to W.Sink writer.old writer.new) (unended line.now ++ whose.now ++ codes "\n") }
{
    if let Err(failed) = write_two(writer, unended(line), whose) {
        return Err(failed);
    }
    write_all(writer, b"\n")
}

// Writes a line for each of these entries, and behind each whose it is. The lines and the text are where they are made.
fn write_entries<W: Sink>(
    writer: &mut W,
    entries: &LoggedEntries<'_>,
    whose: &[u8],
    lines: &mut LogLines,
    text: &mut LineText,
) -> Result<(), WriteFailed>
    ensures { IsWritten result (written_to W.Sink writer.old writer.new) (flat_map (entry_line whose.now) (listed entries.now)) }
{
    let mut at = 0;
    'entries: while at < entries.len() {
        let entry = entries.get(at);
        lines.clear();
        lines.push(entry, text);
        if let Err(failed) = write_entry(writer, lines.as_bytes(), whose) {
            return Err(failed);
        }
        at += 1;
    }
    Ok(())
}

// Writes the lines of the entries that the log has behind the first ones, where the log is shown, and answers how many it has.
fn write_added<W: Sink, R: Staged>(
    writer: &mut W,
    replay: &Asking<R>,
    first: usize,
    lines: &mut LogLines,
    text: &mut LineText,
) -> Result<usize, WriteFailed>
    requires { R.keeps ≡ replay.now.asks.is_wanted }
    ensures wrote { IsWritten result (written_to W.Sink writer.old writer.new)
        (added_text replay.now.asks.is_wanted (whose_text replay.now.asks) first (log_at (R.stage replay.now.replayer))) }
    ensures count { IfOk result (λ n. replay.now.asks.is_wanted ≡ true → n ≡ length (log_at (R.stage replay.now.replayer))) }
{
    if !replay.asks.is_wanted {
        return Ok(first);
    }
    let Some(log) = replay.log() else {
        // (this never comes, since the log is kept)
        return Ok(first);
    };
    let from = first.min(log.len());
    let whose = replay.asks.whose();
    if let Err(failed) = write_entries(
        writer,
        &log.behind(from),
        whose.as_str().as_bytes(),
        lines,
        text,
    ) {
        return Err(failed);
    }
    Ok(log.len())
}

// Writes what stands below a line: these entries, and a text.
fn write_below<W: Sink, R: Staged>(
    writer: &mut W,
    replay: &Asking<R>,
    first: usize,
    change: &[u8],
    lines: &mut LogLines,
    text: &mut LineText,
) -> Result<usize, WriteFailed>
    requires { R.keeps ≡ replay.now.asks.is_wanted }
    ensures wrote { IsWritten result (written_to W.Sink writer.old writer.new)
        (added_text replay.now.asks.is_wanted (whose_text replay.now.asks) first (log_at (R.stage replay.now.replayer)) ++ change.now) }
    ensures count { IfOk result (λ n. replay.now.asks.is_wanted ≡ true → n ≡ length (log_at (R.stage replay.now.replayer))) }
{
    let count = match write_added(writer, replay, first, lines, text) {
        Ok(count) => count,
        Err(failed) => return Err(failed),
    };
    if let Err(failed) = write_all(writer, change) {
        return Err(failed);
    }
    Ok(count)
}

// Acts on the lines until the text ends, and then makes a machine where no line has.
fn echo_lines<A: Allocator, S: Source, W: Sink, R: Staged>(
    lines: &mut LineReader<A>,
    reader: &mut S,
    writer: &mut W,
    replay: &mut Asking<R>,
    text: &mut LineText,
    coloured: bool,
    texts: &[Vec<u8>],
) -> Result<(), TraceFault>
    requires fresh { lines.old ≡ opening }
    requires keeps { R.keeps ≡ replay.old.asks.is_wanted }
    requires none { replay.old.asks ≡ nothing_asked replay.old.asks.is_wanted }
    ensures ends { (limit : CallLimit) → R.stage replay.old.replayer ≡ Start limit
        → Reads (S.stream reader.old) (S.stream reader.new) (λ input unread.
        EchoEnds coloured replay.old.asks.is_wanted (texts_of texts.now) limit input (W.contents writer.old) (W.contents writer.new) result) }
    ensures told { TellsIo fault_named result (read_from S.Source reader.old reader.new) (written_to W.Sink writer.old writer.new) }
{
    let show = Echoing { coloured };
    let mut entries = LogLines::new();
    let mut shown = 0usize;
    let mut number = 0u64;
    'lines: loop {
        replay.asks.line = number + 1;
        match turn(lines, reader, writer, replay, number, &show, text) {
            Ok(true) => match write_below(
                writer,
                replay,
                shown,
                text_at(texts, number),
                &mut entries,
                text,
            ) {
                Ok(count) => {
                    shown = count;
                    number += 1;
                }
                Err(_) => return Err(TraceFault::WriteFailed),
            },
            Ok(false) => return replay.finish(),
            Err(fault) => return Err(fault),
        }
    }
}

// Acts on all lines, over a ledger of this kind.
fn echo_over<L: Opening<A> + Drop, A: Allocator + Clone + Drop, S: Source, W: Sink>(
    alloc: A,
    lines: &mut LineReader<A>,
    reader: &mut S,
    writer: &mut W,
    limit: CallLimit,
    coloured: bool,
    logs: bool,
    texts: &[Vec<u8>],
) -> Result<(), TraceFault>
    requires fresh { lines.old ≡ opening }
    requires keeps { L.keeps ≡ logs }
    requires fits { Fits L.keeps limit }
    ensures ends { Reads (S.stream reader.old) (S.stream reader.new) (λ input unread.
        EchoEnds coloured logs (texts_of texts.now) limit input (W.contents writer.old) (W.contents writer.new) result) }
    ensures told { TellsIo fault_named result (read_from S.Source reader.old reader.new) (written_to W.Sink writer.old writer.new) }
{
    let replayer = Replayer::<A, L, Unwatched>::within(limit, alloc, Unwatched);
    let asks = Asks::new(logs);
    let mut replay = Asking { replayer, asks };
    let mut text = LineText::new();
    echo_lines(
        lines,
        reader,
        writer,
        &mut replay,
        &mut text,
        coloured,
        texts,
    )
}

// The same. The log is kept only where it is shown, and then the usual limit of calls holds.
fn echo_text<A: Allocator + Clone + Drop, S: Source, W: Sink>(
    alloc: A,
    lines: &mut LineReader<A>,
    reader: &mut S,
    writer: &mut W,
    limit: CallLimit,
    coloured: bool,
    logs: bool,
    texts: &[Vec<u8>],
) -> Result<(), TraceFault>
    requires fresh { lines.old ≡ opening }
    ensures ends { Reads (S.stream reader.old) (S.stream reader.new) (λ input unread.
        EchoEnds coloured logs (texts_of texts.now) (echo_limit logs limit) input (W.contents writer.old) (W.contents writer.new) result) }
    ensures told { TellsIo fault_named result (read_from S.Source reader.old reader.new) (written_to W.Sink writer.old writer.new) }
{
    if logs {
        echo_over::<KeepsLog<A>, A, S, W>(
            alloc,
            lines,
            reader,
            writer,
            CallLimit::Usual,
            coloured,
            true,
            texts,
        )
    } else {
        echo_over::<KeepsNone, A, S, W>(alloc, lines, reader, writer, limit, coloured, false, texts)
    }
}

// Acts on all lines. Memory for a chunk of them is taken before anything is read.
fn echo_read<A: Allocator + Clone + Drop, S: Source, W: Sink>(
    alloc: A,
    reader: &mut S,
    writer: &mut W,
    limit: CallLimit,
    coloured: bool,
    logs: bool,
    texts: &[Vec<u8>],
) -> Replayed<A>
    ensures ends { Reads (S.stream reader.old) (S.stream reader.new) (λ input unread.
        EchoEnds coloured logs (texts_of texts.now) (echo_limit logs limit) input (W.contents writer.old) (W.contents writer.new) result.ended) }
    ensures told { TellsIo fault_named result.ended (read_from S.Source reader.old reader.new) (written_to W.Sink writer.old writer.new) }
{
    let Some(mut lines) = line_reader(&alloc) else {
        return Replayed {
            ended: Err(TraceFault::NoMemory),
            lines: None,
        };
    };
    let ended = echo_text(
        alloc, &mut lines, reader, writer, limit, coloured, logs, texts,
    );
    Replayed {
        ended,
        lines: Some(lines),
    }
}

/// Replays a trace that may ask for as many calls as this limit says, as `crate::replay` does, and
/// writes each line of an event with its outcome after ` = `, and each `vm` or `file` line as it
/// is, the lines faint where colours are asked for. Where the log is asked for, a line of each of its entries stands below the line
/// that added it, with the core, the request and the line of its call, and the usual limit holds. Below that stands the text of the
/// line's number, if it has one. Hands out the lines that were read, of which the last tells more of a fault.
pub fn replay_echoing<A: Allocator + Clone + Drop, S: Source, W: Sink>(
    alloc: A,
    reader: &mut S,
    writer: &mut W,
    limit: CallLimit,
    coloured: bool,
    logs: bool,
    texts: &[Vec<u8>],
) -> Replayed<A>
    ensures ends { Reads (S.stream reader.old) (S.stream reader.new) (λ input unread.
        EchoEnds coloured logs (texts_of texts.now) (echo_limit logs limit) input (W.contents writer.old) (W.contents writer.new) result.ended) }
    ensures told { TellsFaults result.ended (read_from S.Source reader.old reader.new) (written_to W.Sink writer.old writer.new) }
{
    let replayed = echo_read(alloc, reader, writer, limit, coloured, logs, texts);
    match writer.flush() {
        Ok(()) => replayed,
        Err(_) => Replayed {
            ended: Err(TraceFault::WriteFailed),
            lines: replayed.lines,
        },
    }
}
