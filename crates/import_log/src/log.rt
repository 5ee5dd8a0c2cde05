//! A log is read whole, and its trace is written.
ghost use Rattle.std.specs.Prelude.{◌≡◌, ◌⊎◌, ◌<◌, ◌^◌, ℕ, Err, IfOk, List, OnOk, true};
ghost use Rattle.import_steps.specs.Counts.{total};
ghost use Rattle.import_log.specs.Ends.{ImportEnds, IsImported, ended_text};
ghost use Rattle.import_lines.specs.LogLines.{IsRead};
ghost use Rattle.import_steps.specs.Taking.{so_far};
ghost use Rattle.trace_io.specs.Io.{TellsSent, read_from, written_to};
ghost use Rattle.trace_io.specs.Lines.{lines_of};
ghost use Rattle.trace_io.specs.Source.{Reads};

use crate::import::{Ending, Report, import_lines};
use crate::owned::own_lines;
use crate::processes::Choice;
use import_lines::log_lines::StraceLog;
use import_lines::reading::read_lines;
use import_steps::meter::Meter;
use import_steps::taking::Taken;
use import_steps::writing::{FRAMES, write_taken};
use std::alloc::{AllocError, Global};
use trace_io::IoFault;
use trace_io::sink::{Sink, write_out};
use trace_io::source::Source;

/// The text of a trace, where an import ended with one.
pub(crate) fn write_ended(
    alloc: Global,
    ending: Ending,
    taken: &Taken,
) -> Result<Vec<u8>, AllocError>
    ensures { IfOk result (λ all. all.items ≡ ended_text ending (so_far taken.now)) }
{
    match ending {
        Ending::Written => write_taken(alloc, taken, FRAMES),
        Ending::Nothing | Ending::Absent | Ending::Refused(_) => Ok(Vec::new(alloc)),
    }
}

// What is taken of a log, and what is said about that. The log is let go of then.
fn import_whole<M: Meter>(
    alloc: Global,
    start: &Taken,
    log: StraceLog,
    choice: Choice,
    meter: &mut M,
) -> Result<(Taken, Report), AllocError>
    ensures told { IfOk result (λ i. (input : List ℕ) → IsRead (lines_of input) log
        → IsImported (so_far start.now) choice input (so_far i.0) i.1) }
    ensures few { IfOk result (λ i. total i.1.counts < 2 ^ 64) }
{
    let StraceLog { lines, unread, .. } = log;
    let owned = own_lines(alloc, lines, meter)?;
    let imported = import_lines(
        alloc,
        start,
        unread.as_slice(),
        &owned.lines,
        owned.unclear,
        choice,
        meter,
    )?;
    Ok(imported)
}

// Writes the trace of a log, and answers what is said about it.
fn write_import<W: Sink, M: Meter>(
    alloc: Global,
    start: &Taken,
    log: StraceLog,
    writer: &mut W,
    choice: Choice,
    meter: &mut M,
) -> Result<Report, IoFault>
    ensures ends { (input : List ℕ) → IsRead (lines_of input) log
        → ImportEnds (so_far start.now) choice input (W.contents writer.old) (W.contents writer.new) result }
    ensures few { IfOk result (λ report. total report.counts < 2 ^ 64) }
    ensures out { OnOk result (W.is_flushed writer.new ≡ true) }
    ensures read { result ≡ Err IoFault.ReadFailed → ⊥ }
    ensures write { result ≡ Err IoFault.WriteFailed → W.failed writer.new ≡ true }
    ensures kept { (result ≡ Err IoFault.WriteFailed) ⊎ (W.failed writer.new ≡ W.failed writer.old) }
{
    let Ok((taken, report)) = import_whole(alloc, start, log, choice, meter) else {
        return Err(IoFault::NoMemory);
    };
    let Ok(text) = write_ended(alloc, report.ending, &taken) else {
        return Err(IoFault::NoMemory);
    };
    match write_out(writer, text.as_slice()) {
        Ok(()) => Ok(report),
        Err(_) => Err(IoFault::WriteFailed),
    }
}

/// Reads a log of strace to its end, and writes its trace: what is there at the start, and what the chosen process
/// asked of its address space. Answers what is said about that. Nothing is written before all is read and found its
/// memory; and nothing at all where no request would be in the trace, no line is about the thread that was named, or
/// the log is refused.
pub fn import_log<S: Source, W: Sink, M: Meter>(
    alloc: Global,
    start: &Taken,
    reader: &mut S,
    writer: &mut W,
    choice: Choice,
    meter: &mut M,
) -> Result<Report, IoFault>
    ensures ends { Reads (S.stream reader.old) (S.stream reader.new) (λ input unread.
        ImportEnds (so_far start.now) choice input (W.contents writer.old) (W.contents writer.new) result) }
    ensures few { IfOk result (λ report. total report.counts < 2 ^ 64) }
    ensures told { TellsSent (λ f. f) result (read_from S.Source reader.old reader.new)
        (written_to W.Sink writer.old writer.new) }
{
    let mut log = StraceLog::new(alloc);
    match read_lines(alloc, reader, &mut log) {
        Ok(()) => write_import(alloc, start, log, writer, choice, meter),
        Err(fault) => Err(fault),
    }
}
