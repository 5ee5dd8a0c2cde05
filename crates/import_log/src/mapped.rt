//! A list of mappings and a log are read whole, and their trace is written.
ghost use Rattle.std.specs.Prelude.{◌≡◌, ◌<◌, ◌^◌, IfOk};
ghost use Rattle.trace_io.specs.Io.{TellsSent, read_from, written_to};
ghost use Rattle.trace_io.specs.Source.{Reads};
ghost use Rattle.import_steps.specs.Counts.{total};
ghost use Rattle.import_steps.specs.Taking.{so_far};
ghost use Rattle.import_log.specs.Entries.{total as entries_total};
ghost use Rattle.import_log.specs.Mapped.{MapsEnds, StartedEnds, TellsMaps};

use crate::entries::Entries;
use crate::import::Report;
use crate::log::import_log;
use crate::processes::Choice;
use crate::starting::{Start, read_list};
use import_steps::meter::Meter;
use std::alloc::Global;
use trace_io::IoFault;
use trace_io::sink::Sink;
use trace_io::source::{Source, read_all};

/// What is said about an import.
#[derive(Drop)]
pub struct MapsReport {
    /// How many lines of the list became what.
    pub entries: Entries,
    /// What is said about the log.
    pub report: Report,
}

// Writes the trace of what a list said and of the log.
fn import_after<S: Source, W: Sink, M: Meter>(
    alloc: Global,
    start: &Start,
    log: &mut S,
    writer: &mut W,
    choice: Choice,
    meter: &mut M,
) -> Result<MapsReport, IoFault>
    ensures ends { Reads (S.stream log.old) (S.stream log.new) (λ input unread.
        StartedEnds (so_far start.now.taken, start.now.entries) (entries_total start.now.entries) choice input
        (W.contents writer.old) (W.contents writer.new) result) }
    ensures few { IfOk result (λ told. total told.report.counts < 2 ^ 64) }
    ensures entries { IfOk result (λ told. told.entries ≡ start.now.entries) }
    ensures told { TellsSent (λ f. f) result (read_from S.Source log.old log.new)
        (written_to W.Sink writer.old writer.new) }
{
    match import_log(alloc, &start.taken, log, writer, choice, meter) {
        Ok(report) => Ok(MapsReport {
            entries: start.entries,
            report,
        }),
        Err(fault) => Err(fault),
    }
}

// Writes the trace of what the list says and of the log.
fn import_behind<S: Source, W: Sink, M: Meter>(
    alloc: Global,
    list: &[u8],
    log: &mut S,
    writer: &mut W,
    choice: Choice,
    meter: &mut M,
) -> Result<MapsReport, IoFault>
    ensures ends { Reads (S.stream log.old) (S.stream log.new) (λ input unread.
        MapsEnds list.now choice input (W.contents writer.old) (W.contents writer.new) result) }
    ensures few { IfOk result (λ told. total told.report.counts < 2 ^ 64) }
    ensures fewer { IfOk result (λ told. entries_total told.entries < 2 ^ 64) }
    ensures told { TellsSent (λ f. f) result (read_from S.Source log.old log.new)
        (written_to W.Sink writer.old writer.new) }
{
    match read_list(alloc, list) {
        Ok(start) => import_after(alloc, &start, log, writer, choice, meter),
        Err(_) => Err(IoFault::NoMemory),
    }
}

/// Reads a list of mappings and then a log of strace, both to their ends, and writes their trace: what the list says,
/// and what the chosen process asked of its address space. Answers what is said about both. Nothing is written before
/// all is read and found its memory; and nothing at all where no request would be in the trace, or no line is about
/// the thread that was named.
pub fn import_mapped<L: Source, S: Source, W: Sink, M: Meter>(
    alloc: Global,
    list: &mut L,
    log: &mut S,
    writer: &mut W,
    choice: Choice,
    meter: &mut M,
) -> Result<MapsReport, IoFault>
    ensures ends { Reads (L.stream list.old) (L.stream list.new) (λ listed left.
        Reads (S.stream log.old) (S.stream log.new) (λ input unread.
        MapsEnds listed choice input (W.contents writer.old) (W.contents writer.new) result)) }
    ensures few { IfOk result (λ told. total told.report.counts < 2 ^ 64) }
    ensures fewer { IfOk result (λ told. entries_total told.entries < 2 ^ 64) }
    ensures told { TellsMaps result (read_from L.Source list.old list.new)
        (read_from S.Source log.old log.new) (written_to W.Sink writer.old writer.new) }
{
    match read_all(alloc, list) {
        Ok(listed) => import_behind(alloc, listed.as_slice(), log, writer, choice, meter),
        Err(fault) => Err(fault),
    }
}
