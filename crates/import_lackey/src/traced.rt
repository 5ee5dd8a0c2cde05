//! A log of lackey is read whole, and its trace is written.
ghost use Rattle.std.specs.Prelude.{◌≡◌, ◌⊎◌, ◌<◌, ◌^◌, Err, IfOk, OnOk, true};
ghost use Rattle.trace_io.specs.Io.{TellsSent, read_from, written_to};
ghost use Rattle.trace_io.specs.Source.{Reads};
ghost use Rattle.import_steps.specs.Counts.{total};
ghost use Rattle.import_lackey.specs.Traced.{TraceEnds, ended_text, ending_from};
ghost use Rattle.import_lackey.specs.Tracing.{state_of};
ghost use Rattle.import_steps.specs.Taking.{so_far};

use crate::tracing::{Traced, trace_lines};
use import_log::import::Ending;
use import_steps::counts::LineCounts;
use import_steps::taking::Taken;
use import_steps::writing::write_taken;
use std::alloc::{AllocError, Global};
use trace_io::IoFault;
use trace_io::sink::{Sink, write_out};
use trace_io::source::{Source, read_all};

/// How many frames the space of a trace with accesses has: as many as one may have.
pub const FRAMES: u64 = 65_536;

/// What is said about an import of a log of lackey.
#[derive(Clone, Copy)]
pub struct LackeyReport {
    /// How it ended: there is a trace, or nothing.
    pub ending: Ending,
    /// How many lines were kept, changed and left out.
    pub counts: LineCounts,
}

// How an import ended of which this is taken.
fn ending_from(traced: &Traced) -> Ending
    ensures { result ≡ ending_from (state_of traced.now) }
{
    if traced.taken.steps.len() == 0 {
        Ending::Nothing
    } else {
        Ending::Written
    }
}

// The text of a trace, where an import ended with one.
fn write_ended(alloc: Global, ending: Ending, taken: &Taken) -> Result<Vec<u8>, AllocError>
    ensures { IfOk result (λ all. all.items ≡ ended_text ending (so_far taken.now)) }
{
    match ending {
        Ending::Written => write_taken(alloc, taken, FRAMES),
        Ending::Nothing | Ending::Absent | Ending::Refused(_) => Ok(Vec::new(alloc)),
    }
}

// Writes the trace of a log, and answers what is said about it.
#[tactic(auto, using(crate::proofs::EndLemmas::traces_all, crate::proofs::EndLemmas::traces_front, crate::proofs::EndLemmas::ending_known, trace_io::proofs::IoLemmas::keeps_same))]
fn write_trace<W: Sink>(alloc: Global, log: &[u8], writer: &mut W) -> Result<LackeyReport, IoFault>
    ensures ends { TraceEnds log.now (W.contents writer.old) (W.contents writer.new) result }
    ensures few { IfOk result (λ told. total told.counts < 2 ^ 64) }
    ensures out { OnOk result (W.is_flushed writer.new ≡ true) }
    ensures read { result ≡ Err IoFault.ReadFailed → ⊥ }
    ensures write { result ≡ Err IoFault.WriteFailed → W.failed writer.new ≡ true }
    ensures kept { (result ≡ Err IoFault.WriteFailed) ⊎ (W.failed writer.new ≡ W.failed writer.old) }
{
    let Ok(traces) = trace_lines(alloc, log) else {
        return Err(IoFault::NoMemory);
    };
    let ending = ending_from(&traces.traced);
    let Ok(text) = write_ended(alloc, ending, &traces.traced.taken) else {
        return Err(IoFault::NoMemory);
    };
    let counts = traces.counts;
    match write_out(writer, text.as_slice()) {
        Ok(()) => Ok(LackeyReport { ending, counts }),
        Err(_) => Err(IoFault::WriteFailed),
    }
}

/// Reads a log of lackey to its end, and writes its trace. Answers what is said about that. Nothing is written before
/// all is read and found its memory; and nothing at all where no request would be in the trace.
pub fn trace_log<S: Source, W: Sink>(
    alloc: Global,
    reader: &mut S,
    writer: &mut W,
) -> Result<LackeyReport, IoFault>
    ensures ends { Reads (S.stream reader.old) (S.stream reader.new) (λ input unread.
        TraceEnds input (W.contents writer.old) (W.contents writer.new) result) }
    ensures few { IfOk result (λ told. total told.counts < 2 ^ 64) }
    ensures told { TellsSent (λ f. f) result (read_from S.Source reader.old reader.new)
        (written_to W.Sink writer.old writer.new) }
{
    match read_all(alloc, reader) {
        Ok(log) => write_trace(alloc, log.as_slice(), writer),
        Err(fault) => Err(fault),
    }
}
