//! A script's text that is run, and what is written of it: the notes of its seats, or the result of certifying them.
ghost use Rattle.std.specs.Prelude.{◌≡◌, ◌⊎◌, Err, IfErr, IfOk, IfSome, None, OnOk, true};
ghost use Rattle.trace_io.specs.Io.{IsWritten, read_from, written_to};
ghost use Rattle.trace_io.specs.Source.{Reads};
ghost use Rattle.trace_words.specs.Declarations.{asked_fault};
ghost use Rattle.trace_words.specs.Scripts.{ReadsScript, Unread, ReadWhole};
ghost use Rattle.notes_text.specs.Verdicts.{verdict_text};
ghost use Rattle.live_script.specs.Certified.{IsNoTicket};
ghost use Rattle.live_script.specs.Runs.{Fails};
ghost use Rattle.live_script.specs.Texts.{EndsText, IsSummedText, IsVerdictOf, IsVerdictText, JudgedNotes, TellsText, Yields, fault_of_run};

use crate::certifying::certify_ran;
use crate::fault::ScriptFault;
use crate::ran::lend;
use crate::runner::Runner;
use crate::sums::{Sums, sums_of};
use certifier::{Certified, CertifyFault};
use live_space::fault::LiveFault;
use notes_text::verdict::{NotesVerdict, write_verdict};
use notes_text::write_notes;
use radix_range::RadixMap;
use slot_lock::SlotMap;
use std::alloc::Allocator;
use std::sync::Wait;
use std::thread::Threads;
use thiserror::Error;
use trace_io::sink::{Sink, WriteFailed};
use trace_io::source::Source;
use trace_words::fault::TraceFault;
use trace_words::{Script, read_script};

/// Why a script's text wasn't run, or what came of it wasn't written.
#[derive(Clone, Copy, Debug, Error)]
pub enum TextFault {
    /// The text can't be read, it makes no space, memory is refused, or a write failed.
    #[error("{0}")]
    Text(TraceFault),
    /// A task of a core couldn't begin. Of several cores it is the least one's fault.
    #[error("live {0}")]
    Live(LiveFault),
}

// As what a fault of running is told.
fn fault_of_run(fault: ScriptFault) -> TextFault
    ensures { result ≡ fault_of_run fault }
{
    match fault {
        ScriptFault::Setup(fault) => TextFault::Text(TraceFault::Setup(fault)),
        ScriptFault::Live(fault) => TextFault::Live(fault),
        ScriptFault::NoMemory => TextFault::Text(TraceFault::NoMemory),
    }
}

// ---- notes

// Runs the script, writes what its seats noted, and answers the numbers of that.
fn write_run<A: Allocator + Clone + Drop, T: Threads + Wait + Sync, R: Runner<A>, W: Sink>(
    rt: &T,
    runner: &R,
    alloc: A,
    script: &Script<A>,
    writer: &mut W,
) -> Result<Sums, TextFault>
    requires { asked_fault script.now.asked ≡ None }
    ensures ends { Yields IsSummedText script.now (W.contents writer.old) (W.contents writer.new) result }
    ensures write { result ≡ Err (TextFault.Text TraceFault.WriteFailed) → W.failed writer.new ≡ true }
    ensures kept { (result ≡ Err (TextFault.Text TraceFault.WriteFailed)) ⊎ (W.failed writer.new ≡ W.failed writer.old) }
    ensures out { OnOk result (W.is_flushed writer.new ≡ true) }
{
    let Ok(for_run) = alloc.clone() else {
        return Err(TextFault::Text(TraceFault::NoMemory));
    };
    let Ok(for_notes) = alloc.clone() else {
        return Err(TextFault::Text(TraceFault::NoMemory));
    };
    let ran = match runner.run(rt, for_run, script) {
        Ok(ran) => ran,
        Err(fault) => return Err(fault_of_run(fault)),
    };
    let Ok(notes) = ran.into_notes(for_notes) else {
        return Err(TextFault::Text(TraceFault::NoMemory));
    };
    let Ok(lent) = lend(alloc, notes.as_slice()) else {
        return Err(TextFault::Text(TraceFault::NoMemory));
    };
    let sums = sums_of(lent.as_slice());
    match write_notes(script, lent.as_slice(), writer) {
        Ok(()) => Ok(sums),
        Err(fault) => Err(TextFault::Text(fault)),
    }
}

/// Reads a script, runs it, writes the notes of all seats, in order of tickets, and answers their numbers. Faults come in this
/// order: of the text, of the making of the space, of a core's task, and of writing; nothing is written before the last. Memory
/// may be refused at any time.
pub fn run_text<
    A: Allocator + Clone + Drop,
    T: Threads + Wait + Sync,
    R: Runner<A>,
    S: Source,
    W: Sink,
>(rt: &T, runner: &R, alloc: A, reader: &mut S, writer: &mut W) -> Result<Sums, TextFault>
    ensures ends { Reads (S.stream reader.old) (S.stream reader.new) (λ input unread. EndsText
        IsSummedText input unread (W.contents writer.old) (W.contents writer.new) result) }
    ensures told { TellsText result (read_from S.Source reader.old reader.new) (written_to W.Sink writer.old writer.new) }
{
    let Ok(for_script) = alloc.clone() else {
        return Err(TextFault::Text(TraceFault::NoMemory));
    };
    let script = match read_script(for_script, reader) {
        Ok(script) => script,
        Err(fault) => return Err(TextFault::Text(fault)),
    };
    write_run(rt, runner, alloc, &script, writer)
}

// ---- certificates

/// What certifying a run came to, and the numbers of what its seats noted.
#[derive(Clone, Copy)]
pub struct RunVerdict {
    pub verdict: NotesVerdict,
    pub sums: Sums,
}

// Runs the script, and certifies what its seats noted.
fn judge_run<A: Allocator + Clone + Drop, T: Threads + Wait + Sync, R: Runner<A>>(
    rt: &T,
    runner: &R,
    alloc: A,
    script: &Script<A>,
) -> Result<RunVerdict, TextFault>
    requires { asked_fault script.now.asked ≡ None }
    ensures judged { IfOk result (λ judgement. JudgedNotes A ⟦<RadixMap<A> as SlotMap>⟧.parts
        ⟦<RadixMap<A> as SlotMap>⟧.can_fold ⟦<RadixMap<A> as SlotMap>⟧.folds script.now judgement) }
    ensures fault { IfErr result (λ f. (fault : ScriptFault) × Fails script.now fault × (f ≡ fault_of_run fault)) }
{
    let Ok(for_run) = alloc.clone() else {
        return Err(TextFault::Text(TraceFault::NoMemory));
    };
    let Ok(for_notes) = alloc.clone() else {
        return Err(TextFault::Text(TraceFault::NoMemory));
    };
    let ran = match runner.run(rt, for_run, script) {
        Ok(ran) => ran,
        Err(fault) => return Err(fault_of_run(fault)),
    };
    let Ok(for_end) = alloc.clone() else {
        return Err(TextFault::Text(TraceFault::NoMemory));
    };
    let Ok(ended) = ran.end(for_end) else {
        return Err(TextFault::Text(TraceFault::NoMemory));
    };
    let Ok(notes) = ended.notes(for_notes) else {
        return Err(TextFault::Text(TraceFault::NoMemory));
    };
    let sums = sums_of(notes.as_slice());
    let done = certify_ran(alloc, script, notes.as_slice(), &ended.histories);
    match verdict_of(done) {
        Some(verdict) => Ok(RunVerdict { verdict, sums }),
        None => Err(TextFault::Text(TraceFault::NoMemory)),
    }
}

// The verdict to which certifying notes of a run came, which have the tickets below their number, each
// once. None where memory was wanting.
fn verdict_of(done: Result<Certified, CertifyFault>) -> Option<NotesVerdict>
    requires { IfErr done IsNoTicket }
    ensures { IfSome result (IsVerdictOf done) }
{
    match done {
        Ok(done) => Some(NotesVerdict::Certified(done.calls)),
        Err(CertifyFault::Ticket(_)) => unreachable!(),
        Err(
            CertifyFault::Differs {
                ticket,
                noted,
                expected,
            },
        ) => Some(NotesVerdict::Differs {
            ticket,
            noted,
            expected,
        }),
        Err(CertifyFault::Slot { page }) => Some(NotesVerdict::Slot(page)),
        // (the declaration has no fault)
        Err(CertifyFault::Setup(_)) | Err(CertifyFault::NoMemory) => None,
    }
}

// Writes the line that tells the verdict, and hands it on.
fn send_verdict<W: Sink>(writer: &mut W, verdict: NotesVerdict) -> Result<(), WriteFailed>
    ensures wrote { IsWritten result (written_to W.Sink writer.old writer.new) (verdict_text verdict) }
    ensures out { OnOk result (W.is_flushed writer.new ≡ true) }
{
    if let Err(failed) = write_verdict(writer, verdict) {
        return Err(failed);
    }
    writer.flush()
}

// Runs the script, and writes the result of certifying its notes.
fn certify_read<A: Allocator + Clone + Drop, T: Threads + Wait + Sync, R: Runner<A>, W: Sink>(
    rt: &T,
    runner: &R,
    alloc: A,
    script: &Script<A>,
    writer: &mut W,
) -> Result<RunVerdict, TextFault>
    requires { asked_fault script.now.asked ≡ None }
    ensures ends { Yields (λ script told text. IsVerdictText A ⟦<RadixMap<A> as SlotMap>⟧.parts
        ⟦<RadixMap<A> as SlotMap>⟧.can_fold ⟦<RadixMap<A> as SlotMap>⟧.folds script told text)
        script.now (W.contents writer.old) (W.contents writer.new) result }
    ensures write { result ≡ Err (TextFault.Text TraceFault.WriteFailed) → W.failed writer.new ≡ true }
    ensures kept { (result ≡ Err (TextFault.Text TraceFault.WriteFailed)) ⊎ (W.failed writer.new ≡ W.failed writer.old) }
    ensures out { OnOk result (W.is_flushed writer.new ≡ true) }
{
    let judgement = match judge_run(rt, runner, alloc, script) {
        Ok(judgement) => judgement,
        Err(fault) => return Err(fault),
    };
    match send_verdict(writer, judgement.verdict) {
        Ok(()) => Ok(judgement),
        Err(_) => Err(TextFault::Text(TraceFault::WriteFailed)),
    }
}

/// Reads a script, runs it, and writes the verdict on its notes beside the histories of the space's slots: a
/// line as of `write_verdict`, which is never `refused C1`. Answers the verdict, and the numbers of the notes. Faults come as those
/// of `run_text`; also where the space couldn't be ended, memory was refused.
pub fn certify_run<
    A: Allocator + Clone + Drop,
    T: Threads + Wait + Sync,
    R: Runner<A>,
    S: Source,
    W: Sink,
>(rt: &T, runner: &R, alloc: A, reader: &mut S, writer: &mut W) -> Result<RunVerdict, TextFault>
    ensures ends { Reads (S.stream reader.old) (S.stream reader.new) (λ input unread. EndsText
        (λ script told text. IsVerdictText A ⟦<RadixMap<A> as SlotMap>⟧.parts ⟦<RadixMap<A> as SlotMap>⟧.can_fold
        ⟦<RadixMap<A> as SlotMap>⟧.folds script told text)
        input unread (W.contents writer.old) (W.contents writer.new) result) }
    ensures told { TellsText result (read_from S.Source reader.old reader.new) (written_to W.Sink writer.old writer.new) }
{
    let Ok(for_script) = alloc.clone() else {
        return Err(TextFault::Text(TraceFault::NoMemory));
    };
    let script = match read_script(for_script, reader) {
        Ok(script) => script,
        Err(fault) => return Err(TextFault::Text(fault)),
    };
    certify_read(rt, runner, alloc, &script, writer)
}
