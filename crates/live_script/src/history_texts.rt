//! A script's text that is run, and the history of its calls that is written.
ghost use Rattle.std.specs.Prelude.{◌≡◌, ◌⊎◌, Err, None, OnOk, true};
ghost use Rattle.trace_io.specs.Io.{read_from, written_to};
ghost use Rattle.trace_io.specs.Source.{Reads};
ghost use Rattle.trace_words.specs.Declarations.{asked_fault};
ghost use Rattle.live_script.specs.Texts.{EndsText, TellsText, Yields, fault_of_run};
ghost use Rattle.live_script.specs.Ends.{IsSummedHistory};

use crate::calls::history_of;
use crate::sums::sums_of;
use crate::texts::TextFault;
use crate::writing::write_history;
use crate::{Runner, ScriptFault, Sums};
use std::alloc::Allocator;
use std::sync::Wait;
use std::thread::Threads;
use trace_io::sink::Sink;
use trace_io::source::Source;
use trace_words::fault::TraceFault;
use trace_words::{Script, read_script};

// As what a fault of running is told.
fn fault_of_run(fault: ScriptFault) -> TextFault
    ensures { result ≡ fault_of_run fault }
{
    match fault {
        ScriptFault::Setup(fault) => TextFault::Text(TraceFault::Setup(fault)),
        ScriptFault::Live(fault) => TextFault::Live(fault),
        ScriptFault::NoMemory => TextFault::Text(TraceFault::NoMemory),
    }
}

// Runs the script, writes the history of its calls, and answers the numbers of what its seats noted.
fn write_run<A: Allocator + Clone + Drop, T: Threads + Wait + Sync, R: Runner<A>, W: Sink>(
    rt: &T,
    runner: &R,
    alloc: A,
    script: &Script<A>,
    writer: &mut W,
) -> Result<Sums, TextFault>
    requires { asked_fault script.now.asked ≡ None }
    ensures ends { Yields IsSummedHistory script.now (W.contents writer.old) (W.contents writer.new) result }
    ensures write { result ≡ Err (TextFault.Text TraceFault.WriteFailed) → W.failed writer.new ≡ true }
    ensures kept { (result ≡ Err (TextFault.Text TraceFault.WriteFailed)) ⊎ (W.failed writer.new ≡ W.failed writer.old) }
    ensures out { OnOk result (W.is_flushed writer.new ≡ true) }
{
    let Ok(for_run) = alloc.clone() else {
        return Err(TextFault::Text(TraceFault::NoMemory));
    };
    let Ok(for_notes) = alloc.clone() else {
        return Err(TextFault::Text(TraceFault::NoMemory));
    };
    let ran = match runner.run(rt, for_run, script) {
        Ok(ran) => ran,
        Err(fault) => return Err(fault_of_run(fault)),
    };
    let Ok(notes) = ran.notes(for_notes) else {
        return Err(TextFault::Text(TraceFault::NoMemory));
    };
    let Ok(calls) = history_of(alloc, notes.as_slice()) else {
        return Err(TextFault::Text(TraceFault::NoMemory));
    };
    let sums = sums_of(notes.as_slice());
    match write_history(writer, script.declaration(), calls.as_slice()) {
        Ok(()) => Ok(sums),
        Err(_) => Err(TextFault::Text(TraceFault::WriteFailed)),
    }
}

/// Reads a script, runs it, and writes its history: what it declares, and of each call that was answered the line
/// `BEGIN END cC! REQ = REPLY` with the tickets of its beginning and its answer, one core after another. Answers the numbers of
/// what the seats noted. Faults come in this order: of the text, of the making of the space, of a core's task, and of writing;
/// nothing is written before the last. Memory may be wanting at any time.
pub fn history_of_text<
    A: Allocator + Clone + Drop,
    T: Threads + Wait + Sync,
    R: Runner<A>,
    S: Source,
    W: Sink,
>(rt: &T, runner: &R, alloc: A, reader: &mut S, writer: &mut W) -> Result<Sums, TextFault>
    ensures ends { Reads (S.stream reader.old) (S.stream reader.new) (λ input unread. EndsText
        IsSummedHistory input unread (W.contents writer.old) (W.contents writer.new) result) }
    ensures told { TellsText result (read_from S.Source reader.old reader.new) (written_to W.Sink writer.old writer.new) }
{
    let Ok(for_script) = alloc.clone() else {
        return Err(TextFault::Text(TraceFault::NoMemory));
    };
    let script = match read_script(for_script, reader) {
        Ok(script) => script,
        Err(fault) => return Err(TextFault::Text(fault)),
    };
    write_run(rt, runner, alloc, &script, writer)
}
