//! A script's text that is run on threads over one machine, and what is written of it.
ghost use Rattle.std.specs.Prelude.{◌≡◌, ◌⊎◌, [], Err, IfErr, IfOk, IfSome, None, OnOk, map, true};
ghost use Rattle.core_steps.specs.Machine.{state};
ghost use Rattle.trace_io.specs.Io.{read_from, written_to};
ghost use Rattle.trace_io.specs.Source.{Reads};
ghost use Rattle.trace_words.specs.Declarations.{asked_fault, made_by};
ghost use Rattle.shared_script.specs.Runs.{Fails, IsRun};
ghost use Rattle.shared_script.specs.Texts.{EndsShared, TellsShared, Yields};

use crate::fault::SharedFault;
use crate::logged::Tree;
use crate::running::{RunMachine, run_shared};
use crate::writing::write_ran;
use core_steps::Machine;
use machine_model::SetupFault;
use radix_range::RadixMap;
use std::alloc::Global;
use std::sync::Wait;
use std::thread::Threads;
use trace_io::sink::Sink;
use trace_io::source::Source;
use trace_words::fault::TraceFault;
use trace_words::{Script, read_script};

// The machine that the script declares, which has no fault.
fn machine_of(alloc: Global, script: &Script<Global>) -> Option<Tree>
    requires { asked_fault script.now.asked ≡ None }
    ensures { IfSome result (λ tree. ((state tree.machine).made ≡ made_by script.now.asked) × ((state tree.machine).calls.log ≡ [])) }
{
    let map = RadixMap::new(alloc).ok()?;
    let setup = script.declaration().setup(alloc).ok()?;
    let machine = Machine::new(alloc, map, setup).ok()?;
    Some(Tree { machine })
}

/// Makes the machine, and runs the script on it, as `run_shared`.
pub fn run_script<T: Threads + Wait + Sync>(
    rt: &T,
    alloc: Global,
    script: &Script<Global>,
) -> Result<RunMachine<Tree>, SharedFault>
    requires { asked_fault script.now.asked ≡ None }
    ensures ran { IfOk result (λ ran. IsRun script.now (map (λ told. told.items) ran.told.items) (state ran.machine.machine)) }
    ensures fails { IfErr result (Fails script.now) }
{
    let Some(machine) = machine_of(alloc, script) else {
        return Err(SharedFault::Text(TraceFault::Setup(SetupFault::NoMemory)));
    };
    run_shared(rt, alloc, script, machine)
}

// Runs the script, and writes what came of it.
fn share_read<T: Threads + Wait + Sync, W: Sink>(
    rt: &T,
    alloc: Global,
    script: &Script<Global>,
    writer: &mut W,
) -> Result<(), SharedFault>
    requires { asked_fault script.now.asked ≡ None }
    ensures ends { Yields script.now (W.contents writer.old) (W.contents writer.new) result }
    ensures write { result ≡ Err (SharedFault.Text TraceFault.WriteFailed) → W.failed writer.new ≡ true }
    ensures kept { (result ≡ Err (SharedFault.Text TraceFault.WriteFailed)) ⊎ (W.failed writer.new ≡ W.failed writer.old) }
    ensures out { OnOk result (W.is_flushed writer.new ≡ true) }
{
    let ran = match run_script(rt, alloc, script) {
        Ok(ran) => ran,
        Err(fault) => return Err(fault),
    };
    match write_ran(writer, script.declaration(), &ran) {
        Ok(()) => Ok(()),
        Err(_) => Err(SharedFault::Text(TraceFault::WriteFailed)),
    }
}

/// Reads a script, runs it on threads over one machine, and writes what each core was told, and the log: each core's lines are the
/// calls of its tasks, in order, with the replies that its thread got, and these are the log's, which is one of a plain page map,
/// whatever the order in which the threads took turns. Faults come in this order: of the text, of the making of the machine, of a
/// core that found the machine at a limit, and of writing; nothing is written before the last. Memory may be refused at any time.
pub fn share_text<T: Threads + Wait + Sync, S: Source, W: Sink>(
    rt: &T,
    alloc: Global,
    reader: &mut S,
    writer: &mut W,
) -> Result<(), SharedFault>
    ensures ends { Reads (S.stream reader.old) (S.stream reader.new) (λ input unread. EndsShared input unread
        (W.contents writer.old) (W.contents writer.new) result) }
    ensures told { TellsShared result (read_from S.Source reader.old reader.new) (written_to W.Sink writer.old writer.new) }
{
    let script = match read_script(alloc, reader) {
        Ok(script) => script,
        Err(fault) => return Err(SharedFault::Text(fault)),
    };
    share_read(rt, alloc, &script, writer)
}
