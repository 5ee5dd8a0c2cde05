//! A replay whose machine is kept, so that it can be asked what it has at the end.
ghost use Rattle.std.specs.Prelude.{◌≡◌, Err, IfOk, option_map};
ghost use Rattle.core_steps.specs.Machine.{state};
ghost use Rattle.machine_model.specs.declared.setup.CallLimit.TheVariants.{Usual};
ghost use Rattle.trace_io.specs.Io.{TellsIo, read_from, written_to};
ghost use Rattle.trace_io.specs.Source.{Reads};
ghost use Rattle.trace.specs.Ends.{Ends};
ghost use Rattle.trace_words.specs.Faults.{fault_named};
ghost use Rattle.trace.specs.Seen.{IsSeenWith};
ghost use Rattle.trace_words.specs.declared.show.Show.TheVariants.{Maps};

use crate::replay::replay_lines;
use crate::replayer::Replayer;
use core_steps::Machine;
use machine_log::KeepsNone;
use mmu::{Cpu, Hardware};
use radix_range::RadixMap;
use slot_lock::SlotMap;
use std::alloc::Allocator;
use trace_io::lines::line_reader;
use trace_io::sink::Sink;
use trace_io::source::Source;
use trace_text::LineText;
use trace_words::fault::TraceFault;
use trace_words::show::Show;
use watched::Watch;

/// A replay at its end.
#[derive(Drop)]
pub struct Stood<A: Allocator + Clone, X>
where
    RadixMap<A>: SlotMap,
    Cpu<A>: Hardware,
{
    /// How it ended.
    pub ended: Result<(), TraceFault>,
    /// Who watched its steps.
    pub watch: X,
    /// Its machine, if a line has made one.
    pub machine: Option<Machine<RadixMap<A>, A, KeepsNone>>,
}

/// As `replay_watched` of a trace whose mappings are listed, and hands out the machine, too. What was written isn't flushed.
pub fn replay_standing<A: Allocator + Clone + Drop, S: Source, W: Sink, X: Watch + Drop>(
    alloc: A,
    reader: &mut S,
    writer: &mut W,
    watch: X,
) -> Stood<A, X>
    ensures ends { Reads (S.stream reader.old) (S.stream reader.new) (λ input unread.
        Ends Usual Maps input unread (W.contents writer.old) (W.contents writer.new) result.ended) }
    ensures seen { IfOk result.ended (λ u. Reads (S.stream reader.old) (S.stream reader.new) (λ input unread.
        IsSeenWith X.after watch result.watch (option_map state result.machine) Maps input (W.contents writer.old)
        (W.contents writer.new))) }
    ensures told { TellsIo fault_named result.ended (read_from S.Source reader.old reader.new)
        (written_to W.Sink writer.old writer.new) }
{
    let Some(mut lines) = line_reader(&alloc) else {
        return Stood {
            ended: Err(TraceFault::NoMemory),
            watch,
            machine: None,
        };
    };
    let mut replayer = Replayer::<A, KeepsNone, X>::new(alloc, watch);
    let mut text = LineText::new();
    let ended = replay_lines(
        &mut lines,
        reader,
        writer,
        &mut replayer,
        &Show::Maps,
        &mut text,
    );
    let (watch, machine) = replayer.into_parts();
    Stood {
        ended,
        watch,
        machine,
    }
}
