//! What the command `run` does.
ghost use Rattle.std.specs.Prelude.{◌≡◌, ◌≤◌};
ghost use Rattle.word_runs.specs.Words.{EchoesTrace, ReplaysTrace};
ghost use Rattle.trace_words.specs.Status.{status_of};
ghost use Rattle.trace_io.specs.Io.{read_from, written_to};

use crate::summing::tell_summary;
use machine_model::CallLimit;
use std::alloc::Allocator;
use std::io::Write;
use trace::echo::replay_echoing;
use trace::replay::{Replayed, replay_summing, replay_telling};
use trace_io::sink::Sink;
use trace_io::source::Source;
use trace_words::fault::status_of_fault;
use watched::Summary;
use word_parts::asked::Shows;
use word_parts::ended::{Ended, Trouble};

// How the replay ended.
fn ended_as<A: Allocator>(replayed: &Replayed<A>) -> Ended
    ensures value { result.status ≡ status_of replayed.now.ended }
    ensures within { result.status ≤ 3 }
{
    match replayed.ended {
        Ok(()) => Ended {
            status: 0,
            trouble: Trouble::Nothing,
        },
        Err(fault) => Ended {
            status: status_of_fault(fault),
            trouble: Trouble::Fault(fault),
        },
    }
}

// As `run`, step by step, and prints the numbers of the run after it.
fn run_summing<A: Allocator + Clone + Drop, S: Source, W: Sink, E: Write>(
    alloc: A,
    reader: &mut S,
    out: &mut W,
    errors: &mut E,
    shows: Shows,
) -> Ended
    ensures ends { ReplaysTrace shows
        (read_from S.Source reader.old reader.new) (written_to W.Sink out.old out.new) result.status }
    ensures within { result.status ≤ 3 }
{
    let mut summary = Summary::new();
    let replayed = replay_summing(alloc, reader, out, shows.show, shows.limit, &mut summary);
    let ended = ended_as(&replayed);
    if ended.status == 0 {
        tell_summary(&summary, errors);
    }
    ended
}

/// Replays the trace, showing what is asked for, and answers how it ended: with 0, or the status of an error. Where that is asked for, the
/// numbers of a run without error come after it.
pub fn run<A: Allocator + Clone + Drop, S: Source, W: Sink, E: Write>(
    alloc: A,
    reader: &mut S,
    out: &mut W,
    errors: &mut E,
    shows: Shows,
) -> Ended
    ensures ends { ReplaysTrace shows
        (read_from S.Source reader.old reader.new) (written_to W.Sink out.old out.new) result.status }
    ensures within { result.status ≤ 3 }
{
    if shows.sums {
        return run_summing(alloc, reader, out, errors, shows);
    }
    let replayed = replay_telling(alloc, reader, out, shows.show, shows.limit);
    ended_as(&replayed)
}

/// As `run`, of outcomes, and shows each line of an event beside its outcome, with the `vm` and
/// `file` lines, and, where logs are asked for, below each line what it adds to the log.
pub fn run_echoing<A: Allocator + Clone + Drop, S: Source, W: Sink>(
    alloc: A,
    reader: &mut S,
    out: &mut W,
    limit: CallLimit,
    coloured: bool,
    logs: bool,
) -> Ended
    ensures ends { EchoesTrace coloured logs limit
        (read_from S.Source reader.old reader.new) (written_to W.Sink out.old out.new) result.status }
    ensures within { result.status ≤ 3 }
{
    let replayed = replay_echoing(alloc, reader, out, limit, coloured, logs, &[]);
    ended_as(&replayed)
}
