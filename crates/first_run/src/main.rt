//! A trace replayed, for first runs on a clone that isn't built.
//!
//! It does what the words `run` and `maps` do without a flag: `run`. Few crates are below it, so that it is compiled
//! soon.
#![tactic(auto)]

ghost use Rattle.std.specs.Prelude.{◌≡◌, ◌≤◌, Result, Some, codes, option_map};
ghost use Rattle.machine_model.specs.declared.setup.CallLimit.TheVariants.{Usual};
ghost use Rattle.trace.specs.Ends.{Ends};
ghost use Rattle.trace_words.specs.Faults.{TellsFaults};
ghost use Rattle.trace_words.specs.Status.{fault_status, status_of};
ghost use Rattle.trace_words.specs.declared.fault.TraceFault.{TraceFault};
ghost use Rattle.trace_io.specs.Io.{read_from, written_to};
ghost use Rattle.trace_io.specs.Source.{Reads};

use machine_model::CallLimit;
use std::alloc::Allocator;
use std::env;
use std::io::{BufWriter, Write};
use std::process::ExitCode;
use trace::replay::replay_telling;
use trace_io::sink::{Sink, TrackedSink};
use trace_io::source::{Counted, Source};
use trace_words::fault::{TraceFault, status_of_fault};
use trace_words::show::Show;

// What the word after the program's name shows: the mappings at the end where it is `maps`, else the outcomes.
fn shown_by(word: Option<&str>) -> Show
    ensures maps { option_map (λ w. w.now) word.entry ≡ Some (codes "maps") → result ≡ Show.Maps }
    ensures others { (option_map (λ w. w.now) word.entry ≡ Some (codes "maps") → ⊥) → result ≡ Show.Outcomes }
{
    match word {
        Some("maps") => Show::Maps,
        _ => Show::Outcomes,
    }
}

// Replays the trace, prints a fault as `radixvm: ` and its text, and answers the status: 0, or that of the fault.
fn run<A: Allocator + Clone + Drop, S: Source, W: Sink, E: Write>(
    alloc: A,
    reader: &mut S,
    out: &mut W,
    errors: &mut E,
    show: Show,
) -> u8
    ensures ends { (r : Result Unit TraceFault) × (result ≡ status_of r)
        × Reads (S.stream reader.old) (S.stream reader.new)
        (λ input unread. Ends Usual show input unread (W.contents out.old) (W.contents out.new) r)
        × TellsFaults r (read_from S.Source reader.old reader.new) (written_to W.Sink out.old out.new) }
    ensures within { result ≤ 3 }
{
    replay_telling(alloc, reader, out, show, CallLimit::Usual).tell(errors)
}

// Prints a fault that came before the trace was read, and answers its status.
fn refuse<E: Write>(fault: TraceFault, errors: &mut E) -> u8
    ensures { result ≡ fault_status fault }
{
    let _ = writeln!(errors, "radixvm: {fault}");
    status_of_fault(fault)
}

fn main(rt: HostRuntime) -> ExitCode {
    let alloc = rt.alloc();
    let mut errors = rt.stderr();
    let Ok(mut words) = env::args(&rt) else {
        return ExitCode::from(refuse(TraceFault::NoMemory, &mut errors));
    };
    let Ok(buffer) = BufWriter::new(alloc, rt.stdout()) else {
        return ExitCode::from(refuse(TraceFault::NoMemory, &mut errors));
    };
    let show = match words.nth(1) {
        Some(word) => shown_by(Some(word.as_str())),
        None => Show::Outcomes,
    };
    let mut reader = Counted::new(rt.stdin());
    let mut out = TrackedSink::new(buffer);
    ExitCode::from(run(alloc, &mut reader, &mut out, &mut errors, show))
}
