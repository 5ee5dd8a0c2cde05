//! What the command `live` does: a script is run on threads.
ghost use Rattle.std.specs.Prelude.{◌≡◌, ◌≤◌};
ghost use Rattle.word_runs.specs.Status.{script_status, shared_status};
ghost use Rattle.word_runs.specs.Words.{CertifiesRun, RunsScript, SharesScript, WritesHistory};
ghost use Rattle.trace_io.specs.Io.{read_from, written_to};

use crate::summing::tell_sums;
use live_script::texts::{TextFault, certify_run, run_text};
use live_script::{Runner, history_of_text};
use radix_range::RadixMap;
use shared_script::{SharedFault, share_text};
use slot_lock::SlotMap;
use std::alloc::{Allocator, Global};
use std::io::Write;
use std::sync::Wait;
use std::thread::Threads;
use trace_io::sink::Sink;
use trace_io::source::Source;
use trace_words::fault::status_of_fault;
use word_parts::ended::{Ended, Trouble};

// How a run ends with this fault: with 3 where a task of a core couldn't begin, which is printed here, else with the status of its text's
// error.
fn tell_fault<E: Write>(fault: TextFault, errors: &mut E) -> Ended
    ensures value { result.status ≡ script_status fault }
    ensures within { result.status ≤ 3 }
{
    match fault {
        TextFault::Text(fault) => Ended {
            status: status_of_fault(fault),
            trouble: Trouble::Fault(fault),
        },
        TextFault::Live(_) => {
            let _ = writeln!(errors, "radixvm: {fault}");
            Ended {
                status: 3,
                trouble: Trouble::Nothing,
            }
        }
    }
}

/// Runs the script, and writes the notes of all its cores. Answers how that ended: with 0, or the status of an error. Where that is asked
/// for, the numbers of the notes come after a run without error.
pub fn live<
    A: Allocator + Clone + Drop,
    T: Threads + Wait + Sync,
    R: Runner<A>,
    S: Source,
    W: Sink,
    E: Write,
>(rt: &T, runner: &R, alloc: A, reader: &mut S, out: &mut W, errors: &mut E, told: bool) -> Ended
    ensures ends { RunsScript (read_from S.Source reader.old reader.new) (written_to W.Sink out.old out.new) result.status }
    ensures within { result.status ≤ 3 }
{
    match run_text(rt, runner, alloc, reader, out) {
        Ok(sums) => {
            if told {
                tell_sums(&sums, errors);
            }
            Ended {
                status: 0,
                trouble: Trouble::Nothing,
            }
        }
        Err(fault) => tell_fault(fault, errors),
    }
}

/// As `live`, but writes in place of the notes the history of the calls: of each that was answered a line with the tickets of its
/// beginning and its answer.
pub fn live_history<
    A: Allocator + Clone + Drop,
    T: Threads + Wait + Sync,
    R: Runner<A>,
    S: Source,
    W: Sink,
    E: Write,
>(rt: &T, runner: &R, alloc: A, reader: &mut S, out: &mut W, errors: &mut E, told: bool) -> Ended
    ensures ends { WritesHistory (read_from S.Source reader.old reader.new) (written_to W.Sink out.old out.new) result.status }
    ensures within { result.status ≤ 3 }
{
    match history_of_text(rt, runner, alloc, reader, out) {
        Ok(sums) => {
            if told {
                tell_sums(&sums, errors);
            }
            Ended {
                status: 0,
                trouble: Trouble::Nothing,
            }
        }
        Err(fault) => tell_fault(fault, errors),
    }
}

/// As `live`, but writes in place of the notes the result of certifying them beside the histories of slots: the status is 1
/// where they are refused.
pub fn certify_live<
    A: Allocator + Clone + Drop,
    T: Threads + Wait + Sync,
    R: Runner<A>,
    S: Source,
    W: Sink,
    E: Write,
>(rt: &T, runner: &R, alloc: A, reader: &mut S, out: &mut W, errors: &mut E, told: bool) -> Ended
    ensures ends { CertifiesRun A
        ⟦<RadixMap<A> as SlotMap>⟧.parts ⟦<RadixMap<A> as SlotMap>⟧.can_fold ⟦<RadixMap<A> as SlotMap>⟧.folds
        (read_from S.Source reader.old reader.new) (written_to W.Sink out.old out.new) result.status }
    ensures within { result.status ≤ 3 }
{
    match certify_run(rt, runner, alloc, reader, out) {
        Ok(judgement) => {
            if told {
                tell_sums(&judgement.sums, errors);
            }
            let certified = judgement.verdict.is_certified();
            Ended {
                status: if certified { 0 } else { 1 },
                trouble: Trouble::Nothing,
            }
        }
        Err(fault) => tell_fault(fault, errors),
    }
}

// The same on one machine: 3 where that is at a limit.
fn tell_shared<E: Write>(fault: SharedFault, errors: &mut E) -> Ended
    ensures value { result.status ≡ shared_status fault }
    ensures within { result.status ≤ 3 }
{
    match fault {
        SharedFault::Text(fault) => Ended {
            status: status_of_fault(fault),
            trouble: Trouble::Fault(fault),
        },
        SharedFault::Full => {
            let _ = writeln!(errors, "radixvm: {fault}");
            Ended {
                status: 3,
                trouble: Trouble::Nothing,
            }
        }
    }
}

/// Runs the script on threads over one machine that all of them share, and writes what each core was told, and the log. Answers how that
/// ended: with 0, or the status of an error.
pub fn share_live<T: Threads + Wait + Sync, S: Source, W: Sink, E: Write>(
    rt: &T,
    alloc: Global,
    reader: &mut S,
    out: &mut W,
    errors: &mut E,
) -> Ended
    ensures ends { SharesScript (read_from S.Source reader.old reader.new) (written_to W.Sink out.old out.new) result.status }
    ensures within { result.status ≤ 3 }
{
    match share_text(rt, alloc, reader, out) {
        Ok(()) => Ended {
            status: 0,
            trouble: Trouble::Nothing,
        },
        Err(fault) => tell_shared(fault, errors),
    }
}
