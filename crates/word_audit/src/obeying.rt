//! What the command `audit` does with calls that it judges by the rule that kernels keep.
ghost use Rattle.std.specs.Prelude.{◌≤◌};
ghost use Rattle.word_audit.specs.Words.{JudgesByKernel};
ghost use Rattle.trace_io.specs.Io.{read_from, written_to};

use crate::auditing::{ended_by, refuse_history};
use loosely::judge_by_kernel;
use orders_text::HistoryFault;
use radix_range::RadixMap;
use std::alloc::Global;
use trace_io::IoFault;
use trace_io::sink::Sink;
use trace_io::source::Source;
use word_parts::ended::Ended;

/// Judges a history of calls that overlap by the rule that kernels keep, and answers how that ended: with 0 where they
/// have an order by it, 1 where they have none, 4 where none was found, or the status of an error. With `moving`, threads may move between cores.
pub fn audit_by_kernel<S: Source, W: Sink>(
    alloc: Global,
    reader: &mut S,
    out: &mut W,
    any_place: bool,
    moving: bool,
) -> Ended
    ensures ends { JudgesByKernel Global any_place moving
        (read_from S.Source reader.old reader.new) (written_to W.Sink out.old out.new) result.status }
    ensures within { result.status ≤ 4 }
{
    let Ok(map) = RadixMap::new(alloc) else {
        return refuse_history(HistoryFault::Io(IoFault::NoMemory));
    };
    match judge_by_kernel(alloc, map, reader, out, any_place, moving) {
        Ok(ruled) => ended_by(ruled.ruling),
        Err(fault) => refuse_history(fault),
    }
}
