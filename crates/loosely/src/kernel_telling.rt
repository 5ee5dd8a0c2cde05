//! A text is read whole, its calls are judged by the rule that kernels keep, and the ruling is written.
ghost use Rattle.std.specs.Prelude.{◌≡◌, ◌⊎◌, Err, OnOk, true};
ghost use Rattle.trace_io.specs.Io.{read_from, written_to};
ghost use Rattle.trace_io.specs.Source.{Reads};
ghost use Rattle.slot_lock.specs.Slots.{IsNew};
ghost use Rattle.overlapping.specs.Ends.{TellsJudgement};
ghost use Rattle.loosely.specs.Kernel.{EndsByKernel};

use crate::kernel::judge_by_rule;
use orders_text::HistoryFault;
use overlapping::Ruled;
use overlapping::telling::told_text;
use slot_lock::SlotMap;
use std::alloc::Allocator;
use trace_io::IoFault;
use trace_io::sink::{Sink, write_out};
use trace_io::source::{Source, read_all};

// Judges a text by the rule that kernels keep, and writes the ruling.
#[tactic(auto, using(crate::proofs::EndLemmas::judges_all, crate::proofs::EndLemmas::breaks_off, crate::proofs::EndLemmas::fails_so, trace_io::proofs::IoLemmas::keeps_same))]
fn judge_out<M: SlotMap + Drop, A: Allocator + Clone + Drop, W: Sink>(
    alloc: A,
    map: M,
    text: &[u8],
    writer: &mut W,
    any_place: bool,
    moving: bool,
) -> Result<Ruled<A>, HistoryFault>
    requires new { IsNew (M.slots map) }
    ensures ends { EndsByKernel any_place moving text.now (W.contents writer.old) (W.contents writer.new) result }
    ensures out { OnOk result (W.is_flushed writer.new ≡ true) }
    ensures read { result ≡ Err (HistoryFault.Io IoFault.ReadFailed) → ⊥ }
    ensures write { result ≡ Err (HistoryFault.Io IoFault.WriteFailed) → W.failed writer.new ≡ true }
    ensures kept { (result ≡ Err (HistoryFault.Io IoFault.WriteFailed)) ⊎ (W.failed writer.new ≡ W.failed writer.old) }
{
    let ruled = match judge_by_rule(&alloc, map, text, any_place, moving) {
        Ok(ruled) => ruled,
        Err(fault) => return Err(fault),
    };
    let told = match told_text(&alloc, ruled.ruling, ruled.explanation.as_slice()) {
        Ok(told) => told,
        Err(_) => return Err(HistoryFault::Io(IoFault::NoMemory)),
    };
    match write_out(writer, told.as_slice()) {
        Ok(()) => Ok(ruled),
        Err(_) => Err(HistoryFault::Io(IoFault::WriteFailed)),
    }
}

/// Reads a text to its end, and writes whether its calls, which may overlap, have an order by the rule that kernels
/// keep, which begins with nothing mapped: `legal CALLS`, which is told only where the order was checked; or `no order
/// LINE: replied REPLY`, and the lines that explain it, only where that was shown; or else `undecided LINE`. With
/// `moving`, threads may move between cores. The map has nothing mapped.
pub fn judge_by_kernel<M: SlotMap + Drop, A: Allocator + Clone + Drop, S: Source, W: Sink>(
    alloc: A,
    map: M,
    reader: &mut S,
    writer: &mut W,
    any_place: bool,
    moving: bool,
) -> Result<Ruled<A>, HistoryFault>
    requires new { IsNew (M.slots map) }
    ensures ends { Reads (S.stream reader.old) (S.stream reader.new) (λ input unread.
        EndsByKernel any_place moving input (W.contents writer.old) (W.contents writer.new) result) }
    ensures told { TellsJudgement result (read_from S.Source reader.old reader.new)
        (written_to W.Sink writer.old writer.new) }
{
    let Ok(for_text) = alloc.clone() else {
        return Err(HistoryFault::Io(IoFault::NoMemory));
    };
    match read_all(for_text, reader) {
        Ok(text) => judge_out(alloc, map, text.as_slice(), writer, any_place, moving),
        Err(fault) => Err(HistoryFault::Io(fault)),
    }
}
