//! A text is read whole, its replies are judged, and the verdict is written.
ghost use Rattle.std.specs.Prelude.{◌≡◌, ◌⊎◌, Err, OnOk, true};
ghost use Rattle.trace_io.specs.Io.{read_from, written_to};
ghost use Rattle.trace_io.specs.Source.{Reads};
ghost use Rattle.slot_lock.specs.Slots.{IsNew};
ghost use Rattle.audit_text.specs.Ends.{TellsAudit};
ghost use Rattle.overlapping.specs.Replies.{AuditEnds};

use crate::replies::{Judgement, judge_replies};
use audit_text::telling::verdict_text;
use audit_text::{AuditFault, Terms};
use slot_lock::SlotMap;
use std::alloc::Allocator;
use trace_io::IoFault;
use trace_io::sink::{Sink, write_out};
use trace_io::source::{Source, read_all};

// Judges a text, and writes the verdict.
#[tactic(auto, using(crate::proofs::AuditLemmas::judges_all, crate::proofs::AuditLemmas::breaks_off, crate::proofs::AuditLemmas::fails_so, trace_io::proofs::IoLemmas::keeps_same))]
fn judge_out<M: SlotMap + Drop, A: Allocator + Clone + Drop, W: Sink>(
    alloc: A,
    map: M,
    other: M,
    text: &[u8],
    writer: &mut W,
    terms: Terms,
) -> Result<Judgement, AuditFault>
    requires new { IsNew (M.slots map) }
    requires other { IsNew (M.slots other) }
    ensures ends { AuditEnds terms text.now (W.contents writer.old) (W.contents writer.new) result }
    ensures out { OnOk result (W.is_flushed writer.new ≡ true) }
    ensures read { result ≡ Err (AuditFault.Io IoFault.ReadFailed) → ⊥ }
    ensures write { result ≡ Err (AuditFault.Io IoFault.WriteFailed) → W.failed writer.new ≡ true }
    ensures kept { (result ≡ Err (AuditFault.Io IoFault.WriteFailed)) ⊎ (W.failed writer.new ≡ W.failed writer.old) }
{
    let Ok(for_judging) = alloc.clone() else {
        return Err(AuditFault::Io(IoFault::NoMemory));
    };
    let judged = match judge_replies(for_judging, map, other, text, terms) {
        Ok(judged) => judged,
        Err(fault) => return Err(fault),
    };
    let verdict = judged.judgement.verdict();
    let Ok(told) = verdict_text(alloc, &verdict, judged.around.as_slice()) else {
        return Err(AuditFault::Io(IoFault::NoMemory));
    };
    match write_out(writer, told.as_slice()) {
        Ok(()) => Ok(judged.judgement),
        Err(_) => Err(AuditFault::Io(IoFault::WriteFailed)),
    }
}

/// Reads a text to its end, and writes whether its replies may be by these terms, beside the plain page map that begins with nothing
/// mapped: `legal CALLS`, where they may in the order of their lines, or, after calls that overlapped, in another one, which was checked;
/// or the first that may not in the order of their lines, what would be due, and the mappings around it. A copy that may not be is told
/// as such a one. Where another order or another map may explain the replies, and none was found, it is undecided. Neither map has
/// anything mapped.
pub fn audit_text<M: SlotMap + Drop, A: Allocator + Clone + Drop, S: Source, W: Sink>(
    alloc: A,
    map: M,
    other: M,
    reader: &mut S,
    writer: &mut W,
    terms: Terms,
) -> Result<Judgement, AuditFault>
    requires new { IsNew (M.slots map) }
    requires other { IsNew (M.slots other) }
    ensures ends { Reads (S.stream reader.old) (S.stream reader.new) (λ input unread.
        AuditEnds terms input (W.contents writer.old) (W.contents writer.new) result) }
    ensures told { TellsAudit result (read_from S.Source reader.old reader.new)
        (written_to W.Sink writer.old writer.new) }
{
    let Ok(for_text) = alloc.clone() else {
        return Err(AuditFault::Io(IoFault::NoMemory));
    };
    match read_all(for_text, reader) {
        Ok(text) => judge_out(alloc, map, other, text.as_slice(), writer, terms),
        Err(fault) => Err(AuditFault::Io(fault)),
    }
}
