//! A text is read whole, its calls, which may overlap, are judged, and the ruling is written.
ghost use Rattle.std.specs.Prelude.{◌≡◌, ◌⊎◌, ◌++◌, Err, IfErr, IfOk, OnOk, true};
ghost use Rattle.trace_io.specs.Io.{read_from, written_to};
ghost use Rattle.trace_io.specs.Lines.{lines_of};
ghost use Rattle.trace_io.specs.Source.{Reads};
ghost use Rattle.slot_lock.specs.Slots.{IsNew};
ghost use Rattle.orders_text.specs.Faults.{IsAtFault};
ghost use Rattle.overlapping.specs.Ends.{TellsJudgement, ruling_text};
ghost use Rattle.overlapping.specs.Explained.{IsExplained};
ghost use Rattle.overlapping.specs.Rulings.{IsRuling};
ghost use Rattle.loosely.specs.Besides.{CallsEnd, IsBesides, besides_text, is_no_order};

use crate::besides::{Besides, besides_of};
use orders_text::HistoryFault;
use overlapping::judging::judge_text;
use overlapping::telling::told_text;
use overlapping::{By, Ruled, Ruling};
use slot_lock::SlotMap;
use std::alloc::Allocator;
use trace_io::IoFault;
use trace_io::sink::{Sink, write_out};
use trace_io::source::{Source, read_all};
use vm_base::NoMemory;

/// A ruling by one moment for each call, and what is said besides.
#[derive(Drop)]
pub struct Judged<A: Allocator> {
    pub ruled: Ruled<A>,
    pub besides: Besides,
}

/// How calls are judged.
#[derive(Clone, Copy)]
pub struct Manner {
    /// A mapping without `MAP_FIXED` may have any place.
    pub any_place: bool,
    /// Whether the text of the order is wanted.
    pub is_wanted: bool,
    /// Whether nothing but one moment for each call is asked for.
    pub is_alone: bool,
}

/// Maps that have nothing mapped: one for the order at one moment, and two for those by the rule that kernels keep.
#[derive(Drop)]
pub struct Maps<M> {
    pub plain: M,
    pub kernel: M,
    pub moving: M,
}

// Tells whether it is ruled that the calls have no order.
fn is_no_order(ruling: Ruling) -> bool
    ensures { result ≡ is_no_order ruling }
{
    match ruling {
        Ruling::NoOrder { .. } => true,
        Ruling::Legal(_) | Ruling::Undecided(_) => false,
    }
}

// Judges a text by one moment for each call; and where there is no such order, by the rule that kernels keep.
#[tactic(auto, using(crate::proofs::BesidesLemmas::besides_so, crate::proofs::BesidesLemmas::nothing_besides))]
fn judge<M: SlotMap + Drop, A: Allocator + Clone + Drop>(
    alloc: &A,
    maps: Maps<M>,
    text: &[u8],
    manner: Manner,
    by: By<'_>,
) -> Result<Judged<A>, HistoryFault>
    requires plain { IsNew (M.slots maps.plain) }
    requires kernel { IsNew (M.slots maps.kernel) }
    requires moving { IsNew (M.slots maps.moving) }
    ensures ok { IfOk result (λ judged. IsRuling manner.any_place (lines_of text.now) judged.ruled.ruling) }
    ensures explained { IfOk result (λ judged. IsExplained manner.any_place
        (lines_of text.now) judged.ruled.ruling judged.ruled.explanation.items) }
    ensures also { IfOk result (λ judged. IsBesides manner.is_alone manner.any_place
        (lines_of text.now) judged.ruled.ruling judged.besides) }
    ensures err { IfErr result (λ f. IsAtFault (lines_of text.now) f) }
{
    let any_place = manner.any_place;
    let ruled = match judge_text(alloc, maps.plain, text, any_place, by, manner.is_wanted) {
        Ok(ruled) => ruled,
        Err(fault) => return Err(fault),
    };
    if manner.is_alone {
        let besides = Besides::Nothing;
        return Ok(Judged { ruled, besides });
    }
    if !is_no_order(ruled.ruling) {
        let besides = Besides::Nothing;
        return Ok(Judged { ruled, besides });
    }
    match besides_of(alloc, maps.kernel, maps.moving, text, any_place) {
        Ok(besides) => Ok(Judged { ruled, besides }),
        Err(fault) => Err(fault),
    }
}

// The lines of a judgement.
#[tactic(auto, using(crate::proofs::BesidesLemmas::told_so))]
fn judged_text<A: Allocator + Clone + Drop>(
    alloc: &A,
    judged: &Judged<A>,
) -> Result<Vec<u8, A>, NoMemory>
    ensures { IfOk result (λ told. told.items
        ≡ (ruling_text judged.now.ruled.ruling ++ judged.now.ruled.explanation.items) ++ besides_text judged.now.besides) }
{
    let ruled = &judged.ruled;
    let mut told = told_text(alloc, ruled.ruling, ruled.explanation.as_slice())?;
    told.extend_from_slice(judged.besides.text().as_bytes())?;
    Ok(told)
}

// Judges a text, and writes the ruling, what explains it, and what is said besides.
#[tactic(auto, using(crate::proofs::BesidesLemmas::judges_all, crate::proofs::BesidesLemmas::breaks_off, crate::proofs::BesidesLemmas::fails_so, trace_io::proofs::IoLemmas::keeps_same))]
fn judge_out<M: SlotMap + Drop, A: Allocator + Clone + Drop, W: Sink>(
    alloc: A,
    maps: Maps<M>,
    text: &[u8],
    writer: &mut W,
    manner: Manner,
    by: By<'_>,
) -> Result<Judged<A>, HistoryFault>
    requires plain { IsNew (M.slots maps.plain) }
    requires kernel { IsNew (M.slots maps.kernel) }
    requires moving { IsNew (M.slots maps.moving) }
    ensures ends { CallsEnd manner.is_alone manner.any_place text.now (W.contents writer.old) (W.contents writer.new) result }
    ensures out { OnOk result (W.is_flushed writer.new ≡ true) }
    ensures read { result ≡ Err (HistoryFault.Io IoFault.ReadFailed) → ⊥ }
    ensures write { result ≡ Err (HistoryFault.Io IoFault.WriteFailed) → W.failed writer.new ≡ true }
    ensures kept { (result ≡ Err (HistoryFault.Io IoFault.WriteFailed)) ⊎ (W.failed writer.new ≡ W.failed writer.old) }
{
    let judged = match judge(&alloc, maps, text, manner, by) {
        Ok(judged) => judged,
        Err(fault) => return Err(fault),
    };
    let told = match judged_text(&alloc, &judged) {
        Ok(told) => told,
        Err(_) => return Err(HistoryFault::Io(IoFault::NoMemory)),
    };
    match write_out(writer, told.as_slice()) {
        Ok(()) => Ok(judged),
        Err(_) => Err(HistoryFault::Io(IoFault::WriteFailed)),
    }
}

/// Reads a text to its end, and writes whether its calls, which may overlap, have an order that begins with nothing
/// mapped, and in which each takes effect at one moment: `legal CALLS`, `no order LINE: replied TEXT` where it was shown
/// that there is none, or `undecided LINE` where none was found. The order is searched, or given; `legal` is told only
/// where it was checked. Behind `no order` stand the lines of some calls that show it, if such were found; and last
/// `legal by --kernel`, if an order by the rule that kernels keep was found and checked, unless one moment alone is
/// asked for. The order's text is answered, if it is wanted. The maps have nothing mapped.
pub fn judge_calls<M: SlotMap + Drop, A: Allocator + Clone + Drop, S: Source, W: Sink>(
    alloc: A,
    maps: Maps<M>,
    reader: &mut S,
    writer: &mut W,
    manner: Manner,
    by: By<'_>,
) -> Result<Judged<A>, HistoryFault>
    requires plain { IsNew (M.slots maps.plain) }
    requires kernel { IsNew (M.slots maps.kernel) }
    requires moving { IsNew (M.slots maps.moving) }
    ensures ends { Reads (S.stream reader.old) (S.stream reader.new) (λ input unread. CallsEnd
        manner.is_alone manner.any_place input (W.contents writer.old) (W.contents writer.new) result) }
    ensures told { TellsJudgement result (read_from S.Source reader.old reader.new)
        (written_to W.Sink writer.old writer.new) }
{
    let Ok(for_text) = alloc.clone() else {
        return Err(HistoryFault::Io(IoFault::NoMemory));
    };
    match read_all(for_text, reader) {
        Ok(text) => judge_out(alloc, maps, text.as_slice(), writer, manner, by),
        Err(fault) => Err(HistoryFault::Io(fault)),
    }
}
