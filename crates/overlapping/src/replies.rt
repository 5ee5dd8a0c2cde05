//! Judging the replies of a text: in the order of its lines, and where that leaves them undecided, in another one, which is searched
//! and checked.
ghost use Rattle.std.specs.Prelude.{◌≡◌, ◌≤◌, [], IfErr, IfOk, IfSome, length, true};
ghost use Rattle.trace_io.specs.Lines.{lines_of};
ghost use Rattle.slot_lock.specs.Slots.{IsNew};
ghost use Rattle.audit_text.specs.Ends.{IsAtFault, IsVerdict};
ghost use Rattle.orders_text.specs.Steps.{HasPlaces, read_of};
ghost use Rattle.overlapping.specs.Replies.{HasAnother, HasOther, IsJudgement, is_undecided, lacking_among, verdict_of};

use crate::found::{Order, search};
use crate::judging::is_order;
use audit_text::allowing::is_lacking;
use audit_text::{AuditFault, Judged, Terms, Verdict, judge_text};
use orders::Timed;
use orders_text::{History, HistoryFault, read_history};
use slot_lock::{MapLine, SlotMap};
use std::alloc::Allocator;
use trace_io::IoFault;
use vm_base::NoMemory;

/// How many calls were answered, and how many of them found no frame or no memory.
#[derive(Clone, Copy)]
pub struct Counts {
    pub calls: u64,
    pub lacking: u64,
}

/// What is told of the replies of a text.
#[derive(Clone, Copy)]
pub enum Judgement {
    /// What was found in the order of their lines.
    InOrder(Verdict),
    /// In that order they are undecided. In another one, which was checked, they are legal.
    Reordered(Counts),
}

impl Judgement {
    /// The verdict as which it is told.
    pub fn verdict(&self) -> Verdict
        ensures { result ≡ verdict_of self.now }
    {
        match self {
            Judgement::InOrder(verdict) => *verdict,
            Judgement::Reordered(counts) => Verdict::Legal {
                calls: counts.calls,
                lacking: counts.lacking,
                passed: 0,
            },
        }
    }
}

/// A judgement, and the mappings around the page of the reply or the copy that isn't legal.
#[derive(Drop)]
pub struct JudgedReplies<A: Allocator> {
    pub judgement: Judgement,
    pub around: Vec<MapLine, A>,
}

// How many of the calls found no frame or no memory.
fn count_lacking(calls: &[Timed]) -> u64
    ensures { result ≡ lacking_among calls.now }
{
    let mut count = 0u64;
    let mut at = 0;
    'calls: while at < calls.len() {
        if is_lacking(calls[at].call.reply) {
            count += 1;
        }
        at += 1;
    }
    count
}

// The counts of a history's calls, if this is an order of them, and none that the terms rule out found no frame or no memory.
#[tactic(auto, using(crate::proofs::ReplyLemmas::other_there))]
fn counts_by<M: SlotMap + Drop, A: Allocator + Clone + Drop>(
    alloc: &A,
    map: M,
    history: History<A>,
    terms: Terms,
    order: &Order<A>,
) -> Result<Option<Counts>, NoMemory>
    requires new { IsNew (M.slots map) }
    requires few { length history.declaration.files.items ≤ 16 }
    requires places { HasPlaces history }
    ensures { IfOk result (λ found. IfSome found (λ counts. HasOther terms (read_of history) counts)) }
{
    let calls = history.calls.len() as u64;
    let lacking = count_lacking(history.calls.as_slice());
    if terms.is_strict && lacking > 0 {
        return Ok(None);
    }
    match order {
        Order::Of { items, replies, .. } => {
            let any_place = terms.any_place;
            let replies = replies.as_slice();
            if is_order(alloc, map, history, any_place, items.as_slice(), replies)? {
                Ok(Some(Counts { calls, lacking }))
            } else {
                Ok(None)
            }
        }
        Order::None(_) => Ok(None),
    }
}

// Searches another order of a history's calls.
fn reorder_history<M: SlotMap + Drop, A: Allocator + Clone + Drop>(
    alloc: &A,
    map: M,
    history: History<A>,
    terms: Terms,
) -> Result<Option<Counts>, NoMemory>
    requires new { IsNew (M.slots map) }
    requires few { length history.declaration.files.items ≤ 16 }
    requires places { HasPlaces history }
    ensures { IfOk result (λ found. IfSome found (λ counts. HasOther terms (read_of history) counts)) }
{
    let order = search(alloc, &history, terms.any_place)?;
    counts_by(alloc, map, history, terms, &order)
}

// Searches another order of the calls of a text, if it is that of a history.
#[tactic(auto, using(crate::proofs::ReplyLemmas::another_there))]
fn reorder<M: SlotMap + Drop, A: Allocator + Clone + Drop>(
    alloc: &A,
    map: M,
    text: &[u8],
    terms: Terms,
) -> Result<Option<Counts>, NoMemory>
    requires new { IsNew (M.slots map) }
    ensures { IfOk result (λ found. IfSome found (λ counts. HasAnother terms (lines_of text.now) counts)) }
{
    match read_history(alloc, text) {
        Ok(history) => reorder_history(alloc, map, history, terms),
        Err(HistoryFault::Io(_)) => Err(NoMemory),
        Err(_) => Ok(None),
    }
}

// Tells whether replies are undecided in the order of their lines.
fn is_undecided(verdict: &Verdict) -> bool
    ensures { result ≡ is_undecided verdict.now }
{
    matches!(verdict, Verdict::Undecided { .. })
}

// What was found in the order of the lines.
fn in_order<A: Allocator>(judged: Judged<A>) -> JudgedReplies<A>
    ensures judgement { result.judgement ≡ Judgement.InOrder judged.verdict }
    ensures around { result.around.items ≡ judged.around.items }
{
    JudgedReplies {
        judgement: Judgement::InOrder(judged.verdict),
        around: judged.around,
    }
}

// What was found in another one.
fn reordered<A: Allocator>(alloc: A, counts: Counts) -> JudgedReplies<A>
    ensures judgement { result.judgement ≡ Judgement.Reordered counts }
    ensures around { result.around.items ≡ [] }
{
    JudgedReplies {
        judgement: Judgement::Reordered(counts),
        around: Vec::new(alloc),
    }
}

// Judges replies by another order that are undecided in that of their lines.
#[tactic(auto, using(crate::proofs::ReplyLemmas::told_in_order, crate::proofs::ReplyLemmas::told_reordered))]
fn judge_again<M: SlotMap + Drop, A: Allocator + Clone + Drop>(
    alloc: A,
    map: M,
    text: &[u8],
    terms: Terms,
    judged: Judged<A>,
) -> Result<JudgedReplies<A>, AuditFault>
    requires new { IsNew (M.slots map) }
    requires undecided { is_undecided judged.verdict ≡ true }
    requires verdict { IsVerdict terms (lines_of text.now) judged.verdict judged.around.items }
    ensures ok { IfOk result (λ j. IsJudgement terms (lines_of text.now) j.judgement j.around.items) }
    ensures err { IfErr result (λ f. f ≡ AuditFault.Io IoFault.NoMemory) }
{
    match reorder(&alloc, map, text, terms) {
        Ok(Some(counts)) => Ok(reordered(alloc, counts)),
        Ok(None) => Ok(in_order(judged)),
        Err(_) => Err(AuditFault::Io(IoFault::NoMemory)),
    }
}

/// Judges the replies of a text by these terms in the order of its lines, as `audit_text::judge_text` does. Where they are undecided it
/// searches another order of the calls, by the times of `run --echo`'s lines: if one is found, and no call of it found no frame or no
/// memory that the terms rule out, they are legal. Neither map has anything mapped.
#[tactic(auto, using(crate::proofs::ReplyLemmas::told_in_order))]
pub fn judge_replies<M: SlotMap + Drop, A: Allocator + Clone + Drop>(
    alloc: A,
    map: M,
    other: M,
    text: &[u8],
    terms: Terms,
) -> Result<JudgedReplies<A>, AuditFault>
    requires new { IsNew (M.slots map) }
    requires other { IsNew (M.slots other) }
    ensures ok { IfOk result (λ j. IsJudgement terms (lines_of text.now) j.judgement j.around.items) }
    ensures err { IfErr result (λ f. IsAtFault terms (lines_of text.now) f) }
{
    let Ok(for_judging) = alloc.clone() else {
        return Err(AuditFault::Io(IoFault::NoMemory));
    };
    let judged = match judge_text(for_judging, map, text, terms) {
        Ok(judged) => judged,
        Err(fault) => return Err(fault),
    };
    if !is_undecided(&judged.verdict) {
        return Ok(in_order(judged));
    }
    match judge_again(alloc, other, text, terms, judged) {
        Ok(judged) => Ok(judged),
        Err(_) => Err(AuditFault::Io(IoFault::NoMemory)),
    }
}
