//! The replies of a text are judged, one after another.
ghost use Rattle.std.specs.Prelude.{◌≡◌, ◌+◌, ◌<◌, ◌≤◌, ◌^◌, [], IfErr, IfOk, IfSome, List, ℕ, Some, length};
ghost use Rattle.trace_io.specs.Lines.{lines_of};
ghost use Rattle.slot_lock.specs.Slots.{IsNew};
ghost use Rattle.slot_lock.specs.MapWalks.{slot_metas};
ghost use Rattle.audit_text.specs.Ends.{IsAtFault, IsVerdict};
ghost use Rattle.audit_text.specs.Around.{IsAround};
ghost use Rattle.audit_text.specs.Legal.{IsPlace, LacksSpace, page_told};
ghost use Rattle.audit_text.specs.declared.allowing.Terms.{Terms};
ghost use Rattle.audit.specs.Auditor.{plain_of};
ghost use Rattle.audit_text.specs.Heard.{Declared, Front};
ghost use Rattle.audit_text.specs.Steps.{EndsFront, IsCall, IsCounted, IsFound, ShowsAround, count_of, declared_of, heard_of, terms_of};

use crate::allowing::Terms;
use crate::around::mappings_around;
use crate::declaring::{AuditHead, declare};
use crate::hearing::Hearing;
use crate::input::AuditFault;
use crate::item::AuditItem;
use crate::judging::{Verdict, hear_lines};
use crate::reading::Said;
use slot_lock::{MapLine, SlotMap};
use std::alloc::Allocator;
use trace_io::IoFault;

/// A verdict, and the mappings around the page of the reply or the copy that is illegal.
#[derive(Drop)]
pub struct Judged<A: Allocator> {
    pub verdict: Verdict,
    pub around: Vec<MapLine, A>,
}

// The mappings around an item's page.
fn around_item<M: SlotMap, A: Allocator>(
    alloc: A,
    map: &M,
    item: &AuditItem,
) -> Result<Vec<MapLine, A>, AuditFault>
    ensures ok { IfOk result (λ around. IsAround (slot_metas (M.slots map.now)) (page_told item.now) around.items) }
    ensures err { IfErr result (λ f. f ≡ AuditFault.Io IoFault.NoMemory) }
{
    match mappings_around(map, alloc, item.page()) {
        Ok(around) => Ok(around),
        Err(_) => Err(AuditFault::Io(IoFault::NoMemory)),
    }
}

// The mappings around the verdict's page, if it has one.
fn around_verdict<M: SlotMap, A: Allocator>(
    alloc: A,
    map: &M,
    verdict: &Verdict,
) -> Result<Vec<MapLine, A>, AuditFault>
    ensures ok { IfOk result (λ around. ShowsAround (slot_metas (M.slots map.now)) verdict.now around.items) }
    ensures err { IfErr result (λ f. f ≡ AuditFault.Io IoFault.NoMemory) }
{
    match verdict {
        Verdict::Legal { .. } => Ok(Vec::new(alloc)),
        Verdict::Illegal { item, .. } => around_item(alloc, map, item),
        Verdict::Undecided { item, .. } => around_item(alloc, map, item),
    }
}

// Judges the calls of a text, by what was heard before them.
fn judge_heard<M: SlotMap + Drop, A: Allocator + Drop>(
    alloc: A,
    hearing: &mut Hearing<M, A>,
    first: Said,
    number: u64,
    rest: &[u8],
) -> Result<Judged<A>, AuditFault>
    requires counted { IsCounted hearing.old }
    requires few { count_of hearing.old + 1 ≤ number }
    requires room { number + length rest.now < 2 ^ 64 }
    ensures ok { IfOk result (λ j. (lines : List (List ℕ)) (d : Declared)
        → IsCall (terms_of hearing.old) lines d (heard_of hearing.old) (plain_of hearing.old.auditor) first number (lines_of rest.now)
        → IsVerdict (terms_of hearing.old) lines j.verdict j.around.items) }
    ensures err { IfErr result (λ f. (lines : List (List ℕ)) (d : Declared)
        → IsCall (terms_of hearing.old) lines d (heard_of hearing.old) (plain_of hearing.old.auditor) first number (lines_of rest.now)
        → IsAtFault (terms_of hearing.old) lines f) }
{
    let verdict = match hear_lines(hearing, first, number, rest) {
        Ok(verdict) => verdict,
        Err(fault) => return Err(fault),
    };
    match around_verdict(alloc, hearing.auditor.map(), &verdict) {
        Ok(around) => Ok(Judged { verdict, around }),
        Err(fault) => Err(fault),
    }
}

// Judges the calls of a text with this declaration in front.
fn judge_calls<M: SlotMap + Drop, A: Allocator + Clone + Drop>(
    alloc: A,
    map: M,
    declaration: AuditHead<A>,
    first: Said,
    number: u64,
    rest: &[u8],
    terms: Terms,
) -> Result<Judged<A>, AuditFault>
    requires new { IsNew (M.slots map) }
    requires few { length declaration.files.items ≤ 16 }
    requires from_1 { 1 ≤ number }
    requires room { number + length rest.now < 2 ^ 64 }
    ensures ok { IfOk result (λ j. (lines : List (List ℕ))
        → EndsFront lines (declared_of declaration) (Some first) number (lines_of rest.now)
        → IsVerdict terms lines j.verdict j.around.items) }
    ensures err { IfErr result (λ f. (lines : List (List ℕ))
        → EndsFront lines (declared_of declaration) (Some first) number (lines_of rest.now)
        → IsAtFault terms lines f) }
{
    if !declaration.has_space {
        return Err(AuditFault::NoVmLine);
    }
    let Ok(for_around) = alloc.clone() else {
        return Err(AuditFault::Io(IoFault::NoMemory));
    };
    let Ok(mut hearing) = Hearing::new(alloc, map, declaration.files, terms) else {
        return Err(AuditFault::Io(IoFault::NoMemory));
    };
    let judged = judge_heard(for_around, &mut hearing, first, number, rest);
    drop(hearing);
    judged
}

// The verdict on a text without calls.
fn judge_none<A: Allocator>(alloc: A, declaration: AuditHead<A>) -> Result<Judged<A>, AuditFault>
    ensures ok { IfOk result (λ j. (terms : Terms) (lines : List (List ℕ)) (number : ℕ)
        → IsPlace lines number [] (Front (declared_of declaration))
        → IsVerdict terms lines j.verdict j.around.items) }
    ensures err { IfErr result (λ f. (terms : Terms) (lines : List (List ℕ)) (number : ℕ)
        → IsPlace lines number [] (Front (declared_of declaration))
        → IsAtFault terms lines f) }
{
    if !declaration.has_space {
        return Err(AuditFault::NoVmLine);
    }
    Ok(Judged {
        verdict: Verdict::Legal {
            calls: 0,
            lacking: 0,
            passed: 0,
        },
        around: Vec::new(alloc),
    })
}

// Judges what follows a declaration.
fn judge_behind<M: SlotMap + Drop, A: Allocator + Clone + Drop>(
    alloc: A,
    map: M,
    declaration: AuditHead<A>,
    first: Option<Said>,
    number: u64,
    rest: &[u8],
    terms: Terms,
) -> Result<Judged<A>, AuditFault>
    requires new { IsNew (M.slots map) }
    requires few { length declaration.files.items ≤ 16 }
    requires from_1 { IfSome first (λ said. 1 ≤ number) }
    requires room { number + length rest.now < 2 ^ 64 }
    ensures ok { IfOk result (λ j. (lines : List (List ℕ))
        → EndsFront lines (declared_of declaration) first number (lines_of rest.now)
        → IsVerdict terms lines j.verdict j.around.items) }
    ensures err { IfErr result (λ f. (lines : List (List ℕ))
        → EndsFront lines (declared_of declaration) first number (lines_of rest.now)
        → IsAtFault terms lines f) }
{
    match first {
        Some(said) => judge_calls(alloc, map, declaration, said, number, rest, terms),
        None => judge_none(alloc, declaration),
    }
}

/// Judges whether the replies of a text, one after another, may be by these terms, beside the plain page map that begins with nothing
/// mapped. Of the first that may not, or of a copy, it tells what would be due, and the mappings around it; where calls overlapped before
/// it, so that another order may explain the replies, it is undecided. The map has nothing mapped.
pub fn judge_text<M: SlotMap + Drop, A: Allocator + Clone + Drop>(
    alloc: A,
    map: M,
    text: &[u8],
    terms: Terms,
) -> Result<Judged<A>, AuditFault>
    requires new { IsNew (M.slots map) }
    ensures ok { IfOk result (λ j. IsVerdict terms (lines_of text.now) j.verdict j.around.items) }
    ensures err { IfErr result (λ f. IsAtFault terms (lines_of text.now) f) }
{
    let Ok(for_files) = alloc.clone() else {
        return Err(AuditFault::Io(IoFault::NoMemory));
    };
    // this says that lines are fewer than 2^64
    let _most = text.len();
    let mut declaration = AuditHead::new(for_files);
    match declare(&mut declaration, &alloc, text) {
        Ok(behind) => judge_behind(
            alloc,
            map,
            declaration,
            behind.said,
            behind.number,
            behind.rest,
            terms,
        ),
        Err(fault) => Err(fault),
    }
}
