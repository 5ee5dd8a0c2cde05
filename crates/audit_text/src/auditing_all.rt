//! A text is read whole, all its replies are judged, and each wrong one is reported.
ghost use Rattle.std.specs.Prelude.{◌≡◌, ◌⊎◌, ◌+◌, ◌<◌, ◌≤◌, ◌^◌, ◌++◌, [], Err, IfErr, IfOk, IfSome, OnOk, List, ℕ, Some, length, true};
ghost use Rattle.std.specs.List.{flat_map};
ghost use Rattle.trace_io.specs.Lines.{lines_of};
ghost use Rattle.trace_io.specs.Io.{read_from, written_to};
ghost use Rattle.trace_io.specs.Source.{Reads};
ghost use Rattle.slot_lock.specs.Slots.{IsNew};
ghost use Rattle.audit.specs.Auditor.{plain_of};
ghost use Rattle.audit_text.specs.Ends.{TellsAudit, head_text};
ghost use Rattle.audit_text.specs.Heard.{Declared, Front};
ghost use Rattle.audit_text.specs.Legal.{IsPlace};
ghost use Rattle.audit_text.specs.Reviewed.{IsReviewed, IsTextAtFault, ReviewEnds, first_found, review_text};
ghost use Rattle.audit_text.specs.Reviewing.{IsBefore};
ghost use Rattle.audit_text.specs.Steps.{EndsFront, IsCounted, count_of, declared_of, heard_of, terms_of};

use crate::allowing::Terms;
use crate::declaring::{AuditHead, declare};
use crate::hearing::Hearing;
use crate::input::AuditFault;
use crate::judging::Verdict;
use crate::reading::Said;
use crate::reviewing::review_lines;
use crate::telling::write_head;
use slot_lock::SlotMap;
use std::alloc::{AllocError, Allocator};
use trace_io::IoFault;
use trace_io::sink::{Sink, write_out};
use trace_io::source::{Source, read_all};
use trace_text::LineText;

/// The result of judging all replies of a text.
#[derive(Drop)]
pub struct AuditReport<A: Allocator> {
    /// The wrong ones, in their order.
    pub found: Vec<Verdict, A>,
    /// How many calls were judged.
    pub calls: u64,
    /// How many of them found no frame or no memory.
    pub lacking: u64,
}

// Judges the calls of a text, by what was heard before them.
fn review_heard<M: SlotMap + Drop, A: Allocator + Drop>(
    alloc: A,
    hearing: &mut Hearing<M, A>,
    first: Said,
    number: u64,
    rest: &[u8],
) -> Result<AuditReport<A>, AuditFault>
    requires counted { IsCounted hearing.old }
    requires few { count_of hearing.old + 1 ≤ number }
    requires room { number + length rest.now < 2 ^ 64 }
    ensures ok { IfOk result (λ r. (lines : List (List ℕ)) (d : Declared)
        → IsBefore (terms_of hearing.old) lines d (heard_of hearing.old) (plain_of hearing.old.auditor) [] first number (lines_of rest.now)
        → IsReviewed (terms_of hearing.old) lines r.found.items r.calls r.lacking) }
    ensures err { IfErr result (λ f. (lines : List (List ℕ)) (d : Declared)
        → IsBefore (terms_of hearing.old) lines d (heard_of hearing.old) (plain_of hearing.old.auditor) [] first number (lines_of rest.now)
        → IsTextAtFault lines f) }
{
    let mut found = Vec::new(alloc);
    match review_lines(hearing, &mut found, first, number, rest) {
        Ok(()) => Ok(AuditReport {
            found,
            calls: hearing.judged,
            lacking: hearing.lacking_told(),
        }),
        Err(fault) => Err(fault),
    }
}

// Judges the calls of a text with this declaration in front.
fn review_calls<M: SlotMap + Drop, A: Allocator + Clone + Drop>(
    alloc: A,
    map: M,
    declaration: AuditHead<A>,
    first: Said,
    number: u64,
    rest: &[u8],
    terms: Terms,
) -> Result<AuditReport<A>, AuditFault>
    requires new { IsNew (M.slots map) }
    requires few { length declaration.files.items ≤ 16 }
    requires from_1 { 1 ≤ number }
    requires room { number + length rest.now < 2 ^ 64 }
    ensures ok { IfOk result (λ r. (lines : List (List ℕ))
        → EndsFront lines (declared_of declaration) (Some first) number (lines_of rest.now)
        → IsReviewed terms lines r.found.items r.calls r.lacking) }
    ensures err { IfErr result (λ f. (lines : List (List ℕ))
        → EndsFront lines (declared_of declaration) (Some first) number (lines_of rest.now)
        → IsTextAtFault lines f) }
{
    if !declaration.has_space {
        return Err(AuditFault::NoVmLine);
    }
    let Ok(for_found) = alloc.clone() else {
        return Err(AuditFault::Io(IoFault::NoMemory));
    };
    let Ok(mut hearing) = Hearing::new(alloc, map, declaration.files, terms) else {
        return Err(AuditFault::Io(IoFault::NoMemory));
    };
    let reviewed = review_heard(for_found, &mut hearing, first, number, rest);
    drop(hearing);
    reviewed
}

// Judges a text without calls.
fn review_none<A: Allocator>(
    alloc: A,
    declaration: AuditHead<A>,
) -> Result<AuditReport<A>, AuditFault>
    ensures ok { IfOk result (λ r. (terms : Terms) (lines : List (List ℕ)) (number : ℕ)
        → IsPlace lines number [] (Front (declared_of declaration))
        → IsReviewed terms lines r.found.items r.calls r.lacking) }
    ensures err { IfErr result (λ f. (lines : List (List ℕ)) (number : ℕ)
        → IsPlace lines number [] (Front (declared_of declaration))
        → IsTextAtFault lines f) }
{
    if !declaration.has_space {
        return Err(AuditFault::NoVmLine);
    }
    Ok(AuditReport {
        found: Vec::new(alloc),
        calls: 0,
        lacking: 0,
    })
}

// Judges what follows a declaration.
fn review_behind<M: SlotMap + Drop, A: Allocator + Clone + Drop>(
    alloc: A,
    map: M,
    declaration: AuditHead<A>,
    first: Option<Said>,
    number: u64,
    rest: &[u8],
    terms: Terms,
) -> Result<AuditReport<A>, AuditFault>
    requires new { IsNew (M.slots map) }
    requires few { length declaration.files.items ≤ 16 }
    requires from_1 { IfSome first (λ said. 1 ≤ number) }
    requires room { number + length rest.now < 2 ^ 64 }
    ensures ok { IfOk result (λ r. (lines : List (List ℕ))
        → EndsFront lines (declared_of declaration) first number (lines_of rest.now)
        → IsReviewed terms lines r.found.items r.calls r.lacking) }
    ensures err { IfErr result (λ f. (lines : List (List ℕ))
        → EndsFront lines (declared_of declaration) first number (lines_of rest.now)
        → IsTextAtFault lines f) }
{
    match first {
        Some(said) => review_calls(alloc, map, declaration, said, number, rest, terms),
        None => review_none(alloc, declaration),
    }
}

/// Judges all replies of a text.
pub fn review_text<M: SlotMap + Drop, A: Allocator + Clone + Drop>(
    alloc: A,
    map: M,
    text: &[u8],
    terms: Terms,
) -> Result<AuditReport<A>, AuditFault>
    requires new { IsNew (M.slots map) }
    ensures ok { IfOk result (λ r. IsReviewed terms (lines_of text.now) r.found.items r.calls r.lacking) }
    ensures err { IfErr result (λ f. IsTextAtFault (lines_of text.now) f) }
{
    let Ok(for_files) = alloc.clone() else {
        return Err(AuditFault::Io(IoFault::NoMemory));
    };
    // this says that lines are fewer than 2^64
    let _most = text.len();
    let mut declaration = AuditHead::new(for_files);
    match declare(&mut declaration, &alloc, text) {
        Ok(behind) => review_behind(
            alloc,
            map,
            declaration,
            behind.said,
            behind.number,
            behind.rest,
            terms,
        ),
        Err(fault) => Err(fault),
    }
}

// Appends a line for each wrong reply.
fn push_found<A: Allocator>(all: &mut Vec<u8, A>, found: &[Verdict]) -> Result<(), AllocError>
    ensures { OnOk result (all.new.items ≡ all.old.items ++ flat_map head_text found.now) }
{
    let mut text = LineText::new();
    let mut at = 0;
    'lines: while at < found.len() {
        write_head(&mut text, &found[at]);
        all.extend_from_slice(text.as_str().as_bytes())?;
        at += 1;
    }
    Ok(())
}

// A line for each wrong reply, or that all are legal.
fn told_text<A: Allocator>(
    alloc: A,
    found: &[Verdict],
    calls: u64,
    lacking: u64,
) -> Result<Vec<u8, A>, AllocError>
    ensures { IfOk result (λ text. text.items ≡ review_text found.now calls lacking) }
{
    let mut all = Vec::new(alloc);
    if found.is_empty() {
        let mut line = LineText::new();
        let legal = Verdict::Legal {
            calls,
            lacking,
            passed: 0,
        };
        write_head(&mut line, &legal);
        all.extend_from_slice(line.as_str().as_bytes())?;
        return Ok(all);
    }
    push_found(&mut all, found)?;
    Ok(all)
}

// The first of them.
fn first_found(found: &[Verdict]) -> Option<Verdict>
    ensures { result ≡ first_found found.now }
{
    match found {
        [first, ..] => Some(*first),
        [] => None,
    }
}

// Judges a text, and writes what is wrong.
fn review_out<M: SlotMap + Drop, A: Allocator + Clone + Drop, W: Sink>(
    alloc: A,
    map: M,
    text: &[u8],
    writer: &mut W,
    terms: Terms,
) -> Result<Option<Verdict>, AuditFault>
    requires new { IsNew (M.slots map) }
    ensures ends { ReviewEnds terms text.now (W.contents writer.old) (W.contents writer.new) result }
    ensures out { OnOk result (W.is_flushed writer.new ≡ true) }
    ensures read { result ≡ Err (AuditFault.Io IoFault.ReadFailed) → ⊥ }
    ensures write { result ≡ Err (AuditFault.Io IoFault.WriteFailed) → W.failed writer.new ≡ true }
    ensures kept { (result ≡ Err (AuditFault.Io IoFault.WriteFailed)) ⊎ (W.failed writer.new ≡ W.failed writer.old) }
{
    let Ok(for_judging) = alloc.clone() else {
        return Err(AuditFault::Io(IoFault::NoMemory));
    };
    let review = match review_text(for_judging, map, text, terms) {
        Ok(review) => review,
        Err(fault) => return Err(fault),
    };
    let found = review.found.as_slice();
    let Ok(told) = told_text(alloc, found, review.calls, review.lacking) else {
        return Err(AuditFault::Io(IoFault::NoMemory));
    };
    match write_out(writer, told.as_slice()) {
        Ok(()) => Ok(first_found(found)),
        Err(_) => Err(AuditFault::Io(IoFault::WriteFailed)),
    }
}

/// Reads a text to its end, and writes a line for each of its replies that may not be by these terms, beside the plain page map that
/// begins with nothing mapped; `legal CALLS` if all may. After a wrong one it goes on from where the reply says that a mapping is, if its
/// pages are free, and else from what was due. Answers the first wrong one. The map has nothing mapped.
pub fn audit_all<M: SlotMap + Drop, A: Allocator + Clone + Drop, S: Source, W: Sink>(
    alloc: A,
    map: M,
    reader: &mut S,
    writer: &mut W,
    terms: Terms,
) -> Result<Option<Verdict>, AuditFault>
    requires new { IsNew (M.slots map) }
    ensures ends { Reads (S.stream reader.old) (S.stream reader.new) (λ input unread.
        ReviewEnds terms input (W.contents writer.old) (W.contents writer.new) result) }
    ensures told { TellsAudit result (read_from S.Source reader.old reader.new)
        (written_to W.Sink writer.old writer.new) }
{
    let Ok(for_text) = alloc.clone() else {
        return Err(AuditFault::Io(IoFault::NoMemory));
    };
    match read_all(for_text, reader) {
        Ok(text) => review_out(alloc, map, text.as_slice(), writer, terms),
        Err(fault) => Err(AuditFault::Io(fault)),
    }
}
