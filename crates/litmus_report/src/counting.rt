//! Counts of outcomes that another system gave, judged by those that are listed.
ghost use Rattle.std.specs.Prelude.{◌≡◌, ◌≤◌, ◌++◌, IfOk, OnOk, length, map, option_map};
ghost use Rattle.std.specs.List.{flat_map, list_any};
ghost use Rattle.trace_io.specs.Lines.{lines_of};
ghost use Rattle.litmus_report.specs.Counts.{bad_line, behind_colon, bytes_of, count_line, counted, counts_status, counts_text, digits_before};
ghost use Rattle.litmus_report.specs.Counts.{has_counts, has_outside, is_bad, is_digit, judged_end, judged_status};
ghost use Rattle.litmus_report.specs.Counts.{is_listed, is_outside, is_passed, mark_by, mark_of, marked_text, outside_status, plain_texts};
ghost use Rattle.litmus_report.specs.Reports.{known};

use crate::reporting::{Searched, add_end, are_reached};
use crate::texts::{add_text, plain_text};
use crate::verdict::{HasOutcome, Named};
use std::alloc::Allocator;
use trace_io::lines::front_line;
use vm_base::NoMemory;

/// What a line is among counts of outcomes.
#[derive(Clone, Copy)]
pub enum CountMark {
    /// It is empty, or a comment.
    Passed,
    /// It is no count.
    Bad,
    /// Its outcome is listed.
    Listed,
    /// Its outcome isn't listed.
    Outside,
}

/// What counts come to: the text, and the status.
#[derive(Drop)]
pub struct Judged<A: Allocator> {
    pub text: Vec<u8, A>,
    pub status: u8,
}

// ---- a line

// Tells whether a line is passed over.
fn is_passed(line: &[u8]) -> bool
    ensures { result ≡ is_passed line.now }
{
    match line {
        [] => true,
        [first, ..] => *first == b'#',
    }
}

fn is_digit(byte: u8) -> bool
    ensures { result ≡ is_digit byte }
{
    b'0' <= byte && byte <= b'9'
}

// How many digits stand in front.
fn digits_before(line: &[u8]) -> usize
    ensures within { result ≤ length line.now }
    ensures value { result ≡ digits_before line.now }
{
    for (at, byte) in line.iter().enumerate() {
        if !is_digit(*byte) {
            return at;
        }
    }
    line.len()
}

// What stands behind a colon and a space.
fn behind_colon(bytes: &[u8]) -> Option<&[u8]>
    ensures { option_map (λ outcome. outcome.now) result ≡ behind_colon bytes.now }
{
    match bytes {
        [b':', b' ', outcome @ ..] => Some(outcome),
        _ => None,
    }
}

// The outcome of a count.
fn counted(line: &[u8]) -> Option<&[u8]>
    ensures { option_map (λ outcome. outcome.now) result ≡ counted line.now }
{
    let count = digits_before(line);
    if count == 0 {
        return None;
    }
    let (_, rest) = line.split_at(count);
    behind_colon(rest)
}

fn is_bad(line: &[u8]) -> bool
    ensures { result ≡ is_bad line.now }
{
    !is_passed(line) && counted(line).is_none()
}

/// The number of the first line that is neither a count `COUNT: OUTCOME`, nor empty, nor a comment. Lines are numbered from 1.
#[tactic(auto, using(crate::proofs::CountLemmas::counts_more, crate::proofs::CountLemmas::counts_stop, crate::proofs::CountLemmas::counts_end, audit_text::proofs::TextLemmas::lines_empty, audit_text::proofs::TextLemmas::some_left))]
pub fn bad_count(counts: &[u8]) -> Option<u64>
    ensures { result ≡ bad_line 1 (lines_of counts.now) }
{
    // this says that lines are fewer than 2^64
    let _most = counts.len();
    let mut rest = counts;
    let mut number = 0u64;
    'lines: while !rest.is_empty() {
        number += 1;
        let (line, more) = front_line(rest);
        if is_bad(line) {
            return Some(number);
        }
        rest = more;
    }
    None
}

// ---- beside the outcomes that are listed

// The texts of all outcomes, as counts have them.
fn plain_texts<T: HasOutcome, A: Allocator + Clone>(
    alloc: &A,
    named: &Named<'_>,
    outcomes: &[T],
) -> Result<Vec<Vec<u8, A>, A>, NoMemory>
    ensures { IfOk result (λ texts. map bytes_of texts.items ≡ plain_texts (known named.now (map T.outcome outcomes.now))) }
{
    let mut texts = Vec::new(alloc.clone()?);
    for outcome in outcomes {
        let text = plain_text(alloc.clone()?, named, outcome)?;
        texts.push(text)?;
    }
    Ok(texts)
}

// Tells whether an outcome is listed.
fn is_listed<A: Allocator>(texts: &[Vec<u8, A>], outcome: &[u8]) -> bool
    ensures { result ≡ is_listed (map bytes_of texts.now) outcome.now }
{
    for text in texts {
        if text.as_slice() == outcome {
            return true;
        }
    }
    false
}

// What a line is.
fn mark_of<A: Allocator>(texts: &[Vec<u8, A>], line: &[u8]) -> CountMark
    ensures { result ≡ mark_of (map bytes_of texts.now) line.now }
{
    if is_passed(line) {
        return CountMark::Passed;
    }
    match counted(line) {
        Some(outcome) => {
            if is_listed(texts, outcome) {
                CountMark::Listed
            } else {
                CountMark::Outside
            }
        }
        None => CountMark::Bad,
    }
}

// Appends a line again, by what it is.
fn add_marked<A: Allocator>(
    out: &mut Vec<u8, A>,
    mark: CountMark,
    line: &[u8],
) -> Result<(), NoMemory>
    ensures { OnOk result (out.new.items ≡ out.old.items ++ marked_text mark line.now) }
{
    match mark {
        CountMark::Passed | CountMark::Bad => Ok(()),
        CountMark::Listed => {
            out.extend_from_slice(line)?;
            add_text(out, "\n")
        }
        CountMark::Outside => {
            out.extend_from_slice(line)?;
            add_text(out, " (outside)\n")
        }
    }
}

// Appends the counts, each marked.
#[tactic(auto, using(crate::proofs::CountLemmas::marked_more, crate::proofs::CountLemmas::marked_all, audit_text::proofs::TextLemmas::lines_empty, audit_text::proofs::TextLemmas::some_left))]
fn add_counts<A: Allocator, B: Allocator>(
    out: &mut Vec<u8, A>,
    texts: &[Vec<u8, B>],
    counts: &[u8],
) -> Result<(), NoMemory>
    ensures { OnOk result (out.new.items ≡ out.old.items ++ flat_map (count_line (map bytes_of texts.now)) (lines_of counts.now)) }
{
    let mut rest = counts;
    'lines: while !rest.is_empty() {
        let (line, more) = front_line(rest);
        add_marked(out, mark_of(texts, line), line)?;
        rest = more;
    }
    Ok(())
}

fn is_outside(mark: CountMark) -> bool
    ensures { result ≡ is_outside mark }
{
    matches!(mark, CountMark::Outside)
}

// Tells whether the outcome of a count isn't listed.
fn has_outside<A: Allocator>(texts: &[Vec<u8, A>], counts: &[u8]) -> bool
    ensures { result ≡ has_outside (map bytes_of texts.now) (lines_of counts.now) }
{
    let mut rest = counts;
    'lines: while !rest.is_empty() {
        let (line, more) = front_line(rest);
        if is_outside(mark_of(texts, line)) {
            return true;
        }
        rest = more;
    }
    false
}

// Tells whether one of the lines is a count.
fn has_counts(counts: &[u8]) -> bool
    ensures { result ≡ has_counts (lines_of counts.now) }
{
    let mut rest = counts;
    'lines: while !rest.is_empty() {
        let (line, more) = front_line(rest);
        if !is_passed(line) {
            return true;
        }
        rest = more;
    }
    false
}

fn outside_status(outside: bool, whole: bool) -> u8
    ensures { result ≡ outside_status outside whole }
{
    if !outside {
        0
    } else if whole {
        1
    } else {
        3
    }
}

fn judged_status(counted: bool, outside: bool, whole: bool) -> u8
    ensures { result ≡ judged_status counted outside whole }
{
    if counted {
        outside_status(outside, whole)
    } else {
        3
    }
}

// Appends how the search for outcomes ended, where something was counted.
fn add_judged_end<A: Allocator>(
    out: &mut Vec<u8, A>,
    counted: bool,
    searched: Searched,
    exact: bool,
) -> Result<(), NoMemory>
    ensures { OnOk result (out.new.items ≡ out.old.items ++ judged_end counted searched exact) }
{
    if counted {
        add_end(out, searched, exact)
    } else {
        add_text(out, "nothing was observed\n")
    }
}

/// What these counts come to, lines `COUNT: OUTCOME` that another system gave: each again, with ` (outside)` behind one whose outcome isn't
/// listed, and then how the search for outcomes ended. The status is 1 where one isn't listed, but 3 where not all outcomes are
/// known, or nothing was counted; and else 0. `Err` says that memory was refused.
pub fn judge_counts<T: HasOutcome, A: Allocator + Clone>(
    alloc: &A,
    named: &Named<'_>,
    outcomes: &[T],
    searched: Searched,
    counts: &[u8],
) -> Result<Judged<A>, NoMemory>
    ensures text { IfOk result (λ judged. judged.text.items
        ≡ counts_text (known named.now (map T.outcome outcomes.now)) searched (lines_of counts.now)) }
    ensures status { IfOk result (λ judged. judged.status
        ≡ counts_status (known named.now (map T.outcome outcomes.now)) searched.whole (lines_of counts.now)) }
{
    let texts = plain_texts(alloc, named, outcomes)?;
    let mut text: Vec<u8, A> = Vec::new(alloc.clone()?);
    add_counts(&mut text, texts.as_slice(), counts)?;
    let counted = has_counts(counts);
    add_judged_end(&mut text, counted, searched, are_reached(outcomes))?;
    let outside = has_outside(texts.as_slice(), counts);
    let status = judged_status(counted, outside, searched.whole);
    Ok(Judged { text, status })
}
