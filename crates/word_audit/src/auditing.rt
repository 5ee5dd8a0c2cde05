//! What the command `audit` does.
ghost use Rattle.std.specs.Prelude.{◌≡◌, ◌≤◌};
ghost use Rattle.word_audit.specs.Status.{audit_fault_status, besides_status, found_status, history_fault_status, ruling_status};
ghost use Rattle.word_audit.specs.Words.{AuditsReplies, JudgesCalls, JudgesOrGivesUp, ReviewsReplies};
ghost use Rattle.trace_io.specs.Io.{read_from, written_to};

use audit_text::{AuditFault, Terms, Verdict, audit_all};
use loosely::{Besides, Manner, Maps, judge_calls};
use orders_text::HistoryFault;
use overlapping::{By, Ruling, audit_text};
use radix_range::RadixMap;
use std::alloc::Global;
use trace_io::IoFault;
use trace_io::sink::Sink;
use trace_io::source::{Source, read_all};
use trace_words::fault::TraceFault;
use word_parts::asked::Overlaps;
use word_parts::ended::{Ended, Trouble};

// What is told of a fault.
fn trouble_of(fault: AuditFault) -> Trouble {
    Trouble::Fault(match fault {
        AuditFault::BadLine(number) => TraceFault::BadLine(number),
        AuditFault::TooLong(number) => TraceFault::TooLong(number),
        AuditFault::NoVmLine => TraceFault::NoVmLine,
        AuditFault::Io(IoFault::ReadFailed) => TraceFault::ReadFailed,
        AuditFault::Io(IoFault::NoMemory) => TraceFault::NoMemory,
        AuditFault::Io(IoFault::WriteFailed) => TraceFault::WriteFailed,
    })
}

// How a judgement ends with this fault: with 2 where the text is at fault, 3 where the system is.
fn refuse(fault: AuditFault) -> Ended
    ensures value { result.status ≡ audit_fault_status fault }
    ensures within { result.status ≤ 4 }
{
    let status = match fault {
        AuditFault::BadLine(_) | AuditFault::TooLong(_) | AuditFault::NoVmLine => 2,
        AuditFault::Io(_) => 3,
    };
    Ended {
        status,
        trouble: trouble_of(fault),
    }
}

// How the judgement of replies ended, of which this is the first wrong one, or what is said in its place.
fn ended_at(first: Option<Verdict>) -> Ended
    ensures value { result.status ≡ found_status first }
    ensures within { result.status ≤ 4 }
{
    match first {
        None | Some(Verdict::Legal { .. }) => Ended {
            status: 0,
            trouble: Trouble::Nothing,
        },
        Some(Verdict::Illegal { line, .. }) => Ended {
            status: 1,
            trouble: Trouble::Illegal(line),
        },
        Some(Verdict::Undecided { line, .. }) => Ended {
            status: 4,
            trouble: Trouble::Undecided(line),
        },
    }
}

/// Judges the replies of a text by these terms, in the order of its lines or in another one, and answers how that ended: with 0 where all
/// are legal, 1 where one isn't, 4 where that is undecided, or the status of an error.
pub fn audit<S: Source, W: Sink>(alloc: Global, reader: &mut S, out: &mut W, terms: Terms) -> Ended
    ensures ends { AuditsReplies terms
        (read_from S.Source reader.old reader.new) (written_to W.Sink out.old out.new) result.status }
    ensures within { result.status ≤ 4 }
{
    let Ok(map) = RadixMap::new(alloc) else {
        return refuse(AuditFault::Io(IoFault::NoMemory));
    };
    let Ok(other) = RadixMap::new(alloc) else {
        return refuse(AuditFault::Io(IoFault::NoMemory));
    };
    match audit_text(alloc, map, other, reader, out, terms) {
        Ok(judgement) => ended_at(Some(judgement.verdict())),
        Err(fault) => refuse(fault),
    }
}

/// As `audit`, and goes on after a wrong reply: each one is reported.
pub fn audit_each<S: Source, W: Sink>(
    alloc: Global,
    reader: &mut S,
    out: &mut W,
    terms: Terms,
) -> Ended
    ensures ends { ReviewsReplies terms
        (read_from S.Source reader.old reader.new) (written_to W.Sink out.old out.new) result.status }
    ensures within { result.status ≤ 4 }
{
    let Ok(map) = RadixMap::new(alloc) else {
        return refuse(AuditFault::Io(IoFault::NoMemory));
    };
    match audit_all(alloc, map, reader, out, terms) {
        Ok(first) => ended_at(first),
        Err(fault) => refuse(fault),
    }
}

// How a judgement ends where a text is that of no history.
pub(crate) fn refuse_history(fault: HistoryFault) -> Ended
    ensures value { result.status ≡ history_fault_status fault }
    ensures within { result.status ≤ 4 }
{
    let status = match fault {
        HistoryFault::Io(_) => 3,
        _ => 2,
    };
    Ended {
        status,
        trouble: Trouble::History(fault),
    }
}

// How the judgement of a history ended.
pub(crate) fn ended_by(ruling: Ruling) -> Ended
    ensures value { result.status ≡ ruling_status ruling }
    ensures within { result.status ≤ 4 }
{
    match ruling {
        Ruling::Legal(_) => Ended {
            status: 0,
            trouble: Trouble::Nothing,
        },
        Ruling::NoOrder { line, .. } => Ended {
            status: 1,
            trouble: Trouble::NoOrder(line),
        },
        Ruling::Undecided(line) => Ended {
            status: 4,
            trouble: Trouble::Unordered(line),
        },
    }
}

// How the judgement of a history ended, of which this is said besides.
fn ended_besides(ruling: Ruling, besides: Besides) -> Ended
    ensures value { result.status ≡ besides_status besides (ruling_status ruling) }
    ensures within { result.status ≤ 5 }
{
    let ended = ended_by(ruling);
    match besides {
        Besides::Nothing => ended,
        Besides::Kernel | Besides::Moving => Ended {
            status: 5,
            trouble: ended.trouble,
        },
    }
}

// Judges calls that overlap so.
fn judge_so<S: Source, W: Sink>(
    alloc: Global,
    manner: Manner,
    by: By<'_>,
    reader: &mut S,
    out: &mut W,
    order: &mut Vec<u8>,
) -> Ended
    ensures ends { JudgesCalls Global manner.is_alone manner.any_place
        (read_from S.Source reader.old reader.new) (written_to W.Sink out.old out.new) result.status }
    ensures within { result.status ≤ 5 }
{
    let Ok(plain) = RadixMap::new(alloc) else {
        return refuse_history(HistoryFault::Io(IoFault::NoMemory));
    };
    let Ok(kernel) = RadixMap::new(alloc) else {
        return refuse_history(HistoryFault::Io(IoFault::NoMemory));
    };
    let Ok(moving) = RadixMap::new(alloc) else {
        return refuse_history(HistoryFault::Io(IoFault::NoMemory));
    };
    let maps = Maps {
        plain,
        kernel,
        moving,
    };
    match judge_calls(alloc, maps, reader, out, manner, by) {
        Ok(judged) => {
            let ended = ended_besides(judged.ruled.ruling, judged.besides);
            *order = judged.ruled.order;
            ended
        }
        Err(fault) => refuse_history(fault),
    }
}

/// Judges a history of calls that overlap, and answers how that ended: with 0 where they have an order, 1 where they have none, 4 where none
/// was found, 5 where they have none but are legal by the rule that kernels keep, or the status of an error. The order is searched, or read
/// from `list`. It is left in `order`. With `is_alone` nothing is said of that rule.
pub fn audit_overlapping<L: Source, S: Source, W: Sink>(
    alloc: Global,
    list: &mut L,
    reader: &mut S,
    out: &mut W,
    overlaps: Overlaps,
    is_alone: bool,
    order: &mut Vec<u8>,
) -> Ended
    ensures ends { JudgesOrGivesUp Global is_alone overlaps.any_place
        (read_from S.Source reader.old reader.new) (written_to W.Sink out.old out.new) result.status }
    ensures within { result.status ≤ 5 }
{
    let manner = Manner {
        any_place: overlaps.any_place,
        is_wanted: overlaps.is_wanted,
        is_alone,
    };
    if !overlaps.is_given {
        return judge_so(alloc, manner, By::Search, reader, out, order);
    }
    match read_all(alloc, list) {
        Ok(given) => judge_so(
            alloc,
            manner,
            By::Given(given.as_slice()),
            reader,
            out,
            order,
        ),
        Err(fault) => refuse_history(HistoryFault::Io(fault)),
    }
}
