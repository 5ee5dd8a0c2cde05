//! What is said of how a task ended: where an error is, what it is, and what was expected there.

use crate::asks::{Asks, name_told};
use crate::output::Output;
use crate::telling::{tell_cause, tell_io, tell_unwritten};
use arrayvec::ArrayString;
use litmus::TestFault;
use litmus_text::LitmusFault;
use orders_text::HistoryFault;
use std::alloc::Global;
use std::fmt::Write as Format;
use std::io::Write;
use trace_io::IoFault;
use trace_words::fault::TraceFault;
use word_faults::explain::explain;
use word_faults::histories::{explain_disorder, explain_history};
use word_faults::noting::{Place, show_request, tell_notes, tell_of_places, tell_undecided};
use word_parts::ended::Trouble;
use word_parts::keeping::Keeping;
use word_parts::pointing::Report;
use word_runs::litmus_tests::explain_litmus;
use word_runs::unmet::warn_of_unmet;

// The words of an error.
type Words = ArrayString<192>;

// What is wrong in words, after the number of the line where it has one.
fn words_of(trouble: Trouble, untold: Option<TestFault>) -> Words {
    let mut words = Words::new();
    let _ = match trouble {
        Trouble::Nothing => Ok(()),
        Trouble::Fault(fault) => write!(words, "{fault}"),
        Trouble::History(fault) => write!(words, "{fault}"),
        Trouble::Illegal(line) => write!(words, "line {line}: the reply is illegal"),
        Trouble::Undecided(line) => write!(words, "line {line}: undecided"),
        Trouble::NoOrder(line) => write!(words, "line {line}: no order"),
        Trouble::Unordered(line) => write!(words, "line {line}: undecided"),
        Trouble::Litmus => match untold {
            Some(fault) => write!(words, "{fault}"),
            None => Ok(()),
        },
    };
    words
}

// The number of the line and what is wrong there.
fn parts_of(words: &str) -> (Option<u64>, &str) {
    let Some(rest) = words.strip_prefix("line ") else {
        return (None, words);
    };
    let Some((number, what)) = rest.split_once(": ") else {
        return (None, words);
    };
    (number.parse::<u64>().ok(), what)
}

// The name by which the list is told of.
fn list_told<'a>(asks: Asks<'a>) -> &'a str {
    asks.maps.unwrap_or("-")
}

// Which stream or memory failed, where that is the trouble.
fn failed(trouble: Trouble, untold: Option<TestFault>) -> Option<IoFault> {
    match (trouble, untold) {
        (Trouble::Fault(TraceFault::ReadFailed), _) => Some(IoFault::ReadFailed),
        (Trouble::Fault(TraceFault::NoMemory), _) => Some(IoFault::NoMemory),
        (Trouble::Fault(TraceFault::WriteFailed), _) => Some(IoFault::WriteFailed),
        (Trouble::History(HistoryFault::Io(fault)), _) => Some(fault),
        (Trouble::Litmus, Some(TestFault::Text(LitmusFault::Io(fault)))) => Some(fault),
        _ => None,
    }
}

// Tells that a stream or memory failed, and why, where that is known.
fn tell_failed<L, R, W: Output, E: Write>(
    asks: Asks<'_>,
    fault: IoFault,
    list: &Keeping<L>,
    read: &Keeping<R>,
    out: &W,
    errors: &mut E,
) {
    match fault {
        IoFault::ReadFailed => match list.cause {
            Some(cause) => tell_cause(list_told(asks), fault, Some(cause), errors),
            None => tell_cause(name_told(asks.file), fault, read.cause, errors),
        },
        IoFault::WriteFailed => tell_unwritten(out, errors),
        IoFault::NoMemory => tell_io(fault, errors),
    }
}

// Tells what more is known of an error.
fn explain_more<R, E: Write>(
    asks: Asks<'_>,
    trouble: Trouble,
    untold: Option<TestFault>,
    read: &Keeping<R>,
    report: &mut Report<'_, E>,
) {
    match trouble {
        Trouble::Fault(fault) => explain(fault, asks.manner, &read.kept, report),
        Trouble::History(fault) => explain_history(fault, &read.kept, report),
        Trouble::Litmus => {
            if let Some(fault) = untold {
                explain_litmus(fault, &read.kept, report);
            }
        }
        Trouble::NoOrder(_) | Trouble::Unordered(_) => {
            explain_disorder(trouble, &read.kept, report);
        }
        Trouble::Nothing | Trouble::Illegal(_) | Trouble::Undecided(_) => {}
    }
}

// Tells of an error in the text with this name, in these words.
fn report_error<'a, R, E: Write>(
    asks: Asks<'_>,
    trouble: Trouble,
    untold: Option<TestFault>,
    read: &Keeping<R>,
    name: &'a str,
    words: &'a str,
    errors: &'a mut E,
) {
    let (line, what) = parts_of(words);
    let mut report = Report::new(errors, name, line, what, asks.is_coloured);
    match trouble {
        Trouble::Illegal(number) => {
            show_request(number, &read.kept, &mut report);
            if asks.may_place {
                tell_of_places(number, &read.kept, &mut report);
            }
        }
        Trouble::Undecided(number) => {
            show_request(number, &read.kept, &mut report);
            tell_undecided(&mut report);
        }
        _ if asks.explains => explain_more(asks, trouble, untold, read, &mut report),
        _ => {}
    }
    report.end();
}

// Tells of an error in a text: of the list that is read beside the text, where the words say so.
fn tell_error<R, E: Write>(
    asks: Asks<'_>,
    trouble: Trouble,
    untold: Option<TestFault>,
    read: &Keeping<R>,
    errors: &mut E,
) {
    let told = words_of(trouble, untold);
    let words = told.as_str();
    match words.strip_prefix("counts: ") {
        Some(rest) => report_error(asks, trouble, untold, read, list_told(asks), rest, errors),
        None => report_error(
            asks,
            trouble,
            untold,
            read,
            name_told(asks.file),
            words,
            errors,
        ),
    }
}

// The number of the line at which a text ended early.
fn end_of(trouble: Trouble) -> u64 {
    match trouble {
        Trouble::Fault(TraceFault::BadLine(number)) | Trouble::Fault(TraceFault::TooLong(number)) =>
            number,
        Trouble::Fault(_) | Trouble::History(_) | Trouble::Litmus => 0,
        Trouble::Nothing
        | Trouble::Illegal(_)
        | Trouble::Undecided(_)
        | Trouble::NoOrder(_)
        | Trouble::Unordered(_) => u64::MAX,
    }
}

// Tells how a task ended, and why nothing is told of a litmus test.
pub(crate) fn tell_end<L, R, W: Output, E: Write>(
    alloc: Global,
    asks: Asks<'_>,
    trouble: Trouble,
    untold: Option<TestFault>,
    list: &Keeping<L>,
    read: &Keeping<R>,
    out: &W,
    errors: &mut E,
) {
    if let Some(fault) = failed(trouble, untold) {
        tell_failed(asks, fault, list, read, out, errors);
        return;
    }
    let is_silent = matches!(trouble, Trouble::NoOrder(_) | Trouble::Unordered(_))
        && !asks.explains;
    if !is_silent && !matches!(trouble, Trouble::Nothing) {
        tell_error(asks, trouble, untold, read, errors);
    }
    if asks.explains {
        let place = Place {
            name: name_told(asks.file),
            number: end_of(trouble),
            is_coloured: asks.is_coloured,
        };
        tell_notes(asks.manner.kind, place, &read.kept, errors);
        if asks.has_clauses {
            warn_of_unmet(alloc, place.name, asks.is_coloured, &read.kept, errors);
        }
    }
}
