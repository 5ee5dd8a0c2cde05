//! What more is told of a history: why a text is none, and where no order of its calls was found.

use crate::explain::{Manner, explain_bad, explain_whole, is_timed};
use crate::forms::TextKind;
use machine_model::CallLimit;
use orders_text::HistoryFault;
use std::io::Write;
use trace_text::is_printable;
use trace_text::number::read_number;
use word_parts::ended::Trouble;
use word_parts::keeping::KeptText;
use word_parts::pointing::{Report, word_at, word_start};

// How lines of this kind are read.
fn manner(kind: TextKind) -> Manner {
    Manner {
        kind,
        limit: CallLimit::Usual,
        may_be_long: false,
    }
}

// Shows the line with this number.
fn show_number<E: Write>(number: u64, kept: &KeptText, report: &mut Report<'_, E>) {
    if let Some(line) = kept.line(number) {
        report.show(line);
    }
}

// Tells of a bad line that begins with a number.
fn explain_timed<E: Write>(line: &[u8], report: &mut Report<'_, E>) {
    if !is_timed(line) {
        report.point(line, word_start(line, 1));
        report.expect("END, a number below 2^64, after BEGIN");
        return;
    }
    if !word_at(line, 2).ends_with(b"!") {
        report.point(line, word_start(line, 2));
        report.expect("cC! after BEGIN and END: C is a core's number, 0 to 63");
        return;
    }
    explain_whole(manner(TextKind::Timed), line, report);
}

// Tells of a bad line.
fn explain_line<E: Write>(line: &[u8], report: &mut Report<'_, E>) {
    if is_printable(line) && read_number(word_at(line, 0)).is_some() {
        explain_timed(line, report);
    } else {
        explain_bad(manner(TextKind::Replies), line, report);
    }
    report.tell("a call is BEGIN END cC! REQ = REPLY: 10 14 c0! munmap 0x10000 4096 = done");
}

/// Writes what is known of a fault and its place: its lines, and what was expected.
pub fn explain_history<E: Write>(fault: HistoryFault, kept: &KeptText, report: &mut Report<'_, E>) {
    match fault {
        HistoryFault::BadLine(number) => {
            if let Some(line) = kept.line(number) {
                explain_line(line, report);
            }
        }
        HistoryFault::TooLong(_) => report.expect("at most 512 bytes in a line"),
        HistoryFault::NoVmLine => report.expect("vm CORES FRAMES in front, for example vm 1 4"),
        HistoryFault::Backwards(number) => {
            show_number(number, kept, report);
            report.expect("BEGIN END cC! REQ = REPLY with a BEGIN below its END");
        }
        HistoryFault::Overlap(number, other) => {
            show_number(other, kept, report);
            show_number(number, kept, report);
            report.expect("each call of a core to end below the BEGIN of its next one");
        }
        HistoryFault::Io(_) => {}
    }
}

// Writes the call to whose end no order was found.
fn explain_unordered<E: Write>(number: u64, kept: &KeptText, report: &mut Report<'_, E>) {
    show_number(number, kept, report);
    report.tell("no order of the calls was found that gets to the end of this one, or the");
    report.tell("search met its limit there; nothing is claimed of it");
}

// Writes the call to whose end no order was found, where the calls have none.
fn explain_no_order<E: Write>(number: u64, kept: &KeptText, report: &mut Report<'_, E>) {
    show_number(number, kept, report);
    report.tell("the calls have no order; none was found that gets to the end of this one");
}

/// Writes what is known of calls that have no order, or none that was found.
pub fn explain_disorder<E: Write>(trouble: Trouble, kept: &KeptText, report: &mut Report<'_, E>) {
    match trouble {
        Trouble::NoOrder(number) => explain_no_order(number, kept, report),
        Trouble::Unordered(number) => explain_unordered(number, kept, report),
        _ => {}
    }
}
