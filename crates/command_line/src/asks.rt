//! What the words ask for, as far as something is said about it: how the text is read, and how much of it is kept for
//! that.
ghost use Rattle.std.specs.Prelude.{◌≡◌};

use crate::telling::tell_of_terminal;
use crate::terminals::Terminals;
use litmus::{Listing, LitmusAsk};
use machine_model::CallLimit;
use std::io::Write;
use trace_words::show::Show;
use word_faults::explain::Manner;
use word_faults::forms::TextKind;
use word_grammar::{Command, Work};
use word_parts::asked::Drawing;
use word_parts::keeping::Keeps;

// What the words ask for, as far as something is said about it.
#[derive(Clone, Copy)]
pub(crate) struct Asks<'a> {
    // The names of the text's file, of the list of mappings or an order that is read, of an order that is written, and
    // of the folder that traces are written to, where there are any.
    pub file: Option<&'a str>,
    pub maps: Option<&'a str>,
    pub order: Option<&'a str>,
    pub folder: Option<&'a str>,
    // A line of the text, where one is read.
    pub example: Option<&'static str>,
    // How the text is read, whether more is said of an error than its place, and whether in colours.
    pub manner: Manner,
    pub explains: bool,
    pub is_coloured: bool,
    // Whether it is a litmus test whose clauses are looked at.
    pub has_clauses: bool,
    // Whether replies are judged, and mappings may have only the first place.
    pub may_place: bool,
    // How much of it is kept for that.
    pub keeps: Keeps,
}

// How the text of this work is read.
fn manner_of(work: Work) -> Manner {
    let (kind, limit, may_be_long) = match work {
        Work::Replay(shows) if shows.show == Show::OutcomesAndLog => {
            (TextKind::Trace, CallLimit::Usual, false)
        }
        Work::Replay(shows) => (
            TextKind::Trace,
            shows.limit,
            shows.limit == CallLimit::Usual,
        ),
        Work::Echo { logs: true, .. } => (TextKind::Trace, CallLimit::Usual, false),
        Work::Echo { limit, .. } => (TextKind::Trace, limit, limit == CallLimit::Usual),
        Work::Certify => (TextKind::Notes, CallLimit::Usual, false),
        Work::Live { .. } | Work::CertifyLive { .. } | Work::LiveHistory { .. } | Work::ShareLive =>
            (TextKind::Script, CallLimit::Usual, false),
        Work::Audit(_) | Work::AuditAll(_) | Work::Overlapping { .. } | Work::ByKernel { .. } => {
            (TextKind::Replies, CallLimit::Usual, false)
        }
        Work::Picture(Drawing::Listing(limit)) => (
            TextKind::Trace,
            limit,
            limit == CallLimit::Usual,
        ),
        Work::Picture(Drawing::Lives) => (TextKind::Trace, CallLimit::Long, false),
        Work::Picture(_)
        | Work::Litmus { .. }
        | Work::PictureWitness(_)
        | Work::Import(_)
        | Work::ImportReplies { .. }
        | Work::ImportEach
        | Work::ImportAccesses => { (TextKind::Trace, CallLimit::Usual, false) }
    };
    Manner {
        kind,
        limit,
        may_be_long,
    }
}

// The first line of a text, or a line of a log, as this work reads it.
fn example_of(work: Work) -> &'static str {
    match work {
        Work::Certify => "vm 1 4 4096",
        Work::Import(_) | Work::ImportReplies { .. } | Work::ImportEach =>
            "10 munmap(0x7f0000000000, 4096) = 0",
        Work::ImportAccesses => " L 04001000,8",
        Work::Live { .. }
        | Work::CertifyLive { .. }
        | Work::LiveHistory { .. }
        | Work::ShareLive
        | Work::Replay(_)
        | Work::Echo { .. }
        | Work::Picture(_)
        | Work::Litmus { .. }
        | Work::PictureWitness(_)
        | Work::Audit(_)
        | Work::AuditAll(_)
        | Work::Overlapping { .. }
        | Work::ByKernel { .. } => "vm 1 4",
    }
}

// Whether the text is a litmus test whose clauses are looked at.
fn has_clauses(work: Work) -> bool {
    matches!(
        work,
        Work::Litmus {
            wanted: LitmusAsk::Outcomes(Listing::Report),
            ..
        }
    )
}

// Whether replies are judged, and mappings may have only the first place.
fn is_first_place(work: Work) -> bool {
    match work {
        Work::Audit(terms) | Work::AuditAll(terms) => !terms.any_place,
        _ => false,
    }
}

// How much of the text is kept: all of one that is read whole before it is acted on, since its lines are told of once
// all is read.
fn keeps_of(work: Work, explains: bool) -> Keeps {
    match work {
        Work::Audit(_) | Work::AuditAll(_) => Keeps::All,
        Work::Overlapping { .. } | Work::ByKernel { .. } | Work::Picture(_) if explains =>
            Keeps::All,
        Work::Import(_) | Work::ImportReplies { .. } | Work::ImportEach | Work::ImportAccesses =>
            Keeps::Nothing,
        _ if explains => Keeps::End,
        _ => Keeps::Nothing,
    }
}

// What is said beside this task; colours are those of standard error.
pub(crate) fn asks_of<'a>(task: Command<'a>, is_coloured: bool) -> Asks<'a>
    ensures order { result.order ≡ task.entry.order }
    ensures folder { result.folder ≡ task.entry.folder }
    ensures maps { result.maps ≡ task.entry.maps }
    ensures file { result.file ≡ task.entry.file }
{
    let explains = !task.is_brief;
    Asks {
        file: task.file,
        maps: task.maps,
        order: task.order,
        folder: task.folder,
        example: Some(example_of(task.work)),
        manner: manner_of(task.work),
        explains,
        is_coloured,
        has_clauses: has_clauses(task.work),
        may_place: explains && is_first_place(task.work),
        keeps: keeps_of(task.work, explains),
    }
}

// The name by which the text is told of.
pub(crate) fn name_told<'a>(file: Option<&'a str>) -> &'a str {
    match file {
        None | Some("-") => "standard input",
        Some(name) => name,
    }
}

// Says that lines are read from the terminal, where they are.
pub(crate) fn greet<E: Write>(asks: Asks<'_>, terminals: Terminals, errors: &mut E) {
    if terminals.input
        && matches!(asks.file, None | Some("-"))
        && let Some(example) = asks.example
    {
        tell_of_terminal(example, errors);
    }
}
