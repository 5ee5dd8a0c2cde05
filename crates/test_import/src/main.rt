//! Logs of real programs, imported and replayed.
//!
//! Told are how many lines became what, and what the replies were. There are five logs of strace, each behind the
//! list of mappings that its program began with, and one of lackey, of touch.c. The numbers in the file stdout are
//! counted out of the logs by `bench/import_counts.py`, which shares nothing with the program.
#![tactic(auto)]

use import_lackey::traced::trace_log;
use import_log::entries::Entries;
use import_log::mapped::{MapsReport, import_mapped};
use import_log::processes::Choice;
use import_steps::counts::LineCounts;
use import_steps::meter::Unmetered;
use std::alloc::Global;
use std::fs::File;
use std::io::Write;
use std::process::ExitCode;
use trace::replay::replay;
use trace_io::sink::TrackedSink;
use trace_io::source::{Counted, read_all};
use trace_words::show::Show;

// How many lines of a text begin with an address, are `done`, are a byte, and are anything else.
#[derive(Clone, Copy)]
struct Replies {
    addresses: u64,
    done: u64,
    bytes: u64,
    refused: u64,
}

// The bytes of the file of this name, if it can be read.
fn bytes_of(rt: &HostRuntime, alloc: Global, name: &str) -> Option<Vec<u8>> {
    let Ok(file) = File::open(rt, name) else {
        return None;
    };
    let mut file = Counted::new(file);
    match read_all(alloc, &mut file) {
        Ok(bytes) => Some(bytes),
        Err(_) => None,
    }
}

// What a list and a log become, and what becomes of their lines.
fn imported(
    alloc: Global,
    list: &[u8],
    log: &[u8],
    thread: Option<u64>,
) -> Option<(Vec<u8>, MapsReport)> {
    let mut list = Counted::new(list);
    let mut log = Counted::new(log);
    let mut out = TrackedSink::unbuffered(alloc, Vec::new(alloc));
    let choice = Choice {
        thread,
        joined: false,
        from_empty: false,
    };
    match import_mapped(alloc, &mut list, &mut log, &mut out, choice, &mut Unmetered) {
        Ok(told) => Some((out.writer.into_parts().0, told)),
        Err(_) => None,
    }
}

// What a log of accesses becomes, and what becomes of its lines.
fn traced(alloc: Global, log: &[u8]) -> Option<(Vec<u8>, LineCounts)> {
    let mut log = Counted::new(log);
    let mut out = TrackedSink::unbuffered(alloc, Vec::new(alloc));
    match trace_log(alloc, &mut log, &mut out) {
        Ok(told) => Some((out.writer.into_parts().0, told.counts)),
        Err(_) => None,
    }
}

// The replies of the trace's requests, if it is replayed to its end.
fn replied(alloc: Global, trace: &[u8]) -> Option<Vec<u8>> {
    let mut trace = Counted::new(trace);
    let mut out = TrackedSink::unbuffered(alloc, Vec::new(alloc));
    match replay(alloc, &mut trace, &mut out, Show::Outcomes) {
        Ok(()) => Some(out.writer.into_parts().0),
        Err(_) => None,
    }
}

// Whether the line is a number.
fn is_byte(line: &[u8]) -> bool {
    match line.first() {
        Some(byte) => *byte >= b'0' && *byte <= b'9',
        None => false,
    }
}

// Counts the lines of replies.
fn count(replies: &[u8]) -> Replies {
    let mut counts = Replies {
        addresses: 0,
        done: 0,
        bytes: 0,
        refused: 0,
    };
    for line in replies.split(|byte| *byte == b'\n') {
        if line.starts_with(b"0x") {
            counts.addresses = counts.addresses.saturating_add(1);
        } else if line == b"done".as_slice() {
            counts.done = counts.done.saturating_add(1);
        } else if is_byte(line) {
            counts.bytes = counts.bytes.saturating_add(1);
        } else if !line.is_empty() {
            counts.refused = counts.refused.saturating_add(1);
        }
    }
    counts
}

// Prints what became of a list's lines.
fn tell_entries<W: Write>(out: &mut W, name: &str, entries: &Entries) {
    let Entries {
        kept,
        changed,
        kernel,
        outside,
        unread,
    } = *entries;
    let _ = writeln!(
        out,
        "{name} maps: kept {kept}, changed {changed}, kernel {kernel}, outside {outside}, unread {unread}"
    );
}

// Prints what became of a log's lines.
fn tell_counts<W: Write>(out: &mut W, name: &str, counts: &LineCounts) {
    let (kept, heap, moves, files) = (counts.kept, counts.heap, counts.moves, counts.files);
    let (cleared, half) = (counts.cleared, counts.half);
    let (failed, elsewhere) = (counts.failed, counts.elsewhere);
    let (before, unread, still) = (counts.before, counts.unread, counts.still);
    let other = counts.other.saturating_add(counts.begins);
    let drops = counts.lost.drops;
    let _ = writeln!(
        out,
        "{name} log: kept {kept}, heap {heap}, moves {moves}, files {files}, cleared {cleared}, half {half}, failed {failed}, elsewhere {elsewhere}"
    );
    let _ = writeln!(
        out,
        "{name} log: before {before}, unread {unread}, still {still}, drops {drops}, other {other}"
    );
}

// Prints how many replies were what.
fn tell_replies<W: Write>(out: &mut W, name: &str, replies: Replies) {
    let Replies {
        addresses,
        done,
        bytes,
        refused,
    } = replies;
    let _ = writeln!(
        out,
        "{name} replies: addresses {addresses}, done {done}, bytes {bytes}, refused {refused}"
    );
}

// Imports and replays the log of this program, and prints what comes of it; `None` where it can't
// be read, imported or replayed.
fn try_log<W: Write>(
    rt: &HostRuntime,
    alloc: Global,
    out: &mut W,
    (name, list, log, thread): (&str, &str, &str, Option<u64>),
) -> Option<()> {
    let list = bytes_of(rt, alloc, list)?;
    let log = bytes_of(rt, alloc, log)?;
    let (trace, told) = imported(alloc, list.as_slice(), log.as_slice(), thread)?;
    let replies = replied(alloc, trace.as_slice())?;
    tell_entries(out, name, &told.entries);
    tell_counts(out, name, &told.report.counts);
    tell_replies(out, name, count(replies.as_slice()));
    Some(())
}

// Traces and replays this log of accesses, and prints what comes of it; `None` where it can't be
// read, traced or replayed.
fn try_accesses<W: Write>(
    rt: &HostRuntime,
    alloc: Global,
    out: &mut W,
    (name, log): (&str, &str),
) -> Option<()> {
    let log = bytes_of(rt, alloc, log)?;
    let (trace, counts) = traced(alloc, log.as_slice())?;
    let replies = replied(alloc, trace.as_slice())?;
    tell_counts(out, name, &counts);
    tell_replies(out, name, count(replies.as_slice()));
    Some(())
}

// The last log has several processes, of which the list is of the first.
const PROGRAMS: [(&str, &str, &str, Option<u64>); 5] = [
    ("heap", "heap.maps", "heap.log", None),
    ("ls", "ls.maps", "ls.log", None),
    ("python", "python.maps", "python.log", None),
    ("node", "node.maps", "node.log", None),
    ("gcc", "gcc.maps", "gcc.log", Some(14096)),
];

fn main(rt: HostRuntime) -> ExitCode {
    let alloc = rt.alloc();
    let mut out = rt.stdout();
    for program in PROGRAMS {
        if try_log(&rt, alloc, &mut out, program).is_none() {
            return ExitCode::FAILURE;
        }
    }
    if try_accesses(&rt, alloc, &mut out, ("touch", "touch.log")).is_none() {
        return ExitCode::FAILURE;
    }
    ExitCode::SUCCESS
}
