//! A list of mappings and a log are read whole, and the calls of a process are written with their replies.
ghost use Rattle.std.specs.Prelude.{◌≡◌, ◌⊎◌, ◌++◌, ◌<◌, ◌≤◌, ◌^◌, ℕ, Err, IfOk, List, OnOk, false, length, map, true};
ghost use Rattle.std.specs.List.{flat_map};
ghost use Rattle.import_lines.specs.LogLines.{IsRead};
ghost use Rattle.import_log.specs.Entries.{total as entries_total};
ghost use Rattle.import_log.specs.Imported.{chosen_all, ending_all, import_all, processes_all};
ghost use Rattle.import_log.specs.Mapped.{TellsMaps};
ghost use Rattle.import_log.specs.Starting.{start_of};
ghost use Rattle.import_steps.specs.Counts.{total};
ghost use Rattle.import_steps.specs.Taking.{so_far};
ghost use Rattle.trace_io.specs.Io.{TellsSent, read_from, written_to};
ghost use Rattle.trace_io.specs.Lines.{lines_of};
ghost use Rattle.trace_io.specs.Source.{Reads};
ghost use Rattle.word_import.specs.Replied.{AreTexts, are_timed, are_whole, call_line, clock_of, clock_text, ending_replied, interval_text};
ghost use Rattle.word_import.specs.Replied.{is_broken, is_timed, line_text, replies_by};
ghost use Rattle.word_import.specs.Replied.{replies_by_lines, replies_made, replies_or_none, replies_text};
ghost use Rattle.import_lackey.specs.Replies.{replied_so_far};
ghost use Rattle.word_import.specs.Replying.{RepliesEnd, ReportsLines, TellsReplies};

use crate::replied::{LogLine, RepliedLog, is_broken, list_lines, replies_at_start, reply_lines};
use import_lackey::replies::{CallTimes, Interval, RepliedCall, Replies};
use import_lines::joining::Room;
use import_lines::log_lines::StraceLog;
use import_lines::made::all_makings;
use import_lines::reading::hear_text;
use import_lines::threads::ThreadLines;
use import_log::entries::Entries;
use import_log::import::{Ending, Refusal, Report, import_lines};
use import_log::mapped::MapsReport;
use import_log::owned::{OwnedLines, own_lines};
use import_log::processes::Choice;
use import_log::starting::{Start, read_list};
use import_steps::counts::LineCounts;
use import_steps::meter::Meter;
use import_steps::taking::Taken;
use import_steps::writing::{FRAMES, push_asked, put_first};
use std::alloc::{AllocError, Global};
use trace_io::IoFault;
use trace_io::sink::{Sink, write_out};
use trace_io::source::{Source, read_all};
use trace_text::{LineText, push_number, push_reply};

/// What is said about the replies of a log.
#[derive(Drop)]
pub struct RepliesReport {
    /// What is said about the list and about the log's lines.
    pub told: MapsReport,
    /// How many calls have their replies there.
    pub calls: usize,
    /// What tells when each was made.
    pub clock: ReplyClock,
}

/// What tells when calls were made.
#[derive(Clone, Copy)]
pub enum ReplyClock {
    /// Their times in nanoseconds: each has these.
    Times,
    /// Their order: each stands in one line.
    Order,
    /// Their lines.
    Lines,
}

// Tells whether each call has its times.
fn are_timed(calls: &[RepliedCall]) -> bool
    ensures { result ≡ are_timed calls.now }
{
    let mut at = 0;
    'calls: while at < calls.len() {
        if calls[at].at.times.is_none() {
            return false;
        }
        at += 1;
    }
    true
}

// Tells whether each call stands in one line.
fn are_whole(calls: &[RepliedCall]) -> bool
    ensures { result ≡ are_whole calls.now }
{
    let mut at = 0;
    'calls: while at < calls.len() {
        let lines = calls[at].at.lines;
        if lines.end.saturating_sub(lines.begin) > 3 {
            return false;
        }
        at += 1;
    }
    true
}

// What tells when these calls were made.
fn clock_of(calls: &[RepliedCall]) -> ReplyClock
    ensures { result ≡ clock_of calls.now }
{
    if are_timed(calls) {
        ReplyClock::Times
    } else if are_whole(calls) {
        ReplyClock::Order
    } else {
        ReplyClock::Lines
    }
}

// Replaces the text by when a call was made, each number with a space after it.
fn put_interval(text: &mut LineText, time: Interval)
    ensures bytes { text.new.bytes ≡ interval_text time }
    ensures short { length text.new.bytes ≤ 42 }
{
    text.clear();
    push_number(text, time.begin);
    text.push_str(" ");
    push_number(text, time.end);
    text.push_str(" ");
}

// Replaces the text by when a call was made, by this clock.
fn put_clock(text: &mut LineText, clock: ReplyClock, at: CallTimes)
    ensures bytes { text.new.bytes ≡ clock_text clock at }
    ensures short { length text.new.bytes ≤ 42 }
{
    match clock {
        ReplyClock::Times => put_interval(text, at.times.unwrap_or(at.lines)),
        ReplyClock::Order => text.clear(),
        ReplyClock::Lines => put_interval(text, at.lines),
    }
}

// Replaces the text by the line of a call.
fn put_call(text: &mut LineText, clock: ReplyClock, call: RepliedCall)
    ensures { text.new.bytes ≡ call_line clock call }
{
    put_clock(text, clock, call.at);
    text.push_str("c");
    push_number(text, u64::from(call.core.index()));
    text.push_str("! ");
    push_asked(text, call.request);
    text.push_str(" = ");
    push_reply(text, call.reply);
    text.push_str("\n");
}

// Appends the lines of calls.
fn push_calls(all: &mut Vec<u8>, clock: ReplyClock, calls: &[RepliedCall]) -> Result<(), AllocError>
    ensures { OnOk result (all.new.items ≡ all.old.items ++ flat_map (call_line clock) calls.now) }
{
    let mut text = LineText::new();
    let mut at = 0;
    'calls: while at < calls.len() {
        put_call(&mut text, clock, calls[at]);
        all.extend_from_slice(text.as_str().as_bytes())?;
        at += 1;
    }
    Ok(())
}

// The text of calls with their replies.
fn write_replies(alloc: Global, replies: &Replies) -> Result<Vec<u8>, AllocError>
    ensures { IfOk result (λ all. all.items ≡ replies_text (replied_so_far replies.now)) }
{
    let calls = replies.calls.as_slice();
    let mut all: Vec<u8> = Vec::new(alloc);
    let mut text = LineText::new();
    put_first(&mut text, FRAMES, replies.threads.len(), calls.len());
    all.extend_from_slice(text.as_str().as_bytes())?;
    push_calls(&mut all, clock_of(calls), calls)?;
    Ok(all)
}

// A log that is read.
fn hear_log(alloc: Global, text: &[u8]) -> Result<StraceLog, AllocError>
    ensures { IfOk result (λ log. IsRead (lines_of text.now) log) }
{
    let mut log = StraceLog::new(alloc);
    hear_text(&mut log, text)?;
    Ok(log)
}

// The calls of a process with their replies, of lines with these texts, where no line is broken.
fn reply_whole<'a, M: Meter>(
    alloc: Global,
    start: &Taken,
    choice: Choice,
    raw: &[LogLine<'a>],
    lines: &ThreadLines,
    process: u64,
    meter: &mut M,
) -> Result<RepliedLog, AllocError>
    requires texts { AreTexts (map line_text raw.now) lines.now }
    requires process { process ≡ chosen_all choice lines.now }
    ensures value { IfOk result (λ r. (replied_so_far r.replies, r.counts)
        ≡ replies_by_lines (map line_text raw.now) (so_far start.now) choice lines.now) }
    ensures total { IfOk result (λ r. total r.counts ≡ length lines.now) }
    ensures few { IfOk result (λ r. total r.counts < 2 ^ 64) }
{
    let before = replies_at_start(alloc, start)?;
    let mut room = Room::new(alloc);
    let made = all_makings(alloc, lines, choice.joined, &mut room, meter)?;
    let replied = reply_lines(alloc, &before, raw, lines, &made, process, meter);
    drop(before);
    drop(room);
    drop(made);
    replied
}

// The calls with their replies, none where a line is broken: then these lines are counted.
fn reply_any<'a, M: Meter>(
    alloc: Global,
    start: &Taken,
    choice: Choice,
    raw: &[LogLine<'a>],
    lines: &ThreadLines,
    report: &Report,
    meter: &mut M,
) -> Result<RepliedLog, AllocError>
    requires texts { is_broken (map line_text raw.now) ≡ false → AreTexts (map line_text raw.now) lines.now }
    requires process { report.now.process ≡ chosen_all choice lines.now }
    requires counts { report.now.counts ≡ (import_all (so_far start.now) choice lines.now).1 }
    requires total { total report.now.counts ≡ length lines.now }
    requires few { total report.now.counts < 2 ^ 64 }
    ensures value { IfOk result (λ r. (replied_so_far r.replies, r.counts)
        ≡ replies_or_none (map line_text raw.now) (so_far start.now) choice lines.now) }
    ensures total { IfOk result (λ r. total r.counts ≡ length lines.now) }
    ensures few { IfOk result (λ r. total r.counts < 2 ^ 64) }
{
    if !is_broken(raw) {
        return reply_whole(alloc, start, choice, raw, lines, report.process, meter);
    }
    Ok(RepliedLog {
        replies: Replies::new(alloc),
        counts: report.counts,
    })
}

// Tells whether the calls' times tell when they were made.
fn is_timed(clock: ReplyClock) -> bool
    ensures { result ≡ is_timed clock }
{
    match clock {
        ReplyClock::Times => true,
        ReplyClock::Order | ReplyClock::Lines => false,
    }
}

// How the replies of a log end whose import ends so.
fn ending_replied(broken: bool, late: bool, ending: Ending) -> Ending
    ensures { result ≡ ending_replied broken late ending }
{
    match ending {
        Ending::Written => {
            if broken {
                Ending::Refused(Refusal::Broken)
            } else if late {
                Ending::Refused(Refusal::Untimed)
            } else {
                Ending::Written
            }
        }
        Ending::Nothing => Ending::Nothing,
        Ending::Absent => Ending::Absent,
        Ending::Refused(refusal) => Ending::Refused(refusal),
    }
}

// The text of the replies, where there is one.
fn write_ended(alloc: Global, ending: Ending, replies: &Replies) -> Result<Vec<u8>, AllocError>
    ensures { IfOk result (λ all. all.items ≡ replies_by ending (replied_so_far replies.now)) }
{
    match ending {
        Ending::Written => write_replies(alloc, replies),
        Ending::Nothing | Ending::Absent | Ending::Refused(_) => Ok(Vec::new(alloc)),
    }
}

// The calls with their replies of lines with these texts, and what their import says.
fn reply_owned<'a, M: Meter>(
    alloc: Global,
    start: &Taken,
    choice: Choice,
    raw: &[LogLine<'a>],
    owned: &OwnedLines,
    unread: &[u8],
    meter: &mut M,
) -> Result<(RepliedLog, Report), AllocError>
    requires texts { is_broken (map line_text raw.now) ≡ false → AreTexts (map line_text raw.now) owned.now.lines }
    ensures value { IfOk result (λ r. (replied_so_far r.0.replies, r.0.counts)
        ≡ replies_or_none (map line_text raw.now) (so_far start.now) choice owned.now.lines) }
    ensures ending { IfOk result (λ r. r.1.ending ≡ ending_all owned.now.unclear (so_far start.now) choice owned.now.lines) }
    ensures processes { IfOk result (λ r. r.1.processes.items ≡ processes_all choice.joined owned.now.lines) }
    ensures process { IfOk result (λ r. r.1.process ≡ chosen_all choice owned.now.lines) }
    ensures total { IfOk result (λ r. total r.0.counts ≡ length owned.now.lines) }
    ensures few { IfOk result (λ r. total r.0.counts < 2 ^ 64) }
{
    let lines = &owned.lines;
    let (taken, report) = import_lines(alloc, start, unread, lines, owned.unclear, choice, meter)?;
    drop(taken);
    match reply_any(alloc, start, choice, raw, lines, &report, meter) {
        Ok(replied) => Ok((replied, report)),
        Err(fault) => {
            drop(report);
            Err(fault)
        }
    }
}

// What is said about a list and a log, of which an import says this, but for how it ends and how many lines became what.
fn told_of(entries: Entries, report: Report, counts: LineCounts, ending: Ending) -> MapsReport
    ensures entries { result.entries ≡ entries }
    ensures ending { result.report.ending ≡ ending }
    ensures counts { result.report.counts ≡ counts }
    ensures processes { result.report.processes.items ≡ report.processes.items }
    ensures process { result.report.process ≡ report.process }
{
    let Report {
        processes,
        programs,
        process,
        unread,
        ..
    } = report;
    MapsReport {
        entries,
        report: Report {
            ending,
            counts,
            processes,
            programs,
            process,
            unread,
        },
    }
}

// The replies of lines with these texts, and what is said about that.
fn report_lines<'a, M: Meter>(
    alloc: Global,
    start: &Start,
    choice: Choice,
    several: bool,
    raw: &[LogLine<'a>],
    owned: &OwnedLines,
    unread: &[u8],
    meter: &mut M,
) -> Result<(Vec<u8>, RepliesReport), AllocError>
    requires texts { is_broken (map line_text raw.now) ≡ false → AreTexts (map line_text raw.now) owned.now.lines }
    ensures told { IfOk result (λ r. ReportsLines (map line_text raw.now) (so_far start.now.taken) choice several
        owned.now r.1 r.0.items) }
    ensures entries { IfOk result (λ r. r.1.told.entries ≡ start.now.entries) }
    ensures few { IfOk result (λ r. total r.1.told.report.counts < 2 ^ 64) }
{
    let (replied, report) = reply_owned(alloc, &start.taken, choice, raw, owned, unread, meter)?;
    let calls = replied.replies.calls.as_slice();
    let count = calls.len();
    let clock = clock_of(calls);
    let late = several && !is_timed(clock);
    let ending = ending_replied(is_broken(raw), late, report.ending);
    let text = write_ended(alloc, ending, &replied.replies)?;
    let told = told_of(start.entries, report, replied.counts, ending);
    Ok((
        text,
        RepliesReport {
            told,
            calls: count,
            clock,
        },
    ))
}

// The replies of a log that was heard, whose lines have these texts, and what is said about that.
fn report_heard<'a, M: Meter>(
    alloc: Global,
    start: &Start,
    choice: Choice,
    several: bool,
    raw: &[LogLine<'a>],
    log: StraceLog,
    meter: &mut M,
) -> Result<(Vec<u8>, RepliesReport), AllocError>
    requires { IsRead (map line_text raw.now) log }
    ensures told { IfOk result (λ r. (input : List ℕ) → map line_text raw.now ≡ lines_of input
        → TellsReplies (so_far start.now.taken) choice several input r.1) }
    ensures text { IfOk result (λ r. (input : List ℕ) → map line_text raw.now ≡ lines_of input
        → r.0.items ≡ replies_made (so_far start.now.taken) choice several input) }
    ensures entries { IfOk result (λ r. r.1.told.entries ≡ start.now.entries) }
    ensures few { IfOk result (λ r. total r.1.told.report.counts < 2 ^ 64) }
{
    let StraceLog { lines, unread, .. } = log;
    let owned = own_lines(alloc, lines, meter)?;
    let reported = report_lines(
        alloc,
        start,
        choice,
        several,
        raw,
        &owned,
        unread.as_slice(),
        meter,
    );
    drop(unread);
    drop(owned);
    reported
}

// The replies of a log, and what is said about that.
fn report_log<M: Meter>(
    alloc: Global,
    start: &Start,
    choice: Choice,
    several: bool,
    log: &[u8],
    meter: &mut M,
) -> Result<(Vec<u8>, RepliesReport), AllocError>
    ensures told { IfOk result (λ r. TellsReplies (so_far start.now.taken) choice several log.now r.1) }
    ensures text { IfOk result (λ r. r.0.items ≡ replies_made (so_far start.now.taken) choice several log.now) }
    ensures entries { IfOk result (λ r. r.1.told.entries ≡ start.now.entries) }
    ensures few { IfOk result (λ r. total r.1.told.report.counts < 2 ^ 64) }
{
    let raw = list_lines(alloc, log)?;
    let heard = hear_log(alloc, log)?;
    let reported = report_heard(alloc, start, choice, several, raw.as_slice(), heard, meter);
    drop(raw);
    reported
}

// Writes the replies of a log behind what a list said.
fn write_behind<W: Sink, M: Meter>(
    alloc: Global,
    start: &Start,
    log: &[u8],
    writer: &mut W,
    choice: Choice,
    several: bool,
    meter: &mut M,
) -> Result<RepliesReport, IoFault>
    ensures ends { RepliesEnd (so_far start.now.taken) start.now.entries choice several log.now
        (W.contents writer.old) (W.contents writer.new) result }
    ensures few { IfOk result (λ r. total r.told.report.counts < 2 ^ 64) }
    ensures entries { IfOk result (λ r. r.told.entries ≡ start.now.entries) }
    ensures out { OnOk result (W.is_flushed writer.new ≡ true) }
    ensures read { result ≡ Err IoFault.ReadFailed → ⊥ }
    ensures write { result ≡ Err IoFault.WriteFailed → W.failed writer.new ≡ true }
    ensures kept { (result ≡ Err IoFault.WriteFailed) ⊎ (W.failed writer.new ≡ W.failed writer.old) }
{
    let Ok((text, report)) = report_log(alloc, start, choice, several, log, meter) else {
        return Err(IoFault::NoMemory);
    };
    match write_out(writer, text.as_slice()) {
        Ok(()) => Ok(report),
        Err(_) => Err(IoFault::WriteFailed),
    }
}

// Writes the replies of a log behind what the list says.
fn write_listed<W: Sink, M: Meter>(
    alloc: Global,
    list: &[u8],
    log: &[u8],
    writer: &mut W,
    choice: Choice,
    several: bool,
    meter: &mut M,
) -> Result<RepliesReport, IoFault>
    ensures ends { RepliesEnd (start_of list.now).0 (start_of list.now).1 choice several log.now
        (W.contents writer.old) (W.contents writer.new) result }
    ensures few { IfOk result (λ r. total r.told.report.counts < 2 ^ 64) }
    ensures fewer { IfOk result (λ r. entries_total r.told.entries < 2 ^ 64) }
    ensures out { OnOk result (W.is_flushed writer.new ≡ true) }
    ensures read { result ≡ Err IoFault.ReadFailed → ⊥ }
    ensures write { result ≡ Err IoFault.WriteFailed → W.failed writer.new ≡ true }
    ensures kept { (result ≡ Err IoFault.WriteFailed) ⊎ (W.failed writer.new ≡ W.failed writer.old) }
{
    match read_list(alloc, list) {
        Ok(start) => write_behind(alloc, &start, log, writer, choice, several, meter),
        Err(_) => Err(IoFault::NoMemory),
    }
}

// Reads a log to its end, and writes its replies behind what the list says.
fn reply_behind<S: Source, W: Sink, M: Meter>(
    alloc: Global,
    list: &[u8],
    reader: &mut S,
    writer: &mut W,
    choice: Choice,
    several: bool,
    meter: &mut M,
) -> Result<RepliesReport, IoFault>
    ensures ends { Reads (S.stream reader.old) (S.stream reader.new) (λ input unread.
        RepliesEnd (start_of list.now).0 (start_of list.now).1 choice several input
        (W.contents writer.old) (W.contents writer.new) result) }
    ensures few { IfOk result (λ r. total r.told.report.counts < 2 ^ 64) }
    ensures fewer { IfOk result (λ r. entries_total r.told.entries < 2 ^ 64) }
    ensures told { TellsSent (λ f. f) result (read_from S.Source reader.old reader.new)
        (written_to W.Sink writer.old writer.new) }
{
    match read_all(alloc, reader) {
        Ok(log) => write_listed(alloc, list, log.as_slice(), writer, choice, several, meter),
        Err(fault) => Err(fault),
    }
}

/// Reads a list of mappings and then a log of strace, of one file or of several, both to their ends, and writes the
/// calls of the chosen process with their replies, behind the list's mappings. Answers what is said about both.
/// Nothing is written before all is read and found its memory, and nothing at all where `import_log` would write
/// nothing, a line is broken by a message of strace's, or the log is of several files and some call has no times.
pub fn import_replies<L: Source, S: Source, W: Sink, M: Meter>(
    alloc: Global,
    list: &mut L,
    reader: &mut S,
    writer: &mut W,
    choice: Choice,
    several: bool,
    meter: &mut M,
) -> Result<RepliesReport, IoFault>
    ensures ends { Reads (L.stream list.old) (L.stream list.new) (λ listed left.
        Reads (S.stream reader.old) (S.stream reader.new) (λ input unread.
        RepliesEnd (start_of listed).0 (start_of listed).1 choice several input
        (W.contents writer.old) (W.contents writer.new) result)) }
    ensures few { IfOk result (λ r. total r.told.report.counts < 2 ^ 64) }
    ensures fewer { IfOk result (λ r. entries_total r.told.entries < 2 ^ 64) }
    ensures told { TellsMaps result (read_from L.Source list.old list.new)
        (read_from S.Source reader.old reader.new) (written_to W.Sink writer.old writer.new) }
{
    match read_all(alloc, list) {
        Ok(listed) => reply_behind(
            alloc,
            listed.as_slice(),
            reader,
            writer,
            choice,
            several,
            meter,
        ),
        Err(fault) => Err(fault),
    }
}
