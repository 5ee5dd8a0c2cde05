//! A log, line by line, to the calls of a process with their replies.
ghost use Rattle.std.specs.Prelude.{◌≡◌, ◌+◌, ◌<◌, ◌≤◌, ◌^◌, IfOk, OnOk, length, map};
ghost use Rattle.import_lines.specs.Joining.{speech_at};
ghost use Rattle.import_lines.specs.LogLines.{spoken_whole};
ghost use Rattle.import_steps.specs.Counts.{total};
ghost use Rattle.import_steps.specs.Taking.{so_far};
ghost use Rattle.trace_io.specs.Lines.{lines_of};
ghost use Rattle.word_import.specs.Replied.{AreTexts, is_broken, line_at, line_clock, line_text, lines_between, listed_replied, mapping_there, replied};
ghost use Rattle.word_import.specs.Replied.{replied_if, replies_at_start, times_at, times_between, times_listed};
ghost use Rattle.import_lackey.specs.Replies.{replied_so_far};

use crate::times::{began_ns, took_ns};
use import_forms::said::read_call;
use import_lackey::replies::{CallTimes, Interval, Replies, answer, reply_said};
use import_lines::log_lines::read_text;
use import_lines::made::{Made, fork_of};
use import_lines::returning::{began_place, put_returned};
use import_lines::threads::ThreadLines;
use import_log::import::{end_of, half_at, is_ours};
use import_log::processes::{look, recall};
use import_steps::counts::LineCounts;
use import_steps::meter::{Meter, tell_of};
use import_steps::taking::{Fate, Reason, Taken};
use std::alloc::{AllocError, Global};
use trace_io::lines::front_line;
use vm_base::{Flags, Prot, Reply, Request};

/// A line of a log, as it stands there.
#[derive(Clone, Copy)]
pub struct LogLine<'a> {
    /// Its text.
    pub text: &'a [u8],
}

/// The lines of a log.
pub fn list_lines<'a>(alloc: Global, log: &'a [u8]) -> Result<Vec<LogLine<'a>>, AllocError>
    ensures { IfOk result (λ all. map line_text all.items ≡ lines_of log.now) }
{
    let mut all: Vec<LogLine<'a>> = Vec::new(alloc);
    let mut rest = log;
    'lines: while !rest.is_empty() {
        let (text, more) = front_line(rest);
        all.push(LogLine { text })?;
        rest = more;
    }
    Ok(all)
}

/// Tells whether a message of strace's stands within a line.
pub fn is_broken<'a>(raw: &[LogLine<'a>]) -> bool
    ensures { result ≡ is_broken (map line_text raw.now) }
{
    let mut at = 0;
    'lines: while at < raw.len() {
        let (_, front) = read_text(raw[at].text);
        if front.len() != 0 {
            return true;
        }
        at += 1;
    }
    false
}

// What this line says.
fn text_at<'a>(raw: &[LogLine<'a>], place: usize) -> &'a [u8]
    requires { place < length raw.now }
    ensures { result.now ≡ (spoken_whole (line_at (map line_text raw.now) place)).1 }
{
    let (speech, _) = read_text(raw[place].text);
    speech.text
}

// A line as a time, after this many others.
fn line_clock(shift: usize, line: usize) -> u64
    ensures value { result ≡ line_clock (shift + line) }
    ensures early { result ≤ 2 ^ 63 }
{
    (shift as u64)
        .saturating_add(line as u64)
        .min(2_305_843_009_213_693_952)
        * 4
}

// From one line to another as a time.
fn lines_between(shift: usize, first: usize, last: usize) -> Interval
    ensures { result ≡ lines_between shift first last }
{
    Interval {
        begin: line_clock(shift, first),
        end: line_clock(shift, last) + 3,
    }
}

// From the time before the first line's call on, for as long as the last line says.
#[tactic(auto, unfolding(crate::specs::Replied::times_between))]
fn times_between(first: &[u8], last: &[u8]) -> Option<Interval>
    ensures { result ≡ times_between first.now last.now }
{
    let begin = began_ns(first)?;
    let took = took_ns(last)?;
    Some(Interval {
        begin,
        end: begin + took + 3,
    })
}

// When the call was made that returns at this line, which has this text.
fn times_at<'a>(
    raw: &[LogLine<'a>],
    shift: usize,
    lines: &ThreadLines,
    place: usize,
    line: &[u8],
) -> CallTimes
    requires place { place < length lines.now }
    requires texts { AreTexts (map line_text raw.now) lines.now }
    requires line { line.now ≡ (speech_at lines.now place).1 }
    ensures { result ≡ times_at (map line_text raw.now) shift lines.now place }
{
    let first = began_place(lines, place, line);
    CallTimes {
        lines: lines_between(shift, first, place),
        times: times_between(raw[first].text, raw[place].text),
    }
}

// Adds the call that returns at this line, if it is of the process.
fn reply_line<'a>(
    alloc: Global,
    start: &Replies,
    replies: &mut Replies,
    raw: &[LogLine<'a>],
    lines: &ThreadLines,
    is_ours: bool,
    place: usize,
    text: &mut Vec<u8>,
) -> Result<Fate, AllocError>
    requires place { place < length lines.now }
    requires texts { AreTexts (map line_text raw.now) lines.now }
    ensures { IfOk result (λ fate. (replied_so_far replies.new, fate)
        ≡ replied_if is_ours (map line_text raw.now) (replied_so_far start.now)
        (replied_so_far replies.old) lines.now place) }
{
    if !is_ours {
        return Ok(Fate::Left(Reason::Elsewhere));
    }
    let line = text_at(raw, place);
    if !put_returned(lines, place, line, text)? {
        return Ok(Fate::Left(half_at(lines, place)));
    }
    let at = times_at(raw, start.calls.len(), lines, place, line);
    let said = read_call(text.as_slice());
    reply_said(
        alloc,
        start,
        replies,
        lines.thread(place),
        at,
        text.as_slice(),
        said,
    )
}

// Adds the calls of all lines of this process, where no line is heard yet.
fn reply_each<'a, M: Meter>(
    alloc: Global,
    start: &Replies,
    replies: &mut Replies,
    raw: &[LogLine<'a>],
    lines: &ThreadLines,
    made: &Made,
    process: u64,
    meter: &mut M,
) -> Result<LineCounts, AllocError>
    requires start { replied_so_far replies.old ≡ replied_so_far start.now }
    requires texts { AreTexts (map line_text raw.now) lines.now }
    ensures value { IfOk result (λ counts. (replied_so_far replies.new, counts)
        ≡ replied (map line_text raw.now) (replied_so_far start.now) lines.now made.now process (length lines.now)) }
    ensures total { IfOk result (λ counts. total counts ≡ length lines.now) }
    ensures few { IfOk result (λ counts. total counts < 2 ^ 64) }
{
    let mut text: Vec<u8> = Vec::new(alloc);
    let mut counts = LineCounts::new();
    let mut known = look(made, 0);
    let own = fork_of(made, process);
    let end = end_of(lines, made, process);
    let mut at = 0;
    'lines: while at < lines.len() {
        tell_of(meter, 4, at, lines.len());
        known = recall(made, known, lines.thread(at));
        let is_ours = is_ours(made, known, at, process, own, end);
        let fate = reply_line(alloc, start, replies, raw, lines, is_ours, at, &mut text)?;
        counts = counts.and(fate);
        at += 1;
    }
    Ok(counts)
}

/// The calls of a process with their replies, and how many lines became what.
#[derive(Drop)]
pub struct RepliedLog {
    /// The calls.
    pub replies: Replies,
    /// How many lines became what.
    pub counts: LineCounts,
}

/// The calls of all lines of this process with their replies, after what is there at the start.
pub fn reply_lines<'a, M: Meter>(
    alloc: Global,
    start: &Replies,
    raw: &[LogLine<'a>],
    lines: &ThreadLines,
    made: &Made,
    process: u64,
    meter: &mut M,
) -> Result<RepliedLog, AllocError>
    requires texts { AreTexts (map line_text raw.now) lines.now }
    ensures value { IfOk result (λ r. (replied_so_far r.replies, r.counts)
        ≡ replied (map line_text raw.now) (replied_so_far start.now) lines.now made.now process (length lines.now)) }
    ensures total { IfOk result (λ r. total r.counts ≡ length lines.now) }
    ensures few { IfOk result (λ r. total r.counts < 2 ^ 64) }
{
    let mut replies = start.copy(alloc)?;
    match reply_each(alloc, start, &mut replies, raw, lines, made, process, meter) {
        Ok(counts) => Ok(RepliedLog { replies, counts }),
        Err(fault) => {
            drop(replies);
            Err(fault)
        }
    }
}

// When a mapping of a list was made, after this many others.
fn times_listed(count: usize) -> CallTimes
    ensures { result ≡ times_listed count }
{
    CallTimes {
        lines: lines_between(0, count, count),
        times: Some(lines_between(0, count, count)),
    }
}

// Adds a mapping that was there, as a call of the first core.
fn reply_mapped(
    alloc: Global,
    replies: &mut Replies,
    addr: u64,
    len: u64,
    prot: Prot,
    flags: Flags,
) -> Result<(), AllocError>
    ensures { OnOk result (replied_so_far replies.new
        ≡ mapping_there (replied_so_far replies.old) addr len prot flags) }
{
    let at = times_listed(replies.calls.len());
    let asked = Request::Mmap {
        addr,
        len,
        prot,
        flags: Flags {
            private: flags.private,
            shared: flags.shared,
            fixed: flags.fixed,
            anon: true,
        },
        file: 0,
        off: 0,
    };
    answer(alloc, replies, 0, at, asked, Reply::Mapped(addr))
}

// Adds a mapping of a list, as a call of the first core.
fn reply_listed(alloc: Global, replies: &mut Replies, request: Request) -> Result<(), AllocError>
    ensures { OnOk result (replied_so_far replies.new ≡ listed_replied (replied_so_far replies.old) request) }
{
    match request {
        Request::Mmap {
            addr,
            len,
            prot,
            flags,
            ..
        } => reply_mapped(alloc, replies, addr, len, prot, flags),
        Request::Munmap { .. }
        | Request::Mprotect { .. }
        | Request::Load { .. }
        | Request::Store { .. }
        | Request::Fetch { .. } => Ok(()),
    }
}

/// What is there at the start, by what a list said.
pub fn replies_at_start(alloc: Global, taken: &Taken) -> Result<Replies, AllocError>
    ensures { IfOk result (λ r. replied_so_far r ≡ replies_at_start (so_far taken.now)) }
{
    let steps = taken.steps.list(alloc)?;
    let mut replies = Replies::new(alloc);
    replies.heap_end = taken.heap_end;
    let mut at = 0;
    'steps: while at < steps.len() {
        reply_listed(alloc, &mut replies, steps[at].request)?;
        at += 1;
    }
    Ok(replies)
}
