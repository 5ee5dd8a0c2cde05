//! A log of strace, line by line, to what is taken of it.
ghost use Rattle.std.specs.Prelude.{◌≡◌, ◌<◌, ◌^◌, IfOk, length, map};
ghost use Rattle.import_lines.specs.Made.{all_makings, fork_of, maker_of, process_of};
ghost use Rattle.import_steps.specs.Counts.{total};
ghost use Rattle.import_log.specs.Imported.{chosen_all, ending_all, import_all, processes_all};
ghost use Rattle.import_log.specs.Imported.{end_of, ending_by, ending_from, half_at, half_begun, imported, is_ours, taken_if, unread_shown};
ghost use Rattle.import_log.specs.Programs.{program_name, programs_all};
ghost use Rattle.import_steps.specs.Taking.{so_far};

use crate::processes::{
    Choice, Known, Process, chosen, is_there, look, read_processes, recall, space_at,
};
use crate::programs::{ProgramFile, read_programs};
use crate::refusing::{asked_any, refusal_for, stray_of};
use import_forms::said::is_known;
use import_forms::speech::begun;
use import_lines::joining::{Room, half_text, next_of, returns_by, told_at};
use import_lines::made::{Made, Making, all_makings, fork_of, past_of, process_of};
use import_lines::threads::ThreadLines;
use import_steps::counts::LineCounts;
use import_steps::meter::{Meter, tell_of};
use import_steps::taking::{Fate, Reason, Taken, take};
use std::alloc::{AllocError, Global};

/// Why a log is refused.
#[derive(Clone, Copy)]
pub enum Refusal {
    /// Neither a list nor the log says what was mapped when the process began.
    Unstarted,
    /// The log doesn't say it of this other process, which may be a thread of the one that is imported.
    Stray(u64),
    /// A call began that never returned, or returned that never began: `strace -z` and `-Z` write such logs, out of
    /// order.
    Torn,
    /// Whose lines they are that name no thread can't be told.
    Unnumbered,
    /// No line names a thread, though one was made that has the same address space.
    Unfollowed,
    /// A message of strace's stands within a line, which only replies can't be told of.
    Broken,
    /// Of several files of one log it isn't known when calls ended, which only replies can't be told of.
    Untimed,
}

/// How an import of a log ended.
#[derive(Clone, Copy)]
pub enum Ending {
    /// There is a trace.
    Written,
    /// Nothing is asked for in the log, or there would be no request in the trace.
    Nothing,
    /// No line is about the thread whose process was asked for.
    Absent,
    /// The log is refused.
    Refused(Refusal),
}

/// What is said about an import of a log.
#[derive(Drop)]
pub struct Report {
    /// How it ended.
    pub ending: Ending,
    /// How many lines were kept, changed and left out.
    pub counts: LineCounts,
    /// The processes of the log, in the order of their first lines.
    pub processes: Vec<Process>,
    /// The programs that they began last, where there are several processes.
    pub programs: Vec<ProgramFile>,
    /// The process that is imported.
    pub process: u64,
    /// The first line that isn't read, 80 bytes at most, where there is no trace.
    pub unread: Vec<u8>,
}

/// What is taken of a log, and what is said about that.
#[derive(Drop)]
pub struct Imported {
    /// What is taken.
    pub taken: Taken,
    /// How many lines were kept, changed and left out.
    pub counts: LineCounts,
}

// Why a line is left out that a call began with, and at which it doesn't act: the call's other half does, if there is
// one.
fn half_begun(front: &[u8], later: &[u8]) -> Reason
    ensures { result ≡ half_begun front.now later.now }
{
    if returns_by(front, later) {
        Reason::Half
    } else if is_known(front) {
        Reason::Unread
    } else {
        Reason::Half
    }
}

/// Why the line is left out, if no call acts at it.
pub fn half_at(lines: &ThreadLines, place: usize) -> Reason
    requires { place < length lines.now }
    ensures { result ≡ half_at lines.now place }
{
    match begun(half_text(lines, place)) {
        Some(front) => half_begun(front, next_of(lines, place, lines.thread(place))),
        None => Reason::Half,
    }
}

/// Where the lines of the process end: behind the last that is of one of its threads.
pub fn end_of(lines: &ThreadLines, made: &Made, process: u64) -> usize
    ensures { result ≡ end_of made.now process lines.now (length lines.now) }
{
    let mut end = lines.len();
    'lines: while end > 0 {
        if process_of(made, lines.thread(end - 1)) == process {
            return end;
        }
        end -= 1;
    }
    0
}

/// Tells whether this line is about the process, of which it is known how it was made and where it ends.
pub fn is_ours(
    made: &Made,
    known: Known,
    line: usize,
    process: u64,
    own: Option<Making>,
    end: usize,
) -> bool
    requires known { known.process ≡ process_of made.now known.thread }
    requires made { known.own ≡ fork_of (maker_of made.now (process_of made.now known.thread)) }
    requires own { own ≡ fork_of (maker_of made.now process) }
    ensures { result ≡ is_ours made.now process end known.thread line }
{
    if line < end {
        space_at(made, known, line) == past_of(made, line, process, own)
    } else {
        false
    }
}

// Takes what this line says, if it is of the process that is imported.
#[tactic(auto, using(crate::proofs::ToldLemmas::taken_told, crate::proofs::ToldLemmas::taken_none))]
fn take_line(
    alloc: Global,
    start: &Taken,
    taken: &mut Taken,
    lines: &ThreadLines,
    is_ours: bool,
    place: usize,
    room: &mut Room,
) -> Result<Fate, AllocError>
    requires { place < length lines.now }
    ensures { IfOk result (λ fate. (so_far taken.new, fate)
        ≡ taken_if is_ours (so_far start.now) (so_far taken.old) lines.now place) }
{
    if !is_ours {
        return Ok(Fate::Left(Reason::Elsewhere));
    }
    let thread = lines.thread(place);
    let Some(said) = told_at(lines, place, room)? else {
        return Ok(Fate::Left(half_at(lines, place)));
    };
    take(alloc, start, taken, thread, room.name.as_slice(), said)
}

// Takes what all lines of this process say, of which nothing is taken yet.
fn take_each<M: Meter>(
    alloc: Global,
    start: &Taken,
    taken: &mut Taken,
    lines: &ThreadLines,
    made: &Made,
    process: u64,
    room: &mut Room,
    meter: &mut M,
) -> Result<LineCounts, AllocError>
    requires { so_far taken.old ≡ so_far start.now }
    ensures value { IfOk result (λ counts. (so_far taken.new, counts)
        ≡ imported (so_far start.now) lines.now made.now process (length lines.now)) }
    ensures total { IfOk result (λ counts. total counts ≡ length lines.now) }
    ensures few { IfOk result (λ counts. total counts < 2 ^ 64) }
{
    let mut counts = LineCounts::new();
    let mut known = look(made, 0);
    let own = fork_of(made, process);
    let end = end_of(lines, made, process);
    let mut at = 0;
    'lines: while at < lines.len() {
        tell_of(meter, 3, at, lines.len());
        known = recall(made, known, lines.thread(at));
        let is_ours = is_ours(made, known, at, process, own, end);
        let fate = take_line(alloc, start, taken, lines, is_ours, at, room)?;
        counts = counts.and(fate);
        at += 1;
    }
    Ok(counts)
}

// Takes what all lines of this process say.
fn take_lines<M: Meter>(
    alloc: Global,
    start: &Taken,
    lines: &ThreadLines,
    made: &Made,
    process: u64,
    room: &mut Room,
    meter: &mut M,
) -> Result<Imported, AllocError>
    ensures value { IfOk result (λ i. (so_far i.taken, i.counts)
        ≡ imported (so_far start.now) lines.now made.now process (length lines.now)) }
    ensures total { IfOk result (λ i. total i.counts ≡ length lines.now) }
    ensures few { IfOk result (λ i. total i.counts < 2 ^ 64) }
{
    let mut taken = start.copy(alloc)?;
    match take_each(alloc, start, &mut taken, lines, made, process, room, meter) {
        Ok(counts) => Ok(Imported { taken, counts }),
        Err(fault) => {
            drop(taken);
            Err(fault)
        }
    }
}

// The first 80 bytes of the first line that isn't read, where an import ends without a trace.
fn copy_unread(alloc: Global, unread: &[u8], ending: Ending) -> Result<Vec<u8>, AllocError>
    ensures { IfOk result (λ line. line.items ≡ unread_shown ending unread.now) }
{
    match ending {
        Ending::Written => Ok(Vec::new(alloc)),
        Ending::Nothing | Ending::Absent | Ending::Refused(_) => Vec::from_slice(alloc, unread),
    }
}

// How an import ended with so many requests, of a log that is refused or not.
fn ending_from(refusal: Option<Refusal>, steps: usize) -> Ending
    ensures { result ≡ ending_from refusal steps }
{
    match refusal {
        Some(refusal) => Ending::Refused(refusal),
        None => {
            if steps == 0 {
                Ending::Nothing
            } else {
                Ending::Written
            }
        }
    }
}

// How an import ended with so many requests, of a log that is refused or not, has lines of the thread or not, and asks
// for something or not.
fn ending_by(refusal: Option<Refusal>, is_there: bool, is_asked: bool, steps: usize) -> Ending
    ensures { result ≡ ending_by refusal is_there is_asked steps }
{
    if !is_there {
        Ending::Absent
    } else if !is_asked {
        Ending::Nothing
    } else {
        ending_from(refusal, steps)
    }
}

// How an import ends of which this is taken.
fn ending_for(
    start: &Taken,
    lines: &ThreadLines,
    unclear: bool,
    choice: Choice,
    made: &Made,
    processes: &[Process],
    process: u64,
    imported: &Imported,
    room: &mut Room,
) -> Result<Ending, AllocError>
    requires made { made.now ≡ all_makings choice.joined lines.now }
    requires processes { processes.now ≡ processes_all choice.joined lines.now }
    requires process { process ≡ chosen_all choice lines.now }
    requires taken { (so_far imported.now.taken, imported.now.counts) ≡ import_all (so_far start.now) choice lines.now }
    ensures { IfOk result (λ ending. ending ≡ ending_all unclear (so_far start.now) choice lines.now) }
{
    let stray = stray_of(lines, made, process, processes, room)?;
    let begins = imported.counts.begins;
    let refusal = refusal_for(lines, made, unclear, choice, stray, start, begins);
    let steps = imported.taken.steps.len();
    Ok(ending_by(
        refusal,
        is_there(choice, lines),
        asked_any(processes),
        steps,
    ))
}

/// Takes what all lines of the chosen process say, and tells how the import ends.
pub(crate) fn take_ended<M: Meter>(
    alloc: Global,
    start: &Taken,
    lines: &ThreadLines,
    unclear: bool,
    choice: Choice,
    made: &Made,
    processes: &[Process],
    process: u64,
    room: &mut Room,
    meter: &mut M,
) -> Result<(Imported, Ending), AllocError>
    requires made { made.now ≡ all_makings choice.joined lines.now }
    requires processes { processes.now ≡ processes_all choice.joined lines.now }
    requires process { process ≡ chosen_all choice lines.now }
    ensures value { IfOk result (λ i. (so_far i.0.taken, i.0.counts) ≡ import_all (so_far start.now) choice lines.now) }
    ensures ending { IfOk result (λ i. i.1 ≡ ending_all unclear (so_far start.now) choice lines.now) }
    ensures total { IfOk result (λ i. total i.0.counts ≡ length lines.now) }
    ensures few { IfOk result (λ i. total i.0.counts < 2 ^ 64) }
{
    let imported = take_lines(alloc, start, lines, made, process, room, meter)?;
    match ending_for(
        start, lines, unclear, choice, made, processes, process, &imported, room,
    ) {
        Ok(ending) => Ok((imported, ending)),
        Err(fault) => {
            drop(imported);
            Err(fault)
        }
    }
}

/// What is taken of a log of strace, beside what is there at the start: what the chosen process asked of its address
/// space, and before it was made its parent of its own, since the last program began. Each line is counted once.
pub fn import_lines<M: Meter>(
    alloc: Global,
    start: &Taken,
    unread: &[u8],
    lines: &ThreadLines,
    unclear: bool,
    choice: Choice,
    meter: &mut M,
) -> Result<(Taken, Report), AllocError>
    ensures value { IfOk result (λ i. (so_far i.0, i.1.counts) ≡ import_all (so_far start.now) choice lines.now) }
    ensures ending { IfOk result (λ i. i.1.ending ≡ ending_all unclear (so_far start.now) choice lines.now) }
    ensures processes { IfOk result (λ i. i.1.processes.items ≡ processes_all choice.joined lines.now) }
    ensures programs { IfOk result (λ i. map program_name i.1.programs.items ≡ programs_all choice.joined lines.now) }
    ensures process { IfOk result (λ i. i.1.process ≡ chosen_all choice lines.now) }
    ensures unread { IfOk result (λ i. i.1.unread.items ≡ unread_shown i.1.ending unread.now) }
    ensures total { IfOk result (λ i. total i.1.counts ≡ length lines.now) }
    ensures few { IfOk result (λ i. total i.1.counts < 2 ^ 64) }
{
    let mut room = Room::new(alloc);
    let made = all_makings(alloc, lines, choice.joined, &mut room, meter)?;
    let processes = read_processes(alloc, lines, &made, &mut room, meter)?;
    let programs = read_programs(alloc, lines, &made, processes.as_slice(), &mut room)?;
    let process = chosen(choice, &made, processes.as_slice());
    let taken = take_ended(
        alloc,
        start,
        lines,
        unclear,
        choice,
        &made,
        processes.as_slice(),
        process,
        &mut room,
        meter,
    );
    drop(made);
    drop(room);
    let (imported, ending) = taken?;
    let Ok(unread) = copy_unread(alloc, unread, ending) else {
        drop(imported);
        drop(programs);
        drop(processes);
        return Err(AllocError);
    };
    let report = Report {
        ending,
        counts: imported.counts,
        processes,
        programs,
        process,
        unread,
    };
    Ok((imported.taken, report))
}
