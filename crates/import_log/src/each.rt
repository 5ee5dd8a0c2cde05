//! One trace for each process of a log.
ghost use Rattle.std.specs.Prelude.{◌≡◌, ◌<◌, ◌^◌, ℕ, All, List, Err, IfOk, false, length, map, nat_eq};
ghost use Rattle.std.specs.HashMap.{get};
ghost use Rattle.import_steps.specs.Counts.{total};
ghost use Rattle.import_log.specs.Each.{EachEnds, only, part_all, parted};
ghost use Rattle.import_log.specs.Imported.{processes_all};
ghost use Rattle.import_log.specs.Owned.{is_unclear, owned};
ghost use Rattle.import_lines.specs.Made.{all_makings};
ghost use Rattle.import_log.specs.Programs.{last_begun, owners};
ghost use Rattle.import_steps.specs.Taking.{nothing_taken, so_far};
ghost use Rattle.import_lines.specs.LogLines.{IsRead};
ghost use Rattle.trace_io.specs.Lines.{lines_of};
ghost use Rattle.trace_io.specs.Source.{HasStopped, Reads};

use crate::import::{Ending, take_ended};
use crate::log::write_ended;
use crate::owned::own_lines;
use crate::processes::{Choice, Process, read_processes};
use crate::programs::{ProgramFile, owners_of, program_of, read_begun};
use import_lines::joining::Room;
use import_lines::lines::KeptLines;
use import_lines::log_lines::StraceLog;
use import_lines::made::{Made, all_makings, process_of};
use import_lines::reading::read_lines;
use import_lines::threads::ThreadLines;
use import_steps::counts::LineCounts;
use import_steps::meter::Meter;
use import_steps::taking::Taken;
use std::alloc::{AllocError, Global};
use std::collections::HashMap;
use trace_io::IoFault;
use trace_io::source::Source;

/// What comes of a log for one of its processes.
#[derive(Drop)]
pub struct ProcessTrace {
    /// The process.
    pub process: Process,
    /// The program that it began last.
    pub program: ProgramFile,
    /// How its import ended.
    pub ending: Ending,
    /// How many lines were kept, changed and left out.
    pub counts: LineCounts,
    /// Its trace, nothing where no request would be in it.
    pub text: Vec<u8>,
}

// The process of this thread alone.
fn only(number: u64) -> Choice
    ensures { result ≡ only number }
{
    Choice {
        thread: Some(number),
        joined: false,
        from_empty: false,
    }
}

// What comes of the lines for this process.
fn part_for<M: Meter>(
    alloc: Global,
    start: &Taken,
    lines: &ThreadLines,
    unclear: bool,
    made: &Made,
    processes: &[Process],
    owned: &[u64],
    begun: &HashMap<u64, usize>,
    process: Process,
    room: &mut Room,
    meter: &mut M,
) -> Result<ProcessTrace, AllocError>
    requires made { made.now ≡ all_makings false lines.now }
    requires processes { processes.now ≡ processes_all false lines.now }
    requires owned { owned.now ≡ owners made.now lines.now }
    requires begun { (q : ℕ) → get nat_eq begun.now q ≡ last_begun lines.now owned.now (length lines.now) q }
    ensures value { IfOk result (λ p. parted p ≡ part_all unclear (so_far start.now) lines.now process) }
    ensures few { IfOk result (λ p. total p.counts < 2 ^ 64) }
{
    let program = program_of(alloc, lines, owned, begun, process.number, room)?;
    let (imported, ending) = take_ended(
        alloc,
        start,
        lines,
        unclear,
        only(process.number),
        made,
        processes,
        process_of(made, process.number),
        room,
        meter,
    )?;
    let counts = imported.counts;
    let written = write_ended(alloc, ending, &imported.taken);
    drop(imported);
    let text = written?;
    Ok(ProcessTrace {
        process,
        program,
        ending,
        counts,
        text,
    })
}

// What comes of the lines for each of these processes.
fn parts_for<M: Meter>(
    alloc: Global,
    start: &Taken,
    lines: &ThreadLines,
    unclear: bool,
    made: &Made,
    processes: &[Process],
    room: &mut Room,
    meter: &mut M,
) -> Result<Vec<ProcessTrace>, AllocError>
    requires made { made.now ≡ all_makings false lines.now }
    requires processes { processes.now ≡ processes_all false lines.now }
    ensures value { IfOk result (λ parts. map parted parts.items
        ≡ map (part_all unclear (so_far start.now) lines.now) processes.now) }
    ensures few { IfOk result (λ parts. All (λ p. total p.counts < 2 ^ 64) parts.items) }
{
    let owned = owners_of(alloc, lines, made)?;
    let begun = read_begun(alloc, lines, owned.as_slice(), room)?;
    let mut parts: Vec<ProcessTrace> = Vec::new(alloc);
    let mut at = 0;
    'processes: while at < processes.len() {
        let process = processes[at];
        let part = part_for(
            alloc,
            start,
            lines,
            unclear,
            made,
            processes,
            owned.as_slice(),
            &begun,
            process,
            room,
            meter,
        )?;
        parts.push(part)?;
        at += 1;
    }
    Ok(parts)
}

// What comes of the lines for each process: what `import_log` writes and says
// where the process is named, and no threads are joined.
fn import_each<M: Meter>(
    alloc: Global,
    start: &Taken,
    lines: &ThreadLines,
    unclear: bool,
    meter: &mut M,
) -> Result<Vec<ProcessTrace>, AllocError>
    ensures value { IfOk result (λ parts. map parted parts.items
        ≡ map (part_all unclear (so_far start.now) lines.now) (processes_all false lines.now)) }
    ensures few { IfOk result (λ parts. All (λ p. total p.counts < 2 ^ 64) parts.items) }
{
    let mut room = Room::new(alloc);
    let made = all_makings(alloc, lines, false, &mut room, meter)?;
    let processes = read_processes(alloc, lines, &made, &mut room, meter)?;
    let parts = parts_for(
        alloc,
        start,
        lines,
        unclear,
        &made,
        processes.as_slice(),
        &mut room,
        meter,
    );
    drop(processes);
    drop(made);
    drop(room);
    parts
}

// What comes of the lines of a log for each process, beside nothing at the start.
fn parts_of_log<M: Meter>(
    alloc: Global,
    lines: KeptLines,
    meter: &mut M,
) -> Result<Vec<ProcessTrace>, AllocError>
    ensures value { IfOk result (λ parts. map parted parts.items
        ≡ map (part_all (is_unclear lines) nothing_taken (owned lines)) (processes_all false (owned lines))) }
    ensures few { IfOk result (λ parts. All (λ p. total p.counts < 2 ^ 64) parts.items) }
{
    let owned = own_lines(alloc, lines, meter)?;
    let parts = import_each(
        alloc,
        &Taken::new(alloc),
        &owned.lines,
        owned.unclear,
        meter,
    );
    drop(owned);
    parts
}

// What comes of a log, beside nothing at the start.
fn parts_in<M: Meter>(
    alloc: Global,
    log: StraceLog,
    meter: &mut M,
) -> Result<Vec<ProcessTrace>, IoFault>
    ensures value { (input : List ℕ) → IsRead (lines_of input) log → EachEnds input result }
    ensures few { IfOk result (λ parts. All (λ p. total p.counts < 2 ^ 64) parts.items) }
    ensures read { result ≡ Err IoFault.ReadFailed → ⊥ }
    ensures write { result ≡ Err IoFault.WriteFailed → ⊥ }
{
    match parts_of_log(alloc, log.lines, meter) {
        Ok(parts) => Ok(parts),
        Err(_) => Err(IoFault::NoMemory),
    }
}

/// Reads a log of strace to its end: what comes of it for each of its processes, in the order of their first lines,
/// beside nothing at the start.
pub fn import_log_each<S: Source, M: Meter>(
    alloc: Global,
    reader: &mut S,
    meter: &mut M,
) -> Result<Vec<ProcessTrace>, IoFault>
    ensures ends { Reads (S.stream reader.old) (S.stream reader.new) (λ input unread. EachEnds input result) }
    ensures few { IfOk result (λ parts. All (λ p. total p.counts < 2 ^ 64) parts.items) }
    ensures read { result ≡ Err IoFault.ReadFailed → HasStopped (S.failed reader.new) (S.reads reader.new) }
    ensures write { result ≡ Err IoFault.WriteFailed → ⊥ }
{
    let mut log = StraceLog::new(alloc);
    match read_lines(alloc, reader, &mut log) {
        Ok(()) => parts_in(alloc, log, meter),
        Err(fault) => Err(fault),
    }
}
