//! Why a log is refused: its lines aren't in order, or it doesn't say with what a process began.
ghost use Rattle.std.specs.Prelude.{◌≡◌, ◌<◌, ◌&&◌, ◌==◌, IfOk, length};
ghost use Rattle.import_lines.specs.Made.{process_of, said_at, starts, thread_at};
ghost use Rattle.import_lines.specs.Torn.{is_torn};
ghost use Rattle.import_log.specs.Imported.{asked_any, begins_in, is_known_start, is_stray, is_unfollowed, refusal_by, start_refused, stray_of};
ghost use Rattle.import_steps.specs.Taking.{so_far};

use crate::import::Refusal;
use crate::owned::has_numbered;
use crate::processes::{Choice, Process};
use import_lines::joining::Room;
use import_lines::made::{Made, is_made, process_of, shares_any};
use import_lines::threads::ThreadLines;
use import_lines::told::{said_at, starts_program};
use import_lines::torn::is_torn;
use import_steps::taking::Taken;
use std::alloc::AllocError;

// Tells whether the process begins a program at this line.
fn begins_at(
    lines: &ThreadLines,
    made: &Made,
    process: u64,
    place: usize,
    room: &mut Room,
) -> Result<bool, AllocError>
    requires { place < length lines.now }
    ensures { IfOk result (λ b. b
        ≡ (process_of made.now (thread_at lines.now place) == process) && starts (said_at lines.now place)) }
{
    if process_of(made, lines.thread(place)) != process {
        return Ok(false);
    }
    match said_at(lines, place, room)? {
        Some(said) => Ok(starts_program(said)),
        None => Ok(false),
    }
}

// Tells whether the process begins a program.
fn begins_in(
    lines: &ThreadLines,
    made: &Made,
    process: u64,
    room: &mut Room,
) -> Result<bool, AllocError>
    ensures { IfOk result (λ b. b ≡ begins_in lines.now made.now process (length lines.now)) }
{
    let mut at = 0;
    'lines: while at < lines.len() {
        if begins_at(lines, made, process, at, room)? {
            return Ok(true);
        }
        at += 1;
    }
    Ok(false)
}

// Tells whether another process than the chosen one asks for something, and no line says who made it or begins its
// program.
fn is_stray(
    lines: &ThreadLines,
    made: &Made,
    chosen: u64,
    process: Process,
    room: &mut Room,
) -> Result<bool, AllocError>
    ensures { IfOk result (λ b. b ≡ is_stray lines.now made.now chosen process) }
{
    if process.requests == 0 || process.number == chosen {
        return Ok(false);
    }
    if is_made(made, process.number) {
        return Ok(false);
    }
    let begins = begins_in(lines, made, process.number, room)?;
    Ok(!begins)
}

/// The first of these processes that asks for something without being the chosen one, where no line says who made it
/// or begins its program.
pub(crate) fn stray_of(
    lines: &ThreadLines,
    made: &Made,
    chosen: u64,
    processes: &[Process],
    room: &mut Room,
) -> Result<Option<u64>, AllocError>
    ensures { IfOk result (λ s. s ≡ stray_of lines.now made.now chosen processes.now) }
{
    let mut at = 0;
    'processes: while at < processes.len() {
        let process = processes[at];
        if is_stray(lines, made, chosen, process, room)? {
            return Ok(Some(process.number));
        }
        at += 1;
    }
    Ok(None)
}

// Tells whether it is known with what a process began: from a list with so many mappings, or since so many programs
// begin.
fn is_known_start(before: usize, begins: u64) -> bool
    ensures { result ≡ is_known_start before begins }
{
    !(before == 0 && begins == 0)
}

// Why a log is refused that doesn't say with what a process began, if that isn't known.
fn start_refused(stray: Option<u64>, is_known: bool) -> Option<Refusal>
    ensures { result ≡ start_refused stray is_known }
{
    match stray {
        Some(number) => Some(Refusal::Stray(number)),
        None => {
            if is_known {
                None
            } else {
                Some(Refusal::Unstarted)
            }
        }
    }
}

// Tells whether no line names a thread, though one was made that has the same address space.
fn is_unfollowed(lines: &ThreadLines, made: &Made) -> bool
    ensures { result ≡ is_unfollowed lines.now made.now }
{
    if has_numbered(lines) {
        false
    } else {
        shares_any(made)
    }
}

/// Why the log is refused, if it is: of whose lines it is known whether they are unclear, of which other process it
/// says too little, and how many programs the chosen one begins.
pub(crate) fn refusal_for(
    lines: &ThreadLines,
    made: &Made,
    unclear: bool,
    choice: Choice,
    stray: Option<u64>,
    start: &Taken,
    begins: u64,
) -> Option<Refusal>
    ensures { result ≡ refusal_by (is_torn lines.now (length lines.now)) unclear
        (is_unfollowed lines.now made.now) choice.from_empty stray
        (is_known_start (length (so_far start.now).steps) begins) }
{
    if is_torn(lines) {
        Some(Refusal::Torn)
    } else if unclear {
        Some(Refusal::Unnumbered)
    } else if is_unfollowed(lines, made) {
        Some(Refusal::Unfollowed)
    } else if choice.from_empty {
        None
    } else {
        start_refused(stray, is_known_start(start.steps.len(), begins))
    }
}

/// Tells whether one of these processes asks for something.
pub(crate) fn asked_any(processes: &[Process]) -> bool
    ensures { result ≡ asked_any processes.now }
{
    let mut at = 0;
    'processes: while at < processes.len() {
        if processes[at].requests != 0 {
            return true;
        }
        at += 1;
    }
    false
}
