//! The processes of a log, and how much each asks of its address space.
ghost use Rattle.std.specs.Prelude.{◌≡◌, ◌<◌, ◌++◌, ◌∷◌, [], ℕ, IfOk, OnOk, Some, length, nat_eq, slice_get};
ghost use Rattle.std.specs.HashMap.{get};
ghost use Rattle.import_lines.specs.Made.{fork_of, maker_of, process_of, said_at, space_of};
ghost use Rattle.import_log.specs.Processes.{asks, best_of, busiest, chosen, is_there, place_of, process_at, processes, with_request, with_line};

use import_forms::said::Said;
use import_lines::joining::Room;
use import_lines::made::{Made, Making, fork_of, process_of, space_of};
use import_lines::threads::ThreadLines;
use import_lines::told::said_at;
use import_steps::meter::{Meter, tell_of};
use std::alloc::{AllocError, Global};
use std::collections::HashMap;
use std::marker::Model;

/// A process of a log.
#[derive(Clone, Copy)]
pub struct Process {
    /// The number of its first thread.
    pub number: u64,
    /// How many lines of its threads ask for something of its address space.
    pub requests: u64,
}

/// What is taken of a log.
#[derive(Clone, Copy)]
pub struct Choice {
    /// A thread of the process, if one was named; else it is the process with the most requests.
    pub thread: Option<u64>,
    /// Whether all threads of which no line says who made them are of one process.
    pub joined: bool,
    /// Whether a process began with nothing mapped where the log doesn't say with what.
    pub from_empty: bool,
}

/// A thread, and its process.
#[derive(Clone, Copy)]
pub struct Known {
    /// The thread.
    pub thread: u64,
    /// Its process.
    pub process: u64,
    /// How that was made, if it has an address space of its own.
    pub own: Option<Making>,
}

/// Looks of which process the thread is.
pub fn look(made: &Made, thread: u64) -> Known
    ensures thread { result.thread ≡ thread }
    ensures known { result.process ≡ process_of made.now thread }
    ensures own { result.own ≡ fork_of (maker_of made.now (process_of made.now thread)) }
{
    let process = process_of(made, thread);
    Known {
        thread,
        process,
        own: fork_of(made, process),
    }
}

/// Of which process the thread is, as it is known of one thread: the next line is often of the same.
pub fn recall(made: &Made, known: Known, thread: u64) -> Known
    requires known { known.process ≡ process_of made.now known.thread }
    requires own { known.own ≡ fork_of (maker_of made.now (process_of made.now known.thread)) }
    ensures thread { result.thread ≡ thread }
    ensures known { result.process ≡ process_of made.now thread }
    ensures own { result.own ≡ fork_of (maker_of made.now (process_of made.now thread)) }
{
    if known.thread == thread {
        known
    } else {
        look(made, thread)
    }
}

/// The process whose address space the thread has at this line.
pub(crate) fn space_at(made: &Made, known: Known, line: usize) -> u64
    requires known { known.process ≡ process_of made.now known.thread }
    requires own { known.own ≡ fork_of (maker_of made.now (process_of made.now known.thread)) }
    ensures { result ≡ space_of made.now line (process_of made.now known.thread) }
{
    space_of(made, line, known.process, known.own)
}

// Tells whether this asks for something of the address space.
fn asks(said: Said) -> bool
    ensures { result ≡ asks (Some said) }
{
    match said {
        Said::Asks(_)
        | Said::Breaks(_)
        | Said::Moves { .. }
        | Said::Keyed(_)
        | Said::Attaches { .. }
        | Said::Detaches(_) => true,
        Said::Makes { .. }
        | Said::Begins
        | Said::Sizes { .. }
        | Said::Clears { .. }
        | Said::Loses(_)
        | Said::Ends
        | Said::Fails
        | Said::Unread
        | Said::Other => false,
    }
}

// Tells whether the call that acts at this line, if one does, asks for something of the address space.
fn line_asks(lines: &ThreadLines, place: usize, room: &mut Room) -> Result<bool, AllocError>
    requires { place < length lines.now }
    ensures { IfOk result (λ b. b ≡ asks (said_at lines.now place)) }
{
    match said_at(lines, place, room)? {
        Some(said) => Ok(asks(said)),
        None => Ok(false),
    }
}

// With one request more, if the line makes one.
fn with_request(process: Process, asks: bool) -> Process
    ensures { result ≡ with_request process asks }
{
    if asks {
        Process {
            number: process.number,
            requests: process.requests.saturating_add(1),
        }
    } else {
        process
    }
}

// The processes that were counted so far, and where each stands.
#[derive(Drop)]
struct Counted {
    all: Vec<Process>,
    places: HashMap<u64, usize>,
}

impl Model for Counted {
    ghost use Rattle.std.specs.Prelude.{◌≡◌, ℕ, List, nat_eq};
    ghost use Rattle.std.specs.HashMap.{get};
    ghost use Rattle.import_log.specs.Processes.{place_of};
    ghost use Rattle.import_log.specs.declared.processes.Process.{Process};

    ghost Value = { List Process };

    ghost view = { λ s. s.all.items };

    ghost invariant = { λ s. (q : ℕ) → get nat_eq s.places q ≡ place_of q s.all.items };
}

// Where the process stands.
fn place_of(counted: &Counted, number: u64) -> Option<usize>
    ensures { result ≡ place_of number counted.now }
{
    match counted.places.get(&number) {
        Some(place) => Some(*place),
        None => None,
    }
}

// Adds a process that isn't there yet.
fn push_process(counted: &mut Counted, process: Process) -> Result<(), AllocError>
    requires { place_of process.number counted.old ≡ None }
    ensures { OnOk result (counted.new ≡ counted.old ++ process ∷ []) }
{
    let place = counted.all.as_slice().len();
    counted.all.push(process)?;
    match counted.places.insert(process.number, place) {
        Ok(_) => Ok(()),
        Err(_) => {
            let _ = counted.all.pop();
            Err(AllocError)
        }
    }
}

// Counts a line of the process that stands here.
#[tactic(auto, using(crate::proofs::ProcessLemmas::place_low))]
fn count_at(counted: &mut Counted, number: u64, place: usize, asks: bool)
    requires { place_of number counted.old ≡ Some place }
    ensures { counted.new ≡ with_line counted.old number asks }
{
    let count = counted.all.as_slice().len();
    prove!(place < count);
    let process = counted.all[place];
    counted.all[place] = with_request(process, asks);
}

// Counts a line of this process.
fn count_line(counted: &mut Counted, number: u64, asks: bool) -> Result<(), AllocError>
    ensures { OnOk result (counted.new ≡ with_line counted.old number asks) }
{
    match place_of(counted, number) {
        Some(place) => {
            count_at(counted, number, place, asks);
            Ok(())
        }
        None => {
            let process = with_request(
                Process {
                    number,
                    requests: 0,
                },
                asks,
            );
            push_process(counted, process)?;
            Ok(())
        }
    }
}

// Counts each line for its process, where none is counted yet.
fn count_lines<M: Meter>(
    counted: &mut Counted,
    lines: &ThreadLines,
    made: &Made,
    room: &mut Room,
    meter: &mut M,
) -> Result<(), AllocError>
    requires { counted.old ≡ [] }
    ensures { OnOk result (counted.new ≡ processes lines.now made.now (length lines.now)) }
{
    let mut known = look(made, 0);
    let mut at = 0;
    'lines: while at < lines.len() {
        tell_of(meter, 2, at, lines.len());
        known = recall(made, known, lines.thread(at));
        let asks = line_asks(lines, at, room)?;
        count_line(counted, known.process, asks)?;
        at += 1;
    }
    Ok(())
}

/// The processes of the lines, in the order of their first lines.
pub(crate) fn read_processes<M: Meter>(
    alloc: Global,
    lines: &ThreadLines,
    made: &Made,
    room: &mut Room,
    meter: &mut M,
) -> Result<Vec<Process>, AllocError>
    ensures { IfOk result (λ all. all.items ≡ processes lines.now made.now (length lines.now)) }
{
    let mut counted = Counted {
        all: Vec::new(alloc),
        places: HashMap::new(alloc),
    };
    match count_lines(&mut counted, lines, made, room, meter) {
        Ok(()) => Ok(counted.all),
        Err(fault) => {
            drop(counted);
            Err(fault)
        }
    }
}

// The first process, one without requests where there is none.
fn first_of(processes: &[Process]) -> Process
    ensures { result ≡ process_at (slice_get processes.now 0) }
{
    match processes.first() {
        Some(process) => *process,
        None => Process {
            number: 0,
            requests: 0,
        },
    }
}

// The number of the process with the most requests, the first of several.
fn busiest(processes: &[Process]) -> u64
    ensures { result ≡ busiest processes.now }
{
    let mut best = first_of(processes);
    let mut at = 0;
    'processes: while at < processes.len() {
        let process = processes[at];
        if best.requests < process.requests {
            best = process;
        }
        at += 1;
    }
    best.number
}

/// The process that is chosen: that of the thread that was named, else the one with the most requests.
pub(crate) fn chosen(choice: Choice, made: &Made, processes: &[Process]) -> u64
    ensures { result ≡ chosen choice.thread made.now processes.now }
{
    match choice.thread {
        Some(thread) => process_of(made, thread),
        None => busiest(processes),
    }
}

// Tells whether a line is about the thread.
fn has_thread(lines: &ThreadLines, thread: u64) -> bool
    ensures { result ≡ is_there (Some thread) lines.now }
{
    let mut at = 0;
    'lines: while at < lines.len() {
        if lines.thread(at) == thread {
            return true;
        }
        at += 1;
    }
    false
}

/// Tells whether a line is about the thread that was named, if one was.
pub(crate) fn is_there(choice: Choice, lines: &ThreadLines) -> bool
    ensures { result ≡ is_there choice.thread lines.now }
{
    match choice.thread {
        Some(thread) => has_thread(lines, thread),
        None => true,
    }
}
