//! What is done while memory is full, and given back piece by piece until it is done. A row is `BEFORE | STARVED | AFTER | TOLD | REFUSED`: a
//! script with ample memory; lines of the first core, with ` / ` between them, each of which is done in a space of its own after that
//! script while memory is full; what is done then with ample memory again; what the lines before and after come to; and when memory was
//! refused. `end` in place of a line ends the space, `script` makes a space and runs the script in it, and `tasks` does the script's
//! tasks in a space that was made before. All notes are certified.
ghost use Rattle.std.specs.Prelude.{All};
ghost use Rattle.live_space.specs.Space.{IsOf};

use crate::alone::Alone;
use crate::ending::{certified, made};
use crate::gates::{Mark, Passing};
use crate::lane::{Lane, lanes_of, seats_of};
use crate::rows::{push_line, push_lines};
use crate::script::request_of;
use crate::scripts::script_of;
use certifier::CertifyFault;
use linked_list_allocator::LocalHeap;
use live_script::{InTurn, RunSpace, Runner, ScriptFault, begin, certify_ran, finish_in_turn};
use live_space::fault::LiveFault;
use live_space::gate::Point;
use live_space::space::Live;
use machine_model::SetupFault;
use seats::Seat;
use std::alloc::{Allocator, Global};
use std::sync::Wait;
use std::thread::Threads;
use test_support::heaps::{HeapBlock, fill};
use trace_text::read_line;
use trace_words::Script;
use vm_base::{NoMemory, Reply};

/// Room for a space, in bytes.
const AMPLE: usize = 4_000_000;

/// More pieces than are given back.
const MANY: usize = 4_000;

/// What it came to.
#[derive(Clone, Copy)]
enum Came {
    Done,
    /// It was refused before it began, or given up.
    Refused,
    /// An access was given up where it was to be given an entry; what a script noted was not certified.
    RefusedLate,
    /// A fault came that isn't want of memory, or something else came otherwise.
    Otherwise,
}

/// A row.
#[derive(Clone, Copy)]
struct Row<'a> {
    before: &'a str,
    starved: &'a str,
    after: &'a str,
    told: &'a str,
    refused: &'a str,
}

fn row_of(row: &str) -> Option<Row<'_>> {
    let (before, rest) = row.split_once(" | ")?;
    let (starved, rest) = rest.split_once(" | ")?;
    let (after, rest) = rest.split_once(" | ")?;
    let (told, refused) = rest.split_once(" | ")?;
    Some(Row {
        before,
        starved,
        after,
        told,
        refused,
    })
}

/// Fills the heap but for so many of the least pieces.
fn fill_but<'h>(
    heap: &'h LocalHeap,
    taken: &mut Vec<HeapBlock<'h>>,
    given: usize,
) -> Result<(), NoMemory> {
    fill(heap, taken)?;
    for _piece in 0..given {
        taken.pop();
    }
    Ok(())
}

// ---- a call

// What a call came to that was given up, once it was to be given an entry or before.
fn given_up(filled: &Mark) -> Came {
    if filled.is_set() {
        Came::RefusedLate
    } else {
        Came::Refused
    }
}

fn call<R: Wait>(rt: &R, lane: &mut Lane<'_, &LocalHeap>, line: &str) -> Came {
    let Some(request) = request_of(line) else {
        return Came::Otherwise;
    };
    let filled = Mark::new();
    let gate = Passing {
        point: Point::Filled,
        passed: &filled,
    };
    match lane.call(rt, request, &gate) {
        Ok(Reply::NoMemory) => given_up(&filled),
        Err(LiveFault::NoMemory) => Came::Refused,
        Ok(_) => Came::Done,
        Err(_) => Came::Otherwise,
    }
}

// The first core's call.
fn call_by_first<R: Wait>(rt: &R, lanes: &mut [Lane<'_, &LocalHeap>], line: &str) -> Came {
    match lanes.get_mut(0) {
        Some(lane) => call(rt, lane, line),
        None => Came::Otherwise,
    }
}

/// The first core's call in a heap that is full but for so many pieces.
fn starved_call<'h, R: Wait>(
    rt: &R,
    alloc: Global,
    heap: &'h LocalHeap,
    lanes: &mut [Lane<'_, &'h LocalHeap>],
    line: &str,
    given: usize,
) -> Result<Came, NoMemory> {
    let mut taken = Vec::new(alloc);
    fill_but(heap, &mut taken, given)?;
    Ok(call_by_first(rt, lanes, line))
}

/// The result of the call, where all other lines come to what they are to come to.
fn came_of<'h, R: Wait>(
    rt: &R,
    alloc: Global,
    heap: &'h LocalHeap,
    lanes: &mut [Lane<'_, &'h LocalHeap>],
    line: &str,
    row: Row<'_>,
    given: usize,
) -> Result<Came, NoMemory> {
    let mut text = String::new(alloc);
    push_lines(rt, alloc, lanes, row.before, &mut text)?;
    let came = starved_call(rt, alloc, heap, lanes, line, given)?;
    push_lines(rt, alloc, lanes, row.after, &mut text)?;
    if text.as_str() == row.told {
        Ok(came)
    } else {
        Ok(Came::Otherwise)
    }
}

/// The same in a new space, and its seats.
fn came_in<'h, R: Wait>(
    rt: &R,
    alloc: Global,
    heap: &'h LocalHeap,
    live: &Live<&'h LocalHeap>,
    seats: Vec<Seat<&'h LocalHeap>, &'h LocalHeap>,
    line: &str,
    row: Row<'_>,
    given: usize,
) -> Result<(Came, Vec<Seat<&'h LocalHeap>, Global>), NoMemory>
    requires { All (IsOf live.now) seats.items }
{
    let mut lanes = lanes_of(alloc, live, seats)?;
    let came = came_of(rt, alloc, heap, lanes.as_mut_slice(), line, row, given)?;
    let seats = seats_of(alloc, lanes)?;
    Ok((came, seats))
}

/// The same, where the notes are certified.
fn call_once<'h, R: Wait>(
    rt: &R,
    alloc: Global,
    heap: &'h LocalHeap,
    line: &str,
    row: Row<'_>,
    given: usize,
) -> Result<Came, NoMemory> {
    let Ok((live, seats)) = made(heap, row.before) else {
        return Err(NoMemory);
    };
    let (came, seats) = came_in(rt, alloc, heap, &live, seats, line, row, given)?;
    if certified(heap, row.before, live, &seats).is_ok() {
        Ok(came)
    } else {
        Ok(Came::Otherwise)
    }
}

// ---- the end of a space

/// Makes the call of a line; tells whether it was answered.
fn is_answered<R: Wait, A: Allocator + Clone>(rt: &R, alone: &mut Alone<A>, line: &str) -> bool {
    if let Some(line) = read_line(line.as_bytes())
        && let Some(told) = alone.done(rt, line)
    {
        return told.is_ok();
    }
    false
}

/// A space of one core in which a page is mapped.
fn with_a_page<R: Wait, A: Allocator + Clone>(rt: &R, alloc: A) -> Option<Alone<A>> {
    let mut alone = Alone::new(alloc, "vm 1 4")?;
    if is_answered(rt, &mut alone, "c0! mmap 0x10000 4096 rw- pfa") {
        Some(alone)
    } else {
        None
    }
}

/// What a space comes to whose end was refused: it answers a call, and ends once there is memory.
fn came_again<R: Wait, A: Allocator + Clone>(rt: &R, mut alone: Alone<A>) -> Came {
    if !is_answered(rt, &mut alone, "c0! munmap 0x10000 4096") {
        return Came::Otherwise;
    }
    match alone.close() {
        Ok(_) => Came::Refused,
        Err(_) => Came::Otherwise,
    }
}

fn end_once<R: Wait>(
    rt: &R,
    alloc: Global,
    heap: &LocalHeap,
    given: usize,
) -> Result<Came, NoMemory> {
    let Some(alone) = with_a_page(rt, heap) else {
        return Ok(Came::Otherwise);
    };
    let mut taken = Vec::new(alloc);
    fill_but(heap, &mut taken, given)?;
    let Err(alone) = alone.close() else {
        return Ok(Came::Done);
    };
    taken.clear();
    Ok(came_again(rt, alone))
}

// ---- a script

fn came_of_fault(fault: ScriptFault) -> Came {
    match fault {
        ScriptFault::Setup(SetupFault::NoMemory)
        | ScriptFault::Live(LiveFault::NoMemory)
        | ScriptFault::NoMemory => Came::Refused,
        ScriptFault::Setup(_) | ScriptFault::Live(_) => Came::Otherwise,
    }
}

/// The result of certifying what was run, in what is free of the heap.
fn came_of_ran<'h>(
    heap: &'h LocalHeap,
    script: &Script<&'h LocalHeap>,
    ran: RunSpace<&'h LocalHeap>,
) -> Came {
    let Ok(ended) = ran.end(heap) else {
        return Came::RefusedLate;
    };
    let Ok(notes) = ended.notes(heap) else {
        return Came::RefusedLate;
    };
    match certify_ran(heap, script, notes.as_slice(), &ended.histories) {
        Ok(_) => Came::Done,
        Err(CertifyFault::NoMemory) => Came::RefusedLate,
        Err(_) => Came::Otherwise,
    }
}

fn came_of_run<'h>(
    heap: &'h LocalHeap,
    script: &Script<&'h LocalHeap>,
    run: Result<RunSpace<&'h LocalHeap>, ScriptFault>,
) -> Came {
    match run {
        Ok(ran) => came_of_ran(heap, script, ran),
        Err(fault) => came_of_fault(fault),
    }
}

/// The script where so many pieces are free.
fn run_in<'h, R: Threads + Wait + Sync>(
    rt: &R,
    alloc: Global,
    heap: &'h LocalHeap,
    script: &Script<&'h LocalHeap>,
    given: usize,
) -> Result<Came, NoMemory> {
    let mut taken = Vec::new(alloc);
    fill_but(heap, &mut taken, given)?;
    let run = InTurn.run(rt, heap, script);
    Ok(came_of_run(heap, script, run))
}

/// Its tasks, where so many pieces are free once the space is made.
fn finish_in<'h, R: Wait>(
    rt: &R,
    alloc: Global,
    heap: &'h LocalHeap,
    script: &Script<&'h LocalHeap>,
    given: usize,
) -> Result<Came, NoMemory> {
    let Ok(begun) = begin(heap, script) else {
        return Err(NoMemory);
    };
    let mut taken = Vec::new(alloc);
    fill_but(heap, &mut taken, given)?;
    let run = finish_in_turn(rt, script, begun);
    Ok(came_of_run(heap, script, run))
}

fn script_once<R: Threads + Wait + Sync>(
    rt: &R,
    alloc: Global,
    heap: &LocalHeap,
    script: &str,
    is_made: bool,
    given: usize,
) -> Result<Came, NoMemory> {
    let lines = script.replace(alloc, "; ", "\n")?;
    let script = script_of(heap, lines.as_str())?;
    if is_made {
        finish_in(rt, alloc, heap, &script, given)
    } else {
        run_in(rt, alloc, heap, &script, given)
    }
}

// ---- all of them

/// What one of them comes to where so many pieces are free.
fn done_once<R: Threads + Wait + Sync>(
    rt: &R,
    alloc: Global,
    line: &str,
    row: Row<'_>,
    given: usize,
) -> Result<Came, NoMemory> {
    let heap = LocalHeap::new(alloc, AMPLE)?;
    if line == "end" {
        end_once(rt, alloc, &heap, given)
    } else if line == "script" || line == "tasks" {
        script_once(rt, alloc, &heap, row.before, line == "tasks", given)
    } else {
        call_once(rt, alloc, &heap, line, row, given)
    }
}

// Whether memory was refused when a row asks for it. `early` and `late` ask for no more than they name: how lists grow decides what else is refused.
fn is_asked(asked: &str, early: bool, late: bool) -> bool {
    if asked == "early and late" {
        early && late
    } else if asked == "early" {
        early
    } else if asked == "late" {
        late
    } else {
        asked == "never" && !early && !late
    }
}

/// Whether one of them, which is given more each time until it is done, is refused memory when the row asks for it, and all else goes well.
fn is_refused<R: Threads + Wait + Sync>(
    rt: &R,
    alloc: Global,
    line: &str,
    row: Row<'_>,
) -> Result<bool, NoMemory> {
    let mut early = false;
    let mut late = false;
    for given in 0..MANY {
        match done_once(rt, alloc, line, row, given)? {
            Came::Done => return Ok(is_asked(row.refused, early, late)),
            Came::Refused => early = true,
            Came::RefusedLate => late = true,
            Came::Otherwise => return Ok(false),
        }
    }
    Ok(false)
}

/// Appends the lines of a row that come to something else.
fn push_wrong<R: Threads + Wait + Sync>(
    rt: &R,
    alloc: Global,
    row: Row<'_>,
    wrong: &mut String<Global>,
) -> Result<(), NoMemory> {
    for line in row.starved.split(" / ") {
        if !is_refused(rt, alloc, line, row)? {
            push_line(row.before, wrong)?;
            push_line(line, wrong)?;
        }
    }
    Ok(())
}

/// The rows of a table to which memory is refused otherwise, or that aren't rows.
pub fn wrong_starved<R: Threads + Wait + Sync>(
    rt: &R,
    alloc: Global,
    table: &str,
) -> Result<String<Global>, NoMemory> {
    let mut wrong = String::new(alloc);
    for line in table.lines() {
        if let Some(row) = row_of(line) {
            push_wrong(rt, alloc, row, &mut wrong)?;
        } else if !line.starts_with('#') {
            push_line(line, &mut wrong)?;
        }
    }
    Ok(wrong)
}
