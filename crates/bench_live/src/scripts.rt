//! Scripts: how long threads of one space take for one, threads with a space each, and the machine by
//! itself, and how long it takes to certify what threads noted.
use crate::threads::{Worker, since, slowest};
use certifier::certify;
use core_steps::{Finished, Machine, run};
use live_script::{RunSpace, begin, certify_ran, finish_in_turn, finish_side_by_side, run_script};
use machine_log::KeepsNone;
use machine_model::{Event, Outcome, Setup};
use radix_range::RadixMap;
use seats::Notes;
use std::alloc::Global;
use std::rt::Clock;
use std::sync::Wait;
use std::thread::Threads;
use std::time::Instant;
use trace_words::{Script, Task};
use vm_base::{CoreId, Reply};

/// Whether there was memory, and a frame, for what came to this.
fn is_served(outcome: Outcome) -> bool {
    !matches!(
        outcome,
        Outcome::Answered(Reply::NoMemory) | Outcome::Answered(Reply::NoFrame)
    )
}

/// The time, where all calls that were noted were served.
fn if_served(alloc: Global, ran: &RunSpace<Global>, nanos: u128) -> Option<u128> {
    let seats = ran.notes(alloc).ok()?;
    for notes in seats.as_slice() {
        for at in 0..notes.len() {
            if !is_served(notes.get(at).outcome) {
                return None;
            }
        }
    }
    Some(nanos)
}

/// The nanoseconds that each core's tasks take on a thread of the core's own, all in one space; none
/// where a call wasn't served.
pub fn time_shared<R: Threads + Wait + Clock + Sync>(
    rt: &R,
    alloc: Global,
    script: &Script<Global>,
) -> Option<u128> {
    let ran = begin(alloc, script).ok()?;
    let start = Instant::now(rt).ok()?;
    let ran = finish_side_by_side(rt, script, ran).ok()?;
    let took = since(rt, start)?;
    if_served(alloc, &ran, took)
}

/// Does a script in a space of its own, one core after another.
#[derive(Drop)]
struct Alone<'a> {
    alloc: Global,
    script: &'a Script<Global>,
}

impl<'a> Worker for Alone<'a> {
    fn time<R: Wait + Clock>(&mut self, rt: &R, _rounds: u64) -> Option<u128> {
        let ran = begin(self.alloc, self.script).ok()?;
        let start = Instant::now(rt).ok()?;
        let ran = finish_in_turn(rt, self.script, ran).ok()?;
        let took = since(rt, start)?;
        if_served(self.alloc, &ran, took)
    }
}

/// The nanoseconds of the slowest of so many threads, each of which does the script in a space of its own;
/// none where a call wasn't served.
pub fn time_apart<R: Threads + Wait + Clock + Sync>(
    rt: &R,
    alloc: Global,
    threads: u8,
    script: &Script<Global>,
) -> Option<u128> {
    let mut all = Vec::new(alloc);
    for _thread in 0..threads {
        all.push(Alone { alloc, script }).ok()?;
    }
    slowest(rt, alloc, all, 1)
}

/// The setup that the script declares.
fn setup_of(alloc: Global, script: &Script<Global>) -> Option<Setup<Global>> {
    let declaration = script.declaration();
    if let Some(_) = declaration.fault() {
        return None;
    }
    declaration.setup(alloc).ok()
}

/// Makes the calls of core 0; tells whether all were served.
fn make_calls(machine: &mut Machine<RadixMap<Global>, Global, KeepsNone>, tasks: &[Task]) -> bool {
    for task in tasks {
        let Task::Call(request) = task else {
            return false;
        };
        match machine.call(CoreId::new(0), *request) {
            Ok(Finished::Last(outcome)) if is_served(outcome) => {}
            _ => return false,
        }
    }
    true
}

/// The nanoseconds of core 0's tasks, made by a machine; none where a call wasn't served.
pub fn time_machine(rt: &impl Clock, alloc: Global, script: &Script<Global>) -> Option<u128> {
    let setup = setup_of(alloc, script)?;
    let map = RadixMap::new(alloc).ok()?;
    let mut machine = Machine::new(alloc, map, setup).ok()?;
    let start = Instant::now(rt).ok()?;
    if !make_calls(&mut machine, script.tasks(0)) {
        return None;
    }
    since(rt, start)
}

/// The noted events in order of their tickets.
fn events_of(alloc: Global, seats: &[Notes<'_>]) -> Option<Vec<Event>> {
    let mut count = 0usize;
    for notes in seats {
        count = count.saturating_add(notes.len());
    }
    let mut events = vec![in alloc; Event::Go(CoreId::new(0)); count].ok()?;
    for notes in seats {
        for at in 0..notes.len() {
            let note = notes.get(at);
            if let Some(event) = events.get_mut(note.ticket as usize) {
                *event = note.event;
            }
        }
    }
    Some(events)
}

fn time_run(
    rt: &impl Clock,
    alloc: Global,
    script: &Script<Global>,
    events: &[Event],
) -> Option<u128> {
    let setup = setup_of(alloc, script)?;
    let map = RadixMap::new(alloc).ok()?;
    let start = Instant::now(rt).ok()?;
    let done = run::<RadixMap<Global>, Global, KeepsNone>(alloc, map, setup, events);
    if done.is_err() {
        return None;
    }
    since(rt, start)
}

fn time_certify(
    rt: &impl Clock,
    alloc: Global,
    script: &Script<Global>,
    seats: &[Notes<'_>],
) -> Option<u128> {
    let setup = setup_of(alloc, script)?;
    let start = Instant::now(rt).ok()?;
    let told = certify(alloc, setup, seats, None);
    if told.is_err() {
        return None;
    }
    since(rt, start)
}

/// How many notes there are, and the nanoseconds that it takes to run their events, and to certify them.
fn time_ran(
    rt: &impl Clock,
    alloc: Global,
    script: &Script<Global>,
    ran: &RunSpace<Global>,
) -> Option<(u64, u128, u128)> {
    let seats = ran.notes(alloc).ok()?;
    let events = events_of(alloc, seats.as_slice())?;
    let took = time_run(rt, alloc, script, events.as_slice())?;
    let certified = time_certify(rt, alloc, script, seats.as_slice())?;
    Some((events.len() as u64, took, certified))
}

/// How many notes threads made of the script, and the nanoseconds that it takes to run their events, to
/// certify them, and to certify them beside the histories of the slots, which are gathered first. None
/// where memory is refused, or they aren't certified.
pub fn time_notes<R: Threads + Wait + Clock + Sync>(
    rt: &R,
    alloc: Global,
    script: &Script<Global>,
) -> Option<(u64, u128, u128, u128)> {
    let ran = run_script(rt, alloc, script).ok()?;
    let (count, took, certified) = time_ran(rt, alloc, script, &ran)?;
    let start = Instant::now(rt).ok()?;
    let ended = ran.end(alloc).ok()?;
    let notes = ended.notes(alloc).ok()?;
    let told = certify_ran(alloc, script, notes.as_slice(), &ended.histories);
    if told.is_err() {
        return None;
    }
    let beside = since(rt, start)?;
    Some((count, took, certified, beside))
}
