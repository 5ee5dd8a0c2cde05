//! The lines of an opening, as the machine is given them.
ghost use Rattle.std.specs.Prelude.{◌≡◌, ◌++◌, IfOk, OnOk};
ghost use Rattle.std.specs.List.{flat_map, list_all};
ghost use Rattle.litmus_merges.specs.Finals.{loads_by};
ghost use Rattle.litmus.specs.Opening.{calls_of, is_called, opened_of};

use litmus_merges::Asked;
use litmus_outcomes::Opened;
use machine_model::Event;
use std::alloc::Allocator;
use trace_text::{Action, Line};
use trace_words::events::event_of;
use trace_words::{ScriptLine, Task};
use vm_base::{CoreId, NoMemory, Request};

// Appends what the line asks of the machine, if it is an event's.
fn add_line<A: Allocator>(opening: &mut Vec<Opened, A>, line: Line) -> Result<(), NoMemory>
    ensures { OnOk result (opening.new.items ≡ opening.old.items ++ opened_of line) }
{
    match line {
        Line::Act(core, action) => opening.push(Opened::Step(event_of(core, action)))?,
        Line::Fold(page) => opening.push(Opened::Step(Event::Fold(page)))?,
        Line::Finish(core) => opening.push(Opened::Finish(core))?,
        Line::Now(core, request) => opening.push(Opened::Whole(core, request))?,
        Line::Blank | Line::Space { .. } | Line::File { .. } => {}
    }
    Ok(())
}

/// The lines of an opening, as the machine is given them.
pub(crate) fn opening_of<A: Allocator>(alloc: A, lines: &[Line]) -> Result<Vec<Opened, A>, NoMemory>
    ensures { IfOk result (λ opening. opening.items ≡ flat_map opened_of lines.now) }
{
    let mut opening = Vec::new(alloc);
    for line in lines {
        add_line(&mut opening, *line)?;
    }
    Ok(opening)
}

// Tells whether a kernel can be asked for what the line says: it is a whole call, or a flush or a review, of which calls show nothing.
fn is_called(line: Line) -> bool
    ensures { result ≡ is_called line }
{
    match line {
        Line::Now(..) | Line::Act(_, Action::Flush) | Line::Act(_, Action::Review) => true,
        _ => false,
    }
}

/// Tells whether a kernel can be asked for all that an opening does.
pub(crate) fn are_called(lines: &[Line]) -> bool
    ensures { result ≡ list_all is_called lines.now }
{
    for line in lines {
        if !is_called(*line) {
            return false;
        }
    }
    true
}

// Appends the line's call, if it is one.
fn add_call<A: Allocator>(calls: &mut Vec<Asked, A>, line: Line) -> Result<(), NoMemory>
    ensures { OnOk result (calls.new.items ≡ calls.old.items ++ calls_of line) }
{
    if let Line::Now(core, request) = line {
        calls.push(Asked { core, request })?;
    }
    Ok(())
}

/// The calls of an opening.
pub(crate) fn calls_of<A: Allocator>(alloc: A, lines: &[Line]) -> Result<Vec<Asked, A>, NoMemory>
    ensures { IfOk result (λ calls. calls.items ≡ flat_map calls_of lines.now) }
{
    let mut calls = Vec::new(alloc);
    for line in lines {
        add_call(&mut calls, *line)?;
    }
    Ok(calls)
}

// What an action has a thread do, if that can be told to.
fn task_done(action: Action) -> Option<Task> {
    match action {
        Action::Flush => Some(Task::Flush),
        Action::Review => Some(Task::Review),
        _ => None,
    }
}

// The task, as the core's.
fn given_to(core: CoreId, task: Option<Task>) -> Option<ScriptLine> {
    let task = task?;
    Some(ScriptLine { core, task })
}

// What the line has a thread do, if that can be told to.
fn task_of(line: Line) -> Option<ScriptLine> {
    match line {
        Line::Now(core, request) => given_to(core, Some(Task::Call(request))),
        Line::Act(core, action) => given_to(core, task_done(action)),
        _ => None,
    }
}

/// What the lines of an opening have threads do.
pub(crate) fn tasks_of<A: Allocator>(
    alloc: A,
    lines: &[Line],
) -> Result<Vec<ScriptLine, A>, NoMemory> {
    let mut tasks = Vec::new(alloc);
    for line in lines {
        if let Some(task) = task_of(*line) {
            tasks.push(task)?;
        }
    }
    Ok(tasks)
}

/// Loads of these addresses by core 0.
pub(crate) fn loads_of<A: Allocator>(alloc: A, addrs: &[u64]) -> Result<Vec<Asked, A>, NoMemory>
    ensures { IfOk result (λ loads. loads.items ≡ loads_by 0 addrs.now) }
{
    let mut loads = Vec::new(alloc);
    'addrs: for at in 0..addrs.len() {
        let addr = addrs[at];
        loads.push(Asked {
            core: CoreId::new(0),
            request: Request::Load { addr },
        })?;
    }
    Ok(loads)
}
