//! The calls that cores make in a space.
ghost use Rattle.std.specs.Prelude.{All, OnOk};
ghost use Rattle.live_space.specs.Space.{IsOf};

use litmus_merges::Asked;
use live_space::fault::LiveFault;
use live_space::gate::Open;
use live_space::space::Live;
use seats::Seat;
use std::alloc::Global;
use std::sync::Wait;
use std::thread::{self, Threads};
use trace_words::{ScriptLine, Task};

/// A core's seat, and why the core stopped before its last call.
#[derive(Drop)]
pub(crate) struct Lane {
    pub seat: Seat<Global>,
    pub fault: Option<LiveFault>,
}

// The seat's core does one task.
fn do_task<R: Wait>(
    rt: &R,
    live: &Live<Global>,
    seat: &mut Seat<Global>,
    task: Task,
) -> Result<(), LiveFault>
    requires { IsOf live.now seat.old }
    ensures { IsOf live.now seat.new }
{
    match task {
        Task::Call(request) => {
            let _reply = live.call(rt, seat, request, &Open)?;
        }
        Task::Flush => {
            let _is_noted = live.flush(rt, seat)?;
        }
        Task::Review => {
            let _is_noted = live.review(rt, seat)?;
        }
    }
    Ok(())
}

// A core does what the line says. One that the space lacks does nothing.
fn do_line<R: Wait>(
    rt: &R,
    live: &Live<Global>,
    lanes: &mut [Lane],
    line: ScriptLine,
) -> Result<(), LiveFault>
    requires { All (λ lane. IsOf live.now lane.seat) lanes.old }
    ensures { OnOk result (All (λ lane. IsOf live.now lane.seat) lanes.new) }
{
    let core = usize::from(line.core.index());
    if core >= lanes.len() {
        return Ok(());
    }
    do_task(rt, live, &mut lanes[core].seat, line.task)?;
    Ok(())
}

/// Cores do what the lines say, one after another.
pub(crate) fn do_lines<R: Wait>(
    rt: &R,
    live: &Live<Global>,
    lanes: &mut [Lane],
    lines: &[ScriptLine],
) -> Result<(), LiveFault>
    requires { All (λ lane. IsOf live.now lane.seat) lanes.old }
    ensures { OnOk result (All (λ lane. IsOf live.now lane.seat) lanes.new) }
{
    'lines: for at in 0..lines.len() {
        do_line(rt, live, lanes, lines[at])?;
    }
    Ok(())
}

/// The seat's core makes its calls, one after another, up to the first that can't begin.
pub(crate) fn make_calls<R: Wait>(
    rt: &R,
    live: &Live<Global>,
    seat: &mut Seat<Global>,
    calls: &[Asked],
) -> Result<(), LiveFault>
    requires { IsOf live.now seat.old }
    ensures { IsOf live.now seat.new }
{
    'calls: for at in 0..calls.len() {
        let call = calls[at];
        if call.core.index() == seat.core().index() {
            let _reply = live.call(rt, seat, call.request, &Open)?;
        }
    }
    Ok(())
}

// The lane's core makes its calls, and why it stopped is kept.
fn run_lane<R: Wait>(rt: &R, live: &Live<Global>, calls: &[Asked], lane: &mut Lane)
    requires { IsOf live.now lane.old.seat }
    ensures { IsOf live.now lane.new.seat }
{
    match make_calls(rt, live, &mut lane.seat, calls) {
        Ok(()) => lane.fault = None,
        Err(fault) => lane.fault = Some(fault),
    }
}

/// Each core makes its calls, on a thread of its own where one can be made.
pub(crate) fn run_side_by_side<R: Threads + Wait + Sync>(
    rt: &R,
    live: &Live<Global>,
    calls: &[Asked],
    lanes: &mut [Lane],
)
    requires { All (λ lane. IsOf live.now lane.seat) lanes.old }
    ensures { All (λ lane. IsOf live.now lane.seat) lanes.new }
{
    let count = lanes.len();
    if count == 0 {
        return;
    }
    let run = |_core: usize, lane: &mut Lane|
        requires { IsOf live.now lane.old.seat }
        ensures { IsOf live.entry.now lane.new.seat }
    { run_lane(rt, live, calls, lane) };
    thread::for_each_mut(rt, lanes, count, &run);
}

/// Why the first lane stopped that did.
pub(crate) fn first_fault(lanes: &[Lane]) -> Option<LiveFault> {
    'lanes: for at in 0..lanes.len() {
        if let Some(fault) = lanes[at].fault {
            return Some(fault);
        }
    }
    None
}

/// How many notes there are.
pub(crate) fn count_notes(lanes: &[Lane]) -> usize {
    let mut count = 0usize;
    'lanes: for at in 0..lanes.len() {
        count = count.saturating_add(lanes[at].seat.noted().len());
    }
    count
}
