//! The running of a script.
ghost use Rattle.std.specs.Prelude.{◌≡◌, ℕ, ◌<◌, [], IfErr, IfOk, IfSome, None, All, get_or, length, map};
ghost use Rattle.live_space.specs.Space.{IsOf};
ghost use Rattle.live_script.specs.Tasks.{EndsAs};
ghost use Rattle.live_script.specs.Runs.{EndEach, Fails, IsBegun, RunsAll, first_fault};

use crate::fault::ScriptFault;
use crate::lane::Lane;
use crate::ran::RunSpace;
use crate::tasks::run_lane;
use live_space::fault::LiveFault;
use live_space::space::Live;
use machine_model::SetupFault;
use seats::Seat;
use std::alloc::{Allocator, Global};
use std::sync::Wait;
use std::thread::{self, Threads};
use trace_words::Script;
use vm_base::NoMemory;

// A lane for each seat.
fn lanes_of<A: Allocator>(alloc: A, seats: Vec<Seat<A>, A>) -> Result<Vec<Lane<A>, A>, NoMemory>
    ensures { IfOk result (λ lanes. map (λ lane. lane.seat) lanes.items ≡ seats.items) }
{
    let mut lanes = Vec::with_capacity(alloc, seats.len())?;
    'seats: for seat in seats {
        lanes.push(Lane { seat, fault: None })?;
    }
    Ok(lanes)
}

/// Makes the space that the script declares, in which no task is done yet: then `finish_in_turn` does them.
///
/// A fault of the declaration is reported before anything is made.
pub fn begin<A: Allocator + Clone>(alloc: A, script: &Script<A>) -> Result<RunSpace<A>, ScriptFault>
    ensures begun { IfOk result (λ ran. IsBegun script.now.asked ran.live ran.seats) }
    ensures fault { IfErr result (λ fault. Fails script.now fault) }
{
    let declaration = script.declaration();
    if let Some(fault) = declaration.fault() {
        return Err(ScriptFault::Setup(fault));
    }
    let Ok(for_files) = alloc.clone() else {
        return Err(ScriptFault::Setup(SetupFault::NoMemory));
    };
    let Ok(setup) = declaration.setup(for_files) else {
        return Err(ScriptFault::Setup(SetupFault::NoMemory));
    };
    let Ok(for_lanes) = alloc.clone() else {
        return Err(ScriptFault::NoMemory);
    };
    let (live, seats) = match Live::new(alloc, setup) {
        Ok(made) => made,
        Err(fault) => return Err(ScriptFault::Setup(fault)),
    };
    let Ok(lanes) = lanes_of(for_lanes, seats) else {
        return Err(ScriptFault::NoMemory);
    };
    Ok(RunSpace { live, lanes })
}

// Does the tasks of each lane's core, each core in a thread of its own where one can be made.
fn run_side_by_side<R: Threads + Wait + Sync>(
    rt: &R,
    live: &Live<Global>,
    script: &Script<Global>,
    lanes: &mut [Lane<Global>],
)
    requires { All (λ lane. IsOf live.now lane.seat) lanes.old }
    ensures { EndEach live.now script.now.tasks lanes.old lanes.new }
{
    let count = lanes.len();
    if count == 0 {
        return;
    }
    let run = |core: usize, lane: &mut Lane<Global>|
        requires { IsOf live.now lane.old.seat }
        ensures { EndsAs live.entry.now lane.old.seat (get_or script.entry.now.tasks core []) lane.new.seat lane.new.fault }
    { run_lane(rt, live, script.tasks(core), lane) };
    thread::for_each_mut(rt, lanes, count, &run);
}

// The same, one core after another.
fn run_in_order<R: Wait, A: Allocator + Clone>(
    rt: &R,
    live: &Live<A>,
    script: &Script<A>,
    lanes: &mut [Lane<A>],
)
    requires { All (λ lane. IsOf live.now lane.seat) lanes.old }
    ensures { EndEach live.now script.now.tasks lanes.old lanes.new }
{
    'cores: for core in 0..lanes.len() {
        run_lane(rt, live, script.tasks(core), &mut lanes[core]);
    }
}

// Why the first lane stopped that did.
fn first_fault<A: Allocator>(lanes: &[Lane<A>]) -> Option<LiveFault>
    ensures { result ≡ first_fault (map (λ lane. lane.fault) lanes.now) }
{
    'lanes: for at in 0..lanes.len() {
        if let Some(fault) = lanes[at].fault {
            return Some(fault);
        }
    }
    None
}

/// Does all that the script asks for in the space that `begin` made for it, each core on a thread of its own where one can
/// be made, as `finish_in_turn` does it.
pub fn finish_side_by_side<R: Threads + Wait + Sync>(
    rt: &R,
    script: &Script<Global>,
    mut ran: RunSpace<Global>,
) -> Result<RunSpace<Global>, ScriptFault>
    requires { IsBegun script.now.asked ran.live ran.seats }
    ensures ran { IfOk result (λ ran. RunsAll script.now ran.live ran.seats) }
    ensures fault { IfErr result (λ fault. Fails script.now fault) }
{
    run_side_by_side(rt, &ran.live, script, ran.lanes.as_mut_slice());
    match first_fault(ran.lanes.as_slice()) {
        Some(fault) => Err(ScriptFault::Live(fault)),
        None => Ok(ran),
    }
}

/// Does all that the script asks for in the space that `begin` made for it, one core after another. Where all was done,
/// each seat has the notes of just its core's tasks.
///
/// A core stops at its first task that can't begin, while the others go on; of several such faults the least core's is
/// told.
pub fn finish_in_turn<R: Wait, A: Allocator + Clone>(
    rt: &R,
    script: &Script<A>,
    mut ran: RunSpace<A>,
) -> Result<RunSpace<A>, ScriptFault>
    requires { IsBegun script.now.asked ran.live ran.seats }
    ensures ran { IfOk result (λ ran. RunsAll script.now ran.live ran.seats) }
    ensures fault { IfErr result (λ fault. Fails script.now fault) }
{
    run_in_order(rt, &ran.live, script, ran.lanes.as_mut_slice());
    match first_fault(ran.lanes.as_slice()) {
        Some(fault) => Err(ScriptFault::Live(fault)),
        None => Ok(ran),
    }
}

/// Runs the script: makes the space that it declares, and does each core's tasks, in their order, on a thread of the
/// core's own, or one core after another where no thread can be made. Where all were done, each seat has the notes of
/// just its core's tasks.
///
/// A fault of the declaration is reported before anything is made. A core stops at its first task that can't begin, while
/// the others go on; of several such faults the least core's is reported.
pub fn run_script<R: Threads + Wait + Sync>(
    rt: &R,
    alloc: Global,
    script: &Script<Global>,
) -> Result<RunSpace<Global>, ScriptFault>
    ensures ran { IfOk result (λ ran. RunsAll script.now ran.live ran.seats) }
    ensures fault { IfErr result (λ fault. Fails script.now fault) }
{
    let ran = begin(alloc, script)?;
    finish_side_by_side(rt, script, ran)
}

/// The same without threads, over any allocator: one core after another.
pub fn run_in_turn<R: Wait, A: Allocator + Clone>(
    rt: &R,
    alloc: A,
    script: &Script<A>,
) -> Result<RunSpace<A>, ScriptFault>
    ensures ran { IfOk result (λ ran. RunsAll script.now ran.live ran.seats) }
    ensures fault { IfErr result (λ fault. Fails script.now fault) }
{
    let ran = begin(alloc, script)?;
    finish_in_turn(rt, script, ran)
}
