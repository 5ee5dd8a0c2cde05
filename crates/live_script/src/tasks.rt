//! What a core does of a script.
ghost use Rattle.std.specs.Prelude.{◌≡◌, IfErr, OnErr, OnOk};
ghost use Rattle.live_space.specs.Calls.{IsIdle};
ghost use Rattle.live_space.specs.Space.{IsOf};
ghost use Rattle.live_script.specs.Tasks.{Does, DoesAll, EndsAs, Lacks, Stops};

use crate::lane::Lane;
use live_space::fault::LiveFault;
use live_space::gate::Open;
use live_space::space::Live;
use seats::Seat;
use std::alloc::Allocator;
use std::sync::Wait;
use trace_words::Task;

// Does one task. After a fault nothing was begun.
fn run_task<R: Wait, A: Allocator + Clone>(
    rt: &R,
    live: &Live<A>,
    seat: &mut Seat<A>,
    task: &Task,
) -> Result<(), LiveFault>
    requires { IsOf live.now seat.old }
    ensures own { IsOf live.now seat.new }
    ensures done { OnOk result (Does live.now seat.old task.now seat.new) }
    ensures fault { IfErr result (λ fault. Lacks live.now.share seat.old task.now fault) }
    ensures idle { OnErr result (IsIdle seat.old seat.new) }
{
    match task {
        Task::Call(request) => {
            let _reply = live.call(rt, seat, *request, &Open)?;
        }
        Task::Flush => {
            let _is_noted = live.flush(rt, seat)?;
        }
        Task::Review => {
            let _is_noted = live.review(rt, seat)?;
        }
    }
    Ok(())
}

// Does the tasks, one after another, up to the first that can't begin.
fn run_tasks<R: Wait, A: Allocator + Clone>(
    rt: &R,
    live: &Live<A>,
    seat: &mut Seat<A>,
    tasks: &[Task],
) -> Result<(), LiveFault>
    requires { IsOf live.now seat.old }
    ensures done { OnOk result (DoesAll live.now seat.old tasks.now seat.new) }
    ensures stops { IfErr result (λ fault. Stops live.now seat.old tasks.now fault seat.new) }
{
    'tasks: for at in 0..tasks.len() {
        run_task(rt, live, seat, &tasks[at])?;
    }
    Ok(())
}

/// Does the tasks of the lane's core, one after another, and keeps why it stopped, where it did.
pub(crate) fn run_lane<R: Wait, A: Allocator + Clone>(
    rt: &R,
    live: &Live<A>,
    tasks: &[Task],
    lane: &mut Lane<A>,
)
    requires { IsOf live.now lane.old.seat }
    ensures { EndsAs live.now lane.old.seat tasks.now lane.new.seat lane.new.fault }
{
    match run_tasks(rt, live, &mut lane.seat, tasks) {
        Ok(()) => lane.fault = None,
        Err(fault) => lane.fault = Some(fault),
    }
}
