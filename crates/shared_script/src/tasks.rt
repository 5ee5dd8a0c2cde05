//! What a core does of a script, on a machine that others share.
ghost use Rattle.std.specs.Prelude.{◌≡◌, ◌≢◌, ◌∷◌, [], IfErr, IfNone, IfSome, OnOk};
ghost use Rattle.shared.specs.Histories.{replied};
ghost use Rattle.shared.specs.Cores.{Answers, HasTurn, MadeAside};
ghost use Rattle.shared.specs.declared.space.Answer.TheVariants as AnswerOf;
ghost use Rattle.shared_script.specs.declared.fault.SharedFault.TheVariants as Stopped;
ghost use Rattle.machine_model.specs.declared.event.Outcome.TheVariants.{Full};
ghost use Rattle.trace_words.specs.declared.script.Task.TheVariants as TaskOf;
ghost use Rattle.shared_script.specs.Lanes.{EndsAs};
ghost use Rattle.shared_script.specs.Tasks.{DoesTasks, IsMade, StopsAt, calls_of};

use crate::fault::SharedFault;
use crate::lane::Lane;
use machine_model::Outcome;
use shared::{Answer, Aside, CoreSeat, Passed, Replied, SharedMachine, Whole};
use std::alloc::Global;
use std::hint::spin_loop;
use std::sync::Wait;
use std::thread::yield_now;
use trace_words::fault::TraceFault;
use trace_words::{Script, Task};
use vm_base::{Reply, Request};

/// How often a core that finds the machine out with another tries again at once, before it lets other threads run.
const PAUSES: u64 = 20;

// Lets a moment pass for a core that has tried so often: a pause, or the time of another thread.
fn pause(tries: u64) {
    if tries < PAUSES {
        spin_loop();
    } else {
        yield_now();
    }
}

// A call of the core, which is tried until no other core is in one. `None`: the machine is at a limit.
fn call<S: Whole + Drop, R: Wait>(
    rt: &R,
    space: &SharedMachine<S>,
    core: &mut CoreSeat<S>,
    request: Request,
) -> Option<Reply>
    requires here { core.old.space ≡ space.now.table.shared.table_id }
    ensures here { core.new.space ≡ core.old.space }
    ensures replied { IfSome result (λ reply. HasTurn S.state core.old (replied request reply ∷ []) (λ x y. Unit {0}) core.new) }
    ensures full { IfNone result (Answers S.state core.old request AnswerOf.Full core.new) }
{
    let mut tries = 0u64;
    'tries: for _turn in rt.forever() {
        match space.call(core, request) {
            Answer::Reply(reply) => return Some(reply),
            Answer::Full => return None,
            Answer::Busy => pause(tries),
        }
        tries = tries.saturating_add(1);
    }
    unreachable!()
}

// An aside of the core, which is tried until no other core is in a call, and what it came to.
fn pass<S: Whole + Drop, R: Wait>(
    rt: &R,
    space: &SharedMachine<S>,
    core: &mut CoreSeat<S>,
    aside: Aside,
) -> Outcome
    requires here { core.old.space ≡ space.now.table.shared.table_id }
    ensures here { core.new.space ≡ core.old.space }
    ensures made { MadeAside S.state core.old aside result core.new }
{
    let mut tries = 0u64;
    'tries: for _turn in rt.forever() {
        match space.aside(core, aside) {
            Passed::Came(outcome) => return outcome,
            Passed::Busy => pause(tries),
        }
        tries = tries.saturating_add(1);
    }
    unreachable!()
}

// Makes the aside, if it is possible now. At the machine's limit of events it is refused.
fn step<S: Whole + Drop, R: Wait>(
    rt: &R,
    space: &SharedMachine<S>,
    core: &mut CoreSeat<S>,
    aside: Aside,
) -> Result<(), SharedFault>
    requires here { core.old.space ≡ space.now.table.shared.table_id }
    ensures made { OnOk result ((outcome : Outcome) × (outcome ≢ Full) × MadeAside S.state core.old aside outcome core.new) }
    ensures here { core.new.space ≡ core.old.space }
    ensures full { IfErr result (λ fault. (fault ≡ Stopped.Full) × MadeAside S.state core.old aside Full core.new) }
{
    let outcome = pass(rt, space, core, aside);
    if outcome == Outcome::Full {
        return Err(SharedFault::Full);
    }
    Ok(())
}

// Makes the call, and keeps it with the reply that it got. There is room for it.
fn make<S: Whole + Drop, R: Wait>(
    rt: &R,
    space: &SharedMachine<S>,
    core: &mut CoreSeat<S>,
    told: &mut Vec<Replied>,
    request: Request,
) -> Result<(), SharedFault>
    requires here { core.old.space ≡ space.now.table.shared.table_id }
    ensures here { core.new.space ≡ core.old.space }
    ensures made { OnOk result (IsMade core.old told.old.items (request ∷ []) core.new told.new.items) }
    ensures did { OnOk result (DoesTasks S.state core.old (TaskOf.Call request ∷ []) core.new) }
    ensures stops { IfErr result (StopsAt S.state core.old (TaskOf.Call request ∷ [])) }
{
    if let Err(_) = told.reserve(1) {
        return Err(SharedFault::Text(TraceFault::NoMemory));
    }
    let Some(reply) = call(rt, space, core, request) else {
        return Err(SharedFault::Full);
    };
    told.push_reserved(Replied { request, reply });
    Ok(())
}

// Does one task.
#[tactic(auto, using(crate::proofs::TaskLemmas::flush_did, crate::proofs::TaskLemmas::review_did, crate::proofs::TaskLemmas::fault_stops))]
fn run_task<S: Whole + Drop, R: Wait>(
    rt: &R,
    space: &SharedMachine<S>,
    core: &mut CoreSeat<S>,
    told: &mut Vec<Replied>,
    task: &Task,
) -> Result<(), SharedFault>
    requires here { core.old.space ≡ space.now.table.shared.table_id }
    ensures here { core.new.space ≡ core.old.space }
    ensures made { OnOk result (IsMade core.old told.old.items (calls_of (task.now ∷ [])) core.new told.new.items) }
    ensures did { OnOk result (DoesTasks S.state core.old (task.now ∷ []) core.new) }
    ensures stops { IfErr result (StopsAt S.state core.old (task.now ∷ [])) }
{
    match task {
        Task::Call(request) => make(rt, space, core, told, *request),
        Task::Flush => {
            step(rt, space, core, Aside::Flush)?;
            Ok(())
        }
        Task::Review => {
            step(rt, space, core, Aside::Review)?;
            Ok(())
        }
    }
}

// Does the tasks, one after another, up to the first that can't be done.
fn run_tasks<S: Whole + Drop, R: Wait>(
    rt: &R,
    space: &SharedMachine<S>,
    core: &mut CoreSeat<S>,
    told: &mut Vec<Replied>,
    tasks: &[Task],
) -> Result<(), SharedFault>
    requires here { core.old.space ≡ space.now.table.shared.table_id }
    ensures here { core.new.space ≡ core.old.space }
    ensures made { OnOk result (IsMade core.old told.old.items (calls_of tasks.now) core.new told.new.items) }
    ensures did { OnOk result (DoesTasks S.state core.old tasks.now core.new) }
    ensures stops { IfErr result (StopsAt S.state core.old tasks.now) }
{
    'tasks: for at in 0..tasks.len() {
        run_task(rt, space, core, told, &tasks[at])?;
    }
    Ok(())
}

/// Does the tasks of the lane's core, one after another, and keeps why it stopped, where it did.
pub(crate) fn run_lane<S: Whole + Drop, R: Wait>(
    rt: &R,
    space: &SharedMachine<S>,
    script: &Script<Global>,
    lane: &mut Lane<S>,
)
    requires { lane.old.core.space ≡ space.now.table.shared.table_id }
    ensures { EndsAs S.state script.now.tasks lane.old lane.new }
{
    let tasks = script.tasks(lane.number);
    match run_tasks(rt, space, &mut lane.core, &mut lane.told, tasks) {
        Ok(()) => lane.stop = None,
        Err(stop) => lane.stop = Some(stop),
    }
}
